//! The form that the program's words are.
ghost use Rattle.std.specs.Prelude.{◌≡◌, List, IfOk, IfSome, MatchOption, map, string_bytes};
ghost use Rattle.long_options.specs.Words.{Text};
ghost use Rattle.long_options.specs.Plain.{has_dashes as some_dashes};
ghost use Rattle.pitch_words.specs.Forms.{IsForm};
ghost use Rattle.pitch_words.specs.layers.Commands.{IsInRange};
ghost use Rattle.pitch_words.specs.declared.form.Form.{Form};

use crate::form::Form;
use crate::found::form_of;
use crate::parse::parse;
use pitch_fields::OutOfMemory;
use std::alloc::Global;

// Whether a word is `--`.
fn has_dashes(words: &[String]) -> bool
    ensures { result ≡ some_dashes (map string_bytes words.now) }
{
    words.iter().any(|word| word.as_str() == "--")
}

/// The form that the words are, or `None` exactly where they are none.
///
/// `words` are the words after the program's own name. The numbers of a form lie within their
/// ranges. The one error is want of memory.
pub fn read(alloc: Global, words: &[String]) -> Result<Option<Form>, OutOfMemory>
    ensures form { IfOk result (λ answer. MatchOption answer ((form : Form)
        → ¬ IsForm (map string_bytes words.now) form) (IsForm (map string_bytes words.now))) }
    ensures range { IfOk result (λ answer. IfSome answer IsInRange) }
{
    if has_dashes(words) {
        return Ok(None);
    }
    match parse(alloc, words)? {
        Some(matches) => Ok(form_of(&matches)),
        None => Ok(None),
    }
}

/// Words are at most one form.
pub fn one_form()
    ensures { (words : List Text) (a b : Form) → IsForm words a → IsForm words b → a ≡ b }
{}
