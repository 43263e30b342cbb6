//! The words of a setup file: of each line an option, and its value behind a space.

ghost use Rattle.std.specs.Prelude.{◌≡◌, ◌++◌, ◌∷◌, [], IfOk, OnOk, map, string_bytes};
ghost use Rattle.std.specs.List.{flat_map};
ghost use Rattle.std.specs.Str.Lines.{lines};
ghost use Rattle.live_setups.specs.Given.{line_words, option_words, setup_words};

use std::alloc::{AllocError, Global};

// Adds a word.
fn add_word(alloc: Global, word: &str, words: &mut Vec<String>) -> Result<(), AllocError>
    ensures { OnOk result (map string_bytes words.new.items
        ≡ map string_bytes words.old.items ++ word.now ∷ []) }
{
    words.push(String::from_str(alloc, word)?)?;
    Ok(())
}

// Adds the words of a line that is neither blank nor a comment.
fn add_option(alloc: Global, line: &str, words: &mut Vec<String>) -> Result<(), AllocError>
    ensures { OnOk result (map string_bytes words.new.items
        ≡ map string_bytes words.old.items ++ option_words line.now) }
{
    match line.split_once(' ') {
        Some((option, value)) => {
            add_word(alloc, option, words)?;
            add_word(alloc, value.trim(), words)
        }
        None => add_word(alloc, line, words),
    }
}

// Adds the words of a line.
fn add_line(alloc: Global, line: &str, words: &mut Vec<String>) -> Result<(), AllocError>
    ensures { OnOk result (map string_bytes words.new.items
        ≡ map string_bytes words.old.items ++ line_words line.now) }
{
    let bare = line.trim();
    if bare.is_empty() || bare.starts_with('#') {
        return Ok(());
    }
    add_option(alloc, bare, words)
}

// The lines of a text.
fn lines_of(alloc: Global, text: &str) -> Result<Vec<&str>, AllocError>
    ensures { IfOk result (λ all. map (λ line. line.now) all.items ≡ lines text.now) }
{
    text.lines().collect(alloc)
}

// Adds the words of some lines.
fn add_lines(alloc: Global, lines: &[&str], words: &mut Vec<String>) -> Result<(), AllocError>
    ensures { OnOk result (map string_bytes words.new.items
        ≡ map string_bytes words.old.items ++ flat_map (λ l. line_words l.now) lines.now) }
{
    'lines: for line in lines {
        add_line(alloc, line, words)?;
    }
    Ok(())
}

/// Adds the words of a setup file's text, behind those that are there. A line has an option, and
/// its value behind a space; one that is blank, or begins with `#`, has none.
///
/// The one error is want of memory: then some of the words may have been added.
#[tactic(auto, using(crate::proofs::Lines::of_texts))]
pub fn add_setup(alloc: Global, text: &str, words: &mut Vec<String>) -> Result<(), AllocError>
    ensures words { OnOk result (map string_bytes words.new.items
        ≡ map string_bytes words.old.items ++ setup_words text.now) }
{
    let lines = lines_of(alloc, text)?;
    add_lines(alloc, &lines, words)
}
