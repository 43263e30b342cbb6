//! What the program's words ask for.

ghost use Rattle.std.specs.Prelude.{◌≡◌, IfOk, MatchOption, map, string_bytes};
ghost use Rattle.clap.specs.Simple.{subcommand_rows_of};
ghost use Rattle.long_options.specs.Plain.{has_dashes as some_dashes};
ghost use Rattle.live_words.specs.Asked.{HasAsked, IsAsked};
ghost use Rattle.live_words.specs.declared.words.Asked.{Asked as AskedFor};

use crate::found::listen_of;
use crate::parse::parse;
use crate::served::serve_of;
use crate::words::Asked;
use clap::ArgMatches;
use pitch_fields::OutOfMemory;
use std::alloc::Global;

// Whether a word is `--`.
fn has_dashes(words: &[String]) -> bool
    ensures { result ≡ some_dashes (map string_bytes words.now) }
{
    words.iter().any(|word| word.as_str() == "--")
}

// What `clap`'s matches ask for, if anything.
fn asked_in(alloc: Global, matches: &ArgMatches) -> Result<Option<Asked>, OutOfMemory>
    ensures { IfOk result (λ answer. MatchOption answer
        ((asked : AskedFor) → ¬ HasAsked (subcommand_rows_of matches.now) asked)
        (HasAsked (subcommand_rows_of matches.now))) }
{
    match matches.subcommand() {
        Some((name, inner)) => {
            if name == "listen" {
                Ok(listen_of(alloc, inner)?.map(Asked::Listen))
            } else if name == "serve" {
                Ok(serve_of(alloc, inner)?.map(Asked::Serve))
            } else {
                Ok(None)
            }
        }
        None => Ok(None),
    }
}

/// What the words ask for, or `None` exactly where they ask for nothing.
///
/// `words` are the words after the program's own name. The one error is want of memory.
pub fn read(alloc: Global, words: &[String]) -> Result<Option<Asked>, OutOfMemory>
    ensures asked { IfOk result (λ answer. MatchOption answer ((asked : AskedFor)
        → ¬ IsAsked (map string_bytes words.now) asked) (IsAsked (map string_bytes words.now))) }
{
    if has_dashes(words) {
        return Ok(None);
    }
    match parse(alloc, words)? {
        Some(matches) => asked_in(alloc, &matches),
        None => Ok(None),
    }
}
