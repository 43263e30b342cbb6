//! What `clap` makes of the words.

ghost use Rattle.std.specs.Prelude.{◌≡◌, ◌≢◌, IfOk, MatchOption, [], map, string_bytes, true};
ghost use Rattle.clap.specs.Faults.{fault_of, is_simple_and_free};
ghost use Rattle.clap.specs.Simple.{app_of, subcommand_of, subcommand_rows_of};

use clap::error::ErrorKind;
use clap::{ArgMatches, Command};
use pitch_fields::OutOfMemory;

/// The matches that an app has for the words, or `None` where it refuses them. An error is want of
/// memory.
pub fn matches_of<'a>(
    app: Command<'a>,
    words: &'a [String],
) -> Result<Option<ArgMatches<'a>>, OutOfMemory>
    requires { is_simple_and_free (app_of app) ≡ true }
    ensures { IfOk result (λ read. MatchOption read (fault_of (app_of app.entry) (map string_bytes
        words.now) ≢ []) (λ m. (fault_of (app_of app.entry) (map string_bytes words.now) ≡ [])
        × (subcommand_rows_of m ≡ subcommand_of (app_of app.entry) (map string_bytes words.now)))) }
{
    match app.try_get_matches_from(words) {
        Ok(matches) => Ok(Some(matches)),
        Err(error) => match error.kind() {
            ErrorKind::OutOfMemory => Err(OutOfMemory),
            _ => Ok(None),
        },
    }
}
