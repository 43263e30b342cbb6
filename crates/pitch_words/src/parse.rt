//! What `clap` makes of the words.

ghost use Rattle.std.specs.Prelude.{◌≡◌, ◌≢◌, IfOk, MatchOption, [], map, string_bytes};
ghost use Rattle.clap.specs.Faults.{fault_of};
ghost use Rattle.clap.specs.Simple.{subcommand_of, subcommand_rows_of};
ghost use Rattle.pitch_words.specs.layers.Commands.{pitch};

use crate::app::app;
use clap::ArgMatches;
use long_options::matches_of;
use pitch_fields::OutOfMemory;
use std::alloc::Global;

// The matches, or `None` where `clap` refuses the words.
pub(crate) fn parse<'a>(
    alloc: Global,
    words: &'a [String],
) -> Result<Option<ArgMatches<'a>>, OutOfMemory>
    ensures { IfOk result (λ read. MatchOption read (fault_of pitch (map string_bytes words.now)
        ≢ []) (λ m. (fault_of pitch (map string_bytes words.now) ≡ [])
        × (subcommand_rows_of m ≡ subcommand_of pitch (map string_bytes words.now)))) }
{
    let Ok(app) = app(alloc) else {
        return Err(OutOfMemory);
    };
    matches_of(app, words)
}
