//! The words of a program of subcommands, as `clap` takes them.
//!
//! The programs meant are those whose subcommands have only long options, each with one value or
//! none. The words of such a program are a command's name and then options of that command in any
//! order, each at most once: `--name value` or `--name=value` where the option takes a value,
//! `--name` where it takes none. An option that must be there is there. A value that stands as a
//! word of its own begins with no hyphen, unless it is a hyphen alone.
//!
//! The definitions are in `specs/Words.antt`, and know nothing of `clap`; `specs/Apps.antt` says
//! what `clap`'s builders make of such a program. Proved here, for each such program whose names
//! are plain, is that `clap` takes exactly these words and finds exactly the options that they
//! give. Words with `--` among them, which to `clap` ends the options, are left out. `matches_of`
//! has `clap` find them.
#![tactic(auto)]

ghost use Rattle.long_options.specs.layers.Finding.{CallsTaken, TakesCalls};

mod matching;

pub use crate::matching::matches_of;

/// Words that `clap` takes are a command with its options, which `clap` finds; and words that are a
/// command with its options are taken.
pub fn takes_exactly_calls()
    ensures takes_calls { TakesCalls }
    ensures calls_taken { CallsTaken }
{}
