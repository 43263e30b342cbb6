//! The words of the program `pitch_live`, and what they ask for.
//!
//! | Words | Range | Default |
//! |---|---|---|
//! | `listen` | | |
//! | `--a PORT`, `--b PORT`, `--gap PORT` | `ADDR:NUMBER` or `fd:N`, N is 3 to 65,535 | no line |
//! | `--from IP` | an address without a number | every sender |
//! | `--unit U` | U is 1 to 255 | the units of the servers; every unit where there is none |
//! | `--grp U@ADDR:NUMBER`, `--spin U@ADDR:NUMBER` | the same | nobody is asked |
//! | `--sub S`, `--user U`, `--password P` | 1 to 4, 4 and 10 bytes | no account |
//! | `--hold H` | H is 1 to 65,536 | 4,096 |
//! | `--seconds N` | N is below 2^64 | no end |
//! | `serve` | | |
//! | `--a U@ADDR:NUMBER` | U is 1 to 255 | no unit |
//! | `--b U@ADDR:NUMBER`, `--gap U@ADDR:NUMBER` | the same | U has no such line |
//! | `--grp U@ADDR:NUMBER`, `--spin U@ADDR:NUMBER` | the same | U has no such server |
//! | `--sub S`, `--user U`, `--password P` | 1 to 4, 4 and 10 bytes | no account |
//! | `--kept K` | K is 1 to 65,536 | 65,536 |
//! | `--second A`, `--minute B`, `--day C` | each is 1 to 1,000,000 | 10, 100 and 10,000 |
//! | `--seconds N`, `--after N` | N is below 2^64 | no end |
//! | `--plan NUMBER` | NUMBER is below 2^64 | no commands of its own |
//! | `--count C` | C is 1 to 1,000,000,000 | none: it is given where `--plan` is |
//! | `--rate R` | R is 1 to 1,000,000 | 1,000 where `--plan` is given |
//! | `--lose LINE:SHARE` | LINE is `a`, `b` or `gap`, SHARE is 0 to 100 | 0 |
//! | `--repeat LINE:SHARE`, `--swap LINE:SHARE` | the same | 0 |
//! | `--cut N` | N is 1 to 2^64 - 1 | no cuts |
//! | `--number S` | S is below 2^64 | 1 |
//! | `--report FILE` | any text | no report |
//!
//! The first word is `listen` or `serve`. Its options follow in any order, as `--name value` or
//! `--name=value`. Lines, senders, units, servers and shares may be given several times, the others
//! once. At least one line is given to `listen`, and one line A to `serve`, whose units are those
//! of its lines A, at most 64. There a unit has one line of a kind at most, and a line one share of
//! a kind; in both a unit has one server of a kind. The account is given whole or not at all, and
//! is given where a server is; `--count` and `--rate` are given only with `--plan`. A value is 1 to
//! 20 digits, where it is a number, and lies within its range. All else asks for nothing: no words,
//! an empty word, the word `--`, a word that is no option, and any request for help or a version.
//!
//! `clap` reads the words, with its own help and version switched off, and its answer decides.
#![tactic(auto)]

mod app;
mod found;
mod listen_words;
mod named;
mod parse;
mod reading;
mod serve_words;
mod served;
mod servers;
mod shares;
mod trial_words;
mod trials;
mod venue;
mod words;

pub use crate::listen_words::{LineWords, ListenWords, Server, ServerWords};
pub use crate::reading::read;
pub use crate::serve_words::{ServeWords, UnitWords};
pub use crate::trial_words::{HarmWords, PlanWords, ShareWords, TrialWords};
pub use crate::words::Asked;
