//! The words of a command line, and the form that they are.
//!
//! A form is one thing that the program can be asked to do, with its numbers:
//!
//! | Words | Range | Default |
//! |---|---|---|
//! | `follow [--hold H]` | H is 1 to 65,536 | 4,096 |
//! | `follow --pcap [--port P] [--hold H]` | P is 0 to 65,535, H as above | any port; 4,096 |
//! | `show` | | |
//! | `pack --unit U` | U is 1 to 255 | |
//! | `replay [--workers K]` | K is 1 to 64 | 1 |
//! | `storm --number S --units N --steps M [--workers K]` | S, N, M as below, K as above | 1 |
//! | `drill --number S --units N --count C` | S and N as below, C is 1 to 100,000 | |
//! | `demo --number S --count C` | S as below, C is 1 to 1,000 | |
//! | `relay [--hold H]` | H as above | 4,096 |
//! | `quotes [--hold H]` | H as above | 4,096 |
//! | `audit` | | |
//!
//! S is below 2^64, N is 1 to 16, and M is 1 to 10,000.
//!
//! The first word is a command's name. The options follow in any order, each at most once, as
//! `--name value` or `--name=value`; those in brackets may be left out. A value is 1 to 20 digits
//! and lies within its range, and leading zeros count as digits. All else is no form: no words, an
//! empty word, the word `--`, a repeated option, a word that the command does not have, and any
//! request for help or a version.
//!
//! `clap` reads the words, with its own help and version switched off, and its answer decides. The
//! program adds only what `clap` would let pass: no word is `--`, and each number lies within its
//! range.
#![tactic(auto)]

mod app;
mod digits;
mod form;
mod found;
mod parse;
mod reading;

pub use crate::digits::number;
pub use crate::form::{Carried, Form, StreamWords, TextWords};
pub use crate::reading::{one_form, read};
