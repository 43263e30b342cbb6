//! The program `pitch` as one call over words, a source, two sinks, a net and a gate.
//!
//! `pitch` finds the form that the words are, does its job and answers the exit status. Each status
//! has one sentence, `Closes`, on the words, on what was read and written, and on what was said. A
//! job reads a stream of blocks, reads a text, reads a log with a report, or reads nothing, as a
//! storm, a drill and a demo do; a new command is a form of one of the first two, or a new job.
#![tactic(auto)]

mod commands;
mod failure;
mod program;
mod reading;
mod saying;
mod status;
mod stream;
mod text;

pub use crate::program::pitch;
pub use crate::saying::say_out_of_memory;
pub use crate::status::ExitStatus;
