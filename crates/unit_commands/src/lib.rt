//! Commands to many units, from a text that comes in pieces.
//!
//! A line is a command with the number of its unit before it, as in a schedule; `UnitCommands` goes
//! over the lines of some bytes. `TextPieces` keeps what came of a text and was not read: push what
//! one read brings, read the whole lines, pass them; the unfinished line waits for its rest, and is
//! a line too where the text ends. What was said by the pieces is what the text says, however it is
//! cut, as the laws tell.
#![tactic(auto)]

pub mod laws;
mod pieces;
mod unit_command;

pub use crate::pieces::{LONGEST_REST, PieceError, TextPieces};
pub use crate::unit_command::{UnitCommandEntry, UnitCommandLines, UnitCommands};
