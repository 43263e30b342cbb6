//! The commands that a venue makes itself, of a number, and their text, as a venue's input has it.
//!
//! They come in rounds of 24, which have each kind of message that a venue sends, and the last one
//! ends the session. `made_command` gives one of them. `PlanText` gives their lines, those of each
//! second once it has come, in pieces of any size.
#![tactic(auto)]

mod made;
mod text;

pub use crate::made::made_command;
pub use crate::text::PlanText;
