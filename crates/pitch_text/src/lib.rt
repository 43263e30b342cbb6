//! Venue commands and schedules as text: one grammar, read and printed.
//!
//! `read_commands` and `read_schedule` append the entries of a text to a list, or answer the place
//! and the cause of the text's first fault, and then leave the list as it was. `Commands` and
//! `Schedule` go over the entries of a text one at a time, and keep none of them. `print_entry`
//! appends an entry's canonical line, which reads as that entry again.
#![tactic(auto)]

mod command;
mod command_rules;
mod command_text;
mod defaults;
pub mod laws;
mod options;
mod print;
mod schedule_text;
mod verb;
mod verb_rules;
mod well_formed;

pub use crate::command::{Command, CommandEntry};
pub use crate::command_text::{CommandLines, CommandList, Commands, read_commands};
pub use crate::defaults::{
    DEFAULT_DAY, DEFAULT_HOLD, DEFAULT_KEPT, DEFAULT_MINUTE, DEFAULT_SECOND,
};
pub use crate::print::print_entry;
pub use crate::schedule_text::{Schedule, ScheduleLines, ScheduleList, read_schedule};
pub use crate::verb::{ScheduleEntry, Session, Verb};
pub use text_lines::{TextCause, TextError};
