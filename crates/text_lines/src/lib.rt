//! Texts as lines of fields, read by a grammar of the caller's, up to the first fault.
//!
//! A text is cut into lines, and a line into fields between spaces, each with the column of its
//! first byte; lines of spaces only, and those that begin with `#`, are skipped. A text is read
//! exactly as the caller's grammar says, or refused at its first fault, with its line, its column
//! and its cause.
//!
//! Write a `Grammar`: its reading, as a definition, and `read`, which takes a line's fields from
//! the left by `read_number`, `read_symbol` and their kin, then the optional ones by `next_word`
//! and `next_value`, and last the end of the line. `read_text` appends the entries of a whole text
//! to a list; `Lines` goes over them one at a time.
#![tactic(auto)]

mod fault;
mod fields;
pub mod kinds;
mod lines;
mod options;
mod reading;

pub use crate::fault::{Fault, TextCause, TextError};
pub use crate::fields::{FoundField, LineFields, length_before};
pub use crate::lines::{Grammar, LONGEST_LINE, Lines, read_text};
pub use crate::options::{next_end, next_value, next_word};
pub use crate::reading::{
    missing_field, read_byte, read_count, read_end, read_number, read_price, read_side, read_symbol,
};
