//! The lines that the program prints, each written into a lent buffer at an index.
//!
//! Each function answers where its line ends, and its contract says which bytes stand there
//! afterwards: those of the definition. Nothing here takes memory, and nothing can fail, but for
//! `append_unit_line`, which appends its line to a list.
#![tactic(auto)]

mod fields;
pub mod laws;
mod lines;
mod messages;
mod unit_line;

pub use crate::lines::{
    LINE, put_block_line, put_book_head, put_number_field, put_order_line, put_overflow,
    put_shown_head, put_status, put_status_line,
};
pub use crate::messages::{next_after, put_message_line};
pub use crate::unit_line::{append_unit_line, put_unit_line};
