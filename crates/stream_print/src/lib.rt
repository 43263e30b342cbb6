//! A stream of blocks read from a source and printed to a sink: a text for each block as soon as it
//! has come, and one at the stream's end. The blocks stand back to back, or in the datagrams of a
//! capture file, whose packets are counted.
//!
//! `print_stream` says for each way to end what was written, whatever pieces the source gives: the
//! whole text, the texts of the blocks before a fault, or some prefix of the text where a device or
//! memory failed. Where the text of a block or of a book rests on the messages of a venue, that is
//! said for every venue of which the blocks of its unit speak. Give it a carrier, a form, a source
//! and a sink; a command with a new form adds a `Task`, and one whose blocks come otherwise a
//! `Carrier` with its reader.
#![tactic(auto)]

mod blocks;
mod books;
mod carrier;
mod counts;
mod failure;
mod laws;
mod listed;
mod packets;
mod page;
mod pieces;
mod printer;
mod putting;
mod reader;
mod shown;
mod stream;
mod stream_form;
mod task;

pub use crate::books::print_book;
pub use crate::carrier::Carrier;
pub use crate::failure::{PrintError, StreamFailure, StreamTrouble, TaskError};
pub use crate::laws::honest_blocks_have_the_text_of_their_venues;
pub use crate::page::Page;
pub use crate::pieces::{PIECE, piece_buffer, take_at_most};
pub use crate::printer::Printer;
pub use crate::putting::{PutFailed, put_all};
pub use crate::stream::{INPUT_LIMIT, print_stream};
pub use crate::stream_form::StreamForm;
pub use crate::task::Task;
