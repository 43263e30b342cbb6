//! Classic capture files: how a file is cut into records, what is wrong where it cannot be cut, and
//! the UDP datagram that a record carries.
#![tactic(auto)]

mod fault;
mod judge;
mod laws;
mod payload;
mod reader;
mod record;

pub use crate::fault::{ByteOrder, CaptureError, CaptureFault, CaptureFeedError};
pub use crate::judge::{HEAD_SIZE, LONGEST_RECORD, judge_head, judge_record};
pub use crate::laws::{cutting_laws, feeding_laws};
pub use crate::payload::{payload_in, payload_of};
pub use crate::reader::CaptureReader;
pub use crate::record::{Record, RecordList, RecordView, view_record};
