//! Records of a capture, lent from the file's bytes or copied out of them.

ghost use Rattle.std.specs.Prelude.{◌≡◌, ◌+◌, ◌≤◌, length, IfOk, IfErr, Err};
ghost use Rattle.pcap_feed.specs.Capture.{judge_record};
ghost use Rattle.pcap_feed.specs.layers.Lent.{StandsAtFront};

use crate::fault::{ByteOrder, CaptureError};
use crate::judge::{get_u32, judge_record};
use pitch_fields::OutOfMemory;
use pitch_messages::{ByteList, List};
use std::alloc::Global;
use std::marker::Model;

/// A record of a capture file: when it was captured, how many bytes the frame had, and the bytes
/// captured of it.
#[derive(Drop)]
pub struct Record {
    pub seconds: u32,
    pub fraction: u32,
    pub original: u32,
    pub bytes: ByteList,
}

impl Model for Record {
    ghost use Rattle.pcap_feed.specs.Capture.{Packet};
    ghost use Rattle.pcap_feed.specs.layers.Lent.{packet_of};

    ghost Value = { Packet };

    ghost view = { λ r. packet_of r.seconds r.fraction r.original r.bytes.items };
}

/// A list of records.
pub type RecordList = List<Record>;

/// A record, lent from the bytes in which it stands.
#[derive(Drop)]
pub struct RecordView<'a> {
    pub seconds: u32,
    pub fraction: u32,
    pub original: u32,
    pub bytes: &'a [u8],
}

impl<'a> Model for RecordView<'a> {
    ghost use Rattle.pcap_feed.specs.Capture.{Packet};
    ghost use Rattle.pcap_feed.specs.layers.Lent.{packet_of};

    ghost Value = { Packet };

    ghost view = { λ r. packet_of r.seconds r.fraction r.original r.bytes.now };
}

impl<'a> RecordView<'a> {
    /// How many bytes the record has in the file, with its header.
    pub fn size(&self) -> usize
        requires { length self.now.bytes ≤ 262144 }
        ensures { result ≡ 16 + length self.now.bytes }
    {
        16 + self.bytes.len()
    }

    /// A record of its own, copied in one go.
    pub fn to_record(&self, alloc: Global) -> Result<Record, OutOfMemory>
        ensures { IfOk result (λ own. own ≡ self.now) }
    {
        Ok(Record {
            seconds: self.seconds,
            fraction: self.fraction,
            original: self.original,
            bytes: ByteList::of_bytes(alloc, self.bytes)?,
        })
    }
}

/// The record at the front of the bytes, or the first fault that stands there. It takes no memory.
pub fn view_record(order: ByteOrder, bytes: &[u8]) -> Result<RecordView<'_>, CaptureError>
    ensures found { IfOk result (λ packet. StandsAtFront order bytes.now packet) }
    ensures fault { IfErr result (λ error. judge_record order bytes.now ≡ Err error) }
{
    let captured = match judge_record(order, bytes) {
        Ok(captured) => captured,
        Err(error) => return Err(error),
    };
    Ok(RecordView {
        seconds: get_u32(order, bytes, 0),
        fraction: get_u32(order, bytes, 4),
        original: get_u32(order, bytes, 12),
        bytes: &bytes[16..16 + captured],
    })
}
