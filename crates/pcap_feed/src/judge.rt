//! Judges a capture's header and the record that stands first, in either byte order.

ghost use Rattle.std.specs.Prelude.{◌≡◌, ◌+◌, ◌≤◌, length, IfOk, OnOk};
ghost use Rattle.pcap_feed.specs.Capture.{number_in, order_named, judge_named, judge_head};
ghost use Rattle.pcap_feed.specs.Capture.{judge_record};
ghost use Rattle.pcap_feed.specs.layers.Lent.{Captures};

use crate::fault::{ByteOrder, CaptureError};
use byteorder::{BigEndian, ByteOrder as _, LittleEndian};

/// How many bytes the header of a file has.
pub const HEAD_SIZE: usize = 24;

/// The most bytes that a record captures.
pub const LONGEST_RECORD: u32 = 262144;

// The magic of a file with microseconds, and with nanoseconds.
const MICROSECONDS: u32 = 0xa1b2c3d4;

const NANOSECONDS: u32 = 0xa1b23c4d;

/// The number of the 2 bytes from a place.
#[inline]
pub(crate) fn get_u16(order: ByteOrder, bytes: &[u8], at: usize) -> u16
    requires { at + 2 ≤ length bytes.now }
    ensures { result ≡ number_in order 2 at bytes.now }
{
    match order {
        ByteOrder::Little => LittleEndian::read_u16(&bytes[at..]),
        ByteOrder::Big => BigEndian::read_u16(&bytes[at..]),
    }
}

/// The number of the 4 bytes from a place.
#[inline]
pub(crate) fn get_u32(order: ByteOrder, bytes: &[u8], at: usize) -> u32
    requires { at + 4 ≤ length bytes.now }
    ensures { result ≡ number_in order 4 at bytes.now }
{
    match order {
        ByteOrder::Little => LittleEndian::read_u32(&bytes[at..]),
        ByteOrder::Big => BigEndian::read_u32(&bytes[at..]),
    }
}

// The byte order in which the first four bytes are a magic.
fn order_named(bytes: &[u8]) -> Option<ByteOrder>
    requires { 4 ≤ length bytes.now }
    ensures { result ≡ order_named bytes.now }
{
    let little = LittleEndian::read_u32(bytes);
    if little == MICROSECONDS || little == NANOSECONDS {
        return Some(ByteOrder::Little);
    }
    let big = BigEndian::read_u32(bytes);
    if big == MICROSECONDS || big == NANOSECONDS {
        return Some(ByteOrder::Big);
    }
    None
}

// What the header says behind the magic.
fn judge_named(bytes: &[u8], named: Option<ByteOrder>) -> Result<ByteOrder, CaptureError>
    requires { 24 ≤ length bytes.now }
    ensures { result ≡ judge_named bytes.now named }
{
    let order = match named {
        None => {
            return Err(CaptureError::BadMagic {
                magic: [bytes[0], bytes[1], bytes[2], bytes[3]],
            });
        }
        Some(order) => order,
    };
    let major = get_u16(order, bytes, 4);
    if major != 2 {
        return Err(CaptureError::BadVersion { major });
    }
    let link = (get_u32(order, bytes, 20) % 65536) as u16;
    if link != 1 {
        return Err(CaptureError::BadLink { link });
    }
    Ok(order)
}

/// The byte order that a file's header tells, or the first fault of the header.
#[tactic(auto, unfolding(crate::specs::Capture::judge_head))]
pub fn judge_head(bytes: &[u8]) -> Result<ByteOrder, CaptureError>
    ensures exact { result ≡ judge_head bytes.now }
    ensures whole { OnOk result (24 ≤ length bytes.now) }
{
    if bytes.len() < HEAD_SIZE {
        return Err(CaptureError::Truncated {
            has: bytes.len() as u32,
            needs: 24,
        });
    }
    judge_named(bytes, order_named(bytes))
}

/// How many bytes the record at the front has captured, or why no record stands there.
#[tactic(auto, unfolding(crate::specs::Capture::judge_record))]
pub fn judge_record(order: ByteOrder, bytes: &[u8]) -> Result<usize, CaptureError>
    ensures exact { result ≡ judge_record order bytes.now }
    ensures fits { IfOk result (λ captured. Captures bytes.now captured) }
{
    if bytes.len() < 16 {
        return Err(CaptureError::Truncated {
            has: bytes.len() as u32,
            needs: 16,
        });
    }
    let captured = get_u32(order, bytes, 8);
    if captured > LONGEST_RECORD {
        return Err(CaptureError::LongRecord { length: captured });
    }
    let needs = 16 + captured;
    if bytes.len() < needs as usize {
        return Err(CaptureError::Truncated {
            has: bytes.len() as u32,
            needs,
        });
    }
    Ok(captured as usize)
}
