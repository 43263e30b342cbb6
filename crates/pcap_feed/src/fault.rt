//! The faults of a capture file, with their places and in words.

ghost use Rattle.std.specs.Prelude.{◌≡◌};
ghost use Rattle.pcap_feed.specs.Capture.{is_cut_off};

use std::fmt;

/// The byte order of a capture file's numbers.
#[derive(Clone, Copy, Debug, PartialEq, Eq)]
pub enum ByteOrder {
    Little,
    Big,
}

/// Why a capture file does not begin, or go on, as one does.
#[derive(Clone, Copy, Debug, PartialEq, Eq)]
pub enum CaptureError {
    /// Fewer bytes are there than the header, or the record, has.
    Truncated { has: u32, needs: u32 },
    /// The first four bytes are no magic of a classic capture file.
    BadMagic { magic: [u8; 4] },
    /// The major version is not 2.
    BadVersion { major: u16 },
    /// The link type is not 1, Ethernet.
    BadLink { link: u16 },
    /// A record of more than 262,144 captured bytes.
    LongRecord { length: u32 },
}

impl CaptureError {
    /// The header or the record is cut off: more bytes may complete it.
    pub fn is_cut_off(&self) -> bool
        ensures { result ≡ is_cut_off self.now }
    {
        matches!(*self, CaptureError::Truncated { .. })
    }
}

// A byte, which is written by two hexadecimal digits.
#[derive(Clone, Copy)]
struct HexByte(u8);

impl fmt::Display for HexByte {
    ghost use Rattle.std.specs.Prelude.{Some};
    ghost use Rattle.pcap_feed.specs.Causes.{byte_in_hex};

    ghost output = { λ byte. Some (byte_in_hex byte.0) };

    fn fmt<W: fmt::Write>(&self, f: &mut fmt::Formatter<W>) -> fmt::Result {
        let high = self.0 / 16;
        let low = self.0 % 16;
        write!(f, "{high:x}{low:x}")
    }
}

/// The cause in words, as `truncated, has 5 of 24`.
impl fmt::Display for CaptureError {
    ghost use Rattle.std.specs.Prelude.{Some};
    ghost use Rattle.pcap_feed.specs.Causes.{capture_cause_text};

    ghost output = { λ error. Some (capture_cause_text error) };

    fn fmt<W: fmt::Write>(&self, f: &mut fmt::Formatter<W>) -> fmt::Result {
        match *self {
            CaptureError::Truncated { has, needs } => write!(f, "truncated, has {has} of {needs}"),
            CaptureError::BadMagic { magic } => {
                let first = HexByte(magic[0]);
                let second = HexByte(magic[1]);
                let third = HexByte(magic[2]);
                let fourth = HexByte(magic[3]);
                write!(
                    f,
                    "magic {first}{second}{third}{fourth} is no classic capture"
                )
            }
            CaptureError::BadVersion { major } => write!(f, "version {major}"),
            CaptureError::BadLink { link } => write!(f, "link type {link}"),
            CaptureError::LongRecord { length } => write!(f, "record of length {length}"),
        }
    }
}

/// A fault of a capture file: its place, which is 0 for the header and the record's else, and what
/// is wrong.
#[derive(Clone, Copy, Debug, PartialEq, Eq)]
pub struct CaptureFault {
    pub place: u64,
    pub error: CaptureError,
}

/// The fault in words, as `byte 0: truncated, has 5 of 24`.
impl fmt::Display for CaptureFault {
    ghost use Rattle.std.specs.Prelude.{Some};
    ghost use Rattle.pcap_feed.specs.Causes.{capture_fault_text};

    ghost output = { λ fault. Some (capture_fault_text fault) };

    fn fmt<W: fmt::Write>(&self, f: &mut fmt::Formatter<W>) -> fmt::Result {
        let place = self.place;
        let error = self.error;
        write!(f, "byte {place}: {error}")
    }
}

/// Why feeding did not go on: a fault of the file, or no memory.
#[derive(Clone, Copy, Debug, PartialEq, Eq)]
pub enum CaptureFeedError {
    Fault(CaptureFault),
    OutOfMemory,
}
