//! Reads a capture in pieces: first its header, then each record as it becomes whole.

ghost use Rattle.std.specs.Prelude.{◌≡◌, ℕ, ◌≤◌, List, ◌++◌, [], ◌∷◌, length, IfOk, OnOk, OnErr};
ghost use Rattle.std.specs.Prelude.{Ok, Err, Some, None, true};
ghost use Rattle.pcap_feed.specs.Capture.{judge_head, ordered, capture_fault_from, capture_fault};
ghost use Rattle.pcap_feed.specs.Capture.{capture_end_fault, left_error};
ghost use Rattle.pcap_feed.specs.Feeding.{unfed, more_loaded, put_behind, past_head, HoldsCapture};
ghost use Rattle.pcap_feed.specs.Feeding.{FeedsCapture, WithRoomFor, IsFaultRepeated, CutsRecords};
ghost use Rattle.pcap_feed.specs.Feeding.{CutsCapture, capture_answer, capture_end_answer};
ghost use Rattle.pcap_feed.specs.Feeding.{held_fault, GoesOn};

use crate::fault::{ByteOrder, CaptureError, CaptureFault, CaptureFeedError};
use crate::judge::{HEAD_SIZE, judge_head, judge_record};
use crate::record::{RecordList, RecordView, view_record};
use pitch_fields::OutOfMemory;
use std::alloc::Global;
use std::marker::Model;
use unit_packets::StreamRest;

// What is wrong with a rest, if anything is.
fn left_error(order: Option<ByteOrder>, rest: &[u8]) -> Option<CaptureError>
    ensures { result ≡ left_error order rest.now }
{
    match order {
        None => match judge_head(rest) {
            Ok(_) => None,
            Err(error) => Some(error),
        },
        Some(order) => {
            if rest.is_empty() {
                return None;
            }
            match judge_record(order, rest) {
                Ok(_) => None,
                Err(error) => Some(error),
            }
        }
    }
}

// The fault that an error is: one that more bytes do not mend, or the file has ended.
fn capture_fault_from(ended: bool, place: u64, error: Option<CaptureError>) -> Option<CaptureFault>
    ensures { result ≡ capture_fault_from ended place error }
{
    match error {
        None => None,
        Some(error) => {
            if error.is_cut_off() && !ended {
                return None;
            }
            Some(CaptureFault { place, error })
        }
    }
}

fn answer(fault: Option<CaptureFault>) -> Result<(), CaptureFeedError>
    ensures { result ≡ capture_answer fault }
{
    match fault {
        None => Ok(()),
        Some(fault) => Err(CaptureFeedError::Fault(fault)),
    }
}

// Appends a copy of a lent record.
fn push_copy(alloc: Global, view: &RecordView<'_>, out: &mut RecordList) -> Result<(), OutOfMemory>
    ensures ok { OnOk result (out.new.items ≡ out.old.items ++ view.now ∷ []) }
    ensures err { OnErr result (out.new.items ≡ out.old.items) }
{
    let record = view.to_record(alloc)?;
    out.push(record)
}

// Appends the records from a place on. Answers the place behind them, and why no record stands
// there.
fn cut_records(
    alloc: Global,
    order: ByteOrder,
    bytes: &[u8],
    start: usize,
    out: &mut RecordList,
) -> Result<(usize, CaptureError), OutOfMemory>
    requires { start ≤ length bytes.now }
    ensures ok { IfOk result
        (λ cut. CutsRecords order bytes.now start cut.0 cut.1 out.old.items out.new.items) }
    ensures err { OnErr result (out.new.items ≡ out.old.items) }
{
    let before = out.len();
    let mut at = start;
    'next: while at <= bytes.len() {
        let rest = &bytes[at..];
        match view_record(order, rest) {
            Ok(view) => {
                match push_copy(alloc, &view, out) {
                    Ok(()) => {}
                    Err(error) => {
                        out.truncate(before);
                        return Err(error);
                    }
                }
                at += view.size();
            }
            Err(error) => return Ok((at, error)),
        }
    }
    unreachable!()
}

// What was cut: the byte order that is told by then, the place behind what was cut, and why nothing
// stands there.
#[derive(Clone, Copy)]
struct Passed {
    told: Option<ByteOrder>,
    count: usize,
    error: CaptureError,
}

// Appends the records at the front of the bytes, whose byte order was told.
fn cut_told(
    alloc: Global,
    order: ByteOrder,
    bytes: &[u8],
    out: &mut RecordList,
) -> Result<Passed, OutOfMemory>
    ensures ok { IfOk result (λ cut. CutsCapture
        (Some order) bytes.now cut.told cut.count cut.error out.old.items out.new.items) }
    ensures err { OnErr result (out.new.items ≡ out.old.items) }
{
    match cut_records(alloc, order, bytes, 0, out) {
        Ok((count, error)) => Ok(Passed {
            told: Some(order),
            count,
            error,
        }),
        Err(error) => Err(error),
    }
}

// Appends the records behind a header that tells this byte order.
fn cut_begun(
    alloc: Global,
    order: ByteOrder,
    bytes: &[u8],
    out: &mut RecordList,
) -> Result<Passed, OutOfMemory>
    requires whole { 24 ≤ length bytes.now }
    requires header { judge_head bytes.now ≡ Ok order }
    ensures ok { IfOk result (λ cut.
        CutsCapture None bytes.now cut.told cut.count cut.error out.old.items out.new.items) }
    ensures err { OnErr result (out.new.items ≡ out.old.items) }
{
    match cut_records(alloc, order, bytes, HEAD_SIZE, out) {
        Ok((count, error)) => Ok(Passed {
            told: Some(order),
            count,
            error,
        }),
        Err(error) => Err(error),
    }
}

// Appends the records at the front of the bytes, where no byte order is told yet behind a header.
fn cut_piece(
    alloc: Global,
    told: Option<ByteOrder>,
    bytes: &[u8],
    out: &mut RecordList,
) -> Result<Passed, OutOfMemory>
    ensures ok { IfOk result (λ cut.
        CutsCapture told bytes.now cut.told cut.count cut.error out.old.items out.new.items) }
    ensures err { OnErr result (out.new.items ≡ out.old.items) }
{
    match told {
        Some(order) => cut_told(alloc, order, bytes, out),
        None => match judge_head(bytes) {
            Ok(order) => cut_begun(alloc, order, bytes, out),
            Err(error) => Ok(Passed {
                told: None,
                count: 0,
                error,
            }),
        },
    }
}

/// Reads a capture file that comes in pieces.
#[derive(Drop)]
pub struct CaptureReader {
    told: Option<ByteOrder>,
    stream: StreamRest,
    fault: Option<CaptureFault>,
}

impl Model for CaptureReader {
    ghost use Rattle.pcap_feed.specs.Feeding.{Capturing};

    ghost Value = { Capturing };

    ghost view = { λ r. record {
      told = r.told;
      place = r.stream.place;
      rest = r.stream.rest;
      fault = r.fault;
    } };
}

impl CaptureReader {
    /// A reader at place 0 to which nothing was fed. It takes no memory.
    pub fn make(alloc: Global) -> CaptureReader
        ensures { result ≡ unfed }
    {
        CaptureReader {
            told: None,
            stream: StreamRest::make(alloc),
            fault: None,
        }
    }

    /// The place of the rest in the file, in bytes; it stays at the type's end.
    pub fn place(&self) -> u64
        ensures { result ≡ self.now.place }
    {
        self.stream.place()
    }

    /// What was loaded and is not behind.
    pub fn rest(&self) -> &[u8]
        ensures { result.now ≡ self.now.rest }
    {
        self.stream.rest()
    }

    /// Loads the next piece of the file, for who reads records where they stand. The reader is as
    /// before where memory runs out.
    pub fn load(&mut self, piece: &[u8]) -> Result<(), OutOfMemory>
        ensures ok { OnOk result (self.new ≡ more_loaded self.old piece.now) }
        ensures err { OnErr result (self.new ≡ self.old) }
    {
        self.stream.load(piece)
    }

    /// The byte order that the header tells. The header is put behind once it is whole; where it is
    /// not, or is faulty, the answer is its error and the reader is as before.
    pub fn begin(&mut self) -> Result<ByteOrder, CaptureError>
        ensures order { result ≡ ordered self.old.told self.old.rest }
        ensures behind { self.new ≡ past_head self.old }
    {
        match self.told {
            Some(order) => return Ok(order),
            None => {}
        }
        match judge_head(self.stream.rest()) {
            Ok(order) => {
                self.stream.pass(HEAD_SIZE);
                self.told = Some(order);
                Ok(order)
            }
            Err(error) => Err(error),
        }
    }

    /// Puts the first bytes of the rest behind, as a record's whose size this is.
    pub fn pass(&mut self, count: usize)
        requires { count ≤ length self.old.rest }
        ensures { self.new ≡ put_behind self.old count }
    {
        self.stream.pass(count);
    }

    /// Feeds the next piece of the file, and appends each record that became whole.
    ///
    /// The answer is the fault of the file so far, unless more bytes may mend it; the records
    /// before it are in `out`, and each later call answers it again and appends nothing. Reader and
    /// list are as before after OutOfMemory.
    pub fn feed(&mut self, piece: &[u8], out: &mut RecordList) -> Result<(), CaptureFeedError>
        // However the bytes were cut into pieces.
        ensures fed { WithRoomFor result ((fed : List ℕ) → HoldsCapture self.old fed
            → FeedsCapture fed piece.now self.new out.old.items out.new.items result) }
        ensures again { IsFaultRepeated self.old.fault result
            ((self.new ≡ self.old) × (out.new.items ≡ out.old.items)) }
        ensures memory { result ≡ Err CaptureFeedError.OutOfMemory
            → (self.new ≡ self.old) × (out.new.items ≡ out.old.items) }
    {
        match self.fault {
            Some(fault) => return Err(CaptureFeedError::Fault(fault)),
            None => {}
        }
        let before = self.stream.rest().len();
        match self.stream.load(piece) {
            Ok(()) => {}
            Err(_) => return Err(CaptureFeedError::OutOfMemory),
        }
        let alloc = self.stream.allocator();
        match cut_piece(alloc, self.told, self.stream.rest(), out) {
            Ok(cut) => {
                self.stream.pass(cut.count);
                self.told = cut.told;
                let fault = capture_fault_from(false, self.stream.place(), Some(cut.error));
                self.fault = fault;
                answer(fault)
            }
            Err(_) => {
                self.stream.keep(before);
                Err(CaptureFeedError::OutOfMemory)
            }
        }
    }

    /// The fault that was kept, or else that of what was loaded and is not behind. Bytes that are
    /// missing are a fault only where the file has ended. It takes no memory.
    pub fn fault(&self, ended: bool) -> Option<CaptureFault>
        ensures { result ≡ held_fault ended self.now }
    {
        match self.fault {
            Some(fault) => Some(fault),
            None => {
                let error = left_error(self.told, self.stream.rest());
                capture_fault_from(ended, self.stream.place(), error)
            }
        }
    }

    /// Ends the file: the fault that was kept, or that the header or a record is cut off. It takes
    /// no memory.
    pub fn finish(&self) -> Result<(), CaptureFault>
        ensures kept { result ≡ capture_end_answer (held_fault true self.now) }
        ensures fed { (fed : List ℕ)
            → HoldsCapture self.now fed → result ≡ capture_end_answer (capture_end_fault fed) }
    {
        match self.fault(true) {
            None => Ok(()),
            Some(fault) => Err(fault),
        }
    }
}
