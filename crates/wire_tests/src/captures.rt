//! Captures: records in pieces and where they stand, both byte orders, and faults.

use pcap_feed::{
    ByteOrder, CaptureError, CaptureFault, CaptureFeedError, CaptureReader, Record, RecordList,
    payload_in, payload_of, view_record,
};
use std::alloc::Global;
use std::process::Abort;

// A header, and a record of 60 bytes with one block.
const FILE: &[u8] = b"\xd4\xc3\xb2\xa1\x02\0\x04\0\0\0\0\0\0\0\0\0\0\0\x04\0\x01\0\0\0\
\0\0\0\0\0\0\0\0\x3c\0\0\0\x3c\0\0\0\
\x01\0\x5e\0\0\x01\x02\0\0\0\0\x01\x08\0\
\x45\0\0\x2a\0\0\0\0\x40\x11\0\0\x0a\0\0\x01\xe0\0\0\x01\
\x13\x88\x75\x31\0\x16\0\0\
\x0e\0\x01\x01\x01\0\0\0\x06\x20\x98\x85\0\0\0\0\0\0";

// The same in big endian with nanoseconds, and then a record that is too long.
const BIG: &[u8] = b"\xa1\xb2\x3c\x4d\0\x02\0\x04\0\0\0\0\0\0\0\0\0\x04\0\0\0\0\0\x01\
\0\0\0\x01\0\0\0\x02\0\0\0\x02\0\0\0\x03\xaa\xbb\
\0\0\0\0\0\0\0\0\0\x04\0\x01\0\0\0\0";

// The causes of the header.
struct Head {
    bytes: &'static [u8],
    error: CaptureError,
    text: &'static str,
}

const HEADS: [Head; 5] = [
    Head {
        bytes: b"",
        error: CaptureError::Truncated { has: 0, needs: 24 },
        text: "byte 0: truncated, has 0 of 24",
    },
    Head {
        bytes: b"\x0a\x0d\x0d\x0a\0\0\0\0\0\0\0\0\0\0\0\0\0\0\0\0\0\0\0\0",
        error: CaptureError::BadMagic {
            magic: [10, 13, 13, 10],
        },
        text: "byte 0: magic 0a0d0d0a is no classic capture",
    },
    Head {
        bytes: b"\xd4\xc3\xb2\xa1\x01\0\x04\0\0\0\0\0\0\0\0\0\0\0\x04\0\x01\0\0\0",
        error: CaptureError::BadVersion { major: 1 },
        text: "byte 0: version 1",
    },
    // The frame check sequence's length stands in the high bits, and does not count.
    Head {
        bytes: b"\xd4\xc3\xb2\xa1\x02\0\x04\0\0\0\0\0\0\0\0\0\0\0\x04\0\x71\0\0\x24",
        error: CaptureError::BadLink { link: 113 },
        text: "byte 0: link type 113",
    },
    Head {
        bytes: b"\xa1\xb2\xc3\xd4\0\x02\0\x04\0\0\0\0\0\0\0\0\0\x04\0\0\0\0\0",
        error: CaptureError::Truncated { has: 23, needs: 24 },
        text: "byte 0: truncated, has 23 of 24",
    },
];

#[derive(Drop)]
struct Outcome {
    records: RecordList,
    last: Result<(), CaptureFeedError>,
    end: Result<(), CaptureFault>,
}

fn feed_in_pieces(alloc: Global, bytes: &[u8], size: usize) -> Outcome {
    let mut records = RecordList::make(alloc);
    let mut reader = CaptureReader::make(alloc);
    let mut last = Ok(());
    for piece in bytes.chunks(size.max(1)) {
        last = reader.feed(piece, &mut records);
    }
    Outcome {
        records,
        last,
        end: reader.finish(),
    }
}

// The datagram of the record in `FILE`.
const DATAGRAM: &[u8] = b"\x0e\0\x01\x01\x01\0\0\0\x06\x20\x98\x85\0\0";

// The record has 60 bytes and this datagram, which goes to port 30001.
fn has_datagram(rt: &impl Abort, record: &Record, datagram: &[u8]) {
    assert!(rt; record.original == 60);
    assert!(rt; payload_of(record, Some(30001)) == Some((42, 14)));
    assert!(rt; payload_of(record, Some(30002)).is_none());
    assert!(rt; payload_of(record, None) == Some((42, 14)));
    assert!(rt; &record.bytes.bytes()[42..56] == datagram);
}

// The file has one record, in pieces of each of these sizes.
fn has_one_datagram(rt: &impl Abort, alloc: Global, sizes: &[usize]) {
    for size in sizes {
        let outcome = feed_in_pieces(alloc, FILE, *size);
        assert!(rt; outcome.last == Ok(()) && outcome.end == Ok(()));
        assert!(rt; outcome.records.len() == 1);
        let record = outcome.records.get(0).expect(rt, "a record");
        has_datagram(rt, record, DATAGRAM);
    }
}

#[test]
fn one_datagram_in_any_pieces(rt: HostRuntime) {
    has_one_datagram(&rt, rt.alloc(), &[1, 2, 7, 23, 24, 25, 64, 100, 200]);
}

// Reads the header from a reader that has it in two pieces.
fn begin(rt: &impl Abort, reader: &mut CaptureReader, file: &[u8]) -> ByteOrder {
    assert!(rt; file.len() == 100);
    reader.load(&file[..20]).expect(rt, "memory");
    assert!(rt; reader.begin() == Err(CaptureError::Truncated { has: 20, needs: 24 }));
    reader.load(&file[20..]).expect(rt, "memory");
    reader.begin().expect(rt, "a header")
}

#[test]
fn records_are_read_where_they_stand(rt: HostRuntime) {
    let mut reader = CaptureReader::make(rt.alloc());
    let order = begin(&rt, &mut reader, FILE);
    assert!(rt; reader.place() == 24);
    let view = view_record(order, reader.rest()).expect(&rt, "a record");
    let place = payload_in(view.original, view.bytes, Some(30001));
    assert!(rt; place == Some((42, 14)));
    let size = view.size();
    assert!(rt; size == 76 && reader.rest().len() == 76);
    reader.pass(size);
    assert!(rt; reader.place() == 100 && reader.finish() == Ok(()));
}

const TOO_LONG: CaptureFault = CaptureFault {
    place: 42,
    error: CaptureError::LongRecord { length: 262145 },
};

// The record before the fault.
fn is_short(record: &Record) -> bool {
    (record.seconds, record.fraction, record.original) == (1, 2, 3)
        && record.bytes.bytes() == b"\xaa\xbb".as_slice()
}

// The file has one record and this fault, in pieces of each of these sizes.
fn has_fault(rt: &impl Abort, alloc: Global, sizes: &[usize], fault: CaptureFault) {
    for size in sizes {
        let outcome = feed_in_pieces(alloc, BIG, *size);
        assert!(rt; outcome.last == Err(CaptureFeedError::Fault(fault)));
        assert!(rt; outcome.end == Err(fault) && outcome.records.len() == 1);
        assert!(rt; is_short(outcome.records.get(0).expect(rt, "a record")));
    }
}

#[test]
fn long_record_is_a_fault_behind_the_others(rt: HostRuntime) {
    has_fault(&rt, rt.alloc(), &[1, 2, 7, 64], TOO_LONG);
}

// The end of such a file, in pieces of this size, is a fault with this text.
fn fails_at_its_head(rt: &impl Abort, alloc: Global, head: &Head, size: usize) {
    let outcome = feed_in_pieces(alloc, head.bytes, size);
    let fault = CaptureFault {
        place: 0,
        error: head.error,
    };
    assert!(rt; outcome.end == Err(fault));
    let text = format!(in alloc; "{fault}").expect(rt, "memory");
    assert!(rt; text.as_str() == head.text);
}

fn fail_at_their_heads(rt: &impl Abort, alloc: Global, heads: &[Head]) {
    for head in heads {
        fails_at_its_head(rt, alloc, head, 1);
        fails_at_its_head(rt, alloc, head, 24);
    }
}

#[test]
fn headers_have_their_faults(rt: HostRuntime) {
    fail_at_their_heads(&rt, rt.alloc(), &HEADS);
}
