//! Blocks and datagrams: streams in pieces with their faults, and messages that are packed.

use pitch_messages::{Raw, RawList};
use std::alloc::Global;
use std::process::Abort;
use unit_packets::{
    BlockError, BlockFault, BlockList, BlockReader, Blocks, DatagramList, FeedError, Header,
    LAST_SEQUENCE, Packer, heartbeat, pack, put_session, read_block,
};

// Each stream begins with a block of one time message, of 14 bytes.
struct Stream {
    bytes: &'static [u8],
    blocks: usize,
    // What is wrong at byte 14, whatever follows; and what is, where the stream ends.
    fault: Option<BlockError>,
    cut: Option<BlockError>,
}

const STREAMS: [Stream; 8] = [
    // A heartbeat.
    Stream {
        bytes: b"\x0e\0\x01\x01\x01\0\0\0\x06\x20\x98\x85\0\0\x08\0\0\x01\x02\0\0\0",
        blocks: 2,
        fault: None,
        cut: None,
    },
    Stream {
        bytes: b"\x0e\0\x01\x01\x01\0\0\0\x06\x20\x98\x85\0\0\x07\0\0\x01\0\0\0\0\x08\0\0\x01\x02\0\0\0",
        blocks: 1,
        fault: Some(BlockError::LengthBelowHeader { length: 7 }),
        cut: None,
    },
    Stream {
        bytes: b"\x0e\0\x01\x01\x01\0\0\0\x06\x20\x98\x85\0\0\x08\0\x02\x01\xfe\xff\xff\xff\x08\0\0\x01\x02\0\0\0",
        blocks: 1,
        fault: Some(BlockError::SequencePast {
            sequence: 4294967294,
            count: 2,
        }),
        cut: None,
    },
    Stream {
        bytes: b"\x0e\0\x01\x01\x01\0\0\0\x06\x20\x98\x85\0\0\x0a\0\x01\x01\0\0\0\0\x01\x20\x08\0\0\x01\x02\0\0\0",
        blocks: 1,
        fault: Some(BlockError::TinyMessage {
            place: 8,
            length: 1,
        }),
        cut: None,
    },
    Stream {
        bytes: b"\x0e\0\x01\x01\x01\0\0\0\x06\x20\x98\x85\0\0\x0a\0\x01\x01\0\0\0\0\x06\x20\x08\0\0\x01\x02\0\0\0",
        blocks: 1,
        fault: Some(BlockError::MessageOverrun { place: 8 }),
        cut: None,
    },
    Stream {
        bytes: b"\x0e\0\x01\x01\x01\0\0\0\x06\x20\x98\x85\0\0\x0b\0\x01\x01\0\0\0\0\x02\x99\x07\x08\0\0\x01\x02\0\0\0",
        blocks: 1,
        fault: Some(BlockError::Spare { place: 10 }),
        cut: None,
    },
    // The header is cut off, and then the message.
    Stream {
        bytes: b"\x0e\0\x01\x01\x01\0\0\0\x06\x20\x98\x85\0\0\x0e\0\x01",
        blocks: 1,
        fault: None,
        cut: Some(BlockError::Truncated { has: 3, needs: 8 }),
    },
    Stream {
        bytes: b"\x0e\0\x01\x01\x01\0\0\0\x06\x20\x98\x85\0\0\x0e\0\x01\x01\x02\0\0\0\x06",
        blocks: 1,
        fault: None,
        cut: Some(BlockError::Truncated { has: 9, needs: 14 }),
    },
];

fn at_second_block(error: BlockError) -> BlockFault {
    BlockFault { place: 14, error }
}

// Whether the first block is that of one time message.
fn begins_with_time(blocks: &BlockList) -> bool {
    let header = Header {
        length: 14,
        count: 1,
        unit: 1,
        sequence: 1,
    };
    match blocks.get(0) {
        Some(first) => {
            first.header == header && first.raws.get(0) == Some(b"\x06\x20\x98\x85\0\0".as_slice())
        }
        None => false,
    }
}

fn feed_in_pieces(rt: &impl Abort, alloc: Global, stream: &Stream, size: usize) {
    let mut reader = BlockReader::make(alloc);
    let mut out = BlockList::make(alloc);
    let mut answer = Ok(());
    for piece in stream.bytes.chunks(size.max(1)) {
        answer = reader.feed(piece, &mut out);
    }
    let fault = stream.fault.map(at_second_block);
    let end = stream.cut.map(at_second_block).or(fault);
    assert!(rt; answer.err() == fault.map(FeedError::Fault));
    assert!(rt; reader.finish().err() == end);
    assert!(rt; out.len() == stream.blocks && begins_with_time(&out));
}

fn feed_each(rt: &impl Abort, alloc: Global, streams: &[Stream]) {
    for stream in streams {
        for size in [1, 2, 7, 64] {
            feed_in_pieces(rt, alloc, stream, size);
        }
    }
}

#[test]
fn streams_in_pieces(rt: HostRuntime) {
    feed_each(&rt, rt.alloc(), &STREAMS);
}

// The sequence of the last block, or 0.
fn last_sequence(bytes: &[u8]) -> u32 {
    let mut last = 0;
    for block in Blocks::of_bytes(bytes) {
        last = block.header().sequence;
    }
    last
}

// Whether the next block is a heartbeat of sequence 2.
fn goes_on_with_a_heartbeat(blocks: &mut Blocks) -> bool {
    match blocks.next_block() {
        Some(second) => second.header().sequence == 2 && second.raws().len() == 0,
        None => false,
    }
}

fn blocks_follow(rt: &impl Abort, streams: &[Stream]) {
    for stream in streams {
        assert!(rt; last_sequence(stream.bytes) as usize == stream.blocks);
        let mut blocks = Blocks::of_bytes(stream.bytes);
        let first = blocks.next_block().expect(rt, "a block");
        assert!(rt; first.header().length == 14 && blocks.rest() == &stream.bytes[14..]);
        let is_more = stream.blocks == 2;
        assert!(rt; !is_more || goes_on_with_a_heartbeat(&mut blocks));
        assert!(rt; blocks.next_block().is_none());
        assert!(rt; blocks.rest().is_empty() == is_more);
    }
}

#[test]
fn blocks_one_after_another(rt: HostRuntime) {
    blocks_follow(&rt, &STREAMS);
}

// Packs so many messages of this length, and answers the headers of their datagrams.
fn headers_of(rt: &impl Abort, alloc: Global, length: u8, count: usize, first: u32) -> Vec<Header> {
    let mut bytes = [0; 255];
    bytes[0] = length;
    let raw = Raw::from_bytes(&bytes[..length as usize]).expect(rt, "a raw");
    let mut packer = Packer::make(alloc, 9, first);
    let mut out = DatagramList::make(alloc);
    for _ in 0..count {
        assert!(rt; packer.next_sequence() <= LAST_SEQUENCE);
        packer.push(&raw, &mut out).expect(rt, "memory");
    }
    packer.finish(&mut out).expect(rt, "memory");
    let mut headers = Vec::new(alloc);
    for datagram in out.as_slice() {
        let header = read_block(datagram.bytes()).expect(rt, "a block");
        headers.push(header).expect(rt, "memory");
    }
    headers
}

fn header(length: u16, count: u8, sequence: u32) -> Header {
    Header {
        length,
        count,
        unit: 9,
        sequence,
    }
}

// So many messages of a length are packed under these headers.
fn packs(rt: &impl Abort, alloc: Global, length: u8, count: usize, first: u32, want: &[Header]) {
    let headers = headers_of(rt, alloc, length, count, first);
    assert!(rt; headers.as_slice() == want);
}

#[test]
fn messages_are_packed(rt: HostRuntime) {
    // 1,400 bytes are not passed, and may be reached; nor are 255 messages.
    let large = [header(1283, 5, 7), header(1283, 5, 12), header(263, 1, 17)];
    packs(&rt, rt.alloc(), 255, 11, 7, &large);
    packs(
        &rt,
        rt.alloc(),
        232,
        7,
        1,
        &[header(1400, 6, 1), header(240, 1, 7)],
    );
    packs(
        &rt,
        rt.alloc(),
        2,
        256,
        1,
        &[header(518, 255, 1), header(10, 1, 256)],
    );
    packs(
        &rt,
        rt.alloc(),
        255,
        6,
        0,
        &[header(1283, 5, 0), header(263, 1, 0)],
    );
}

#[test]
fn lists_are_packed(rt: HostRuntime) {
    let mut raws = RawList::make(rt.alloc());
    for bytes in [b"\x02\x2d".as_slice(), b"\x03\x2d\x07".as_slice()] {
        let raw = Raw::from_bytes(bytes).expect(&rt, "a raw");
        raws.push(&raw).expect(&rt, "memory");
    }
    let mut out = DatagramList::make(rt.alloc());
    pack(rt.alloc(), 9, 0, raws.raws(), &mut out).expect(&rt, "memory");
    assert!(rt; out.len() == 1);
    let bytes = out.get(0).expect(&rt, "a datagram").bytes();
    assert!(rt; bytes == b"\x0d\0\x02\x09\0\0\0\0\x02\x2d\x03\x2d\x07".as_slice());
}

#[test]
fn blocks_of_no_and_of_one_message(rt: HostRuntime) {
    assert!(rt; heartbeat(3, 0x0102_0304) == [8, 0, 0, 3, 4, 3, 2, 1]);
    let login = Raw::from_bytes(b"\x16\x010001FEED  PITCH     ").expect(&rt, "a raw");
    let mut out = Vec::new(rt.alloc());
    put_session(0, &login, &mut out).expect(&rt, "memory");
    assert!(rt; out.as_slice() == b"\x1e\0\x01\0\0\0\0\0\x16\x010001FEED  PITCH     ".as_slice());
}
