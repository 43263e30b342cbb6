//! Sources and sinks, in memory and over std: small pieces, little room, failing calls.

use memory_devices::{MemorySink, MemorySource, SteadySink, SteadySource};
use pitch_io::{Put, Sink, Source, StdSink, StdSource, Taken};
use std::io::{Error, ErrorKind, Read};
use std::process::Abort;

// Takes five times into a slice of 4 bytes, and answers what was taken and each answer's letter.
fn five_takes<R: Abort + AllocGlobal, S: Source>(rt: &R, source: &mut S) -> (Vec<u8>, String) {
    let mut bytes = Vec::new(rt.alloc());
    let mut answers = String::new(rt.alloc());
    for _ in 0..5u8 {
        let mut into = [0u8; 4];
        match source.take(&mut into) {
            Taken::Got(count) => {
                bytes.extend_from_slice(&into[..count]).expect(rt, "memory");
                answers.push('g').expect(rt, "memory");
            }
            Taken::End => answers.push('e').expect(rt, "memory"),
            Taken::Failed => answers.push('f').expect(rt, "memory"),
        }
    }
    (bytes, answers)
}

// Five takes give this, with these letters.
fn gives<R: Abort + AllocGlobal, S: Source>(rt: &R, source: &mut S, want: &[u8], answers: &str) {
    let (taken, letters) = five_takes(rt, source);
    assert!(rt; taken.as_slice() == want && letters.as_str() == answers);
}

fn answers_of_puts<R: Abort + AllocGlobal, K: Sink>(
    rt: &R,
    sink: &mut K,
    pieces: &[&[u8]],
) -> Vec<Put> {
    let mut answers = Vec::new(rt.alloc());
    for piece in pieces {
        if !piece.is_empty() {
            answers.push(sink.put(piece)).expect(rt, "memory");
        }
    }
    answers
}

// A sink answers these pieces so.
fn answers_so<R: Abort + AllocGlobal, K: Sink>(
    rt: &R,
    sink: &mut K,
    pieces: &[&[u8]],
    want: &[Put],
) {
    let answers = answers_of_puts(rt, sink, pieces);
    assert!(rt; answers.as_slice() == want);
}

// How many bytes a source of `abcdef` gives at once, the call that fails, what is taken in five
// calls, and their answers.
const SOURCES: [(usize, u64, &[u8], &str); 4] = [
    (9, 0, b"abcdef", "ggeee"),
    (2, 0, b"abcdef", "gggee"),
    (4, 2, b"abcdef", "gfgee"),
    (1, 1, b"abcd", "fgggg"),
];

fn sources_give<R: Abort + AllocGlobal>(rt: &R, sources: &[(usize, u64, &[u8], &str)]) {
    for (piece, failing, want, answers) in sources {
        assert!(rt; *piece > 0);
        let bytes = Vec::from_slice(rt.alloc(), b"abcdef").expect(rt, "memory");
        let listed = Vec::from_slice(rt.alloc(), &[*failing]).expect(rt, "memory");
        let mut source = MemorySource::make(bytes, *piece, listed);
        gives(rt, &mut source, want, answers);
    }
}

#[test]
fn sources_in_memory_give_pieces_and_fail_where_listed(rt: HostRuntime) {
    sources_give(&rt, &SOURCES);
    let bytes = Vec::from_slice(rt.alloc(), b"abcdef").expect(&rt, "memory");
    let mut source = SteadySource::make(bytes, 2);
    gives(&rt, &mut source, b"abcdef", "gggee");
}

// The pieces that are put, and what a sink of so much room keeps of them.
const PIECES: [&[u8]; 3] = [b"abc", b"de", b"f"];

const ROOMS: [(usize, &[u8]); 3] = [(6, b"abcdef"), (4, b"abcf"), (0, b"")];

const WHOLE: [Put; 3] = [Put::Wrote(3), Put::Wrote(2), Put::Wrote(1)];

fn sinks_keep<R: Abort + AllocGlobal>(rt: &R, rooms: &[(usize, &[u8])]) {
    for (room, want) in rooms {
        let mut sink = SteadySink::make(rt.alloc(), *room).expect(rt, "memory");
        answers_so(rt, &mut sink, &PIECES, &WHOLE);
        assert!(rt; sink.written() == *want);
    }
}

#[test]
fn sinks_in_memory_keep_what_fits(rt: HostRuntime) {
    let listed = Vec::from_slice(rt.alloc(), &[2]).expect(&rt, "memory");
    let mut sink = MemorySink::make(rt.alloc(), 2, listed);
    let wanted = [Put::Wrote(2), Put::Failed, Put::Wrote(1)];
    answers_so(&rt, &mut sink, &PIECES, &wanted);
    assert!(rt; sink.written() == b"abf".as_slice());
    sinks_keep(&rt, &ROOMS);
}

// A reader and a writer that fails at its second call.
#[derive(Drop)]
struct FailsOnce {
    calls: u8,
}

impl Read for FailsOnce {
    fn read(&mut self, buf: &mut [u8]) -> std::io::Result<usize> {
        self.calls = self.calls.saturating_add(1);
        if self.calls == 2 {
            return Err(Error::from(ErrorKind::Other));
        }
        if buf.is_empty() || self.calls > 3 {
            return Ok(0);
        }
        buf[0] = b'x';
        Ok(1)
    }
}

#[test]
fn a_source_over_a_reader_takes_what_it_reads(rt: HostRuntime) {
    let mut source = StdSource::make(b"abcdef".as_slice());
    gives(&rt, &mut source, b"abcdef", "ggeee");
    let mut source = StdSource::make(FailsOnce { calls: 0 });
    gives(&rt, &mut source, b"xx", "gfgee");
}

#[test]
fn a_sink_over_a_writer_writes_what_it_takes(rt: HostRuntime) {
    let mut bytes = [0u8; 5];
    let pieces: [&[u8]; 3] = [b"abc", b"def", b"g"];
    let mut sink = StdSink::make(&mut bytes[..]);
    let cut = [Put::Wrote(3), Put::Wrote(2), Put::Failed];
    answers_so(&rt, &mut sink, &pieces, &cut);
    let mut sink = StdSink::make(Vec::new(rt.alloc()));
    let whole = [Put::Wrote(3), Put::Wrote(3), Put::Wrote(1)];
    answers_so(&rt, &mut sink, &pieces, &whole);
}
