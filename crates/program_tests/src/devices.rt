//! Runs in which a call of a device fails.

ghost use Rattle.std.specs.Prelude.{◌<◌};

use crate::nets::NoNet;
use crate::runs::{pitch_over, stream_of, words_of};
use crate::streams::{ADD, BEAT, DELETE, DELETED_TEXT, FIRST_LINE, TIME};
use memory_devices::{MemorySink, MemorySource};
use pitch_io::FreeGate;
use pitch_tool::ExitStatus;
use std::alloc::Global;
use std::process::Abort;
use std::sync::Wait;
use std::thread::Threads;
use std::time::Clock;

// Which call of each device fails, where it is not 0.
#[derive(Clone, Copy)]
struct Failing {
    take: u64,
    put: u64,
    say: u64,
}

// Words, the calls of `put` and `take` that fail, or 0; how the program ends, what it writes before
// and what it says. At most 20 bytes come at once, and 7 are taken.
static CASES: [(&str, u64, u64, ExitStatus, &str, &str); 6] = [
    ("follow", 2, 0, ExitStatus::WriteFault, "block 1", UNWRITTEN),
    ("follow", 1, 0, ExitStatus::WriteFault, "", UNWRITTEN),
    ("follow", 0, 2, ExitStatus::ReadFault, FIRST_LINE, UNREAD),
    ("follow", 0, 1, ExitStatus::ReadFault, "", UNREAD),
    ("follow", 0, 0, ExitStatus::Done, DELETED_TEXT, ""),
    (STORM, 2, 0, ExitStatus::WriteFault, "storm n", UNWRITTEN),
];

const STORM: &str = "storm --number 0 --units 1 --steps 1";

const UNREAD: &str = "pitch: read fault\n";

const UNWRITTEN: &str = "pitch: write fault\n";

// How a run ends, and what it wrote and said.
#[derive(Drop)]
struct Ended {
    status: ExitStatus,
    out: MemorySink,
    err: MemorySink,
}

impl Ended {
    // Whether it ended by a fault with a part of the text, or done with all of it.
    fn is_by(&self, fault: Option<ExitStatus>, text: &[u8]) -> bool {
        let written = self.out.written();
        match fault {
            Some(fault) => self.status == fault && text.starts_with(written),
            None => self.status == ExitStatus::Done && written == text,
        }
    }
}

// A sink that takes so many bytes at once, of which a call fails.
fn sink_of(rt: &impl Abort, alloc: Global, piece: usize, failing: u64) -> MemorySink
    requires { 0 < piece }
{
    let failing = Vec::from_slice(alloc, &[failing]).expect(rt, "memory");
    MemorySink::make(alloc, piece, failing)
}

// What the program leaves of blocks of which at most `piece` bytes come at once.
fn run_failing<R: Threads + Wait + Clock + Sync + Abort>(
    rt: &R,
    alloc: Global,
    line: &str,
    blocks: &[&[u8]],
    piece: usize,
    failing: Failing,
) -> Ended
    requires { 0 < piece }
{
    let words = words_of(rt, alloc, line);
    let takes = Vec::from_slice(alloc, &[failing.take]).expect(rt, "memory");
    let mut input = MemorySource::make(stream_of(rt, alloc, blocks), piece, takes);
    let mut out = sink_of(rt, alloc, 7, failing.put);
    let mut err = sink_of(rt, alloc, 64, failing.say);
    let status = pitch_over(
        rt,
        alloc,
        words.as_slice(),
        &mut input,
        &mut out,
        &mut err,
        &mut NoNet,
        &FreeGate,
    );
    Ended { status, out, err }
}

const BLOCKS: &[&[u8]] = &[TIME, ADD, BEAT, DELETE];

// Each run ends so, wrote this and said this.
fn all_end_so<R: Threads + Wait + Clock + Sync + Abort>(
    rt: &R,
    alloc: Global,
    cases: &[(&str, u64, u64, ExitStatus, &str, &str)],
) {
    for (line, put, take, status, text, said) in cases {
        let failing = Failing {
            take: *take,
            put: *put,
            say: 0,
        };
        let ended = run_failing(rt, alloc, line, BLOCKS, 20, failing);
        assert!(rt; ended.status == *status && ended.out.written() == text.as_bytes());
        assert!(rt; ended.err.written() == said.as_bytes());
        drop(ended);
    }
}

#[test]
fn a_failing_source_or_sink_is_told_of(rt: HostRuntime) {
    all_end_so(&rt, rt.alloc(), &CASES);
}

// The calls of a run that takes and puts 7 bytes at once: 13 takes of the 86 bytes and one of their
// end; 6, 6, 7, 6 and 6 puts of its lines, which have 42, 42, 46, 42 and 39 bytes.
const TAKES: u64 = 14;

const PUTS: u64 = 31;

// A run ends by a fault, and with a part of the text, where a call of it fails; and with all where
// the call behind its last would.
fn ends_by<R: Threads + Wait + Clock + Sync + Abort>(
    rt: &R,
    alloc: Global,
    failing: Failing,
    fault: Option<ExitStatus>,
    text: &[u8],
) {
    let ended = run_failing(rt, alloc, "follow", BLOCKS, 7, failing);
    assert!(rt; ended.is_by(fault, text));
    drop(ended);
}

#[test]
fn the_source_may_fail_at_each_take(rt: HostRuntime) {
    for take in 1..TAKES + 2 {
        let failing = Failing {
            take,
            put: 0,
            say: 0,
        };
        let fault = (take <= TAKES).then_some(ExitStatus::ReadFault);
        ends_by(&rt, rt.alloc(), failing, fault, DELETED_TEXT.as_bytes());
    }
}

#[test]
fn the_sink_may_fail_at_each_put(rt: HostRuntime) {
    for put in 1..PUTS + 2 {
        let failing = Failing {
            take: 0,
            put,
            say: 0,
        };
        let fault = (put <= PUTS).then_some(ExitStatus::WriteFault);
        ends_by(&rt, rt.alloc(), failing, fault, DELETED_TEXT.as_bytes());
    }
}

// What can't be said of a faulty input changes nothing of how the run ends.
#[test]
fn standard_error_may_fail(rt: HostRuntime) {
    let failing = Failing {
        take: 0,
        put: 0,
        say: 1,
    };
    let ended = run_failing(&rt, rt.alloc(), "follow", &[&TIME[..5]], 7, failing);
    assert!(rt; ended.status == ExitStatus::BadInput);
    assert!(rt; ended.out.written().is_empty() && ended.err.written().is_empty());
    drop(ended);
}
