//! Lines that are written while the input goes on, as for a live pipe.

use crate::captures::{FRAME, LITTLE, LITTLE_PACKET};
use crate::nets::NoNet;
use crate::runs::{pitch_over, stream_of, words_of};
use crate::streams::{ADD, BEAT, TIME};
use memory_devices::{SteadySink, SteadySource};
use pitch_io::{FreeGate, Put, Sink, Source, Taken};
use pitch_tool::ExitStatus;
use std::alloc::Global;
use std::cell::Cell;
use std::process::Abort;
use std::sync::Wait;
use std::thread::Threads;
use std::time::Clock;

// Words, a stream, and how many bytes had been put before each take of it. At most 20 bytes come at
// once. The blocks end behind the bytes 14, 56 and 64, the packets behind 100 and 176. A relay
// sends the two blocks as they came, and only the second changes a best price.
static RUNS: [(&str, &[&[u8]], &[usize]); 5] = [
    ("follow", &[TIME, ADD, BEAT], &[0, 42, 42, 84, 130]),
    ("show", &[TIME, ADD, BEAT], &[0, 51, 51, 161, 192]),
    ("relay", &[TIME, ADD, BEAT], &[0, 14, 14, 56, 56]),
    ("quotes", &[TIME, ADD, BEAT], &[0, 0, 0, 36, 36]),
    (
        "follow --pcap",
        &[LITTLE, LITTLE_PACKET, FRAME, LITTLE_PACKET, FRAME],
        &[0, 0, 0, 0, 0, 42, 42, 42, 42, 84],
    ),
];

// A sink that counts the bytes where the source of the same run sees it.
#[derive(Drop)]
struct CountingSink<'a> {
    put: &'a Cell<usize>,
}

impl Sink for CountingSink<'_> {
    ghost use Rattle.std.specs.Prelude.{None};

    ghost written = { λ sink. None };

    ghost faults = { λ sink. 0 };

    fn put(&mut self, piece: &[u8]) -> Put {
        self.put.set(self.put.get().saturating_add(piece.len()));
        Put::Wrote(piece.len())
    }
}

// A source that sees at each take whether as many bytes had been put as are wanted before it.
#[derive(Drop)]
struct LookingSource<'a> {
    source: SteadySource,
    put: &'a Cell<usize>,
    wanted: &'a [usize],
    differs: bool,
}

impl Source for LookingSource<'_> {
    ghost use Rattle.std.specs.Prelude.{None};

    ghost left = { λ source. None };

    ghost faults = { λ source. 0 };

    fn take(&mut self, into: &mut [u8]) -> Taken {
        match self.wanted.split_first() {
            Some((wanted, later)) => {
                self.differs = self.differs || self.put.get() != *wanted;
                self.wanted = later;
            }
            None => self.differs = true,
        }
        self.source.take(into)
    }
}

// A run is done, and had put just so many bytes before each of its takes.
fn puts_in_time<R: Threads + Wait + Clock + Sync + Abort>(
    rt: &R,
    alloc: Global,
    line: &str,
    stream: &[&[u8]],
    wanted: &[usize],
) {
    let words = words_of(rt, alloc, line);
    let put = Cell::new(0);
    let mut input = LookingSource {
        source: SteadySource::make(stream_of(rt, alloc, stream), 20),
        put: &put,
        wanted,
        differs: false,
    };
    let mut out = CountingSink { put: &put };
    let mut err = SteadySink::make(alloc, 4096).expect(rt, "memory");
    let status = pitch_over(
        rt,
        alloc,
        words.as_slice(),
        &mut input,
        &mut out,
        &mut err,
        &mut NoNet,
        &FreeGate,
    );
    assert!(rt; status == ExitStatus::Done && input.wanted.is_empty() && !input.differs);
}

fn all_put_in_time<R: Threads + Wait + Clock + Sync + Abort>(
    rt: &R,
    alloc: Global,
    runs: &[(&str, &[&[u8]], &[usize])],
) {
    for (line, stream, wanted) in runs {
        puts_in_time(rt, alloc, line, stream, wanted);
    }
}

#[test]
fn lines_are_written_while_the_input_goes_on(rt: HostRuntime) {
    all_put_in_time(&rt, rt.alloc(), &RUNS);
}
