//! Runs of a venue of two units: unit 2 with the index 0, and unit 1 with the index 1.

use crate::kept_net::{KeptNet, Said};
use live_venue::{ReportError, ServeError, ServeSetup, serve, serve_and_report};
use memory_devices::MemorySink;
use scripted_nets::{NetStep, ScriptedVenue};
use std::process::Abort;
use venue_end::{Account, VenueSetup};
use watched_venue::{WatchTrouble, WatchedVenue};

// The seconds 33 and 34 as messages 1 and 2 of unit 1, in one datagram, and each alone.
pub(crate) const BOTH: &[u8] = b"\x14\0\x02\x01\x01\0\0\0\x06\x20\x21\0\0\0\x06\x20\x22\0\0\0";

pub(crate) const FIRST: &[u8] = b"\x0e\0\x01\x01\x01\0\0\0\x06\x20\x21\0\0\0";

pub(crate) const SECOND: &[u8] = b"\x0e\0\x01\x01\x02\0\0\0\x06\x20\x22\0\0\0";

/// What is to be said, as `Said` has it.
#[derive(Clone, Copy)]
pub(crate) enum Told {
    Waits,
    Says(u16, &'static [u8]),
    Closes(u16),
}

/// What a run came to.
#[derive(Drop)]
pub(crate) struct Came {
    pub(crate) answer: Result<(), ServeError>,
    pub(crate) sent: Vec<Said>,
    pub(crate) put: Vec<Said>,
}

/// What a run with a report came to.
#[derive(Drop)]
pub(crate) struct Reported {
    pub(crate) answer: Result<(), ReportError>,
    pub(crate) report: Vec<u8>,
}

/// What a run came to over a net that looks on, and how many calls there were.
#[derive(Drop)]
pub(crate) struct Watched {
    pub(crate) answer: Result<(), ServeError>,
    pub(crate) lines: Vec<u8>,
    pub(crate) trouble: Option<WatchTrouble>,
    pub(crate) called: u64,
}

fn copy<R: Abort + AllocGlobal>(rt: &R, bytes: &[u8]) -> Vec<u8> {
    Vec::from_slice(rt.alloc(), bytes).expect(rt, "memory")
}

// A unit whose proxy keeps so many messages.
fn unit(unit: u8, kept: u32) -> VenueSetup {
    VenueSetup {
        unit,
        account: Account {
            sub: *b"0001",
            user: *b"FEED",
            password: *b"PITCH     ",
        },
        kept,
        second: 1,
        minute: 9,
        day: 9,
    }
}

/// Both units, where a proxy may keep so many messages.
pub(crate) fn setup_of<R: Abort + AllocGlobal>(rt: &R, kept: u32) -> Option<ServeSetup> {
    let units = [unit(2, kept), unit(1, kept)];
    ServeSetup::make(Vec::from_slice(rt.alloc(), &units).expect(rt, "memory"))
}

/// Such a run. The call of the net with that number fails.
pub(crate) fn run<R: Abort + AllocGlobal>(rt: &R, steps: &[NetStep], failing: u64) -> Came {
    let setup = setup_of(rt, 8).expect(rt, "a setup");
    let calls = Vec::from_slice(rt.alloc(), &[failing]).expect(rt, "memory");
    let net = ScriptedVenue::make(rt.alloc(), steps, calls).expect(rt, "memory");
    let mut kept = KeptNet::make(rt, net);
    let answer = serve(rt.alloc(), &setup, &mut kept);
    drop(setup);
    let KeptNet { sent, put, .. } = kept;
    Came { answer, sent, put }
}

/// A run with a report, of which a put takes 20 bytes at most. The call of the net with the first
/// number fails, and the put with the second.
pub(crate) fn run_reporting<R: Abort + AllocGlobal>(
    rt: &R,
    steps: &[NetStep],
    failing: u64,
    unwritten: u64,
) -> Reported {
    let setup = setup_of(rt, 8).expect(rt, "a setup");
    let calls = Vec::from_slice(rt.alloc(), &[failing]).expect(rt, "memory");
    let puts = Vec::from_slice(rt.alloc(), &[unwritten]).expect(rt, "memory");
    let mut net = ScriptedVenue::make(rt.alloc(), steps, calls).expect(rt, "memory");
    let mut sink = MemorySink::make(rt.alloc(), 20, puts);
    let answer = serve_and_report(rt.alloc(), &setup, &mut net, &mut sink);
    drop(setup);
    drop(net);
    let report = copy(rt, sink.written());
    drop(sink);
    Reported { answer, report }
}

/// A run over a net that looks on, whose sink takes 20 bytes at most by a put. The put with that
/// number fails.
pub(crate) fn run_watched<R: Abort + AllocGlobal>(
    rt: &R,
    steps: &[NetStep],
    unwritten: u64,
) -> Watched {
    let setup = setup_of(rt, 8).expect(rt, "a setup");
    let puts = Vec::from_slice(rt.alloc(), &[unwritten]).expect(rt, "memory");
    let failing = Vec::new(rt.alloc());
    let net = ScriptedVenue::make(rt.alloc(), steps, failing).expect(rt, "memory");
    let sink = MemorySink::make(rt.alloc(), 20, puts);
    let mut watched = WatchedVenue::make(rt.alloc(), net, &[2, 1], sink).expect(rt, "memory");
    let answer = serve(rt.alloc(), &setup, &mut watched);
    drop(setup);
    let lines = copy(rt, watched.out().written());
    let trouble = watched.trouble();
    let called = watched.net().called();
    drop(watched);
    Watched {
        answer,
        lines,
        trouble,
        called,
    }
}

/// Whether that is what was said.
pub(crate) fn is_told(said: &Said, told: Told) -> bool {
    match (said, told) {
        (Said::Waits, Told::Waits) => true,
        (Said::Says(at, bytes), Told::Says(to, told)) => *at == to && bytes.as_slice() == told,
        (Said::Closes(at), Told::Closes(to)) => *at == to,
        _ => false,
    }
}

/// Whether these were said, and nothing else.
pub(crate) fn are_told(said: &[Said], told: &[Told]) -> bool {
    said.len() == told.len()
        && said
            .iter()
            .zip(told)
            .all(|(said, told)| is_told(said, *told))
}
