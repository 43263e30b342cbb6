//! Storms, and what the program writes of them; several workers.

use crate::nets::NoNet;
use crate::runs::{ends_so_over, run_over};
use memory_devices::MeetGate;
use pitch_io::{FreeGate, Gate, Work};
use pitch_tool::ExitStatus;
use std::alloc::Global;
use std::process::Abort;
use std::sync::Wait;
use std::sync::atomic::{AtomicU32, Ordering};
use std::thread::Threads;
use std::time::Clock;
use storm_replay::{Storm, generate};

// The words of a storm, and its summary. The orders and shares are those that as many commands of
// the plan leave.
static STORMS: [(&str, &str); 3] = [
    (
        "storm --number 0 --units 1 --steps 1",
        "storm number 0 units 1 steps 1\n\
        unit 1 current 1 orders 0 shares 0\n",
    ),
    (
        "storm --steps=16 --units 2 --number=0",
        "storm number 0 units 2 steps 16\n\
        unit 1 current 16 orders 5 shares 1078\n\
        unit 2 current 16 orders 5 shares 1083\n",
    ),
    (
        "storm --units 1 --number 0 --steps 200",
        "storm number 0 units 1 steps 200\n\
        unit 1 current 200 orders 62 shares 18219\n",
    ),
];

const AFTER_2000: &str = "storm number 1 units 2 steps 2000\n\
    unit 1 current 2000 orders 625 shares 181375\n\
    unit 2 current 2000 orders 625 shares 182000\n";

// Each storm has its summary, and leaves the four bytes of the input.
fn all_read_nothing<R: Threads + Wait + Clock + Sync + Abort>(
    rt: &R,
    alloc: Global,
    storms: &[(&str, &str)],
) {
    for (line, text) in storms {
        let mut outcome = run_over(rt, alloc, line, b"left", &mut NoNet, &FreeGate);
        assert!(rt; outcome.is(ExitStatus::Done, text.as_bytes(), ""));
        assert!(rt; outcome.left() == 4);
    }
}

#[test]
fn a_storm_reads_nothing(rt: HostRuntime) {
    all_read_nothing(&rt, rt.alloc(), &STORMS);
}

// The schedule of two units and 2,000 steps.
fn schedule_of_two(rt: &impl Abort, alloc: Global) -> Vec<u8> {
    let mut schedule = Vec::new(alloc);
    let storm = Storm {
        number: 1,
        units: 2,
        steps: 2000,
    };
    generate(storm, &mut schedule).expect(rt, "memory");
    schedule
}

// With each of these words a schedule is told as it is by one worker.
fn tell_alike<R: Threads + Wait + Clock + Sync + Abort>(
    rt: &R,
    alloc: Global,
    lines: &[&str],
    schedule: &[u8],
) {
    let alone = run_over(rt, alloc, "replay", schedule, &mut NoNet, &FreeGate);
    assert!(rt; alone.written().len() > 100_000);
    for line in lines {
        let outcome = run_over(rt, alloc, line, schedule, &mut NoNet, &FreeGate);
        assert!(rt; outcome.written() == alone.written());
    }
}

const REPLAYS: [&str; 3] = [
    "replay --workers 1",
    "replay --workers 2",
    "replay --workers 7",
];

// However many workers there are, a schedule of two units is told alike.
#[test]
fn workers_change_no_byte_of_a_schedule(rt: HostRuntime) {
    let schedule = schedule_of_two(&rt, rt.alloc());
    tell_alike(&rt, rt.alloc(), &REPLAYS, &schedule);
}

const WORKERS: [&str; 4] = [
    "storm --number 1 --units 2 --steps 2000",
    "storm --number 1 --units 2 --steps 2000 --workers 1",
    "storm --number 1 --units 2 --steps 2000 --workers 2",
    "storm --number 1 --units 2 --steps 2000 --workers 7",
];

// With each of these words the same is written.
fn all_write<R: Threads + Wait + Clock + Sync + Abort>(
    rt: &R,
    alloc: Global,
    lines: &[&str],
    text: &[u8],
) {
    for line in lines {
        let wanted = (ExitStatus::Done, text, "");
        ends_so_over(rt, alloc, line, &mut NoNet, &FreeGate, wanted);
    }
}

// Nor of a storm.
#[test]
fn workers_change_no_byte_of_a_storm(rt: HostRuntime) {
    all_write(&rt, rt.alloc(), &WORKERS, AFTER_2000.as_bytes());
}

// Two units of a storm run beside one another: each waits at the gate until the other has come.
#[test]
fn two_workers_of_a_storm_meet(rt: HostRuntime) {
    let gate = MeetGate::make();
    let wanted = (ExitStatus::Done, AFTER_2000.as_bytes(), "");
    ends_so_over(&rt, rt.alloc(), WORKERS[2], &mut NoNet, &gate, wanted);
    assert!(rt; (gate.spent(), gate.met()) == (false, 2));
}

// Likewise two of a schedule.
#[test]
fn two_workers_of_a_schedule_meet(rt: HostRuntime) {
    let schedule = schedule_of_two(&rt, rt.alloc());
    let gate = MeetGate::make();
    let outcome = run_over(&rt, rt.alloc(), REPLAYS[1], &schedule, &mut NoNet, &gate);
    assert!(rt; outcome.written().len() > 100_000);
    assert!(rt; (gate.spent(), gate.met()) == (false, 2));
}

// With one worker no two units run beside one another: the first waits in vain for the second.
#[test]
fn one_worker_runs_one_unit_after_another(rt: HostRuntime) {
    let gate = MeetGate::looking(10_000);
    let line = "storm --number 0 --units 2 --steps 16";
    let wanted = (ExitStatus::Done, STORMS[1].1.as_bytes(), "");
    ends_so_over(&rt, rt.alloc(), line, &mut NoNet, &gate, wanted);
    assert!(rt; (gate.spent(), gate.met()) == (true, 1));
}

// A gate that counts what begins and what ends.
#[derive(Drop)]
struct CountingGate {
    begun: AtomicU32,
    ended: AtomicU32,
}

impl Gate for CountingGate {
    fn before(&self, _work: Work) {
        self.begun.fetch_add(1, Ordering::SeqCst);
    }

    fn after(&self, _work: Work) {
        self.ended.fetch_add(1, Ordering::SeqCst);
    }
}

// Lines, and how many pieces of work the gate is told of at least.
const GATED: [(&str, u32); 4] = [
    ("storm --number 0 --units 2 --steps 16", 2),
    ("replay", 2),
    ("replay --workers 2", 2),
    ("drill --number 0 --units 1 --count 16", 32),
];

// The gate is told of each piece of work twice.
fn are_told_twice<R: Threads + Wait + Clock + Sync + Abort>(
    rt: &R,
    alloc: Global,
    lines: &[(&str, u32)],
) {
    for (line, least) in lines {
        let gate = CountingGate {
            begun: AtomicU32::new(0),
            ended: AtomicU32::new(0),
        };
        let outcome = run_over(rt, alloc, line, b"1 tick\n2 tick\n", &mut NoNet, &gate);
        let begun = gate.begun.load(Ordering::SeqCst);
        assert!(rt; begun >= *least && begun == gate.ended.load(Ordering::SeqCst));
        assert!(rt; !outcome.written().is_empty());
    }
}

#[test]
fn a_gate_is_told_of_each_begin_and_each_end(rt: HostRuntime) {
    are_told_twice(&rt, rt.alloc(), &GATED);
}
