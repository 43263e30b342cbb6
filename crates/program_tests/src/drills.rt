//! Drills: their texts, and that their threads run beside one another.

use crate::nets::NoNet;
use crate::runs::{ends_so_over, run_over};
use memory_devices::MeetGate;
use pitch_io::{FreeGate, Gate, Role, Work};
use pitch_tool::ExitStatus;
use std::alloc::Global;
use std::process::Abort;
use std::sync::Wait;
use std::sync::atomic::{AtomicBool, AtomicU32, Ordering};
use std::thread::{Threads, yield_now};
use std::time::Clock;
use venue_core::lost;

// A drill is done, and what it writes begins so.
fn begins_so<R: Threads + Wait + Clock + Sync + Abort, G: Gate + Sync>(
    rt: &R,
    alloc: Global,
    line: &str,
    gate: &G,
    wrote: &str,
) {
    let outcome = run_over(rt, alloc, line, b"", &mut NoNet, gate);
    assert!(rt; outcome.written().starts_with(wrote.as_bytes()));
}

const SHORT: &str =
    "unit 1 current 16 orders 5 shares 1078\nunit 2 current 16 orders 5 shares 1083\n";

const LONG: &str = "unit 1 current 3500 orders ";

#[test]
fn a_drill_ends_as_its_plan_does(rt: HostRuntime) {
    let short = "drill --number 0 --units 2 --count 16";
    let wanted = (ExitStatus::Done, SHORT.as_bytes(), "");
    ends_so_over(&rt, rt.alloc(), short, &mut NoNet, &FreeGate, wanted);
    // three images are advertised before the last
    let long = "drill --number 1 --units 1 --count 3500";
    begins_so(&rt, rt.alloc(), long, &FreeGate, LONG);
}

// How many copies of the first datagrams of plan 0 are not lost.
fn copies_kept(count: u32) -> u32 {
    let mut kept = 0u32;
    for index in 1..count.saturating_add(1) {
        for line in [1u8, 2] {
            if !lost(0, 1, index, line) {
                kept = kept.saturating_add(1);
            }
        }
    }
    kept
}

const MET: &[u8] = b"unit 1 current 200 orders 62 shares 18219\n";

// The publisher waits for the client's first datagram, and the client for the publisher.
#[test]
fn the_threads_of_a_drill_meet(rt: HostRuntime) {
    let gate = MeetGate::make();
    let words = "drill --number 0 --units 1 --count 200";
    ends_so_over(
        &rt,
        rt.alloc(),
        words,
        &mut NoNet,
        &gate,
        (ExitStatus::Done, MET, ""),
    );
    assert!(rt; (gate.spent(), gate.met(), gate.most(Role::Publisher)) == (false, 2, 200));
    assert!(rt; gate.most(Role::Client) >= copies_kept(200));
}

// Ten of the first 3,500 messages are lost on both lines, so the client asks its service for them.
#[test]
fn a_client_asks_its_service(rt: HostRuntime) {
    let gate = MeetGate::make();
    let words = "drill --number 0 --units 1 --count 3500";
    begins_so(&rt, rt.alloc(), words, &gate, LONG);
    assert!(rt; gate.most(Role::Service) >= 1);
}

// A gate at which the client waits, before one of its steps, until its service has answered.
#[derive(Drop)]
struct AnswerGate {
    step: u32,
    answered: AtomicBool,
    asks: AtomicU32,
}

impl AnswerGate {
    // A wait ends by itself, whatever the others do.
    fn wait(&self) {
        for _ in 0..10_000_000u32 {
            if self.answered.load(Ordering::SeqCst) {
                return;
            }
            yield_now();
        }
    }
}

impl Gate for AnswerGate {
    fn before(&self, work: Work) {
        if work.role == Role::Service {
            self.asks.fetch_max(work.step, Ordering::SeqCst);
        }
        if work.role == Role::Client && work.step == self.step {
            self.wait();
        }
    }

    fn after(&self, work: Work) {
        if work.role == Role::Service {
            self.answered.store(true, Ordering::SeqCst);
        }
    }
}

// The step of the client after its first ask. Message 206 is the first that is lost on both lines;
// with one of the next message the client knows, and it asks with the tenth datagram of its ten.
fn step_after_ask() -> u32 {
    let heard = copies_kept(206);
    (heard / 10 * 10).saturating_add(11)
}

// A client that is owed a reply asks for no other gap. So it asks again, for message 590, only if
// it heard what the service replied to its ask for message 206.
#[test]
fn a_client_hears_its_service(rt: HostRuntime) {
    let gate = AnswerGate {
        step: step_after_ask(),
        answered: AtomicBool::new(false),
        asks: AtomicU32::new(0),
    };
    let words = "drill --number 0 --units 1 --count 700";
    begins_so(&rt, rt.alloc(), words, &gate, "unit 1 current 700 orders ");
    assert!(rt; gate.asks.load(Ordering::SeqCst) >= 2);
}
