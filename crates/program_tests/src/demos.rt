//! Demos of both ends over a net: one in memory, of which a call may fail, one over sockets, one
//! that loses datagrams or ends a connection, and one that carries nothing.

use crate::nets::{NoNet, Trouble, TroubledNet};
use crate::runs::ends_so_over;
use loopback_net::StdNet;
use memory_devices::{MemoryNet, NetCall, NetVerb};
use net_edge::demo_plain;
use pitch_io::{FreeGate, Net};
use pitch_tool::ExitStatus;
use std::alloc::Global;
use std::net;
use std::process::Abort;
use std::sync::Wait;
use std::thread::Threads;
use std::time::Clock;

const DEMO: &str = "demo --number 0 --count 16";

// The calls that fail, each in a run of its own: which of its kind it is.
const CALLS: [(NetVerb, u64); 6] = [
    (NetVerb::Send, 3),
    (NetVerb::Begin, 1),
    (NetVerb::Send, 1),
    (NetVerb::Next, 1),
    (NetVerb::Put, 1),
    (NetVerb::Take, 1),
];

// A net in memory, of which these calls fail.
fn net_of(rt: &impl Abort, alloc: Global, calls: &[NetCall]) -> MemoryNet {
    MemoryNet::make(alloc, Vec::from_slice(alloc, calls).expect(rt, "memory"))
}

#[test]
fn a_demo_ends_current(rt: HostRuntime) {
    let mut net = net_of(&rt, rt.alloc(), &[]);
    let line = b"unit 1 current 16 orders 5 shares 1078\n";
    let wanted = (ExitStatus::Done, line.as_slice(), "");
    ends_so_over(&rt, rt.alloc(), DEMO, &mut net, &FreeGate, wanted);
}

// A demo ends with a fault of its net, where each of these calls fails.
fn all_are_faults<R: Threads + Wait + Clock + Sync + Abort>(
    rt: &R,
    alloc: Global,
    calls: &[(NetVerb, u64)],
) {
    for (verb, number) in calls {
        let call = NetCall {
            verb: *verb,
            number: *number,
        };
        let mut net = net_of(rt, alloc, &[call]);
        let wanted = (ExitStatus::NetFault, b"".as_slice(), "pitch: net fault\n");
        ends_so_over(rt, alloc, DEMO, &mut net, &FreeGate, wanted);
        drop(net);
    }
}

#[test]
fn a_net_that_fails_ends_a_demo(rt: HostRuntime) {
    all_are_faults(&rt, rt.alloc(), &CALLS);
}

#[test]
fn a_net_that_carries_nothing_leaves_it_silent(rt: HostRuntime) {
    let line = b"unit 1 silent orders 0 shares 0\n";
    let wanted = (ExitStatus::Done, line.as_slice(), "");
    ends_so_over(&rt, rt.alloc(), DEMO, &mut NoNet, &FreeGate, wanted);
}

// Demos: the number and the count, what is wrong with the net, and the line. By number 2 message 10
// is lost on both lines, so it comes by a gap reply or not at all. Without a proxy messages come by
// images. Orders and shares are those of the plan's first 16, 9 and 40 messages, worked by a script
// of its rules.
const LOSSES: [(u64, u32, Trouble, &str); 3] = [
    (
        2,
        16,
        Trouble::Nothing,
        "unit 1 current 16 orders 5 shares 1088\n",
    ),
    (
        2,
        16,
        Trouble::GapLine,
        "unit 1 behind 9 of 16 orders 2 shares 519\n",
    ),
    (
        0,
        40,
        Trouble::Proxy,
        "unit 1 current 40 orders 12 shares 3199\n",
    ),
];

// A demo over this net ends so.
fn ends_over<R: Threads + Wait + Clock + Sync + Abort, N: Net + Drop>(
    rt: &R,
    alloc: Global,
    net: N,
    case: &(u64, u32, Trouble, &str),
) {
    let (number, count, trouble, line) = case;
    let words = format!(in alloc; "demo --number {number} --count {count}").expect(rt, "memory");
    let mut net = TroubledNet::make(net, *trouble);
    let wanted = (ExitStatus::Done, line.as_bytes(), "");
    ends_so_over(rt, alloc, &words, &mut net, &FreeGate, wanted);
    drop(net);
}

// Each demo ends so, over memory and over sockets.
fn all_end_so<R: Threads + Wait + Clock + Sync + Abort + net::Net>(
    rt: &R,
    alloc: Global,
    cases: &[(u64, u32, Trouble, &str)],
) {
    for case in cases {
        ends_over(rt, alloc, net_of(rt, alloc, &[]), case);
        ends_over(rt, alloc, StdNet::make(rt), case);
    }
}

#[test]
fn a_demo_recovers_what_is_lost(rt: HostRuntime) {
    all_end_so(&rt, rt.alloc(), &LOSSES);
}

// A demo ends so whose servers answer from a plain store and shelf.
fn ends_plainly(rt: &impl Abort, alloc: Global, case: &(u64, u32, Trouble, &str)) {
    let (number, count, trouble, line) = case;
    assert!(rt; *count >= 1 && *count <= 1000);
    let mut net = TroubledNet::make(net_of(rt, alloc, &[]), *trouble);
    let mut out = Vec::new(alloc);
    assert!(rt; demo_plain(alloc, &mut net, *number, *count, &mut out).is_ok());
    drop(net);
    assert!(rt; out.as_slice() == line.as_bytes());
}

fn all_end_plainly(rt: &impl Abort, alloc: Global, cases: &[(u64, u32, Trouble, &str)]) {
    for case in cases {
        ends_plainly(rt, alloc, case);
    }
}

#[test]
fn a_demo_without_a_shared_unit_is_the_same(rt: HostRuntime) {
    all_end_plainly(&rt, rt.alloc(), &LOSSES);
}
