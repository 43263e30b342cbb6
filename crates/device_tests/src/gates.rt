//! Gates: work that meets other work there, and a wait that gives up.

use memory_devices::MeetGate;
use pitch_io::{FreeGate, Gate, Role, Work};
use std::process::Abort;
use std::thread::join;

// Goes through the gate with one piece of work.
fn pass<G: Gate + Sync>(gate: &G, role: Role, unit: u8, step: u32) {
    let work = Work { unit, role, step };
    gate.before(work);
    gate.after(work);
}

// Whether a wait gave up there, and how many pieces of work met.
fn tells(gate: &MeetGate, spent: bool, met: u32) -> bool {
    gate.spent() == spent && gate.met() == met
}

// Whether these are the greatest steps that came.
fn has_most(gate: &MeetGate, publisher: u32, service: u32, client: u32, replay: u32) -> bool {
    let threads = gate.most(Role::Publisher) == publisher && gate.most(Role::Service) == service;
    threads && gate.most(Role::Client) == client && gate.most(Role::Replay) == replay
}

#[test]
fn a_gate_tells_what_met_and_what_did_not(rt: HostRuntime) {
    pass(&FreeGate, Role::Replay, 1, 1);
    let gate = MeetGate::looking(3);
    for (role, unit, step) in [
        (Role::Replay, 3, 1),
        (Role::Publisher, 1, 49),
        (Role::Publisher, 2, 50),
        (Role::Client, 1, 2),
        (Role::Service, 1, 50),
    ] {
        pass(&gate, role, unit, step);
    }
    assert!(rt; tells(&gate, false, 0));
    assert!(rt; has_most(&gate, 50, 50, 2, 1));
    pass(&gate, Role::Replay, 1, 1);
    assert!(rt; tells(&gate, true, 0));
    pass(&gate, Role::Replay, 2, 1);
    assert!(rt; tells(&gate, true, 1));
}

#[test]
fn work_that_runs_beside_other_work_meets_it(rt: HostRuntime) {
    let gate = MeetGate::make();
    let shared = &gate;
    join(
        &rt,
        || pass(shared, Role::Replay, 1, 1),
        || pass(shared, Role::Replay, 2, 1),
    );
    assert!(rt; tells(&gate, false, 2));
    join(
        &rt,
        || pass(shared, Role::Publisher, 1, 50),
        || pass(shared, Role::Client, 1, 1),
    );
    assert!(rt; tells(&gate, false, 4));
    assert!(rt; MeetGate::make().most(Role::Client) == 0);
}
