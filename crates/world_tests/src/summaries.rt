//! Storms as they end: summaries, the worlds behind them, and two units side by side.

use memory_devices::MeetGate;
use pitch_io::FreeGate;
use pitch_model::Status;
use schedule_replay::WorldList;
use std::process::Abort;
use std::thread::Threads;
use storm_replay::{Storm, run_storm};
use world_model::World;

// The number, units and steps of a storm, and its summary. Four steps of the number 0 are a clock,
// a buy of 175 shares, a sale of 212, and an execution of 50 of the former.
const STORMS: [(u64, u8, u32, &[u8]); 3] = [
    (
        0,
        1,
        1,
        b"storm number 0 units 1 steps 1\n\
        unit 1 current 1 orders 0 shares 0\n",
    ),
    (
        0,
        1,
        4,
        b"storm number 0 units 1 steps 4\n\
        unit 1 current 4 orders 2 shares 337\n",
    ),
    (
        0,
        2,
        16,
        b"storm number 0 units 2 steps 16\n\
        unit 1 current 16 orders 5 shares 1078\n\
        unit 2 current 16 orders 5 shares 1083\n",
    ),
];

// The last message of each world of these, and the shares of its orders.
const ENDS: [(usize, u32, u64); 4] = [(0, 1, 0), (1, 4, 337), (2, 16, 1078), (3, 16, 1083)];

// Runs a storm, with as many pieces of work as units, which has that summary.
fn is_summed_up<W: Threads + Sync + Abort + AllocGlobal>(
    rt: &W,
    storm: Storm,
    text: &[u8],
    worlds: &mut WorldList,
) {
    assert!(rt; storm.units >= 1 && storm.units <= 16);
    assert!(rt; storm.steps >= 1 && storm.steps <= 10_000);
    let mut out = Vec::new(rt.alloc());
    run_storm(
        rt,
        rt.alloc(),
        storm,
        storm.units,
        &FreeGate,
        worlds,
        &mut out,
    )
    .expect(rt, "memory");
    assert!(rt; out.as_slice() == text);
}

fn are_summed_up<W: Threads + Sync + Abort + AllocGlobal>(
    rt: &W,
    storms: &[(u64, u8, u32, &[u8])],
    worlds: &mut WorldList,
) {
    for (number, units, steps, text) in storms {
        let storm = Storm {
            number: *number,
            units: *units,
            steps: *steps,
        };
        is_summed_up(rt, storm, text, worlds);
    }
}

fn have_ended(rt: &impl Abort, worlds: &WorldList, ends: &[(usize, u32, u64)]) {
    for (index, n, shares) in ends {
        assert!(rt; has_ended(worlds.get(*index), *n, *shares));
    }
    assert!(rt; worlds.len() == ends.len());
}

#[test]
fn a_storm_tells_where_its_units_ended(rt: HostRuntime) {
    let mut worlds = WorldList::make(rt.alloc());
    are_summed_up(&rt, &STORMS, &mut worlds);
    have_ended(&rt, &worlds, &ENDS);
    drop(worlds);
}

// Whether a world's client has so many messages, and orders of so many shares.
fn has_ended(world: Option<&World>, n: u32, shares: u64) -> bool {
    match world {
        Some(world) => is_current(world, n) && world.client().book().shares() == shares,
        None => false,
    }
}

fn is_current(world: &World, n: u32) -> bool {
    world.client().status() == Status::Current { n }
}

// Two units of a storm run beside one another: each waits at the gate until the other has come.
#[test]
fn two_units_of_a_storm_meet(rt: HostRuntime) {
    let gate = MeetGate::make();
    let mut worlds = WorldList::make(rt.alloc());
    let mut out = Vec::new(rt.alloc());
    let storm = Storm {
        number: 0,
        units: 2,
        steps: 16,
    };
    let run = run_storm(&rt, rt.alloc(), storm, 2, &gate, &mut worlds, &mut out);
    drop(worlds);
    assert!(rt; run == Ok(()) && out.as_slice() == STORMS[2].3);
    assert!(rt; (gate.spent(), gate.met()) == (false, 2));
}
