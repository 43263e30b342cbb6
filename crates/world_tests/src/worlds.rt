//! Worlds: a gap that the proxy fills, and an image that is cut off and then carried.

use line_arbiter::Line;
use pitch_model::Status;
use pitch_text::{ScheduleList, read_schedule};
use std::alloc::Global;
use std::process::Abort;
use world_model::{Limits, World};

// A hold of two places.
const LIMITS: Limits = Limits {
    hold: 2,
    kept: 10,
    second: 10,
    minute: 100,
    day: 1000,
};

// Does the lines of a schedule.
fn play(rt: &impl Abort, alloc: Global, world: &mut World, text: &[u8]) {
    let mut entries = ScheduleList::make(alloc);
    assert!(rt; text.len() < 1000);
    assert!(rt; read_schedule(text, &mut entries).is_ok());
    for entry in entries.as_slice() {
        assert!(rt; entry.well_formed());
        assert!(rt; world.step(&entry.verb).is_ok());
    }
}

// The second of three messages is lost, and the proxy sends it again.
const LOST: &[u8] = b"1 add 1 B 100 IBM 10.00\n1 flush\n1 add 2 B 100 IBM 10.01\n1 flush\n\
    1 add 3 S 50 IBM 10.05\n1 flush\n1 a 1\n1 a 3\n1 grp open\n1 grp up all\n\
    1 grp down all\n1 tick\n1 grp up all\n1 grp down all\n1 g rest\n";

const LOST_SHOWN: &[u8] = b"book unit 1 at 3 second - orders 3\n\
    order 1 B 100 IBM 10.0000\n\
    order 2 B 100 IBM 10.0100\n\
    order 3 S 50 IBM 10.0500\n\
    lines a 2/2 b 0/0 g 1/1\n";

// Whether a world is shown so.
fn is_shown(rt: &impl Abort, alloc: Global, world: &World, expected: &[u8]) -> bool {
    let mut text = Vec::new(alloc);
    world.show(&mut text).expect(rt, "memory");
    text.as_slice() == expected
}

// Whether so many datagrams were sent on line A and the gap line, and the client has all messages.
fn has_all(world: &World, a: usize, gap: usize, n: u32) -> bool {
    let sent = world.datagrams(Line::A).len() == a && world.datagrams(Line::Gap).len() == gap;
    sent && world.client().status() == Status::Current { n }
}

// A world is dropped by a call, which is cheaper to prove than a drop at the end of its scope.
#[test]
fn a_gap_is_filled_by_the_proxy(rt: HostRuntime) {
    let mut world = World::make(rt.alloc(), 1, LIMITS).expect(&rt, "memory");
    play(&rt, rt.alloc(), &mut world, LOST);
    assert!(rt; is_shown(&rt, rt.alloc(), &world, LOST_SHOWN) && has_all(&world, 3, 1, 3));
    drop(world);
}

// An image that is cut off in its middle, and then a whole one.
const CUT: &[u8] = b"1 add 1 B 10 IBM 10.00\n1 add 2 B 10 IBM 10.00\n1 status IBM H 0\n1 flush\n\
    1 spin open\n1 spin up all\n1 advertise\n1 spin down all\n1 tick\n1 spin up all\n1 spin down 40\n\
    1 spin cut\n1 spin open\n1 spin up all\n1 spin down all\n1 tick\n1 spin up all\n\
    1 spin down all\n";

const CUT_SHOWN: &[u8] = b"book unit 1 at 3 second - orders 2\n\
    order 1 B 10 IBM 10.0000\n\
    order 2 B 10 IBM 10.0000\n\
    status IBM H 0\n\
    lines a 0/0 b 0/0 g 0/0\n";

#[test]
fn images_are_carried(rt: HostRuntime) {
    let mut world = World::make(rt.alloc(), 1, LIMITS).expect(&rt, "memory");
    play(&rt, rt.alloc(), &mut world, CUT);
    assert!(rt; is_shown(&rt, rt.alloc(), &world, CUT_SHOWN) && has_all(&world, 1, 0, 3));
    drop(world);
}
