//! Schedules that are replayed: a world for each unit, and a fault that refuses the text.

ghost use Rattle.std.specs.Prelude.{◌≤◌, length};

use pitch_io::FreeGate;
use pitch_model::Status;
use pitch_text::TextCause;
use schedule_replay::{ReplayError, WorldList, replay};
use std::thread::Threads;
use world_model::World;

// Two units in turns, the second of which has a limit of its own.
const TWO_UNITS: &[u8] = b"# units 7 and 2\n\
    7 open hold=1\n\
    2 add 1 B 100 IBM 10.00\n\
    7 add 5 S 7 IBM 3\n\
    2 flush\n\
    \n\
    7 flush\n\
    7 a 1\n\
    2 a 1\n\
    2 show\n\
    7 quote IBM";

const TWO_UNITS_TEXT: &[u8] = b"2 7 opened; silent\n\
    3 2 accepted 1; silent\n\
    4 7 accepted 1; silent\n\
    5 2 sent 1; silent\n\
    7 7 sent 1; silent\n\
    8 7 heard 1; current 1\n\
    9 2 heard 1; current 1\n\
    10 2 shown; current 1\n\
    book unit 2 at 1 second - orders 1\n\
    order 1 B 100 IBM 10.0000\n\
    lines a 1/1 b 0/0 g 0/0\n\
    11 7 quote IBM - - 3.0000 7; current 1\n";

const ONE_TICK: &[u8] = b"3 tick\n";

const ONE_TICK_TEXT: &[u8] = b"1 3 ticked; silent\n";

const FAULTY: &[u8] = b"1 add 1 B 100 IBM 10.00\n1 flush x\n65 flush\n";

const FAULT: ReplayError = ReplayError::Text {
    line: 2,
    column: 9,
    cause: TextCause::ExtraField,
};

// Replays a text with so many workers, and appends what it prints.
fn run<W: Threads + Sync>(
    rt: &W,
    text: &[u8],
    workers: u8,
    worlds: &mut WorldList,
    out: &mut Vec<u8>,
) -> Result<(), ReplayError>
    requires size { length text.now ≤ 67108864 }
    requires workers { (1 ≤ workers) × (workers ≤ 64) }
{
    replay(rt, *out.allocator(), text, workers, &FreeGate, worlds, out)
}

// Whether the worlds are those of two clients, each with one message, and these orders.
fn have_orders(worlds: &WorldList, orders: [u64; 2]) -> bool {
    let [one, two] = orders;
    worlds.len() == 2 && has_order(worlds.get(0), one) && has_order(worlds.get(1), two)
}

#[test]
fn each_unit_has_its_own_world(rt: HostRuntime) {
    let mut worlds = WorldList::make(rt.alloc());
    let mut out = Vec::new(rt.alloc());
    assert!(rt; run(&rt, TWO_UNITS, 1, &mut worlds, &mut out) == Ok(()));
    assert!(rt; out.as_slice() == TWO_UNITS_TEXT && have_orders(&worlds, [1, 5]));
    drop(worlds);
}

// Whether a world's client has one message, and that order.
fn has_order(world: Option<&World>, order: u64) -> bool {
    match world {
        Some(world) => is_current(world) && world.client().book().order(order).is_some(),
        None => false,
    }
}

fn is_current(world: &World) -> bool {
    world.client().status() == Status::Current { n: 1 }
}

#[test]
fn a_fault_anywhere_refuses_the_text(rt: HostRuntime) {
    let mut worlds = WorldList::make(rt.alloc());
    let mut out = Vec::new(rt.alloc());
    assert!(rt; run(&rt, ONE_TICK, 2, &mut worlds, &mut out) == Ok(()));
    assert!(rt; run(&rt, FAULTY, 2, &mut worlds, &mut out) == Err(FAULT));
    assert!(rt; out.as_slice() == ONE_TICK_TEXT && worlds.len() == 1);
    drop(worlds);
}
