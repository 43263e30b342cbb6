//! A schedule whose units are run apart.

ghost use Rattle.std.specs.Prelude.{◌≡◌, ◌≤◌, ◌<◌, ◌++◌, List, ℕ, length, take, OnOk, OnErr, Ok};
ghost use Rattle.pitch_fields.specs.Limits.{text_limit};
ghost use Rattle.schedule_replay.specs.Replay.{replay_of};
ghost use Rattle.schedule_replay.specs.layers.Runs.{AreFilled, AreRunsAt};
ghost use Rattle.schedule_replay.specs.layers.Stretches.{AreListed, Owned, parts_of};
ghost use Rattle.schedule_replay.specs.layers.Places.{AddsWorlds};

use crate::merging::{Unmerged, are_filled, merge, no_lefts, put_pieces};
use crate::running::{LAST_UNIT, PLACES, WorldList, append_worlds, no_worlds};
use crate::stretches::{Cut, Stretch, cut_text};
use crate::units::run_units;
use crate::unrun::CantRunApart;
use pitch_fields::OutOfMemory;
use pitch_io::Gate;
use std::alloc::Global;
use std::thread::Threads;
use world_model::World;

// Whether a unit has a stretch.
fn has_stretch(lists: &[Vec<Stretch>], unit: u8) -> bool {
    match lists.get(usize::from(unit)) {
        Some(list) => !list.is_empty(),
        None => false,
    }
}

// The units that have a stretch.
fn units_of(alloc: Global, lists: &[Vec<Stretch>]) -> Result<Vec<u8>, OutOfMemory> {
    let mut units = Vec::with_capacity(alloc, PLACES)?;
    for unit in 1..=LAST_UNIT {
        if has_stretch(lists, unit) {
            units.push(unit)?;
        }
    }
    Ok(units)
}

// Runs the units that have a stretch in the lists of a text, and puts what came of them at their
// places.
fn run_lists<R: Threads + Sync, G: Gate + Sync>(
    rt: &R,
    alloc: Global,
    gate: &G,
    text: &[u8],
    lists: &[Vec<Stretch>],
    workers: u8,
    places: &mut Vec<Option<World>>,
    lefts: &mut Vec<Unmerged>,
) -> Result<(), CantRunApart>
    requires { 0 < workers }
    ensures runs { OnOk result ((all : List Owned) → AreListed all lists.now
        → AreRunsAt (parts_of text.now all) places.old.items lefts.old.items
        → AreRunsAt (parts_of text.now all) places.new.items lefts.new.items) }
    ensures filled { OnOk result (AreFilled lists.now places.new.items) }
{
    let units = units_of(alloc, lists)?;
    let pieces = run_units(rt, alloc, gate, text, lists, &units, workers)?;
    put_pieces(places, lefts, pieces)?;
    if are_filled(lists, places) {
        Ok(())
    } else {
        Err(CantRunApart::NotApart)
    }
}

/// Replays the lines of a text, each unit's apart, in at most so many pieces of work beside one
/// another. After an error some text may have been appended.
pub(crate) fn replay_apart<R: Threads + Sync, G: Gate + Sync>(
    rt: &R,
    alloc: Global,
    text: &[u8],
    workers: u8,
    gate: &G,
    worlds: &mut WorldList,
    out: &mut Vec<u8>,
) -> Result<(), CantRunApart>
    requires size { length text.now ≤ text_limit }
    requires workers { 0 < workers }
    ensures written { OnOk result ((written : List ℕ)
        × (replay_of text.now ≡ Ok written) × (out.new.items ≡ out.old.items ++ written)) }
    ensures worlds { OnOk result (AddsWorlds text.now worlds.old.items worlds.new.items) }
    ensures kept { OnErr result (worlds.new.items ≡ worlds.old.items) }
    ensures behind { take (length out.old.items) out.new.items ≡ out.old.items }
{
    let Cut { order, lists } = cut_text(alloc, text)?;
    let mut places = no_worlds(alloc)?;
    let mut lefts = no_lefts(alloc, PLACES)?;
    run_lists(
        rt,
        alloc,
        gate,
        text,
        &lists,
        workers,
        &mut places,
        &mut lefts,
    )?;
    drop(lists);
    merge(&order, &mut lefts, out)?;
    append_worlds(alloc, places, worlds)?;
    Ok(())
}
