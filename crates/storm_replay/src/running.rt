//! What became of a storm's units.

ghost use Rattle.std.specs.Prelude.{◌≡◌, ◌≤◌, ◌++◌, List, ℕ, [], length, OnOk, OnErr, IfOk};
ghost use Rattle.pitch_text.specs.declared.verb.ScheduleEntry.{ScheduleEntry as EntrySaid};
ghost use Rattle.schedule_replay.specs.layers.Apart.{most_workers};
ghost use Rattle.schedule_replay.specs.Worlds.{AreRunThrough, IsWorldOf};
ghost use Rattle.schedule_replay.specs.layers.Places.{AddsWorlds};
ghost use Rattle.storm_replay.specs.Storm.{storm_schedule};
ghost use Rattle.storm_replay.specs.layers.Limits.{most_units, most_steps};
ghost use Rattle.storm_replay.specs.StormText.{storm_line};
ghost use Rattle.storm_replay.specs.Summary.{ended_line, ended_lines};
ghost use Rattle.storm_replay.specs.layers.Running.{AreInTurn, AreStormWorlds};
ghost use Rattle.storm_replay.specs.Summary.{storm_text};
ghost use Rattle.storm_replay.specs.Ended.{whole_text};

use crate::laws::storms_are_read;
use crate::schedule::Storm;
use crate::summary::put_storm_line;
use crate::units::run_units;
use feed_lines::{LINE, append_unit_line};
use pitch_fields::OutOfMemory;
use pitch_io::Gate;
use schedule_replay::WorldList;
use std::alloc::Global;
use std::thread::Threads;
use world_model::World;

// Appends the line that says what a storm was made of.
fn append_made(storm: Storm, out: &mut Vec<u8>) -> Result<(), OutOfMemory>
    ensures { OnOk result (out.new.items ≡ out.old.items
        ++ storm_line storm.number storm.units storm.steps) }
{
    let mut line = [0u8; LINE];
    let end = put_storm_line(&mut line, 0, storm);
    out.extend_from_slice(&line[..end])?;
    Ok(())
}

// Appends the line of a unit by its world.
fn append_world(world: &World, unit: u8, out: &mut Vec<u8>) -> Result<(), OutOfMemory>
    // Whatever lines were done in the world, it is the unit's line after them.
    ensures { OnOk result ((before : List EntrySaid) → IsWorldOf before unit world.now
        → out.new.items ≡ out.old.items ++ ended_line before unit) }
{
    let client = world.client();
    let book = client.book();
    append_unit_line(unit, client.status(), book.len(), book.shares(), out)
}

// Appends the lines of all units by their worlds.
fn append_worlds(worlds: &[World], units: u8, out: &mut Vec<u8>) -> Result<(), OutOfMemory>
    requires { length worlds.now ≡ units }
    // Whatever lines were done in the worlds, they are the units' lines after them.
    ensures { OnOk result ((before : List EntrySaid)
        → AreInTurn before worlds.now → out.new.items ≡ out.old.items ++ ended_lines before units) }
{
    'units: for index in 0..units {
        append_world(&worlds[usize::from(index)], index + 1, out)?;
    }
    Ok(())
}

// The summary of a storm by its worlds.
fn summary_of(alloc: Global, storm: Storm, worlds: &WorldList) -> Result<Vec<u8>, OutOfMemory>
    requires worlds { AreStormWorlds storm.number storm.units storm.steps worlds.now.items }
    requires units { storm.units ≤ most_units }
    requires steps { storm.steps ≤ most_steps }
    ensures text { IfOk result
        (λ text. text.items ≡ storm_text storm.number storm.units storm.steps) }
    ensures whole { IfOk result
        (λ text. text.items ≡ whole_text storm.number storm.units storm.steps) }
{
    let mut text = Vec::new(alloc);
    append_made(storm, &mut text)?;
    append_worlds(worlds.as_slice(), storm.units, &mut text)?;
    Ok(text)
}

// The worlds of a storm's units, in which all lines of its schedule were done. No text is made:
// each unit does its verbs, and what the schedule's lines say is known by a law.
fn worlds_of<R: Threads + Sync, G: Gate + Sync>(
    rt: &R,
    alloc: Global,
    storm: Storm,
    workers: u8,
    gate: &G,
) -> Result<WorldList, OutOfMemory>
    requires units { (1 ≤ storm.units) × (storm.units ≤ most_units) }
    requires steps { (1 ≤ storm.steps) × (storm.steps ≤ most_steps) }
    requires workers { (1 ≤ workers) × (workers ≤ most_workers) }
    ensures run { IfOk result (λ worlds.
        AreRunThrough (storm_schedule storm.number storm.units storm.steps) worlds.items) }
    ensures each { IfOk result (λ worlds.
        AreStormWorlds storm.number storm.units storm.steps worlds.items) }
{
    storms_are_read();
    match run_units(rt, alloc, gate, storm, workers) {
        Ok(worlds) => Ok(worlds),
        Err(error) => Err(error),
    }
}

/// Does all lines of a storm's schedule in the worlds of its units. Appends the storm's summary to
/// `out`: a line that says what it was made of, and by rising unit a line with the status of the
/// unit's client and the orders and shares of its book. Appends the worlds to `worlds`, as `replay`
/// does for the same schedule.
///
/// The summary of a storm is the same at each run. As with `replay`, its units run in up to 64
/// pieces of work, and the gate is told of each unit. After OutOfMemory `out` and `worlds` are as
/// before.
pub fn run_storm<R: Threads + Sync, G: Gate + Sync>(
    rt: &R,
    alloc: Global,
    storm: Storm,
    workers: u8,
    gate: &G,
    worlds: &mut WorldList,
    out: &mut Vec<u8>,
) -> Result<(), OutOfMemory>
    requires units { (1 ≤ storm.units) × (storm.units ≤ most_units) }
    requires steps { (1 ≤ storm.steps) × (storm.steps ≤ most_steps) }
    requires workers { (1 ≤ workers) × (workers ≤ most_workers) }
    ensures written { OnOk result (out.new.items ≡ out.old.items
        ++ storm_text storm.number storm.units storm.steps) }
    // Whatever was lost, each unit is current at the last message of its plan.
    ensures whole { OnOk result (out.new.items ≡ out.old.items
        ++ whole_text storm.number storm.units storm.steps) }
    ensures worlds { OnOk result (AddsWorlds (storm_schedule storm.number storm.units storm.steps)
        worlds.old.items worlds.new.items) }
    ensures kept_text { OnErr result (out.new.items ≡ out.old.items) }
    ensures kept_worlds { OnErr result (worlds.new.items ≡ worlds.old.items) }
{
    let run = worlds_of(rt, alloc, storm, workers, gate)?;
    let summary = summary_of(alloc, storm, &run)?;
    let start = out.len();
    out.extend_from_slice(&summary)?;
    match worlds.append(run.into_vec()) {
        Ok(()) => Ok(()),
        Err(error) => {
            out.truncate(start);
            Err(error)
        }
    }
}
