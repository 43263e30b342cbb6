//! The units of a text, each run apart from the others.

ghost use Rattle.std.specs.Prelude.{◌≡◌, ◌<◌, ◌+◌, ◌++◌, ◌∷◌, [], List, ℕ, OnOk, IfOk, IfSome};
ghost use Rattle.std.specs.Prelude.{slice_get};
ghost use Rattle.pitch_text.specs.WellFormed.{IsWellFormed};
ghost use Rattle.pitch_text.specs.declared.verb.ScheduleEntry.{ScheduleEntry as EntrySaid};
ghost use Rattle.schedule_replay.specs.Replay.{replay_line};
ghost use Rattle.schedule_replay.specs.layers.Runs.{later, RunsLines, Ran, AreRun};
ghost use Rattle.schedule_replay.specs.layers.Stretches.{AreListed, Owned, StretchPart, items_at};
ghost use Rattle.schedule_replay.specs.layers.Stretches.{parts_of, unit_parts};
ghost use Rattle.schedule_replay.specs.layers.Places.{IsPlace};

use crate::running::run_in;
use crate::stretches::Stretch;
use crate::unrun::CantRunApart;
use pitch_fields::{OutOfMemory, TEXT_LIMIT};
use pitch_io::{Gate, Role, Work};
use pitch_text::laws::schedules_are_well_formed;
use pitch_text::{Schedule, ScheduleEntry};
use std::alloc::Global;
use std::thread;
use std::thread::Threads;
use world_model::World;

/// What came of a unit: its world, and what its stretches write, end to end, with the length of
/// each.
#[derive(Drop)]
pub(crate) struct UnitRun {
    pub unit: u8,
    pub world: Option<World>,
    pub text: Vec<u8>,
    pub lengths: Vec<u32>,
}

// Does an entry of this unit. Its line is counted within its stretch, before which there are so
// many lines.
fn run_later(
    alloc: Global,
    unit: u8,
    lines: u32,
    entry: &ScheduleEntry,
    place: &mut Option<World>,
    out: &mut Vec<u8>,
) -> Result<(), CantRunApart>
    requires { IsWellFormed entry.now.unit entry.now.verb }
    ensures own { OnOk result (entry.now.unit ≡ unit) }
    ensures world { OnOk result ((before : List EntrySaid) → IsPlace before entry.now.unit place.old
        → IsPlace (later lines entry.now ∷ before) entry.now.unit place.new) }
    ensures text { OnOk result ((before : List EntrySaid) → IsPlace before entry.now.unit place.old
        → out.new.items ≡ out.old.items ++ replay_line before (later lines entry.now)) }
{
    if entry.unit != unit {
        return Err(CantRunApart::NotApart);
    }
    match entry.line.checked_add(lines) {
        Some(line) => {
            let moved = ScheduleEntry {
                line,
                unit: entry.unit,
                verb: entry.verb,
            };
            run_in(alloc, place, &moved, out)?;
            Ok(())
        }
        None => Err(CantRunApart::NotApart),
    }
}

// Does the lines of some bytes, before which so many lines stand, where all are the unit's.
fn run_lines(
    alloc: Global,
    unit: u8,
    lines: u32,
    bytes: &[u8],
    place: &mut Option<World>,
    out: &mut Vec<u8>,
) -> Result<(), CantRunApart>
    ensures { OnOk result ((before : List EntrySaid) → IsPlace before unit place.old → RunsLines
        unit (items_at (lines + 1) bytes.now) before place.new out.old.items out.new.items) }
{
    if bytes.len() > TEXT_LIMIT {
        return Err(CantRunApart::NotApart);
    }
    schedules_are_well_formed();
    'entries: for item in Schedule::of_text(bytes) {
        match item {
            Ok(entry) => run_later(alloc, unit, lines, &entry, place, out)?,
            Err(_) => return Err(CantRunApart::NotApart),
        }
    }
    Ok(())
}

// Does the lines of a stretch of the run's unit, before which so many lines stand.
fn run_stretch(
    alloc: Global,
    before: u32,
    bytes: &[u8],
    run: &mut UnitRun,
) -> Result<(), CantRunApart>
    ensures unit { run.new.unit ≡ run.old.unit }
    ensures ran { OnOk result ((parts : List StretchPart) → Ran parts run.old → Ran (parts
        ++ record { unit = run.old.unit; items = items_at (before + 1) bytes.now } ∷ []) run.new) }
{
    let start = run.text.len();
    run_lines(
        alloc,
        run.unit,
        before,
        bytes,
        &mut run.world,
        &mut run.text,
    )?;
    match u32::try_from(run.text.len().saturating_sub(start)) {
        Ok(length) => {
            run.lengths.push(length)?;
            Ok(())
        }
        Err(_) => Err(CantRunApart::NotApart),
    }
}

// Does the stretches of a text that are the run's unit's.
fn run_list(
    alloc: Global,
    text: &[u8],
    list: &[Stretch],
    run: &mut UnitRun,
) -> Result<(), CantRunApart>
    ensures unit { run.new.unit ≡ run.old.unit }
    ensures ran { OnOk result
        (Ran [] run.old → Ran (unit_parts text.now run.old.unit list.now) run.new) }
{
    'stretches: for stretch in list {
        let at = stretch.at as usize;
        let size = stretch.size as usize;
        if at > text.len() || size > text.len() - at {
            return Err(CantRunApart::NotApart);
        }
        run_stretch(alloc, stretch.before, &text[at..at + size], run)?;
    }
    Ok(())
}

// A run of which nothing was done. Takes no memory.
fn fresh_run(alloc: Global, unit: u8) -> UnitRun
    ensures unit { result.unit ≡ unit }
    ensures ran { Ran [] result }
{
    UnitRun {
        unit,
        world: None,
        text: Vec::new(alloc),
        lengths: Vec::new(alloc),
    }
}

// Does the stretches of a unit in a world of its own.
fn run_stretches(
    alloc: Global,
    text: &[u8],
    list: &[Stretch],
    unit: u8,
) -> Result<UnitRun, CantRunApart>
    ensures unit { IfOk result (λ run. run.unit ≡ unit) }
    ensures ran { IfOk result (λ run. Ran (unit_parts text.now unit list.now) run) }
{
    let mut run = fresh_run(alloc, unit);
    match run_list(alloc, text, list, &mut run) {
        Ok(()) => Ok(run),
        Err(why) => {
            // By a call, as in `put`.
            drop(run);
            Err(why)
        }
    }
}

// Does the stretches that a unit has in the lists of a text.
fn run_listed(
    alloc: Global,
    text: &[u8],
    lists: &[Vec<Stretch>],
    unit: u8,
) -> Result<UnitRun, CantRunApart>
    ensures { IfOk result (λ run. (all : List Owned)
        → AreListed all lists.now → Ran (parts_of text.now all) run) }
{
    match lists.get(usize::from(unit)) {
        Some(list) => run_stretches(alloc, text, list, unit),
        None => Err(CantRunApart::NotApart),
    }
}

// Runs a unit, and tells the gate of it.
fn run_unit<G: Gate>(
    alloc: Global,
    gate: &G,
    text: &[u8],
    lists: &[Vec<Stretch>],
    unit: u8,
) -> Result<UnitRun, CantRunApart>
    ensures { IfOk result (λ run. (all : List Owned)
        → AreListed all lists.now → Ran (parts_of text.now all) run) }
{
    let work = replay_work(unit);
    gate.before(work);
    let run = run_listed(alloc, text, lists, unit);
    gate.after(work);
    run
}

/// A unit's whole replay, as a gate hears of it.
pub fn replay_work(unit: u8) -> Work
    ensures { result ≡ record { unit = unit; role = Role.Replay; step = 1 } }
{
    Work {
        unit,
        role: Role::Replay,
        step: 1,
    }
}

// Runs some units, one after another.
fn run_piece<G: Gate>(
    alloc: Global,
    gate: &G,
    text: &[u8],
    lists: &[Vec<Stretch>],
    units: &[u8],
) -> Result<Vec<UnitRun>, CantRunApart>
    ensures { IfOk result (λ runs. AreRun text.now lists.now runs.items) }
{
    let mut runs = pitch_messages::List::make(alloc);
    'units: for unit in units {
        let run = run_unit(alloc, gate, text, lists, *unit)?;
        runs.push(run)?;
    }
    Ok(runs.into_vec())
}

/// Runs units apart, in at most so many pieces of work, beside one another.
pub(crate) fn run_units<R: Threads + Sync, G: Gate + Sync>(
    rt: &R,
    alloc: Global,
    gate: &G,
    text: &[u8],
    lists: &[Vec<Stretch>],
    units: &[u8],
    workers: u8,
) -> Result<Vec<Result<Vec<UnitRun>, CantRunApart>>, OutOfMemory>
    requires { 0 < workers }
    ensures { IfOk result (λ pieces. (n : ℕ) → IfSome (slice_get pieces.items n)
        (λ piece. IfOk piece (λ runs. AreRun text.now lists.now runs.items))) }
{
    let size = units.len().saturating_sub(1) / usize::from(workers) + 1;
    let pieces = thread::map_chunks(
        rt,
        alloc,
        units,
        size,
        &|_start, piece| { run_piece(alloc, gate, text, lists, piece) },
    )?;
    Ok(pieces)
}
