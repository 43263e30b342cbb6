//! The units of a storm, each done in a world of its own.

ghost use Rattle.std.specs.Prelude.{◌≡◌, ◌≤◌, ◌<◌, ◌*◌, ◌++◌, length, ◌∷◌, [], List, ℕ, reverse};
ghost use Rattle.std.specs.Prelude.{OnOk, IfOk, IfSome, slice_get};
ghost use Rattle.std.specs.Fork.{slice_chunk};
ghost use Rattle.std.specs.List.{AllByRecursion};
ghost use Rattle.pitch_text.specs.WellFormed.{IsVerb};
ghost use Rattle.pitch_text.specs.declared.verb.Verb.{Verb as VerbSaid};
ghost use Rattle.storm_replay.specs.layers.Parts.{IsPart, part_verbs};
ghost use Rattle.storm_replay.specs.layers.Limits.{most_steps};
ghost use Rattle.storm_replay.specs.layers.Units.{unit_steps, unit_course, counting, IsUnitDone};
ghost use Rattle.storm_replay.specs.layers.Units.{AreUnitsDone, AreGathered};
ghost use Rattle.world_model.specs.Stands.{WorldStands};
ghost use Rattle.world_model.specs.declared.limits.Limits.{Limits as LimitsSaid};

use crate::schedule::Storm;
use crate::verbs::{Part, append_part};
use pitch_fields::OutOfMemory;
use pitch_io::Gate;
use pitch_text::Verb;
use schedule_replay::{WorldList, replay_work};
use std::alloc::Global;
use std::thread;
use std::thread::Threads;
use world_model::{World, default_limits};

// Does a verb in a world.
fn do_verb(world: &mut World, verb: &Verb) -> Result<(), OutOfMemory>
    requires { IsVerb verb.now }
    ensures { OnOk result ((unit : ℕ) (limits : LimitsSaid) (done : List VerbSaid) → WorldStands
        world.old unit limits done → WorldStands world.new unit limits (verb.now ∷ done)) }
{
    match world.step(verb) {
        Ok(_) => Ok(()),
        Err(error) => Err(error),
    }
}

// Does verbs in a world, one after another.
fn do_verbs(world: &mut World, verbs: &[Verb]) -> Result<(), OutOfMemory>
    requires { AllByRecursion IsVerb verbs.now }
    // Whatever verbs were done before, the world then stands for those and these.
    ensures { OnOk result ((unit : ℕ) (limits : LimitsSaid) (done : List VerbSaid)
        → WorldStands world.old unit limits done
        → WorldStands world.new unit limits (reverse verbs.now ++ done)) }
{
    'verbs: for verb in verbs {
        do_verb(world, verb)?;
    }
    Ok(())
}

// Does a part of a storm in the world of a unit. In `verbs` stands afterwards what the unit did.
fn do_part(
    world: &mut World,
    number: u64,
    unit: u8,
    part: Part,
    verbs: &mut Vec<Verb>,
) -> Result<(), OutOfMemory>
    requires { IsPart part }
    ensures { OnOk result ((limits : LimitsSaid) (done : List VerbSaid)
        → WorldStands world.old unit limits done
        → WorldStands world.new unit limits (reverse (part_verbs number part unit) ++ done)) }
{
    verbs.clear();
    append_part(number, unit, part, verbs)?;
    do_verbs(world, verbs)
}

// Does the steps of a storm in the world of a unit.
fn do_steps(
    world: &mut World,
    number: u64,
    unit: u8,
    steps: u32,
    verbs: &mut Vec<Verb>,
) -> Result<(), OutOfMemory>
    requires { steps ≤ most_steps }
    ensures { OnOk result ((limits : LimitsSaid) (done : List VerbSaid)
        → WorldStands world.old unit limits done
        → WorldStands world.new unit limits (reverse (unit_steps number unit steps) ++ done)) }
{
    'steps: for index in 0..steps {
        do_part(world, number, unit, Part::Step { index: index + 1 }, verbs)?;
    }
    Ok(())
}

// Does all that a unit does in a storm, in a world in which nothing was done.
fn do_course(
    alloc: Global,
    world: &mut World,
    number: u64,
    unit: u8,
    steps: u32,
) -> Result<(), OutOfMemory>
    requires { steps ≤ most_steps }
    ensures { OnOk result ((limits : LimitsSaid) → WorldStands world.old unit limits []
        → WorldStands world.new unit limits (reverse (unit_course number unit steps))) }
{
    let mut verbs = Vec::new(alloc);
    do_part(world, number, unit, Part::Start, &mut verbs)?;
    do_steps(world, number, unit, steps, &mut verbs)?;
    do_part(world, number, unit, Part::End { steps }, &mut verbs)
}

// The world of a unit in which its whole storm was done.
fn done_world(alloc: Global, number: u64, steps: u32, unit: u8) -> Result<World, OutOfMemory>
    requires { steps ≤ most_steps }
    ensures { IfOk result (λ world. IsUnitDone number steps unit world) }
{
    let mut world = World::make(alloc, unit, default_limits())?;
    match do_course(alloc, &mut world, number, unit, steps) {
        Ok(()) => Ok(world),
        Err(error) => {
            // By a call: a function that drops a world itself takes a minute to prove.
            drop(world);
            Err(error)
        }
    }
}

// Runs a unit, and tells the gate of it.
fn run_unit<G: Gate>(
    alloc: Global,
    gate: &G,
    number: u64,
    steps: u32,
    unit: u8,
) -> Result<World, OutOfMemory>
    requires { steps ≤ most_steps }
    ensures { IfOk result (λ world. IsUnitDone number steps unit world) }
{
    let work = replay_work(unit);
    gate.before(work);
    let world = done_world(alloc, number, steps, unit);
    gate.after(work);
    world
}

// Runs some units, one after another.
fn run_piece<G: Gate>(
    alloc: Global,
    gate: &G,
    number: u64,
    steps: u32,
    units: &[u8],
) -> Result<WorldList, OutOfMemory>
    requires { steps ≤ most_steps }
    ensures { IfOk result (λ worlds. AreUnitsDone number steps units.now worlds.items) }
{
    let mut worlds = WorldList::make(alloc);
    'units: for unit in units {
        let world = run_unit(alloc, gate, number, steps, *unit)?;
        worlds.push(world)?;
    }
    Ok(worlds)
}

// The units of a storm, from 1 on.
fn all_units(alloc: Global, units: u8) -> Result<Vec<u8>, OutOfMemory>
    ensures { IfOk result (λ all. all.items ≡ counting 1 units) }
{
    let mut all = Vec::new(alloc);
    'units: for index in 0..units {
        all.push(index + 1)?;
    }
    Ok(all)
}

// Puts the worlds of all pieces one after another.
fn gather(
    alloc: Global,
    pieces: Vec<Result<WorldList, OutOfMemory>>,
) -> Result<WorldList, OutOfMemory>
    ensures { IfOk result (λ worlds. AreGathered pieces.items worlds.items) }
{
    let mut worlds = WorldList::make(alloc);
    'pieces: for piece in pieces {
        match piece {
            Ok(done) => worlds.append(done.into_vec())?,
            Err(error) => return Err(error),
        }
    }
    Ok(worlds)
}

// Runs units in pieces of so many, which may run beside one another.
fn run_pieces<R: Threads + Sync, G: Gate + Sync>(
    rt: &R,
    alloc: Global,
    gate: &G,
    number: u64,
    steps: u32,
    units: &[u8],
    size: usize,
) -> Result<Vec<Result<WorldList, OutOfMemory>>, OutOfMemory>
    requires steps { steps ≤ most_steps }
    requires size { 0 < size }
    ensures many { IfOk result (λ pieces. length units.now ≤ length pieces.items * size) }
    ensures each { IfOk result (λ pieces. (n : ℕ) → IfSome (slice_get pieces.items n) (λ piece. IfOk
        piece (λ worlds. AreUnitsDone number steps (slice_chunk units.now size n) worlds.items))) }
{
    let pieces = thread::map_chunks(
        rt,
        alloc,
        units,
        size,
        &|_start, piece| { run_piece(alloc, gate, number, steps, piece) },
    )?;
    Ok(pieces)
}

/// The worlds of a storm's units, by rising unit, each of which did its whole storm. The units run
/// in at most so many pieces of work beside one another.
pub(crate) fn run_units<R: Threads + Sync, G: Gate + Sync>(
    rt: &R,
    alloc: Global,
    gate: &G,
    storm: Storm,
    workers: u8,
) -> Result<WorldList, OutOfMemory>
    requires steps { storm.steps ≤ most_steps }
    requires workers { 0 < workers }
    ensures { IfOk result (λ worlds.
        AreUnitsDone storm.number storm.steps (counting 1 storm.units) worlds.items) }
{
    let all = all_units(alloc, storm.units)?;
    let size = all.len().saturating_sub(1) / usize::from(workers) + 1;
    let pieces = run_pieces(rt, alloc, gate, storm.number, storm.steps, &all, size)?;
    let worlds = gather(alloc, pieces)?;
    Ok(worlds)
}
