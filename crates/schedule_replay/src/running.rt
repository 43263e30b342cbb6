//! A schedule, line by line.

ghost use Rattle.std.specs.Prelude.{◌≡◌, ◌≤◌, ◌++◌, ◌⊎◌, [], ◌∷◌, List, ℕ, length, take, OnOk};
ghost use Rattle.std.specs.Prelude.{OnErr, IfOk, IfErr, IfSome, IfNone, IsSome, Ok, Err};
ghost use Rattle.pitch_fields.specs.Limits.{text_limit};
ghost use Rattle.pitch_text.specs.WellFormed.{IsVerb, IsWellFormed};
ghost use Rattle.pitch_text.specs.declared.verb.ScheduleEntry.{ScheduleEntry as EntrySaid};
ghost use Rattle.pitch_text.specs.declared.verb.Verb.{Verb as VerbSaid};
ghost use Rattle.world_model.specs.Printed.{verb_text, shown_at};
ghost use Rattle.world_model.specs.Stands.{WorldStands};
ghost use Rattle.world_model.specs.layers.Steps.{AreLimits};
ghost use Rattle.world_model.specs.Verbs.{state_of};
ghost use Rattle.world_model.specs.declared.limits.Limits.{Limits as LimitsSaid};
ghost use Rattle.schedule_replay.specs.Causes.{replay_error};
ghost use Rattle.schedule_replay.specs.Replay.{verbs_of, limits_at, limits_of};
ghost use Rattle.schedule_replay.specs.Replay.{replay_line, replay_of, schedule_of};
ghost use Rattle.schedule_replay.specs.layers.Places.{AddsWorlds, ArePlaces, IsPlace, IsReady};
ghost use Rattle.schedule_replay.specs.layers.Places.{RunsText};
ghost use Rattle.schedule_replay.specs.layers.Places.{worlds_in};
ghost use Rattle.schedule_replay.specs.declared.error.ReplayError.TheVariants as errors;

use crate::error::ReplayError;
use crate::units::replay_work;
use pitch_fields::OutOfMemory;
use pitch_io::Gate;
use pitch_text::laws::schedules_are_well_formed;
use pitch_text::{Schedule, ScheduleEntry, TextError, Verb};
use std::alloc::Global;
use world_model::{Limits, World, append_printed, default_limits};

/// A list of worlds.
pub type WorldList = pitch_messages::List<World>;

// The number of places: a schedule's units go from 1 to 64.
pub(crate) const PLACES: usize = 65;

// The greatest unit of a schedule.
pub(crate) const LAST_UNIT: u8 = 64;

// The limits of a unit that begins with this verb.
fn limits_at(verb: &Verb) -> Limits
    requires { IsVerb verb.now }
    ensures limits { result ≡ limits_at verb.now }
    ensures can { AreLimits result }
{
    match *verb {
        Verb::Setup {
            hold,
            kept,
            second,
            minute,
            day,
        } => Limits {
            hold,
            kept,
            second,
            minute,
            day,
        },
        _ => default_limits(),
    }
}

// Puts a value at a place. What stood there is dropped in this call, which is proved once for all
// types: a function that drops a world itself, which may be there or not, takes a minute to prove.
pub(crate) fn put<T: Drop>(place: &mut T, value: T)
    ensures { place.new ≡ value }
{
    *place = value;
}

// Makes a unit's world, where it begins with this verb. A world is large, and a function pays at
// each call for its own ones: so no line pays but a unit's first.
fn make_world(
    alloc: Global,
    unit: u8,
    verb: &Verb,
    place: &mut Option<World>,
) -> Result<(), OutOfMemory>
    requires { IsVerb verb.now }
    ensures ready { OnOk result (IsReady unit (limits_at verb.now) [] place.new) }
    ensures some { OnOk result (IsSome place.new) }
{
    let world = World::make(alloc, unit, limits_at(verb))?;
    put(place, Some(world));
    Ok(())
}

// Makes the unit's world if its place has none.
fn make_if_missing(
    alloc: Global,
    unit: u8,
    verb: &Verb,
    place: &mut Option<World>,
) -> Result<(), OutOfMemory>
    requires { IsVerb verb.now }
    // Whatever lines came before, the place then has a world for all that they did with the unit.
    ensures ready { OnOk result ((before : List EntrySaid) → IsPlace before unit place.old → IsReady
        unit (limits_of (verb.now ∷ verbs_of unit before)) (verbs_of unit before) place.new) }
    ensures some { OnOk result (IsSome place.new) }
{
    match place {
        Some(_) => Ok(()),
        None => make_world(alloc, unit, verb, place),
    }
}

// Appends what `show` prints after its line. The text is as before after OutOfMemory.
fn append_shown(world: &World, verb: &Verb, out: &mut Vec<u8>) -> Result<(), OutOfMemory>
    ensures shown { OnOk result ((unit : ℕ) (limits : LimitsSaid) (done : List VerbSaid)
        → WorldStands world.now unit limits (verb.now ∷ done) → out.new.items
        ≡ out.old.items ++ shown_at unit limits verb.now (state_of unit limits (verb.now ∷ done))) }
    ensures behind { take (length out.old.items) out.new.items ≡ out.old.items }
{
    match verb {
        Verb::Show => world.show(out),
        _ => Ok(()),
    }
}

// Does the verb of a line in a world, and appends its text. After OutOfMemory some of it may have
// been appended.
fn step_in(world: &mut World, entry: &ScheduleEntry, out: &mut Vec<u8>) -> Result<(), OutOfMemory>
    requires { IsVerb entry.now.verb }
    // Whatever verbs were done in the world, it then stands for these and this one.
    ensures stands { OnOk result ((limits : LimitsSaid) (done : List VerbSaid)
        → WorldStands world.old entry.now.unit limits done
        → WorldStands world.new entry.now.unit limits (entry.now.verb ∷ done)) }
    ensures text { OnOk result ((limits : LimitsSaid) (done : List VerbSaid) → WorldStands
        world.old entry.now.unit limits done → out.new.items ≡ out.old.items ++ verb_text
        entry.now.line entry.now.unit limits entry.now.verb (state_of entry.now.unit limits done)) }
    ensures behind { take (length out.old.items) out.new.items ≡ out.old.items }
{
    match world.step(&entry.verb) {
        Ok(printed) => {
            append_printed(entry.line, entry.unit, &entry.verb, &printed, out)?;
            append_shown(world, &entry.verb, out)
        }
        Err(error) => Err(error),
    }
}

// Does a line in the world of its unit, which is made where it is the unit's first, and appends its
// text.
pub(crate) fn run_in(
    alloc: Global,
    place: &mut Option<World>,
    entry: &ScheduleEntry,
    out: &mut Vec<u8>,
) -> Result<(), OutOfMemory>
    requires { IsVerb entry.now.verb }
    // Whatever lines came before, the place is then the unit's after these and this one.
    ensures world { OnOk result ((before : List EntrySaid) → IsPlace before entry.now.unit place.old
        → IsPlace (entry.now ∷ before) entry.now.unit place.new) }
    ensures text { OnOk result ((before : List EntrySaid) → IsPlace before entry.now.unit place.old
        → out.new.items ≡ out.old.items ++ replay_line before entry.now) }
    ensures behind { take (length out.old.items) out.new.items ≡ out.old.items }
{
    make_if_missing(alloc, entry.unit, &entry.verb, place)?;
    match place {
        Some(world) => step_in(world, entry, out),
        None => unreachable!(),
    }
}

// Tells the gate of a unit that begins: it has no world yet.
fn tell_begin<G: Gate>(gate: &G, unit: u8, places: &[Option<World>]) {
    match places.get(usize::from(unit)) {
        Some(None) => gate.before(replay_work(unit)),
        Some(Some(_)) => {}
        None => {}
    }
}

// Tells the gate of a unit that ended.
fn tell_end<G: Gate>(gate: &G, unit: u8, place: &Option<World>) {
    if place.is_some() {
        gate.after(replay_work(unit));
    }
}

// Tells the gate of each unit that it ended.
fn tell_ends<G: Gate>(gate: &G, places: &[Option<World>]) {
    for unit in 0..=LAST_UNIT {
        match places.get(usize::from(unit)) {
            Some(place) => tell_end(gate, unit, place),
            None => return,
        }
    }
}

// Does a line, and appends its text.
fn run_line<G: Gate>(
    alloc: Global,
    gate: &G,
    places: &mut Vec<Option<World>>,
    entry: &ScheduleEntry,
    out: &mut Vec<u8>,
) -> Result<(), OutOfMemory>
    requires given { IsWellFormed entry.now.unit entry.now.verb }
    requires many { length places.old.items ≡ 65 }
    // Whatever lines came before, the places are then those after these and this one.
    ensures places { OnOk result ((before : List EntrySaid) → ArePlaces before places.old.items
        → ArePlaces (entry.now ∷ before) places.new.items) }
    ensures text { OnOk result ((before : List EntrySaid) → ArePlaces before places.old.items
        → out.new.items ≡ out.old.items ++ replay_line before entry.now) }
    ensures many { length places.new.items ≡ 65 }
    ensures behind { take (length out.old.items) out.new.items ≡ out.old.items }
{
    tell_begin(gate, entry.unit, places);
    run_in(alloc, &mut places[usize::from(entry.unit)], entry, out)
}

// Does the lines of a text up to its first fault, and appends their text. After an error some of it
// may have been appended.
fn run_text<G: Gate>(
    alloc: Global,
    gate: &G,
    places: &mut Vec<Option<World>>,
    text: &[u8],
    out: &mut Vec<u8>,
) -> Result<(), ReplayError>
    requires size { length text.now ≤ text_limit }
    requires none { ArePlaces [] places.old.items }
    ensures runs { OnOk result (RunsText text.now places.new.items out.old.items out.new.items) }
    ensures cause { IfErr result
        (λ error. (error ≡ errors.OutOfMemory) ⊎ (replay_of text.now ≡ Err error)) }
    ensures behind { take (length out.old.items) out.new.items ≡ out.old.items }
{
    schedules_are_well_formed();
    'lines: for item in Schedule::of_text(text) {
        match item {
            Ok(entry) => run_line(alloc, gate, places, &entry, out)?,
            Err(fault) => return Err(ReplayError::from(fault)),
        }
    }
    Ok(())
}

// No unit has a world yet.
pub(crate) fn no_worlds(alloc: Global) -> Result<Vec<Option<World>>, OutOfMemory>
    ensures { IfOk result (λ places. ArePlaces [] places.items) }
{
    let mut places = Vec::with_capacity(alloc, PLACES)?;
    'places: for _ in 0..PLACES {
        places.push(None)?;
    }
    Ok(places)
}

// The worlds by rising unit.
fn all_worlds(alloc: Global, places: Vec<Option<World>>) -> Result<WorldList, OutOfMemory>
    ensures { IfOk result (λ worlds. worlds.items ≡ worlds_in places.items) }
{
    let mut worlds = WorldList::make(alloc);
    'places: for place in places {
        match place {
            Some(world) => worlds.push(world)?,
            None => {}
        }
    }
    Ok(worlds)
}

// Puts the worlds of some places at the end of a list, by rising unit. The list is as before after
// OutOfMemory.
pub(crate) fn append_worlds(
    alloc: Global,
    places: Vec<Option<World>>,
    worlds: &mut WorldList,
) -> Result<(), OutOfMemory>
    ensures ok { OnOk result (worlds.new.items ≡ worlds.old.items ++ worlds_in places.items) }
    ensures err { OnErr result (worlds.new.items ≡ worlds.old.items) }
{
    let added = all_worlds(alloc, places)?;
    worlds.append(added.into_vec())
}

// Replays the lines of a text one after another. After an error some text may have been appended.
pub(crate) fn replay_together<G: Gate>(
    alloc: Global,
    gate: &G,
    text: &[u8],
    worlds: &mut WorldList,
    out: &mut Vec<u8>,
) -> Result<(), ReplayError>
    requires { length text.now ≤ text_limit }
    ensures written { OnOk result ((written : List ℕ)
        × (replay_of text.now ≡ Ok written) × (out.new.items ≡ out.old.items ++ written)) }
    ensures worlds { OnOk result (AddsWorlds text.now worlds.old.items worlds.new.items) }
    ensures cause { IfErr result
        (λ error. (error ≡ errors.OutOfMemory) ⊎ (replay_of text.now ≡ Err error)) }
    ensures kept { OnErr result (worlds.new.items ≡ worlds.old.items) }
    ensures behind { take (length out.old.items) out.new.items ≡ out.old.items }
{
    let mut places = no_worlds(alloc)?;
    run_text(alloc, gate, &mut places, text, out)?;
    tell_ends(gate, &places);
    append_worlds(alloc, places, worlds)?;
    Ok(())
}
