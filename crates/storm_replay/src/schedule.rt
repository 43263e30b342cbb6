//! The schedule of a storm, as a text.

ghost use Rattle.std.specs.Prelude.{◌≡◌, ◌≤◌, ◌++◌, ◌∷◌, [], OnOk, OnErr, true};
ghost use Rattle.std.specs.List.{AllByRecursion};
ghost use Rattle.pitch_text.specs.Printing.{entry_text, lines_text};
ghost use Rattle.pitch_text.specs.WellFormed.{IsWellFormed};
ghost use Rattle.storm_replay.specs.layers.Parts.{IsPart, part_verbs, part_by_each};
ghost use Rattle.storm_replay.specs.Storm.{start_verbs, arrival};
ghost use Rattle.storm_replay.specs.layers.Limits.{most_units, most_steps};
ghost use Rattle.storm_replay.specs.Storm.{arrives_at_once, arrives_late, tenth_verbs, step_verbs};
ghost use Rattle.storm_replay.specs.Storm.{end_verbs, entries_for, storm_steps, storm_schedule};

use crate::verbs::{Part, append_part};
use pitch_fields::OutOfMemory;
use pitch_text::{ScheduleEntry, Verb, print_entry};

/// What a storm is made of.
#[derive(Clone, Copy)]
pub struct Storm {
    /// The number that its losses and its plan are made from.
    pub number: u64,
    /// How many units it has: 1 to 16.
    pub units: u8,
    /// How many steps each unit takes: 1 to 10,000.
    pub steps: u32,
}

// Appends the line of a verb, and a line feed.
fn push_line(text: &mut Vec<u8>, unit: u8, verb: Verb) -> Result<(), OutOfMemory>
    requires { IsWellFormed unit verb }
    ensures { OnOk result (text.new.items ≡ text.old.items ++ (entry_text unit verb ++ 10 ∷ [])) }
{
    let entry = ScheduleEntry {
        line: 0,
        unit,
        verb,
    };
    print_entry(&entry, text)?;
    text.push(b'\n')?;
    Ok(())
}

// Appends the lines of some verbs of a unit.
fn push_lines(text: &mut Vec<u8>, unit: u8, verbs: &[Verb]) -> Result<(), OutOfMemory>
    requires { AllByRecursion (IsWellFormed unit) verbs.now }
    ensures { OnOk result (text.new.items
        ≡ text.old.items ++ lines_text (entries_for unit verbs.now)) }
{
    'verbs: for verb in verbs {
        push_line(text, unit, *verb)?;
    }
    Ok(())
}

// Appends what a unit does in a part.
fn push_part(text: &mut Vec<u8>, number: u64, unit: u8, part: Part) -> Result<(), OutOfMemory>
    requires unit { (1 ≤ unit) × (unit ≤ most_units) }
    requires part { IsPart part }
    ensures { OnOk result (text.new.items ≡ text.old.items
        ++ lines_text (entries_for unit (part_verbs number part unit))) }
{
    let mut verbs = Vec::new(*text.allocator());
    append_part(number, unit, part, &mut verbs)?;
    push_lines(text, unit, &verbs)
}

// Appends a part of each unit.
fn push_units(text: &mut Vec<u8>, storm: Storm, part: Part) -> Result<(), OutOfMemory>
    requires units { storm.units ≤ most_units }
    requires part { IsPart part }
    ensures { OnOk result (text.new.items ≡ text.old.items
        ++ lines_text (part_by_each storm.number storm.units part)) }
{
    'units: for index in 0..storm.units {
        push_part(text, storm.number, index + 1, part)?;
    }
    Ok(())
}

// Appends all steps.
fn push_steps(text: &mut Vec<u8>, storm: Storm) -> Result<(), OutOfMemory>
    requires units { storm.units ≤ most_units }
    requires steps { storm.steps ≤ most_steps }
    ensures { OnOk result (text.new.items ≡ text.old.items
        ++ lines_text (storm_steps storm.number storm.units storm.steps)) }
{
    'steps: for index in 0..storm.steps {
        push_units(text, storm, Part::Step { index: index + 1 })?;
    }
    Ok(())
}

/// Appends the schedule of a storm: canonical lines, each ended by a line feed.
///
/// It has at most 67,108,864 bytes, and is made of the number, the units and the steps alone. After
/// OutOfMemory `out` is as before.
pub fn generate(storm: Storm, out: &mut Vec<u8>) -> Result<(), OutOfMemory>
    requires units { (1 ≤ storm.units) × (storm.units ≤ most_units) }
    requires steps { (1 ≤ storm.steps) × (storm.steps ≤ most_steps) }
    ensures ok { OnOk result (out.new.items ≡ out.old.items
        ++ storm_schedule storm.number storm.units storm.steps) }
    ensures err { OnErr result (out.new.items ≡ out.old.items) }
{
    let mut text = Vec::new(*out.allocator());
    push_units(&mut text, storm, Part::Start)?;
    push_steps(&mut text, storm)?;
    let end = Part::End { steps: storm.steps };
    push_units(&mut text, storm, end)?;
    out.extend_from_slice(&text)?;
    Ok(())
}
