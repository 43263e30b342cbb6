//! The drill of all units.

ghost use Rattle.std.specs.Prelude.{◌≡◌, ◌+◌, ◌≤◌, ◌<◌, ◌++◌, ℕ, IfOk, IfSome, OnOk, OnErr};
ghost use Rattle.std.specs.Prelude.{slice_get};
ghost use Rattle.std.specs.Option.{option_copied};
ghost use Rattle.drill_client.specs.DrillText.{drill_line};
ghost use Rattle.drill_client.specs.layers.Limits.{most_drilled, most_drill_units};
ghost use Rattle.drill_client.specs.DrillText.{drill_text};

use crate::unit::unit_text;
use drill_client::drill_plain;
use pitch_fields::OutOfMemory;
use pitch_io::Gate;
use std::alloc::Global;
use std::sync::Wait;
use std::thread::{Threads, map_indices};
use std::time::Clock;

// Appends the line of a unit: the one that its threads came to, or, where they wanted for memory,
// the same of the unit played in turns.
fn append_line(
    alloc: Global,
    number: u64,
    unit: u8,
    count: u32,
    line: Option<&Result<Vec<u8>, OutOfMemory>>,
    out: &mut Vec<u8>,
) -> Result<(), OutOfMemory>
    requires count { (1 ≤ count) × (count ≤ most_drilled) }
    requires line { IfSome (option_copied line)
        (λ line. IfOk line (λ text. text.items ≡ drill_line number unit count)) }
    ensures { OnOk result (out.new.items ≡ out.old.items ++ drill_line number unit count) }
{
    match line {
        Some(Ok(text)) => {
            out.extend_from_slice(text.as_slice())?;
            Ok(())
        }
        _ => drill_plain(alloc, number, unit, count, out),
    }
}

// The lines of all units, in order. A unit that has no line is played in turns here, where the
// threads of all units have ended.
fn join_lines(
    alloc: Global,
    number: u64,
    units: u8,
    count: u32,
    lines: &[Result<Vec<u8>, OutOfMemory>],
) -> Result<Vec<u8>, OutOfMemory>
    requires units { units ≤ most_drill_units }
    requires count { (1 ≤ count) × (count ≤ most_drilled) }
    requires lines { (n : ℕ) → IfSome (slice_get lines.now n)
        (λ line. IfOk line (λ text. text.items ≡ drill_line number (n + 1) count)) }
    ensures { IfOk result (λ text. text.items ≡ drill_text number units count) }
{
    let mut out = Vec::new(alloc);
    'units: for index in 0..units {
        let line = lines.get(usize::from(index));
        append_line(alloc, number, index + 1, count, line, &mut out)?;
    }
    Ok(out)
}

// The lines that the threads of all units come to, or none where there was no memory to begin.
fn run_units<W: Threads + Wait + Clock + Sync, G: Gate + Sync>(
    rt: &W,
    alloc: Global,
    number: u64,
    units: u8,
    count: u32,
    gate: &G,
) -> Vec<Result<Vec<u8>, OutOfMemory>>
    requires units { units ≤ most_drill_units }
    requires count { (1 ≤ count) × (count ≤ most_drilled) }
    ensures { (n : ℕ) → IfSome (slice_get result.items n)
        (λ line. IfOk line (λ text. text.items ≡ drill_line number (n + 1) count)) }
{
    let lines = map_indices(
        rt,
        alloc,
        usize::from(units),
        &|index: usize| -> Result<Vec<u8>, OutOfMemory>
            requires { (index < 16) × (1 ≤ count) × (count ≤ most_drilled) }
            ensures { IfOk result (λ line. line.items ≡ drill_line number (index + 1) count) }
        { unit_text(rt, alloc, gate, number, index as u8 + 1, count) },
    );
    match lines {
        Ok(lines) => lines,
        Err(_) => Vec::new(alloc),
    }
}

/// Runs a drill with live threads, of the units from 1 on: each accepts the first `count` commands
/// of the plan of the number and its unit, and its client hears what is not lost and asks for the
/// rest, while they go on. Appends a line for each unit: its client is current at the last command,
/// with the number of open orders and their shares.
///
/// The gate is called by each unit's publisher around each command, by its client around each
/// datagram, and by its service around each ask. Where there is no place for a server a unit is
/// played in turns, as by `drill_plain`, and the gate is not called. So is a unit whose threads
/// want for memory, once the threads of all units have ended.
///
/// A drill has 1 to 16 units and 1 to 100,000 commands. `out` is as before after OutOfMemory.
pub fn drill<W: Threads + Wait + Clock + Sync, G: Gate + Sync>(
    rt: &W,
    alloc: Global,
    number: u64,
    units: u8,
    count: u32,
    gate: &G,
    out: &mut Vec<u8>,
) -> Result<(), OutOfMemory>
    requires units { (1 ≤ units) × (units ≤ most_drill_units) }
    requires count { (1 ≤ count) × (count ≤ most_drilled) }
    ensures ok { OnOk result (out.new.items ≡ out.old.items ++ drill_text number units count) }
    ensures err { OnErr result (out.new.items ≡ out.old.items) }
{
    let lines = run_units(rt, alloc, number, units, count, gate);
    let text = join_lines(alloc, number, units, count, lines.as_slice())?;
    out.extend_from_slice(text.as_slice())?;
    Ok(())
}
