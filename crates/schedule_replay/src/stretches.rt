//! The lines of a text in stretches, each of one unit's lines.

ghost use Rattle.std.specs.Prelude.{◌≡◌, ◌≤◌, ◌<◌, ◌++◌, ◌∷◌, ◌==◌, [], ℕ, length, take, OnOk};
ghost use Rattle.std.specs.Prelude.{IfOk, if◌then◌else◌};
ghost use Rattle.pitch_fields.specs.Limits.{text_limit};
ghost use Rattle.schedule_replay.specs.layers.Stretches.{AreWholeLines, Splits, IsCut, list_at};

use crate::running::PLACES;
use crate::unrun::CantRunApart;
use pitch_fields::OutOfMemory;
use std::alloc::Global;
use text_lines::length_before;

/// Lines of a text, one after another, that are taken to be one unit's: the byte where they begin,
/// how many bytes they have with their line ends, and how many lines stand before them.
#[derive(Clone, Copy)]
pub(crate) struct Stretch {
    pub at: u32,
    pub size: u32,
    pub before: u32,
}

/// A text in stretches: whose each of them is, in the text's order, and those of each unit, in a
/// list at the unit's number.
#[derive(Drop)]
pub(crate) struct Cut {
    pub order: Vec<u8>,
    pub lists: Vec<Vec<Stretch>>,
}

// The first lines of a text that are taken to be one unit's: how many they are, and how many bytes
// with their line ends.
//
// The unit is that of the first line that begins with a number; lines of no unit go with those
// before them. It is 0 if none of the lines begins with a number.
#[derive(Clone, Copy)]
struct Front {
    unit: u8,
    lines: u32,
    size: u32,
}

// The number with which a line begins, at most 255; 0 where it begins with none.
fn unit_at(line: &[u8]) -> u8 {
    let mut unit = 0u8;
    for byte in line {
        if byte.is_ascii_digit() {
            unit = unit.saturating_mul(10).saturating_add(*byte - b'0');
        } else if *byte != b' ' || unit != 0 {
            return unit;
        }
    }
    unit
}

// The bytes of the first line, with its line end.
#[tactic(auto, using(crate::proofs::Cutting::line_is_whole))]
fn line_size(text: &[u8]) -> usize
    requires { 0 < length text.now }
    ensures some { 0 < result }
    ensures within { result ≤ length text.now }
    ensures whole { result < length text.now → AreWholeLines 1 (take result text.now) }
{
    (length_before(text, b'\n') + 1).min(text.len())
}

// The unit of a stretch with one line more; None where that line is another unit's.
fn with_line(unit: u8, found: u8) -> Option<u8> {
    if found == 0 || found == unit {
        Some(unit)
    } else if unit == 0 {
        Some(found)
    } else {
        None
    }
}

// The first lines of a text that are one unit's.
fn first_stretch(text: &[u8]) -> Front
    requires some { 0 < length text.now }
    requires size { length text.now ≤ text_limit }
    ensures some { 0 < result.size }
    ensures within { result.size ≤ length text.now }
    ensures few { result.lines ≤ result.size }
    ensures splits { Splits result.lines result.size text.now }
{
    let mut unit = unit_at(text);
    let mut size = line_size(text);
    let mut lines = 1u32;
    'lines: while size < text.len() {
        let rest = &text[size..];
        match with_line(unit, unit_at(rest)) {
            Some(whose) => unit = whose,
            None => break,
        }
        size += line_size(rest);
        lines += 1;
    }
    Front {
        unit,
        lines,
        size: size as u32,
    }
}

// No unit has a stretch yet.
fn no_lists(alloc: Global) -> Result<Vec<Vec<Stretch>>, OutOfMemory>
    ensures { IfOk result (λ lists. (unit : ℕ) → list_at lists.items unit ≡ []) }
{
    let mut lists = Vec::with_capacity(alloc, PLACES)?;
    'lists: for _ in 0..PLACES {
        lists.push(Vec::new(alloc))?;
    }
    Ok(lists)
}

// Puts a stretch at the end of its unit's list; NotApart where the unit is not one of a schedule, 1
// to 64.
fn add_stretch(
    lists: &mut Vec<Vec<Stretch>>,
    unit: u8,
    stretch: Stretch,
) -> Result<(), CantRunApart>
    ensures { OnOk result ((other : ℕ) → list_at lists.new.items other ≡ if unit == other
        then list_at lists.old.items other ++ stretch ∷ [] else list_at lists.old.items other) }
{
    let place = usize::from(unit);
    if place == 0 || place >= lists.len() {
        return Err(CantRunApart::NotApart);
    }
    lists[place].push(stretch)?;
    Ok(())
}

/// Cuts a text into stretches. What their lines say, one after another, is what the text says.
pub(crate) fn cut_text(alloc: Global, text: &[u8]) -> Result<Cut, CantRunApart>
    requires { length text.now ≤ text_limit }
    ensures { IfOk result (λ cut. IsCut text.now cut.order.items cut.lists.items) }
{
    let mut order = Vec::new(alloc);
    let mut lists = no_lists(alloc)?;
    let mut at = 0usize;
    let mut before = 0u32;
    'cutting: while at < text.len() {
        let front = first_stretch(&text[at..]);
        let stretch = Stretch {
            at: at as u32,
            size: front.size,
            before,
        };
        add_stretch(&mut lists, front.unit, stretch)?;
        order.push(front.unit)?;
        at += front.size as usize;
        before += front.lines;
    }
    Ok(Cut { order, lists })
}
