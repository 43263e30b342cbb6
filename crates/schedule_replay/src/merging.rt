//! What units wrote, put together again in the order of the text.

ghost use Rattle.std.specs.Prelude.{◌≡◌, ◌<◌, ◌++◌, ℕ, List, [], drop, length, take, OnOk, IfOk};
ghost use Rattle.std.specs.Prelude.{IfSome, IsTrue, slice_get};
ghost use Rattle.std.specs.List.{AllByRecursion};
ghost use Rattle.schedule_replay.specs.layers.Merging.{first_piece};
ghost use Rattle.schedule_replay.specs.layers.Runs.{put_together, left_pieces, pieces_at};
ghost use Rattle.schedule_replay.specs.layers.Runs.{has_world};
ghost use Rattle.schedule_replay.specs.layers.Runs.{AreFilled, AreRunsAt, Ran};
ghost use Rattle.schedule_replay.specs.layers.Stretches.{StretchPart};
ghost use Rattle.schedule_replay.specs.layers.Places.{ArePlaces};

use crate::running::put;
use crate::stretches::Stretch;
use crate::units::UnitRun;
use crate::unrun::CantRunApart;
use pitch_fields::OutOfMemory;
use std::alloc::Global;
use world_model::World;

/// A unit's texts, end to end, that are not all merged yet: `next` is the number of the next one,
/// and `at` the byte where it begins.
#[derive(Drop)]
pub(crate) struct Unmerged {
    pub text: Vec<u8>,
    pub lengths: Vec<u32>,
    pub next: usize,
    pub at: usize,
}

// Puts a run at the place of its unit.
fn put_run(places: &mut Vec<Option<World>>, lefts: &mut Vec<Unmerged>, run: UnitRun)
    ensures { (parts : List StretchPart) → AreRunsAt parts places.old.items lefts.old.items
        → Ran parts run → AreRunsAt parts places.new.items lefts.new.items }
{
    let place = usize::from(run.unit);
    if place < places.len() && place < lefts.len() {
        put(&mut places[place], run.world);
        let left = Unmerged {
            text: run.text,
            lengths: run.lengths,
            next: 0,
            at: 0,
        };
        put(&mut lefts[place], left);
    } else {
        drop(run);
    }
}

// Puts the runs of a piece at the places of their units.
fn put_piece(places: &mut Vec<Option<World>>, lefts: &mut Vec<Unmerged>, mut runs: Vec<UnitRun>)
    ensures { (parts : List StretchPart) → AreRunsAt parts places.old.items lefts.old.items
        → AllByRecursion (Ran parts) runs.items → AreRunsAt parts places.new.items lefts.new.items }
{
    'turns: while let Some(run) = runs.pop() {
        put_run(places, lefts, run);
    }
}

/// Puts the runs of all pieces at the places of their units.
pub(crate) fn put_pieces(
    places: &mut Vec<Option<World>>,
    lefts: &mut Vec<Unmerged>,
    mut pieces: Vec<Result<Vec<UnitRun>, CantRunApart>>,
) -> Result<(), CantRunApart>
    ensures { OnOk result ((parts : List StretchPart) → AreRunsAt
        parts places.old.items lefts.old.items → ((n : ℕ) → IfSome (slice_get pieces.items n)
        (λ piece. IfOk piece (λ runs. AllByRecursion (Ran parts) runs.items)))
        → AreRunsAt parts places.new.items lefts.new.items) }
{
    'turns: while let Some(piece) = pieces.pop() {
        match piece {
            Ok(runs) => put_piece(places, lefts, runs),
            Err(why) => return Err(why),
        }
    }
    Ok(())
}

/// Nothing is left of any unit.
pub(crate) fn no_lefts(alloc: Global, many: usize) -> Result<Vec<Unmerged>, OutOfMemory>
    ensures { IfOk result (λ lefts. length lefts.items ≡ many) }
{
    let mut lefts = Vec::with_capacity(alloc, many)?;
    'lefts: for _ in 0..many {
        lefts.push(Unmerged {
            text: Vec::new(alloc),
            lengths: Vec::new(alloc),
            next: 0,
            at: 0,
        })?;
    }
    Ok(lefts)
}

// Whether a world stands at a unit's place.
fn is_filled(places: &[Option<World>], unit: usize) -> bool
    ensures { result ≡ has_world places.now unit }
{
    match places.get(unit) {
        Some(Some(_)) => true,
        Some(None) => false,
        None => false,
    }
}

/// Whether a world stands at the place of each unit that has a stretch.
pub(crate) fn are_filled(lists: &[Vec<Stretch>], places: &[Option<World>]) -> bool
    ensures { IsTrue result → AreFilled lists.now places.now }
{
    'units: for unit in 0..lists.len() {
        if !lists[unit].is_empty() && !is_filled(places, unit) {
            return false;
        }
    }
    true
}

// Takes the memory for all texts at once.
fn reserve_all(lefts: &[Unmerged], out: &mut Vec<u8>) -> Result<(), CantRunApart>
    ensures { out.new.items ≡ out.old.items }
{
    let mut size = 0usize;
    for left in lefts {
        size = size.saturating_add(left.text.len());
    }
    out.reserve(size)?;
    Ok(())
}

// Appends the next text. After an error the text is as before.
fn take_piece(left: &mut Unmerged, out: &mut Vec<u8>) -> Result<(), CantRunApart>
    ensures text { OnOk result
        (out.new.items ≡ out.old.items ++ first_piece (left_pieces left.old)) }
    ensures left { OnOk result (left_pieces left.new ≡ drop 1 (left_pieces left.old)) }
    ensures behind { take (length out.old.items) out.new.items ≡ out.old.items }
{
    let next = left.next;
    let at = left.at;
    if next >= left.lengths.len() || at > left.text.len() {
        return Err(CantRunApart::NotApart);
    }
    let size = left.lengths[next] as usize;
    if size > left.text.len() - at {
        return Err(CantRunApart::NotApart);
    }
    out.extend_from_slice(&left.text[at..at + size])?;
    left.next = next + 1;
    left.at = at + size;
    Ok(())
}

/// Appends at each stretch the next text of its unit. After an error some may have been appended.
pub(crate) fn merge(
    order: &[u8],
    lefts: &mut Vec<Unmerged>,
    out: &mut Vec<u8>,
) -> Result<(), CantRunApart>
    ensures text { OnOk result
        (out.new.items ≡ out.old.items ++ put_together (pieces_at lefts.old.items) order.now) }
    ensures behind { take (length out.old.items) out.new.items ≡ out.old.items }
{
    reserve_all(lefts, out)?;
    'stretches: for whose in order {
        let unit = usize::from(*whose);
        if unit >= lefts.len() {
            return Err(CantRunApart::NotApart);
        }
        take_piece(&mut lefts[unit], out)?;
    }
    Ok(())
}
