//! The judgement of one gap request: its status, and its range packed for the gap line.

ghost use Rattle.std.specs.Prelude.{◌≡◌, ℕ, true, IfOk, ◌==◌};
ghost use Rattle.unit_packets.specs.Packing.{bytes_in};
ghost use Rattle.gap_store.specs.Look.{View};
ghost use Rattle.gap_store.specs.layers.Looking.{IsLater};
ghost use Rattle.session_ends.specs.layers.Showing.{ShowsLater};
ghost use Rattle.grp_session.specs.Budget.{Spent, Counted};
ghost use Rattle.grp_session.specs.layers.Ranges.{IsAsked};

use crate::budget::GapBudget;
use gap_store::{Found, GapLookup};
use pitch_fields::OutOfMemory;
use std::alloc::Global;
use unit_packets::DatagramList;

/// What a gap request asks for: so many messages of a unit, from a sequence on.
#[derive(Clone, Copy)]
pub(crate) struct GapRange {
    pub unit: u8,
    pub first: u32,
    pub count: u16,
}

// How a gap request of this unit is answered, where there is a gap source or not. One that is
// accepted counts, and its messages are packed onto the gap line. While a limit is reached none can
// be, so the range is only looked for.
pub(crate) fn ask<L: GapLookup>(
    alloc: Global,
    there: bool,
    range: GapRange,
    budget: &mut GapBudget,
    lookup: &mut L,
    gap_line: &mut DatagramList,
) -> Result<u8, OutOfMemory>
    ensures same { L.still ≡ true → lookup.new ≡ lookup.old }
    // Of every view that the source shows before.
    ensures left { (view : View)
        → L.shows lookup.old view → ShowsLater IsLater (L.shows lookup.new) view }
    // Of what was spent, and of every view that the source shows before.
    ensures asked { IfOk result (λ status. (spent : Spent) (view : View)
        → Counted budget.old spent → L.shows lookup.old view → IsAsked range.unit
        there budget.old.limits range.first range.count spent view status (Counted budget.new)
        (L.shows lookup.new) (bytes_in gap_line.old.items) (bytes_in gap_line.new.items)) }
    ensures limits { budget.new.limits ≡ budget.old.limits }
{
    if !there {
        return Ok(b'U');
    }
    if range.count > 100 {
        return Ok(b'C');
    }
    if range.count == 0 || range.first == 0 {
        return Ok(b'O');
    }
    match budget.limit_reached() {
        Some(status) => match lookup.find(range.first, range.count)? {
            Found::Ahead { .. } => Ok(b'O'),
            Found::NotKept { .. } => Ok(b'O'),
            Found::Kept => Ok(status),
        },
        None => match lookup.pack(alloc, range.unit, range.first, range.count, gap_line)? {
            Found::Ahead { last: _ } => Ok(b'O'),
            Found::NotKept { first: _ } => Ok(b'O'),
            Found::Kept => {
                budget.spend();
                Ok(b'A')
            }
        },
    }
}
