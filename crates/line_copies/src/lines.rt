//! The copies of all units' messages.

ghost use Rattle.std.specs.Prelude.{◌≡◌, ℕ, true, List, [], ◌∷◌, None, OnOk, OnErr, IfOk, IfSome};
ghost use Rattle.std.specs.Prelude.{IsOk};
ghost use Rattle.std.specs.Option.{IsSome};
ghost use Rattle.unit_packets.specs.Blocks.{Block};
ghost use Rattle.heard_items.specs.Heard.{heard_block};
ghost use Rattle.heard_items.specs.Units.{unit_history};
ghost use Rattle.unit_clients.specs.Clients.{is_named};
ghost use Rattle.line_copies.specs.Copies.{block_differing, CopiesDiffer};
ghost use Rattle.line_copies.specs.Standing.{HaveKept, IsPlaceOf, KeepsAt};

use crate::unit::{SLOTS, UnitCopies};
use pitch_fields::{HoldLimit, OutOfMemory};
use std::alloc::Global;
use unit_clients::UnitTable;
use unit_packets::BlockView;

/// What is kept of the messages of each unit that a block named. Each of these units has 1 MiB of
/// memory, which is taken at its first block.
#[derive(Drop)]
pub struct LineCopies {
    units: UnitTable<UnitCopies>,
}

// Hears a block with the copies at its unit's place, which are made where there are none.
fn hear_at(
    alloc: Global,
    place: &mut Option<UnitCopies>,
    block: &BlockView<'_>,
) -> Result<Option<u32>, OutOfMemory>
    ensures keeps { OnOk result ((before : List Block) (unit : ℕ) → IsPlaceOf before unit place.old
        → KeepsAt (heard_block block.now (unit_history unit before)) place.new) }
    ensures told { IfOk result (λ told. (before : List Block) (unit : ℕ)
        → IsPlaceOf before unit place.old
        → told ≡ block_differing block.now (unit_history unit before)) }
    ensures err { OnErr result (place.new ≡ place.old) }
    ensures memory { IsSome place.old → IsOk result }
{
    match place {
        Some(copies) => Ok(copies.hear_block(block)),
        None => {
            let mut copies = UnitCopies::make(alloc)?;
            let told = copies.hear_block(block);
            drop(place.replace(copies));
            Ok(told)
        }
    }
}

impl LineCopies {
    /// No block came yet.
    pub fn make(alloc: Global) -> Result<LineCopies, OutOfMemory>
        ensures { IfOk result (λ copies. HaveKept copies []) }
    {
        let Some(limit) = HoldLimit::of(SLOTS as u32) else {
            unreachable!();
        };
        let units = UnitTable::make(alloc, limit)?;
        Ok(LineCopies { units })
    }

    /// Hears a block, and answers the first sequence of which a copy with other bytes was heard
    /// before. Where the answer is None, each of its messages has the sum that is kept of its
    /// sequence, if one is.
    ///
    /// The only error is that there was no memory at the first block of a unit, which was then not
    /// heard.
    pub fn hear_block(
        &mut self,
        alloc: Global,
        block: &BlockView<'_>,
    ) -> Result<Option<u32>, OutOfMemory>
        // Whatever blocks came before, this one came after them.
        ensures heard { OnOk result ((before : List Block)
            → HaveKept self.old before → HaveKept self.new (block.now ∷ before)) }
        ensures told { IfOk result (λ told. (before : List Block) → HaveKept self.old before
            → told ≡ block_differing block.now (unit_history block.now.unit before)) }
        // What was answered is so: two copies of that sequence were heard, and they differ.
        ensures sound { IfOk result (λ told. IfSome told (λ sequence. (before : List Block)
            → HaveKept self.old before
            → CopiesDiffer (unit_history block.now.unit (block.now ∷ before)) sequence)) }
        // After an error they stand for the blocks for which they stood before.
        ensures err { OnErr result
            ((before : List Block) → HaveKept self.old before → HaveKept self.new before) }
        // No error comes where a block named the unit before.
        ensures memory { (before : List Block) → HaveKept self.old before
            → is_named before block.now.unit ≡ true → IsOk result }
    {
        let told = hear_at(alloc, self.units.place_of(block), block)?;
        Ok(told)
    }
}
