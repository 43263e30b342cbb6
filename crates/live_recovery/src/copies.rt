//! Copies that differ, told before they are heard.

ghost use Rattle.std.specs.Prelude.{List, IfOk};
ghost use Rattle.client_end.specs.Came.{Heard};
ghost use Rattle.live_units.specs.Coming.{UnitCame, to_unit, with_came, with_datagram};
ghost use Rattle.live_recovery.specs.Standing.{Agree, Compares};

use crate::setup::RecoverSetup;
use line_copies::LineCopies;
use pitch_fields::OutOfMemory;
use std::alloc::Global;
use unit_packets::{BlockView, Blocks};

/// Two copies of a message, which came on lines, differ.
#[derive(Clone, Copy, PartialEq, Eq)]
pub struct Disagreement {
    /// The unit whose message it is.
    pub unit: u8,
    /// Its sequence.
    pub sequence: u32,
}

// Compares a block with the copies that came before it, where its unit is listened to.
fn compare_block(
    copies: &mut LineCopies,
    alloc: Global,
    setup: &RecoverSetup,
    block: &BlockView<'_>,
) -> Result<Option<Disagreement>, OutOfMemory>
    ensures { IfOk result (λ told. (came : List UnitCame) → Agree copies.old came
        → Compares told copies.new
        (with_came setup.now.listens (to_unit block.now.unit (Heard block.now)) came)) }
{
    let unit = block.header().unit;
    if !setup.wants(unit) {
        return Ok(None);
    }
    match copies.hear_block(alloc, block)? {
        Some(sequence) => Ok(Some(Disagreement { unit, sequence })),
        None => Ok(None),
    }
}

/// Compares the whole blocks of a datagram with the copies that came before them, up to the first
/// that differs. Blocks of units that are not listened to are passed over.
pub fn compare(
    copies: &mut LineCopies,
    alloc: Global,
    setup: &RecoverSetup,
    datagram: &[u8],
) -> Result<Option<Disagreement>, OutOfMemory>
    // Whatever came before.
    ensures { IfOk result (λ told. (came : List UnitCame) → Agree copies.old came
        → Compares told copies.new (with_datagram setup.now.listens datagram.now came)) }
{
    let mut blocks = Blocks::of_bytes(datagram);
    'next: while let Some(block) = blocks.next_block() {
        if let Some(disagreement) = compare_block(copies, alloc, setup, &block)? {
            return Ok(Some(disagreement));
        }
    }
    Ok(None)
}
