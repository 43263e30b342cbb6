//! One block heard by a unit's client, and the quotes of the messages that it applies.

ghost use Rattle.std.specs.Prelude.{OnOk, IfOk, length};
ghost use Rattle.unit_packets.specs.Blocks.{StaysWithin};
ghost use Rattle.best_quotes.specs.layers.Hearing.{LevelsStay, Tells};
ghost use Rattle.client_core.specs.layers.Hearing.{Changes, HearsBlock, KeepsBlock, OfBlock};

use crate::levels::Levels;
use crate::lines::{QuoteLines, turn_each};
use client_core::{Change, UnitClient};
use order_book::TurnList;
use pitch_fields::OutOfMemory;
use pitch_messages::Raws;
use std::alloc::Global;

// Hands a block to a client, turns the levels of its book by what it applies, and appends what each
// message changes. `turns` is filled anew with what these messages did to the orders.
pub(crate) fn hear_block(
    alloc: Global,
    client: &mut UnitClient,
    levels: &mut Levels,
    sequence: u32,
    raws: Raws<'_>,
    turns: &mut TurnList,
    lines: &mut QuoteLines,
) -> Result<Change, OutOfMemory>
    requires within { StaysWithin sequence (length raws) }
    ensures levels { OnOk result
        (LevelsStay client.old client.new levels.old.entries levels.new.entries) }
    ensures tracks { OnOk result (OfBlock sequence raws.entry (HearsBlock client.old client.new)) }
    ensures keeps { OnOk result (OfBlock sequence raws.entry (KeepsBlock client.old client.new)) }
    ensures change { IfOk result (λ change.
        OfBlock sequence raws.entry (Changes client.old change)) }
    // In an honest history the lines are those of the block, as the definition has them.
    ensures lines { OnOk result (OfBlock sequence raws.entry
        (Tells client.old levels.old.entries lines.old.items lines.new.items)) }
{
    turns.truncate(0);
    let reach = client.reach();
    let _orders = client.book().len();
    let change = client.hear_block(sequence, raws, turns)?;
    let _reached = client.reach();
    turn_each(alloc, levels, reach, turns.as_slice(), lines)?;
    Ok(change)
}
