//! Quotes numbered by the sequences of the messages that made them.

ghost use Rattle.std.specs.Prelude.{◌≡◌, ◌≤◌, ◌+◌, ◌++◌, [], length, OnOk, IsOk};
ghost use Rattle.best_quotes.specs.Quoting.{numbered};
ghost use Rattle.best_quotes.specs.layers.Turning.{TurnsEach};

use crate::bests::QuoteList;
use crate::levels::Levels;
use crate::quote::QuoteLine;
use crate::step::turn_levels;
use order_book::Turn;
use pitch_fields::OutOfMemory;
use pitch_messages::List;
use std::alloc::Global;

/// A list of quotes with their sequences.
pub type QuoteLines = List<QuoteLine>;

// Appends quotes with a sequence.
fn number(lines: &mut QuoteLines, sequence: u32, quotes: &QuoteList) -> Result<(), OutOfMemory>
    ensures { OnOk result
        (lines.new.items ≡ lines.old.items ++ numbered sequence quotes.now.items) }
{
    for quote in quotes.as_slice() {
        let line = QuoteLine {
            sequence,
            quote: *quote,
        };
        lines.push(line)?;
    }
    Ok(())
}

/// Does to the levels of a book what each of some messages did to its orders, and appends what each
/// changes of the best prices. The messages follow the one with the sequence `reach`.
///
/// After OutOfMemory nothing is said of the levels, nor of `lines`.
pub fn turn_each(
    alloc: Global,
    levels: &mut Levels,
    reach: u32,
    turns: &[Turn],
    lines: &mut QuoteLines,
) -> Result<(), OutOfMemory>
    requires within { reach + length turns.now ≤ 4294967295 }
    ensures turned { OnOk result (TurnsEach (reach + 1) turns.now
        levels.old.entries levels.new.entries lines.old.items lines.new.items) }
    // No turn takes no memory.
    ensures none { turns.now ≡ [] → IsOk result }
{
    let mut sequence = reach;
    let mut quotes = QuoteList::make(alloc);
    'messages: for turn in turns {
        sequence += 1;
        quotes.truncate(0);
        turn_levels(alloc, levels, turn, &mut quotes)?;
        number(lines, sequence, &quotes)?;
    }
    Ok(())
}
