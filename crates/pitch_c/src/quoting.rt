//! Hearing a block, and telling what it changed of the best prices.

ghost use Rattle.std.specs.Prelude.{◌≡◌, ◌≤◌, map as mapped};
ghost use Rattle.std.specs.Option.{IsSome};
ghost use Rattle.unit_packets.specs.Judging.{judge};
ghost use Rattle.unit_clients.specs.Clients.{client_of};
ghost use Rattle.leveled_units.specs.Hearing.{IsIdle};
ghost use Rattle.pitch_c.specs.Codes as code;
ghost use Rattle.pitch_c.specs.Answers.{AnswersQuoted, MayTakeQuoted, judged_code};
ghost use Rattle.pitch_c.specs.Arrays.{filled};
ghost use Rattle.pitch_c.specs.Clients.{StillHave, HearsQuoted, HearsUntold};
ghost use Rattle.pitch_c.specs.Clients.{HearQuoted, HearUntold};
ghost use Rattle.pitch_c.specs.Reports.{quote_shown};

use crate::codes::{NO_MEMORY, NOT_A_BLOCK, OK, TRUNCATED, UNTOLD};
use crate::lists::fitting;
use crate::reports::{HeardOut, QuoteOut, heard_out, quote_out};
use best_quotes::{QuoteLine, QuoteLines};
use leveled_units::LeveledUnits;
use std::alloc::Global;
use unit_packets::{BlockView, view_block};

// Writes as many quotes as fit.
fn fill_quotes(lines: &[QuoteLine], told: &mut [QuoteOut])
    ensures { told.new ≡ filled (mapped quote_shown lines.now) told.old }
{
    let count = fitting(lines.len(), told.len());
    'quotes: for at in 0..count {
        told[at] = quote_out(lines[at]);
    }
}

// Hands a block to the client of its unit.
fn hear_block(
    alloc: Global,
    units: &mut LeveledUnits,
    block: &BlockView<'_>,
    told: &mut HeardOut,
    quotes: &mut [QuoteOut],
    number: &mut u64,
) -> u32
    ensures quoted { result ≡ code.ok → HearsQuoted units.old units.new block.now told.new
        quotes.old quotes.new number.new }
    ensures untold { result ≡ code.untold
        → HearsUntold units.old units.new block.now told.new }
    ensures still { result ≡ code.no_memory → StillHave units.old units.new }
    ensures told_kept { 1 ≤ result → (result ≡ code.untold → ⊥) → told.new ≡ told.old }
    ensures kept { 1 ≤ result → (quotes.new ≡ quotes.old) × (number.new ≡ number.old) }
    ensures answer { AnswersQuoted code.ok result }
    ensures memory { result ≡ code.no_memory
        → IsSome (client_of units.old block.now.unit) → IsIdle block.now → ⊥ }
{
    let mut lines = QuoteLines::make(alloc);
    let Ok(heard) = units.hear_quoted(alloc, block, &mut lines) else {
        return NO_MEMORY;
    };
    *told = heard_out(block.header(), heard.change);
    if !heard.told {
        return UNTOLD;
    }
    fill_quotes(lines.as_slice(), quotes);
    *number = lines.len() as u64;
    OK
}

// Hands the block at the start of some bytes to the client of its unit.
pub(crate) fn hear_quoted_first(
    alloc: Global,
    units: &mut LeveledUnits,
    bytes: &[u8],
    told: &mut HeardOut,
    quotes: &mut [QuoteOut],
    number: &mut u64,
) -> u32
    ensures quoted { result ≡ code.ok → HearQuoted bytes.now units.old units.new told.new
        quotes.old quotes.new number.new }
    ensures untold { result ≡ code.untold → HearUntold bytes.now units.old units.new told.new }
    ensures still { 1 ≤ result → (result ≡ code.untold → ⊥) → StillHave units.old units.new }
    ensures told_kept { 1 ≤ result → (result ≡ code.untold → ⊥) → told.new ≡ told.old }
    ensures kept { 1 ≤ result → (quotes.new ≡ quotes.old) × (number.new ≡ number.old) }
    ensures answer { AnswersQuoted (judged_code (judge bytes.now)) result }
    ensures memory { result ≡ code.no_memory → MayTakeQuoted bytes.now units.old }
{
    match view_block(bytes) {
        Ok(block) => hear_block(alloc, units, &block, told, quotes, number),
        Err(error) => {
            if error.is_truncated() {
                TRUNCATED
            } else {
                NOT_A_BLOCK
            }
        }
    }
}
