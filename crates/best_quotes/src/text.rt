//! The line that the command `quotes` prints of each quote.

ghost use Rattle.std.specs.Prelude.{◌≡◌, ◌≤◌, ◌+◌, ◌++◌, take, length};
ghost use Rattle.feed_lines.specs.LineSize.{line_size};
ghost use Rattle.best_quotes.specs.QuotesText.{best_text, quote_head, quote_tail, quote_line};

use crate::quote::{Quote, QuoteLine};
use pitch_fields::{Price, put_byte, put_name, put_number, put_price, put_text};

// Writes a price and its shares, or a dash for each.
fn put_best(out: &mut [u8], at: usize, best: Option<(Price, u64)>) -> usize
    requires { at + 60 ≤ length out.old }
    ensures end { result ≤ at + 60 }
    ensures text { take result out.new ≡ take at out.old ++ best_text best }
    ensures kept { length out.new ≡ length out.old }
{
    match best {
        Some((price, shares)) => {
            let priced = put_price(out, at, price);
            let counted = put_byte(out, priced, b' ');
            put_number(out, counted, shares)
        }
        None => put_text(out, at, b"- -"),
    }
}

// Writes how the line of a quote begins: its unit, and the sequence of its message.
fn put_quote_head(out: &mut [u8], at: usize, unit: u8, sequence: u32) -> usize
    requires { at + 60 ≤ length out.old }
    ensures end { result ≤ at + 60 }
    ensures text { take result out.new ≡ take at out.old ++ quote_head unit sequence }
    ensures kept { length out.new ≡ length out.old }
{
    let open = put_text(out, at, b"quote unit ");
    let of_unit = put_number(out, open, u64::from(unit));
    let at_text = put_text(out, of_unit, b" at ");
    let placed = put_number(out, at_text, u64::from(sequence));
    put_byte(out, placed, b' ')
}

// Writes the rest of the line: what the quote says.
fn put_quote_tail(out: &mut [u8], at: usize, quote: &Quote) -> usize
    requires { at + 120 ≤ length out.old }
    ensures end { result ≤ at + 120 }
    ensures text { take result out.new ≡ take at out.old ++ quote_tail quote.now }
    ensures kept { length out.new ≡ length out.old }
{
    let symbol = quote.symbol.bytes();
    let named = put_name(out, at, &symbol);
    let side = put_byte(out, named, b' ');
    let sided = put_byte(out, side, quote.side.byte());
    let best = put_byte(out, sided, b' ');
    let priced = put_best(out, best, quote.best);
    put_byte(out, priced, b'\n')
}

/// Writes the line of a quote of a unit into a buffer from a place, and answers where it ends.
#[tactic(auto, unfolding(crate::specs::QuotesText::quote_line))]
pub fn put_quote_line(out: &mut [u8], at: usize, unit: u8, line: &QuoteLine) -> usize
    requires { at + line_size ≤ length out.old }
    ensures end { result ≤ at + line_size }
    ensures text { take result out.new ≡ take at out.old ++ quote_line unit line.now }
    ensures kept { length out.new ≡ length out.old }
{
    let head = put_quote_head(out, at, unit, line.sequence);
    put_quote_tail(out, head, &line.quote)
}
