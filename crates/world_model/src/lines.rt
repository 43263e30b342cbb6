//! The printed line of a verb.

ghost use Rattle.std.specs.Prelude.{◌≡◌, ◌≤◌, ◌+◌, ◌++◌, ◌∷◌, [], length, take, OnOk, OnErr, codes};
ghost use Rattle.std.specs.Prelude.{decimal};
ghost use Rattle.feed_lines.specs.Follow.{overflow_text};
ghost use Rattle.feed_lines.specs.LineSize.{line_size};
ghost use Rattle.feed_lines.specs.StatusText.{status_text};
ghost use Rattle.venue_core.specs.Causes.{refusal_text};
ghost use Rattle.world_model.specs.Printed.{ask_text, best_text, outcome_text, printed_line};
ghost use Rattle.world_model.specs.Printed.{quoted_symbol};

use crate::outcome::{Outcome, Printed};
use feed_lines::{LINE, put_overflow, put_status};
use pitch_fields::{OutOfMemory, Price, put_byte, put_name, put_number, put_price, put_text};
use pitch_model::Ask;
use pitch_text::Verb;
use venue_core::VenueError;

// Writes a number after a word.
fn put_counted(out: &mut [u8], at: usize, word: &[u8], value: u64) -> usize
    requires { at + length word.now + 20 ≤ length out.old }
    ensures end { result ≤ at + length word.now + 20 }
    ensures text { take result out.new ≡ take at out.old ++ (word.now ++ decimal value) }
    ensures kept { length out.new ≡ length out.old }
{
    let named = put_text(out, at, word);
    put_number(out, named, value)
}

// Writes two numbers after a word.
fn put_pair(out: &mut [u8], at: usize, word: &[u8], first: u64, second: u64) -> usize
    requires { at + length word.now + 41 ≤ length out.old }
    ensures end { result ≤ at + length word.now + 41 }
    ensures text { take result out.new
        ≡ take at out.old ++ (word.now ++ (decimal first ++ 32 ∷ decimal second)) }
    ensures kept { length out.new ≡ length out.old }
{
    let named = put_text(out, at, word);
    let one = put_number(out, named, first);
    let between = put_byte(out, one, b' ');
    put_number(out, between, second)
}

// Writes why a venue refuses a command.
fn put_refusal(out: &mut [u8], at: usize, error: VenueError) -> usize
    requires { at + 60 ≤ length out.old }
    ensures end { result ≤ at + 60 }
    ensures text { take result out.new ≡ take at out.old ++ refusal_text error }
    ensures kept { length out.new ≡ length out.old }
{
    match error {
        VenueError::Ended => put_text(out, at, b"ended"),
        VenueError::ZeroQuantity => put_text(out, at, b"zero-quantity"),
        VenueError::BadSymbol => put_text(out, at, b"bad-symbol"),
        VenueError::KnownId => put_text(out, at, b"known-id"),
        VenueError::UnknownId => put_text(out, at, b"unknown-id"),
        VenueError::TooMuch { asked, held } => {
            let much = put_text(out, at, b"too-much ");
            let first = put_number(out, much, u64::from(asked));
            let of = put_text(out, first, b" ");
            put_number(out, of, u64::from(held))
        }
        VenueError::BookFull => put_text(out, at, b"book-full"),
        VenueError::SequencesSpent => put_text(out, at, b"sequences-spent"),
        VenueError::OutOfMemory => put_text(out, at, b"out of memory"),
    }
}

// Writes a best price with its shares, or dashes.
fn put_best(out: &mut [u8], at: usize, best: Option<(Price, u64)>) -> usize
    requires { at + 60 ≤ length out.old }
    ensures end { result ≤ at + 60 }
    ensures text { take result out.new ≡ take at out.old ++ best_text best }
    ensures kept { length out.new ≡ length out.old }
{
    match best {
        None => put_text(out, at, b" - -"),
        Some((price, shares)) => {
            let space = put_byte(out, at, b' ');
            let priced = put_price(out, space, price);
            let between = put_byte(out, priced, b' ');
            put_number(out, between, shares)
        }
    }
}

// Writes the symbol for which a verb asks.
fn put_quoted(out: &mut [u8], at: usize, verb: &Verb) -> usize
    requires { at + 40 ≤ length out.old }
    ensures end { result ≤ at + 40 }
    ensures text { take result out.new ≡ take at out.old ++ quoted_symbol verb.now }
    ensures kept { length out.new ≡ length out.old }
{
    match verb {
        Verb::Quote { symbol } => {
            let bytes = symbol.bytes();
            put_name(out, at, &bytes)
        }
        _ => at,
    }
}

// Writes the best prices of the symbol for which a verb asks.
fn put_quote(
    out: &mut [u8],
    at: usize,
    verb: &Verb,
    bid: Option<(Price, u64)>,
    offer: Option<(Price, u64)>,
) -> usize
    requires { at + 200 ≤ length out.old }
    ensures end { result ≤ at + 200 }
    ensures text { take result out.new ≡ take at out.old
        ++ (codes "quote " ++ (quoted_symbol verb.now ++ (best_text bid ++ best_text offer))) }
    ensures kept { length out.new ≡ length out.old }
{
    let quote = put_text(out, at, b"quote ");
    let named = put_quoted(out, quote, verb);
    let bought = put_best(out, named, bid);
    put_best(out, bought, offer)
}

// Writes what the client asked for.
fn put_ask(out: &mut [u8], at: usize, ask: Ask) -> usize
    requires { at + 60 ≤ length out.old }
    ensures end { result ≤ at + 60 }
    ensures text { take result out.new ≡ take at out.old ++ ask_text ask }
    ensures kept { length out.new ≡ length out.old }
{
    match ask {
        Ask::Gap { first, count } => put_pair(
            out,
            at,
            b"asked gap ",
            u64::from(first),
            u64::from(count),
        ),
        Ask::Spin { sequence } => put_counted(out, at, b"asked spin ", u64::from(sequence)),
    }
}

// Writes what became of a verb.
#[tactic(auto, unfolding(crate::specs::Printed::outcome_text))]
fn put_outcome(out: &mut [u8], at: usize, verb: &Verb, outcome: Outcome) -> usize
    requires { at + 250 ≤ length out.old }
    ensures end { result ≤ at + 250 }
    ensures text { take result out.new ≡ take at out.old ++ outcome_text verb.now outcome }
    ensures kept { length out.new ≡ length out.old }
{
    match outcome {
        Outcome::Opened => put_text(out, at, b"opened"),
        Outcome::AlreadyOpen => put_text(out, at, b"already-open"),
        Outcome::Accepted { sequence } => put_counted(out, at, b"accepted ", u64::from(sequence)),
        Outcome::Refused(error) => {
            let refused = put_text(out, at, b"refused ");
            put_refusal(out, refused, error)
        }
        Outcome::Sent { datagrams } => put_counted(out, at, b"sent ", u64::from(datagrams)),
        Outcome::Heard { datagrams } => put_counted(out, at, b"heard ", datagrams),
        Outcome::NoDatagram => put_text(out, at, b"no-datagram"),
        Outcome::Cut => put_text(out, at, b"cut"),
        Outcome::NotOpen => put_text(out, at, b"not-open"),
        Outcome::Carried { bytes } => put_counted(out, at, b"carried ", bytes),
        Outcome::TooFew { asked, has } => put_pair(out, at, b"too-few ", u64::from(asked), has),
        Outcome::Advertised { sequence } => {
            put_counted(out, at, b"advertised ", u64::from(sequence))
        }
        Outcome::Asked(ask) => put_ask(out, at, ask),
        Outcome::Ticked => put_text(out, at, b"ticked"),
        Outcome::Shown => put_text(out, at, b"shown"),
        Outcome::Quoted { bid, offer } => put_quote(out, at, verb, bid, offer),
    }
}

// Writes the number of a line.
fn put_line_number(out: &mut [u8], at: usize, line: u32) -> usize
    requires { at + 20 ≤ length out.old }
    ensures end { result ≤ at + 20 }
    ensures text { take result out.new ≡ take at out.old ++ decimal line }
    ensures kept { length out.new ≡ length out.old }
{
    put_number(out, at, u64::from(line))
}

// Writes the number of a unit.
fn put_unit(out: &mut [u8], at: usize, unit: u8) -> usize
    requires { at + 20 ≤ length out.old }
    ensures end { result ≤ at + 20 }
    ensures text { take result out.new ≡ take at out.old ++ decimal unit }
    ensures kept { length out.new ≡ length out.old }
{
    put_number(out, at, u64::from(unit))
}

// Writes the number of a schedule's line and its unit.
fn put_place(out: &mut [u8], at: usize, line: u32, unit: u8) -> usize
    requires { at + 60 ≤ length out.old }
    ensures end { result ≤ at + 60 }
    ensures text { take result out.new
        ≡ take at out.old ++ (decimal line ++ (32 ∷ [] ++ (decimal unit ++ 32 ∷ []))) }
    ensures kept { length out.new ≡ length out.old }
{
    let numbered = put_line_number(out, at, line);
    let space = put_byte(out, numbered, b' ');
    let of_unit = put_unit(out, space, unit);
    put_byte(out, of_unit, b' ')
}

// Writes the rest of the line: outcome, overflow mark and status.
fn put_answer(out: &mut [u8], at: usize, verb: &Verb, printed: &Printed) -> usize
    requires { at + 400 ≤ length out.old }
    ensures end { result ≤ at + 400 }
    ensures text { take result out.new ≡ take at out.old
        ++ (outcome_text verb.now printed.now.outcome ++ (overflow_text printed.now.overflow
        ++ (codes "; " ++ (status_text printed.now.status ++ 10 ∷ [])))) }
    ensures kept { length out.new ≡ length out.old }
{
    let done = put_outcome(out, at, verb, printed.outcome);
    let marked = put_overflow(out, done, printed.overflow);
    let colon = put_text(out, marked, b"; ");
    let stated = put_status(out, colon, printed.status);
    put_byte(out, stated, b'\n')
}

// Writes the line of a verb.
fn put_printed(
    out: &mut [u8],
    at: usize,
    line: u32,
    unit: u8,
    verb: &Verb,
    printed: &Printed,
) -> usize
    requires { at + line_size ≤ length out.old }
    ensures end { result ≤ at + line_size }
    ensures text { take result out.new
        ≡ take at out.old ++ printed_line line unit verb.now printed.now }
    ensures kept { length out.new ≡ length out.old }
{
    let placed = put_place(out, at, line, unit);
    put_answer(out, placed, verb, printed)
}

/// Appends the line of a verb. The text is as before after OutOfMemory.
pub fn append_printed(
    line: u32,
    unit: u8,
    verb: &Verb,
    printed: &Printed,
    out: &mut Vec<u8>,
) -> Result<(), OutOfMemory>
    ensures ok { OnOk result (out.new.items
        ≡ out.old.items ++ printed_line line unit verb.now printed.now) }
    ensures err { OnErr result (out.new.items ≡ out.old.items) }
{
    let mut place = [0u8; LINE];
    let end = put_printed(&mut place, 0, line, unit, verb, printed);
    out.extend_from_slice(&place[..end])?;
    Ok(())
}
