//! Lines written into a buffer at an index. Each function answers where the line ends.

ghost use Rattle.std.specs.Prelude.{◌≡◌, ◌≤◌, ◌+◌, ◌++◌, [], ◌∷◌, take, drop, length};
ghost use Rattle.feed_lines.specs.LineSize.{line_size};
ghost use Rattle.feed_lines.specs.BookText.{hidden_text, participant_text, second_text, order_head};
ghost use Rattle.feed_lines.specs.BookText.{order_tail, order_line, status_line, book_place};
ghost use Rattle.feed_lines.specs.BookText.{book_head};
ghost use Rattle.feed_lines.specs.Follow.{block_line, overflow_text};
ghost use Rattle.feed_lines.specs.Show.{number_field, shown_head};
ghost use Rattle.feed_lines.specs.StatusText.{status_text};
ghost use Rattle.feed_lines.specs.Texts.{block_head};

use crate::fields;
use pitch_fields::{is_blank, put_byte, put_name, put_number, put_price, put_text};
use pitch_messages::{Order, TradingState};
use pitch_model::Status;
use unit_packets::Header;

/// How many bytes a line has at most.
pub const LINE: usize = 512;

/// Writes a number after its name.
#[inline(always)]
pub fn put_number_field(out: &mut [u8], at: usize, name: &[u8], value: u64) -> usize
    requires { at + length name.now + 20 ≤ length out.old }
    ensures end { result ≤ at + length name.now + 20 }
    ensures text { take result out.new ≡ take at out.old ++ number_field name.now value }
    ensures rest { drop result out.new ≡ drop result out.old }
    ensures kept { length out.new ≡ length out.old }
{
    fields::number(out, at, name, value)
}

// Writes how the line of a block begins.
fn put_block_head(out: &mut [u8], at: usize, number: u64, header: Header) -> usize
    requires { at + 120 ≤ length out.old }
    ensures end { result ≤ at + 120 }
    ensures text { take result out.new
        ≡ take at out.old ++ block_head number header.unit header.sequence header.count }
    ensures rest { drop result out.new ≡ drop result out.old }
    ensures kept { length out.new ≡ length out.old }
{
    let block = put_text(out, at, b"block ");
    let numbered = put_number(out, block, number);
    let unit = put_text(out, numbered, b" unit ");
    let of_unit = put_number(out, unit, u64::from(header.unit));
    let first = put_text(out, of_unit, b" first ");
    let from = put_number(out, first, u64::from(header.sequence));
    let count = put_text(out, from, b" count ");
    put_number(out, count, u64::from(header.count))
}

/// Writes a status.
pub fn put_status(out: &mut [u8], at: usize, status: Status) -> usize
    requires { at + 60 ≤ length out.old }
    ensures end { result ≤ at + 60 }
    ensures text { take result out.new ≡ take at out.old ++ status_text status }
    ensures rest { drop result out.new ≡ drop result out.old }
    ensures kept { length out.new ≡ length out.old }
{
    match status {
        Status::Silent => put_text(out, at, b"silent"),
        Status::Current { n } => {
            let current = put_text(out, at, b"current ");
            put_number(out, current, u64::from(n))
        }
        Status::Behind { n, top } => {
            let behind = put_text(out, at, b"behind ");
            let reached = put_number(out, behind, u64::from(n));
            let of = put_text(out, reached, b" of ");
            put_number(out, of, u64::from(top))
        }
    }
}

/// Writes that the hold overflowed, where it did.
pub fn put_overflow(out: &mut [u8], at: usize, overflow: bool) -> usize
    requires { at + 9 ≤ length out.old }
    ensures end { result ≤ at + 9 }
    ensures text { take result out.new ≡ take at out.old ++ overflow_text overflow }
    ensures rest { drop result out.new ≡ drop result out.old }
    ensures kept { length out.new ≡ length out.old }
{
    if overflow {
        put_text(out, at, b" overflow")
    } else {
        at
    }
}

/// Writes the line of a block.
#[tactic(auto, unfolding(crate::specs::Follow::block_line))]
pub fn put_block_line(
    out: &mut [u8],
    at: usize,
    number: u64,
    header: Header,
    overflow: bool,
    status: Status,
) -> usize
    requires { at + line_size ≤ length out.old }
    ensures end { result ≤ at + line_size }
    ensures text { take result out.new ≡ take at out.old
        ++ block_line number header.unit header.sequence header.count overflow status }
    ensures rest { drop result out.new ≡ drop result out.old }
    ensures kept { length out.new ≡ length out.old }
{
    let head = put_block_head(out, at, number, header);
    let marked = put_overflow(out, head, overflow);
    let colon = put_text(out, marked, b"; ");
    let stated = put_status(out, colon, status);
    put_byte(out, stated, b'\n')
}

/// Writes the line of a block whose messages follow, each on a line of its own.
#[tactic(auto, unfolding(crate::specs::Show::shown_head))]
pub fn put_shown_head(out: &mut [u8], at: usize, number: u64, header: Header) -> usize
    requires { at + line_size ≤ length out.old }
    ensures end { result ≤ at + line_size }
    ensures text { take result out.new
        ≡ take at out.old ++ shown_head number header.unit header.sequence header.count }
    ensures rest { drop result out.new ≡ drop result out.old }
    ensures kept { length out.new ≡ length out.old }
{
    let head = put_block_head(out, at, number, header);
    put_byte(out, head, b'\n')
}

// Writes a second, or a dash.
fn put_second(out: &mut [u8], at: usize, second: Option<u32>) -> usize
    requires { at + 20 ≤ length out.old }
    ensures end { result ≤ at + 20 }
    ensures text { take result out.new ≡ take at out.old ++ second_text second }
    ensures rest { drop result out.new ≡ drop result out.old }
    ensures kept { length out.new ≡ length out.old }
{
    match second {
        Some(second) => put_number(out, at, u64::from(second)),
        None => put_byte(out, at, b'-'),
    }
}

// Writes a unit, how far it reaches, and its second.
fn put_book_place(out: &mut [u8], at: usize, unit: u8, reach: u32, second: Option<u32>) -> usize
    requires { at + 120 ≤ length out.old }
    ensures end { result ≤ at + 120 }
    ensures text { take result out.new ≡ take at out.old ++ book_place unit reach second }
    ensures rest { drop result out.new ≡ drop result out.old }
    ensures kept { length out.new ≡ length out.old }
{
    let book = put_text(out, at, b"book unit ");
    let of_unit = put_number(out, book, u64::from(unit));
    let at_text = put_text(out, of_unit, b" at ");
    let reached = put_number(out, at_text, u64::from(reach));
    let clock = put_text(out, reached, b" second ");
    put_second(out, clock, second)
}

/// Writes the first line of a unit's book.
pub fn put_book_head(
    out: &mut [u8],
    at: usize,
    unit: u8,
    reach: u32,
    second: Option<u32>,
    count: u64,
) -> usize
    requires { at + line_size ≤ length out.old }
    ensures end { result ≤ at + line_size }
    ensures text { take result out.new ≡ take at out.old ++ book_head unit reach second count }
    ensures rest { drop result out.new ≡ drop result out.old }
    ensures kept { length out.new ≡ length out.old }
{
    let timed = put_book_place(out, at, unit, reach, second);
    let orders = put_text(out, timed, b" orders ");
    let counted = put_number(out, orders, count);
    put_byte(out, counted, b'\n')
}

fn put_hidden(out: &mut [u8], at: usize, display: bool) -> usize
    requires { at + 7 ≤ length out.old }
    ensures end { result ≤ at + 7 }
    ensures text { take result out.new ≡ take at out.old ++ hidden_text display }
    ensures rest { drop result out.new ≡ drop result out.old }
    ensures kept { length out.new ≡ length out.old }
{
    if display {
        at
    } else {
        put_text(out, at, b" hidden")
    }
}

fn put_participant(out: &mut [u8], at: usize, participant: [u8; 4]) -> usize
    requires { at + 40 ≤ length out.old }
    ensures end { result ≤ at + 40 }
    ensures text { take result out.new ≡ take at out.old ++ participant_text participant }
    ensures rest { drop result out.new ≡ drop result out.old }
    ensures kept { length out.new ≡ length out.old }
{
    if is_blank(&participant) {
        return at;
    }
    let named = put_text(out, at, b" mpid=");
    put_name(out, named, &participant)
}

fn put_order_head(out: &mut [u8], at: usize, order: &Order) -> usize
    requires { at + 60 ≤ length out.old }
    ensures end { result ≤ at + 60 }
    ensures text { take result out.new ≡ take at out.old ++ order_head order.now.id order.now }
    ensures rest { drop result out.new ≡ drop result out.old }
    ensures kept { length out.new ≡ length out.old }
{
    let open = put_text(out, at, b"order ");
    let named = put_number(out, open, order.id);
    let side = put_byte(out, named, b' ');
    let sided = put_byte(out, side, order.side.byte());
    let quantity = put_byte(out, sided, b' ');
    let counted = put_number(out, quantity, u64::from(order.quantity));
    put_byte(out, counted, b' ')
}

fn put_order_tail(out: &mut [u8], at: usize, order: &Order) -> usize
    requires { at + 120 ≤ length out.old }
    ensures end { result ≤ at + 120 }
    ensures text { take result out.new ≡ take at out.old ++ order_tail order.now }
    ensures rest { drop result out.new ≡ drop result out.old }
    ensures kept { length out.new ≡ length out.old }
{
    let symbol = order.symbol.bytes();
    let named = put_name(out, at, &symbol);
    let price = put_byte(out, named, b' ');
    let priced = put_price(out, price, order.price);
    let hidden = put_hidden(out, priced, order.display);
    let taken = put_participant(out, hidden, order.participant);
    put_byte(out, taken, b'\n')
}

/// Writes the line of an open order.
#[tactic(auto, unfolding(crate::specs::BookText::order_line))]
pub fn put_order_line(out: &mut [u8], at: usize, order: &Order) -> usize
    requires { at + line_size ≤ length out.old }
    ensures end { result ≤ at + line_size }
    ensures text { take result out.new ≡ take at out.old ++ order_line order.now.id order.now }
    ensures rest { drop result out.new ≡ drop result out.old }
    ensures kept { length out.new ≡ length out.old }
{
    let head = put_order_head(out, at, order);
    put_order_tail(out, head, order)
}

/// Writes the line of a trading status.
#[tactic(auto, unfolding(crate::specs::BookText::status_line))]
pub fn put_status_line(out: &mut [u8], at: usize, state: &TradingState) -> usize
    requires { at + line_size ≤ length out.old }
    ensures end { result ≤ at + line_size }
    ensures text { take result out.new ≡ take at out.old ++ status_line state.now }
    ensures rest { drop result out.new ≡ drop result out.old }
    ensures kept { length out.new ≡ length out.old }
{
    let open = put_text(out, at, b"status ");
    let symbol = state.symbol.bytes();
    let named = put_name(out, open, &symbol);
    let halt = put_byte(out, named, b' ');
    let halted = put_name(out, halt, &[state.halt]);
    let sho = put_byte(out, halted, b' ');
    let done = put_name(out, sho, &[state.sho]);
    put_byte(out, done, b'\n')
}
