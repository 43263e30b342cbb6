//! Lines of messages, field by field.

ghost use Rattle.std.specs.Prelude.{◌≡◌, ◌≤◌, ◌+◌, ◌++◌, [], ◌∷◌, take, drop, length, IsTrue};
ghost use Rattle.std.specs.Prelude.{Result};
ghost use Rattle.pitch_fields.specs.Limits.{last_sequence};
ghost use Rattle.pitch_messages.specs.Raw.{IsRaw, kind_of};
ghost use Rattle.feed_lines.specs.LineSize.{line_size};
ghost use Rattle.feed_lines.specs.layers.Puts.{Puts};
ghost use Rattle.feed_lines.specs.Show.{offset_text, id_text, quantity_text, symbol_text};
ghost use Rattle.feed_lines.specs.Show.{word, price_text, flags_text, execution_text, kind_text};
ghost use Rattle.feed_lines.specs.Show.{side_text, message_texts, message_text};
ghost use Rattle.feed_lines.specs.Show.{extra_texts, said_texts, said_text, sequence_text};
ghost use Rattle.feed_lines.specs.Show.{line_texts, message_line, next_after};
ghost use Rattle.feed_lines.specs.layers.Terms.{has_terms};

use crate::fields;
use crate::lines::LINE;
use pitch_fields::{Price, Side, Symbol};
use pitch_messages::{Message, ReadError, extra_bytes, read_as};

// Puts an offset.
#[inline(always)]
#[tactic(auto, unfolding(crate::specs::Show::offset_text))]
fn put_offset(out: &mut [u8], at: usize, offset: u32) -> usize
    requires { at + 28 ≤ length out.old }
    ensures { Puts (out.old, at) (out.new, result) (offset_text offset ∷ []) 28 }
{
    fields::count(out, at, b" offset=", offset)
}

// Puts a quantity.
#[inline(always)]
#[tactic(auto, unfolding(crate::specs::Show::quantity_text))]
fn put_quantity(out: &mut [u8], at: usize, quantity: u32) -> usize
    requires { at + 30 ≤ length out.old }
    ensures { Puts (out.old, at) (out.new, result) (quantity_text quantity ∷ []) 30 }
{
    fields::count(out, at, b" quantity=", quantity)
}

// Puts a price.
#[inline(always)]
#[tactic(auto, unfolding(crate::specs::Show::price_text))]
fn put_price(out: &mut [u8], at: usize, price: u64) -> usize
    requires { at + 31 ≤ length out.old }
    ensures { Puts (out.old, at) (out.new, result) (price_text price ∷ []) 31 }
{
    fields::price(out, at, b" price=", price)
}

// Puts flags.
#[inline(always)]
#[tactic(auto, unfolding(crate::specs::Show::flags_text))]
fn put_flags(out: &mut [u8], at: usize, flags: u8) -> usize
    requires { at + 9 ≤ length out.old }
    ensures { Puts (out.old, at) (out.new, result) (flags_text flags ∷ []) 9 }
{
    fields::hex(out, at, b" flags=", flags)
}

// Puts the id of an execution.
#[inline(always)]
#[tactic(auto, unfolding(crate::specs::Show::execution_text))]
fn put_execution(out: &mut [u8], at: usize, execution: u64) -> usize
    requires { at + 31 ≤ length out.old }
    ensures { Puts (out.old, at) (out.new, result) (execution_text execution ∷ []) 31 }
{
    fields::number(out, at, b" execution=", execution)
}

// Puts the type of a raw.
#[inline(always)]
#[tactic(auto, unfolding(crate::specs::Show::kind_text))]
fn put_kind(out: &mut [u8], at: usize, raw: &[u8]) -> usize
    requires place { at + 8 ≤ length out.old }
    requires raw { IsRaw raw.now }
    ensures { Puts (out.old, at) (out.new, result) (kind_text raw.now ∷ []) 8 }
{
    fields::hex(out, at, b" kind=", raw[1])
}

// Puts the word of a message, its offset and the id of its order.
#[inline(always)]
#[tactic(auto, unfolding(crate::specs::Show::id_text))]
fn put_head(out: &mut [u8], at: usize, name: &[u8], offset: u32, id: u64) -> usize
    requires { at + length name.now + 60 ≤ length out.old }
    ensures { Puts (out.old, at) (out.new, result)
        (word name.now ∷ offset_text offset ∷ id_text id ∷ []) (length name.now + 60) }
{
    let at = fields::word(out, at, name);
    let at = put_offset(out, at, offset);
    fields::number(out, at, b" id=", id)
}

// Puts the side, quantity, symbol and price of an order.
#[inline(always)]
fn put_terms(
    out: &mut [u8],
    at: usize,
    side: Side,
    quantity: u32,
    symbol: [u8; 8],
    price: u64,
) -> usize
    requires { at + 120 ≤ length out.old }
    ensures { Puts (out.old, at) (out.new, result) (side_text side ∷ quantity_text quantity
        ∷ symbol_text symbol ∷ price_text price ∷ []) 120 }
{
    let at = fields::side(out, at, side);
    let at = put_quantity(out, at, quantity);
    let at = fields::symbol(out, at, symbol);
    put_price(out, at, price)
}

// Puts the fields of an add or a trade.
#[inline(always)]
#[tactic(auto, unfolding(crate::specs::Show::message_texts))]
fn put_with_terms(out: &mut [u8], at: usize, message: &Message) -> usize
    requires place { at + 300 ≤ length out.old }
    requires terms { IsTrue (has_terms message.now) }
    ensures { Puts (out.old, at) (out.new, result) (message_texts message.now) 300 }
{
    match *message {
        Message::AddLong {
            offset,
            id,
            side,
            quantity,
            symbol,
            price,
            flags,
        } => {
            let symbol = Symbol::from_six(symbol).bytes();
            let at = put_head(out, at, b"add-long", offset, id);
            let at = put_terms(out, at, side, quantity, symbol, price);
            put_flags(out, at, flags)
        }
        Message::AddShort {
            offset,
            id,
            side,
            quantity,
            symbol,
            price,
            flags,
        } => {
            let price = Price::from_short(price).ten_thousandths();
            let symbol = Symbol::from_six(symbol).bytes();
            let at = put_head(out, at, b"add-short", offset, id);
            let at = put_terms(out, at, side, u32::from(quantity), symbol, price);
            put_flags(out, at, flags)
        }
        Message::AddExpanded {
            offset,
            id,
            side,
            quantity,
            symbol,
            price,
            flags,
            participant,
        } => {
            let at = put_head(out, at, b"add-expanded", offset, id);
            let at = put_terms(out, at, side, quantity, symbol, price);
            let at = put_flags(out, at, flags);
            fields::participant(out, at, participant)
        }
        Message::TradeLong {
            offset,
            id,
            side,
            quantity,
            symbol,
            price,
            execution,
        } => {
            let symbol = Symbol::from_six(symbol).bytes();
            let at = put_head(out, at, b"trade-long", offset, id);
            let at = put_terms(out, at, side, quantity, symbol, price);
            put_execution(out, at, execution)
        }
        Message::TradeShort {
            offset,
            id,
            side,
            quantity,
            symbol,
            price,
            execution,
        } => {
            let price = Price::from_short(price).ten_thousandths();
            let symbol = Symbol::from_six(symbol).bytes();
            let at = put_head(out, at, b"trade-short", offset, id);
            let at = put_terms(out, at, side, u32::from(quantity), symbol, price);
            put_execution(out, at, execution)
        }
        Message::TradeExpanded {
            offset,
            id,
            side,
            quantity,
            symbol,
            price,
            execution,
        } => {
            let at = put_head(out, at, b"trade-expanded", offset, id);
            let at = put_terms(out, at, side, quantity, symbol, price);
            put_execution(out, at, execution)
        }
        _ => unreachable!(),
    }
}

// Puts the word of a message and its fields.
#[inline(always)]
#[tactic(auto, unfolding(crate::specs::Show::message_texts))]
fn put_fields(out: &mut [u8], at: usize, message: &Message) -> usize
    requires { at + 300 ≤ length out.old }
    ensures { Puts (out.old, at) (out.new, result) (message_texts message.now) 300 }
{
    match *message {
        Message::Time { second } => {
            let at = fields::word(out, at, b"time");
            fields::count(out, at, b" second=", second)
        }
        Message::Executed {
            offset,
            id,
            executed,
            execution,
        } => {
            let at = put_head(out, at, b"executed", offset, id);
            let at = fields::count(out, at, b" executed=", executed);
            put_execution(out, at, execution)
        }
        Message::ExecutedAt {
            offset,
            id,
            executed,
            remaining,
            execution,
            price,
        } => {
            let at = put_head(out, at, b"executed-at", offset, id);
            let at = fields::count(out, at, b" executed=", executed);
            let at = fields::count(out, at, b" remaining=", remaining);
            let at = put_execution(out, at, execution);
            put_price(out, at, price)
        }
        Message::ReduceLong {
            offset,
            id,
            quantity,
        } => {
            let at = put_head(out, at, b"reduce-long", offset, id);
            put_quantity(out, at, quantity)
        }
        Message::ReduceShort {
            offset,
            id,
            quantity,
        } => {
            let at = put_head(out, at, b"reduce-short", offset, id);
            put_quantity(out, at, u32::from(quantity))
        }
        Message::ModifyLong {
            offset,
            id,
            quantity,
            price,
            flags,
        } => {
            let at = put_head(out, at, b"modify-long", offset, id);
            let at = put_quantity(out, at, quantity);
            let at = put_price(out, at, price);
            put_flags(out, at, flags)
        }
        Message::ModifyShort {
            offset,
            id,
            quantity,
            price,
            flags,
        } => {
            let at = put_head(out, at, b"modify-short", offset, id);
            let at = put_quantity(out, at, u32::from(quantity));
            let at = put_price(out, at, Price::from_short(price).ten_thousandths());
            put_flags(out, at, flags)
        }
        Message::Delete { offset, id } => put_head(out, at, b"delete", offset, id),
        Message::TradeBreak { offset, execution } => {
            let at = fields::word(out, at, b"trade-break");
            let at = put_offset(out, at, offset);
            put_execution(out, at, execution)
        }
        Message::EndOfSession { offset } => {
            let at = fields::word(out, at, b"end");
            put_offset(out, at, offset)
        }
        Message::TradingStatus {
            offset,
            symbol,
            halt,
            sho,
        } => {
            let at = fields::word(out, at, b"trading-status");
            let at = put_offset(out, at, offset);
            let at = fields::symbol(out, at, symbol);
            let at = fields::letter(out, at, b" halt=", halt);
            fields::letter(out, at, b" sho=", sho)
        }
        Message::UnitClear { offset } => {
            let at = fields::word(out, at, b"unit-clear");
            put_offset(out, at, offset)
        }
        Message::Other(ref raw) => {
            let bytes = raw.bytes();
            let at = fields::word(out, at, b"other");
            let at = put_kind(out, at, bytes);
            fields::number(out, at, b" length=", bytes.len() as u64)
        }
        _ => put_with_terms(out, at, message),
    }
}

// Puts a message.
#[inline(always)]
fn put_message(out: &mut [u8], at: usize, message: &Message) -> usize
    requires { at + 300 ≤ length out.old }
    ensures { Puts (out.old, at) (out.new, result) (message_text message.now ∷ []) 300 }
{
    put_fields(out, at, message)
}

// Puts how many bytes a message has beyond those that its type needs, where it has any.
#[inline]
#[tactic(auto, unfolding(crate::specs::Show::extra_texts))]
fn put_extra(out: &mut [u8], at: usize, extra: usize) -> usize
    requires { at + 27 ≤ length out.old }
    ensures { Puts (out.old, at) (out.new, result) (extra_texts extra) 27 }
{
    if extra == 0 {
        return at;
    }
    fields::number(out, at, b" extra=", extra as u64)
}

// Puts what was read of a raw.
#[inline(always)]
#[tactic(auto, unfolding(crate::specs::Show::said_texts))]
fn put_read(out: &mut [u8], at: usize, raw: &[u8], read: Result<Message, ReadError>) -> usize
    requires place { at + 400 ≤ length out.old }
    requires raw { IsRaw raw.now }
    ensures { Puts (out.old, at) (out.new, result) (said_texts raw.now read) 400 }
{
    match read {
        Ok(message) => {
            let at = put_message(out, at, &message);
            put_extra(out, at, extra_bytes(raw))
        }
        Err(error) => put_unread(out, at, raw, error),
    }
}

// Puts why a raw of a known type says nothing.
#[tactic(auto, unfolding(crate::specs::Show::said_texts))]
fn put_unread(out: &mut [u8], at: usize, raw: &[u8], error: ReadError) -> usize
    requires place { at + 90 ≤ length out.old }
    requires raw { IsRaw raw.now }
    ensures { Puts (out.old, at) (out.new, result) (said_texts raw.now (Err error)) 90 }
{
    match error {
        ReadError::Short { needs, has } => {
            let at = fields::word(out, at, b"short");
            let at = put_kind(out, at, raw);
            let at = fields::number(out, at, b" needs=", u64::from(needs));
            fields::number(out, at, b" has=", u64::from(has))
        }
        ReadError::BadSide { byte } => {
            let at = fields::word(out, at, b"bad-side");
            let at = put_kind(out, at, raw);
            fields::hex(out, at, b" byte=", byte)
        }
    }
}

// Puts what was read of a raw, as one text.
#[inline(always)]
fn put_as(out: &mut [u8], at: usize, raw: &[u8], kind: u8) -> usize
    requires place { at + 400 ≤ length out.old }
    requires raw { IsRaw raw.now }
    requires kind { kind ≡ kind_of raw.now }
    ensures { Puts (out.old, at) (out.new, result) (said_text raw.now ∷ []) 400 }
{
    put_read(out, at, raw, read_as(kind, raw))
}

// Puts what a raw says. At each literal one form alone is read and written, with no other in
// sight; the types that few messages have share one place.
#[inline(always)]
fn put_said(out: &mut [u8], at: usize, raw: &[u8]) -> usize
    requires place { at + 400 ≤ length out.old }
    requires raw { IsRaw raw.now }
    ensures { Puts (out.old, at) (out.new, result) (said_text raw.now ∷ []) 400 }
{
    match raw[1] {
        0x20 => put_as(out, at, raw, 0x20),
        0x21 => put_as(out, at, raw, 0x21),
        0x22 => put_as(out, at, raw, 0x22),
        0x23 => put_as(out, at, raw, 0x23),
        0x24 => put_as(out, at, raw, 0x24),
        0x25 => put_as(out, at, raw, 0x25),
        0x26 => put_as(out, at, raw, 0x26),
        0x27 => put_as(out, at, raw, 0x27),
        0x28 => put_as(out, at, raw, 0x28),
        0x29 => put_as(out, at, raw, 0x29),
        0x2a => put_as(out, at, raw, 0x2a),
        0x2b => put_as(out, at, raw, 0x2b),
        0x2f => put_as(out, at, raw, 0x2f),
        kind => put_any(out, at, raw, kind),
    }
}

// Puts what a raw of this type says.
fn put_any(out: &mut [u8], at: usize, raw: &[u8], kind: u8) -> usize
    requires place { at + 400 ≤ length out.old }
    requires raw { IsRaw raw.now }
    requires kind { kind ≡ kind_of raw.now }
    ensures { Puts (out.old, at) (out.new, result) (said_text raw.now ∷ []) 400 }
{
    put_as(out, at, raw, kind)
}

// Puts the sequence of a message, or a dash where it has none.
#[inline]
fn put_sequence(out: &mut [u8], at: usize, sequence: u32) -> usize
    requires { at + 20 ≤ length out.old }
    ensures { Puts (out.old, at) (out.new, result) (sequence_text sequence ∷ []) 20 }
{
    if sequence == 0 {
        fields::text(out, at, b"-")
    } else {
        fields::digits(out, at, u64::from(sequence))
    }
}

// Puts the line of a message.
#[inline(always)]
fn put_line(out: &mut [u8], at: usize, sequence: u32, raw: &[u8]) -> usize
    requires place { at + line_size ≤ length out.old }
    requires raw { IsRaw raw.now }
    ensures { Puts (out.old, at) (out.new, result) (line_texts sequence raw.now) line_size }
{
    let at = put_sequence(out, at, sequence);
    let at = fields::text(out, at, b" ");
    let at = put_said(out, at, raw);
    fields::text(out, at, b"\n")
}

/// Writes the line of a message: its sequence, where it has one, then its name and its fields, or
/// why it can't be read.
pub fn put_message_line(out: &mut [u8], at: usize, sequence: u32, raw: &[u8]) -> usize
    requires place { at + line_size ≤ length out.old }
    requires raw { IsRaw raw.now }
    ensures end { result ≤ at + line_size }
    ensures text { take result out.new ≡ take at out.old ++ message_line sequence raw.now }
    ensures rest { drop result out.new ≡ drop result out.old }
    ensures kept { length out.new ≡ length out.old }
{
    put_line(out, at, sequence, raw)
}

/// The sequence after that of a message; a message of an unsequenced block has none, and neither
/// has the next one.
#[inline]
pub fn next_after(sequence: u32) -> u32
    requires { sequence ≤ last_sequence }
    ensures { result ≡ next_after sequence }
{
    if sequence == 0 { 0 } else { sequence + 1 }
}
