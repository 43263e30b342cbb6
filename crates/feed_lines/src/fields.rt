//! Fields of messages, each after its name, put into a buffer at an index. Each function answers
//! where its field ends.

ghost use Rattle.std.specs.Prelude.{◌≤◌, ◌+◌, [], ◌∷◌, length, codes, decimal};
ghost use Rattle.feed_lines.specs.layers.Puts.{Puts};
ghost use Rattle.feed_lines.specs.Show.{number_field, price_field, hex_field, side_text};
ghost use Rattle.feed_lines.specs.Show.{text_field};
ghost use Rattle.feed_lines.specs.Show.{symbol_text, word};

use pitch_fields::{Price, Side, put_byte, put_hex, put_name, put_number, put_price, put_text};

/// Puts a text.
#[inline(always)]
pub fn text(out: &mut [u8], at: usize, text: &[u8]) -> usize
    requires { at + length text.now ≤ length out.old }
    ensures { Puts (out.old, at) (out.new, result) (text.now ∷ []) (length text.now) }
{
    put_text(out, at, text)
}

/// Puts the word of a message.
#[inline(always)]
#[tactic(auto, unfolding(crate::specs::Show::word))]
pub fn word(out: &mut [u8], at: usize, letters: &[u8]) -> usize
    requires { at + length letters.now ≤ length out.old }
    ensures { Puts (out.old, at) (out.new, result) (word letters.now ∷ []) (length letters.now) }
{
    text(out, at, letters)
}

/// Puts a number with no name.
#[inline(always)]
pub fn digits(out: &mut [u8], at: usize, value: u64) -> usize
    requires { at + 20 ≤ length out.old }
    ensures { Puts (out.old, at) (out.new, result) (decimal value ∷ []) 20 }
{
    put_number(out, at, value)
}

/// Puts a number.
#[inline(always)]
pub fn number(out: &mut [u8], at: usize, name: &[u8], value: u64) -> usize
    requires { at + length name.now + 20 ≤ length out.old }
    ensures { Puts (out.old, at) (out.new, result)
        (number_field name.now value ∷ []) (length name.now + 20) }
{
    let named = text(out, at, name);
    put_number(out, named, value)
}

/// Puts a number of 32 bits.
#[inline(always)]
pub fn count(out: &mut [u8], at: usize, name: &[u8], value: u32) -> usize
    requires { at + length name.now + 20 ≤ length out.old }
    ensures { Puts (out.old, at) (out.new, result)
        (number_field name.now value ∷ []) (length name.now + 20) }
{
    number(out, at, name, u64::from(value))
}

/// Puts a price.
#[inline]
pub fn price(out: &mut [u8], at: usize, name: &[u8], price: u64) -> usize
    requires { at + length name.now + 24 ≤ length out.old }
    ensures { Puts (out.old, at) (out.new, result)
        (price_field name.now price ∷ []) (length name.now + 24) }
{
    let named = text(out, at, name);
    put_price(out, named, Price::from_long(price))
}

/// Puts a byte in hexadecimal.
#[inline]
pub fn hex(out: &mut [u8], at: usize, name: &[u8], byte: u8) -> usize
    requires { at + length name.now + 2 ≤ length out.old }
    ensures { Puts (out.old, at) (out.new, result)
        (hex_field name.now byte ∷ []) (length name.now + 2) }
{
    let named = text(out, at, name);
    put_hex(out, named, byte)
}

/// Puts a side.
#[inline]
pub fn side(out: &mut [u8], at: usize, side: Side) -> usize
    requires { at + 7 ≤ length out.old }
    ensures { Puts (out.old, at) (out.new, result) (side_text side ∷ []) 7 }
{
    let named = text(out, at, b" side=");
    put_byte(out, named, side.byte())
}

/// Puts bytes that are text.
#[inline]
fn name(out: &mut [u8], at: usize, name: &[u8], bytes: &[u8]) -> usize
    requires place { at + length name.now + 32 ≤ length out.old }
    requires short { length bytes.now ≤ 8 }
    ensures { Puts (out.old, at) (out.new, result)
        (text_field name.now bytes.now ∷ []) (length name.now + 32) }
{
    let named = text(out, at, name);
    put_name(out, named, bytes)
}

/// Puts a symbol.
#[inline]
#[tactic(auto, unfolding(crate::specs::Show::symbol_text))]
pub fn symbol(out: &mut [u8], at: usize, symbol: [u8; 8]) -> usize
    requires { at + 40 ≤ length out.old }
    ensures { Puts (out.old, at) (out.new, result) (symbol_text symbol ∷ []) 40 }
{
    name(out, at, b" symbol=", &symbol)
}

/// Puts a participant.
#[inline]
pub fn participant(out: &mut [u8], at: usize, participant: [u8; 4]) -> usize
    requires { at + 45 ≤ length out.old }
    ensures { Puts (out.old, at) (out.new, result)
        (text_field (codes " participant=") participant ∷ []) 45 }
{
    name(out, at, b" participant=", &participant)
}

/// Puts one byte that is text.
#[inline]
pub fn letter(out: &mut [u8], at: usize, called: &[u8], byte: u8) -> usize
    requires { at + length called.now + 32 ≤ length out.old }
    ensures { Puts (out.old, at) (out.new, result)
        (text_field called.now (byte ∷ []) ∷ []) (length called.now + 32) }
{
    name(out, at, called, &[byte])
}
