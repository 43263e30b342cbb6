//! Numbers, prices and names, written as text at a place of a lent buffer.

ghost use Rattle.std.specs.Prelude.{◌≡◌, ◌≤◌, ◌<◌, ◌+◌, ◌++◌, [], ◌∷◌, take, drop, length, decimal};
ghost use Rattle.pitch_fields.specs.Fields.{Begins};
ghost use Rattle.pitch_fields.specs.Name.{hex_digit, hex_text, name_shown, shown_byte};
ghost use Rattle.pitch_fields.specs.Price.{price_digits};

use crate::digits::digits;
use crate::price::Price;
use crate::symbol::{is_printing, without_spaces};
use itoa::write_digits;

/// Writes one byte at a place, and answers where it ends.
#[inline(always)]
#[tactic(auto, using(crate::proofs::Placing::placed))]
pub fn put_byte(out: &mut [u8], at: usize, byte: u8) -> usize
    requires { at < length out.old }
    ensures end { result ≡ at + 1 }
    ensures text { take result out.new ≡ take at out.old ++ byte ∷ [] }
    ensures rest { drop result out.new ≡ drop result out.old }
    ensures kept { length out.new ≡ length out.old }
{
    put_text(out, at, &[byte])
}

/// Writes a text from a place, and answers where it ends.
#[inline(always)]
#[tactic(auto, using(crate::proofs::Placing::placed))]
pub fn put_text(out: &mut [u8], at: usize, text: &[u8]) -> usize
    requires { at + length text.now ≤ length out.old }
    ensures end { result ≡ at + length text.now }
    ensures text { take result out.new ≡ take at out.old ++ text.now }
    ensures rest { drop result out.new ≡ drop result out.old }
    ensures kept { length out.new ≡ length out.old }
{
    let end = at + text.len();
    out[at..end].copy_from_slice(text);
    end
}

/// Writes a number in decimal from a place, and answers where it ends. It has at most 20 digits.
#[inline]
#[tactic(auto, using(crate::proofs::Placing::placed))]
pub fn put_number(out: &mut [u8], at: usize, value: u64) -> usize
    requires { at + 20 ≤ length out.old }
    ensures end { result ≤ at + 20 }
    ensures size { result ≡ at + length (decimal value) }
    ensures text { take result out.new ≡ take at out.old ++ decimal value }
    ensures rest { drop result out.new ≡ drop result out.old }
    ensures kept { length out.new ≡ length out.old }
{
    let end = at + digits(value);
    let _start = write_digits(value, out, end);
    end
}

/// Writes a price in dollars with four decimals from a place, and answers where it ends.
#[inline]
pub fn put_price(out: &mut [u8], at: usize, price: Price) -> usize
    requires { at + 24 ≤ length out.old }
    ensures end { result ≤ at + 21 }
    ensures text { take result out.new ≡ take at out.old ++ price_digits price }
    ensures rest { drop result out.new ≡ drop result out.old }
    ensures kept { length out.new ≡ length out.old }
{
    let all = price.ten_thousandths();
    let point = put_number(out, at, all / 10_000);
    prove!(point <= at + 16);
    let part = all % 10_000;
    let fraction = [
        b'.',
        b'0' + (part / 1000) as u8,
        b'0' + (part / 100 % 10) as u8,
        b'0' + (part / 10 % 10) as u8,
        b'0' + (part % 10) as u8,
    ];
    put_text(out, point, &fraction)
}

// A hexadecimal digit, in lower case.
#[inline(always)]
fn hex(digit: u8) -> u8
    requires { digit < 16 }
    ensures { result ≡ hex_digit digit }
{
    if digit < 10 {
        b'0' + digit
    } else {
        b'a' + (digit - 10)
    }
}

/// Writes a byte by two hexadecimal digits, in lower case, from a place, and answers where it ends.
#[inline]
pub fn put_hex(out: &mut [u8], at: usize, byte: u8) -> usize
    requires { at + 2 ≤ length out.old }
    ensures end { result ≡ at + 2 }
    ensures text { take result out.new ≡ take at out.old ++ hex_text byte }
    ensures rest { drop result out.new ≡ drop result out.old }
    ensures kept { length out.new ≡ length out.old }
{
    put_text(out, at, &[hex(byte / 16), hex(byte % 16)])
}

/// Writes a byte of a name from a place, as itself or as `\x` and two hexadecimal digits, and
/// answers where it ends.
#[inline]
pub fn put_shown_byte(out: &mut [u8], at: usize, byte: u8) -> usize
    requires { at + 4 ≤ length out.old }
    ensures end { result ≤ at + 4 }
    ensures text { take result out.new ≡ take at out.old ++ shown_byte byte }
    ensures rest { drop result out.new ≡ drop result out.old }
    ensures kept { length out.new ≡ length out.old }
{
    if is_printing(byte) {
        return put_byte(out, at, byte);
    }
    let escaped = put_text(out, at, b"\\x");
    put_hex(out, escaped, byte)
}

/// Writes a symbol or a participant of at most 8 bytes from a place, and answers where it ends.
#[inline]
pub fn put_name(out: &mut [u8], at: usize, name: &[u8]) -> usize
    requires room { at + 32 ≤ length out.old }
    requires short { length name.now ≤ 8 }
    ensures end { result ≤ at + 32 }
    ensures text { take result out.new ≡ take at out.old ++ name_shown name.now }
    ensures rest { drop result out.new ≡ drop result out.old }
    ensures kept { length out.new ≡ length out.old }
{
    let shown = without_spaces(name);
    if shown.is_empty() {
        return put_text(out, at, b"\\x20");
    }
    let mut end = at;
    for byte in shown {
        end = put_shown_byte(out, end, *byte);
    }
    end
}

/// Writes a number in decimal at the start, and answers how many bytes it took.
pub fn number_text(value: u64, into: &mut [u8; 24]) -> usize
    ensures text { Begins into.new result (decimal value) }
    ensures rest { drop result into.new ≡ drop result into.old }
{
    put_number(into, 0, value)
}

/// Writes a price in dollars with four decimals at the start, and answers how many bytes it took.
pub fn price_text(price: Price, into: &mut [u8; 24]) -> usize
    ensures text { Begins into.new result (price_digits price) }
    ensures rest { drop result into.new ≡ drop result into.old }
{
    put_price(into, 0, price)
}

/// Writes a symbol or a participant of at most 8 bytes at the start, and answers how many bytes it
/// took.
pub fn name_text(bytes: &[u8], into: &mut [u8; 32]) -> usize
    requires { length bytes.now ≤ 8 }
    ensures text { Begins into.new result (name_shown bytes.now) }
    ensures rest { drop result into.new ≡ drop result into.old }
{
    put_name(into, 0, bytes)
}
