//! What the bytes of a field say as a number, price, side, byte, symbol or participant.

ghost use Rattle.std.specs.Prelude.{◌≡◌, ◌+◌, ◌*◌, ◌≤◌, ◌<◌, ◌^◌, ◌&&◌, IfSome, Some, None};
ghost use Rattle.std.specs.Prelude.{if◌then◌else◌, length, nat_lt, nat_le};
ghost use Rattle.std.specs.List.{list_all};
ghost use Rattle.std.specs.Char.{is_ascii_digit, digit_value};
ghost use Rattle.std.specs.Str.Parse.{digits_value};
ghost use Rattle.pitch_fields.specs.Name.{is_printing};
ghost use Rattle.text_lines.specs.Kinds.{number_of, digits_of, fraction_of, price_in, byte_in};
ghost use Rattle.text_lines.specs.Kinds.{side_in, symbol_of, participant_of};

use crate::fields::length_before;
use pitch_fields::{Price, Side, Symbol, are_printing, is_printing};

/// A number: 1 to 20 decimal digits, where its value lies in a range. Leading zeros count as
/// digits.
#[inline]
pub fn number(bytes: &[u8], low: u64, high: u64) -> Option<u64>
    ensures { result ≡ number_of low high bytes.now }
{
    let value = digits(bytes, 20)?;
    if u128::from(low) <= value && value <= u128::from(high) {
        Some(value as u64)
    } else {
        None
    }
}

// The number that some digits write, at least one of them and at most so many.
#[inline]
fn digits(bytes: &[u8], most: usize) -> Option<u128>
    requires { most ≤ 20 }
    ensures value { result ≡ digits_of most bytes.now }
    ensures small { IfSome result (λ n. n < 10 ^ 20) }
{
    if bytes.is_empty() || bytes.len() > most {
        return None;
    }
    let value = u128::from(short_digits(&bytes[..bytes.len().min(19)])?);
    match bytes.get(19) {
        None => Some(value),
        Some(last) => with_digit(value, *last),
    }
}

// A number with one digit more at its end.
#[inline]
fn with_digit(value: u128, byte: u8) -> Option<u128>
    requires { value < 10 ^ 19 }
    ensures { result
        ≡ (if is_ascii_digit byte then Some (value * 10 + digit_value byte) else None) }
{
    if byte.is_ascii_digit() {
        Some(value * 10 + u128::from(byte - b'0'))
    } else {
        None
    }
}

// The number that up to 19 digits write, which fits 64 bits.
#[inline]
fn short_digits(bytes: &[u8]) -> Option<u64>
    requires { length bytes.now ≤ 19 }
    ensures value { result
        ≡ (if list_all is_ascii_digit bytes.now then Some (digits_value 10 bytes.now) else None) }
    ensures small { IfSome result (λ n. n < 10 ^ 19) }
{
    let mut value: u64 = 0;
    for byte in bytes {
        if !byte.is_ascii_digit() {
            return None;
        }
        value = value * 10 + u64::from(*byte - b'0');
    }
    Some(value)
}

/// A price in dollars: 1 to 16 digits, then nothing or a point and 1 to 4 digits. In
/// ten-thousandths of a dollar it fits 64 bits.
#[inline]
pub fn price(bytes: &[u8]) -> Option<Price>
    ensures { result ≡ price_in bytes.now }
{
    let point = length_before(bytes, b'.');
    let whole = digits(&bytes[..point], 16)?;
    let part = if point < bytes.len() {
        fraction(&bytes[point + 1..])?
    } else {
        0
    };
    let value = whole * 10_000 + part;
    if value <= u128::from(u64::MAX) {
        Some(Price::from_long(value as u64))
    } else {
        None
    }
}

// The ten-thousandths that 1 to 4 digits after a point write.
#[inline]
fn fraction(bytes: &[u8]) -> Option<u128>
    ensures value { result ≡ fraction_of bytes.now }
    ensures small { IfSome result (λ n. n < 10 ^ 24) }
{
    let value = digits(bytes, 4)?;
    Some(value * 10u128.pow(4 - bytes.len() as u32))
}

/// A side: `B` or `S`.
#[inline]
pub fn side(bytes: &[u8]) -> Option<Side>
    ensures { result ≡ side_in bytes.now }
{
    match bytes {
        [byte] => Side::from_byte(*byte),
        _ => None,
    }
}

/// One printing byte other than the backslash.
#[inline]
pub fn byte(bytes: &[u8]) -> Option<u8>
    ensures { result ≡ byte_in bytes.now }
{
    match bytes {
        [byte] => printing_byte(*byte),
        _ => None,
    }
}

// The byte, where it is a printing one other than the backslash.
#[inline]
fn printing_byte(byte: u8) -> Option<u8>
    ensures { result ≡ (if is_printing byte then Some byte else None) }
{
    if is_printing(byte) { Some(byte) } else { None }
}

/// A symbol: 1 to 8 printing bytes other than the backslash. Spaces are added up to 8.
#[inline]
pub fn symbol(bytes: &[u8]) -> Option<Symbol>
    ensures { result ≡ symbol_of bytes.now }
{
    if !is_name(bytes, 8) {
        return None;
    }
    let mut padded = [b' '; 8];
    padded[..bytes.len()].copy_from_slice(bytes);
    Some(Symbol::from_eight(padded))
}

/// A participant: 1 to 4 printing bytes other than the backslash. Spaces are added up to 4.
#[inline]
pub fn participant(bytes: &[u8]) -> Option<[u8; 4]>
    ensures { result ≡ participant_of bytes.now }
{
    if !is_name(bytes, 4) {
        return None;
    }
    let mut padded = [b' '; 4];
    padded[..bytes.len()].copy_from_slice(bytes);
    Some(padded)
}

// Whether there is a byte, there are at most so many, and each is a printing one other than the
// backslash.
#[inline]
fn is_name(bytes: &[u8], width: usize) -> bool
    ensures { result ≡ nat_lt 0 (length bytes.now)
        && nat_le (length bytes.now) width && list_all is_printing bytes.now }
{
    !bytes.is_empty() && bytes.len() <= width && are_printing(bytes)
}
