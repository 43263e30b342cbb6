//! Reads the required fields of a line, each by its kind or with its fault.

ghost use Rattle.std.specs.Prelude.{◌≡◌, if◌then◌else◌};
ghost use Rattle.text_lines.specs.Kinds.{begins_with_digit};
ghost use Rattle.text_lines.specs.Options.{ends};
ghost use Rattle.text_lines.specs.Reading.{Reads, number, count_or, byte_field, side_field};
ghost use Rattle.text_lines.specs.Reading.{symbol_field, price_field};

use crate::fault::{Fault, TextCause};
use crate::fields::LineFields;
use crate::kinds;
use pitch_fields::{Price, Side, Symbol};

/// The fault of a required field that is not there: one past the last field that was taken.
pub fn missing_field(fields: &LineFields) -> Fault
    ensures column { result.column ≡ fields.now.past }
    ensures cause { result.cause ≡ TextCause.MissingField }
{
    Fault {
        column: fields.past(),
        cause: TextCause::MissingField,
    }
}

/// Takes a required field, a number of a range; else the fault is BadNumber at its first byte.
#[inline]
pub fn read_number(fields: &mut LineFields, low: u64, high: u64) -> Result<u64, Fault>
    ensures { Reads (number low high fields.old) result fields.new }
{
    let Some(field) = fields.take() else {
        return Err(missing_field(fields));
    };
    match kinds::number(field.bytes, low, high) {
        Some(number) => Ok(number),
        None => Err(Fault {
            column: field.column,
            cause: TextCause::BadNumber,
        }),
    }
}

/// Takes a required field, a number from `low` up to 32 bits, or the word that may stand in its
/// place: then None. Else the fault is BadNumber where the field begins with a digit, and BadWord
/// where it does not.
pub fn read_count(fields: &mut LineFields, word: &[u8], low: u64) -> Result<Option<u32>, Fault>
    ensures { Reads (count_or word.now low fields.old) result fields.new }
{
    let Some(field) = fields.take() else {
        return Err(missing_field(fields));
    };
    if field.bytes == word {
        return Ok(None);
    }
    match kinds::number(field.bytes, low, u64::from(u32::MAX)) {
        Some(number) => Ok(Some(number as u32)),
        None => Err(Fault {
            column: field.column,
            cause: cause_by_first(field.bytes),
        }),
    }
}

// The cause of a field that is neither a number nor the word: what begins with a digit is meant as
// a number.
fn cause_by_first(bytes: &[u8]) -> TextCause
    ensures { result
        ≡ (if begins_with_digit bytes.now then TextCause.BadNumber else TextCause.BadWord) }
{
    match bytes {
        [first, ..] if first.is_ascii_digit() => TextCause::BadNumber,
        _ => TextCause::BadWord,
    }
}

/// Takes a required field, a side; else the fault is BadWord at its first byte.
#[inline]
pub fn read_side(fields: &mut LineFields) -> Result<Side, Fault>
    ensures { Reads (side_field fields.old) result fields.new }
{
    let Some(field) = fields.take() else {
        return Err(missing_field(fields));
    };
    match kinds::side(field.bytes) {
        Some(side) => Ok(side),
        None => Err(Fault {
            column: field.column,
            cause: TextCause::BadWord,
        }),
    }
}

/// Takes a required field, one printing byte; else the fault is BadWord at its first byte.
#[inline]
pub fn read_byte(fields: &mut LineFields) -> Result<u8, Fault>
    ensures { Reads (byte_field fields.old) result fields.new }
{
    let Some(field) = fields.take() else {
        return Err(missing_field(fields));
    };
    match kinds::byte(field.bytes) {
        Some(byte) => Ok(byte),
        None => Err(Fault {
            column: field.column,
            cause: TextCause::BadWord,
        }),
    }
}

/// Takes a required field, a symbol; else the fault is BadSymbol at its first byte.
#[inline]
pub fn read_symbol(fields: &mut LineFields) -> Result<Symbol, Fault>
    ensures { Reads (symbol_field fields.old) result fields.new }
{
    let Some(field) = fields.take() else {
        return Err(missing_field(fields));
    };
    match kinds::symbol(field.bytes) {
        Some(symbol) => Ok(symbol),
        None => Err(Fault {
            column: field.column,
            cause: TextCause::BadSymbol,
        }),
    }
}

/// Takes a required field, a price; else the fault is BadPrice at its first byte.
#[inline]
pub fn read_price(fields: &mut LineFields) -> Result<Price, Fault>
    ensures { Reads (price_field fields.old) result fields.new }
{
    let Some(field) = fields.take() else {
        return Err(missing_field(fields));
    };
    match kinds::price(field.bytes) {
        Some(price) => Ok(price),
        None => Err(Fault {
            column: field.column,
            cause: TextCause::BadPrice,
        }),
    }
}

/// Reads the end of a line that has no optional field; a field that is there is one too many.
#[inline]
pub fn read_end(fields: &LineFields) -> Result<(), Fault>
    ensures { Reads (ends fields.now) result fields.now }
{
    match fields.peek() {
        None => Ok(()),
        Some(field) => Err(Fault {
            column: field.column,
            cause: TextCause::ExtraField,
        }),
    }
}
