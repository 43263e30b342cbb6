//! Reads the optional fields of a line: a word, a named number, and the end after them.

ghost use Rattle.std.specs.Prelude.{◌≡◌, Ok};
ghost use Rattle.text_lines.specs.Kinds.{number_of};
ghost use Rattle.text_lines.specs.layers.Next.{word_next, value_next, end_next};
ghost use Rattle.text_lines.specs.Reading.{Reads};

use crate::fault::{Fault, TextCause};
use crate::fields::LineFields;
use crate::kinds;

/// Reads the optional field that is one word, where it stands next: whether it does. Else nothing
/// is read.
#[inline]
pub fn next_word(fields: &mut LineFields, word: &[u8]) -> bool
    ensures { word_next word.now fields.old ≡ Ok (result, fields.new) }
{
    match fields.peek() {
        Some(field) if field.bytes == word => {
            fields.take();
            true
        }
        _ => false,
    }
}

/// Reads the optional field `name=N`, where it stands next, with N a number of a range: else the
/// fault is BadNumber at its first byte. Where it does not stand next, None, and nothing is read.
/// The `=` belongs to the name.
#[inline]
pub fn next_value(
    fields: &mut LineFields,
    name: &[u8],
    low: u32,
    high: u32,
) -> Result<Option<u32>, Fault>
    ensures { Reads (value_next name.now (number_of low high) TextCause.BadNumber fields.old)
        result fields.new }
{
    let Some(field) = fields.peek() else {
        return Ok(None);
    };
    let Some(bytes) = field.bytes.strip_prefix(name) else {
        return Ok(None);
    };
    fields.take();
    match kinds::number(bytes, u64::from(low), u64::from(high)) {
        Some(number) => Ok(Some(number as u32)),
        None => Err(Fault {
            column: field.column,
            cause: TextCause::BadNumber,
        }),
    }
}

/// Reads the end of the line after its optional fields. A further field is one too many where the
/// last of them was read, and a bad word where it was not.
#[inline]
pub fn next_end(fields: &LineFields, last_read: bool) -> Result<(), Fault>
    ensures { Reads (end_next last_read fields.now) result fields.now }
{
    match fields.peek() {
        None => Ok(()),
        Some(field) => Err(Fault {
            column: field.column,
            cause: if last_read {
                TextCause::ExtraField
            } else {
                TextCause::BadWord
            },
        }),
    }
}
