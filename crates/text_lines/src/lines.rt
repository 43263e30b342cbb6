//! The trait of a grammar, and texts read by one, line by line or whole.

ghost use Rattle.std.specs.Prelude.{◌≡◌, ◌≤◌, ◌<◌, ◌^◌, OnOk, OnErr, IfErr, length, take};
ghost use Rattle.std.specs.Prelude.{option_map};
ghost use Rattle.std.specs.Iterator.{YieldsFirst, item_count};
ghost use Rattle.std.specs.Str.Lines.{strip_carriage_return};
ghost use Rattle.pitch_fields.specs.Limits.{text_limit};
ghost use Rattle.text_lines.specs.Fields.{Rest};
ghost use Rattle.text_lines.specs.Reading.{Reads};
ghost use Rattle.text_lines.specs.Text.{line_of, is_skipped, too_long, said_on, entries_of};
ghost use Rattle.text_lines.specs.Items.{item_of, items_of, IsFirstLine, AppendsEntries};
ghost use Rattle.text_lines.specs.Items.{IsFirstFault};

use crate::fault::{Fault, TextCause, TextError};
use crate::fields::{LineFields, length_before};
use pitch_messages::List;
use std::marker::{Model, PhantomData};

/// The most bytes that a line can have, without its line end: 200.
pub const LONGEST_LINE: usize = 200;

// Where a longer line has its fault.
const LONG_LINE_COLUMN: u32 = 201;

/// A grammar of lines: what the fields of a line say, and the entry that they make.
pub trait Grammar {
    ghost use Rattle.std.specs.Prelude.{ℕ, Result};
    ghost use Rattle.text_lines.specs.declared.fault.Fault.{Fault};

    /// What a line says.
    type Said: Drop;
    /// The entry of a line: what it says, with its number.
    type Entry: Drop;

    /// The grammar as a definition: what some fields say and what is left, or the first fault.
    ghost reading: { Rest → Result (Self.Said × Rest) Fault };

    /// The entry of a line's number and what the line says.
    ghost entry_of: { ℕ × Self.Said → Self.Entry };

    /// Reads the fields of a line, as the definition says.
    fn read(fields: &mut LineFields) -> Result<Self::Said, Fault>
        ensures { Reads (reading fields.old) result fields.new };

    /// Makes an entry of a line's number, counted from 1.
    fn entry(line: u32, said: Self::Said) -> Self::Entry
        ensures { result ≡ entry_of (line, said) };
}

/// What the lines of a text say by a grammar, one after another.
///
/// Skipped lines have no item. A faulty line's item is its error, with the place and the cause;
/// after it come the items of the next lines. It keeps nothing of the text but what is left of it.
#[derive(Drop)]
pub struct Lines<'a, G: Grammar> {
    rest: &'a [u8],
    number: u32,
    grammar: PhantomData<G>,
}

impl<'a, G: Grammar> Model for Lines<'a, G> {
    ghost use Rattle.std.specs.Prelude.{List, Result, ◌<◌, ◌+◌, ◌^◌, length};
    ghost use Rattle.text_lines.specs.declared.fault.TextError.{TextError};

    ghost Value = { List (Result G.Entry TextError) };

    ghost use Rattle.text_lines.specs.Items.{items_from};

    ghost view = { λ l. items_from G.reading G.entry_of l.number l.rest.now };

    ghost invariant = { λ l. l.number + length l.rest.now < 2 ^ 31 };
}

impl<'a, G: Grammar> Lines<'a, G> {
    /// All the lines of a text of at most 67,108,864 bytes.
    #[inline]
    pub fn of_text(text: &'a [u8]) -> Lines<'a, G>
        requires { length text.now ≤ text_limit }
        ensures items { result ≡ items_of G.reading G.entry_of text.now }
    {
        Lines {
            rest: text,
            number: 1,
            grammar: PhantomData,
        }
    }
}

impl<'a, G: Grammar> Iterator for Lines<'a, G> {
    type Item = Result<G::Entry, TextError>;

    ghost next_gives = { YieldsFirst (λ items. items) };

    ghost remaining = { item_count (λ items. items) };

    #[inline]
    fn next(&mut self) -> Option<Result<G::Entry, TextError>> {
        'skipped: while !self.rest.is_empty() {
            let (line, behind) = cut_line(self.rest);
            let item = line_item::<G>(line, self.number);
            self.rest = behind;
            self.number += 1;
            if item.is_some() {
                return item;
            }
        }
        None
    }
}

/// Appends the entries of a text of at most 67,108,864 bytes by a grammar, or answers the text's
/// first fault. After an error, want of memory among them, the list is as before.
pub fn read_text<G: Grammar>(text: &[u8], out: &mut List<G::Entry>) -> Result<(), TextError>
    requires { length text.now ≤ text_limit }
    ensures entries { OnOk result
        (AppendsEntries G.entry_of (entries_of G.reading text.now) out.old.items out.new.items) }
    ensures bad { IfErr result (IsFirstFault (entries_of G.reading text.now)) }
    ensures kept { OnErr result (out.new.items ≡ out.old.items) }
{
    let start = out.len();
    match take_lines::<G>(text, out) {
        Ok(()) => Ok(()),
        Err(error) => {
            out.truncate(start);
            Err(error)
        }
    }
}

// Appends the entries of the lines up to the first fault.
fn take_lines<G: Grammar>(text: &[u8], out: &mut List<G::Entry>) -> Result<(), TextError>
    requires { length text.now ≤ text_limit }
    ensures entries { OnOk result
        (AppendsEntries G.entry_of (entries_of G.reading text.now) out.old.items out.new.items) }
    ensures bad { IfErr result (IsFirstFault (entries_of G.reading text.now)) }
    ensures kept { take (length out.old.items) out.new.items ≡ out.old.items }
{
    'lines: for item in Lines::<G>::of_text(text) {
        match item {
            Ok(entry) => out.push(entry)?,
            Err(error) => return Err(error),
        }
    }
    Ok(())
}

// The item of a line that is not skipped.
#[inline]
fn line_item<G: Grammar>(line: &[u8], number: u32) -> Option<Result<G::Entry, TextError>>
    requires { length line.now < 2 ^ 31 }
    ensures { result ≡ option_map
        (item_of G.entry_of) (said_on number (line_of G.reading line.now)) }
{
    match read_line::<G>(line) {
        Ok(None) => None,
        Ok(Some(said)) => Some(Ok(G::entry(number, said))),
        Err(fault) => Some(Err(TextError::Bad {
            line: number,
            column: fault.column,
            cause: fault.cause,
        })),
    }
}

// The first line of some bytes without its line end, and the bytes after it.
#[inline]
fn cut_line(text: &[u8]) -> (&[u8], &[u8])
    requires { 0 < length text.now }
    ensures lines { IsFirstLine text.now result.0.now result.1.now }
    ensures fewer { length result.1.now < length text.now }
    ensures within { length result.0.now ≤ length text.now }
{
    let (line, after) = text.split_at(length_before(text, b'\n'));
    match after {
        [_, behind @ ..] => (without_return(line), behind),
        [] => (without_return(line), after),
    }
}

// What a line says, or None where it is skipped.
#[inline]
fn read_line<G: Grammar>(line: &[u8]) -> Result<Option<G::Said>, Fault>
    requires { length line.now < 2 ^ 31 }
    ensures { result ≡ line_of G.reading line.now }
{
    let is_long = line.len() > LONGEST_LINE;
    let mut fields = LineFields::new(line);
    if skips(&fields) {
        return if is_long { Err(long_line()) } else { Ok(None) };
    }
    match G::read(&mut fields) {
        Ok(said) if !is_long => Ok(Some(said)),
        Err(fault) if !is_long || fault.column < LONG_LINE_COLUMN => Err(fault),
        _ => Err(long_line()),
    }
}

// Whether a line has spaces only, or begins with `#` after them.
#[inline]
fn skips(fields: &LineFields) -> bool
    ensures { result ≡ is_skipped fields.now.fields }
{
    match fields.peek() {
        None => true,
        Some(field) => field.bytes.starts_with(b"#"),
    }
}

fn long_line() -> Fault
    ensures { result ≡ too_long }
{
    Fault {
        column: LONG_LINE_COLUMN,
        cause: TextCause::LongLine,
    }
}

// A line without one carriage return at its end.
#[inline]
fn without_return(line: &[u8]) -> &[u8]
    ensures value { result.now ≡ strip_carriage_return line.now }
    ensures fewer { length result.now ≤ length line.now }
{
    match line {
        [front @ .., b'\r'] => front,
        _ => line,
    }
}
