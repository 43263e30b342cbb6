//! Cuts a line into fields at its spaces, and keeps their columns.

ghost use Rattle.std.specs.Prelude.{◌≡◌, ◌≤◌, ◌<◌, ◌+◌, ◌^◌, ◌==◌, length};
ghost use Rattle.std.specs.List.{position_or_len};
ghost use Rattle.std.specs.Option.{ForSome};
ghost use Rattle.text_lines.specs.Fields.{Rest, fields_from, fields_of};
ghost use Rattle.text_lines.specs.layers.Coding.{rest_code};
ghost use Rattle.text_lines.specs.layers.Seen.{seen, field_of, IsNext, TakesField};

use std::marker::Model;

/// A field of a line: some bytes without a space, and the column of the first, counted from 1.
#[derive(Clone, Copy)]
pub struct FoundField<'a> {
    pub column: u32,
    pub bytes: &'a [u8],
}

/// What is left of a line while it is read: the fields not yet taken, and the column one past the
/// last that was.
///
/// The next field has been cut off already, so that looking at it costs nothing.
#[derive(Drop)]
pub struct LineFields<'a> {
    next: Option<FoundField<'a>>,
    rest: &'a [u8],
    past: u32,
}

impl<'a> Model for LineFields<'a> {
    ghost Value = { Rest };

    ghost coded = { rest_code };

    ghost view = { λ l. record { past = l.past; fields = seen l.next l.rest.now } };

    ghost invariant = { λ l. ForSome l.next
        (λ f. f.column + length f.bytes.now + length l.rest.now < 2 ^ 32) };
}

impl<'a> LineFields<'a> {
    /// All the fields of a line of less than 2^31 bytes.
    #[inline]
    pub fn new(line: &'a [u8]) -> LineFields<'a>
        requires { length line.now < 2 ^ 31 }
        ensures { result ≡ record { past = 1; fields = fields_of line.now } }
    {
        let (next, rest) = scan(line, 1);
        LineFields {
            next,
            rest,
            past: 1,
        }
    }

    /// The next field, which stays; None at the end of the line.
    #[inline]
    pub fn peek(&self) -> Option<FoundField<'a>>
        ensures { IsNext self.now.fields result }
    {
        self.next
    }

    /// The column one past the last field that was taken; 1 where none was. There a missing field
    /// is missed.
    #[inline]
    pub fn past(&self) -> u32
        ensures { result ≡ self.now.past }
    {
        self.past
    }

    /// Takes the next field; None, and nothing changed, at the end of the line.
    #[inline]
    pub fn take(&mut self) -> Option<FoundField<'a>>
        ensures { TakesField self.old result self.new }
    {
        let next = self.next?;
        let past = next.column + next.bytes.len() as u32;
        let (after, rest) = scan(self.rest, past);
        self.next = after;
        self.rest = rest;
        self.past = past;
        Some(next)
    }
}

// The first field of the bytes from a column on, and the bytes after it.
#[inline]
fn scan<'a>(line: &'a [u8], column: u32) -> (Option<FoundField<'a>>, &'a [u8])
    requires { column + length line.now < 2 ^ 32 }
    ensures fields { seen result.0 result.1.now ≡ fields_from column line.now }
    ensures room { ForSome result.0
        (λ f. f.column + length f.bytes.now + length result.1.now < 2 ^ 32) }
{
    let mut rest = line;
    let mut column = column;
    while let [first, more @ ..] = rest {
        if *first != b' ' {
            let (bytes, after) = rest.split_at(length_before(rest, b' '));
            return (Some(FoundField { column, bytes }), after);
        }
        rest = more;
        column += 1;
    }
    (None, rest)
}

/// How many bytes come before the first that equals `stop`; all of them where none does.
#[inline]
pub fn length_before(bytes: &[u8], stop: u8) -> usize
    ensures value { result ≡ position_or_len (λ b. b == stop) bytes.now }
    ensures within { result ≤ length bytes.now }
{
    for (i, byte) in bytes.iter().enumerate() {
        if *byte == stop {
            return i;
        }
    }
    bytes.len()
}
