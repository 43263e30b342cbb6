//! A text that comes in pieces of any cut: its whole lines as they come, and its unfinished line.

ghost use Rattle.std.specs.Prelude.{◌≡◌, ◌<◌, ◌≤◌, ◌+◌, ◌++◌, ◌↔◌, [], length, drop, vec_len};
ghost use Rattle.std.specs.Prelude.{OnOk, OnErr, IfOk, IsErrOf};
ghost use Rattle.pitch_fields.specs.Limits.{text_limit};
ghost use Rattle.unit_commands.specs.Pieces.{piece_limit, rest_limit, line_feeds, whole_lines};
ghost use Rattle.unit_commands.specs.Pieces.{last_line, piece_pushed, lines_passed, read_through};

use pitch_fields::OutOfMemory;
use std::alloc::Global;
use std::error::Error;
use std::fmt;
use std::marker::Model;

/// The most bytes that a line can have that is not finished: 1,048,576.
pub const LONGEST_REST: usize = 1_048_576;

/// Why a piece of a text was not taken.
#[derive(Clone, Copy, Debug, PartialEq, Eq)]
pub enum PieceError {
    /// With the piece the unfinished line would have more than 1,048,576 bytes.
    TooLong,
    /// There was no memory for the piece.
    OutOfMemory,
}

/// The error in words, as `out of memory`.
impl fmt::Display for PieceError {
    ghost use Rattle.std.specs.Prelude.{Some};
    ghost use Rattle.unit_commands.specs.layers.Causes.{piece_error_text};

    ghost output = { λ error. Some (piece_error_text error) };

    fn fmt<W: fmt::Write>(&self, f: &mut fmt::Formatter<W>) -> fmt::Result {
        match self {
            PieceError::TooLong => write!(f, "a line of more than {LONGEST_REST} bytes"),
            PieceError::OutOfMemory => write!(f, "out of memory"),
        }
    }
}

impl Error for PieceError {}

impl From<OutOfMemory> for PieceError {
    ghost use Rattle.std.specs.Prelude.{◌≡◌};
    ghost use Rattle.unit_commands.specs.declared.pieces.PieceError.TheVariants as errors;

    ghost from_gives = { λ _ error. error ≡ errors.OutOfMemory };

    fn from(_: OutOfMemory) -> PieceError {
        PieceError::OutOfMemory
    }
}

/// The bytes of a text that came and were not read yet: whole lines, and the unfinished line that
/// follows them. It counts the lines that were read.
///
/// Its memory grows with the longest piece and the longest unfinished line alone.
#[derive(Drop)]
pub struct TextPieces {
    bytes: Vec<u8>,
    whole: usize,
    lines: u64,
}

impl Model for TextPieces {
    ghost use Rattle.std.specs.Prelude.{take, drop};
    ghost use Rattle.unit_commands.specs.Pieces.{UnreadText, AreKept};

    ghost Value = { UnreadText };

    ghost view = { λ p. record {
      whole = take p.whole p.bytes.items;
      rest = drop p.whole p.bytes.items;
      lines = p.lines;
    } };

    ghost invariant = { λ p. AreKept p.bytes.items p.whole };
}

impl TextPieces {
    /// Nothing of the text came. It takes no memory.
    pub fn make(alloc: Global) -> TextPieces
        ensures { result ≡ read_through [] }
    {
        TextPieces {
            bytes: Vec::new(alloc),
            whole: 0,
            lines: 0,
        }
    }

    /// The whole lines that were not read yet, up to and with the last line feed.
    pub fn whole(&self) -> &[u8]
        ensures value { result.now ≡ self.now.whole }
        ensures within { length result.now ≤ text_limit }
    {
        &self.bytes[..self.whole]
    }

    /// The unfinished line, which is the last one where the text ends.
    pub fn rest(&self) -> &[u8]
        ensures value { result.now ≡ self.now.rest }
        ensures within { length result.now ≤ rest_limit }
    {
        &self.bytes[self.whole..]
    }

    /// How many lines were read and passed; it stays at the type's end.
    pub fn lines(&self) -> u64
        ensures { result ≡ self.now.lines }
    {
        self.lines
    }

    /// Takes the next piece of the text, of at most 65,536 bytes, once all whole lines were passed.
    ///
    /// It is TooLong exactly where the unfinished line would then have more than 1,048,576 bytes.
    /// After an error all is as before.
    pub fn push(&mut self, piece: &[u8]) -> Result<(), PieceError>
        requires size { length piece.now ≤ piece_limit }
        requires read { self.old.whole ≡ [] }
        ensures ok { OnOk result (self.new ≡ piece_pushed self.old piece.now) }
        ensures too_long { IsErrOf result PieceError.TooLong
            ↔ (rest_limit < length (piece_pushed self.old piece.now).rest) }
        ensures kept { OnErr result (self.new ≡ self.old) }
    {
        self.whole = put_behind(&mut self.bytes, piece)?;
        Ok(())
    }

    /// Passes the whole lines, which were read: the unfinished line is left.
    pub fn pass(&mut self)
        ensures { self.new ≡ lines_passed self.old }
    {
        if self.whole > 0 {
            self.lines = self.lines.saturating_add(count_feeds(self.whole()) as u64);
            keep_from(&mut self.bytes, self.whole);
            self.whole = 0;
        }
    }
}

// Drops the first bytes of a buffer.
fn keep_from(buffer: &mut Vec<u8>, start: usize)
    requires { start ≤ vec_len buffer.old }
    ensures { buffer.new.items ≡ drop start buffer.old.items }
{
    let left = buffer.len() - start;
    buffer.copy_within(start.., 0);
    buffer.truncate(left);
}

// Puts a piece at the end of a buffer.
fn extend(buffer: &mut Vec<u8>, piece: &[u8]) -> Result<(), OutOfMemory>
    ensures ok { OnOk result (buffer.new.items ≡ buffer.old.items ++ piece.now) }
    ensures err { OnErr result (buffer.new.items ≡ buffer.old.items) }
{
    buffer.extend_from_slice(piece)?;
    Ok(())
}

// Puts a piece behind an unfinished line: how many bytes of both are whole lines.
fn put_behind(bytes: &mut Vec<u8>, piece: &[u8]) -> Result<usize, PieceError>
    requires unfinished { whole_lines bytes.old.items ≡ [] }
    requires size { length bytes.old.items + length piece.now ≤ text_limit }
    ensures bytes { OnOk result (bytes.new.items ≡ bytes.old.items ++ piece.now) }
    ensures whole { IfOk result (λ whole. whole ≡ length (whole_lines bytes.new.items)) }
    ensures short { OnOk result (length (last_line bytes.new.items) ≤ rest_limit) }
    ensures too_long { IsErrOf result PieceError.TooLong
        ↔ (rest_limit < length (last_line (bytes.old.items ++ piece.now))) }
    ensures kept { OnErr result (bytes.new.items ≡ bytes.old.items) }
{
    let whole = whole_length(bytes, piece);
    if bytes.len() + piece.len() - whole > LONGEST_REST {
        return Err(PieceError::TooLong);
    }
    extend(bytes, piece)?;
    Ok(whole)
}

// How many line feeds some bytes have.
fn count_feeds(bytes: &[u8]) -> usize
    ensures { result ≡ line_feeds bytes.now }
{
    bytes.iter().filter(|b| **b == b'\n').count()
}

// How many bytes go up to and with the last line feed.
fn length_through(bytes: &[u8]) -> usize
    ensures value { result ≡ length (whole_lines bytes.now) }
    ensures within { result ≤ length bytes.now }
{
    let mut end = bytes.len();
    'ends: while end > 0 && bytes[end - 1] != b'\n' {
        end -= 1;
    }
    end
}

// The same of an unfinished line and the piece that follows it.
fn whole_length(rest: &[u8], piece: &[u8]) -> usize
    requires unfinished { whole_lines rest.now ≡ [] }
    requires size { length rest.now + length piece.now ≤ text_limit }
    ensures value { result ≡ length (whole_lines (rest.now ++ piece.now)) }
    ensures sum { result + length (last_line (rest.now ++ piece.now))
        ≡ length rest.now + length piece.now }
{
    let end = length_through(piece);
    if end > 0 { rest.len() + end } else { 0 }
}
