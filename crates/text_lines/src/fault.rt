//! What can be wrong with a text: the line, the column and the cause.

use pitch_fields::OutOfMemory;
use std::error::Error;
use std::fmt;

/// What is wrong at a place of a text.
#[derive(Clone, Copy, Debug, PartialEq, Eq)]
pub enum TextCause {
    /// A word that is not known, or does not belong here.
    BadWord,
    /// No number of 1 to 20 digits in its range.
    BadNumber,
    /// No price of 1 to 16 digits and up to 4 after a point, in its range.
    BadPrice,
    /// No symbol or participant: 1 to 8, or to 4, printing bytes other than the backslash.
    BadSymbol,
    /// The line ends before a field that it needs.
    MissingField,
    /// A field where the line has all that it can have.
    ExtraField,
    /// A line of more than 200 bytes.
    LongLine,
}

/// The cause as one word, as `bad-number`.
impl fmt::Display for TextCause {
    ghost use Rattle.std.specs.Prelude.{Some};
    ghost use Rattle.text_lines.specs.Causes.{cause_word};

    ghost output = { λ cause. Some (cause_word cause) };

    fn fmt<W: fmt::Write>(&self, f: &mut fmt::Formatter<W>) -> fmt::Result {
        match self {
            TextCause::BadWord => write!(f, "bad-word"),
            TextCause::BadNumber => write!(f, "bad-number"),
            TextCause::BadPrice => write!(f, "bad-price"),
            TextCause::BadSymbol => write!(f, "bad-symbol"),
            TextCause::MissingField => write!(f, "missing-field"),
            TextCause::ExtraField => write!(f, "extra-field"),
            TextCause::LongLine => write!(f, "long-line"),
        }
    }
}

/// A fault of a line: the column where it stands, counted in bytes from 1, and what is wrong there.
#[derive(Clone, Copy, Debug, PartialEq, Eq)]
pub struct Fault {
    pub column: u32,
    pub cause: TextCause,
}

/// Why a text was not read.
#[derive(Clone, Copy, Debug, PartialEq, Eq)]
pub enum TextError {
    /// The text's first fault. Lines and columns count from 1, and a column is a byte of its line.
    Bad {
        line: u32,
        column: u32,
        cause: TextCause,
    },
    /// There was no memory for the list.
    OutOfMemory,
}

/// The fault in words, as `line 3 column 9: bad-word`.
impl fmt::Display for TextError {
    ghost use Rattle.std.specs.Prelude.{Some};
    ghost use Rattle.text_lines.specs.Causes.{error_text};

    ghost output = { λ error. Some (error_text error) };

    fn fmt<W: fmt::Write>(&self, f: &mut fmt::Formatter<W>) -> fmt::Result {
        match *self {
            TextError::Bad {
                line,
                column,
                cause,
            } => write!(f, "line {line} column {column}: {cause}"),
            TextError::OutOfMemory => write!(f, "out of memory"),
        }
    }
}

impl Error for TextError {}

impl From<OutOfMemory> for TextError {
    ghost use Rattle.std.specs.Prelude.{◌≡◌};
    ghost use Rattle.text_lines.specs.declared.fault.TextError.TheVariants as errors;

    ghost from_gives = { λ _ error. error ≡ errors.OutOfMemory };

    fn from(_: OutOfMemory) -> TextError {
        TextError::OutOfMemory
    }
}
