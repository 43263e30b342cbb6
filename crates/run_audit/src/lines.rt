//! The lines of a report, and how far they agree with those that are wanted.

ghost use Rattle.std.specs.Prelude.{◌≡◌, ℕ, ◌<◌, List, [], ◌∷◌, drop, length, MatchOption};
ghost use Rattle.run_audit.specs.Report.{is_inner, lines_of};
ghost use Rattle.run_audit.specs.layers.Lines.{Compares};

use std::marker::Model;
use text_lines::length_before;

/// The lines of a text that are left.
#[derive(Drop)]
pub(crate) struct ReportLines<'a> {
    rest: &'a [u8],
}

impl<'a> Model for ReportLines<'a> {
    ghost use Rattle.std.specs.Prelude.{ℕ, List};
    ghost use Rattle.run_audit.specs.Report.{lines_of};

    ghost Value = { List (List ℕ) };

    ghost view = { λ l. lines_of l.rest.now };
}

impl<'a> ReportLines<'a> {
    /// All lines of a text.
    pub fn new(text: &'a [u8]) -> ReportLines<'a>
        ensures { result ≡ lines_of text.now }
    {
        ReportLines { rest: text }
    }

    /// The same lines again.
    pub fn copy(&self) -> ReportLines<'a>
        ensures { result ≡ self.now }
    {
        ReportLines { rest: self.rest }
    }

    /// The next line, which stays, or None where none is left.
    pub fn first(&self) -> Option<&'a [u8]>
        ensures { MatchOption result (self.now ≡ [])
            (λ line. (rest : List (List ℕ)) × (self.now ≡ line.now ∷ rest)) }
    {
        let mut lines = self.copy();
        lines.next_line()
    }

    /// Passes over so many lines.
    pub fn pass(&mut self, count: u32)
        ensures { self.new ≡ drop count self.old }
    {
        'lines: for turn in 0..count {
            let _ = self.next_line();
        }
    }

    /// The next line, or None where none is left.
    pub fn next_line(&mut self) -> Option<&'a [u8]>
        ensures { MatchOption result ((self.old ≡ []) × (self.new ≡ []))
            (λ line. self.old ≡ line.now ∷ self.new) }
    {
        if self.rest.is_empty() {
            return None;
        }
        let (line, behind) = cut_line(self.rest);
        self.rest = behind;
        Some(line)
    }
}

/// Whether a line is one of a book, and not its first.
pub(crate) fn is_inner(line: &[u8]) -> bool
    ensures { result ≡ is_inner line.now }
{
    line.starts_with(b"order ") || line.starts_with(b"status ")
}

// The first line of some bytes, and the bytes behind its line feed.
fn cut_line(text: &[u8]) -> (&[u8], &[u8])
    requires { 0 < length text.now }
    ensures lines { lines_of text.now ≡ result.0.now ∷ lines_of result.1.now }
{
    let (line, after) = text.split_at(length_before(text, b'\n'));
    match after {
        [_, behind @ ..] => (line, behind),
        [] => (line, after),
    }
}

/// How lines compare with wanted ones.
#[derive(Clone, Copy, PartialEq, Eq)]
pub(crate) enum Compared {
    /// All the wanted ones stand there: so many.
    Same(u32),
    /// After so many the next is another, or none stands there.
    Differs(u32),
}

/// Passes over the wanted lines, up to the first that is not what is wanted.
pub(crate) fn compare(lines: &mut ReportLines<'_>, mut wanted: ReportLines<'_>) -> Compared
    requires { length lines.old < 4294967295 }
    ensures { Compares wanted.entry lines.old lines.new result }
{
    let mut count = 0;
    'lines: while let Some(line) = wanted.next_line() {
        match lines.next_line() {
            Some(found) if found == line => count += 1,
            _ => return Compared::Differs(count),
        }
    }
    Compared::Same(count)
}
