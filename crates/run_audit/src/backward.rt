//! Books that a report has out of order: with a smaller number than one before of their unit.
//!
//! They are compared before the report is gone through, in the order of the log, so that each
//! unit's messages are applied once more at most, whatever the order of the report. What follows
//! rests on nothing but that a book found here agrees.
ghost use Rattle.std.specs.Prelude.{◌≡◌, ℕ, ◌-◌, ◌≤◌, ◌<◌, List, drop, length, IfOk, IfSome, OnOk};
ghost use Rattle.std.specs.List.{All, Contains};
ghost use Rattle.feed_lines.specs.BookText.{book_text};
ghost use Rattle.run_audit.specs.layers.Backward.{BeginsWith, IsAgreed, IsAsked, Stands};
ghost use Rattle.run_audit.specs.layers.Finding.{messages_of};
ghost use Rattle.run_audit.specs.Report.{lines_of};
ghost use Rattle.run_audit.specs.layers.Walking.{AreAt};
ghost use Rattle.run_audit.specs.declared.backward.AgreedBook.{AgreedBook};

use crate::lines::{Compared, ReportLines, compare, is_inner};
use crate::naming::named_by;
use crate::printing::printed;
use crate::walk::{Walk, go_to, starts};
use order_book::UnitBook;
use pitch_fields::OutOfMemory;
use pitch_messages::RawList;
use std::alloc::Global;

/// A book that a report has.
#[derive(Drop)]
pub(crate) struct Asked<'a> {
    pub unit: u8,
    pub n: u32,
    /// The number of its first line.
    pub line: u32,
    /// The lines of the report from that one on.
    pub lines: ReportLines<'a>,
}

/// A book of a report that agrees with the logs.
#[derive(Clone, Copy, PartialEq, Eq)]
pub(crate) struct AgreedBook {
    /// The number of its first line.
    pub line: u32,
    /// How many lines it has.
    pub count: u32,
}

// Notes the book that a line names, where it has a smaller number than one before of its unit.
fn note<'a>(
    asked: &mut Vec<Asked<'a>>,
    greatest: &mut [u32; 256],
    number: u32,
    line: &[u8],
    lines: &ReportLines<'a>,
) -> Result<(), OutOfMemory>
    ensures { OnOk result ((all : List (List ℕ)) → lines.now ≡ drop (number - 1) all
        → All (IsAsked all) asked.old.items → All (IsAsked all) asked.new.items) }
{
    let Some((unit, n)) = named_by(line) else {
        return Ok(());
    };
    if n >= greatest[unit as usize] {
        greatest[unit as usize] = n;
        return Ok(());
    }
    asked.push(Asked {
        unit,
        n,
        line: number,
        lines: lines.copy(),
    })?;
    Ok(())
}

// The books that have a smaller number than one before of their unit.
fn asked_backward<'a>(alloc: Global, text: &'a [u8]) -> Result<Vec<Asked<'a>>, OutOfMemory>
    requires { length text.now < 4294967295 }
    ensures { IfOk result (λ asked. All (IsAsked (lines_of text.now)) asked.items) }
{
    let mut asked = Vec::new(alloc);
    let mut greatest = [0; 256];
    let mut lines = ReportLines::new(text);
    let mut number = 1;
    'lines: while let Some(line) = lines.first() {
        note(&mut asked, &mut greatest, number, line, &lines)?;
        let _ = lines.next_line();
        number += 1;
    }
    Ok(asked)
}

// Whether so many lines of a book follow its first. It keeps a book from being printed that is
// longer than what stands there.
fn has_orders(mut lines: ReportLines<'_>, orders: u32) -> bool {
    let _ = lines.next_line();
    for _ in 0..orders {
        match lines.next_line() {
            Some(line) if is_inner(line) => {}
            _ => return false,
        }
    }
    true
}

// How many lines a book has that stands first among some lines, or None where it does not.
fn stands(
    alloc: Global,
    unit: u8,
    n: u32,
    book: &UnitBook,
    lines: &ReportLines<'_>,
) -> Result<Option<u32>, OutOfMemory>
    requires { length lines.now < 4294967295 }
    ensures { IfOk result (λ found.
        IfSome found (BeginsWith lines.now (book_text unit n book.now.book))) }
{
    if !has_orders(lines.copy(), book.len()) {
        return Ok(None);
    }
    let text = printed(alloc, unit, n, book)?;
    let mut left = lines.copy();
    match compare(&mut left, ReportLines::new(text.bytes())) {
        Compared::Same(count) => Ok(Some(count)),
        Compared::Differs(_) => Ok(None),
    }
}

// How many lines the book of a unit after n messages has, where it stands first among some lines,
// or None where it does not.
fn agrees<'a>(
    alloc: Global,
    logs: &'a [RawList],
    walks: &mut Vec<Walk<'a>>,
    unit: u8,
    n: u32,
    lines: &ReportLines<'_>,
) -> Result<Option<u32>, OutOfMemory>
    requires at { AreAt logs.now walks.old.items }
    requires few { length lines.now < 4294967295 }
    ensures at { OnOk result (AreAt logs.now walks.new.items) }
    ensures agrees { IfOk result (λ found.
        IfSome found (Stands (messages_of logs.now) lines.now)) }
{
    let at = unit as usize;
    if at >= logs.len() {
        return Ok(None);
    }
    let len = logs[at].len();
    if n as usize > len {
        return Ok(None);
    }
    let walk = &mut walks[at];
    go_to(alloc, &logs[at], walk, n)?;
    stands(alloc, unit, n, &walk.book, lines)
}

/// The books out of order that agree with the logs, by rising line.
pub(crate) fn agreed_backward(
    alloc: Global,
    logs: &[RawList],
    text: &[u8],
) -> Result<Vec<AgreedBook>, OutOfMemory>
    requires { length text.now < 4294967295 }
    ensures { IfOk result (λ agreed.
        All (IsAgreed (messages_of logs.now) (lines_of text.now)) agreed.items) }
{
    let mut asked = asked_backward(alloc, text)?;
    asked.sort_unstable_by_key(|book| (book.unit, book.n));
    let mut walks = starts(alloc, logs)?;
    let mut agreed = Vec::new(alloc);
    'books: for book in &asked {
        let Some(count) = agrees(alloc, logs, &mut walks, book.unit, book.n, &book.lines)? else {
            continue;
        };
        agreed.push(AgreedBook {
            line: book.line,
            count,
        })?;
    }
    agreed.sort_unstable_by_key(|book| book.line);
    Ok(agreed)
}

/// How many lines the book has that was found to agree at a line, or None where none was.
pub(crate) fn agreed_at(agreed: &[AgreedBook], line: u32) -> Option<u32>
    ensures { IfSome result (λ count. (book : AgreedBook)
        × Contains agreed.now book × (book.line ≡ line) × (book.count ≡ count)) }
{
    match agreed.binary_search_by_key(&line, |book| book.line) {
        Ok(at) if agreed[at].line == line => Some(agreed[at].count),
        _ => None,
    }
}
