//! Judges a report book by book, up to its first wrong line.

ghost use Rattle.std.specs.Prelude.{◌≡◌, ℕ, ◌≤◌, ◌<◌, length, IfOk, OnOk};
ghost use Rattle.std.specs.List.{Contains};
ghost use Rattle.feed_lines.specs.BookText.{book_text};
ghost use Rattle.pitch_model.specs.Book.{empty_book};
ghost use Rattle.run_audit.specs.layers.Backward.{JudgesBook, Stands};
ghost use Rattle.run_audit.specs.declared.backward.AgreedBook.{AgreedBook};
ghost use Rattle.run_audit.specs.layers.Finding.{Finds, IsBookAt, messages_of};
ghost use Rattle.run_audit.specs.Report.{Judges, lines_of};
ghost use Rattle.run_audit.specs.layers.Walking.{AreAt};

use crate::backward::{AgreedBook, agreed_at, agreed_backward};
use crate::lines::{Compared, ReportLines, compare, is_inner};
use crate::naming::named_by;
use crate::printing::printed;
use crate::verdict::Verdict;
use crate::walk::{Walk, go_to, starts};
use order_book::UnitBook;
use pitch_fields::OutOfMemory;
use pitch_messages::{ByteList, RawList};
use std::alloc::Global;

// The printed book of a unit before its first message.
fn printed_empty(alloc: Global, unit: u8) -> Result<ByteList, OutOfMemory>
    ensures { IfOk result (λ text. text.items ≡ book_text unit 0 empty_book) }
{
    let book = UnitBook::make(alloc);
    let text = printed(alloc, unit, 0, &book);
    drop(book);
    text
}

// The printed book of a unit after n messages, or None where it has fewer.
fn book_at<'a>(
    alloc: Global,
    logs: &'a [RawList],
    walks: &mut Vec<Walk<'a>>,
    unit: u8,
    n: u32,
) -> Result<Option<ByteList>, OutOfMemory>
    requires at { AreAt logs.now walks.old.items }
    ensures at { OnOk result (AreAt logs.now walks.new.items) }
    ensures book { IfOk result (IsBookAt (messages_of logs.now) unit n) }
{
    let at = unit as usize;
    if at < logs.len() {
        let len = logs[at].len();
        if n as usize > len {
            return Ok(None);
        }
        let walk = &mut walks[at];
        go_to(alloc, &logs[at], walk, n)?;
        return Ok(Some(printed(alloc, unit, n, &walk.book)?));
    }
    if n > 0 {
        return Ok(None);
    }
    Ok(Some(printed_empty(alloc, unit)?))
}

// The book that a line names, or None where it names none.
fn book_named<'a>(
    alloc: Global,
    logs: &'a [RawList],
    walks: &mut Vec<Walk<'a>>,
    line: &[u8],
) -> Result<Option<ByteList>, OutOfMemory>
    requires few { (unit : ℕ) → length (messages_of logs.now unit) < 4294967296 }
    requires at { AreAt logs.now walks.old.items }
    ensures at { OnOk result (AreAt logs.now walks.new.items) }
    ensures finds { IfOk result (Finds (messages_of logs.now) line.now) }
{
    match named_by(line) {
        Some((unit, n)) => book_at(alloc, logs, walks, unit, n),
        None => Ok(None),
    }
}

// Passes over the book that stands first, or says after how many lines of it another stands.
fn judge_book<'a>(
    alloc: Global,
    logs: &'a [RawList],
    walks: &mut Vec<Walk<'a>>,
    agreed: &[AgreedBook],
    number: u32,
    lines: &mut ReportLines<'_>,
    line: &[u8],
) -> Result<Compared, OutOfMemory>
    requires few { (unit : ℕ) → length (messages_of logs.now unit) < 4294967296 }
    requires at { AreAt logs.now walks.old.items }
    requires short { length lines.old < 4294967295 }
    // Each book that was found to agree at the line of this number stands first.
    requires agreed { (book : AgreedBook) → Contains agreed.now book → book.line ≡ number
        → Stands (messages_of logs.now) lines.old book.count }
    ensures at { OnOk result (AreAt logs.now walks.new.items) }
    ensures judged { IfOk result (JudgesBook (messages_of logs.now) line.now lines.old lines.new) }
{
    if let Some(count) = agreed_at(agreed, number) {
        lines.pass(count);
        return Ok(Compared::Same(count));
    }
    match book_named(alloc, logs, walks, line)? {
        Some(book) => Ok(compare(lines, ReportLines::new(book.bytes()))),
        None => Ok(Compared::Differs(0)),
    }
}

/// Whether a report agrees with the logs of the units.
pub(crate) fn report_on(
    alloc: Global,
    logs: &[RawList],
    text: &[u8],
) -> Result<Verdict, OutOfMemory>
    requires size { length text.now < 4294967295 }
    requires few { (unit : ℕ) → length (messages_of logs.now unit) < 4294967296 }
    ensures { IfOk result (Judges (messages_of logs.now) (lines_of text.now)) }
{
    let agreed = agreed_backward(alloc, logs, text)?;
    let mut walks = starts(alloc, logs)?;
    let mut lines = ReportLines::new(text);
    let mut books = 0;
    let mut number = 1;
    'parts: while let Some(line) = lines.first() {
        if line.starts_with(b"book ") {
            match judge_book(alloc, logs, &mut walks, &agreed, number, &mut lines, line)? {
                Compared::Same(count) => number += count,
                Compared::Differs(count) => {
                    return Ok(Verdict::No {
                        line: number + count,
                    });
                }
            }
            books += 1;
        } else if is_inner(line) {
            return Ok(Verdict::No { line: number });
        } else {
            let _ = lines.next_line();
            number += 1;
        }
    }
    Ok(Verdict::Yes { books })
}
