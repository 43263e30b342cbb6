//! The two verdicts on a report: yes, or the first wrong line.

/// What is said of a report.
#[derive(Clone, Copy, PartialEq, Eq)]
pub enum Verdict {
    /// Each of so many books is what the log's messages leave.
    Yes { books: u32 },
    /// The first line that does not agree, counted from 1. It is one past the last line where the
    /// report ends inside a book.
    No { line: u32 },
}
