//! The pair of counts that is kept for each line and unit.

ghost use Rattle.std.specs.Prelude.{◌≡◌, ◌+◌};
ghost use Rattle.line_arbiter.specs.Noted.{capped};

/// How many messages of a unit came on a line, and how many of them were fresh. Each count stops at
/// the greatest number of 64 bits.
#[derive(Clone, Copy, PartialEq, Eq)]
pub struct LineCount {
    pub messages: u64,
    pub fresh: u64,
}

// A count with so many more.
pub(crate) fn counted_more(count: u64, more: u32) -> u64
    ensures { result ≡ capped (count + more) }
{
    count.saturating_add(u64::from(more))
}
