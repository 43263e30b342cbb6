//! The three lines of a unit: A, B and the gap line.

/// A line on which a unit's datagrams come.
///
/// Lines A and B carry the same messages, each sent once on either; the gap line carries what the
/// Gap Request Proxy replays.
#[derive(Clone, Copy, PartialEq, Eq)]
pub enum Line {
    A,
    B,
    Gap,
}
