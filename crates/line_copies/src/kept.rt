//! What is kept of a message.

ghost use Rattle.std.specs.Prelude.{◌≡◌};
ghost use Rattle.line_copies.specs.Copies.{later_of};

/// What is kept at a slot: of the greatest sequence that has it, the last message to come.
#[derive(Clone, Copy, PartialEq, Eq)]
pub struct Kept {
    /// Its sequence. Where none came it is 0, which no message has.
    pub sequence: u32,
    /// The sum of its bytes.
    pub sum: u64,
}

/// No message came.
pub const NOTHING: Kept = Kept {
    sequence: 0,
    sum: 0,
};

/// Of two the one of the greater sequence; of the same sequence the second.
#[inline(always)]
pub fn later_of(kept: Kept, copy: Kept) -> Kept
    ensures { result ≡ later_of kept copy }
{
    if copy.sequence < kept.sequence {
        kept
    } else {
        copy
    }
}
