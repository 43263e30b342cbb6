//! What `serve` is asked for where it is to try a handler.

use pitch_io::Line;

/// Commands that the venue makes itself.
#[derive(Clone, Copy, PartialEq, Eq)]
pub struct PlanWords {
    /// The number by which they are made.
    pub number: u64,
    /// How many of them each unit makes: 1 to 1,000,000,000.
    pub count: u32,
    /// How many of them each unit makes in a second: 1 to 1,000,000.
    pub rate: u32,
}

/// A share that is given of a line.
#[derive(Clone, Copy, PartialEq, Eq)]
pub(crate) struct LineShare {
    pub line: Line,
    /// How many in a hundred: 0 to 100.
    pub share: u8,
}

/// The shares of each unit's lines A, lines B and gap lines, each in a hundred: 0 to 100.
#[derive(Clone, Copy, PartialEq, Eq)]
pub struct ShareWords {
    pub a: u8,
    pub b: u8,
    pub gap: u8,
}

/// Harm to what the venue sends.
#[derive(Clone, Copy, PartialEq, Eq)]
pub struct HarmWords {
    /// The number by which it is chosen what is harmed.
    pub number: u64,
    /// The datagrams that are lost, that are sent twice, and that are sent behind the next one.
    pub lose: ShareWords,
    pub repeat: ShareWords,
    pub swap: ShareWords,
    /// After how many seconds each all connections are cut, where they are: 1 at least.
    pub cut: Option<u64>,
}

/// What `serve` is asked for where it is to try a handler.
#[derive(Drop)]
pub struct TrialWords {
    /// The commands that it makes itself, where it does; else they come by its input.
    pub plan: Option<PlanWords>,
    pub harm: HarmWords,
    /// The file of its report, where one is asked for.
    pub report: Option<String>,
}
