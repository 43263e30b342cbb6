//! What a listener counts.

/// What came in a run.
#[derive(Clone, Copy, PartialEq, Eq)]
pub struct Counts {
    /// Datagrams of any line.
    pub datagrams: u64,
    /// Those of them that are empty, or have a rest behind their whole blocks.
    pub faulty: u64,
    /// Blocks that were heard.
    pub blocks: u64,
    /// Blocks of units that are not listened to.
    pub stray: u64,
}
