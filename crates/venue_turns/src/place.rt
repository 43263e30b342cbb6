//! Whose turn it is.

/// Whose turn it is.
#[derive(Clone, Copy, PartialEq, Eq)]
pub enum Place {
    /// None's: the wait is due.
    Wait,
    /// The input's, which has given so many pieces one after another.
    Input(u16),
    /// This place's, and it begins.
    First(u16),
    /// This place's, whose client has given so many pieces one after another.
    Taken(u16, u16),
    /// This place's, whose client has taken so many pieces one after another of what waits for it.
    Put(u16, u16),
}
