//! A best price as it is told, with and without the sequence of its message.

use pitch_fields::{Price, Side, Symbol};

/// The best price of a symbol on a side, with its shares; None where the side is empty.
#[derive(Clone, Copy)]
pub struct Quote {
    pub symbol: Symbol,
    pub side: Side,
    pub best: Option<(Price, u64)>,
}

/// A quote with the sequence of the message that made it.
#[derive(Clone, Copy)]
pub struct QuoteLine {
    pub sequence: u32,
    pub quote: Quote,
}
