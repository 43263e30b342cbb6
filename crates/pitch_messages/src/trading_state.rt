//! A symbol with the two bytes of its trading status.

use pitch_fields::Symbol;

/// What trading in a symbol is at, as a Trading Status says it. No meaning is given to either byte.
#[derive(Clone, Copy, PartialEq, Eq)]
pub struct TradingState {
    pub symbol: Symbol,
    pub halt: u8,
    pub sho: u8,
}
