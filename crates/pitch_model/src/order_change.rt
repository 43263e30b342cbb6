//! What an execution, a reduction or a modification does to an open order.

use pitch_fields::Price;

/// What a message changes of an open order.
#[derive(Clone, Copy, PartialEq, Eq)]
pub enum OrderChange {
    /// So many shares fewer, or none where it has no more than these.
    Reduced(u32),
    /// So many shares are left.
    Left(u32),
    /// Another quantity, price and display. Side, symbol and participant stay.
    Modified {
        quantity: u32,
        price: Price,
        display: bool,
    },
}
