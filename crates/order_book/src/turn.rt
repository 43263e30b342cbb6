//! What one message did to the open orders, for whoever keeps levels beside a book.

use pitch_messages::{List, Order};

/// What a message did to the open orders.
#[derive(Clone, Copy, PartialEq, Eq)]
pub enum Turn {
    /// It touched none.
    None,
    /// It touched no order but the one of its id, which was one before and is one now, or none.
    One {
        before: Option<Order>,
        now: Option<Order>,
    },
    /// All orders went.
    All,
}

/// A list of turns.
pub type TurnList = List<Turn>;
