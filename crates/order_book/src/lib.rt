//! The book of one unit: its open orders and trading statuses.
//!
//! `UnitBook::apply` has exactly the effect that the definition of the book gives a message, or the
//! book is unchanged and the answer is want of memory. `reserve` makes room for messages ahead, and
//! none is refused while there is room for one. `turn_bytes` does so too, and tells which order
//! became which. Orders, levels, best prices and statuses can be asked for at any time. `image_of`
//! writes the messages that make a book anew.
#![tactic(auto)]

mod adding;
mod change;
mod image;
mod naming;
mod order_list;
mod statuses;
mod totals;
mod turn;
mod unit_book;

pub use crate::image::image_of;
pub use crate::naming::{Touches, touched};
pub use crate::order_list::OrderList;
pub use crate::statuses::StatusList;
pub use crate::turn::{Turn, TurnList};
pub use crate::unit_book::UnitBook;
