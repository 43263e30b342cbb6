//! What an execution, a reduction or a modification does to an open order in its place.

ghost use Rattle.std.specs.Prelude.{◌≡◌};
ghost use Rattle.pitch_model.specs.Book.{changed_by};

use pitch_messages::Order;
use pitch_model::OrderChange::{self, Left, Modified, Reduced};

// How many shares a change leaves of an order.
#[inline(always)]
pub(crate) fn shares_left(change: &OrderChange, order: &Order) -> u32
    ensures { result ≡ (changed_by change.now order.now).quantity }
{
    match *change {
        Reduced(quantity) => order.quantity.saturating_sub(quantity),
        Left(quantity) => quantity,
        Modified { quantity, .. } => quantity,
    }
}

// Changes an order in its place; only the fields that change are written.
#[inline(always)]
pub(crate) fn make_change(change: &OrderChange, order: &mut Order)
    ensures { order.new ≡ changed_by change.now order.old }
{
    match *change {
        Reduced(quantity) => order.quantity = order.quantity.saturating_sub(quantity),
        Left(quantity) => order.quantity = quantity,
        Modified {
            quantity,
            price,
            display,
        } => {
            order.quantity = quantity;
            order.price = price;
            order.display = display;
        }
    }
}
