//! The order that an add opens, from the long, the short or the expanded form.

ghost use Rattle.std.specs.Prelude.{◌≡◌};
ghost use Rattle.pitch_model.specs.Book.{is_displayed, order_of_long, order_of_short};
ghost use Rattle.pitch_model.specs.Book.{order_of_expanded};

use pitch_fields::{Price, Side, Symbol};
use pitch_messages::Order;

// Whether the flags of an add or a modify say that the order is displayed.
pub(crate) fn is_displayed(flags: u8) -> bool
    ensures { result ≡ is_displayed flags }
{
    flags & 1 == 1
}

// The order of an add in the long form.
#[inline]
pub(crate) fn order_of_long(
    id: u64,
    side: Side,
    quantity: u32,
    symbol: [u8; 6],
    price: u64,
    flags: u8,
) -> Order
    ensures { result ≡ order_of_long id side quantity symbol price flags }
{
    let symbol = Symbol::from_six(symbol).bytes();
    order_of_expanded(id, side, quantity, symbol, price, flags, *b"    ")
}

// The order of an add in the short form.
#[inline]
pub(crate) fn order_of_short(
    id: u64,
    side: Side,
    quantity: u16,
    symbol: [u8; 6],
    price: u16,
    flags: u8,
) -> Order
    ensures { result ≡ order_of_short id side quantity symbol price flags }
{
    let price = Price::from_short(price).ten_thousandths();
    order_of_long(id, side, u32::from(quantity), symbol, price, flags)
}

// The order of an add in the expanded form.
#[inline]
pub(crate) fn order_of_expanded(
    id: u64,
    side: Side,
    quantity: u32,
    symbol: [u8; 8],
    price: u64,
    flags: u8,
    participant: [u8; 4],
) -> Order
    ensures { result ≡ order_of_expanded id side quantity symbol price flags participant }
{
    Order {
        id,
        side,
        quantity,
        symbol: Symbol::from_eight(symbol),
        price: Price::from_long(price),
        display: is_displayed(flags),
        participant,
    }
}
