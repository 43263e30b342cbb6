//! Totals over all open orders: shares, the level of a price, and the best price of a side.

ghost use Rattle.std.specs.Prelude.{◌≡◌, ◌≤◌, ◌<◌, ◌+◌, ◌^◌, ℕ, ◌&&◌, ◌==◌, bytes_eq, filter};
ghost use Rattle.std.specs.Prelude.{map, sum_by, IfSome};
ghost use Rattle.std.specs.Option.{option_map_or};
ghost use Rattle.indexmap.specs.IndexMap.{values, index_map_len};
ghost use Rattle.pitch_model.specs.Levels.{same_side, better, best_of};
ghost use Rattle.order_book.specs.Standing.{most_orders};
ghost use Rattle.order_book.specs.layers.Totals.{is_on, quantities, level_with, best_level};

use indexmap::IndexMap;
use pitch_fields::{Price, Side, Symbol};
use pitch_messages::Order;

// Whether an order is for a symbol on a side.
fn is_on(order: &Order, symbol: Symbol, side: Side) -> bool
    ensures { result ≡ is_on symbol side order.now }
{
    order.symbol == symbol && order.side == side
}

// The shares of an order, a number of 32 bits.
fn quantity_of(order: &Order) -> u64
    ensures value { result ≡ order.now.quantity }
    ensures fits { result ≤ most_orders }
{
    u64::from(order.quantity)
}

// The shares of all orders.
pub(crate) fn all_shares(orders: &IndexMap<u64, Order>) -> u64
    requires { index_map_len orders.now ≤ most_orders }
    ensures { result ≡ quantities (values orders.now) }
{
    let mut total = 0;
    for order in orders.values() {
        total += quantity_of(order);
    }
    total
}

// The shares of the orders for a symbol on a side at a price.
pub(crate) fn shares_at(
    orders: &IndexMap<u64, Order>,
    symbol: Symbol,
    side: Side,
    price: Price,
) -> u64
    requires { index_map_len orders.now ≤ most_orders }
    ensures { result ≡ quantities
        (filter (λ order. price == order.price) (filter (is_on symbol side) (values orders.now))) }
{
    let mut total = 0;
    for order in orders.values() {
        if is_on(order, symbol, side) && order.price == price {
            total += quantity_of(order);
        }
    }
    total
}

// The better of two prices of a side.
fn better(side: Side, price: Price, other: Price) -> Price
    ensures { result ≡ better side price other }
{
    let (price, other) = (price.ten_thousandths(), other.ten_thousandths());
    Price::from_long(match side {
        Side::Buy => price.max(other),
        Side::Sell => price.min(other),
    })
}

// The best level of a side once another of its orders counts too.
fn level_with(side: Side, best: Option<(Price, u64)>, order: &Order) -> (Price, u64)
    requires { IfSome best (λ level. level.1 + most_orders < 2 ^ 64) }
    ensures level { result ≡ level_with side best order.now }
    ensures within { result.1 ≤ option_map_or (λ level. level.1) best 0 + most_orders }
{
    let shares = quantity_of(order);
    let Some((price, before)) = best else {
        return (order.price, shares);
    };
    let better = better(side, price, order.price);
    let kept = if better == price { before } else { 0 };
    let added = if better == order.price { shares } else { 0 };
    (better, kept + added)
}

// The best price for a symbol on a side, with the shares of the orders at it.
pub(crate) fn best_level(
    orders: &IndexMap<u64, Order>,
    symbol: Symbol,
    side: Side,
) -> Option<(Price, u64)>
    requires { index_map_len orders.now ≤ most_orders }
    ensures { result ≡ best_level side (filter (is_on symbol side) (values orders.now)) }
{
    let mut best = None;
    for order in orders.values() {
        if is_on(order, symbol, side) {
            best = Some(level_with(side, best, order));
        }
    }
    best
}
