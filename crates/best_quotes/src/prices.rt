//! One side of a symbol: open shares by price in an ordered map, and the best among them.

ghost use Rattle.std.specs.Prelude.{◌≡◌, ◌+◌, ◌-◌, true, Some, None, OnOk, IfOk, unwrap_or};
ghost use Rattle.std.specs.Ordering.{nat_cmp};
ghost use Rattle.std.specs.BTreeMap.{get};
ghost use Rattle.pitch_fields.specs.declared.side.Side.TheVariants.{Buy, Sell};
ghost use Rattle.best_quotes.specs.Leveling.{SetsPrice, MovesPrices, IsNearest};
ghost use Rattle.best_quotes.specs.Leveling.{IsWorse, AreWorse};

use pitch_fields::{OutOfMemory, Price, Side};
use pitch_messages::Order;
use std::collections::BTreeMap;

/// The open shares at each price of one side of a symbol, where there are any.
pub type Prices = BTreeMap<u64, u64>;

// The best price of a side with its shares, or None where the side is empty.
pub(crate) type Best = Option<(Price, u64)>;

// The highest price.
#[tactic(auto, using(crate::proofs::Pricing::highest_is))]
fn highest(prices: &Prices) -> Best
    ensures { IsNearest Buy (get nat_cmp prices.now) result }
{
    match prices.last_key_value() {
        Some((price, shares)) => Some((Price::from_long(*price), *shares)),
        None => None,
    }
}

// The lowest price.
#[tactic(auto, using(crate::proofs::Pricing::lowest_is))]
fn lowest(prices: &Prices) -> Best
    ensures { IsNearest Sell (get nat_cmp prices.now) result }
{
    match prices.first_key_value() {
        Some((price, shares)) => Some((Price::from_long(*price), *shares)),
        None => None,
    }
}

// The best price of a side.
fn best_of(prices: &Prices, side: Side) -> Best
    ensures { IsNearest side (get nat_cmp prices.now) result }
{
    match side {
        Side::Buy => highest(prices),
        Side::Sell => lowest(prices),
    }
}

// The shares at a price.
pub(crate) fn shares_at(prices: &Prices, price: Price) -> u64
    ensures { result ≡ unwrap_or (get nat_cmp prices.now price) 0 }
{
    match prices.get(&price.ten_thousandths()) {
        Some(shares) => *shares,
        None => 0,
    }
}

// Takes shares away at a price and puts others there. Their sum never passes the end of its type in
// a book of at most 4,294,967,295 orders.
fn change(prices: &mut Prices, price: Price, gone: u32, come: u32) -> Result<(), OutOfMemory>
    ensures { OnOk result (SetsPrice prices.old price
        ((unwrap_or (get nat_cmp prices.old price) 0 - gone) + come) prices.new) }
{
    let price = price.ten_thousandths();
    let Some(shares) = prices.get_mut(&price) else {
        if come > 0 {
            prices.insert(price, u64::from(come))?;
        }
        return Ok(());
    };
    let left = shares.saturating_sub(u64::from(gone));
    let Some(sum) = left.checked_add(u64::from(come)) else {
        return Err(OutOfMemory);
    };
    *shares = sum;
    if sum == 0 {
        prices.remove(&price);
    }
    Ok(())
}

// Takes the shares of an order away.
fn take(prices: &mut Prices, order: &Order) -> Result<(), OutOfMemory>
    ensures { OnOk result (MovesPrices (Some order.now) None prices.old prices.new) }
{
    change(prices, order.price, order.quantity, 0)?;
    Ok(())
}

// Puts the shares of an order.
fn put(prices: &mut Prices, order: &Order) -> Result<(), OutOfMemory>
    ensures { OnOk result (MovesPrices None (Some order.now) prices.old prices.new) }
{
    change(prices, order.price, 0, order.quantity)?;
    Ok(())
}

// Takes the shares of an order away and puts those of another at the same price.
fn exchange(prices: &mut Prices, before: &Order, now: &Order) -> Result<(), OutOfMemory>
    requires { before.now.price ≡ now.now.price }
    ensures { OnOk result (MovesPrices (Some before.now) (Some now.now) prices.old prices.new) }
{
    change(prices, before.price, before.quantity, now.quantity)?;
    Ok(())
}

// Takes the shares of an order away and puts those of another, where both have orders.
fn replace(prices: &mut Prices, before: &Order, now: &Order) -> Result<(), OutOfMemory>
    ensures { OnOk result (MovesPrices (Some before.now) (Some now.now) prices.old prices.new) }
{
    if before.price == now.price {
        exchange(prices, before, now)?;
    } else {
        take(prices, before)?;
        put(prices, now)?;
    }
    Ok(())
}

// Takes the shares of one order away and puts those of another, where there are such.
fn move_shares(
    prices: &mut Prices,
    before: &Option<Order>,
    now: &Option<Order>,
) -> Result<(), OutOfMemory>
    ensures { OnOk result (MovesPrices before.now now.now prices.old prices.new) }
{
    match before {
        None => match now {
            None => Ok(()),
            Some(now) => {
                put(prices, now)?;
                Ok(())
            }
        },
        Some(before) => match now {
            None => {
                take(prices, before)?;
                Ok(())
            }
            Some(now) => {
                replace(prices, before, now)?;
                Ok(())
            }
        },
    }
}

// Whether an order, where there is one, has a worse price than this.
fn is_worse(price: Price, side: Side, order: &Option<Order>) -> bool
    ensures { result ≡ true → IsWorse side price order.now }
{
    let Some(order) = order else {
        return true;
    };
    match side {
        Side::Buy => order.price.ten_thousandths() < price.ten_thousandths(),
        Side::Sell => price.ten_thousandths() < order.price.ten_thousandths(),
    }
}

// Whether there is a best, and either order is worse.
fn are_worse(best: &Best, side: Side, before: &Option<Order>, now: &Option<Order>) -> bool
    ensures { result ≡ true → AreWorse side best.now before.now now.now }
{
    match best {
        Some((price, _)) => is_worse(*price, side, before) && is_worse(*price, side, now),
        None => false,
    }
}

// The best of a side once one order became another. It is looked for only where it may have become
// another.
fn best_after(
    prices: &Prices,
    side: Side,
    was: &Best,
    before: &Option<Order>,
    now: &Option<Order>,
) -> Best
    requires { AreWorse side was.now before.now now.now
        → IsNearest side (get nat_cmp prices.now) was.now }
    ensures { IsNearest side (get nat_cmp prices.now) result }
{
    if are_worse(was, side, before, now) {
        *was
    } else {
        best_of(prices, side)
    }
}

// One order of a side becomes another. It answers the best before and after. `best` is that of the
// prices at any time, also after an error.
pub(crate) fn turn(
    prices: &mut Prices,
    best: &mut Best,
    side: Side,
    before: &Option<Order>,
    now: &Option<Order>,
) -> Result<(Best, Best), OutOfMemory>
    requires { IsNearest side (get nat_cmp prices.old) best.old }
    ensures nearest { IsNearest side (get nat_cmp prices.new) best.new }
    ensures moves { OnOk result (MovesPrices before.now now.now prices.old prices.new) }
    ensures was { IfOk result (λ bests. IsNearest side (get nat_cmp prices.old) bests.0) }
    ensures is { IfOk result (λ bests. IsNearest side (get nat_cmp prices.new) bests.1) }
{
    let was = *best;
    match move_shares(prices, before, now) {
        Ok(()) => {
            *best = best_after(prices, side, &was, before, now);
            Ok((was, *best))
        }
        Err(error) => {
            *best = best_of(prices, side);
            Err(error)
        }
    }
}
