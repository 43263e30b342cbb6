//! The choice among short, long and expanded forms when a venue writes a message.

ghost use Rattle.std.specs.Prelude.{◌≡◌, ◌≤◌, Ok, IfSome};
ghost use Rattle.pitch_messages.specs.Reading.{reads};
ghost use Rattle.pitch_messages.specs.Writing.{written};
ghost use Rattle.pitch_messages.specs.layers.Rewriting.{HasItsVariant};
ghost use Rattle.pitch_messages.specs.Forms.{flags_of, short_price, plain_symbol, add_message};
ghost use Rattle.pitch_messages.specs.Forms.{trade_message, reduce_message, modify_message};
ghost use Rattle.pitch_messages.specs.Forms.{status_message};

use crate::message::Message;
use crate::order::Order;
use crate::raw::Raw;
use crate::trading_state::TradingState;
use crate::writing::write;
use pitch_fields::{Price, is_blank};

// The flags byte of an order: bit 0 says that it is displayed.
fn flags_of(display: bool) -> u8
    ensures { result ≡ flags_of display }
{
    if display { 1 } else { 0 }
}

// The price in cents, where the quantity and the price both fit a short form.
fn short_price(quantity: u32, price: Price) -> Option<u16>
    ensures cents { result ≡ short_price quantity price }
    ensures fits { IfSome result (λ _. quantity ≤ 65535) }
{
    if quantity > 65_535 {
        return None;
    }
    price.short()
}

// The six bytes of the symbol, where neither the symbol nor the participant asks for the expanded
// form.
fn plain_symbol(order: &Order) -> Option<[u8; 6]>
    ensures { result ≡ plain_symbol order.now }
{
    if is_blank(&order.participant) {
        return order.symbol.six();
    }
    None
}

#[tactic(auto, unfolding(crate::specs::Forms::add_message))]
fn add_message(order: &Order, offset: u32) -> Message
    ensures form { result ≡ add_message order.now offset }
    ensures known { HasItsVariant result }
{
    let flags = flags_of(order.display);
    let Some(symbol) = plain_symbol(order) else {
        return Message::AddExpanded {
            offset,
            id: order.id,
            side: order.side,
            quantity: order.quantity,
            symbol: order.symbol.bytes(),
            price: order.price.ten_thousandths(),
            flags,
            participant: order.participant,
        };
    };
    match short_price(order.quantity, order.price) {
        Some(price) => Message::AddShort {
            offset,
            id: order.id,
            side: order.side,
            quantity: order.quantity as u16,
            symbol,
            price,
            flags,
        },
        None => Message::AddLong {
            offset,
            id: order.id,
            side: order.side,
            quantity: order.quantity,
            symbol,
            price: order.price.ten_thousandths(),
            flags,
        },
    }
}

#[tactic(auto, unfolding(crate::specs::Forms::trade_message))]
fn trade_message(order: &Order, execution: u64, offset: u32) -> Message
    ensures form { result ≡ trade_message order.now execution offset }
    ensures known { HasItsVariant result }
{
    let Some(symbol) = order.symbol.six() else {
        return Message::TradeExpanded {
            offset,
            id: order.id,
            side: order.side,
            quantity: order.quantity,
            symbol: order.symbol.bytes(),
            price: order.price.ten_thousandths(),
            execution,
        };
    };
    match short_price(order.quantity, order.price) {
        Some(price) => Message::TradeShort {
            offset,
            id: order.id,
            side: order.side,
            quantity: order.quantity as u16,
            symbol,
            price,
            execution,
        },
        None => Message::TradeLong {
            offset,
            id: order.id,
            side: order.side,
            quantity: order.quantity,
            symbol,
            price: order.price.ten_thousandths(),
            execution,
        },
    }
}

/// The add of an order, at an offset in nanoseconds.
///
/// It is expanded where the last two symbol bytes are not both spaces or the participant is not
/// four spaces. Else it is short where the quantity is at most 65,535 and the price is a whole
/// number of cents of at most 655.35 dollars. Else it is long. This choice is the project's own.
#[inline]
pub fn add_raw(order: &Order, offset: u32) -> Raw
    ensures written { result ≡ written (add_message order.now offset) }
    ensures reads_back { reads result ≡ Ok (add_message order.now offset) }
{
    write(&add_message(order, offset))
}

/// The trade of an order, at an offset in nanoseconds. Its form is chosen as for an add that names
/// no participant.
#[inline]
pub fn trade_raw(order: &Order, execution: u64, offset: u32) -> Raw
    ensures written { result ≡ written (trade_message order.now execution offset) }
    ensures reads_back { reads result ≡ Ok (trade_message order.now execution offset) }
{
    write(&trade_message(order, execution, offset))
}

/// The reduction of an order by a quantity: short where that is at most 65,535, else long.
#[inline]
#[tactic(auto, unfolding(crate::specs::Forms::reduce_message))]
pub fn reduce_raw(id: u64, quantity: u32, offset: u32) -> Raw
    ensures written { result ≡ written (reduce_message id quantity offset) }
    ensures reads_back { reads result ≡ Ok (reduce_message id quantity offset) }
{
    if quantity <= 65_535 {
        return write(&Message::ReduceShort {
            offset,
            id,
            quantity: quantity as u16,
        });
    }
    write(&Message::ReduceLong {
        offset,
        id,
        quantity,
    })
}

/// The modification of an order to a quantity, a price and a display mark.
///
/// It is short where the quantity is at most 65,535 and the price is a whole number of cents of at
/// most 655.35 dollars, else long.
#[inline]
#[tactic(auto, unfolding(crate::specs::Forms::modify_message))]
pub fn modify_raw(id: u64, quantity: u32, price: Price, display: bool, offset: u32) -> Raw
    ensures written { result ≡ written (modify_message id quantity price display offset) }
    ensures reads_back { reads result ≡ Ok (modify_message id quantity price display offset) }
{
    let flags = flags_of(display);
    match short_price(quantity, price) {
        Some(price) => write(&Message::ModifyShort {
            offset,
            id,
            quantity: quantity as u16,
            price,
            flags,
        }),
        None => write(&Message::ModifyLong {
            offset,
            id,
            quantity,
            price: price.ten_thousandths(),
            flags,
        }),
    }
}

/// The Trading Status of a symbol, at an offset in nanoseconds.
#[inline]
pub fn status_raw(state: &TradingState, offset: u32) -> Raw
    ensures written { result ≡ written (status_message state.now offset) }
    ensures reads_back { reads result ≡ Ok (status_message state.now offset) }
{
    write(&Message::TradingStatus {
        offset,
        symbol: state.symbol.bytes(),
        halt: state.halt,
        sho: state.sho,
    })
}
