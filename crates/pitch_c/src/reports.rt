//! The structs that C reads.

ghost use Rattle.std.specs.Prelude.{◌≡◌};
ghost use Rattle.pitch_c.specs.Reports.{status_shown, best_shown, heard_shown, order_shown};
ghost use Rattle.pitch_c.specs.Reports.{state_shown, level_shown, quote_shown};

use best_quotes::{Quote, QuoteLine};
use heard_items::Change;
use pitch_fields::Price;
use pitch_messages::{Order, TradingState};
use pitch_model::Status;
use unit_packets::Header;

/// How far a client is: 1 silent, 2 current, 3 behind; its reach, and the greatest sequence that it
/// was told of. Each struct ends with room for fields to come, which is 0.
#[repr(C)]
#[derive(Clone, Copy)]
pub struct StatusOut {
    pub state: u32,
    pub reach: u32,
    pub top: u32,
    pub spare: [u32; 5],
}

/// A best price in ten-thousandths of a dollar with its shares; `there` is 0 where the side is
/// empty.
#[repr(C)]
#[derive(Clone, Copy)]
pub struct BestOut {
    pub there: u64,
    pub price: u64,
    pub shares: u64,
    pub spare: [u64; 5],
}

/// An open order; `there` is 0 where none of this id is open, and `side` is `B` or `S`. `display`
/// is 1 where it is displayed, else 0, and the participant is four spaces where none is named.
#[repr(C)]
#[derive(Clone, Copy)]
pub struct OrderOut {
    pub there: u64,
    pub id: u64,
    pub price: u64,
    pub quantity: u32,
    pub side: u32,
    pub symbol: [u8; 8],
    pub display: u32,
    pub participant: [u8; 4],
    pub spare: [u64; 2],
}

/// The trading status of a symbol: the two bytes of its message.
#[repr(C)]
#[derive(Clone, Copy)]
pub struct StateOut {
    pub symbol: [u8; 8],
    pub halt: u32,
    pub sho: u32,
    pub spare: [u64; 2],
}

/// A price in ten-thousandths of a dollar with its shares.
#[repr(C)]
#[derive(Clone, Copy)]
pub struct LevelOut {
    pub price: u64,
    pub shares: u64,
    pub spare: [u64; 2],
}

/// What the message of a sequence changed of the best prices: what the best of a symbol on a side,
/// `B` or `S`, then is; `there` is 0 where the side is empty.
#[repr(C)]
#[derive(Clone, Copy)]
pub struct QuoteOut {
    pub sequence: u32,
    pub side: u32,
    pub symbol: [u8; 8],
    pub there: u64,
    pub price: u64,
    pub shares: u64,
    pub spare: [u64; 3],
}

/// What was heard: the bytes that the block has, its header, how many of its messages were new, how
/// often the hold overflowed, and how far the unit's client then is.
#[repr(C)]
#[derive(Clone, Copy)]
pub struct HeardOut {
    pub used: u32,
    pub unit: u32,
    pub sequence: u32,
    pub count: u32,
    pub fresh: u32,
    pub overflows: u32,
    pub after: StatusOut,
    pub spare: [u32; 2],
}

pub(crate) fn status_out(status: Status) -> StatusOut
    ensures { result ≡ status_shown status }
{
    match status {
        Status::Silent => StatusOut {
            state: 1,
            reach: 0,
            top: 0,
            spare: [0; 5],
        },
        Status::Current { n } => StatusOut {
            state: 2,
            reach: n,
            top: n,
            spare: [0; 5],
        },
        Status::Behind { n, top } => StatusOut {
            state: 3,
            reach: n,
            top,
            spare: [0; 5],
        },
    }
}

pub(crate) fn best_out(best: Option<(Price, u64)>) -> BestOut
    ensures { result ≡ best_shown best }
{
    match best {
        None => BestOut {
            there: 0,
            price: 0,
            shares: 0,
            spare: [0; 5],
        },
        Some((price, shares)) => BestOut {
            there: 1,
            price: price.ten_thousandths(),
            shares,
            spare: [0; 5],
        },
    }
}

pub(crate) fn order_out(order: Option<Order>) -> OrderOut
    ensures { result ≡ order_shown order }
{
    match order {
        None => OrderOut {
            there: 0,
            id: 0,
            price: 0,
            quantity: 0,
            side: 0,
            symbol: [32; 8],
            display: 0,
            participant: [32; 4],
            spare: [0; 2],
        },
        Some(order) => OrderOut {
            there: 1,
            id: order.id,
            price: order.price.ten_thousandths(),
            quantity: order.quantity,
            side: u32::from(order.side.byte()),
            symbol: order.symbol.bytes(),
            display: u32::from(order.display),
            participant: order.participant,
            spare: [0; 2],
        },
    }
}

pub(crate) fn state_out(state: TradingState) -> StateOut
    ensures { result ≡ state_shown state }
{
    StateOut {
        symbol: state.symbol.bytes(),
        halt: u32::from(state.halt),
        sho: u32::from(state.sho),
        spare: [0; 2],
    }
}

pub(crate) fn level_out(level: (Price, u64)) -> LevelOut
    ensures { result ≡ level_shown level }
{
    LevelOut {
        price: level.0.ten_thousandths(),
        shares: level.1,
        spare: [0; 2],
    }
}

pub(crate) fn quote_out(line: QuoteLine) -> QuoteOut
    ensures { result ≡ quote_shown line }
{
    let QuoteLine { sequence, quote } = line;
    let Quote { symbol, side, best } = quote;
    let best = best_out(best);
    QuoteOut {
        sequence,
        side: u32::from(side.byte()),
        symbol: symbol.bytes(),
        there: best.there,
        price: best.price,
        shares: best.shares,
        spare: [0; 3],
    }
}

pub(crate) fn heard_out(header: Header, change: Change) -> HeardOut
    ensures { result ≡ heard_shown header change }
{
    HeardOut {
        used: u32::from(header.length),
        unit: u32::from(header.unit),
        sequence: header.sequence,
        count: u32::from(header.count),
        fresh: change.fresh,
        overflows: change.overflows,
        after: status_out(change.after),
        spare: [0; 2],
    }
}
