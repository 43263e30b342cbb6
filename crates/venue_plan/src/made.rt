//! The commands, in rounds of 24.

ghost use Rattle.std.specs.Prelude.{◌≡◌, ◌+◌, ◌<◌, ◌≤◌, false};
ghost use Rattle.pitch_text.specs.WellFormed.{IsCommand, IsOffset, IsOrder, IsParticipant};
ghost use Rattle.pitch_text.specs.WellFormed.{IsSymbol};
ghost use Rattle.venue_core.specs.Plan.{plan_quantity, plan_price};
ghost use Rattle.venue_plan.specs.Made.{made_symbol, made_offset, made_order as made_order_of};
ghost use Rattle.venue_plan.specs.Made.{made_opening, made_trading, made_closing, made_at};
ghost use Rattle.venue_plan.specs.Made.{made_command};

use pitch_fields::{Price, Side, Symbol};
use pitch_messages::Order;
use pitch_text::Command;

// How many ten-thousandths are a dollar.
const DOLLAR: u64 = 10_000;

// So many shares more than a command's quantity are no short form's.
const LARGE: u32 = 100_000;

// The quantity that a command names.
#[tactic(auto, unfolding(venue_core::specs::Plan::plan_quantity))]
fn quantity_at(number: u64, unit: u8, index: u32) -> u32
    ensures value { result ≡ plan_quantity number unit index }
    ensures least { 100 ≤ result }
    ensures most { result ≤ 499 }
{
    let sum = number % 400 + u64::from(unit) + 37 * u64::from(index);
    100 + (sum % 400) as u32
}

// The price that a command names, and so many ten-thousandths more.
#[tactic(auto, unfolding(venue_core::specs::Plan::plan_price))]
fn price_at(number: u64, index: u32, more: u64) -> Price
    requires { more ≤ 10000 }
    ensures { result ≡ plan_price number index + more }
{
    let sum = number % 200 + u64::from(index);
    Price::from_long(100 * (1000 + sum % 200) + more)
}

// The symbol that a command names.
fn symbol_at(index: u32) -> Symbol
    ensures value { result ≡ made_symbol index }
    ensures well_formed { IsSymbol result }
{
    match index % 5 {
        0 => Symbol::from_eight(*b"Q       "),
        1 => Symbol::from_eight(*b"BETA    "),
        2 => Symbol::from_eight(*b"SIGMAS  "),
        3 => Symbol::from_eight(*b"OMICRON "),
        _ => Symbol::from_eight(*b"GAMMADLT"),
    }
}

// The offset at a place of a round.
fn offset_at(number: u64, place: u32) -> u32
    requires { place ≤ 24 }
    ensures value { result ≡ made_offset number place }
    ensures below { IsOffset result }
{
    40_000_000 * place + (number % 1000) as u32
}

// An order that a command names, displayed and of no participant.
fn made_order(index: u32, side: Side, quantity: u32, price: Price) -> Order
    ensures value { result ≡ made_order_of index side quantity price }
    ensures well_formed { IsOrder result }
{
    Order {
        id: u64::from(index),
        side,
        quantity,
        symbol: symbol_at(index),
        price,
        display: true,
        participant: *b"    ",
    }
}

// A hidden order of a participant.
fn hidden_order(order: Order, participant: [u8; 4]) -> Order
    requires order { IsOrder order }
    requires participant { IsParticipant participant }
    ensures value { result ≡ record order { display = false; participant = participant } }
    ensures well_formed { IsOrder result }
{
    Order {
        display: false,
        participant,
        ..order
    }
}

// The first eight commands of a round.
fn opening_at(number: u64, unit: u8, index: u32, round: u32, place: u32) -> Command
    requires { place < 8 }
    ensures value { result ≡ made_opening number unit index round place }
    ensures well_formed { IsCommand result }
{
    let offset = offset_at(number, place);
    let few = quantity_at(number, unit, index);
    let price = price_at(number, index, 0);
    let high = price_at(number, index, DOLLAR);
    match place {
        0 => Command::Time {
            second: 34_200 + round % 50_000,
        },
        1 => Command::Status {
            symbol: symbol_at(index),
            halt: if round % 2 == 0 { b'T' } else { b'H' },
            sho: b'0',
            offset,
        },
        2 | 6 => Command::Add {
            order: made_order(index, Side::Buy, few, price),
            offset,
        },
        3 => Command::Add {
            order: hidden_order(made_order(index, Side::Sell, few, high), *b"DESK"),
            offset,
        },
        4 => Command::Add {
            order: made_order(index, Side::Buy, LARGE + few, price),
            offset,
        },
        5 => {
            let order = made_order(index, Side::Sell, few, price_at(number, index, 1));
            Command::Add {
                order: hidden_order(order, *b"    "),
                offset,
            }
        }
        _ => Command::Add {
            order: made_order(index, Side::Sell, few, high),
            offset,
        },
    }
}

// The next eight commands of a round.
fn trading_at(number: u64, unit: u8, index: u32, place: u32) -> Command
    requires first { 8 ≤ place }
    requires last { place < 16 }
    requires index { place < index }
    ensures value { result ≡ made_trading number unit index place }
    ensures well_formed { IsCommand result }
{
    let offset = offset_at(number, place);
    let few = quantity_at(number, unit, index);
    let price = price_at(number, index, 0);
    let fine = price_at(number, index, 1);
    let execution = u64::from(index);
    match place {
        8 => Command::Exec {
            id: u64::from(index - 6),
            quantity: 50,
            execution,
            offset,
        },
        9 => Command::ExecAt {
            id: u64::from(index - 6),
            quantity: 30,
            remaining: 40,
            execution,
            price,
            offset,
        },
        10 => Command::Reduce {
            id: u64::from(index - 6),
            quantity: 70_000,
            offset,
        },
        11 => Command::Reduce {
            id: u64::from(index - 6),
            quantity: 20,
            offset,
        },
        12 => Command::Modify {
            id: u64::from(index - 10),
            quantity: few,
            price,
            display: true,
            offset,
        },
        13 => Command::Modify {
            id: u64::from(index - 9),
            quantity: LARGE + few,
            price: fine,
            display: false,
            offset,
        },
        14 => Command::Trade {
            order: made_order(index, Side::Buy, few, price),
            execution,
            offset,
        },
        _ => Command::Trade {
            order: made_order(index, Side::Sell, LARGE + few, fine),
            execution,
            offset,
        },
    }
}

// The last eight commands of a round.
fn closing_at(number: u64, unit: u8, index: u32, round: u32, place: u32) -> Command
    requires first { 16 ≤ place }
    requires last { place < 24 }
    requires index { place < index }
    ensures value { result ≡ made_closing number unit index round place }
    ensures well_formed { IsCommand result }
{
    let offset = offset_at(number, place);
    let few = quantity_at(number, unit, index);
    let price = price_at(number, index, 0);
    match place {
        16 => Command::Break {
            execution: u64::from(index - 2),
            offset,
        },
        17 => Command::Exec {
            id: u64::from(index - 11),
            quantity: quantity_at(number, unit, index - 11),
            execution: u64::from(index),
            offset,
        },
        18 => Command::ExecAt {
            id: u64::from(index - 11),
            quantity: quantity_at(number, unit, index - 11),
            remaining: 0,
            execution: u64::from(index),
            price,
            offset,
        },
        19 => Command::Reduce {
            id: u64::from(index - 14),
            quantity: quantity_at(number, unit, index - 14) - 20,
            offset,
        },
        20 => Command::Add {
            order: hidden_order(made_order(index, Side::Buy, few, price), *b"    "),
            offset,
        },
        21 => Command::Modify {
            id: u64::from(index - 1),
            quantity: few,
            price,
            display: true,
            offset,
        },
        22 => Command::Delete {
            id: u64::from(index - 19),
            offset,
        },
        _ if round % 64 == 63 => Command::Clear { offset },
        _ => Command::Delete {
            id: u64::from(index - 3),
            offset,
        },
    }
}

// The command at a place of a round.
fn command_at(number: u64, unit: u8, index: u32, round: u32, place: u32) -> Command
    requires place { place < 24 }
    requires index { place < index }
    ensures value { result ≡ made_at number unit index round place }
    ensures well_formed { IsCommand result }
{
    if place < 8 {
        opening_at(number, unit, index, round, place)
    } else if place < 16 {
        trading_at(number, unit, index, place)
    } else {
        closing_at(number, unit, index, round, place)
    }
}

/// Command `index` of `count`, which counts from 1, for a unit.
///
/// It is made of the number, the unit and the index alone, but that the last one ends the session.
/// Each of its fields is one that a line of commands can give.
#[tactic(auto, unfolding(crate::specs::Made::made_command))]
pub fn made_command(number: u64, unit: u8, count: u32, index: u32) -> Command
    requires { 1 ≤ index }
    ensures value { result ≡ made_command number unit count index }
    ensures well_formed { IsCommand result }
{
    if index == count {
        return Command::EndSession {
            offset: offset_at(number, 24),
        };
    }
    let before = index - 1;
    command_at(number, unit, index, before / 24, before % 24)
}
