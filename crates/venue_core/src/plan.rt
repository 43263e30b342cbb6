//! The plan: commands in rounds of eight, made from a number, and laws of what they leave.

ghost use Rattle.std.specs.Prelude.{◌≡◌, ℕ, ◌≤◌, ◌+◌, ◌-◌, ◌*◌, ◌/◌, ◌<◌, None, Some, Ok, length};
ghost use Rattle.std.specs.Prelude.{take, slice_get, sum_by};
ghost use Rattle.std.specs.List.{AllByRecursion};
ghost use Rattle.std.specs.FinMap as finite;
ghost use Rattle.pitch_messages.specs.Reading.{reads};
ghost use Rattle.pitch_model.specs.Book.{book_after};
ghost use Rattle.pitch_model.specs.Levels.{shares};
ghost use Rattle.pitch_fields.specs.Fields.{AreBytes};
ghost use Rattle.venue_core.specs.Commands.{message_of, raw_of};
ghost use Rattle.venue_core.specs.Plan.{plan_quantity, plan_price, plan_symbol, plan_order};
ghost use Rattle.venue_core.specs.Plan.{plan_at, plan_command, plan};
ghost use Rattle.venue_core.specs.Planned.{most_planned, orders_left};
ghost use Rattle.venue_core.specs.Refusals.{refusal};

use pitch_fields::{Price, Side, Symbol};
use pitch_messages::Order;
use pitch_text::Command;

// The quantity that a command names.
#[tactic(auto, unfolding(crate::specs::Plan::plan_quantity))]
fn quantity_at(number: u64, unit: u8, index: u32) -> u32
    ensures value { result ≡ plan_quantity number unit index }
{
    let sum = number % 400 + u64::from(unit) + 37 * u64::from(index);
    100 + (sum % 400) as u32
}

// The price that a command names, and so many ten-thousandths more.
#[tactic(auto, unfolding(crate::specs::Plan::plan_price))]
fn price_at(number: u64, index: u32, more: u64) -> Price
    requires { more ≤ 10000 }
    ensures { result ≡ plan_price number index + more }
{
    let sum = number % 200 + u64::from(index);
    Price::from_long(100 * (1000 + sum % 200) + more)
}

// The symbol that a command names.
fn symbol_at(index: u32) -> Symbol
    ensures { result ≡ plan_symbol index }
{
    Symbol::from_eight(match index % 3 {
        0 => *b"ALPHA   ",
        1 => *b"BETA    ",
        _ => *b"GAMMADLT",
    })
}

// The order that a command names.
fn order_at(number: u64, unit: u8, index: u32, side: Side, more: u64) -> Order
    requires { more ≤ 10000 }
    ensures { result ≡ plan_order number unit index side (plan_price number index + more) }
{
    Order {
        id: u64::from(index),
        side,
        quantity: quantity_at(number, unit, index),
        symbol: symbol_at(index),
        price: price_at(number, index, more),
        display: true,
        participant: *b"    ",
    }
}

// The command at a place of a round.
fn command_at(number: u64, unit: u8, index: u32, round: u32, place: u32) -> Command
    requires { place + 1 ≤ index }
    ensures { result ≡ plan_at number unit index round place }
{
    match place {
        0 => Command::Time {
            second: 34_200 + round % 50_000,
        },
        1 => Command::Add {
            order: order_at(number, unit, index, Side::Buy, 0),
            offset: 0,
        },
        2 => Command::Add {
            order: order_at(number, unit, index, Side::Sell, 10_000),
            offset: 0,
        },
        3 => Command::Exec {
            id: u64::from(index - 2),
            quantity: 50,
            execution: u64::from(index),
            offset: 0,
        },
        4 => Command::Reduce {
            id: u64::from(index - 2),
            quantity: 20,
            offset: 0,
        },
        5 => Command::Modify {
            id: u64::from(index - 4),
            quantity: quantity_at(number, unit, index),
            price: price_at(number, index, 0),
            display: true,
            offset: 0,
        },
        6 => Command::Add {
            order: order_at(number, unit, index, Side::Buy, 1),
            offset: 0,
        },
        _ if round % 2 == 0 => Command::Delete {
            id: u64::from(index - 1),
            offset: 0,
        },
        _ => Command::Trade {
            order: order_at(number, unit, index, Side::Buy, 0),
            execution: u64::from(index),
            offset: 0,
        },
    }
}

/// Command `index` of the plan, which counts from 1, for a unit.
///
/// The plan is this project's own: rounds of eight commands, each made of the number, the unit and
/// the index alone.
#[tactic(auto, unfolding(crate::specs::Plan::plan_command))]
pub fn plan_command(number: u64, unit: u8, index: u32) -> Command
    requires { 1 ≤ index }
    ensures { result ≡ plan_command number unit index }
{
    let before = index - 1;
    command_at(number, unit, index, before / 8, before % 8)
}

/// A venue that gets the plan in order from its start accepts each of the first 400,000 commands,
/// and the message of each is read as what its command says. The call does nothing.
pub fn plan_is_accepted()
    // Whatever the number and the unit, no refusal holds of a command after those before it.
    ensures accepted { (number unit index : ℕ) → 1 ≤ index → index ≤ most_planned
        → refusal (plan number unit (index - 1)) (plan_command number unit index) ≡ None }
    // Whatever the number and the unit, a command's message reads as what it says.
    ensures known { (number unit index : ℕ)
        → 1 ≤ index → index ≤ most_planned → reads (raw_of (plan_command number unit index))
        ≡ Ok (message_of (plan_command number unit index)) }
{}

/// Whole rounds of the plan leave two orders each, and every other one a third. The call does
/// nothing.
pub fn plan_leaves_its_orders()
    // The orders that are open after so many rounds, by rising id, are just these.
    ensures orders { (number unit rounds : ℕ) → 8 * rounds ≤ most_planned → finite.values
        (book_after (plan number unit (8 * rounds))).orders ≡ orders_left number unit rounds }
    // So many they are.
    ensures count { (number unit rounds : ℕ) → 8 * rounds ≤ most_planned
        → finite.len (book_after (plan number unit (8 * rounds))).orders ≡ 2 * rounds + rounds / 2 }
    // The shares of the book are their quantities together.
    ensures shares { (number unit rounds : ℕ)
        → 8 * rounds ≤ most_planned → shares (book_after (plan number unit (8 * rounds)))
        ≡ sum_by (λ order. order.quantity) (orders_left number unit rounds) }
{}

/// The plan has as many messages as commands, each at its place; they are bytes, and a shorter plan
/// is a prefix of a longer one. The call does nothing.
pub fn plan_is_in_order()
    ensures count { (number unit count : ℕ) → length (plan number unit count) ≡ count }
    // The message at a place is that of the command with the next index.
    ensures each { (number unit count index : ℕ) → index < count → slice_get
        (plan number unit count) index ≡ Some (raw_of (plan_command number unit (index + 1))) }
    // More commands leave the messages of the first ones as they are.
    ensures prefix { (number unit count more : ℕ)
        → take count (plan number unit (count + more)) ≡ plan number unit count }
    ensures bytes { (number unit count : ℕ)
        → count ≤ most_planned → AllByRecursion AreBytes (plan number unit count) }
{}
