//! Lists of a unit's book, told into the caller's arrays: as many items as fit.

ghost use Rattle.std.specs.Prelude.{◌≡◌, ◌≤◌, ◌⊎◌, Some, IfOk, length, map as mapped};
ghost use Rattle.std.specs.FinMap as map;
ghost use Rattle.pitch_model.specs.Levels.{orders_of};
ghost use Rattle.pitch_model.specs.Statuses.{statuses_of};
ghost use Rattle.unit_clients.specs.Clients.{client_of};
ghost use Rattle.pitch_c.specs.Codes as code;
ghost use Rattle.pitch_c.specs.Answers.{Answers, client_code};
ghost use Rattle.pitch_c.specs.Arrays.{filled};
ghost use Rattle.pitch_c.specs.Clients.{TellOrders, TellStates, HasOrders};
ghost use Rattle.pitch_c.specs.Lists.{ListsOrders, ListsStates};
ghost use Rattle.pitch_c.specs.Reports.{order_shown, state_shown};

use crate::asking::find_client;
use crate::codes::{NO_CLIENT, NO_MEMORY, OK};
use crate::reports::{OrderOut, StateOut, order_out, state_out};
use leveled_units::LeveledUnits;
use order_book::{OrderList, StatusList, UnitBook};
use pitch_fields::OutOfMemory;
use pitch_messages::{Order, TradingState};
use std::alloc::Global;

// The fewer of what there is and what there is room for.
pub(crate) fn fitting(count: usize, room: usize) -> usize
    ensures within { (result ≤ count) × (result ≤ room) }
    ensures most { (result ≡ count) ⊎ (result ≡ room) }
{
    if count < room { count } else { room }
}

// Writes as many orders as fit.
fn fill_orders(orders: &[Order], told: &mut [OrderOut])
    ensures { told.new ≡ filled (mapped (λ order. order_shown (Some order)) orders.now) told.old }
{
    let count = fitting(orders.len(), told.len());
    'orders: for at in 0..count {
        told[at] = order_out(Some(orders[at]));
    }
}

// Writes as many statuses as fit.
fn fill_states(states: &[TradingState], told: &mut [StateOut])
    ensures { told.new ≡ filled (mapped state_shown states.now) told.old }
{
    let count = fitting(states.len(), told.len());
    'states: for at in 0..count {
        told[at] = state_out(states[at]);
    }
}

// The open orders of a book by rising id.
fn orders_of(alloc: Global, book: &UnitBook) -> Result<OrderList, OutOfMemory>
    ensures { IfOk result (λ orders. orders.items ≡ orders_of book.now.book) }
{
    let mut orders = OrderList::make(alloc);
    book.orders_by_id(&mut orders)?;
    Ok(orders)
}

// The trading statuses of a book by rising bytes of their symbols.
fn statuses_of(alloc: Global, book: &UnitBook) -> Result<StatusList, OutOfMemory>
    ensures { IfOk result (λ states. states.items ≡ statuses_of book.now.book) }
{
    let mut states = StatusList::make(alloc);
    book.statuses_by_symbol(&mut states)?;
    Ok(states)
}

// Tells the open orders of a book.
pub(crate) fn list_orders(
    alloc: Global,
    book: &UnitBook,
    told: &mut [OrderOut],
    number: &mut u64,
) -> u32
    ensures orders { result ≡ code.ok → ListsOrders book.now.book told.old told.new number.new }
    ensures kept { 1 ≤ result → (told.new ≡ told.old) × (number.new ≡ number.old) }
    ensures answer { Answers code.ok result }
    ensures memory { result ≡ code.no_memory
        → (1 ≤ length told.old) × (1 ≤ map.len book.now.book.orders) }
{
    let open = book.len();
    if open == 0 || told.is_empty() {
        *number = u64::from(open);
        return OK;
    }
    match orders_of(alloc, book) {
        Ok(orders) => {
            fill_orders(orders.as_slice(), told);
            *number = orders.len() as u64;
            OK
        }
        Err(_) => NO_MEMORY,
    }
}

// Tells the trading statuses of a book.
pub(crate) fn list_states(
    alloc: Global,
    book: &UnitBook,
    told: &mut [StateOut],
    number: &mut u64,
) -> u32
    ensures states { result ≡ code.ok → ListsStates book.now.book told.old told.new number.new }
    ensures kept { 1 ≤ result → (told.new ≡ told.old) × (number.new ≡ number.old) }
    ensures answer { Answers code.ok result }
{
    match statuses_of(alloc, book) {
        Ok(states) => {
            fill_states(states.as_slice(), told);
            *number = states.len() as u64;
            OK
        }
        Err(_) => NO_MEMORY,
    }
}

pub(crate) fn tell_orders(
    alloc: Global,
    units: &LeveledUnits,
    unit: u32,
    told: &mut [OrderOut],
    number: &mut u64,
) -> u32
    ensures orders { result ≡ code.ok → TellOrders units.now unit told.old told.new number.new }
    ensures kept { 1 ≤ result → (told.new ≡ told.old) × (number.new ≡ number.old) }
    ensures answer { Answers (client_code (client_of units.now unit)) result }
    ensures memory { result ≡ code.no_memory → HasOrders units.now unit told.old }
{
    match find_client(units, unit) {
        Some(client) => list_orders(alloc, client.client().book(), told, number),
        None => NO_CLIENT,
    }
}

pub(crate) fn tell_states(
    alloc: Global,
    units: &LeveledUnits,
    unit: u32,
    told: &mut [StateOut],
    number: &mut u64,
) -> u32
    ensures states { result ≡ code.ok → TellStates units.now unit told.old told.new number.new }
    ensures kept { 1 ≤ result → (told.new ≡ told.old) × (number.new ≡ number.old) }
    ensures answer { Answers (client_code (client_of units.now unit)) result }
{
    match find_client(units, unit) {
        Some(client) => list_states(alloc, client.client().book(), told, number),
        None => NO_CLIENT,
    }
}
