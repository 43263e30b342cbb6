//! The clients of a feed, for C.
#![tactic(auto)]

mod asking;
mod codes;
mod end_asking;
mod end_handle;
mod end_reports;
mod ends;
mod handle;
mod hold;
mod levels;
mod lists;
mod quoting;
mod reports;

ghost use Rattle.std.specs.Prelude.{◌≡◌, ◌≤◌, IfErr, IfNone, IfOk, IfSome, None};
ghost use Rattle.std.specs.Option.{IsSomeAnd};
ghost use Rattle.pitch_fields.specs.Side.{side_of};
ghost use Rattle.unit_packets.specs.Judging.{judge};
ghost use Rattle.unit_clients.specs.Clients.{client_of};
ghost use Rattle.unit_clients.specs.Room.{HaveSpare};
ghost use Rattle.pitch_c.specs.Codes as code;
ghost use Rattle.pitch_c.specs.Answers.{Answers, hold_code, judged_code, client_code, side_code};
ghost use Rattle.pitch_c.specs.Answers.{MayTakeMemory, MayTakeQuoted, AnswersQuoted};
ghost use Rattle.pitch_c.specs.Clients.{AreOpened, StillHave, HearFirst};
ghost use Rattle.pitch_c.specs.Clients.{HearQuoted, HearUntold};
ghost use Rattle.pitch_c.specs.Clients.{TellStatus, TellBest, TellOrder, TellOrders, TellStates};
ghost use Rattle.pitch_c.specs.Clients.{TellLevel, TellLevels, HasOrders, HasSide};

use crate::asking::{hear_first, reserve_for, tell_best, tell_order, tell_status};
use crate::codes::{ABI, CLOSED, IS_OPEN, NO_MEMORY, OK};
use crate::handle::{Client, opened, take};
use crate::hold::hold_of;
use crate::levels::{tell_level, tell_levels};
use crate::lists::{tell_orders, tell_states};
use crate::quoting::hear_quoted_first;
use crate::reports::{BestOut, HeardOut, LevelOut, OrderOut, QuoteOut, StateOut, StatusOut};
use leveled_units::LeveledUnits;
use std::alloc::Global;

// Boxes new clients.
fn boxed(alloc: Global, hold: u32, levels: bool) -> Result<Box<LeveledUnits>, u32>
    ensures opened { IfOk result (λ units. AreOpened hold units.value) }
    ensures ok { IfOk result (λ units. hold_code hold ≡ code.ok) }
    ensures answer { IfErr result (λ n. Answers (hold_code hold) n) }
    ensures err { IfErr result (λ n. 1 ≤ n) }
{
    let limit = hold_of(hold)?;
    let Ok(units) = LeveledUnits::make(alloc, limit, levels) else {
        return Err(NO_MEMORY);
    };
    match Box::new(alloc, units) {
        Ok(boxed) => Ok(boxed),
        Err(_) => Err(NO_MEMORY),
    }
}

/// The number of what the header has to match: the structs and the functions.
#[unsafe(no_mangle)]
pub extern "C" fn pitch_c_abi() -> u32
    ensures { result ≡ code.abi }
{
    ABI
}

/// Opens a client that is closed. Each unit will hold at most `hold` messages, from 1 to 65,536,
/// and have price levels where `levels` is not 0.
#[unsafe(no_mangle)]
pub extern "C" fn pitch_c_open(alloc: Global, client: &mut Client, hold: u32, levels: u32) -> u32
    ensures opened { result ≡ code.ok
        → IsSomeAnd client.new.handle.value (λ units. AreOpened hold units) }
    ensures same { 1 ≤ result → client.new.handle.value ≡ client.old.handle.value }
    ensures is_open { IfSome client.old.handle.value (λ units. result ≡ code.is_open) }
    ensures answer { IfNone client.old.handle.value (Answers (hold_code hold) result) }
{
    if let Some(units) = take(alloc, client) {
        *client = opened(units);
        return IS_OPEN;
    }
    match boxed(alloc, hold, levels != 0) {
        Ok(units) => {
            *client = opened(units);
            OK
        }
        Err(code) => code,
    }
}

/// Closes a client, and frees what it has. A closed one stays closed.
#[unsafe(no_mangle)]
pub extern "C" fn pitch_c_close(alloc: Global, client: &mut Client)
    ensures { client.new.handle.value ≡ None }
{
    drop(take(alloc, client));
}

/// Hears the block at the start of some bytes, as a datagram has it.
#[unsafe(no_mangle)]
pub extern "C" fn pitch_c_hear(
    alloc: Global,
    client: &mut Client,
    bytes: &[u8],
    told: &mut HeardOut,
) -> u32
    ensures heard { result ≡ code.ok → IsSomeAnd client.old.handle.value
        (λ old. IsSomeAnd client.new.handle.value (λ new. HearFirst bytes.now old new told.new)) }
    ensures still { 1 ≤ result → IfSome client.old.handle.value
        (λ old. IsSomeAnd client.new.handle.value (λ new. StillHave old new)) }
    ensures kept { 1 ≤ result → told.new ≡ told.old }
    ensures closed { IfNone client.old.handle.value
        ((result ≡ code.closed) × (client.new.handle.value ≡ None)) }
    ensures answer { IfSome client.old.handle.value
        (λ old. Answers (judged_code (judge bytes.now)) result) }
    ensures memory { result ≡ code.no_memory
        → IsSomeAnd client.old.handle.value (λ old. MayTakeMemory bytes.now old) }
{
    let Some(mut units) = take(alloc, client) else {
        return CLOSED;
    };
    let code = hear_first(alloc, &mut units, bytes, told);
    *client = opened(units);
    code
}

/// Hears the block at the start of some bytes, and tells what it changed of the best prices: as
/// many changes as fit, and how many there are. The unit keeps price levels from its first such
/// block with messages on.
#[unsafe(no_mangle)]
pub extern "C" fn pitch_c_hear_quoted(
    alloc: Global,
    client: &mut Client,
    bytes: &[u8],
    told: &mut HeardOut,
    quotes: &mut [QuoteOut],
    number: &mut u64,
) -> u32
    ensures quoted { result ≡ code.ok → IsSomeAnd client.old.handle.value
        (λ old. IsSomeAnd client.new.handle.value
        (λ new. HearQuoted bytes.now old new told.new quotes.old quotes.new number.new)) }
    ensures untold { result ≡ code.untold → IsSomeAnd client.old.handle.value
        (λ old. IsSomeAnd client.new.handle.value
        (λ new. HearUntold bytes.now old new told.new)) }
    ensures still { 1 ≤ result → (result ≡ code.untold → ⊥) → IfSome client.old.handle.value
        (λ old. IsSomeAnd client.new.handle.value (λ new. StillHave old new)) }
    ensures told_kept { 1 ≤ result → (result ≡ code.untold → ⊥) → told.new ≡ told.old }
    ensures kept { 1 ≤ result → (quotes.new ≡ quotes.old) × (number.new ≡ number.old) }
    ensures closed { IfNone client.old.handle.value
        ((result ≡ code.closed) × (client.new.handle.value ≡ None)) }
    ensures answer { IfSome client.old.handle.value
        (λ old. AnswersQuoted (judged_code (judge bytes.now)) result) }
    ensures memory { result ≡ code.no_memory
        → IsSomeAnd client.old.handle.value (λ old. MayTakeQuoted bytes.now old) }
{
    let Some(mut units) = take(alloc, client) else {
        return CLOSED;
    };
    let code = hear_quoted_first(alloc, &mut units, bytes, told, quotes, number);
    *client = opened(units);
    code
}

/// Takes memory ahead for so many messages of a unit that has a client. Price levels that went for
/// want of memory come back.
#[unsafe(no_mangle)]
pub extern "C" fn pitch_c_reserve(
    alloc: Global,
    client: &mut Client,
    unit: u32,
    messages: u32,
) -> u32
    ensures spare { result ≡ code.ok
        → IsSomeAnd client.new.handle.value (λ units. HaveSpare units unit messages) }
    ensures still { IfSome client.old.handle.value
        (λ old. IsSomeAnd client.new.handle.value (λ new. StillHave old new)) }
    ensures closed { IfNone client.old.handle.value
        ((result ≡ code.closed) × (client.new.handle.value ≡ None)) }
    ensures answer { IfSome client.old.handle.value
        (λ units. Answers (client_code (client_of units unit)) result) }
{
    let Some(mut units) = take(alloc, client) else {
        return CLOSED;
    };
    let code = reserve_for(&mut units, unit, messages);
    *client = opened(units);
    code
}

/// How far the client of a unit is.
#[unsafe(no_mangle)]
pub extern "C" fn pitch_c_status(
    alloc: Global,
    client: &mut Client,
    unit: u32,
    told: &mut StatusOut,
) -> u32
    ensures status { result ≡ code.ok → IsSomeAnd client.old.handle.value
        (λ units. TellStatus units unit told.new) }
    ensures kept { 1 ≤ result → told.new ≡ told.old }
    ensures same { client.new.handle.value ≡ client.old.handle.value }
    ensures closed { IfNone client.old.handle.value (result ≡ code.closed) }
    ensures answer { IfSome client.old.handle.value
        (λ units. result ≡ client_code (client_of units unit)) }
{
    let Some(units) = take(alloc, client) else {
        return CLOSED;
    };
    let code = tell_status(&units, unit, told);
    *client = opened(units);
    code
}

/// The best price of a symbol on a side in a unit's book.
#[unsafe(no_mangle)]
pub extern "C" fn pitch_c_best(
    alloc: Global,
    client: &mut Client,
    unit: u32,
    symbol: &[u8; 8],
    side: u8,
    told: &mut BestOut,
) -> u32
    ensures best { result ≡ code.ok → IsSomeAnd client.old.handle.value
        (λ units. TellBest units unit symbol.now side told.new) }
    ensures kept { 1 ≤ result → told.new ≡ told.old }
    ensures same { client.new.handle.value ≡ client.old.handle.value }
    ensures closed { IfNone client.old.handle.value (result ≡ code.closed) }
    ensures answer { IfSome client.old.handle.value
        (λ units. result ≡ side_code (side_of side) (client_code (client_of units unit))) }
{
    let Some(units) = take(alloc, client) else {
        return CLOSED;
    };
    let code = tell_best(&units, unit, symbol, side, told);
    *client = opened(units);
    code
}

/// The open order of an id in a unit's book.
#[unsafe(no_mangle)]
pub extern "C" fn pitch_c_order(
    alloc: Global,
    client: &mut Client,
    unit: u32,
    id: u64,
    told: &mut OrderOut,
) -> u32
    ensures order { result ≡ code.ok → IsSomeAnd client.old.handle.value
        (λ units. TellOrder units unit id told.new) }
    ensures kept { 1 ≤ result → told.new ≡ told.old }
    ensures same { client.new.handle.value ≡ client.old.handle.value }
    ensures closed { IfNone client.old.handle.value (result ≡ code.closed) }
    ensures answer { IfSome client.old.handle.value
        (λ units. result ≡ client_code (client_of units unit)) }
{
    let Some(units) = take(alloc, client) else {
        return CLOSED;
    };
    let code = tell_order(&units, unit, id, told);
    *client = opened(units);
    code
}

/// The open orders of a unit by rising id: as many as fit, and how many there are.
#[unsafe(no_mangle)]
pub extern "C" fn pitch_c_orders(
    alloc: Global,
    client: &mut Client,
    unit: u32,
    told: &mut [OrderOut],
    number: &mut u64,
) -> u32
    ensures orders { result ≡ code.ok → IsSomeAnd client.old.handle.value
        (λ units. TellOrders units unit told.old told.new number.new) }
    ensures kept { 1 ≤ result → (told.new ≡ told.old) × (number.new ≡ number.old) }
    ensures same { client.new.handle.value ≡ client.old.handle.value }
    ensures closed { IfNone client.old.handle.value (result ≡ code.closed) }
    ensures answer { IfSome client.old.handle.value
        (λ units. Answers (client_code (client_of units unit)) result) }
    ensures memory { result ≡ code.no_memory → IsSomeAnd client.old.handle.value
        (λ units. HasOrders units unit told.old) }
{
    let Some(units) = take(alloc, client) else {
        return CLOSED;
    };
    let code = tell_orders(alloc, &units, unit, told, number);
    *client = opened(units);
    code
}

/// The trading statuses of a unit by rising bytes of their symbols: as many as fit, and how many
/// there are.
#[unsafe(no_mangle)]
pub extern "C" fn pitch_c_states(
    alloc: Global,
    client: &mut Client,
    unit: u32,
    told: &mut [StateOut],
    number: &mut u64,
) -> u32
    ensures states { result ≡ code.ok → IsSomeAnd client.old.handle.value
        (λ units. TellStates units unit told.old told.new number.new) }
    ensures kept { 1 ≤ result → (told.new ≡ told.old) × (number.new ≡ number.old) }
    ensures same { client.new.handle.value ≡ client.old.handle.value }
    ensures closed { IfNone client.old.handle.value (result ≡ code.closed) }
    ensures answer { IfSome client.old.handle.value
        (λ units. Answers (client_code (client_of units unit)) result) }
{
    let Some(units) = take(alloc, client) else {
        return CLOSED;
    };
    let code = tell_states(alloc, &units, unit, told, number);
    *client = opened(units);
    code
}

/// The levels of a symbol on a side in a unit's book, the best first: as many as fit, and how many
/// there are.
#[unsafe(no_mangle)]
pub extern "C" fn pitch_c_levels(
    alloc: Global,
    client: &mut Client,
    unit: u32,
    symbol: &[u8; 8],
    side: u8,
    told: &mut [LevelOut],
    number: &mut u64,
) -> u32
    ensures levels { result ≡ code.ok → IsSomeAnd client.old.handle.value
        (λ units. TellLevels units unit symbol.now side told.old told.new number.new) }
    ensures kept { 1 ≤ result → (told.new ≡ told.old) × (number.new ≡ number.old) }
    ensures same { client.new.handle.value ≡ client.old.handle.value }
    ensures closed { IfNone client.old.handle.value (result ≡ code.closed) }
    ensures answer { IfSome client.old.handle.value (λ units. Answers
        (side_code (side_of side) (client_code (client_of units unit))) result) }
    ensures memory { result ≡ code.no_memory → IsSomeAnd client.old.handle.value
        (λ units. HasSide units unit symbol.now side) }
{
    let Some(units) = take(alloc, client) else {
        return CLOSED;
    };
    let code = tell_levels(alloc, &units, unit, symbol, side, told, number);
    *client = opened(units);
    code
}

/// The shares of the open orders for a symbol on a side at a price, 0 where none is open there.
#[unsafe(no_mangle)]
pub extern "C" fn pitch_c_level(
    alloc: Global,
    client: &mut Client,
    unit: u32,
    symbol: &[u8; 8],
    side: u8,
    price: u64,
    told: &mut LevelOut,
) -> u32
    ensures level { result ≡ code.ok → IsSomeAnd client.old.handle.value
        (λ units. TellLevel units unit symbol.now side price told.new) }
    ensures kept { 1 ≤ result → told.new ≡ told.old }
    ensures same { client.new.handle.value ≡ client.old.handle.value }
    ensures closed { IfNone client.old.handle.value (result ≡ code.closed) }
    ensures answer { IfSome client.old.handle.value
        (λ units. result ≡ side_code (side_of side) (client_code (client_of units unit))) }
{
    let Some(units) = take(alloc, client) else {
        return CLOSED;
    };
    let code = tell_level(&units, unit, symbol, side, price, told);
    *client = opened(units);
    code
}
