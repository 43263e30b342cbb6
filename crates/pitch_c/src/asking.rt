//! Hearing a block, and asking, over the clients of all units.

ghost use Rattle.std.specs.Prelude.{◌≡◌, ◌≤◌, IfNone, IfSome};
ghost use Rattle.pitch_fields.specs.Side.{side_of};
ghost use Rattle.client_core.specs.Client.{current_book};
ghost use Rattle.unit_packets.specs.Judging.{judge};
ghost use Rattle.unit_clients.specs.Clients.{client_of};
ghost use Rattle.unit_clients.specs.Room.{HaveSpare};
ghost use Rattle.pitch_c.specs.Codes as code;
ghost use Rattle.pitch_c.specs.Answers.{Answers, judged_code, client_code, side_code};
ghost use Rattle.pitch_c.specs.Answers.{MayTakeMemory};
ghost use Rattle.pitch_c.specs.Clients.{StillHave, HearFirst};
ghost use Rattle.pitch_c.specs.Clients.{TellStatus, TellBest, TellOrder, OfReachedBook};

use crate::codes::{NO_CLIENT, NO_MEMORY, NO_SIDE, NOT_A_BLOCK, OK, TRUNCATED};
use crate::reports::{
    BestOut, HeardOut, OrderOut, StatusOut, best_out, heard_out, order_out, status_out,
};
use leveled_units::{LeveledUnit, LeveledUnits};
use pitch_fields::{Side, Symbol};
use std::alloc::Global;
use unit_packets::view_block;

// Hands the block at the start of some bytes to the client of its unit.
pub(crate) fn hear_first(
    alloc: Global,
    units: &mut LeveledUnits,
    bytes: &[u8],
    told: &mut HeardOut,
) -> u32
    ensures heard { result ≡ code.ok → HearFirst bytes.now units.old units.new told.new }
    ensures still { 1 ≤ result → StillHave units.old units.new }
    ensures kept { 1 ≤ result → told.new ≡ told.old }
    ensures answer { Answers (judged_code (judge bytes.now)) result }
    ensures memory { result ≡ code.no_memory → MayTakeMemory bytes.now units.old }
{
    match view_block(bytes) {
        Ok(block) => match units.hear_block(alloc, &block) {
            Ok(change) => {
                *told = heard_out(block.header(), change);
                OK
            }
            Err(_) => NO_MEMORY,
        },
        Err(error) => {
            if error.is_truncated() {
                TRUNCATED
            } else {
                NOT_A_BLOCK
            }
        }
    }
}

// Takes memory ahead for so many messages of a unit that has a client.
pub(crate) fn reserve_for(units: &mut LeveledUnits, unit: u32, messages: u32) -> u32
    ensures spare { result ≡ code.ok → HaveSpare units.new unit messages }
    ensures still { StillHave units.old units.new }
    ensures answer { Answers (client_code (client_of units.old unit)) result }
{
    match units.unit(unit) {
        Some(_) => match units.reserve(unit as u8, messages) {
            Ok(()) => OK,
            Err(_) => NO_MEMORY,
        },
        None => NO_CLIENT,
    }
}

// The client of a unit with its levels.
pub(crate) fn find_client(units: &LeveledUnits, unit: u32) -> Option<&LeveledUnit>
    ensures book { IfSome result (λ client. OfReachedBook units.now unit
        (λ book. current_book client.now ≡ book)) }
    ensures some { IfSome result (λ client. client_code (client_of units.now unit) ≡ code.ok) }
    ensures none { IfNone result (client_code (client_of units.now unit) ≡ code.no_client) }
{
    match units.unit(unit) {
        Some(client) => {
            let _book = client.client().book();
            Some(client)
        }
        None => None,
    }
}

pub(crate) fn tell_status(units: &LeveledUnits, unit: u32, told: &mut StatusOut) -> u32
    ensures status { result ≡ code.ok → TellStatus units.now unit told.new }
    ensures kept { 1 ≤ result → told.new ≡ told.old }
    ensures answer { result ≡ client_code (client_of units.now unit) }
{
    match units.unit(unit) {
        Some(client) => {
            *told = status_out(client.client().status());
            OK
        }
        None => NO_CLIENT,
    }
}

pub(crate) fn tell_best(
    units: &LeveledUnits,
    unit: u32,
    symbol: &[u8; 8],
    side: u8,
    told: &mut BestOut,
) -> u32
    ensures best { result ≡ code.ok → TellBest units.now unit symbol.now side told.new }
    ensures kept { 1 ≤ result → told.new ≡ told.old }
    ensures answer { result ≡ side_code (side_of side) (client_code (client_of units.now unit)) }
{
    let Some(side) = Side::from_byte(side) else {
        return NO_SIDE;
    };
    match find_client(units, unit) {
        Some(client) => {
            *told = best_out(client.best(Symbol::from_eight(*symbol), side));
            OK
        }
        None => NO_CLIENT,
    }
}

pub(crate) fn tell_order(units: &LeveledUnits, unit: u32, id: u64, told: &mut OrderOut) -> u32
    ensures order { result ≡ code.ok → TellOrder units.now unit id told.new }
    ensures kept { 1 ≤ result → told.new ≡ told.old }
    ensures answer { result ≡ client_code (client_of units.now unit) }
{
    match find_client(units, unit) {
        Some(client) => {
            *told = order_out(client.client().book().order(id));
            OK
        }
        None => NO_CLIENT,
    }
}
