//! What an end tells of its status and its book.

ghost use Rattle.std.specs.Prelude.{◌≡◌, ◌≤◌};
ghost use Rattle.pitch_fields.specs.Side.{side_of};
ghost use Rattle.pitch_c.specs.Codes as code;
ghost use Rattle.pitch_c.specs.Answers.{Answers, side_code};
ghost use Rattle.pitch_c.specs.Ends.{TellEndBest, TellEndLevel, TellEndOrder, TellEndStatus};
ghost use Rattle.pitch_c.specs.Ends.{TellEndLevels, TellEndOrders, TellEndStates};
ghost use Rattle.pitch_c.specs.Ends.{HasEndOrders, HasEndSide};

use crate::codes::{NO_SIDE, OK};
use crate::levels::lay_levels;
use crate::lists::{list_orders, list_states};
use crate::reports::{
    BestOut, LevelOut, OrderOut, StateOut, StatusOut, best_out, level_out, order_out, status_out,
};
use pitch_fields::{Price, Side, Symbol};
use sending_end::SendingEnd;
use std::alloc::Global;

pub(crate) fn tell_status(end: &SendingEnd, told: &mut StatusOut)
    ensures { TellEndStatus end.now told.new }
{
    *told = status_out(end.status());
}

pub(crate) fn tell_best(end: &SendingEnd, symbol: &[u8; 8], side: u8, told: &mut BestOut) -> u32
    ensures best { result ≡ code.ok → TellEndBest end.now symbol.now side told.new }
    ensures kept { 1 ≤ result → told.new ≡ told.old }
    ensures answer { result ≡ side_code (side_of side) code.ok }
{
    let Some(side) = Side::from_byte(side) else {
        return NO_SIDE;
    };
    *told = best_out(end.book().best(Symbol::from_eight(*symbol), side));
    OK
}

pub(crate) fn tell_order(end: &SendingEnd, id: u64, told: &mut OrderOut)
    ensures { TellEndOrder end.now id told.new }
{
    *told = order_out(end.book().order(id));
}

pub(crate) fn tell_orders(
    alloc: Global,
    end: &SendingEnd,
    told: &mut [OrderOut],
    number: &mut u64,
) -> u32
    ensures orders { result ≡ code.ok → TellEndOrders end.now told.old told.new number.new }
    ensures kept { 1 ≤ result → (told.new ≡ told.old) × (number.new ≡ number.old) }
    ensures answer { Answers code.ok result }
    ensures memory { result ≡ code.no_memory → HasEndOrders end.now told.old }
{
    list_orders(alloc, end.book(), told, number)
}

pub(crate) fn tell_states(
    alloc: Global,
    end: &SendingEnd,
    told: &mut [StateOut],
    number: &mut u64,
) -> u32
    ensures states { result ≡ code.ok → TellEndStates end.now told.old told.new number.new }
    ensures kept { 1 ≤ result → (told.new ≡ told.old) × (number.new ≡ number.old) }
    ensures answer { Answers code.ok result }
{
    list_states(alloc, end.book(), told, number)
}

pub(crate) fn tell_levels(
    alloc: Global,
    end: &SendingEnd,
    symbol: &[u8; 8],
    side: u8,
    told: &mut [LevelOut],
    number: &mut u64,
) -> u32
    ensures levels { result ≡ code.ok
        → TellEndLevels end.now symbol.now side told.old told.new number.new }
    ensures kept { 1 ≤ result → (told.new ≡ told.old) × (number.new ≡ number.old) }
    ensures answer { Answers (side_code (side_of side) code.ok) result }
    ensures memory { result ≡ code.no_memory → HasEndSide end.now symbol.now side }
{
    match Side::from_byte(side) {
        Some(side) => {
            let symbol = Symbol::from_eight(*symbol);
            lay_levels(alloc, end.book(), symbol, side, told, number)
        }
        None => NO_SIDE,
    }
}

pub(crate) fn tell_level(
    end: &SendingEnd,
    symbol: &[u8; 8],
    side: u8,
    price: u64,
    told: &mut LevelOut,
) -> u32
    ensures level { result ≡ code.ok → TellEndLevel end.now symbol.now side price told.new }
    ensures kept { 1 ≤ result → told.new ≡ told.old }
    ensures answer { result ≡ side_code (side_of side) code.ok }
{
    let Some(side) = Side::from_byte(side) else {
        return NO_SIDE;
    };
    let price = Price::from_long(price);
    let shares = end.book().level(Symbol::from_eight(*symbol), side, price);
    *told = level_out((price, shares));
    OK
}
