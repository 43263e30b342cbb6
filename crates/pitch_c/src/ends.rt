//! The end of a unit with its sessions, for C.

ghost use Rattle.std.specs.Prelude.{◌≡◌, ◌≤◌, IfErr, IfNone, IfOk, IfSome, None};
ghost use Rattle.std.specs.Option.{IsSomeAnd};
ghost use Rattle.pitch_fields.specs.Side.{side_of};
ghost use Rattle.pitch_c.specs.Codes as code;
ghost use Rattle.pitch_c.specs.Answers.{Answers, side_code};
ghost use Rattle.pitch_c.specs.Ends.{Connects, Cuts, Hears, IsOpened, Sends, Takes, Ticks};
ghost use Rattle.pitch_c.specs.Ends.{TellConnection, TellEndBest, TellEndOrder, TellEndStatus};
ghost use Rattle.pitch_c.specs.Ends.{TellEndLevel, TellEndLevels, TellEndOrders, TellEndStates};
ghost use Rattle.pitch_c.specs.Ends.{HasEndOrders, HasEndSide};
ghost use Rattle.pitch_c.specs.Ends.{open_code, session_code, session_of};

use crate::codes::{BAD_UNIT, CLOSED, IS_OPEN, NO_MEMORY, NO_SESSION, OK};
use crate::end_asking::{
    tell_best, tell_level, tell_levels, tell_order, tell_orders, tell_states, tell_status,
};
use crate::end_handle::{End, opened, take};
use crate::end_reports::{DatagramOut, SentOut};
use crate::hold::hold_of;
use crate::reports::{BestOut, LevelOut, OrderOut, StateOut, StatusOut};
use sending_end::{Account, SendingEnd, Session};
use std::alloc::Global;

// The session of a number.
fn find_session(number: u32) -> Option<Session>
    ensures { result ≡ session_of number }
{
    match number {
        1 => Some(Session::Proxy),
        2 => Some(Session::SpinServer),
        _ => None,
    }
}

// Boxes a new end.
fn boxed(alloc: Global, unit: u32, account: &Account, hold: u32) -> Result<Box<SendingEnd>, u32>
    ensures opened { IfOk result (λ end. IsOpened
        unit hold account.now.sub account.now.user account.now.password end.value) }
    ensures ok { IfOk result (λ end. open_code unit hold ≡ code.ok) }
    ensures answer { IfErr result (λ n. Answers (open_code unit hold) n) }
    ensures err { IfErr result (λ n. 1 ≤ n) }
{
    if unit == 0 || unit > 255 {
        return Err(BAD_UNIT);
    }
    let limit = hold_of(hold)?;
    let Ok(end) = SendingEnd::make(alloc, unit as u8, account, limit) else {
        return Err(NO_MEMORY);
    };
    match Box::new(alloc, end) {
        Ok(boxed) => Ok(boxed),
        Err(_) => Err(NO_MEMORY),
    }
}

fn hear(end: &mut SendingEnd, bytes: &[u8], told: &mut DatagramOut) -> u32
    ensures hears { Hears bytes.now told.new result end.old end.new }
    ensures kept { 1 ≤ result → told.new ≡ told.old }
{
    match end.hear_datagram(bytes) {
        Ok(passed) => {
            *told = DatagramOut {
                heard: passed.heard,
                others: passed.others,
                rest: passed.rest,
                spare: [0; 5],
            };
            OK
        }
        Err(_) => NO_MEMORY,
    }
}

fn connect(end: &mut SendingEnd, session: u32) -> u32
    ensures { Connects session result end.old end.new }
{
    match find_session(session) {
        Some(session) => match end.connected(session) {
            Ok(()) => OK,
            Err(_) => NO_MEMORY,
        },
        None => NO_SESSION,
    }
}

fn take_bytes(end: &mut SendingEnd, session: u32, bytes: &[u8]) -> u32
    ensures { Takes session bytes.now result end.old end.new }
{
    match find_session(session) {
        Some(session) => match end.took(session, bytes) {
            Ok(()) => OK,
            Err(_) => NO_MEMORY,
        },
        None => NO_SESSION,
    }
}

fn cut(end: &mut SendingEnd, session: u32) -> u32
    ensures { Cuts session result end.old end.new }
{
    match find_session(session) {
        Some(session) => {
            end.cut(session);
            OK
        }
        None => NO_SESSION,
    }
}

fn second(end: &mut SendingEnd) -> u32
    ensures { Ticks result end.old end.new }
{
    match end.second() {
        Ok(_ask) => OK,
        Err(_) => NO_MEMORY,
    }
}

fn send(end: &mut SendingEnd, session: u32, into: &mut [u8], told: &mut SentOut) -> u32
    ensures sends { Sends session into.old into.new told.new result end.old end.new }
    ensures kept { 1 ≤ result → (into.new ≡ into.old) × (told.new ≡ told.old) }
{
    match find_session(session) {
        Some(session) => {
            let count = end.send(session, into);
            *told = SentOut {
                count: count as u64,
                left: end.waiting(session) as u64,
                spare: [0; 2],
            };
            OK
        }
        None => NO_SESSION,
    }
}

fn tell_connection(end: &SendingEnd, session: u32, told: &mut u32) -> u32
    ensures tells { result ≡ code.ok → TellConnection end.now session told.new }
    ensures kept { 1 ≤ result → told.new ≡ told.old }
    ensures answer { result ≡ session_code (session_of session) }
{
    match find_session(session) {
        Some(session) => {
            *told = u32::from(end.has(session));
            OK
        }
        None => NO_SESSION,
    }
}

/// Opens an end that is closed, for a unit from 1 to 255. It logs in with the account, and holds at
/// most `hold` messages, from 1 to 65,536.
#[unsafe(no_mangle)]
pub extern "C" fn pitch_c_end_open(
    alloc: Global,
    end: &mut End,
    unit: u32,
    sub: &[u8; 4],
    user: &[u8; 4],
    password: &[u8; 10],
    hold: u32,
) -> u32
    ensures opened { result ≡ code.ok → IsSomeAnd end.new.handle.value
        (λ e. IsOpened unit hold sub.now user.now password.now e) }
    ensures same { 1 ≤ result → end.new.handle.value ≡ end.old.handle.value }
    ensures is_open { IfSome end.old.handle.value (λ e. result ≡ code.is_open) }
    ensures answer { IfNone end.old.handle.value (Answers (open_code unit hold) result) }
{
    if let Some(inner) = take(alloc, end) {
        *end = opened(inner);
        return IS_OPEN;
    }
    let account = Account {
        sub: *sub,
        user: *user,
        password: *password,
    };
    match boxed(alloc, unit, &account, hold) {
        Ok(inner) => {
            *end = opened(inner);
            OK
        }
        Err(code) => code,
    }
}

/// Closes an end, and frees what it has. A closed one stays closed.
#[unsafe(no_mangle)]
pub extern "C" fn pitch_c_end_close(alloc: Global, end: &mut End)
    ensures { end.new.handle.value ≡ None }
{
    drop(take(alloc, end));
}

/// A datagram came on a line: its whole blocks of the unit are heard.
#[unsafe(no_mangle)]
pub extern "C" fn pitch_c_end_hear(
    alloc: Global,
    end: &mut End,
    bytes: &[u8],
    told: &mut DatagramOut,
) -> u32
    ensures kept { 1 ≤ result → told.new ≡ told.old }
    ensures closed { IfNone end.old.handle.value
        ((result ≡ code.closed) × (end.new.handle.value ≡ None)) }
    ensures open { IfSome end.old.handle.value (λ old. IsSomeAnd end.new.handle.value
        (λ new. Hears bytes.now told.new result old new)) }
{
    let Some(mut inner) = take(alloc, end) else {
        return CLOSED;
    };
    let code = hear(&mut inner, bytes, told);
    *end = opened(inner);
    code
}

/// A connection of a session was made; one that stood before has ended.
#[unsafe(no_mangle)]
pub extern "C" fn pitch_c_end_connected(alloc: Global, end: &mut End, session: u32) -> u32
    ensures closed { IfNone end.old.handle.value
        ((result ≡ code.closed) × (end.new.handle.value ≡ None)) }
    ensures open { IfSome end.old.handle.value (λ old. IsSomeAnd end.new.handle.value
        (λ new. Connects session result old new)) }
{
    let Some(mut inner) = take(alloc, end) else {
        return CLOSED;
    };
    let code = connect(&mut inner, session);
    *end = opened(inner);
    code
}

/// Bytes of a session came.
#[unsafe(no_mangle)]
pub extern "C" fn pitch_c_end_took(alloc: Global, end: &mut End, session: u32, bytes: &[u8]) -> u32
    ensures closed { IfNone end.old.handle.value
        ((result ≡ code.closed) × (end.new.handle.value ≡ None)) }
    ensures open { IfSome end.old.handle.value (λ old. IsSomeAnd end.new.handle.value
        (λ new. Takes session bytes.now result old new)) }
{
    let Some(mut inner) = take(alloc, end) else {
        return CLOSED;
    };
    let code = take_bytes(&mut inner, session, bytes);
    *end = opened(inner);
    code
}

/// The connection of a session has ended, where one stood.
#[unsafe(no_mangle)]
pub extern "C" fn pitch_c_end_cut(alloc: Global, end: &mut End, session: u32) -> u32
    ensures closed { IfNone end.old.handle.value
        ((result ≡ code.closed) × (end.new.handle.value ≡ None)) }
    ensures open { IfSome end.old.handle.value (λ old. IsSomeAnd end.new.handle.value
        (λ new. Cuts session result old new)) }
{
    let Some(mut inner) = take(alloc, end) else {
        return CLOSED;
    };
    let code = cut(&mut inner, session);
    *end = opened(inner);
    code
}

/// A second passed.
#[unsafe(no_mangle)]
pub extern "C" fn pitch_c_end_second(alloc: Global, end: &mut End) -> u32
    ensures closed { IfNone end.old.handle.value
        ((result ≡ code.closed) × (end.new.handle.value ≡ None)) }
    ensures open { IfSome end.old.handle.value (λ old. IsSomeAnd end.new.handle.value
        (λ new. Ticks result old new)) }
{
    let Some(mut inner) = take(alloc, end) else {
        return CLOSED;
    };
    let code = second(&mut inner);
    *end = opened(inner);
    code
}

/// Takes the bytes that wait to be sent in a session, as many as fit.
#[unsafe(no_mangle)]
pub extern "C" fn pitch_c_end_send(
    alloc: Global,
    end: &mut End,
    session: u32,
    into: &mut [u8],
    told: &mut SentOut,
) -> u32
    ensures kept { 1 ≤ result → (into.new ≡ into.old) × (told.new ≡ told.old) }
    ensures closed { IfNone end.old.handle.value
        ((result ≡ code.closed) × (end.new.handle.value ≡ None)) }
    ensures open { IfSome end.old.handle.value (λ old. IsSomeAnd end.new.handle.value
        (λ new. Sends session into.old into.new told.new result old new)) }
{
    let Some(mut inner) = take(alloc, end) else {
        return CLOSED;
    };
    let code = send(&mut inner, session, into, told);
    *end = opened(inner);
    code
}

/// Whether a connection of a session stands: 1, or 0.
#[unsafe(no_mangle)]
pub extern "C" fn pitch_c_end_connection(
    alloc: Global,
    end: &mut End,
    session: u32,
    told: &mut u32,
) -> u32
    ensures tells { result ≡ code.ok → IsSomeAnd end.old.handle.value
        (λ e. TellConnection e session told.new) }
    ensures kept { 1 ≤ result → told.new ≡ told.old }
    ensures same { end.new.handle.value ≡ end.old.handle.value }
    ensures closed { IfNone end.old.handle.value (result ≡ code.closed) }
    ensures answer { IfSome end.old.handle.value
        (λ e. result ≡ session_code (session_of session)) }
{
    let Some(inner) = take(alloc, end) else {
        return CLOSED;
    };
    let code = tell_connection(&inner, session, told);
    *end = opened(inner);
    code
}

/// How far the end's client is.
#[unsafe(no_mangle)]
pub extern "C" fn pitch_c_end_status(alloc: Global, end: &mut End, told: &mut StatusOut) -> u32
    ensures status { result ≡ code.ok → IsSomeAnd end.old.handle.value
        (λ e. TellEndStatus e told.new) }
    ensures kept { 1 ≤ result → told.new ≡ told.old }
    ensures same { end.new.handle.value ≡ end.old.handle.value }
    ensures closed { IfNone end.old.handle.value (result ≡ code.closed) }
    ensures answer { IfSome end.old.handle.value (λ e. result ≡ code.ok) }
{
    let Some(inner) = take(alloc, end) else {
        return CLOSED;
    };
    tell_status(&inner, told);
    *end = opened(inner);
    OK
}

/// The best price of a symbol on a side in the end's book.
#[unsafe(no_mangle)]
pub extern "C" fn pitch_c_end_best(
    alloc: Global,
    end: &mut End,
    symbol: &[u8; 8],
    side: u8,
    told: &mut BestOut,
) -> u32
    ensures best { result ≡ code.ok → IsSomeAnd end.old.handle.value
        (λ e. TellEndBest e symbol.now side told.new) }
    ensures kept { 1 ≤ result → told.new ≡ told.old }
    ensures same { end.new.handle.value ≡ end.old.handle.value }
    ensures closed { IfNone end.old.handle.value (result ≡ code.closed) }
    ensures answer { IfSome end.old.handle.value
        (λ e. result ≡ side_code (side_of side) code.ok) }
{
    let Some(inner) = take(alloc, end) else {
        return CLOSED;
    };
    let code = tell_best(&inner, symbol, side, told);
    *end = opened(inner);
    code
}

/// The open order of an id in the end's book.
#[unsafe(no_mangle)]
pub extern "C" fn pitch_c_end_order(
    alloc: Global,
    end: &mut End,
    id: u64,
    told: &mut OrderOut,
) -> u32
    ensures order { result ≡ code.ok → IsSomeAnd end.old.handle.value
        (λ e. TellEndOrder e id told.new) }
    ensures kept { 1 ≤ result → told.new ≡ told.old }
    ensures same { end.new.handle.value ≡ end.old.handle.value }
    ensures closed { IfNone end.old.handle.value (result ≡ code.closed) }
    ensures answer { IfSome end.old.handle.value (λ e. result ≡ code.ok) }
{
    let Some(inner) = take(alloc, end) else {
        return CLOSED;
    };
    tell_order(&inner, id, told);
    *end = opened(inner);
    OK
}

/// The open orders of the end's book by rising id: as many as fit, and how many there are.
#[unsafe(no_mangle)]
pub extern "C" fn pitch_c_end_orders(
    alloc: Global,
    end: &mut End,
    told: &mut [OrderOut],
    number: &mut u64,
) -> u32
    ensures orders { result ≡ code.ok → IsSomeAnd end.old.handle.value
        (λ e. TellEndOrders e told.old told.new number.new) }
    ensures kept { 1 ≤ result → (told.new ≡ told.old) × (number.new ≡ number.old) }
    ensures same { end.new.handle.value ≡ end.old.handle.value }
    ensures closed { IfNone end.old.handle.value (result ≡ code.closed) }
    ensures answer { IfSome end.old.handle.value (λ e. Answers code.ok result) }
    ensures memory { result ≡ code.no_memory → IsSomeAnd end.old.handle.value
        (λ e. HasEndOrders e told.old) }
{
    let Some(inner) = take(alloc, end) else {
        return CLOSED;
    };
    let code = tell_orders(alloc, &inner, told, number);
    *end = opened(inner);
    code
}

/// The trading statuses of the end's book by rising bytes of their symbols: as many as fit, and how
/// many there are.
#[unsafe(no_mangle)]
pub extern "C" fn pitch_c_end_states(
    alloc: Global,
    end: &mut End,
    told: &mut [StateOut],
    number: &mut u64,
) -> u32
    ensures states { result ≡ code.ok → IsSomeAnd end.old.handle.value
        (λ e. TellEndStates e told.old told.new number.new) }
    ensures kept { 1 ≤ result → (told.new ≡ told.old) × (number.new ≡ number.old) }
    ensures same { end.new.handle.value ≡ end.old.handle.value }
    ensures closed { IfNone end.old.handle.value (result ≡ code.closed) }
    ensures answer { IfSome end.old.handle.value (λ e. Answers code.ok result) }
{
    let Some(inner) = take(alloc, end) else {
        return CLOSED;
    };
    let code = tell_states(alloc, &inner, told, number);
    *end = opened(inner);
    code
}

/// The levels of a symbol on a side in the end's book, the best first: as many as fit, and how many
/// there are.
#[unsafe(no_mangle)]
pub extern "C" fn pitch_c_end_levels(
    alloc: Global,
    end: &mut End,
    symbol: &[u8; 8],
    side: u8,
    told: &mut [LevelOut],
    number: &mut u64,
) -> u32
    ensures levels { result ≡ code.ok → IsSomeAnd end.old.handle.value
        (λ e. TellEndLevels e symbol.now side told.old told.new number.new) }
    ensures kept { 1 ≤ result → (told.new ≡ told.old) × (number.new ≡ number.old) }
    ensures same { end.new.handle.value ≡ end.old.handle.value }
    ensures closed { IfNone end.old.handle.value (result ≡ code.closed) }
    ensures answer { IfSome end.old.handle.value
        (λ e. Answers (side_code (side_of side) code.ok) result) }
    ensures memory { result ≡ code.no_memory → IsSomeAnd end.old.handle.value
        (λ e. HasEndSide e symbol.now side) }
{
    let Some(inner) = take(alloc, end) else {
        return CLOSED;
    };
    let code = tell_levels(alloc, &inner, symbol, side, told, number);
    *end = opened(inner);
    code
}

/// The shares of the open orders for a symbol on a side at a price, 0 where none is open there.
#[unsafe(no_mangle)]
pub extern "C" fn pitch_c_end_level(
    alloc: Global,
    end: &mut End,
    symbol: &[u8; 8],
    side: u8,
    price: u64,
    told: &mut LevelOut,
) -> u32
    ensures level { result ≡ code.ok → IsSomeAnd end.old.handle.value
        (λ e. TellEndLevel e symbol.now side price told.new) }
    ensures kept { 1 ≤ result → told.new ≡ told.old }
    ensures same { end.new.handle.value ≡ end.old.handle.value }
    ensures closed { IfNone end.old.handle.value (result ≡ code.closed) }
    ensures answer { IfSome end.old.handle.value
        (λ e. result ≡ side_code (side_of side) code.ok) }
{
    let Some(inner) = take(alloc, end) else {
        return CLOSED;
    };
    let code = tell_level(&inner, symbol, side, price, told);
    *end = opened(inner);
    code
}
