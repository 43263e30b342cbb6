//! From the bytes of a raw message to its fields, type by type.
#![tactic(auto, using(crate::proofs::Rows::whole, crate::proofs::Rows::whole_says))]

ghost use Rattle.std.specs.Prelude.{◌≡◌, ℕ, ◌+◌, ◌≤◌, Some, length, slice_index, IfOk, IfErr, OnOk};
ghost use Rattle.std.specs.Option.{option_map};
ghost use Rattle.pitch_fields.specs.Side.{side_of};
ghost use Rattle.pitch_messages.specs.Raw.{IsRaw, kind_of};
ghost use Rattle.pitch_messages.specs.declared.message.ReadError.TheVariants.{BadSide};
ghost use Rattle.pitch_messages.specs.Fields.{bytes_at};
ghost use Rattle.pitch_messages.specs.Table.{IsWhole, needs};
ghost use Rattle.pitch_messages.specs.Writing.{written};
ghost use Rattle.pitch_messages.specs.layers.Rewriting.{with_reserved_blank};
ghost use Rattle.pitch_messages.specs.Reading.{needs_of, extra_of, reads, row_of};

use crate::message::{Message, ReadError};
use crate::raw::Raw;
use pitch_fields::{Side, get_u16, get_u32, get_u64};

// The four bytes from a place.
#[inline(always)]
pub(crate) fn four_at(bytes: &[u8], at: usize) -> [u8; 4]
    requires { at + 4 ≤ length bytes.now }
    ensures { result ≡ bytes_at 4 at bytes.now }
{
    [bytes[at], bytes[at + 1], bytes[at + 2], bytes[at + 3]]
}

// The six bytes from a place.
#[inline(always)]
fn six_at(bytes: &[u8], at: usize) -> [u8; 6]
    requires { at + 6 ≤ length bytes.now }
    ensures { result ≡ bytes_at 6 at bytes.now }
{
    [
        bytes[at],
        bytes[at + 1],
        bytes[at + 2],
        bytes[at + 3],
        bytes[at + 4],
        bytes[at + 5],
    ]
}

// The eight bytes from a place.
#[inline(always)]
fn eight_at(bytes: &[u8], at: usize) -> [u8; 8]
    requires { at + 8 ≤ length bytes.now }
    ensures { result ≡ bytes_at 8 at bytes.now }
{
    [
        bytes[at],
        bytes[at + 1],
        bytes[at + 2],
        bytes[at + 3],
        bytes[at + 4],
        bytes[at + 5],
        bytes[at + 6],
        bytes[at + 7],
    ]
}

// The side of the byte at place 14.
#[inline(always)]
fn side_at(bytes: &[u8]) -> Result<Side, ReadError>
    requires { 15 ≤ length bytes.now }
    ensures ok { IfOk result (λ side. side_of (slice_index bytes.now 14) ≡ Some side) }
    ensures err { IfErr result (λ e.
        (side_of (slice_index bytes.now 14) ≡ None) × (e ≡ BadSide (slice_index bytes.now 14))) }
{
    match Side::from_byte(bytes[14]) {
        Some(side) => Ok(side),
        None => Err(ReadError::BadSide { byte: bytes[14] }),
    }
}

#[inline(always)]
fn time(bytes: &[u8]) -> Result<Message, ReadError>
    requires { IsWhole row_of 0x20 bytes.now }
    ensures { result ≡ reads bytes.now }
{
    Ok(Message::Time {
        second: get_u32(bytes, 2),
    })
}

#[inline(always)]
fn add_long(bytes: &[u8]) -> Result<Message, ReadError>
    requires { IsWhole row_of 0x21 bytes.now }
    ensures { result ≡ reads bytes.now }
{
    let side = side_at(bytes)?;
    Ok(Message::AddLong {
        offset: get_u32(bytes, 2),
        id: get_u64(bytes, 6),
        side,
        quantity: get_u32(bytes, 15),
        symbol: six_at(bytes, 19),
        price: get_u64(bytes, 25),
        flags: bytes[33],
    })
}

#[inline(always)]
fn add_short(bytes: &[u8]) -> Result<Message, ReadError>
    requires { IsWhole row_of 0x22 bytes.now }
    ensures { result ≡ reads bytes.now }
{
    let side = side_at(bytes)?;
    Ok(Message::AddShort {
        offset: get_u32(bytes, 2),
        id: get_u64(bytes, 6),
        side,
        quantity: get_u16(bytes, 15),
        symbol: six_at(bytes, 17),
        price: get_u16(bytes, 23),
        flags: bytes[25],
    })
}

#[inline(always)]
fn executed(bytes: &[u8]) -> Result<Message, ReadError>
    requires { IsWhole row_of 0x23 bytes.now }
    ensures { result ≡ reads bytes.now }
{
    Ok(Message::Executed {
        offset: get_u32(bytes, 2),
        id: get_u64(bytes, 6),
        executed: get_u32(bytes, 14),
        execution: get_u64(bytes, 18),
    })
}

#[inline(always)]
fn executed_at(bytes: &[u8]) -> Result<Message, ReadError>
    requires { IsWhole row_of 0x24 bytes.now }
    ensures { result ≡ reads bytes.now }
{
    Ok(Message::ExecutedAt {
        offset: get_u32(bytes, 2),
        id: get_u64(bytes, 6),
        executed: get_u32(bytes, 14),
        remaining: get_u32(bytes, 18),
        execution: get_u64(bytes, 22),
        price: get_u64(bytes, 30),
    })
}

#[inline(always)]
fn reduce_long(bytes: &[u8]) -> Result<Message, ReadError>
    requires { IsWhole row_of 0x25 bytes.now }
    ensures { result ≡ reads bytes.now }
{
    Ok(Message::ReduceLong {
        offset: get_u32(bytes, 2),
        id: get_u64(bytes, 6),
        quantity: get_u32(bytes, 14),
    })
}

#[inline(always)]
fn reduce_short(bytes: &[u8]) -> Result<Message, ReadError>
    requires { IsWhole row_of 0x26 bytes.now }
    ensures { result ≡ reads bytes.now }
{
    Ok(Message::ReduceShort {
        offset: get_u32(bytes, 2),
        id: get_u64(bytes, 6),
        quantity: get_u16(bytes, 14),
    })
}

#[inline(always)]
fn modify_long(bytes: &[u8]) -> Result<Message, ReadError>
    requires { IsWhole row_of 0x27 bytes.now }
    ensures { result ≡ reads bytes.now }
{
    Ok(Message::ModifyLong {
        offset: get_u32(bytes, 2),
        id: get_u64(bytes, 6),
        quantity: get_u32(bytes, 14),
        price: get_u64(bytes, 18),
        flags: bytes[26],
    })
}

#[inline(always)]
fn modify_short(bytes: &[u8]) -> Result<Message, ReadError>
    requires { IsWhole row_of 0x28 bytes.now }
    ensures { result ≡ reads bytes.now }
{
    Ok(Message::ModifyShort {
        offset: get_u32(bytes, 2),
        id: get_u64(bytes, 6),
        quantity: get_u16(bytes, 14),
        price: get_u16(bytes, 16),
        flags: bytes[18],
    })
}

#[inline(always)]
fn delete(bytes: &[u8]) -> Result<Message, ReadError>
    requires { IsWhole row_of 0x29 bytes.now }
    ensures { result ≡ reads bytes.now }
{
    Ok(Message::Delete {
        offset: get_u32(bytes, 2),
        id: get_u64(bytes, 6),
    })
}

#[inline(always)]
fn trade_long(bytes: &[u8]) -> Result<Message, ReadError>
    requires { IsWhole row_of 0x2a bytes.now }
    ensures { result ≡ reads bytes.now }
{
    let side = side_at(bytes)?;
    Ok(Message::TradeLong {
        offset: get_u32(bytes, 2),
        id: get_u64(bytes, 6),
        side,
        quantity: get_u32(bytes, 15),
        symbol: six_at(bytes, 19),
        price: get_u64(bytes, 25),
        execution: get_u64(bytes, 33),
    })
}

#[inline(always)]
fn trade_short(bytes: &[u8]) -> Result<Message, ReadError>
    requires { IsWhole row_of 0x2b bytes.now }
    ensures { result ≡ reads bytes.now }
{
    let side = side_at(bytes)?;
    Ok(Message::TradeShort {
        offset: get_u32(bytes, 2),
        id: get_u64(bytes, 6),
        side,
        quantity: get_u16(bytes, 15),
        symbol: six_at(bytes, 17),
        price: get_u16(bytes, 23),
        execution: get_u64(bytes, 25),
    })
}

#[inline(always)]
fn trade_break(bytes: &[u8]) -> Result<Message, ReadError>
    requires { IsWhole row_of 0x2c bytes.now }
    ensures { result ≡ reads bytes.now }
{
    Ok(Message::TradeBreak {
        offset: get_u32(bytes, 2),
        execution: get_u64(bytes, 6),
    })
}

#[inline(always)]
fn end_of_session(bytes: &[u8]) -> Result<Message, ReadError>
    requires { IsWhole row_of 0x2d bytes.now }
    ensures { result ≡ reads bytes.now }
{
    Ok(Message::EndOfSession {
        offset: get_u32(bytes, 2),
    })
}

#[inline(always)]
fn add_expanded(bytes: &[u8]) -> Result<Message, ReadError>
    requires { IsWhole row_of 0x2f bytes.now }
    ensures { result ≡ reads bytes.now }
{
    let side = side_at(bytes)?;
    Ok(Message::AddExpanded {
        offset: get_u32(bytes, 2),
        id: get_u64(bytes, 6),
        side,
        quantity: get_u32(bytes, 15),
        symbol: eight_at(bytes, 19),
        price: get_u64(bytes, 27),
        flags: bytes[35],
        participant: four_at(bytes, 36),
    })
}

#[inline(always)]
fn trade_expanded(bytes: &[u8]) -> Result<Message, ReadError>
    requires { IsWhole row_of 0x30 bytes.now }
    ensures { result ≡ reads bytes.now }
{
    let side = side_at(bytes)?;
    Ok(Message::TradeExpanded {
        offset: get_u32(bytes, 2),
        id: get_u64(bytes, 6),
        side,
        quantity: get_u32(bytes, 15),
        symbol: eight_at(bytes, 19),
        price: get_u64(bytes, 27),
        execution: get_u64(bytes, 35),
    })
}

#[inline(always)]
fn trading_status(bytes: &[u8]) -> Result<Message, ReadError>
    requires { IsWhole row_of 0x31 bytes.now }
    ensures { result ≡ reads bytes.now }
{
    Ok(Message::TradingStatus {
        offset: get_u32(bytes, 2),
        symbol: eight_at(bytes, 6),
        halt: bytes[14],
        sho: bytes[15],
    })
}

#[inline(always)]
fn unit_clear(bytes: &[u8]) -> Result<Message, ReadError>
    requires { IsWhole row_of 0x97 bytes.now }
    ensures { result ≡ reads bytes.now }
{
    Ok(Message::UnitClear {
        offset: get_u32(bytes, 2),
    })
}

// How many bytes a message of a type needs, where the type is known.
#[inline(always)]
fn needs_of(kind: u8) -> Option<u8>
    ensures { result ≡ option_map (λ row. needs row) (row_of kind) }
{
    match kind {
        0x20 => Some(6),
        0x21 => Some(34),
        0x22 => Some(26),
        0x23 => Some(26),
        0x24 => Some(38),
        0x25 => Some(18),
        0x26 => Some(16),
        0x27 => Some(27),
        0x28 => Some(19),
        0x29 => Some(14),
        0x2a => Some(41),
        0x2b => Some(33),
        0x2c => Some(14),
        0x2d => Some(6),
        0x2f => Some(40),
        0x30 => Some(43),
        0x31 => Some(18),
        0x97 => Some(6),
        _ => None,
    }
}

/// How many bytes a message of a known type has beyond those that its type needs, as one of a later
/// edition of the feed may; 0 where its type is not known.
#[inline]
pub fn extra_bytes(raw: &[u8]) -> usize
    requires { IsRaw raw.now }
    ensures { result ≡ extra_of raw.now }
{
    match needs_of(raw[1]) {
        Some(needs) => raw.len().saturating_sub(usize::from(needs)),
        None => 0,
    }
}

// Whether a message has the bytes that its type needs.
#[inline(always)]
fn long_enough(kind: u8, bytes: &[u8]) -> Result<(), ReadError>
    requires raw { IsRaw bytes.now }
    requires kind { kind ≡ kind_of bytes.now }
    ensures ok { OnOk result (needs_of (kind_of bytes.now) ≤ length bytes.now) }
    ensures err { IfErr result (λ e. reads bytes.now ≡ Err e) }
{
    match needs_of(kind) {
        Some(needs) if bytes.len() < usize::from(needs) => Err(ReadError::Short {
            needs,
            has: bytes[0],
        }),
        _ => Ok(()),
    }
}

/// The message of the bytes of a raw of this type, as `read_bytes` says it.
///
/// Where the type is a literal, one form alone is read: nothing is left of the choice among them,
/// nor of a message that may be of any form.
#[inline(always)]
pub fn read_as(kind: u8, bytes: &[u8]) -> Result<Message, ReadError>
    requires raw { IsRaw bytes.now }
    requires kind { kind ≡ kind_of bytes.now }
    ensures { result ≡ reads bytes.now }
{
    long_enough(kind, bytes)?;
    match kind {
        0x20 => time(bytes),
        0x21 => add_long(bytes),
        0x22 => add_short(bytes),
        0x23 => executed(bytes),
        0x24 => executed_at(bytes),
        0x25 => reduce_long(bytes),
        0x26 => reduce_short(bytes),
        0x27 => modify_long(bytes),
        0x28 => modify_short(bytes),
        0x29 => delete(bytes),
        0x2a => trade_long(bytes),
        0x2b => trade_short(bytes),
        0x2c => trade_break(bytes),
        0x2d => end_of_session(bytes),
        0x2f => add_expanded(bytes),
        0x30 => trade_expanded(bytes),
        0x31 => trading_status(bytes),
        0x97 => unit_clear(bytes),
        _ => Ok(Message::Other(Raw::of(bytes))),
    }
}

/// The message of a raw's bytes.
///
/// Short where its type is known and needs more bytes, BadSide where it has them and its side is
/// neither `B` nor `S`. Bytes past those that its type needs are ignored, and a message of an
/// unknown type is Other.
#[inline]
pub fn read_bytes(bytes: &[u8]) -> Result<Message, ReadError>
    requires { IsRaw bytes.now }
    ensures { result ≡ reads bytes.now }
{
    read_as(bytes[1], bytes)
}

/// The message of a raw, as `read_bytes` says it.
///
/// A raw of just the length that its type needs is what `write` makes of its message, but for the
/// reserved bytes of a Trading Status, which `write` makes spaces.
pub fn read(raw: &Raw) -> Result<Message, ReadError>
    ensures said { result ≡ reads raw.now }
    ensures rewritten { IfOk result
        (λ message. length raw.now ≡ needs_of (kind_of raw.now)
        → with_reserved_blank raw.now ≡ written message) }
{
    let bytes = raw.bytes();
    read_bytes(bytes)
}
