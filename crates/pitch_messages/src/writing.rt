//! From a message's fields to its bytes, type by type; it undoes the reading.
#![tactic(auto, using(crate::proofs::RoundTrip::laid))]

ghost use Rattle.std.specs.Prelude.{◌≡◌, length};
ghost use Rattle.pitch_messages.specs.Fields.{number_bytes};
ghost use Rattle.pitch_messages.specs.Reading.{reads};
ghost use Rattle.pitch_messages.specs.Writing.{written};
ghost use Rattle.pitch_messages.specs.layers.Rewriting.{HasItsVariant};
ghost use Rattle.pitch_messages.specs.declared.message.Message.TheVariants as messages;

use crate::message::Message;
use crate::raw::Raw;
use pitch_fields::Side;

// The two bytes of a number.
#[inline(always)]
#[tactic(auto, unfolding(crate::specs::Fields::number_bytes))]
fn two(number: u16) -> [u8; 2]
    ensures { result ≡ number_bytes 2 number }
{
    number.to_le_bytes()
}

// The four bytes of a number.
#[inline(always)]
#[tactic(auto, unfolding(crate::specs::Fields::number_bytes))]
fn four(number: u32) -> [u8; 4]
    ensures { result ≡ number_bytes 4 number }
{
    number.to_le_bytes()
}

// The eight bytes of a number.
#[inline(always)]
#[tactic(auto, unfolding(crate::specs::Fields::number_bytes))]
fn eight(number: u64) -> [u8; 8]
    ensures { result ≡ number_bytes 8 number }
{
    number.to_le_bytes()
}

fn time_raw(second: u32) -> Raw
    ensures { result ≡ written (messages.Time second) }
{
    Raw::of_fields(0x20, &[&four(second)])
}

fn add_long_raw(
    offset: u32,
    id: u64,
    side: Side,
    quantity: u32,
    symbol: [u8; 6],
    price: u64,
    flags: u8,
) -> Raw
    ensures written { result ≡ written
        (messages.AddLong offset id side quantity symbol price flags) }
    ensures symbol { length symbol ≡ 6 }
{
    Raw::of_fields(
        0x21,
        &[
            &four(offset),
            &eight(id),
            &[side.byte()],
            &four(quantity),
            &symbol,
            &eight(price),
            &[flags],
        ],
    )
}

fn add_short_raw(
    offset: u32,
    id: u64,
    side: Side,
    quantity: u16,
    symbol: [u8; 6],
    price: u16,
    flags: u8,
) -> Raw
    ensures written { result ≡ written
        (messages.AddShort offset id side quantity symbol price flags) }
    ensures symbol { length symbol ≡ 6 }
{
    Raw::of_fields(
        0x22,
        &[
            &four(offset),
            &eight(id),
            &[side.byte()],
            &two(quantity),
            &symbol,
            &two(price),
            &[flags],
        ],
    )
}

fn executed_raw(offset: u32, id: u64, executed: u32, execution: u64) -> Raw
    ensures { result ≡ written (messages.Executed offset id executed execution) }
{
    Raw::of_fields(
        0x23,
        &[
            &four(offset),
            &eight(id),
            &four(executed),
            &eight(execution),
        ],
    )
}

fn executed_at_raw(
    offset: u32,
    id: u64,
    executed: u32,
    remaining: u32,
    execution: u64,
    price: u64,
) -> Raw
    ensures { result ≡ written (messages.ExecutedAt offset id executed remaining execution price) }
{
    Raw::of_fields(
        0x24,
        &[
            &four(offset),
            &eight(id),
            &four(executed),
            &four(remaining),
            &eight(execution),
            &eight(price),
        ],
    )
}

fn reduce_long_raw(offset: u32, id: u64, quantity: u32) -> Raw
    ensures { result ≡ written (messages.ReduceLong offset id quantity) }
{
    Raw::of_fields(0x25, &[&four(offset), &eight(id), &four(quantity)])
}

fn reduce_short_raw(offset: u32, id: u64, quantity: u16) -> Raw
    ensures { result ≡ written (messages.ReduceShort offset id quantity) }
{
    Raw::of_fields(0x26, &[&four(offset), &eight(id), &two(quantity)])
}

fn modify_long_raw(offset: u32, id: u64, quantity: u32, price: u64, flags: u8) -> Raw
    ensures { result ≡ written (messages.ModifyLong offset id quantity price flags) }
{
    Raw::of_fields(
        0x27,
        &[
            &four(offset),
            &eight(id),
            &four(quantity),
            &eight(price),
            &[flags],
        ],
    )
}

fn modify_short_raw(offset: u32, id: u64, quantity: u16, price: u16, flags: u8) -> Raw
    ensures { result ≡ written (messages.ModifyShort offset id quantity price flags) }
{
    Raw::of_fields(
        0x28,
        &[
            &four(offset),
            &eight(id),
            &two(quantity),
            &two(price),
            &[flags],
        ],
    )
}

fn delete_raw(offset: u32, id: u64) -> Raw
    ensures { result ≡ written (messages.Delete offset id) }
{
    Raw::of_fields(0x29, &[&four(offset), &eight(id)])
}

fn trade_long_raw(
    offset: u32,
    id: u64,
    side: Side,
    quantity: u32,
    symbol: [u8; 6],
    price: u64,
    execution: u64,
) -> Raw
    ensures written { result ≡ written
        (messages.TradeLong offset id side quantity symbol price execution) }
    ensures symbol { length symbol ≡ 6 }
{
    Raw::of_fields(
        0x2a,
        &[
            &four(offset),
            &eight(id),
            &[side.byte()],
            &four(quantity),
            &symbol,
            &eight(price),
            &eight(execution),
        ],
    )
}

fn trade_short_raw(
    offset: u32,
    id: u64,
    side: Side,
    quantity: u16,
    symbol: [u8; 6],
    price: u16,
    execution: u64,
) -> Raw
    ensures written { result ≡ written
        (messages.TradeShort offset id side quantity symbol price execution) }
    ensures symbol { length symbol ≡ 6 }
{
    Raw::of_fields(
        0x2b,
        &[
            &four(offset),
            &eight(id),
            &[side.byte()],
            &two(quantity),
            &symbol,
            &two(price),
            &eight(execution),
        ],
    )
}

fn trade_break_raw(offset: u32, execution: u64) -> Raw
    ensures { result ≡ written (messages.TradeBreak offset execution) }
{
    Raw::of_fields(0x2c, &[&four(offset), &eight(execution)])
}

fn end_of_session_raw(offset: u32) -> Raw
    ensures { result ≡ written (messages.EndOfSession offset) }
{
    Raw::of_fields(0x2d, &[&four(offset)])
}

fn add_expanded_raw(
    offset: u32,
    id: u64,
    side: Side,
    quantity: u32,
    symbol: [u8; 8],
    price: u64,
    flags: u8,
    participant: [u8; 4],
) -> Raw
    ensures written { result ≡ written
        (messages.AddExpanded offset id side quantity symbol price flags participant) }
    ensures symbol { length symbol ≡ 8 }
    ensures participant { length participant ≡ 4 }
{
    Raw::of_fields(
        0x2f,
        &[
            &four(offset),
            &eight(id),
            &[side.byte()],
            &four(quantity),
            &symbol,
            &eight(price),
            &[flags],
            &participant,
        ],
    )
}

fn trade_expanded_raw(
    offset: u32,
    id: u64,
    side: Side,
    quantity: u32,
    symbol: [u8; 8],
    price: u64,
    execution: u64,
) -> Raw
    ensures written { result ≡ written
        (messages.TradeExpanded offset id side quantity symbol price execution) }
    ensures symbol { length symbol ≡ 8 }
{
    Raw::of_fields(
        0x30,
        &[
            &four(offset),
            &eight(id),
            &[side.byte()],
            &four(quantity),
            &symbol,
            &eight(price),
            &eight(execution),
        ],
    )
}

fn trading_status_raw(offset: u32, symbol: [u8; 8], halt: u8, sho: u8) -> Raw
    ensures written { result ≡ written (messages.TradingStatus offset symbol halt sho) }
    ensures symbol { length symbol ≡ 8 }
{
    Raw::of_fields(0x31, &[&four(offset), &symbol, &[halt, sho], b"  "])
}

fn unit_clear_raw(offset: u32) -> Raw
    ensures { result ≡ written (messages.UnitClear offset) }
{
    Raw::of_fields(0x97, &[&four(offset)])
}

/// The raw of a message: its length, its type and its fields, end to end. A raw under Other is
/// itself.
// It is inlined where a message is made, so that one form alone is left and no raw is copied on its
// way.
#[inline(always)]
#[tactic(auto, using(crate::proofs::RoundTrip::message_back))]
pub fn write(message: &Message) -> Raw
    ensures written { result ≡ written message.now }
    ensures reads_back { HasItsVariant message.now → reads result ≡ Ok message.now }
{
    match message {
        Message::Time { second } => time_raw(*second),
        Message::AddLong {
            offset,
            id,
            side,
            quantity,
            symbol,
            price,
            flags,
        } => add_long_raw(*offset, *id, *side, *quantity, *symbol, *price, *flags),
        Message::AddShort {
            offset,
            id,
            side,
            quantity,
            symbol,
            price,
            flags,
        } => add_short_raw(*offset, *id, *side, *quantity, *symbol, *price, *flags),
        Message::Executed {
            offset,
            id,
            executed,
            execution,
        } => executed_raw(*offset, *id, *executed, *execution),
        Message::ExecutedAt {
            offset,
            id,
            executed,
            remaining,
            execution,
            price,
        } => executed_at_raw(*offset, *id, *executed, *remaining, *execution, *price),
        Message::ReduceLong {
            offset,
            id,
            quantity,
        } => reduce_long_raw(*offset, *id, *quantity),
        Message::ReduceShort {
            offset,
            id,
            quantity,
        } => reduce_short_raw(*offset, *id, *quantity),
        Message::ModifyLong {
            offset,
            id,
            quantity,
            price,
            flags,
        } => modify_long_raw(*offset, *id, *quantity, *price, *flags),
        Message::ModifyShort {
            offset,
            id,
            quantity,
            price,
            flags,
        } => modify_short_raw(*offset, *id, *quantity, *price, *flags),
        Message::Delete { offset, id } => delete_raw(*offset, *id),
        Message::TradeLong {
            offset,
            id,
            side,
            quantity,
            symbol,
            price,
            execution,
        } => trade_long_raw(*offset, *id, *side, *quantity, *symbol, *price, *execution),
        Message::TradeShort {
            offset,
            id,
            side,
            quantity,
            symbol,
            price,
            execution,
        } => trade_short_raw(*offset, *id, *side, *quantity, *symbol, *price, *execution),
        Message::TradeBreak { offset, execution } => trade_break_raw(*offset, *execution),
        Message::EndOfSession { offset } => end_of_session_raw(*offset),
        Message::AddExpanded {
            offset,
            id,
            side,
            quantity,
            symbol,
            price,
            flags,
            participant,
        } => add_expanded_raw(
            *offset,
            *id,
            *side,
            *quantity,
            *symbol,
            *price,
            *flags,
            *participant,
        ),
        Message::TradeExpanded {
            offset,
            id,
            side,
            quantity,
            symbol,
            price,
            execution,
        } => trade_expanded_raw(*offset, *id, *side, *quantity, *symbol, *price, *execution),
        Message::TradingStatus {
            offset,
            symbol,
            halt,
            sho,
        } => trading_status_raw(*offset, *symbol, *halt, *sho),
        Message::UnitClear { offset } => unit_clear_raw(*offset),
        Message::Other(raw) => raw.copy(),
    }
}
