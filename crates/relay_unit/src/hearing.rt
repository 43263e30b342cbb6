//! How a relay hears line blocks and Spin Server messages, and what it sends for them.

ghost use Rattle.std.specs.Prelude.{◌≡◌, ◌≢◌, true, OnOk, IfOk, IsTrue, IsFalse, length};
ghost use Rattle.pitch_messages.specs.Raw.{IsRaw, kind_of};
ghost use Rattle.pitch_messages.specs.Session.{session_reads};
ghost use Rattle.pitch_model.specs.History.{Raw as RawBytes};
ghost use Rattle.heard_items.specs.Heard.{heard};
ghost use Rattle.heard_items.specs.Changes.{IsItem, change_of};
ghost use Rattle.client_core.specs.layers.Hearing.{Hears, IsToldBy};
ghost use Rattle.client_core.specs.Weight.{told_by};
ghost use Rattle.relay_unit.specs.layers.Changing.{raw_end, end_or, session_end, merged_change};
ghost use Rattle.relay_unit.specs.Hearing.{is_of_session};
ghost use Rattle.relay_unit.specs.Hearing.{heard_unsequenced, heard_session, heard_merged};
ghost use Rattle.relay_unit.specs.layers.Sending.{IsItemOfRaw, KeepsOn, WeighsNoMore};
ghost use Rattle.relay_unit.specs.layers.Sending.{SendsRelayed, SendsAny, SendsLine};

use client_core::{Change, ImageEnd, Item, UnitClient};
use order_book::image_of;
use pitch_fields::OutOfMemory;
use pitch_messages::session::{SessionError, SessionMessage};
use pitch_messages::{Message, Raw, RawList, Raws, session, write};
use std::alloc::Global;
use unit_packets::BlockView;

// Whether an image was taken.
fn is_taken(image: ImageEnd) -> bool
    ensures taken { IsTrue result → image ≡ ImageEnd.Taken }
    ensures other { IsFalse result → image ≢ ImageEnd.Taken }
{
    match image {
        ImageEnd::Taken => true,
        _ => false,
    }
}

// Hears an item, and appends what is sent for it.
fn hear_item(
    alloc: Global,
    client: &mut UnitClient,
    item: &Item,
    sent: &mut RawList,
) -> Result<Change, OutOfMemory>
    requires { IsItem item.now }
    ensures tracks { OnOk result (Hears client.old client.new (heard item.now)) }
    ensures keeps { OnOk result (KeepsOn client.old client.new (heard item.now)) }
    ensures sends { OnOk result
        (SendsRelayed client.old (heard item.now) sent.old.items sent.new.items) }
    ensures any { OnOk result (SendsAny client.old client.new sent.old.items sent.new.items) }
    ensures change { IfOk result (IsToldBy client.old (λ H E. change_of H E item.now)) }
    ensures weighs { OnOk result
        (WeighsNoMore client.old client.new sent.old.items sent.new.items (told_by item.now)) }
{
    let change = client.hear_into(item, sent)?;
    let taken = is_taken(change.image);
    if taken {
        sent.push(&write(&Message::UnitClear { offset: 0 }))?;
        image_of(alloc, client.book(), sent)?;
    }
    Ok(change)
}

// Whether a message of this type is one of a session, and not of an image.
fn is_of_session(kind: u8) -> bool
    ensures { result ≡ is_of_session kind }
{
    kind == 0x01 || kind == 0x02 || (0x80 <= kind && kind <= 0x83)
}

// The item of a message of a session, where it tells something.
fn item_told(read: Result<SessionMessage, SessionError>) -> Option<Item>
    ensures { (raw : RawBytes) → is_of_session (kind_of raw) ≡ true
        → session_reads raw ≡ read → IsItemOfRaw raw result }
{
    match read {
        Ok(SessionMessage::SpinAvailable { sequence }) => Some(Item::Advertised { sequence }),
        Ok(
            SessionMessage::SpinReply {
                sequence,
                orders,
                status,
            },
        ) => Some(Item::SpinReply {
            sequence,
            orders,
            status,
        }),
        Ok(SessionMessage::SpinFinished { sequence }) => Some(Item::SpinFinished { sequence }),
        _ => None,
    }
}

// The item of an unsequenced message, where it tells something.
fn item_of_raw(alloc: Global, raw: &[u8]) -> Result<Option<Item>, OutOfMemory>
    requires { IsRaw raw.now }
    ensures { IfOk result (IsItemOfRaw raw.now) }
{
    if is_of_session(raw[1]) {
        return Ok(item_told(session::read(&Raw::of(raw))));
    }
    let mut raws = RawList::make(alloc);
    raws.push_bytes(raw)?;
    Ok(Some(Item::ImageMessages { raws }))
}

// Hears an unsequenced message, and appends what is sent for it.
fn hear_raw(
    alloc: Global,
    client: &mut UnitClient,
    raw: &[u8],
    sent: &mut RawList,
) -> Result<ImageEnd, OutOfMemory>
    requires { IsRaw raw.now }
    ensures tracks { OnOk result (Hears client.old client.new (heard_unsequenced raw.now)) }
    ensures keeps { OnOk result (KeepsOn client.old client.new (heard_unsequenced raw.now)) }
    ensures sends { OnOk result
        (SendsRelayed client.old (heard_unsequenced raw.now) sent.old.items sent.new.items) }
    ensures any { OnOk result (SendsAny client.old client.new sent.old.items sent.new.items) }
    ensures end { IfOk result (IsToldBy client.old (λ H E. raw_end H E raw.now)) }
    ensures weighs { OnOk result
        (WeighsNoMore client.old client.new sent.old.items sent.new.items 1) }
{
    let Some(item) = item_of_raw(alloc, raw)? else {
        return Ok(ImageEnd::NoImage);
    };
    let change = hear_item(alloc, client, &item, sent)?;
    Ok(change.image)
}

// The later of two ends of images.
fn end_or(last: ImageEnd, end: ImageEnd) -> ImageEnd
    ensures { result ≡ end_or last end }
{
    match end {
        ImageEnd::NoImage => last,
        _ => end,
    }
}

// Hears unsequenced messages, and appends what is sent for them.
fn hear_session(
    alloc: Global,
    client: &mut UnitClient,
    raws: Raws<'_>,
    sent: &mut RawList,
) -> Result<ImageEnd, OutOfMemory>
    ensures tracks { OnOk result (Hears client.old client.new (heard_session raws.entry)) }
    ensures keeps { OnOk result (KeepsOn client.old client.new (heard_session raws.entry)) }
    ensures sends { OnOk result
        (SendsRelayed client.old (heard_session raws.entry) sent.old.items sent.new.items) }
    ensures any { OnOk result (SendsAny client.old client.new sent.old.items sent.new.items) }
    ensures end { IfOk result
        (IsToldBy client.old (λ H E. session_end H ImageEnd.NoImage raws.entry E)) }
    ensures weighs { OnOk result
        (WeighsNoMore client.old client.new sent.old.items sent.new.items (length raws.entry)) }
{
    let mut raws = raws;
    let mut last = ImageEnd::NoImage;
    'messages: while let Some(raw) = raws.next_raw() {
        let end = hear_raw(alloc, client, raw, sent)?;
        last = end_or(last, end);
    }
    Ok(last)
}

// Hears a block of either kind, and appends what is sent for it.
pub(crate) fn hear_merged(
    alloc: Global,
    client: &mut UnitClient,
    block: &BlockView<'_>,
    sent: &mut RawList,
) -> Result<Change, OutOfMemory>
    ensures tracks { OnOk result (Hears client.old client.new (heard_merged block.now)) }
    ensures keeps { OnOk result (KeepsOn client.old client.new (heard_merged block.now)) }
    ensures sends { OnOk result
        (SendsRelayed client.old (heard_merged block.now) sent.old.items sent.new.items) }
    ensures any { OnOk result (SendsAny client.old client.new sent.old.items sent.new.items) }
    ensures change { IfOk result (IsToldBy client.old (λ H E. merged_change H E block.now)) }
    // Of a block with a sequence, what is sent was applied.
    ensures line { OnOk result
        (SendsLine block.now client.old client.new sent.old.items sent.new.items) }
    ensures weighs { OnOk result
        (WeighsNoMore client.old client.new sent.old.items sent.new.items (length block.now.raws)) }
{
    let sequence = block.header().sequence;
    if sequence == 0 {
        let before = client.status();
        let image = hear_session(alloc, client, block.raws(), sent)?;
        return Ok(Change {
            before,
            after: client.status(),
            fresh: 0,
            overflows: 0,
            image,
        });
    }
    client.hear_block(sequence, block.raws(), sent)
}
