//! A client that goes on following each venue of which it hears only what is so.

ghost use Rattle.std.specs.Prelude.{◌≡◌, ◌≤◌, ◌<◌, ◌+◌, ◌==◌, ◌∷◌, [], ℕ, List, length, drop};
ghost use Rattle.std.specs.Prelude.{false, None, OnOk, IfOk};
ghost use Rattle.std.specs.List.{AllByRecursion};
ghost use Rattle.pitch_fields.specs.Fields.{AreBytes};
ghost use Rattle.unit_packets.specs.Cutting.{blocks_of};
ghost use Rattle.unit_packets.specs.Packing.{bytes_in};
ghost use Rattle.pitch_model.specs.Asking.{ask_of};
ghost use Rattle.pitch_model.specs.History.{Entry, Raw, GrpUp, SpinUp, Advertised, GapReply};
ghost use Rattle.pitch_model.specs.History.{SpinReply, Ticked};
ghost use Rattle.heard_items.specs.Datagrams.{IsVenueBlock, IsPiece, heard_blocks};
ghost use Rattle.heard_items.specs.Heard.{heard_block};
ghost use Rattle.drill_client.specs.layers.Following.{Follows, heard_datagrams};
ghost use Rattle.drill_client.specs.layers.Following.{imaged_whole, ImageParts, FollowsWith};
ghost use Rattle.drill_client.specs.layers.Following.{IsImageOf};

use crate::items::{hear_whole, hear_without_memory};
use client_core::{UnitClient, images_of_bytes_are_images};
use heard_items::Item;
use pitch_fields::{HoldLimit, OutOfMemory};
use pitch_messages::{ByteList, RawList};
use pitch_model::Ask;
use std::alloc::Global;
use unit_packets::{BlockView, Blocks};

/// A client that holds at most `limit` messages. Both its connections are up, and of messages it
/// has heard nothing, so it follows every venue.
pub fn begin(alloc: Global, limit: HoldLimit) -> Result<UnitClient, OutOfMemory>
    ensures { IfOk result (λ client. (V : List Raw)
        → AllByRecursion AreBytes V → Follows client limit V (SpinUp ∷ GrpUp ∷ [])) }
{
    images_of_bytes_are_images();
    let mut client = UnitClient::make(alloc, limit)?;
    hear_without_memory(&mut client, &Item::GrpUp);
    hear_without_memory(&mut client, &Item::SpinUp);
    Ok(client)
}

// Hears a block of the venue's feed.
fn hear_block(client: &mut UnitClient, block: &BlockView<'_>) -> Result<(), OutOfMemory>
    ensures { OnOk result
        ((V : List Raw) (unit : ℕ) → IsVenueBlock V unit block.now
        → FollowsWith client.old client.new V (heard_block block.now)) }
{
    client.hear_block(block.header().sequence, block.raws(), &mut ())?;
    Ok(())
}

/// Hears a datagram. After OutOfMemory it has heard the blocks before the one that wanted memory.
pub fn hear_datagram(client: &mut UnitClient, datagram: &[u8]) -> Result<(), OutOfMemory>
    // Of every venue of whose feed the datagram is a piece: the client goes on following it.
    ensures { OnOk result
        ((V : List Raw) (unit : ℕ) → IsPiece V unit datagram.now
        → FollowsWith client.old client.new V (heard_blocks (blocks_of datagram.now))) }
{
    'pieces: for block in Blocks::of_bytes(datagram) {
        hear_block(client, &block)?;
    }
    Ok(())
}

// Hears datagrams, one after another.
pub(crate) fn hear_datagrams(
    client: &mut UnitClient,
    datagrams: &[ByteList],
) -> Result<(), OutOfMemory>
    // Of every venue of whose feed all of them are pieces: the client goes on following it.
    ensures { OnOk result
        ((V : List Raw) (unit : ℕ) → AllByRecursion (IsPiece V unit) (bytes_in datagrams.now)
        → FollowsWith client.old client.new V (heard_datagrams (bytes_in datagrams.now))) }
{
    'sent: for datagram in datagrams {
        hear_datagram(client, datagram.bytes())?;
    }
    Ok(())
}

// Hears that an image through a sequence can be had ("Spin Image Available Message").
pub(crate) fn hear_advertised(client: &mut UnitClient, sequence: u32)
    // Of every venue that has so many messages: the client goes on following it.
    ensures { (V : List Raw) → sequence ≤ length V → FollowsWith client.old client.new V
        (λ E. Advertised sequence ∷ E) }
{
    images_of_bytes_are_images();
    hear_without_memory(client, &Item::Advertised { sequence });
}

// The status of a reply ("Gap Response Message").
fn status_of(accepted: bool) -> u8
    ensures { (result == 65) ≡ accepted }
{
    if accepted { b'A' } else { b'O' }
}

// Hears whether its gap request was accepted ("Gap Response Message").
pub(crate) fn hear_gap_reply(client: &mut UnitClient, accepted: bool)
    // Of every venue: the client goes on following it.
    ensures { (V : List Raw) → FollowsWith client.old client.new V (λ E. GapReply accepted ∷ E) }
{
    images_of_bytes_are_images();
    let status = status_of(accepted);
    hear_without_memory(
        client,
        &Item::GapReply {
            sequence: 0,
            count: 0,
            status,
        },
    );
}

// Hears an image whole: that it comes and how many orders it has, its messages, and its end
// ("Spin Response Message", "Spin Finished Message"). After OutOfMemory it may have heard the
// first of these.
pub(crate) fn hear_image(
    client: &mut UnitClient,
    sequence: u32,
    orders: u32,
    raws: RawList,
) -> Result<(), OutOfMemory>
    // Of every venue whose image it is: the client goes on following it.
    ensures { OnOk result
        ((V : List Raw)
        → IsImageOf V (record { sequence = sequence; orders = orders; raws = raws.items })
        → FollowsWith client.old client.new V (imaged_whole sequence orders raws.items)) }
{
    images_of_bytes_are_images();
    hear_whole(client, sequence, orders, raws)?;
    Ok(())
}

// Hears that no image through that sequence comes ("Spin Response Message").
pub(crate) fn hear_no_image(client: &mut UnitClient, sequence: u32)
    // Of every venue: the client goes on following it.
    ensures { (V : List Raw) → FollowsWith client.old client.new V
        (λ E. SpinReply sequence 0 false ∷ E) }
{
    images_of_bytes_are_images();
    hear_without_memory(
        client,
        &Item::SpinReply {
            sequence,
            orders: 0,
            status: b'O',
        },
    );
}

// A tick of the client.
fn tick(client: &mut UnitClient) -> Option<Ask>
    ensures { (V : List Raw) (H : ℕ) (E : List Entry) → Follows client.old H V E
        → (result ≡ ask_of H E) × Follows client.new H V (Ticked result ∷ E) }
{
    client.tick()
}

/// Counts a datagram that was heard. With every tenth comes a tick: what the client asks for then,
/// if anything, counts as asked.
pub fn count_datagram(client: &mut UnitClient, count: &mut u8) -> Option<Ask>
    ensures more { count.old < 9
        → (count.new ≡ count.old + 1) × (result ≡ None) × (client.new ≡ client.old) }
    ensures tenth { 9 ≤ count.old → count.new ≡ 0 }
    // Of every venue that it follows: at a tick it asks what a client then asks.
    ensures asks { 9 ≤ count.old → (V : List Raw) (H : ℕ) (E : List Entry) → Follows
        client.old H V E → (result ≡ ask_of H E) × Follows client.new H V (Ticked result ∷ E) }
{
    if *count < 9 {
        *count += 1;
        return None;
    }
    *count = 0;
    tick(client)
}
