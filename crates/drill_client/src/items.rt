//! What a client hears: an item for which it needs no memory, and an image as one thing.

ghost use Rattle.std.specs.Prelude.{ℕ, List, OnOk};
ghost use Rattle.pitch_model.specs.History.{Entry, Raw};
ghost use Rattle.pitch_model.specs.Honest.{Honest};
ghost use Rattle.heard_items.specs.Heard.{heard};
ghost use Rattle.heard_items.specs.Changes.{IsItem};
ghost use Rattle.client_core.specs.layers.Hearing.{Hears, KeepsImaged};
ghost use Rattle.client_core.specs.Venues.{IsImage};
ghost use Rattle.client_core.specs.layers.Items.{NeedsNoMemory};
ghost use Rattle.client_core.specs.Tracks.{Tracks, Keeps};
ghost use Rattle.client_core.specs.Client.{held_number, spare_of};
ghost use Rattle.drill_client.specs.layers.Following.{imaged_whole};

use client_core::UnitClient;
use heard_items::Item;
use pitch_fields::OutOfMemory;
use pitch_messages::RawList;

// Hears an item for which no memory is needed.
pub(crate) fn hear_without_memory(client: &mut UnitClient, item: &Item)
    requires item { IsItem item.now }
    requires memory { NeedsNoMemory item.now (held_number client.old) (spare_of client.old) }
    ensures tracks { Hears client.old client.new (heard item.now) }
    ensures keeps { KeepsImaged client.old client.new (heard item.now) }
{
    client.hear(item).unwrap();
}

// Hears an image: the reply that it comes, its messages, and its end.
pub(crate) fn hear_whole(
    client: &mut UnitClient,
    sequence: u32,
    orders: u32,
    raws: RawList,
) -> Result<(), OutOfMemory>
    ensures tracks { OnOk result
        (Hears client.old client.new (imaged_whole sequence orders raws.items)) }
    ensures keeps { OnOk result
        (KeepsImaged client.old client.new (imaged_whole sequence orders raws.items)) }
{
    let reply = Item::SpinReply {
        sequence,
        orders,
        status: b'A',
    };
    hear_without_memory(client, &reply);
    client.hear(&Item::ImageMessages { raws })?;
    client.hear(&Item::SpinFinished { sequence })?;
    Ok(())
}
