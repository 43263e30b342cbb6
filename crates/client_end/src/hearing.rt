//! What the client hears of what its links tell.

ghost use Rattle.std.specs.Prelude.{◌≡◌, ◌∷◌, [], ℕ, take, IsTrue, true, OnOk, OnErr};
ghost use Rattle.heard_items.specs.Changes.{IsItem};
ghost use Rattle.client_core.specs.Client.{IsAsBefore};
ghost use Rattle.client_end.specs.layers.Hearing.{HearsItems, IsTold};

use client_core::UnitClient;
use heard_items::Item;
use pitch_fields::OutOfMemory;

// Whether a link can tell the item.
fn can_be_told(item: &Item) -> bool
    ensures item { IsTrue result → IsItem item.now }
    ensures told { IsTold item.now → result ≡ true }
{
    match item {
        Item::Messages { .. } => false,
        Item::Next { .. } => false,
        _ => true,
    }
}

// The client hears an item that a link told.
fn hear_item(client: &mut UnitClient, item: &Item) -> Result<(), OutOfMemory>
    ensures hears { OnOk result (HearsItems client.old client.new (item.now ∷ [])) }
    ensures err { OnErr result (IsAsBefore client.old client.new) }
{
    if can_be_told(item) {
        let _change = client.hear(item)?;
    }
    Ok(())
}

/// The client hears what a link told, one item after another. After OutOfMemory it has heard some
/// of the items.
pub fn hear_told(client: &mut UnitClient, items: &[Item]) -> Result<(), OutOfMemory>
    ensures hears { OnOk result (HearsItems client.old client.new items.now) }
    ensures err { OnErr result
        ((count : ℕ) × HearsItems client.old client.new (take count items.now)) }
{
    'told: for item in items {
        hear_item(client, item)?;
    }
    Ok(())
}
