//! How a client ends: told of all messages, it takes the image of all if it lacks some.

ghost use Rattle.std.specs.Prelude.{◌≡◌, ◌≤◌, ◌++◌, ℕ, List, length, OnOk, OnErr, MatchBool};
ghost use Rattle.pitch_fields.specs.Limits.{last_sequence};
ghost use Rattle.pitch_model.specs.History.{Entry, Raw};
ghost use Rattle.pitch_model.specs.Honest.{Honest};
ghost use Rattle.client_core.specs.layers.Hearing.{Hears, KeepsImaged};
ghost use Rattle.client_core.specs.Venues.{IsImage};
ghost use Rattle.client_core.specs.Tracks.{Tracks, Keeps};
ghost use Rattle.drill_client.specs.layers.Ending.{AsksForAll, IsAtEnd, whole_line};
ghost use Rattle.drill_client.specs.layers.Following.{FollowsOn, ImageParts, IsImageOf};
ghost use Rattle.drill_client.specs.layers.Told.{is_behind, told_all};

use crate::items::{hear_whole, hear_without_memory};
use client_core::{UnitClient, images_of_bytes_are_images};
use feed_lines::append_unit_line;
use heard_items::Item;
use pitch_fields::OutOfMemory;
use pitch_messages::RawList;
use pitch_model::Status;
use pitch_model::laws::images_leave_their_books;

fn is_behind(status: Status) -> bool
    ensures { result ≡ is_behind status }
{
    matches!(status, Status::Behind { .. })
}

// Hears that both connections ended, that the Spin Server is up again, and of so many messages.
fn hear_of_all(client: &mut UnitClient, count: u32)
    requires { count ≤ last_sequence }
    ensures tracks { Hears client.old client.new (told_all count) }
    ensures keeps { KeepsImaged client.old client.new (told_all count) }
{
    hear_without_memory(client, &Item::GrpDown);
    hear_without_memory(client, &Item::SpinDown);
    hear_without_memory(client, &Item::SpinUp);
    hear_without_memory(client, &Item::Next { next: count + 1 });
    hear_without_memory(client, &Item::Advertised { sequence: count });
}

/// Tells a client of all the messages of its venue, which are `count`: its connections end, the
/// Spin Server is up again, and the next sequence and the image of all are told of. True if it
/// lacks some, and so has asked for that image; false if it has all.
pub fn asks_when_told_of_all(client: &mut UnitClient, count: u32) -> bool
    requires { count ≤ last_sequence }
    // Of every venue of so many messages that it followed.
    ensures { (H : ℕ) (V : List Raw) → length V ≡ count → FollowsOn client.old H V
        → MatchBool result (AsksForAll client.new H V) (IsAtEnd client.new H V) }
{
    images_of_bytes_are_images();
    hear_of_all(client, count);
    if !is_behind(client.status()) {
        return false;
    }
    client.tick();
    true
}

/// Hears the image of all messages, for which the client asked. With it the client has all.
pub fn hear_all(
    client: &mut UnitClient,
    count: u32,
    orders: u32,
    raws: RawList,
) -> Result<(), OutOfMemory>
    // Of every venue of so many messages whose image it is.
    ensures { OnOk result ((H : ℕ) (V : List Raw) → length V ≡ count
        → IsImageOf V (record { sequence = count; orders = orders; raws = raws.items })
        → AsksForAll client.old H V → IsAtEnd client.new H V) }
{
    images_of_bytes_are_images();
    images_leave_their_books();
    hear_whole(client, count, orders, raws)?;
    Ok(())
}

/// Appends the line of a unit: the status of its client, the number of open orders and their
/// shares. `out` is as before after OutOfMemory.
pub fn append_end(client: &UnitClient, unit: u8, out: &mut Vec<u8>) -> Result<(), OutOfMemory>
    // Of every venue all of whose messages the client has.
    ensures ok { OnOk result ((H : ℕ) (V : List Raw)
        → IsAtEnd client.now H V → out.new.items ≡ out.old.items ++ whole_line unit V) }
    ensures err { OnErr result (out.new.items ≡ out.old.items) }
{
    let book = client.book();
    append_unit_line(unit, client.status(), book.len(), book.shares(), out)
}
