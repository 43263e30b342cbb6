//! Laws of what a client stands for. These functions do nothing: what they ensure is proved of the
//! definitions alone.

ghost use Rattle.std.specs.Prelude.{ℕ, ◌+◌, ◌≤◌, List, ◌++◌, length};
ghost use Rattle.std.specs.List.{AllByRecursion};
ghost use Rattle.pitch_model.specs.History.{Entry, Raw};
ghost use Rattle.pitch_model.specs.Honest.{Honest};
ghost use Rattle.pitch_model.specs.Image.{image};
ghost use Rattle.pitch_fields.specs.Fields.{AreBytes};
ghost use Rattle.client_core.specs.Tracks.{Keeps};
ghost use Rattle.client_core.specs.Venues.{IsImage, IsVenue};
ghost use Rattle.client_core.specs.Client.{KeepsRoom, held_number, reached, spare_of};
ghost use Rattle.client_core.specs.declared.client.UnitClient.{UnitClient};

/// The images of this feed are what `hear` asks of images, wherever the venue's messages are bytes.
pub fn images_of_bytes_are_images()
    ensures { (V : List Raw) → AllByRecursion AreBytes V → IsImage image V }
{}

/// A history that is honest with the images of this feed is one of a venue, wherever its messages
/// are bytes.
pub fn honest_histories_are_of_venues()
    ensures { (V : List Raw) (E : List Entry)
        → AllByRecursion AreBytes V → Honest image V E → IsVenue V E }
{}

/// A client that keeps to a venue's messages still does once the venue has accepted more, where its
/// reach was within those accepted before.
pub fn keeping_lasts_while_a_venue_accepts()
    ensures { (client : UnitClient) (V more : List Raw)
        → reached client ≤ length V → Keeps client V → Keeps client (V ++ more) }
{}

/// Room reserved once for the messages of two blocks, and for those held, still serves the second
/// block when the first was heard.
pub fn room_for_two_blocks_serves_both()
    ensures { (client later : UnitClient) (one two : ℕ) → (one + two) + held_number client
        ≤ spare_of client → KeepsRoom client later one → two + held_number later ≤ spare_of later }
{}
