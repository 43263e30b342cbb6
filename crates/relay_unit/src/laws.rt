//! Laws of the definitions. These functions do nothing: what they ensure is proved of the
//! definitions alone.

ghost use Rattle.std.specs.Prelude.{◌≡◌, ◌≤◌, ◌++◌, ℕ, List, ◌∷◌, fold, length, reverse, take};
ghost use Rattle.std.specs.List.{AllByRecursion};
ghost use Rattle.pitch_fields.specs.Fields.{AreBytes};
ghost use Rattle.unit_packets.specs.Blocks.{Block};
ghost use Rattle.unit_packets.specs.Cutting.{blocks_of};
ghost use Rattle.pitch_model.specs.Book.{Book, after, book_after};
ghost use Rattle.pitch_model.specs.History.{Entry, Raw};
ghost use Rattle.pitch_model.specs.Reach.{reach};
ghost use Rattle.relay_unit.specs.Following.{HasSent, LeaveNothingOut, Sends, Shows};
ghost use Rattle.relay_unit.specs.Relayed.{relayed};
ghost use Rattle.relay_unit.specs.Sparing.{messages_heard};
ghost use Rattle.relay_unit.specs.Stands.{followed_book};
ghost use Rattle.relay_unit.specs.declared.relay.Relay.{Relay};

/// What a relay sends leaves the book that it follows, for any messages of the venue.
pub fn relayed_messages_leave_the_followed_book()
    ensures { (H : ℕ) (V : List Raw) (E : List Entry) → AllByRecursion AreBytes V
        → book_after (relayed H V E) ≡ book_after (take (reach H E) V) }
{}

/// Up to any block of a stream, no unit has more messages than the stream has bytes.
pub fn blocks_have_no_more_messages_than_bytes()
    ensures { (unit : ℕ) (bytes : List ℕ) (done left : List Block) (block : Block)
        → blocks_of bytes ≡ done ++ (block ∷ left)
        → messages_heard unit (block ∷ reverse done) ≤ length bytes }
{}

/// Whatever comes in, whoever applies what a relay sends has the orders of the book that the relay
/// follows, its clock and its trading statuses: at each step where it had them before, and so after
/// all that the relay has sent. Where no image leaves out a clock or a status that was known
/// before, it has just that book.
pub fn followers_have_the_orders_of_a_relay()
    ensures step { (follower book book' : Book) (raws : List Raw)
        → Shows follower book → Sends book raws book' → Shows (fold after follower raws) book' }
    ensures whole { (relay : Relay) (raws : List Raw)
        → HasSent relay raws → Shows (book_after raws) (followed_book relay) }
    ensures exact { (book book' : Book) (raws : List Raw) (sends : Sends book raws book')
        → LeaveNothingOut book sends.steps → fold after book raws ≡ book' }
{}
