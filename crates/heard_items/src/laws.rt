//! Laws of the definitions. These functions do nothing: what they ensure is proved of the
//! definitions alone.

ghost use Rattle.std.specs.Prelude.{◌≡◌, ℕ, ◌+◌, ◌<◌, ◌≤◌, true, ◌==◌, Some, List, [], ◌∷◌};
ghost use Rattle.std.specs.Prelude.{◌++◌, length, reverse, filter, take, drop, nat_eq};
ghost use Rattle.std.specs.List.{list_any, sum_by, AllByRecursion};
ghost use Rattle.std.specs.List.Sorted.{IsStrictlyIncreasing};
ghost use Rattle.std.specs.Set.{is_member};
ghost use Rattle.pitch_fields.specs.Limits.{last_sequence};
ghost use Rattle.unit_packets.specs.Blocks.{Block, StaysWithin};
ghost use Rattle.unit_packets.specs.BlockBytes.{block_bytes, heartbeat_block};
ghost use Rattle.unit_packets.specs.Cutting.{blocks_of};
ghost use Rattle.unit_packets.specs.Packing.{IsPacking};
ghost use Rattle.pitch_model.specs.Asking.{ask_of};
ghost use Rattle.pitch_model.specs.declared.ask.Ask.TheVariants.{Gap};
ghost use Rattle.pitch_model.specs.History.{Entry, Raw, SpinFinished, spin_of, image_finished};
ghost use Rattle.pitch_model.specs.Honest.{AreVenues, Honest};
ghost use Rattle.heard_items.specs.declared.item.Item.{Item};
ghost use Rattle.heard_items.specs.Datagrams.{heard_blocks, IsPiece};
ghost use Rattle.heard_items.specs.layers.DatagramCounts.{messages_in, fresh_in, overflows_in};
ghost use Rattle.heard_items.specs.layers.DatagramCounts.{changes_in};
ghost use Rattle.heard_items.specs.Heard.{heard, heard_block, heard_messages};
ghost use Rattle.pitch_model.specs.Reach.{reach, is_held, held_count, since_overflow};
ghost use Rattle.pitch_model.specs.Status.{status_of, top_of};
ghost use Rattle.pitch_model.specs.declared.status.Status.TheVariants.{Current};
ghost use Rattle.heard_items.specs.Changes.{IsItem, IsItemOf, change_of};
ghost use Rattle.heard_items.specs.Changes.{block_change};
ghost use Rattle.heard_items.specs.Units.{unit_history, units_of};

/// The item of a block says what the block says.
pub fn items_say_what_their_blocks_say()
    ensures heard { (block : Block) (item : Item) (E : List Entry)
        → IsItemOf block item → heard item E ≡ heard_block block E }
    ensures change { (H : ℕ) (block : Block) (item : Item) (E : List Entry)
        → IsItemOf block item → change_of H E item ≡ block_change H E block }
    ensures fits { (block : Block) (item : Item)
        → StaysWithin block.sequence (length block.raws) → IsItemOf block item → IsItem item }
{}

/// Each unit that a block names is listed once, by rising number, and no other unit is.
pub fn units_are_those_named()
    ensures rise { (before : List Block) → IsStrictlyIncreasing (units_of before) }
    ensures named { (before : List Block) (unit : ℕ)
        → is_member nat_eq (units_of before) unit ≡ list_any (λ block. unit == block.unit) before }
{}

/// The sums over blocks that are heard one after another are the sums of what each block changes,
/// and none is above the number of messages. What a unit's client heard of a stream is what it
/// hears of the unit's blocks, one after another.
pub fn blocks_add_up()
    ensures heard { (E : List Entry) (xs ys : List Block)
        → heard_blocks (xs ++ ys) E ≡ heard_blocks ys (heard_blocks xs E) }
    ensures fresh { (H : ℕ) (E : List Entry) (blocks : List Block)
        → fresh_in H E blocks ≡ sum_by (λ change. change.fresh) (changes_in H E blocks) }
    ensures overflows { (H : ℕ) (E : List Entry) (blocks : List Block)
        → overflows_in H E blocks ≡ sum_by (λ change. change.overflows) (changes_in H E blocks) }
    ensures fresh_few { (H : ℕ) (E : List Entry) (blocks : List Block)
        → fresh_in H E blocks ≤ messages_in blocks }
    ensures overflows_few { (H : ℕ) (E : List Entry) (blocks : List Block)
        → overflows_in H E blocks ≤ messages_in blocks }
    ensures unit { (unit : ℕ) (blocks : List Block) → unit_history unit (reverse blocks)
        ≡ heard_blocks (filter (λ block. block.unit == unit) blocks) [] }
{}

/// The messages after the first n of a venue's, and some of the first of these, are its messages
/// from sequence n + 1 on.
pub fn slices_are_the_venues()
    ensures rest { (V : List Raw) (n : ℕ) → AreVenues V (n + 1) (drop n V) }
    ensures slice { (V : List Raw) (n count : ℕ) → AreVenues V (n + 1) (take count (drop n V)) }
{}

/// What is heard of a piece of a venue's feed after an honest history leaves it honest; and a piece
/// stays one where the venue accepts more.
pub fn pieces_are_honest()
    ensures honest { (Image : List Raw → ℕ → List Raw)
        (V : List Raw) (unit : ℕ) (datagram : List ℕ) (E : List Entry) → IsPiece V unit datagram
        → Honest Image V E → Honest Image V (heard_blocks (blocks_of datagram) E) }
    ensures more { (V more : List Raw) (unit : ℕ) (datagram : List ℕ)
        → IsPiece V unit datagram → IsPiece (V ++ more) unit datagram }
{}

/// The datagrams into which some of a venue's messages are packed are pieces of its feed, and so is
/// a heartbeat.
pub fn packed_messages_are_pieces()
    ensures packed { (V : List Raw) (unit first : ℕ) (raws : List Raw) (datagrams : List (List ℕ))
        → 0 < first → first + length raws ≤ length V + 1 → AreVenues V first raws
        → IsPacking unit first raws datagrams → AllByRecursion (IsPiece V unit) datagrams }
    ensures heartbeat { (V : List Raw) (unit next : ℕ) → unit < 256 → 0 < next → next ≤ length V + 1
        → next ≤ last_sequence + 1 → IsPiece V unit (block_bytes (heartbeat_block unit next)) }
{}

/// Messages in their order, of which the first is the next one or an old one, are all applied:
/// afterwards the reach is the last of them, or above it.
pub fn messages_in_order_are_applied()
    ensures { (H first : ℕ) (raws : List Raw) (E : List Entry) → 1 ≤ H → first ≤ reach H E + 1
        → first + length raws ≤ reach H (heard_messages first raws E) + 1 }
{}

/// A gap request that is answered in full takes the reach on by as many messages as it asked for,
/// and so by one at least, whatever came between.
pub fn answered_requests_take_the_reach_on()
    ensures { (H first : ℕ) (raws : List Raw) (E more : List Entry) → 1 ≤ H
        → ask_of H E ≡ Some (Gap first (length raws))
        → reach H E + length raws ≤ reach H (heard_messages first raws (more ++ E)) }
{}

/// A hold with room drops nothing. Messages in their order, of which none is the next one, are all
/// held where the hold has a place for each of them beside those that it holds. What was held still
/// is, and the reach stays.
pub fn messages_are_held_where_there_is_room()
    ensures held { (H first : ℕ) (raws : List Raw) (E : List Entry) (k : ℕ)
        → reach H E + 1 < first → held_count (since_overflow H E) + length raws ≤ H → first ≤ k
        → k < first + length raws → is_held H (heard_messages first raws E) k ≡ true }
    ensures still { (H first : ℕ) (raws : List Raw) (E : List Entry) (k : ℕ)
        → reach H E + 1 < first → held_count (since_overflow H E) + length raws ≤ H
        → is_held H E k ≡ true → is_held H (heard_messages first raws E) k ≡ true }
    ensures reach { (H first : ℕ) (raws : List Raw) (E : List Entry)
        → reach H E + 1 < first → held_count (since_overflow H E) + length raws ≤ H
        → reach H (heard_messages first raws E) ≡ reach H E }
{}

/// A finished image joins what is held: where the client holds every message from the image's
/// sequence up to the top, it is current.
pub fn images_join_what_is_held()
    ensures { (H : ℕ) (E : List Entry) (sequence s top : ℕ) (raws : List Raw)
        → image_finished (spin_of E) sequence ≡ (s, raws) ∷ [] → top_of E ≡ Some top → s ≤ top
        → ((k : ℕ) → s < k → k ≤ top → is_held H E k ≡ true)
        → status_of H (SpinFinished sequence ∷ E) ≡ Current top }
{}
