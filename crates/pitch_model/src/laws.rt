//! Laws of the definitions. These functions do nothing: what they ensure is proved of the
//! definitions alone.

ghost use Rattle.std.specs.Prelude.{◌≡◌, ℕ, ◌+◌, ◌<◌, ◌≤◌, true, false, ◌||◌, ◌==◌, List, []};
ghost use Rattle.std.specs.Prelude.{◌∷◌, ◌++◌, length, take, nat_eq};
ghost use Rattle.std.specs.Prelude.{unwrap_or, Some, is_some, not};
ghost use Rattle.std.specs.List.{AllByRecursion};
ghost use Rattle.std.specs.List.Sorted.{IsStrictlyIncreasing};
ghost use Rattle.std.specs.Set.{is_member};
ghost use Rattle.std.specs.FinMap as map;
ghost use Rattle.pitch_fields.specs.Limits.{last_sequence};
ghost use Rattle.pitch_fields.specs.declared.side.Side.{Side};
ghost use Rattle.pitch_messages.specs.Raw.{IsRaw};
ghost use Rattle.pitch_model.specs.Book.{Book, IsBook, book_after};
ghost use Rattle.pitch_model.specs.Image.{IsOfImage, image_of, image};
ghost use Rattle.pitch_model.specs.Advertising.{Operation, Accept, Advertise, accepted_at};
ghost use Rattle.pitch_model.specs.Advertising.{accepted_by, with_sequence, advertised_by};
ghost use Rattle.pitch_model.specs.Advertising.{last_ten, newest_of};
ghost use Rattle.pitch_model.specs.layers.Widths.{IsWireBook};
ghost use Rattle.pitch_fields.specs.Fields.{AreBytes};
ghost use Rattle.pitch_model.specs.Levels.{IsBestOf, best, level, orders_on, prices_on};
ghost use Rattle.pitch_model.specs.History.{Entry, Raw, Message, SpinFinished, spin_of, images_at};
ghost use Rattle.pitch_model.specs.History.{image_finished, messages_at, adds, can_promise};
ghost use Rattle.pitch_model.specs.Honest.{Honest};
ghost use Rattle.pitch_model.specs.Reach.{SinceOverflow, IsReach, is_anchor, is_seen, reach_of};
ghost use Rattle.pitch_model.specs.Reach.{held_count, since_overflow, reach, is_held};
ghost use Rattle.pitch_model.specs.Status.{status_of, top_of};
ghost use Rattle.pitch_model.specs.declared.status.Status.TheVariants.{Behind};
ghost use Rattle.pitch_model.specs.declared.ask.Ask.TheVariants.{Gap, Spin};
ghost use Rattle.pitch_model.specs.Asking.{is_grp_up, is_spin_up, owes, advertised_of, is_idle};
ghost use Rattle.pitch_model.specs.Asking.{wants, ask_of};
ghost use Rattle.pitch_model.specs.Recovering.{IsGapAsk, IsSpinAsk};
ghost use Rattle.pitch_model.specs.layers.Steps.{SameReach, Leaves, Drains};

/// The reach is the greatest number that is joined to an anchor, and no other number is
/// that.
pub fn reach_is_the_greatest_joined()
    ensures greatest { (P : SinceOverflow) → IsReach P (reach_of P) }
    ensures only { (P : SinceOverflow) (m n : ℕ) → IsReach P m → IsReach P n → m ≡ n }
{}

/// No anchor is above the reach, and the message after the reach did not come.
pub fn reach_is_closed()
    ensures anchors { (P : SinceOverflow) (s : ℕ) → is_anchor P s ≡ true → s ≤ reach_of P }
    ensures next { (P : SinceOverflow) → is_seen P (reach_of P + 1) ≡ false }
{}

/// The reach is at most the greatest sequence that was told of.
pub fn reach_is_within_the_top()
    ensures { (H : ℕ) (E : List Entry) → reach H E ≤ unwrap_or (top_of E) 0 }
{}

/// The reach never falls.
pub fn reach_never_falls()
    ensures { (H : ℕ) (E : List Entry) (entry : Entry) → reach H E ≤ reach H (entry ∷ E) }
{}

/// Never more messages are held than the hold has places.
pub fn held_is_within_the_limit()
    ensures { (H : ℕ) (E : List Entry) → 1 ≤ H → held_count (since_overflow H E) ≤ H }
{}

/// An old message and one that is held change nothing.
pub fn known_messages_change_nothing()
    ensures old { (H : ℕ) (E : List Entry) (k : ℕ) (raw : Raw)
        → 1 ≤ H → k ≤ reach H E → Leaves H E (Message k raw) false (reach H E) (is_held H E) }
    ensures repeat { (H : ℕ) (E : List Entry) (k : ℕ) (raw : Raw) → 1 ≤ H
        → is_held H E k ≡ true → Leaves H E (Message k raw) false (reach H E) (is_held H E) }
{}

/// The next message is applied, with those held messages that follow it.
pub fn next_message_is_applied()
    ensures { (H : ℕ) (E : List Entry) (k : ℕ) (raw : Raw)
        → 1 ≤ H → k ≡ reach H E + 1 → Drains H E (Message k raw) k }
{}

/// Any other fresh message is held where there is a place. Else the hold overflows: all that was
/// held goes, it alone is held, and the reach stays.
pub fn later_messages_are_held()
    ensures kept { (H : ℕ) (E : List Entry) (k : ℕ) (raw : Raw)
        → reach H E + 1 < k → is_held H E k ≡ false → held_count (since_overflow H E) < H
        → Leaves H E (Message k raw) false (reach H E) (λ j. j == k || is_held H E j) }
    ensures overflow { (H : ℕ) (E : List Entry) (k : ℕ) (raw : Raw)
        → reach H E + 1 < k → is_held H E k ≡ false
        → held_count (since_overflow H E) ≡ H
        → Leaves H E (Message k raw) true (reach H E) (λ j. j == k) }
{}

/// A finished image above the reach takes its place, with the held messages that follow it; another
/// changes nothing.
pub fn images_are_taken_above_the_reach()
    ensures taken { (H : ℕ) (E : List Entry) (sequence s : ℕ) (raws : List Raw)
        → image_finished (spin_of E) sequence ≡ (s, raws) ∷ []
        → reach H E < s → Drains H E (SpinFinished sequence) s }
    ensures stale { (H : ℕ) (E : List Entry) (sequence s : ℕ) (raws : List Raw)
        → image_finished (spin_of E) sequence ≡ (s, raws) ∷ []
        → s ≤ reach H E → SameReach H E (SpinFinished sequence ∷ E) }
{}

/// What is neither a message nor a finished image changes nothing, as a heartbeat.
pub fn other_entries_change_nothing()
    ensures { (H : ℕ) (E : List Entry) (entry : Entry) → messages_at entry ≡ []
        → images_at entry (spin_of E) ≡ [] → since_overflow H (entry ∷ E) ≡ since_overflow H E }
{}

/// In the book that messages leave, each order stands under its id and has shares, and there are no
/// more orders than messages. Where the messages are bytes, the fields of each order and status
/// have the widths of the wire.
pub fn books_have_open_orders()
    ensures book { (raws : List Raw) → IsBook (book_after raws) }
    ensures few { (raws : List Raw) → map.len (book_after raws).orders ≤ length raws }
    ensures wire { (raws : List Raw) → AllByRecursion AreBytes raws → IsWireBook (book_after raws) }
{}

/// An honest history tells of no message that the venue has not.
pub fn honest_histories_stay_within_the_venue()
    ensures { (Image : List Raw → ℕ → List Raw) (V : List Raw) (E : List Entry)
        → Honest Image V E → unwrap_or (top_of E) 0 ≤ length V }
{}

/// The best price of a side is one of its orders' prices, and none of theirs is better; there is
/// none exactly where the side has no order.
pub fn best_price_is_the_best()
    ensures some { (book : Book) (symbol : List ℕ) (side : Side) (price shares : ℕ)
        → best book symbol side ≡ Some (price, shares) → IsBestOf side
        (prices_on book symbol side) price × (shares ≡ level book symbol side price) }
    ensures none { (book : Book) (symbol : List ℕ) (side : Side)
        → best book symbol side ≡ None → orders_on book symbol side ≡ [] }
{}

/// The image of a book is adds, one for each open order, and else Time and Trading Status messages.
/// That of a wire book is raws of bytes, and leaves the book that it is of.
pub fn images_make_their_books_anew()
    ensures raws { (book : Book) → IsWireBook book → AllByRecursion IsRaw (image_of book) }
    ensures bytes { (book : Book) → IsWireBook book → AllByRecursion AreBytes (image_of book) }
    ensures kinds { (book : Book) → AllByRecursion IsOfImage (image_of book) }
    ensures adds { (book : Book) → adds (image_of book) ≡ map.len book.orders }
    ensures leaves { (book : Book)
        → IsBook book → IsWireBook book → book_after (image_of book) ≡ book }
{}

/// The image through a sequence is that of the book which the messages up to it leave. Where these
/// are bytes, it leaves that book; and its number of orders can be promised.
pub fn images_leave_their_books()
    ensures of_book { (V : List Raw) (s : ℕ) → image V s ≡ image_of (book_after (take s V)) }
    ensures leaves { (V : List Raw) (s : ℕ)
        → AllByRecursion AreBytes V → book_after (image V s) ≡ book_after (take s V) }
    ensures promise { (V : List Raw) (s : ℕ)
        → s ≤ last_sequence → can_promise s (adds (image V s)) ≡ true }
{}

/// Where a venue accepts more messages, the books and images of those before stay as they are, and
/// an honest history stays honest.
pub fn venues_only_grow()
    ensures book { (V more : List Raw) (n : ℕ)
        → n ≤ length V → book_after (take n (V ++ more)) ≡ book_after (take n V) }
    ensures image { (V more : List Raw) (s : ℕ) → s ≤ length V → image (V ++ more) s ≡ image V s }
    ensures honest { (V more : List Raw) (E : List Entry)
        → Honest image V E → Honest image (V ++ more) E }
{}

/// An accept adds its message and advertises nothing. An advertise stands for all that was accepted
/// before it, and a repeat adds nothing.
pub fn operations_add_up()
    ensures accepted { (operations : List Operation) (operation : Operation) → accepted_by
        (operations ++ operation ∷ []) ≡ accepted_by operations ++ accepted_at operation }
    ensures accept { (operations : List Operation) (raw : Raw)
        → advertised_by (operations ++ Accept raw ∷ []) ≡ advertised_by operations }
    ensures advertise { (operations : List Operation) → advertised_by (operations ++ Advertise ∷ [])
        ≡ with_sequence (advertised_by operations) (length (accepted_by operations)) }
{}

/// The sequences that are advertised rise, and each is the number of messages that were accepted at
/// some time. So a repeat is always one of the newest. At most ten are served.
pub fn advertised_sequences_rise()
    ensures rise { (operations : List Operation) → IsStrictlyIncreasing (advertised_by operations) }
    ensures within { (operations : List Operation) → AllByRecursion
        (λ sequence. sequence ≤ length (accepted_by operations)) (advertised_by operations) }
    ensures repeat { (operations : List Operation)
        → is_member nat_eq (advertised_by operations) (length (accepted_by operations)) ≡ true
        → newest_of (advertised_by operations) ≡ Some (length (accepted_by operations)) }
    ensures newest { (advertised : List ℕ) (sequence : ℕ)
        → newest_of advertised ≡ Some sequence → is_member nat_eq advertised sequence ≡ true }
    ensures ten { (advertised : List ℕ) → length (last_ten advertised) ≤ 10 }
{}

/// A client that is behind asks for something, unless it waits for an answer or for an end to come
/// up. Where the proxy is up and owes no reply, it asks; where an image is wanted or the proxy is
/// not up, and one above its reach is advertised and no spin is under way, it asks for that image.
pub fn clients_behind_ask()
    ensures proxy { (H : ℕ) (E : List Entry) (n top : ℕ) → status_of H E ≡ Behind n top
        → is_grp_up E ≡ true → owes E ≡ false → is_some (ask_of H E) ≡ true }
    ensures image { (H : ℕ) (E : List Entry) (n top sequence : ℕ)
        → status_of H E ≡ Behind n top → is_spin_up E ≡ true → is_idle (spin_of E) ≡ true
        → advertised_of E ≡ Some sequence → n < sequence
        → (wants H E top || not (is_grp_up E)) ≡ true → ask_of H E ≡ Some (Spin sequence) }
{}

/// A client asks only for what it lacks, and of an end that is up and owes it nothing: so nothing
/// is asked for twice without an answer or a fall of that end between.
pub fn asks_are_for_what_is_lacking()
    ensures gap { (H : ℕ) (E : List Entry) (first count : ℕ)
        → ask_of H E ≡ Some (Gap first count) → IsGapAsk H E first count }
    ensures spin { (H : ℕ) (E : List Entry) (sequence : ℕ)
        → ask_of H E ≡ Some (Spin sequence) → IsSpinAsk H E sequence }
{}

/// A finished image leaves the reach at its sequence or above it.
pub fn images_raise_the_reach()
    ensures { (H : ℕ) (E : List Entry) (sequence s : ℕ) (raws : List Raw)
        → image_finished (spin_of E) sequence ≡ (s, raws) ∷ []
        → s ≤ reach H (SpinFinished sequence ∷ E) }
{}
