//! Laws of the definitions. These functions do nothing: what they ensure is proved of the
//! definitions alone.

ghost use Rattle.std.specs.Prelude.{◌≡◌, ◌≤◌, ℕ, ◌+◌, false, true, List, length, take, drop};
ghost use Rattle.std.specs.List.{list_any, flat_map};
ghost use Rattle.std.specs.List.Sorted.{IsStrictlySortedBy};
ghost use Rattle.std.specs.Ordering.{nat_cmp, eq_by_cmp};
ghost use Rattle.std.specs.Cmp.Lexicographic.{slice_cmp};
ghost use Rattle.unit_packets.specs.Blocks.{Block};
ghost use Rattle.pitch_fields.specs.declared.side.Side.{Side};
ghost use Rattle.std.specs.FinMap as map;
ghost use Rattle.pitch_messages.specs.declared.order.Order.{Order};
ghost use Rattle.pitch_model.specs.Book.{Book, book_after, with_order, without_order};
ghost use Rattle.pitch_model.specs.History.{Raw};
ghost use Rattle.pitch_model.specs.Levels.{best, level};
ghost use Rattle.pitch_model.specs.Reach.{reach};
ghost use Rattle.heard_items.specs.Units.{unit_history};
ghost use Rattle.best_quotes.specs.Changes.{changes, changes_for, same_best};
ghost use Rattle.best_quotes.specs.Balance.{shares_at, shares_of};
ghost use Rattle.best_quotes.specs.Quoting.{quotes_after};
ghost use Rattle.best_quotes.specs.LastBest.{unit_quotes, last_best, quoted};

/// The last line of a symbol and side gives its best in the reached book, and where there is no
/// line it has none.
pub fn last_lines_give_the_best()
    ensures { (H : ℕ) (V : List Raw) (unit : ℕ) (before : List Block)
        (symbol : List ℕ) (side : Side)
        → last_best symbol side (unit_quotes H V unit before)
        ≡ best (book_after (take (reach H (unit_history unit before)) V)) symbol side }
{}

/// A level loses the shares of the order that is taken from the id, and gains those of the one that
/// is put there.
pub fn levels_change_by_the_orders()
    ensures taken { (book : Book) (id : ℕ) (symbol : List ℕ) (side : Side) (price : ℕ)
        → level (without_order book id) symbol side price
        + shares_of symbol side price (map.get book.orders id)
        ≡ level book symbol side price }
    ensures put { (book : Book) (id : ℕ) (order : Order) (symbol : List ℕ) (side : Side) (price : ℕ)
        → level (with_order book id order) symbol side price
        + shares_of symbol side price (map.get book.orders id)
        ≡ level book symbol side price + shares_at symbol side price order }
{}

/// The changes are those of the symbols in any rising list outside of which no best becomes
/// another: for each of them to buy and then to sell.
pub fn changes_are_of_what_changes()
    ensures { (old new : Book) (symbols : List (List ℕ))
        → IsStrictlySortedBy (slice_cmp nat_cmp) symbols
        → ((symbol : List ℕ) → list_any (eq_by_cmp (slice_cmp nat_cmp) symbol) symbols ≡ false
        → (side : Side) → same_best (best old symbol side) (best new symbol side) ≡ true)
        → changes old new ≡ flat_map (changes_for old new) symbols }
{}

/// The quotes that the venue's messages from the reach on make of the reached book are those of
/// each of these messages.
pub fn quotes_go_along_the_messages()
    ensures { (V : List Raw) (n r : ℕ) → r + n ≤ length V
        → quoted (r + 1) (book_after (take r V)) (drop r (take (r + n) V)) ≡ quotes_after V r n }
{}
