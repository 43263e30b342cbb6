//! What a caller notes of the messages that a client applies: nothing, themselves, what each did to
//! the open orders, or whatever a type of the caller's own keeps of them.

ghost use Rattle.std.specs.Prelude.{◌≡◌, ℕ, ◌+◌, ◌<◌, ◌≤◌, List, [], ◌∷◌, ◌++◌, IsOk, OnOk, fold};
ghost use Rattle.std.specs.FinMap as map;
ghost use Rattle.std.proofs.Common.{sym, ap, ◌∙◌, append_assoc, append-nil, le_trans};
ghost use Rattle.pitch_messages.specs.Raw.{IsRaw};
ghost use Rattle.pitch_model.specs.Book.{Book, after};
ghost use Rattle.pitch_model.specs.History.{Raw};
ghost use Rattle.order_book.specs.Standing.{most_orders};
ghost use Rattle.order_book.specs.Turns.{turns_of};
ghost use Rattle.order_book.proofs.Turning.{turns_of-append};

use order_book::{TurnList, UnitBook};
use pitch_fields::OutOfMemory;
use pitch_messages::RawList;

/// What is noted of each message that a client applies.
///
/// `()` notes nothing, a `RawList` the messages, and a `TurnList` what each did to the open orders.
pub trait Notes {
    /// From the one to the other these messages, applied in this order to a book, were noted.
    ghost noted: { Self → Self → Book → List Raw → Type 0 };

    /// So many messages can be noted without memory.
    ghost can_note: { Self → ℕ → Type 0 };

    /// Takes memory ahead, so that so many messages can be noted. Nothing is noted by that.
    fn reserve(&mut self, messages: usize) -> Result<(), OutOfMemory>
        ensures noted { (book : Book) → noted self.old self.new book [] }
        ensures room { OnOk result (can_note self.new messages) }
        ensures keeps { (left : ℕ) → can_note self.old left → can_note self.new left }
        ensures memory { can_note self.old messages → IsOk result };

    /// Applies a message to the book, and notes it. For both there is room.
    fn apply(&mut self, book: &mut UnitBook, raw: &[u8])
        requires raw { IsRaw raw.now }
        requires spare { 1 ≤ book.old.spare }
        requires few { map.len book.old.book.orders < most_orders }
        requires room { can_note self.old 1 }
        ensures book { book.new.book ≡ after book.old.book raw.now }
        ensures spare { book.old.spare ≤ book.new.spare + 1 }
        ensures noted { noted self.old self.new book.old.book (raw.now ∷ []) }
        ensures room { (left : ℕ) → can_note self.old (left + 1) → can_note self.new left };

    /// Where nothing is done nothing is noted.
    ghost nothing: { (notes : Self) (book : Book) → noted notes notes book [] };

    /// What is noted of some messages, and then of others, is noted of all.
    ghost both: { (first middle last : Self) (book : Book) (xs ys : List Raw)
        → noted first middle book xs → noted middle last (fold after book xs) ys
        → noted first last book (xs ++ ys) };

    /// Where many can be noted, so can few.
    ghost fewer: { (notes : Self) (few many : ℕ)
        → few ≤ many → can_note notes many → can_note notes few };
}

impl Notes for () {
    ghost noted = { λ first last book raws. Unit {0} };

    ghost can_note = { λ notes count. Unit {0} };

    fn reserve(&mut self, _messages: usize) -> Result<(), OutOfMemory> {
        Ok(())
    }

    fn apply(&mut self, book: &mut UnitBook, raw: &[u8]) {
        book.apply_reserved(raw)
    }

    ghost nothing = { λ notes book. tt };

    ghost both = { λ first middle last book xs ys some others. tt };

    ghost fewer = { λ notes few many less can. tt };
}

impl Notes for RawList {
    ghost noted = { λ first last book raws. last.items ≡ first.items ++ raws };

    ghost can_note = { λ notes count. count ≤ notes.spare };

    fn reserve(&mut self, messages: usize) -> Result<(), OutOfMemory> {
        self.reserve(messages)
    }

    fn apply(&mut self, book: &mut UnitBook, raw: &[u8]) {
        book.apply_reserved(raw);
        self.push_bytes(raw).unwrap();
    }

    ghost nothing = { λ notes book. sym (append-nil notes.items) };

    ghost both = { λ first middle last book xs ys some others.
        others ∙ ap (λ items. items ++ ys) some ∙ append_assoc first.items xs ys };

    ghost fewer = { λ notes few many less can. le_trans less can };
}

impl Notes for TurnList {
    ghost noted = { λ first last book raws. last.items ≡ first.items ++ turns_of book raws };

    ghost can_note = { λ notes count. count ≤ notes.spare };

    fn reserve(&mut self, messages: usize) -> Result<(), OutOfMemory> {
        self.reserve(messages)
    }

    fn apply(&mut self, book: &mut UnitBook, raw: &[u8]) {
        let turn = book.turn_reserved(raw);
        self.push(turn).unwrap();
    }

    ghost nothing = { λ notes book. sym (append-nil notes.items) };

    ghost both = { λ first middle last book xs ys some others.
        others
        ∙ ap (λ items. items ++ turns_of (fold after book xs) ys) some
        ∙ append_assoc first.items (turns_of book xs) (turns_of (fold after book xs) ys)
        ∙ ap (λ turns. first.items ++ turns) (sym (turns_of-append book xs ys)) };

    ghost fewer = { λ notes few many less can. le_trans less can };
}
