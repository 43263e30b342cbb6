//! Laws of the definitions. These functions do nothing: what they ensure is proved of the
//! definitions alone.

ghost use Rattle.std.specs.Prelude.{ℕ, List};
ghost use Rattle.pitch_model.specs.History.{Raw};
ghost use Rattle.run_audit.specs.layers.Laws.{AreFew, AreFoundPartByPart, AreWrongFirst};
ghost use Rattle.run_audit.specs.layers.Laws.{AreWrongWithin};
ghost use Rattle.run_audit.specs.layers.Laws.{VerdictIsOne};

/// Behind lines that agree, the first wrong line is that of what follows.
pub fn wrong_lines_are_found_part_by_part()
    ensures { (Vs : ℕ → List Raw) → AreFew Vs → AreFoundPartByPart Vs }
{}

/// Behind lines that agree, a line that only a book has is wrong where it is the first of none, and
/// else the first line that is not the book's.
pub fn lines_of_no_book_are_wrong()
    ensures first { (Vs : ℕ → List Raw) → AreFew Vs → AreWrongFirst Vs }
    ensures within { (Vs : ℕ → List Raw) → AreFew Vs → AreWrongWithin Vs }
{}

/// A report gets one verdict at most.
pub fn verdicts_are_one()
    ensures { (Vs : ℕ → List Raw) → AreFew Vs → VerdictIsOne Vs }
{}
