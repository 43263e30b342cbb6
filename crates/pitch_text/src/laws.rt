//! Laws of the definitions. These functions do nothing: what they ensure is proved of the
//! definitions alone.

ghost use Rattle.std.specs.Prelude.{◌≡◌, ℕ, List, Ok, map};
ghost use Rattle.std.specs.List.{AllByRecursion, enumerate_from};
ghost use Rattle.pitch_text.specs.declared.verb.Verb.{Verb};
ghost use Rattle.pitch_text.specs.Printing.{lines_text};
ghost use Rattle.pitch_text.specs.ScheduleGrammar.{entry, schedule_entry};
ghost use Rattle.pitch_text.specs.WellFormed.{AreWellFormed, IsWellFormed};
ghost use Rattle.text_lines.specs.Text.{entries_of};
ghost use Rattle.text_lines.specs.Items.{items_of};

/// Each entry that a schedule's text gives is well formed.
#[tactic(auto, using(crate::proofs::GivenLemmas::schedule_given))]
pub fn schedules_are_well_formed()
    ensures { (text : List ℕ) → AreWellFormed (items_of entry schedule_entry text) }
{}

/// Canonical lines, each ended by a line feed, say their entries, numbered from 1.
#[tactic(auto, using(crate::proofs::ManyLines::lines_again, crate::proofs::ManyLines::items_again))]
pub fn canonical_lines_say_their_entries()
    // Read as a whole, the text has no fault and gives just these entries.
    ensures entries { (entries : List (ℕ × Verb)) → AllByRecursion (λ e. IsWellFormed e.0 e.1)
        entries → entries_of entry (lines_text entries) ≡ Ok (enumerate_from 1 entries) }
    // So it does where it is gone over one entry at a time.
    ensures items { (entries : List (ℕ × Verb)) → AllByRecursion (λ e. IsWellFormed e.0 e.1) entries
        → items_of entry schedule_entry (lines_text entries)
        ≡ map (λ e. Ok (schedule_entry e)) (enumerate_from 1 entries) }
{}
