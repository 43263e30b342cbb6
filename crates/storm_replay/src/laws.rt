//! The laws of a storm. These functions do nothing.

ghost use Rattle.std.specs.Prelude.{◌≡◌, ◌≤◌, ℕ, Ok, length, map};
ghost use Rattle.std.specs.List.{enumerate_from};
ghost use Rattle.pitch_fields.specs.Limits.{text_limit};
ghost use Rattle.pitch_text.specs.ScheduleGrammar.{entry as entry_grammar, schedule_entry};
ghost use Rattle.text_lines.specs.Text.{entries_of};
ghost use Rattle.text_lines.specs.Items.{items_of};
ghost use Rattle.storm_replay.specs.Storm.{storm_entries, storm_schedule};
ghost use Rattle.storm_replay.specs.layers.Limits.{most_units, most_steps};
ghost use Rattle.storm_replay.specs.Ended.{whole_text};
ghost use Rattle.storm_replay.specs.Summary.{storm_text};

/// The schedule of a storm, read as a text, says its entries, one a line, and is short enough to be
/// read. The call does nothing.
pub fn storms_are_read()
    // Whatever the number, the lines say just what the units do, in order.
    ensures reads { (number units steps : ℕ) → units ≤ most_units
        → steps ≤ most_steps → entries_of entry_grammar (storm_schedule number units steps)
        ≡ Ok (enumerate_from 1 (storm_entries number units steps)) }
    // So they do where the text is gone over one entry at a time.
    ensures items { (number units steps : ℕ) → units ≤ most_units → steps ≤ most_steps
        → items_of entry_grammar schedule_entry (storm_schedule number units steps)
        ≡ map (λ e. Ok (schedule_entry e)) (enumerate_from 1 (storm_entries number units steps)) }
    // Whatever the number, it is no longer than the longest text that is read.
    ensures size { (number units steps : ℕ) → units ≤ most_units
        → steps ≤ most_steps → length (storm_schedule number units steps) ≤ text_limit }
{}

/// Whatever a storm loses, each of its units ends current at the last message of its plan, with the
/// orders and shares that the plan leaves. So no loss stands in the summary: it is made of the
/// storm's number, units and steps alone. The call does nothing.
pub fn storms_end_whole()
    ensures { (number units steps : ℕ) → units ≤ most_units → steps ≤ most_steps
        → storm_text number units steps ≡ whole_text number units steps }
{}
