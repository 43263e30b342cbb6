//! The copies of one unit's messages.

ghost use Rattle.std.specs.Prelude.{◌≡◌, ◌+◌, ◌≤◌, ◌<◌, ℕ, List, [], length, slice_get, slice_set};
ghost use Rattle.std.specs.Prelude.{Some, IfOk, IfSome};
ghost use Rattle.pitch_fields.specs.Limits.{last_sequence};
ghost use Rattle.pitch_model.specs.History.{Entry};
ghost use Rattle.heard_items.specs.Heard.{heard_block, heard_messages};
ghost use Rattle.line_copies.specs.declared.kept.Kept.{Kept};
ghost use Rattle.line_copies.specs.Copies.{slot_of, kept_of, nothing_kept, later_of, told_by};
ghost use Rattle.line_copies.specs.Copies.{first_differing, block_differing, Keeps, CopiesDiffer};

use crate::kept::{Kept, NOTHING, later_of};
use crate::sums::sum_of;
use pitch_fields::OutOfMemory;
use pitch_messages::Raws;
use std::alloc::Global;
use std::marker::Model;
use unit_packets::BlockView;

/// How many slots there are.
pub const SLOTS: usize = 65536;

/// What is kept of a unit's messages: of each of the last 65,536 sequences the sum of its bytes. It
/// has 1 MiB of memory.
#[derive(Drop)]
pub struct UnitCopies {
    slots: Vec<Kept>,
}

impl Model for UnitCopies {
    ghost use Rattle.std.specs.Prelude.{◌≡◌, List, length};
    ghost use Rattle.line_copies.specs.declared.kept.Kept.{Kept};

    ghost Value = { List Kept };

    ghost view = { λ c. c.slots.items };

    ghost invariant = { λ c. length c.slots.items ≡ 65536 };
}

// So many slots, to which nothing came.
fn empty_slots(alloc: Global, count: usize) -> Result<Vec<Kept>, OutOfMemory>
    ensures many { IfOk result (λ slots. length slots.items ≡ count) }
    ensures none { IfOk result (λ slots. (slot : ℕ) → slot < count
        → slice_get slots.items slot ≡ Some nothing_kept) }
{
    Ok(vec![in alloc; NOTHING; count]?)
}

impl UnitCopies {
    /// No message came yet. All memory is taken here.
    pub fn make(alloc: Global) -> Result<UnitCopies, OutOfMemory>
        ensures { IfOk result (λ copies. Keeps copies []) }
    {
        let slots = empty_slots(alloc, SLOTS)?;
        Ok(UnitCopies { slots })
    }

    // Hears a message, and answers its sequence where the copy that is kept of that differs.
    #[inline(always)]
    fn hear(&mut self, sequence: u32, raw: &[u8]) -> Option<u32>
        ensures kept { (kept : Kept) → slice_get self.old (slot_of sequence) ≡ Some kept
            → self.new ≡ slice_set self.old (slot_of sequence)
            (later_of kept (kept_of sequence raw.now)) }
        ensures told { (kept : Kept) → slice_get self.old (slot_of sequence) ≡ Some kept
            → result ≡ told_by kept sequence raw.now }
    {
        let copy = Kept {
            sequence,
            sum: sum_of(raw),
        };
        let slot = sequence as usize % SLOTS;
        let kept = self.slots[slot];
        self.slots[slot] = later_of(kept, copy);
        if kept.sequence == copy.sequence && kept.sum != copy.sum {
            return Some(sequence);
        }
        None
    }

    // Hears messages with rising sequence, and answers the first of which another copy is kept.
    fn hear_messages(&mut self, first: u32, raws: Raws<'_>) -> Option<u32>
        requires { first + length raws ≤ last_sequence + 1 }
        ensures keeps { (E : List Entry) → Keeps self.old E
            → Keeps self.new (heard_messages first raws.entry E) }
        ensures told { (E : List Entry) → Keeps self.old E
            → result ≡ first_differing first raws.entry E }
    {
        let mut raws = raws;
        let mut sequence = first;
        let mut told = None;
        'messages: while let Some(raw) = raws.next_raw() {
            told = told.or(self.hear(sequence, raw));
            sequence += 1;
        }
        told
    }

    /// Hears a block of the unit, and answers the first sequence of which a copy with other bytes
    /// was heard before. Where the answer is None, each of its messages has the sum that is kept of
    /// its sequence, if one is. It takes no memory.
    pub fn hear_block(&mut self, block: &BlockView<'_>) -> Option<u32>
        // Whatever history was heard before, this block was heard after it.
        ensures keeps { (E : List Entry) → Keeps self.old E
            → Keeps self.new (heard_block block.now E) }
        ensures told { (E : List Entry) → Keeps self.old E
            → result ≡ block_differing block.now E }
        // What was answered is so: two copies of that sequence were heard, and they differ.
        ensures sound { IfSome result (λ sequence. (E : List Entry) → Keeps self.old E
            → CopiesDiffer (heard_block block.now E) sequence) }
    {
        let first = block.header().sequence;
        if first == 0 {
            return None;
        }
        self.hear_messages(first, block.raws())
    }
}
