//! Everything that a client hears, from line blocks to spin images, and what each changes.

ghost use Rattle.std.specs.Prelude.{◌≡◌, ◌+◌, ◌^◌, ◌<◌, ◌≤◌, ◌||◌, [], ◌∷◌, false, IsTrue};
ghost use Rattle.std.specs.Prelude.{if◌then◌else◌};
ghost use Rattle.pitch_fields.specs.Limits.{last_sequence};
ghost use Rattle.pitch_model.specs.Status.{raised};

use crate::client::UnitClient;
use crate::notes::Notes;
use crate::spinning::{Finish, SpinState};
use crate::taking::{Taken, take_image, take_in};
use heard_items::{Change, ImageEnd, Item};
use pitch_fields::OutOfMemory;
use pitch_messages::{RawList, Raws};
use pitch_model::Status;

// How messages were classified.
#[derive(Clone, Copy, PartialEq, Eq)]
struct Counts {
    fresh: u32,
    overflows: u32,
}

const NO_MESSAGES: Counts = Counts {
    fresh: 0,
    overflows: 0,
};

impl Counts {
    // What is heard where nothing but messages is.
    fn heard(self) -> Heard
        ensures { result
            ≡ record { fresh = self.fresh; overflows = self.overflows; image = ImageEnd.NoImage } }
    {
        Heard {
            fresh: self.fresh,
            overflows: self.overflows,
            image: ImageEnd::NoImage,
        }
    }
}

// How an item was classified.
#[derive(Clone, Copy, PartialEq, Eq)]
struct Heard {
    fresh: u32,
    overflows: u32,
    image: ImageEnd,
}

const NOTHING_NEW: Heard = Heard {
    fresh: 0,
    overflows: 0,
    image: ImageEnd::NoImage,
};

// The greater of the two.
fn raised_by(top: Option<u32>, sequence: u32) -> Option<u32>
    ensures { result ≡ raised (sequence ∷ []) top }
{
    match top {
        Some(had) => Some(sequence.max(had)),
        None => Some(sequence),
    }
}

// Whether there are messages with rising sequence, and the last of them is at or below the floor.
fn is_old(first: u32, count: usize, floor: u32) -> bool
    requires { count < 2 ^ 32 }
    ensures { IsTrue result → (1 ≤ count) × (first + count ≤ floor + 1) }
{
    count > 0 && first as u64 + count as u64 <= floor as u64 + 1
}

fn counted(n: u32, one: bool) -> u32
    requires { n ≤ last_sequence }
    ensures { result ≡ (if one then 1 else 0) + n }
{
    if one { n + 1 } else { n }
}

// Whether there is trouble since the floor last rose.
fn troubled_by(rose: bool, trouble: bool, troubled: bool) -> bool
    ensures { result ≡ (if rose then false else (trouble || troubled)) }
{
    !rose && (trouble || troubled)
}

fn image_end_of(taken: bool) -> ImageEnd
    ensures { result ≡ (if taken then ImageEnd.Taken else ImageEnd.Stale) }
{
    if taken {
        ImageEnd::Taken
    } else {
        ImageEnd::Stale
    }
}

impl UnitClient {
    ghost use Rattle.std.specs.Prelude.{◌≡◌, ◌≢◌, ℕ, ◌+◌, ◌≤◌, List, OnOk, OnErr, IfOk, IsOk, Some};
    ghost use Rattle.std.specs.Prelude.{◌∷◌, [], ◌++◌, length, take, drop};
    ghost use Rattle.pitch_fields.specs.Limits.{last_sequence};
    ghost use Rattle.pitch_messages.specs.Raw.{IsRaw};
    ghost use Rattle.unit_packets.specs.Blocks.{Block, StaysWithin};
    ghost use Rattle.pitch_model.specs.History.{Entry, Raw, Message, Next, GrpUp, GrpDown};
    ghost use Rattle.pitch_model.specs.History.{GapReply, SpinUp, SpinDown, Advertised, SpinReply};
    ghost use Rattle.pitch_model.specs.History.{ImageMessages, SpinFinished, image_finished};
    ghost use Rattle.pitch_model.specs.History.{bad_image, spin_of};
    ghost use Rattle.heard_items.specs.Heard.{heard_messages, heard_block, heard, is_fresh};
    ghost use Rattle.heard_items.specs.Heard.{fresh_messages, overflowed_messages, block_fresh};
    ghost use Rattle.heard_items.specs.Heard.{block_overflows};
    ghost use Rattle.heard_items.specs.Changes.{IsItem, block_change, image_end_at, change_of};
    ghost use Rattle.pitch_model.specs.Honest.{Honest, IsHonestAt, AreVenues, message_at};
    ghost use Rattle.pitch_model.specs.Reach.{is_overflow, reach};
    ghost use Rattle.pitch_model.specs.Status.{status_of};
    ghost use Rattle.hold_buffer.specs.layers.Holding.{IsHold};
    ghost use Rattle.client_core.specs.Tracks.{Tracks, Keeps};
    ghost use Rattle.client_core.specs.Client.{IsAsBefore, IsStill, Applied};
    ghost use Rattle.client_core.specs.Client.{KeepsRoom, KeepsListRoom, current_book, held_number};
    ghost use Rattle.client_core.specs.Client.{reached, spare_of};
    ghost use Rattle.client_core.specs.layers.Hearing.{Hears, HearsBlock, IsToldBy, OfBlock};
    ghost use Rattle.client_core.specs.layers.Hearing.{OfHistory};
    ghost use Rattle.client_core.specs.layers.Hearing.{Changes, KeepsBlock, KeepsImaged, OfReached};
    ghost use Rattle.client_core.specs.Venues.{IsImage};
    ghost use Rattle.client_core.specs.layers.Items.{NeedsNoMemory, message_count};
    ghost use Rattle.client_core.specs.layers.Hearing.{NotesNothing, StillCanNote, KeepsNoteRoom};
    ghost use Rattle.client_core.specs.layers.Items.{CanNoteItem};
    ghost use Rattle.client_core.specs.layers.Bookkeeping.{HasRoom, IsImageReady};
    ghost use Rattle.client_core.specs.layers.Bookkeeping.{NotesVenues, NotesApplied, Tells};
    ghost use Rattle.client_core.specs.Keeping.{book_size};
    ghost use Rattle.client_core.specs.Weight.{weight, told_by};

    // What changed since the client had a status, as something was heard.
    fn changed_since(&self, before: Status, heard: Heard) -> Change
        ensures change { IsToldBy self.now
            (λ H E. record {
              before = before;
              after = status_of H E;
              fresh = heard.fresh;
              overflows = heard.overflows;
              image = heard.image;
            }) result }
        ensures image { result.image ≡ heard.image }
    {
        Change {
            before,
            after: self.status(),
            fresh: heard.fresh,
            overflows: heard.overflows,
            image: heard.image,
        }
    }

    // Hears a message for which there is room, and notes what is applied.
    fn hear_message<N: Notes>(&mut self, notes: &mut N, sequence: u32, raw: &[u8]) -> Taken
        requires sequence { sequence ≤ last_sequence }
        requires raw { IsRaw raw.now }
        requires room { HasRoom 1 self.old.hold self.old.book.spare }
        requires notes { N.can_note notes.old (1 + held_number self.old) }
        ensures tracks { Hears self.old self.new (λ E. Message sequence raw.now ∷ E) }
        ensures keeps { (V : List Raw)
            → message_at V sequence ≡ Some raw.now → Keeps self.old V → Keeps self.new V }
        ensures fresh { IsToldBy self.old (λ H E. is_fresh H E sequence) result.fresh }
        ensures overflow { IsToldBy self.old
            (λ H E. is_overflow H E (Message sequence raw.now)) result.overflow }
        ensures notes { NotesApplied N.noted
            (reached self.old) (reached self.new) self.old.book self.new.book notes.old notes.new }
        ensures held { reached self.new + held_number self.new
            ≤ (reached self.old + held_number self.old) + 1 }
        ensures venues { (V : List Raw) → message_at V sequence ≡ Some raw.now → Keeps self.old V
            → NotesVenues N.noted self.old self.new V notes.old notes.new }
        ensures room { (left : ℕ) → N.can_note notes.old ((left + 1) + held_number self.old)
            → N.can_note notes.new (left + held_number self.new) }
        ensures spin { self.new.spin ≡ self.old.spin }
    {
        let before = self.hold.floor();
        let taken = take_in(&mut self.hold, &mut self.book, notes, sequence, raw);
        self.top = raised_by(self.top, sequence);
        self.troubled = troubled_by(before < self.hold.floor(), taken.overflow, self.troubled);
        taken
    }

    // Hears messages with rising sequence, for which there is room, and notes what is applied.
    fn hear_raws<N: Notes>(&mut self, notes: &mut N, first: u32, raws: Raws<'_>) -> Counts
        requires first { (1 ≤ first) × (first + length raws ≤ last_sequence + 1) }
        requires room { HasRoom (length raws) self.old.hold self.old.book.spare }
        requires notes { N.can_note notes.old (length raws + held_number self.old) }
        ensures tracks { Hears self.old self.new (heard_messages first raws.entry) }
        ensures keeps { (V : List Raw)
            → AreVenues V first raws.entry → Keeps self.old V → Keeps self.new V }
        ensures fresh { IsToldBy self.old
            (λ H E. fresh_messages H first raws.entry E) result.fresh }
        ensures overflows { IsToldBy self.old
            (λ H E. overflowed_messages H first raws.entry E) result.overflows }
        ensures notes { NotesApplied N.noted
            (reached self.old) (reached self.new) self.old.book self.new.book notes.old notes.new }
        ensures held { reached self.new + held_number self.new
            ≤ (reached self.old + held_number self.old) + length raws.entry }
        ensures venues { (V : List Raw) → AreVenues V first raws.entry → Keeps self.old V
            → NotesVenues N.noted self.old self.new V notes.old notes.new }
        ensures room { KeepsNoteRoom N.can_note
            self.old self.new (length raws.entry) notes.old notes.new }
        ensures spin { self.new.spin ≡ self.old.spin }
    {
        let mut raws = raws;
        let mut sequence = first;
        let mut fresh = 0;
        let mut overflows = 0;
        'messages: while let Some(raw) = raws.next_raw() {
            let taken = self.hear_message(notes, sequence, raw);
            fresh = counted(fresh, taken.fresh);
            overflows = counted(overflows, taken.overflow);
            sequence += 1;
        }
        Counts { fresh, overflows }
    }

    // Hears messages with rising sequence, and notes what is applied. After OutOfMemory no more is
    // noted.
    fn hear_messages<N: Notes>(
        &mut self,
        notes: &mut N,
        first: u32,
        raws: Raws<'_>,
    ) -> Result<Counts, OutOfMemory>
        requires first { (1 ≤ first) × (first + length raws ≤ last_sequence + 1) }
        ensures tracks { OnOk result (Hears self.old self.new (heard_messages first raws.entry)) }
        ensures keeps { OnOk result
            ((V : List Raw) → AreVenues V first raws.entry → Keeps self.old V → Keeps self.new V) }
        ensures fresh { IfOk result
            (λ counts. IsToldBy self.old
            (λ H E. fresh_messages H first raws.entry E) counts.fresh) }
        ensures overflows { IfOk result
            (λ counts. IsToldBy self.old
            (λ H E. overflowed_messages H first raws.entry E) counts.overflows) }
        ensures notes { OnOk result (NotesApplied N.noted (reached self.old)
            (reached self.new) self.old.book self.new.book notes.old notes.new) }
        ensures held { OnOk result (reached self.new + held_number self.new
            ≤ (reached self.old + held_number self.old) + length raws.entry) }
        ensures venues { OnOk result
            ((V : List Raw) → AreVenues V first raws.entry → Keeps self.old V
            → NotesVenues N.noted self.old self.new V notes.old notes.new) }
        ensures room { OnOk result (KeepsNoteRoom N.can_note
            self.old self.new (length raws.entry) notes.old notes.new) }
        ensures err { OnErr result (IsAsBefore self.old self.new) }
        ensures err_notes { OnErr result (NotesNothing N.noted notes.old notes.new) }
        ensures err_room { OnErr result (StillCanNote N.can_note notes.old notes.new) }
        ensures memory { N.can_note notes.old (length raws.entry + held_number self.old)
            → length raws.entry + held_number self.old ≤ spare_of self.old → IsOk result }
        ensures spin { OnOk result (self.new.spin ≡ self.old.spin) }
    {
        if is_old(first, raws.len(), self.hold.floor()) {
            return Ok(self.pass_over(first, &raws));
        }
        notes.reserve(raws.len() + self.hold.len() as usize)?;
        self.make_room(raws.len() as u32)?;
        self.look_up(raws.copy());
        Ok(self.hear_raws(notes, first, raws))
    }

    // Passes over messages with rising sequence that are all old. They change nothing, not even the
    // top, which is never below the floor.
    fn pass_over(&self, first: u32, raws: &Raws<'_>) -> Counts
        requires some { (1 ≤ first) × (1 ≤ length raws.now) }
        requires old { first + length raws.now ≤ self.now.hold.floor + 1 }
        requires hold { IsHold self.now.hold }
        ensures tracks { Hears self.now self.now (heard_messages first raws.now) }
        ensures fresh { IsToldBy self.now (λ H E. fresh_messages H first raws.now E) result.fresh }
        ensures overflows { IsToldBy self.now
            (λ H E. overflowed_messages H first raws.now E) result.overflows }
    {
        NO_MESSAGES
    }

    fn hear_next(&mut self, next: u32)
        requires { 1 ≤ next }
        ensures tracks { Hears self.old self.new (λ E. Next next ∷ E) }
        ensures still { IsStill self.old self.new }
        ensures spin { self.new.spin ≡ self.old.spin }
    {
        self.top = raised_by(self.top, next - 1);
    }

    // Takes in a block, and notes what is applied. After OutOfMemory no more is noted.
    #[tactic(auto, using(crate::proofs::Applying::still_notes, crate::proofs::Applying::still_held, crate::proofs::Applying::still_venues, crate::proofs::Applying::still_room))]
    fn take_block<N: Notes>(
        &mut self,
        notes: &mut N,
        sequence: u32,
        raws: Raws<'_>,
    ) -> Result<Counts, OutOfMemory>
        requires { StaysWithin sequence (length raws) }
        ensures tracks { OnOk result (OfBlock sequence raws.entry (HearsBlock self.old self.new)) }
        ensures keeps { OnOk result (OfBlock sequence raws.entry (KeepsBlock self.old self.new)) }
        ensures fresh { IfOk result
            (λ counts. OfBlock sequence raws.entry
            (λ block. IsToldBy self.old (λ H E. block_fresh H E block) counts.fresh)) }
        ensures overflows { IfOk result
            (λ counts. OfBlock sequence raws.entry
            (λ block. IsToldBy self.old (λ H E. block_overflows H E block) counts.overflows)) }
        ensures notes { OnOk result (NotesApplied N.noted (reached self.old)
            (reached self.new) self.old.book self.new.book notes.old notes.new) }
        ensures held { OnOk result (reached self.new + held_number self.new
            ≤ (reached self.old + held_number self.old) + length raws.entry) }
        ensures venues { OnOk result
            (OfBlock sequence raws.entry
            (λ block. (Image : List Raw → ℕ → List Raw) (V : List Raw) (E : List Entry)
            → Honest Image V (heard_block block E) → Keeps self.old V
            → NotesVenues N.noted self.old self.new V notes.old notes.new)) }
        ensures room { OnOk result (KeepsNoteRoom N.can_note
            self.old self.new (length raws.entry) notes.old notes.new) }
        ensures err { OnErr result (IsAsBefore self.old self.new) }
        ensures err_notes { OnErr result (NotesNothing N.noted notes.old notes.new) }
        ensures err_room { OnErr result (StillCanNote N.can_note notes.old notes.new) }
        ensures memory { N.can_note notes.old (length raws.entry + held_number self.old)
            → length raws.entry + held_number self.old ≤ spare_of self.old → IsOk result }
        ensures heartbeat { raws.entry ≡ [] → IsOk result }
        ensures unsequenced { sequence ≡ 0 → IsOk result }
        ensures spin { OnOk result (self.new.spin ≡ self.old.spin) }
    {
        if sequence == 0 {
            return Ok(NO_MESSAGES);
        }
        if raws.len() == 0 {
            self.hear_next(sequence);
            return Ok(NO_MESSAGES);
        }
        self.hear_messages(notes, sequence, raws)
    }

    /// Hears a block with this sequence and these messages: nothing of an unsequenced one, a
    /// heartbeat where it has no messages, else its messages with rising sequence ("Sequenced Unit
    /// Header", "Heartbeat Messages"). Each message that it applies to the book, of the block or
    /// held, is noted, in their order; `&mut ()` notes nothing.
    ///
    /// After OutOfMemory the client is as before the block, and nothing was noted. That never comes
    /// where the spare is at least the number of the block's messages and of those held, and so
    /// many can be noted, nor for a block with no messages or no sequence. The spare falls by at
    /// most the number of messages that are applied, and so does the room of the notes: the
    /// messages of several blocks, and those held, can be reserved for at once.
    pub fn hear_block<N: Notes>(
        &mut self,
        sequence: u32,
        raws: Raws<'_>,
        notes: &mut N,
    ) -> Result<Change, OutOfMemory>
        requires { StaysWithin sequence (length raws) }
        // Whatever history the client stood for, it now stands for that history and this block.
        ensures tracks { OnOk result (OfBlock sequence raws.entry (HearsBlock self.old self.new)) }
        // In an honest history, where all that is heard comes from one venue, the book stays the
        // one that the venue's messages up to the reach leave, and what is held stays the venue's.
        ensures keeps { OnOk result (OfBlock sequence raws.entry (KeepsBlock self.old self.new)) }
        // Whatever was heard before, the answer is what the block changes: the status before and
        // after it, and how many messages were fresh and overflowed the hold.
        ensures change { IfOk result
            (λ change. OfBlock sequence raws.entry (Changes self.old change)) }
        // Honest or not, the book is what the applied messages make of the one before, by which the
        // reach rose, only their room is used up, and just they were noted.
        ensures applies { OnOk result ((applied : List Raw)
            × N.noted notes.old notes.new (current_book self.old) applied
            × Applied self.old self.new applied) }
        // In an honest history these are the venue's messages after the old reach, up to the new
        // one.
        ensures venues { OnOk result
            (OfBlock sequence raws.entry
            (λ block. OfReached self.old (heard_block block)
            (N.noted notes.old notes.new (current_book self.old)))) }
        // Where there was room for this block and for more messages, there is still room for those:
        // in the book, and in the notes.
        ensures room { OnOk result (KeepsRoom self.old self.new (length raws.entry)) }
        ensures room_notes { OnOk result (KeepsNoteRoom N.can_note
            self.old self.new (length raws.entry) notes.old notes.new) }
        ensures err { OnErr result (IsAsBefore self.old self.new) }
        ensures err_notes { OnErr result (NotesNothing N.noted notes.old notes.new) }
        ensures err_room { OnErr result (StillCanNote N.can_note notes.old notes.new) }
        ensures memory { length raws.entry + held_number self.old ≤ spare_of self.old
            → N.can_note notes.old (length raws.entry + held_number self.old) → IsOk result }
        ensures heartbeat { raws.entry ≡ [] → IsOk result }
        ensures unsequenced { sequence ≡ 0 → IsOk result }
        // Honest or not, what is applied and what is left to pass on was left before, or is the
        // block's.
        ensures weighs { OnOk result (reached self.new + weight self.new
            ≤ (reached self.old + weight self.old) + length raws.entry) }
    {
        let before = self.status();
        let counts = self.take_block(notes, sequence, raws)?;
        Ok(self.changed_since(before, counts.heard()))
    }

    fn hear_grp_up(&mut self)
        ensures tracks { Hears self.old self.new (λ E. GrpUp ∷ E) }
        ensures still { IsStill self.old self.new }
        ensures weighs { weight self.new ≤ weight self.old }
    {
        self.grp_up = true;
    }

    fn hear_grp_down(&mut self)
        ensures tracks { Hears self.old self.new (λ E. GrpDown ∷ E) }
        ensures still { IsStill self.old self.new }
        ensures weighs { weight self.new ≤ weight self.old }
    {
        self.grp_up = false;
        self.grp_owes = false;
    }

    fn hear_gap_reply(&mut self, accepted: bool)
        ensures tracks { Hears self.old self.new (λ E. GapReply accepted ∷ E) }
        ensures still { IsStill self.old self.new }
        ensures weighs { weight self.new ≤ weight self.old }
    {
        self.grp_owes = false;
        self.troubled = !accepted || self.troubled;
    }

    fn hear_spin_up(&mut self)
        ensures tracks { Hears self.old self.new (λ E. SpinUp ∷ E) }
        ensures still { IsStill self.old self.new }
        ensures weighs { weight self.new ≤ weight self.old }
    {
        self.spin_up = true;
    }

    fn hear_spin_down(&mut self)
        ensures tracks { Hears self.old self.new (λ E. SpinDown ∷ E) }
        ensures still { IsStill self.old self.new }
        ensures weighs { weight self.new ≤ weight self.old }
    {
        self.spin_up = false;
        self.advertised = None;
        self.spin = SpinState::NoSpin;
    }

    fn hear_advertised(&mut self, sequence: u32)
        ensures tracks { Hears self.old self.new (λ E. Advertised sequence ∷ E) }
        ensures still { IsStill self.old self.new }
        ensures weighs { weight self.new ≤ weight self.old }
    {
        self.top = raised_by(self.top, sequence);
        self.advertised = raised_by(self.advertised, sequence);
    }

    fn hear_spin_reply(&mut self, sequence: u32, orders: u32, accepted: bool)
        ensures tracks { Hears self.old self.new (λ E. SpinReply sequence orders accepted ∷ E) }
        ensures still { IsStill self.old self.new }
        ensures weighs { weight self.new ≤ weight self.old + 1 }
    {
        self.spin.reply(self.alloc, sequence, orders, accepted);
    }

    fn hear_image_messages(&mut self, raws: Raws<'_>) -> Result<(), OutOfMemory>
        ensures tracks { OnOk result (Hears self.old self.new (λ E. ImageMessages raws.entry ∷ E)) }
        ensures still { IsStill self.old self.new }
        ensures err { OnErr result (IsAsBefore self.old self.new) }
        ensures weighs { OnOk result (weight self.new ≤ weight self.old + length raws.entry) }
    {
        self.spin.take_more(raws)
    }

    // Hears the end of a spin, whose image has room for what is held.
    fn end_spin(&mut self, sequence: u32) -> ImageEnd
        requires { IsImageReady (held_number self.old) sequence self.old.spin }
        ensures tracks { Hears self.old self.new (λ E. SpinFinished sequence ∷ E) }
        ensures keeps { (Image : List Raw → ℕ → List Raw) (V : List Raw)
            → IsImage Image V → (H : ℕ) (E : List Entry) → Tracks self.old H E
            → IsHonestAt Image V E (SpinFinished sequence) → Keeps self.old V → Keeps self.new V }
        ensures image { IsToldBy self.old
            (λ H E. image_end_at (reach H E) (image_finished (spin_of E) sequence)
            (bad_image (spin_of E) sequence)) result }
        ensures still { result ≢ ImageEnd.Taken → IsStill self.old self.new }
        ensures weighs { result ≢ ImageEnd.Taken → weight self.new ≤ weight self.old }
        ensures weighs_taken { result ≡ ImageEnd.Taken
            → (1 + book_size (current_book self.new)) + weight self.new ≤ weight self.old }
    {
        match self.spin.finish(sequence) {
            Finish::Nothing => ImageEnd::NoImage,
            Finish::BadCount { promised, got } => ImageEnd::Bad { promised, got },
            Finish::Image {
                sequence: through,
                book,
            } => {
                self.top = raised_by(self.top, through);
                let taken = take_image(&mut self.hold, &mut self.book, through, book);
                self.troubled = troubled_by(taken, false, self.troubled);
                image_end_of(taken)
            }
        }
    }

    fn hear_spin_finished(&mut self, sequence: u32) -> Result<ImageEnd, OutOfMemory>
        ensures tracks { OnOk result (Hears self.old self.new (λ E. SpinFinished sequence ∷ E)) }
        ensures keeps { OnOk result ((Image : List Raw → ℕ → List Raw) (V : List Raw)
            → IsImage Image V → (H : ℕ) (E : List Entry) → Tracks self.old H E
            → IsHonestAt Image V E (SpinFinished sequence) → Keeps self.old V → Keeps self.new V) }
        ensures image { IfOk result
            (IsToldBy self.old
            (λ H E. image_end_at (reach H E) (image_finished (spin_of E) sequence)
            (bad_image (spin_of E) sequence))) }
        ensures still { IfOk result (λ image. image ≢ ImageEnd.Taken → IsStill self.old self.new) }
        ensures err { OnErr result (IsAsBefore self.old self.new) }
        ensures weighs { IfOk result
            (λ image. image ≢ ImageEnd.Taken → weight self.new ≤ weight self.old) }
        ensures weighs_taken { IfOk result (λ image. image ≡ ImageEnd.Taken
            → (1 + book_size (current_book self.new)) + weight self.new ≤ weight self.old) }
    {
        let held = self.hold.len();
        self.spin.make_ready(sequence, held)?;
        Ok(self.end_spin(sequence))
    }

    // Hears an item, and notes what is applied. After OutOfMemory no more is noted.
    #[tactic(auto, using(crate::proofs::Applying::still_keeps, crate::proofs::Applying::still_notes, crate::proofs::Applying::still_held, crate::proofs::Applying::still_venues, crate::proofs::Applying::still_room))]
    fn hear_item<N: Notes>(&mut self, notes: &mut N, item: &Item) -> Result<Heard, OutOfMemory>
        requires { IsItem item.now }
        ensures tracks { OnOk result (Hears self.old self.new (heard item.now)) }
        ensures keeps { OnOk result (KeepsImaged self.old self.new (heard item.now)) }
        ensures heard { IfOk result (λ told. OfHistory self.old (λ H E. Tells H E item.now told)) }
        ensures notes { IfOk result (λ told. told.image ≢ ImageEnd.Taken → NotesApplied N.noted
            (reached self.old) (reached self.new) self.old.book self.new.book notes.old notes.new) }
        ensures held { IfOk result
            (λ told. told.image ≢ ImageEnd.Taken → reached self.new + held_number self.new
            ≤ (reached self.old + held_number self.old) + message_count item.now) }
        ensures venues { IfOk result
            (λ told. told.image ≢ ImageEnd.Taken
            → (Image : List Raw → ℕ → List Raw) (V : List Raw) (E : List Entry)
            → Honest Image V (heard item.now E) → Keeps self.old V
            → NotesVenues N.noted self.old self.new V notes.old notes.new) }
        ensures room { IfOk result (λ told. told.image ≢ ImageEnd.Taken → KeepsNoteRoom N.can_note
            self.old self.new (message_count item.now) notes.old notes.new) }
        ensures taken { IfOk result (λ told. told.image ≡ ImageEnd.Taken → notes.new ≡ notes.old) }
        ensures err { OnErr result (IsAsBefore self.old self.new) }
        ensures err_notes { OnErr result (NotesNothing N.noted notes.old notes.new) }
        ensures err_room { OnErr result (StillCanNote N.can_note notes.old notes.new) }
        ensures memory { NeedsNoMemory item.now (held_number self.old) (spare_of self.old)
            → CanNoteItem item.now (held_number self.old) (N.can_note notes.old) → IsOk result }
        ensures weighs { IfOk result (λ told. told.image ≢ ImageEnd.Taken → reached self.new
            + weight self.new ≤ (reached self.old + weight self.old) + told_by item.now) }
        ensures weighs_taken { IfOk result (λ told. told.image ≡ ImageEnd.Taken → (2 + book_size
            (current_book self.new)) + weight self.new ≤ weight self.old + told_by item.now) }
    {
        match item {
            Item::Messages { first, raws } => {
                let counts = self.hear_messages(notes, *first, raws.raws())?;
                return Ok(counts.heard());
            }
            Item::Next { next } => self.hear_next(*next),
            Item::Nothing => {}
            Item::GrpUp => self.hear_grp_up(),
            Item::GrpDown => self.hear_grp_down(),
            Item::GapReply { status, .. } => self.hear_gap_reply(*status == b'A'),
            Item::SpinUp => self.hear_spin_up(),
            Item::SpinDown => self.hear_spin_down(),
            Item::Advertised { sequence } => self.hear_advertised(*sequence),
            Item::SpinReply {
                sequence,
                orders,
                status,
            } => self.hear_spin_reply(*sequence, *orders, *status == b'A'),
            Item::ImageMessages { raws } => self.hear_image_messages(raws.raws())?,
            Item::SpinFinished { sequence } => {
                let image = self.hear_spin_finished(*sequence)?;
                return Ok(Heard {
                    image,
                    ..NOTHING_NEW
                });
            }
        }
        Ok(NOTHING_NEW)
    }

    /// Hears an item, and notes each message that it applies to the book, in their order. Where an
    /// image replaced the book nothing is noted.
    ///
    /// After OutOfMemory the client is as before the item, and nothing was noted. That never comes
    /// for messages where the spare is at least their number and that of those held, and so many
    /// can be noted, nor for any item but messages, messages of an image and the end of a spin.
    /// Unless an image replaces the book, the spare falls by at most the number of messages that
    /// are applied, and so does the room of the notes: the messages of several items, and those
    /// held, can be reserved for at once.
    pub fn hear_with<N: Notes>(&mut self, item: &Item, notes: &mut N) -> Result<Change, OutOfMemory>
        requires { IsItem item.now }
        // Whatever history the client stood for, it now stands for that history and this item.
        ensures tracks { OnOk result (Hears self.old self.new (heard item.now)) }
        // In an honest history, where all that is heard comes from one venue, the book stays the
        // one that the venue's messages up to the reach leave, and what is held stays the venue's.
        // An image may be any messages that leave the book for which it stands.
        ensures keeps { OnOk result (KeepsImaged self.old self.new (heard item.now)) }
        // Whatever was heard before, the answer is what the item changes: the status before and
        // after it, how many messages were fresh and overflowed the hold, and an image's end.
        ensures change { IfOk result (IsToldBy self.old (λ H E. change_of H E item.now)) }
        // Honest or not, the book is what the applied messages make of the one before, by which the
        // reach rose, only their room is used up, and just they were noted.
        ensures applies { IfOk result (λ change. change.image ≢ ImageEnd.Taken
            → (applied : List Raw) × N.noted notes.old notes.new (current_book self.old) applied
            × Applied self.old self.new applied) }
        // In an honest history these are the venue's messages after the old reach, up to the new
        // one.
        ensures venues { IfOk result
            (λ change. change.image ≢ ImageEnd.Taken → OfReached self.old (heard item.now)
            (N.noted notes.old notes.new (current_book self.old))) }
        ensures taken { IfOk result
            (λ change. change.image ≡ ImageEnd.Taken → notes.new ≡ notes.old) }
        // Where there was room for this item and for more messages, there is still room for those:
        // in the book, and in the notes.
        ensures room { IfOk result (λ change. change.image ≢ ImageEnd.Taken
            → KeepsRoom self.old self.new (message_count item.now)) }
        ensures room_notes { IfOk result
            (λ change. change.image ≢ ImageEnd.Taken → KeepsNoteRoom N.can_note
            self.old self.new (message_count item.now) notes.old notes.new) }
        ensures err { OnErr result (IsAsBefore self.old self.new) }
        ensures err_notes { OnErr result (NotesNothing N.noted notes.old notes.new) }
        ensures err_room { OnErr result (StillCanNote N.can_note notes.old notes.new) }
        ensures memory { NeedsNoMemory item.now (held_number self.old) (spare_of self.old)
            → CanNoteItem item.now (held_number self.old) (N.can_note notes.old) → IsOk result }
        // Honest or not, what is applied and what is left to pass on was left before, or is the
        // item's; and so is the book of an image that was taken, with a Unit Clear and a Time.
        ensures weighs { IfOk result (λ change. change.image ≢ ImageEnd.Taken → reached self.new
            + weight self.new ≤ (reached self.old + weight self.old) + told_by item.now) }
        ensures weighs_taken { IfOk result (λ change. change.image ≡ ImageEnd.Taken → (2 + book_size
            (current_book self.new)) + weight self.new ≤ weight self.old + told_by item.now) }
    {
        let before = self.status();
        let heard = self.hear_item(notes, item)?;
        Ok(self.changed_since(before, heard))
    }

    /// Hears an item as `hear_with` does, and notes nothing. After OutOfMemory the client is as
    /// before the item.
    ///
    /// That never comes for messages where the spare is at least their number and that of those
    /// held, nor for any item but messages, messages of an image and the end of a spin. Unless an
    /// image replaces the book, the spare falls by at most the number of messages that are applied.
    pub fn hear(&mut self, item: &Item) -> Result<Change, OutOfMemory>
        requires { IsItem item.now }
        // Whatever history the client stood for, it now stands for that history and this item.
        ensures tracks { OnOk result (Hears self.old self.new (heard item.now)) }
        // In an honest history, where all that is heard comes from one venue, the book stays the
        // one that the venue's messages up to the reach leave, and what is held stays the venue's.
        // An image may be any messages that leave the book for which it stands.
        ensures keeps { OnOk result (KeepsImaged self.old self.new (heard item.now)) }
        // Whatever was heard before, the answer is what the item changes: the status before and
        // after it, how many messages were fresh and overflowed the hold, and an image's end.
        ensures change { IfOk result (IsToldBy self.old (λ H E. change_of H E item.now)) }
        // Honest or not, the book is what the applied messages make of the one before, and only
        // their room is used up.
        ensures applies { IfOk result (λ change. change.image ≢ ImageEnd.Taken
            → (applied : List Raw) × Applied self.old self.new applied) }
        // Where there was room for this item and for more messages, there is still room for those.
        ensures room { IfOk result (λ change. change.image ≢ ImageEnd.Taken
            → KeepsRoom self.old self.new (message_count item.now)) }
        ensures err { OnErr result (IsAsBefore self.old self.new) }
        ensures memory { NeedsNoMemory item.now (held_number self.old) (spare_of self.old)
            → IsOk result }
    {
        self.hear_with(item, &mut ())
    }

    /// Hears an item as `hear_with` does, and appends to `applied` the messages that it applied to
    /// the book, in their order. Where an image replaced the book, nothing is appended.
    ///
    /// After OutOfMemory both are as before the item. That never comes where it wouldn't in `hear`
    /// and `applied` too has room for the item's messages and those held. What the caller reserved
    /// in `applied` stays, but for the messages that are appended: the messages of several items,
    /// and those held, can be reserved for at once.
    pub fn hear_into(&mut self, item: &Item, applied: &mut RawList) -> Result<Change, OutOfMemory>
        requires { IsItem item.now }
        // Whatever history the client stood for, it now stands for that history and this item.
        ensures tracks { OnOk result (Hears self.old self.new (heard item.now)) }
        // In an honest history, where all that is heard comes from one venue, the book stays the
        // one that the venue's messages up to the reach leave, and what is held stays the venue's.
        // An image may be any messages that leave the book for which it stands.
        ensures keeps { OnOk result (KeepsImaged self.old self.new (heard item.now)) }
        // Whatever was heard before, the answer is what the item changes: the status before and
        // after it, how many messages were fresh and overflowed the hold, and an image's end.
        ensures change { IfOk result (IsToldBy self.old (λ H E. change_of H E item.now)) }
        // Honest or not, what is appended are the applied messages, by which the reach rose.
        ensures applies { IfOk result (λ change. change.image ≢ ImageEnd.Taken → (more : List Raw)
            × (applied.new.items ≡ applied.old.items ++ more) × Applied self.old self.new more) }
        // In an honest history these are the venue's messages after the old reach, up to the new
        // one.
        ensures venues { IfOk result
            (λ change. change.image ≢ ImageEnd.Taken
            → OfReached self.old (heard item.now)
            (λ raws. applied.new.items ≡ applied.old.items ++ raws)) }
        ensures taken { IfOk result
            (λ change. change.image ≡ ImageEnd.Taken → applied.new ≡ applied.old) }
        // Where there was room for this item and for more messages, there is still room for those:
        // in the book, and in the list.
        ensures room { IfOk result (λ change. change.image ≢ ImageEnd.Taken
            → KeepsRoom self.old self.new (message_count item.now)) }
        ensures room_applied { IfOk result (λ change. change.image ≢ ImageEnd.Taken → KeepsListRoom
            self.old self.new (message_count item.now) applied.old.spare applied.new.spare) }
        ensures err { OnErr result (IsAsBefore self.old self.new) }
        ensures err_applied { OnErr result (applied.new.items ≡ applied.old.items) }
        ensures err_room { OnErr result (applied.old.spare ≤ applied.new.spare) }
        ensures memory { NeedsNoMemory item.now (held_number self.old) (spare_of self.old)
            → NeedsNoMemory item.now (held_number self.old) applied.old.spare → IsOk result }
        // Honest or not, what is appended and what is left to pass on was left before, or is the
        // item's; and so is the book of an image that was taken, with a Unit Clear and a Time.
        ensures weighs { IfOk result
            (λ change. change.image ≢ ImageEnd.Taken → length applied.new.items + weight self.new
            ≤ (length applied.old.items + weight self.old) + told_by item.now) }
        ensures weighs_taken { IfOk result (λ change. change.image ≡ ImageEnd.Taken → (2 + book_size
            (current_book self.new)) + weight self.new ≤ weight self.old + told_by item.now) }
    {
        self.hear_with(item, applied)
    }
}
