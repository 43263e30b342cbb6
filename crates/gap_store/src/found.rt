//! The trait of a gap source, and what a look-up finds: a range kept, gone or not there yet.

ghost use Rattle.std.specs.Prelude.{◌≡◌, ℕ, ◌+◌, ◌≤◌, Bool, true, List, length, OnErr, OnOk, IfOk};
ghost use Rattle.pitch_fields.specs.Limits.{last_sequence};
ghost use Rattle.unit_packets.specs.Packing.{bytes_in};
ghost use Rattle.gap_store.specs.Look.{View};
ghost use Rattle.gap_store.specs.layers.Looking.{LooksAt, FindsAt, PacksAt};

use pitch_fields::OutOfMemory;
use pitch_messages::RawList;
use std::alloc::Global;
use unit_packets::DatagramList;

/// What became of a look-up.
#[derive(Clone, Copy, PartialEq, Eq)]
pub enum Found {
    /// All messages of the range are kept.
    Kept,
    /// The range ends above the last message, which has this sequence.
    Ahead { last: u32 },
    /// The range begins below the oldest message that is kept, which has this sequence.
    NotKept { first: u32 },
}

/// Where messages of a unit can be looked up by their sequences.
pub trait GapLookup {
    /// The views that a look-up may have of it: the messages so far, of which so many of the last
    /// are kept. Both only grow.
    ghost shows: { Self → View → Type 0 };

    /// Whether nobody else pushes there: then a look-up leaves it as it was.
    ghost still: { Bool };

    /// Looks up `count` messages from the sequence `first` on, and appends them where all are kept.
    /// Both numbers are at least 1. The answer is that of what is to be seen after the call. `out`
    /// is as before after all but Kept.
    fn look(&mut self, first: u32, count: u16, out: &mut RawList) -> Result<Found, OutOfMemory>
        requires first { 1 ≤ first }
        requires count { 1 ≤ count }
        // Of every view that it shows before: the answer is right at a view that it shows after,
        // which is no earlier.
        ensures found { IfOk result (λ found. (v : View) → shows self.old v
            → LooksAt (shows self.new) v first count found out.old.items out.new.items) }
        // A range ends at the last sequence that a message can have.
        ensures within { OnOk result
            (first + length out.new.items ≤ (last_sequence + 1) + length out.old.items) }
        ensures err { OnErr result (out.new.items ≡ out.old.items) }
        ensures same { still ≡ true → self.new ≡ self.old }
        // Of every view that it showed before: without memory it shows the same.
        ensures shown { OnErr result ((v : View) → shows self.old v → shows self.new v) };

    /// Looks for `count` messages from the sequence `first` on, and hands out none. Both numbers
    /// are at least 1. The answer is that of what is to be seen after the call.
    fn find(&mut self, first: u32, count: u16) -> Result<Found, OutOfMemory>
        requires first { 1 ≤ first }
        requires count { 1 ≤ count }
        // Of every view that it shows before: the answer is right at a view that it shows after,
        // which is no earlier.
        ensures found { IfOk result (λ found. (v : View)
            → shows self.old v → FindsAt (shows self.new) v first count found) }
        ensures same { still ≡ true → self.new ≡ self.old }
        // Of every view that it showed before: without memory it shows the same.
        ensures shown { OnErr result ((v : View) → shows self.old v → shows self.new v) };

    /// Looks up `count` messages from the sequence `first` on, and where all are kept appends them
    /// packed into datagrams of a unit, each message copied once. Both numbers are at least 1. The
    /// answer is that of what is to be seen after the call. `out` is as before after all but Kept.
    fn pack(
        &mut self,
        alloc: Global,
        unit: u8,
        first: u32,
        count: u16,
        out: &mut DatagramList,
    ) -> Result<Found, OutOfMemory>
        requires first { 1 ≤ first }
        requires count { 1 ≤ count }
        // Of every view that it shows before: the answer is right at a view that it shows after,
        // which is no earlier, and the packing of the range there was appended.
        ensures found { IfOk result (λ found. (v : View) → shows self.old v → PacksAt (shows
            self.new) v unit first count found (bytes_in out.old.items) (bytes_in out.new.items)) }
        ensures err { OnErr result (out.new.items ≡ out.old.items) }
        ensures same { still ≡ true → self.new ≡ self.old }
        // Of every view that it showed before: without memory it shows the same.
        ensures shown { OnErr result ((v : View) → shows self.old v → shows self.new v) };
}
