//! The gap store: a ring of a unit's last messages, from which ranges are copied or packed.

ghost use Rattle.std.specs.Prelude.{◌≡◌, ℕ, ◌+◌, ◌-◌, ◌≤◌, ◌<◌, List, [], ◌∷◌, ◌++◌, true, OnOk};
ghost use Rattle.std.specs.Prelude.{OnErr, IfOk, length, take, drop};
ghost use Rattle.pitch_fields.specs.Limits.{last_sequence, most_held};
ghost use Rattle.unit_packets.specs.Blocks.{StaysWithin};
ghost use Rattle.unit_packets.specs.Packing.{bytes_in};
ghost use Rattle.unit_packets.specs.layers.Packings.{unpacked};
ghost use Rattle.gap_store.specs.declared.found.Found.TheVariants.{Kept};
ghost use Rattle.gap_store.specs.Look.{View, Store, store_of, look};
ghost use Rattle.gap_store.specs.layers.Looking.{LooksAt, FindsAt, PacksAt, PacksRange};
ghost use Rattle.gap_store.specs.layers.Looking.{AnswersLook};
ghost use Rattle.gap_store.specs.layers.Looking.{AnswersPack, first_kept};

use crate::found::{Found, GapLookup};
use circular_buffer::HeapCircularBuffer;
use pitch_fields::OutOfMemory;
use pitch_messages::{Raw, RawList};
use std::alloc::Global;
use std::marker::Model;
use unit_packets::{DatagramList, Packer};

/// The last messages of a unit, in their order. All memory is taken when the store is made.
#[derive(Drop)]
pub struct GapStore {
    ring: HeapCircularBuffer<Raw>,
    pushed: u32,
}

impl Model for GapStore {
    ghost use Rattle.pitch_fields.specs.Limits.{last_sequence};
    ghost use Rattle.std.specs.Prelude.{◌≡◌, ◌≤◌, length, min};
    ghost use Rattle.gap_store.specs.Look.{Store};

    ghost Value = { Store };

    ghost view = { λ s. record {
      items = s.ring.items;
      room = s.ring.capacity;
      pushed = s.pushed;
    } };

    ghost invariant = { λ s. (length s.ring.items ≡ min s.pushed s.ring.capacity)
        × (1 ≤ s.ring.capacity) × (s.pushed ≤ last_sequence) };
}

// Appends so many messages of the ring from a place on. The list is as before after OutOfMemory.
fn copy_out(
    ring: &HeapCircularBuffer<Raw>,
    at: usize,
    count: u16,
    out: &mut RawList,
) -> Result<(), OutOfMemory>
    requires { at + count ≤ length ring.now.items }
    ensures ok { IfOk result (λ _. out.new.items
        ≡ out.old.items ++ take count (drop at ring.now.items)) }
    ensures err { OnErr result (out.new.items ≡ out.old.items) }
{
    let before = out.len();
    let held = ring.len();
    prove!(at + count as usize <= held);
    'copies: for i in 0..count {
        let Some(raw) = ring.get(at + i as usize) else {
            unreachable!();
        };
        match out.push(raw) {
            Ok(()) => {}
            Err(error) => {
                out.truncate(before);
                return Err(error);
            }
        }
    }
    Ok(())
}

// Appends the datagrams of so many messages of the ring from a place on; the packer packed none
// yet. Each message is copied to where it stays. The list is as before after OutOfMemory.
fn pack_out(
    ring: &HeapCircularBuffer<Raw>,
    at: usize,
    count: u16,
    packer: Packer,
    out: &mut DatagramList,
) -> Result<(), OutOfMemory>
    requires there { at + count ≤ length ring.now.items }
    requires within { StaysWithin packer.sequence count }
    requires begins { packer ≡ unpacked packer.unit packer.sequence }
    ensures ok { OnOk result (PacksRange packer.unit packer.sequence
        (take count (drop at ring.now.items)) (bytes_in out.old.items) (bytes_in out.new.items)) }
    ensures err { OnErr result (out.new.items ≡ out.old.items) }
{
    let before = out.len();
    let held = ring.len();
    prove!(at + count as usize <= held);
    let mut packer = packer;
    'packs: for i in 0..count {
        let Some(raw) = ring.get(at + i as usize) else {
            unreachable!();
        };
        match packer.push_bytes(raw.bytes(), out) {
            Ok(()) => {}
            Err(error) => {
                out.truncate(before);
                return Err(error);
            }
        }
    }
    match packer.finish(out) {
        Ok(()) => Ok(()),
        Err(error) => {
            out.truncate(before);
            Err(error)
        }
    }
}

impl GapStore {
    /// An empty store, with all its memory.
    ///
    /// It keeps the last `kept` messages, at least 1 and at most 65,536.
    pub fn make(alloc: Global, kept: u32) -> Result<GapStore, OutOfMemory>
        requires least { 1 ≤ kept }
        requires most { kept ≤ most_held }
        ensures { IfOk result (λ store. store ≡ store_of (record { messages = []; kept = kept })) }
    {
        let ring = HeapCircularBuffer::with_capacity(alloc, kept as usize)?;
        Ok(GapStore { ring, pushed: 0 })
    }

    /// Appends the next message of the unit. Where the store is full, the oldest goes. It takes no
    /// memory.
    ///
    /// Fewer than 4,294,967,294 messages may have been pushed before, as [`GapStore::last`] tells.
    #[tactic(auto, using(crate::proofs::Keeping::pushed_on))]
    pub fn push(&mut self, raw: &Raw)
        requires { self.old.pushed < last_sequence }
        // Of all messages of which the store kept the last: it keeps the last of them with this
        // one.
        ensures { (v : View) → self.old ≡ store_of v → self.new
            ≡ store_of (record { messages = v.messages ++ raw.now ∷ []; kept = v.kept }) }
    {
        let _ = self.ring.push_back(raw.copy());
        self.pushed += 1;
    }

    // The sequence of the oldest message that is kept; 1 before the first message.
    fn oldest(&self) -> u32
        ensures { result ≡ self.now.pushed - length self.now.items + 1 }
    {
        self.pushed - self.ring.len() as u32 + 1
    }

    /// Whether the messages of a range are kept, as [`GapLookup::find`], of a store that is only
    /// read. It takes no memory.
    pub fn found(&self, first: u32, count: u16) -> Found
        requires first { 1 ≤ first }
        requires count { 1 ≤ count }
        // Of all messages of which the store keeps the last.
        ensures found { (v : View) → self.now ≡ store_of v → result ≡ look v first count }
        ensures kept { result ≡ Kept → (self.now.pushed - length self.now.items + 1 ≤ first)
            × (first + count - 1 ≤ self.now.pushed) }
    {
        let last = first as u64 + count as u64 - 1;
        if last > self.pushed as u64 {
            return Found::Ahead { last: self.pushed };
        }
        let oldest = self.oldest();
        if first < oldest {
            return Found::NotKept { first: oldest };
        }
        Found::Kept
    }

    /// The sequence of the oldest message that is kept, or None exactly where nothing was pushed.
    pub fn first(&self) -> Option<u32>
        // Of all messages of which the store keeps the last.
        ensures { (v : View) → self.now ≡ store_of v → result ≡ first_kept v }
    {
        if self.pushed == 0 {
            return None;
        }
        Some(self.oldest())
    }

    /// How many messages were pushed so far, which is the sequence of the last one.
    pub fn last(&self) -> u32
        // Of all messages of which the store keeps the last: how many they are.
        ensures last { (v : View) → self.now ≡ store_of v → result ≡ length v.messages }
        ensures pushed { result ≡ self.now.pushed }
        ensures within { result ≤ last_sequence }
    {
        self.pushed
    }
}

impl GapStore {
    /// Looks up a range as [`GapLookup::look`] does, of a store that is only read. `out` is as
    /// before after all but Kept.
    pub fn copy_range(
        &self,
        first: u32,
        count: u16,
        out: &mut RawList,
    ) -> Result<Found, OutOfMemory>
        requires first { 1 ≤ first }
        requires count { 1 ≤ count }
        // Of all messages of which the store keeps the last.
        ensures found { IfOk result (λ found. (v : View)
            → self.now ≡ store_of v → AnswersLook v first count found out.old.items out.new.items) }
        // A range ends at the last sequence that a message can have.
        ensures within { OnOk result
            (first + length out.new.items ≤ (last_sequence + 1) + length out.old.items) }
        ensures err { OnErr result (out.new.items ≡ out.old.items) }
    {
        match self.found(first, count) {
            Found::Ahead { last } => return Ok(Found::Ahead { last }),
            Found::NotKept { first } => return Ok(Found::NotKept { first }),
            Found::Kept => {}
        }
        let at = (first - self.oldest()) as usize;
        copy_out(&self.ring, at, count, out)?;
        Ok(Found::Kept)
    }

    /// Looks up a range and packs it as [`GapLookup::pack`] does, of a store that is only read.
    /// `out` is as before after all but Kept.
    pub fn pack_range(
        &self,
        alloc: Global,
        unit: u8,
        first: u32,
        count: u16,
        out: &mut DatagramList,
    ) -> Result<Found, OutOfMemory>
        requires first { 1 ≤ first }
        requires count { 1 ≤ count }
        // Of all messages of which the store keeps the last.
        ensures found { IfOk result (λ found. (v : View) → self.now ≡ store_of v → AnswersPack
            v unit first count found (bytes_in out.old.items) (bytes_in out.new.items)) }
        ensures err { OnErr result (out.new.items ≡ out.old.items) }
    {
        match self.found(first, count) {
            Found::Ahead { last } => return Ok(Found::Ahead { last }),
            Found::NotKept { first } => return Ok(Found::NotKept { first }),
            Found::Kept => {}
        }
        let at = (first - self.oldest()) as usize;
        let packer = Packer::make(alloc, unit, first);
        pack_out(&self.ring, at, count, packer, out)?;
        Ok(Found::Kept)
    }

    /// A store that keeps the same, with memory of its own. This store stays as it was.
    pub fn copy(&self, alloc: Global) -> Result<GapStore, OutOfMemory>
        ensures { IfOk result (λ store. store ≡ self.now) }
    {
        let mut ring = HeapCircularBuffer::with_capacity(alloc, self.ring.capacity())?;
        'kept: for i in 0..self.ring.len() {
            let Some(raw) = self.ring.get(i) else {
                unreachable!();
            };
            let _ = ring.push_back(raw.copy());
        }
        Ok(GapStore {
            ring,
            pushed: self.pushed,
        })
    }
}

impl GapLookup for GapStore {
    ghost shows = { λ s v. s ≡ store_of v };

    ghost still = { true };

    fn look(&mut self, first: u32, count: u16, out: &mut RawList) -> Result<Found, OutOfMemory> {
        self.copy_range(first, count, out)
    }

    fn find(&mut self, first: u32, count: u16) -> Result<Found, OutOfMemory> {
        Ok(self.found(first, count))
    }

    fn pack(
        &mut self,
        alloc: Global,
        unit: u8,
        first: u32,
        count: u16,
        out: &mut DatagramList,
    ) -> Result<Found, OutOfMemory> {
        self.pack_range(alloc, unit, first, count, out)
    }
}
