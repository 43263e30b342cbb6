//! The ring in which a hold keeps its messages, sorted by sequence.

ghost use Rattle.std.specs.Prelude.{◌≡◌, ◌==◌, ℕ, ◌<◌, ◌≤◌, ◌+◌, ◌^◌, [], ◌∷◌, ◌++◌, length, take};
ghost use Rattle.std.specs.Prelude.{drop, insert, filter, nat_lt, IfOk, IfErr, slice_get};
ghost use Rattle.std.specs.Option.{option_map};
ghost use Rattle.circular_buffer.specs.Buffer.{buffer};
ghost use Rattle.hold_buffer.specs.layers.Places.{IsRising, IsKeyAt, IsGap};

use circular_buffer::HeapCircularBuffer;
use pitch_fields::OutOfMemory;
use pitch_messages::Raw;
use slab::Slab;
use std::alloc::Global;
use std::cmp::Ordering;
use std::marker::Model;

// Sequences, each with the place of its message, in a block of memory that never grows.
type Order = HeapCircularBuffer<(u32, u32)>;

// Messages with their sequences, in memory that never grows. A message stays where it was put, and
// what moves to make way for another one is its entry in the order, of 8 bytes.
#[derive(Drop)]
pub(crate) struct Ring {
    order: Order,
    raws: Slab<Raw>,
}

impl Model for Ring {
    ghost use Rattle.std.specs.Prelude.{ℕ, List};
    ghost use Rattle.std.specs.Coded.{coded×, coded_ℕ, coded_list};
    ghost use Rattle.circular_buffer.specs.Buffer.{Buffer, buffer_code};
    ghost use Rattle.hold_buffer.specs.layers.Places.{ring_of, IsRingOf};

    ghost Value = { Buffer (ℕ × List ℕ) };

    ghost coded = { buffer_code (coded× coded_ℕ (coded_list coded_ℕ)) };

    ghost view = { λ r. ring_of r.order r.raws };

    ghost invariant = { λ r. IsRingOf r.order r.raws };
}

impl Ring {
    // A ring for so many messages, without any.
    pub(crate) fn make(alloc: Global, limit: u32) -> Result<Ring, OutOfMemory>
        ensures { IfOk result (λ ring. ring ≡ buffer [] limit) }
    {
        let order = HeapCircularBuffer::with_capacity(alloc, limit as usize)?;
        let raws = Slab::with_capacity(alloc, limit as usize)?;
        // An entry has 32 bits for a place. No allocator gives that many.
        if raws.capacity() > u32::MAX as usize {
            return Err(OutOfMemory);
        }
        Ok(Ring { order, raws })
    }

    // How many messages there are.
    pub(crate) fn len(&self) -> usize
        ensures len { result ≡ length self.now.items }
        ensures within { (result ≤ self.now.capacity) × (self.now.capacity < 2 ^ 63) }
    {
        self.order.len()
    }

    // How many messages there may be.
    pub(crate) fn capacity(&self) -> usize
        ensures { result ≡ self.now.capacity }
    {
        self.order.capacity()
    }

    // Whether there is no message.
    pub(crate) fn is_empty(&self) -> bool
        ensures { result ≡ (length self.now.items == 0) }
    {
        self.order.is_empty()
    }

    // The sequence of the first message.
    pub(crate) fn first_sequence(&self) -> Option<u32>
        ensures { result ≡ option_map (λ e. e.0) (slice_get self.now.items 0) }
    {
        self.order.front().map(|entry| entry.0)
    }

    // The first message with its sequence.
    pub(crate) fn front(&self) -> Option<(u32, &Raw)>
        ensures { option_map (λ message. (message.0, message.1.now)) result
            ≡ slice_get self.now.items 0 }
    {
        let entry = self.order.front()?;
        let raw = self.raws.get(entry.1 as usize)?;
        Some((entry.0, raw))
    }

    // Takes the first message out.
    pub(crate) fn pop_front(&mut self) -> Option<(u32, Raw)>
        ensures value { result ≡ slice_get self.old.items 0 }
        ensures items { self.new ≡ buffer (drop 1 self.old.items) self.old.capacity }
    {
        let (sequence, place) = self.order.pop_front()?;
        let raw = self.raws.remove(place as usize);
        Some((sequence, raw))
    }

    // Puts a message in, before those from a place of the order on.
    pub(crate) fn insert(&mut self, at: usize, sequence: u32, raw: Raw)
        requires within { at ≤ length self.old.items }
        requires room { length self.old.items < self.old.capacity }
        ensures { self.new
            ≡ buffer (insert self.old.items at (sequence, raw)) self.old.capacity }
    {
        let place = self.raws.insert_reserved(raw);
        insert_at(&mut self.order, at, (sequence, place as u32));
    }

    // Puts a message in and takes all others out.
    pub(crate) fn replace_all(&mut self, sequence: u32, raw: Raw)
        requires room { 0 < self.old.capacity }
        ensures { self.new ≡ buffer ((sequence, raw) ∷ []) self.old.capacity }
    {
        self.clear();
        self.insert(0, sequence, raw);
    }

    // Takes all messages out.
    fn clear(&mut self)
        ensures { self.new ≡ buffer [] self.old.capacity }
    {
        self.order.clear();
        self.raws.clear();
    }

    // Takes the messages at or below a sequence out.
    pub(crate) fn drop_through(&mut self, sequence: u32)
        requires { IsRising self.old.items }
        ensures { self.new ≡ buffer
            (filter (λ e. nat_lt sequence e.0) self.old.items) self.old.capacity }
    {
        let through = self.count_through(sequence);
        self.drop_front(through);
    }

    // How many messages are at or below a sequence; they are the first ones.
    fn count_through(&self, sequence: u32) -> usize
        requires { IsRising self.now.items }
        ensures { drop result self.now.items ≡ filter (λ e. nat_lt sequence e.0) self.now.items }
    {
        let _held = self.len();
        match self.place(sequence) {
            Ok(at) => at + 1,
            Err(at) => at,
        }
    }

    // Takes so many of the first messages out.
    fn drop_front(&mut self, count: usize)
        ensures { self.new ≡ buffer (drop count self.old.items) self.old.capacity }
    {
        for _dropped in 0..count {
            let _ = self.pop_front();
        }
    }

    // Where a sequence is, or else where it would go.
    pub(crate) fn place(&self, sequence: u32) -> Result<usize, usize>
        requires { IsRising self.now.items }
        ensures found { IfOk result (λ at. IsKeyAt self.now.items at sequence) }
        ensures gap { IfErr result (λ at. IsGap self.now.items at sequence) }
    {
        place(&self.order, sequence)
    }
}

// Puts an entry into its place, from the nearer end.
fn insert_at(order: &mut Order, at: usize, entry: (u32, u32))
    requires within { at ≤ length order.old.items }
    requires room { length order.old.items < order.old.capacity }
    ensures { order.new ≡ buffer (insert order.old.items at entry) order.old.capacity }
{
    if at < order.len() / 2 {
        insert_from_front(order, at, entry);
    } else {
        insert_from_back(order, at, entry);
    }
}

// Puts an entry at the front, and moves it back to its place.
fn insert_from_front(order: &mut Order, at: usize, entry: (u32, u32))
    requires within { at < length order.old.items }
    requires room { length order.old.items < order.old.capacity }
    ensures { order.new ≡ buffer (insert order.old.items at entry) order.old.capacity }
{
    put_front(order, entry);
    if at > 0 {
        let entries = order.make_contiguous();
        move_back(entries, at);
    }
}

// Puts an entry at the front.
fn put_front(order: &mut Order, entry: (u32, u32))
    requires { length order.old.items < order.old.capacity }
    ensures { order.new ≡ buffer (entry ∷ order.old.items) order.old.capacity }
{
    order.push_front(entry);
}

// Moves the first entry back to a place.
fn move_back(entries: &mut [(u32, u32)], at: usize)
    requires { at < length entries.old }
    ensures len { length entries.new ≡ length entries.old }
    ensures moved { entries.new ≡ (drop 1 (take (at + 1) entries.old)
        ++ take 1 (take (at + 1) entries.old)) ++ drop (at + 1) entries.old }
{
    entries[..at + 1].rotate_left(1);
}

// Puts an entry at the back, and moves it forward to its place.
fn insert_from_back(order: &mut Order, at: usize, entry: (u32, u32))
    requires within { at ≤ length order.old.items }
    requires room { length order.old.items < order.old.capacity }
    ensures { order.new ≡ buffer (insert order.old.items at entry) order.old.capacity }
{
    let last = order.len();
    order.push_back(entry);
    if at < last {
        let entries = order.make_contiguous();
        entries[at..].rotate_right(1);
    }
}

// Where a sequence is in an order, or else where it would go.
fn place(order: &Order, sequence: u32) -> Result<usize, usize>
    requires { IsRising order.now.items }
    ensures found { IfOk result (λ at. IsKeyAt order.now.items at sequence) }
    ensures gap { IfErr result (λ at. IsGap order.now.items at sequence) }
{
    match order.back() {
        Some(last) if sequence <= last.0 => search(order, sequence),
        _ => Err(order.len()),
    }
}

fn search(order: &Order, sequence: u32) -> Result<usize, usize>
    requires { IsRising order.now.items }
    ensures found { IfOk result (λ at. IsKeyAt order.now.items at sequence) }
    ensures gap { IfErr result (λ at. IsGap order.now.items at sequence) }
{
    let mut low = 0;
    let mut high = order.len();
    while low < high {
        let middle = low + (high - low) / 2;
        let Some(entry) = order.get(middle) else {
            unreachable!();
        };
        match entry.0.cmp(&sequence) {
            Ordering::Less => low = middle + 1,
            Ordering::Equal => return Ok(middle),
            Ordering::Greater => high = middle,
        }
    }
    Err(low)
}
