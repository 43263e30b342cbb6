//! The hold: messages above the floor, each sequence once, up to a limit.

ghost use Rattle.std.specs.Prelude.{◌≡◌, ℕ, ◌+◌, ◌<◌, ◌≤◌, ◌↔◌, IfOk, IsTrue, IsSome, MatchOption};
ghost use Rattle.std.specs.Prelude.{None, nat_lt};
ghost use Rattle.std.specs.Option.{option_copied};
ghost use Rattle.std.specs.FinMap as map;
ghost use Rattle.pitch_fields.specs.Limits.{last_sequence};
ghost use Rattle.pitch_messages.specs.Raw.{IsRaw};
ghost use Rattle.hold_buffer.specs.layers.Holding.{IsHold};
ghost use Rattle.hold_buffer.specs.layers.Offered.{Answers};
ghost use Rattle.hold_buffer.specs.layers.Places.{IsRising, hold_of, IsHoldRing};

use crate::ring::Ring;
use pitch_fields::{HoldLimit, OutOfMemory};
use pitch_messages::Raw;
use std::alloc::Global;
use std::marker::Model;

/// What became of a message that was offered to a hold: the first of these that applies.
#[derive(Clone, Copy, PartialEq, Eq)]
pub enum Offer {
    /// Its sequence follows the floor, which rose to it. It is not stored: the caller uses it now.
    Next,
    /// It is held beside those that were held.
    Kept,
    /// Its sequence is held already, and the hold is as before.
    Repeat,
    /// Its sequence is at or below the floor, and the hold is as before.
    Old,
    /// The hold was full: all that was held is gone, and this one is held alone.
    Overflowed,
}

/// The messages that came too early: above a floor, each sequence once, at most as many as the
/// limit.
///
/// The message that follows the floor is the one that is awaited. Sequences are those that the
/// Sequenced Unit Header counts, from 1 to 4,294,967,294. All memory is taken when the hold is
/// made.
#[derive(Drop)]
pub struct Hold {
    floor: u32,
    ring: Ring,
}

impl Model for Hold {
    ghost use Rattle.hold_buffer.specs.HoldView.{HoldView};
    ghost use Rattle.hold_buffer.specs.layers.Holding.{coded_hold};
    ghost use Rattle.hold_buffer.specs.layers.Places.{hold_of, IsHoldRing};

    ghost Value = { HoldView };

    ghost coded = { coded_hold };

    ghost view = { λ a. hold_of a.floor a.ring };

    ghost invariant = { λ a. IsHoldRing a.floor a.ring };
}

impl Hold {
    /// A hold for at most `limit` messages, with the floor 0 and nothing held.
    pub fn make(alloc: Global, limit: HoldLimit) -> Result<Hold, OutOfMemory>
        ensures { IfOk result (λ hold. hold
            ≡ record { floor = 0; limit = limit; held = map.empty }) }
    {
        Ok(Hold {
            floor: 0,
            ring: Ring::make(alloc, limit.places())?,
        })
    }

    /// Offers the message of a sequence, at most 4,294,967,294. One that is next is compared with
    /// the floor and the first held one alone.
    #[inline]
    pub fn offer(&mut self, sequence: u32, raw: &Raw) -> Offer
        requires { sequence ≤ last_sequence }
        ensures answer { Answers result self.old sequence raw.now self.new }
        ensures kept { IsHold self.new }
    {
        self.offer_bytes(sequence, raw.bytes())
    }

    /// Offers the message of these bytes as `offer` does. They are copied only where it is to be
    /// held.
    #[inline(always)]
    pub fn offer_bytes(&mut self, sequence: u32, bytes: &[u8]) -> Offer
        requires fits { sequence ≤ last_sequence }
        requires raw { IsRaw bytes.now }
        ensures answer { Answers result self.old sequence bytes.now self.new }
        ensures kept { IsHold self.new }
    {
        if sequence <= self.floor {
            return Offer::Old;
        }
        if sequence - 1 == self.floor {
            if self.ring.first_sequence() == Some(sequence) {
                return Offer::Repeat;
            }
            self.floor = sequence;
            return Offer::Next;
        }
        store(&mut self.ring, sequence, bytes)
    }

    /// Takes out the message that follows the floor, and raises the floor to it. Where that one is
    /// not held, the hold is as before.
    pub fn pop_next(&mut self) -> Option<Raw>
        ensures answer { result ≡ map.get self.old.held (self.old.floor + 1) }
        ensures none { MatchOption result (self.new ≡ self.old)
            (λ raw. self.new ≡ record self.old {
              floor = self.old.floor + 1;
              held = map.remove self.old.held (self.old.floor + 1);
            }) }
        ensures kept { IsHold self.new }
        ensures fits { IsSome result → self.new.floor ≤ last_sequence }
    {
        let first = self.ring.first_sequence()?;
        if first - 1 != self.floor {
            return None;
        }
        let (_, raw) = self.ring.pop_front()?;
        self.floor = first;
        Some(raw)
    }

    /// The message that follows the floor, where it is held.
    #[inline]
    pub fn next(&self) -> Option<&Raw>
        ensures answer { option_copied result ≡ map.get self.now.held (self.now.floor + 1) }
        ensures fits { IsSome result → self.now.floor < last_sequence }
        ensures kept { IsHold self.now }
    {
        let (sequence, raw) = self.ring.front()?;
        if sequence - 1 != self.floor {
            return None;
        }
        Some(raw)
    }

    /// Drops the message that follows the floor, and raises the floor to it.
    #[inline]
    pub fn drop_next(&mut self)
        requires { IsSome (map.get self.old.held (self.old.floor + 1)) }
        ensures dropped { self.new ≡ record self.old {
          floor = self.old.floor + 1;
          held = map.remove self.old.held (self.old.floor + 1);
        } }
        ensures kept { IsHold self.new }
        ensures fits { self.new.floor ≤ last_sequence }
    {
        let _ = self.pop_next();
    }

    /// Raises the floor, as after an image through it, and drops the messages at or below it. The
    /// new floor is not below the old one.
    pub fn jump(&mut self, floor: u32)
        requires { self.old.floor ≤ floor }
        ensures jumped { self.new ≡ record self.old {
          floor = floor;
          held = map.retain_keys self.old.held (λ k. nat_lt floor k);
        } }
        ensures kept { IsHold self.new }
    {
        self.ring.drop_through(floor);
        self.floor = floor;
    }

    /// The least sequence held, if there is one.
    pub fn first(&self) -> Option<u32>
        ensures { MatchOption result
            ((k : ℕ) → map.get self.now.held k ≡ None)
            (λ first. IsSome (map.get self.now.held first)
            × ((k : ℕ) → IsSome (map.get self.now.held k) → first ≤ k)) }
    {
        self.ring.first_sequence()
    }

    /// The sequence above which messages are held.
    pub fn floor(&self) -> u32
        ensures floor { result ≡ self.now.floor }
        ensures kept { IsHold self.now }
    {
        self.floor
    }

    /// The number of messages held.
    pub fn len(&self) -> u32
        ensures { result ≡ map.len self.now.held }
    {
        self.ring.len() as u32
    }

    /// Whether nothing is held.
    pub fn is_empty(&self) -> bool
        ensures { IsTrue result ↔ (map.len self.now.held ≡ 0) }
    {
        self.ring.is_empty()
    }

    /// The greatest number of messages held.
    pub fn limit(&self) -> u32
        ensures { result ≡ self.now.limit }
    {
        self.ring.capacity() as u32
    }
}

// Holds a message in its place unless its sequence is held, alone where the ring is full.
fn store(ring: &mut Ring, sequence: u32, bytes: &[u8]) -> Offer
    requires fits { sequence ≤ last_sequence }
    requires raw { IsRaw bytes.now }
    requires rising { IsRising ring.old.items }
    requires some { 0 < ring.old.capacity }
    ensures answer { (floor : ℕ) → floor + 1 < sequence → IsHoldRing floor ring.old
        → Answers result (hold_of floor ring.old) sequence bytes.now (hold_of floor ring.new) }
    ensures kept { (floor : ℕ)
        → floor + 1 < sequence → IsHoldRing floor ring.old → IsHoldRing floor ring.new }
{
    let Err(at) = ring.place(sequence) else {
        return Offer::Repeat;
    };
    let Some(raw) = Raw::from_bytes(bytes) else {
        unreachable!();
    };
    if ring.len() < ring.capacity() {
        ring.insert(at, sequence, raw);
        Offer::Kept
    } else {
        ring.replace_all(sequence, raw);
        Offer::Overflowed
    }
}
