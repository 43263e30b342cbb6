//! A spin under way: an image packed into blocks, and how many were sent.

ghost use Rattle.std.specs.Prelude.{◌≡◌, ℕ, ◌<◌, List, [], ◌∷◌, drop, length, IfOk, MatchOption};
ghost use Rattle.unit_packets.specs.Packing.{packed};

use pitch_fields::OutOfMemory;
use pitch_messages::Raws;
use std::alloc::Global;
use std::marker::Model;
use unit_packets::{DatagramList, pack};

/// An image that is being sent.
#[derive(Drop)]
pub(crate) struct Spin {
    sequence: u32,
    datagrams: DatagramList,
    // So many were sent.
    sent: usize,
}

impl Model for Spin {
    ghost use Rattle.std.specs.Prelude.{drop, length, ◌≤◌};
    ghost use Rattle.unit_packets.specs.Packing.{bytes_in};
    ghost use Rattle.spin_server.specs.Serving.{Spin};

    ghost Value = { Spin };

    ghost view = { λ s. record {
      sequence = s.sequence;
      left = drop s.sent (bytes_in s.datagrams.items);
    } };

    ghost invariant = { λ s. s.sent ≤ length s.datagrams.items };
}

impl Spin {
    /// The image through a sequence, packed into unsequenced blocks of a unit.
    pub(crate) fn make(
        alloc: Global,
        unit: u8,
        sequence: u32,
        raws: Raws<'_>,
    ) -> Result<Spin, OutOfMemory>
        ensures { IfOk result (λ spin. spin
            ≡ record { sequence = sequence; left = packed unit 0 raws.entry }) }
    {
        let mut datagrams = DatagramList::make(alloc);
        pack(alloc, unit, 0, raws, &mut datagrams)?;
        Ok(Spin {
            sequence,
            datagrams,
            sent: 0,
        })
    }

    pub(crate) fn sequence(&self) -> u32
        ensures { result ≡ self.now.sequence }
    {
        self.sequence
    }

    /// The next block, or None where all were sent.
    pub(crate) fn next(&self) -> Option<&[u8]>
        ensures { MatchOption result (self.now.left ≡ [])
            (λ block. (rest : List (List ℕ)) × (self.now.left ≡ block.now ∷ rest)) }
    {
        match self.datagrams.get(self.sent) {
            Some(datagram) => Some(datagram.bytes()),
            None => None,
        }
    }

    /// Notes that the next block was sent.
    pub(crate) fn advance(&mut self)
        requires { 0 < length self.old.left }
        ensures { self.new ≡ record { sequence = self.old.sequence; left = drop 1 self.old.left } }
    {
        if self.sent < self.datagrams.len() {
            self.sent += 1;
        }
    }
}
