//! The trait of what a relay sends into: a list of datagrams, or bytes end to end.

ghost use Rattle.std.specs.Prelude.{◌≡◌, ℕ, List, length, OnOk, OnErr, refl};
ghost use Rattle.unit_packets.specs.Blocks.{StaysWithin};
ghost use Rattle.unit_packets.specs.Packing.{packed};
ghost use Rattle.relay_unit.specs.layers.Outlets.{ListsMore, JoinsMore};

use pitch_fields::OutOfMemory;
use pitch_messages::Raws;
use std::alloc::Global;
use unit_packets::{DatagramList, append_packed, pack};

/// Where a relay appends its datagrams: a list of them, for who sends them one by one, or bytes,
/// for a stream that has them one behind another.
pub trait Outlet {
    /// These datagrams stand behind what was there.
    ghost gains: { Self → Self → List (List ℕ) → Type 0 };

    /// What is there is as before.
    ghost stays: { Self → Self → Type 0 };

    /// Appends the packed datagrams of messages, the first of which has this sequence. After
    /// OutOfMemory nothing was appended.
    fn append(
        &mut self,
        alloc: Global,
        unit: u8,
        first: u32,
        raws: Raws<'_>,
    ) -> Result<(), OutOfMemory>
        requires { StaysWithin first (length raws) }
        ensures ok { OnOk result (gains self.old self.new (packed unit first raws.entry)) }
        ensures err { OnErr result (stays self.old self.new) };

    /// It is so where nothing was done.
    ghost nothing_done: { (out : Self) → stays out out };
}

impl Outlet for DatagramList {
    ghost gains = { λ out out' datagrams. ListsMore out.items out'.items datagrams };

    ghost stays = { λ out out'. out'.items ≡ out.items };

    fn append(
        &mut self,
        alloc: Global,
        unit: u8,
        first: u32,
        raws: Raws<'_>,
    ) -> Result<(), OutOfMemory> {
        pack(alloc, unit, first, raws, self)
    }

    ghost nothing_done = { λ out. refl };
}

// It takes no list of datagrams where they are one.
impl Outlet for Vec<u8> {
    ghost gains = { λ out out' datagrams. JoinsMore out.items out'.items datagrams };

    ghost stays = { λ out out'. out'.items ≡ out.items };

    fn append(
        &mut self,
        alloc: Global,
        unit: u8,
        first: u32,
        raws: Raws<'_>,
    ) -> Result<(), OutOfMemory> {
        append_packed(alloc, unit, first, raws, self)
    }

    ghost nothing_done = { λ out. refl };
}
