//! A server is where a proxy and a Spin Server look up. Each clause but `newest` is the trait's.
ghost use Rattle.std.specs.Prelude.{◌≡◌, ◌+◌, ◌≤◌, false, length, IfOk, OnOk, OnErr};
ghost use Rattle.pitch_fields.specs.Limits.{last_sequence};
ghost use Rattle.unit_packets.specs.Packing.{bytes_in};
ghost use Rattle.gap_store.specs.Look.{View};
ghost use Rattle.gap_store.specs.layers.Looking.{FindsAt, LooksAt, PacksAt};
ghost use Rattle.spin_server.specs.Served.{Served};
ghost use Rattle.spin_server.specs.layers.Looking.{LooksUpImage, SeesNewest, SeesServed};
ghost use Rattle.shared_unit.specs.layers.Histories.{kept_at, served_at};
ghost use Rattle.shared_unit.specs.layers.Moments.{AnswersNewest};

use crate::run::{FixedRun, Naming};
use crate::server::Server;
use gap_store::{Found, GapLookup};
use pitch_fields::OutOfMemory;
use pitch_messages::RawList;
use spin_server::{ImageLookup, Imaged};
use std::alloc::Global;
use unit_packets::DatagramList;

impl<J: Naming, R: FixedRun> GapLookup for Server<J, R> {
    ghost shows = { λ s v. v ≡ kept_at J.kept s.history };

    ghost still = { false };

    fn look(&mut self, first: u32, count: u16, out: &mut RawList) -> Result<Found, OutOfMemory>
        requires first { 1 ≤ first }
        requires count { 1 ≤ count }
        ensures found { IfOk result
            (λ found. (v : View) → v ≡ kept_at J.kept self.old.history → LooksAt (λ w. w
            ≡ kept_at J.kept self.new.history) v first count found out.old.items out.new.items) }
        ensures newest { OnOk result (AnswersNewest self.old self.new) }
        ensures within { OnOk result
            (first + length out.new.items ≤ (last_sequence + 1) + length out.old.items) }
        ensures err { OnErr result (out.new.items ≡ out.old.items) }
        ensures same { OnErr result (self.new ≡ self.old) }
    {
        self.gap(first, count, out)
    }

    fn find(&mut self, first: u32, count: u16) -> Result<Found, OutOfMemory>
        requires first { 1 ≤ first }
        requires count { 1 ≤ count }
        ensures found { IfOk result (λ found. (v : View) → v ≡ kept_at J.kept self.old.history
            → FindsAt (λ w. w ≡ kept_at J.kept self.new.history) v first count found) }
        ensures newest { OnOk result (AnswersNewest self.old self.new) }
        ensures same { OnErr result (self.new ≡ self.old) }
    {
        self.found(first, count)
    }

    fn pack(
        &mut self,
        alloc: Global,
        unit: u8,
        first: u32,
        count: u16,
        out: &mut DatagramList,
    ) -> Result<Found, OutOfMemory>
        requires first { 1 ≤ first }
        requires count { 1 ≤ count }
        ensures found { IfOk result (λ found. (v : View) → v ≡ kept_at J.kept self.old.history
            → PacksAt (λ w. w ≡ kept_at J.kept self.new.history) v unit first count found
            (bytes_in out.old.items) (bytes_in out.new.items)) }
        ensures newest { OnOk result (AnswersNewest self.old self.new) }
        ensures err { OnErr result (out.new.items ≡ out.old.items) }
        ensures same { OnErr result (self.new ≡ self.old) }
    {
        self.packed(alloc, unit, first, count, out)
    }
}

impl<J: Naming, R: FixedRun> ImageLookup for Server<J, R> {
    ghost shows = { λ s v. v ≡ served_at s.history };

    ghost still = { false };

    fn newest(&mut self) -> Option<u32>
        ensures sees { (v : Served) → v ≡ served_at self.old.history
            → SeesNewest (λ w. w ≡ served_at self.new.history) v result }
        ensures newest { self.new.cut_off ≡ false → AnswersNewest self.old self.new }
    {
        self.available()
    }

    fn has_image(&mut self, sequence: u32) -> bool
        ensures sees { (v : Served) → v ≡ served_at self.old.history
            → SeesServed (λ w. w ≡ served_at self.new.history) v sequence result }
        ensures newest { self.new.cut_off ≡ false → AnswersNewest self.old self.new }
    {
        self.serves(sequence)
    }

    fn image(&mut self, sequence: u32, out: &mut RawList) -> Result<Imaged, OutOfMemory>
        ensures found { IfOk result
            (λ imaged. (v : Served) → v ≡ served_at self.old.history → LooksUpImage
            (λ w. w ≡ served_at self.new.history) v sequence imaged out.old.items out.new.items) }
        ensures newest { OnOk result (AnswersNewest self.old self.new) }
        ensures err { OnErr result (out.new.items ≡ out.old.items) }
        ensures same { OnErr result (self.new ≡ self.old) }
    {
        Server::image(self, sequence, out)
    }
}
