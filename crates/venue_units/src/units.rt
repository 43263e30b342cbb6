//! The ends of all units, and the routing of what comes to them.

ghost use Rattle.std.specs.Prelude.{◌≡◌, ◌≤◌, ◌+◌, ◌⊎◌, ◌++◌, ◌==◌, ℕ, [], ◌∷◌, List, OnOk, OnErr};
ghost use Rattle.std.specs.Prelude.{IfOk, IsOk, IfSome, IfNone, Ok, length, position, slice_get};
ghost use Rattle.std.specs.Prelude.{◌<◌, slice_index_or, true, false};
ghost use Rattle.std.specs.List.{AllByRecursion};
ghost use Rattle.std.specs.Option.{option_copied, option_map};
ghost use Rattle.unit_packets.specs.Packing.{bytes_in};
ghost use Rattle.heard_items.specs.Datagrams.{IsPiece};
ghost use Rattle.venue_core.specs.Refusals.{refusal, IsAnswer};
ghost use Rattle.venue_units.specs.Places.{has_at, is_shut_at, runs_at, waits_at, with_pump};
ghost use Rattle.venue_units.specs.Places.{cut_at, is_spin, made_at, put_at, took_at, unit_of};

use crate::door::{connect_at, cut_at, is_shut_at, pump_at, put_at, take_at, unit_of, waiting_at};
use pitch_fields::OutOfMemory;
use pitch_text::Command;
use std::alloc::Global;
use unit_packets::DatagramList;
use venue_end::{VenueEnd, VenueError, VenueSetup};

/// The ends of the units of a venue, in the order of its setup.
#[derive(Drop)]
pub struct VenueUnits {
    ends: Vec<VenueEnd>,
}

impl VenueUnits {
    ghost use Rattle.venue_end.specs.Came.{Commanded, Flushed, Beaten, Advertised, Second};
    ghost use Rattle.venue_end.specs.Came.{on_lines, on_gap_line, venue_after};
    ghost use Rattle.venue_units.specs.Units.{EachKeeps, UnitsStand, OfUnits, OfUnit, IfNoUnit};
    ghost use Rattle.venue_units.specs.Units.{Comes, ComesAndCuts, IsEndOf, StandStill};
    ghost use Rattle.venue_units.specs.Coming.{came_to};

    /// An end for each setup, to which nothing came yet, with all memory of its store. Each proxy
    /// keeps at least 1 and at most 65,536 messages.
    pub fn make(alloc: Global, setups: &[VenueSetup]) -> Result<VenueUnits, OutOfMemory>
        requires { EachKeeps setups.now }
        ensures stand { IfOk result (λ u. UnitsStand setups.now u []) }
    {
        let mut ends = Vec::new(alloc);
        'setups: for setup in setups {
            ends.push(VenueEnd::make(alloc, setup)?)?;
        }
        Ok(VenueUnits { ends })
    }

    // The end of a unit, where it is there.
    fn end(&self, at: usize) -> Option<&VenueEnd>
        ensures there { IfSome result (λ end. (at < length self.now.ends.items)
            × (end.now ≡ slice_index_or self.now.ends.items at end.now)) }
        ensures none { IfNone result (length self.now.ends.items ≤ at) }
    {
        self.ends.get(at)
    }

    /// How many units there are.
    pub fn count(&self) -> usize
        ensures { OfUnits self.now (λ s before. result ≡ length s) }
    {
        self.ends.len()
    }

    /// The unit with this index, or None where there is none.
    pub fn unit(&self, at: usize) -> Option<u8>
        ensures { OfUnits self.now
            (λ s before. result ≡ option_map (λ setup. setup.unit) (slice_get s at)) }
    {
        match self.end(at) {
            None => None,
            Some(end) => Some(end.unit()),
        }
    }

    /// The index of a unit, the first where it is there twice.
    pub fn index_of(&self, unit: u8) -> Option<usize>
        ensures { OfUnits self.now
            (λ s before. result ≡ position (λ setup. setup.unit == unit) s) }
    {
        'ends: for at in 0..self.ends.len() {
            if self.ends[at].unit() == unit {
                return Some(at);
            }
        }
        None
    }

    /// The end of the unit with this index, to be looked at; None where there is none.
    pub fn end_at(&self, at: usize) -> Option<&VenueEnd>
        // It stands for all that came to the unit.
        ensures { OfUnits self.now (λ s before.
            IsEndOf (slice_get s at) (came_to at before) (option_copied result)) }
    {
        match self.end(at) {
            None => None,
            Some(end) => Some(end),
        }
    }

    /// A command comes to a unit. The answer is the sequence of its message, or why it is refused;
    /// 0 where there is no such unit. After a refusal, also after OutOfMemory, all stand for what
    /// they stood for.
    pub fn accept(&mut self, at: usize, command: &Command) -> Result<u32, VenueError>
        // The first refusal that holds after all that the unit accepted, or the next sequence.
        ensures answer { OfUnit self.old at (λ s before.
            IsAnswer (refusal (venue_after s before).messages command.now)
            (length (venue_after s before).messages + 1) result) }
        ensures stands { OnOk result (Comes self.old self.new at (Commanded command.now)) }
        ensures err { OnErr result (StandStill self.old self.new) }
        ensures no_unit { IfNoUnit self.old at (result ≡ Ok 0) }
    {
        match self.ends.get_mut(at) {
            None => Ok(0),
            Some(end) => end.accept(command),
        }
    }

    /// What a unit accepted and did not send yet is sent: its datagrams are appended, for lines A
    /// and B alike. Answers how many they are. After OutOfMemory all is as before.
    pub fn flush(&mut self, at: usize, lines: &mut DatagramList) -> Result<u32, OutOfMemory>
        ensures stands { OnOk result (Comes self.old self.new at Flushed) }
        ensures lines { OnOk result (OfUnit self.old at (λ s before. bytes_in lines.new.items
            ≡ bytes_in lines.old.items ++ on_lines s Flushed (venue_after s before))) }
        // Each has messages that the unit accepted, at their sequences.
        ensures pieces { OnOk result (OfUnit self.old at (λ s before.
            AllByRecursion (IsPiece (venue_after s before).messages s.unit)
            (on_lines s Flushed (venue_after s before)))) }
        ensures count { IfOk result (λ count.
            length lines.new.items ≡ length lines.old.items + count) }
        ensures err { OnErr result (StandStill self.old self.new) }
        ensures err_lines { OnErr result (lines.new.items ≡ lines.old.items) }
        ensures no_unit { IfNoUnit self.old at
            ((result ≡ Ok 0) × (lines.new.items ≡ lines.old.items)) }
    {
        match self.ends.get_mut(at) {
            None => Ok(0),
            Some(end) => end.flush(lines),
        }
    }

    /// A unit's heartbeat, for lines A and B alike: the first sequence that it did not send yet.
    /// It changes nothing. Where there is no such unit, all its bytes are 0.
    pub fn beat(&self, at: usize) -> [u8; 8]
        ensures bytes { OfUnit self.now at
            (λ s before. result ∷ [] ≡ on_lines s Beaten (venue_after s before)) }
        ensures piece { OfUnit self.now at
            (λ s before. IsPiece (venue_after s before).messages s.unit result) }
        ensures stands { Comes self.now self.now at Beaten }
    {
        match self.end(at) {
            None => [0; 8],
            Some(end) => end.beat(),
        }
    }

    /// The image of all messages of a unit is advertised, and all its Spin Server's sessions are
    /// told of it. After OutOfMemory either all stand for what they stood for, or the image is
    /// advertised and all sessions of the unit are cut.
    pub fn advertise(&mut self, at: usize) -> Result<(), OutOfMemory>
        ensures stands { OnOk result (Comes self.old self.new at Advertised) }
        ensures err { OnErr result
            (StandStill self.old self.new ⊎ ComesAndCuts self.old self.new at Advertised) }
        ensures no_unit { IfNoUnit self.old at (IsOk result) }
    {
        match self.ends.get_mut(at) {
            None => Ok(()),
            Some(end) => {
                end.advertise()?;
                Ok(())
            }
        }
    }

    /// A second passes for a unit: its budget's next one begins, and all its servers tick. After
    /// OutOfMemory the second has passed, and all sessions of the unit are cut.
    pub fn second(&mut self, at: usize) -> Result<(), OutOfMemory>
        ensures stands { OnOk result (Comes self.old self.new at Second) }
        ensures err { OnErr result (ComesAndCuts self.old self.new at Second) }
        ensures no_unit { IfNoUnit self.old at (IsOk result) }
    {
        match self.ends.get_mut(at) {
            None => Ok(()),
            Some(end) => end.second(),
        }
    }

    /// A connection was made at a place; one that stood there has ended. After OutOfMemory none
    /// stands there.
    pub fn connect(&mut self, place: u16) -> Result<(), OutOfMemory>
        ensures stands { OnOk result (Comes self.old self.new (unit_of place) (made_at place)) }
        ensures err { OnErr result (Comes self.old self.new (unit_of place) (cut_at place)) }
        ensures no_unit { IfNoUnit self.old (unit_of place) (IsOk result) }
    {
        match self.ends.get_mut(unit_of(place)) {
            None => Ok(()),
            Some(end) => connect_at(end, place),
        }
    }

    /// Bytes came by the connection at a place; where there is none they are passed over. Each
    /// request is answered from all that the unit accepted, and what its server says waits to be
    /// put. A proxy's ranges are appended for the gap line; for a Spin Server's place the list
    /// stays. After OutOfMemory the connection is cut.
    pub fn take(
        &mut self,
        place: u16,
        piece: &[u8],
        gap_line: &mut DatagramList,
    ) -> Result<(), OutOfMemory>
        ensures stands { OnOk result
            (Comes self.old self.new (unit_of place) (took_at place piece.now)) }
        ensures lines { OnOk result (OfUnit self.old (unit_of place) (λ s before.
            bytes_in gap_line.new.items ≡ bytes_in gap_line.old.items
            ++ on_gap_line s (took_at place piece.now) (venue_after s before))) }
        // Each has messages that the unit accepted, at their sequences.
        ensures pieces { OnOk result (OfUnit self.old (unit_of place) (λ s before.
            AllByRecursion (IsPiece (venue_after s before).messages s.unit)
            (on_gap_line s (took_at place piece.now) (venue_after s before)))) }
        ensures spin { is_spin place ≡ true → gap_line.new.items ≡ gap_line.old.items }
        ensures err { OnErr result (Comes self.old self.new (unit_of place) (cut_at place)) }
        ensures err_lines { OnErr result (gap_line.new.items ≡ gap_line.old.items) }
        ensures none { OfUnits self.old (λ s before. has_at s place before ≡ false → IsOk result) }
        ensures no_unit { IfNoUnit self.old (unit_of place)
            (gap_line.new.items ≡ gap_line.old.items) }
    {
        match self.ends.get_mut(unit_of(place)) {
            None => Ok(()),
            Some(end) => take_at(end, place, piece, gap_line),
        }
    }

    /// The Spin Server of a place is asked for the next block of the image that it sends, if it
    /// sends one: that waits to be put too. Answers whether it still sends one. A proxy sends none,
    /// and is not asked. After OutOfMemory all stand for what they stood for.
    pub fn pump(&mut self, place: u16) -> Result<bool, OutOfMemory>
        ensures stands { OnOk result (OfUnits self.old (λ s before.
            UnitsStand s self.new (with_pump place before))) }
        ensures more { IfOk result (λ more. OfUnits self.old (λ s before.
            more ≡ runs_at s place before)) }
        ensures err { OnErr result (StandStill self.old self.new) }
        ensures none { OfUnits self.old (λ s before. has_at s place before ≡ false → IsOk result) }
    {
        match self.ends.get_mut(unit_of(place)) {
            None => Ok(false),
            Some(end) => pump_at(end, place),
        }
    }

    /// What waits to be put to the connection at a place; nothing where there is none.
    pub fn waiting(&self, place: u16) -> &[u8]
        ensures { OfUnits self.now (λ s before. result.now ≡ waits_at s place before) }
    {
        match self.end(unit_of(place)) {
            None => &[],
            Some(end) => waiting_at(end, place),
        }
    }

    /// So many bytes of what waits were put, or all.
    pub fn put(&mut self, place: u16, count: usize)
        ensures stands { Comes self.old self.new (unit_of place) (put_at place count) }
    {
        match self.ends.get_mut(unit_of(place)) {
            None => {}
            Some(end) => put_at(end, place, count),
        }
    }

    /// Whether no connection stands at a place, or its server has closed. One that has closed still
    /// has to be cut, once what it said was put.
    pub fn is_shut(&self, place: u16) -> bool
        ensures { OfUnits self.now (λ s before. result ≡ is_shut_at s place before) }
    {
        match self.end(unit_of(place)) {
            None => true,
            Some(end) => is_shut_at(end, place),
        }
    }

    /// The connection at a place has ended, where one stood.
    pub fn cut(&mut self, place: u16)
        ensures stands { Comes self.old self.new (unit_of place) (cut_at place) }
    {
        match self.ends.get_mut(unit_of(place)) {
            None => {}
            Some(end) => cut_at(end, place),
        }
    }
}
