//! What the units send is put into the outbox.

ghost use Rattle.std.specs.Prelude.{◌≡◌, ◌<◌, ◌⊎◌, ℕ, List, OnOk, length};
ghost use Rattle.venue_end.specs.declared.setup.VenueSetup.{VenueSetup};
ghost use Rattle.venue_units.specs.Places.{unit_of};
ghost use Rattle.live_venue.specs.Running.{Now, beat_at, beaten, flush_at, flushed, left, took};
ghost use Rattle.live_venue.specs.Sending.{gap_line, line_a, line_b};
ghost use Rattle.live_venue.specs.Standing.{Become, Serve};

use crate::outbox::{Outbox, Road};
use crate::setup::ServeSetup;
use pitch_fields::OutOfMemory;
use pitch_messages::ByteList;
use std::alloc::Global;
use unit_packets::DatagramList;
use venue_units::{VenueUnits, unit_of};

// Lines A and B of the unit at an index.
fn both_lines(at: usize) -> Road
    requires { at < 512 }
    ensures { result ≡ Road.Both (line_a at) (line_b at) }
{
    let first = 3 * at as u16;
    Road::Both(first, first + 1)
}

// The gap line of the unit of a place.
fn gap_line_of(place: u16) -> Road
    ensures { result ≡ Road.Gap (gap_line (unit_of place)) }
{
    Road::Gap(3 * unit_of(place) as u16 + 2)
}

// What a unit accepted is to be sent.
fn flush_unit(
    alloc: Global,
    at: usize,
    units: &mut VenueUnits,
    outbox: &mut Outbox,
) -> Result<(), OutOfMemory>
    requires { at < 512 }
    ensures { OnOk result ((s : List VenueSetup) (now : Now) → at < length s
        → Serve s units.old outbox.old now → Serve s units.new outbox.new (flush_at s at now)) }
{
    let mut datagrams = DatagramList::make(alloc);
    units.flush(at, &mut datagrams)?;
    outbox.add(both_lines(at), datagrams)
}

/// What each unit accepted is to be sent.
pub(crate) fn flush_all(
    alloc: Global,
    setup: &ServeSetup,
    units: &mut VenueUnits,
    outbox: &mut Outbox,
) -> Result<(), OutOfMemory>
    ensures { OnOk result ((now : Now) → Serve setup.now units.old outbox.old now
        → Serve setup.now units.new outbox.new (flushed setup.now (length setup.now) now)) }
{
    'units: for at in 0..setup.units().len() {
        flush_unit(alloc, at, units, outbox)?;
    }
    Ok(())
}

// A unit's heartbeat is.
fn beat_unit(
    alloc: Global,
    at: usize,
    units: &VenueUnits,
    outbox: &mut Outbox,
) -> Result<(), OutOfMemory>
    requires { at < 512 }
    ensures { OnOk result ((s : List VenueSetup) (now : Now) → at < length s
        → Serve s units.now outbox.old now → Serve s units.now outbox.new (beat_at s at now)) }
{
    let mut datagrams = DatagramList::make(alloc);
    datagrams.push(ByteList::of_bytes(alloc, &units.beat(at))?)?;
    outbox.add(both_lines(at), datagrams)
}

/// Each unit's heartbeat is to be sent.
pub(crate) fn beat_all(
    alloc: Global,
    setup: &ServeSetup,
    units: &VenueUnits,
    outbox: &mut Outbox,
) -> Result<(), OutOfMemory>
    ensures { OnOk result ((now : Now) → Serve setup.now units.now outbox.old now
        → Serve setup.now units.now outbox.new (beaten setup.now (length setup.now) now)) }
{
    'units: for at in 0..setup.units().len() {
        beat_unit(alloc, at, units, outbox)?;
    }
    Ok(())
}

/// Bytes of a client came: what they ask of the gap line is to be sent. Without memory for them its
/// session is cut.
pub(crate) fn hear_client(
    alloc: Global,
    place: u16,
    piece: &[u8],
    units: &mut VenueUnits,
    outbox: &mut Outbox,
) -> Result<(), OutOfMemory>
    ensures { OnOk result ((s : List VenueSetup)
        → Become s units.old units.new outbox.old outbox.new
        (λ now now'. (now' ≡ took s place piece.now now) ⊎ (now' ≡ left place now))) }
{
    let mut ranges = DatagramList::make(alloc);
    match units.take(place, piece, &mut ranges) {
        Ok(()) => outbox.add(gap_line_of(place), ranges),
        Err(OutOfMemory) => Ok(()),
    }
}
