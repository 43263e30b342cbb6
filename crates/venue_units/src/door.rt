//! What comes to a unit's end at one of its places. The session there has the place's number.

ghost use Rattle.std.specs.Prelude.{◌≡◌, ◌++◌, ℕ, true, false, OnOk, OnErr, IfOk, IsOk};
ghost use Rattle.std.specs.List.{AllByRecursion};
ghost use Rattle.unit_packets.specs.Packing.{bytes_in};
ghost use Rattle.heard_items.specs.Datagrams.{IsPiece};
ghost use Rattle.venue_end.specs.Came.{SpinPumped, on_gap_line, venue_after};
ghost use Rattle.venue_end.specs.Stands.{Comes, OfVenue, StandsStill};
ghost use Rattle.venue_units.specs.Places.{cause_in, cut_at, has_in, is_shut_in, is_spin, made_at};
ghost use Rattle.venue_units.specs.Places.{put_at, runs_in, took_at, unit_of, waits_in};

use pitch_fields::OutOfMemory;
use session_ends::Closed;
use unit_packets::DatagramList;
use venue_end::VenueEnd;

/// How many places a door has, at each of which a client's connection can stand: 64.
pub const DOOR_PLACES: u16 = 64;

/// How many places a unit has, those of its proxy's door and then those of its Spin Server's: 128.
pub const UNIT_PLACES: u16 = 2 * DOOR_PLACES;

/// The unit of a place.
pub fn unit_of(place: u16) -> usize
    ensures { result ≡ unit_of place }
{
    usize::from(place / UNIT_PLACES)
}

/// Whether a place is at the door of a Spin Server, and not at that of a proxy.
pub fn is_spin(place: u16) -> bool
    ensures { result ≡ is_spin place }
{
    place % UNIT_PLACES >= DOOR_PLACES
}

/// A connection there has ended, where one stood.
pub(crate) fn cut_at(end: &mut VenueEnd, place: u16)
    ensures { Comes end.old end.new (cut_at place) }
{
    if is_spin(place) {
        end.cut_spin(u32::from(place));
    } else {
        end.cut_proxy(u32::from(place));
    }
}

// A connection was made; after OutOfMemory the end stands for what it stood for.
fn make_at(end: &mut VenueEnd, place: u16) -> Result<(), OutOfMemory>
    ensures stands { OnOk result (Comes end.old end.new (made_at place)) }
    ensures err { OnErr result (StandsStill end.old end.new) }
{
    if is_spin(place) {
        end.connect_spin(u32::from(place))
    } else {
        end.connect_proxy(u32::from(place))
    }
}

/// A connection was made; one that stood there has ended. After OutOfMemory none stands there.
pub(crate) fn connect_at(end: &mut VenueEnd, place: u16) -> Result<(), OutOfMemory>
    ensures stands { OnOk result (Comes end.old end.new (made_at place)) }
    ensures err { OnErr result (Comes end.old end.new (cut_at place)) }
{
    match make_at(end, place) {
        Ok(()) => Ok(()),
        Err(error) => {
            cut_at(end, place);
            Err(error)
        }
    }
}

/// Bytes came. What a proxy has for the gap line is appended; after OutOfMemory the connection is
/// cut.
pub(crate) fn take_at(
    end: &mut VenueEnd,
    place: u16,
    piece: &[u8],
    gap_line: &mut DatagramList,
) -> Result<(), OutOfMemory>
    ensures stands { OnOk result (Comes end.old end.new (took_at place piece.now)) }
    ensures lines { OnOk result (OfVenue end.old (λ s before. bytes_in gap_line.new.items
        ≡ bytes_in gap_line.old.items
        ++ on_gap_line s (took_at place piece.now) (venue_after s before))) }
    ensures pieces { OnOk result (OfVenue end.old (λ s before.
        AllByRecursion (IsPiece (venue_after s before).messages s.unit)
        (on_gap_line s (took_at place piece.now) (venue_after s before)))) }
    ensures spin { is_spin place ≡ true → gap_line.new.items ≡ gap_line.old.items }
    ensures err { OnErr result (Comes end.old end.new (cut_at place)) }
    ensures err_lines { OnErr result (gap_line.new.items ≡ gap_line.old.items) }
    ensures none { OfVenue end.old
        (λ s before. has_in place (venue_after s before) ≡ false → IsOk result) }
{
    if is_spin(place) {
        end.take_spin(u32::from(place), piece)
    } else {
        end.take_proxy(u32::from(place), piece, gap_line)
    }
}

/// A Spin Server is asked for the next block of its image, and answers whether it still sends one;
/// a proxy is not asked.
pub(crate) fn pump_at(end: &mut VenueEnd, place: u16) -> Result<bool, OutOfMemory>
    ensures spin { OnOk result
        (is_spin place ≡ true → Comes end.old end.new (SpinPumped place)) }
    ensures proxy { is_spin place ≡ false → StandsStill end.old end.new }
    ensures more { IfOk result (λ more. OfVenue end.old
        (λ s before. more ≡ runs_in s place (venue_after s before))) }
    ensures err { OnErr result (StandsStill end.old end.new) }
    ensures none { OfVenue end.old
        (λ s before. has_in place (venue_after s before) ≡ false → IsOk result) }
{
    if is_spin(place) {
        end.pump_spin(u32::from(place))
    } else {
        Ok(false)
    }
}

/// So many bytes of what waits were put, or all.
pub(crate) fn put_at(end: &mut VenueEnd, place: u16, count: usize)
    ensures { Comes end.old end.new (put_at place count) }
{
    if is_spin(place) {
        end.put_by_spin(u32::from(place), count);
    } else {
        end.put_by_proxy(u32::from(place), count);
    }
}

/// What waits to be put to the session; nothing where there is none.
pub(crate) fn waiting_at(end: &VenueEnd, place: u16) -> &[u8]
    ensures { OfVenue end.now (λ s before. result.now ≡ waits_in place (venue_after s before)) }
{
    if is_spin(place) {
        end.said_by_spin(u32::from(place))
    } else {
        end.said_by_proxy(u32::from(place))
    }
}

// Whether a session stands there.
fn has_at(end: &VenueEnd, place: u16) -> bool
    ensures { OfVenue end.now (λ s before. result ≡ has_in place (venue_after s before)) }
{
    if is_spin(place) {
        end.has_spin(u32::from(place))
    } else {
        end.has_proxy(u32::from(place))
    }
}

// Why its server closed, or None while it has not, and where there is none.
fn cause_in(end: &VenueEnd, place: u16) -> Option<Closed>
    ensures { OfVenue end.now (λ s before. result ≡ cause_in s place (venue_after s before)) }
{
    if is_spin(place) {
        end.spin_closed(u32::from(place))
    } else {
        end.proxy_closed(u32::from(place))
    }
}

/// Whether there is no session, or its server has closed.
pub(crate) fn is_shut_at(end: &VenueEnd, place: u16) -> bool
    ensures { OfVenue end.now (λ s before. result ≡ is_shut_in s place (venue_after s before)) }
{
    !has_at(end, place) || cause_in(end, place).is_some()
}
