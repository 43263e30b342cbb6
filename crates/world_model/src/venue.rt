//! The venue's end by its two sessions, each of which has one connection at most.

ghost use Rattle.std.specs.Prelude.{◌≡◌, ◌++◌, OnOk};
ghost use Rattle.unit_packets.specs.Packing.{bytes_in};
ghost use Rattle.std.specs.List.{AllByRecursion};
ghost use Rattle.heard_items.specs.Datagrams.{IsPiece};
ghost use Rattle.venue_end.specs.Came.{venue_after, on_gap_line};
ghost use Rattle.venue_end.specs.Stands.{Comes, OfVenue, VenueStands};
ghost use Rattle.world_model.specs.Ends.{server_made, server_took, server_put, server_cut};
ghost use Rattle.world_model.specs.Ends.{server_waits};
ghost use Rattle.world_model.specs.layers.Feeding.{Feeds, asked_out};

use pitch_fields::OutOfMemory;
use pitch_text::Session;
use unit_packets::DatagramList;
use venue_end::VenueEnd;

/// The number of the one session that each server has at most.
pub const THE_SESSION: u32 = 0;

/// A connection of a session was made.
pub fn connect(venue: &mut VenueEnd, session: Session) -> Result<(), OutOfMemory>
    ensures { OnOk result (Comes venue.old venue.new (server_made session)) }
{
    match session {
        Session::Grp => venue.connect_proxy(THE_SESSION),
        Session::Spin => venue.connect_spin(THE_SESSION),
    }
}

/// The connection of a session has ended.
pub fn cut(venue: &mut VenueEnd, session: Session)
    ensures { Comes venue.old venue.new (server_cut session) }
{
    match session {
        Session::Grp => venue.cut_proxy(THE_SESSION),
        Session::Spin => venue.cut_spin(THE_SESSION),
    }
}

/// What the server of a session said and was not put yet.
pub fn waiting(venue: &VenueEnd, session: Session) -> &[u8]
    ensures { OfVenue venue.now
        (λ s before. result.now ≡ server_waits session (venue_after s before)) }
{
    match session {
        Session::Grp => venue.said_by_proxy(THE_SESSION),
        Session::Spin => venue.said_by_spin(THE_SESSION),
    }
}

/// So many bytes of that were put.
pub fn put(venue: &mut VenueEnd, session: Session, count: usize)
    ensures { Comes venue.old venue.new (server_put session count) }
{
    match session {
        Session::Grp => venue.put_by_proxy(THE_SESSION, count),
        Session::Spin => venue.put_by_spin(THE_SESSION, count),
    }
}

/// Bytes came to the server of a session. What the proxy accepts is appended for the gap line.
pub fn take(
    venue: &mut VenueEnd,
    session: Session,
    piece: &[u8],
    gap_line: &mut DatagramList,
) -> Result<(), OutOfMemory>
    ensures comes { OnOk result (Comes venue.old venue.new (server_took session piece.now)) }
    ensures lines { OnOk result (OfVenue venue.old (λ s before. bytes_in gap_line.new.items
        ≡ bytes_in gap_line.old.items
        ++ on_gap_line s (server_took session piece.now) (venue_after s before))) }
    // Each has messages that were accepted, at their sequences.
    ensures pieces { OnOk result (OfVenue venue.old (λ s before.
        AllByRecursion (IsPiece (venue_after s before).messages s.unit)
        (on_gap_line s (server_took session piece.now) (venue_after s before)))) }
{
    match session {
        Session::Grp => venue.take_proxy(THE_SESSION, piece, gap_line),
        Session::Spin => venue.take_spin(THE_SESSION, piece),
    }
}

/// Bytes came to the server of a session. What the proxy accepts is appended for the gap line; an
/// image that the Spin Server accepts waits whole.
pub(crate) fn feed(
    venue: &mut VenueEnd,
    session: Session,
    piece: &[u8],
    gap_line: &mut DatagramList,
) -> Result<(), OutOfMemory>
    ensures { OnOk result (Feeds venue.old venue.new session piece.now
        (bytes_in gap_line.old.items) (bytes_in gap_line.new.items)) }
{
    take(venue, session, piece, gap_line)?;
    match session {
        Session::Grp => Ok(()),
        Session::Spin => send_whole(venue),
    }
}

/// The Spin Server is asked for the blocks of its image until it sends none.
pub fn send_whole(venue: &mut VenueEnd) -> Result<(), OutOfMemory>
    ensures { OnOk result (OfVenue venue.old
        (λ s before. VenueStands s venue.new (asked_out s before))) }
{
    let mut more = true;
    while more {
        more = venue.pump_spin(THE_SESSION)?;
    }
    Ok(())
}
