//! The book of a client's end beside a venue's end.

ghost use Rattle.std.specs.Prelude.{◌≡◌, List, take};
ghost use Rattle.pitch_model.specs.Book.{book_after};
ghost use Rattle.pitch_model.specs.Reach.{reach};
ghost use Rattle.client_end.specs.Came.{Came, EndSetup, end_history};
ghost use Rattle.client_end.specs.Stands.{EndStands};
ghost use Rattle.venue_end.specs.Came.{VenueCame, venue_after};
ghost use Rattle.venue_end.specs.Stands.{VenueStands};
ghost use Rattle.venue_end.specs.declared.setup.VenueSetup.{VenueSetup};
ghost use Rattle.served_laws.specs.Beside.{ComesBeside};

use crate::laws::a_client_beside_a_venue_hears_the_truth;
use client_end::ClientEnd;
use order_book::UnitBook;
use venue_end::VenueEnd;

/// The book of a client's end beside a venue's end.
pub fn book_beside<'a>(client: &'a ClientEnd, venue: &VenueEnd) -> &'a UnitBook
    // Of all that came to both ends, where what came to the client's is what the venue's handed
    // out: the book is the one that exactly the first n messages leave that the venue accepted, n
    // the reach.
    ensures { (s : VenueSetup) (before : List VenueCame) (c : EndSetup) (came : List Came)
        → VenueStands s venue.now before → EndStands c client.now came → c.unit ≡ s.unit
        → ComesBeside s before came → result.now.book ≡ book_after
        (take (reach c.hold (end_history c came)) (venue_after s before).messages) }
{
    a_client_beside_a_venue_hears_the_truth();
    let _unit = venue.unit();
    client.book()
}
