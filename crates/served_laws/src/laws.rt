//! The laws. These functions do nothing: what they ensure is proved of the definitions alone.

ghost use Rattle.served_laws.specs.Laws.{ServedIsHonest, ServedIsWhole, ServedStays, AllIsPut};
ghost use Rattle.served_laws.specs.Laws.{PutIsSaid, PutStaysSaid, HandedOutArePieces};
ghost use Rattle.served_laws.specs.Laws.{BesideComesFrom, BesideIsHonest, BesideIsWhole};
ghost use Rattle.served_laws.specs.Laws.{BesideStays};

/// What is served is honest. Whatever comes to a client's end, where its lines bring blocks of a
/// venue's messages, and each of its connections with a Spin Server bytes that a server of these
/// messages said, the history speaks of that venue alone, and no image of it is bad.
pub fn what_is_served_is_honest()
    ensures honest { ServedIsHonest }
    ensures whole { ServedIsWhole }
    // All that came may also come of a venue that accepted more.
    ensures stays { ServedStays }
{}

/// What waits was said, and so was what was put: whatever came to a venue's end, what was put to a
/// session and then what waits for it is all that its Spin Server said. So a server of the venue's
/// messages said what was put to a session since it was made, also to one that has ended.
pub fn what_waits_was_said()
    ensures all { AllIsPut }
    ensures said { PutIsSaid }
    // Whatever came since: a server of all that the venue accepted by now said it.
    ensures stays { PutStaysSaid }
{}

/// A client beside a venue hears the truth. Where the datagrams that come to its end are among
/// those that a venue's end handed out, in any order, any number of times or not at all, and what
/// its connections with a Spin Server bring begins what was put to a session each, its history
/// speaks honestly of all that the venue accepted.
pub fn a_client_beside_a_venue_hears_the_truth()
    ensures pieces { HandedOutArePieces }
    ensures comes { BesideComesFrom }
    ensures honest { BesideIsHonest }
    ensures whole { BesideIsWhole }
    // All this still came of it, whatever comes to the venue's end later.
    ensures stays { BesideStays }
{}
