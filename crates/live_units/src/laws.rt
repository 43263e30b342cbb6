//! What is printed where only blocks came, and what a unit has heard that has ended. These
//! functions do nothing: what they ensure is proved of the definitions alone.

ghost use Rattle.live_units.specs.layers.Laws.{LinesAreFollows, BooksAreFollows, TextIsFollows};
ghost use Rattle.live_units.specs.layers.Laws.{EndsAreVenues};

/// Of a unit to which blocks alone came, each line is that of `follow`, and so is the book; and of
/// the units of a client, the whole text.
pub fn blocks_alone_print_what_follow_does()
    ensures lines { LinesAreFollows }
    ensures books { BooksAreFollows }
    ensures text { TextIsFollows }
{}

/// Of every family of venues of which the histories speak honestly, the venue of a unit that has
/// ended has an End of Session among the first messages, up to the unit's reach.
pub fn a_unit_ends_at_its_venues_end()
    ensures { EndsAreVenues }
{}
