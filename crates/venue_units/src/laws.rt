//! Laws of all that comes to the ends of a venue's units. These functions do nothing: what they
//! ensure is proved of the definitions alone.

ghost use Rattle.venue_units.specs.layers.Laws.{MessagesAreTheCommands, MessagesGrow};
ghost use Rattle.venue_units.specs.layers.Laws.{PiecesStayPieces};
ghost use Rattle.venue_units.specs.layers.Laws.{CutPlacesAreShut};

/// The messages of a unit's end are those of exactly the commands that came to it and were not
/// refused. What comes later appends messages, so each piece of the unit's feed stays one.
pub fn messages_are_the_commands()
    ensures messages { MessagesAreTheCommands }
    ensures grow { MessagesGrow }
    ensures pieces { PiecesStayPieces }
{}

/// Whatever came, once what stood at a place is cut, no session stands there.
pub fn cut_places_are_shut()
    ensures { CutPlacesAreShut }
{}
