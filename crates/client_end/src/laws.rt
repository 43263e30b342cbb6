//! Laws of all that comes to an end. These functions do nothing: what they ensure is proved of the
//! definitions alone.

ghost use Rattle.client_end.specs.layers.Laws.{BlocksAreFollowed, NoneIsAsked};

/// An end to which blocks alone came heard what `follow` hears of its unit.
pub fn blocks_alone_are_followed()
    ensures { BlocksAreFollowed }
{}

/// An end without connections says nothing at a second, whatever it lacks.
pub fn seconds_without_connections_ask_nothing()
    ensures { NoneIsAsked }
{}
