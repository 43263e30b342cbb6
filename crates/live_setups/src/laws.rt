//! Laws of what the words set up. These functions do nothing: what they ensure is proved of the
//! definitions alone.

ghost use Rattle.live_setups.specs.Laws.{DoorsStand, LinesStand, UnitsAreApart, UnitsAreNamed};
ghost use Rattle.live_setups.specs.Laws.{WordsAreHeard, WordsAreServed};

/// A run is made of whatever words ask for, but for `listen` with more than 65,535 lines.
#[tactic(auto, using(crate::proofs::Words::are_heard, crate::proofs::Words::are_served))]
pub fn what_is_asked_can_be_made()
    ensures heard { WordsAreHeard }
    ensures served { WordsAreServed }
{}

/// The units that are heard are those that are named, by themselves or with a server, each once.
#[tactic(auto, using(crate::proofs::Units::heard_apart, crate::proofs::Units::heard_named))]
pub fn named_units_are_heard_once()
    ensures apart { UnitsAreApart }
    ensures named { UnitsAreNamed }
{}

/// The lines of the unit at an index i are 3 i, 3 i + 1 and 3 i + 2, and its doors 2 i and 2 i + 1.
#[tactic(auto, using(crate::proofs::Places::lines_stand, crate::proofs::Places::doors_stand))]
pub fn units_have_their_places()
    ensures lines { LinesStand }
    ensures doors { DoorsStand }
{}
