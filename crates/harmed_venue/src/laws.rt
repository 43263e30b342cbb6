//! Laws of what a harmed net makes of calls.

ghost use Rattle.harmed_venue.specs.declared.harm.Harm.{Harm};
ghost use Rattle.harmed_venue.specs.Venues.{LosesNothing, MakesNothingUp, PassesOn};

/// Where nothing is lost, repeated or swapped and no connection is cut, each call is passed on as
/// it is.
pub fn a_harmless_net_passes_all_on()
    ensures { (harm : Harm) → PassesOn harm }
{}

/// Each datagram that goes out on a line was sent on it.
pub fn nothing_is_made_up()
    ensures { (harm : Harm) → MakesNothingUp harm }
{}

/// Where no share is lost, each datagram that was sent on a line has gone out on it, or is held
/// back until another comes, a second passes or the wait is over.
pub fn nothing_else_is_lost()
    ensures { (harm : Harm) → LosesNothing harm }
{}
