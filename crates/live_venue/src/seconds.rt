//! A second that passes for all units.

ghost use Rattle.std.specs.Prelude.{List, length};
ghost use Rattle.venue_end.specs.declared.setup.VenueSetup.{VenueSetup};
ghost use Rattle.live_venue.specs.Standing.{Passes, PassesFor};

use crate::setup::ServeSetup;
use venue_units::VenueUnits;

// It passes for a unit, and its image is advertised.
fn pass_for(units: &mut VenueUnits, at: usize)
    ensures { (s : List VenueSetup) → PassesFor s at units.old units.new }
{
    let _ticked = units.second(at);
    let _advertised = units.advertise(at);
}

/// A second passes for each unit, by rising index. Where there is no memory for it, sessions are
/// cut.
pub(crate) fn pass_second(setup: &ServeSetup, units: &mut VenueUnits)
    ensures { Passes setup.now (length setup.now) units.old units.new }
{
    'units: for at in 0..setup.units().len() {
        pass_for(units, at);
    }
}
