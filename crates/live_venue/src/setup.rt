//! What a live venue serves.

ghost use Rattle.std.specs.Prelude.{◌≡◌, ◌≤◌, ◌↔◌, IfSome, IsTrue};
ghost use Rattle.std.specs.Option.{IsSome};
ghost use Rattle.pitch_fields.specs.Limits.{most_held};
ghost use Rattle.venue_units.specs.Units.{EachKeeps};
ghost use Rattle.live_venue.specs.Standing.{CanServe};

use pitch_fields::MOST_HELD;
use std::marker::Model;
use venue_end::VenueSetup;

/// How many units a venue serves at most.
const MOST_UNITS: usize = 64;

/// The units that are served, by their indexes from 0.
#[derive(Drop)]
pub struct ServeSetup {
    units: Vec<VenueSetup>,
}

impl Model for ServeSetup {
    ghost use Rattle.std.specs.Prelude.{List};
    ghost use Rattle.venue_end.specs.declared.setup.VenueSetup.{VenueSetup};
    ghost use Rattle.live_venue.specs.Standing.{CanServe};

    ghost Value = { List VenueSetup };

    ghost view = { λ s. s.units.items };

    ghost invariant = { λ s. CanServe s.units.items };
}

// Whether a proxy keeps a message at least, and at most so many.
fn can_keep(setup: &VenueSetup) -> bool
    ensures { IsTrue result ↔ ((1 ≤ setup.now.kept) × (setup.now.kept ≤ most_held)) }
{
    setup.kept > 0 && setup.kept <= MOST_HELD
}

// Whether each proxy does.
fn each_keeps(units: &[VenueSetup]) -> bool
    ensures { IsTrue result ↔ EachKeeps units.now }
{
    'setups: for setup in units {
        if !can_keep(setup) {
            return false;
        }
    }
    true
}

impl ServeSetup {
    /// At most 64 units, the proxy of each of which keeps 1 to 65,536 messages.
    pub fn make(units: Vec<VenueSetup>) -> Option<ServeSetup>
        ensures setup { IfSome result (λ setup. setup ≡ units.items) }
        ensures some { CanServe units.items → IsSome result }
    {
        if units.len() > MOST_UNITS || !each_keeps(&units) {
            drop(units);
            return None;
        }
        Some(ServeSetup { units })
    }

    /// The units.
    pub fn units(&self) -> &[VenueSetup]
        ensures units { result.now ≡ self.now }
        ensures can { CanServe self.now }
    {
        &self.units
    }
}
