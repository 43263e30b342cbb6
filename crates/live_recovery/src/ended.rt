//! Whether the units have ended that a live client is told to listen to.

ghost use Rattle.std.specs.Prelude.{◌≡◌, ℕ, List, Option};
ghost use Rattle.std.specs.List.{list_all};
ghost use Rattle.live_units.specs.Ended.{has_ended, have_ended};
ghost use Rattle.live_units.specs.Units.{OfLive};

use live_units::LiveUnits;

// Whether each of these units has.
fn all_ended(units: &LiveUnits, named: &[u8]) -> bool
    ensures { (now : Option (List ℕ)) → OfLive units.now now (λ s start came.
        result ≡ list_all (λ unit. has_ended s unit came) named.now) }
{
    'named: for unit in named {
        if !units.has_ended(*unit) {
            return false;
        }
    }
    true
}

/// Whether there are any of these units, and each has.
pub fn have_ended(units: &LiveUnits, named: &[u8]) -> bool
    ensures { (now : Option (List ℕ)) → OfLive units.now now (λ s start came.
        result ≡ have_ended s named.now came) }
{
    !named.is_empty() && all_ended(units, named)
}
