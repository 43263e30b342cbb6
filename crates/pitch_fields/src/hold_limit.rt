//! How many messages a client holds.

use crate::limits::MOST_HELD;
use std::marker::Model;

/// The most messages that a client holds of those that came too early: from 1 to 65,536.
#[derive(Clone, Copy)]
pub struct HoldLimit {
    places: u32,
}

impl Model for HoldLimit {
    ghost use Rattle.std.specs.Prelude.{ℕ};
    ghost use Rattle.pitch_fields.specs.Limits.{IsHoldLimit};

    ghost Value = { ℕ };

    ghost view = { λ l. l.places };

    ghost inverse = { λ n. record { places = n } };

    ghost invariant = { λ l. IsHoldLimit l.places };
}

impl HoldLimit {
    ghost use Rattle.std.specs.Prelude.{◌≡◌, IfSome};
    ghost use Rattle.std.specs.Option.{IsSome};
    ghost use Rattle.pitch_fields.specs.Limits.{IsHoldLimit};

    /// A hold of so many messages. None where that is 0, or above 65,536.
    pub fn of(places: u32) -> Option<HoldLimit>
        ensures limit { IfSome result (λ limit. limit ≡ places) }
        ensures some { IsHoldLimit places → IsSome result }
    {
        if places == 0 || places > MOST_HELD {
            return None;
        }
        Some(HoldLimit { places })
    }

    /// How many messages that are.
    pub fn places(self) -> u32
        ensures value { result ≡ self }
        ensures within { IsHoldLimit result }
    {
        self.places
    }
}
