//! What a listener is told to hear.

use pitch_fields::HoldLimit;
use std::marker::Model;

/// How many lines there are, which units are listened to, and how many messages the hold of each
/// has room for.
#[derive(Drop)]
pub struct ListenSetup {
    lines: u16,
    units: Vec<u8>,
    hold: HoldLimit,
}

impl Model for ListenSetup {
    ghost use Rattle.live_listen.specs.Listening.{Setup, CanListen};

    ghost Value = { Setup };

    ghost view = { λ s. record { lines = s.lines; units = s.units.items; hold = s.hold } };

    ghost invariant = { λ s. CanListen s.lines };
}

impl ListenSetup {
    ghost use Rattle.std.specs.Prelude.{◌≡◌, IfSome};
    ghost use Rattle.std.specs.Option.{IsSome};
    ghost use Rattle.live_listen.specs.Heard.{is_listened};
    ghost use Rattle.live_listen.specs.Listening.{CanListen};

    /// So many lines, of which at least one is wanted, and the named units, or every unit where
    /// none is named.
    pub fn make(lines: u16, units: Vec<u8>, hold: HoldLimit) -> Option<ListenSetup>
        ensures setup { IfSome result (λ setup.
            setup ≡ record { lines = lines; units = units.items; hold = hold }) }
        ensures some { CanListen lines → IsSome result }
    {
        if lines == 0 {
            drop(units);
            return None;
        }
        Some(ListenSetup { lines, units, hold })
    }

    /// How many lines there are.
    pub fn lines(&self) -> u16
        ensures lines { result ≡ self.now.lines }
        ensures can { CanListen result }
    {
        self.lines
    }

    /// How many places a hold has.
    pub fn hold(&self) -> HoldLimit
        ensures { result ≡ self.now.hold }
    {
        self.hold
    }

    /// Whether a unit is listened to.
    pub fn wants(&self, unit: u8) -> bool
        ensures { result ≡ is_listened self.now.units unit }
    {
        self.units.is_empty() || self.units.contains(&unit)
    }
}
