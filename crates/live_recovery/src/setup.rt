//! What a live client is told to hear, and whom to ask.

use crate::peer::Peer;
use live_units::Account;
use pitch_fields::HoldLimit;
use std::marker::Model;

/// How many lines there are, the peers by their numbers, the units that are listened to, the
/// account of their logins, and how many messages the hold of each unit has room for.
#[derive(Drop)]
pub struct RecoverSetup {
    lines: u16,
    peers: Vec<Peer>,
    units: Vec<u8>,
    account: Account,
    hold: HoldLimit,
}

impl Model for RecoverSetup {
    ghost use Rattle.live_recovery.specs.Running.{Setup, CanRecover};

    ghost Value = { Setup };

    ghost view = { λ s. record {
      lines = s.lines;
      peers = s.peers.items;
      listens = record { units = s.units.items; account = s.account; hold = s.hold };
    } };

    ghost invariant = { λ s. CanRecover s.peers.items };
}

impl RecoverSetup {
    ghost use Rattle.std.specs.Prelude.{◌≡◌, IfSome, slice_get, length};
    ghost use Rattle.std.specs.Option.{IsSome};
    ghost use Rattle.live_units.specs.Coming.{has_unit};
    ghost use Rattle.live_recovery.specs.Running.{CanRecover};

    /// At most 65,535 peers. A peer is asked where its unit is one of those that are named; each
    /// session of a unit is meant to have one peer.
    pub fn make(
        lines: u16,
        peers: Vec<Peer>,
        units: Vec<u8>,
        account: Account,
        hold: HoldLimit,
    ) -> Option<RecoverSetup>
        ensures setup { IfSome result (λ setup. setup ≡ record {
          lines = lines;
          peers = peers.items;
          listens = record { units = units.items; account = account; hold = hold };
        }) }
        ensures some { CanRecover peers.items → IsSome result }
    {
        if peers.len() > usize::from(u16::MAX) {
            drop(peers);
            drop(units);
            return None;
        }
        Some(RecoverSetup {
            lines,
            peers,
            units,
            account,
            hold,
        })
    }

    /// How many lines there are.
    pub fn lines(&self) -> u16
        ensures { result ≡ self.now.lines }
    {
        self.lines
    }

    /// How many peers there are.
    pub fn peer_count(&self) -> u16
        ensures count { result ≡ length self.now.peers }
        ensures can { CanRecover self.now.peers }
    {
        self.peers.len() as u16
    }

    /// The peer of a number, where there are so many.
    pub fn peer(&self, at: u16) -> Option<Peer>
        ensures { result ≡ slice_get self.now.peers at }
    {
        self.peers.get(usize::from(at)).copied()
    }

    /// The units that are listened to.
    pub fn units(&self) -> &[u8]
        ensures { result.now ≡ self.now.listens.units }
    {
        &self.units
    }

    /// Whether a unit is listened to.
    pub fn wants(&self, unit: u8) -> bool
        ensures { result ≡ has_unit self.now.listens unit }
    {
        self.units.is_empty() || self.units.contains(&unit)
    }

    /// The account of their logins.
    pub fn account(&self) -> &Account
        ensures { result.now ≡ self.now.listens.account }
    {
        &self.account
    }

    /// How many places the hold of each has.
    pub fn hold(&self) -> HoldLimit
        ensures { result ≡ self.now.listens.hold }
    {
        self.hold
    }
}
