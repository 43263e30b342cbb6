//! Which calls of a net in memory fail.

ghost use Rattle.std.specs.Prelude.{◌≡◌, ◌↔◌, true};
ghost use Rattle.pitch_io.specs.Causes.{HasCause};
ghost use Rattle.scripted_nets.specs.layers.Failing.{IsListed, IsNextCall};

use std::marker::Model;

/// The numbers of the calls that fail, counted from 1, and how many calls and faults there were.
#[derive(Drop)]
pub struct FailingCalls {
    listed: Vec<u64>,
    count: u64,
    faults: u64,
}

impl Model for FailingCalls {
    ghost use Rattle.scripted_nets.specs.layers.Failing.{Failing};

    ghost Value = { Failing };

    ghost view = { λ f. record {
      listed = f.listed.items;
      count = f.count;
      faults = f.faults;
    } };
}

impl FailingCalls {
    /// Nothing was called yet.
    pub(crate) fn make(listed: Vec<u64>) -> FailingCalls
        ensures { result ≡ record { listed = listed.items; count = 0; faults = 0 } }
    {
        FailingCalls {
            listed,
            count: 0,
            faults: 0,
        }
    }

    /// How many calls there were.
    pub(crate) fn count(&self) -> u64
        ensures { result ≡ self.now.count }
    {
        self.count
    }

    /// Counts a call.
    pub(crate) fn count_call(&mut self)
        ensures next { IsNextCall self.old self.new }
        ensures same { self.new ≡ record self.old { count = self.new.count } }
    {
        self.count = self.count.saturating_add(1);
    }

    /// Whether the newest call is listed as one that fails.
    pub(crate) fn is_listed(&self) -> bool
        ensures { result ≡ true ↔ IsListed self.now }
    {
        self.listed.contains(&self.count)
    }

    /// A fault.
    pub(crate) fn fault(&mut self)
        ensures cause { HasCause self.old.faults self.new.faults (Unit {0}) }
        ensures same { self.new ≡ record self.old { faults = self.new.faults } }
    {
        self.faults = self.faults.saturating_add(1);
    }
}
