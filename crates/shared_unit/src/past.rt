//! What is known of the history.
ghost use Rattle.std.specs.Prelude.{◌≡◌, ◌==◌, ◌<◌, ◌⊎◌, [], length, MatchBool, Some};
ghost use mathlib.Core.List.{IsPrefix};
ghost use Rattle.std.specs.List.{list_any};
ghost use Rattle.pitch_model.specs.Advertising.{advertised_by, last_ten, newest_of};
ghost use Rattle.shared_unit.specs.layers.Histories.{IsLegal, then_done};
ghost use Rattle.shared_unit.specs.layers.Stored.{ComesAfter, operation_of, served_with};

use crate::book::Front;
use crate::published::What;
use crate::run::{FixedRun, Naming};
use crate::sequences::Sequences;
use std::marker::Model;

// A beginning of the history that was seen, and the sequences whose images were served then.
// Contracts see the beginning.
#[derive(Drop)]
pub(crate) struct Past<J: Naming, R: FixedRun> {
    front: Front<J, R>,
    served: Sequences,
}

impl<J: Naming, R: FixedRun> Model for Past<J, R> {
    ghost use Rattle.std.specs.Prelude.{◌≡◌, List};
    ghost use Rattle.pitch_model.specs.Advertising.{Operation, advertised_by, last_ten};
    ghost use Rattle.shared_unit.specs.layers.Coding.{history_code};

    ghost Value = { List Operation };

    ghost coded = { history_code };

    ghost view = { λ p. p.front };

    ghost invariant = { λ p. p.served ≡ last_ten (advertised_by p.front) };
}

impl<J: Naming, R: FixedRun> Past<J, R> {
    // Nothing was done.
    pub(crate) fn none(front: Front<J, R>) -> Past<J, R>
        requires { front ≡ [] }
        ensures { result ≡ [] }
    {
        Past {
            front,
            served: Sequences::none(),
        }
    }

    // The beginning alone.
    pub(crate) fn front(&self) -> &Front<J, R>
        ensures { result.now ≡ self.now }
    {
        &self.front
    }

    // How many operations it has.
    pub(crate) fn len(&self) -> u64
        ensures length { result ≡ length self.now }
        ensures legal { IsLegal R.fixed R.plan self.now }
    {
        self.front.len()
    }

    // A copy.
    pub(crate) fn again(&self) -> Past<J, R>
        ensures { result ≡ self.now }
    {
        Past {
            front: self.front.again(),
            served: self.served.again(),
        }
    }

    // Whether the other begins this one, which then is the longer one. Else this one begins it.
    pub(crate) fn covers(&self, other: &Past<J, R>) -> bool
        ensures { MatchBool result (IsPrefix other.now self.now)
            (IsPrefix self.now other.now × (length self.now < length other.now)) }
    {
        self.front.covers(&other.front)
    }

    // Knows afterwards what both knew: it is the longer of the two, which the other begins.
    pub(crate) fn learn(&mut self, other: &Past<J, R>)
        ensures one { (self.new ≡ self.old) ⊎ (self.new ≡ other.now) }
        ensures this { IsPrefix self.old self.new }
        ensures that { IsPrefix other.now self.new }
    {
        if self.covers(other) {
            return;
        }
        self.set_to(other);
    }

    // Becomes a copy of the other.
    pub(crate) fn set_to(&mut self, other: &Past<J, R>)
        ensures { self.new ≡ other.now }
    {
        *self = other.again();
    }

    // The newest sequence that was advertised, or None exactly where none was.
    pub(crate) fn newest(&self) -> Option<u32>
        ensures { result ≡ newest_of (advertised_by self.now) }
    {
        self.served.newest()
    }

    // Whether it is the newest sequence that was advertised.
    pub(crate) fn has_newest(&self, sequence: u32) -> bool
        ensures { MatchBool result (newest_of (advertised_by self.now) ≡ Some sequence)
            (¬ (newest_of (advertised_by self.now) ≡ Some sequence)) }
    {
        match self.newest() {
            Some(newest) => newest == sequence,
            None => false,
        }
    }

    // Whether the image through a sequence is served.
    pub(crate) fn serves(&self, sequence: u32) -> bool
        ensures { result ≡ list_any (λ n. n == sequence) (last_ten (advertised_by self.now)) }
    {
        self.served.has(sequence)
    }

    // This past with an operation more, which ends that front.
    pub(crate) fn extended(&self, front: Front<J, R>, what: &What) -> Past<J, R>
        requires ends { front ≡ then_done self.now (operation_of what.now) }
        requires follows { ComesAfter what.now self.now }
        ensures { result ≡ then_done self.now (operation_of what.now) }
    {
        let served = served_after(&self.served, what);
        Past { front, served }
    }
}

// The sequences that are served after an operation.
fn served_after(served: &Sequences, what: &What) -> Sequences
    ensures { result ≡ served_with served.now what.now }
{
    let mut after = served.again();
    if let What::Image(picture) = what {
        after.add(picture.sequence);
    }
    after
}
