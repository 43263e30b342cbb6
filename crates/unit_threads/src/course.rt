//! Which messages a unit's drill has.

ghost use Rattle.std.specs.Prelude.{◌≡◌, ◌≤◌};
ghost use Rattle.drill_client.specs.layers.Limits.{most_drilled};
ghost use Rattle.unit_threads.specs.layers.Publishing.{IsPlanned};

use drill_client::DrillRun;
use pitch_io::{Role, Work};
use shared_unit::FixedRun;
use std::marker::PhantomData;

/// The course of a unit's drill: the first `count` commands of the plan of its number and unit.
#[derive(Drop)]
pub(crate) struct Course<R: DrillRun + FixedRun> {
    pub(crate) number: u64,
    pub(crate) unit: u8,
    pub(crate) count: u32,
    of: PhantomData<R>,
    pub(crate) ghost number_is: { number ≡ R.number },
    pub(crate) ghost unit_is: { unit ≡ R.unit },
    pub(crate) ghost count_is: { count ≡ R.count },
    pub(crate) ghost most: { (1 ≤ count) × (count ≤ most_drilled) },
    pub(crate) ghost planned: { IsPlanned R.fixed R.plan number unit count },
}

impl<R: DrillRun + FixedRun> Course<R> {
    /// The course of the run.
    pub(crate) fn make(number: u64, unit: u8, count: u32) -> Course<R>
        requires number { number ≡ R.number }
        requires unit { unit ≡ R.unit }
        requires count { count ≡ R.count }
        requires most { (1 ≤ count) × (count ≤ most_drilled) }
        requires planned { IsPlanned R.fixed R.plan number unit count }
        ensures number { result.number ≡ number }
        ensures unit { result.unit ≡ unit }
        ensures count { result.count ≡ count }
    {
        Course {
            number,
            unit,
            count,
            of: PhantomData,
        }
    }

    /// A step of a party of this unit.
    pub(crate) fn work(&self, role: Role, step: u32) -> Work {
        Work {
            unit: self.unit,
            role,
            step,
        }
    }
}
