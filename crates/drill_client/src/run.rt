//! Which messages a drill has, by a type.

use std::marker::Brand;

/// A type that stands for one run of a drill: its messages are the first `count` of the plan of its
/// number and unit.
pub trait DrillRun {
    ghost use Rattle.std.specs.Prelude.{ℕ};

    ghost number: { ℕ };

    ghost unit: { ℕ };

    ghost count: { ℕ };
}

// A brand can be of any run, and which it is is said where one is picked; these numbers only show
// that there is a run.
impl DrillRun for Brand {
    ghost number = { 0 };

    ghost unit = { 1 };

    ghost count = { 1 };
}
