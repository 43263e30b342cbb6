//! The traits by which a type names a shared unit, and may fix the messages of its run.

use std::marker::Brand;

/// Which pair of writer and servers it is, and how many of the last messages it keeps. Each call of
/// a program that takes an [`Opened`](crate::Opened) picks it.
pub trait Naming {
    ghost use Rattle.std.specs.Prelude.{ℕ};
    ghost use Rattle.logbook.specs.Pages.{Book};

    ghost book: { Book };

    ghost kept: { ℕ };
}

impl Naming for Brand {
    ghost book = { record { number = 0; log_name = 0; cells_name = 0 } };

    ghost kept = { 1 };
}

/// What a run fixes of its messages: their list, where they are fixed.
pub trait FixedRun {
    ghost use Rattle.std.specs.Prelude.{ℕ, List, Bool};

    ghost fixed: { Bool };

    ghost plan: { List (List ℕ) };
}

impl FixedRun for Brand {
    ghost use Rattle.std.specs.Prelude.{[], false};

    ghost fixed = { false };

    ghost plan = { [] };
}
