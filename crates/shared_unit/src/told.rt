//! What a writer tells.
ghost use Rattle.std.specs.Prelude.{◌≡◌};

use crate::book::Eye;
use crate::past::Past;
use crate::run::{FixedRun, Naming};
use std::marker::Model;

/// A history that was told, with all that its writer saw happen. Contracts see both. It may go to
/// another thread.
#[derive(Drop)]
pub struct Told<J: Naming, R: FixedRun> {
    pub(crate) past: Past<J, R>,
    pub(crate) eye: Eye<J, R>,
}

impl<J: Naming, R: FixedRun> Model for Told<J, R> {
    ghost use Rattle.shared_unit.specs.layers.Coding.{account_code};
    ghost use Rattle.shared_unit.specs.layers.Moments.{Account};

    ghost Value = { Account };

    ghost coded = { account_code };

    ghost view = { λ t. record { history = t.past; moments = t.eye } };
}

impl<J: Naming, R: FixedRun> Told<J, R> {
    pub(crate) fn new(past: Past<J, R>, eye: Eye<J, R>) -> Told<J, R>
        ensures history { result.history ≡ past }
        ensures moments { result.moments ≡ eye }
    {
        Told { past, eye }
    }
}
