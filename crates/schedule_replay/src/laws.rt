//! Laws of the definitions. These functions do nothing: what they ensure is proved of the
//! definitions alone.

ghost use Rattle.std.specs.Prelude.{◌≡◌};
ghost use Rattle.schedule_replay.specs.layers.Merging.{LinesStandApart, UnitsRunApart};
ghost use Rattle.schedule_replay.specs.Replay.{open_alone, limits_at};
ghost use Rattle.world_model.specs.Ends.{default_limits};

/// A line writes what it writes after the lines of its own unit alone. So a schedule writes what
/// its units write, each alone, put together in the schedule's order, whoever ran them.
#[tactic(auto, using(crate::proofs::Splitting::lines_stand_apart, crate::proofs::Splitting::units_run_apart))]
pub fn units_run_apart()
    ensures lines { LinesStandApart }
    ensures text { UnitsRunApart }
{}

/// An `open` line without fields sets the limits that a unit has which begins with another line.
pub fn an_open_alone_sets_the_default_limits()
    ensures { limits_at open_alone ≡ default_limits }
{}
