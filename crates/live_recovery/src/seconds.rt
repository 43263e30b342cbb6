//! A second that passes for all units.

ghost use Rattle.std.specs.Prelude.{ℕ, ◌⊎◌, List, Option};
ghost use Rattle.client_end.specs.Came.{Second};
ghost use Rattle.live_units.specs.Coming.{UnitCame};
ghost use Rattle.live_units.specs.Units.{LiveStands, LosesAt, PassesAt};
ghost use Rattle.live_recovery.specs.Running.{IsSame, Now, Setup};
ghost use Rattle.live_recovery.specs.Standing.{SecondsPass, now_of};

use live_units::LiveUnits;

// It passes for a unit. One that has no memory for it loses both its connections.
fn pass_for(units: &mut LiveUnits, unit: u8)
    ensures { ((now : Option (List ℕ)) → PassesAt units.old units.new now now unit Second)
        ⊎ LosesAt units.old units.new unit }
{
    let _passed = units.second(unit);
}

/// A second passes for each unit, by rising number. The connections that are lost for want of
/// memory are closed in their turns.
pub fn pass_second(units: &mut LiveUnits)
    // Whatever came before.
    ensures { (s : Setup) (start written : Option (List ℕ)) (first : Now) (came : List UnitCame)
        → LiveStands s.listens start written units.old came → IsSame first (now_of came units.old)
        → SecondsPass s start written first 256 units.new }
{
    'units: for unit in 0..=u8::MAX {
        pass_for(units, unit);
    }
}
