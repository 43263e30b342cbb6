//! Why a demo broke off: a fault of the net, or want of memory.

use pitch_fields::OutOfMemory;

/// Why a demo ends early.
#[derive(Clone, Copy)]
pub enum DemoError {
    /// The net failed, and its count of faults rose.
    NetFault,
    /// Memory ran out.
    OutOfMemory,
}

impl From<OutOfMemory> for DemoError {
    ghost use Rattle.std.specs.Prelude.{◌≡◌};
    ghost use Rattle.net_edge.specs.declared.error.DemoError.TheVariants as errors;

    ghost from_gives = { λ _ error. error ≡ errors.OutOfMemory };

    fn from(_: OutOfMemory) -> DemoError {
        DemoError::OutOfMemory
    }
}
