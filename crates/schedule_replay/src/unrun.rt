//! What keeps units from being run apart: a faulty line, or want of memory.

use pitch_fields::OutOfMemory;
use std::alloc::{AllocError, AllocFailed};

/// Why the units of a text were not run apart.
#[derive(Clone, Copy, Drop)]
pub(crate) enum CantRunApart {
    /// Memory ran out.
    OutOfMemory,
    /// A line has a fault, or names no unit.
    NotApart,
}

impl From<OutOfMemory> for CantRunApart {
    fn from(_: OutOfMemory) -> CantRunApart {
        CantRunApart::OutOfMemory
    }
}

impl From<AllocError> for CantRunApart {
    fn from(_: AllocError) -> CantRunApart {
        CantRunApart::OutOfMemory
    }
}

impl<T: Drop> From<AllocFailed<T>> for CantRunApart {
    fn from(_: AllocFailed<T>) -> CantRunApart {
        CantRunApart::OutOfMemory
    }
}
