//! Gates, at which a test sees and steers which work runs beside which.

/// A kind of work that may run beside other work.
#[derive(Clone, Copy, Debug, PartialEq, Eq)]
pub enum Role {
    Publisher,
    Service,
    Client,
    Replay,
}

/// A piece of work: whose, of which kind, and which step of it, from 1.
#[derive(Clone, Copy, PartialEq, Eq)]
pub struct Work {
    pub unit: u8,
    pub role: Role,
    pub step: u32,
}

/// What is told when a piece of work begins and ends, so that a test can see, and steer, what runs
/// beside what.
///
/// No contract speaks of it: work comes to the same whatever its gate does.
pub trait Gate {
    /// Called before the work.
    fn before(&self, work: Work);

    /// Called after the work.
    fn after(&self, work: Work);
}

/// A gate that does nothing.
#[derive(Clone, Copy)]
pub struct FreeGate;

impl Gate for FreeGate {
    fn before(&self, _work: Work) {}

    fn after(&self, _work: Work) {}
}
