//! The two sessions of an end.

/// A session: with the Gap Request Proxy, or with the unit's Spin Server.
#[derive(Clone, Copy, PartialEq, Eq)]
pub enum Session {
    Proxy,
    SpinServer,
}
