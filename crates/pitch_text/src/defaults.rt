//! The sizes of hold and gap store, and the limits of requests, where a text gives none.

/// How many messages a client holds of those that came too early, where nothing else is said.
pub const DEFAULT_HOLD: u32 = 4096;

/// How many of the last messages the Gap Request Proxy keeps, where nothing else is said.
pub const DEFAULT_KEPT: u32 = 65_536;

/// How many gap requests the proxy accepts in a second, where nothing else is said.
pub const DEFAULT_SECOND: u32 = 10;

/// How many it accepts in a minute.
pub const DEFAULT_MINUTE: u32 = 100;

/// How many it accepts in a day.
pub const DEFAULT_DAY: u32 = 10_000;
