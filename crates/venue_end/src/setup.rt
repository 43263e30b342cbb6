//! What a venue's end is made with.

use session_ends::Account;

/// The unit; the account that may log in to both servers; how many of the last messages the proxy
/// keeps; and how many gap requests it accepts at most in a second, in a minute and in a day,
/// whichever sessions they come by.
#[derive(Clone, Copy)]
pub struct VenueSetup {
    pub unit: u8,
    pub account: Account,
    pub kept: u32,
    pub second: u32,
    pub minute: u32,
    pub day: u32,
}
