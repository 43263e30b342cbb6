//! What `serve` is asked for.

use crate::listen_words::Server;
use crate::trial_words::TrialWords;
use session_ends::Account;
use std::net::SocketAddr;

/// The places that the options name, each by its unit.
#[derive(Drop)]
pub(crate) struct Places {
    /// Where the datagrams of the lines A, of the lines B, and of the gap lines are sent.
    pub a: Vec<Server>,
    pub b: Vec<Server>,
    pub gap: Vec<Server>,
    /// Where the Gap Request Proxies and the Spin Servers listen.
    pub grp: Vec<Server>,
    pub spin: Vec<Server>,
}

/// A unit that is served.
#[derive(Clone, Copy, PartialEq, Eq)]
pub struct UnitWords {
    /// The unit's number: 1 to 255.
    pub unit: u8,
    /// Where the datagrams of its line A are sent, and of its line B and its gap line, where it has
    /// them.
    pub a: SocketAddr,
    pub b: Option<SocketAddr>,
    pub gap: Option<SocketAddr>,
    /// Where its Gap Request Proxy and its Spin Server listen, where it has them.
    pub grp: Option<SocketAddr>,
    pub spin: Option<SocketAddr>,
}

/// What `serve` is asked for.
#[derive(Drop)]
pub struct ServeWords {
    /// The units that are served: 1 to 64, each once, in the order of their lines A.
    pub units: Vec<UnitWords>,
    /// The account that may log in, which is there where a server is.
    pub account: Option<Account>,
    /// How many of the last messages each proxy keeps: 1 to 65,536.
    pub kept: u32,
    /// How many gap requests an account may have accepted in a second, in a minute and in a day:
    /// 1 to 1,000,000 each.
    pub second: u32,
    pub minute: u32,
    pub day: u32,
    /// After how many seconds it ends, where that is limited.
    pub seconds: Option<u64>,
    /// How many seconds after the end of its input it ends, where that is limited.
    pub after: Option<u64>,
    /// What is to try a handler.
    pub trial: TrialWords,
}
