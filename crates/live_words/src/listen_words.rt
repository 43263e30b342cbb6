//! What the words ask for.

use line_sockets::Port;
use session_ends::Account;
use std::net::{IpAddr, SocketAddr};

/// The lines of a feed.
#[derive(Drop)]
pub struct LineWords {
    /// The ports of the lines A, of the lines B, and of the gap lines.
    pub a: Vec<Port>,
    pub b: Vec<Port>,
    pub gap: Vec<Port>,
    /// Whose datagrams are heard, and everyone's where nobody is named.
    pub from: Vec<IpAddr>,
}

/// A Gap Request Proxy or a Spin Server of a unit, and where it is.
#[derive(Clone, Copy, PartialEq, Eq)]
pub struct Server {
    pub unit: u8,
    pub addr: SocketAddr,
}

/// Who is asked for what was lost.
#[derive(Drop)]
pub struct ServerWords {
    /// The Gap Request Proxies, at most one of a unit.
    pub grp: Vec<Server>,
    /// The Spin Servers, at most one of a unit.
    pub spin: Vec<Server>,
    /// The account of all logins, which is there where a server is.
    pub account: Option<Account>,
}

/// What `listen` is asked for.
#[derive(Drop)]
pub struct ListenWords {
    pub lines: LineWords,
    /// The units that are listened to beside those of the servers.
    pub units: Vec<u8>,
    pub servers: ServerWords,
    /// How many messages the client of each unit holds: 1 to 65,536.
    pub hold: u32,
    /// After how many seconds it ends, where that is limited.
    pub seconds: Option<u64>,
}
