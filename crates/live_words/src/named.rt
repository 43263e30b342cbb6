//! What a word names: a port, a unit, a sender, a server, a line's share.

ghost use Rattle.std.specs.Prelude.{ℕ, List, IfNone, IfSome};
ghost use Rattle.std.specs.Net.Grammar.{IsIpText};
ghost use Rattle.pitch_words.specs.Numbers.{IsNumber};
ghost use Rattle.live_words.specs.Options.{IsServerText};
ghost use Rattle.live_words.specs.Trials.{IsShareText};
ghost use Rattle.live_words.specs.Asked.{IsPortText};

use crate::listen_words::Server;
use crate::shares::line_named;
use crate::trial_words::LineShare;
use line_sockets::Port;
use pitch_words::number;
use std::net::{IpAddr, SocketAddr};

/// What a word may name.
pub(crate) trait Named: Copy {
    /// A text names this.
    ghost names: { List ℕ → Self → Type 0 };

    /// What the text names.
    fn named_by(text: &str) -> Option<Self>
        ensures some { IfSome result (names text.now) }
        ensures none { IfNone result ((value : Self) → ¬ names text.now value) };
}

// The descriptors from here on are no standard streams.
const FIRST_GIVEN: u64 = 3;

impl Named for Port {
    ghost names = { IsPortText };

    fn named_by(text: &str) -> Option<Port> {
        if let Ok(addr) = SocketAddr::parse_ascii(text.as_bytes()) {
            return Some(Port::Bound(addr));
        }
        let digits = text.strip_prefix("fd:")?;
        let number = number(digits, FIRST_GIVEN, 65_535)?;
        Some(Port::Given(number as u16))
    }
}

impl Named for u8 {
    ghost names = { IsNumber 1 255 };

    fn named_by(text: &str) -> Option<u8> {
        let unit = number(text, 1, 255)?;
        Some(unit as u8)
    }
}

impl Named for IpAddr {
    ghost names = { IsIpText };

    fn named_by(text: &str) -> Option<IpAddr> {
        IpAddr::parse_ascii(text.as_bytes()).ok()
    }
}

impl Named for Server {
    ghost names = { IsServerText };

    fn named_by(text: &str) -> Option<Server> {
        let (unit, addr) = text.split_once('@')?;
        let Some(unit) = number(unit, 1, 255) else {
            return None;
        };
        let Ok(addr) = SocketAddr::parse_ascii(addr.as_bytes()) else {
            return None;
        };
        Some(Server {
            unit: unit as u8,
            addr,
        })
    }
}

impl Named for LineShare {
    ghost names = { IsShareText };

    fn named_by(text: &str) -> Option<LineShare> {
        let (name, share) = text.split_once(':')?;
        let Some(line) = line_named(name) else {
            return None;
        };
        let Some(share) = number(share, 0, 100) else {
            return None;
        };
        Some(LineShare {
            line,
            share: share as u8,
        })
    }
}
