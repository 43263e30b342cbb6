//! A net that says on standard error which servers answer.

ghost use Rattle.std.specs.Prelude.{◌≡◌};

use live_net::{LiveNet, PeerOpened, PeerPut, PeerTaken, Received, WaitEnd};
use live_words::ServerWords;
use std::alloc::{AllocError, Global};

/// A server, and whether it was last said to answer.
#[derive(Clone, Copy)]
struct Told {
    unit: u8,
    name: &'static str,
    is_up: Option<bool>,
}

/// A net whose peers are servers. It says `unit U grp up` or `unit U spin up` with the first bytes
/// of a connection, and `down` when one ended, was refused or closed, unless it said so last.
#[derive(Drop)]
pub struct Telling<'a, N> {
    rt: &'a HostRuntime,
    pub net: N,
    servers: Vec<Told>,
}

// Of each server nothing was said yet. Their numbers are those of the proxies, and then of the Spin
// Servers.
fn untold(alloc: Global, servers: &ServerWords) -> Result<Vec<Told>, AllocError> {
    let mut all = Vec::new(alloc);
    for (name, some) in [("grp", &servers.grp), ("spin", &servers.spin)] {
        for server in some.iter() {
            all.push(Told {
                unit: server.unit,
                name,
                is_up: None,
            })?;
        }
    }
    Ok(all)
}

impl<'a, N: Drop> Telling<'a, N> {
    /// Has a net tell of these servers.
    pub fn make(
        rt: &'a HostRuntime,
        net: N,
        servers: &ServerWords,
    ) -> Result<Telling<'a, N>, AllocError> {
        let servers = untold(rt.alloc(), servers)?;
        Ok(Telling { rt, net, servers })
    }

    // Says whether the server of this number answers, where that is new.
    fn tell(&mut self, peer: u16, is_up: bool)
        ensures { self.new.net ≡ self.old.net }
    {
        let Some(server) = self.servers.get_mut(usize::from(peer)) else {
            return;
        };
        if server.is_up == Some(is_up) {
            return;
        }
        server.is_up = Some(is_up);
        let how = if is_up { "up" } else { "down" };
        let _said = eprintln!(self.rt; "unit {} {} {how}", server.unit, server.name);
    }
}

impl<'a, N: LiveNet + Drop> LiveNet for Telling<'a, N> {
    ghost calls = { λ telling. N.calls telling.net };

    ghost faults = { λ telling. N.faults telling.net };

    fn wait(&mut self, more: bool) -> WaitEnd {
        self.net.wait(more)
    }

    fn receive(&mut self, line: u16, into: &mut [u8]) -> Received {
        self.net.receive(line, into)
    }

    fn open(&mut self, peer: u16) -> PeerOpened {
        let answer = self.net.open(peer);
        if answer == PeerOpened::Refused {
            self.tell(peer, false);
        }
        answer
    }

    fn take(&mut self, peer: u16, into: &mut [u8]) -> PeerTaken {
        let answer = self.net.take(peer, into);
        match answer {
            PeerTaken::Got(_) => self.tell(peer, true),
            PeerTaken::Ended => self.tell(peer, false),
            PeerTaken::Quiet => {}
        }
        answer
    }

    fn put(&mut self, peer: u16, piece: &[u8]) -> PeerPut {
        let answer = self.net.put(peer, piece);
        if answer == PeerPut::Ended {
            self.tell(peer, false);
        }
        answer
    }

    fn close(&mut self, peer: u16) {
        self.net.close(peer);
        self.tell(peer, false);
    }
}
