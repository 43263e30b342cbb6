//! The net over these sockets.

ghost use Rattle.std.specs.Prelude.{◌≡◌, ◌<◌, [], None, false, true, length};
ghost use Rattle.loopback_net.specs.layers.Opening.{UsesOpen};
ghost use Rattle.pitch_io.specs.Causes.{HasCause};
ghost use Rattle.pitch_io.specs.Nets.{NetDoneFailed, NetTakeFailed};
ghost use Rattle.pitch_io.specs.layers.Coming.{CameWithin};
ghost use Rattle.pitch_io.specs.Putting.{PutFailed, PutsWithin};

use crate::connection;
use crate::connection::{Connection, open_connection};
use crate::line_sockets::LineSockets;
use pitch_io::{Line, LinkEnd, Net, NetDone, NetTaken, Put};
use std::marker::Model;
use std::net::{Ipv4Addr, SocketAddr, UdpSocket};
use std::os::fd::AsRawFd;
use std::{io, net};

// All that is open.
#[derive(Drop)]
struct Sockets<S> {
    a: LineSockets,
    b: LineSockets,
    gap: LineSockets,
    grp: Connection<S>,
    spin: Connection<S>,
}

impl<S: io::Read + io::Write> Sockets<S> {
    fn line(&self, line: Line) -> &LineSockets {
        match line {
            Line::A => &self.a,
            Line::B => &self.b,
            Line::Gap => &self.gap,
        }
    }

    fn put(&mut self, end: LinkEnd, piece: &[u8]) -> Put
        ensures count { PutsWithin result piece.now }
    {
        match end {
            LinkEnd::GrpClient => connection::put(&mut self.grp.client, piece),
            LinkEnd::GrpServer => connection::put(&mut self.grp.server, piece),
            LinkEnd::SpinClient => connection::put(&mut self.spin.client, piece),
            LinkEnd::SpinServer => connection::put(&mut self.spin.server, piece),
        }
    }

    fn take(&mut self, end: LinkEnd, into: &mut [u8]) -> NetTaken
        ensures count { CameWithin result into.new }
    {
        match end {
            LinkEnd::GrpClient => connection::take(&mut self.grp.client, into),
            LinkEnd::GrpServer => connection::take(&mut self.grp.server, into),
            LinkEnd::SpinClient => connection::take(&mut self.spin.client, into),
            LinkEnd::SpinServer => connection::take(&mut self.spin.server, into),
        }
    }
}

// Takes those of the descriptors 0 to 2 that are free. A socket there would be taken for a standard
// stream, and what is written to standard output would go out on a line.
fn take_low<R: net::Net>(rt: &R) -> io::Result<[Option<UdpSocket>; 3]> {
    let any_port = SocketAddr::from((Ipv4Addr::LOCALHOST, 0));
    let mut low = [None, None, None];
    for place in &mut low {
        let socket = UdpSocket::bind(rt, any_port)?;
        if socket.as_raw_fd() > 2 {
            break;
        }
        *place = Some(socket);
    }
    Ok(low)
}

// Opens all, or nothing. The low descriptors are free again after that, and stay so.
fn open<R: net::Net>(rt: &R) -> io::Result<Sockets<R::Stream>> {
    let _low = take_low(rt)?;
    Ok(Sockets {
        a: LineSockets::open(rt)?,
        b: LineSockets::open(rt)?,
        gap: LineSockets::open(rt)?,
        grp: open_connection(rt)?,
        spin: open_connection(rt)?,
    })
}

/// A net over UDP and TCP of the loopback address. It does not tell its calls.
///
/// Until `begin` has opened its sockets each other call fails. A later `begin` opens others in
/// their place, and what was on its way is lost; where it fails, those that were open stay. It
/// tries each connection at most four times, for two seconds at each side where nobody else
/// connects, and no other call waits: a datagram or a piece for which there is no room now is a
/// failure, as is a datagram longer than UDP carries, which is 65,507 bytes. A datagram without
/// bytes is not carried.
#[derive(Drop)]
pub struct StdNet<R: net::Net> {
    rt: R,
    sockets: Option<Sockets<R::Stream>>,
    faults: u64,
}

impl<R: net::Net> Model for StdNet<R> {
    ghost use Rattle.std.specs.Prelude.{is_some};
    ghost use Rattle.loopback_net.specs.layers.Opening.{Opened};

    ghost Value = { Opened };

    ghost view = { λ n. record { is_open = is_some n.sockets; faults = n.faults } };
}

impl<R: net::Net> StdNet<R> {
    /// A net with nothing open, over the network of this runtime. Takes no memory.
    pub fn make(rt: R) -> StdNet<R>
        ensures closed { result.is_open ≡ false }
        ensures faults { result.faults ≡ 0 }
    {
        StdNet {
            rt,
            sockets: None,
            faults: 0,
        }
    }

    // Counts a call, which may have failed.
    fn count(&mut self, failed: bool)
        ensures cause { HasCause self.old.faults self.new.faults (failed ≡ true) }
        ensures still { failed ≡ false → self.new.faults ≡ self.old.faults }
        ensures same { self.new.is_open ≡ self.old.is_open }
    {
        if failed {
            self.faults = self.faults.saturating_add(1);
        }
    }
}

impl<R: net::Net> Net for StdNet<R> {
    ghost calls = { λ _. None };

    ghost lines = { λ _ _. record { items = []; ended = false } };

    ghost ends = { λ _ _. record { items = []; ended = false } };

    ghost faults = { λ net. net.faults };

    fn begin(&mut self) -> NetDone
        ensures cause { HasCause self.old.faults self.new.faults (NetDoneFailed result) }
        ensures still { ¬ NetDoneFailed result → self.new.faults ≡ self.old.faults }
        ensures opened { ¬ NetDoneFailed result → self.new.is_open ≡ true }
        ensures same { NetDoneFailed result → self.new.is_open ≡ self.old.is_open }
    {
        match open(&self.rt) {
            Ok(sockets) => {
                self.sockets = Some(sockets);
                NetDone::Done
            }
            Err(_) => {
                self.count(true);
                NetDone::Failed
            }
        }
    }

    fn send(&mut self, line: Line, datagram: &[u8]) -> NetDone
        ensures call { UsesOpen self.old self.new (NetDoneFailed result) }
    {
        let answer = match &self.sockets {
            Some(sockets) => sockets.line(line).send(datagram),
            None => NetDone::Failed,
        };
        self.count(answer == NetDone::Failed);
        answer
    }

    fn next(&mut self, line: Line, into: &mut [u8]) -> NetTaken
        requires { 0 < length into.old }
        ensures count { CameWithin result into.new }
        ensures call { UsesOpen self.old self.new (NetTakeFailed result) }
    {
        let answer = match &self.sockets {
            Some(sockets) => sockets.line(line).next(into),
            None => NetTaken::Failed,
        };
        self.count(answer == NetTaken::Failed);
        answer
    }

    fn put(&mut self, end: LinkEnd, piece: &[u8]) -> Put
        requires { 0 < length piece.now }
        ensures count { PutsWithin result piece.now }
        ensures call { UsesOpen self.old self.new (PutFailed result) }
    {
        let answer = match &mut self.sockets {
            Some(sockets) => sockets.put(end, piece),
            None => Put::Failed,
        };
        self.count(answer == Put::Failed);
        answer
    }

    fn take(&mut self, end: LinkEnd, into: &mut [u8]) -> NetTaken
        requires { 0 < length into.old }
        ensures count { CameWithin result into.new }
        ensures call { UsesOpen self.old self.new (NetTakeFailed result) }
    {
        let answer = match &mut self.sockets {
            Some(sockets) => sockets.take(end, into),
            None => NetTaken::Failed,
        };
        self.count(answer == NetTaken::Failed);
        answer
    }
}
