//! The sockets of the lines.

ghost use Rattle.std.specs.Prelude.{◌≡◌, ◌<◌, ◌≤◌, length, IfOk};
ghost use Rattle.live_net.specs.LineCalls.{ReceiveFailed, ReceivedWithin};

use crate::port::{Port, open_port};
use crate::trouble::Trouble;
use live_net::Received;
use mio::net::UdpSocket;
use mio::{Interest, Registry, Token};
use std::alloc::{AllocError, Global};
use std::io::ErrorKind;
use std::marker::Model;
use std::net::IpAddr;
use std::{io, net};

/// How often a call is tried that a signal breaks off, or that tells of a datagram that was sent
/// from a socket of these: none is, unless by whoever handed it in.
pub const MOST_TRIES: u32 = 1_000;

// The token of each line: on every wait all are asked.
const LINE: Token = Token(1);

/// A socket for each line. A caller sees how many there are.
#[derive(Drop)]
pub struct Lines {
    sockets: Vec<UdpSocket>,
    // Whose datagrams are heard, and everyone's where nobody is named.
    from: Vec<IpAddr>,
}

impl Model for Lines {
    ghost use Rattle.std.specs.Prelude.{vec_len, ℕ};

    ghost Value = { ℕ };

    ghost view = { λ lines. vec_len lines.sockets };
}

// Opens a port, of which a wait tells.
fn open_line<R: net::Net>(rt: &R, registry: &Registry, port: Port) -> io::Result<UdpSocket> {
    let mut socket = open_port(rt, port)?;
    registry.register(&mut socket, LINE, Interest::READABLE)?;
    Ok(socket)
}

// Whether a sender is one of those that are named. An IPv4 address is itself also within one of
// IPv6.
fn is_named(from: &[IpAddr], sender: IpAddr) -> bool {
    let sender = sender.to_canonical();
    from.iter().any(|named| named.to_canonical() == sender)
}

// Takes the next datagram of a socket. One of a sender who isn't named is as one without bytes.
fn take(socket: &UdpSocket, from: &[IpAddr], into: &mut [u8]) -> io::Result<usize>
    ensures { IfOk result (λ count. count ≤ length into.new) }
{
    if from.is_empty() {
        return socket.recv(into);
    }
    let (count, sender) = socket.recv_from(into)?;
    if is_named(from, sender.ip()) {
        Ok(count)
    } else {
        Ok(0)
    }
}

// Takes the next datagram of a socket, where there is one.
fn receive(socket: &UdpSocket, from: &[IpAddr], into: &mut [u8]) -> io::Result<Received>
    ensures count { IfOk result (λ answer. ReceivedWithin answer into.new) }
    ensures fails { IfOk result (λ answer. ¬ ReceiveFailed answer) }
{
    for _ in 0..MOST_TRIES {
        match take(socket, from, into) {
            Ok(count) => return Ok(Received::Got(count)),
            Err(error) => match error.kind() {
                ErrorKind::WouldBlock => return Ok(Received::Quiet),
                ErrorKind::Interrupted
                | ErrorKind::ConnectionRefused
                | ErrorKind::ConnectionReset
                | ErrorKind::HostUnreachable
                | ErrorKind::NetworkUnreachable => {}
                _ => return Err(error),
            },
        }
    }
    Err(io::Error::from(ErrorKind::TimedOut))
}

impl Lines {
    /// Opens a line for each port, in their order. The registry's wait tells of them. A datagram is
    /// taken for one without bytes where senders are named and its own is none of them.
    pub fn open<R: net::Net>(
        rt: &R,
        alloc: Global,
        registry: &Registry,
        ports: &[Port],
        from: &[IpAddr],
    ) -> Result<Lines, Trouble>
        ensures { IfOk result (λ lines. lines ≡ length ports.now) }
    {
        let from = Vec::from_slice(alloc, from)?;
        let mut sockets = Vec::new(alloc);
        let mut line = 0u16;
        for port in ports {
            match open_line(rt, registry, *port) {
                Ok(socket) => {
                    if let Err(failed) = sockets.push(socket) {
                        return Err(AllocError::from(failed).into());
                    }
                }
                Err(reason) => return Err(Trouble::of_line(line, reason)),
            }
            line = line.saturating_add(1);
        }
        Ok(Lines { sockets, from })
    }

    /// Takes the next datagram of a line to the start of the slice; one that is longer is cut.
    pub fn receive(&self, line: u16, into: &mut [u8]) -> Result<Received, Trouble>
        ensures count { IfOk result (λ answer. ReceivedWithin answer into.new) }
        ensures fails { IfOk result (λ answer. ¬ ReceiveFailed answer) }
        ensures open { IfOk result (λ _. line < self.now) }
    {
        let answer = match self.sockets.get(usize::from(line)) {
            Some(socket) => receive(socket, &self.from, into),
            None => Err(io::Error::from(ErrorKind::NotFound)),
        };
        match answer {
            Ok(received) => Ok(received),
            Err(reason) => Err(Trouble::of_line(line, reason)),
        }
    }
}
