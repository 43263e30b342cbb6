//! The two sockets of a line.

ghost use Rattle.std.specs.Prelude.{◌<◌, length};
ghost use Rattle.pitch_io.specs.layers.Coming.{CameWithin};

use crate::connection::MOST_TRIES;
use pitch_io::{NetDone, NetTaken};
use std::io::ErrorKind;
use std::net::{Ipv4Addr, SocketAddr, UdpSocket};
use std::{io, net};

/// The socket that sends a line's datagrams, and the one to which they come.
#[derive(Drop)]
pub(crate) struct LineSockets {
    pub(crate) sender: UdpSocket,
    pub(crate) receiver: UdpSocket,
}

impl LineSockets {
    /// Opens both. Each takes datagrams of the other alone: what a stranger sent before they were
    /// connected is dropped.
    pub(crate) fn open<R: net::Net>(rt: &R) -> io::Result<LineSockets> {
        let any_port = SocketAddr::from((Ipv4Addr::LOCALHOST, 0));
        let sender = UdpSocket::bind(rt, any_port)?;
        let receiver = UdpSocket::bind(rt, any_port)?;
        receiver.connect(sender.local_addr()?)?;
        sender.connect(receiver.local_addr()?)?;
        sender.set_nonblocking(true)?;
        receiver.set_nonblocking(true)?;
        drop_waiting(&receiver)?;
        Ok(LineSockets { sender, receiver })
    }

    /// Sends a datagram, or fails where it is longer than a socket takes. One without bytes is not
    /// carried.
    pub(crate) fn send(&self, datagram: &[u8]) -> NetDone {
        if datagram.is_empty() {
            return NetDone::Done;
        }
        for _ in 0..MOST_TRIES {
            match self.sender.send(datagram) {
                Ok(_) => return NetDone::Done,
                Err(error) if error.kind() == ErrorKind::Interrupted => {}
                Err(_) => return NetDone::Failed,
            }
        }
        NetDone::Failed
    }

    /// Takes the next datagram to the start of the slice; one that is longer is cut.
    pub(crate) fn next(&self, into: &mut [u8]) -> NetTaken
        ensures count { CameWithin result into.new }
    {
        for _ in 0..MOST_TRIES {
            match self.receiver.recv(into) {
                Ok(0) => return NetTaken::Quiet,
                Ok(count) => return NetTaken::Got(count),
                Err(error) => match error.kind() {
                    ErrorKind::Interrupted => {}
                    ErrorKind::WouldBlock => return NetTaken::Quiet,
                    _ => return NetTaken::Failed,
                },
            }
        }
        NetTaken::Failed
    }
}

// Takes what waits, until nothing does.
fn drop_waiting(receiver: &UdpSocket) -> io::Result<()> {
    let mut into = [0u8; 1];
    for _ in 0..10_000u32 {
        match receiver.recv(&mut into) {
            Err(error) if error.kind() == ErrorKind::WouldBlock => return Ok(()),
            Err(error) if error.kind() == ErrorKind::Interrupted => {}
            Err(error) => return Err(error),
            Ok(_) => {}
        }
    }
    Err(io::Error::from(ErrorKind::TimedOut))
}
