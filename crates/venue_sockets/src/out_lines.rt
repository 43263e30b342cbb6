//! The lines on which datagrams are sent.

ghost use Rattle.std.specs.Prelude.{◌≡◌, length, IfOk};

use crate::trouble::VenueTrouble;
use line_sockets::{Buffer, ask_for_room};
use mio::net::UdpSocket;
use std::alloc::Global;
use std::marker::Model;
use std::net::{Ipv4Addr, Ipv6Addr, SocketAddr};
use std::{io, net};

/// Where the datagrams of each line go, if anywhere, and a socket for each kind of address that is
/// among them. A caller sees how many lines there are.
#[derive(Drop)]
pub struct OutLines {
    to: Vec<Option<SocketAddr>>,
    v4: Option<UdpSocket>,
    v6: Option<UdpSocket>,
    // How many datagrams were not sent, and what the system said of the last one.
    send_errors: u64,
    trouble: Option<VenueTrouble>,
}

impl Model for OutLines {
    ghost use Rattle.std.specs.Prelude.{vec_len, ℕ};

    ghost Value = { ℕ };

    ghost view = { λ lines. vec_len lines.to };
}

// A socket from which a datagram goes to any address of the same kind.
fn open_for<R: net::Net>(rt: &R, line: u16, to: SocketAddr) -> Result<UdpSocket, VenueTrouble> {
    let from = match to {
        SocketAddr::V4(_) => SocketAddr::from((Ipv4Addr::UNSPECIFIED, 0)),
        SocketAddr::V6(_) => SocketAddr::from((Ipv6Addr::UNSPECIFIED, 0)),
    };
    match UdpSocket::bind(rt, from) {
        Ok(socket) => {
            ask_for_room(&socket, Buffer::Sent);
            Ok(socket)
        }
        Err(reason) => Err(VenueTrouble::of_line(line, reason)),
    }
}

impl OutLines {
    /// A line to each address, in their order; one that has none leads nowhere.
    pub(crate) fn open<R: net::Net>(
        rt: &R,
        alloc: Global,
        to: &[Option<SocketAddr>],
    ) -> Result<OutLines, VenueTrouble>
        ensures { IfOk result (λ lines. lines ≡ length to.now) }
    {
        let mut v4 = None;
        let mut v6 = None;
        let mut line = 0u16;
        for to in to {
            if let Some(addr) = to {
                let socket = if addr.is_ipv4() { &mut v4 } else { &mut v6 };
                if socket.is_none() {
                    *socket = Some(open_for(rt, line, *addr)?);
                }
            }
            line = line.saturating_add(1);
        }
        let to = Vec::from_slice(alloc, to)?;
        Ok(OutLines {
            to,
            v4,
            v6,
            send_errors: 0,
            trouble: None,
        })
    }

    /// How many datagrams the system had no room for, or refused.
    pub(crate) fn send_errors(&self) -> u64 {
        self.send_errors
    }

    /// What the system said of the last of these.
    pub(crate) fn trouble(&self) -> Option<&VenueTrouble> {
        self.trouble.as_ref()
    }

    // Sends a datagram on a line, where that leads anywhere.
    fn try_to_send(&self, line: u16, datagram: &[u8]) -> io::Result<()> {
        let Some(Some(to)) = self.to.get(usize::from(line)) else {
            return Ok(());
        };
        let socket = match to {
            SocketAddr::V4(_) => &self.v4,
            SocketAddr::V6(_) => &self.v6,
        };
        if let Some(socket) = socket {
            socket.send_to(datagram, *to)?;
        }
        Ok(())
    }

    /// Sends a datagram on a line. Where there is no room for it, or the system refuses it, it is
    /// lost, and counted. It is lost too where there is no such line, or it leads nowhere.
    pub(crate) fn send(&mut self, line: u16, datagram: &[u8])
        ensures { self.new ≡ self.old }
    {
        if let Err(reason) = self.try_to_send(line, datagram) {
            self.trouble = Some(VenueTrouble::of_line(line, reason));
            self.send_errors = self.send_errors.saturating_add(1);
        }
    }
}
