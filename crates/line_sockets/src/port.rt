//! Where a line's datagrams come from.

ghost use Rattle.std.specs.Prelude.{pos};
ghost use Rattle.libc.specs.Net.{SockOption};

use mio::net::UdpSocket;
use os::FromRawFd;
use std::io::ErrorKind;
use std::net::{Ipv4Addr, Net, SocketAddr};
use std::os::fd::AsRawFd;
use std::{io, net};

/// Where a line's datagrams come from.
#[derive(Clone, Copy, Debug, PartialEq, Eq)]
pub enum Port {
    /// An address of this machine, which is bound here.
    Bound(SocketAddr),
    /// A socket that whoever started the program has bound, and joined to its groups, by the number
    /// of its descriptor.
    Given(u16),
}

/// A buffer of a socket.
#[derive(Clone, Copy, Debug, PartialEq, Eq)]
pub enum Buffer {
    /// Of datagrams that came.
    Received,
    /// Of datagrams that are to go.
    Sent,
}

// How many bytes a buffer is asked to have. The system grants at most its own limit.
const ROOM: u32 = 8_388_608;

// The option of SOL_SOCKET by which a buffer is asked to be of some size.
fn option_of(buffer: Buffer) -> i32
    ensures { SockOption (pos 1) result }
{
    match buffer {
        Buffer::Received => libc::net::SO_RCVBUF,
        Buffer::Sent => libc::net::SO_SNDBUF,
    }
}

/// Asks for a buffer of 8 MiB. Less than was asked for is no fault.
pub fn ask_for_room(socket: &UdpSocket, buffer: Buffer) {
    let mut value = [0u8; 16];
    value[..4].copy_from_slice(&ROOM.to_le_bytes());
    let _status = unsafe {
        libc::net::setsockopt(
            socket.as_raw_fd(),
            libc::net::SOL_SOCKET,
            option_of(buffer),
            &value,
            4,
        )
    };
}

// Whether a socket has an option of TCP, which one of datagrams has not.
fn is_stream(socket: &net::UdpSocket) -> bool {
    let mut value = [0u8; 16];
    let mut size = 4u32;
    let status = unsafe {
        libc::net::getsockopt(
            socket.as_raw_fd(),
            libc::net::IPPROTO_TCP,
            libc::net::TCP_NODELAY,
            &mut value,
            &mut size,
        )
    };
    status == 0
}

// The socket that was handed in. That its number is no file of another owner's is its giver's word.
fn take_given(number: u16) -> io::Result<UdpSocket> {
    let socket = unsafe { net::UdpSocket::from_raw_fd(i32::from(number)) };
    socket.set_nonblocking(true)?;
    // What is no socket has no address.
    socket.local_addr()?;
    if is_stream(&socket) {
        return Err(io::Error::new(ErrorKind::InvalidInput, "not a datagram socket"));
    }
    Ok(UdpSocket::from_std(socket))
}

// Binds an address of this machine. Its buffer is asked to be large.
fn bind<R: Net>(rt: &R, addr: SocketAddr) -> io::Result<UdpSocket> {
    let socket = UdpSocket::bind(rt, addr)?;
    ask_for_room(&socket, Buffer::Received);
    Ok(socket)
}

/// Opens a port. A socket that was handed in keeps its buffer: its giver may have made that larger
/// than the system would grant here.
pub(crate) fn open_port<R: Net>(rt: &R, port: Port) -> io::Result<UdpSocket> {
    match port {
        Port::Bound(addr) => bind(rt, addr),
        Port::Given(number) => take_given(number),
    }
}

/// Takes those of the descriptors 0 to 2 that are free. A socket there would be taken for a
/// standard stream.
pub fn take_low<R: Net>(rt: &R) -> io::Result<[Option<net::UdpSocket>; 3]> {
    let any_port = SocketAddr::from((Ipv4Addr::LOCALHOST, 0));
    let mut low = [None, None, None];
    for place in &mut low {
        let socket = net::UdpSocket::bind(rt, any_port)?;
        if socket.as_raw_fd() > 2 {
            break;
        }
        *place = Some(socket);
    }
    Ok(low)
}
