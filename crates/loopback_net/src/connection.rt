//! The two streams of a connection.

ghost use Rattle.std.specs.Prelude.{◌<◌, length};
ghost use Rattle.pitch_io.specs.layers.Coming.{CameWithin};
ghost use Rattle.pitch_io.specs.Putting.{PutsWithin};

use patient_io::comes_within;
use pitch_io::{NetTaken, Put};
use std::io::{ErrorKind, Read, Write};
use std::net::{Ipv4Addr, OpenListener, OpenStream, SocketAddr, TcpListener, TcpStream};
use std::os::fd::AsRawFd;
use std::time::Duration;
use std::{io, net};

/// How often a call is tried that a signal breaks off.
pub(crate) const MOST_TRIES: u32 = 1_000;

/// A connection's streams: what one writes comes to the other.
#[derive(Drop)]
pub(crate) struct Connection<S> {
    pub(crate) client: S,
    pub(crate) server: S,
}

// How often a connection is tried, and how many seconds the system may take each time for the
// client's side and then for the server's. A packet that is lost is sent again after one.
const MOST_LISTENERS: u32 = 4;

const PATIENCE: u64 = 2;

// How many strangers are let go at a listener.
const MOST_STRANGERS: u32 = 10_000;

/// Opens a connection. Another process of this machine that connects first is let go.
pub(crate) fn open_connection<R: net::Net>(rt: &R) -> io::Result<Connection<R::Stream>> {
    for _ in 1..MOST_LISTENERS {
        match try_connection(rt) {
            Err(error) if error.kind() == ErrorKind::TimedOut => {}
            answer => return answer,
        }
    }
    try_connection(rt)
}

fn try_connection<R: net::Net>(rt: &R) -> io::Result<Connection<R::Stream>> {
    let any_port = SocketAddr::from((Ipv4Addr::LOCALHOST, 0));
    let listener = TcpListener::bind(rt, any_port)?;
    listener.set_nonblocking(true)?;
    let patience = Duration::from_secs(PATIENCE);
    let client = TcpStream::connect_timeout(rt, &listener.local_addr()?, patience)?;
    let server = accept(&listener, client.local_addr()?, patience)?;
    set_up(&client)?;
    set_up(&server)?;
    Ok(Connection { client, server })
}

// A stream whose calls answer at once, and whose writes are not held back to be sent together.
fn set_up<S: OpenStream>(stream: &S) -> io::Result<()> {
    stream.set_nonblocking(true)?;
    stream.set_nodelay(true)
}

// Accepts the connection from this address, which was made already. The system may need a moment
// to hand it over.
fn accept<L: OpenListener + AsRawFd>(
    listener: &L,
    client: SocketAddr,
    patience: Duration,
) -> io::Result<L::Stream> {
    for _ in 0..MOST_STRANGERS {
        match listener.accept() {
            Ok((stream, from)) => {
                if from == client {
                    return Ok(stream);
                }
            }
            Err(error) => match error.kind() {
                ErrorKind::ConnectionAborted => {}
                ErrorKind::WouldBlock => {
                    if !comes_within(listener, patience) {
                        break;
                    }
                }
                _ => return Err(error),
            },
        }
    }
    Err(io::Error::from(ErrorKind::TimedOut))
}

/// Writes the first bytes of a piece, or fails where there is no room for one.
pub(crate) fn put<S: Write>(stream: &mut S, piece: &[u8]) -> Put
    ensures count { PutsWithin result piece.now }
{
    for _ in 0..MOST_TRIES {
        match stream.write(piece) {
            Ok(0) => return Put::Failed,
            Ok(count) => return Put::Wrote(count),
            Err(error) if error.kind() == ErrorKind::Interrupted => {}
            Err(_) => return Put::Failed,
        }
    }
    Put::Failed
}

/// Takes the next bytes to the start of the slice.
pub(crate) fn take<S: Read>(stream: &mut S, into: &mut [u8]) -> NetTaken
    ensures count { CameWithin result into.new }
{
    for _ in 0..MOST_TRIES {
        match stream.read(into) {
            Ok(0) => return NetTaken::End,
            Ok(count) => return NetTaken::Got(count),
            Err(error) => match error.kind() {
                ErrorKind::Interrupted => {}
                ErrorKind::WouldBlock => return NetTaken::Quiet,
                _ => return NetTaken::Failed,
            },
        }
    }
    NetTaken::Failed
}
