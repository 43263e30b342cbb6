//! A connection with a peer.

ghost use Rattle.std.specs.Prelude.{◌≡◌, ◌<◌, length, IfOk, IfErr};
ghost use Rattle.std.specs.IoError.{error_kind};
ghost use Rattle.live_net.specs.LiveCalls.{PeerPutWithin, PeerTakenWithin};
ghost use Rattle.live_sockets.specs.layers.Answers.{read_gives, read_fails, write_gives};
ghost use Rattle.live_sockets.specs.layers.Answers.{write_fails};

use line_sockets::{MOST_TRIES, take_low};
use live_net::{PeerPut, PeerTaken};
use mio::event::Event;
use mio::net::TcpStream;
use mio::{Interest, Registry, Token};
use std::io::{ErrorKind, Read, Write};
use std::net::SocketAddr;
use std::{io, net};

/// A connection, of which it may not be known yet whether it stands.
///
/// It is asked for bytes, or for room, only where it may have some: until it has none, and once the
/// wait told of it again.
#[derive(Drop)]
pub struct Connection {
    stream: TcpStream,
    stands: bool,
    may_bring: bool,
    may_take: bool,
    // The error of the last call of the system, where it failed.
    said: Option<io::Error>,
}

// The answer of a read. One that a signal broke off has none.
fn of_read(read: &io::Result<usize>) -> Option<PeerTaken>
    ensures ok { IfOk read.now (λ n. result ≡ read_gives n) }
    ensures err { IfErr read.now (λ error. result ≡ read_fails (error_kind error)) }
{
    match read {
        Ok(0) => Some(PeerTaken::Ended),
        Ok(count) => Some(PeerTaken::Got(*count)),
        Err(error) => match error.kind() {
            ErrorKind::Interrupted => None,
            ErrorKind::WouldBlock => Some(PeerTaken::Quiet),
            _ => Some(PeerTaken::Ended),
        },
    }
}

// The answer of a write. One that a signal broke off has none.
fn of_write(write: &io::Result<usize>) -> Option<PeerPut>
    ensures ok { IfOk write.now (λ n. result ≡ write_gives n) }
    ensures err { IfErr write.now (λ error. result ≡ write_fails (error_kind error)) }
{
    match write {
        Ok(0) => Some(PeerPut::Ended),
        Ok(count) => Some(PeerPut::Wrote(*count)),
        Err(error) => match error.kind() {
            ErrorKind::Interrupted => None,
            ErrorKind::WouldBlock => Some(PeerPut::Full),
            _ => Some(PeerPut::Ended),
        },
    }
}

impl Connection {
    // Has the registry's wait tell of a stream under this token. What is said is not held back to
    // be sent together.
    fn watched(
        registry: &Registry,
        token: Token,
        mut stream: TcpStream,
        stands: bool,
    ) -> io::Result<Connection> {
        stream.set_nodelay(true)?;
        registry.register(&mut stream, token, Interest::READABLE | Interest::WRITABLE)?;
        Ok(Connection {
            stream,
            stands,
            may_bring: true,
            may_take: true,
            said: None,
        })
    }

    /// Begins a connection, of which the registry's wait tells under this token. It takes none of
    /// the descriptors 0 to 2.
    pub(crate) fn begin<R: net::Net>(
        rt: &R,
        registry: &Registry,
        token: Token,
        addr: SocketAddr,
    ) -> io::Result<Connection> {
        let _low = take_low(rt)?;
        let stream = TcpStream::connect(rt, addr)?;
        Connection::watched(registry, token, stream, false)
    }

    /// The connection of a stream that a listener let in. The registry's wait tells of it under
    /// this token.
    pub fn accepted(
        registry: &Registry,
        token: Token,
        stream: TcpStream,
    ) -> io::Result<Connection> {
        Connection::watched(registry, token, stream, true)
    }

    /// Closes it, and answers the error of the last call of the system, where it failed. The wait
    /// tells of it no more.
    pub(crate) fn end(mut self, registry: &Registry) -> Option<io::Error> {
        let _was_registered = registry.deregister(&mut self.stream);
        self.said.take()
    }

    /// The wait told of it.
    pub(crate) fn tell(&mut self, event: &Event) {
        let has_ended = event.is_read_closed() || event.is_write_closed() || event.is_error();
        if has_ended || event.is_readable() {
            self.may_bring = true;
        }
        if has_ended || event.is_writable() {
            self.may_take = true;
        }
    }

    // Whether it stands, or fails where it was refused.
    fn stands(&mut self) -> io::Result<bool> {
        if self.stands {
            return Ok(true);
        }
        if let Some(error) = self.stream.take_error()? {
            return Err(error);
        }
        match self.stream.peer_addr() {
            Ok(_) => {
                self.stands = true;
                Ok(true)
            }
            Err(error) if error.kind() == ErrorKind::NotConnected => Ok(false),
            Err(error) => Err(error),
        }
    }

    /// Takes the next bytes to the start of the slice.
    pub(crate) fn take(&mut self, into: &mut [u8]) -> PeerTaken
        requires { 0 < length into.old }
        ensures { PeerTakenWithin result into.new }
    {
        if !self.may_bring {
            return PeerTaken::Quiet;
        }
        match self.stands() {
            Ok(true) => {}
            Ok(false) => {
                self.may_bring = false;
                return PeerTaken::Quiet;
            }
            Err(error) => {
                self.said = Some(error);
                return PeerTaken::Ended;
            }
        }
        for _ in 0..MOST_TRIES {
            let read = self.stream.read(into);
            let answer = of_read(&read);
            self.said = read.err();
            if let Some(answer) = answer {
                self.may_bring = answer != PeerTaken::Quiet;
                return answer;
            }
        }
        PeerTaken::Ended
    }

    /// Puts the first bytes of a piece.
    pub(crate) fn put(&mut self, piece: &[u8]) -> PeerPut
        requires { 0 < length piece.now }
        ensures { PeerPutWithin result piece.now }
    {
        if !self.may_take {
            return PeerPut::Full;
        }
        match self.stands() {
            Ok(true) => {}
            Ok(false) => {
                self.may_take = false;
                return PeerPut::Full;
            }
            Err(error) => {
                self.said = Some(error);
                return PeerPut::Ended;
            }
        }
        for _ in 0..MOST_TRIES {
            let write = self.stream.write(piece);
            let answer = of_write(&write);
            self.said = write.err();
            if let Some(answer) = answer {
                self.may_take = answer != PeerPut::Full;
                return answer;
            }
        }
        PeerPut::Ended
    }
}
