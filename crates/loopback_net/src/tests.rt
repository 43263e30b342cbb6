//! Sockets that carry, fill up, break off and end, and strangers that are not heard.

use crate::StdNet;
use crate::connection::{Connection, open_connection, put, take};
use crate::line_sockets::LineSockets;
use pitch_io::{Line, LinkEnd, Net, NetDone, NetTaken, Put};
use std::io::ErrorKind;
use std::net::{IpAddr, Ipv4Addr, OpenListener, SocketAddr, TcpListener, TcpStream, UdpSocket};
use std::process::Abort;
use std::time::Duration;
use std::{io, net, thread};

// How often something that is on its way is asked for.
const MOST_ASKS: u32 = 10_000;

const DATAGRAMS: [(Line, &[u8; 4]); 4] = [
    (Line::A, b"on a"),
    (Line::B, b"on b"),
    (Line::Gap, b"gap."),
    (Line::A, b"more"),
];

// An end where bytes are put, the end to which they come, and the bytes.
const PIECES: [(LinkEnd, LinkEnd, &[u8; 4]); 4] = [
    (LinkEnd::GrpClient, LinkEnd::GrpServer, b"gap?"),
    (LinkEnd::GrpServer, LinkEnd::GrpClient, b"gap!"),
    (LinkEnd::SpinClient, LinkEnd::SpinServer, b"spin"),
    (LinkEnd::SpinServer, LinkEnd::SpinClient, b"spun"),
];

// What comes next on a line, if anything does.
fn next_bytes<R: Abort + AllocGlobal, N: Net>(rt: &R, net: &mut N, line: Line) -> Vec<u8> {
    let mut into = [0u8; 64];
    for _ in 0..MOST_ASKS {
        if let NetTaken::Got(count) = net.next(line, &mut into) {
            return Vec::from_slice(rt.alloc(), &into[..count]).expect(rt, "memory");
        }
        thread::yield_now();
    }
    Vec::new(rt.alloc())
}

// What comes next to an end, if anything does.
fn take_bytes<R: Abort + AllocGlobal, N: Net>(rt: &R, net: &mut N, end: LinkEnd) -> Vec<u8> {
    let mut into = [0u8; 64];
    for _ in 0..MOST_ASKS {
        if let NetTaken::Got(count) = net.take(end, &mut into) {
            return Vec::from_slice(rt.alloc(), &into[..count]).expect(rt, "memory");
        }
        thread::yield_now();
    }
    Vec::new(rt.alloc())
}

// The answers where each line and each end is asked once.
fn answers_of_all<R: Abort + AllocGlobal, N: Net>(rt: &R, net: &mut N) -> Vec<NetTaken> {
    let mut into = [0u8; 64];
    let mut answers = Vec::new(rt.alloc());
    for line in [Line::A, Line::B, Line::Gap] {
        answers.push(net.next(line, &mut into)).expect(rt, "memory");
    }
    for (end, _, _) in PIECES {
        answers.push(net.take(end, &mut into)).expect(rt, "memory");
    }
    answers
}

// Sends datagrams and puts pieces.
fn give<R: Abort, N: Net>(
    rt: &R,
    net: &mut N,
    datagrams: &[(Line, &[u8; 4])],
    pieces: &[(LinkEnd, LinkEnd, &[u8; 4])],
) {
    for (line, datagram) in datagrams {
        assert!(rt; net.send(*line, *datagram) == NetDone::Done);
    }
    for (end, _, piece) in pieces {
        assert!(rt; net.put(*end, *piece) == Put::Wrote(4));
    }
}

// Sees them come at the other side.
fn get<R: Abort + AllocGlobal, N: Net>(
    rt: &R,
    net: &mut N,
    datagrams: &[(Line, &[u8; 4])],
    pieces: &[(LinkEnd, LinkEnd, &[u8; 4])],
) {
    for (line, datagram) in datagrams {
        assert!(rt; next_bytes(rt, net, *line).as_slice() == datagram.as_slice());
    }
    for (_, end, piece) in pieces {
        assert!(rt; take_bytes(rt, net, *end).as_slice() == piece.as_slice());
    }
}

#[test]
fn what_goes_in_comes_out_at_the_other_side(rt: HostRuntime) {
    let mut net = StdNet::make(&rt);
    assert!(rt; net.begin() == NetDone::Done);
    give(&rt, &mut net, &DATAGRAMS, &PIECES);
    get(&rt, &mut net, &DATAGRAMS, &PIECES);
    assert!(rt; answers_of_all(&rt, &mut net).as_slice() == [NetTaken::Quiet; 7].as_slice());
}

// The greatest datagram is carried, and so is an empty one; a greater is not, and what was sent
// before `begin` does not come after it.
#[test]
fn a_line_carries_what_udp_carries(rt: HostRuntime) {
    let mut net = StdNet::make(&rt);
    assert!(rt; net.begin() == NetDone::Done);
    send_great(&rt, &mut net, &[7; 65_508]);
    assert!(rt; next_bytes(&rt, &mut net, Line::A).as_slice() == [7; 64].as_slice());
    assert!(rt; next_bytes(&rt, &mut net, Line::A).as_slice() == b"next".as_slice());
    assert!(rt; net.send(Line::B, b"lost") == NetDone::Done);
    assert!(rt; net.begin() == NetDone::Done);
    assert!(rt; answers_of_all(&rt, &mut net).as_slice() == [NetTaken::Quiet; 7].as_slice());
}

fn send_great<R: Abort, N: Net>(rt: &R, net: &mut N, bytes: &[u8; 65_508]) {
    assert!(rt; net.send(Line::A, b"") == NetDone::Done);
    assert!(rt; net.send(Line::A, bytes) == NetDone::Failed);
    assert!(rt; net.send(Line::A, &bytes[..65_507]) == NetDone::Done);
    assert!(rt; net.send(Line::A, b"next") == NetDone::Done);
}

// Puts pieces until one has no room, and answers how many bytes were written.
fn fill<N: Net>(net: &mut N, end: LinkEnd) -> u64 {
    let piece = [1u8; 50_000];
    let mut written = 0u64;
    for _ in 0..MOST_ASKS {
        match net.put(end, &piece) {
            Put::Wrote(count) => written = written.saturating_add(count as u64),
            Put::Failed => return written,
        }
    }
    0
}

// Takes until so many bytes came, and answers how many did.
fn drain<N: Net>(net: &mut N, end: LinkEnd, wanted: u64) -> u64 {
    let mut into = [0u8; 50_000];
    let mut taken = 0u64;
    for _ in 0..MOST_ASKS {
        if taken >= wanted {
            return taken;
        }
        match net.take(end, &mut into) {
            NetTaken::Got(count) => taken = taken.saturating_add(count as u64),
            NetTaken::Quiet => thread::yield_now(),
            NetTaken::End | NetTaken::Failed => return 0,
        }
    }
    taken
}

#[test]
fn a_full_connection_refuses_a_piece_and_loses_nothing(rt: HostRuntime) {
    let mut net = StdNet::make(&rt);
    assert!(rt; net.begin() == NetDone::Done);
    let written = fill(&mut net, LinkEnd::SpinServer);
    assert!(rt; written > 0);
    assert!(rt; drain(&mut net, LinkEnd::SpinClient, written) == written);
    assert!(rt; net.put(LinkEnd::SpinServer, b"more") == Put::Wrote(4));
    assert!(rt; take_bytes(&rt, &mut net, LinkEnd::SpinClient).as_slice() == b"more".as_slice());
}

#[test]
fn a_stream_ends_where_the_other_is_dropped(rt: HostRuntime) {
    let Connection {
        mut client,
        mut server,
    } = open_connection(&rt).expect(&rt, "a connection");
    let mut into = [0u8; 64];
    assert!(rt; put(&mut client, b"last") == Put::Wrote(4));
    drop(client);
    let mut answers = [NetTaken::Quiet; 2];
    for answer in &mut answers {
        for _ in 0..MOST_ASKS {
            *answer = take(&mut server, &mut into);
            if *answer != NetTaken::Quiet {
                break;
            }
            thread::yield_now();
        }
    }
    assert!(rt; answers == [NetTaken::Got(4), NetTaken::End]);
}

// A stream of which the first calls are broken off by a signal, and each later one fails so.
#[derive(Drop)]
struct Broken {
    signals: u32,
    kind: ErrorKind,
}

impl Broken {
    fn error(&mut self) -> io::Error {
        if self.signals == 0 {
            return io::Error::from(self.kind);
        }
        self.signals -= 1;
        io::Error::from(ErrorKind::Interrupted)
    }
}

impl io::Read for Broken {
    fn read(&mut self, _into: &mut [u8]) -> io::Result<usize> {
        Err(self.error())
    }
}

impl io::Write for Broken {
    fn write(&mut self, _piece: &[u8]) -> io::Result<usize> {
        Err(self.error())
    }

    fn flush(&mut self) -> io::Result<()> {
        Ok(())
    }
}

// What a stream says, and what `take` answers. A signal has no answer: the call is made again.
const ANSWERS: [(ErrorKind, NetTaken); 4] = [
    (ErrorKind::WouldBlock, NetTaken::Quiet),
    (ErrorKind::ConnectionReset, NetTaken::Failed),
    (ErrorKind::Other, NetTaken::Failed),
    (ErrorKind::Interrupted, NetTaken::Failed),
];

fn broken_streams_answer<R: Abort>(rt: &R, answers: &[(ErrorKind, NetTaken)]) {
    for (kind, answer) in answers {
        let mut broken = Broken {
            signals: 3,
            kind: *kind,
        };
        assert!(rt; take(&mut broken, &mut [0u8; 64]) == *answer);
        assert!(rt; broken.signals == 0);
        broken.signals = 3;
        assert!(rt; put(&mut broken, b"piece") == Put::Failed);
        assert!(rt; broken.signals == 0);
    }
}

#[test]
fn a_stream_that_fails_is_a_fault(rt: HostRuntime) {
    broken_streams_answer(&rt, &ANSWERS);
}

// What a stranger sends is not heard, and a receiver whose sender is gone is told so by the system.
#[test]
fn a_line_hears_its_sender_alone(rt: HostRuntime) {
    let mut sockets = LineSockets::open(&rt).expect(&rt, "a line");
    let mut into = [0u8; 64];
    let stranger = UdpSocket::bind(&rt, ANY_PORT).expect(&rt, "a port");
    let port = sockets.receiver.local_addr().expect(&rt, "an address");
    assert!(rt; stranger.send_to(b"strange", port).is_ok());
    assert!(rt; sockets.next(&mut into) == NetTaken::Quiet);
    assert!(rt; sockets.send(b"own") == NetDone::Done);
    assert!(rt; sockets.next(&mut into) == NetTaken::Got(3));
    sockets.sender = stranger;
    assert!(rt; sockets.receiver.send(b"gone").is_ok());
    assert!(rt; sockets.next(&mut into) == NetTaken::Failed);
}

// A port of this machine alone.
const ANY_PORT: (Ipv4Addr, u16) = (Ipv4Addr::LOCALHOST, 0);

// A network that opens nothing.
#[derive(Drop)]
struct NoNetwork;

impl net::Net for NoNetwork {
    type Stream = TcpStream;

    type Listener = TcpListener;

    fn bind(&self, _addr: SocketAddr) -> io::Result<TcpListener> {
        Err(io::Error::from(ErrorKind::Unsupported))
    }

    fn connect(&self, _addr: SocketAddr) -> io::Result<TcpStream> {
        Err(io::Error::from(ErrorKind::Unsupported))
    }
}

// A network on which a stranger is the first to connect to each listener.
#[derive(Drop)]
struct Crowded<R>(R);

impl<R: net::Net> net::Net for Crowded<R> {
    type Stream = R::Stream;

    type Listener = R::Listener;

    fn bind(&self, addr: SocketAddr) -> io::Result<R::Listener> {
        let listener = self.0.bind(addr)?;
        self.0.connect(listener.local_addr()?)?;
        Ok(listener)
    }

    fn connect(&self, addr: SocketAddr) -> io::Result<R::Stream> {
        self.0.connect(addr)
    }

    fn connect_timeout(&self, addr: SocketAddr, timeout: Duration) -> io::Result<R::Stream> {
        self.0.connect_timeout(addr, timeout)
    }

    fn bind_udp(&self, addr: SocketAddr) -> io::Result<UdpSocket> {
        self.0.bind_udp(addr)
    }
}

// A network on which a stranger sends to each UDP port as soon as it is bound.
#[derive(Drop)]
struct Strange<R>(R);

impl<R: net::Net> net::Net for Strange<R> {
    type Stream = R::Stream;

    type Listener = R::Listener;

    fn bind(&self, addr: SocketAddr) -> io::Result<R::Listener> {
        self.0.bind(addr)
    }

    fn connect(&self, addr: SocketAddr) -> io::Result<R::Stream> {
        self.0.connect(addr)
    }

    fn connect_timeout(&self, addr: SocketAddr, timeout: Duration) -> io::Result<R::Stream> {
        self.0.connect_timeout(addr, timeout)
    }

    fn bind_udp(&self, addr: SocketAddr) -> io::Result<UdpSocket> {
        let socket = self.0.bind_udp(addr)?;
        let stranger = self.0.bind_udp(addr)?;
        stranger.send_to(b"strange", socket.local_addr()?)?;
        Ok(socket)
    }
}

// A network that opens what is of this machine alone.
#[derive(Drop)]
struct Local<R>(R);

impl<R: net::Net> net::Net for Local<R> {
    type Stream = R::Stream;

    type Listener = R::Listener;

    fn bind(&self, addr: SocketAddr) -> io::Result<R::Listener> {
        self.0.bind(of_this_machine(addr)?)
    }

    fn connect(&self, addr: SocketAddr) -> io::Result<R::Stream> {
        self.0.connect(of_this_machine(addr)?)
    }

    fn connect_timeout(&self, addr: SocketAddr, timeout: Duration) -> io::Result<R::Stream> {
        self.0.connect_timeout(of_this_machine(addr)?, timeout)
    }

    fn bind_udp(&self, addr: SocketAddr) -> io::Result<UdpSocket> {
        self.0.bind_udp(of_this_machine(addr)?)
    }
}

// An address, where it is 127.0.0.1.
fn of_this_machine(addr: SocketAddr) -> io::Result<SocketAddr> {
    if addr.ip() == IpAddr::V4(Ipv4Addr::LOCALHOST) {
        return Ok(addr);
    }
    Err(io::Error::from(ErrorKind::AddrNotAvailable))
}

#[test]
fn nothing_is_opened_to_other_machines(rt: HostRuntime) {
    assert!(rt; of_this_machine(SocketAddr::from((Ipv4Addr::UNSPECIFIED, 0))).is_err());
    assert!(rt; StdNet::make(Local(&rt)).begin() == NetDone::Done);
}

#[test]
fn what_a_stranger_sent_does_not_come(rt: HostRuntime) {
    let mut net = StdNet::make(Strange(&rt));
    assert!(rt; net.begin() == NetDone::Done);
    assert!(rt; answers_of_all(&rt, &mut net).as_slice() == [NetTaken::Quiet; 7].as_slice());
}

// The answers of a net that could not begin.
fn answers_of_unopened<R: Abort + AllocGlobal, N: Net>(rt: &R, net: &mut N) -> Vec<NetTaken> {
    assert!(rt; net.begin() == NetDone::Failed);
    assert!(rt; net.send(Line::A, b"a") == NetDone::Failed);
    assert!(rt; net.put(LinkEnd::GrpClient, b"a") == Put::Failed);
    answers_of_all(rt, net)
}

#[test]
fn what_was_not_opened_fails(rt: HostRuntime) {
    let answers = answers_of_unopened(&rt, &mut StdNet::make(NoNetwork));
    assert!(rt; answers.as_slice() == [NetTaken::Failed; 7].as_slice());
}

#[test]
fn a_stranger_who_connects_first_is_let_go(rt: HostRuntime) {
    let mut net = StdNet::make(Crowded(&rt));
    assert!(rt; net.begin() == NetDone::Done);
    give(&rt, &mut net, &[], &PIECES);
    get(&rt, &mut net, &[], &PIECES);
    assert!(rt; answers_of_all(&rt, &mut net).as_slice() == [NetTaken::Quiet; 7].as_slice());
}
