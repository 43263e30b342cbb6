//! The doors to which clients come.

ghost use Rattle.std.specs.Prelude.{◌≡◌, ◌<◌};
ghost use Rattle.venue_sockets.specs.layers.Places.{door_of};

use crate::tokens::door_token;
use crate::trouble::VenueTrouble;
use line_sockets::{MOST_TRIES, take_low};
use live_sockets::Connections;
use mio::net::{TcpListener, TcpStream};
use mio::{Interest, Registry};
use std::alloc::{AllocError, Global};
use std::io::ErrorKind;
use std::net::SocketAddr;
use std::{io, net};

// How many clients a door turns away before each wait, at most.
const MOST_TURNED_AWAY: u32 = 64;

// A door. The system is asked for a client only where the wait told of one, and then until none
// waits.
#[derive(Drop)]
struct Door {
    listener: TcpListener,
    may_have: bool,
    // A client could not be let in: it may still wait, and no wait tells of it again.
    has_failed: bool,
}

/// The doors, by their numbers; one that has no address is never open.
#[derive(Drop)]
pub struct Doors {
    doors: Vec<Option<Door>>,
    // So many places in turn are of one door.
    each: usize,
    ghost some: { 0 < each },
}

// The door of a place, where so many places in turn are of one door.
fn door_of(place: usize, each: usize) -> usize
    requires { 0 < each }
    ensures { result ≡ door_of place each }
{
    place / each
}

// The next client that waits. It takes none of the descriptors 0 to 2.
fn next_client<R: net::Net>(rt: &R, listener: &TcpListener) -> io::Result<TcpStream> {
    let _low = take_low(rt)?;
    for _ in 0..MOST_TRIES {
        match listener.accept() {
            Ok((stream, _)) => return Ok(stream),
            Err(error) => match error.kind() {
                ErrorKind::Interrupted | ErrorKind::ConnectionAborted => {}
                _ => return Err(error),
            },
        }
    }
    Err(io::Error::from(ErrorKind::TimedOut))
}

impl Door {
    // Opens a door, of which the registry's wait tells.
    fn open<R: net::Net>(
        rt: &R,
        registry: &Registry,
        number: u16,
        addr: SocketAddr,
    ) -> io::Result<Door> {
        let mut listener = TcpListener::bind(rt, addr)?;
        registry.register(&mut listener, door_token(number), Interest::READABLE)?;
        Ok(Door {
            listener,
            may_have: true,
            has_failed: false,
        })
    }

    // A client that could not be let in is asked for again.
    fn try_again(&mut self) {
        if self.has_failed {
            self.has_failed = false;
            self.may_have = true;
        }
    }

    // Lets the next client in that waits, where one does.
    fn accept<R: net::Net>(&mut self, rt: &R) -> Option<TcpStream> {
        match next_client(rt, &self.listener) {
            Ok(stream) => Some(stream),
            Err(error) => {
                self.may_have = false;
                self.has_failed = error.kind() != ErrorKind::WouldBlock;
                None
            }
        }
    }

    // Closes the connections of those who wait. Of more than so many the others wait on.
    fn turn_away<R: net::Net>(&mut self, rt: &R) {
        for _ in 0..MOST_TURNED_AWAY {
            match self.accept(rt) {
                Some(stream) => drop(stream),
                None => return,
            }
        }
    }
}

// Opens a door, where there is an address for it.
fn door_at<R: net::Net>(
    rt: &R,
    registry: &Registry,
    number: u16,
    addr: Option<SocketAddr>,
) -> Result<Option<Door>, VenueTrouble> {
    let Some(addr) = addr else {
        return Ok(None);
    };
    match Door::open(rt, registry, number, addr) {
        Ok(door) => Ok(Some(door)),
        Err(reason) => Err(VenueTrouble::of_door(number, reason)),
    }
}

impl Doors {
    /// Opens a door at each address, in their order, with so many places each; where there is no
    /// address its door stays shut. The registry's wait tells of them.
    pub(crate) fn open<R: net::Net>(
        rt: &R,
        alloc: Global,
        registry: &Registry,
        addrs: &[Option<SocketAddr>],
        each: usize,
    ) -> Result<Doors, VenueTrouble>
        requires { 0 < each }
    {
        let mut doors = Vec::new(alloc);
        let mut number = 0u16;
        for addr in addrs {
            let door = door_at(rt, registry, number, *addr)?;
            if let Err(failed) = doors.push(door) {
                return Err(AllocError::from(failed).into());
            }
            number = number.saturating_add(1);
        }
        Ok(Doors { doors, each })
    }

    /// The wait told of a door.
    pub(crate) fn tell(&mut self, door: usize) {
        if let Some(Some(door)) = self.doors.get_mut(door) {
            door.may_have = true;
        }
    }

    /// Has the clients asked for again that could not be let in.
    pub(crate) fn try_again(&mut self) {
        for door in self.doors.iter_mut() {
            if let Some(door) = door {
                door.try_again();
            }
        }
    }

    /// Closes the connections of those who wait at a door that has no free place, so that they
    /// learn of it: of 64 at each door, at most. Answers whether a client may wait at one that has
    /// a free place.
    pub(crate) fn turn_away<R: net::Net>(&mut self, rt: &R, places: &Connections) -> bool {
        let mut may_let_in = false;
        for (number, door) in self.doors.iter_mut().enumerate() {
            if let Some(door) = door {
                if !door.may_have {
                    continue;
                }
                if places.has_free(number.saturating_mul(self.each), self.each) {
                    may_let_in = true;
                } else {
                    door.turn_away(rt);
                }
            }
        }
        may_let_in
    }

    /// Lets the next client in that waits at the door of a place, where one does. The system is
    /// asked only where one may wait.
    pub(crate) fn accept<R: net::Net>(&mut self, rt: &R, place: u16) -> Option<TcpStream> {
        match self.doors.get_mut(door_of(usize::from(place), self.each)) {
            // Each free place is asked in each turn, and mostly nobody waits.
            Some(Some(door)) if door.may_have => door.accept(rt),
            _ => None,
        }
    }
}
