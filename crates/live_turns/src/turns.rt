//! The turns of the lines and the peers.

ghost use Rattle.std.specs.Prelude.{◌≡◌, ◌<◌, ℕ, ◌+◌, ◌∷◌, [], List, Bool, true, IfOk, Some};
ghost use Rattle.std.specs.Prelude.{length, slice_get, slice_set};
ghost use Rattle.live_net.specs.LiveCalls.{LiveCall, Wait, Receive, Open, Take, Put};
ghost use Rattle.live_net.specs.declared.net.Received.TheVariants as received;
ghost use Rattle.live_net.specs.declared.live.WaitEnd.TheVariants as wait_end;
ghost use Rattle.live_net.specs.declared.live.PeerOpened.TheVariants as opened;
ghost use Rattle.live_net.specs.declared.live.PeerTaken.TheVariants as taken;
ghost use Rattle.live_net.specs.declared.live.PeerPut.TheVariants as put;
ghost use Rattle.live_turns.specs.Due.{Ways, Ends, from_line, from_peer};
ghost use Rattle.live_turns.specs.Due.{datagrams_from, pieces_from};
ghost use Rattle.live_turns.specs.Retry.{ends_by};
ghost use Rattle.live_turns.specs.Turning.{AreWays, TurnsStand, IsSeen, Answers, Passes};
ghost use Rattle.live_turns.specs.Turning.{IsFrom, IsPlace, KnowEach, NoneBehind, NoneGave};
ghost use Rattle.live_turns.specs.Turning.{due_at, peer_at, taken_at};

use crate::due::Due;
use crate::place::Place;
use crate::retry::{AT_FIRST, Retry};
use std::alloc::{AllocError, Global};

/// How many datagrams of a line are taken at most before its turn is over.
pub const MOST_DATAGRAMS: u16 = 64;

/// How many pieces of a peer's bytes are taken at most before its turn is over.
pub const MOST_PIECES: u16 = 16;

/// Whose turn it is, and when the connection with each peer is begun.
///
/// It calls no net: who does asks what is due, makes that call, and tells its answer here.
#[derive(Drop)]
pub struct LiveTurns {
    lines: u16,
    place: Place,
    // Whether since the last wait a line or a peer gave as many as are taken.
    more: bool,
    retries: Vec<Retry>,
}

impl LiveTurns {
    /// The turns of so many lines and peers, by their numbers from 0, before the first call.
    pub fn make(alloc: Global, lines: u16, peers: u16) -> Result<LiveTurns, AllocError>
        ensures { IfOk result (λ turns. (e : Ends)
            → TurnsStand (record { lines = lines; peers = peers }) e turns []) }
    {
        let mut retries = Vec::with_capacity(alloc, usize::from(peers))?;
        for _ in 0..peers {
            retries.push(AT_FIRST)?;
        }
        Ok(LiveTurns {
            lines,
            place: Place::Wait,
            more: false,
            retries,
        })
    }

    /// The peer whose turn it is, where one's is.
    pub fn peer(&self) -> Option<u16>
        ensures { result ≡ peer_at self.now.place }
    {
        match self.place {
            Place::Wait | Place::Line(_, _) => None,
            Place::Peer(peer, _) | Place::Put(peer) => Some(peer),
        }
    }

    // How many datagrams or pieces the line or peer has given whose turn it is.
    fn taken(&self) -> u16
        ensures { result ≡ taken_at self.now.place }
    {
        match self.place {
            Place::Line(_, taken) | Place::Peer(_, taken) => taken,
            Place::Wait | Place::Put(_) => 0,
        }
    }

    // The turn of a peer, where there are so many; else the wait is due.
    fn from_peer(&self, peer: u16) -> Place
        ensures due { (w : Ways) (e : Ends) (run : List LiveCall) → AreWays w self.now
            → due_at w e run result ≡ from_peer w e run peer }
        ensures place { (w : Ways) (run : List LiveCall) → AreWays w self.now
            → pieces_from peer run ≡ 0 → NoneBehind run peer → IsPlace w run result }
        ensures from { IsFrom peer result }
    {
        if usize::from(peer) < self.retries.len() {
            Place::Peer(peer, 0)
        } else {
            Place::Wait
        }
    }

    // The turn of the peer behind this one.
    fn after_peer(&self, peer: u16) -> Place
        ensures due { (w : Ways) (e : Ends) (run : List LiveCall) → AreWays w self.now
            → due_at w e run result ≡ from_peer w e run (peer + 1) }
        ensures place { (w : Ways) (run : List LiveCall) → AreWays w self.now
            → NoneBehind run peer → IsPlace w run result }
        ensures from { IsFrom (peer + 1) result }
    {
        match peer.checked_add(1) {
            Some(next) => self.from_peer(next),
            None => Place::Wait,
        }
    }

    // The turn of a line, where there are so many; else those of the peers begin.
    fn from_line(&self, line: u16) -> Place
        ensures due { (w : Ways) (e : Ends) (run : List LiveCall) → AreWays w self.now
            → due_at w e run result ≡ from_line w e run line }
        ensures place { (w : Ways) (run : List LiveCall) → AreWays w self.now
            → datagrams_from line run ≡ 0 → NoneGave run → IsPlace w run result }
    {
        if line < self.lines {
            Place::Line(line, 0)
        } else {
            self.from_peer(0)
        }
    }

    // The turn of the line behind this one.
    fn after_line(&self, line: u16) -> Place
        ensures due { (w : Ways) (e : Ends) (run : List LiveCall) → AreWays w self.now
            → due_at w e run result ≡ from_line w e run (line + 1) }
        ensures place { (w : Ways) (run : List LiveCall) → AreWays w self.now
            → datagrams_from (line + 1) run ≡ 0 → NoneGave run → IsPlace w run result }
    {
        match line.checked_add(1) {
            Some(next) => self.from_line(next),
            None => self.from_peer(0),
        }
    }

    // How the connection with a peer is.
    fn retry(&self, peer: u16) -> Retry
        ensures { peer < length self.now.retries.items
            → slice_get self.now.retries.items peer ≡ Some result }
    {
        self.retries
            .get(usize::from(peer))
            .copied()
            .unwrap_or(AT_FIRST)
    }

    // Keeps how it is now.
    fn keep(&mut self, peer: u16, retry: Retry)
        ensures kept { self.new.retries.items ≡ slice_set self.old.retries.items peer retry }
        ensures same { self.new ≡ record self.old { retries = self.new.retries } }
    {
        if let Some(kept) = self.retries.get_mut(usize::from(peer)) {
            *kept = retry;
        }
    }

    // What is due in the turn of a peer, which has given so many pieces.
    fn in_turn(&mut self, peer: u16, taken: u16, has: bool) -> Option<Due>
        ensures { (w : Ways) (e : Ends) (run : List LiveCall) → TurnsStand w e self.old run
            → self.old.place ≡ Place.Peer peer taken → has ≡ e.has peer
            → Answers w e run self.old.place self.new result }
    {
        let kept = self.retry(peer);
        if kept.stands() {
            if !has {
                return Some(Due::Close(peer));
            }
            if taken < MOST_PIECES {
                return Some(Due::Take(peer));
            }
            self.place = Place::Put(peer);
            return None;
        }
        if kept.may_begin() {
            return Some(Due::Open(peer));
        }
        self.place = self.after_peer(peer);
        None
    }

    /// The call that is due, where the client's link with the peer whose turn it is is open or not,
    /// and so many bytes wait for it; neither matters where it is no peer's turn. None where
    /// nothing is due at this place: then the turns have moved on, and who calls asks again.
    pub fn due(&mut self, has: bool, waiting: usize) -> Option<Due>
        ensures { (w : Ways) (e : Ends) (run : List LiveCall) → TurnsStand w e self.old run
            → IsSeen e self.old.place has waiting
            → Answers w e run self.old.place self.new result }
    {
        match self.place {
            Place::Wait => Some(Due::Wait(self.more)),
            Place::Line(line, _) => Some(Due::Receive(line)),
            Place::Peer(peer, taken) => self.in_turn(peer, taken, has),
            Place::Put(peer) if waiting > 0 => Some(Due::Put(peer)),
            Place::Put(peer) => {
                self.place = self.after_peer(peer);
                None
            }
        }
    }

    // A second has passed for each connection.
    fn pass_second(&mut self)
        ensures each { (run : List LiveCall) (more : Bool) → KnowEach run self.old
            → KnowEach (Wait more wait_end.Second ∷ run) self.new }
        ensures many { length self.new.retries.items ≡ length self.old.retries.items }
        ensures same { self.new ≡ record self.old { retries = self.new.retries } }
    {
        for retry in self.retries.iter_mut() {
            *retry = retry.second();
        }
    }

    /// A wait ended before a second had passed.
    pub fn woken(&mut self)
        ensures { (more : Bool) → Passes self.old self.new (Wait more wait_end.Ready) }
    {
        self.more = false;
        self.place = self.from_line(0);
    }

    /// A wait ended, and a second has passed.
    pub fn second(&mut self)
        ensures { (more : Bool) → Passes self.old self.new (Wait more wait_end.Second) }
    {
        self.pass_second();
        self.more = false;
        self.place = self.from_line(0);
    }

    /// A line gave a datagram.
    pub fn received(&mut self, line: u16)
        ensures { (room n : ℕ) (bytes : List ℕ) → Passes self.old self.new
            (Receive line room bytes (received.Got n)) }
    {
        let so_far = self.taken();
        if so_far < MOST_DATAGRAMS - 1 {
            self.place = Place::Line(line, so_far + 1);
        } else {
            self.more = true;
            self.place = self.after_line(line);
        }
    }

    /// A line gave none.
    pub fn line_is_quiet(&mut self, line: u16)
        ensures { (room : ℕ) → Passes self.old self.new (Receive line room [] received.Quiet) }
    {
        self.place = self.after_line(line);
    }

    /// A peer's connection was begun.
    pub fn begun(&mut self, peer: u16)
        ensures { Passes self.old self.new (Open peer opened.Begun) }
    {
        self.keep(peer, self.retry(peer).begun());
        self.place = Place::Put(peer);
    }

    /// Bytes of it came.
    pub fn took(&mut self, peer: u16)
        ensures { (room n : ℕ) (bytes : List ℕ) → Passes self.old self.new
            (Take peer room bytes (taken.Got n)) }
    {
        let so_far = self.taken().saturating_add(1);
        self.more |= so_far == MOST_PIECES;
        self.place = Place::Peer(peer, so_far);
    }

    /// It has no more bytes now.
    pub fn peer_is_quiet(&mut self, peer: u16)
        ensures { (room : ℕ) → Passes self.old self.new (Take peer room [] taken.Quiet) }
    {
        self.place = Place::Put(peer);
    }

    /// It took some of a piece that was put.
    pub fn wrote(&mut self, peer: u16)
        ensures { (n : ℕ) (piece : List ℕ) → Passes self.old self.new
            (Put peer piece (put.Wrote n)) }
    {
        self.place = Place::Put(peer);
    }

    /// It has no room for a piece now.
    pub fn full(&mut self, peer: u16)
        ensures { (piece : List ℕ) → Passes self.old self.new (Put peer piece put.Full) }
    {
        self.place = self.after_peer(peer);
    }

    /// It ended by a call, was refused, or was closed.
    pub fn ended(&mut self, peer: u16)
        ensures { (call : LiveCall) → ends_by peer call ≡ true → Passes self.old self.new call }
    {
        self.keep(peer, self.retry(peer).ended());
        self.place = self.after_peer(peer);
    }
}
