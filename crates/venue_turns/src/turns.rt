//! The turns of the input and the places.

ghost use Rattle.std.specs.Prelude.{◌≡◌, ◌<◌, ℕ, ◌+◌, ◌∷◌, [], List, Bool, true, false, IfOk};
ghost use Rattle.std.specs.Prelude.{Some, length, slice_get, slice_set, take};
ghost use Rattle.live_net.specs.declared.live.PeerPut.TheVariants as put;
ghost use Rattle.live_net.specs.declared.live.PeerTaken.TheVariants as taken;
ghost use Rattle.live_net.specs.declared.live.WaitEnd.TheVariants as wait_end;
ghost use Rattle.live_turns.specs.Due.{room_for_one};
ghost use Rattle.venue_net.specs.VenueCalls.{VenueCall, Accept, Put, Read, Take, Wait};
ghost use Rattle.venue_net.specs.declared.net.InputRead.TheVariants as input;
ghost use Rattle.venue_turns.specs.Due.{Ways, Ends, first_of, from_input, from_place};
ghost use Rattle.venue_turns.specs.Due.{is_read, reads_from, pieces_from};
ghost use Rattle.venue_turns.specs.Standing.{ends_by};
ghost use Rattle.venue_turns.specs.Turning.{AreWays, TurnsStand, IsSeen, Answers, Passes};
ghost use Rattle.venue_turns.specs.Turning.{IsFrom, IsPlace, KnowEach};
ghost use Rattle.venue_turns.specs.Turning.{due_at, place_at, pieces_at};

use crate::due::Due;
use crate::link::Link;
use crate::place::Place;
use std::alloc::{AllocError, Global};

/// How many pieces are taken at most one after another before a turn goes on: of the input's bytes,
/// of those of a client, and by a client.
pub const MOST_PIECES: u16 = 16;

/// A client is kept no longer once more bytes than these wait for it as its turn begins.
pub const MOST_WAITING: usize = 1_048_576;

/// The room for a piece of the input's bytes or of a client's, and how many bytes of what waits are
/// put at most by one call.
pub const ROOM_FOR_ONE: usize = 65_536;

/// The first piece of what waits, as one call puts it.
#[tactic(auto, using(std::proofs::lemmas::List::take_min))]
pub fn first_piece(waiting: &[u8]) -> &[u8]
    ensures { result.now ≡ take room_for_one waiting.now }
{
    &waiting[..ROOM_FOR_ONE.min(waiting.len())]
}

/// Whose turn it is, and how the connection at each place is.
///
/// It calls no net: who does asks what is due, makes that call, and tells its answer here.
#[derive(Drop)]
pub struct VenueTurns {
    place: Place,
    // Whether since the last wait as many pieces as are taken came or went one after another.
    more: bool,
    // Whether the input is at its end.
    over: bool,
    links: Vec<Link>,
}

impl VenueTurns {
    /// The turns of so many places, by their numbers from 0, before the first call.
    pub fn make(alloc: Global, places: u16) -> Result<VenueTurns, AllocError>
        ensures { IfOk result (λ turns. (e : Ends)
            → TurnsStand (record { places = places }) e turns []) }
    {
        let mut links = Vec::with_capacity(alloc, usize::from(places))?;
        for _ in 0..places {
            links.push(Link::Free)?;
        }
        Ok(VenueTurns {
            place: Place::Wait,
            more: false,
            over: false,
            links,
        })
    }

    /// The place whose turn it is, where one's is.
    pub fn place(&self) -> Option<u16>
        ensures { result ≡ place_at self.now.place }
    {
        match self.place {
            Place::Wait | Place::Input(_) => None,
            Place::First(place) | Place::Taken(place, _) | Place::Put(place, _) => Some(place),
        }
    }

    // How many pieces came or went one after another in the turn.
    fn pieces(&self) -> u16
        ensures { result ≡ pieces_at self.now.place }
    {
        match self.place {
            Place::Input(pieces) | Place::Taken(_, pieces) | Place::Put(_, pieces) => pieces,
            Place::Wait | Place::First(_) => 0,
        }
    }

    // The turn of a place, where there are so many; else the wait is due.
    fn from_place(&self, place: u16) -> Place
        ensures due { (w : Ways) (e : Ends) (run : List VenueCall) → AreWays w self.now
            → due_at w e run result ≡ from_place w e run place }
        ensures place { (w : Ways) (run : List VenueCall) → AreWays w self.now
            → pieces_from place run ≡ 0 → IsPlace w run result }
        ensures from { IsFrom place result }
    {
        if usize::from(place) < self.links.len() {
            Place::First(place)
        } else {
            Place::Wait
        }
    }

    // The turn of the place behind this one.
    fn after_place(&self, place: u16) -> Place
        ensures due { (w : Ways) (e : Ends) (run : List VenueCall) → AreWays w self.now
            → due_at w e run result ≡ from_place w e run (place + 1) }
        ensures place { (w : Ways) (run : List VenueCall) → AreWays w self.now
            → pieces_from (place + 1) run ≡ 0 → IsPlace w run result }
        ensures from { IsFrom (place + 1) result }
    {
        match place.checked_add(1) {
            Some(next) => self.from_place(next),
            None => Place::Wait,
        }
    }

    // The turn of the input, unless it is at its end; then those of the places begin.
    fn from_input(&self) -> Place
        ensures due { (w : Ways) (e : Ends) (run : List VenueCall) → AreWays w self.now
            → self.now.over ≡ is_read run → due_at w e run result ≡ from_input w e run }
        ensures place { (w : Ways) (run : List VenueCall) → AreWays w self.now
            → reads_from run ≡ 0 → pieces_from 0 run ≡ 0 → IsPlace w run result }
    {
        if self.over {
            self.from_place(0)
        } else {
            Place::Input(0)
        }
    }

    // How the connection at a place is.
    fn link(&self, place: u16) -> Link
        ensures { place < length self.now.links.items
            → slice_get self.now.links.items place ≡ Some result }
    {
        self.links
            .get(usize::from(place))
            .copied()
            .unwrap_or(Link::Free)
    }

    // Keeps how it is now.
    fn keep(&mut self, place: u16, link: Link)
        ensures kept { self.new.links.items ≡ slice_set self.old.links.items place link }
        ensures same { self.new ≡ record self.old { links = self.new.links } }
    {
        if let Some(kept) = self.links.get_mut(usize::from(place)) {
            *kept = link;
        }
    }

    // What comes first in the turn of a place, for whose client so many bytes wait.
    fn first_of(&self, place: u16, waiting: usize) -> Due
        ensures { (e : Ends) (run : List VenueCall) → KnowEach run self.now
            → place < length self.now.links.items → waiting ≡ length (e.waits place)
            → result ≡ first_of e run place }
    {
        let link = self.link(place);
        if !link.stands() {
            return Due::Accept(place);
        }
        if waiting > MOST_WAITING || link.is_stuck() {
            return Due::Close(place);
        }
        Due::Take(place)
    }

    /// The call that is due, where the venue's end at the place whose turn it is is shut or not,
    /// and so many bytes wait for its client; neither matters where it is no place's turn. None
    /// where nothing is due at this place: then the turns have moved on, and who calls asks again.
    pub fn due(&mut self, shut: bool, waiting: usize) -> Option<Due>
        ensures { (w : Ways) (e : Ends) (run : List VenueCall) → TurnsStand w e self.old run
            → IsSeen e self.old.place shut waiting
            → Answers w e run self.old.place self.new result }
    {
        match self.place {
            Place::Wait => Some(Due::Wait(self.more)),
            Place::Input(_) => Some(Due::Read),
            Place::First(place) => Some(self.first_of(place, waiting)),
            Place::Taken(place, _) if shut => {
                self.place = Place::Put(place, 0);
                None
            }
            Place::Taken(place, _) => Some(Due::Take(place)),
            Place::Put(place, _) if waiting > 0 => Some(Due::Put(place)),
            Place::Put(place, _) if shut => Some(Due::Close(place)),
            Place::Put(place, _) => {
                self.place = self.after_place(place);
                None
            }
        }
    }

    // A second has passed for each connection.
    fn pass_second(&mut self)
        ensures each { (run : List VenueCall) (more : Bool) → KnowEach run self.old
            → KnowEach (Wait more wait_end.Second ∷ run) self.new }
        ensures many { length self.new.links.items ≡ length self.old.links.items }
        ensures same { self.new ≡ record self.old { links = self.new.links } }
    {
        for link in self.links.iter_mut() {
            *link = link.second();
        }
    }

    /// A wait ended before a second had passed.
    pub fn woken(&mut self)
        ensures { (more : Bool) → Passes self.old self.new (Wait more wait_end.Ready) }
    {
        self.more = false;
        self.place = self.from_input();
    }

    /// A wait ended, and a second has passed.
    pub fn second(&mut self)
        ensures { (more : Bool) → Passes self.old self.new (Wait more wait_end.Second) }
    {
        self.pass_second();
        self.more = false;
        self.place = self.from_input();
    }

    /// The input gave bytes.
    pub fn read(&mut self)
        ensures { (room n : ℕ) (bytes : List ℕ) → Passes self.old self.new
            (Read room bytes (input.Got n)) }
    {
        let pieces = self.pieces();
        if pieces < MOST_PIECES - 1 {
            self.place = Place::Input(pieces + 1);
        } else {
            self.more = true;
            self.place = self.from_place(0);
        }
    }

    /// It has no more now.
    pub fn input_is_quiet(&mut self)
        ensures { (room : ℕ) → Passes self.old self.new (Read room [] input.Quiet) }
    {
        self.place = self.from_place(0);
    }

    /// It is at its end, and is not read again.
    pub fn input_ended(&mut self)
        ensures { (room : ℕ) → Passes self.old self.new (Read room [] input.Ended) }
    {
        self.over = true;
        self.place = self.from_place(0);
    }

    /// A client was let in at a place.
    pub fn let_in(&mut self, place: u16)
        ensures { Passes self.old self.new (Accept place true) }
    {
        self.keep(place, Link::Open);
        self.place = Place::First(place);
    }

    /// None waited at its door.
    pub fn nobody_came(&mut self, place: u16)
        ensures { Passes self.old self.new (Accept place false) }
    {
        self.place = self.after_place(place);
    }

    /// The client at a place gave bytes.
    pub fn took(&mut self, place: u16)
        ensures { (room n : ℕ) (bytes : List ℕ) → Passes self.old self.new
            (Take place room bytes (taken.Got n)) }
    {
        let pieces = self.pieces();
        if pieces < MOST_PIECES - 1 {
            self.place = Place::Taken(place, pieces + 1);
        } else {
            self.more = true;
            self.place = Place::Put(place, 0);
        }
    }

    /// It has no more bytes now.
    pub fn place_is_quiet(&mut self, place: u16)
        ensures { (room : ℕ) → Passes self.old self.new (Take place room [] taken.Quiet) }
    {
        self.place = Place::Put(place, 0);
    }

    /// It took some of a piece that was put.
    pub fn wrote(&mut self, place: u16)
        ensures { (n : ℕ) (piece : List ℕ) → Passes self.old self.new
            (Put place piece (put.Wrote n)) }
    {
        let pieces = self.pieces();
        self.keep(place, self.link(place).wrote());
        if pieces < MOST_PIECES - 1 {
            self.place = Place::Put(place, pieces + 1);
        } else {
            self.more = true;
            self.place = self.after_place(place);
        }
    }

    /// It has no room for a piece now.
    pub fn full(&mut self, place: u16)
        ensures { (piece : List ℕ) → Passes self.old self.new (Put place piece put.Full) }
    {
        self.keep(place, self.link(place).full());
        self.place = self.after_place(place);
    }

    /// Its connection ended by a call, or was closed.
    pub fn ended(&mut self, place: u16)
        ensures { (call : VenueCall) → ends_by place call ≡ true
            → Passes self.old self.new call }
    {
        self.keep(place, Link::Free);
        self.place = self.after_place(place);
    }
}
