//! The sessions with a server, by the numbers that whoever owns the sockets gave them.

ghost use Rattle.std.specs.Prelude.{◌≡◌, ◌==◌, ◌++◌, ℕ, List, [], ◌∷◌, OnOk, OnErr, position};
ghost use Rattle.std.specs.Prelude.{is_some, drop};
ghost use Rattle.session_ends.specs.Closing.{Setup, closed_of};
ghost use Rattle.session_ends.specs.Events.{Event, Ticked};
ghost use Rattle.venue_end.specs.Sessions.{Session, session_of, at_session, without, with_new};
ghost use Rattle.venue_end.specs.Sessions.{happens_at, happens_at_all, puts, waiting_in, closed_in};
ghost use Rattle.venue_end.specs.Stands.{PlaceIs, TableIs};
ghost use Rattle.venue_end.specs.declared.setup.VenueSetup.{VenueSetup};

use pitch_fields::OutOfMemory;
use session_ends::Closed;
use std::alloc::Global;

/// A server's end of a session.
pub(crate) trait Server: Drop {
    /// What it sees of what it can look things up in.
    ghost Seen: { Type 0 };

    /// How it is made.
    ghost setup: { VenueSetup → Setup };

    /// It was made so, and this happened, the newest first.
    ghost stands: { Self → VenueSetup → List (Event Seen) → Type 0 };

    /// What it says at an event after others.
    ghost says: { VenueSetup → Event Seen → List (Event Seen) → List ℕ };

    /// Why it closed and where, or None while it has not.
    fn cause(&self) -> Option<Closed>
        ensures { (s : VenueSetup) (es : List (Event Seen))
            → stands self.now s es → result ≡ closed_of (setup s) es };

    /// A second passes; appends what it says by that.
    fn pass_second(&mut self, said: &mut Vec<u8>) -> Result<(), OutOfMemory>
        ensures stands { OnOk result ((s : VenueSetup) (es : List (Event Seen))
            → stands self.old s es → stands self.new s (Ticked ∷ es)) }
        ensures says { OnOk result ((s : VenueSetup) (es : List (Event Seen))
            → stands self.old s es → said.new.items ≡ said.old.items ++ says s Ticked es) };
}

/// A session: its number, its server, what that said, and how many of the first bytes of that were
/// put already.
#[derive(Drop)]
pub(crate) struct Place<S> {
    pub(crate) id: u32,
    pub(crate) server: S,
    pub(crate) said: Vec<u8>,
    put: usize,
}

impl<S: Server> Place<S> {
    // A second passes.
    fn tick(&mut self) -> Result<(), OutOfMemory>
        ensures { OnOk result ((s : VenueSetup) (session : Session S.Seen)
            → PlaceIs S.stands s self.old session
            → PlaceIs S.stands s self.new (happens_at (S.says s) Ticked session)) }
    {
        self.server.pass_second(&mut self.said)
    }

    // What waits to be put.
    fn waiting(&self) -> &[u8]
        ensures { result.now ≡ drop self.now.put self.now.said.items }
    {
        &self.said[self.put.min(self.said.len())..]
    }

    // So many bytes of what waits were put, or all. The rest moves down once more than half was
    // put, so that no more bytes move than are put.
    fn put(&mut self, count: usize)
        ensures { (s : VenueSetup) (session : Session S.Seen) → PlaceIs S.stands s self.old session
            → PlaceIs S.stands s self.new (puts count session) }
    {
        let len = self.said.len();
        self.put = self.put.saturating_add(count).min(len);
        if self.put > len / 2 {
            self.said.copy_within(self.put.., 0);
            self.said.truncate(len - self.put);
            self.put = 0;
        }
    }
}

/// The sessions with a server, in the order in which they were made.
#[derive(Drop)]
pub(crate) struct SessionTable<S> {
    alloc: Global,
    pub(crate) places: Vec<Place<S>>,
}

impl<S: Server> SessionTable<S> {
    /// There is none yet. It takes no memory.
    pub(crate) fn make(alloc: Global) -> SessionTable<S>
        ensures { result.places.items ≡ [] }
    {
        SessionTable {
            alloc,
            places: Vec::new(alloc),
        }
    }

    /// The place of the session of a number, where there is one.
    pub(crate) fn find(&self, id: u32) -> Option<usize>
        ensures { result ≡ position (λ place. place.id == id) self.now.places.items }
    {
        self.places.iter().position(|place| place.id == id)
    }

    /// Whether a session has the number.
    pub(crate) fn has(&self, id: u32) -> bool
        ensures { (s : VenueSetup) (sessions : List (Session S.Seen))
            → TableIs S.stands s self.now sessions
            → result ≡ is_some (session_of id sessions) }
    {
        self.find(id).is_some()
    }

    /// A session is made with a new server; one that had its number has ended.
    pub(crate) fn open(&mut self, id: u32, server: S) -> Result<(), OutOfMemory>
        ensures opens { OnOk result ((s : VenueSetup) (sessions : List (Session S.Seen))
            → S.stands server s [] → TableIs S.stands s self.old sessions
            → TableIs S.stands s self.new (with_new id sessions)) }
        ensures err { OnErr result (self.new.places.items ≡ self.old.places.items) }
    {
        let before = self.find(id);
        self.places.push(Place {
            id,
            server,
            said: Vec::new(self.alloc),
            put: 0,
        })?;
        match before {
            None => Ok(()),
            Some(at) => {
                drop(self.places.remove(at));
                Ok(())
            }
        }
    }

    /// A session ends, where there is one.
    pub(crate) fn cut(&mut self, id: u32)
        ensures { (s : VenueSetup) (sessions : List (Session S.Seen))
            → TableIs S.stands s self.old sessions
            → TableIs S.stands s self.new (without id sessions) }
    {
        match self.find(id) {
            None => {}
            Some(at) => drop(self.places.remove(at)),
        }
    }

    /// All sessions end.
    pub(crate) fn clear(&mut self)
        ensures { self.new.places.items ≡ [] }
    {
        self.places.clear();
    }

    /// What waits to be put to a session; nothing where there is none.
    pub(crate) fn said_to(&self, id: u32) -> &[u8]
        ensures { (s : VenueSetup) (sessions : List (Session S.Seen))
            → TableIs S.stands s self.now sessions
            → result.now ≡ waiting_in (session_of id sessions) }
    {
        match self.find(id) {
            None => &[],
            Some(at) => self.places[at].waiting(),
        }
    }

    /// So many bytes of what waits were put to a session, or all.
    pub(crate) fn put(&mut self, id: u32, count: usize)
        ensures { (s : VenueSetup) (sessions : List (Session S.Seen))
            → TableIs S.stands s self.old sessions
            → TableIs S.stands s self.new (at_session id (puts count) sessions) }
    {
        match self.find(id) {
            None => {}
            Some(at) => self.places[at].put(count),
        }
    }

    /// Why a session's server closed, or None while it has not, and where there is none.
    pub(crate) fn closed(&self, id: u32) -> Option<Closed>
        ensures { (s : VenueSetup) (sessions : List (Session S.Seen))
            → TableIs S.stands s self.now sessions
            → result ≡ closed_in (S.setup s) (session_of id sessions) }
    {
        match self.find(id) {
            None => None,
            Some(at) => self.places[at].server.cause(),
        }
    }

    /// A second passes at every server.
    pub(crate) fn tick_all(&mut self) -> Result<(), OutOfMemory>
        ensures { OnOk result ((s : VenueSetup) (sessions : List (Session S.Seen))
            → TableIs S.stands s self.old sessions
            → TableIs S.stands s self.new (happens_at_all (S.says s) Ticked sessions)) }
    {
        for place in self.places.iter_mut() {
            place.tick()?;
        }
        Ok(())
    }
}
