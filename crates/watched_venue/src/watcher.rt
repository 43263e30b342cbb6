//! Who is let in at which place, and what they ask.

ghost use Rattle.std.specs.Prelude.{◌≡◌};

use crate::seat::Seat;
use crate::trouble::WatchTrouble;
use pitch_fields::OutOfMemory;
use pitch_io::Sink;
use std::alloc::Global;
use venue_units::{UNIT_PLACES, is_spin};

/// The places of all units, how many clients were let in, where the lines go, and why lines are
/// missing, once they are.
#[derive(Drop)]
pub(crate) struct Watcher<O> {
    alloc: Global,
    seats: Vec<Seat>,
    clients: u64,
    out: O,
    trouble: Option<WatchTrouble>,
}

// The places of units, which have these numbers by their indexes.
fn seats_of(alloc: Global, units: &[u8]) -> Result<Vec<Seat>, OutOfMemory> {
    let mut seats = Vec::new(alloc);
    'units: for unit in units {
        'places: for place in 0..UNIT_PLACES {
            seats.push(Seat::make(alloc, *unit, is_spin(place)))?;
        }
    }
    Ok(seats)
}

impl<O: Sink + Drop> Watcher<O> {
    /// Nobody was let in yet.
    pub(crate) fn make(alloc: Global, units: &[u8], out: O) -> Result<Watcher<O>, OutOfMemory> {
        Ok(Watcher {
            alloc,
            seats: seats_of(alloc, units)?,
            clients: 0,
            out,
            trouble: None,
        })
    }

    /// Why lines are missing, or None where none is.
    pub(crate) fn trouble(&self) -> Option<WatchTrouble>
        ensures { result ≡ self.now.trouble }
    {
        self.trouble
    }

    /// Where the lines went.
    pub(crate) fn out(&self) -> &O
        ensures { result.now ≡ self.now.out }
    {
        &self.out
    }

    /// A client was let in at a place, the next by its number.
    pub(crate) fn let_in(&mut self, place: u16) {
        self.clients = self.clients.saturating_add(1);
        if let Some(seat) = self.seats.get_mut(usize::from(place)) {
            seat.let_in(self.alloc, self.clients);
        }
    }

    /// Bytes of the client at a place came: what it asks by them is written, where no line is
    /// missing yet.
    pub(crate) fn took(&mut self, place: u16, bytes: &[u8]) {
        if self.trouble.is_some() {
            return;
        }
        let Some(seat) = self.seats.get_mut(usize::from(place)) else {
            return;
        };
        match seat.hear(self.alloc, bytes, &mut self.out) {
            Ok(()) => {}
            Err(trouble) => self.trouble = Some(trouble),
        }
    }
}
