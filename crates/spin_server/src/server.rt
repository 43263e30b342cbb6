//! The Spin Server's side of a session: logins, spin requests, images block by block, ticks.

ghost use Rattle.std.specs.Prelude.{◌≡◌, ◌<◌, true, List, [], ◌∷◌, ◌++◌, ◌+◌, length, OnOk, OnErr};
ghost use Rattle.std.specs.Prelude.{IsOk, IfOk, IfSome, Some, is_some};
ghost use Rattle.session_ends.specs.declared.closed.CloseCause.TheVariants.{Memory};
ghost use Rattle.session_ends.specs.declared.role.Role.TheVariants.{SpinServer as SpinRole};
ghost use Rattle.session_ends.specs.Closing.{closed_of};
ghost use Rattle.session_ends.specs.Events.{Event, Ticked, Pumped, Told};
ghost use Rattle.session_ends.specs.layers.Happening.{Happens, OfEvents};
ghost use Rattle.session_ends.specs.Items.{closed_at};
ghost use Rattle.session_ends.specs.Sending.{sent_at_tick};
ghost use Rattle.session_ends.specs.layers.Showing.{ShowsLater};
ghost use Rattle.spin_server.specs.Served.{Served};
ghost use Rattle.spin_server.specs.layers.Looking.{ServedLater};
ghost use Rattle.unit_packets.specs.Causes.{counted};
ghost use Rattle.spin_server.specs.Serving.{pump_bytes, pumped, blocks_left};
ghost use Rattle.spin_server.specs.Serving.{spin_sends, runs, SpinStands};
ghost use Rattle.spin_server.specs.layers.Feeding.{SpinFeeds};

use crate::desk::Desk;
use crate::lookup::ImageLookup;
use crate::spin::Spin;
use pitch_fields::OutOfMemory;
use pitch_messages::session::SessionMessage;
use session_ends::{Account, Closed, End, Role};
use std::alloc::Global;
use std::marker::Model;
use std::mem::replace;

/// The Spin Server's end of a session.
#[derive(Drop)]
pub struct SpinServer {
    alloc: Global,
    end: End,
    spin: Option<Spin>,
}

impl Model for SpinServer {
    ghost use Rattle.spin_server.specs.Serving.{Serving};

    ghost Value = { Serving };

    ghost view = { λ s. record { end = s.end; spin = s.spin } };
}

// Sends the next block of an image, or Spin Finished, and answers whether it was a block.
fn put_next(end: &End, spin: &Spin, reply: &mut Vec<u8>) -> Result<bool, OutOfMemory>
    ensures ok { OnOk result
        (reply.new.items ≡ reply.old.items ++ pump_bytes end.now.setup (Some spin.now)) }
    ensures more { IfOk result (λ more. more ≡ is_some (pumped (Some spin.now))) }
    ensures err { OnErr result (reply.new.items ≡ reply.old.items) }
{
    match spin.next() {
        Some(block) => {
            reply.extend_from_slice(block)?;
            Ok(true)
        }
        None => {
            end.put(
                &SessionMessage::SpinFinished {
                    sequence: spin.sequence(),
                },
                reply,
            )?;
            Ok(false)
        }
    }
}

impl SpinServer {
    /// The end of a session for a unit, to which these accounts may log in, unless the session is
    /// in use elsewhere. It is not logged in. It takes no memory.
    pub fn make(alloc: Global, unit: u8, accounts: Vec<Account>, in_use: bool) -> SpinServer
        // Of an end to which nothing happened.
        ensures stands { SpinStands result [] }
        ensures setup { result.end.setup
            ≡ record { role = SpinRole; unit = unit; accounts = accounts.items; in_use = in_use } }
    {
        SpinServer {
            alloc,
            end: End::make(alloc, Role::SpinServer, unit, accounts, in_use),
            spin: None,
        }
    }

    /// Why the session closed and where, or None exactly while it has not.
    pub fn closed(&self) -> Option<Closed>
        ensures kept { result ≡ self.now.end.closed }
        // Of everything that happened to it: the first cause that closes it.
        ensures cause { OfEvents SpinStands self.now
            (λ es. result ≡ closed_of self.now.end.setup es) }
    {
        self.end.closed()
    }

    fn is_closed(&self) -> bool
        ensures { result ≡ is_some self.now.end.closed }
    {
        self.end.is_closed()
    }

    /// Takes the next piece of the stream, and answers each message that is whole now: logins and
    /// spin requests ("Login Message", "Spin Request Message"); other types are skipped. A message
    /// that closes the session is answered, and nothing after it. Once closed it takes bytes and
    /// does nothing.
    ///
    /// After OutOfMemory `reply` is as before, and the session is closed with Memory.
    pub fn feed<L: ImageLookup>(
        &mut self,
        piece: &[u8],
        lookup: &mut L,
        reply: &mut Vec<u8>,
    ) -> Result<(), OutOfMemory>
        ensures same { L.still ≡ true → lookup.new ≡ lookup.old }
        // Of every view that the look-up shows before: whatever comes of the call, it shows one
        // after it that is no earlier.
        ensures left { (view : Served)
            → L.shows lookup.old view → ShowsLater ServedLater (L.shows lookup.new) view }
        // Of everything that happened before, and of every view that the look-up shows before: the
        // piece was fed too, each message was answered at its view, and these rise to one that the
        // look-up shows after.
        ensures fed { OnOk result ((es : List (Event (List Served))) (view : Served)
            → SpinStands self.old es → L.shows lookup.old view → SpinFeeds es
            piece.now self.old self.new view (L.shows lookup.new) reply.old.items reply.new.items) }
        ensures setup { self.new.end.setup ≡ self.old.end.setup }
        ensures err_closed { OnErr result (self.new.end.closed ≡ Some
            (closed_at Memory (counted (self.old.end.inbox.fed + length piece.now)))) }
        ensures err_reply { OnErr result (reply.new.items ≡ reply.old.items) }
        ensures shut { IfSome self.old.end.closed (λ c. self.new ≡ self.old) }
        ensures shut_ok { IfSome self.old.end.closed
            (λ c. IsOk result × (reply.new.items ≡ reply.old.items)) }
    {
        if self.is_closed() {
            return Ok(());
        }
        let mut said = Vec::new(self.alloc);
        let mut desk = Desk {
            alloc: self.alloc,
            spin: replace(&mut self.spin, None),
        };
        match self.end.hear(piece, &mut desk, lookup, &mut said) {
            Ok(()) => match reply.extend_from_slice(&said) {
                Ok(()) => {
                    self.spin = desk.spin;
                    return Ok(());
                }
                Err(_) => {}
            },
            Err(_) => {}
        }
        self.end.fail();
        Err(OutOfMemory)
    }

    /// Appends the next block of the running image, or Spin Finished after its last ("Spin
    /// Finished Message"), and nothing where no spin runs. Answers whether a spin still runs. All
    /// is as before after OutOfMemory.
    pub fn pump(&mut self, reply: &mut Vec<u8>) -> Result<bool, OutOfMemory>
        // Of everything that happened before: it was asked for the next block too.
        ensures stands { OnOk result (Happens SpinStands self.old self.new Pumped) }
        // Of everything that happened before: what is sent then was appended.
        ensures says { OnOk result (OfEvents SpinStands self.old
            (λ es. reply.new.items ≡ reply.old.items ++ spin_sends self.old.end.setup Pumped es)) }
        // Of everything that happened before: true exactly where a spin runs after the call.
        ensures more { IfOk result (λ more. OfEvents SpinStands self.old
            (λ es. more ≡ runs self.old.end.setup (Pumped ∷ es))) }
        // A spin that still runs has fewer blocks left, so calls in a row end it.
        ensures fewer { IfOk result
            (λ more. more ≡ true → blocks_left self.new.spin < blocks_left self.old.spin) }
        ensures setup { self.new.end.setup ≡ self.old.end.setup }
        ensures err { OnErr result ((self.new ≡ self.old) × (reply.new.items ≡ reply.old.items)) }
        ensures shut { IfSome self.old.end.closed
            (λ c. IsOk result × ((self.new ≡ self.old) × (reply.new.items ≡ reply.old.items))) }
    {
        if self.is_closed() {
            return Ok(false);
        }
        let Some(spin) = &mut self.spin else {
            return Ok(false);
        };
        let place = reply.len();
        if put_next(&self.end, spin, reply)? {
            spin.advance();
            self.end.note_sent(&reply[place..]);
            return Ok(true);
        }
        self.spin = None;
        self.end.note_sent(&reply[place..]);
        Ok(false)
    }

    /// Tells the client of a sequence that was advertised ("Spin Image Available Message"): after
    /// an accepted login and unless a spin runs, else nothing is appended. All is as before after
    /// OutOfMemory.
    pub fn tell(&mut self, sequence: u32, reply: &mut Vec<u8>) -> Result<(), OutOfMemory>
        // Of everything that happened before: it was told of the sequence too.
        ensures stands { OnOk result (Happens SpinStands self.old self.new (Told sequence)) }
        // Of everything that happened before: what is sent then was appended.
        ensures says { OnOk result (OfEvents SpinStands self.old
            (λ es. reply.new.items ≡ reply.old.items
            ++ spin_sends self.old.end.setup (Told sequence) es)) }
        ensures setup { self.new.end.setup ≡ self.old.end.setup }
        ensures err { OnErr result ((self.new ≡ self.old) × (reply.new.items ≡ reply.old.items)) }
        ensures shut { IfSome self.old.end.closed
            (λ c. IsOk result × ((self.new ≡ self.old) × (reply.new.items ≡ reply.old.items))) }
    {
        if self.is_closed() {
            return Ok(());
        }
        if self.spin.is_some() {
            return Ok(());
        }
        if !self.end.logged() {
            return Ok(());
        }
        let place = reply.len();
        self.end
            .put(&SessionMessage::SpinAvailable { sequence }, reply)?;
        self.end.note_sent(&reply[place..]);
        Ok(())
    }

    /// A second passes ("Heartbeat Messages"). The session closes at the fifth silent tick in a
    /// row; else, where nothing was sent since the last tick, a heartbeat is appended. Once closed
    /// it does nothing. After OutOfMemory the session is closed with Memory, and `reply` is as
    /// before.
    pub fn tick(&mut self, reply: &mut Vec<u8>) -> Result<(), OutOfMemory>
        // Of everything that happened before: the tick happened too.
        ensures stands { OnOk result (Happens SpinStands self.old self.new Ticked) }
        // Of everything that happened before: what a tick then sends was appended.
        ensures says { OnOk result (OfEvents SpinStands self.old
            (λ es. reply.new.items ≡ reply.old.items
            ++ sent_at_tick (spin_sends self.old.end.setup) self.old.end.setup es)) }
        ensures setup { self.new.end.setup ≡ self.old.end.setup }
        ensures err_closed { OnErr result
            (self.new.end.closed ≡ Some (closed_at Memory self.old.end.inbox.fed)) }
        ensures err_reply { OnErr result (reply.new.items ≡ reply.old.items) }
        ensures shut { IfSome self.old.end.closed (λ c. self.new ≡ self.old) }
        ensures shut_ok { IfSome self.old.end.closed
            (λ c. IsOk result × (reply.new.items ≡ reply.old.items)) }
    {
        self.end.tick(reply)?;
        Ok(())
    }
}
