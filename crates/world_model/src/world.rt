//! Does each verb of a schedule with a unit's venue, lines, proxy, Spin Server and client.

ghost use Rattle.std.specs.Prelude.{◌≡◌, ◌≤◌, ℕ, List, [], ◌∷◌, false, drop, Some, IsTrue, ◌↔◌};
ghost use Rattle.std.specs.Prelude.{◌++◌, OnOk};
ghost use Rattle.unit_packets.specs.Packing.{bytes_in};
ghost use Rattle.venue_core.specs.declared.error.VenueError.TheVariants as errors;
ghost use Rattle.world_model.specs.declared.outcome.Outcome.TheVariants as outcome;
ghost use Rattle.world_model.specs.Verbs.{tick_outcome};

use crate::datagrams::{append_copies, datagrams_after, datagrams_on};
use crate::ends::{at_client, client_end, venue_setup};
use crate::hearing::{hear_all, hear_datagram};
use crate::limits::Limits;
use crate::outcome::{Outcome, Printed};
use crate::passed::Passed;
use crate::pipe::carry_count;
use crate::showing::{append_book, append_counts};
use crate::venue;
use client_core::UnitClient;
use line_arbiter::Arbiter;
use pitch_fields::{OutOfMemory, Side, Symbol};
use pitch_io::Line;
use pitch_messages::ByteList;
use pitch_model::Ask;
use pitch_text::{Command, Session, Verb};
use sending_end::SendingEnd;
use std::alloc::Global;
use unit_packets::DatagramList;
use venue_core::VenueError;
use venue_end::VenueEnd;

/// One unit's world: a venue with its Gap Request Proxy and Spin Server, every datagram that they
/// sent, and one client, whose connections carry bytes only as verbs say.
///
/// Standard: "Gap Request Proxy", "Spin Servers". Verbs, limits and printed lines are this
/// project's own.
#[derive(Drop)]
pub struct World {
    alloc: Global,
    unit: u8,
    limits: Limits,
    // The venue's end, and the client's with the bytes that wait for the servers.
    venue: VenueEnd,
    client: SendingEnd,
    // The datagrams of lines A and B, which are the same, and of the gap line; how far the client
    // got on each line, and what each brought.
    sent: DatagramList,
    replayed: DatagramList,
    passed: Passed,
    arbiter: Arbiter,
    begun: bool,
    // A step had no memory.
    failed: bool,
}

impl World {
    ghost use Rattle.std.specs.Prelude.{◌≡◌, ◌≤◌, ◌++◌, ℕ, List, [], ◌∷◌, true, false, length};
    ghost use Rattle.std.specs.Prelude.{take, IfSome, OnOk, OnErr, IfOk, IsErr};
    ghost use Rattle.client_core.specs.Tracks.{Tracks, Keeps};
    ghost use Rattle.pitch_text.specs.WellFormed.{IsVerb};
    ghost use Rattle.pitch_text.specs.declared.verb.Verb.{Verb as VerbSaid};
    ghost use Rattle.std.specs.List.{AllByRecursion};
    ghost use Rattle.unit_packets.specs.Packing.{bytes_in};
    ghost use Rattle.heard_items.specs.Datagrams.{IsPiece};
    ghost use Rattle.spin_path.specs.PathLaws.{HasWholeImages};
    ghost use Rattle.venue_end.specs.Came.{Flushed, Beaten};
    ghost use Rattle.world_model.specs.Ends.{stands};
    ghost use Rattle.world_model.specs.Printed.{printed, shown_state};
    ghost use Rattle.world_model.specs.Stands.{WorldStands};
    ghost use Rattle.world_model.specs.State.{State, datagrams_on};
    ghost use Rattle.world_model.specs.Verbs.{state_of, does, set_up, commanded, sends, advertised};
    ghost use Rattle.world_model.specs.Verbs.{delivered, rest_delivered, opened, connected, cut};
    ghost use Rattle.world_model.specs.Verbs.{settled, up, down, ticked, quoted};
    ghost use Rattle.world_model.specs.declared.limits.Limits.{Limits as LimitsSaid};
    ghost use Rattle.world_model.specs.layers.Steps.{AreLimits, Acts, Passes, WorldHas};
    ghost use Rattle.world_model.specs.layers.Steps.{has_failed};

    /// The world of a unit with which nothing was done. Its limits are ones that an `open` line can
    /// set.
    pub fn make(alloc: Global, unit: u8, limits: Limits) -> Result<World, OutOfMemory>
        requires { AreLimits limits }
        // Of no verb.
        ensures stands { IfOk result (λ world. WorldStands world unit limits []) }
        ensures fresh { IfOk result (λ world. has_failed world ≡ false) }
    {
        let venue = VenueEnd::make(alloc, &venue_setup(unit, limits))?;
        match client_end(alloc, unit, limits) {
            Ok(client) => Ok(World {
                alloc,
                unit,
                limits,
                venue,
                client,
                sent: DatagramList::make(alloc),
                replayed: DatagramList::make(alloc),
                passed: Passed { a: 0, b: 0, gap: 0 },
                arbiter: Arbiter::make(),
                begun: false,
                failed: false,
            }),
            Err(error) => {
                // By a call: a function that drops a venue's end itself takes long to prove.
                drop(venue);
                Err(error)
            }
        }
    }

    /// Does a verb of a schedule, and answers what its line prints.
    ///
    /// After OutOfMemory the world has failed: every later step answers OutOfMemory too.
    pub fn step(&mut self, verb: &Verb) -> Result<Printed, OutOfMemory>
        requires { IsVerb verb.now }
        // Whatever verbs were done before, the world then stands for these and this one.
        ensures stands { OnOk result ((unit : ℕ) (limits : LimitsSaid) (done : List VerbSaid)
            → WorldStands self.old unit limits done
            → WorldStands self.new unit limits (verb.now ∷ done)) }
        // Whatever verbs were done before, the answer is what the definition prints of this one.
        ensures printed { IfOk result (λ p. (unit : ℕ) (limits : LimitsSaid) (done : List VerbSaid)
            → WorldStands self.old unit limits done
            → p ≡ printed unit limits verb.now (state_of unit limits done)) }
        ensures failed { OnErr result (has_failed self.new ≡ true) }
        ensures failed_before { has_failed self.old ≡ true → IsErr result }
    {
        if self.failed {
            return Err(OutOfMemory);
        }
        match self.act(verb) {
            Ok(acted) => {
                self.begun = true;
                let status = self.client.status();
                Ok(Printed {
                    outcome: acted.outcome,
                    status,
                    overflow: acted.overflow,
                })
            }
            Err(error) => {
                self.failed = true;
                Err(error)
            }
        }
    }

    /// Appends the text of the client's book, and how many messages each line brought. The text is
    /// as before after OutOfMemory.
    pub fn show(&self, out: &mut Vec<u8>) -> Result<(), OutOfMemory>
        // Whatever verbs were done, it is what the definition shows of their state.
        ensures shown { OnOk result ((unit : ℕ) (limits : LimitsSaid) (done : List VerbSaid)
            → WorldStands self.now unit limits done → out.new.items
            ≡ out.old.items ++ shown_state unit limits (state_of unit limits done)) }
        ensures err { OnErr result (out.new.items ≡ out.old.items) }
        ensures behind { take (length out.old.items) out.new.items ≡ out.old.items }
    {
        let start = out.len();
        match self.append_shown(out) {
            Ok(()) => Ok(()),
            Err(error) => {
                out.truncate(start);
                Err(error)
            }
        }
    }

    /// The unit's client.
    pub fn client(&self) -> &UnitClient
        // Whatever verbs were done, the client is where what it heard brings it.
        ensures tracks { (unit : ℕ) (limits : LimitsSaid) (done : List VerbSaid)
            → WorldStands self.now unit limits done
            → Tracks result.now limits.hold (state_of unit limits done).client.heard }
        // Its book and what it holds are the venue's messages.
        ensures keeps { (unit : ℕ) (limits : LimitsSaid) (done : List VerbSaid)
            → WorldStands self.now unit limits done
            → Keeps result.now (state_of unit limits done).venue.messages }
        // Each image that it heard to its end is the image of the venue's messages, and none is
        // bad.
        ensures whole { (unit : ℕ) (limits : LimitsSaid) (done : List VerbSaid)
            → WorldStands self.now unit limits done → HasWholeImages
            (state_of unit limits done).venue.messages (state_of unit limits done).client.heard }
    {
        // From here on it is known that the unit is a byte.
        let _unit = self.unit;
        self.client.client()
    }

    /// The datagrams that were sent on a line, in their order: by the venue on lines A and B, by
    /// the proxy on the gap line.
    pub fn datagrams(&self, line: Line) -> &[ByteList]
        // Whatever verbs were done, they are those of their state.
        ensures datagrams { (unit : ℕ) (limits : LimitsSaid) (done : List VerbSaid)
            → WorldStands self.now unit limits done
            → bytes_in result.now ≡ datagrams_on (state_of unit limits done) line }
        // Each has the venue's messages, at their sequences.
        ensures pieces { (unit : ℕ) (limits : LimitsSaid) (done : List VerbSaid)
            → WorldStands self.now unit limits done → AllByRecursion
            (IsPiece (state_of unit limits done).venue.messages unit) (bytes_in result.now) }
    {
        let _unit = self.unit;
        datagrams_on(&self.sent, &self.replayed, line)
    }

    // Appends what `show` prints. After OutOfMemory some may have been appended.
    fn append_shown(&self, out: &mut Vec<u8>) -> Result<(), OutOfMemory>
        ensures shown { OnOk result ((s : State) → WorldHas self.now s
            → out.new.items ≡ out.old.items ++ shown_state self.now.unit self.now.limits s) }
        ensures behind { take (length out.old.items) out.new.items ≡ out.old.items }
    {
        let client = &self.client;
        append_book(self.alloc, self.unit, client.reach(), client.book(), out)?;
        let a = self.arbiter.counts(Line::A, self.unit);
        let b = self.arbiter.counts(Line::B, self.unit);
        let gap = self.arbiter.counts(Line::Gap, self.unit);
        append_counts(a, b, gap, out)
    }

    // Does a verb.
    fn act(&mut self, verb: &Verb) -> Result<Acted, OutOfMemory>
        requires verb { IsVerb verb.now }
        ensures { IfOk result (λ acted. (s : State) → WorldHas self.old s
            → Acts self.old self.new acted s (does self.old.unit self.old.limits verb.now s)) }
    {
        match verb {
            Verb::Command(command) => self.command(command),
            Verb::Setup { .. } => Ok(self.set_up()),
            Verb::Flush => self.flush(),
            Verb::Beat => self.beat(),
            Verb::Deliver { line, number } => self.deliver(*line, *number),
            Verb::Rest { line } => self.rest(*line),
            Verb::Tick => self.tick(),
            Verb::Show => Ok(calm(Outcome::Shown)),
            Verb::Quote { symbol } => Ok(calm(self.quote(*symbol))),
            Verb::Connect(session) => self.connect(*session),
            Verb::Cut(session) => Ok(self.cut(*session)),
            Verb::Up { session, bytes } => self.up(*session, *bytes),
            Verb::Down { session, bytes } => self.down(*session, *bytes),
            Verb::Advertise => self.advertise(),
        }
    }

    // The first line of a unit may set its limits.
    fn set_up(&self) -> Acted
        ensures { (s : State) → WorldHas self.now s → Acts self.now self.now result s (set_up s) }
    {
        if self.begun {
            calm(Outcome::AlreadyOpen)
        } else {
            calm(Outcome::Opened)
        }
    }

    // The venue is given a command.
    fn command(&mut self, command: &Command) -> Result<Acted, OutOfMemory>
        ensures { IfOk result (λ acted. (s : State) → WorldHas self.old s → Acts self.old self.new
            acted s (commanded self.old.unit self.old.limits command.now s)) }
    {
        match self.venue.accept(command) {
            Ok(sequence) => Ok(calm(Outcome::Accepted { sequence })),
            Err(error) => {
                if is_memory(&error) {
                    return Err(OutOfMemory);
                }
                Ok(calm(Outcome::Refused(error)))
            }
        }
    }

    // What is pending goes out on both lines.
    fn flush(&mut self) -> Result<Acted, OutOfMemory>
        ensures { IfOk result (λ acted. (s : State) → WorldHas self.old s → Acts self.old self.new
            acted s (sends self.old.unit self.old.limits Flushed s)) }
    {
        let mut datagrams = DatagramList::make(self.alloc);
        let count = self.venue.flush(&mut datagrams)?;
        append_copies(self.alloc, datagrams.as_slice(), &mut self.sent)?;
        Ok(calm(Outcome::Sent { datagrams: count }))
    }

    // A heartbeat goes out on both lines.
    fn beat(&mut self) -> Result<Acted, OutOfMemory>
        ensures { IfOk result (λ acted. (s : State) → WorldHas self.old s → Acts self.old self.new
            acted s (sends self.old.unit self.old.limits Beaten s)) }
    {
        let beat = self.venue.beat();
        self.sent.push(ByteList::of_bytes(self.alloc, &beat)?)?;
        Ok(calm(Outcome::Sent { datagrams: 1 }))
    }

    // The client hears a datagram of a line.
    fn deliver(&mut self, line: Line, number: u32) -> Result<Acted, OutOfMemory>
        requires { 1 ≤ number }
        ensures { IfOk result (λ acted. (s : State) → WorldHas self.old s → Acts
            self.old self.new acted s (delivered self.old.unit self.old.limits line number s)) }
    {
        let datagrams = datagrams_on(&self.sent, &self.replayed, line);
        let Some(datagram) = datagrams.get(number as usize - 1) else {
            return Ok(calm(Outcome::NoDatagram));
        };
        let overflow = hear_datagram(
            self.unit,
            line,
            &mut self.client,
            &mut self.arbiter,
            datagram.bytes(),
        )?;
        self.passed = self.passed.up_to(line, number as usize);
        Ok(Acted {
            outcome: Outcome::Heard { datagrams: 1 },
            overflow,
        })
    }

    // The client hears the datagrams of a line after the last of them that it got.
    fn rest(&mut self, line: Line) -> Result<Acted, OutOfMemory>
        ensures { IfOk result (λ acted. (s : State) → WorldHas self.old s → Acts
            self.old self.new acted s (rest_delivered self.old.unit self.old.limits line s)) }
    {
        let datagrams = datagrams_on(&self.sent, &self.replayed, line);
        let all = datagrams.len();
        let rest = datagrams_after(datagrams, self.passed.on(line));
        let count = rest.len() as u64;
        let overflow = hear_all(self.unit, line, &mut self.client, &mut self.arbiter, rest)?;
        self.passed = self.passed.up_to(line, all);
        Ok(Acted {
            outcome: Outcome::Heard { datagrams: count },
            overflow,
        })
    }

    // Whether a connection of a session stands.
    fn has_connection(&self, session: Session) -> bool
        ensures { (s : State) → WorldHas self.now s → result ≡ stands session s.client }
    {
        self.client.has(at_client(session))
    }

    // A new connection of a session, where none stands.
    fn open(&mut self, session: Session) -> Result<(), OutOfMemory>
        ensures { OnOk result ((s : State) → WorldHas self.old s
            → Passes self.old self.new s (opened self.old.unit self.old.limits session s)) }
    {
        venue::connect(&mut self.venue, session)?;
        self.client.connected(at_client(session))
    }

    // A session is to have a connection.
    fn connect(&mut self, session: Session) -> Result<Acted, OutOfMemory>
        ensures { IfOk result (λ acted. (s : State) → WorldHas self.old s → Acts self.old self.new
            acted s (connected self.old.unit self.old.limits session s)) }
    {
        if self.has_connection(session) {
            return Ok(calm(Outcome::AlreadyOpen));
        }
        self.open(session)?;
        Ok(calm(Outcome::Opened))
    }

    // The connection of a session is cut.
    fn cut(&mut self, session: Session) -> Acted
        ensures { (s : State) → WorldHas self.old s → Acts self.old self.new
            result s (cut self.old.unit self.old.limits session s) }
    {
        if self.has_connection(session) {
            venue::cut(&mut self.venue, session);
            self.client.cut(at_client(session));
            return calm(Outcome::Cut);
        }
        calm(Outcome::NotOpen)
    }

    // The connection of a session ends at the venue's end where it does not stand at the client's.
    fn settle(&mut self, session: Session)
        ensures { (s : State) → WorldHas self.old s → Passes self.old self.new s
            (settled self.old.unit self.old.limits session s) }
    {
        if !self.has_connection(session) {
            venue::cut(&mut self.venue, session);
        }
    }

    // Bytes are carried to the server of a session.
    fn up(&mut self, session: Session, bytes: Option<u32>) -> Result<Acted, OutOfMemory>
        ensures { IfOk result (λ acted. (s : State) → WorldHas self.old s → Acts
            self.old self.new acted s (up self.old.unit self.old.limits session bytes s)) }
    {
        if !self.has_connection(session) {
            return Ok(calm(Outcome::NotOpen));
        }
        let end = at_client(session);
        let waiting = self.client.waiting_bytes(end);
        match carry_count(bytes, waiting.len()) {
            Err(asked) => Ok(too_few(asked, waiting.len())),
            Ok(count) => {
                let piece = &waiting[..count];
                venue::feed(&mut self.venue, session, piece, &mut self.replayed)?;
                self.client.sent(end, count);
                Ok(carried(count))
            }
        }
    }

    // Bytes of a session's connection are carried to the client.
    fn down(&mut self, session: Session, bytes: Option<u32>) -> Result<Acted, OutOfMemory>
        ensures { IfOk result (λ acted. (s : State) → WorldHas self.old s → Acts
            self.old self.new acted s (down self.old.unit self.old.limits session bytes s)) }
    {
        if !self.has_connection(session) {
            return Ok(calm(Outcome::NotOpen));
        }
        let waiting = venue::waiting(&self.venue, session);
        match carry_count(bytes, waiting.len()) {
            Err(asked) => Ok(too_few(asked, waiting.len())),
            Ok(count) => {
                self.client.took(at_client(session), &waiting[..count])?;
                venue::put(&mut self.venue, session, count);
                self.settle(session);
                Ok(carried(count))
            }
        }
    }

    // The image of all messages is advertised, and the Spin Server is told.
    fn advertise(&mut self) -> Result<Acted, OutOfMemory>
        ensures { IfOk result (λ acted. (s : State) → WorldHas self.old s → Acts self.old self.new
            acted s (advertised self.old.unit self.old.limits s)) }
    {
        let sequence = self.venue.advertise()?;
        Ok(calm(Outcome::Advertised { sequence }))
    }

    // A second passes.
    fn tick(&mut self) -> Result<Acted, OutOfMemory>
        ensures { IfOk result (λ acted. (s : State) → WorldHas self.old s
            → Acts self.old self.new acted s (ticked self.old.unit self.old.limits s)) }
    {
        self.venue.second()?;
        let ask = self.client.second()?;
        self.settle(Session::Grp);
        self.settle(Session::Spin);
        Ok(calm(tick_outcome(ask)))
    }

    // The best prices of a symbol in the client's book.
    fn quote(&self, symbol: Symbol) -> Outcome
        ensures { (s : State) → WorldHas self.now s
            → result ≡ (quoted self.now.limits symbol s).outcome }
    {
        let _unit = self.unit;
        let book = self.client.book();
        Outcome::Quoted {
            bid: book.best(symbol, Side::Buy),
            offer: book.best(symbol, Side::Sell),
        }
    }
}

// What a verb did: its outcome, and whether the hold overflowed with what was heard.
#[derive(Clone, Copy)]
struct Acted {
    outcome: Outcome,
    overflow: bool,
}

// An outcome at which the hold did not overflow.
fn calm(outcome: Outcome) -> Acted
    ensures { result ≡ record { outcome = outcome; overflow = false } }
{
    Acted {
        outcome,
        overflow: false,
    }
}

// Fewer bytes wait than were asked for.
fn too_few(asked: u32, has: usize) -> Acted
    ensures { result ≡ record { outcome = outcome.TooFew asked has; overflow = false } }
{
    calm(Outcome::TooFew {
        asked,
        has: has as u64,
    })
}

// So many bytes were carried.
fn carried(count: usize) -> Acted
    ensures { result ≡ record { outcome = outcome.Carried count; overflow = false } }
{
    calm(Outcome::Carried {
        bytes: count as u64,
    })
}

// A refusal for want of memory.
fn is_memory(error: &VenueError) -> bool
    ensures { IsTrue result ↔ (error.now ≡ errors.OutOfMemory) }
{
    matches!(error, VenueError::OutOfMemory)
}

// The outcome of a tick at which the client asks so.
fn tick_outcome(ask: Option<Ask>) -> Outcome
    ensures { result ≡ tick_outcome ask }
{
    match ask {
        None => Outcome::Ticked,
        Some(ask) => Outcome::Asked(ask),
    }
}
