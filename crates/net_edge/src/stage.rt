//! The two ends of the demo's unit, without a net.

ghost use Rattle.std.specs.Prelude.{◌≡◌, ◌||◌, [], ◌∷◌, OnOk, IfOk, if◌then◌else◌};
ghost use Rattle.pitch_io.specs.layers.Coming.{CameWithin, came};
ghost use Rattle.pitch_model.specs.Book.{book_after};
ghost use Rattle.pitch_model.specs.Honest.{Honest};
ghost use Rattle.pitch_model.specs.Image.{image};
ghost use Rattle.pitch_model.specs.Reach.{reach};
ghost use Rattle.pitch_model.specs.Status.{status_of};
ghost use Rattle.sending_end.specs.Waiting.{of_unit};
ghost use Rattle.std.specs.Prelude.{take};
ghost use Rattle.unit_packets.specs.Cutting.{blocks_of};
ghost use Rattle.unit_packets.specs.Packing.{bytes_in};
ghost use Rattle.venue_end.specs.Came.{Beaten, Flushed, nothing_came, on_lines};
ghost use Rattle.world_model.specs.Ends.{default_limits};
ghost use Rattle.world_model.specs.State.{State};
ghost use Rattle.world_model.specs.Verbs.{hears, opened, settled, ends};
ghost use Rattle.pitch_io.specs.declared.line.Line.{Line};
ghost use Rattle.pitch_text.specs.declared.verb.Session.TheVariants.{Grp, Spin};
ghost use Rattle.pitch_text.specs.declared.verb.Verb.TheVariants as verbs;
ghost use Rattle.net_edge.specs.Acting.{all_tick, link_takes, put_at, server_takes, takes};
ghost use Rattle.net_edge.specs.Due.{demo_unit, hold_limit};
ghost use Rattle.net_edge.specs.Scene.{connected, done_with, got_end, is_client, is_cut};
ghost use Rattle.net_edge.specs.Scene.{session_at, waits_at};
ghost use Rattle.net_edge.specs.layers.Ends.{AreMessages, Becomes, HandsOut, Holds, Replays};
ghost use Rattle.net_edge.specs.layers.Ends.{and_end, demo_venue, has_end, no_ends};

use crate::end_set::EndSet;
use crate::venue::Venue;
use client_core::honest_histories_are_of_venues;
use order_book::UnitBook;
use pitch_fields::OutOfMemory;
use pitch_io::{LinkEnd, NetTaken};
use pitch_model::Status;
use pitch_text::{Command, Session};
use sending_end::SendingEnd;
use std::alloc::Global;
use unit_packets::DatagramList;
use world_model::default_limits;
use world_model::ends::{at_client, client_end};

/// The venue's end and the client's, and which ends of their connections got End.
#[derive(Drop)]
pub(crate) struct Stage<V> {
    pub(crate) alloc: Global,
    venue: V,
    client: SendingEnd,
    ended: EndSet,
}

impl<V: Venue> Stage<V> {
    /// Both connections are open, at a venue's end to which nothing came yet. What can't be used at
    /// an error is dropped by a call: a function that drops it itself takes a minute to prove.
    pub(crate) fn make(alloc: Global, venue: V) -> Result<Stage<V>, OutOfMemory>
        requires { V.is venue nothing_came }
        ensures holds { IfOk result (λ stage. Holds V.is stage connected) }
        ensures ended { IfOk result (λ stage. stage.ended ≡ no_ends) }
    {
        let client = match client_end(alloc, 1, default_limits()) {
            Ok(client) => client,
            Err(error) => {
                drop(venue);
                return Err(error);
            }
        };
        let mut stage = Stage {
            alloc,
            venue,
            client,
            ended: EndSet::none(),
        };
        match stage.open_both() {
            Ok(()) => Ok(stage),
            Err(error) => {
                drop(stage);
                Err(error)
            }
        }
    }

    // Both connections are made.
    fn open_both(&mut self) -> Result<(), OutOfMemory>
        ensures { OnOk result (Becomes V.is self.old self.new
            (λ w. opened demo_unit default_limits Spin (opened demo_unit default_limits Grp w))) }
    {
        self.open(Session::Grp)?;
        self.open(Session::Spin)
    }

    // A connection of a session is made.
    fn open(&mut self, session: Session) -> Result<(), OutOfMemory>
        ensures { OnOk result
            (Becomes V.is self.old self.new (opened demo_unit default_limits session)) }
    {
        self.venue.connect(session)?;
        self.client.connected(at_client(session))
    }

    // ---- The venue

    /// A command of the venue comes, and its datagrams are appended, for lines A and B alike.
    pub(crate) fn publish(
        &mut self,
        command: &Command,
        lines: &mut DatagramList,
    ) -> Result<(), OutOfMemory>
        ensures becomes { OnOk result (Becomes V.is self.old self.new
            (λ w. done_with verbs.Flush (done_with (verbs.Command command.now) w))) }
        ensures lines { OnOk result ((w : State) → Holds V.is self.old w
            → HandsOut (done_with (verbs.Command command.now) w).venue
            (bytes_in lines.old.items) (bytes_in lines.new.items)
            (on_lines demo_venue Flushed (done_with (verbs.Command command.now) w).venue)) }
    {
        self.venue.accept(command)?;
        self.venue.flush(lines)
    }

    /// What the venue accepted are messages, and no more than there are sequences.
    pub(crate) fn accepted_are_messages(&self)
        ensures { (w : State) → Holds V.is self.now w → AreMessages w.venue.messages }
    {
        self.venue.accepted_are_messages();
    }

    /// The heartbeat, for lines A and B alike.
    pub(crate) fn heartbeat(&self) -> [u8; 8]
        ensures { (w : State) → Holds V.is self.now w
            → HandsOut w.venue [] (result ∷ []) (on_lines demo_venue Beaten w.venue) }
    {
        self.venue.beat()
    }

    /// The image of all messages is advertised, and a second passes.
    pub(crate) fn tick(&mut self) -> Result<(), OutOfMemory>
        ensures { OnOk result (Becomes V.is self.old self.new all_tick) }
    {
        self.venue.advertise()?;
        self.venue.second()?;
        self.client.second()?;
        self.settle(Session::Grp);
        self.settle(Session::Spin);
        Ok(())
    }

    // The connection of a session ends at the venue's end where it does not stand at the client's.
    fn settle(&mut self, session: Session)
        ensures { Becomes V.is self.old self.new (settled demo_unit default_limits session) }
    {
        if !self.client.has(at_client(session)) {
            self.venue.cut(session);
        }
    }

    // ---- The lines

    /// The client hears a datagram of a line.
    pub(crate) fn hear_datagram(&mut self, datagram: &[u8]) -> Result<(), OutOfMemory>
        ensures { OnOk result ((line : Line) → Becomes V.is self.old self.new
            (hears demo_unit default_limits line (of_unit demo_unit (blocks_of datagram.now)))) }
    {
        self.client.hear_datagram(datagram)?;
        Ok(())
    }

    // ---- The ends of the connections

    /// What an end said and was not put yet.
    pub(crate) fn waiting(&self, at: LinkEnd) -> &[u8]
        ensures { (w : State) → Holds V.is self.now w → result.now ≡ waits_at at w }
    {
        let session = session_at(at);
        if is_client(at) {
            self.client.waiting_bytes(at_client(session))
        } else {
            self.venue.waiting(session)
        }
    }

    /// So many bytes of that were put.
    pub(crate) fn put(&mut self, at: LinkEnd, count: usize)
        ensures { Becomes V.is self.old self.new (put_at at count) }
    {
        let session = session_at(at);
        if is_client(at) {
            self.client.sent(at_client(session), count);
        } else {
            self.venue.put(session, count);
        }
    }

    /// Whether an end is asked no more: it got End, or its connection was cut.
    pub(crate) fn is_done(&self, at: LinkEnd) -> bool
        ensures { (w : State) → Holds V.is self.now w
            → result ≡ (has_end at self.now.ended || is_cut at w) }
    {
        self.ended.has(at) || !self.client.has(at_client(session_at(at)))
    }

    // What a call of `take` brings to the server of a session. Where no further calls come in this
    // turn, the Spin Server sends a running image to its end.
    fn serve(
        &mut self,
        session: Session,
        taken: NetTaken,
        into: &[u8],
        goes_on: bool,
        gap_line: &mut DatagramList,
    ) -> Result<(), OutOfMemory>
        requires { CameWithin taken into.now }
        ensures becomes { OnOk result (Becomes V.is self.old self.new
            (server_takes session (came taken into.now) taken goes_on)) }
        ensures replays { OnOk result ((w : State) → Holds V.is self.old w
            → Replays w (server_takes session (came taken into.now) taken goes_on w)
            (bytes_in gap_line.old.items) (bytes_in gap_line.new.items)) }
    {
        if let NetTaken::Got(count) = taken {
            self.venue.take(session, &into[..count], gap_line)?;
        }
        match session {
            Session::Grp => Ok(()),
            Session::Spin => {
                if goes_on {
                    return Ok(());
                }
                self.venue.send_whole()
            }
        }
    }

    // What it brings to the client's end of a session.
    fn hear(&mut self, session: Session, taken: NetTaken, into: &[u8]) -> Result<(), OutOfMemory>
        requires { CameWithin taken into.now }
        ensures { OnOk result (Becomes V.is self.old self.new
            (link_takes session (came taken into.now) taken)) }
    {
        let end = at_client(session);
        match taken {
            NetTaken::Got(count) => {
                self.client.took(end, &into[..count])?;
                self.settle(session);
            }
            NetTaken::End => {
                self.venue.cut(session);
                self.client.cut(end);
            }
            NetTaken::Quiet | NetTaken::Failed => {}
        }
        Ok(())
    }

    // Where an end got End, that is noted.
    fn note_end(&mut self, at: LinkEnd, taken: NetTaken)
        ensures holds { (w : State) → Holds V.is self.old w → Holds V.is self.new w }
        ensures ended { self.new.ended
            ≡ (if got_end taken then and_end at self.old.ended else self.old.ended) }
    {
        if let NetTaken::End = taken {
            self.ended = self.ended.with(at);
        }
    }

    /// What a call of `take` brings to an end, behind which further calls come in this turn or
    /// none. Answers what the proxy accepts, for the gap line.
    pub(crate) fn take(
        &mut self,
        at: LinkEnd,
        taken: NetTaken,
        into: &[u8],
        goes_on: bool,
    ) -> Result<DatagramList, OutOfMemory>
        requires { CameWithin taken into.now }
        ensures holds { OnOk result ((w : State) → Holds V.is self.old w
            → Holds V.is self.new (takes at (came taken into.now) taken goes_on w)) }
        ensures ended { OnOk result (self.new.ended
            ≡ (if got_end taken then and_end at self.old.ended else self.old.ended)) }
        ensures replays { IfOk result (λ list. (w : State) → Holds V.is self.old w
            → Replays w (takes at (came taken into.now) taken goes_on w) [] (bytes_in list.items)) }
    {
        let session = session_at(at);
        self.note_end(at, taken);
        let mut gap_line = DatagramList::make(self.alloc);
        if is_client(at) {
            self.hear(session, taken, into)?;
            return Ok(gap_line);
        }
        self.serve(session, taken, into, goes_on, &mut gap_line)?;
        Ok(gap_line)
    }

    // ---- The client

    /// How far the client is.
    pub(crate) fn status(&self) -> Status
        ensures { (w : State) → Holds V.is self.now w
            → result ≡ status_of hold_limit w.client.heard }
    {
        self.client.status()
    }

    /// The client's book. Where the client was told the truth of what the venue accepted, it is the
    /// one that the messages up to its reach leave.
    pub(crate) fn book(&self) -> &UnitBook
        ensures { (w : State) → Holds V.is self.now w → Honest image w.venue.messages w.client.heard
            → result.now.book
            ≡ book_after (take (reach hold_limit w.client.heard) w.venue.messages) }
    {
        self.venue.accepted_are_messages();
        honest_histories_are_of_venues();
        self.client.book()
    }
}

// The session of an end.
fn session_at(at: LinkEnd) -> Session
    ensures { result ≡ session_at at }
{
    match at {
        LinkEnd::GrpClient | LinkEnd::GrpServer => Session::Grp,
        LinkEnd::SpinClient | LinkEnd::SpinServer => Session::Spin,
    }
}

// Whether it is the client's end of it.
fn is_client(at: LinkEnd) -> bool
    ensures { result ≡ is_client at }
{
    matches!(at, LinkEnd::GrpClient | LinkEnd::SpinClient)
}
