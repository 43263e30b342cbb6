//! A turn: what the two ends do over a net.

ghost use Rattle.std.specs.Prelude.{◌≡◌, ◌≤◌, ◌-◌, [], List, OnOk, IfErr, IfOk, Option, length};
ghost use Rattle.std.specs.Prelude.{◌&&◌, Bool};
ghost use Rattle.pitch_io.specs.Nets.{Call};
ghost use Rattle.world_model.specs.State.{State};
ghost use Rattle.net_edge.specs.Acting.{put_at};
ghost use Rattle.net_edge.specs.Breaking.{Breaks};
ghost use Rattle.unit_packets.specs.Packing.{bytes_in};
ghost use Rattle.net_edge.specs.Due.{AreDuePieces, Setting, call_room, new_datagrams, setting};
ghost use Rattle.net_edge.specs.Scene.{Scene, is_got, published, waits_at};
ghost use Rattle.net_edge.specs.declared.turn.Place.TheVariants.{Line as TheLine, End as TheEnd};
ghost use Rattle.net_edge.specs.layers.Ends.{Becomes, Holds};
ghost use Rattle.net_edge.specs.layers.Playing.{AsksAll, AsksOnce, DemoAt, IsAllSent, MayAsk};
ghost use Rattle.net_edge.specs.layers.Playing.{NetCounts, Plays, StageAt, TurnBegins, TurnEnds};
ghost use Rattle.net_edge.specs.layers.Playing.{TurnGoes, after_due_beat, all_put, all_put_at};
ghost use Rattle.net_edge.specs.layers.Playing.{answers_of, is_place_done};

use crate::error::DemoError;
use crate::putting::{put_whole, send, send_all, send_unless};
use crate::stage::Stage;
use crate::venue::Venue;
use pitch_fields::OutOfMemory;
use pitch_io::{Line, LinkEnd, Net, NetDone, NetTaken};
use unit_packets::DatagramList;
use venue_core::{lost, plan_command};

/// What is asked in a turn.
#[derive(Clone, Copy)]
pub(crate) enum Place {
    Line(Line),
    End(LinkEnd),
}

// They are asked in this order: both servers, the lines, and the client's ends.
const PLACES: [Place; 7] = [
    Place::End(LinkEnd::GrpServer),
    Place::End(LinkEnd::SpinServer),
    Place::Line(Line::A),
    Place::Line(Line::B),
    Place::Line(Line::Gap),
    Place::End(LinkEnd::GrpClient),
    Place::End(LinkEnd::SpinClient),
];

// How often a place is asked in a turn, while something comes.
const MOST_CALLS: u32 = 100;

impl<V: Venue> Stage<V> {
    /// All that waits at an end is put.
    pub(crate) fn put_waiting<N: Net>(&mut self, net: &mut N, at: LinkEnd) -> Result<(), DemoError>
        ensures becomes { OnOk result (Becomes V.is self.old self.new
            (λ w. put_at at (length (waits_at at w)) w)) }
        ensures plays { OnOk result ((s : Setting) (base : List Call) (now : Scene) (w : State)
            → Holds V.is self.old w → waits_at at w ≡ waits_at at now.world
            → Plays s base (N.calls net.old) now
            → Plays s base (N.calls net.new) (all_put_at at now)) }
        ensures broke { IfErr result (λ error. (s : Setting) (base : List Call) (now : Scene)
            (w : State) → Holds V.is self.old w → waits_at at w ≡ waits_at at now.world
            → Plays s base (N.calls net.old) now → Breaks s base (N.calls net.new) error) }
        ensures faults { NetCounts result (N.faults net.old) (N.faults net.new) }
    {
        let bytes = self.waiting(at);
        let count = bytes.len();
        put_whole(net, at, bytes)?;
        self.put(at, count);
        Ok(())
    }

    // All that waits at any end is put.
    fn put_all<N: Net>(&mut self, net: &mut N) -> Result<(), DemoError>
        ensures put { OnOk result ((s : Setting) (base : List Call) (now : Scene)
            → StageAt V.is s base (N.calls net.old) self.old now
            → StageAt V.is s base (N.calls net.new) self.new (all_put now)) }
        ensures broke { IfErr result (λ error. (s : Setting) (base : List Call) (now : Scene)
            → StageAt V.is s base (N.calls net.old) self.old now
            → Breaks s base (N.calls net.new) error) }
        ensures faults { NetCounts result (N.faults net.old) (N.faults net.new) }
    {
        self.put_waiting(net, LinkEnd::GrpServer)?;
        self.put_waiting(net, LinkEnd::SpinServer)?;
        self.put_waiting(net, LinkEnd::GrpClient)?;
        self.put_waiting(net, LinkEnd::SpinClient)?;
        Ok(())
    }

    // ---- What the venue does in a turn

    // In every tenth turn its heartbeat is sent, and a second passes.
    fn beat_if_tenth<N: Net>(&mut self, net: &mut N, turn: u32) -> Result<(), DemoError>
        requires { 1 ≤ turn }
        ensures beaten { OnOk result ((s : Setting) (base : List Call) (now : Scene)
            → DemoAt V.is s base (N.calls net.old) self.old now → now.turn ≡ turn
            → DemoAt V.is s base (N.calls net.new) self.new (after_due_beat s now)) }
        ensures broke { IfErr result (λ error. (s : Setting) (base : List Call) (now : Scene)
            → DemoAt V.is s base (N.calls net.old) self.old now → now.turn ≡ turn
            → Breaks s base (N.calls net.new) error) }
        ensures faults { NetCounts result (N.faults net.old) (N.faults net.new) }
    {
        if turn % 10 != 0 {
            return Ok(());
        }
        let heartbeat = self.heartbeat();
        send(net, Line::A, &heartbeat)?;
        // Not by `send`: this call is the run's step with which all ends tick.
        match net.send(Line::B, &heartbeat) {
            NetDone::Done => {}
            NetDone::Failed => return Err(DemoError::NetFault),
        }
        self.tick()?;
        self.put_all(net)
    }

    // The next command of the plan is accepted, until all were. Answers the datagrams of its
    // message.
    fn accept_next(
        &mut self,
        number: u64,
        count: u32,
        turn: u32,
    ) -> Result<DatagramList, OutOfMemory>
        requires some { 1 ≤ turn }
        requires few { count ≤ 1000 }
        ensures becomes { OnOk result
            (Becomes V.is self.old self.new (published (setting number count) turn)) }
        ensures datagrams { IfOk result (λ list. (w : State) → Holds V.is self.old w
            → IsAllSent (setting number count) (turn - 1) w
            → (bytes_in list.items ≡ new_datagrams (setting number count) turn)
            × AreDuePieces (setting number count) turn (bytes_in list.items)) }
    {
        let mut datagrams = DatagramList::make(self.alloc);
        if turn > count {
            return Ok(datagrams);
        }
        self.publish(&plan_command(number, 1, turn), &mut datagrams)?;
        Ok(datagrams)
    }

    // A message of the plan is accepted and sent, and every tenth turn has a heartbeat and a
    // second.
    fn open_turn<N: Net>(
        &mut self,
        net: &mut N,
        number: u64,
        count: u32,
        turn: u32,
    ) -> Result<(), DemoError>
        requires some { 1 ≤ turn }
        requires few { count ≤ 1000 }
        ensures opened { OnOk result ((base : List Call) (now : Scene)
            → TurnBegins V.is (setting number count) base (N.calls net.old) self.old turn now
            → TurnGoes V.is (setting number count) base (N.calls net.new) self.new turn) }
        ensures broke { IfErr result (λ error. (base : List Call) (now : Scene)
            → TurnBegins V.is (setting number count) base (N.calls net.old) self.old turn now
            → Breaks (setting number count) base (N.calls net.new) error) }
        ensures faults { NetCounts result (N.faults net.old) (N.faults net.new) }
    {
        let datagrams = self.accept_next(number, count, turn)?;
        let lost_on_a = lost(number, 1, turn, 1);
        send_unless(net, lost_on_a, Line::A, datagrams.as_slice())?;
        let lost_on_b = lost(number, 1, turn, 2);
        send_unless(net, lost_on_b, Line::B, datagrams.as_slice())?;
        self.beat_if_tenth(net, turn)
    }

    // ---- What comes in a turn

    // One call of `take` at an end, behind which further calls may come in this turn or none. What
    // is said to what comes is put and sent.
    fn take_once<N: Net>(
        &mut self,
        net: &mut N,
        at: LinkEnd,
        into: &mut [u8],
        more: bool,
    ) -> Result<NetTaken, DemoError>
        requires { length into.old ≡ call_room }
        ensures asked { IfOk result (λ answer. (s : Setting) (base : List Call) (now : Scene)
            → DemoAt V.is s base (N.calls net.old) self.old now → MayAsk (TheEnd at) more now
            → AsksOnce V.is s base (N.calls net.new) self.new (TheEnd at) answer now) }
        ensures broke { IfErr result (λ error. (s : Setting) (base : List Call) (now : Scene)
            → DemoAt V.is s base (N.calls net.old) self.old now → MayAsk (TheEnd at) more now
            → Breaks s base (N.calls net.new) error) }
        ensures faults { NetCounts result (N.faults net.old) (N.faults net.new) }
    {
        let taken = net.take(at, into);
        if let NetTaken::Failed = taken {
            return Err(DemoError::NetFault);
        }
        let gap_line = self.take(at, taken, into, goes_on(taken, more))?;
        self.put_waiting(net, at)?;
        send_all(net, Line::Gap, gap_line.as_slice())?;
        Ok(taken)
    }

    // One call of `next` on a line; the client hears what came.
    fn hear_once<N: Net>(
        &mut self,
        net: &mut N,
        line: Line,
        into: &mut [u8],
    ) -> Result<NetTaken, DemoError>
        requires { length into.old ≡ call_room }
        ensures asked { IfOk result (λ answer.
            (s : Setting) (base : List Call) (now : Scene) (more : Bool)
            → DemoAt V.is s base (N.calls net.old) self.old now → MayAsk (TheLine line) more now
            → AsksOnce V.is s base (N.calls net.new) self.new (TheLine line) answer now) }
        ensures broke { IfErr result (λ error.
            (s : Setting) (base : List Call) (now : Scene) (more : Bool)
            → DemoAt V.is s base (N.calls net.old) self.old now → MayAsk (TheLine line) more now
            → Breaks s base (N.calls net.new) error) }
        ensures faults { NetCounts result (N.faults net.old) (N.faults net.new) }
    {
        let answer = net.next(line, into);
        match answer {
            NetTaken::Got(count) => {
                self.hear_datagram(&into[..count])?;
                Ok(answer)
            }
            NetTaken::Quiet | NetTaken::End => Ok(answer),
            NetTaken::Failed => Err(DemoError::NetFault),
        }
    }

    // One call at a place.
    fn ask_once<N: Net>(
        &mut self,
        net: &mut N,
        place: Place,
        into: &mut [u8],
        more: bool,
    ) -> Result<NetTaken, DemoError>
        requires { length into.old ≡ call_room }
        ensures asked { IfOk result (λ answer. (s : Setting) (base : List Call) (now : Scene)
            → DemoAt V.is s base (N.calls net.old) self.old now → MayAsk place more now
            → AsksOnce V.is s base (N.calls net.new) self.new place answer now) }
        ensures broke { IfErr result (λ error. (s : Setting) (base : List Call) (now : Scene)
            → DemoAt V.is s base (N.calls net.old) self.old now → MayAsk place more now
            → Breaks s base (N.calls net.new) error) }
        ensures faults { NetCounts result (N.faults net.old) (N.faults net.new) }
    {
        match place {
            Place::Line(line) => self.hear_once(net, line, into),
            Place::End(at) => self.take_once(net, at, into, more),
        }
    }

    // Whether a place is asked no more.
    fn is_place_done(&self, place: Place) -> bool
        ensures { (s : Setting) (base : List Call) (calls : Option (List Call)) (now : Scene)
            → StageAt V.is s base calls self.now now → result ≡ is_place_done place now }
    {
        match place {
            Place::Line(_) => false,
            Place::End(at) => self.is_done(at),
        }
    }

    // A turn's calls at a place.
    fn ask<N: Net>(&mut self, net: &mut N, place: Place, into: &mut [u8]) -> Result<(), DemoError>
        requires { length into.old ≡ call_room }
        ensures asked { OnOk result ((s : Setting) (base : List Call) (now : Scene)
            → DemoAt V.is s base (N.calls net.old) self.old now → answers_of place now ≡ []
            → AsksAll V.is s base (N.calls net.new) self.new place now) }
        ensures broke { IfErr result (λ error. (s : Setting) (base : List Call) (now : Scene)
            → DemoAt V.is s base (N.calls net.old) self.old now → answers_of place now ≡ []
            → Breaks s base (N.calls net.new) error) }
        ensures faults { NetCounts result (N.faults net.old) (N.faults net.new) }
    {
        'calls: for index in 0..MOST_CALLS {
            if self.is_place_done(place) {
                return Ok(());
            }
            match self.ask_once(net, place, into, index != MOST_CALLS - 1)? {
                NetTaken::Got(_) => {}
                NetTaken::Quiet | NetTaken::End | NetTaken::Failed => return Ok(()),
            }
        }
        Ok(())
    }

    /// One turn: what the venue does, and then what comes at each place.
    pub(crate) fn turn<N: Net>(
        &mut self,
        net: &mut N,
        number: u64,
        count: u32,
        turn: u32,
        into: &mut [u8],
    ) -> Result<(), DemoError>
        requires some { 1 ≤ turn }
        requires few { count ≤ 1000 }
        requires room { length into.old ≡ call_room }
        ensures over { OnOk result ((base : List Call) (now : Scene)
            → TurnBegins V.is (setting number count) base (N.calls net.old) self.old turn now
            → TurnEnds V.is (setting number count) base (N.calls net.new) self.new turn) }
        ensures broke { IfErr result (λ error. (base : List Call) (now : Scene)
            → TurnBegins V.is (setting number count) base (N.calls net.old) self.old turn now
            → Breaks (setting number count) base (N.calls net.new) error) }
        ensures faults { NetCounts result (N.faults net.old) (N.faults net.new) }
    {
        self.open_turn(net, number, count, turn)?;
        'places: for place in PLACES {
            self.ask(net, place, into)?;
        }
        Ok(())
    }
}

// Whether further calls come behind one with this answer, where more may come.
fn goes_on(answer: NetTaken, more: bool) -> bool
    ensures { result ≡ (is_got answer && more) }
{
    matches!(answer, NetTaken::Got(_)) && more
}
