//! The venue's end of the demo's unit, whatever its servers answer from.

ghost use Rattle.std.specs.Prelude.{◌≡◌, [], ◌∷◌, OnOk};
ghost use Rattle.unit_packets.specs.Packing.{bytes_in};
ghost use Rattle.venue_end.specs.Came.{VenueState, Commanded, Flushed, Beaten, Advertised, Second};
ghost use Rattle.venue_end.specs.Came.{on_gap_line, on_lines};
ghost use Rattle.world_model.specs.Ends.{default_limits, server_cut, server_made, server_put};
ghost use Rattle.world_model.specs.Ends.{server_took, server_waits};
ghost use Rattle.world_model.specs.State.{State};
ghost use Rattle.world_model.specs.Verbs.{sent_whole};
ghost use Rattle.net_edge.specs.Due.{demo_unit};
ghost use Rattle.net_edge.specs.layers.Ends.{AreMessages, HandsOut, HasCome, demo_venue};

use pitch_fields::OutOfMemory;
use pitch_text::{Command, Session};
use unit_packets::DatagramList;

/// The venue's end of the demo's unit, each of whose servers has one session at most.
pub(crate) trait Venue: Drop {
    /// It stands for this.
    ghost is: { Self → VenueState → Type 0 };

    /// What was accepted are messages, and no more than there are sequences.
    fn accepted_are_messages(&self)
        ensures { (now : VenueState) → is self.now now → AreMessages now.messages };

    /// A command comes, and its message is accepted. Where it is refused the answer is an error.
    fn accept(&mut self, command: &Command) -> Result<(), OutOfMemory>
        ensures { OnOk result (HasCome is self.old self.new (Commanded command.now)) };

    /// What was accepted and not sent yet is appended, for lines A and B alike.
    fn flush(&mut self, lines: &mut DatagramList) -> Result<(), OutOfMemory>
        ensures comes { OnOk result (HasCome is self.old self.new Flushed) }
        ensures lines { OnOk result ((now : VenueState) → is self.old now
            → HandsOut now (bytes_in lines.old.items) (bytes_in lines.new.items)
            (on_lines demo_venue Flushed now)) };

    /// The heartbeat, for lines A and B alike.
    fn beat(&self) -> [u8; 8]
        ensures { (now : VenueState) → is self.now now
            → HandsOut now [] (result ∷ []) (on_lines demo_venue Beaten now) };

    /// The image of all messages is advertised.
    fn advertise(&mut self) -> Result<(), OutOfMemory>
        ensures { OnOk result (HasCome is self.old self.new Advertised) };

    /// A second passes.
    fn second(&mut self) -> Result<(), OutOfMemory>
        ensures { OnOk result (HasCome is self.old self.new Second) };

    /// A connection of a session was made.
    fn connect(&mut self, session: Session) -> Result<(), OutOfMemory>
        ensures { OnOk result (HasCome is self.old self.new (server_made session)) };

    /// Bytes came to the server of a session. What the proxy accepts is appended for the gap line.
    fn take(
        &mut self,
        session: Session,
        piece: &[u8],
        gap_line: &mut DatagramList,
    ) -> Result<(), OutOfMemory>
        ensures comes { OnOk result (HasCome is self.old self.new (server_took session piece.now)) }
        ensures lines { OnOk result ((now : VenueState) → is self.old now
            → HandsOut now (bytes_in gap_line.old.items) (bytes_in gap_line.new.items)
            (on_gap_line demo_venue (server_took session piece.now) now)) };

    /// The Spin Server is asked for the blocks of its image until it sends none.
    fn send_whole(&mut self) -> Result<(), OutOfMemory>
        ensures { OnOk result ((w : State) → is self.old w.venue
            → is self.new (sent_whole demo_unit default_limits w).venue) };

    /// What the server of a session said and was not put yet.
    fn waiting(&self, session: Session) -> &[u8]
        ensures { (now : VenueState) → is self.now now → result.now ≡ server_waits session now };

    /// So many bytes of that were put.
    fn put(&mut self, session: Session, count: usize)
        ensures { HasCome is self.old self.new (server_put session count) };

    /// The connection of a session has ended.
    fn cut(&mut self, session: Session)
        ensures { HasCome is self.old self.new (server_cut session) };
}
