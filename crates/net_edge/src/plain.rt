//! The venue's end without a shared unit.

ghost use Rattle.net_edge.specs.layers.Ends.{IsPlain};

use crate::venue::Venue;
use pitch_fields::OutOfMemory;
use pitch_text::{Command, Session};
use unit_packets::DatagramList;
use venue_end::VenueEnd;
use world_model::venue;

#[tactic(auto, using(crate::proofs::Venues::plain_comes))]
impl Venue for VenueEnd {
    ghost is = { IsPlain };

    fn accepted_are_messages(&self) {}

    fn accept(&mut self, command: &Command) -> Result<(), OutOfMemory> {
        match self.accept(command) {
            Ok(_) => Ok(()),
            Err(_) => Err(OutOfMemory),
        }
    }

    fn flush(&mut self, lines: &mut DatagramList) -> Result<(), OutOfMemory> {
        self.flush(lines)?;
        Ok(())
    }

    fn beat(&self) -> [u8; 8] {
        self.beat()
    }

    fn advertise(&mut self) -> Result<(), OutOfMemory> {
        self.advertise()?;
        Ok(())
    }

    fn second(&mut self) -> Result<(), OutOfMemory> {
        self.second()
    }

    fn connect(&mut self, session: Session) -> Result<(), OutOfMemory> {
        venue::connect(self, session)
    }

    fn take(
        &mut self,
        session: Session,
        piece: &[u8],
        gap_line: &mut DatagramList,
    ) -> Result<(), OutOfMemory> {
        venue::take(self, session, piece, gap_line)
    }

    fn send_whole(&mut self) -> Result<(), OutOfMemory> {
        venue::send_whole(self)
    }

    fn waiting(&self, session: Session) -> &[u8] {
        venue::waiting(self, session)
    }

    fn put(&mut self, session: Session, count: usize) {
        venue::put(self, session, count)
    }

    fn cut(&mut self, session: Session) {
        venue::cut(self, session)
    }
}
