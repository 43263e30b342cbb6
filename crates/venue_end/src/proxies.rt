//! The proxy's end of a session.

ghost use Rattle.grp_session.specs.Serving.{Source};
ghost use Rattle.venue_end.specs.Servers.{proxy_setup, proxy_says};
ghost use Rattle.venue_end.specs.Stands.{IsProxy};

use crate::table::Server;
use grp_session::GrpServer;
use pitch_fields::OutOfMemory;
use session_ends::Closed;

impl Server for GrpServer {
    ghost Seen = { Source };

    ghost setup = { proxy_setup };

    ghost stands = { IsProxy };

    ghost says = { proxy_says };

    fn cause(&self) -> Option<Closed> {
        self.closed()
    }

    fn pass_second(&mut self, said: &mut Vec<u8>) -> Result<(), OutOfMemory> {
        self.tick(said)?;
        Ok(())
    }
}
