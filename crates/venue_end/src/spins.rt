//! The sessions with the Spin Server.

ghost use Rattle.std.specs.Prelude.{◌≡◌, ◌<◌, ◌∷◌, ℕ, List, OnOk, OnErr, IfOk, true};
ghost use Rattle.session_ends.specs.Events.{Pumped, Told};
ghost use Rattle.spin_server.specs.Served.{Served};
ghost use Rattle.spin_server.specs.Serving.{blocks_left, runs};
ghost use Rattle.venue_end.specs.Servers.{spin_setup, spin_says};
ghost use Rattle.venue_end.specs.Sessions.{Session, happens_at, happens_at_all};
ghost use Rattle.venue_end.specs.Stands.{IsSpinServer, PlaceIs, TableIs};
ghost use Rattle.venue_end.specs.declared.setup.VenueSetup.{VenueSetup};

use crate::table::{Place, Server, SessionTable};
use pitch_fields::OutOfMemory;
use session_ends::Closed;
use spin_server::SpinServer;

impl Server for SpinServer {
    ghost Seen = { List Served };

    ghost setup = { spin_setup };

    ghost stands = { IsSpinServer };

    ghost says = { spin_says };

    fn cause(&self) -> Option<Closed> {
        self.closed()
    }

    fn pass_second(&mut self, said: &mut Vec<u8>) -> Result<(), OutOfMemory> {
        self.tick(said)?;
        Ok(())
    }
}

impl Place<SpinServer> {
    /// It is asked for the next block of its image, and answers whether it still sends one.
    pub(crate) fn pump(&mut self) -> Result<bool, OutOfMemory>
        ensures pumps { OnOk result ((s : VenueSetup) (session : Session (List Served))
            → PlaceIs IsSpinServer s self.old session
            → PlaceIs IsSpinServer s self.new (happens_at (spin_says s) Pumped session)) }
        ensures more { IfOk result (λ more. (s : VenueSetup) (session : Session (List Served))
            → PlaceIs IsSpinServer s self.old session
            → more ≡ runs (spin_setup s) (Pumped ∷ session.happened)) }
        ensures fewer { IfOk result (λ more. more ≡ true
            → blocks_left self.new.server.spin < blocks_left self.old.server.spin) }
        ensures same_id { self.new.id ≡ self.old.id }
        ensures err { OnErr result ((s : VenueSetup) (session : Session (List Served))
            → PlaceIs IsSpinServer s self.old session → PlaceIs IsSpinServer s self.new session) }
    {
        self.server.pump(&mut self.said)
    }

    // It is told of a sequence that was advertised.
    fn tell(&mut self, sequence: u32) -> Result<(), OutOfMemory>
        ensures { OnOk result ((s : VenueSetup) (session : Session (List Served))
            → PlaceIs IsSpinServer s self.old session → PlaceIs IsSpinServer s self.new
            (happens_at (spin_says s) (Told sequence) session)) }
    {
        self.server.tell(sequence, &mut self.said)
    }
}

impl SessionTable<SpinServer> {
    /// Every server is told of a sequence that was advertised.
    pub(crate) fn tell_all(&mut self, sequence: u32) -> Result<(), OutOfMemory>
        ensures { OnOk result ((s : VenueSetup) (sessions : List (Session (List Served)))
            → TableIs IsSpinServer s self.old sessions → TableIs IsSpinServer s self.new
            (happens_at_all (spin_says s) (Told sequence) sessions)) }
    {
        for place in self.places.iter_mut() {
            place.tell(sequence)?;
        }
        Ok(())
    }
}
