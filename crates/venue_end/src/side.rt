//! What the servers of a unit answer from: a market, or whatever else has a journal.

ghost use Rattle.std.specs.Prelude.{◌≡◌, List, OnOk, OnErr};
ghost use Rattle.unit_packets.specs.Packing.{bytes_in};
ghost use Rattle.session_ends.specs.Events.{Event};
ghost use Rattle.grp_session.specs.Budget.{Counted, Spent};
ghost use Rattle.grp_session.specs.Serving.{ProxyStands, Source};
ghost use Rattle.grp_session.specs.layers.Feeding.{Answered};
ghost use Rattle.spin_server.specs.Served.{Served};
ghost use Rattle.spin_server.specs.Serving.{SpinStands};
ghost use Rattle.unit_market.specs.Markets.{Journal, MarketHas};
ghost use Rattle.unit_market.specs.Views.{image_view};
ghost use Rattle.venue_end.specs.Came.{gap_source};
ghost use Rattle.venue_end.specs.layers.Serving.{StillHas, SpinFed};

use grp_session::{GapBudget, GrpServer, look_laws};
use pitch_fields::OutOfMemory;
use spin_server::{SpinServer, image_look_laws};
use unit_market::Market;
use unit_packets::DatagramList;

/// The venue's side of a unit, in which its servers look up what was accepted and advertised.
pub trait VenueSide {
    /// It has all of a journal.
    ghost has: { Self → Journal → Type 0 };

    /// Feeds a session with the proxy. It answers each message from all that was accepted. After
    /// OutOfMemory the budget and the lines are as before.
    fn feed_proxy(
        &mut self,
        server: &mut GrpServer,
        budget: &mut GapBudget,
        piece: &[u8],
        said: &mut Vec<u8>,
        lines: &mut DatagramList,
    ) -> Result<(), OutOfMemory>
        ensures fed { OnOk result ((j : Journal) (es : List (Event Source)) (spent : Spent)
            → has self.old j → ProxyStands server.old es → Counted budget.old spent
            → Answered es piece.now (gap_source j budget.old.limits spent es piece.now)
            server.old server.new (Counted budget.new) said.old.items said.new.items
            (bytes_in lines.old.items) (bytes_in lines.new.items)) }
        ensures setup { server.new.setup ≡ server.old.setup }
        ensures limits { budget.new.limits ≡ budget.old.limits }
        ensures keeps { StillHas has self.old self.new }
        ensures err_budget { OnErr result (budget.new ≡ budget.old) }
        ensures err_lines { OnErr result (lines.new.items ≡ lines.old.items) };

    /// Feeds a session with the Spin Server. It answers each message from all that was accepted and
    /// advertised.
    fn feed_spin(
        &mut self,
        server: &mut SpinServer,
        piece: &[u8],
        said: &mut Vec<u8>,
    ) -> Result<(), OutOfMemory>
        ensures fed { OnOk result ((j : Journal) (es : List (Event (List Served)))
            → has self.old j → SpinStands server.old es → SpinFed es piece.now
            (image_view j.messages j.advertised) server.old server.new said.old.items
            said.new.items) }
        ensures setup { server.new.end.setup ≡ server.old.end.setup }
        ensures keeps { StillHas has self.old self.new };
}

impl VenueSide for Market {
    ghost has = { MarketHas };

    fn feed_proxy(
        &mut self,
        server: &mut GrpServer,
        budget: &mut GapBudget,
        piece: &[u8],
        said: &mut Vec<u8>,
        lines: &mut DatagramList,
    ) -> Result<(), OutOfMemory> {
        look_laws();
        server.feed(piece, budget, Some(&mut *self), said, lines)?;
        Ok(())
    }

    fn feed_spin(
        &mut self,
        server: &mut SpinServer,
        piece: &[u8],
        said: &mut Vec<u8>,
    ) -> Result<(), OutOfMemory> {
        image_look_laws();
        server.feed(piece, &mut *self, said)?;
        Ok(())
    }
}
