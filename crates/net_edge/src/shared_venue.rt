//! The venue's end over a shared unit.

ghost use Rattle.std.specs.Prelude.{◌≡◌, false, IfOk};
ghost use Rattle.venue_end.specs.Came.{nothing_came};
ghost use Rattle.world_model.specs.Ends.{default_limits};
ghost use Rattle.net_edge.specs.layers.Shared.{SharedIs};

use crate::shared::SharedMarket;
use crate::venue::Venue;
use heard_items::laws::packed_messages_are_pieces;
use pitch_fields::OutOfMemory;
use pitch_messages::RawList;
use pitch_text::{Command, Session};
use shared_unit::{FixedRun, MakeError, Naming, Opened};
use std::alloc::Global;
use std::sync::Wait;
use unit_packets::{DatagramList, heartbeat, pack};
use venue_end::Servers;
use world_model::default_limits;
use world_model::ends::venue_setup;
use world_model::venue::THE_SESSION;

/// The market of a shared unit, the servers that answer from it, and what was accepted and is not
/// sent yet.
#[derive(Drop)]
pub(crate) struct SharedVenue<J: Naming, R: FixedRun, W: Wait + Drop> {
    alloc: Global,
    market: SharedMarket<J, R, W>,
    servers: Servers,
    unsent: RawList,
    // the sequence of the first of them
    next: u32,
}

impl<J: Naming, R: FixedRun, W: Wait + Drop> SharedVenue<J, R, W> {
    /// An end over a pair that was opened for two servers, to which nothing came yet.
    pub(crate) fn open(
        rt: W,
        alloc: Global,
        opened: Opened<R>,
    ) -> Result<SharedVenue<J, R, W>, MakeError>
        requires book { opened.seen.book ≡ J.book }
        requires kept { opened.kept ≡ J.kept }
        requires demo { J.kept ≡ default_limits.kept }
        requires free { R.fixed ≡ false }
        requires servers { opened.servers ≡ 2 }
        ensures { IfOk result (λ venue. SharedIs venue.market venue.servers venue.unsent.items
            venue.next nothing_came) }
    {
        let market = SharedMarket::open(rt, alloc, opened)?;
        Ok(SharedVenue {
            alloc,
            market,
            servers: Servers::make(alloc, &venue_setup(1, default_limits())),
            unsent: RawList::make(alloc),
            next: 1,
        })
    }
}

impl<J: Naming, R: FixedRun, W: Wait + Drop> Venue for SharedVenue<J, R, W> {
    ghost use Rattle.net_edge.specs.layers.Shared.{SharedIs};

    ghost is = { λ v now. SharedIs v.market v.servers v.unsent.items v.next now };

    fn accepted_are_messages(&self) {}

    fn accept(&mut self, command: &Command) -> Result<(), OutOfMemory> {
        let raw = self.market.accept(command)?;
        self.unsent.push(&raw)
    }

    fn flush(&mut self, lines: &mut DatagramList) -> Result<(), OutOfMemory> {
        packed_messages_are_pieces();
        // No unit has so many messages.
        let Ok(count) = u32::try_from(self.unsent.len()) else {
            return Err(OutOfMemory);
        };
        let Some(next) = self.next.checked_add(count) else {
            return Err(OutOfMemory);
        };
        pack(self.alloc, 1, self.next, self.unsent.raws(), lines)?;
        self.unsent.truncate(0);
        self.next = next;
        Ok(())
    }

    fn beat(&self) -> [u8; 8] {
        packed_messages_are_pieces();
        heartbeat(1, self.next)
    }

    fn advertise(&mut self) -> Result<(), OutOfMemory> {
        let sequence = self.market.advertise()?;
        self.servers.tell(sequence)
    }

    fn second(&mut self) -> Result<(), OutOfMemory> {
        self.servers.second()
    }

    fn connect(&mut self, session: Session) -> Result<(), OutOfMemory> {
        match session {
            Session::Grp => self.servers.connect_proxy(THE_SESSION),
            Session::Spin => self.servers.connect_spin(THE_SESSION),
        }
    }

    fn take(
        &mut self,
        session: Session,
        piece: &[u8],
        gap_line: &mut DatagramList,
    ) -> Result<(), OutOfMemory> {
        match session {
            Session::Grp => {
                self.servers
                    .take_proxy(THE_SESSION, piece, &mut self.market, gap_line)
            }
            Session::Spin => self.servers.take_spin(THE_SESSION, piece, &mut self.market),
        }
    }

    fn send_whole(&mut self) -> Result<(), OutOfMemory> {
        let mut more = true;
        while more {
            more = self.servers.pump_spin(THE_SESSION)?;
        }
        Ok(())
    }

    fn waiting(&self, session: Session) -> &[u8] {
        match session {
            Session::Grp => self.servers.said_by_proxy(THE_SESSION),
            Session::Spin => self.servers.said_by_spin(THE_SESSION),
        }
    }

    fn put(&mut self, session: Session, count: usize) {
        match session {
            Session::Grp => self.servers.put_by_proxy(THE_SESSION, count),
            Session::Spin => self.servers.put_by_spin(THE_SESSION, count),
        }
    }

    fn cut(&mut self, session: Session) {
        match session {
            Session::Grp => self.servers.cut_proxy(THE_SESSION),
            Session::Spin => self.servers.cut_spin(THE_SESSION),
        }
    }
}
