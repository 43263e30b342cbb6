//! The servers of a unit with all their sessions, which answer from any venue's side.

ghost use Rattle.std.specs.Prelude.{◌≡◌, ◌++◌, ◌∷◌, ◌<◌, [], OnOk, OnErr, IfOk, IsOk, None};
ghost use Rattle.std.specs.Prelude.{is_some, length, true};
ghost use Rattle.unit_packets.specs.Packing.{bytes_in};
ghost use Rattle.session_ends.specs.Events.{Ticked};
ghost use Rattle.venue_end.specs.Servers.{proxy_setup, spin_setup, proxy_says, spin_says};
ghost use Rattle.venue_end.specs.Sessions.{session_of, waiting_in, closed_in, happens_at_all};
ghost use Rattle.venue_end.specs.Came.{VenueState, nothing_came, venue_step, on_gap_line};
ghost use Rattle.venue_end.specs.Came.{Advertised, ProxyMade, ProxyTook, ProxyPut, ProxyCut};
ghost use Rattle.venue_end.specs.Came.{SpinMade, SpinTook, SpinPumped, SpinPut, SpinCut};
ghost use Rattle.venue_end.specs.Came.{Second, AllCut};
ghost use Rattle.venue_end.specs.Stands.{BudgetIs, ServersAre};
ghost use Rattle.venue_end.specs.Feeding.{left_in, runs_on};
ghost use Rattle.venue_end.specs.layers.Serving.{StillHas, OfServers, OverSide};
ghost use Rattle.venue_end.specs.layers.Serving.{ComesTo, ComesToAndCuts, ServersStay};
ghost use Rattle.venue_end.specs.declared.setup.VenueSetup.{VenueSetup};

use crate::setup::VenueSetup;
use crate::side::VenueSide;
use crate::table::SessionTable;
use grp_session::{GapBudget, GrpServer};
use pitch_fields::OutOfMemory;
use session_ends::{Account, Closed};
use spin_server::SpinServer;
use std::alloc::Global;
use unit_packets::DatagramList;

/// The budget of gap requests of a unit, and the sessions with its proxy and with its Spin Server.
/// Each call does what the call of that name does at a [`VenueEnd`](crate::VenueEnd), whatever the
/// sessions are answered from.
#[derive(Drop)]
pub struct Servers {
    alloc: Global,
    setup: VenueSetup,
    budget: GapBudget,
    proxies: SessionTable<GrpServer>,
    spins: SessionTable<SpinServer>,
}

impl Servers {
    /// Servers to which nothing came yet. They take no memory.
    pub fn make(alloc: Global, setup: &VenueSetup) -> Servers
        ensures { ServersAre setup.now result nothing_came }
    {
        Servers {
            alloc,
            setup: *setup,
            budget: GapBudget::make(setup.second, setup.minute, setup.day),
            proxies: SessionTable::make(alloc),
            spins: SessionTable::make(alloc),
        }
    }

    /// Their unit.
    pub fn unit(&self) -> u8
        ensures { OfServers self.now (λ s now. result ≡ s.unit) }
    {
        self.setup.unit
    }

    // The one account that may log in.
    fn accounts(&self) -> Result<Vec<Account>, OutOfMemory>
        ensures { IfOk result (λ accounts. accounts.items ≡ self.now.setup.account ∷ []) }
    {
        let mut accounts = Vec::new(self.alloc);
        accounts.push(self.setup.account)?;
        Ok(accounts)
    }

    /// A connection with the proxy was made.
    pub fn connect_proxy(&mut self, id: u32) -> Result<(), OutOfMemory>
        ensures stands { OnOk result (ComesTo self.old self.new (ProxyMade id)) }
        ensures err { OnErr result (ServersStay self.old self.new) }
    {
        let accounts = self.accounts()?;
        let server = GrpServer::make(self.alloc, self.setup.unit, accounts, false);
        self.proxies.open(id, server)
    }

    /// Bytes came to the proxy, which answers from the venue's side.
    pub fn take_proxy<M: VenueSide>(
        &mut self,
        id: u32,
        piece: &[u8],
        side: &mut M,
        gap_line: &mut DatagramList,
    ) -> Result<(), OutOfMemory>
        ensures stands { OnOk result (OverSide M.has side.old self.old
            (λ s now. ServersAre s self.new (venue_step s (ProxyTook id piece.now) now))) }
        ensures lines { OnOk result (OverSide M.has side.old self.old
            (λ s now. bytes_in gap_line.new.items ≡ bytes_in gap_line.old.items
            ++ on_gap_line s (ProxyTook id piece.now) now)) }
        ensures side { StillHas M.has side.old side.new }
        ensures err { OnErr result (ComesTo self.old self.new (ProxyCut id)) }
        ensures err_lines { OnErr result (gap_line.new.items ≡ gap_line.old.items) }
        ensures none { OfServers self.old
            (λ s now. session_of id now.proxies ≡ None → IsOk result) }
    {
        let Some(at) = self.proxies.find(id) else {
            return Ok(());
        };
        let place = &mut self.proxies.places[at];
        match side.feed_proxy(
            &mut place.server,
            &mut self.budget,
            piece,
            &mut place.said,
            gap_line,
        ) {
            Ok(()) => Ok(()),
            Err(error) => {
                drop(self.proxies.places.remove(at));
                Err(error)
            }
        }
    }

    /// Whether a session with the proxy has the number.
    pub fn has_proxy(&self, id: u32) -> bool
        ensures { OfServers self.now (λ s now. result ≡ is_some (session_of id now.proxies)) }
    {
        self.proxies.has(id)
    }

    /// What waits to be put to a session with the proxy; nothing where there is none.
    pub fn said_by_proxy(&self, id: u32) -> &[u8]
        ensures { OfServers self.now
            (λ s now. result.now ≡ waiting_in (session_of id now.proxies)) }
    {
        self.proxies.said_to(id)
    }

    /// So many bytes of what waits were put, or all.
    pub fn put_by_proxy(&mut self, id: u32, count: usize)
        ensures stands { ComesTo self.old self.new (ProxyPut id count) }
    {
        self.proxies.put(id, count)
    }

    /// Why the proxy's end of a session closed, or None while it has not, and where there is none.
    pub fn proxy_closed(&self, id: u32) -> Option<Closed>
        ensures { OfServers self.now
            (λ s now. result ≡ closed_in (proxy_setup s) (session_of id now.proxies)) }
    {
        self.proxies.closed(id)
    }

    /// A connection with the proxy has ended, where one had the number.
    pub fn cut_proxy(&mut self, id: u32)
        ensures stands { ComesTo self.old self.new (ProxyCut id) }
    {
        self.proxies.cut(id)
    }

    /// A connection with the Spin Server was made.
    pub fn connect_spin(&mut self, id: u32) -> Result<(), OutOfMemory>
        ensures stands { OnOk result (ComesTo self.old self.new (SpinMade id)) }
        ensures err { OnErr result (ServersStay self.old self.new) }
    {
        let accounts = self.accounts()?;
        let server = SpinServer::make(self.alloc, self.setup.unit, accounts, false);
        self.spins.open(id, server)
    }

    /// Bytes came to the Spin Server, which answers from the venue's side.
    pub fn take_spin<M: VenueSide>(
        &mut self,
        id: u32,
        piece: &[u8],
        side: &mut M,
    ) -> Result<(), OutOfMemory>
        ensures stands { OnOk result (OverSide M.has side.old self.old
            (λ s now. ServersAre s self.new (venue_step s (SpinTook id piece.now) now))) }
        ensures side { StillHas M.has side.old side.new }
        ensures err { OnErr result (ComesTo self.old self.new (SpinCut id)) }
        ensures none { OfServers self.old (λ s now. session_of id now.spins ≡ None → IsOk result) }
    {
        let Some(at) = self.spins.find(id) else {
            return Ok(());
        };
        let place = &mut self.spins.places[at];
        match side.feed_spin(&mut place.server, piece, &mut place.said) {
            Ok(()) => Ok(()),
            Err(error) => {
                drop(self.spins.places.remove(at));
                Err(error)
            }
        }
    }

    /// The Spin Server is asked for the next block of an image. Answers whether it still sends one.
    pub fn pump_spin(&mut self, id: u32) -> Result<bool, OutOfMemory>
        ensures stands { OnOk result (ComesTo self.old self.new (SpinPumped id)) }
        ensures more { IfOk result (λ more. OfServers self.old
            (λ s now. more ≡ runs_on s (session_of id now.spins))) }
        ensures fewer { IfOk result (λ more. more ≡ true
            → left_in id self.new.spins.places.items < left_in id self.old.spins.places.items) }
        ensures err { OnErr result (ServersStay self.old self.new) }
        ensures none { OfServers self.old (λ s now. session_of id now.spins ≡ None → IsOk result) }
    {
        let Some(at) = self.spins.find(id) else {
            return Ok(false);
        };
        self.spins.places[at].pump()
    }

    /// Whether a session with the Spin Server has the number.
    pub fn has_spin(&self, id: u32) -> bool
        ensures { OfServers self.now (λ s now. result ≡ is_some (session_of id now.spins)) }
    {
        self.spins.has(id)
    }

    /// What waits to be put to a session with the Spin Server; nothing where there is none.
    pub fn said_by_spin(&self, id: u32) -> &[u8]
        ensures { OfServers self.now (λ s now. result.now ≡ waiting_in (session_of id now.spins)) }
    {
        self.spins.said_to(id)
    }

    /// So many bytes of what waits were put, or all.
    pub fn put_by_spin(&mut self, id: u32, count: usize)
        ensures stands { ComesTo self.old self.new (SpinPut id count) }
    {
        self.spins.put(id, count)
    }

    /// Why the Spin Server's end of a session closed, or None while it has not, and where there is
    /// none.
    pub fn spin_closed(&self, id: u32) -> Option<Closed>
        ensures { OfServers self.now
            (λ s now. result ≡ closed_in (spin_setup s) (session_of id now.spins)) }
    {
        self.spins.closed(id)
    }

    /// A connection with the Spin Server has ended, where one had the number.
    pub fn cut_spin(&mut self, id: u32)
        ensures stands { ComesTo self.old self.new (SpinCut id) }
    {
        self.spins.cut(id)
    }

    /// The image of all messages was advertised, which has this sequence: every Spin Server is told
    /// of it. After OutOfMemory all sessions are cut.
    pub fn tell(&mut self, sequence: u32) -> Result<(), OutOfMemory>
        ensures stands { OnOk result (OfServers self.old (λ s now. sequence ≡ length now.messages
            → ServersAre s self.new (venue_step s Advertised now))) }
        ensures err { OnErr result (ComesToAndCuts self.old self.new Advertised) }
    {
        match self.spins.tell_all(sequence) {
            Ok(()) => Ok(()),
            Err(error) => {
                self.clear();
                Err(error)
            }
        }
    }

    // A second passes at all servers.
    fn tick_servers(&mut self) -> Result<(), OutOfMemory>
        ensures stands { OnOk result (OfServers self.old (λ s now.
            ServersAre s self.new (record now {
              proxies = happens_at_all (proxy_says s) Ticked now.proxies;
              spins = happens_at_all (spin_says s) Ticked now.spins;
            }))) }
        ensures setup { self.new.setup ≡ self.old.setup }
        ensures budget { self.new.budget ≡ self.old.budget }
    {
        self.proxies.tick_all()?;
        self.spins.tick_all()
    }

    /// A second passes: the budget's next one begins, and every server ticks. After OutOfMemory the
    /// second has passed, and all sessions are cut.
    pub fn second(&mut self) -> Result<(), OutOfMemory>
        ensures stands { OnOk result (ComesTo self.old self.new Second) }
        ensures err { OnErr result (ComesToAndCuts self.old self.new Second) }
    {
        self.budget.tick();
        match self.tick_servers() {
            Ok(()) => Ok(()),
            Err(error) => {
                self.clear();
                Err(error)
            }
        }
    }

    // All sessions end, whatever they are.
    fn clear(&mut self)
        ensures { (s : VenueSetup) (now : VenueState)
            → self.old.setup ≡ s → BudgetIs s self.old.budget now.spent
            → ServersAre s self.new (venue_step s AllCut now) }
    {
        self.proxies.clear();
        self.spins.clear();
    }

    /// All connections have ended.
    pub fn cut_all(&mut self)
        ensures stands { ComesTo self.old self.new AllCut }
    {
        self.clear();
    }
}
