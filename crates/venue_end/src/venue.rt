//! The end itself: what comes to it, and what it hands out.

ghost use Rattle.std.specs.Prelude.{◌≡◌, ◌≤◌, ◌+◌, ◌⊎◌, ◌++◌, [], ◌∷◌, OnOk, OnErr, IfOk, IsOk};
ghost use Rattle.std.specs.Prelude.{◌<◌, None, is_some, length, true};
ghost use Rattle.std.specs.List.{AllByRecursion};
ghost use Rattle.pitch_fields.specs.Limits.{most_held};
ghost use Rattle.unit_packets.specs.Packing.{bytes_in};
ghost use Rattle.heard_items.specs.Datagrams.{IsPiece};
ghost use Rattle.pitch_model.specs.Book.{book_after};
ghost use Rattle.venue_core.specs.Refusals.{refusal, IsAnswer};

use crate::servers::Servers;
use crate::setup::VenueSetup;
use order_book::UnitBook;
use pitch_fields::OutOfMemory;
use pitch_text::Command;
use session_ends::Closed;
use std::alloc::Global;
use unit_market::Market;
use unit_packets::DatagramList;
use venue_core::VenueError;

/// The venue's end of a unit: its market, and the servers that answer from it, with the budget of
/// gap requests and all sessions.
#[derive(Drop)]
pub struct VenueEnd {
    market: Market,
    servers: Servers,
}

impl VenueEnd {
    ghost use Rattle.venue_end.specs.Servers.{proxy_setup, spin_setup};
    ghost use Rattle.venue_end.specs.Sessions.{session_of, waiting_in, closed_in};
    ghost use Rattle.venue_end.specs.Came.{Commanded, Flushed, Beaten, Advertised};
    ghost use Rattle.venue_end.specs.Came.{ProxyMade, ProxyTook, ProxyPut, ProxyCut, SpinMade};
    ghost use Rattle.venue_end.specs.Came.{SpinTook, SpinPumped, SpinPut, SpinCut, Second, AllCut};
    ghost use Rattle.venue_end.specs.Came.{venue_after, on_lines, on_gap_line};
    ghost use Rattle.venue_end.specs.Stands.{VenueStands, OfVenue, Comes};
    ghost use Rattle.venue_end.specs.Stands.{ComesAndCuts, StandsStill};
    ghost use Rattle.venue_end.specs.Feeding.{left_at, runs_on};

    /// An end to which nothing came yet, with all memory of its store. Its proxy keeps at least 1
    /// and at most 65,536 messages.
    pub fn make(alloc: Global, setup: &VenueSetup) -> Result<VenueEnd, OutOfMemory>
        requires { (1 ≤ setup.now.kept) × (setup.now.kept ≤ most_held) }
        ensures stands { IfOk result (λ e. VenueStands setup.now e []) }
    {
        Ok(VenueEnd {
            market: Market::make(alloc, setup.unit, setup.kept)?,
            servers: Servers::make(alloc, setup),
        })
    }

    /// Its unit.
    pub fn unit(&self) -> u8
        ensures { OfVenue self.now (λ s before. result ≡ s.unit) }
    {
        self.servers.unit()
    }

    /// How many messages were accepted.
    pub fn count(&self) -> u32
        ensures { OfVenue self.now (λ s before. result ≡ length (venue_after s before).messages) }
    {
        self.market.count()
    }

    /// The book that the accepted messages leave.
    pub fn book(&self) -> &UnitBook
        ensures { OfVenue self.now
            (λ s before. result.now.book ≡ book_after (venue_after s before).messages) }
    {
        self.market.book()
    }

    /// A command comes. The answer is the sequence of its message, or why it is refused. After a
    /// refusal, also after OutOfMemory, the end stands for what it stood for.
    pub fn accept(&mut self, command: &Command) -> Result<u32, VenueError>
        // The first refusal that holds after all that was accepted before, or the next sequence.
        ensures answer { OfVenue self.old (λ s before.
            IsAnswer (refusal (venue_after s before).messages command.now)
            (length (venue_after s before).messages + 1) result) }
        ensures stands { OnOk result (Comes self.old self.new (Commanded command.now)) }
        ensures err { OnErr result (StandsStill self.old self.new) }
    {
        self.market.accept(command)
    }

    /// What was accepted and not sent yet is sent: its datagrams are appended, for lines A and B
    /// alike. Answers how many they are. After OutOfMemory all is as before.
    pub fn flush(&mut self, lines: &mut DatagramList) -> Result<u32, OutOfMemory>
        ensures stands { OnOk result (Comes self.old self.new Flushed) }
        ensures lines { OnOk result (OfVenue self.old (λ s before. bytes_in lines.new.items
            ≡ bytes_in lines.old.items ++ on_lines s Flushed (venue_after s before))) }
        // Each has messages that were accepted, at their sequences.
        ensures pieces { OnOk result (OfVenue self.old (λ s before.
            AllByRecursion (IsPiece (venue_after s before).messages s.unit)
            (on_lines s Flushed (venue_after s before)))) }
        ensures count { IfOk result (λ count.
            length lines.new.items ≡ length lines.old.items + count) }
        ensures err { OnErr result (StandsStill self.old self.new) }
        ensures err_lines { OnErr result (lines.new.items ≡ lines.old.items) }
    {
        self.market.flush(lines)
    }

    /// The heartbeat, for lines A and B alike. It tells the first sequence that was not sent yet.
    pub fn beat(&self) -> [u8; 8]
        ensures bytes { OfVenue self.now
            (λ s before. result ∷ [] ≡ on_lines s Beaten (venue_after s before)) }
        ensures piece { OfVenue self.now
            (λ s before. IsPiece (venue_after s before).messages s.unit result) }
    {
        self.market.beat()
    }

    /// The image of all messages is advertised, and every Spin Server is told of it. Answers its
    /// sequence, which is their number. After OutOfMemory either the end stands for what it stood
    /// for, or the image is advertised and all sessions are cut.
    pub fn advertise(&mut self) -> Result<u32, OutOfMemory>
        ensures sequence { IfOk result (λ sequence. OfVenue self.old
            (λ s before. sequence ≡ length (venue_after s before).messages)) }
        ensures stands { OnOk result (Comes self.old self.new Advertised) }
        ensures err { OnErr result
            (StandsStill self.old self.new ⊎ ComesAndCuts self.old self.new Advertised) }
    {
        let sequence = self.market.advertise()?;
        self.servers.tell(sequence)?;
        Ok(sequence)
    }

    /// A connection with the proxy was made, which has this number from now on; one that had it has
    /// ended. After OutOfMemory the end stands for what it stood for.
    pub fn connect_proxy(&mut self, id: u32) -> Result<(), OutOfMemory>
        ensures stands { OnOk result (Comes self.old self.new (ProxyMade id)) }
        ensures err { OnErr result (StandsStill self.old self.new) }
    {
        self.servers.connect_proxy(id)
    }

    /// Bytes came to the proxy by the connection of a number; where there is none they are passed
    /// over. Each request is answered from all that was accepted, and counts on the one budget; the
    /// ranges of those that are accepted are appended for the gap line, and what the proxy says
    /// waits to be put. After OutOfMemory the session is cut.
    pub fn take_proxy(
        &mut self,
        id: u32,
        piece: &[u8],
        gap_line: &mut DatagramList,
    ) -> Result<(), OutOfMemory>
        ensures stands { OnOk result (Comes self.old self.new (ProxyTook id piece.now)) }
        ensures lines { OnOk result (OfVenue self.old (λ s before. bytes_in gap_line.new.items
            ≡ bytes_in gap_line.old.items
            ++ on_gap_line s (ProxyTook id piece.now) (venue_after s before))) }
        // Each has messages that were accepted, at their sequences.
        ensures pieces { OnOk result (OfVenue self.old (λ s before.
            AllByRecursion (IsPiece (venue_after s before).messages s.unit)
            (on_gap_line s (ProxyTook id piece.now) (venue_after s before)))) }
        ensures err { OnErr result (Comes self.old self.new (ProxyCut id)) }
        ensures err_lines { OnErr result (gap_line.new.items ≡ gap_line.old.items) }
        ensures none { OfVenue self.old
            (λ s before. session_of id (venue_after s before).proxies ≡ None → IsOk result) }
    {
        // From here on it is known that the unit is a byte.
        let _unit = self.unit();
        self.servers
            .take_proxy(id, piece, &mut self.market, gap_line)
    }

    /// Whether a session with the proxy has the number.
    pub fn has_proxy(&self, id: u32) -> bool
        ensures { OfVenue self.now (λ s before.
            result ≡ is_some (session_of id (venue_after s before).proxies)) }
    {
        self.servers.has_proxy(id)
    }

    /// What waits to be put to a session with the proxy; nothing where there is none.
    pub fn said_by_proxy(&self, id: u32) -> &[u8]
        ensures { OfVenue self.now (λ s before.
            result.now ≡ waiting_in (session_of id (venue_after s before).proxies)) }
    {
        self.servers.said_by_proxy(id)
    }

    /// So many bytes of what waits were put, or all.
    pub fn put_by_proxy(&mut self, id: u32, count: usize)
        ensures stands { Comes self.old self.new (ProxyPut id count) }
    {
        self.servers.put_by_proxy(id, count)
    }

    /// Why the proxy's end of a session closed and where, or None while it has not, and where there
    /// is none. One that has closed still has to be cut, once what it said was put.
    pub fn proxy_closed(&self, id: u32) -> Option<Closed>
        ensures { OfVenue self.now (λ s before.
            result ≡ closed_in (proxy_setup s) (session_of id (venue_after s before).proxies)) }
    {
        self.servers.proxy_closed(id)
    }

    /// A connection with the proxy has ended, where one had the number.
    pub fn cut_proxy(&mut self, id: u32)
        ensures stands { Comes self.old self.new (ProxyCut id) }
    {
        self.servers.cut_proxy(id)
    }

    /// A connection with the Spin Server was made, which has this number from now on; one that had
    /// it has ended. After OutOfMemory the end stands for what it stood for.
    pub fn connect_spin(&mut self, id: u32) -> Result<(), OutOfMemory>
        ensures stands { OnOk result (Comes self.old self.new (SpinMade id)) }
        ensures err { OnErr result (StandsStill self.old self.new) }
    {
        self.servers.connect_spin(id)
    }

    /// Bytes came to the Spin Server by the connection of a number; where there is none they are
    /// passed over. Each request is answered from all that was accepted and advertised, and what
    /// the server says waits to be put. After OutOfMemory the session is cut.
    pub fn take_spin(&mut self, id: u32, piece: &[u8]) -> Result<(), OutOfMemory>
        ensures stands { OnOk result (Comes self.old self.new (SpinTook id piece.now)) }
        ensures err { OnErr result (Comes self.old self.new (SpinCut id)) }
        ensures none { OfVenue self.old
            (λ s before. session_of id (venue_after s before).spins ≡ None → IsOk result) }
    {
        self.servers.take_spin(id, piece, &mut self.market)
    }

    /// The Spin Server is asked for the next block of the image that it sends to a session, if it
    /// sends one: that waits to be put too. Answers whether it still sends one. After OutOfMemory
    /// the end stands for what it stood for.
    pub fn pump_spin(&mut self, id: u32) -> Result<bool, OutOfMemory>
        ensures stands { OnOk result (Comes self.old self.new (SpinPumped id)) }
        ensures more { IfOk result (λ more. OfVenue self.old (λ s before.
            more ≡ runs_on s (session_of id (venue_after s before).spins))) }
        // A session that still sends one has fewer blocks left, so calls in a row end it.
        ensures fewer { IfOk result
            (λ more. more ≡ true → left_at id self.new < left_at id self.old) }
        ensures err { OnErr result (StandsStill self.old self.new) }
        ensures none { OfVenue self.old
            (λ s before. session_of id (venue_after s before).spins ≡ None → IsOk result) }
    {
        self.servers.pump_spin(id)
    }

    /// Whether a session with the Spin Server has the number.
    pub fn has_spin(&self, id: u32) -> bool
        ensures { OfVenue self.now (λ s before.
            result ≡ is_some (session_of id (venue_after s before).spins)) }
    {
        self.servers.has_spin(id)
    }

    /// What waits to be put to a session with the Spin Server; nothing where there is none.
    pub fn said_by_spin(&self, id: u32) -> &[u8]
        ensures { OfVenue self.now (λ s before.
            result.now ≡ waiting_in (session_of id (venue_after s before).spins)) }
    {
        self.servers.said_by_spin(id)
    }

    /// So many bytes of what waits were put, or all.
    pub fn put_by_spin(&mut self, id: u32, count: usize)
        ensures stands { Comes self.old self.new (SpinPut id count) }
    {
        self.servers.put_by_spin(id, count)
    }

    /// Why the Spin Server's end of a session closed and where, or None while it has not, and where
    /// there is none. One that has closed still has to be cut, once what it said was put.
    pub fn spin_closed(&self, id: u32) -> Option<Closed>
        ensures { OfVenue self.now (λ s before.
            result ≡ closed_in (spin_setup s) (session_of id (venue_after s before).spins)) }
    {
        self.servers.spin_closed(id)
    }

    /// A connection with the Spin Server has ended, where one had the number.
    pub fn cut_spin(&mut self, id: u32)
        ensures stands { Comes self.old self.new (SpinCut id) }
    {
        self.servers.cut_spin(id)
    }

    /// A second passes: the budget's next one begins, and every server ticks. What the servers say
    /// by that waits to be put. After OutOfMemory the second has passed, and all sessions are cut.
    pub fn second(&mut self) -> Result<(), OutOfMemory>
        ensures stands { OnOk result (Comes self.old self.new Second) }
        ensures err { OnErr result (ComesAndCuts self.old self.new Second) }
    {
        self.servers.second()
    }

    /// All connections have ended.
    pub fn cut_all(&mut self)
        ensures stands { Comes self.old self.new AllCut }
    {
        self.servers.cut_all();
    }
}
