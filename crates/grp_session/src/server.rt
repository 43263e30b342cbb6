//! The Gap Request Proxy's side of a session: logins, gap requests, heartbeats and closing.

ghost use Rattle.std.specs.Prelude.{◌≡◌, true, false, List, [], ◌∷◌, ◌++◌, ◌+◌, length};
ghost use Rattle.std.specs.Prelude.{OnOk, OnErr, IsOk, IfSome, Some};
ghost use Rattle.unit_packets.specs.Packing.{bytes_in};
ghost use Rattle.unit_packets.specs.Causes.{counted};
ghost use Rattle.gap_store.specs.Look.{View};
ghost use Rattle.gap_store.specs.layers.Looking.{IsLater};
ghost use Rattle.session_ends.specs.declared.closed.CloseCause.TheVariants.{Memory};
ghost use Rattle.session_ends.specs.declared.role.Role.TheVariants.{GrpServer as GrpRole};
ghost use Rattle.session_ends.specs.Closing.{closed_of};
ghost use Rattle.session_ends.specs.Events.{Event, Ticked};
ghost use Rattle.session_ends.specs.layers.Happening.{Happens, OfEvents};
ghost use Rattle.session_ends.specs.Items.{closed_at};
ghost use Rattle.session_ends.specs.Sending.{sent_at_tick};
ghost use Rattle.session_ends.specs.layers.Showing.{ShowsLater};
ghost use Rattle.grp_session.specs.Budget.{Spent, Counted};
ghost use Rattle.grp_session.specs.layers.Lent.{OnLent, OnNone, Left};
ghost use Rattle.grp_session.specs.Serving.{Source, grp_sends, ProxyStands};
ghost use Rattle.grp_session.specs.layers.Feeding.{ProxyFeeds};

use crate::budget::GapBudget;
use crate::desk::Desk;
use gap_store::{Found, GapLookup};
use pitch_fields::OutOfMemory;
use pitch_messages::RawList;
use session_ends::{Account, Closed, End, Role};
use std::alloc::Global;
use std::marker::Model;
use unit_packets::DatagramList;

/// The Gap Request Proxy's end of a session of one unit.
#[derive(Drop)]
pub struct GrpServer {
    alloc: Global,
    end: End,
}

impl Model for GrpServer {
    ghost use Rattle.session_ends.specs.Ending.{Ending};

    ghost Value = { Ending };

    ghost view = { λ g. g.end };
}

// Stands in for a gap source that is not there; nothing is looked up in it.
#[derive(Drop)]
struct NoSource;

impl GapLookup for NoSource {
    ghost shows = { λ s v. Unit {0} };

    ghost still = { true };

    fn look(&mut self, _first: u32, _count: u16, _out: &mut RawList) -> Result<Found, OutOfMemory> {
        Err(OutOfMemory)
    }

    fn find(&mut self, _first: u32, _count: u16) -> Result<Found, OutOfMemory> {
        Err(OutOfMemory)
    }

    fn pack(
        &mut self,
        _alloc: Global,
        _unit: u8,
        _first: u32,
        _count: u16,
        _out: &mut DatagramList,
    ) -> Result<Found, OutOfMemory> {
        Err(OutOfMemory)
    }
}

// Appends what was said; all is as before after OutOfMemory.
fn append_said(
    said: &[u8],
    lines: DatagramList,
    reply: &mut Vec<u8>,
    gap_line: &mut DatagramList,
) -> Result<(), OutOfMemory>
    ensures reply { OnOk result (reply.new.items ≡ reply.old.items ++ said.now) }
    ensures lines { OnOk result
        (bytes_in gap_line.new.items ≡ bytes_in gap_line.old.items ++ bytes_in lines.items) }
    ensures same_reply { OnErr result (reply.new.items ≡ reply.old.items) }
    ensures same_lines { OnErr result (gap_line.new.items ≡ gap_line.old.items) }
{
    let before = gap_line.len();
    gap_line.append(lines.into_vec())?;
    match reply.extend_from_slice(said) {
        Ok(()) => Ok(()),
        Err(_) => {
            gap_line.truncate(before);
            Err(OutOfMemory)
        }
    }
}

impl GrpServer {
    /// The end of a session of one unit, not logged in. These accounts may log in, unless the
    /// session is in use. It takes no memory.
    pub fn make(alloc: Global, unit: u8, accounts: Vec<Account>, in_use: bool) -> GrpServer
        // Nothing happened to it.
        ensures stands { ProxyStands result [] }
        ensures setup { result.setup
            ≡ record { role = GrpRole; unit = unit; accounts = accounts.items; in_use = in_use } }
    {
        GrpServer {
            alloc,
            end: End::make(alloc, Role::GrpServer, unit, accounts, in_use),
        }
    }

    /// Why the session closed and where, or None exactly while it has not.
    pub fn closed(&self) -> Option<Closed>
        ensures kept { result ≡ self.now.closed }
        // Of all that happened to it: the first cause that closes it.
        ensures cause { OfEvents ProxyStands self.now (λ es. result ≡ closed_of self.now.setup es) }
    {
        self.end.closed()
    }

    // Feeds from a gap source that is there or not.
    fn feed_from<L: GapLookup>(
        &mut self,
        there: bool,
        piece: &[u8],
        budget: &mut GapBudget,
        lookup: &mut L,
        reply: &mut Vec<u8>,
        gap_line: &mut DatagramList,
    ) -> Result<(), OutOfMemory>
        ensures same { L.still ≡ true → lookup.new ≡ lookup.old }
        ensures left { (view : View)
            → L.shows lookup.old view → ShowsLater IsLater (L.shows lookup.new) view }
        ensures fed { OnOk result ((es : List (Event Source)) (spent : Spent) (view : View)
            → ProxyStands self.old es → Counted budget.old spent → L.shows lookup.old view
            → ProxyFeeds es piece.now self.old self.new there budget.old.limits spent view
            (Counted budget.new) (L.shows lookup.new) reply.old.items reply.new.items
            (bytes_in gap_line.old.items) (bytes_in gap_line.new.items)) }
        ensures setup { self.new.setup ≡ self.old.setup }
        ensures limits { budget.new.limits ≡ budget.old.limits }
        ensures err_closed { OnErr result (self.new.closed ≡ Some
            (closed_at Memory (counted (self.old.inbox.fed + length piece.now)))) }
        ensures err_budget { OnErr result (budget.new ≡ budget.old) }
        ensures err_reply { OnErr result (reply.new.items ≡ reply.old.items) }
        ensures err_lines { OnErr result (gap_line.new.items ≡ gap_line.old.items) }
        ensures shut { IfSome self.old.closed (λ c. self.new ≡ self.old) }
        ensures shut_ok { IfSome self.old.closed (λ c. IsOk result × (budget.new ≡ budget.old)) }
        ensures shut_says { IfSome self.old.closed
            (λ c. (reply.new.items ≡ reply.old.items) × (gap_line.new.items ≡ gap_line.old.items)) }
    {
        if self.end.is_closed() {
            return Ok(());
        }
        let mut said = Vec::new(self.alloc);
        let mut desk = Desk {
            alloc: self.alloc,
            there,
            budget: budget.copy(),
            lines: DatagramList::make(self.alloc),
        };
        match self.end.hear(piece, &mut desk, lookup, &mut said) {
            Ok(()) => match append_said(&said, desk.lines, reply, gap_line) {
                Ok(()) => {
                    *budget = desk.budget;
                    return Ok(());
                }
                Err(_) => {}
            },
            Err(_) => {}
        }
        self.end.fail();
        Err(OutOfMemory)
    }

    /// Takes the next piece of the stream, and answers each message that is whole now: logins and
    /// gap requests, by the first status that applies. A request that is accepted counts on the
    /// budget, and its range is packed onto the gap line. Other types are skipped. Once closed it
    /// takes bytes and does nothing.
    ///
    /// `lookup` is the gap source of the unit; with none each request is answered `U`. Replies are
    /// appended to `reply`. After OutOfMemory both outputs and the budget are as before, and the
    /// session is closed with Memory.
    ///
    /// Standard: "Login Message", "Login Response Message", "Gap Request Message", "Gap Response
    /// Message". The limits and the order of the statuses are this project's own.
    pub fn feed<L: GapLookup>(
        &mut self,
        piece: &[u8],
        budget: &mut GapBudget,
        lookup: Option<&mut L>,
        reply: &mut Vec<u8>,
        gap_line: &mut DatagramList,
    ) -> Result<(), OutOfMemory>
        // A source to which nobody else pushes is left as it was.
        ensures same { OnLent lookup.entry
            (λ before. L.still ≡ true → Left lookup.exit (λ after. after ≡ before)) }
        // Of every view of the source that is lent: whatever comes of the call, one that is no
        // earlier is shown after it.
        ensures left { OnLent lookup.entry (λ before. (view : View) → L.shows before view
            → Left lookup.exit (λ after. ShowsLater IsLater (L.shows after) view)) }
        // Of all that happened to the end, of what was spent, and of every view of the source that
        // is lent: the piece came too, and its messages were answered at views that rise from that
        // one.
        ensures fed { OnOk result
            (OnLent lookup.entry (λ before. (es : List (Event Source)) (spent : Spent) (view : View)
            → ProxyStands self.old es → Counted budget.old spent → L.shows before view
            → Left lookup.exit (λ after. ProxyFeeds es piece.now self.old self.new
            true budget.old.limits spent view (Counted budget.new) (L.shows after) reply.old.items
            reply.new.items (bytes_in gap_line.old.items) (bytes_in gap_line.new.items)))) }
        // The same of an end to which no source is lent: the views are whatever they may be.
        ensures without { OnOk result (OnNone lookup.entry
            ((es : List (Event Source)) (spent : Spent) (view : View) → ProxyStands self.old es
            → Counted budget.old spent → ProxyFeeds es piece.now self.old self.new
            false budget.old.limits spent view (Counted budget.new) (λ v. Unit {0}) reply.old.items
            reply.new.items (bytes_in gap_line.old.items) (bytes_in gap_line.new.items))) }
        ensures setup { self.new.setup ≡ self.old.setup }
        ensures limits { budget.new.limits ≡ budget.old.limits }
        ensures err_closed { OnErr result (self.new.closed ≡ Some
            (closed_at Memory (counted (self.old.inbox.fed + length piece.now)))) }
        ensures err_budget { OnErr result (budget.new ≡ budget.old) }
        ensures err_reply { OnErr result (reply.new.items ≡ reply.old.items) }
        ensures err_lines { OnErr result (gap_line.new.items ≡ gap_line.old.items) }
        ensures shut { IfSome self.old.closed (λ c. self.new ≡ self.old) }
        ensures shut_ok { IfSome self.old.closed (λ c. IsOk result × (budget.new ≡ budget.old)) }
        ensures shut_says { IfSome self.old.closed
            (λ c. (reply.new.items ≡ reply.old.items) × (gap_line.new.items ≡ gap_line.old.items)) }
    {
        match lookup {
            Some(lookup) => {
                self.feed_from(true, piece, budget, lookup, reply, gap_line)?;
                Ok(())
            }
            None => {
                self.feed_from(false, piece, budget, &mut NoSource, reply, gap_line)?;
                Ok(())
            }
        }
    }

    /// A second passes. The session closes at the fifth silent tick in a row; else, where nothing
    /// was sent since the last tick, a heartbeat is appended to `reply`. Once closed it does
    /// nothing. After OutOfMemory the session is closed with Memory, and `reply` is as before.
    ///
    /// Standard: "Heartbeat Messages". The number of ticks is this project's own.
    pub fn tick(&mut self, reply: &mut Vec<u8>) -> Result<(), OutOfMemory>
        // Of all that happened to it: the tick happened too.
        ensures stands { OnOk result (Happens ProxyStands self.old self.new Ticked) }
        // Of all that happened to it: what is then sent at a tick was appended.
        ensures says { OnOk result (OfEvents ProxyStands self.old
            (λ es. reply.new.items ≡ reply.old.items
            ++ sent_at_tick (grp_sends self.old.setup) self.old.setup es)) }
        ensures setup { self.new.setup ≡ self.old.setup }
        ensures err_closed { OnErr result
            (self.new.closed ≡ Some (closed_at Memory self.old.inbox.fed)) }
        ensures err_reply { OnErr result (reply.new.items ≡ reply.old.items) }
        ensures shut { IfSome self.old.closed (λ c. self.new ≡ self.old) }
        ensures shut_ok { IfSome self.old.closed
            (λ c. IsOk result × (reply.new.items ≡ reply.old.items)) }
    {
        self.end.tick(reply)?;
        Ok(())
    }
}
