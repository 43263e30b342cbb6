//! A link, whoever its peer is: it reads a stream, tells items, sends requests, and ticks.

ghost use Rattle.std.specs.Prelude.{◌≡◌, List, [], ◌∷◌, ◌++◌, ◌+◌, length, map, OnOk};
ghost use Rattle.std.specs.Prelude.{OnErr, IsOk, IfOk, IfSome, None, Some};
ghost use Rattle.unit_packets.specs.Causes.{counted};
ghost use Rattle.session_ends.specs.declared.closed.CloseCause.TheVariants.{Memory};
ghost use Rattle.session_ends.specs.Closing.{closed_of};
ghost use Rattle.session_ends.specs.Ending.{EndKnows};
ghost use Rattle.session_ends.specs.layers.Ticking.{nothing_known};
ghost use Rattle.session_ends.specs.Events.{Event, Fed, Ticked, Asked};
ghost use Rattle.session_ends.specs.layers.Happening.{Happens, OfEvents};
ghost use Rattle.session_ends.specs.Items.{closed_at};
ghost use Rattle.session_ends.specs.Sending.{sent_at_tick};
ghost use Rattle.client_links.specs.Linking.{Lookups, NoLookup, link_setup, login_bytes};
ghost use Rattle.client_links.specs.Linking.{link_sends, link_tells, LinkStands};
ghost use Rattle.client_links.specs.Telling.{without_spare};

use crate::desk::Desk;
use crate::items::ItemList;
use heard_items::Item;
use pitch_fields::OutOfMemory;
use pitch_messages::RawList;
use pitch_messages::session::SessionMessage;
use session_ends::{Account, Closed, End, Role};
use std::alloc::Global;
use std::marker::{Model, PhantomData};

/// With whom a link connects its client.
pub trait Peer {
    ghost use Rattle.session_ends.specs.declared.role.Role.{Role as RoleSaid};

    /// The role of its links.
    ghost role: { RoleSaid };

    /// That role.
    fn role() -> Role
        ensures role { result ≡ role };
}

/// The client's end of a session: a [`GapLink`](crate::GapLink) or a
/// [`SpinLink`](crate::SpinLink).
#[derive(Drop)]
pub struct Link<P> {
    alloc: Global,
    end: End,
    peer: PhantomData<P>,
}

impl<P> Model for Link<P> {
    ghost use Rattle.session_ends.specs.Ending.{Ending};

    ghost Value = { Ending };

    ghost view = { λ l. l.end };
}

impl<P: Peer> Link<P> {
    // A link, whose login block it appends. The bytes are as before after OutOfMemory.
    pub(crate) fn open(
        alloc: Global,
        unit: u8,
        account: &Account,
        out: &mut Vec<u8>,
    ) -> Result<Link<P>, OutOfMemory>
        ensures stands { IfOk result (λ link. EndKnows link (nothing_known P.role)) }
        ensures setup { IfOk result (λ link. link.setup ≡ link_setup P.role unit) }
        ensures says { OnOk result
            (out.new.items ≡ out.old.items ++ login_bytes P.role unit account.now) }
        ensures err { OnErr result (out.new.items ≡ out.old.items) }
    {
        let end = End::make(alloc, P::role(), unit, Vec::new(alloc), false);
        end.put(
            &SessionMessage::Login {
                sub: account.sub,
                user: account.user,
                password: account.password,
            },
            out,
        )?;
        Ok(Link {
            alloc,
            end,
            peer: PhantomData,
        })
    }

    /// Why the link closed and where, or None exactly while it has not.
    pub fn closed(&self) -> Option<Closed>
        ensures kept { result ≡ self.now.closed }
        // Of all that happened to it: the first cause that closes it.
        ensures cause { OfEvents LinkStands self.now (λ es. result ≡ closed_of self.now.setup es) }
    {
        self.end.closed()
    }

    // Hears a piece while the link is open, and answers what it tells.
    fn hear_piece(&mut self, piece: &[u8]) -> Result<Vec<Item>, OutOfMemory>
        requires { self.old.closed ≡ None }
        ensures stands { OnOk result
            (Happens LinkStands self.old self.new (Fed piece.now NoLookup)) }
        ensures tells { IfOk result (λ told. OfEvents LinkStands self.old
            (λ es. map without_spare told.items ≡ link_tells self.old.setup es piece.now)) }
        ensures setup { self.new.setup ≡ self.old.setup }
        ensures count { self.new.inbox.fed ≡ counted (self.old.inbox.fed + length piece.now) }
    {
        let mut said = Vec::new(self.alloc);
        let mut desk = Desk {
            alloc: self.alloc,
            run: RawList::make(self.alloc),
            told: Vec::new(self.alloc),
        };
        self.end.hear(piece, &mut desk, &mut (), &mut said)?;
        desk.put_run(&self.end)?;
        Ok(desk.told)
    }

    /// Takes the next piece of the stream, and appends what it tells the client, in the order of
    /// the stream. A link to a proxy tells GrpUp after an accepted login and a GapReply for each
    /// response, and skips other types. One to a Spin Server tells SpinUp, Advertised, SpinReply,
    /// SpinFinished, and one ImageMessages for each longest run of other messages within a block.
    /// Once closed it takes bytes and does nothing.
    ///
    /// After OutOfMemory `items` is as before, and the link is closed with Memory.
    ///
    /// Standard: "Login Response Message", "Gap Response Message", "Spin Image Available Message",
    /// "Spin Response Message", "Spin Finished Message".
    pub fn feed(&mut self, piece: &[u8], items: &mut ItemList) -> Result<(), OutOfMemory>
        // Of all that happened to it: the piece came too.
        ensures stands { OnOk result
            (Happens LinkStands self.old self.new (Fed piece.now NoLookup)) }
        // Of all that happened to it: what the piece then tells was appended, whatever room the
        // lists of the items have.
        ensures tells { OnOk result (OfEvents LinkStands self.old
            (λ es. map without_spare items.new.items ≡ map without_spare items.old.items
            ++ link_tells self.old.setup es piece.now)) }
        ensures setup { self.new.setup ≡ self.old.setup }
        ensures err_closed { OnErr result (self.new.closed ≡ Some
            (closed_at Memory (counted (self.old.inbox.fed + length piece.now)))) }
        ensures err_items { OnErr result (items.new.items ≡ items.old.items) }
        ensures shut { IfSome self.old.closed (λ c. self.new ≡ self.old) }
        ensures shut_ok { IfSome self.old.closed
            (λ c. IsOk result × (items.new.items ≡ items.old.items)) }
    {
        if self.end.is_closed() {
            return Ok(());
        }
        match self.hear_piece(piece) {
            Ok(told) => match items.append(told) {
                Ok(()) => return Ok(()),
                Err(_) => {}
            },
            Err(_) => {}
        }
        self.end.fail();
        Err(OutOfMemory)
    }

    // Sends a request, unless the link is closed. All is as before after OutOfMemory.
    pub(crate) fn send(
        &mut self,
        request: &SessionMessage,
        out: &mut Vec<u8>,
    ) -> Result<(), OutOfMemory>
        ensures stands { OnOk result (Happens LinkStands self.old self.new (Asked request.now)) }
        ensures says { OnOk result (OfEvents LinkStands self.old
            (λ es. out.new.items ≡ out.old.items
            ++ link_sends self.old.setup (Asked request.now) es)) }
        ensures setup { self.new.setup ≡ self.old.setup }
        ensures err { OnErr result ((self.new ≡ self.old) × (out.new.items ≡ out.old.items)) }
        ensures shut { IfSome self.old.closed
            (λ c. IsOk result × ((self.new ≡ self.old) × (out.new.items ≡ out.old.items))) }
    {
        if self.end.is_closed() {
            return Ok(());
        }
        let mut said = Vec::new(self.alloc);
        self.end.put(request, &mut said)?;
        out.extend_from_slice(&said)?;
        self.end.note_sent(&said);
        Ok(())
    }

    /// A second passes. The link closes at the fifth silent tick in a row; else, where nothing was
    /// sent since the last tick, a heartbeat is appended to `out`. Its Login counts as sent since
    /// the making. Once closed it does nothing. After OutOfMemory it is closed with Memory, and
    /// `out` is as before.
    ///
    /// Standard: "Heartbeat Messages". The number of ticks is this project's own.
    pub fn tick(&mut self, out: &mut Vec<u8>) -> Result<(), OutOfMemory>
        // Of all that happened to it: the tick happened too.
        ensures stands { OnOk result (Happens LinkStands self.old self.new Ticked) }
        // Of all that happened to it: what is then sent at a tick was appended.
        ensures says { OnOk result (OfEvents LinkStands self.old
            (λ es. out.new.items ≡ out.old.items
            ++ sent_at_tick (link_sends self.old.setup) self.old.setup es)) }
        ensures setup { self.new.setup ≡ self.old.setup }
        ensures err_closed { OnErr result
            (self.new.closed ≡ Some (closed_at Memory self.old.inbox.fed)) }
        ensures err_out { OnErr result (out.new.items ≡ out.old.items) }
        ensures shut { IfSome self.old.closed (λ c. self.new ≡ self.old) }
        ensures shut_ok { IfSome self.old.closed
            (λ c. IsOk result × (out.new.items ≡ out.old.items)) }
    {
        self.end.tick(out)?;
        Ok(())
    }
}
