//! The end itself: what comes to it, what it says, and how far it is.

ghost use Rattle.std.specs.Prelude.{◌≡◌, ℕ, ◌∷◌, ◌++◌, [], List, OnOk, OnErr, IfOk};
ghost use Rattle.std.specs.Prelude.{IsOk, None, is_some, take};
ghost use Rattle.pitch_model.specs.Book.{book_after};
ghost use Rattle.pitch_model.specs.History.{Raw};
ghost use Rattle.pitch_model.specs.Reach.{reach};
ghost use Rattle.pitch_model.specs.Status.{status_of};
ghost use Rattle.heard_items.specs.Changes.{block_change};
ghost use Rattle.client_core.specs.Venues.{IsVenue};

use crate::session::{ask_through, hear_bytes, hear_cut, hear_second};
use client_core::{Change, UnitClient};
use client_links::{GapLink, SpinLink};
use order_book::UnitBook;
use pitch_fields::{HoldLimit, OutOfMemory};
use pitch_model::{Ask, Status};
use session_ends::Account;
use std::alloc::Global;
use unit_packets::BlockView;

/// The client's end of a unit: its client, and its links with the Gap Request Proxy and with the
/// unit's Spin Server.
#[derive(Drop)]
pub struct ClientEnd {
    alloc: Global,
    unit: u8,
    account: Account,
    client: UnitClient,
    grp: Option<GapLink>,
    spin: Option<SpinLink>,
}

impl ClientEnd {
    ghost use Rattle.client_end.specs.Came.{EndSetup, EndState, Heard, GrpMade, GrpTook, GrpCut};
    ghost use Rattle.client_end.specs.Came.{GrpLost, SpinMade, SpinTook, SpinCut, SpinLost, Second};
    ghost use Rattle.client_end.specs.Came.{end_after, end_history, end_step};
    ghost use Rattle.client_end.specs.Came.{second_ask, to_proxy, to_spin_server};
    ghost use Rattle.client_end.specs.Parts.{ClientHeard, EndIs};
    ghost use Rattle.client_end.specs.Stands.{EndStands, Failed, Loosely, OfEnd, Comes};
    ghost use Rattle.client_end.specs.Stands.{LosesBoth, StandsStill};

    /// An end to which nothing came yet, whose client holds at most `limit` messages. It logs in
    /// with the account.
    pub fn make(
        alloc: Global,
        unit: u8,
        account: &Account,
        limit: HoldLimit,
    ) -> Result<ClientEnd, OutOfMemory>
        ensures stands { IfOk result (λ e. EndStands
            (record { unit = unit; account = account.now; hold = limit }) e []) }
    {
        let client = UnitClient::make(alloc, limit)?;
        Ok(ClientEnd {
            alloc,
            unit,
            account: *account,
            client,
            grp: None,
            spin: None,
        })
    }

    /// A block of the unit came on a line. Answers what it changed.
    pub fn hear_block(&mut self, block: &BlockView<'_>) -> Result<Change, OutOfMemory>
        ensures stands { OnOk result (Comes self.old self.new (Heard block.now)) }
        ensures change { IfOk result (λ change. OfEnd self.old
            (λ s before. change ≡ block_change s.hold (end_history s before) block.now)) }
        ensures err { OnErr result (StandsStill self.old self.new) }
        ensures heartbeat { block.now.raws ≡ [] → IsOk result }
    {
        let change = self
            .client
            .hear_block(block.header().sequence, block.raws(), &mut ())?;
        Ok(change)
    }

    /// A connection with the proxy was made; one that stood before has ended. The login is appended
    /// to `said`.
    pub fn connect_grp(&mut self, said: &mut Vec<u8>) -> Result<(), OutOfMemory>
        ensures stands { OnOk result (Comes self.old self.new GrpMade) }
        ensures says { OnOk result (OfEnd self.old (λ s before. said.new.items
            ≡ said.old.items ++ to_proxy s GrpMade (end_after s before))) }
        ensures err { OnErr result (StandsStill self.old self.new) }
        ensures err_said { OnErr result (said.new.items ≡ said.old.items) }
    {
        let link = GapLink::make(self.alloc, &self.account, said)?;
        self.cut_grp();
        self.grp = Some(link);
        Ok(())
    }

    /// A connection with the Spin Server was made; one that stood before has ended. The login is
    /// appended to `said`.
    pub fn connect_spin(&mut self, said: &mut Vec<u8>) -> Result<(), OutOfMemory>
        ensures stands { OnOk result (Comes self.old self.new SpinMade) }
        ensures says { OnOk result (OfEnd self.old (λ s before. said.new.items
            ≡ said.old.items ++ to_spin_server s SpinMade (end_after s before))) }
        ensures err { OnErr result (StandsStill self.old self.new) }
        ensures err_said { OnErr result (said.new.items ≡ said.old.items) }
    {
        let link = SpinLink::make(self.alloc, self.unit, &self.account, said)?;
        self.cut_spin();
        self.spin = Some(link);
        Ok(())
    }

    /// Bytes came from the proxy. Where the link closes by them, the connection is cut, and where
    /// memory runs out: the client then heard no more than the first so many items of them.
    pub fn take_grp(&mut self, piece: &[u8]) -> Result<(), OutOfMemory>
        ensures stands { OnOk result (Comes self.old self.new (GrpTook piece.now)) }
        ensures err { OnErr result
            ((count : ℕ) × Comes self.old self.new (GrpLost piece.now count)) }
        ensures none { OfEnd self.old
            (λ s before. (end_after s before).grp ≡ None → IsOk result) }
    {
        hear_bytes(self.alloc, &mut self.grp, &mut self.client, piece)
    }

    /// Bytes came from the Spin Server. Where the link closes by them, the connection is cut, and
    /// where memory runs out: the client then heard no more than the first so many items of them.
    pub fn take_spin(&mut self, piece: &[u8]) -> Result<(), OutOfMemory>
        ensures stands { OnOk result (Comes self.old self.new (SpinTook piece.now)) }
        ensures err { OnErr result
            ((count : ℕ) × Comes self.old self.new (SpinLost piece.now count)) }
        ensures none { OfEnd self.old
            (λ s before. (end_after s before).spin ≡ None → IsOk result) }
    {
        hear_bytes(self.alloc, &mut self.spin, &mut self.client, piece)
    }

    /// The connection with the proxy has ended, where one stood.
    pub fn cut_grp(&mut self)
        ensures stands { Comes self.old self.new GrpCut }
    {
        hear_cut(&mut self.grp, &mut self.client)
    }

    /// The connection with the Spin Server has ended, where one stood.
    pub fn cut_spin(&mut self)
        ensures stands { Comes self.old self.new SpinCut }
    {
        hear_cut(&mut self.spin, &mut self.client)
    }

    // Both connections end, whatever their links are.
    fn lose_both(&mut self)
        ensures { (s : EndSetup) (now : EndState) → Loosely s self.old now
            → EndIs s self.new (end_step s SpinCut (end_step s GrpCut now)) }
    {
        hear_cut(&mut self.grp, &mut self.client);
        hear_cut(&mut self.spin, &mut self.client);
    }

    // A second passes. Answers what the client asks for. After OutOfMemory the links may have
    // failed.
    fn pass_second(
        &mut self,
        grp_said: &mut Vec<u8>,
        spin_said: &mut Vec<u8>,
    ) -> Result<Option<Ask>, OutOfMemory>
        ensures stands { OnOk result (Comes self.old self.new Second) }
        ensures ask { IfOk result (λ ask. OfEnd self.old
            (λ s before. ask ≡ second_ask s (end_after s before))) }
        ensures says_grp { OnOk result (OfEnd self.old (λ s before. grp_said.new.items
            ≡ grp_said.old.items ++ to_proxy s Second (end_after s before))) }
        ensures says_spin { OnOk result (OfEnd self.old (λ s before. spin_said.new.items
            ≡ spin_said.old.items ++ to_spin_server s Second (end_after s before))) }
        ensures none { OfEnd self.old (λ s before. (end_after s before).grp ≡ None
            → (end_after s before).spin ≡ None → IsOk result) }
        ensures err { OnErr result (Failed self.old self.new) }
    {
        hear_second(&mut self.grp, &mut self.client, grp_said)?;
        hear_second(&mut self.spin, &mut self.client, spin_said)?;
        let ask = self.client.tick();
        ask_through(
            &mut self.grp,
            &mut self.spin,
            self.unit,
            ask,
            grp_said,
            spin_said,
        )?;
        Ok(ask)
    }

    /// A second passes: both links tick, then the client asks for what it lacks. What that says is
    /// appended, for the proxy to `grp_said`, for the Spin Server to `spin_said`. Answers what the
    /// client asks for, None where it asks for nothing.
    ///
    /// After OutOfMemory both connections are cut, and what was appended belongs to none.
    pub fn second(
        &mut self,
        grp_said: &mut Vec<u8>,
        spin_said: &mut Vec<u8>,
    ) -> Result<Option<Ask>, OutOfMemory>
        ensures stands { OnOk result (Comes self.old self.new Second) }
        ensures ask { IfOk result (λ ask. OfEnd self.old
            (λ s before. ask ≡ second_ask s (end_after s before))) }
        ensures says_grp { OnOk result (OfEnd self.old (λ s before. grp_said.new.items
            ≡ grp_said.old.items ++ to_proxy s Second (end_after s before))) }
        ensures says_spin { OnOk result (OfEnd self.old (λ s before. spin_said.new.items
            ≡ spin_said.old.items ++ to_spin_server s Second (end_after s before))) }
        ensures err { OnErr result (LosesBoth self.old self.new) }
        ensures none { OfEnd self.old (λ s before. (end_after s before).grp ≡ None
            → (end_after s before).spin ≡ None → IsOk result) }
    {
        match self.pass_second(grp_said, spin_said) {
            Ok(ask) => Ok(ask),
            Err(error) => {
                self.lose_both();
                Err(error)
            }
        }
    }

    /// Whether a connection with the proxy stands: one was made, and neither ended nor closed.
    pub fn has_grp(&self) -> bool
        ensures { OfEnd self.now (λ s before. result ≡ is_some (end_after s before).grp) }
    {
        self.grp.is_some()
    }

    /// Whether a connection with the Spin Server stands.
    pub fn has_spin(&self) -> bool
        ensures { OfEnd self.now (λ s before. result ≡ is_some (end_after s before).spin) }
    {
        self.spin.is_some()
    }

    /// Its client, which heard what came on the lines and what the links told.
    pub fn client(&self) -> &UnitClient
        ensures { OfEnd self.now
            (λ s before. ClientHeard s.hold result.now (end_history s before)) }
    {
        &self.client
    }

    /// How far the client is.
    pub fn status(&self) -> Status
        ensures { OfEnd self.now (λ s before. result ≡ status_of s.hold (end_history s before)) }
    {
        self.client.status()
    }

    /// The sequence up to which the client has every message.
    pub fn reach(&self) -> u32
        ensures { OfEnd self.now (λ s before. result ≡ reach s.hold (end_history s before)) }
    {
        self.client.reach()
    }

    /// The book as the messages up to the reach leave it.
    pub fn book(&self) -> &UnitBook
        // Of all that came, and of each venue of which it speaks honestly: the book is the one that
        // exactly the first n messages of the venue leave, n the reach.
        ensures { OfEnd self.now (λ s before. (V : List Raw) → IsVenue V (end_history s before)
            → result.now.book ≡ book_after (take (reach s.hold (end_history s before)) V)) }
    {
        self.client.book()
    }
}
