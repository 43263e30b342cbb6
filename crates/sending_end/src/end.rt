//! The end, what it says kept until it is taken.

ghost use Rattle.std.specs.Prelude.{◌≡◌, ◌+◌, ◌∷◌, ◌++◌, [], ℕ, List, None, OnOk, OnErr, IfOk};
ghost use Rattle.std.specs.Prelude.{IsOk, is_some, length, min, take, drop, if◌then◌else◌};
ghost use Rattle.pitch_model.specs.Book.{book_after};
ghost use Rattle.pitch_model.specs.History.{Raw};
ghost use Rattle.pitch_model.specs.Reach.{reach};
ghost use Rattle.pitch_model.specs.Status.{status_of};
ghost use Rattle.unit_packets.specs.Cutting.{blocks_of, rest_of};
ghost use Rattle.heard_items.specs.Changes.{block_change};
ghost use Rattle.client_core.specs.Venues.{IsVenue};

use crate::queue::{drop_sent, keep_where, take_front};
use crate::session::Session;
use client_end::{Account, Ask, Change, ClientEnd, Status, UnitClient};
use order_book::UnitBook;
use pitch_fields::{HoldLimit, OutOfMemory};
use std::alloc::Global;
use unit_packets::{BlockView, Blocks};

/// What a datagram had: blocks of the end's unit, which were heard, those of other units, and the
/// bytes after the last whole block.
#[derive(Clone, Copy)]
pub struct Passed {
    pub heard: u64,
    pub others: u64,
    pub rest: u64,
}

/// The client's end of a unit with the bytes that wait for its two sessions.
#[derive(Drop)]
pub struct SendingEnd {
    alloc: Global,
    unit: u8,
    end: ClientEnd,
    grp_said: Vec<u8>,
    spin_said: Vec<u8>,
}

impl SendingEnd {
    ghost use Rattle.client_end.specs.Came.{EndSetup, Heard, GrpMade, GrpTook, GrpCut, GrpLost};
    ghost use Rattle.client_end.specs.Came.{SpinMade, SpinTook, SpinCut, SpinLost, Second};
    ghost use Rattle.client_end.specs.Came.{end_after, end_history, second_ask};
    ghost use Rattle.client_end.specs.Parts.{ClientHeard};
    ghost use Rattle.client_end.specs.Stands.{OfEnd};
    ghost use Rattle.sending_end.specs.Stands.{SendingStands, OfSending, StaysSo, Passes};
    ghost use Rattle.sending_end.specs.Stands.{LosesAll, HearsBlocks, HearsBegun, NoneWaits};
    ghost use Rattle.sending_end.specs.Waiting.{made, took, ended, lost};
    ghost use Rattle.sending_end.specs.Stands.{WaitsStill};
    ghost use Rattle.sending_end.specs.Waiting.{link_of, kept_for, of_unit};
    ghost use Rattle.sending_end.specs.Stands.{waiting};

    /// An end to which nothing came yet, as `ClientEnd` makes it. Nothing waits.
    pub fn make(
        alloc: Global,
        unit: u8,
        account: &Account,
        limit: HoldLimit,
    ) -> Result<SendingEnd, OutOfMemory>
        ensures stands { IfOk result (λ e. SendingStands
            (record { unit = unit; account = account.now; hold = limit }) e []) }
        ensures waits { IfOk result (λ e. NoneWaits e) }
    {
        let end = ClientEnd::make(alloc, unit, account, limit)?;
        Ok(SendingEnd {
            alloc,
            unit,
            end,
            grp_said: Vec::new(alloc),
            spin_said: Vec::new(alloc),
        })
    }

    /// A block of the unit came on a line. Answers what it changed.
    pub fn hear_block(&mut self, block: &BlockView<'_>) -> Result<Change, OutOfMemory>
        ensures stands { OnOk result (OfSending self.old
            (λ s before. SendingStands s self.new (Heard block.now ∷ before))) }
        ensures change { IfOk result (λ change. OfSending self.old
            (λ s before. change ≡ block_change s.hold (end_history s before) block.now)) }
        ensures waits { WaitsStill self.old self.new }
        ensures same_unit { self.new.unit ≡ self.old.unit }
        ensures err { OnErr result (StaysSo self.old self.new) }
        ensures heartbeat { block.now.raws ≡ [] → IsOk result }
    {
        self.end.hear_block(block)
    }

    // A block of a datagram came. Answers whether it is of the unit.
    fn hear_if_ours(&mut self, block: &BlockView<'_>) -> Result<bool, OutOfMemory>
        ensures hears { OnOk result (HearsBlocks self.old self.new (block.now ∷ [])) }
        ensures counts { IfOk result (λ ours.
            length (of_unit self.old.unit (block.now ∷ [])) ≡ (if ours then 1 else 0)) }
        ensures err { OnErr result (StaysSo self.old self.new) }
        ensures same_unit { self.new.unit ≡ self.old.unit }
        ensures ours { OnErr result (block.now.unit ≡ self.old.unit) }
        ensures heartbeat { block.now.raws ≡ [] → IsOk result }
    {
        if block.header().unit != self.unit {
            return Ok(false);
        }
        self.hear_block(block)?;
        Ok(true)
    }

    /// A datagram came on a line: its blocks of the unit are heard, and others passed over.
    pub fn hear_datagram(&mut self, bytes: &[u8]) -> Result<Passed, OutOfMemory>
        ensures hears { OnOk result (HearsBlocks self.old self.new (blocks_of bytes.now)) }
        ensures heard { IfOk result (λ passed.
            passed.heard ≡ length (of_unit self.old.unit (blocks_of bytes.now))) }
        ensures others { IfOk result (λ passed.
            passed.heard + passed.others ≡ length (blocks_of bytes.now)) }
        ensures rest { IfOk result (λ passed. passed.rest ≡ length (rest_of bytes.now)) }
        ensures err { OnErr result (HearsBegun self.old self.new bytes.now) }
    {
        let mut heard = 0;
        let mut others = 0;
        let mut blocks = Blocks::of_bytes(bytes);
        'next: while let Some(block) = blocks.next_block() {
            if self.hear_if_ours(&block)? {
                heard += 1;
            } else {
                others += 1;
            }
        }
        Ok(Passed {
            heard,
            others,
            rest: blocks.rest().len() as u64,
        })
    }

    // What waits for a connection that does not stand is dropped.
    fn settle(&mut self)
        ensures unit { self.new.unit ≡ self.old.unit }
        ensures end { self.new.end ≡ self.old.end }
        ensures proxy { OfEnd self.old.end (λ s before. self.new.grp_said.items
            ≡ kept_for (end_after s before).grp self.old.grp_said.items) }
        ensures spin_server { OfEnd self.old.end (λ s before. self.new.spin_said.items
            ≡ kept_for (end_after s before).spin self.old.spin_said.items) }
    {
        keep_where(self.end.has_grp(), &mut self.grp_said);
        keep_where(self.end.has_spin(), &mut self.spin_said);
    }

    fn connect_proxy(&mut self) -> Result<(), OutOfMemory>
        ensures passes { OnOk result (Passes self.old self.new GrpMade) }
        ensures err { OnErr result (StaysSo self.old self.new) }
    {
        let mut said = Vec::new(self.alloc);
        self.end.connect_grp(&mut said)?;
        self.grp_said = said;
        self.settle();
        Ok(())
    }

    fn connect_spin_server(&mut self) -> Result<(), OutOfMemory>
        ensures passes { OnOk result (Passes self.old self.new SpinMade) }
        ensures err { OnErr result (StaysSo self.old self.new) }
    {
        let mut said = Vec::new(self.alloc);
        self.end.connect_spin(&mut said)?;
        self.spin_said = said;
        self.settle();
        Ok(())
    }

    /// A connection of a session was made; one that stood before has ended. The login waits, and
    /// nothing else.
    pub fn connected(&mut self, session: Session) -> Result<(), OutOfMemory>
        ensures passes { OnOk result (Passes self.old self.new (made session)) }
        ensures err { OnErr result (StaysSo self.old self.new) }
    {
        match session {
            Session::Proxy => self.connect_proxy(),
            Session::SpinServer => self.connect_spin_server(),
        }
    }

    fn take_from_proxy(&mut self, piece: &[u8]) -> Result<(), OutOfMemory>
        ensures passes { OnOk result (Passes self.old self.new (GrpTook piece.now)) }
        ensures err { OnErr result
            ((count : ℕ) × Passes self.old self.new (GrpLost piece.now count)) }
        ensures none { OfSending self.old
            (λ s before. (end_after s before).grp ≡ None → IsOk result) }
    {
        let taken = self.end.take_grp(piece);
        self.settle();
        taken
    }

    fn take_from_spin_server(&mut self, piece: &[u8]) -> Result<(), OutOfMemory>
        ensures passes { OnOk result (Passes self.old self.new (SpinTook piece.now)) }
        ensures err { OnErr result
            ((count : ℕ) × Passes self.old self.new (SpinLost piece.now count)) }
        ensures none { OfSending self.old
            (λ s before. (end_after s before).spin ≡ None → IsOk result) }
    {
        let taken = self.end.take_spin(piece);
        self.settle();
        taken
    }

    /// Bytes of a session came. Where its link closes by them, the connection is cut, and where
    /// memory runs out: the client then heard no more than the first so many items of them.
    pub fn took(&mut self, session: Session, piece: &[u8]) -> Result<(), OutOfMemory>
        ensures passes { OnOk result (Passes self.old self.new (took session piece.now)) }
        ensures err { OnErr result
            ((count : ℕ) × Passes self.old self.new (lost session piece.now count)) }
        ensures none { OfSending self.old
            (λ s before. link_of session (end_after s before) ≡ None → IsOk result) }
    {
        match session {
            Session::Proxy => self.take_from_proxy(piece),
            Session::SpinServer => self.take_from_spin_server(piece),
        }
    }

    fn cut_proxy(&mut self)
        ensures { Passes self.old self.new GrpCut }
    {
        self.end.cut_grp();
        self.settle();
    }

    fn cut_spin_server(&mut self)
        ensures { Passes self.old self.new SpinCut }
    {
        self.end.cut_spin();
        self.settle();
    }

    /// The connection of a session has ended, where one stood.
    pub fn cut(&mut self, session: Session)
        ensures { Passes self.old self.new (ended session) }
    {
        match session {
            Session::Proxy => self.cut_proxy(),
            Session::SpinServer => self.cut_spin_server(),
        }
    }

    /// A second passes. Answers what the client asks for, None where it asks for nothing. After
    /// OutOfMemory both connections are cut, and nothing waits.
    pub fn second(&mut self) -> Result<Option<Ask>, OutOfMemory>
        ensures passes { OnOk result (Passes self.old self.new Second) }
        ensures ask { IfOk result (λ ask. OfSending self.old
            (λ s before. ask ≡ second_ask s (end_after s before))) }
        ensures err { OnErr result (LosesAll self.old self.new) }
        ensures none { OfSending self.old (λ s before. (end_after s before).grp ≡ None
            → (end_after s before).spin ≡ None → IsOk result) }
    {
        match self.end.second(&mut self.grp_said, &mut self.spin_said) {
            Ok(ask) => {
                self.settle();
                Ok(ask)
            }
            Err(error) => {
                self.grp_said.truncate(0);
                self.spin_said.truncate(0);
                Err(error)
            }
        }
    }

    /// Takes the first bytes that wait for a session, as many as there is room for, and answers how
    /// many.
    pub fn send(&mut self, session: Session, into: &mut [u8]) -> usize
        ensures count { result ≡ min (length (waiting session self.old)) (length into.old) }
        ensures into { into.new
            ≡ take result (waiting session self.old) ++ drop result into.old }
        ensures left { waiting session self.new ≡ drop result (waiting session self.old) }
        ensures other { (other : Session) → (other ≡ session → ⊥)
            → waiting other self.new ≡ waiting other self.old }
        ensures stands { OfSending self.old (λ s before. SendingStands s self.new before) }
    {
        match session {
            Session::Proxy => take_front(&mut self.grp_said, into),
            Session::SpinServer => take_front(&mut self.spin_said, into),
        }
    }

    /// The bytes that wait for a session.
    pub fn waiting_bytes(&self, session: Session) -> &[u8]
        ensures { result.now ≡ waiting session self.now }
    {
        match session {
            Session::Proxy => &self.grp_said,
            Session::SpinServer => &self.spin_said,
        }
    }

    /// So many of the first bytes that wait for a session were sent, and wait no more. Where fewer
    /// wait, none do then.
    pub fn sent(&mut self, session: Session, count: usize)
        ensures left { waiting session self.new ≡ drop count (waiting session self.old) }
        ensures other { (other : Session) → (other ≡ session → ⊥)
            → waiting other self.new ≡ waiting other self.old }
        ensures stands { OfSending self.old (λ s before. SendingStands s self.new before) }
    {
        match session {
            Session::Proxy => drop_sent(&mut self.grp_said, count),
            Session::SpinServer => drop_sent(&mut self.spin_said, count),
        }
    }

    /// How many bytes wait for a session.
    pub fn waiting(&self, session: Session) -> usize
        ensures { result ≡ length (waiting session self.now) }
    {
        match session {
            Session::Proxy => self.grp_said.len(),
            Session::SpinServer => self.spin_said.len(),
        }
    }

    /// Whether a connection of a session stands: one was made, and neither ended nor closed.
    pub fn has(&self, session: Session) -> bool
        ensures { OfSending self.now
            (λ s before. result ≡ is_some (link_of session (end_after s before))) }
    {
        match session {
            Session::Proxy => self.end.has_grp(),
            Session::SpinServer => self.end.has_spin(),
        }
    }

    /// The client of the end.
    pub fn client(&self) -> &UnitClient
        ensures { OfSending self.now
            (λ s before. ClientHeard s.hold result.now (end_history s before)) }
    {
        self.end.client()
    }

    /// How far the client is.
    pub fn status(&self) -> Status
        ensures { OfSending self.now
            (λ s before. result ≡ status_of s.hold (end_history s before)) }
    {
        self.end.status()
    }

    /// The sequence up to which the client has every message.
    pub fn reach(&self) -> u32
        ensures { OfSending self.now (λ s before. result ≡ reach s.hold (end_history s before)) }
    {
        self.end.reach()
    }

    /// The book as the messages up to the reach leave it.
    pub fn book(&self) -> &UnitBook
        // Of all that came, and of each venue of which it speaks honestly: the book is the one that
        // exactly the first n messages of the venue leave, n the reach.
        ensures { OfSending self.now (λ s before. (V : List Raw) → IsVenue V (end_history s before)
            → result.now.book ≡ book_after (take (reach s.hold (end_history s before)) V)) }
    {
        self.end.book()
    }
}
