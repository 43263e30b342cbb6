//! A unit of a live client: its end, and what is printed of what comes to it.

ghost use Rattle.std.specs.Prelude.{◌≡◌, ◌++◌, [], ◌∷◌, ℕ, List, OnOk, OnErr, IfOk, IsErr};
ghost use Rattle.std.specs.Prelude.{◌≢◌, Err, IsOk, None, is_some};
ghost use Rattle.pitch_model.specs.History.{Entry};
ghost use Rattle.pitch_model.specs.Reach.{reach};
ghost use Rattle.feed_lines.specs.Follow.{line_at};
ghost use Rattle.client_end.specs.Came.{Came, EndSetup, Heard, Second, end_after, end_history};
ghost use Rattle.sending_end.specs.Waiting.{made, ended, link_of};
ghost use Rattle.sending_end.specs.Stands.{NoneWaits, Passes, WaitsStill};
ghost use Rattle.sending_end.specs.Stands.{waiting};
ghost use Rattle.stream_print.specs.Sinks.{PagePrints, PagePrintsSuch, PutsPrefix};
ghost use Rattle.stream_print.specs.Sinks.{PutsPrefixSuch, CountsFault};
ghost use Rattle.live_units.specs.Ended.{is_ended};
ghost use Rattle.live_units.specs.LiveText.{is_told_of, moved_text};

use crate::ended::after_block;
use crate::line::print_image;
use pitch_fields::{HoldLimit, OutOfMemory};
use pitch_io::Sink;
use sending_end::{Account, SendingEnd, Session};
use std::alloc::Global;
use stream_print::{Page, PrintError, PutFailed, print_book};
use unit_packets::BlockView;

/// What became of bytes of a session.
#[derive(Clone, Copy, PartialEq, Eq)]
pub enum Taken {
    /// All that they tell was heard.
    Whole,
    /// Memory ran out: the unit heard no more than the first so many items of them, and the
    /// connection is cut.
    Lost,
}

/// A unit that is listened to: its end, whether a block of it came, and the lowest sequence of the
/// End of Session messages that came.
#[derive(Drop)]
pub struct LiveUnit {
    unit: u8,
    end: SendingEnd,
    has_block: bool,
    first_end: Option<u32>,
}

impl LiveUnit {
    ghost use Rattle.live_units.specs.Standing.{UnitStands, OfUnit, ComesTo, IsTaken, TakesPiece};
    ghost use Rattle.live_units.specs.Standing.{UnitPasses, UnitStays, UnitLoses, UnitSends};
    ghost use Rattle.live_units.specs.Standing.{IsBookText};

    /// A unit to which nothing came yet, whose client holds at most `limit` messages. It logs in
    /// with the account.
    pub fn make(
        alloc: Global,
        unit: u8,
        account: &Account,
        limit: HoldLimit,
    ) -> Result<LiveUnit, OutOfMemory>
        ensures stands { IfOk result (λ u. UnitStands
            (record { unit = unit; account = account.now; hold = limit }) u []) }
        ensures waits { IfOk result (λ u. NoneWaits u.end) }
    {
        Ok(LiveUnit {
            unit,
            end: SendingEnd::make(alloc, unit, account, limit)?,
            has_block: false,
            first_end: None,
        })
    }

    /// A block of the unit came on a line, and has this number among those that are heard: its line
    /// is printed.
    pub fn hear_block<O: Sink>(
        &mut self,
        number: u64,
        block: &BlockView<'_>,
        page: &mut Page,
        out: &mut O,
    ) -> Result<(), PrintError>
        ensures stands { OnOk result (ComesTo self.old self.new (Heard block.now)) }
        ensures waits { OnOk result (WaitsStill self.old.end self.new.end) }
        ensures printed { OnOk result (OfUnit self.old (λ s before.
            PagePrints O.written out.old out.new page.old page.new
            (line_at s.hold number block.now (end_history s before)))) }
        ensures err { OnErr result (PutsPrefix O.written out.old out.new page.old.text) }
        ensures cause { CountsFault O.faults out.old out.new (result ≡ Err PrintError.Write) }
        ensures heartbeat { block.now.raws ≡ [] → result ≢ Err PrintError.OutOfMemory }
    {
        page.make_place(out)?;
        let change = self.end.hear_block(block)?;
        self.has_block = true;
        self.first_end = after_block(self.first_end, block);
        page.add_block(number, block.header(), change.overflows > 0, change.after);
        Ok(())
    }

    /// A connection of a session was made; one that stood before has ended. The login waits, and
    /// nothing else.
    pub fn connected(&mut self, session: Session) -> Result<(), OutOfMemory>
        ensures passes { OnOk result (UnitPasses self.old self.new (made session)) }
        ensures err { OnErr result (UnitStays self.old self.new) }
    {
        self.end.connected(session)
    }

    /// The connection of a session has ended, where one stood.
    pub fn cut(&mut self, session: Session)
        ensures { UnitPasses self.old self.new (ended session) }
    {
        self.end.cut(session);
    }

    /// A second passes. After OutOfMemory both connections are cut, and nothing waits.
    pub fn second(&mut self) -> Result<(), OutOfMemory>
        ensures passes { OnOk result (UnitPasses self.old self.new Second) }
        ensures err { OnErr result (UnitLoses self.old self.new) }
        ensures none { OfUnit self.old (λ s before. (end_after s before).grp ≡ None
            → (end_after s before).spin ≡ None → IsOk result) }
    {
        let _ask = self.end.second()?;
        Ok(())
    }

    /// The bytes that wait for a session.
    pub fn waiting_bytes(&self, session: Session) -> &[u8]
        ensures { result.now ≡ waiting session self.now.end }
    {
        self.end.waiting_bytes(session)
    }

    /// So many of the first bytes that wait for a session were sent, and wait no more. Where fewer
    /// wait, none do then.
    pub fn sent(&mut self, session: Session, count: usize)
        ensures { UnitSends session count self.old self.new }
    {
        self.end.sent(session, count);
    }

    /// Whether a connection of a session stands: one was made, and neither ended nor closed.
    pub fn has(&self, session: Session) -> bool
        ensures { OfUnit self.now
            (λ s before. result ≡ is_some (link_of session (end_after s before))) }
    {
        self.end.has(session)
    }

    // Bytes of a session came.
    fn take(&mut self, session: Session, piece: &[u8]) -> Taken
        ensures takes { (came : Came) × (IsTaken result session piece.now came
            × Passes self.old.end self.new.end came) }
        ensures none { OfUnit self.old (λ s before.
            link_of session (end_after s before) ≡ None → result ≡ Taken.Whole) }
        ensures unit { self.new.unit ≡ self.old.unit }
        ensures has_block { self.new.has_block ≡ self.old.has_block }
        ensures first_end { self.new.first_end ≡ self.old.first_end }
    {
        match self.end.took(session, piece) {
            Ok(()) => Taken::Whole,
            Err(_) => Taken::Lost,
        }
    }

    // Prints how far the unit reaches, where that is another sequence than before.
    fn print_moved<O: Sink>(
        &self,
        before: u32,
        page: &mut Page,
        out: &mut O,
    ) -> Result<(), PutFailed>
        ensures printed { OnOk result (OfUnit self.now (λ s now. (E : List Entry)
            → before ≡ reach s.hold E → PagePrints O.written out.old out.new page.old page.new
            (moved_text s E (end_history s now)))) }
        ensures err { OnErr result (OfUnit self.now (λ s now. (E : List Entry)
            → before ≡ reach s.hold E → PutsPrefix O.written out.old out.new
            (page.old.text ++ moved_text s E (end_history s now)))) }
        ensures cause { CountsFault O.faults out.old out.new (IsErr result) }
    {
        let reach = self.end.reach();
        if reach == before {
            return Ok(());
        }
        print_image(self.unit, reach, self.end.status(), page, out)
    }

    /// Bytes of a session came. Where the unit's reach has moved by them, a line tells that.
    pub fn took<O: Sink>(
        &mut self,
        session: Session,
        piece: &[u8],
        page: &mut Page,
        out: &mut O,
    ) -> Result<Taken, PutFailed>
        ensures takes { TakesPiece self.old self.new session piece.now result
            (O.written out.old) (O.written out.new) page.old.text page.new.text }
        ensures none { IfOk result (λ taken. OfUnit self.old (λ s before.
            link_of session (end_after s before) ≡ None → taken ≡ Taken.Whole)) }
        ensures cause { CountsFault O.faults out.old out.new (IsErr result) }
    {
        let before = self.end.reach();
        let taken = self.take(session, piece);
        self.print_moved(before, page, out)?;
        Ok(taken)
    }

    /// Whether the unit has ended: an End of Session came whose sequence is not above its reach.
    pub fn has_ended(&self) -> bool
        ensures { OfUnit self.now
            (λ s before. result ≡ is_ended s.hold (end_history s before)) }
    {
        match self.first_end {
            None => false,
            Some(first) => first <= self.end.reach(),
        }
    }

    // Whether a block of the unit came, or its reach is above 0.
    fn is_told_of(&self) -> bool
        ensures { OfUnit self.now (λ s before. result ≡ is_told_of s before) }
    {
        self.has_block || self.end.reach() > 0
    }

    /// Prints the unit's book, where it was told of.
    pub fn print_end<O: Sink>(
        &self,
        alloc: Global,
        page: &mut Page,
        out: &mut O,
    ) -> Result<(), PrintError>
        // Whatever came to the unit, the book that it has by that was printed.
        ensures printed { OnOk result (OfUnit self.now (λ s before.
            PagePrintsSuch (IsBookText s before) O.written out.old out.new page.old page.new)) }
        ensures err { OnErr result (OfUnit self.now (λ s before.
            PutsPrefixSuch (IsBookText s before) O.written out.old out.new page.old)) }
        ensures cause { CountsFault O.faults out.old out.new (result ≡ Err PrintError.Write) }
    {
        if !self.is_told_of() {
            return Ok(());
        }
        print_book(
            alloc,
            page,
            out,
            self.unit,
            self.end.reach(),
            self.end.book(),
        )
    }
}
