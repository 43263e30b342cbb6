//! All units of a live client, and the routing of what comes to them.

ghost use Rattle.std.specs.Prelude.{◌≡◌, ◌≤◌, [], ℕ, List, OnOk, OnErr, IfOk, IsErr, Err, Option};
ghost use Rattle.std.specs.Prelude.{◌≢◌, ◌<◌, ◌+◌, ◌^◌, IsOk, None, length, slice_get, false};
ghost use Rattle.pitch_io.specs.Putting.{Grows};
ghost use Rattle.client_end.specs.Came.{Heard, Second};
ghost use Rattle.sending_end.specs.Waiting.{made, ended};
ghost use Rattle.stream_print.specs.Putting.{PutsSome};
ghost use Rattle.stream_print.specs.Sinks.{PagePrintsSuch, PutsPrefixSuch, CountsFault};
ghost use Rattle.unit_clients.specs.Tables.{AtEach};
ghost use Rattle.live_units.specs.Coming.{LiveSetup, UnitCame, AreBooksBelow, HasBeatsAlone};
ghost use Rattle.live_units.specs.Coming.{StandsNone};
ghost use Rattle.live_units.specs.Coming.{has_unit, live_lines, passed_of, stands_at, to_unit};
ghost use Rattle.live_units.specs.Coming.{with_came, with_datagram};
ghost use Rattle.live_units.specs.Ended.{has_ended};
ghost use Rattle.live_units.specs.Places.{IsNewAt, IsUnitAt};
ghost use Rattle.live_units.specs.Units.{AreFirstBooks, OfLive, LiveStands, LiveEnds};
ghost use Rattle.live_units.specs.Units.{AllWait, PassesAt, StayAll, LosesAt, TakesBytes, SendsAt};
ghost use Rattle.live_units.specs.Units.{HasGrown, NoneWaitAtAll, waiting_at};

use crate::place::{
    connect_at, cut_at, hear_at, listen_at, print_at, second_at, sent_at, take_at, waiting_at,
};
use crate::unit::{LiveUnit, Taken};
use feed_lines::LINE;
use pitch_fields::{HoldLimit, OutOfMemory};
use pitch_io::Sink;
use sending_end::{Account, Passed, Session};
use std::alloc::Global;
use stream_print::{PIECE, Page, PrintError, PutFailed};
use unit_clients::UnitTable;
use unit_packets::{BlockView, Blocks};

/// The units that a live client listens to, how many blocks they heard, and the text that is not
/// written yet.
#[derive(Drop)]
pub struct LiveUnits {
    units: UnitTable<LiveUnit>,
    number: u64,
    page: Page,
}

// Listens to the named units, or to all where none is named.
fn listen_to(
    alloc: Global,
    table: &mut UnitTable<LiveUnit>,
    units: &[u8],
    account: &Account,
    limit: HoldLimit,
) -> Result<(), OutOfMemory>
    requires none { AtEach (λ unit place. place ≡ None) table.old.places }
    ensures { OnOk result (AtEach (IsNewAt
        (record { units = units.now; account = account.now; hold = limit }))
        table.new.places) }
{
    'units: for number in 0..256u16 {
        let unit = number as u8;
        listen_at(alloc, table.place_at(unit), unit, units, account, limit)?;
    }
    Ok(())
}

// Prints the books of all units that were told of, by rising number.
fn print_books<O: Sink>(
    alloc: Global,
    places: &[Option<LiveUnit>],
    page: &mut Page,
    out: &mut O,
) -> Result<(), PrintError>
    requires many { length places.now ≡ 256 }
    // Whatever came to the units, the books that they have by that were printed.
    ensures printed { OnOk result ((s : LiveSetup) (came : List UnitCame)
        → AtEach (IsUnitAt s came) places.now → PagePrintsSuch (AreBooksBelow 256 s came)
        O.written out.old out.new page.old page.new) }
    ensures err { OnErr result ((s : LiveSetup) (came : List UnitCame)
        → AtEach (IsUnitAt s came) places.now → PutsPrefixSuch (AreFirstBooks s came)
        O.written out.old out.new page.old) }
    ensures cause { CountsFault O.faults out.old out.new (result ≡ Err PrintError.Write) }
{
    'units: for unit in 0..places.len() {
        print_at(alloc, &places[unit], page, out)?;
    }
    Ok(())
}

impl LiveUnits {
    /// Listens to the named units, or to all where none is named; nothing came to them yet. The
    /// client of each holds at most `limit` messages, for which it takes memory here, and each logs
    /// in with the account.
    pub fn make(
        alloc: Global,
        units: &[u8],
        account: &Account,
        limit: HoldLimit,
    ) -> Result<LiveUnits, OutOfMemory>
        ensures stand { IfOk result (λ l. (start : Option (List ℕ)) → LiveStands
            (record { units = units.now; account = account.now; hold = limit })
            start start l []) }
        ensures waits { IfOk result (λ l. NoneWaitAtAll l) }
    {
        let mut table = UnitTable::make(alloc, limit)?;
        listen_to(alloc, &mut table, units, account, limit)?;
        Ok(LiveUnits {
            units: table,
            number: 0,
            page: Page::make(alloc, PIECE + LINE)?,
        })
    }

    // The place of a unit.
    fn place(&self, unit: u8) -> &Option<LiveUnit>
        ensures { slice_get self.now.units.places unit ≡ Some result.now }
    {
        &self.units.places()[unit as usize]
    }

    // A block came on a line: its line is printed, where its unit is listened to. Answers whether
    // it is.
    fn hear_block<O: Sink>(
        &mut self,
        block: &BlockView<'_>,
        out: &mut O,
    ) -> Result<bool, PrintError>
        ensures hears { OnOk result (OfLive self.old (O.written out.old) (λ s start came.
            LiveStands s start (O.written out.new) self.new
            (with_came s (to_unit block.now.unit (Heard block.now)) came))) }
        ensures waits { OnOk result (AllWait self.old self.new) }
        ensures there { IfOk result (λ there. OfLive self.old (O.written out.old)
            (λ s start came. there ≡ has_unit s block.now.unit)) }
        ensures err { OnErr result (OfLive self.old (O.written out.old) (λ s start came.
            PutsSome start (O.written out.new) (live_lines s came))) }
        ensures cause { CountsFault O.faults out.old out.new (result ≡ Err PrintError.Write) }
        ensures grows { OfLive self.old (O.written out.old) (λ s start came.
            HasGrown (O.written out.old) (O.written out.new)) }
        ensures number { OnOk result (self.new.number ≤ self.old.number + 1) }
        ensures heartbeat { block.now.raws ≡ [] → self.old.number + 1 < 2 ^ 64
            → result ≢ Err PrintError.OutOfMemory }
    {
        let Some(number) = self.number.checked_add(1) else {
            return Err(PrintError::OutOfMemory);
        };
        let heard = hear_at(
            self.units.place_of(block),
            number,
            block,
            &mut self.page,
            out,
        )?;
        if heard {
            self.number = number;
        }
        Ok(heard)
    }

    /// A datagram came on a line: the whole blocks at its start are heard, where their units are
    /// listened to, and their lines printed. Answers how many blocks were heard, how many were of
    /// other units, and how many bytes follow the last whole one.
    ///
    /// `OutOfMemory` is also what a block would be answered behind 2^64 - 1 that were heard.
    pub fn hear_datagram<O: Sink>(
        &mut self,
        bytes: &[u8],
        out: &mut O,
    ) -> Result<Passed, PrintError>
        ensures hears { OnOk result (OfLive self.old (O.written out.old) (λ s start came.
            LiveStands s start (O.written out.new) self.new (with_datagram s bytes.now came))) }
        ensures waits { OnOk result (AllWait self.old self.new) }
        ensures counts { IfOk result (λ passed. OfLive self.old (O.written out.old)
            (λ s start came. passed ≡ passed_of s bytes.now)) }
        ensures err { OnErr result (OfLive self.old (O.written out.old) (λ s start came.
            PutsSome start (O.written out.new) (live_lines s (with_datagram s bytes.now came)))) }
        ensures cause { CountsFault O.faults out.old out.new (result ≡ Err PrintError.Write) }
        ensures grows { OfLive self.old (O.written out.old) (λ s start came.
            HasGrown (O.written out.old) (O.written out.new)) }
        ensures heartbeats { OfLive self.old (O.written out.old) (λ s start came.
            HasBeatsAlone bytes.now came → result ≢ Err PrintError.OutOfMemory) }
    {
        let mut heard = 0;
        let mut others = 0;
        let mut blocks = Blocks::of_bytes(bytes);
        'next: while let Some(block) = blocks.next_block() {
            if self.hear_block(&block, out)? {
                heard += 1;
            } else {
                others += 1;
            }
        }
        Ok(Passed {
            heard,
            others,
            rest: blocks.rest().len() as u64,
        })
    }

    /// A connection of a session of a unit was made; one that stood before has ended. The login
    /// waits, and nothing else. After OutOfMemory all is as before.
    pub fn connected(&mut self, unit: u8, session: Session) -> Result<(), OutOfMemory>
        ensures passes { OnOk result ((now : Option (List ℕ))
            → PassesAt self.old self.new now now unit (made session)) }
        ensures err { OnErr result (StayAll self.old self.new) }
    {
        connect_at(self.units.place_at(unit), session)?;
        Ok(())
    }

    /// Bytes of a session of a unit came. Where the unit's reach has moved by them, a line tells
    /// that. `Lost`: memory ran out, the unit heard no more than the first so many items of them,
    /// and the connection is cut.
    pub fn took<O: Sink>(
        &mut self,
        unit: u8,
        session: Session,
        piece: &[u8],
        out: &mut O,
    ) -> Result<Taken, PutFailed>
        ensures takes { TakesBytes unit session piece.now self.old self.new
            (O.written out.old) (O.written out.new) result }
        ensures grows { OfLive self.old (O.written out.old) (λ s start came.
            HasGrown (O.written out.old) (O.written out.new)) }
        ensures none { IfOk result (λ taken. OfLive self.old (O.written out.old)
            (λ s start came. stands_at s unit session came ≡ false → taken ≡ Taken.Whole)) }
        ensures cause { CountsFault O.faults out.old out.new (IsErr result) }
    {
        let taken = take_at(
            self.units.place_at(unit),
            session,
            piece,
            &mut self.page,
            out,
        )?;
        Ok(taken)
    }

    /// The connection of a session of a unit has ended, where one stood.
    pub fn cut(&mut self, unit: u8, session: Session)
        ensures { (now : Option (List ℕ))
            → PassesAt self.old self.new now now unit (ended session) }
    {
        cut_at(self.units.place_at(unit), session);
    }

    /// A second passes for a unit. After OutOfMemory both its connections are cut, and nothing
    /// waits for them.
    pub fn second(&mut self, unit: u8) -> Result<(), OutOfMemory>
        ensures passes { OnOk result ((now : Option (List ℕ))
            → PassesAt self.old self.new now now unit Second) }
        ensures err { OnErr result (LosesAt self.old self.new unit) }
        ensures none { (now : Option (List ℕ)) → OfLive self.old now (λ s start came.
            StandsNone s unit came → IsOk result) }
    {
        second_at(self.units.place_at(unit))?;
        Ok(())
    }

    /// The bytes that wait for a session of a unit; none where the unit is not listened to.
    pub fn waiting_bytes(&self, unit: u8, session: Session) -> &[u8]
        ensures { result.now ≡ waiting_at self.now unit session }
    {
        waiting_at(self.place(unit), session)
    }

    /// So many of the first bytes that wait for a session of a unit were sent, and wait no more.
    /// Where fewer wait, none do then.
    pub fn sent(&mut self, unit: u8, session: Session, count: usize)
        ensures { SendsAt self.old self.new unit session count }
    {
        sent_at(self.units.place_at(unit), session, count);
    }

    /// Whether a connection of a session of a unit stands: one was made, and neither ended nor
    /// closed.
    pub fn has(&self, unit: u8, session: Session) -> bool
        ensures { (now : Option (List ℕ)) → OfLive self.now now (λ s start came.
            result ≡ stands_at s unit session came) }
    {
        match self.place(unit) {
            None => false,
            Some(unit) => unit.has(session),
        }
    }

    /// Whether a unit has ended: an End of Session of it came, and its client has every message up
    /// to that one.
    pub fn has_ended(&self, unit: u8) -> bool
        ensures { (now : Option (List ℕ)) → OfLive self.now now (λ s start came.
            result ≡ has_ended s unit came) }
    {
        match self.place(unit) {
            None => false,
            Some(unit) => unit.has_ended(),
        }
    }

    /// Writes out what was printed.
    pub fn flush<O: Sink>(&mut self, out: &mut O) -> Result<(), PutFailed>
        ensures stand { OnOk result (OfLive self.old (O.written out.old) (λ s start came.
            LiveStands s start (O.written out.new) self.new came)) }
        ensures written { OnOk result (OfLive self.old (O.written out.old) (λ s start came.
            Grows start (O.written out.new) (live_lines s came))) }
        ensures grows { OfLive self.old (O.written out.old) (λ s start came.
            HasGrown (O.written out.old) (O.written out.new)) }
        ensures waits { AllWait self.old self.new }
        ensures err { OnErr result (OfLive self.old (O.written out.old) (λ s start came.
            PutsSome start (O.written out.new) (live_lines s came))) }
        ensures cause { CountsFault O.faults out.old out.new (IsErr result) }
    {
        self.page.flush(out)
    }

    /// Prints the books of all units that were told of, by rising number, and writes out all that
    /// was printed.
    pub fn finish<O: Sink>(&mut self, alloc: Global, out: &mut O) -> Result<(), PrintError>
        // Whatever came, the whole text was written, or a prefix of it, as the answer says.
        ensures ends { OfLive self.old (O.written out.old) (λ s start came.
            LiveEnds s came start (O.written out.new) result) }
        ensures grows { OfLive self.old (O.written out.old) (λ s start came.
            HasGrown (O.written out.old) (O.written out.new)) }
        ensures cause { CountsFault O.faults out.old out.new (result ≡ Err PrintError.Write) }
    {
        print_books(alloc, self.units.places(), &mut self.page, out)?;
        self.page.flush(out)?;
        Ok(())
    }
}
