//! What comes to the unit in a place, where one stands there.

ghost use Rattle.std.specs.Prelude.{◌≡◌, [], ℕ, List, OnOk, OnErr, IfOk, IsErr, Err, None};
ghost use Rattle.std.specs.Prelude.{◌≢◌, IsOk, is_some, false};
ghost use Rattle.client_end.specs.Came.{Second};
ghost use Rattle.sending_end.specs.Waiting.{made, ended};
ghost use Rattle.stream_print.specs.Sinks.{PagePrintsSuch, PutsPrefix, PutsPrefixSuch};
ghost use Rattle.stream_print.specs.Sinks.{CountsFault};
ghost use Rattle.live_units.specs.Coming.{LiveSetup, UnitCame, StandsNone, is_listened, stands_at};
ghost use Rattle.live_units.specs.Places.{IsUnitAt, IsNewAt, IsTextAt, AtPlace, HearsAt, TakesAt};
ghost use Rattle.live_units.specs.Places.{waits_at};
ghost use Rattle.live_units.specs.Standing.{UnitPasses, UnitStays, UnitLoses, UnitSends};

use crate::unit::{LiveUnit, Taken};
use pitch_fields::{HoldLimit, OutOfMemory};
use pitch_io::Sink;
use sending_end::{Account, Session};
use std::alloc::Global;
use stream_print::{Page, PrintError, PutFailed};
use unit_packets::BlockView;

// Whether a unit is named, or none is.
fn is_listened(units: &[u8], unit: u8) -> bool
    ensures { result ≡ is_listened units.now unit }
{
    units.is_empty() || units.contains(&unit)
}

/// Listens to the unit of an empty place, where it is named or no unit is.
pub(crate) fn listen_at(
    alloc: Global,
    place: &mut Option<LiveUnit>,
    unit: u8,
    units: &[u8],
    account: &Account,
    limit: HoldLimit,
) -> Result<(), OutOfMemory>
    ensures { OnOk result (place.old ≡ None → IsNewAt
        (record { units = units.now; account = account.now; hold = limit }) unit place.new) }
{
    if !is_listened(units, unit) {
        return Ok(());
    }
    let made = LiveUnit::make(alloc, unit, account, limit)?;
    drop(place.replace(made));
    Ok(())
}

/// A block came for the unit in a place, and has this number among those that are heard. Answers
/// whether one stands there.
pub(crate) fn hear_at<O: Sink>(
    place: &mut Option<LiveUnit>,
    number: u64,
    block: &BlockView<'_>,
    page: &mut Page,
    out: &mut O,
) -> Result<bool, PrintError>
    ensures hears { OnOk result (HearsAt number block.now place.old place.new
        (O.written out.old) (O.written out.new) page.old.text page.new.text) }
    ensures there { IfOk result (λ there. there ≡ is_some place.old) }
    ensures err { OnErr result (PutsPrefix O.written out.old out.new page.old.text) }
    ensures cause { CountsFault O.faults out.old out.new (result ≡ Err PrintError.Write) }
    ensures heartbeat { block.now.raws ≡ [] → result ≢ Err PrintError.OutOfMemory }
{
    match place {
        None => Ok(false),
        Some(unit) => {
            unit.hear_block(number, block, page, out)?;
            Ok(true)
        }
    }
}

/// A connection of a session was made.
pub(crate) fn connect_at(place: &mut Option<LiveUnit>, session: Session) -> Result<(), OutOfMemory>
    ensures passes { OnOk result
        (AtPlace (λ u u'. UnitPasses u u' (made session)) place.old place.new) }
    ensures err { OnErr result (AtPlace UnitStays place.old place.new) }
{
    match place {
        None => Ok(()),
        Some(unit) => unit.connected(session),
    }
}

/// A connection of a session ended.
pub(crate) fn cut_at(place: &mut Option<LiveUnit>, session: Session)
    ensures { AtPlace (λ u u'. UnitPasses u u' (ended session)) place.old place.new }
{
    match place {
        None => {}
        Some(unit) => unit.cut(session),
    }
}

/// A second passes.
pub(crate) fn second_at(place: &mut Option<LiveUnit>) -> Result<(), OutOfMemory>
    ensures passes { OnOk result
        (AtPlace (λ u u'. UnitPasses u u' Second) place.old place.new) }
    ensures err { OnErr result (AtPlace UnitLoses place.old place.new) }
    ensures none { (s : LiveSetup) (came : List UnitCame) (unit : ℕ)
        → IsUnitAt s came unit place.old → StandsNone s unit came → IsOk result }
{
    match place {
        None => Ok(()),
        Some(unit) => unit.second(),
    }
}

/// Bytes of a session came.
pub(crate) fn take_at<O: Sink>(
    place: &mut Option<LiveUnit>,
    session: Session,
    piece: &[u8],
    page: &mut Page,
    out: &mut O,
) -> Result<Taken, PutFailed>
    ensures takes { TakesAt session piece.now place.old place.new result
        (O.written out.old) (O.written out.new) page.old.text page.new.text }
    ensures none { IfOk result (λ taken. (s : LiveSetup) (came : List UnitCame) (unit : ℕ)
        → IsUnitAt s came unit place.old → stands_at s unit session came ≡ false
        → taken ≡ Taken.Whole) }
    ensures cause { CountsFault O.faults out.old out.new (IsErr result) }
{
    match place {
        None => Ok(Taken::Whole),
        Some(unit) => unit.took(session, piece, page, out),
    }
}

/// The bytes that wait for a session.
pub(crate) fn waiting_at(place: &Option<LiveUnit>, session: Session) -> &[u8]
    ensures { result.now ≡ waits_at place.now session }
{
    match place {
        None => &[],
        Some(unit) => unit.waiting_bytes(session),
    }
}

/// So many of the first bytes that wait for a session were sent.
pub(crate) fn sent_at(place: &mut Option<LiveUnit>, session: Session, count: usize)
    ensures { AtPlace (UnitSends session count) place.old place.new }
{
    match place {
        None => {}
        Some(unit) => unit.sent(session, count),
    }
}

/// Prints the unit's book, where it was told of.
pub(crate) fn print_at<O: Sink>(
    alloc: Global,
    place: &Option<LiveUnit>,
    page: &mut Page,
    out: &mut O,
) -> Result<(), PrintError>
    // Whatever came to the unit, the book that it has by that was printed.
    ensures printed { OnOk result ((s : LiveSetup) (came : List UnitCame) (unit : ℕ)
        → IsUnitAt s came unit place.now → PagePrintsSuch (IsTextAt s came unit)
        O.written out.old out.new page.old page.new) }
    ensures err { OnErr result ((s : LiveSetup) (came : List UnitCame) (unit : ℕ)
        → IsUnitAt s came unit place.now → PutsPrefixSuch (IsTextAt s came unit)
        O.written out.old out.new page.old) }
    ensures cause { CountsFault O.faults out.old out.new (result ≡ Err PrintError.Write) }
{
    match place {
        None => Ok(()),
        Some(unit) => unit.print_end(alloc, page, out),
    }
}
