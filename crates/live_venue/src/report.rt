//! The books of all units, which are reported once a run is over.

ghost use Rattle.std.specs.Prelude.{◌≡◌, ◌↔◌, ◌⊎◌, ◌++◌, Err, IfErr, List, OnErr, OnOk};
ghost use Rattle.std.specs.Prelude.{Option};
ghost use Rattle.pitch_io.specs.Putting.{Grows};
ghost use Rattle.stream_print.specs.Sinks.{CountsFault, PagePrints, PutsPrefix};
ghost use Rattle.venue_end.specs.declared.setup.VenueSetup.{VenueSetup};
ghost use Rattle.venue_net.specs.VenueCalls.{VenueCall};
ghost use Rattle.venue_units.specs.Units.{OfUnits};
ghost use Rattle.live_venue.specs.Report.{IsUnwritten, ReportEnds, numbered_book, report_text};
ghost use Rattle.live_venue.specs.Report.{served_book, unreported};
ghost use Rattle.live_venue.specs.Standing.{EndsWith};

use crate::error::{ReportError, ServeError};
use crate::fault::InputFault;
use feed_lines::LINE;
use pitch_io::Sink;
use std::alloc::Global;
use stream_print::{PIECE, Page, PrintError, print_book};
use venue_units::VenueUnits;

// Prints the book of the unit at an index, where there is one.
fn print_served<O: Sink>(
    alloc: Global,
    units: &VenueUnits,
    at: usize,
    page: &mut Page,
    out: &mut O,
) -> Result<(), PrintError>
    ensures printed { OnOk result (OfUnits units.now (λ s came.
        PagePrints O.written out.old out.new page.old page.new (served_book s came at))) }
    ensures err { OnErr result (OfUnits units.now (λ s came.
        PutsPrefix O.written out.old out.new (page.old.text ++ served_book s came at))) }
    ensures cause { CountsFault O.faults out.old out.new (result ≡ Err PrintError.Write) }
{
    match units.end_at(at) {
        None => Ok(()),
        Some(end) => print_book(alloc, page, out, end.unit(), end.count(), end.book()),
    }
}

// Prints the book of the first unit that has a number, where one has.
fn print_numbered<O: Sink>(
    alloc: Global,
    units: &VenueUnits,
    unit: u8,
    page: &mut Page,
    out: &mut O,
) -> Result<(), PrintError>
    ensures printed { OnOk result (OfUnits units.now (λ s came.
        PagePrints O.written out.old out.new page.old page.new (numbered_book s came unit))) }
    ensures err { OnErr result (OfUnits units.now (λ s came.
        PutsPrefix O.written out.old out.new (page.old.text ++ numbered_book s came unit))) }
    ensures cause { CountsFault O.faults out.old out.new (result ≡ Err PrintError.Write) }
{
    match units.index_of(unit) {
        None => Ok(()),
        Some(at) => print_served(alloc, units, at, page, out),
    }
}

// Prints the books of all units, by rising number.
fn print_all<O: Sink>(
    alloc: Global,
    units: &VenueUnits,
    page: &mut Page,
    out: &mut O,
) -> Result<(), PrintError>
    ensures printed { OnOk result (OfUnits units.now (λ s came.
        PagePrints O.written out.old out.new page.old page.new (report_text s came))) }
    ensures err { OnErr result (OfUnits units.now (λ s came.
        PutsPrefix O.written out.old out.new (page.old.text ++ report_text s came))) }
    ensures cause { CountsFault O.faults out.old out.new (result ≡ Err PrintError.Write) }
{
    'units: for number in 0..256u16 {
        print_numbered(alloc, units, number as u8, page, out)?;
    }
    Ok(())
}

// Writes the books of all units.
fn write_all<O: Sink>(alloc: Global, units: &VenueUnits, out: &mut O) -> Result<(), PrintError>
    ensures ok { OnOk result (OfUnits units.now (λ s came.
        Grows (O.written out.old) (O.written out.new) (report_text s came))) }
    ensures err { OnErr result (OfUnits units.now (λ s came.
        PutsPrefix O.written out.old out.new (report_text s came))) }
    ensures cause { CountsFault O.faults out.old out.new (result ≡ Err PrintError.Write) }
{
    let mut page = Page::make(alloc, PIECE + LINE)?;
    print_all(alloc, units, &mut page, out)?;
    page.flush(out)?;
    Ok(())
}

// Why a run that ended with this fault, or with none, has no report.
fn unreported(fault: Option<InputFault>, error: PrintError) -> ReportError
    ensures { result ≡ unreported fault error }
{
    match error {
        PrintError::Write => ReportError::Write(fault),
        PrintError::OutOfMemory => ReportError::Serve(ServeError::OutOfMemory),
    }
}

// Writes the books of all units behind a run that ended with this fault, or with none.
fn write_after<O: Sink>(
    alloc: Global,
    units: &VenueUnits,
    fault: Option<InputFault>,
    out: &mut O,
) -> Result<(), ReportError>
    ensures ok { OnOk result (OfUnits units.now (λ s came.
        Grows (O.written out.old) (O.written out.new) (report_text s came))) }
    ensures err { OnErr result (OfUnits units.now (λ s came.
        PutsPrefix O.written out.old out.new (report_text s came))) }
    ensures why { IfErr result (λ error. (error ≡ ReportError.Write fault)
        ⊎ (error ≡ ReportError.Serve ServeError.OutOfMemory)) }
    ensures cause { CountsFault O.faults out.old out.new (IsUnwritten result) }
{
    match write_all(alloc, units, out) {
        Ok(()) => Ok(()),
        Err(error) => Err(unreported(fault, error)),
    }
}

// Writes the books of all units behind a run that ended by this error, where it is a fault of the
// input.
fn report_error<O: Sink>(
    alloc: Global,
    units: &VenueUnits,
    error: ServeError,
    out: &mut O,
) -> Result<(), ReportError>
    ensures ends { (s : List VenueSetup) (calls calls' : Option (List VenueCall))
        → EndsWith s (Err error) calls calls' units.now
        → ReportEnds s result calls calls' (O.written out.old) (O.written out.new) }
    ensures net { (result ≡ Err (ReportError.Serve ServeError.Net)) ↔ (error ≡ ServeError.Net) }
    ensures cause { CountsFault O.faults out.old out.new (IsUnwritten result) }
{
    match error {
        ServeError::Input(fault) => {
            write_after(alloc, units, Some(fault), out)?;
            Err(ReportError::Serve(ServeError::Input(fault)))
        }
        ServeError::Net => Err(ReportError::Serve(ServeError::Net)),
        ServeError::OutOfMemory => Err(ReportError::Serve(ServeError::OutOfMemory)),
    }
}

/// Writes the books of all units, where the run was over and where the input has a fault.
pub(crate) fn report_end<O: Sink>(
    alloc: Global,
    units: &VenueUnits,
    ended: Result<(), ServeError>,
    out: &mut O,
) -> Result<(), ReportError>
    // However the run went, these are the books that its units have at its end.
    ensures ends { (s : List VenueSetup) (calls calls' : Option (List VenueCall))
        → EndsWith s ended calls calls' units.now
        → ReportEnds s result calls calls' (O.written out.old) (O.written out.new) }
    ensures net { (result ≡ Err (ReportError.Serve ServeError.Net)) ↔ (ended ≡ Err ServeError.Net) }
    ensures cause { CountsFault O.faults out.old out.new (IsUnwritten result) }
{
    match ended {
        Ok(()) => write_after(alloc, units, None, out),
        Err(error) => report_error(alloc, units, error, out),
    }
}
