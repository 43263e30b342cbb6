//! The lines of `quotes`, put on the page one after another.

ghost use Rattle.std.specs.Prelude.{◌≡◌, ◌++◌, OnOk, OnErr, IsErr};
ghost use Rattle.std.specs.List.{flat_map};
ghost use Rattle.best_quotes.specs.QuotesText.{quote_line};
ghost use Rattle.stream_print.specs.Sinks.{PagePrints, PutsPrefix, CountsFault};

use crate::page::Page;
use crate::putting::PutFailed;
use best_quotes::QuoteLine;
use pitch_io::Sink;

/// Prints the lines of quotes of a unit.
pub fn print_quotes<O: Sink>(
    page: &mut Page,
    out: &mut O,
    unit: u8,
    quotes: &[QuoteLine],
) -> Result<(), PutFailed>
    ensures printed { OnOk result (
        PagePrints O.written out.old out.new page.old page.new
        (flat_map (quote_line unit) quotes.now)) }
    ensures err { OnErr result (
        PutsPrefix O.written out.old out.new
        (page.old.text ++ flat_map (quote_line unit) quotes.now)) }
    ensures cause { CountsFault O.faults out.old out.new (IsErr result) }
{
    'lines: for quote in quotes {
        page.make_place(out)?;
        page.add_quote(unit, quote);
    }
    Ok(())
}
