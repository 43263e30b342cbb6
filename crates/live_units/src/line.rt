//! The line of an image, written into a buffer.

ghost use Rattle.std.specs.Prelude.{◌≡◌, ◌≤◌, ◌+◌, ◌++◌, [], ◌∷◌, take, drop, length, IsErr};
ghost use Rattle.std.specs.Prelude.{OnOk, OnErr};
ghost use Rattle.feed_lines.specs.LineSize.{line_size};
ghost use Rattle.stream_print.specs.Sinks.{PagePrints, PutsPrefix, CountsFault};
ghost use Rattle.live_units.specs.LiveText.{image_line};

use feed_lines::{LINE, put_number_field, put_status};
use pitch_fields::{put_byte, put_text};
use pitch_io::Sink;
use pitch_model::Status;
use stream_print::{Page, PutFailed};

// Writes the line of an image.
#[tactic(auto, unfolding(crate::specs::LiveText::image_line))]
fn put_image_line(out: &mut [u8], at: usize, unit: u8, reach: u32, status: Status) -> usize
    requires { at + line_size ≤ length out.old }
    ensures end { result ≤ at + line_size }
    ensures text { take result out.new ≡ take at out.old ++ image_line unit reach status }
    ensures kept { length out.new ≡ length out.old }
{
    let named = put_number_field(out, at, b"unit ", u64::from(unit));
    let reached = put_number_field(out, named, b" image ", u64::from(reach));
    let colon = put_text(out, reached, b"; ");
    let placed = put_status(out, colon, status);
    put_byte(out, placed, b'\n')
}

/// Prints the line of an image.
pub(crate) fn print_image<O: Sink>(
    unit: u8,
    reach: u32,
    status: Status,
    page: &mut Page,
    out: &mut O,
) -> Result<(), PutFailed>
    ensures printed { OnOk result (PagePrints O.written out.old out.new page.old page.new
        (image_line unit reach status)) }
    ensures err { OnErr result (PutsPrefix O.written out.old out.new
        (page.old.text ++ image_line unit reach status)) }
    ensures cause { CountsFault O.faults out.old out.new (IsErr result) }
{
    let mut line = [0u8; LINE];
    let end = put_image_line(&mut line, 0, unit, reach, status);
    page.print_bytes(&line[..end], out)
}
