//! The lines of `show` for the messages of a block, put on the page.

ghost use Rattle.std.specs.Prelude.{◌≡◌, ◌≤◌, ◌++◌, length, OnOk, OnErr, IsErr};
ghost use Rattle.unit_packets.specs.Blocks.{StaysWithin};
ghost use Rattle.stream_print.specs.Sinks.{PagePrints, PutsPrefix, CountsFault};
ghost use Rattle.feed_lines.specs.Show.{message_lines};

use crate::page::Page;
use crate::putting::PutFailed;
use feed_lines::next_after;
use pitch_io::Sink;
use pitch_messages::Raws;

/// Prints the lines of messages, the first of which has this sequence; 0 means that they have none.
pub fn print_messages<O: Sink>(
    page: &mut Page,
    out: &mut O,
    first: u32,
    raws: Raws<'_>,
) -> Result<(), PutFailed>
    requires within { StaysWithin first (length raws) }
    ensures printed { OnOk result (
        PagePrints O.written out.old out.new page.old page.new (message_lines first raws.entry)) }
    ensures err { OnErr result (
        PutsPrefix O.written out.old out.new (page.old.text ++ message_lines first raws.entry)) }
    ensures cause { CountsFault O.faults out.old out.new (IsErr result) }
{
    let mut raws = raws;
    let mut sequence = first;
    'messages: while let Some(raw) = raws.next_raw() {
        page.make_place(out)?;
        page.add_message(sequence, raw);
        sequence = next_after(sequence);
    }
    Ok(())
}
