//! The loop from source to sink: it takes pieces, prints their blocks, and then the end.

ghost use Rattle.std.specs.Prelude.{◌≡◌, ◌≢◌, Option, None, ◌≤◌, ◌+◌, ◌*◌, ◌++◌, ℕ, List, length};
ghost use Rattle.std.specs.Prelude.{Err};
ghost use Rattle.std.specs.Io.KnownBytes.{Consumes, Keeps, IsAtEnd};
ghost use Rattle.stream_print.specs.Sinks.{CountsFault};
ghost use Rattle.stream_print.specs.layers.Feeding.{Fed, StreamFeeds};
ghost use Rattle.stream_print.specs.Inputs.{stream_limit, lasting_trouble, StopsSoon, StreamEnds};
ghost use Rattle.stream_print.specs.Told.{between, told, TakesAtMost};
ghost use Rattle.stream_print.specs.layers.Suiting.{Suits};
ghost use Rattle.stream_print.specs.Knowing.{task_form};
ghost use Rattle.stream_print.specs.Readers.{rest_size};
ghost use Rattle.stream_print.specs.declared.carrier.Carrier.{Carrier};

use crate::carrier::Carrier;
use crate::failure::{StreamFailure, StreamTrouble};
use crate::pieces::{PIECE, piece_buffer, take_at_most};
use crate::printer::Printer;
use crate::reader::StreamReader;
use crate::stream_form::StreamForm;
use pitch_io::{Sink, Source, Taken};
use std::alloc::Global;

/// How many bytes of an input are read at most.
pub const INPUT_LIMIT: usize = 1073741824;

// Takes a piece more of the stream, of which at most `INPUT_LIMIT` bytes are taken.
fn feed<O: Sink>(
    alloc: Global,
    printer: &mut Printer,
    reader: &mut StreamReader,
    fed: usize,
    piece: &[u8],
    out: &mut O,
) -> Result<(), StreamFailure>
    requires within { fed ≤ INPUT_LIMIT }
    requires few { 8 * printer.old.number + rest_size reader.old ≤ fed }
    // Where the bytes before were fed, this piece was fed after them, or the stream has ended.
    ensures feeds { (carrier : Carrier) (first now start : Option (List ℕ)) (bytes : List ℕ)
        → length bytes ≡ fed
        → Fed carrier (task_form printer.old.task) start (O.written out.old)
        printer.old reader.old bytes
        → Consumes first now (bytes ++ piece.now)
        → StreamFeeds carrier (task_form printer.old.task) stream_limit result (between first now)
        (between start (O.written out.new)) printer.new reader.new (bytes ++ piece.now) }
    ensures cause { CountsFault O.faults out.old out.new (result ≡ Err StreamFailure.Write) }
    ensures not_read { result ≢ Err StreamFailure.Read }
{
    let kept = piece.len().min(INPUT_LIMIT - fed);
    reader.print_piece(alloc, printer, &piece[..kept], out)?;
    printer.page.flush(out)?;
    match reader.lasting_trouble() {
        Some(trouble) => return Err(StreamFailure::BadInput(trouble)),
        None => {}
    }
    if kept < piece.len() {
        return Err(StreamFailure::BadInput(StreamTrouble::TooLong));
    }
    Ok(())
}

// Ends the stream: prints what stands at its end, unless something is wrong there.
fn finish<O: Sink>(
    alloc: Global,
    printer: &mut Printer,
    reader: &StreamReader,
    out: &mut O,
) -> Result<(), StreamFailure>
    // Where these bytes were fed and the source is at its end, the stream has ended.
    ensures finishes { (carrier : Carrier) (first before now start : Option (List ℕ))
        (bytes : List ℕ) → length bytes ≤ stream_limit
        → Fed carrier (task_form printer.old.task) start (O.written out.old)
        printer.old reader.now bytes
        → lasting_trouble carrier bytes ≡ None
        → Consumes first before bytes → IsAtEnd before × Keeps before now
        → StreamEnds carrier (task_form printer.old.task) stream_limit result (between first now)
        (between start (O.written out.new)) }
    ensures cause { CountsFault O.faults out.old out.new (result ≡ Err StreamFailure.Write) }
    ensures not_read { result ≢ Err StreamFailure.Read }
{
    match reader.end_trouble() {
        Some(trouble) => return Err(StreamFailure::BadInput(trouble)),
        None => {}
    }
    printer.print_end(alloc, out)?;
    reader.print_counts(&mut printer.page, out)?;
    printer.page.flush(out)?;
    Ok(())
}

/// Prints what the form asks for of the blocks in the stream that a source gives: a text for each
/// block, as soon as it has come, and one at the stream's end. At most `INPUT_LIMIT` bytes are
/// read.
///
/// The blocks stand back to back, for a relay those of the lines and those of Spin Servers as they
/// came; or in the datagrams of a capture file. Of a capture the texts are those of the whole
/// blocks of each datagram, in the order of the packets, and the last line counts the packets,
/// those with a datagram and those whose datagram is faulty.
pub fn print_stream<I: Source, O: Sink>(
    alloc: Global,
    carrier: Carrier,
    form: StreamForm,
    input: &mut I,
    out: &mut O,
) -> Result<(), StreamFailure>
    // A relay, behind whose datagrams no line of packets can stand, reads bare blocks.
    requires suits { Suits carrier form }
    // How the stream ended says what was read and what was written.
    ensures ends { StreamEnds carrier form stream_limit result (told I.left input.old input.new)
        (told O.written out.old out.new) }
    // However it ended, at most one byte was taken past the limit.
    ensures reads { TakesAtMost (stream_limit + 1) (told I.left input.old input.new) }
    // Nothing was taken after the piece that shows a trouble which lasts.
    ensures stops { StopsSoon carrier (told I.left input.old input.new) }
    ensures read_cause { CountsFault I.faults input.old input.new
        (result ≡ Err StreamFailure.Read) }
    ensures write_cause { CountsFault O.faults out.old out.new (result ≡ Err StreamFailure.Write) }
{
    let mut printer = Printer::make(alloc, form)?;
    let mut reader = StreamReader::make(alloc, carrier);
    let mut piece = piece_buffer(alloc, PIECE)?;
    let mut fed = 0;
    'takes: for turn in 0..INPUT_LIMIT + 1 {
        match take_at_most(input, &mut piece, INPUT_LIMIT + 1 - fed) {
            Taken::Got(count) => {
                feed(alloc, &mut printer, &mut reader, fed, &piece[..count], out)?;
                fed += count;
            }
            Taken::End => return finish(alloc, &mut printer, &reader, out),
            Taken::Failed => return Err(StreamFailure::Read),
        }
    }
    unreachable!()
}
