//! Cuts the whole blocks off the front of a buffer, and prints them.

ghost use Rattle.std.specs.Prelude.{◌≡◌, ◌≤◌, ◌+◌, ◌*◌, length, IfErr, IfOk, Err};
ghost use Rattle.unit_packets.specs.Cutting.{blocks_of};
ghost use Rattle.stream_print.specs.Sinks.{CountsFault};
ghost use Rattle.stream_print.specs.Printing.{PrintsWhole, FailsBlocks};

use crate::failure::TaskError;
use crate::printer::Printer;
use pitch_io::Sink;
use std::alloc::Global;
use unit_packets::Blocks;

/// Prints the blocks that are whole at the start of some bytes. Answers how many bytes they have.
pub fn print_blocks<O: Sink>(
    alloc: Global,
    bytes: &[u8],
    printer: &mut Printer,
    out: &mut O,
) -> Result<usize, TaskError>
    requires few { 8 * printer.old.number + length bytes.now ≤ 1073741824 }
    ensures prints { IfOk result (λ n.
        PrintsWhole printer.old printer.new bytes.now n (O.written out.old) (O.written out.new)) }
    ensures err { IfErr result (λ error.
        FailsBlocks error printer.old (O.written out.old) (O.written out.new) (blocks_of
        bytes.now)) }
    ensures cause { CountsFault O.faults out.old out.new (result ≡ Err TaskError.Write) }
{
    let mut blocks = Blocks::of_bytes(bytes);
    'next: while let Some(block) = blocks.next_block() {
        printer.print(alloc, &block, out)?;
    }
    Ok(bytes.len() - blocks.rest().len())
}
