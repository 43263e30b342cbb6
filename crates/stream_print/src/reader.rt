//! Reads a stream by its carrier, and finds what is wrong behind its whole blocks.

ghost use Rattle.std.specs.Prelude.{◌≡◌, ◌≤◌, ◌+◌, ◌*◌, ◌++◌, length, OnOk, OnErr, IfErr, Err};
ghost use Rattle.std.specs.Prelude.{option_map};
ghost use Rattle.unit_packets.specs.Cutting.{blocks_of, fault_in};
ghost use Rattle.unit_packets.specs.Pieces.{loaded};
ghost use Rattle.stream_print.specs.Sinks.{CountsFault};
ghost use Rattle.pcap_feed.specs.Feeding.{held_fault};
ghost use Rattle.stream_print.specs.Printing.{PrintsBare, FailsBlocks};
ghost use Rattle.stream_print.specs.declared.failure.StreamTrouble.TheVariants.{Faulty, BadCapture};

use crate::blocks::print_blocks;
use crate::carrier::Carrier;
use crate::failure::{StreamTrouble, TaskError};
use crate::packets::PacketReader;
use crate::page::Page;
use crate::printer::Printer;
use crate::putting::PutFailed;
use pcap_feed::CaptureReader;
use pitch_io::Sink;
use std::alloc::Global;
use unit_packets::{BlockFault, BlockReader, read_block};

// Prints the blocks that are whole with a piece more of bare blocks.
fn print_bare<O: Sink>(
    alloc: Global,
    reader: &mut BlockReader,
    printer: &mut Printer,
    piece: &[u8],
    out: &mut O,
) -> Result<(), TaskError>
    requires few { 8 * printer.old.number + length reader.old.rest + length piece.now ≤ 1073741824 }
    ensures prints { OnOk result (
        PrintsBare printer.old printer.new (loaded reader.old piece.now) reader.new
        (O.written out.old) (O.written out.new)) }
    ensures err { IfErr result (λ error.
        FailsBlocks error printer.old (O.written out.old) (O.written out.new)
        (blocks_of (reader.old.rest ++ piece.now))) }
    ensures cause { CountsFault O.faults out.old out.new (result ≡ Err TaskError.Write) }
{
    reader.load(piece)?;
    let size = print_blocks(alloc, reader.rest(), printer, out)?;
    reader.pass(size);
    Ok(())
}

// The fault of the bytes behind the whole blocks, where the stream goes on or has ended.
fn block_fault(reader: &BlockReader, ended: bool) -> Option<BlockFault>
    ensures { result ≡ fault_in ended reader.now.place reader.now.rest }
{
    let rest = reader.rest();
    if rest.is_empty() {
        return None;
    }
    match read_block(rest) {
        Ok(_) => None,
        Err(error) => {
            if error.is_truncated() && !ended {
                return None;
            }
            let place = reader.place();
            Some(BlockFault { place, error })
        }
    }
}

// What is wrong behind the whole blocks that a reader has passed, where the stream goes on or has
// ended.
fn block_trouble(reader: &BlockReader, ended: bool) -> Option<StreamTrouble>
    ensures { result ≡ option_map Faulty (fault_in ended reader.now.place reader.now.rest) }
{
    match block_fault(reader, ended) {
        Some(fault) => Some(StreamTrouble::Faulty(fault)),
        None => None,
    }
}

// What is wrong with a capture's header, or behind its whole packets.
fn capture_trouble(reader: &CaptureReader, ended: bool) -> Option<StreamTrouble>
    ensures { result ≡ option_map BadCapture (held_fault ended reader.now) }
{
    match reader.fault(ended) {
        Some(fault) => Some(StreamTrouble::BadCapture(fault)),
        None => None,
    }
}

/// Reads a stream in pieces, by what carries its blocks.
#[derive(Drop)]
pub enum StreamReader {
    /// The blocks stand back to back.
    Blocks(BlockReader),
    /// They stand in the packets of a capture.
    Packets(PacketReader),
}

impl StreamReader {
    ghost use Rattle.std.specs.Prelude.{◌≡◌, ◌≤◌, ◌+◌, ◌*◌, ◌++◌, [], List, ℕ, length, OnOk, OnErr};
    ghost use Rattle.std.specs.Prelude.{IfErr, Err, IsErr};
    ghost use Rattle.stream_print.specs.Sinks.{PagePrints, PutsPrefix, CountsFault};
    ghost use Rattle.stream_print.specs.Carriers.{with_counts};
    ghost use Rattle.stream_print.specs.Inputs.{stream_limit, lasting_trouble, end_trouble};
    ghost use Rattle.stream_print.specs.Printing.{PrintsPiece, FailsBlocks};
    ghost use Rattle.stream_print.specs.Readers.{HasRead, rest_size, blocks_with, packets_text};
    ghost use Rattle.stream_print.specs.declared.carrier.Carrier.{Carrier};

    /// A reader for a carrier, which has read nothing.
    pub fn make(alloc: Global, carrier: Carrier) -> StreamReader
        ensures read { HasRead carrier result [] }
        ensures empty { rest_size result ≡ 0 }
    {
        match carrier {
            Carrier::Bare => StreamReader::Blocks(BlockReader::make(alloc)),
            Carrier::Capture { port } => StreamReader::Packets(PacketReader::make(alloc, port)),
        }
    }

    /// Prints the blocks that become whole with a piece more of the stream.
    pub fn print_piece<O: Sink>(
        &mut self,
        alloc: Global,
        printer: &mut Printer,
        piece: &[u8],
        out: &mut O,
    ) -> Result<(), TaskError>
        requires few { 8 * printer.old.number + rest_size self.old + length piece.now ≤ 1073741824 }
        ensures prints { OnOk result (
            PrintsPiece printer.old printer.new self.old self.new piece.now (O.written out.old)
            (O.written out.new)) }
        ensures err { IfErr result (λ error.
            FailsBlocks error printer.old (O.written out.old) (O.written out.new)
            (blocks_with self.old piece.now)) }
        ensures cause { CountsFault O.faults out.old out.new (result ≡ Err TaskError.Write) }
    {
        match self {
            StreamReader::Blocks(reader) => print_bare(alloc, reader, printer, piece, out),
            StreamReader::Packets(reader) => reader.print_piece(alloc, printer, piece, out),
        }
    }

    /// What is wrong with the stream so far, which more bytes do not mend.
    pub fn lasting_trouble(&self) -> Option<StreamTrouble>
        // Whatever bytes the reader has come to the end of, this is their trouble.
        ensures { (carrier : Carrier) (bytes : List ℕ) → length bytes ≤ stream_limit
            → HasRead carrier self.now bytes → result ≡ lasting_trouble carrier bytes }
    {
        match self {
            StreamReader::Blocks(reader) => block_trouble(reader, false),
            StreamReader::Packets(packets) => capture_trouble(&packets.reader, false),
        }
    }

    /// What is wrong with the stream, where it ends here.
    pub fn end_trouble(&self) -> Option<StreamTrouble>
        // Whatever bytes the reader has come to the end of, this is their trouble.
        ensures { (carrier : Carrier) (bytes : List ℕ) → length bytes ≤ stream_limit
            → HasRead carrier self.now bytes → result ≡ end_trouble carrier bytes }
    {
        match self {
            StreamReader::Blocks(reader) => block_trouble(reader, true),
            StreamReader::Packets(packets) => capture_trouble(&packets.reader, true),
        }
    }

    /// Prints the line of the packets of a capture.
    pub fn print_counts<O: Sink>(&self, page: &mut Page, out: &mut O) -> Result<(), PutFailed>
        ensures ok { OnOk result (
            PagePrints O.written out.old out.new page.old page.new (packets_text self.now)) }
        ensures err { OnErr result (
            PutsPrefix O.written out.old out.new (page.old.text ++ packets_text self.now)) }
        ensures cause { CountsFault O.faults out.old out.new (IsErr result) }
    {
        match self {
            StreamReader::Blocks(_) => Ok(()),
            StreamReader::Packets(packets) => {
                page.make_place(out)?;
                page.add_counts(packets.counts);
                Ok(())
            }
        }
    }
}
