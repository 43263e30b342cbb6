//! Reads a capture packet by packet, and prints the blocks of each datagram.

ghost use Rattle.std.specs.Prelude.{◌≡◌, ◌≤◌, ◌+◌, ◌*◌, ◌++◌, [], ◌∷◌, List, ℕ, length, OnOk};
ghost use Rattle.std.specs.Prelude.{IfErr, IfOk, IfSome, Err, Some};
ghost use Rattle.std.specs.List.{flat_map};
ghost use Rattle.unit_packets.specs.Cutting.{blocks_of};
ghost use Rattle.pcap_feed.specs.Capture.{packets_from, front_of};
ghost use Rattle.pcap_feed.specs.Datagrams.{span_bytes, payloads_in};
ghost use Rattle.pcap_feed.specs.Stream.{items_within};
ghost use Rattle.stream_print.specs.Sinks.{CountsFault};
ghost use Rattle.stream_print.specs.Carriers.{blocks_in};
ghost use Rattle.stream_print.specs.Printing.{PrintsDatagrams, PrintsPackets, PrintsLoaded};
ghost use Rattle.stream_print.specs.Printing.{FailsBlocks};

use crate::blocks::print_blocks;
use crate::counts::{NO_COUNTS, PacketCounts, PacketUse, counts_with};
use crate::failure::TaskError;
use crate::printer::Printer;
use pcap_feed::{ByteOrder, CaptureReader, RecordView, payload_in, view_record};
use pitch_io::Sink;
use std::alloc::Global;

// Prints the whole blocks of a datagram.
fn print_payload<O: Sink>(
    alloc: Global,
    datagram: &[u8],
    printer: &mut Printer,
    out: &mut O,
) -> Result<PacketUse, TaskError>
    requires few { 8 * printer.old.number + length datagram.now ≤ 1073741824 }
    ensures prints { IfOk result (λ is.
        PrintsDatagrams printer.old printer.new (length datagram.now) (datagram.now ∷ []) is
        (O.written out.old) (O.written out.new)) }
    ensures err { IfErr result (λ error.
        FailsBlocks error printer.old (O.written out.old) (O.written out.new)
        (flat_map blocks_of (datagram.now ∷ []))) }
    ensures cause { CountsFault O.faults out.old out.new (result ≡ Err TaskError.Write) }
{
    let whole = print_blocks(alloc, datagram, printer, out)?;
    if datagram.is_empty() {
        return Ok(PacketUse::Faulty);
    }
    if whole < datagram.len() {
        return Ok(PacketUse::Faulty);
    }
    Ok(PacketUse::Used)
}

// Prints the whole blocks of a frame's datagram, where it has one; no byte of it is copied.
fn print_datagram<O: Sink>(
    alloc: Global,
    frame: &[u8],
    datagram: Option<(usize, usize)>,
    printer: &mut Printer,
    out: &mut O,
) -> Result<PacketUse, TaskError>
    requires within { IfSome datagram (λ found. found.0 + found.1 ≤ length frame.now) }
    requires few { 8 * printer.old.number + length frame.now ≤ 1073741824 }
    ensures prints { IfOk result (λ is.
        PrintsDatagrams printer.old printer.new (length frame.now) (span_bytes frame.now datagram)
        is (O.written out.old) (O.written out.new)) }
    ensures err { IfErr result (λ error.
        FailsBlocks error printer.old (O.written out.old) (O.written out.new)
        (flat_map blocks_of (span_bytes frame.now datagram))) }
    ensures cause { CountsFault O.faults out.old out.new (result ≡ Err TaskError.Write) }
{
    match datagram {
        Some(found) => print_payload(alloc, &frame[found.0..found.0 + found.1], printer, out),
        None => Ok(PacketUse::PassedOver),
    }
}

// Prints the whole blocks of a packet's datagram.
fn print_packet<O: Sink>(
    alloc: Global,
    packet: &RecordView<'_>,
    port: Option<u16>,
    printer: &mut Printer,
    out: &mut O,
) -> Result<PacketUse, TaskError>
    requires few { 8 * printer.old.number + length packet.now.bytes ≤ 1073741824 }
    ensures prints { IfOk result (λ is.
        PrintsDatagrams printer.old printer.new (length packet.now.bytes)
        (payloads_in port packet.now) is (O.written out.old) (O.written out.new)) }
    ensures err { IfErr result (λ error.
        FailsBlocks error printer.old (O.written out.old) (O.written out.new)
        (flat_map blocks_of (payloads_in port packet.now))) }
    ensures cause { CountsFault O.faults out.old out.new (result ≡ Err TaskError.Write) }
{
    let datagram = payload_in(packet.original, packet.bytes, port);
    print_datagram(alloc, packet.bytes, datagram, printer, out)
}

// Prints the whole blocks of all packets that are whole at the start of some bytes, and counts the
// packets. Answers how many bytes these have.
fn print_packets<O: Sink>(
    alloc: Global,
    order: ByteOrder,
    port: Option<u16>,
    bytes: &[u8],
    counts: &mut PacketCounts,
    printer: &mut Printer,
    out: &mut O,
) -> Result<usize, TaskError>
    requires few { 8 * printer.old.number + length bytes.now ≤ 1073741824 }
    ensures prints { IfOk result (λ n.
        PrintsPackets order port printer.old printer.new counts.old counts.new bytes.now n
        (O.written out.old) (O.written out.new)) }
    ensures err { IfErr result (λ error.
        FailsBlocks error printer.old (O.written out.old) (O.written out.new)
        (blocks_in port (items_within (front_of order) bytes.now))) }
    ensures cause { CountsFault O.faults out.old out.new (result ≡ Err TaskError.Write) }
{
    let mut at = 0;
    'packet: while at <= bytes.len() {
        match view_record(order, &bytes[at..]) {
            Ok(packet) => {
                let outcome = print_packet(alloc, &packet, port, printer, out)?;
                *counts = counts_with(outcome, *counts);
                at += packet.size();
            }
            Err(_) => return Ok(at),
        }
    }
    unreachable!()
}

/// Reads a capture in pieces, and counts its packets.
#[derive(Drop)]
pub struct PacketReader {
    pub reader: CaptureReader,
    pub port: Option<u16>,
    pub counts: PacketCounts,
}

impl PacketReader {
    ghost use Rattle.std.specs.Prelude.{◌≡◌, ◌≤◌, ◌+◌, ◌*◌, ◌++◌, [], length, OnOk, IfErr, Err, Ok};
    ghost use Rattle.pcap_feed.specs.Capture.{packets_from, judge_head};
    ghost use Rattle.pcap_feed.specs.Feeding.{more_loaded, unfed};
    ghost use Rattle.stream_print.specs.Sinks.{CountsFault};
    ghost use Rattle.stream_print.specs.Carriers.{blocks_in};
    ghost use Rattle.stream_print.specs.Printing.{PrintsLoaded, FailsBlocks};

    /// Nothing was read of the capture yet.
    pub fn make(alloc: Global, port: Option<u16>) -> PacketReader
        ensures { result ≡ record
            { reader = unfed; port = port; counts = record { packets = 0; used = 0; faulty = 0 } } }
    {
        PacketReader {
            reader: CaptureReader::make(alloc),
            port,
            counts: NO_COUNTS,
        }
    }

    // Prints the blocks of all packets that are loaded whole.
    fn print_loaded<O: Sink>(
        &mut self,
        alloc: Global,
        printer: &mut Printer,
        out: &mut O,
    ) -> Result<(), TaskError>
        requires few { 8 * printer.old.number + length self.old.reader.rest ≤ 1073741824 }
        ensures prints { OnOk result (
            PrintsLoaded printer.old printer.new self.old self.new (O.written out.old)
            (O.written out.new)) }
        ensures err { IfErr result (λ error.
            FailsBlocks error printer.old (O.written out.old) (O.written out.new)
            (blocks_in self.old.port (packets_from self.old.reader.told self.old.reader.rest))) }
        ensures cause { CountsFault O.faults out.old out.new (result ≡ Err TaskError.Write) }
    {
        let order = match self.reader.begin() {
            Ok(order) => order,
            Err(_) => return Ok(()),
        };
        let rest = self.reader.rest();
        let size = print_packets(
            alloc,
            order,
            self.port,
            rest,
            &mut self.counts,
            printer,
            out,
        )?;
        self.reader.pass(size);
        Ok(())
    }

    /// Loads a piece more, and prints the blocks of all packets that are whole then.
    pub fn print_piece<O: Sink>(
        &mut self,
        alloc: Global,
        printer: &mut Printer,
        piece: &[u8],
        out: &mut O,
    ) -> Result<(), TaskError>
        requires few { 8 * printer.old.number + length self.old.reader.rest + length piece.now
            ≤ 1073741824 }
        ensures prints { OnOk result (
            PrintsLoaded printer.old printer.new
            (record self.old { reader = more_loaded self.old.reader piece.now }) self.new
            (O.written out.old) (O.written out.new)) }
        ensures err { IfErr result (λ error.
            FailsBlocks error printer.old (O.written out.old) (O.written out.new)
            (blocks_in self.old.port (packets_from self.old.reader.told (self.old.reader.rest ++
            piece.now)))) }
        ensures cause { CountsFault O.faults out.old out.new (result ≡ Err TaskError.Write) }
    {
        self.reader.load(piece)?;
        self.print_loaded(alloc, printer, out)
    }
}
