//! A listener between two calls of its net.

ghost use Rattle.std.specs.Prelude.{◌≡◌, ◌≢◌, ◌+◌, [], ◌∷◌, List, length, filter, OnOk, OnErr};
ghost use Rattle.std.specs.Prelude.{IfOk, IfErr, Ok, Err, Some, None, Option, true};
ghost use Rattle.pitch_io.specs.Causes.{HasCause};
ghost use Rattle.unit_packets.specs.Cutting.{blocks_of, rest_of};
ghost use Rattle.stream_print.specs.Carriers.{is_faulty};
ghost use Rattle.stream_print.specs.Sinks.{CountsFault};
ghost use Rattle.stream_print.specs.Told.{between};
ghost use Rattle.stream_print.specs.Printing.{FailsBlocks};
ghost use Rattle.live_net.specs.LineCalls.{LineCall};
ghost use Rattle.live_listen.specs.Due.{datagram_room};
ghost use Rattle.live_listen.specs.Heard.{is_wanted, heard_in};
ghost use Rattle.live_listen.specs.Listening.{Setup, ListenEnds, IsOver};
ghost use Rattle.live_listen.specs.Standing.{HearsBlocks, Hears, Stands, IsNext};
ghost use Rattle.live_listen.specs.Standing.{Devices, devices, Steps, NamesNoDevice};

use crate::counts::Counts;
use crate::error::ListenError;
use crate::place::{AT_FIRST_LINE, AT_START, Place, after_datagram, after_quiet};
use crate::setup::ListenSetup;
use live_net::{LineNet, Received, Woken};
use pitch_fields::OutOfMemory;
use pitch_io::Sink;
use std::alloc::Global;
use stream_print::{Printer, StreamForm, TaskError};
use unit_packets::{BlockView, Blocks};

/// What a listener does next, what it has printed and what it has counted.
#[derive(Drop)]
pub struct Listener {
    pub place: Place,
    pub printer: Printer,
    pub datagrams: u64,
    pub faulty: u64,
    pub stray: u64,
}

// One more; a count that stands at the end of its type is not passed.
fn one_more(count: u64) -> Result<u64, OutOfMemory>
    ensures { IfOk result (λ more. more ≡ count + 1) }
{
    match count.checked_add(1) {
        Some(more) => Ok(more),
        None => Err(OutOfMemory),
    }
}

// Whether a datagram is empty, or has so long a rest behind its whole blocks.
fn is_faulty(datagram: &[u8], rest: usize) -> bool
    ensures { rest ≡ length (rest_of datagram.now) → result ≡ is_faulty datagram.now }
{
    datagram.is_empty() || rest > 0
}

impl Listener {
    /// Nothing was heard yet.
    pub fn make(alloc: Global, setup: &ListenSetup) -> Result<Listener, OutOfMemory>
        ensures stands { IfOk result (λ l. (start : Devices) → Stands setup.now start start l []) }
        ensures next { IfOk result (λ l. IsNext setup.now.lines l.place []) }
    {
        let form = StreamForm::Follow { hold: setup.hold() };
        Ok(Listener {
            place: AT_START,
            printer: Printer::make(alloc, form)?,
            datagrams: 0,
            faulty: 0,
            stray: 0,
        })
    }

    // Hears a block, where its unit is listened to.
    fn hear_block<O: Sink>(
        &mut self,
        alloc: Global,
        setup: &ListenSetup,
        block: &BlockView<'_>,
        out: &mut O,
    ) -> Result<(), TaskError>
        ensures hears { OnOk result (
            HearsBlocks setup.now.units self.old self.new (O.written out.old) (O.written out.new)
            (block.now ∷ [])) }
        ensures err { IfErr result (λ error.
            FailsBlocks error self.old.printer (O.written out.old) (O.written out.new)
            (filter (is_wanted setup.now.units) (block.now ∷ []))) }
        ensures cause { CountsFault O.faults out.old out.new (result ≡ Err TaskError.Write) }
    {
        if !setup.wants(block.header().unit) {
            self.stray = one_more(self.stray)?;
            return Ok(());
        }
        one_more(self.printer.number)?;
        self.printer.print(alloc, block, out)?;
        Ok(())
    }

    // Hears the whole blocks at the start of a datagram, and answers how many bytes follow them.
    fn hear_blocks<O: Sink>(
        &mut self,
        alloc: Global,
        setup: &ListenSetup,
        datagram: &[u8],
        out: &mut O,
    ) -> Result<usize, TaskError>
        ensures hears { OnOk result (
            HearsBlocks setup.now.units self.old self.new (O.written out.old) (O.written out.new)
            (blocks_of datagram.now)) }
        ensures rest { IfOk result (λ n. n ≡ length (rest_of datagram.now)) }
        ensures err { IfErr result (λ error.
            FailsBlocks error self.old.printer (O.written out.old) (O.written out.new)
            (heard_in setup.now.units datagram.now)) }
        ensures cause { CountsFault O.faults out.old out.new (result ≡ Err TaskError.Write) }
    {
        let mut blocks = Blocks::of_bytes(datagram);
        'next: while let Some(block) = blocks.next_block() {
            self.hear_block(alloc, setup, &block, out)?;
        }
        Ok(blocks.rest().len())
    }

    // Hears a datagram, and counts it.
    fn hear_datagram<O: Sink>(
        &mut self,
        alloc: Global,
        setup: &ListenSetup,
        datagram: &[u8],
        out: &mut O,
    ) -> Result<(), TaskError>
        ensures hears { OnOk result (
            Hears setup.now.units self.old self.new (O.written out.old) (O.written out.new)
            datagram.now) }
        ensures err { IfErr result (λ error.
            FailsBlocks error self.old.printer (O.written out.old) (O.written out.new)
            (heard_in setup.now.units datagram.now)) }
        ensures cause { CountsFault O.faults out.old out.new (result ≡ Err TaskError.Write) }
    {
        self.datagrams = one_more(self.datagrams)?;
        let rest = self.hear_blocks(alloc, setup, datagram, out)?;
        if is_faulty(datagram, rest) {
            self.faulty = one_more(self.faulty)?;
        }
        Ok(())
    }

    // Asks a line for a datagram.
    fn ask_line<N: LineNet, O: Sink>(
        &mut self,
        alloc: Global,
        setup: &ListenSetup,
        line: u16,
        net: &mut N,
        into: &mut [u8],
        out: &mut O,
    ) -> Result<bool, ListenError>
        requires asked { self.old.place.line ≡ Some line }
        requires room { length into.old ≡ datagram_room }
        // Whatever run led here, this call was due after it.
        ensures steps { (start : Devices) (run : List LineCall)
            → Stands setup.now start (devices (N.calls net.old) (O.written out.old)) self.old run
            → IsNext setup.now.lines self.old.place run
            → Steps setup.now result start (devices (N.calls net.new) (O.written out.new))
            self.new }
        ensures size { length into.new ≡ length into.old }
        ensures net_cause { HasCause (N.faults net.old) (N.faults net.new)
            (result ≡ Err ListenError.Net) }
        ensures write_cause { CountsFault O.faults out.old out.new
            (result ≡ Err ListenError.Write) }
        ensures net_still { NamesNoDevice result → N.faults net.new ≡ N.faults net.old }
    {
        match net.receive(line, into) {
            Received::Got(count) => {
                self.hear_datagram(alloc, setup, &into[..count], out)?;
                self.place = after_datagram(setup.lines(), line, self.place);
                Ok(true)
            }
            Received::Quiet => {
                self.place = after_quiet(setup.lines(), line, self.place);
                Ok(true)
            }
            Received::Failed => {
                self.printer.page.flush(out)?;
                Err(ListenError::Net)
            }
        }
    }

    // Writes out what was printed, and waits. Answers whether there is more to wait for.
    fn wait<N: LineNet, O: Sink>(&mut self, net: &mut N, out: &mut O) -> Result<bool, ListenError>
        requires due { self.old.place.line ≡ None }
        // Whatever run led here, this call was due after it.
        ensures steps { (s : Setup) (start : Devices) (run : List LineCall)
            → Stands s start (devices (N.calls net.old) (O.written out.old)) self.old run
            → IsNext s.lines self.old.place run
            → Steps s result start (devices (N.calls net.new) (O.written out.new)) self.new }
        ensures net_cause { HasCause (N.faults net.old) (N.faults net.new)
            (result ≡ Err ListenError.Net) }
        ensures write_cause { CountsFault O.faults out.old out.new
            (result ≡ Err ListenError.Write) }
        ensures net_still { NamesNoDevice result → N.faults net.new ≡ N.faults net.old }
    {
        let page = &mut self.printer.page;
        page.flush(out)?;
        match net.wait(self.place.more) {
            Woken::Ready => {
                self.place = AT_FIRST_LINE;
                Ok(true)
            }
            Woken::Over => Ok(false),
            Woken::Failed => Err(ListenError::Net),
        }
    }

    /// Makes the call that is due, and prints what came. Answers false once the wait was over.
    pub fn step<N: LineNet, O: Sink>(
        &mut self,
        alloc: Global,
        setup: &ListenSetup,
        net: &mut N,
        into: &mut [u8],
        out: &mut O,
    ) -> Result<bool, ListenError>
        requires room { length into.old ≡ datagram_room }
        // Whatever run led here, this call was due after it.
        ensures steps { (start : Devices) (run : List LineCall)
            → Stands setup.now start (devices (N.calls net.old) (O.written out.old)) self.old run
            → IsNext setup.now.lines self.old.place run
            → Steps setup.now result start (devices (N.calls net.new) (O.written out.new))
            self.new }
        ensures size { length into.new ≡ length into.old }
        ensures net_cause { HasCause (N.faults net.old) (N.faults net.new)
            (result ≡ Err ListenError.Net) }
        ensures write_cause { CountsFault O.faults out.old out.new
            (result ≡ Err ListenError.Write) }
        ensures net_still { NamesNoDevice result → N.faults net.new ≡ N.faults net.old }
    {
        match self.place.line {
            Some(line) => self.ask_line(alloc, setup, line, net, into, out),
            None => self.wait(net, out),
        }
    }

    /// Prints the books, and answers what was counted.
    pub fn finish<O: Sink>(&mut self, alloc: Global, out: &mut O) -> Result<Counts, ListenError>
        // Whatever run led here, whose last call was a wait that was over.
        ensures ends { (s : Setup) (start : Devices) (calls : Option (List LineCall))
            (run : List LineCall)
            → Stands s start (devices calls (O.written out.old)) self.old run → IsOver run
            → ListenEnds s result start.calls calls
            (between start.written (O.written out.new)) }
        ensures not_net { result ≢ Err ListenError.Net }
        ensures write_cause { CountsFault O.faults out.old out.new
            (result ≡ Err ListenError.Write) }
    {
        let counts = Counts {
            datagrams: self.datagrams,
            faulty: self.faulty,
            blocks: self.printer.number,
            stray: self.stray,
        };
        self.printer.print_end(alloc, out)?;
        self.printer.page.flush(out)?;
        Ok(counts)
    }
}
