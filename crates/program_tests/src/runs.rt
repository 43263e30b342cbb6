//! Runs of the program over memory.
ghost use Rattle.std.specs.Prelude.{◌<◌, Some, None, map, string_bytes};
ghost use Rattle.pitch_words.specs.Forms.{IsForm};
ghost use Rattle.pitch_words.specs.declared.form.Form.{Form};
ghost use Rattle.pitch_tool.specs.Jobs.{Judges};
ghost use Rattle.pitch_tool.specs.Program.{IsWhole, IsRefusal};
ghost use Rattle.pitch_tool.specs.declared.failure.Trouble.{Trouble};

use crate::nets::NoNet;
use memory_devices::{SteadySink, SteadySource};
use pitch_io::{FreeGate, Gate, Net, Sink, Source, Taken};
use pitch_tool::{ExitStatus, pitch};
use std::alloc::Global;
use std::process::Abort;
use std::sync::Wait;
use std::thread::Threads;
use std::time::Clock;

// The words of a line, which single spaces part.
pub(crate) fn words_of(rt: &impl Abort, alloc: Global, line: &str) -> Vec<String> {
    let mut words = Vec::new(alloc);
    for word in line.split(' ') {
        if !line.is_empty() {
            let word = String::from_str(alloc, word).expect(rt, "memory");
            words.push(word).expect(rt, "memory");
        }
    }
    words
}

// The bytes of the blocks, one after the other.
pub(crate) fn stream_of(rt: &impl Abort, alloc: Global, blocks: &[&[u8]]) -> Vec<u8> {
    let mut bytes = Vec::new(alloc);
    for block in blocks {
        bytes.extend_from_slice(block).expect(rt, "memory");
    }
    bytes
}

// What the program leaves.
#[derive(Drop)]
pub(crate) struct Outcome {
    status: ExitStatus,
    input: SteadySource,
    out: SteadySink,
    err: SteadySink,
}

impl Outcome {
    // Whether it ended so, wrote this and said this.
    pub(crate) fn is(&self, status: ExitStatus, wrote: &[u8], said: &str) -> bool {
        self.status == status
            && self.out.written() == wrote
            && self.err.written() == said.as_bytes()
    }

    // What it wrote, where it was done.
    pub(crate) fn written(&self) -> &[u8] {
        match self.status {
            ExitStatus::Done => self.out.written(),
            _ => &[],
        }
    }

    // How many bytes it left unread, of which at most 64 are counted.
    pub(crate) fn left(&mut self) -> usize {
        match self.input.take(&mut [0u8; 64]) {
            Taken::Got(count) => count,
            Taken::End | Taken::Failed => 0,
        }
    }
}

// The program over devices that never fail.
fn pitch_steadily<R: Threads + Wait + Clock + Sync>(
    rt: &R,
    alloc: Global,
    words: &[String],
    input: &mut SteadySource,
    out: &mut SteadySink,
    err: &mut SteadySink,
) -> ExitStatus
    // Where nothing is wrong with the input, the job was done whole, or memory ran out.
    ensures complete { (form : Form) → IsForm (map string_bytes words.now) form
        → Judges form (Some input.old.bytes) None → IsWhole result }
    // Where something is wrong with the input, it was refused, or memory ran out.
    ensures refused { (form : Form) (trouble : Trouble) → IsForm (map string_bytes words.now) form
        → Judges form (Some input.old.bytes) (Some trouble) → IsRefusal result }
{
    pitch(rt, alloc, words, input, out, err, &mut NoNet, &FreeGate)
}

// Runs the program on blocks of which at most `piece` bytes come at once.
pub(crate) fn run<R: Threads + Wait + Clock + Sync + Abort>(
    rt: &R,
    alloc: Global,
    line: &str,
    blocks: &[&[u8]],
    piece: usize,
) -> Outcome
    requires { 0 < piece }
{
    let words = words_of(rt, alloc, line);
    let mut input = SteadySource::make(stream_of(rt, alloc, blocks), piece);
    let mut out = SteadySink::make(alloc, 4096).expect(rt, "memory");
    let mut err = SteadySink::make(alloc, 4096).expect(rt, "memory");
    let status = pitch_steadily(rt, alloc, words.as_slice(), &mut input, &mut out, &mut err);
    Outcome {
        status,
        input,
        out,
        err,
    }
}

// The program over any devices. What calls it knows nothing of it, and has less to prove.
pub(crate) fn pitch_over<
    R: Threads + Wait + Clock + Sync,
    I: Source,
    O: Sink,
    E: Sink,
    N: Net,
    G: Gate + Sync,
>(
    rt: &R,
    alloc: Global,
    words: &[String],
    input: &mut I,
    out: &mut O,
    err: &mut E,
    net: &mut N,
    gate: &G,
) -> ExitStatus {
    pitch(rt, alloc, words, input, out, err, net, gate)
}

// Runs the program on a text, over a net, with a gate.
pub(crate) fn run_over<R: Threads + Wait + Clock + Sync + Abort, N: Net, G: Gate + Sync>(
    rt: &R,
    alloc: Global,
    line: &str,
    text: &[u8],
    net: &mut N,
    gate: &G,
) -> Outcome {
    let words = words_of(rt, alloc, line);
    let mut input = SteadySource::make(stream_of(rt, alloc, &[text]), 65536);
    let mut out = SteadySink::make(alloc, 1_000_000).expect(rt, "memory");
    let mut err = SteadySink::make(alloc, 4096).expect(rt, "memory");
    let status = pitch_over(
        rt,
        alloc,
        words.as_slice(),
        &mut input,
        &mut out,
        &mut err,
        net,
        gate,
    );
    Outcome {
        status,
        input,
        out,
        err,
    }
}

// How a run is to end, what it is to write, and what to say.
pub(crate) type Wanted<'a> = (ExitStatus, &'a [u8], &'a str);

// Runs the program on blocks, and compares.
pub(crate) fn ends_so<R: Threads + Wait + Clock + Sync + Abort>(
    rt: &R,
    alloc: Global,
    line: &str,
    blocks: &[&[u8]],
    piece: usize,
    wanted: Wanted<'_>,
)
    requires { 0 < piece }
{
    let (status, wrote, said) = wanted;
    let outcome = run(rt, alloc, line, blocks, piece);
    assert!(rt; outcome.is(status, wrote, said));
    drop(outcome);
}

// Runs the program on a text, over a net, with a gate, and compares.
pub(crate) fn ends_so_over<R: Threads + Wait + Clock + Sync + Abort, N: Net, G: Gate + Sync>(
    rt: &R,
    alloc: Global,
    line: &str,
    net: &mut N,
    gate: &G,
    wanted: Wanted<'_>,
) {
    let (status, wrote, said) = wanted;
    let outcome = run_over(rt, alloc, line, b"", net, gate);
    assert!(rt; outcome.is(status, wrote, said));
    drop(outcome);
}

// Each stream has its text, where at most `piece` bytes come at once.
pub(crate) fn all_are_done<R: Threads + Wait + Clock + Sync + Abort>(
    rt: &R,
    alloc: Global,
    line: &str,
    piece: usize,
    streams: &[(&[&[u8]], &str)],
)
    requires { 0 < piece }
{
    for (blocks, text) in streams {
        let wanted = (ExitStatus::Done, text.as_bytes(), "");
        ends_so(rt, alloc, line, blocks, piece, wanted);
    }
}

// Each faulty stream has its text and its fault, likewise.
pub(crate) fn all_are_refused<R: Threads + Wait + Clock + Sync + Abort>(
    rt: &R,
    alloc: Global,
    line: &str,
    piece: usize,
    streams: &[(&[&[u8]], &str, &str)],
)
    requires { 0 < piece }
{
    for (blocks, text, fault) in streams {
        let wanted = (ExitStatus::BadInput, text.as_bytes(), *fault);
        ends_so(rt, alloc, line, blocks, piece, wanted);
    }
}
