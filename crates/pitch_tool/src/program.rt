//! The whole program: it reads the words, does their job, and says on `err` what failed.

ghost use Rattle.std.specs.Prelude.{◌≡◌, ◌≢◌, ◌⊎◌, List, ℕ, Some, None, Err, map};
ghost use Rattle.std.specs.Prelude.{string_bytes};
ghost use Rattle.pitch_io.specs.Causes.{HasCause, Rose};
ghost use Rattle.pitch_words.specs.Forms.{IsForm};
ghost use Rattle.pitch_words.specs.declared.form.Form.{Form};
ghost use Rattle.stream_print.specs.Told.{told, TakesAtMost};
ghost use Rattle.pitch_tool.specs.Devices.{device, wires};
ghost use Rattle.pitch_tool.specs.Jobs.{Judges, most_taken};
ghost use Rattle.pitch_tool.specs.Program.{Closes, HasCauses, IsNoDemo, IsNoForm, IsRefusal};
ghost use Rattle.pitch_tool.specs.Program.{IsWhole, RunEnds, StopsAtTrouble};

use crate::commands::do_job;
use crate::failure::{Failure, Trouble};
use crate::saying::say_why;
use crate::status::ExitStatus;
use pitch_io::{Gate, Net, Sink, Source};
use pitch_words::read;
use std::alloc::Global;
use std::sync::Wait;
use std::thread::Threads;
use std::time::Clock;

// Does what the words ask for.
fn run<R: Threads + Wait + Clock + Sync, I: Source, O: Sink, N: Net, G: Gate + Sync>(
    rt: &R,
    alloc: Global,
    words: &[String],
    input: &mut I,
    out: &mut O,
    net: &mut N,
    gate: &G,
) -> Result<(), Failure>
    ensures runs { RunEnds (map string_bytes words.now) result (told I.left input.old input.new)
        (told O.written out.old out.new) (wires N.calls N.faults net.old net.new) }
    ensures reads { (form : Form) → IsForm (map string_bytes words.now) form
        → TakesAtMost (most_taken form) (told I.left input.old input.new) }
    ensures stops { StopsAtTrouble (map string_bytes words.now) (told I.left input.old input.new) }
    ensures read_cause { HasCause
        (I.faults input.old) (I.faults input.new) (result ≡ Err Failure.Read) }
    ensures write_cause { HasCause
        (O.faults out.old) (O.faults out.new) (result ≡ Err Failure.Write) }
    ensures net_cause { HasCause (N.faults net.old) (N.faults net.new) (result ≡ Err Failure.Net) }
    ensures net_still { result ≢ Err Failure.Net
        → result ≢ Err Failure.OutOfMemory → N.faults net.new ≡ N.faults net.old }
    ensures unused { IsNoDemo (map string_bytes words.now) → net.new ≡ net.old }
{
    match read(alloc, words)? {
        Some(form) => do_job(rt, alloc, form, input, out, net, gate),
        None => Err(Failure::Usage),
    }
}

// Does what the words ask for, and says why it ends before its whole text.
fn close<R: Threads + Wait + Clock + Sync, I: Source, O: Sink, E: Sink, N: Net, G: Gate + Sync>(
    rt: &R,
    alloc: Global,
    words: &[String],
    input: &mut I,
    out: &mut O,
    err: &mut E,
    net: &mut N,
    gate: &G,
) -> ExitStatus
    ensures ends { Closes (map string_bytes words.now) result (record {
      input = device I.left I.faults input.old input.new;
      out = device O.written O.faults out.old out.new;
      err = device E.written E.faults err.old err.new;
      net = wires N.calls N.faults net.old net.new;
    }) }
    ensures quiet { result ≡ ExitStatus.Done → E.written err.new ≡ E.written err.old }
    ensures causes { HasCauses result (record {
      input = device I.left I.faults input.old input.new;
      out = device O.written O.faults out.old out.new;
      err = device E.written E.faults err.old err.new;
      net = wires N.calls N.faults net.old net.new;
    }) }
    ensures reads { (form : Form) → IsForm (map string_bytes words.now) form
        → TakesAtMost (most_taken form) (told I.left input.old input.new) }
    ensures stops { StopsAtTrouble (map string_bytes words.now) (told I.left input.old input.new) }
    ensures unused { IsNoDemo (map string_bytes words.now) → net.new ≡ net.old }
{
    match run(rt, alloc, words, input, out, net, gate) {
        Ok(()) => ExitStatus::Done,
        Err(failure) => say_why(alloc, err, failure),
    }
}

/// The program: does what the words ask for, and says on `err` why it ends before its whole text.
///
/// `words` are those after the program's name, in one of the forms that `pitch_words` lists.
///
/// - `follow` and `show` read a stream of at most 1,073,741,824 bytes from `input`: Sequenced Unit
///   Header blocks, or with `--pcap` a classic capture file, of which the blocks are those that are
///   whole at the start of each UDP datagram, or of each to port P. `follow` writes to `out` a line
///   for each block, and at the stream's end the books of all units that a block named, and of a
///   capture how many packets it has, how many of them carried a datagram, and how many of these
///   were faulty. `show` writes a line for each block and for each message.
/// - `pack` and `replay` read a text of at most 67,108,864 bytes, and write nothing before it was
///   read whole. `pack` reads venue commands, and writes their datagrams, back to back, once the
///   venue has accepted all. `replay` reads a schedule, and writes what each of its lines does in
///   the world of its unit: venue, lines, servers and client.
/// - `audit` reads at most 1,073,741,824 bytes, a log with a printed report, and writes nothing
///   before it has read them all: then the line that says whether each printed book is what the
///   log's messages leave, or which line of the report is the first that is wrong.
/// - `storm` reads nothing: it makes a schedule, does all its lines in the worlds of its units, and
///   writes where each unit ended. Its units and those of `replay` run in at most K pieces of work,
///   which `rt` may run beside one another, and `gate` is told of each unit; what is written does
///   not depend on either.
/// - `drill` reads nothing: for each unit a publisher, a service and a client run as live threads,
///   and it writes where each client ended. These threads wait for one another's words, and `gate`
///   is told of each step.
/// - `demo` reads nothing either: it runs both ends of unit 1 over `net`, and writes where its
///   client ended.
/// - `relay` reads a stream as `follow` does, in which blocks of Spin Servers stand among those of
///   the lines, and writes for each block the datagrams that it adds to its unit's relay.
/// - `quotes` reads a stream as `follow` does, and writes for each block a line for each best price
///   of a symbol on a side that one of its messages changes.
///
/// At `Done` the whole text was written and nothing was said. At `Usage` nothing was read or
/// written, and the net was left as it was. At `BadInput` the texts of the whole blocks before the
/// trouble were written, and no book; by `pack`, `replay` and `audit` nothing was, and `storm`,
/// `drill` and `demo` never end so. At `ReadFault` the source had failed, at `WriteFault` the sink,
/// and at `NetFault` the net; where memory did not run out, a net that failed ends the demo so. At
/// `OutOfMemory` memory ran out: `follow`, `show`, `relay` and `quotes` may have written a prefix
/// of the text, the others wrote nothing. Whatever the status, these four take less than a piece of
/// 65,536 bytes behind the byte that shows a fault.
pub fn pitch<R: Threads + Wait + Clock + Sync, I: Source, O: Sink, E: Sink, N: Net, G: Gate + Sync>(
    rt: &R,
    alloc: Global,
    words: &[String],
    input: &mut I,
    out: &mut O,
    err: &mut E,
    net: &mut N,
    gate: &G,
) -> ExitStatus
    // What each status says of the words, of what was read and written, and of what was said.
    ensures ends { Closes (map string_bytes words.now) result (record {
      input = device I.left I.faults input.old input.new;
      out = device O.written O.faults out.old out.new;
      err = device E.written E.faults err.old err.new;
      net = wires N.calls N.faults net.old net.new;
    }) }
    // Where all was done, nothing is said.
    ensures quiet { result ≡ ExitStatus.Done → E.written err.new ≡ E.written err.old }
    // A read, a write or a net fault was counted by its device. Unless the net failed or memory ran
    // out, the net counted none.
    ensures causes { HasCauses result (record {
      input = device I.left I.faults input.old input.new;
      out = device O.written O.faults out.old out.new;
      err = device E.written E.faults err.old err.new;
      net = wires N.calls N.faults net.old net.new;
    }) }
    // Whatever the status, the source gave no more than one byte past the limit of the form.
    ensures reads { (form : Form) → IsForm (map string_bytes words.now) form
        → TakesAtMost (most_taken form) (told I.left input.old input.new) }
    // Of a stream, less than a piece of 65,536 bytes is taken behind the byte that shows a trouble.
    ensures stops { StopsAtTrouble (map string_bytes words.now) (told I.left input.old input.new) }
    // Only a demo uses the net, and words that are no form do not.
    ensures unused { IsNoDemo (map string_bytes words.now) → net.new ≡ net.old }
    // Where the words are no form, that is the answer, or memory ran out.
    ensures unknown { IsNoForm (map string_bytes words.now)
        → (result ≡ ExitStatus.Usage) ⊎ (result ≡ ExitStatus.OutOfMemory) }
    // Where nothing is wrong with the words and the input and no device failed, the job was done
    // whole, or memory ran out.
    ensures complete { (form : Form)
        → IsForm (map string_bytes words.now) form → Judges form (I.left input.old) None
        → Rose (I.faults input.old) (I.faults input.new) ⊎ (Rose (O.faults out.old)
        (O.faults out.new) ⊎ (Rose (N.faults net.old) (N.faults net.new) ⊎ IsWhole result)) }
    // Where something is wrong with the input and no device failed, the input was refused, or
    // memory ran out.
    ensures refused { (form : Form) (trouble : Trouble) → IsForm (map string_bytes words.now) form
        → Judges form (I.left input.old) (Some trouble)
        → Rose (I.faults input.old) (I.faults input.new) ⊎ (Rose (O.faults out.old)
        (O.faults out.new) ⊎ (Rose (N.faults net.old) (N.faults net.new) ⊎ IsRefusal result)) }
{
    close(rt, alloc, words, input, out, err, net, gate)
}
