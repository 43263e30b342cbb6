//! What is said on `err` where the program ends before its whole text, and the status for it.

ghost use Rattle.std.specs.Prelude.{◌≡◌, ◌⊎◌, IfOk, string_bytes};
ghost use Rattle.pitch_io.specs.Causes.{Rose};
ghost use Rattle.pitch_io.specs.Putting.{Grows};
ghost use Rattle.pitch_tool.specs.Devices.{device};
ghost use Rattle.pitch_tool.specs.Program.{memory_text, trouble_text};
ghost use Rattle.pitch_tool.specs.layers.Saying.{SaysWhy};

use crate::failure::{Failure, Trouble};
use crate::status::ExitStatus;
use pitch_fields::OutOfMemory;
use pitch_io::Sink;
use std::alloc::Global;
use stream_print::{StreamTrouble, put_all};

// Says why the program ends, unless the sink fails.
fn say<E: Sink>(err: &mut E, text: &[u8])
    ensures { Rose (E.faults err.old) (E.faults err.new)
        ⊎ Grows (E.written err.old) (E.written err.new) text.now }
{
    let _said = put_all(err, text);
}

/// Says that memory ran out, unless the sink fails.
pub fn say_out_of_memory<E: Sink>(err: &mut E)
    ensures { Rose (E.faults err.old) (E.faults err.new)
        ⊎ Grows (E.written err.old) (E.written err.new) memory_text }
{
    say(err, b"pitch: out of memory\n");
}

// What is said of an input with trouble.
fn trouble_line(alloc: Global, trouble: Trouble) -> Result<String, OutOfMemory>
    ensures { IfOk result (λ line. string_bytes line ≡ trouble_text trouble) }
{
    match trouble {
        Trouble::Blocks(StreamTrouble::Faulty(fault)) => {
            Ok(format!(in alloc; "pitch: bad input at {fault}\n")?)
        }
        Trouble::Blocks(StreamTrouble::BadCapture(fault)) => {
            Ok(format!(in alloc; "pitch: bad input at {fault}\n")?)
        }
        Trouble::Blocks(StreamTrouble::TooLong) => Ok(String::from_str(
            alloc,
            "pitch: input is longer than 1073741824 bytes\n",
        )?),
        Trouble::LongText => Ok(String::from_str(
            alloc,
            "pitch: input is longer than 67108864 bytes\n",
        )?),
        Trouble::Commands(error) => Ok(format!(in alloc; "pitch: {error}\n")?),
        Trouble::Schedule(error) => Ok(format!(in alloc; "pitch: {error}\n")?),
        Trouble::SequencesSpent => Ok(String::from_str(
            alloc,
            "pitch: refused: sequences-spent\n",
        )?),
        Trouble::Audit(fault) => Ok(format!(in alloc; "pitch: bad input at {fault}\n")?),
    }
}

// Says why the program ends before its whole text, and answers the status for it.
pub(crate) fn say_why<E: Sink>(alloc: Global, err: &mut E, failure: Failure) -> ExitStatus
    ensures { SaysWhy failure result (device E.written E.faults err.old err.new) }
{
    match failure {
        Failure::Usage => {
            say(
                err,
                b"pitch: usage: follow | show | pack | replay | storm | drill | demo | relay | quotes | audit\n",
            );
            ExitStatus::Usage
        }
        Failure::BadInput(trouble) => match trouble_line(alloc, trouble) {
            Ok(line) => {
                say(err, line.as_bytes());
                ExitStatus::BadInput
            }
            Err(_) => {
                say_out_of_memory(err);
                ExitStatus::OutOfMemory
            }
        },
        Failure::Read => {
            say(err, b"pitch: read fault\n");
            ExitStatus::ReadFault
        }
        Failure::Write => {
            say(err, b"pitch: write fault\n");
            ExitStatus::WriteFault
        }
        Failure::Net => {
            say(err, b"pitch: net fault\n");
            ExitStatus::NetFault
        }
        Failure::OutOfMemory => {
            say_out_of_memory(err);
            ExitStatus::OutOfMemory
        }
    }
}
