//! The command `audit`: a log and a report come in, and a verdict goes out.

ghost use Rattle.std.specs.Prelude.{◌≡◌, ◌+◌, IfOk, Err, string_bytes};
ghost use Rattle.pitch_io.specs.Causes.{HasCause};
ghost use Rattle.run_audit.specs.Causes.{verdict_line};
ghost use Rattle.stream_print.specs.Inputs.{stream_limit};
ghost use Rattle.stream_print.specs.Told.{told, TakesAtMost};
ghost use Rattle.pitch_tool.specs.AuditForm.{AuditEnds};

use crate::failure::{Failure, Trouble};
use crate::reading::read_whole;
use pitch_fields::OutOfMemory;
use pitch_io::{Sink, Source};
use run_audit::{Verdict, audit_input};
use std::alloc::Global;
use stream_print::{INPUT_LIMIT, StreamTrouble, put_all};

// The line of a verdict.
fn verdict_text(alloc: Global, verdict: Verdict) -> Result<String, OutOfMemory>
    ensures { IfOk result (λ line. string_bytes line ≡ verdict_line verdict) }
{
    match verdict {
        Verdict::Yes { books } => Ok(format!(in alloc; "audit yes books {books}\n")?),
        Verdict::No { line } => Ok(format!(in alloc; "audit no line {line}\n")?),
    }
}

/// Reads a log and a report, and writes whether they agree. Nothing is written before all of the
/// input is known. It has at most 1,073,741,824 bytes.
#[tactic(auto, using(crate::proofs::Audits::audit_unread, crate::proofs::Audits::audit_refused, crate::proofs::Audits::audit_cut, crate::proofs::Audits::audit_done))]
pub fn print_audit<I: Source, O: Sink>(
    alloc: Global,
    input: &mut I,
    out: &mut O,
) -> Result<(), Failure>
    ensures ends { AuditEnds stream_limit result
        (told I.left input.old input.new) (told O.written out.old out.new) }
    // However it ended, at most one byte was taken past the limit.
    ensures reads { TakesAtMost (stream_limit + 1) (told I.left input.old input.new) }
    ensures read_cause { HasCause
        (I.faults input.old) (I.faults input.new) (result ≡ Err Failure.Read) }
    ensures write_cause { HasCause
        (O.faults out.old) (O.faults out.new) (result ≡ Err Failure.Write) }
{
    let too_long = Trouble::Blocks(StreamTrouble::TooLong);
    let bytes = read_whole(alloc, input, INPUT_LIMIT, too_long)?;
    let verdict = audit_input(alloc, &bytes)?;
    let line = verdict_text(alloc, verdict)?;
    put_all(out, line.as_bytes())?;
    Ok(())
}
