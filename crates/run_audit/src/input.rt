//! Takes an audit's input apart into log and report, and names what is wrong with it.

ghost use Rattle.std.specs.Prelude.{◌≡◌, ◌≤◌, ◌<◌, Err, IfOk, IfErr, OnErr, length};
ghost use Rattle.run_audit.specs.Log.{messages_at};
ghost use Rattle.run_audit.specs.Report.{Judges, lines_of};
ghost use Rattle.run_audit.specs.Input.{Audits, IsRefused};
ghost use Rattle.run_audit.specs.layers.Logging.{LogsAll, IsLogRefused, LogsOne};

use crate::audit::Audit;
use crate::error::AuditError;
use crate::verdict::Verdict;
use pitch_fields::{OutOfMemory, get_u64};
use std::alloc::Global;
use std::fmt;
use unit_packets::{BlockFault, BlockView, view_block};

/// A block's sequence, and the next one of its unit.
#[derive(Clone, Copy, PartialEq, Eq)]
pub struct FoundGap {
    pub sequence: u32,
    pub next: u32,
}

/// Both in words, as `sequence 2 where 1 is next`.
impl fmt::Display for FoundGap {
    ghost use Rattle.std.specs.Prelude.{Some};
    ghost use Rattle.run_audit.specs.Causes.{gap_text};

    ghost output = { λ gap. Some (gap_text gap) };

    fn fmt<W: fmt::Write>(&self, f: &mut fmt::Formatter<W>) -> fmt::Result {
        let sequence = self.sequence;
        let next = self.next;
        write!(f, "sequence {sequence} where {next} is next")
    }
}

/// What is wrong with the input of an audit. Places count from the input's first byte.
#[derive(Clone, Copy, PartialEq, Eq)]
pub enum AuditFault {
    /// Fewer bytes are there than the eight of the log's size.
    NoSize { has: u64 },
    /// Fewer bytes are there than the log has.
    CutLog { has: u64, needs: u64 },
    /// The log does not go on with a block.
    Faulty(BlockFault),
    /// A block of the log does not begin with its unit's next message.
    Gap { place: u64, gap: FoundGap },
}

/// The place and the cause in words, as `byte 8: sequence 2 where 1 is next`.
impl fmt::Display for AuditFault {
    ghost use Rattle.std.specs.Prelude.{Some};
    ghost use Rattle.run_audit.specs.Causes.{audit_fault_text};

    ghost output = { λ fault. Some (audit_fault_text fault) };

    fn fmt<W: fmt::Write>(&self, f: &mut fmt::Formatter<W>) -> fmt::Result {
        match *self {
            AuditFault::NoSize { has } => write!(f, "byte 0: truncated, has {has} of 8"),
            AuditFault::CutLog { has, needs } => {
                write!(f, "byte 8: truncated, has {has} of {needs}")
            }
            AuditFault::Faulty(fault) => write!(f, "{fault}"),
            AuditFault::Gap { place, gap } => write!(f, "byte {place}: {gap}"),
        }
    }
}

/// Why there is no verdict on an input.
#[derive(Clone, Copy, PartialEq, Eq)]
pub enum InputError {
    /// The input has a fault.
    Fault(AuditFault),
    /// There was no memory for it.
    OutOfMemory,
}

impl From<OutOfMemory> for InputError {
    ghost use Rattle.std.specs.Prelude.{◌≡◌};
    ghost use Rattle.run_audit.specs.declared.input.InputError.TheVariants as errors;

    ghost from_gives = { λ _ error. error ≡ errors.OutOfMemory };

    fn from(_: OutOfMemory) -> InputError {
        InputError::OutOfMemory
    }
}

// Logs a block of the log that stands at a place of the input.
fn log_one(audit: &mut Audit, place: u64, block: &BlockView<'_>) -> Result<(), InputError>
    ensures { LogsOne audit.old audit.new block.now place result }
{
    match audit.log_view(block) {
        Ok(()) => Ok(()),
        Err(AuditError::Gap { sequence, next }) => Err(InputError::Fault(AuditFault::Gap {
            place,
            gap: FoundGap { sequence, next },
        })),
        Err(AuditError::OutOfMemory) => Err(InputError::OutOfMemory),
    }
}

// Logs all blocks of a log.
fn log_all(alloc: Global, log: &[u8]) -> Result<Audit, InputError>
    requires { length log.now ≤ 1073741824 }
    ensures all { IfOk result (LogsAll log.now) }
    ensures refused { IfErr result (IsLogRefused log.now) }
{
    let mut audit = Audit::make(alloc);
    let mut at = 0;
    'places: while at < log.len() {
        match view_block(&log[at..]) {
            Ok(block) => {
                if let Err(error) = log_one(&mut audit, 8 + at as u64, &block) {
                    return Err(error);
                }
                at += block.header().length as usize;
            }
            Err(error) => {
                return Err(InputError::Fault(AuditFault::Faulty(BlockFault {
                    place: 8 + at as u64,
                    error,
                })));
            }
        }
    }
    Ok(audit)
}

/// The verdict on the report of an input, by the log of that input: eight bytes with the number of
/// the log's bytes, the log, and the report.
pub fn audit_input(alloc: Global, bytes: &[u8]) -> Result<Verdict, InputError>
    requires { length bytes.now ≤ 1073741824 }
    ensures audits { IfOk result (Audits bytes.now) }
    ensures refused { IfErr result (IsRefused bytes.now) }
{
    if bytes.len() < 8 {
        return Err(InputError::Fault(AuditFault::NoSize {
            has: bytes.len() as u64,
        }));
    }
    let (_, rest) = bytes.split_at(8);
    let needs = get_u64(bytes, 0);
    let has = rest.len() as u64;
    if has < needs {
        return Err(InputError::Fault(AuditFault::CutLog { has, needs }));
    }
    let (log, text) = rest.split_at(needs as usize);
    match log_all(alloc, log) {
        Ok(audit) => report(&audit, text),
        Err(error) => Err(error),
    }
}

// The verdict on a report.
fn report(audit: &Audit, text: &[u8]) -> Result<Verdict, InputError>
    requires { length text.now < 4294967295 }
    ensures verdict { IfOk result (Judges (messages_at audit.now) (lines_of text.now)) }
    ensures memory { OnErr result (result ≡ Err InputError.OutOfMemory) }
{
    match audit.report(text) {
        Ok(verdict) => Ok(verdict),
        Err(_) => Err(InputError::OutOfMemory),
    }
}
