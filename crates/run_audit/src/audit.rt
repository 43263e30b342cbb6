//! The log of an audit: every message of each unit, by which reports are judged.

ghost use Rattle.std.specs.Prelude.{◌≡◌, ◌⊎◌, ℕ, ◌+◌, ◌<◌, ◌≤◌, ◌==◌, ◌++◌, List, [], length, OnOk};
ghost use Rattle.std.specs.Prelude.{OnErr, IfOk, IfErr, if◌then◌else◌};
ghost use Rattle.unit_packets.specs.Blocks.{StaysWithin};
ghost use Rattle.pitch_model.specs.History.{Raw};
ghost use Rattle.run_audit.specs.layers.Finding.{messages_of};
ghost use Rattle.run_audit.specs.Log.{HasLogged, MayFollow, messages_at, with_block};
ghost use Rattle.run_audit.specs.Report.{Judges, lines_of};
ghost use Rattle.run_audit.specs.layers.Following.{AreShort, HasMore, HasSame, IsGap, IsGapAt};

use crate::error::AuditError;
use crate::report::report_on;
use crate::verdict::Verdict;
use pitch_fields::OutOfMemory;
use pitch_messages::{RawList, Raws};
use std::alloc::Global;
use std::marker::Model;
use unit_packets::{Block, BlockView};

/// All messages of each unit, as they were logged.
#[derive(Drop)]
pub struct Audit {
    logs: Vec<RawList>,
}

impl Model for Audit {
    ghost use Rattle.std.specs.Prelude.{ℕ, List, map};
    ghost use Rattle.run_audit.specs.layers.Following.{AreShort};

    ghost Value = { List (List (List ℕ)) };

    ghost view = { λ a. map (λ l. l.items) a.logs.items };

    ghost invariant = { λ a. AreShort a.logs.items };
}

impl Audit {
    /// An empty log. It takes no memory.
    pub fn make(alloc: Global) -> Audit
        ensures { result ≡ [] }
    {
        Audit {
            logs: Vec::new(alloc),
        }
    }

    /// Logs a block's messages. The log is as before after an error.
    pub fn log(&mut self, block: &Block) -> Result<(), AuditError>
        ensures ok { OnOk result
            (HasLogged self.new (with_block block.now (messages_at self.old))) }
        ensures follows { OnOk result (MayFollow (messages_at self.old) block.now) }
        ensures gap { IfErr result (IsGap (messages_at self.old) block.now) }
        ensures err { OnErr result (HasLogged self.new (messages_at self.old)) }
    {
        log_raws(
            &mut self.logs,
            block.header.unit,
            block.header.sequence,
            block.raws.raws(),
        )
    }

    /// Logs the messages of a block that is lent, as `log` does.
    pub fn log_view(&mut self, block: &BlockView<'_>) -> Result<(), AuditError>
        ensures ok { OnOk result
            (HasLogged self.new (with_block block.now (messages_at self.old))) }
        ensures follows { OnOk result (MayFollow (messages_at self.old) block.now) }
        ensures gap { IfErr result (IsGap (messages_at self.old) block.now) }
        ensures err { OnErr result (HasLogged self.new (messages_at self.old)) }
    {
        let header = block.header();
        log_raws(&mut self.logs, header.unit, header.sequence, block.raws())
    }

    /// Whether a report agrees with the log: each book that it prints is what the messages up to
    /// its number leave.
    ///
    /// It takes one pass over the log where the books of each unit stand by rising number, and two
    /// where some do not.
    pub fn report(&self, text: &[u8]) -> Result<Verdict, OutOfMemory>
        requires { length text.now < 4294967295 }
        ensures { IfOk result (Judges (messages_at self.now) (lines_of text.now)) }
    {
        report_on(*self.logs.allocator(), self.logs.as_slice(), text)
    }
}

// Logs the messages of a unit's block.
#[tactic(auto, using(crate::proofs::Logging::past))]
fn log_raws(
    logs: &mut Vec<RawList>,
    unit: u8,
    sequence: u32,
    raws: Raws<'_>,
) -> Result<(), AuditError>
    requires short { AreShort logs.old.items }
    requires past { StaysWithin sequence (length raws) }
    ensures ok { OnOk result (HasMore logs.old.items logs.new.items unit raws.entry) }
    ensures follows { OnOk result
        ((raws.entry ≡ []) ⊎ (sequence ≡ length (messages_of logs.old.items unit) + 1)) }
    ensures gap { IfErr result
        (IsGapAt raws.entry sequence (length (messages_of logs.old.items unit) + 1)) }
    ensures err { OnErr result (HasSame logs.old.items logs.new.items) }
    ensures short { AreShort logs.new.items }
{
    if raws.len() == 0 {
        return Ok(());
    }
    make_lists(logs, unit as usize + 1)?;
    append(&mut logs[unit as usize], sequence, raws)
}

// Makes so many lists.
fn make_lists(logs: &mut Vec<RawList>, count: usize) -> Result<(), OutOfMemory>
    requires { AreShort logs.old.items }
    ensures same { HasSame logs.old.items logs.new.items }
    ensures short { AreShort logs.new.items }
    ensures count { OnOk result (count ≤ length logs.new.items) }
{
    let alloc = *logs.allocator();
    'lists: while logs.len() < count {
        logs.push(RawList::make(alloc))?;
    }
    Ok(())
}

// Appends a unit's messages, which are to be its next.
fn append(log: &mut RawList, sequence: u32, raws: Raws<'_>) -> Result<(), AuditError>
    requires short { length log.old.items ≤ 4294967294 }
    requires some { 0 < length raws }
    requires past { 0 < sequence → sequence + length raws ≤ 4294967295 }
    ensures ok { OnOk result (log.new.items ≡ log.old.items ++ raws.entry) }
    ensures follows { OnOk result (sequence ≡ length log.old.items + 1) }
    ensures gap { IfErr result (IsGapAt raws.entry sequence (length log.old.items + 1)) }
    ensures err { OnErr result (log.new.items ≡ log.old.items) }
    ensures short { length log.new.items ≤ 4294967294 }
{
    let next = log.len() as u32 + 1;
    if sequence != next {
        return Err(AuditError::Gap { sequence, next });
    }
    log.reserve(raws.len())?;
    push_raws(log, raws);
    Ok(())
}

// Puts messages at the end, for which the list has the memory.
fn push_raws(log: &mut RawList, mut raws: Raws<'_>)
    requires { length raws ≤ log.old.spare }
    ensures { log.new.items ≡ log.old.items ++ raws.entry }
{
    'messages: while let Some(raw) = raws.next_raw() {
        if log.push_bytes(raw).is_err() {
            unreachable!();
        }
    }
}
