//! What each form keeps and prints for a block.

ghost use Rattle.std.specs.Prelude.{◌≡◌, ◌+◌, [], ◌∷◌, List, length, OnOk, OnErr, IfOk, IfErr};
ghost use Rattle.std.specs.Prelude.{Err};
ghost use Rattle.unit_packets.specs.Blocks.{Block};
ghost use Rattle.feed_lines.specs.Follow.{line_after};
ghost use Rattle.unit_clients.specs.Clients.{HaveHeard};
ghost use Rattle.stream_print.specs.Knowing.{task_form, Knows};
ghost use Rattle.stream_print.specs.Printing.{PrintsBlock, FailsBlock};
ghost use Rattle.stream_print.specs.Sinks.{PagePrints, PutsPrefix, CountsFault};

use crate::failure::{PrintError, TaskError};
use crate::listed::print_quotes;
use crate::page::Page;
use crate::shown::print_messages;
use crate::stream_form::StreamForm;
use best_quotes::{QuoteLines, QuotedUnits};
use pitch_fields::OutOfMemory;
use pitch_io::Sink;
use relay_unit::Relays;
use std::alloc::Global;
use unit_clients::Units;
use unit_packets::BlockView;

/// What a command does with the blocks of a stream.
#[derive(Drop)]
pub enum Task {
    /// Each block is handed to its unit's client, and at the end the book of each unit is printed.
    Follow(Units),
    /// Each block is printed with its messages.
    Show,
    /// Each block is handed to its unit's relay.
    Relay(Relays),
    /// Each block is handed to its unit's client, with a ladder beside it.
    Quotes(QuotedUnits),
}

/// The task of a form.
pub fn make_task(alloc: Global, form: StreamForm) -> Result<Task, OutOfMemory>
    ensures form { IfOk result (λ task. task_form task ≡ form) }
    ensures knows { IfOk result (λ task. Knows task []) }
{
    match form {
        StreamForm::Follow { hold } => Ok(Task::Follow(Units::make(alloc, hold)?)),
        StreamForm::Show => Ok(Task::Show),
        StreamForm::Relay { hold } => Ok(Task::Relay(Relays::make(alloc, hold)?)),
        StreamForm::Quotes { hold } => Ok(Task::Quotes(QuotedUnits::make(alloc, hold)?)),
    }
}

// Hands a block to its unit's client, and prints its line.
fn print_heard<O: Sink>(
    alloc: Global,
    units: &mut Units,
    number: u64,
    block: &BlockView<'_>,
    page: &mut Page,
    out: &mut O,
) -> Result<(), PrintError>
    ensures limit { OnOk result (units.new.limit ≡ units.old.limit) }
    // Whatever blocks came before, the clients have then heard this one too, and its line was
    // printed.
    ensures heard { OnOk result ((before : List Block)
        → HaveHeard units.old before → HaveHeard units.new (block.now ∷ before)) }
    ensures printed { OnOk result ((before : List Block)
        → HaveHeard units.old before → number ≡ length before + 1
        → PagePrints O.written out.old out.new page.old page.new
        (line_after units.old.limit before block.now)) }
    ensures err { OnErr result (PutsPrefix O.written out.old out.new page.old.text) }
    ensures cause { CountsFault O.faults out.old out.new (result ≡ Err PrintError.Write) }
{
    page.make_place(out)?;
    let change = units.hear_block(alloc, block)?;
    let overflow = change.overflows > 0;
    page.add_block(number, block.header(), overflow, change.after);
    Ok(())
}

// Prints a block and its messages.
fn print_shown<O: Sink>(
    number: u64,
    block: &BlockView<'_>,
    page: &mut Page,
    out: &mut O,
) -> Result<(), TaskError>
    ensures prints { OnOk result (
        PrintsBlock Task.Show Task.Show number
        (O.written out.old) page.old.text (O.written out.new) page.new.text block.now) }
    ensures err { IfErr result (λ error.
        FailsBlock error Task.Show number
        (O.written out.old) page.old.text (O.written out.new) block.now) }
    ensures cause { CountsFault O.faults out.old out.new (result ≡ Err TaskError.Write) }
{
    page.make_place(out)?;
    let header = block.header();
    page.add_shown_head(number, header);
    print_messages(page, out, header.sequence, block.raws())?;
    Ok(())
}

// Hands a block to its unit's relay, and prints the datagrams that it adds.
fn print_relayed<O: Sink>(
    alloc: Global,
    relays: &mut Relays,
    number: u64,
    block: &BlockView<'_>,
    page: &mut Page,
    out: &mut O,
) -> Result<(), TaskError>
    ensures prints { OnOk result (
        PrintsBlock (Task.Relay relays.old) (Task.Relay relays.new) number
        (O.written out.old) page.old.text (O.written out.new) page.new.text block.now) }
    ensures err { IfErr result (λ error.
        FailsBlock error (Task.Relay relays.old) number
        (O.written out.old) page.old.text (O.written out.new) block.now) }
    ensures cause { CountsFault O.faults out.old out.new (result ≡ Err TaskError.Write) }
{
    let mut datagrams = Vec::new(alloc);
    relays.hear(alloc, block, &mut datagrams)?;
    page.print_bytes(&datagrams, out)?;
    Ok(())
}

// Hands a block to its unit's client, and prints a line for each best that it changes.
fn print_quoted<O: Sink>(
    alloc: Global,
    units: &mut QuotedUnits,
    number: u64,
    block: &BlockView<'_>,
    page: &mut Page,
    out: &mut O,
) -> Result<(), TaskError>
    ensures prints { OnOk result (
        PrintsBlock (Task.Quotes units.old) (Task.Quotes units.new) number
        (O.written out.old) page.old.text (O.written out.new) page.new.text block.now) }
    ensures err { IfErr result (λ error.
        FailsBlock error (Task.Quotes units.old) number
        (O.written out.old) page.old.text (O.written out.new) block.now) }
    ensures cause { CountsFault O.faults out.old out.new (result ≡ Err TaskError.Write) }
{
    let mut lines = QuoteLines::make(alloc);
    units.hear(alloc, block, &mut lines)?;
    let unit = block.header().unit;
    print_quotes(page, out, unit, lines.as_slice())?;
    Ok(())
}

/// Prints a block, the first of which has the number 1.
pub fn print_block<O: Sink>(
    alloc: Global,
    task: &mut Task,
    number: u64,
    block: &BlockView<'_>,
    page: &mut Page,
    out: &mut O,
) -> Result<(), TaskError>
    // Whatever blocks came before, the task knows of this one too, and its text was printed.
    ensures prints { OnOk result (
        PrintsBlock task.old task.new number
        (O.written out.old) page.old.text (O.written out.new) page.new.text block.now) }
    // After a failure the sink has a prefix of what was to be printed.
    ensures err { IfErr result (λ error.
        FailsBlock error task.old number
        (O.written out.old) page.old.text (O.written out.new) block.now) }
    ensures cause { CountsFault O.faults out.old out.new (result ≡ Err TaskError.Write) }
{
    match task {
        Task::Follow(units) => Ok(print_heard(alloc, units, number, block, page, out)?),
        Task::Show => print_shown(number, block, page, out),
        Task::Relay(relays) => print_relayed(alloc, relays, number, block, page, out),
        Task::Quotes(units) => print_quoted(alloc, units, number, block, page, out),
    }
}
