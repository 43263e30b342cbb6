//! What printing carries from block to block: a count, the task's state and the page.

use crate::books::print_books;
use crate::failure::{PrintError, TaskError};
use crate::page::Page;
use crate::pieces::PIECE;
use crate::stream_form::StreamForm;
use crate::task::{Task, make_task, print_block};
use feed_lines::LINE;
use pitch_fields::OutOfMemory;
use pitch_io::Sink;
use std::alloc::Global;
use unit_packets::BlockView;

/// What is printed of a stream: how many blocks there were, what the task knows of them, and the
/// text that is not written yet.
#[derive(Drop)]
pub struct Printer {
    pub number: u64,
    pub task: Task,
    pub page: Page,
}

impl Printer {
    ghost use Rattle.std.specs.Prelude.{◌≡◌, ◌<◌, ◌+◌, ◌-◌, ◌^◌, [], ◌∷◌, List, OnOk, OnErr};
    ghost use Rattle.std.specs.Prelude.{IfOk, IfErr, Err};
    ghost use Rattle.unit_packets.specs.Blocks.{Block};
    ghost use Rattle.stream_print.specs.Sinks.{PagePrintsSuch, PutsPrefixSuch, CountsFault};
    ghost use Rattle.stream_print.specs.Knowing.{task_form, HasPrinted};
    ghost use Rattle.stream_print.specs.Printing.{PrintsBlocks, FailsBlocks};
    ghost use Rattle.stream_print.specs.TextLaws.{IsEnd};

    /// Nothing was printed yet of what the form asks for.
    pub fn make(alloc: Global, form: StreamForm) -> Result<Printer, OutOfMemory>
        ensures known { IfOk result (λ p. HasPrinted p []) }
        ensures form { IfOk result (λ p. task_form p.task ≡ form) }
        ensures page { IfOk result (λ p. p.page.text ≡ []) }
    {
        Ok(Printer {
            number: 0,
            task: make_task(alloc, form)?,
            page: Page::make(alloc, PIECE + LINE)?,
        })
    }

    /// Prints a block.
    pub fn print<O: Sink>(
        &mut self,
        alloc: Global,
        block: &BlockView<'_>,
        out: &mut O,
    ) -> Result<(), TaskError>
        requires few { self.old.number < 2 ^ 64 - 1 }
        ensures prints { OnOk result (
            PrintsBlocks self.old self.new (O.written out.old) (O.written out.new)
            (block.now ∷ [])) }
        ensures number { OnOk result (self.new.number ≡ self.old.number + 1) }
        // After a failure the sink has a prefix of the page and of the block's text.
        ensures err { IfErr result (λ error.
            FailsBlocks error self.old (O.written out.old) (O.written out.new) (block.now ∷ [])) }
        ensures cause { CountsFault O.faults out.old out.new (result ≡ Err TaskError.Write) }
    {
        self.number += 1;
        print_block(
            alloc,
            &mut self.task,
            self.number,
            block,
            &mut self.page,
            out,
        )
    }

    /// Prints what stands at the end of the stream.
    pub fn print_end<O: Sink>(&mut self, alloc: Global, out: &mut O) -> Result<(), PrintError>
        // Whatever blocks were printed before, what follows them at the end was printed.
        ensures printed { OnOk result ((before : List Block) → HasPrinted self.old before
            → PagePrintsSuch (IsEnd (task_form self.old.task) before)
            O.written out.old out.new self.old.page self.new.page) }
        ensures err { OnErr result ((before : List Block) → HasPrinted self.old before
            → PutsPrefixSuch (IsEnd (task_form self.old.task) before)
            O.written out.old out.new self.old.page) }
        ensures cause { CountsFault O.faults out.old out.new (result ≡ Err PrintError.Write) }
    {
        match &self.task {
            Task::Follow(units) => print_books(alloc, units.clients(), &mut self.page, out),
            Task::Show => Ok(()),
            Task::Relay(_) => Ok(()),
            Task::Quotes(_) => Ok(()),
        }
    }
}
