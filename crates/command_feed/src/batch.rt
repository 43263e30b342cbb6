//! Commands read 32 ahead of the venue, so that the look-ups of their orders overlap.

ghost use Rattle.std.specs.Prelude.{◌≡◌, ◌<◌, ◌++◌, [], ◌∷◌, ◌⊎◌, List, ℕ, Err, OnOk, IfOk, IfErr};
ghost use Rattle.std.specs.Prelude.{IsTrue, IsFalse, length};
ghost use Rattle.text_lines.specs.Text.{all_of};
ghost use Rattle.command_feed.specs.layers.Accepting.{accepted_in, with_before};
ghost use Rattle.command_feed.specs.declared.error.CommandError.TheVariants as errors;

use crate::error::CommandError;
use order_book::UnitBook;
use pitch_fields::OutOfMemory;
use pitch_text::{Command, CommandEntry, Commands};
use std::alloc::Global;

// How many commands are read ahead.
const AHEAD: usize = 32;

// Commands that were read and are still to go to the venue. Their orders are looked up before the
// first of them does, so that they are near by then: these look-ups overlap, where those of the
// venue wait for one another.
#[derive(Drop)]
pub(crate) struct Batch {
    pub(crate) entries: Vec<CommandEntry>,
    // The ids of the orders that they name.
    ids: Vec<u64>,
    // How many orders were found, since look-ups for nothing may be left out.
    looked_up: usize,
}

impl Batch {
    // No commands, with room for as many as are read ahead.
    pub(crate) fn make(alloc: Global) -> Result<Batch, OutOfMemory> {
        Ok(Batch {
            entries: Vec::with_capacity(alloc, AHEAD)?,
            ids: Vec::with_capacity(alloc, AHEAD)?,
            looked_up: 0,
        })
    }

    // Reads the next commands in place of those that were read before, and answers whether there
    // are any. The answer is an error where a fault comes among them.
    pub(crate) fn read(&mut self, items: &mut Commands<'_>) -> Result<bool, CommandError>
        ensures read { OnOk result
            (all_of items.old ≡ with_before self.new.entries.items (all_of items.new)) }
        ensures some { IfOk result (λ some. IsTrue some → length items.new < length items.old) }
        ensures none { IfOk result (λ some. IsFalse some → items.old ≡ []) }
        ensures err { IfErr result (λ error. (error ≡ errors.OutOfMemory)
            ⊎ ((accepted : List (List ℕ)) → accepted_in accepted (all_of items.old) ≡ Err error)) }
    {
        self.entries.clear();
        self.ids.clear();
        'reads: while self.entries.len() < AHEAD {
            let Some(item) = items.next() else {
                return Ok(!self.entries.is_empty());
            };
            match item {
                Ok(entry) => self.push(entry)?,
                Err(fault) => return Err(CommandError::from(fault)),
            }
        }
        Ok(true)
    }

    // Looks up the orders that the commands name. It is a call of its own, for else what it counts
    // is seen to be used nowhere.
    #[inline(never)]
    pub(crate) fn look_up(&mut self, book: &UnitBook)
        ensures { self.new.entries ≡ self.old.entries }
    {
        let mut open: usize = 0;
        for id in &self.ids {
            if is_open(book, *id) {
                open = open.wrapping_add(1);
            }
        }
        self.looked_up = self.looked_up.wrapping_add(open);
    }

    // One command more.
    fn push(&mut self, entry: CommandEntry) -> Result<(), OutOfMemory>
        ensures { OnOk result (self.new.entries.items ≡ self.old.entries.items ++ entry ∷ []) }
    {
        self.entries.push(entry)?;
        if let Some(id) = named_order(&entry.command) {
            self.ids.push(id)?;
        }
        Ok(())
    }
}

// Whether an order is open. Its quantity is read, which is never 0, so that the order is near
// afterwards.
#[inline(always)]
fn is_open(book: &UnitBook, id: u64) -> bool {
    match book.order(id) {
        Some(order) => order.quantity > 0,
        None => false,
    }
}

// The id of the order that a command adds or names.
fn named_order(command: &Command) -> Option<u64> {
    match *command {
        Command::Add { order, .. } => Some(order.id),
        Command::Exec { id, .. }
        | Command::ExecAt { id, .. }
        | Command::Reduce { id, .. }
        | Command::Modify { id, .. }
        | Command::Delete { id, .. } => Some(id),
        Command::Time { .. }
        | Command::Trade { .. }
        | Command::Break { .. }
        | Command::Clear { .. }
        | Command::EndSession { .. }
        | Command::Status { .. } => None,
    }
}
