//! From a text of commands to datagrams: commands are read, accepted by a venue, and packed.

ghost use Rattle.std.specs.Prelude.{◌≡◌, ◌≤◌, ◌++◌, [], ◌⊎◌, List, ℕ, Result, Ok, Err, OnOk, OnErr};
ghost use Rattle.std.specs.Prelude.{IfOk, IfErr, length, take};
ghost use Rattle.std.specs.List.{concat};
ghost use Rattle.std.specs.Result.{result_err};
ghost use Rattle.pitch_fields.specs.Limits.{text_limit};
ghost use Rattle.pitch_text.specs.declared.command.CommandEntry.{CommandEntry};
ghost use Rattle.text_lines.specs.Text.{all_of};
ghost use Rattle.text_lines.specs.declared.fault.TextError.{TextError};
ghost use Rattle.unit_packets.specs.Packing.{IsPacking, packed, bytes_in};
ghost use Rattle.venue_core.specs.Stands.{Stands};
ghost use Rattle.command_feed.specs.layers.Accepting.{IsAccepted, IsRefused, AcceptsAll};
ghost use Rattle.command_feed.specs.layers.Accepting.{IsVenueAfter};
ghost use Rattle.command_feed.specs.layers.Accepting.{TakesSome, accepted_in, with_before};
ghost use Rattle.command_feed.specs.layers.Faults.{of_venue, cause_before};
ghost use Rattle.command_feed.specs.Feed.{messages_of, feed_of, AppendsPacking};
ghost use Rattle.command_feed.specs.declared.error.CommandError.TheVariants as errors;

use crate::batch::Batch;
use crate::error::CommandError;
use pitch_fields::OutOfMemory;
use pitch_text::{CommandEntry, Commands, TextError};
use std::alloc::Global;
use unit_packets::{DatagramList, append_datagrams};
use venue_core::{Venue, VenueError};

// The error of the command of a line.
fn refused(line: u32, error: VenueError) -> CommandError
    ensures { result ≡ of_venue line error }
{
    match error {
        VenueError::OutOfMemory => CommandError::OutOfMemory,
        error => CommandError::Refused { line, error },
    }
}

// The venue accepts the command of a line.
fn accept_entry(venue: &mut Venue, entry: &CommandEntry) -> Result<(), CommandError>
    ensures ok { OnOk result ((accepted : List (List ℕ)) → Stands venue.old accepted 0
        → IsAccepted accepted entry.now venue.new) }
    ensures err { IfErr result (λ error. (accepted : List (List ℕ)) → Stands venue.old accepted 0
        → (error ≡ errors.OutOfMemory) ⊎ IsRefused accepted entry.now error) }
    ensures unit { venue.new.unit ≡ venue.old.unit }
{
    match venue.accept(&entry.command) {
        Ok(_) => Ok(()),
        Err(error) => Err(refused(entry.line, error)),
    }
}

// The first fault among the items of a text.
fn first_fault(items: Commands<'_>) -> Option<TextError>
    ensures { result ≡ result_err (all_of items.entry) }
{
    'items: for item in items {
        if let Err(fault) = item {
            return Some(fault);
        }
    }
    None
}

// Why a text makes no feed, where a command has this error and these items follow it.
fn first_cause(error: CommandError, rest: Commands<'_>) -> CommandError
    ensures { result ≡ cause_before (all_of rest.entry) error }
{
    if let CommandError::OutOfMemory = error {
        return CommandError::OutOfMemory;
    }
    match first_fault(rest) {
        Some(fault) => CommandError::from(fault),
        None => error,
    }
}

// The venue accepts some commands, up to the first that is refused. Whatever follows them is as yet
// to be read.
fn accept_entries(venue: &mut Venue, entries: &[CommandEntry]) -> Result<(), CommandError>
    ensures ok { OnOk result ((accepted : List (List ℕ))
        (rest : Result (List CommandEntry) TextError) → Stands venue.old accepted 0
        → TakesSome accepted (with_before entries.now rest) rest venue.new) }
    ensures err { IfErr result
        (λ error. (accepted : List (List ℕ)) (rest : Result (List CommandEntry) TextError)
        → Stands venue.old accepted 0 → (error ≡ errors.OutOfMemory)
        ⊎ (accepted_in accepted (with_before entries.now rest) ≡ Err (cause_before rest error))) }
    ensures unit { venue.new.unit ≡ venue.old.unit }
{
    'entries: for entry in entries {
        if let Err(error) = accept_entry(venue, entry) {
            return Err(error);
        }
    }
    Ok(())
}

// The venue accepts the commands of all items. Else the answer is the text's first fault, or the
// first command that is refused; from that on no command goes to the venue.
fn accept_all(alloc: Global, venue: &mut Venue, mut items: Commands<'_>) -> Result<(), CommandError>
    ensures ok { OnOk result ((accepted : List (List ℕ))
        → Stands venue.old accepted 0 → AcceptsAll accepted (all_of items.entry) venue.new) }
    ensures err { IfErr result (λ error. (accepted : List (List ℕ)) → Stands venue.old accepted 0
        → (error ≡ errors.OutOfMemory) ⊎ (accepted_in accepted (all_of items.entry) ≡ Err error)) }
    ensures unit { venue.new.unit ≡ venue.old.unit }
{
    let mut batch = Batch::make(alloc)?;
    'batches: while batch.read(&mut items)? {
        batch.look_up(venue.book());
        if let Err(error) = accept_entries(venue, &batch.entries) {
            return Err(first_cause(error, items));
        }
    }
    Ok(())
}

// The venue after the commands of a text.
fn venue_after(alloc: Global, unit: u8, text: &[u8]) -> Result<Venue, CommandError>
    requires { length text.now ≤ text_limit }
    ensures ok { IfOk result (λ venue. IsVenueAfter text.now venue) }
    ensures unit { IfOk result (λ venue. venue.unit ≡ unit) }
    ensures err { IfErr result
        (λ error. (error ≡ errors.OutOfMemory) ⊎ (messages_of text.now ≡ Err error)) }
{
    let mut venue = Venue::make(alloc, unit);
    match accept_all(alloc, &mut venue, Commands::of_text(text)) {
        Ok(()) => Ok(venue),
        Err(error) => {
            drop(venue);
            Err(error)
        }
    }
}

// Appends the datagrams of all that a venue has pending. The bytes are as before after OutOfMemory.
fn append_pending(venue: &mut Venue, alloc: Global, out: &mut Vec<u8>) -> Result<(), OutOfMemory>
    ensures ok { OnOk result ((accepted : List (List ℕ)) → Stands venue.old accepted 0
        → out.new.items ≡ out.old.items ++ concat (packed venue.old.unit 1 accepted)) }
    ensures packing { OnOk result ((accepted : List (List ℕ)) → Stands venue.old accepted 0
        → IsPacking venue.old.unit 1 accepted (packed venue.old.unit 1 accepted)) }
    ensures err { OnErr result (out.new.items ≡ out.old.items) }
{
    let mut datagrams = DatagramList::make(alloc);
    venue.flush(&mut datagrams)?;
    append_datagrams(datagrams.as_slice(), out)?;
    Ok(())
}

/// Appends the feed of a unit that a text of commands makes: its datagrams, end to end, from
/// sequence 1 on.
///
/// The text is read once, and has at most 67,108,864 bytes. Bad is its first fault, even where that
/// comes after a command that is refused; Refused is the first command that the venue refuses of
/// a text without a fault. After an error `out` is as before.
pub fn append_feed(
    alloc: Global,
    unit: u8,
    text: &[u8],
    out: &mut Vec<u8>,
) -> Result<(), CommandError>
    requires { length text.now ≤ text_limit }
    ensures feed { OnOk result ((feed : List ℕ)
        × (feed_of unit text.now ≡ Ok feed) × (out.new.items ≡ out.old.items ++ feed)) }
    ensures packing { OnOk result (AppendsPacking unit text.now out.old.items out.new.items) }
    ensures cause { IfErr result
        (λ error. (error ≡ errors.OutOfMemory) ⊎ (feed_of unit text.now ≡ Err error)) }
    ensures kept { OnErr result (out.new.items ≡ out.old.items) }
{
    let mut venue = venue_after(alloc, unit, text)?;
    let appended = append_pending(&mut venue, alloc, out);
    // By a call: a function that drops a venue itself takes long to prove.
    drop(venue);
    appended?;
    Ok(())
}
