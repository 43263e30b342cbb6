//! The writer.
ghost use Rattle.std.specs.Prelude.{◌≡◌, ◌+◌, ◌<◌, ◌^◌, ◌⊎◌, [], false, length, Some, IfOk};
ghost use Rattle.std.specs.Prelude.{IfErr, OnOk, OnErr, MatchResult};
ghost use mathlib.Core.List.{IsPrefix};
ghost use Rattle.std.specs.Option.{option_copied};
ghost use Rattle.pitch_model.specs.Advertising.{Accept, Advertise, accepted_by};
ghost use Rattle.venue_core.specs.Commands.{raw_of};
ghost use Rattle.venue_core.specs.Refusals.{refusal, IsAnswer};
ghost use Rattle.venue_core.specs.declared.error.VenueError.TheVariants as errors;
ghost use Rattle.pitch_model.specs.History.{adds};
ghost use Rattle.pitch_model.specs.Image.{image_of};
ghost use Rattle.venue_core.specs.Stands.{last_of};
ghost use Rattle.shared_unit.specs.layers.Histories.{IsLegal, then_done};
ghost use Rattle.shared_unit.specs.layers.Moments.{IsNew, IsPublished, cut};
ghost use Rattle.shared_unit.specs.layers.Stored.{ComesAfter, operation_of, raws_in};

use crate::desk::Desk;
use crate::published::{Picture, What};
use crate::run::{FixedRun, Naming};
use crate::server::Server;
use crate::told::Told;
use order_book::{UnitBook, image_of};
use pitch_fields::OutOfMemory;
use pitch_messages::{Raw, RawList};
use pitch_text::Command;
use std::alloc::Global;
use std::marker::Model;
use std::sync::{Arc, Wait};
use venue_core::{Venue, VenueError};

/// The one who writes: it accepts the commands of a unit and advertises its images. Contracts see
/// the history of what it did, all that it saw happen, and whether it was cut off: had no memory to
/// publish an operation. One that was cut off does none from then on.
///
/// A call may wait until a server has left what it looks at. Once the writer was let go without
/// [`Writer::close`], its servers are out of memory for each look-up.
#[derive(Drop)]
pub struct Writer<J: Naming, R: FixedRun, W: Wait + Drop> {
    alloc: Global,
    desk: Desk<J, R, W>,
    venue: Venue,
}

impl<J: Naming, R: FixedRun, W: Wait + Drop> Model for Writer<J, R, W> {
    ghost use Rattle.pitch_model.specs.Advertising.{accepted_by};
    ghost use Rattle.venue_core.specs.Stands.{Stands};
    ghost use Rattle.shared_unit.specs.layers.Coding.{writing_code};
    ghost use Rattle.shared_unit.specs.layers.Moments.{Writing};

    ghost Value = { Writing };

    ghost coded = { writing_code };

    ghost view = { λ w. w.desk };

    ghost invariant = { λ w. Stands w.venue (accepted_by w.desk.history) 0 };
}

// The image of a book, under this sequence.
fn picture_of(alloc: Global, book: &UnitBook, sequence: u32) -> Result<Picture, OutOfMemory>
    ensures sequence { IfOk result (λ picture. picture.sequence ≡ sequence) }
    ensures orders { IfOk result (λ picture. picture.orders ≡ adds (image_of book.now.book)) }
    ensures raws { IfOk result (λ picture. raws_in picture ≡ Some (image_of book.now.book)) }
{
    let mut raws = RawList::make(alloc);
    let orders = image_of(alloc, book, &mut raws)?;
    // an image is made with room for the longest messages, and is kept with memory for its own
    let exact = RawList::of_raws(alloc, raws.raws())?;
    let shared = Arc::new(alloc, exact)?;
    Ok(Picture {
        sequence,
        orders,
        raws: Some(shared),
    })
}

impl<J: Naming, R: FixedRun, W: Wait + Drop> Writer<J, R, W> {
    pub(crate) fn new(alloc: Global, desk: Desk<J, R, W>, unit: u8) -> Writer<J, R, W>
        requires nothing { desk.history ≡ [] }
        requires reaches { desk.cut_off ≡ false }
        ensures nothing { result.history ≡ [] }
        ensures reaches { result.cut_off ≡ false }
    {
        Writer {
            alloc,
            desk,
            venue: Venue::make(alloc, unit),
        }
    }

    // One more server, which has seen nothing.
    pub(crate) fn place(&self) -> Result<Server<J, R>, OutOfMemory>
        ensures { IfOk result IsNew }
    {
        self.desk.place()
    }

    // How many messages were accepted.
    fn accepted(&self) -> u32
        ensures { result ≡ length (accepted_by self.now.history) }
    {
        self.venue.next_sequence() - 1
    }

    // What an advertising publishes.
    fn advertised(&self) -> Result<What, OutOfMemory>
        ensures follows { IfOk result (λ what. ComesAfter what self.now.history) }
        ensures operation { IfOk result (λ what. operation_of what ≡ Advertise) }
    {
        let sequence = self.accepted();
        if self.desk.past().has_newest(sequence) {
            return Ok(What::Again);
        }
        let picture = picture_of(self.alloc, self.venue.book(), sequence)?;
        Ok(What::Image(picture))
    }

    /// Accepts a command, as [`Venue::accept`], and publishes its message. The history is as before
    /// after a refusal.
    ///
    /// The history has fewer than 2^63 operations; where the run fixes its messages, the command's
    /// is the next of them.
    pub fn accept(&mut self, command: &Command) -> Result<u32, VenueError>
        requires few { length self.old.history < 2 ^ 63 }
        requires run { IsLegal R.fixed R.plan
            (then_done self.old.history (Accept (raw_of command.now))) }
        // The first refusal that holds after all messages of the history, or the next sequence.
        ensures answer { IsAnswer (refusal (accepted_by self.old.history) command.now)
            (length (accepted_by self.old.history) + 1) result }
        // Just this operation is added to the history, where it is Ok.
        ensures history { MatchResult result
            (λ _. self.new.history ≡ then_done self.old.history (Accept (raw_of command.now)))
            (λ _. self.new.history ≡ self.old.history) }
        // Then all of the history was published.
        ensures published { OnOk result (IsPublished self.new.history self.new.moments) }
        // It was not cut off, and is not.
        ensures reached { OnOk result (self.old.cut_off ≡ false) }
        ensures reaches { OnOk result (self.new.cut_off ≡ false) }
        // Else all is as before, but that for want of memory it may be cut off.
        ensures same { IfErr result (λ error. (self.new ≡ self.old)
            ⊎ ((error ≡ errors.OutOfMemory) × (self.new ≡ cut self.old))) }
    {
        let raw = match self.venue.prepare(command) {
            Ok(raw) => raw,
            Err(error) => return Err(error),
        };
        match self.desk.publish(What::Message(raw)) {
            Ok(()) => Ok(self.venue.take_ready()),
            Err(OutOfMemory) => Err(VenueError::OutOfMemory),
        }
    }

    /// Advertises the image of all messages, answers its sequence, which is their number, and
    /// publishes it. A repeat is an operation too. The history is as before after OutOfMemory.
    ///
    /// The history has fewer than 2^63 operations.
    pub fn advertise(&mut self) -> Result<u32, OutOfMemory>
        requires few { length self.old.history < 2 ^ 63 }
        ensures sequence { IfOk result
            (λ sequence. sequence ≡ length (accepted_by self.old.history)) }
        // Just this operation is added to the history, where it is Ok.
        ensures history { MatchResult result
            (λ _. self.new.history ≡ then_done self.old.history Advertise)
            (λ _. self.new.history ≡ self.old.history) }
        // Then all of the history was published.
        ensures published { OnOk result (IsPublished self.new.history self.new.moments) }
        // It was not cut off, and is not.
        ensures reached { OnOk result (self.old.cut_off ≡ false) }
        ensures reaches { OnOk result (self.new.cut_off ≡ false) }
        // Else all is as before, but that it may be cut off.
        ensures same { OnErr result ((self.new ≡ self.old) ⊎ (self.new ≡ cut self.old)) }
    {
        // What was done is legal, and advertising accepts nothing.
        let _done = self.desk.past().len();
        let sequence = self.accepted();
        let what = self.advertised()?;
        self.desk.publish(what)?;
        Ok(sequence)
    }

    /// The message that was last accepted, or None exactly where none was.
    pub fn last_raw(&self) -> Option<&Raw>
        ensures { option_copied result ≡ last_of (accepted_by self.now.history) }
    {
        self.venue.last_raw()
    }

    /// What stands for the history so far.
    pub fn tell(&mut self) -> Told<J, R>
        ensures told { result.history ≡ self.old.history }
        // Whoever hears it knows that all of it was published.
        ensures published { IsPublished result.history result.moments }
        ensures same { self.new ≡ self.old }
    {
        self.desk.told()
    }

    /// Nobody else writes: what a server has seen begins this history, unless the writer was cut
    /// off. It tests nothing and changes nothing; who rests on it calls it.
    pub fn covers(&mut self, server: &Server<J, R>)
        ensures same { self.new ≡ self.old }
        ensures begins { self.old.cut_off ≡ false
            → IsPrefix server.now.history self.old.history }
    {
        self.desk.covers(&server.past);
    }

    /// Ends writing. Servers go on answering.
    pub fn close(self) {
        let Self {
            alloc: _,
            desk,
            venue: _,
        } = self;
        desk.keep();
    }
}
