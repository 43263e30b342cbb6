//! The value that is published. It knows the history that it stands for.
ghost use Rattle.std.specs.Prelude.{◌≡◌, ◌+◌, ◌==◌, ◌<◌, ◌≤◌, ◌++◌, [], false, length, map};
ghost use Rattle.std.specs.Prelude.{slice_get, IfOk, OnOk, OnErr, IfSome, IfNone, IsSomeAnd};
ghost use Rattle.std.specs.List.{list_any};
ghost use Rattle.pitch_fields.specs.Limits.{last_sequence};
ghost use Rattle.unit_packets.specs.Packing.{bytes_in};
ghost use Rattle.gap_store.specs.Look.{look};
ghost use Rattle.gap_store.specs.layers.Looking.{AnswersLook, AnswersPack};
ghost use Rattle.shared_unit.specs.layers.Answers.{AnswersImage};
ghost use Rattle.shared_unit.specs.layers.Histories.{kept_at, served_at};
ghost use Rattle.shared_unit.specs.layers.Stored.{AreBlank, EndsWith, sequence_of};

use crate::past::Past;
use crate::published::{Picture, Shelves, What};
use crate::run::{FixedRun, Naming};
use circular_buffer::HeapCircularBuffer;
use gap_store::Found;
use left_right::Absorb;
use pitch_fields::OutOfMemory;
use pitch_messages::{RawList, Raws};
use spin_server::Imaged;
use std::alloc::{AllocError, Global};
use std::marker::Model;
use unit_packets::DatagramList;

// One of the two copies. Contracts see the history that it stands for.
#[derive(Drop)]
pub struct Store<J: Naming, R: FixedRun> {
    shelves: Shelves,
    past: Past<J, R>,
}

impl<J: Naming, R: FixedRun> Model for Store<J, R> {
    ghost use Rattle.std.specs.Prelude.{List};
    ghost use Rattle.pitch_model.specs.Advertising.{Operation};
    ghost use Rattle.shared_unit.specs.layers.Coding.{history_code};
    ghost use Rattle.shared_unit.specs.layers.Stored.{StandFor};

    ghost Value = { List Operation };

    ghost coded = { history_code };

    ghost view = { λ s. s.past };

    ghost invariant = { λ s. StandFor J.kept s.shelves s.past };
}

// What is published, with the history that it ends; or nothing, with no history. Contracts see the
// history.
#[derive(Drop)]
pub struct Published<J: Naming, R: FixedRun> {
    what: Option<What>,
    past: Past<J, R>,
}

impl<J: Naming, R: FixedRun> Model for Published<J, R> {
    ghost use Rattle.std.specs.Prelude.{List};
    ghost use Rattle.pitch_model.specs.Advertising.{Operation};
    ghost use Rattle.shared_unit.specs.layers.Coding.{history_code};
    ghost use Rattle.shared_unit.specs.layers.Stored.{EndsOrIsNothing};

    ghost Value = { List Operation };

    ghost coded = { history_code };

    ghost view = { λ p. p.past };

    ghost invariant = { λ p. EndsOrIsNothing p.what p.past };
}

impl<J: Naming, R: FixedRun> Published<J, R> {
    pub(crate) fn new(what: What, past: Past<J, R>) -> Published<J, R>
        requires { EndsWith what past }
        ensures { result ≡ past }
    {
        Published {
            what: Some(what),
            past,
        }
    }

    // Nothing is published, which changes no copy.
    pub(crate) fn nothing(past: Past<J, R>) -> Published<J, R>
        requires { past ≡ [] }
        ensures { result ≡ [] }
    {
        Published { what: None, past }
    }
}

// Appends messages. The list is as before after OutOfMemory.
fn append_raws(raws: Raws<'_>, out: &mut RawList) -> Result<(), OutOfMemory>
    ensures ok { OnOk result (out.new.items ≡ out.old.items ++ raws.entry) }
    ensures err { OnErr result (out.new.items ≡ out.old.items) }
{
    let before = out.len();
    let mut raws = raws;
    'raws: for _ in 0..raws.len() {
        let Some(raw) = raws.next_raw() else {
            unreachable!();
        };
        match out.push_bytes(raw) {
            Ok(()) => {}
            Err(error) => {
                out.truncate(before);
                return Err(error);
            }
        }
    }
    Ok(())
}

// The place of the image through a sequence.
fn place_of(pictures: &HeapCircularBuffer<Picture>, sequence: u32) -> Option<usize>
    ensures some { IfSome result
        (λ i. IsSomeAnd (slice_get pictures.now.items i) (λ p. p.sequence ≡ sequence)) }
    ensures none { IfNone result
        (list_any (λ n. n == sequence) (map sequence_of pictures.now.items) ≡ false) }
{
    'places: for i in 0..pictures.len() {
        let Some(picture) = pictures.get(i) else {
            unreachable!();
        };
        if picture.sequence == sequence {
            return Some(i);
        }
    }
    None
}

impl<J: Naming, R: FixedRun> Store<J, R> {
    // A copy of which nothing was done.
    pub(crate) fn new(shelves: Shelves, past: Past<J, R>) -> Store<J, R>
        requires none { past ≡ [] }
        requires blank { AreBlank J.kept shelves }
        ensures { result ≡ [] }
    {
        Store { shelves, past }
    }

    // The history.
    pub(crate) fn past(&self) -> &Past<J, R>
        ensures { result.now ≡ self.now }
    {
        &self.past
    }

    // Looks messages up.
    pub(crate) fn look(
        &self,
        first: u32,
        count: u16,
        out: &mut RawList,
    ) -> Result<Found, OutOfMemory>
        requires first { 1 ≤ first }
        requires count { 1 ≤ count }
        ensures answer { IfOk result (λ found.
            AnswersLook (kept_at J.kept self.now) first count found out.old.items out.new.items) }
        ensures within { OnOk result
            (first + length out.new.items ≤ (last_sequence + 1) + length out.old.items) }
        ensures err { OnErr result (out.new.items ≡ out.old.items) }
    {
        self.shelves.gaps.copy_range(first, count, out)
    }

    // Whether messages are there.
    pub(crate) fn find(&self, first: u32, count: u16) -> Found
        requires first { 1 ≤ first }
        requires count { 1 ≤ count }
        ensures { result ≡ look (kept_at J.kept self.now) first count }
    {
        self.shelves.gaps.found(first, count)
    }

    // Looks messages up and packs them.
    pub(crate) fn pack(
        &self,
        alloc: Global,
        unit: u8,
        first: u32,
        count: u16,
        out: &mut DatagramList,
    ) -> Result<Found, OutOfMemory>
        requires first { 1 ≤ first }
        requires count { 1 ≤ count }
        ensures answer { IfOk result (λ found. AnswersPack (kept_at J.kept self.now)
            unit first count found (bytes_in out.old.items) (bytes_in out.new.items)) }
        ensures err { OnErr result (out.new.items ≡ out.old.items) }
    {
        self.shelves.gaps.pack_range(alloc, unit, first, count, out)
    }

    // Looks an image up. There is no memory for it where this copy could not take its share.
    pub(crate) fn image(&self, sequence: u32, out: &mut RawList) -> Result<Imaged, OutOfMemory>
        ensures answer { IfOk result (λ imaged.
            AnswersImage (served_at self.now) sequence imaged out.old.items out.new.items) }
        ensures err { OnErr result (out.new.items ≡ out.old.items) }
    {
        let Some(place) = place_of(&self.shelves.pictures, sequence) else {
            return Ok(Imaged::NotAdvertised);
        };
        let Some(picture) = self.shelves.pictures.get(place) else {
            unreachable!();
        };
        let Some(raws) = &picture.raws else {
            return Err(OutOfMemory);
        };
        append_raws(raws.raws(), out)?;
        Ok(Imaged::Image {
            orders: picture.orders,
        })
    }
}

impl<J: Naming, R: FixedRun> Absorb<Published<J, R>> for Store<J, R> {
    ghost use Rattle.shared_unit.specs.layers.Stored.{grown_by};

    type State = Store<J, R>;

    ghost state = { λ s. s };

    ghost applied = { grown_by };

    ghost never_fails = { Unit {0} };

    #[tactic(auto, using(crate::proofs::Growing::grown_nothing))]
    fn absorb_first(
        &mut self,
        published: &Published<J, R>,
        _other: &Store<J, R>,
    ) -> Result<(), AllocError> {
        let Some(what) = &published.what else {
            return Ok(());
        };
        let (had, has) = (self.past.len(), published.past.len());
        if has > had && has - had == 1 {
            self.past.learn(&published.past);
            self.shelves.take_in(what);
        }
        Ok(())
    }
}
