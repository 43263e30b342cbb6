//! A server.
ghost use Rattle.std.specs.Prelude.{◌≡◌, ◌+◌, ◌==◌, ◌≤◌, ◌⊎◌, [], false, length, IfOk, OnOk, OnErr};
ghost use mathlib.Core.List.{IsPrefix};
ghost use Rattle.std.specs.List.{list_any};
ghost use Rattle.pitch_fields.specs.Limits.{last_sequence};
ghost use Rattle.pitch_model.specs.Advertising.{advertised_by, last_ten, newest_of};
ghost use Rattle.unit_packets.specs.Packing.{bytes_in};
ghost use Rattle.gap_store.specs.Look.{look};
ghost use Rattle.gap_store.specs.layers.Looking.{AnswersLook, AnswersPack};
ghost use Rattle.shared_unit.specs.layers.Answers.{AnswersImage};
ghost use Rattle.shared_unit.specs.layers.Histories.{IsLegal, kept_at, served_at};
ghost use Rattle.shared_unit.specs.layers.Moments.{Answering, AnswersNewest, HappensAfter, IsNew};
ghost use Rattle.shared_unit.specs.layers.Moments.{IsNewest};

use crate::book::{Book, Eye};
use crate::past::Past;
use crate::run::{FixedRun, Naming};
use crate::store::Store;
use crate::told::Told;
use gap_store::Found;
use left_right::ReadHandle;
use pitch_fields::OutOfMemory;
use pitch_messages::RawList;
use spin_server::Imaged;
use std::alloc::Global;
use std::marker::Model;
use std::sync::Arc;
use unit_packets::DatagramList;

/// One that answers, without waiting. Contracts see its number, the longest history that it has
/// answered from or was told of, which begins the writer's, all that it saw happen, and whether it
/// was cut off: whether [`Server::available`] or `has_image` could not have what is published. One
/// that was cut off is out of memory for each look-up of messages or images from then on.
#[derive(Drop)]
pub struct Server<J: Naming, R: FixedRun> {
    inner: ReadHandle<Store<J, R>>,
    book: Arc<Book<J, R>>,
    number: u64,
    cut_off: bool,
    pub(crate) past: Past<J, R>,
    eye: Eye<J, R>,
}

impl<J: Naming, R: FixedRun> Model for Server<J, R> {
    ghost use Rattle.shared_unit.specs.layers.Coding.{sight_code};
    ghost use Rattle.shared_unit.specs.layers.Moments.{Sight};

    ghost Value = { Sight };

    ghost coded = { sight_code };

    ghost view = { λ s. record {
      number = s.number;
      cut_off = s.cut_off;
      history = s.past;
      moments = s.eye;
    } };
}

// An answer that began: all that its server has seen happen by then, and how many operations were
// published.
#[derive(Drop)]
struct Begun<J: Naming, R: FixedRun> {
    eye: Eye<J, R>,
    published: u64,
}

// Begins an answer of the server with this number.
fn begin<J: Naming, R: FixedRun>(book: &Book<J, R>, eye: &Eye<J, R>, server: u64) -> Begun<J, R>
    ensures { HappensAfter (Answering server) eye.now result.eye result.published }
{
    let mut eye = eye.again();
    let published = eye.begin(book, server);
    Begun { eye, published }
}

// Ends an answer from a history that has all that was published when it began.
#[tactic(auto, using(crate::proofs::Looking::newest_is))]
fn end<J: Naming, R: FixedRun>(
    eye: &mut Eye<J, R>,
    begun: Begun<J, R>,
    past: &Past<J, R>,
    server: u64,
)
    requires begun { HappensAfter (Answering server) eye.old begun.eye begun.published }
    requires enough { begun.published ≤ length past.now }
    ensures { IsNewest server eye.old eye.new past.now }
{
    let mut all = begun.eye;
    all.learn_done(past.front());
    *eye = all;
}

// Ends an answer, for want of memory, from a copy that lacks any of what was seen or of so many
// operations. None such ever comes.
fn expect_all<J: Naming, R: FixedRun>(
    store: &Store<J, R>,
    seen: &Past<J, R>,
    published: u64,
) -> Result<(), OutOfMemory>
    ensures later { OnOk result (IsPrefix seen.now store.now) }
    ensures enough { OnOk result (published ≤ length store.now) }
{
    if store.past().len() < published || !store.past().covers(seen) {
        return Err(OutOfMemory);
    }
    Ok(())
}

// Takes over the history of the published copy, where that has all that was seen and so many
// operations.
fn catch_up<J: Naming, R: FixedRun>(
    inner: &mut ReadHandle<Store<J, R>>,
    past: &mut Past<J, R>,
    published: u64,
)
    ensures later { IsPrefix past.old past.new }
{
    let Some(store) = inner.enter() else {
        return;
    };
    if let Ok(()) = expect_all(&store, past, published) {
        past.set_to(store.past());
    }
}

// Looks messages up in the published copy, where it has all that was seen and published.
fn look_in<J: Naming, R: FixedRun>(
    inner: &mut ReadHandle<Store<J, R>>,
    past: &mut Past<J, R>,
    published: u64,
    first: u32,
    count: u16,
    out: &mut RawList,
) -> Result<Found, OutOfMemory>
    requires first { 1 ≤ first }
    requires count { 1 ≤ count }
    ensures answer { IfOk result (λ found.
        AnswersLook (kept_at J.kept past.new) first count found out.old.items out.new.items) }
    ensures within { OnOk result
        (first + length out.new.items ≤ (last_sequence + 1) + length out.old.items) }
    ensures later { IsPrefix past.old past.new }
    ensures enough { OnOk result (published ≤ length past.new) }
    ensures same { OnErr result (past.new ≡ past.old) }
    ensures err { OnErr result (out.new.items ≡ out.old.items) }
{
    let Some(store) = inner.enter() else {
        return Err(OutOfMemory);
    };
    expect_all(&store, past, published)?;
    let found = store.look(first, count, out)?;
    past.set_to(store.past());
    Ok(found)
}

// Whether messages are in the published copy, where it has all that was seen and published.
fn find_in<J: Naming, R: FixedRun>(
    inner: &mut ReadHandle<Store<J, R>>,
    past: &mut Past<J, R>,
    published: u64,
    first: u32,
    count: u16,
) -> Result<Found, OutOfMemory>
    requires first { 1 ≤ first }
    requires count { 1 ≤ count }
    ensures answer { IfOk result (λ found. found ≡ look (kept_at J.kept past.new) first count) }
    ensures later { IsPrefix past.old past.new }
    ensures enough { OnOk result (published ≤ length past.new) }
    ensures same { OnErr result (past.new ≡ past.old) }
{
    let Some(store) = inner.enter() else {
        return Err(OutOfMemory);
    };
    expect_all(&store, past, published)?;
    past.set_to(store.past());
    Ok(store.find(first, count))
}

// Looks messages up in the published copy, where it has all that was seen and published, and packs
// them.
fn pack_in<J: Naming, R: FixedRun>(
    inner: &mut ReadHandle<Store<J, R>>,
    past: &mut Past<J, R>,
    published: u64,
    alloc: Global,
    unit: u8,
    first: u32,
    count: u16,
    out: &mut DatagramList,
) -> Result<Found, OutOfMemory>
    requires first { 1 ≤ first }
    requires count { 1 ≤ count }
    ensures answer { IfOk result (λ found. AnswersPack (kept_at J.kept past.new)
        unit first count found (bytes_in out.old.items) (bytes_in out.new.items)) }
    ensures later { IsPrefix past.old past.new }
    ensures enough { OnOk result (published ≤ length past.new) }
    ensures same { OnErr result (past.new ≡ past.old) }
    ensures err { OnErr result (out.new.items ≡ out.old.items) }
{
    let Some(store) = inner.enter() else {
        return Err(OutOfMemory);
    };
    expect_all(&store, past, published)?;
    let found = store.pack(alloc, unit, first, count, out)?;
    past.set_to(store.past());
    Ok(found)
}

// Looks an image up in the published copy, where it has all that was seen and published.
fn image_in<J: Naming, R: FixedRun>(
    inner: &mut ReadHandle<Store<J, R>>,
    past: &mut Past<J, R>,
    published: u64,
    sequence: u32,
    out: &mut RawList,
) -> Result<Imaged, OutOfMemory>
    ensures answer { IfOk result
        (λ imaged. AnswersImage (served_at past.new) sequence imaged out.old.items out.new.items) }
    ensures later { IsPrefix past.old past.new }
    ensures enough { OnOk result (published ≤ length past.new) }
    ensures same { OnErr result (past.new ≡ past.old) }
    ensures err { OnErr result (out.new.items ≡ out.old.items) }
{
    let Some(store) = inner.enter() else {
        return Err(OutOfMemory);
    };
    expect_all(&store, past, published)?;
    let imaged = store.image(sequence, out)?;
    past.set_to(store.past());
    Ok(imaged)
}

impl<J: Naming, R: FixedRun> Server<J, R> {
    // It has the number 0, and has seen nothing.
    pub(crate) fn new(
        inner: ReadHandle<Store<J, R>>,
        book: Arc<Book<J, R>>,
        past: Past<J, R>,
        eye: Eye<J, R>,
    ) -> Server<J, R>
        requires past { past ≡ [] }
        requires eye { eye ≡ [] }
        ensures { IsNew result }
    {
        Server {
            inner,
            book,
            number: 0,
            cut_off: false,
            past,
            eye,
        }
    }

    // This server under a number.
    pub(crate) fn numbered(self, number: u64) -> Server<J, R>
        ensures new { IsNew self → IsNew result }
        ensures number { result.number ≡ number }
    {
        let mut server = self;
        server.number = number;
        server
    }

    /// How many operations of the one history it has seen or was told of.
    pub fn seen(&self) -> u64
        ensures number { result ≡ length self.now.history }
        ensures run { IsLegal R.fixed R.plan self.now.history }
    {
        self.past.len()
    }

    /// What this server has seen then includes what was told.
    pub fn hear_told(&mut self, told: Told<J, R>)
        // Of the two histories the shorter begins the longer, which is then what was seen.
        ensures one { (self.new.history ≡ self.old.history) ⊎ (self.new.history ≡ told.history) }
        ensures this { IsPrefix self.old.history self.new.history }
        ensures that { IsPrefix told.history self.new.history }
        // It has seen happen all that it had and all that the writer had.
        ensures seen { IsPrefix self.old.moments self.new.moments }
        ensures told { IsPrefix told.moments self.new.moments }
        ensures number { self.new.number ≡ self.old.number }
        ensures reaches { self.new.cut_off ≡ self.old.cut_off }
    {
        self.past.learn(&told.past);
        self.eye.learn(&told.eye);
    }

    /// Looks up `count` messages from the sequence `first` on, and appends them where all are kept.
    /// Both numbers are at least 1. Server and `out` are as before after OutOfMemory.
    pub fn gap(&mut self, first: u32, count: u16, out: &mut RawList) -> Result<Found, OutOfMemory>
        requires first { 1 ≤ first }
        requires count { 1 ≤ count }
        // The answer is right at one point of the history, and that is seen then.
        ensures answer { IfOk result (λ found. AnswersLook
            (kept_at J.kept self.new.history) first count found out.old.items out.new.items) }
        // It is no earlier than what was published when the answer began.
        ensures newest { OnOk result (AnswersNewest self.old self.new) }
        // It is no earlier than all that was seen before.
        ensures later { IsPrefix self.old.history self.new.history }
        // Where the run fixes its messages, those accepted then are the first of them.
        ensures run { OnOk result (IsLegal R.fixed R.plan self.new.history) }
        ensures within { OnOk result
            (first + length out.new.items ≤ (last_sequence + 1) + length out.old.items) }
        ensures same { OnErr result (self.new ≡ self.old) }
        ensures err { OnErr result (out.new.items ≡ out.old.items) }
    {
        if self.cut_off {
            return Err(OutOfMemory);
        }
        let begun = begin(&*self.book, &self.eye, self.number);
        let past = &mut self.past;
        let found = look_in(&mut self.inner, past, begun.published, first, count, out)?;
        end(&mut self.eye, begun, &self.past, self.number);
        // What was seen is legal.
        let _seen = self.past.len();
        Ok(found)
    }

    // Looks for messages, and hands out none.
    pub(crate) fn found(&mut self, first: u32, count: u16) -> Result<Found, OutOfMemory>
        requires first { 1 ≤ first }
        requires count { 1 ≤ count }
        ensures answer { IfOk result
            (λ found. found ≡ look (kept_at J.kept self.new.history) first count) }
        ensures newest { OnOk result (AnswersNewest self.old self.new) }
        ensures later { IsPrefix self.old.history self.new.history }
        ensures same { OnErr result (self.new ≡ self.old) }
    {
        if self.cut_off {
            return Err(OutOfMemory);
        }
        let begun = begin(&*self.book, &self.eye, self.number);
        let found = find_in(
            &mut self.inner,
            &mut self.past,
            begun.published,
            first,
            count,
        )?;
        end(&mut self.eye, begun, &self.past, self.number);
        Ok(found)
    }

    // Looks messages up, and appends them packed.
    pub(crate) fn packed(
        &mut self,
        alloc: Global,
        unit: u8,
        first: u32,
        count: u16,
        out: &mut DatagramList,
    ) -> Result<Found, OutOfMemory>
        requires first { 1 ≤ first }
        requires count { 1 ≤ count }
        ensures answer { IfOk result (λ found. AnswersPack (kept_at J.kept self.new.history)
            unit first count found (bytes_in out.old.items) (bytes_in out.new.items)) }
        ensures newest { OnOk result (AnswersNewest self.old self.new) }
        ensures later { IsPrefix self.old.history self.new.history }
        ensures same { OnErr result (self.new ≡ self.old) }
        ensures err { OnErr result (out.new.items ≡ out.old.items) }
    {
        if self.cut_off {
            return Err(OutOfMemory);
        }
        let begun = begin(&*self.book, &self.eye, self.number);
        let found = pack_in(
            &mut self.inner,
            &mut self.past,
            begun.published,
            alloc,
            unit,
            first,
            count,
            out,
        )?;
        end(&mut self.eye, begun, &self.past, self.number);
        Ok(found)
    }

    /// Looks up the image through a sequence, and appends it where it is among the last ten that
    /// were advertised. Server and `out` are as before after OutOfMemory.
    pub fn image(&mut self, sequence: u32, out: &mut RawList) -> Result<Imaged, OutOfMemory>
        // The answer is right at one point of the history, and that is seen then.
        ensures answer { IfOk result (λ imaged.
            AnswersImage (served_at self.new.history) sequence imaged out.old.items out.new.items) }
        // It is no earlier than what was published when the answer began.
        ensures newest { OnOk result (AnswersNewest self.old self.new) }
        // It is no earlier than all that was seen before.
        ensures later { IsPrefix self.old.history self.new.history }
        // Where the run fixes its messages, those accepted then are the first of them.
        ensures run { OnOk result (IsLegal R.fixed R.plan self.new.history) }
        ensures same { OnErr result (self.new ≡ self.old) }
        ensures err { OnErr result (out.new.items ≡ out.old.items) }
    {
        if self.cut_off {
            return Err(OutOfMemory);
        }
        let begun = begin(&*self.book, &self.eye, self.number);
        let imaged = image_in(
            &mut self.inner,
            &mut self.past,
            begun.published,
            sequence,
            out,
        )?;
        end(&mut self.eye, begun, &self.past, self.number);
        // What was seen is legal.
        let _seen = self.past.len();
        Ok(imaged)
    }

    /// The newest sequence that was advertised, or None exactly where none was. It takes no memory.
    /// Where what is published can't be had, as once the writer was let go without being closed, it
    /// is the newest of what was seen; the server is cut off then.
    pub fn available(&mut self) -> Option<u32>
        // The answer is right at one point of the history, and that is seen then.
        ensures answer { result ≡ newest_of (advertised_by self.new.history) }
        // It is no earlier than what was published when the answer began.
        ensures newest { self.new.cut_off ≡ false → AnswersNewest self.old self.new }
        // It is no earlier than all that was seen before.
        ensures later { IsPrefix self.old.history self.new.history }
        // Where the run fixes its messages, those accepted then are the first of them.
        ensures run { IsLegal R.fixed R.plan self.new.history }
    {
        self.look_up();
        // What was seen is legal.
        let _seen = self.past.len();
        self.past.newest()
    }

    // Whether the image through a sequence is served.
    pub(crate) fn serves(&mut self, sequence: u32) -> bool
        ensures answer { result ≡ list_any
            (λ n. n == sequence) (last_ten (advertised_by self.new.history)) }
        ensures newest { self.new.cut_off ≡ false → AnswersNewest self.old self.new }
        ensures later { IsPrefix self.old.history self.new.history }
    {
        self.look_up();
        self.past.serves(sequence)
    }

    // Begins an answer, and sees what is published. Where that can't be had, the server is cut off.
    fn look_up(&mut self)
        ensures newest { self.new.cut_off ≡ false → AnswersNewest self.old self.new }
        ensures later { IsPrefix self.old.history self.new.history }
    {
        let begun = begin(&*self.book, &self.eye, self.number);
        catch_up(&mut self.inner, &mut self.past, begun.published);
        if self.past.len() < begun.published {
            self.cut_off = true;
            return;
        }
        end(&mut self.eye, begun, &self.past, self.number);
    }
}
