//! The end that publishes.
ghost use Rattle.std.specs.Prelude.{◌≡◌, ◌<◌, ◌^◌, [], false, length, IfOk, OnOk, MatchResult};
ghost use mathlib.Core.List.{IsPrefix};
ghost use Rattle.shared_unit.specs.layers.Histories.{IsLegal, then_done};
ghost use Rattle.shared_unit.specs.layers.Moments.{IsNew, IsPublished, cut};
ghost use Rattle.shared_unit.specs.layers.Stored.{AreBlank, ComesAfter, HasSequences, operation_of};

use crate::book::{Book, Eye, Named, Opened, Right};
use crate::holder::Holder;
use crate::past::Past;
use crate::published::{Shelves, What};
use crate::run::{FixedRun, Naming};
use crate::server::Server;
use crate::store::{Published, Store};
use crate::told::Told;
use pitch_fields::OutOfMemory;
use std::alloc::Global;
use std::marker::Model;
use std::sync::{Arc, Wait};

// The pair of copies, the words that are shared, the right to add to the history and what is known
// of it. Contracts see the history, all of which was published, all that was seen happen, and
// whether it was cut off.
#[derive(Drop)]
pub(crate) struct Desk<J: Naming, R: FixedRun, W: Wait + Drop> {
    holder: Holder<Store<J, R>, Published<J, R>, W>,
    book: Arc<Book<J, R>>,
    right: Right<J, R>,
    // whether an operation was added for which there was no memory then
    cut_off: bool,
    past: Past<J, R>,
    eye: Eye<J, R>,
    // what a new server knows
    none: Past<J, R>,
    shut: Eye<J, R>,
}

impl<J: Naming, R: FixedRun, W: Wait + Drop> Model for Desk<J, R, W> {
    ghost use Rattle.std.specs.Prelude.{◌≡◌, ◌≤◌, [], false, length};
    ghost use Rattle.shared_unit.specs.layers.Coding.{writing_code};
    ghost use Rattle.shared_unit.specs.layers.Moments.{Writing, published_in};

    ghost Value = { Writing };

    ghost coded = { writing_code };

    ghost view = { λ d. record { cut_off = d.cut_off; history = d.past; moments = d.eye } };

    ghost invariant = { λ d. (d.holder.0 ≡ d.past) × (d.holder.1 ≡ [])
        × (d.none ≡ []) × (d.shut ≡ []) × (length d.past ≤ published_in d.eye)
        × (d.cut_off ≡ false → d.right ≡ d.past) };
}

// Adds an operation to the history, by the right to. Answers what is known then, and what is to be
// published.
fn add<J: Naming, R: FixedRun>(
    book: &Book<J, R>,
    right: &mut Right<J, R>,
    past: &Past<J, R>,
    what: What,
) -> (Past<J, R>, Published<J, R>)
    requires whole { right.old ≡ past.now }
    requires room { length past.now < 2 ^ 63 }
    requires legal { IsLegal R.fixed R.plan (then_done past.now (operation_of what)) }
    requires follows { ComesAfter what past.now }
    requires few { HasSequences (then_done past.now (operation_of what)) }
    ensures right { right.new ≡ then_done past.now (operation_of what) }
    ensures past { result.0 ≡ then_done past.now (operation_of what) }
    ensures published { result.1 ≡ then_done past.now (operation_of what) }
{
    let what = right.add(book, what);
    let after = past.extended(right.front(), &what);
    let published = Published::new(what, after.again());
    (after, published)
}

// The two copies, of which nothing was done. They keep at most two operations for the other copy.
// Room for them is taken here, so that no later one wants memory.
#[tactic(auto, using(crate::proofs::Growing::grown_none))]
fn hold<J: Naming, R: FixedRun, W: Wait + Drop>(
    rt: W,
    alloc: Global,
    first: Shelves,
    second: Shelves,
    none: &Past<J, R>,
    servers: u8,
) -> Result<Holder<Store<J, R>, Published<J, R>, W>, OutOfMemory>
    requires none { none.now ≡ [] }
    requires first { AreBlank J.kept first }
    requires second { AreBlank J.kept second }
    requires some { 0 < servers }
    ensures nothing { IfOk result (λ holder. holder.0 ≡ []) }
    ensures idle { IfOk result (λ holder. holder.1 ≡ []) }
{
    let first = Store::new(first, none.again());
    let second = Store::new(second, none.again());
    let mut holder = Holder::new(alloc, rt, first, second, servers)?;
    match make_room(&mut holder, none) {
        Ok(()) => Ok(holder),
        Err(error) => {
            drop(holder);
            Err(error)
        }
    }
}

// Publishes nothing, twice.
#[tactic(auto, using(crate::proofs::Growing::grown_none))]
fn make_room<J: Naming, R: FixedRun, W: Wait + Drop>(
    holder: &mut Holder<Store<J, R>, Published<J, R>, W>,
    none: &Past<J, R>,
) -> Result<(), OutOfMemory>
    requires nothing { holder.old.0 ≡ [] }
    requires idle { holder.old.1 ≡ [] }
    requires none { none.now ≡ [] }
    ensures nothing { OnOk result (holder.new.0 ≡ []) }
    ensures idle { OnOk result (holder.new.1 ≡ []) }
{
    holder.push(Published::nothing(none.again()))?;
    holder.push(Published::nothing(none.again()))?;
    Ok(())
}

impl<J: Naming, R: FixedRun, W: Wait + Drop> Desk<J, R, W> {
    // The pair that was opened, under its name.
    pub(crate) fn open(
        rt: W,
        alloc: Global,
        opened: Opened<R>,
    ) -> Result<Desk<J, R, W>, OutOfMemory>
        requires book { opened.seen.book ≡ J.book }
        requires kept { opened.kept ≡ J.kept }
        ensures nothing { IfOk result (λ desk. desk.history ≡ []) }
        ensures reaches { IfOk result (λ desk. desk.cut_off ≡ false) }
    {
        let servers = opened.servers;
        let Named {
            book,
            eye,
            front,
            first,
            second,
        } = opened.named::<J>();
        let right = Right::first(&book, &front);
        let none = Past::none(front);
        let holder = hold(rt, alloc, first, second, &none, servers);
        match (right, holder, Arc::new(alloc, book)) {
            (Some(right), Ok(holder), Ok(book)) => Ok(Desk {
                holder,
                book,
                right,
                cut_off: false,
                past: none.again(),
                eye: eye.again(),
                none,
                shut: eye,
            }),
            // nobody else opened this pair, so the right is there
            (right, holder, book) => {
                drop(right);
                drop(holder);
                drop(book);
                drop(none);
                drop(eye);
                Err(OutOfMemory)
            }
        }
    }

    // What is known of the history.
    pub(crate) fn past(&self) -> &Past<J, R>
        ensures { result.now ≡ self.now.history }
    {
        &self.past
    }

    // What stands for the history, which was published.
    pub(crate) fn told(&self) -> Told<J, R>
        ensures history { result.history ≡ self.now.history }
        ensures published { IsPublished result.history result.moments }
    {
        Told::new(self.past.again(), self.eye.again())
    }

    // Adds an operation to the history and publishes it. After OutOfMemory it is cut off, and all
    // else is as before.
    #[tactic(auto, using(crate::proofs::Writing::done_length))]
    pub(crate) fn publish(&mut self, what: What) -> Result<(), OutOfMemory>
        requires room { length self.old.history < 2 ^ 63 }
        requires legal { IsLegal R.fixed R.plan (then_done self.old.history (operation_of what)) }
        requires follows { ComesAfter what self.old.history }
        requires few { HasSequences (then_done self.old.history (operation_of what)) }
        ensures history { MatchResult result
            (λ _. self.new.history ≡ then_done self.old.history (operation_of what))
            (λ _. self.new ≡ cut self.old) }
        ensures published { OnOk result (IsPublished self.new.history self.new.moments) }
        ensures reached { OnOk result (self.old.cut_off ≡ false) }
        ensures reaches { OnOk result (self.new.cut_off ≡ false) }
    {
        if self.cut_off {
            return Err(OutOfMemory);
        }
        let (past, published) = add(&*self.book, &mut self.right, &self.past, what);
        match self.holder.push(published) {
            Ok(()) => {}
            Err(_) => {
                self.cut_off = true;
                return Err(OutOfMemory);
            }
        }
        self.eye.publish(&*self.book, past.front());
        self.past = past;
        Ok(())
    }

    // Nobody else adds, so what another end has seen begins the history.
    pub(crate) fn covers(&mut self, other: &Past<J, R>)
        ensures same { self.new ≡ self.old }
        ensures begins { self.old.cut_off ≡ false → IsPrefix other.now self.old.history }
    {
        self.right.covers(&*self.book, other.front());
    }

    // One more server, which has seen nothing.
    pub(crate) fn place(&self) -> Result<Server<J, R>, OutOfMemory>
        ensures { IfOk result IsNew }
    {
        let inner = self.holder.place()?;
        let book = Arc::try_clone(&self.book)?;
        Ok(Server::new(inner, book, self.none.again(), self.shut.again()))
    }

    // Ends publishing. Servers go on.
    pub(crate) fn keep(self) {
        let Self {
            holder,
            book: _,
            right: _,
            cut_off: _,
            past: _,
            eye: _,
            none: _,
            shut: _,
        } = self;
        holder.keep();
    }
}
