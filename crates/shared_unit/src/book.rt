//! All that happens, which is known to proofs alone: what threads share of it is how many rights to
//! do an operation were given, and how many operations were published.
ghost use Rattle.std.specs.Prelude.{◌≡◌, ◌+◌, ◌==◌, ◌<◌, ◌≤◌, ◌^◌, ◌++◌, ◌∷◌, ◌⊎◌, [], length};
ghost use Rattle.std.specs.Prelude.{MatchBool, IfOk, IfSome};
ghost use mathlib.Core.List.{IsPrefix};
ghost use Rattle.logbook.specs.Pages.{may_write};
ghost use Rattle.pitch_fields.specs.Limits.{most_held};
ghost use Rattle.shared_unit.specs.layers.Histories.{IsLegal, then_done};
ghost use Rattle.shared_unit.specs.layers.Moments.{Answering, HappensAfter, history_in};
ghost use Rattle.shared_unit.specs.layers.Moments.{published_in};
ghost use Rattle.shared_unit.specs.layers.Rules.{rights_word, published_word};
ghost use Rattle.shared_unit.specs.layers.Stored.{AreBlank, operation_of};

use crate::published::{Shelves, What};
use crate::run::{FixedRun, Naming};
use logbook::{Gain, Offer, Pen, Plain, Play, Rule, Seen, Start, Word};
use pitch_fields::OutOfMemory;
use pitch_messages::Raw;
use std::alloc::Global;
use std::marker::{Model, PhantomData};

/// What happens at one moment, as proofs see it. No value of it is made.
#[derive(Drop)]
pub struct Entry {
    operation: Option<Option<Raw>>,
    server: Option<u64>,
    right: Option<u64>,
}

impl Model for Entry {
    ghost use Rattle.shared_unit.specs.layers.Coding.{moment_code, moment_from};
    ghost use Rattle.shared_unit.specs.layers.Moments.{Moment};

    ghost Value = { Moment };

    ghost coded = { moment_code };

    ghost view = { λ e. moment_from e.operation e.server e.right };
}

/// The rule of what happens: so many rights were given as the first shared word says, and all but
/// the last were taken; the history is legal for its run; so many of its operations were published
/// as the second word says.
pub struct Law<R: FixedRun> {
    of: PhantomData<R>,
}

impl<R: FixedRun> Rule<Entry, u64> for Law<R> {
    ghost use Rattle.std.specs.Prelude.{[]};
    ghost use base.Fml.{ftrue};
    ghost use Rattle.shared_unit.specs.layers.Rules.{KeepsHistory};

    ghost holds = { λ cells log. KeepsHistory R.fixed R.plan cells log };

    ghost first = { [] };

    ghost hinted = { λ n log. Unit {0} };

    ghost shows = { λ log. [] };

    ghost keeps = { λ names log. ftrue };

    ghost moves = { λ ask before after answer. Unit {0} };
}

// Callers trade nothing.
pub(crate) struct Nothing;

impl Gain<Entry, u64> for Nothing {
    ghost use base.Fml.{ftrue};

    ghost after = { λ names about answer. ftrue };
}

// A step that gives the first right.
pub(crate) struct First;

impl Play<Entry, u64> for First {
    ghost use Rattle.shared_unit.specs.layers.Rules.{GivesFirst};

    ghost then = { GivesFirst };
}

// A step that makes one cell more.
pub(crate) struct More;

impl Play<Entry, u64> for More {
    ghost use Rattle.shared_unit.specs.layers.Rules.{MakesCell};

    ghost then = { MakesCell };
}

// A step that looks whether anybody added.
pub(crate) struct Look;

impl Play<Entry, u64> for Look {
    ghost use Rattle.shared_unit.specs.layers.Rules.{SeesWhole};

    ghost then = { SeesWhole };
}

// What is done next, and the pen that is the right to do more afterwards.
#[derive(Drop)]
pub(crate) struct Next {
    what: What,
    pen: Pen,
}

// A step that adds an operation.
pub(crate) struct Add<R: FixedRun> {
    of: PhantomData<R>,
}

impl<R: FixedRun> Play<Entry, u64> for Add<R> {
    ghost use Rattle.shared_unit.specs.layers.Rules.{AddsOperation};

    ghost then = { AddsOperation R.fixed R.plan };
}

// It asks for the operation that is to be published.
impl<R: FixedRun> Plain<Next, Entry, u64> for Add<R> {
    ghost use Rattle.std.specs.Prelude.{None};
    ghost use Rattle.shared_unit.specs.layers.Moments.{Doing};
    ghost use Rattle.shared_unit.specs.layers.Stored.{operation_of};

    ghost ask = { λ next. Doing (operation_of next.what) next.pen.nib.key };

    ghost state = { λ next. None };
}

// A step that says that one operation more was published.
pub(crate) struct Publish;

impl Play<Entry, u64> for Publish {
    ghost use Rattle.shared_unit.specs.layers.Rules.{PublishesNext};

    ghost then = { PublishesNext };
}

impl Plain<u64, Entry, u64> for Publish {
    ghost use Rattle.std.specs.Prelude.{None};
    ghost use Rattle.shared_unit.specs.layers.Moments.{Publishing};

    ghost ask = { λ number. Publishing };

    ghost state = { λ number. None };
}

// A step that begins an answer.
pub(crate) struct Begin;

impl Play<Entry, u64> for Begin {
    ghost use Rattle.shared_unit.specs.layers.Rules.{BeginsAnswer};

    ghost then = { BeginsAnswer };
}

// It asks for the answer of the server with this number.
impl Plain<u64, Entry, u64> for Begin {
    ghost use Rattle.std.specs.Prelude.{None};
    ghost use Rattle.shared_unit.specs.layers.Moments.{Answering};

    ghost ask = { λ server. Answering server };

    ghost state = { λ server. None };
}

/// A pair of copies with the empty history, for a unit, a number of messages that are kept and a
/// number of servers. It has no name yet: [`make`](crate::make) takes its name from the type
/// parameter that its caller picks.
#[derive(Drop)]
pub struct Opened<R: FixedRun> {
    head: Word<Entry, u64, Law<R>>,
    published: Word<Entry, u64, Law<R>>,
    pub seen: Seen<Entry, u64, Law<R>>,
    pub unit: u8,
    pub kept: u32,
    pub servers: u8,
    first: Shelves,
    second: Shelves,
    pub ghost empty: { seen.log ≡ [] },
    pub ghost head_is: { head ≡ rights_word seen.book },
    pub ghost published_is: { published ≡ published_word seen.book },
    pub ghost some: { (0 < servers) × (servers < 256) },
    pub ghost blank: { AreBlank kept first },
    pub ghost other_blank: { AreBlank kept second },
}

impl<R: FixedRun> Opened<R> {
    /// Takes the memory of both copies, and opens a history.
    ///
    /// `kept` is at least 1 and at most 65,536, `servers` at least 1 and at most 8.
    pub fn make(alloc: Global, unit: u8, kept: u32, servers: u8) -> Result<Opened<R>, OutOfMemory>
        requires least { 1 ≤ kept }
        requires most { kept ≤ most_held }
        requires some { 1 ≤ servers }
        requires few { servers ≤ 8 }
        ensures as_asked { IfOk result
            (λ opened. (opened.unit ≡ unit) × (opened.kept ≡ kept) × (opened.servers ≡ servers)) }
    {
        let first = Shelves::make(alloc, kept)?;
        let second = Shelves::make(alloc, kept)?;
        let (seen, mut pen, mut other) = Seen::open(Start::alone(), 0, 0);
        Ok(Opened {
            head: Word::tracked(0, &mut pen),
            published: Word::tracked(0, &mut other),
            seen,
            unit,
            kept,
            servers,
            first,
            second,
        })
    }

    // The words that are shared under their name, the front and the eye that have seen nothing, and
    // what the two copies keep.
    #[tactic(auto, using(crate::proofs::Fronts::prefix_empty))]
    pub(crate) fn named<J: Naming>(self) -> Named<J, R>
        requires { self.seen.book ≡ J.book }
        ensures front { result.front ≡ [] }
        ensures eye { result.eye ≡ [] }
        ensures first { AreBlank self.kept result.first }
        ensures second { AreBlank self.kept result.second }
    {
        let Opened {
            head,
            published,
            seen,
            unit: _,
            kept: _,
            servers: _,
            first,
            second,
        } = self;
        Named {
            book: Book {
                head,
                published,
                of: PhantomData,
            },
            eye: Eye {
                seen: seen.again(),
                of: PhantomData,
            },
            front: Front {
                count: 0,
                seen,
                of: PhantomData,
            },
            first,
            second,
        }
    }
}

// What was opened, under its name.
#[derive(Drop)]
pub(crate) struct Named<J: Naming, R: FixedRun> {
    pub(crate) book: Book<J, R>,
    pub(crate) eye: Eye<J, R>,
    pub(crate) front: Front<J, R>,
    pub(crate) first: Shelves,
    pub(crate) second: Shelves,
}

// The words that all threads share: how many rights were given, and how many operations were
// published.
#[derive(Drop)]
pub(crate) struct Book<J: Naming, R: FixedRun> {
    head: Word<Entry, u64, Law<R>>,
    published: Word<Entry, u64, Law<R>>,
    of: PhantomData<J>,
    ghost head_is: { head ≡ rights_word J.book },
    ghost published_is: { published ≡ published_word J.book },
}

// A beginning of the history that was seen. Contracts see it as that list.
#[derive(Drop)]
pub(crate) struct Front<J: Naming, R: FixedRun> {
    count: u64,
    seen: Seen<Entry, u64, Law<R>>,
    of: PhantomData<J>,
}

impl<J: Naming, R: FixedRun> Model for Front<J, R> {
    ghost use Rattle.std.specs.Prelude.{◌≡◌, List, length};
    ghost use Rattle.pitch_model.specs.Advertising.{Operation};
    ghost use Rattle.shared_unit.specs.layers.Coding.{history_code};
    ghost use Rattle.shared_unit.specs.layers.Histories.{IsLegal};
    ghost use Rattle.shared_unit.specs.layers.Moments.{history_in};

    ghost Value = { List Operation };

    ghost coded = { history_code };

    ghost view = { λ f. history_in f.seen.log };

    ghost invariant = { λ f. (f.count ≡ length (history_in f.seen.log))
        × (f.seen.book ≡ J.book) × IsLegal R.fixed R.plan (history_in f.seen.log) };
}

impl<J: Naming, R: FixedRun> Front<J, R> {
    // How many operations it has.
    pub(crate) fn len(&self) -> u64
        ensures length { result ≡ length self.now }
        ensures legal { IsLegal R.fixed R.plan self.now }
    {
        self.count
    }

    // A copy.
    pub(crate) fn again(&self) -> Front<J, R>
        ensures { result ≡ self.now }
    {
        Front {
            count: self.count,
            seen: self.seen.again(),
            of: PhantomData,
        }
    }

    // Whether this front is the longer one. Of two fronts the shorter begins the other.
    pub(crate) fn covers(&self, other: &Front<J, R>) -> bool
        ensures { MatchBool result (IsPrefix other.now self.now)
            (IsPrefix self.now other.now × (length self.now < length other.now)) }
    {
        let mut both = self.seen.again();
        both.learn(&other.seen);
        if self.count < other.count {
            return false;
        }
        true
    }
}

impl<J: Naming, R: FixedRun> Book<J, R> {
    // The pen of a cell of its own.
    fn cell(&self, seen: &Seen<Entry, u64, Law<R>>) -> Pen
        requires { seen.now.book ≡ J.book }
        ensures { (result.book ≡ J.book) × (result.nib.right ≡ may_write) }
    {
        let mut seen = seen.again();
        let mut offer: Offer<Entry, u64, Law<R>, Nothing> = seen.plain::<Nothing, u64, Publish>(&0);
        let mut pen = seen.no_pen();
        self.head
            .compare_exchange::<More, Nothing>(0, 0, &mut seen, &mut offer, &mut pen);
        let _word: Word<Entry, u64, Law<R>> = Word::tracked(0, &mut pen);
        pen
    }
}

// The right to add to the history, which one end at most has. It has seen the whole history.
// Contracts see that.
#[derive(Drop)]
pub(crate) struct Right<J: Naming, R: FixedRun> {
    count: u64,
    seen: Seen<Entry, u64, Law<R>>,
    pen: Pen,
    of: PhantomData<J>,
}

impl<J: Naming, R: FixedRun> Model for Right<J, R> {
    ghost use Rattle.std.specs.Prelude.{◌≡◌, List, length};
    ghost use Rattle.pitch_model.specs.Advertising.{Operation};
    ghost use Rattle.shared_unit.specs.layers.Coding.{history_code};
    ghost use Rattle.shared_unit.specs.layers.Moments.{history_in};
    ghost use Rattle.shared_unit.specs.layers.Rules.{MayAdd};

    ghost Value = { List Operation };

    ghost coded = { history_code };

    ghost view = { λ r. history_in r.seen.log };

    ghost invariant = { λ r. (r.count ≡ length (history_in r.seen.log)) × (r.seen.book ≡ J.book)
        × (r.pen.book ≡ J.book) × MayAdd R.fixed R.plan r.seen.log r.pen.nib };
}

impl<J: Naming, R: FixedRun> Right<J, R> {
    // The first right, where none was given yet.
    pub(crate) fn first(book: &Book<J, R>, front: &Front<J, R>) -> Option<Right<J, R>>
        ensures { IfSome result (λ right. right ≡ []) }
    {
        let mut seen = front.seen.again();
        let mut offer: Offer<Entry, u64, Law<R>, Nothing> = seen.plain::<Nothing, u64, Publish>(&0);
        let mut pen = seen.no_pen();
        let found = book
            .head
            .compare_exchange::<First, Nothing>(0, 1, &mut seen, &mut offer, &mut pen);
        if found != 0 {
            return None;
        }
        let _word: Word<Entry, u64, Law<R>> = Word::tracked(0, &mut pen);
        Some(Right {
            count: 0,
            seen,
            pen,
            of: PhantomData,
        })
    }

    // The whole history.
    pub(crate) fn front(&self) -> Front<J, R>
        ensures { result ≡ self.now }
    {
        Front {
            count: self.count,
            seen: self.seen.again(),
            of: PhantomData,
        }
    }

    // Adds an operation, and hands it back. The right is taken by that, and is the next one then.
    pub(crate) fn add(&mut self, book: &Book<J, R>, what: What) -> What
        requires room { length self.old < 2 ^ 63 }
        requires legal { IsLegal R.fixed R.plan (then_done self.old (operation_of what)) }
        ensures added { self.new ≡ then_done self.old (operation_of what) }
        ensures same { result ≡ what }
    {
        let next = Next {
            what,
            pen: book.cell(&self.seen),
        };
        let mut offer: Offer<Entry, u64, Law<R>, Nothing> = self
            .seen
            .plain::<Nothing, Next, Add<R>>(&next);
        let rights = self.count + 1;
        book.head.compare_exchange::<Add<R>, Nothing>(
            rights,
            rights + 1,
            &mut self.seen,
            &mut offer,
            &mut self.pen,
        );
        let Next { what, pen } = next;
        self.pen = pen;
        self.count += 1;
        what
    }

    // Nobody else adds, so what another end has seen begins this history.
    pub(crate) fn covers(&mut self, book: &Book<J, R>, other: &Front<J, R>)
        ensures same { self.new ≡ self.old }
        ensures begins { IsPrefix other.now self.old }
    {
        let mut both = self.seen.again();
        both.learn(&other.seen);
        let mut offer: Offer<Entry, u64, Law<R>, Nothing> = both.plain::<Nothing, u64, Publish>(&0);
        book.head
            .compare_exchange::<Look, Nothing>(0, 0, &mut both, &mut offer, &mut self.pen);
    }
}

// All that an end has seen happen. Contracts see that list.
#[derive(Drop)]
pub(crate) struct Eye<J: Naming, R: FixedRun> {
    seen: Seen<Entry, u64, Law<R>>,
    of: PhantomData<J>,
}

impl<J: Naming, R: FixedRun> Model for Eye<J, R> {
    ghost use Rattle.std.specs.Prelude.{◌≡◌, List};
    ghost use Rattle.shared_unit.specs.layers.Coding.{moments_code};
    ghost use Rattle.shared_unit.specs.layers.Moments.{Moment};

    ghost Value = { List Moment };

    ghost coded = { moments_code };

    ghost view = { λ e. e.seen.log };

    ghost invariant = { λ e. e.seen.book ≡ J.book };
}

impl<J: Naming, R: FixedRun> Eye<J, R> {
    // A copy.
    pub(crate) fn again(&self) -> Eye<J, R>
        ensures { result ≡ self.now }
    {
        Eye {
            seen: self.seen.again(),
            of: PhantomData,
        }
    }

    // Has seen afterwards what both had seen.
    pub(crate) fn learn(&mut self, other: &Eye<J, R>)
        ensures this { IsPrefix self.old self.new }
        ensures that { IsPrefix other.now self.new }
    {
        self.seen.learn(&other.seen);
    }

    // Has seen afterwards that the operations of this history were done.
    pub(crate) fn learn_done(&mut self, front: &Front<J, R>)
        ensures this { IsPrefix self.old self.new }
        ensures that { IsPrefix front.now (history_in self.new) }
    {
        self.seen.learn(&front.seen);
    }

    // Says that the last operation of a history was published, and has seen that.
    pub(crate) fn publish(&mut self, book: &Book<J, R>, front: &Front<J, R>)
        requires some { 0 < length front.now }
        requires before { length front.now ≤ published_in self.old + 1 }
        ensures { length front.now ≤ published_in self.new }
    {
        self.seen.learn(&front.seen);
        let mut offer: Offer<Entry, u64, Law<R>, Nothing> = self
            .seen
            .plain::<Nothing, u64, Publish>(&front.count);
        let mut pen = self.seen.no_pen();
        let before = front.count - 1;
        book.published
            .compare_exchange::<Publish, Nothing>(
                before,
                before + 1,
                &mut self.seen,
                &mut offer,
                &mut pen,
            );
    }

    // Begins an answer of the server with this number, and tells how many operations were published
    // by then.
    pub(crate) fn begin(&mut self, book: &Book<J, R>, server: u64) -> u64
        ensures { HappensAfter (Answering server) self.old self.new result }
    {
        let mut offer: Offer<Entry, u64, Law<R>, Nothing> = self
            .seen
            .plain::<Nothing, u64, Begin>(&server);
        book.published
            .load::<Begin, Nothing>(&mut self.seen, &mut offer)
    }
}
