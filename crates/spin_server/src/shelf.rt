//! The shelf: a base book and the messages after it, from which ten images can be made.

ghost use Rattle.std.specs.Prelude.{◌≡◌, ℕ, ◌+◌, ◌-◌, ◌<◌, ◌≤◌, ◌++◌, List, [], ◌∷◌, Some, true};
ghost use Rattle.std.specs.Prelude.{length, take, drop, OnOk, OnErr, IfOk, ◌==◌, nat_eq};
ghost use Rattle.pitch_fields.specs.Limits.{last_sequence};
ghost use Rattle.order_book.specs.Standing.{most_orders};
ghost use Rattle.std.specs.List.{fold, list_any};
ghost use Rattle.std.specs.FinMap as map;
ghost use Rattle.pitch_model.specs.Book.{after, book_after};
ghost use Rattle.pitch_model.specs.Advertising.{Operation, Accept, Advertise, accepted_by};
ghost use Rattle.pitch_model.specs.Advertising.{newest_of};
ghost use Rattle.spin_server.specs.Shelves.{ShelfKeeps, base_at};
ghost use Rattle.spin_server.specs.layers.ShelfCode.{is_number};
ghost use Rattle.spin_server.specs.Stands.{ShelfStands};
ghost use Rattle.spin_server.specs.layers.ShelfViews.{retained};

use crate::lookup::{ImageLookup, Imaged};
use arrayvec::ArrayVec;
use order_book::{UnitBook, image_of};
use pitch_fields::OutOfMemory;
use pitch_messages::{Raw, RawList, Raws};
use std::alloc::Global;
use std::marker::Model;

/// The images of a unit through the last ten sequences that were advertised.
///
/// It keeps one base book, that at the oldest of these sequences, and the messages after it. While
/// nothing was advertised the base is the book of all messages. An image is made from a copy of the
/// base and the messages up to its sequence.
#[derive(Drop)]
pub struct ImageShelf {
    alloc: Global,
    base: UnitBook,
    after: RawList,
    pushed: u32,
    served: ArrayVec<u32, 10>,
}

impl Model for ImageShelf {
    ghost use Rattle.spin_server.specs.Shelves.{Shelf};
    ghost use Rattle.spin_server.specs.layers.ShelfCode.{shelf_code, IsShelf};

    ghost Value = { Shelf };

    ghost coded = { shelf_code };

    ghost view = { λ s. record {
      base = s.base.book;
      after = s.after.items;
      pushed = s.pushed;
      served = s.served.items;
    } };

    ghost invariant = { λ s. IsShelf (record {
      base = s.base.book;
      after = s.after.items;
      pushed = s.pushed;
      served = s.served.items;
    }) };
}

// Applies the first messages to a book that has room for them.
fn apply_first(book: &mut UnitBook, raws: Raws<'_>, count: u32)
    requires room { count ≤ book.old.spare }
    requires few { map.len book.old.book.orders + count ≤ most_orders }
    requires there { count ≤ length raws }
    ensures book { book.new.book ≡ fold after book.old.book (take count raws.entry) }
    ensures few { map.len book.new.book.orders ≤ map.len book.old.book.orders + count }
{
    let mut raws = raws;
    'first: for _ in 0..count {
        let Some(raw) = raws.next_raw() else {
            unreachable!();
        };
        book.apply_reserved(raw);
    }
}

// Takes room for so many messages, and applies them. The book is as before after OutOfMemory.
fn advance(book: &mut UnitBook, raws: Raws<'_>, count: u32) -> Result<(), OutOfMemory>
    requires few { map.len book.old.book.orders + count ≤ most_orders }
    requires there { count ≤ length raws }
    ensures ok { OnOk result (book.new.book ≡ fold after book.old.book (take count raws.entry)) }
    ensures few { OnOk result
        (map.len book.new.book.orders ≤ map.len book.old.book.orders + count) }
    ensures err { OnErr result (book.new.book ≡ book.old.book) }
{
    book.reserve(count)?;
    apply_first(book, raws, count);
    Ok(())
}

impl ImageShelf {
    /// A shelf to which nothing was pushed, and of which nothing was advertised. It takes no
    /// memory.
    pub fn make(alloc: Global) -> ImageShelf
        // Of no push and no advertising.
        ensures { ShelfStands result [] }
    {
        ImageShelf {
            alloc,
            base: UnitBook::make(alloc),
            after: RawList::make(alloc),
            pushed: 0,
            served: ArrayVec::new(),
        }
    }

    /// Takes the next message of the unit. The shelf is as before after OutOfMemory.
    ///
    /// Fewer than 4,294,967,294 messages may have been pushed before, as [`ImageShelf::pushed`]
    /// tells.
    pub fn push(&mut self, raw: &Raw) -> Result<(), OutOfMemory>
        requires { self.old.pushed < last_sequence }
        // Of everything that was pushed and advertised before: the message was pushed too.
        ensures ok { OnOk result ((operations : List Operation) → ShelfStands self.old operations
            → ShelfStands self.new (operations ++ Accept raw.now ∷ [])) }
        ensures pushed { OnOk result (self.new.pushed ≡ self.old.pushed + 1) }
        ensures err { OnErr result (self.new ≡ self.old) }
    {
        if self.served.as_slice().is_empty() {
            self.base.apply(raw)?;
            self.pushed += 1;
            return Ok(());
        }
        self.after.push(raw)?;
        self.pushed += 1;
        Ok(())
    }

    /// How many messages were pushed.
    pub fn pushed(&self) -> u32
        ensures pushed { result ≡ self.now.pushed }
        // Of everything that was pushed and advertised: the number of messages.
        ensures messages { (operations : List Operation)
            → ShelfStands self.now operations → result ≡ length (accepted_by operations) }
        ensures within { result ≤ last_sequence }
    {
        self.pushed
    }

    /// Advertises the image of all messages that were pushed ("Spin Image Available Message").
    /// Answers its sequence, which is their number; 0 is the image of the empty book. It is the
    /// newest sequence then, and a repeat of the newest adds nothing. The shelf is as before after
    /// OutOfMemory.
    pub fn advertise(&mut self) -> Result<u32, OutOfMemory>
        ensures sequence { IfOk result (λ sequence. sequence ≡ self.old.pushed) }
        ensures newest { IfOk result (λ sequence. newest_of self.new.served ≡ Some sequence) }
        // Of everything that was pushed and advertised before: the number of messages was
        // advertised too.
        ensures ok { OnOk result ((operations : List Operation) → ShelfStands self.old operations
            → ShelfStands self.new (operations ++ Advertise ∷ [])) }
        ensures pushed { self.new.pushed ≡ self.old.pushed }
        ensures err { OnErr result (self.new ≡ self.old) }
    {
        let newest = self.pushed();
        if self.serves_newest() {
            return Ok(newest);
        }
        if self.is_full() {
            self.forget_oldest()?;
            self.serve_newest();
            return Ok(newest);
        }
        self.serve_newest();
        Ok(newest)
    }

    /// How many messages are kept beside the base book: those after the oldest sequence that is
    /// served, and none where none is. It takes no memory.
    pub fn retained(&self) -> u32
        // Of everything that was pushed and advertised.
        ensures stands { (operations : List Operation)
            → ShelfStands self.now operations → result ≡ retained operations }
        ensures kept { result ≡ length self.now.after }
    {
        self.pushed - self.oldest()
    }

    // The sequence of the base book.
    fn oldest(&self) -> u32
        ensures oldest { result ≡ base_at self.now }
        ensures within { result ≤ self.now.pushed }
    {
        match self.served.as_slice().first() {
            Some(oldest) => *oldest,
            None => self.pushed,
        }
    }

    // Whether the newest sequence that is served is that of all messages.
    fn serves_newest(&self) -> bool
        ensures { result ≡ is_number (newest_of self.now.served) self.now.pushed }
    {
        match self.served.as_slice().last() {
            Some(newest) => *newest == self.pushed,
            None => false,
        }
    }

    fn is_full(&self) -> bool
        ensures full { result ≡ nat_eq (length self.now.served) 10 }
        ensures ten { length self.now.served ≤ 10 }
    {
        self.served.as_slice().len() == 10
    }

    // Whether the image through a sequence is served.
    fn serves(&self, sequence: u32) -> bool
        ensures served { result ≡ list_any (λ n. n == sequence) self.now.served }
        ensures ten { length self.now.served ≤ 10 }
    {
        self.served.as_slice().contains(&sequence)
    }

    // Serves the image of all messages.
    fn serve_newest(&mut self)
        requires { length self.old.served < 10 }
        ensures served { self.new.served ≡ self.old.served ++ self.old.pushed ∷ [] }
        ensures keeps { (messages : List (List ℕ))
            → ShelfKeeps self.old messages → ShelfKeeps self.new messages }
        ensures pushed { self.new.pushed ≡ self.old.pushed }
    {
        self.served.push(self.pushed);
    }

    // Moves the base on to the second of the sequences that are served; the oldest is served no
    // longer.
    fn forget_oldest(&mut self) -> Result<(), OutOfMemory>
        requires { length self.old.served ≡ 10 }
        ensures served { OnOk result (self.new.served ≡ drop 1 self.old.served) }
        ensures keeps { OnOk result ((messages : List (List ℕ))
            → ShelfKeeps self.old messages → ShelfKeeps self.new messages) }
        ensures pushed { self.new.pushed ≡ self.old.pushed }
        ensures err { OnErr result (self.new ≡ self.old) }
    {
        let served = self.served.as_slice();
        let count = served[1] - served[0];
        let left = RawList::of_raws(self.alloc, self.after.raws().after(count as usize))?;
        advance(&mut self.base, self.after.raws(), count)?;
        self.after = left;
        self.served.remove(0);
        Ok(())
    }

    // The book at a sequence that is served.
    fn book_at(&self, sequence: u32) -> Result<UnitBook, OutOfMemory>
        requires { list_any (λ n. n == sequence) self.now.served ≡ true }
        ensures { IfOk result (λ book. (messages : List (List ℕ))
            → ShelfKeeps self.now messages → book.book ≡ book_after (take sequence messages)) }
    {
        let oldest = self.oldest();
        let mut book = self.base.copy()?;
        advance(&mut book, self.after.raws(), sequence - oldest)?;
        Ok(book)
    }
}

impl ImageLookup for ImageShelf {
    ghost use Rattle.spin_server.specs.layers.ShelfViews.{ShelfShows};

    ghost shows = { λ s v. ShelfShows s v };

    ghost still = { true };

    fn newest(&mut self) -> Option<u32> {
        self.served.as_slice().last().copied()
    }

    fn has_image(&mut self, sequence: u32) -> bool {
        self.serves(sequence)
    }

    fn image(&mut self, sequence: u32, out: &mut RawList) -> Result<Imaged, OutOfMemory> {
        if !self.serves(sequence) {
            return Ok(Imaged::NotAdvertised);
        }
        let book = self.book_at(sequence)?;
        let orders = image_of(self.alloc, &book, out)?;
        Ok(Imaged::Image { orders })
    }
}
