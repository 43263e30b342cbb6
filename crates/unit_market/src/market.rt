//! The market: a venue with its gap store and its image shelf, which have the same messages.

ghost use Rattle.std.specs.Prelude.{◌≡◌, ◌+◌, ◌≤◌, ◌++◌, [], ◌∷◌, length, drop, Ok, Some};
ghost use Rattle.std.specs.Prelude.{OnOk, OnErr, IfOk, true};
ghost use Rattle.std.specs.List.{AllByRecursion};
ghost use Rattle.std.specs.Option.{option_copied};
ghost use Rattle.pitch_fields.specs.Limits.{most_held};
ghost use Rattle.pitch_messages.specs.Reading.{reads};
ghost use Rattle.pitch_model.specs.Advertising.{newest_of, with_sequence};
ghost use Rattle.pitch_model.specs.Book.{book_after};
ghost use Rattle.heard_items.specs.Datagrams.{IsPiece};
ghost use Rattle.unit_packets.specs.BlockBytes.{block_bytes, heartbeat_block};
ghost use Rattle.unit_packets.specs.Packing.{IsPacking, bytes_in};
ghost use Rattle.venue_core.specs.Commands.{message_of, raw_of};
ghost use Rattle.venue_core.specs.Refusals.{refusal, IsAnswer};
ghost use Rattle.unit_market.specs.Markets.{Journal, MarketHas};
ghost use Rattle.unit_market.specs.Views.{new_journal, pending};
ghost use Rattle.unit_market.specs.Views.{last_accepted};
ghost use Rattle.unit_market.specs.layers.Showing.{ShowsMessages, ShowsImages};

use gap_store::{Found, GapLookup, GapStore};
use order_book::UnitBook;
use pitch_fields::OutOfMemory;
use pitch_messages::{Raw, RawList};
use pitch_text::Command;
use spin_server::{ImageLookup, ImageShelf, Imaged};
use std::alloc::Global;
use std::marker::Model;
use unit_packets::DatagramList;
use venue_core::{Venue, VenueError};

/// The venue of one unit, with what its Gap Request Proxy and its Spin Server look up.
///
/// Standard: "Gap Request Proxy", "Spin Servers".
#[derive(Drop)]
pub struct Market {
    venue: Venue,
    store: GapStore,
    shelf: ImageShelf,
}

impl Model for Market {
    ghost use Rattle.unit_market.specs.layers.Invariant.{HasSome};
    ghost use Rattle.unit_market.specs.Standing.{MarketState};
    ghost use Rattle.unit_market.specs.layers.Invariant.{market_code};

    ghost Value = { MarketState };

    ghost coded = { market_code };

    ghost view = { λ m. record { venue = m.venue; store = m.store; shelf = m.shelf } };

    ghost invariant = { λ m. HasSome
        (record { venue = m.venue; store = m.store; shelf = m.shelf }) };
}

impl Market {
    /// A market that has accepted nothing, with all memory of its store.
    ///
    /// Its proxy keeps the last `kept` messages, at least 1 and at most 65,536.
    pub fn make(alloc: Global, unit: u8, kept: u32) -> Result<Market, OutOfMemory>
        requires least { 1 ≤ kept }
        requires most { kept ≤ most_held }
        ensures { IfOk result (λ market. MarketHas market (new_journal unit kept)) }
    {
        Ok(Market {
            venue: Venue::make(alloc, unit),
            store: GapStore::make(alloc, kept)?,
            shelf: ImageShelf::make(alloc),
        })
    }

    /// Accepts a command, as [`Venue::accept`]: its message waits to be sent, and can be looked up.
    /// The answer is the message's sequence, or why the command is refused. After a refusal, also
    /// after OutOfMemory, the market has what it had.
    pub fn accept(&mut self, command: &Command) -> Result<u32, VenueError>
        // Whatever was accepted before, the answer is the first refusal that holds of it, or the
        // next sequence.
        ensures answer { (j : Journal) → MarketHas self.old j
            → IsAnswer (refusal j.messages command.now) (length j.messages + 1) result }
        // The message is accepted after those before it.
        ensures ok { OnOk result ((j : Journal) → MarketHas self.old j → MarketHas self.new
            (record j { messages = j.messages ++ raw_of command.now ∷ [] })) }
        ensures last { OnOk result (last_accepted self.new ≡ Some (raw_of command.now)) }
        ensures says { OnOk result (reads (raw_of command.now) ≡ Ok (message_of command.now)) }
        ensures err { OnErr result
            ((j : Journal) → MarketHas self.old j → MarketHas self.new j) }
    {
        let raw = self.venue.prepare(command)?;
        // Of what may want memory the shelf is the last: then nothing has to be taken back.
        self.shelf.push(&raw)?;
        let sequence = self.venue.take_ready();
        self.store.push(&raw);
        Ok(sequence)
    }

    /// The message that was accepted last, or None where none was.
    pub fn last_raw(&self) -> Option<&Raw>
        ensures { option_copied result ≡ last_accepted self.now }
    {
        self.venue.last_raw()
    }

    /// How many messages were accepted.
    pub fn count(&self) -> u32
        ensures { (j : Journal) → MarketHas self.now j → result ≡ length j.messages }
    {
        self.venue.next_sequence() - 1
    }

    /// The book that the accepted messages leave.
    pub fn book(&self) -> &UnitBook
        // All that was accepted, applied one after another to the empty book.
        ensures { (j : Journal) → MarketHas self.now j → result.now.book ≡ book_after j.messages }
    {
        self.venue.book()
    }

    /// Sends what is pending: appends its datagrams to the list, and answers how many they are.
    /// After OutOfMemory the market has what it had, and the list is as before.
    pub fn flush(&mut self, out: &mut DatagramList) -> Result<u32, OutOfMemory>
        // What is sent is the packing of all that was accepted and not sent yet.
        ensures datagrams { OnOk result ((j : Journal) → MarketHas self.old j
            → bytes_in out.new.items ≡ bytes_in out.old.items ++ pending j) }
        ensures packing { OnOk result ((j : Journal) → MarketHas self.old j
            → IsPacking j.unit (j.sent + 1) (drop j.sent j.messages) (pending j)) }
        // Each datagram has the market's messages, at their sequences.
        ensures pieces { OnOk result ((j : Journal) → MarketHas self.old j
            → AllByRecursion (IsPiece j.messages j.unit) (pending j)) }
        ensures count { IfOk result (λ count. length out.new.items ≡ length out.old.items + count) }
        // All that was accepted is sent then.
        ensures ok { OnOk result ((j : Journal) → MarketHas self.old j
            → MarketHas self.new (record j { sent = length j.messages })) }
        ensures err { OnErr result (out.new.items ≡ out.old.items) }
        ensures kept { OnErr result
            ((j : Journal) → MarketHas self.old j → MarketHas self.new j) }
    {
        let count = self.venue.flush(out)?;
        Ok(count)
    }

    /// The heartbeat, which tells the first sequence that was not sent yet.
    pub fn beat(&self) -> [u8; 8]
        // It tells the sequence after all that was sent.
        ensures bytes { (j : Journal) → MarketHas self.now j
            → result ≡ block_bytes (heartbeat_block j.unit (j.sent + 1)) }
        // It is a piece of the market's feed.
        ensures piece { (j : Journal) → MarketHas self.now j → IsPiece j.messages j.unit result }
    {
        self.venue.beat()
    }

    /// Advertises the image of all messages ("Spin Image Available Message"). Answers its sequence,
    /// which is their number; a repeat of the newest adds nothing. The market is as before after
    /// OutOfMemory.
    pub fn advertise(&mut self) -> Result<u32, OutOfMemory>
        ensures sequence { IfOk result (λ sequence. (j : Journal) → MarketHas self.old j
            → sequence ≡ length j.messages) }
        // It is the newest that is served then.
        ensures newest { IfOk result (λ sequence. newest_of self.new.shelf.served ≡ Some sequence) }
        ensures ok { OnOk result ((j : Journal) → MarketHas self.old j → MarketHas self.new
            (record j { advertised = with_sequence j.advertised (length j.messages) })) }
        ensures err { OnErr result (self.new ≡ self.old) }
    {
        let sequence = self.shelf.advertise()?;
        Ok(sequence)
    }
}

impl GapLookup for Market {
    ghost shows = { ShowsMessages };

    ghost still = { true };

    fn look(&mut self, first: u32, count: u16, out: &mut RawList) -> Result<Found, OutOfMemory> {
        self.store.copy_range(first, count, out)
    }

    fn find(&mut self, first: u32, count: u16) -> Result<Found, OutOfMemory> {
        Ok(self.store.found(first, count))
    }

    fn pack(
        &mut self,
        alloc: Global,
        unit: u8,
        first: u32,
        count: u16,
        out: &mut DatagramList,
    ) -> Result<Found, OutOfMemory> {
        self.store.pack_range(alloc, unit, first, count, out)
    }
}

impl ImageLookup for Market {
    ghost shows = { ShowsImages };

    ghost still = { true };

    fn newest(&mut self) -> Option<u32> {
        self.shelf.newest()
    }

    fn has_image(&mut self, sequence: u32) -> bool {
        self.shelf.has_image(sequence)
    }

    fn image(&mut self, sequence: u32, out: &mut RawList) -> Result<Imaged, OutOfMemory> {
        self.shelf.image(sequence, out)
    }
}
