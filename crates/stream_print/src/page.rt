//! The page, a buffer in which lines gather before they go to the sink.

ghost use Rattle.std.specs.Prelude.{◌≡◌, ◌≤◌, ◌<◌, ◌+◌, ◌++◌, [], ◌∷◌, length, OnOk, OnErr, IfOk};
ghost use Rattle.std.specs.Prelude.{IsErr};
ghost use Rattle.pitch_io.specs.Putting.{Grows};
ghost use Rattle.feed_lines.specs.LineSize.{line_size};
ghost use Rattle.feed_lines.specs.BookText.{book_head, order_line, status_line};
ghost use Rattle.feed_lines.specs.Follow.{block_line};
ghost use Rattle.best_quotes.specs.QuotesText.{quote_line};
ghost use Rattle.feed_lines.specs.Show.{shown_head, message_line};
ghost use Rattle.pitch_messages.specs.Raw.{IsRaw};
ghost use Rattle.stream_print.specs.Carriers.{counts_line};
ghost use Rattle.stream_print.specs.Page.{HasPlace, with_text};
ghost use Rattle.stream_print.specs.Sinks.{PagePrints, PutsPrefix, CountsFault};

use crate::counts::{PacketCounts, put_counts_line};
use crate::putting::{PutFailed, put_all};
use best_quotes::{QuoteLine, put_quote_line};
use feed_lines::{
    LINE, put_block_line, put_book_head, put_message_line, put_order_line, put_shown_head,
    put_status_line,
};
use pitch_fields::{OutOfMemory, put_text};
use pitch_io::Sink;
use pitch_messages::{Order, TradingState};
use pitch_model::Status;
use std::alloc::Global;
use std::marker::Model;
use unit_packets::Header;

/// A buffer of lines that are to be written, allocated once. It has room for one line at least.
#[derive(Drop)]
pub struct Page {
    bytes: Vec<u8>,
    at: usize,
}

impl Model for Page {
    ghost use Rattle.std.specs.Prelude.{◌≤◌, take, vec_len};
    ghost use Rattle.feed_lines.specs.LineSize.{line_size};
    ghost use Rattle.stream_print.specs.Page.{Page};

    ghost Value = { Page };

    ghost view = { λ p. record { text = take p.at p.bytes.items; size = vec_len p.bytes } };

    ghost invariant = { λ p. (p.at ≤ vec_len p.bytes) × (line_size ≤ vec_len p.bytes) };
}

impl Page {
    /// An empty page with room for so many bytes.
    pub fn make(alloc: Global, size: usize) -> Result<Page, OutOfMemory>
        requires { line_size ≤ size }
        ensures { IfOk result (λ page. page ≡ record { text = []; size = size }) }
    {
        Ok(Page {
            bytes: Vec::from_elem(alloc, 0u8, size)?,
            at: 0,
        })
    }

    /// Writes what stands on the page, and empties it. After a failure the sink has a prefix of it.
    pub fn flush<O: Sink>(&mut self, out: &mut O) -> Result<(), PutFailed>
        ensures ok { OnOk result (Grows (O.written out.old) (O.written out.new) self.old.text) }
        ensures err { OnErr result (PutsPrefix O.written out.old out.new self.old.text) }
        ensures cause { CountsFault O.faults out.old out.new (IsErr result) }
        ensures empty { OnOk result (self.new ≡ record self.old { text = [] }) }
    {
        put_all(out, &self.bytes[..self.at])?;
        self.at = 0;
        Ok(())
    }

    /// Makes room for a line, and writes out what stands on the page where there is none.
    pub fn make_place<O: Sink>(&mut self, out: &mut O) -> Result<(), PutFailed>
        ensures ok { OnOk result (PagePrints O.written out.old out.new self.old self.new []) }
        ensures err { OnErr result (PutsPrefix O.written out.old out.new self.old.text) }
        ensures cause { CountsFault O.faults out.old out.new (IsErr result) }
        ensures place { OnOk result (HasPlace self.new) }
    {
        if self.bytes.len() - self.at < LINE {
            self.flush(out)?;
        }
        Ok(())
    }

    /// Prints some bytes. Where the page has no room for them, it is written out, and they behind
    /// it.
    pub fn print_bytes<O: Sink>(&mut self, bytes: &[u8], out: &mut O) -> Result<(), PutFailed>
        ensures printed { OnOk result (
            PagePrints O.written out.old out.new self.old self.new bytes.now) }
        ensures err { OnErr result (
            PutsPrefix O.written out.old out.new (self.old.text ++ bytes.now)) }
        ensures cause { CountsFault O.faults out.old out.new (IsErr result) }
    {
        if self.bytes.len() - self.at < bytes.len() {
            self.flush(out)?;
            put_all(out, bytes)?;
            return Ok(());
        }
        self.add_bytes(bytes);
        Ok(())
    }

    // Adds some bytes, for which the page has room.
    fn add_bytes(&mut self, bytes: &[u8])
        requires { length self.old.text + length bytes.now ≤ self.old.size }
        ensures { self.new ≡ with_text self.old bytes.now }
    {
        self.at = put_text(&mut self.bytes, self.at, bytes);
    }

    /// Adds the line of a block.
    pub fn add_block(&mut self, number: u64, header: Header, overflow: bool, status: Status)
        requires { HasPlace self.old }
        ensures { self.new ≡ with_text self.old
            (block_line number header.unit header.sequence header.count overflow status) }
    {
        self.at = put_block_line(&mut self.bytes, self.at, number, header, overflow, status);
    }

    /// Adds the line of a block whose messages follow.
    pub fn add_shown_head(&mut self, number: u64, header: Header)
        requires { HasPlace self.old }
        ensures { self.new ≡ with_text self.old
            (shown_head number header.unit header.sequence header.count) }
    {
        self.at = put_shown_head(&mut self.bytes, self.at, number, header);
    }

    /// Adds the line of a message.
    #[inline]
    pub fn add_message(&mut self, sequence: u32, raw: &[u8])
        requires place { HasPlace self.old }
        requires raw { IsRaw raw.now }
        ensures { self.new ≡ with_text self.old (message_line sequence raw.now) }
    {
        self.at = put_message_line(&mut self.bytes, self.at, sequence, raw);
    }

    /// Adds the first line of a unit's book.
    pub fn add_book(&mut self, unit: u8, reach: u32, second: Option<u32>, count: u64)
        requires { HasPlace self.old }
        ensures { self.new ≡ with_text self.old (book_head unit reach second count) }
    {
        self.at = put_book_head(&mut self.bytes, self.at, unit, reach, second, count);
    }

    /// Adds the line of what was counted of a capture's packets.
    pub fn add_counts(&mut self, counts: PacketCounts)
        requires { HasPlace self.old }
        ensures { self.new ≡ with_text self.old (counts_line counts) }
    {
        self.at = put_counts_line(&mut self.bytes, self.at, counts);
    }

    /// Adds the line of a quote of a unit.
    pub fn add_quote(&mut self, unit: u8, quote: &QuoteLine)
        requires { HasPlace self.old }
        ensures { self.new ≡ with_text self.old (quote_line unit quote.now) }
    {
        self.at = put_quote_line(&mut self.bytes, self.at, unit, quote);
    }

    /// Adds the line of an open order.
    pub fn add_order(&mut self, order: &Order)
        requires { HasPlace self.old }
        ensures { self.new ≡ with_text self.old (order_line order.now.id order.now) }
    {
        self.at = put_order_line(&mut self.bytes, self.at, order);
    }

    /// Adds the line of a trading status.
    pub fn add_status(&mut self, state: &TradingState)
        requires { HasPlace self.old }
        ensures { self.new ≡ with_text self.old (status_line state.now) }
    {
        self.at = put_status_line(&mut self.bytes, self.at, state);
    }
}
