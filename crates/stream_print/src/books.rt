//! The books that stand at the end of `follow`, with their orders and statuses.

ghost use Rattle.std.specs.Prelude.{◌≡◌, ◌++◌, OnOk, OnErr, Err, length};
ghost use Rattle.std.specs.List.{flat_map};
ghost use Rattle.stream_print.specs.layers.Books.{client_text, texts_below};
ghost use Rattle.stream_print.specs.Sinks.{PagePrints, PutsPrefix};
ghost use Rattle.stream_print.specs.Sinks.{CountsFault};
ghost use Rattle.feed_lines.specs.BookText.{order_line, status_line, book_orders, book_text};

use crate::failure::PrintError;
use crate::page::Page;
use client_core::UnitClient;
use order_book::{OrderList, StatusList, UnitBook};
use pitch_io::Sink;
use pitch_messages::{Order, TradingState};
use std::alloc::Global;

// Prints the lines of orders.
fn print_orders<O: Sink>(page: &mut Page, out: &mut O, orders: &[Order]) -> Result<(), PrintError>
    ensures printed { OnOk result (
        PagePrints O.written out.old out.new page.old page.new
        (flat_map (λ o. order_line o.id o) orders.now)) }
    ensures err { OnErr result (
        PutsPrefix O.written out.old out.new
        (page.old.text ++ flat_map (λ o. order_line o.id o) orders.now)) }
    ensures cause { CountsFault O.faults out.old out.new (result ≡ Err PrintError.Write) }
{
    'lines: for order in orders {
        page.make_place(out)?;
        page.add_order(order);
    }
    Ok(())
}

// Prints the lines of trading statuses.
fn print_statuses<O: Sink>(
    page: &mut Page,
    out: &mut O,
    states: &[TradingState],
) -> Result<(), PrintError>
    ensures printed { OnOk result (
        PagePrints O.written out.old out.new page.old page.new (flat_map status_line states.now)) }
    ensures err { OnErr result (
        PutsPrefix O.written out.old out.new (page.old.text ++ flat_map status_line states.now)) }
    ensures cause { CountsFault O.faults out.old out.new (result ≡ Err PrintError.Write) }
{
    'lines: for state in states {
        page.make_place(out)?;
        page.add_status(state);
    }
    Ok(())
}

/// Prints the book of a unit that reaches so far.
pub fn print_book<O: Sink>(
    alloc: Global,
    page: &mut Page,
    out: &mut O,
    unit: u8,
    reach: u32,
    book: &UnitBook,
) -> Result<(), PrintError>
    ensures printed { OnOk result (
        PagePrints O.written out.old out.new page.old page.new (book_text unit reach
        book.now.book)) }
    ensures err { OnErr result (
        PutsPrefix O.written out.old out.new (page.old.text ++ book_text unit reach
        book.now.book)) }
    ensures cause { CountsFault O.faults out.old out.new (result ≡ Err PrintError.Write) }
{
    let mut states = StatusList::make(alloc);
    book.statuses_by_symbol(&mut states)?;
    print_book_orders(alloc, page, out, unit, reach, book)?;
    print_statuses(page, out, states.as_slice())
}

// Prints the first line of the book and the lines of its orders.
fn print_book_orders<O: Sink>(
    alloc: Global,
    page: &mut Page,
    out: &mut O,
    unit: u8,
    reach: u32,
    book: &UnitBook,
) -> Result<(), PrintError>
    ensures printed { OnOk result (
        PagePrints O.written out.old out.new page.old page.new
        (book_orders unit reach book.now.book)) }
    ensures err { OnErr result (
        PutsPrefix O.written out.old out.new (page.old.text ++ book_orders unit reach
        book.now.book)) }
    ensures cause { CountsFault O.faults out.old out.new (result ≡ Err PrintError.Write) }
{
    let mut orders = OrderList::make(alloc);
    book.orders_by_id(&mut orders)?;
    page.make_place(out)?;
    page.add_book(unit, reach, book.second(), u64::from(book.len()));
    print_orders(page, out, orders.as_slice())
}

// Prints the book of a unit, where it has a client.
fn print_unit<O: Sink>(
    alloc: Global,
    unit: u8,
    slot: &Option<UnitClient>,
    page: &mut Page,
    out: &mut O,
) -> Result<(), PrintError>
    ensures printed { OnOk result (
        PagePrints O.written out.old out.new page.old page.new (client_text unit slot.now)) }
    ensures err { OnErr result (
        PutsPrefix O.written out.old out.new (page.old.text ++ client_text unit slot.now)) }
    ensures cause { CountsFault O.faults out.old out.new (result ≡ Err PrintError.Write) }
{
    match slot {
        Some(client) => print_book(alloc, page, out, unit, client.reach(), client.book()),
        None => Ok(()),
    }
}

/// Prints the books of all units that have a client, by rising unit.
pub fn print_books<O: Sink>(
    alloc: Global,
    clients: &[Option<UnitClient>],
    page: &mut Page,
    out: &mut O,
) -> Result<(), PrintError>
    requires many { length clients.now ≡ 256 }
    ensures printed { OnOk result (
        PagePrints O.written out.old out.new page.old page.new (texts_below clients.now 256)) }
    ensures err { OnErr result (
        PutsPrefix O.written out.old out.new (page.old.text ++ texts_below clients.now 256)) }
    ensures cause { CountsFault O.faults out.old out.new (result ≡ Err PrintError.Write) }
{
    'units: for unit in 0..clients.len() {
        print_unit(alloc, unit as u8, &clients[unit], page, out)?;
    }
    Ok(())
}
