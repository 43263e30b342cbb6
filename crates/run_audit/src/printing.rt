//! Prints a book as `follow` does, for a report to be compared with.

ghost use Rattle.std.specs.Prelude.{◌≡◌, ◌++◌, OnOk, IfOk};
ghost use Rattle.std.specs.FinMap as fin;
ghost use Rattle.std.specs.List.{flat_map};
ghost use Rattle.feed_lines.specs.BookText.{book_head, book_orders, book_text, order_line};
ghost use Rattle.feed_lines.specs.BookText.{status_line};

use feed_lines::{LINE, put_book_head, put_order_line, put_status_line};
use order_book::{OrderList, StatusList, UnitBook};
use pitch_fields::OutOfMemory;
use pitch_messages::{ByteList, Order, TradingState};
use std::alloc::Global;

// Puts the first line of a book at the end.
fn print_head(text: &mut ByteList, unit: u8, n: u32, book: &UnitBook) -> Result<(), OutOfMemory>
    ensures { OnOk result (text.new.items ≡ text.old.items
        ++ book_head unit n book.now.book.second (fin.len book.now.book.orders)) }
{
    let mut line = [0; LINE];
    let end = put_book_head(&mut line, 0, unit, n, book.second(), u64::from(book.len()));
    text.push_all(&line[..end])
}

// Puts the line of an order at the end.
fn print_order(text: &mut ByteList, order: &Order) -> Result<(), OutOfMemory>
    ensures { OnOk result (text.new.items ≡ text.old.items ++ order_line order.now.id order.now) }
{
    let mut line = [0; LINE];
    let end = put_order_line(&mut line, 0, order);
    text.push_all(&line[..end])
}

// Puts the line of a trading status at the end.
fn print_status(text: &mut ByteList, state: &TradingState) -> Result<(), OutOfMemory>
    ensures { OnOk result (text.new.items ≡ text.old.items ++ status_line state.now) }
{
    let mut line = [0; LINE];
    let end = put_status_line(&mut line, 0, state);
    text.push_all(&line[..end])
}

// Puts the lines of trading statuses at the end.
fn print_statuses(text: &mut ByteList, states: &[TradingState]) -> Result<(), OutOfMemory>
    ensures { OnOk result (text.new.items ≡ text.old.items ++ flat_map status_line states.now) }
{
    'lines: for state in states {
        print_status(text, state)?;
    }
    Ok(())
}

// The first line of a book and the lines of its orders.
fn printed_orders(alloc: Global, unit: u8, n: u32, book: &UnitBook) -> Result<ByteList, OutOfMemory>
    ensures { IfOk result (λ text. text.items ≡ book_orders unit n book.now.book) }
{
    // Each order stands under its id.
    let _count = book.len();
    let mut orders = OrderList::make(alloc);
    book.orders_by_id(&mut orders)?;
    let mut text = ByteList::make(alloc);
    print_head(&mut text, unit, n, book)?;
    'lines: for order in orders.as_slice() {
        print_order(&mut text, order)?;
    }
    Ok(text)
}

/// The printed book of a unit after its first n messages.
pub(crate) fn printed(
    alloc: Global,
    unit: u8,
    n: u32,
    book: &UnitBook,
) -> Result<ByteList, OutOfMemory>
    ensures { IfOk result (λ text. text.items ≡ book_text unit n book.now.book) }
{
    let mut states = StatusList::make(alloc);
    book.statuses_by_symbol(&mut states)?;
    let mut text = printed_orders(alloc, unit, n, book)?;
    print_statuses(&mut text, states.as_slice())?;
    Ok(text)
}
