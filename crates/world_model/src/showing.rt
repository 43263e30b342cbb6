//! The book of a unit and the counts of its lines, as text.

ghost use Rattle.std.specs.Prelude.{◌≡◌, ◌≤◌, ◌+◌, ◌++◌, length, take, OnOk, OnErr, List, ℕ};
ghost use Rattle.std.specs.List.{flat_map};
ghost use Rattle.feed_lines.specs.BookText.{book_head};
ghost use Rattle.feed_lines.specs.BookText.{book_orders, book_text, order_line, status_line};
ghost use Rattle.world_model.specs.Printed.{fresh_text, counts_text};

use feed_lines::{LINE, put_book_head, put_order_line, put_status_line};
use line_arbiter::LineCount;
use order_book::{OrderList, StatusList, UnitBook};
use pitch_fields::{OutOfMemory, put_byte, put_number, put_text};
use pitch_messages::{Order, TradingState};
use std::alloc::Global;

/// Appends the first bytes of a line.
pub(crate) fn append_line(line: &[u8], end: usize, out: &mut Vec<u8>) -> Result<(), OutOfMemory>
    requires { end ≤ length line.now }
    ensures ok { OnOk result (out.new.items ≡ out.old.items ++ take end line.now) }
    ensures err { OnErr result (out.new.items ≡ out.old.items) }
{
    out.extend_from_slice(&line[..end])?;
    Ok(())
}

// Appends the first line of a book.
fn append_head(
    unit: u8,
    reach: u32,
    second: Option<u32>,
    count: u32,
    out: &mut Vec<u8>,
) -> Result<(), OutOfMemory>
    ensures ok { OnOk result (out.new.items ≡ out.old.items ++ book_head unit reach second count) }
    ensures err { OnErr result (out.new.items ≡ out.old.items) }
{
    let mut line = [0u8; LINE];
    let end = put_book_head(&mut line, 0, unit, reach, second, u64::from(count));
    append_line(&line, end, out)
}

// Appends the line of an order.
fn append_order(order: &Order, out: &mut Vec<u8>) -> Result<(), OutOfMemory>
    ensures ok { OnOk result (out.new.items ≡ out.old.items ++ order_line order.now.id order.now) }
    ensures err { OnErr result (out.new.items ≡ out.old.items) }
{
    let mut line = [0u8; LINE];
    let end = put_order_line(&mut line, 0, order);
    append_line(&line, end, out)
}

// Appends the lines of orders. After OutOfMemory some may have been appended.
fn append_orders(orders: &[Order], out: &mut Vec<u8>) -> Result<(), OutOfMemory>
    ensures ok { OnOk result
        (out.new.items ≡ out.old.items ++ flat_map (λ o. order_line o.id o) orders.now) }
    ensures behind { take (length out.old.items) out.new.items ≡ out.old.items }
{
    'lines: for order in orders {
        append_order(order, out)?;
    }
    Ok(())
}

// Appends the line of a trading status.
fn append_status(state: &TradingState, out: &mut Vec<u8>) -> Result<(), OutOfMemory>
    ensures ok { OnOk result (out.new.items ≡ out.old.items ++ status_line state.now) }
    ensures err { OnErr result (out.new.items ≡ out.old.items) }
{
    let mut line = [0u8; LINE];
    let end = put_status_line(&mut line, 0, state);
    append_line(&line, end, out)
}

// Appends the lines of trading statuses. After OutOfMemory some may have been appended.
fn append_statuses(states: &[TradingState], out: &mut Vec<u8>) -> Result<(), OutOfMemory>
    ensures ok { OnOk result (out.new.items ≡ out.old.items ++ flat_map status_line states.now) }
    ensures behind { take (length out.old.items) out.new.items ≡ out.old.items }
{
    'lines: for state in states {
        append_status(state, out)?;
    }
    Ok(())
}

/// Appends the text of a book. After OutOfMemory some may have been appended.
pub(crate) fn append_book(
    alloc: Global,
    unit: u8,
    reach: u32,
    book: &UnitBook,
    out: &mut Vec<u8>,
) -> Result<(), OutOfMemory>
    ensures ok { OnOk result (out.new.items ≡ out.old.items ++ book_text unit reach book.now.book) }
    ensures behind { take (length out.old.items) out.new.items ≡ out.old.items }
{
    let mut states = StatusList::make(alloc);
    book.statuses_by_symbol(&mut states)?;
    append_book_orders(alloc, unit, reach, book, out)?;
    append_statuses(states.as_slice(), out)
}

// Appends the first line of a book and the lines of its orders. After OutOfMemory some may have
// been appended.
fn append_book_orders(
    alloc: Global,
    unit: u8,
    reach: u32,
    book: &UnitBook,
    out: &mut Vec<u8>,
) -> Result<(), OutOfMemory>
    ensures ok { OnOk result (out.new.items
        ≡ out.old.items ++ book_orders unit reach book.now.book) }
    ensures behind { take (length out.old.items) out.new.items ≡ out.old.items }
{
    let mut orders = OrderList::make(alloc);
    book.orders_by_id(&mut orders)?;
    append_head(unit, reach, book.second(), book.len(), out)?;
    append_orders(orders.as_slice(), out)
}

fn put_count(out: &mut [u8], at: usize, count: LineCount) -> usize
    requires { at + 41 ≤ length out.old }
    ensures end { result ≤ at + 41 }
    ensures text { take result out.new ≡ take at out.old ++ fresh_text count }
    ensures kept { length out.new ≡ length out.old }
{
    let fresh = put_number(out, at, count.fresh);
    let of = put_byte(out, fresh, b'/');
    put_number(out, of, count.messages)
}

fn put_counts(out: &mut [u8], at: usize, a: LineCount, b: LineCount, gap: LineCount) -> usize
    requires { at + 200 ≤ length out.old }
    ensures end { result ≤ at + 200 }
    ensures text { take result out.new ≡ take at out.old ++ counts_text a b gap }
    ensures kept { length out.new ≡ length out.old }
{
    let lines = put_text(out, at, b"lines a ");
    let first = put_count(out, lines, a);
    let other = put_text(out, first, b" b ");
    let second = put_count(out, other, b);
    let behind = put_text(out, second, b" g ");
    let third = put_count(out, behind, gap);
    put_byte(out, third, b'\n')
}

/// Appends the line of counts.
pub(crate) fn append_counts(
    a: LineCount,
    b: LineCount,
    gap: LineCount,
    out: &mut Vec<u8>,
) -> Result<(), OutOfMemory>
    ensures ok { OnOk result (out.new.items ≡ out.old.items ++ counts_text a b gap) }
    ensures err { OnErr result (out.new.items ≡ out.old.items) }
{
    let mut line = [0u8; LINE];
    let end = put_counts(&mut line, 0, a, b, gap);
    append_line(&line, end, out)
}
