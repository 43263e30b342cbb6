//! The image of a book as messages: its clock, an add for each order, and the statuses.

ghost use Rattle.std.specs.Prelude.{◌≡◌, ℕ, ◌+◌, ◌^◌, ◌<◌, ◌≤◌, ◌++◌, Some, [], ◌∷◌, length, map};
ghost use Rattle.std.specs.Prelude.{OnOk, OnErr, IfOk};
ghost use Rattle.std.specs.List.{AllByRecursion};
ghost use Rattle.pitch_fields.specs.Fields.{AreBytes};
ghost use Rattle.pitch_messages.specs.Writing.{written};
ghost use Rattle.pitch_model.specs.History.{adds};
ghost use Rattle.pitch_model.specs.Book.{book_after};
ghost use Rattle.pitch_model.specs.Image.{clock_of, image_of};
ghost use Rattle.pitch_model.specs.layers.Widths.{FitsWire};
ghost use Rattle.order_book.specs.layers.Images.{FitsState, adds_of, raws_of};

use crate::order_list::OrderList;
use crate::statuses::StatusList;
use crate::unit_book::UnitBook;
use pitch_fields::OutOfMemory;
use pitch_messages::{Message, Order, Raw, RawList, TradingState, add_raw, status_raw, write};
use std::alloc::Global;

// What holds of every slice of bytes, as a clause: each is below 256.
fn are_bytes(bytes: &[u8])
    ensures { AreBytes bytes.now }
{}

// What holds of every order: its fields have the widths of the wire.
fn fits_wire(order: Order)
    ensures { FitsWire order }
{
    are_bytes(&order.symbol.bytes());
    are_bytes(&order.participant);
    let _price = order.price.ten_thousandths();
}

// What holds of every trading status, likewise.
fn fits_status(state: TradingState)
    ensures { FitsState state }
{
    are_bytes(&state.symbol.bytes());
}

// Appends a message to a list that has room for it.
fn push_reserved(out: &mut RawList, raw: &Raw)
    requires { 0 < out.old.spare }
    ensures items { out.new.items ≡ out.old.items ++ raw.now ∷ [] }
    ensures spare { out.old.spare ≤ out.new.spare + 1 }
{
    out.push(raw).unwrap();
}

// Appends the Time message of an image, where a second is known.
fn push_clock(second: Option<u32>, out: &mut RawList)
    requires { 0 < out.old.spare }
    ensures items { out.new.items ≡ out.old.items ++ map written (clock_of second) }
    ensures spare { out.old.spare ≤ out.new.spare + 1 }
    ensures fits { (known : ℕ) → second ≡ Some known → known < 256 ^ 4 }
{
    match second {
        None => {}
        Some(second) => push_reserved(out, &write(&Message::Time { second })),
    }
}

// Appends the adds of an image.
fn push_adds(orders: &[Order], out: &mut RawList)
    requires { length orders.now ≤ out.old.spare }
    ensures items { out.new.items ≡ out.old.items ++ adds_of orders.now }
    ensures spare { out.old.spare ≤ out.new.spare + length orders.now }
    ensures fit { AllByRecursion FitsWire orders.now }
{
    'adds: for i in 0..orders.len() {
        push_reserved(out, &add_raw(&orders[i], 0));
        fits_wire(orders[i]);
    }
}

// Appends the trading statuses of an image.
fn push_statuses(states: &[TradingState], out: &mut RawList)
    requires { length states.now ≤ out.old.spare }
    ensures items { out.new.items ≡ out.old.items ++ raws_of states.now }
    ensures fit { AllByRecursion FitsState states.now }
{
    'states: for i in 0..states.len() {
        push_reserved(out, &status_raw(&states[i], 0));
        fits_status(states[i]);
    }
}

/// Appends the image of a book ("Spin Server"): a Time message where its second is known, the add
/// of each open order by rising id, and then the trading status of each symbol by its rising bytes,
/// all with offset 0. Answers the number of adds. The list is as before after OutOfMemory.
pub fn image_of(alloc: Global, book: &UnitBook, out: &mut RawList) -> Result<u32, OutOfMemory>
    ensures ok { OnOk result (out.new.items ≡ out.old.items ++ image_of book.now.book) }
    ensures count { IfOk result (λ count. count ≡ adds (image_of book.now.book)) }
    // Whoever applies it to an empty book has this book.
    ensures leaves { OnOk result (book_after (image_of book.now.book) ≡ book.now.book) }
    ensures err { OnErr result (out.new.items ≡ out.old.items) }
{
    let mut orders = OrderList::make(alloc);
    book.orders_by_id(&mut orders)?;
    let mut states = StatusList::make(alloc);
    book.statuses_by_symbol(&mut states)?;
    let count = book.len();
    out.reserve(orders.len().saturating_add(states.len()).saturating_add(1))?;
    push_clock(book.second(), out);
    push_adds(orders.as_slice(), out);
    push_statuses(states.as_slice(), out);
    Ok(count)
}
