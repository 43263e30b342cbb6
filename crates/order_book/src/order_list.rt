//! The open orders of a book as a list, sorted by id.

ghost use Rattle.std.specs.Prelude.{◌≡◌, ◌++◌, length, OnOk, OnErr, IfOk, drop};
ghost use Rattle.std.specs.List.Sorted.{IsPermutation, IsSortedByKey};
ghost use Rattle.std.specs.Ordering.{nat_cmp};
ghost use Rattle.indexmap.specs.IndexMap.{values};

use indexmap::IndexMap;
use pitch_fields::OutOfMemory;
use pitch_messages::{List, Order};

/// A list of orders.
pub type OrderList = List<Order>;

// Appends the orders of a map by rising id. The list is as before after OutOfMemory.
pub(crate) fn append_by_id(
    list: &mut OrderList,
    orders: &IndexMap<u64, Order>,
) -> Result<(), OutOfMemory>
    ensures ok { OnOk result
        (list.new.items ≡ list.old.items ++ drop (length list.old.items) list.new.items) }
    ensures same { OnOk result
        (IsPermutation (values orders.now) (drop (length list.old.items) list.new.items)) }
    ensures sorted { OnOk result
        (IsSortedByKey (λ order. order.id) nat_cmp (drop (length list.old.items) list.new.items)) }
    ensures err { OnErr result (list.new.items ≡ list.old.items) }
{
    let mut sorted = all_orders(orders)?;
    sort_by_id(&mut sorted);
    list.append(sorted)?;
    Ok(())
}

// The orders of a map as they come.
fn all_orders(orders: &IndexMap<u64, Order>) -> Result<Vec<Order>, OutOfMemory>
    ensures { IfOk result (λ list. list.items ≡ values orders.now) }
{
    let mut list = Vec::with_capacity(*orders.allocator(), orders.len())?;
    for order in orders.values() {
        list.push_reserved(*order);
    }
    Ok(list)
}

fn sort_by_id(orders: &mut [Order])
    ensures same { IsPermutation orders.old orders.new }
    ensures sorted { IsSortedByKey (λ order. order.id) nat_cmp orders.new }
{
    orders.sort_unstable_by_key(|order| order.id);
}
