//! A walk along a unit's log, with the book at each point of it.

ghost use Rattle.std.specs.Prelude.{◌≡◌, ℕ, ◌≤◌, List, length, drop, take, IfOk, OnOk};
ghost use Rattle.pitch_model.specs.History.{Raw};
ghost use Rattle.run_audit.specs.layers.Walking.{AreAt, IsAt};

use order_book::UnitBook;
use pitch_fields::OutOfMemory;
use pitch_messages::{RawList, Raws};
use pitch_model::laws::books_have_open_orders;
use std::alloc::Global;
use std::mem::replace;

/// The book of a unit after its first n messages, and the messages that are left.
#[derive(Drop)]
pub(crate) struct Walk<'a> {
    pub n: u32,
    pub left: Raws<'a>,
    pub book: UnitBook,
}

/// Before the first message. It takes no memory.
pub(crate) fn at_start<'a>(alloc: Global, log: &'a RawList) -> Walk<'a>
    ensures at { IsAt log.now.items result }
    ensures start { result.n ≡ 0 }
{
    Walk {
        n: 0,
        left: log.raws(),
        book: UnitBook::make(alloc),
    }
}

/// Goes to the book after n messages; where it is past that, from the start.
pub(crate) fn go_to<'a>(
    alloc: Global,
    log: &'a RawList,
    walk: &mut Walk<'a>,
    n: u32,
) -> Result<(), OutOfMemory>
    requires within { n ≤ length log.now.items }
    requires at { IsAt log.now.items walk.old }
    ensures at { OnOk result (IsAt log.now.items walk.new) }
    ensures there { OnOk result (walk.new.n ≡ n) }
{
    books_have_open_orders();
    if n < walk.n {
        // By a call: a function that drops a book itself takes long to prove.
        drop(replace(walk, at_start(alloc, log)));
    }
    'steps: while walk.n < n {
        let Some(raw) = walk.left.next_raw() else {
            return Ok(());
        };
        walk.book.apply_bytes(raw)?;
        walk.n += 1;
    }
    Ok(())
}

/// Where each unit that has a log stands.
pub(crate) fn starts<'a>(alloc: Global, logs: &'a [RawList]) -> Result<Vec<Walk<'a>>, OutOfMemory>
    ensures { IfOk result (λ walks. AreAt logs.now walks.items) }
{
    let mut walks = Vec::with_capacity(alloc, logs.len())?;
    for log in logs {
        walks.push(at_start(alloc, log))?;
    }
    Ok(walks)
}
