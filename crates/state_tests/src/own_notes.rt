//! Notes of one's own: how many executions a client applied.

ghost use Rattle.std.specs.Prelude.{◌≡◌, ◌+◌, ◌<◌, ◌≤◌, sum_by};
ghost use Rattle.std.proofs.Common.{sym, ap, ◌∙◌, add_assoc, add-zero, add-le-add, le_refl, le_trans};
ghost use Rattle.std.proofs.lemmas.List.Sums.{sum_by-append};
ghost use Rattle.pitch_messages.specs.Raw.{IsRaw};
ghost use Rattle.state_tests.specs.Executing.{executed};

use client_core::{Notes, UnitClient};
use order_book::UnitBook;
use pitch_fields::{HoldLimit, OutOfMemory};
use pitch_messages::RawList;
use std::process::Abort;

// How many of the messages that were applied execute an order.
#[derive(Drop)]
struct Executions {
    count: u32,
}

// One for a message that executes an order.
fn executed(raw: &[u8]) -> u32
    requires { IsRaw raw.now }
    ensures { result ≡ executed raw.now }
{
    if raw[1] == 0x23 || raw[1] == 0x24 {
        1
    } else {
        0
    }
}

impl Notes for Executions {
    ghost noted = { λ first last book raws. last.count ≡ first.count + sum_by executed raws };

    ghost can_note = { λ notes count. notes.count + count ≤ 4294967295 };

    fn reserve(&mut self, messages: usize) -> Result<(), OutOfMemory> {
        if messages > (u32::MAX - self.count) as usize {
            return Err(OutOfMemory);
        }
        Ok(())
    }

    fn apply(&mut self, book: &mut UnitBook, raw: &[u8]) {
        self.count += executed(raw);
        book.apply_reserved(raw);
    }

    ghost nothing = { λ notes book. sym (add-zero notes.count) };

    ghost both = { λ first middle last book xs ys some others.
        others
        ∙ ap (λ n. n + sum_by executed ys) some
        ∙ add_assoc first.count (sum_by executed xs) (sum_by executed ys)
        ∙ ap (λ n. first.count + n) (sym (sum_by-append executed xs ys)) };

    ghost fewer = { λ notes few many less can. le_trans (add-le-add (le_refl notes.count) less) can };
}

const ADD: &[u8] = b"\x22\x21\0\0\0\0\x05\0\0\0\0\0\0\0B\x64\0\0\0IBM   \xa0\x86\x01\0\0\0\0\0\x01";

const EXECUTED: &[u8] = b"\x1a\x23\0\0\0\0\x05\0\0\0\0\0\0\0\x1e\0\0\0\x09\0\0\0\0\0\0\0";

// A block with one message is heard, in ample memory.
fn hear(
    rt: &(impl Abort + AllocGlobal),
    client: &mut UnitClient,
    sequence: u32,
    raw: &[u8],
    executions: &mut Executions,
)
    requires raw { IsRaw raw.now }
    requires sequence { sequence < 100 }
{
    let mut raws = RawList::make(rt.alloc());
    raws.push_bytes(raw).expect(rt, "memory");
    client
        .hear_block(sequence, raws.raws(), executions)
        .expect(rt, "memory");
    drop(raws);
}

// An execution that came too early is counted once the order that it executes was applied.
#[test]
fn counts_what_is_applied(rt: HostRuntime) {
    let mut executions = Executions { count: 0 };
    let limit = HoldLimit::of(4).expect(&rt, "a limit");
    let mut client = UnitClient::make(rt.alloc(), limit).expect(&rt, "memory");
    hear(&rt, &mut client, 2, EXECUTED, &mut executions);
    assert!(&rt; executions.count == 0);
    hear(&rt, &mut client, 1, ADD, &mut executions);
    assert!(&rt; executions.count == 1 && client.book().len() == 1);
    drop(client);
}
