//! What C holds in place of an end: a pointer to it, and a mark where it is open.

ghost use Rattle.std.specs.Prelude.{◌≡◌, ◌<◌, Option, Some, None, IfSome, IfNone};
ghost use Rattle.std.specs.Option.{IsSome};
ghost use Rattle.std.specs.Coded.{coded_option};
ghost use Rattle.std.proofs.Props.{props};
ghost use Rattle.sending_end.specs.declared.end.SendingEnd.{SendingEnd};
ghost use Rattle.sending_end.specs.contracts.end.SendingEnd.{the_row};
ghost use Rattle.pitch_c.specs.Owned.{owns_at};

use box_parts::Parts;
use sending_end::SendingEnd;
use std::alloc::Global;
use std::marker::Model;

/// The pointer to the end, which owns it where it is open.
#[repr(C)]
#[derive(Drop)]
pub struct EndHandle {
    at: *mut u8,
    alloc: Global,
    ghost value: { Option SendingEnd } by { coded_option the_row.coded },
}

impl Model for EndHandle {
    ghost also_owns = { λ h. owns_at the_row h.alloc h.at h.value };
}

impl EndHandle {
    fn opened(parts: Parts<SendingEnd, Global>) -> EndHandle
        ensures { result.value ≡ Some parts.value }
    {
        let Parts { ptr, alloc } = parts;
        EndHandle {
            at: ptr as *mut u8,
            alloc,
        }
    }

    fn into_parts(self) -> Parts<SendingEnd, Global>
        requires { IsSome self.value }
        ensures { self.value ≡ Some result.value }
    {
        let EndHandle { at, alloc } = self;
        Parts {
            ptr: at as *mut SendingEnd,
            alloc,
        }
    }

    fn closed(alloc: Global) -> EndHandle
        ensures { result.value ≡ None }
    {
        EndHandle {
            at: std::ptr::null_mut(),
            alloc,
        }
    }
}

// What it owns may be used by any thread.
unsafe impl Send for EndHandle {}

/// What C holds: the pointer, and 1 where it is open. C begins with a null pointer and 0.
#[repr(C)]
#[derive(Drop)]
pub struct End {
    handle: EndHandle,
    mark: u64,
    ghost marked: { IsSome handle.value → 0 < mark },
    ghost live: { 0 < mark → IsSome handle.value } by { Prim.hlevel props },
}

pub(crate) fn closed(alloc: Global) -> End
    ensures { result.handle.value ≡ None }
{
    End {
        handle: EndHandle::closed(alloc),
        mark: 0,
    }
}

pub(crate) fn opened(inner: Box<SendingEnd>) -> End
    ensures { result.handle.value ≡ Some inner.value }
{
    End {
        handle: EndHandle::opened(Parts::of(inner)),
        mark: 1,
    }
}

// Takes the end out, which closes the handle. None where it is closed.
pub(crate) fn take(alloc: Global, end: &mut End) -> Option<Box<SendingEnd>>
    ensures taken { IfSome result (λ inner. end.old.handle.value ≡ Some inner.value) }
    ensures none { IfNone result (end.old.handle.value ≡ None) }
    ensures closed { IfSome result (λ inner. end.new.handle.value ≡ None) }
    ensures same { IfNone result (end.new.handle.value ≡ end.old.handle.value) }
{
    if end.mark == 0 {
        return None;
    }
    let taken = std::mem::replace(end, closed(alloc));
    let End { handle, mark: _ } = taken;
    Some(handle.into_parts().into_box())
}
