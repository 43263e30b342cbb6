//! What C holds in place of the clients: a pointer to them, and a mark where it is open.

ghost use Rattle.std.specs.Prelude.{◌≡◌, ◌<◌, Option, Some, None, IfSome, IfNone};
ghost use Rattle.std.specs.Option.{IsSome};
ghost use Rattle.std.specs.Coded.{coded_option};
ghost use Rattle.std.proofs.Props.{props};
ghost use Rattle.unit_clients.specs.Clients.{Units};
ghost use Rattle.leveled_units.specs.contracts.units.LeveledUnits.{the_row};
ghost use Rattle.pitch_c.specs.Owned.{owns_at};

use box_parts::Parts;
use leveled_units::LeveledUnits;
use std::alloc::Global;
use std::marker::Model;

/// The pointer to the clients, which owns them where it is open.
#[repr(C)]
#[derive(Drop)]
pub struct Handle {
    at: *mut u8,
    alloc: Global,
    ghost value: { Option Units } by { coded_option the_row.coded },
}

impl Model for Handle {
    ghost also_owns = { λ h. owns_at the_row h.alloc h.at h.value };
}

impl Handle {
    fn opened(parts: Parts<LeveledUnits, Global>) -> Handle
        ensures { result.value ≡ Some parts.value }
    {
        let Parts { ptr, alloc } = parts;
        Handle {
            at: ptr as *mut u8,
            alloc,
        }
    }

    fn into_parts(self) -> Parts<LeveledUnits, Global>
        requires { IsSome self.value }
        ensures { self.value ≡ Some result.value }
    {
        let Handle { at, alloc } = self;
        Parts {
            ptr: at as *mut LeveledUnits,
            alloc,
        }
    }

    fn closed(alloc: Global) -> Handle
        ensures { result.value ≡ None }
    {
        Handle {
            at: std::ptr::null_mut(),
            alloc,
        }
    }
}

// What it owns may be used by any thread.
unsafe impl Send for Handle {}

/// What C holds: the pointer, and 1 where it is open. C begins with a null pointer and 0.
#[repr(C)]
#[derive(Drop)]
pub struct Client {
    handle: Handle,
    mark: u64,
    ghost marked: { IsSome handle.value → 0 < mark },
    ghost live: { 0 < mark → IsSome handle.value } by { Prim.hlevel props },
}

pub(crate) fn closed(alloc: Global) -> Client
    ensures { result.handle.value ≡ None }
{
    Client {
        handle: Handle::closed(alloc),
        mark: 0,
    }
}

pub(crate) fn opened(units: Box<LeveledUnits>) -> Client
    ensures { result.handle.value ≡ Some units.value }
{
    Client {
        handle: Handle::opened(Parts::of(units)),
        mark: 1,
    }
}

// Takes the clients out, which closes the handle. None where it is closed.
pub(crate) fn take(alloc: Global, client: &mut Client) -> Option<Box<LeveledUnits>>
    ensures taken { IfSome result (λ units. client.old.handle.value ≡ Some units.value) }
    ensures none { IfNone result (client.old.handle.value ≡ None) }
    ensures closed { IfSome result (λ units. client.new.handle.value ≡ None) }
    ensures same { IfNone result (client.new.handle.value ≡ client.old.handle.value) }
{
    if client.mark == 0 {
        return None;
    }
    let taken = std::mem::replace(client, closed(alloc));
    let Client { handle, mark: _ } = taken;
    Some(handle.into_parts().into_box())
}
