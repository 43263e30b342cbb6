//! Ends of sessions: a refused login, a message in its own block, a heartbeat's unit.

use pitch_messages::session::SessionMessage;
use session_ends::{CloseCause, Closed, End, Role, Said, Sayings};
use std::alloc::Global;
use std::process::Abort;

fn end(alloc: Global, role: Role) -> End {
    End::make(alloc, role, 1, Vec::new(alloc), false)
}

// Judges what came, and answers what was said of each item and how many bytes they have.
fn judge(rt: &impl Abort, alloc: Global, link: &mut End, bytes: &[u8]) -> (Vec<Said>, usize) {
    let reader = link.take(bytes).expect(rt, "memory");
    let mut items = Sayings::of(&reader);
    let mut said = Vec::new(alloc);
    for _ in 0..4 {
        if let Some(item) = items.next_item() {
            said.push(link.said(&item)).expect(rt, "memory");
            if !link.is_closed() {
                link.judge(&item);
            }
        }
    }
    (said, items.finish())
}

// A gap link hears a message of a type that it does not read, then a refused login.
#[test]
fn a_refused_login_closes_a_link(rt: HostRuntime) {
    let mut link = end(rt.alloc(), Role::GapLink);
    let bytes = b"\x0e\0\x02\x01\0\0\0\0\x03\x99\x07\x03\x02N";
    let (said, size) = judge(&rt, rt.alloc(), &mut link, bytes);
    assert!(rt; (said.len(), said.first(), size) == (3, Some(&Said::Skipped), 14));
    let closed = Closed {
        cause: CloseCause::Refused { status: b'N' },
        place: 11,
    };
    assert!(rt; link.closed() == Some(closed));
}

#[test]
fn what_is_said_stands_in_a_block_of_its_own(rt: HostRuntime) {
    let mut sent = Vec::new(rt.alloc());
    end(rt.alloc(), Role::GapLink)
        .put(&SessionMessage::SpinFinished { sequence: 7 }, &mut sent)
        .expect(&rt, "memory");
    let block = b"\x0e\0\x01\0\0\0\0\0\x06\x83\x07\0\0\0";
    assert!(rt; sent.as_slice() == block.as_slice());
}

#[test]
fn a_spin_server_beats_as_its_unit(rt: HostRuntime) {
    let mut sent = Vec::new(rt.alloc());
    end(rt.alloc(), Role::SpinServer)
        .tick(&mut sent)
        .expect(&rt, "memory");
    assert!(rt; sent.as_slice() == b"\x08\0\0\x01\0\0\0\0".as_slice());
}
