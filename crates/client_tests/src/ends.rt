//! What the tests do with an end, in ample memory.

use pitch_fields::HoldLimit;
use sending_end::{Account, Ask, SendingEnd, Session};
use std::process::Abort;

/// The account that each end logs in with.
pub const ACCOUNT: Account = Account {
    sub: *b"0001",
    user: *b"FEED",
    password: *b"PITCH     ",
};

/// An end of a unit, to which nothing came yet.
pub fn end_of<R: Abort + AllocGlobal>(rt: &R, unit: u8) -> SendingEnd {
    let limit = HoldLimit::of(16).expect(rt, "a limit");
    SendingEnd::make(rt.alloc(), unit, &ACCOUNT, limit).expect(rt, "memory")
}

/// A datagram comes, which has one block of the unit and nothing else.
pub fn hear(rt: &impl Abort, end: &mut SendingEnd, bytes: &[u8]) {
    let passed = end.hear_datagram(bytes).expect(rt, "memory");
    assert!(rt; passed.heard == 1 && passed.others == 0 && passed.rest == 0);
}

/// A connection of a session is made.
pub fn connect(rt: &impl Abort, end: &mut SendingEnd, session: Session) {
    end.connected(session).expect(rt, "memory");
}

/// Bytes of a session come.
pub fn take(rt: &impl Abort, end: &mut SendingEnd, session: Session, bytes: &[u8]) {
    end.took(session, bytes).expect(rt, "memory");
}

/// A second passes. Answers what the client asks for.
pub fn pass_second(rt: &impl Abort, end: &mut SendingEnd) -> Option<Ask> {
    end.second().expect(rt, "memory")
}

/// All that waits for a session, which is at most 32 bytes, taken by eight at a time.
pub fn sent<R: Abort + AllocGlobal>(rt: &R, end: &mut SendingEnd, session: Session) -> Vec<u8> {
    let mut bytes = Vec::new(rt.alloc());
    let mut piece = [0; 8];
    for _ in 0..4 {
        let count = end.send(session, &mut piece);
        bytes
            .extend_from_slice(&piece[..count])
            .expect(rt, "memory");
    }
    assert!(rt; end.waiting(session) == 0);
    bytes
}
