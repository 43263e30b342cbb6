//! A lost packet: unit 7 sends three messages, of which the second is lost, and the test says what
//! the Gap Request Proxy says.

use crate::ends::{connect, end_of, hear, pass_second, sent, take};
use sending_end::{Ask, SendingEnd, Session, Status};
use std::process::Abort;

// Message n adds order n, to buy 100 ABC at 1.00 and n hundredths.
const FIRST: &[u8] =
    b"\x22\0\x01\x07\x01\0\0\0\x1a\x22\0\0\0\0\x01\0\0\0\0\0\0\0B\x64\0ABC   \x65\0\x01";

const SECOND: &[u8] =
    b"\x22\0\x01\x07\x02\0\0\0\x1a\x22\0\0\0\0\x02\0\0\0\0\0\0\0B\x64\0ABC   \x66\0\x01";

const THIRD: &[u8] =
    b"\x22\0\x01\x07\x03\0\0\0\x1a\x22\0\0\0\0\x03\0\0\0\0\0\0\0B\x64\0ABC   \x67\0\x01";

const LOGIN: &[u8] = b"\x1e\0\x01\0\0\0\0\0\x16\x010001FEED  PITCH     ";

const ACCEPTED: &[u8] = b"\x0b\0\x01\0\0\0\0\0\x03\x02A";

// One message from the second on is asked for, and the proxy will send it.
const REQUEST: &[u8] = b"\x11\0\x01\0\0\0\0\0\x09\x03\x07\x02\0\0\0\x01\0";

const GRANTED: &[u8] = b"\x12\0\x01\0\0\0\0\0\x0a\x04\x07\x02\0\0\0\x01\0A";

// A connection with the proxy is made, the proxy accepts the login, and is asked.
fn log_in_and_ask<R: Abort + AllocGlobal>(rt: &R, end: &mut SendingEnd) {
    connect(rt, end, Session::Proxy);
    assert!(rt; sent(rt, end, Session::Proxy).as_slice() == LOGIN);
    take(rt, end, Session::Proxy, ACCEPTED);
    assert!(rt; pass_second(rt, end) == Some(Ask::Gap { first: 2, count: 1 }));
    assert!(rt; sent(rt, end, Session::Proxy).as_slice() == REQUEST);
    take(rt, end, Session::Proxy, GRANTED);
}

// It is asked for again after a cut, and comes on the gap line.
fn recovers<R: Abort + AllocGlobal>(rt: &R, end: &mut SendingEnd) {
    log_in_and_ask(rt, end);
    end.cut(Session::Proxy);
    assert!(rt; !end.has(Session::Proxy));
    log_in_and_ask(rt, end);
    hear(rt, end, SECOND);
}

#[test]
fn a_lost_message_is_asked_for_and_heard(rt: HostRuntime) {
    let mut end = end_of(&rt, 7);
    hear(&rt, &mut end, FIRST);
    hear(&rt, &mut end, THIRD);
    assert!(rt; end.status() == Status::Behind { n: 1, top: 3 });
    assert!(rt; end.client().held() == 1);
    recovers(&rt, &mut end);
    assert!(rt; end.status() == Status::Current { n: 3 });
    assert!(rt; end.book().len() == 3);
    drop(end);
}
