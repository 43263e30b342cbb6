//! Links: what they tell their client, what closes them, and when they send heartbeats.

use client_links::{Account, CloseCause, Closed, GapLink, ItemList, SpinLink};
use heard_items::Item;
use std::alloc::Global;
use std::process::Abort;
use unit_packets::BlockError;

pub(crate) const ACCOUNT: Account = Account {
    sub: *b"0001",
    user: *b"FEED",
    password: *b"PITCH     ",
};

// What an item tells: its name, and its sequence or how many messages it has.
#[derive(Clone, Copy, PartialEq, Eq)]
enum Told {
    GrpUp,
    GapReply(u32, u16, u8),
    SpinUp,
    Advertised(u32),
    SpinReply(u32, u32, u8),
    Image(usize),
    SpinFinished(u32),
    Other,
}

fn told_by(item: &Item) -> Told {
    match item {
        Item::GrpUp => Told::GrpUp,
        Item::GapReply {
            sequence,
            count,
            status,
        } => Told::GapReply(*sequence, *count, *status),
        Item::SpinUp => Told::SpinUp,
        Item::Advertised { sequence } => Told::Advertised(*sequence),
        Item::SpinReply {
            sequence,
            orders,
            status,
        } => Told::SpinReply(*sequence, *orders, *status),
        Item::ImageMessages { raws } => Told::Image(raws.len()),
        Item::SpinFinished { sequence } => Told::SpinFinished(*sequence),
        _ => Told::Other,
    }
}

// Bytes that are fed to a new link of unit 1; what it tells, and why it closes.
struct Case {
    spin: bool,
    fed: &'static [u8],
    tells: &'static [Told],
    closed: Option<Closed>,
}

const CASES: [Case; 7] = [
    Case {
        spin: false,
        fed: b"\x0b\0\x01\0\0\0\0\0\x03\x02A\x12\0\x01\0\0\0\0\0\x0a\x04\x01\x02\0\0\0\x03\0O",
        tells: &[Told::GrpUp, Told::GapReply(2, 3, b'O')],
        closed: None,
    },
    Case {
        spin: false,
        fed: b"\x0b\0\x01\0\0\0\0\0\x03\x02N",
        tells: &[],
        closed: Some(Closed {
            cause: CloseCause::Refused { status: b'N' },
            place: 8,
        }),
    },
    // A type that is not read, then a block with a sequence.
    Case {
        spin: false,
        fed: b"\x0b\0\x01\0\0\0\0\0\x03\x99\x07\x08\0\0\0\x01\0\0\0",
        tells: &[],
        closed: Some(Closed {
            cause: CloseCause::Sequenced,
            place: 11,
        }),
    },
    Case {
        spin: true,
        fed: b"\x11\0\x02\x01\0\0\0\0\x03\x02A\x06\x80\x04\0\0\0",
        tells: &[Told::SpinUp, Told::Advertised(4)],
        closed: None,
    },
    // An image of two messages in a block with its reply, and one in a block of its own.
    Case {
        spin: true,
        fed: b"\x19\0\x03\x01\0\0\0\0\x0b\x82\x04\0\0\0\x03\0\0\0A\x03\x99\x07\x03\x99\x08\x0b\0\x01\x01\0\0\0\0\x03\x99\x09\x0e\0\x01\x01\0\0\0\0\x06\x83\x04\0\0\0",
        tells: &[
            Told::SpinReply(4, 3, b'A'),
            Told::Image(2),
            Told::Image(1),
            Told::SpinFinished(4),
        ],
        closed: None,
    },
    Case {
        spin: true,
        fed: b"\x0a\0\x01\x01\0\0\0\0\x02\x02",
        tells: &[],
        closed: Some(Closed {
            cause: CloseCause::Short,
            place: 8,
        }),
    },
    Case {
        spin: true,
        fed: b"\x08\0\x01\x01\x01\0\0\0",
        tells: &[],
        closed: Some(Closed {
            cause: CloseCause::Block(BlockError::MessageOverrun { place: 8 }),
            place: 0,
        }),
    },
];

// Feeds a new link, and answers why it closes.
fn feed(rt: &impl Abort, alloc: Global, case: &Case, items: &mut ItemList) -> Option<Closed> {
    let mut sent = Vec::new(alloc);
    if case.spin {
        let mut link = SpinLink::make(alloc, 1, &ACCOUNT, &mut sent).expect(rt, "memory");
        link.feed(case.fed, items).expect(rt, "memory");
        return link.closed();
    }
    let mut link = GapLink::make(alloc, &ACCOUNT, &mut sent).expect(rt, "memory");
    link.feed(case.fed, items).expect(rt, "memory");
    link.closed()
}

// Whether items tell this.
fn tell(items: &ItemList, told: &[Told]) -> bool {
    for (item, wanted) in items.as_slice().iter().zip(told) {
        if told_by(item) != *wanted {
            return false;
        }
    }
    items.len() == told.len()
}

// Feeds each case to a new link, and compares what it tells and why it closes.
fn all_are_told(rt: &impl Abort, alloc: Global, cases: &[Case]) {
    for case in cases {
        let mut items = ItemList::make(alloc);
        let closed = feed(rt, alloc, case, &mut items);
        assert!(rt; closed == case.closed && tell(&items, case.tells));
    }
}

#[test]
fn told_and_hostile(rt: HostRuntime) {
    all_are_told(&rt, rt.alloc(), &CASES);
}

// How many bytes a link has sent after each of five silent ticks. The login counts as sent since
// the making, and a request, made after the second, as sent after its tick.
const LENGTHS: [usize; 5] = [30, 55, 55, 63, 63];

fn tick_five(rt: &impl Abort, link: &mut GapLink, sent: &mut Vec<u8>, lengths: &[usize; 5]) {
    for tick in 0..5 {
        assert!(rt; link.closed().is_none());
        link.tick(sent).expect(rt, "memory");
        if tick == 1 {
            link.ask(1, 2, 3, sent).expect(rt, "memory");
        }
        assert!(rt; sent.len() == lengths[tick]);
    }
}

#[test]
fn five_silent_ticks(rt: HostRuntime) {
    let mut sent = Vec::new(rt.alloc());
    let mut link = GapLink::make(rt.alloc(), &ACCOUNT, &mut sent).expect(&rt, "memory");
    let login = b"\x1e\0\x01\0\0\0\0\0\x16\x010001FEED  PITCH     ";
    assert!(rt; sent.as_slice() == login.as_slice());
    tick_five(&rt, &mut link, &mut sent, &LENGTHS);
    let closed = Closed {
        cause: CloseCause::Silent,
        place: 0,
    };
    assert!(rt; link.closed() == Some(closed));
}

#[test]
fn a_request_is_sent_before_its_tick(rt: HostRuntime) {
    let mut sent = Vec::new(rt.alloc());
    let mut spin = SpinLink::make(rt.alloc(), 1, &ACCOUNT, &mut sent).expect(&rt, "memory");
    sent.clear();
    spin.ask(7, &mut sent).expect(&rt, "memory");
    spin.tick(&mut sent).expect(&rt, "memory");
    let request = b"\x0e\0\x01\x01\0\0\0\0\x06\x81\x07\0\0\0";
    assert!(rt; sent.as_slice() == request.as_slice());
}
