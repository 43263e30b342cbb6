//! The net in memory: it carries in order, and fails at the calls that are listed.

use memory_devices::{MemoryNet, NetCall, NetVerb};
use pitch_io::{Line, LinkEnd, Net, NetDone, NetTaken, Put};
use std::process::Abort;

// Makes calls on line A and from the spin client's end to the server's. Answers what each said:
// what came and a full stop, a stop alone where nothing came or the call was done, `f` where it
// failed.
fn answers_of_calls<R: Abort + AllocGlobal>(
    rt: &R,
    net: &mut MemoryNet,
    calls: &[(NetVerb, &[u8])],
) -> Vec<u8> {
    let mut answers = Vec::new(rt.alloc());
    for (verb, bytes) in calls {
        let mut into = [0u8; 4];
        let failed = match verb {
            NetVerb::Begin => net.begin() == NetDone::Failed,
            NetVerb::Send => net.send(Line::A, bytes) == NetDone::Failed,
            NetVerb::Next => add_came(rt, &mut answers, net.next(Line::A, &mut into), &into),
            NetVerb::Put if bytes.is_empty() => true,
            NetVerb::Put => net.put(LinkEnd::SpinClient, bytes) == Put::Failed,
            NetVerb::Take => {
                let answer = net.take(LinkEnd::SpinServer, &mut into);
                add_came(rt, &mut answers, answer, &into)
            }
        };
        answers
            .push(if failed { b'f' } else { b'.' })
            .expect(rt, "memory");
    }
    answers
}

// Adds what came. Answers whether the call failed.
fn add_came<R: Abort + AllocGlobal>(
    rt: &R,
    answers: &mut Vec<u8>,
    answer: NetTaken,
    into: &[u8],
) -> bool {
    if let NetTaken::Got(count) = answer {
        for byte in into.iter().take(count) {
            answers.push(*byte).expect(rt, "memory");
        }
    }
    answer == NetTaken::Failed
}

// The calls of a net, the one that fails, and the answers.
const CALLS: [(NetVerb, &[u8]); 13] = [
    (NetVerb::Begin, b""),
    (NetVerb::Send, b"abc"),
    (NetVerb::Send, b""),
    (NetVerb::Send, b"defgh"),
    (NetVerb::Next, b""),
    (NetVerb::Next, b""),
    (NetVerb::Next, b""),
    (NetVerb::Put, b"01234"),
    (NetVerb::Put, b"5"),
    (NetVerb::Take, b""),
    (NetVerb::Take, b""),
    (NetVerb::Take, b""),
    (NetVerb::Next, b""),
];

const FAILING: [(NetVerb, u64, &[u8]); 4] = [
    (NetVerb::Begin, 2, b"....abc.defg....0123.45..."),
    (NetVerb::Send, 3, b"...fabc.....0123.45..."),
    (NetVerb::Put, 1, b"....abc.defg..f.5...."),
    (NetVerb::Take, 2, b"....abc.defg....0123.f45.."),
];

fn nets_answer<R: Abort + AllocGlobal>(rt: &R, cases: &[(NetVerb, u64, &[u8])]) {
    for (verb, number, want) in cases {
        let call = NetCall {
            verb: *verb,
            number: *number,
        };
        let failing = Vec::from_slice(rt.alloc(), &[call]).expect(rt, "memory");
        let mut net = MemoryNet::make(rt.alloc(), failing);
        let answers = answers_of_calls(rt, &mut net, &CALLS);
        assert!(rt; answers.as_slice() == *want);
    }
}

#[test]
fn a_net_in_memory_carries_in_order_and_fails_where_listed(rt: HostRuntime) {
    nets_answer(&rt, &FAILING);
}
