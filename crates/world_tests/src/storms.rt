//! Storms as they are made: a short one written out, sums of longer ones, summary lines.

use feed_lines::{LINE, put_unit_line};
use pitch_model::Status;
use std::alloc::Global;
use std::process::Abort;
use storm_replay::{Storm, generate, put_storm_line};

// The schedule of one unit and four steps for the number 0, whose first lost copy is that of
// datagram 2 on line B.
const SHORT: &str = "1 grp open\n1 grp up all\n1 grp down all\n\
    1 time 34200\n1 flush\n1 a 1\n\
    1 add 2 B 175 GAMMADLT 10.0200\n1 flush\n1 a 2\n\
    1 add 3 S 212 ALPHA 11.0300\n1 flush\n1 a 3\n\
    1 exec 2 50 4\n1 flush\n1 a 4\n1 b 1\n\
    1 beat\n1 a 5\n1 grp cut\n1 spin open\n1 spin up all\n1 advertise\n1 spin down all\n\
    1 tick\n1 spin up all\n1 spin down all\n";

// What is generated for a storm.
fn generated(rt: &impl Abort, alloc: Global, storm: Storm) -> Vec<u8> {
    assert!(rt; storm.units >= 1 && storm.units <= 16);
    assert!(rt; storm.steps >= 1 && storm.steps <= 10_000);
    let mut text = Vec::new(alloc);
    generate(storm, &mut text).expect(rt, "memory");
    text
}

#[test]
fn a_short_storm_is_written_out(rt: HostRuntime) {
    let storm = Storm {
        number: 0,
        units: 1,
        steps: 4,
    };
    let text = generated(&rt, rt.alloc(), storm);
    assert!(rt; text.as_slice() == SHORT.as_bytes());
}

// What is generated for a number, units and steps: bytes, lines and the 64-bit FNV-1a sum of the
// text, as a model in another language has them.
const CASES: [(u64, u8, u32, (usize, u64, u64)); 4] = [
    (1, 2, 2000, (210_562, 17_245, 0x3e10_6648_fcbe_bf40)),
    (7, 16, 10_000, (8_917_093, 688_122, 0xf6f1_458e_d642_2930)),
    (0, 1, 1, (180, 16, 0x5191_2c0e_6a1b_f123)),
    (u64::MAX, 3, 40, (6094, 548, 0xbc01_b7b4_e87b_d3d4)),
];

// The number of bytes and of lines of a text, and its FNV-1a sum.
fn summed(text: &[u8]) -> (usize, u64, u64) {
    let mut lines = 0u64;
    let mut sum = 0xcbf2_9ce4_8422_2325u64;
    for byte in text {
        sum = (sum ^ u64::from(*byte)).wrapping_mul(0x0000_0100_0000_01b3);
        if *byte == b'\n' {
            lines = lines.wrapping_add(1);
        }
    }
    (text.len(), lines, sum)
}

fn have_sums(rt: &impl Abort, alloc: Global, cases: &[(u64, u8, u32, (usize, u64, u64))]) {
    for (number, units, steps, expected) in cases {
        let storm = Storm {
            number: *number,
            units: *units,
            steps: *steps,
        };
        let text = generated(rt, alloc, storm);
        assert!(rt; summed(&text) == *expected);
    }
}

#[test]
fn a_storm_is_made_of_its_numbers_alone(rt: HostRuntime) {
    have_sums(&rt, rt.alloc(), &CASES);
}

#[test]
fn a_summary_says_where_each_unit_ended(rt: HostRuntime) {
    assert!(rt; is_storm_line(b"storm number 7 units 16 steps 10000\n"));
    assert!(rt; is_unit_line(b"unit 1 current 2000 orders 625 shares 181375\n"));
}

fn is_storm_line(expected: &[u8]) -> bool {
    let mut line = [0u8; LINE];
    let storm = Storm {
        number: 7,
        units: 16,
        steps: 10_000,
    };
    let end = put_storm_line(&mut line, 0, storm);
    &line[..end] == expected
}

fn is_unit_line(expected: &[u8]) -> bool {
    let mut line = [0u8; LINE];
    let end = put_unit_line(&mut line, 0, 1, Status::Current { n: 2000 }, 625, 181_375);
    &line[..end] == expected
}
