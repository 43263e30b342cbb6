//! Fields as text: numbers, prices, names, and how they are shown.

use pitch_fields::{
    HoldLimit, OutOfMemory, Price, Side, Symbol, name_text, number_text, price_text,
};
use std::alloc::{AllocError, Global};
use std::fmt::Display;
use std::process::Abort;

const NUMBERS: [(u64, &str); 3] = [(0, "0"), (10, "10"), (u64::MAX, "18446744073709551615")];

// Prices in ten thousandths.
const PRICES: [(u64, &str); 3] = [
    (7, "0.0007"),
    (6_553_500, "655.3500"),
    (u64::MAX, "1844674407370955.1615"),
];

const NAMES: [(&[u8], &str); 4] = [
    (b"IBM     ", "IBM"),
    (b"    ", "\\x20"),
    (b"\x01\\~\x7f", "\\x01\\x5c~\\x7f"),
    (b" A B", "\\x20A\\x20B"),
];

fn numbers_have_texts(rt: &impl Abort, numbers: &[(u64, &str)]) {
    for (value, want) in numbers {
        let mut text = [0u8; 24];
        let count = number_text(*value, &mut text);
        assert!(rt; &text[..count] == want.as_bytes());
    }
}

fn prices_have_texts(rt: &impl Abort, prices: &[(u64, &str)]) {
    for (value, want) in prices {
        let mut text = [0u8; 24];
        let count = price_text(Price::from_long(*value), &mut text);
        assert!(rt; &text[..count] == want.as_bytes());
    }
}

fn names_have_texts(rt: &impl Abort, names: &[(&[u8], &str)]) {
    for (name, want) in names {
        assert!(rt; name.len() <= 8);
        let mut text = [0u8; 32];
        let count = name_text(name, &mut text);
        assert!(rt; &text[..count] == want.as_bytes());
    }
}

#[test]
fn texts_of_prices_and_names(rt: HostRuntime) {
    numbers_have_texts(&rt, &NUMBERS);
    prices_have_texts(&rt, &PRICES);
    names_have_texts(&rt, &NAMES);
}

fn is_shown<T: Display>(rt: &impl Abort, alloc: Global, value: &T, want: &str) {
    let text = format!(in alloc; "{value}").expect(rt, "memory");
    assert!(rt; text.as_str() == want);
}

#[test]
fn shown_by_display(rt: HostRuntime) {
    is_shown(
        &rt,
        rt.alloc(),
        &OutOfMemory::from(AllocError),
        "out of memory",
    );
    is_shown(&rt, rt.alloc(), &Side::Buy, "B");
    is_shown(&rt, rt.alloc(), &Symbol::from_six(*b"IB\\M  "), "IB\\x5cM");
    is_shown(&rt, rt.alloc(), &Price::from_long(6_553_500), "655.3500");
}

#[test]
fn a_hold_has_a_place(rt: HostRuntime) {
    for (places, is) in [(0, false), (1, true), (65_536, true), (65_537, false)] {
        match HoldLimit::of(places) {
            Some(limit) => assert!(rt; is && limit.places() == places),
            None => assert!(rt; !is),
        }
    }
}
