//! Command lines: the form that each is, and those that are none.

use pitch_words::{Carried, Form, StreamWords, TextWords, read};
use std::alloc::Global;
use std::process::Abort;

// What carries a stream.
const BARE: Carried = Carried::Bare;

const CAPTURE: Carried = Carried::Capture { port: None };

const PORT_0: Carried = Carried::Capture { port: Some(0) };

const LAST_PORT: Carried = Carried::Capture { port: Some(65535) };

// Words of a stream, which single spaces part, what carries it, and what is printed of it.
static STREAMS: [(&str, Carried, StreamWords); 15] = [
    ("relay", BARE, StreamWords::Relay { hold: 4096 }),
    ("relay --hold=2", BARE, StreamWords::Relay { hold: 2 }),
    ("quotes", BARE, StreamWords::Quotes { hold: 4096 }),
    ("quotes --hold=2", BARE, StreamWords::Quotes { hold: 2 }),
    ("follow", BARE, StreamWords::Follow { hold: 4096 }),
    ("follow --hold 2", BARE, StreamWords::Follow { hold: 2 }),
    ("follow --hold=2", BARE, StreamWords::Follow { hold: 2 }),
    ("follow --hold 1", BARE, StreamWords::Follow { hold: 1 }),
    (
        "follow --hold 65536",
        BARE,
        StreamWords::Follow { hold: 65536 },
    ),
    ("follow --hold 00004", BARE, StreamWords::Follow { hold: 4 }),
    (
        "follow --hold=00000000000000000005",
        BARE,
        StreamWords::Follow { hold: 5 },
    ),
    ("follow --pcap", CAPTURE, StreamWords::Follow { hold: 4096 }),
    (
        "follow --port 0 --pcap",
        PORT_0,
        StreamWords::Follow { hold: 4096 },
    ),
    (
        "follow --hold=2 --pcap --port=65535",
        LAST_PORT,
        StreamWords::Follow { hold: 2 },
    ),
    ("show", BARE, StreamWords::Show),
];

// Other words, and their form.
static FORMS: [(&str, Form); 13] = [
    ("pack --unit 1", Form::Text(TextWords::Pack { unit: 1 })),
    ("pack --unit=255", Form::Text(TextWords::Pack { unit: 255 })),
    ("replay", Form::Text(TextWords::Replay { workers: 1 })),
    (
        "replay --workers 2",
        Form::Text(TextWords::Replay { workers: 2 }),
    ),
    (
        "replay --workers=64",
        Form::Text(TextWords::Replay { workers: 64 }),
    ),
    (
        "storm --number 7 --units 16 --steps 10000",
        Form::Storm {
            number: 7,
            units: 16,
            steps: 10_000,
            workers: 1,
        },
    ),
    (
        "storm --steps 1 --number 0 --units 1",
        Form::Storm {
            number: 0,
            units: 1,
            steps: 1,
            workers: 1,
        },
    ),
    (
        "storm --units=2 --number=18446744073709551615 --steps 3 --workers 7",
        Form::Storm {
            number: u64::MAX,
            units: 2,
            steps: 3,
            workers: 7,
        },
    ),
    (
        "drill --number 0 --units 16 --count 100000",
        Form::Drill {
            number: 0,
            units: 16,
            count: 100_000,
        },
    ),
    (
        "drill --count=1 --units=1 --number=18446744073709551615",
        Form::Drill {
            number: u64::MAX,
            units: 1,
            count: 1,
        },
    ),
    (
        "demo --number 0 --count 1000",
        Form::Demo {
            number: 0,
            count: 1000,
        },
    ),
    (
        "demo --count=1 --number=0",
        Form::Demo {
            number: 0,
            count: 1,
        },
    ),
    ("audit", Form::Audit),
];

// Words that are no form.
static REFUSED: [&str; 93] = [
    "quotes --hold 0",
    "follow --hold 0",
    "follow --hold 65537",
    "follow --hold=000000000000000000005",
    "follow --hold +5",
    "follow --hold -5",
    "follow --hold=-5",
    "follow --hold x",
    "follow --hold",
    "follow --hold=",
    "follow --hold ",
    "follow --hold 2 --hold 2",
    "follow --hold 2 --hold=3",
    "follow --",
    "follow -- --hold 2",
    "follow --hold 2 --",
    "follow -h",
    "follow --help",
    "follow --version",
    "follow -",
    "follow x",
    "follow --port 5",
    "follow --pcap=",
    "follow --pcap=1",
    "follow --pcap 1",
    "follow --pcap --pcap",
    "follow --pcap --port",
    "follow --pcap --port=",
    "follow --pcap --port 65536",
    "show --pcap",
    "quotes --pcap",
    "relay --pcap",
    "audit --pcap",
    "follow --hol 5",
    "follow ",
    "--hold 2 follow",
    "--",
    "-- follow",
    "audit x",
    "audit --",
    "audit --hold 2",
    "pack",
    "pack --unit",
    "pack --unit 0",
    "pack --unit 256",
    "pack --unit 1 --unit 1",
    "pack --hold 1",
    "show x",
    "show --hold 2",
    "show --",
    "show -h",
    "show ",
    "replay x",
    "replay --",
    "replay --workers",
    "replay --workers 0",
    "replay --workers 65",
    "replay --workers 2 --workers 2",
    "replay --unit 1",
    "storm",
    "storm --number 0 --units 1",
    "storm --units 1 --steps 1",
    "storm --number 0 --steps 1",
    "storm --number 18446744073709551616 --units 1 --steps 1",
    "storm --number -1 --units 1 --steps 1",
    "storm --number 0 --units 0 --steps 1",
    "storm --number 0 --units 17 --steps 1",
    "storm --number 0 --units 1 --steps 0",
    "storm --number 0 --units 1 --steps 10001",
    "storm --number 0 --units 1 --steps 1 --steps 1",
    "storm --number 0 --units 1 --steps 1 --workers 65",
    "storm --number 0 --units 1 --steps 1 --",
    "drill",
    "drill --number 0 --units 1",
    "drill --number 0 --units 0 --count 1",
    "drill --number 0 --units 17 --count 1",
    "drill --number 0 --units 1 --count 0",
    "drill --number 0 --units 1 --count 100001",
    "drill --number 0 --units 1 --count 1 --workers 1",
    "fol",
    "FOLLOW",
    "help",
    "help follow",
    "--help",
    "--version",
    "-h",
    "",
    " follow",
    "demo",
    "demo --number 0",
    "demo --number 0 --count 0",
    "demo --number 0 --count 1001",
    "demo --number 0 --count 1 --units 1",
];

// The answer to the words of the line.
fn form_of_line(rt: &impl Abort, alloc: Global, line: &str) -> Option<Form> {
    let mut words = Vec::new(alloc);
    for word in line.split(' ') {
        let word = String::from_str(alloc, word).expect(rt, "memory");
        words.push(word).expect(rt, "memory");
    }
    read(alloc, words.as_slice()).expect(rt, "memory")
}

// Each line has its form.
fn all_have_forms(rt: &impl Abort, alloc: Global, lines: &[(&str, Form)]) {
    for (line, form) in lines {
        assert!(rt; form_of_line(rt, alloc, line) == Some(*form));
    }
}

// Each line asks for this of a stream.
fn all_read_streams(rt: &impl Abort, alloc: Global, lines: &[(&str, Carried, StreamWords)]) {
    for (line, carried, form) in lines {
        let stream = Form::Stream {
            carried: *carried,
            form: *form,
        };
        assert!(rt; form_of_line(rt, alloc, line) == Some(stream));
    }
}

#[test]
fn each_form_is_read_from_its_words(rt: HostRuntime) {
    all_read_streams(&rt, rt.alloc(), &STREAMS);
    all_have_forms(&rt, rt.alloc(), &FORMS);
}

// No line is a form.
fn none_is_a_form(rt: &impl Abort, alloc: Global, lines: &[&str]) {
    for line in lines {
        assert!(rt; form_of_line(rt, alloc, line) == None);
    }
}

#[test]
fn other_words_are_no_form(rt: HostRuntime) {
    none_is_a_form(&rt, rt.alloc(), &REFUSED);
    assert!(rt; read(rt.alloc(), &[]) == Ok(None));
}
