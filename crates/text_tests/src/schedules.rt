//! Schedules: the first fault of faulty lines, canonical lines, and a text line by line.

use pitch_text::{
    Command, CommandEntry, Commands, ScheduleList, TextCause, TextError, print_entry, read_schedule,
};
use std::alloc::Global;
use std::process::Abort;

// A line, and what a schedule that has it alone answers.
static ANSWERS: [(&str, &str); 60] = [
    // a field of a fixed kind has that kind's cause
    ("1 quote A\\B", "line 1 column 9: bad-symbol"),
    ("1 add 1 B 1 IBM hidden", "line 1 column 17: bad-price"),
    ("1 add 1 B 1 IBM at=5", "line 1 column 17: bad-price"),
    ("1 quote flush", "read"),
    ("1 status IBM HH 0", "line 1 column 14: bad-word"),
    ("1 status IBM \\ 0", "line 1 column 14: bad-word"),
    ("1 status ABCDEFGHI H 0", "line 1 column 10: bad-symbol"),
    ("1 status IBM H", "line 1 column 15: missing-field"),
    ("1 quote ABCDEFGHI", "line 1 column 9: bad-symbol"),
    ("0 flush", "line 1 column 1: bad-number"),
    ("x flush", "line 1 column 1: bad-number"),
    // after the required fields
    ("1 time 5 x=1", "line 1 column 10: extra-field"),
    ("1 clear at=1 at=2", "line 1 column 14: extra-field"),
    ("1 clear hidden", "line 1 column 9: bad-word"),
    ("1 modify 1 1 1 hidden at=1", "read"),
    (
        "1 modify 1 1 1 at=1 hidden",
        "line 1 column 21: extra-field",
    ),
    (
        "1 add 1 B 1 IBM 1 mpid=A hidden",
        "line 1 column 26: bad-word",
    ),
    ("1 open kept=1 hold=1", "line 1 column 15: bad-word"),
    ("1 open day=1 day=1", "line 1 column 14: extra-field"),
    // prices
    ("1 add 1 B 1 IBM .5", "line 1 column 17: bad-price"),
    ("1 add 1 B 1 IBM 1.", "line 1 column 17: bad-price"),
    ("1 add 1 B 1 IBM 0000000000000001", "read"),
    (
        "1 add 1 B 1 IBM 00000000000000001",
        "line 1 column 17: bad-price",
    ),
    ("1 add 1 B 1 IBM 1844674407370955.1615", "read"),
    (
        "1 add 1 B 1 IBM 1844674407370955.1616",
        "line 1 column 17: bad-price",
    ),
    // named fields
    ("1 add 1 B 1 IBM 1 mpid=", "line 1 column 19: bad-symbol"),
    (
        "1 add 1 B 1 IBM 1 mpid=ABCDE",
        "line 1 column 19: bad-symbol",
    ),
    ("1 clear at=", "line 1 column 9: bad-number"),
    ("1 clear at=x", "line 1 column 9: bad-number"),
    ("1 clear at=999999999", "read"),
    ("1 clear at=1000000000", "line 1 column 9: bad-number"),
    ("1 open hold=", "line 1 column 8: bad-number"),
    ("1 open hold=0", "line 1 column 8: bad-number"),
    ("1 open hold=65537", "line 1 column 8: bad-number"),
    ("1 open day=1000001", "line 1 column 8: bad-number"),
    ("1 modify 1 1 1 hidden=", "line 1 column 16: bad-word"),
    // numbers
    ("1 time 00000000000000000001", "read"),
    (
        "1 time 000000000000000000001",
        "line 1 column 8: bad-number",
    ),
    ("1 delete 18446744073709551615", "read"),
    (
        "1 delete 18446744073709551616",
        "line 1 column 10: bad-number",
    ),
    ("1 reduce 1 4294967296", "line 1 column 12: bad-number"),
    // a number or a word in its place
    ("1 a 4294967295", "read"),
    ("1 a 4294967296", "line 1 column 5: bad-number"),
    ("1 a 0", "line 1 column 5: bad-number"),
    ("1 a x", "line 1 column 5: bad-word"),
    ("1 a all", "line 1 column 5: bad-word"),
    ("1 grp up rest", "line 1 column 10: bad-word"),
    ("1 grp up 1x", "line 1 column 10: bad-number"),
    // words
    ("1", "line 1 column 2: missing-field"),
    ("1 fly", "line 1 column 3: bad-word"),
    ("1 grp", "line 1 column 6: missing-field"),
    ("1 grp shut", "line 1 column 7: bad-word"),
    ("1 Flush", "line 1 column 3: bad-word"),
    // lines
    ("", "read"),
    (" \n\n  # 1 fly\n1 flush", "read"),
    (
        "\n# x\n1 clear at=1 at=2\r\n",
        "line 3 column 14: extra-field",
    ),
    ("1 flush\r\n", "read"),
    ("1 flush\r\r\n", "line 1 column 3: bad-word"),
    ("1 flush\n1 fly", "line 2 column 3: bad-word"),
    ("1 fly\n1 flush x", "line 1 column 3: bad-word"),
];

// Lines, and as they are printed.
static PRINTED: [(&str, &str); 13] = [
    (
        "64 add 7 B 100 IBM 10 hidden mpid=AB at=5",
        "64 add 7 B 100 IBM 10.0000 hidden mpid=AB at=5",
    ),
    ("1 execat 1 2 3 4 0.5", "1 execat 1 2 3 4 0.5000"),
    ("1 reduce 007 2 at=0", "1 reduce 7 2"),
    ("1 modify 1 2 10.01 hidden", "1 modify 1 2 10.0100 hidden"),
    ("1 trade 1 B 2 IBM 3.25 4", "1 trade 1 B 2 IBM 3.2500 4"),
    (
        "1 open hold=4096 kept=65536 second=10 minute=100 day=10000",
        "1 open",
    ),
    (
        "1 open hold=2 kept=3 second=4 minute=5 day=6",
        "1 open hold=2 kept=3 second=4 minute=5 day=6",
    ),
    ("1 b 4294967295", "1 b 4294967295"),
    ("1 g rest", "1 g rest"),
    (" 2   grp up  all ", "2 grp up all"),
    ("1 spin down 14", "1 spin down 14"),
    ("1 quote !~#", "1 quote !~#"),
    ("1 status IBM H ~ at=07", "1 status IBM H ~ at=7"),
];

// What a schedule answers: `read`, or the error in words.
fn answer(rt: &impl Abort, alloc: Global, text: &[u8]) -> String {
    let mut out = ScheduleList::make(alloc);
    assert!(rt; text.len() < 1000);
    let said = match read_schedule(text, &mut out) {
        Ok(()) => String::from_str(alloc, "read"),
        Err(error) => format!(in alloc; "{error}"),
    };
    said.expect(rt, "memory")
}

fn are_answered(rt: &impl Abort, alloc: Global, answers: &[(&str, &str)]) {
    for (text, expected) in answers {
        let got = answer(rt, alloc, text.as_bytes());
        assert!(rt; got.as_str() == *expected);
    }
}

#[test]
fn first_faults(rt: HostRuntime) {
    are_answered(&rt, rt.alloc(), &ANSWERS);
}

// A place of a line and the byte that is put there, how much of the line is read, and the answer.
static LONG: [(usize, u8, usize, &str); 6] = [
    (7, b' ', 202, "line 1 column 201: long-line"),
    (7, b' ', 200, "read"),
    (200, b'x', 202, "line 1 column 201: long-line"),
    (8, b'x', 202, "line 1 column 9: extra-field"),
    (0, b'#', 202, "line 1 column 201: long-line"),
    (200, b'\r', 201, "read"),
];

fn are_long(rt: &impl Abort, alloc: Global, cases: &[(usize, u8, usize, &str)]) {
    let mut line = [b' '; 202];
    line[..7].copy_from_slice(b"1 flush");
    for (at, byte, length, expected) in cases {
        assert!(rt; *at < 202 && *length <= 202);
        line[*at] = *byte;
        let got = answer(rt, alloc, &line[..*length]);
        assert!(rt; got.as_str() == *expected);
    }
}

#[test]
fn long_lines(rt: HostRuntime) {
    are_long(&rt, rt.alloc(), &LONG);
}

// The entries of a text, printed.
fn printed(rt: &impl Abort, alloc: Global, text: &[u8]) -> Vec<u8> {
    let mut entries = ScheduleList::make(alloc);
    assert!(rt; text.len() < 1000);
    assert!(rt; read_schedule(text, &mut entries).is_ok());
    let mut lines = Vec::new(alloc);
    for entry in entries.as_slice() {
        assert!(rt; entry.well_formed());
        print_entry(entry, &mut lines).expect(rt, "memory");
    }
    lines
}

fn are_printed(rt: &impl Abort, alloc: Global, texts: &[(&str, &str)]) {
    for (text, expected) in texts {
        let lines = printed(rt, alloc, text.as_bytes());
        assert!(rt; lines.as_slice() == expected.as_bytes());
    }
}

#[test]
fn printed_lines(rt: HostRuntime) {
    are_printed(&rt, rt.alloc(), &PRINTED);
}

// Commands between lines that have none.
const TEXT: &[u8] = b"\n# none\nclear\r\n  end x\n\nend at=1\n# last\nclear 2";

// What an item says: its line and the offset of its `clear` or its `end`, or its fault.
#[derive(Clone, Copy, PartialEq, Eq)]
enum Said {
    Clear(u32, u32),
    End(u32, u32),
    Fault(TextError),
    Other,
}

fn says(item: Result<CommandEntry, TextError>) -> Said {
    let entry = match item {
        Ok(entry) => entry,
        Err(fault) => return Said::Fault(fault),
    };
    match entry.command {
        Command::Clear { offset } => Said::Clear(entry.line, offset),
        Command::EndSession { offset } => Said::End(entry.line, offset),
        _ => Said::Other,
    }
}

// The items of a text are these, and then no more.
fn are_items(rt: &impl Abort, text: &[u8], wants: &[Said]) {
    assert!(rt; text.len() < 1000);
    let mut items = Commands::of_text(text);
    for want in wants {
        let item = items.next().expect(rt, "an item");
        assert!(rt; says(item) == *want);
    }
    assert!(rt; items.next().is_none());
    assert!(rt; items.next().is_none());
}

#[test]
fn a_text_line_by_line(rt: HostRuntime) {
    let wants = [
        Said::Clear(3, 0),
        bad_word_at(4, 7),
        Said::End(6, 1),
        bad_word_at(8, 7),
    ];
    are_items(&rt, TEXT, &wants);
    are_items(&rt, b"", &[]);
    are_items(&rt, b"\n\n", &[]);
    are_items(&rt, b"clear\n", &[Said::Clear(1, 0)]);
}

fn bad_word_at(line: u32, column: u32) -> Said {
    Said::Fault(TextError::Bad {
        line,
        column,
        cause: TextCause::BadWord,
    })
}
