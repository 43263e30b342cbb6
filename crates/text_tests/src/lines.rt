//! A grammar of single digits, and what a text of such lines gives.

use pitch_messages::List;
use std::process::Abort;
use text_lines::{Fault, Grammar, LineFields, TextCause, TextError, read_number, read_text};

// A line begins with a number of one digit.
struct Digits;

impl Grammar for Digits {
    ghost use Rattle.text_lines.specs.Reading.{number};

    type Said = u64;

    type Entry = (u32, u64);

    ghost reading = { number 0 9 };

    ghost entry_of = { λ p. p };

    fn read(fields: &mut LineFields) -> Result<u64, Fault> {
        read_number(fields, 0, 9)
    }

    fn entry(line: u32, said: u64) -> (u32, u64) {
        (line, said)
    }
}

const FAULT: TextError = TextError::Bad {
    line: 2,
    column: 2,
    cause: TextCause::BadNumber,
};

const NUMBERS: &[u8] = b"7\r\n\n# none\n  3";

// Reads these numbers, and nothing of a text with a fault.
fn reads_numbers(rt: &impl Abort, text: &[u8], out: &mut List<(u32, u64)>) {
    assert!(rt; text.len() < 100);
    assert!(rt; read_text::<Digits>(text, out) == Ok(()));
    assert!(rt; out.as_slice() == [(1, 7), (4, 3)].as_slice());
    assert!(rt; read_text::<Digits>(b"8\n 12", out) == Err(FAULT));
    assert!(rt; out.len() == 2);
}

#[test]
fn numbers_with_their_lines(rt: HostRuntime) {
    let mut out = List::make(rt.alloc());
    reads_numbers(&rt, NUMBERS, &mut out);
}
