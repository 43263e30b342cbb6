//! What the program says on standard error, each by one line, and the exit status that goes with
//! it where nothing else does.

use line_sockets::Trouble;
use live_setups::{ExitStatus, line_status, part_status};
use live_venue::InputFault;
use live_words::{LineWords, UnitWords};
use std::fmt::Display;
use std::io;
use venue_sockets::{VenuePart, VenueTrouble};

/// Memory ran out.
pub fn say_out_of_memory(rt: &HostRuntime) -> ExitStatus {
    let _said = eprintln!(rt; "pitch_live: out of memory");
    ExitStatus::OutOfMemory
}

/// What was counted.
pub fn say_counts(
    rt: &HostRuntime,
    datagrams: u64,
    faulty: u64,
    blocks: u64,
    stray: u64,
) -> ExitStatus {
    let _said = eprintln!(rt;
        "pitch_live: datagrams {datagrams} faulty {faulty} blocks {blocks} stray {stray}"
    );
    ExitStatus::Done
}

/// The words ask for nothing.
pub fn say_usage(rt: &HostRuntime) -> ExitStatus {
    let _said = eprintln!(rt;
        "pitch_live: the words are: listen --a PORT.. --b PORT.. [--gap PORT..] [--from IP].. \
         [--unit U].. [--grp U@ADDR:NUMBER].. [--spin U@ADDR:NUMBER].. \
         [--sub S --user U --password P] [--hold H] [--seconds N] [--setup FILE].., with at least \
         one PORT, which is ADDR:NUMBER or fd:N; or serve --a U@ADDR:NUMBER.. \
         [--b U@ADDR:NUMBER].. [--gap U@ADDR:NUMBER].. [--grp U@ADDR:NUMBER].. \
         [--spin U@ADDR:NUMBER].. [--sub S --user U --password P] [--kept K] [--second A] \
         [--minute B] [--day C] [--seconds N] [--after N] [--plan NUMBER --count C [--rate R]] \
         [--lose LINE:SHARE].. [--repeat LINE:SHARE].. [--swap LINE:SHARE].. [--cut N] \
         [--number S] [--report FILE] [--setup FILE].., with at most 64 units"
    );
    ExitStatus::Usage
}

/// A setup file can't be read.
pub fn say_setup(rt: &HostRuntime, path: &str, reason: &io::Error) -> ExitStatus {
    let _said = eprintln!(rt; "pitch_live: {path}: {reason}");
    ExitStatus::Usage
}

/// Standard output can't be written to.
pub fn say_write_failed(rt: &HostRuntime) -> ExitStatus {
    let _said = eprintln!(rt; "pitch_live: standard output can't be written to");
    ExitStatus::WriteFault
}

/// A report can't be made or written.
pub fn say_report<D: Display>(rt: &HostRuntime, path: &str, reason: &D) -> ExitStatus {
    let _said = eprintln!(rt; "pitch_live: {path}: {reason}");
    ExitStatus::WriteFault
}

/// Two copies of a message of a unit differ.
pub fn say_disagree(rt: &HostRuntime, unit: u8, sequence: u32) -> ExitStatus {
    let _said = eprintln!(rt; "pitch_live: unit {unit} lines disagree at {sequence}");
    ExitStatus::LinesDisagree
}

// What the line of this number is called, or the wait where there is no number.
fn name_of(lines: &LineWords, line: Option<u16>) -> &'static str {
    let Some(line) = line else {
        return "wait";
    };
    let number = usize::from(line);
    if number < lines.a.len() {
        "a"
    } else if number.saturating_sub(lines.a.len()) < lines.b.len() {
        "b"
    } else {
        "gap"
    }
}

/// What the system said of a line or of the wait.
pub fn say_trouble(rt: &HostRuntime, lines: &LineWords, trouble: &Trouble) -> ExitStatus {
    let status = line_status(trouble);
    if status == ExitStatus::OutOfMemory {
        return say_out_of_memory(rt);
    }
    let name = name_of(lines, trouble.line);
    let _said = eprintln!(rt; "pitch_live: {name}: {}", trouble.reason);
    status
}

/// The first fault of the input of commands.
pub fn say_input(rt: &HostRuntime, fault: &InputFault) -> ExitStatus {
    let _said = eprintln!(rt; "pitch_live: {fault}");
    ExitStatus::BadInput
}

// The number of the unit at an index; 0 where there is none.
fn unit_at(units: &[UnitWords], at: u16) -> u8 {
    match units.get(usize::from(at)) {
        Some(words) => words.unit,
        None => 0,
    }
}

/// How many datagrams were not sent, where there are any, and what the system said of the last.
pub fn say_unsent(rt: &HostRuntime, count: u64, trouble: Option<&VenueTrouble>) {
    if let Some(trouble) = trouble {
        let _said = eprintln!(rt; "pitch_live: send errors {count}: {}", trouble.reason);
    }
}

/// What the system said of a part of a venue's net.
pub fn say_venue_trouble(
    rt: &HostRuntime,
    units: &[UnitWords],
    trouble: &VenueTrouble,
) -> ExitStatus {
    let status = part_status(trouble);
    if status == ExitStatus::OutOfMemory {
        return say_out_of_memory(rt);
    }
    let reason = &trouble.reason;
    let _said = match trouble.part {
        VenuePart::Wait => eprintln!(rt; "pitch_live: wait: {reason}"),
        VenuePart::Input => eprintln!(rt; "pitch_live: standard input: {reason}"),
        VenuePart::Line(line) => {
            let name = ["a", "b", "gap"][usize::from(line % 3)];
            eprintln!(rt;
                "pitch_live: {name} of unit {}: {reason}",
                unit_at(units, line / 3)
            )
        }
        VenuePart::Door(door) => {
            let name = ["grp", "spin"][usize::from(door % 2)];
            eprintln!(rt;
                "pitch_live: {name} of unit {}: {reason}",
                unit_at(units, door / 2)
            )
        }
    };
    status
}
