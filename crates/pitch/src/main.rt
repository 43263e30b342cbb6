//! The program `pitch`.
#![tactic(auto)]

use loopback_net::StdNet;
use patient_io::Patient;
use pitch_io::{FreeGate, StdSink, StdSource};
use pitch_tool::{ExitStatus, pitch, say_out_of_memory};
use std::env;
use std::io::ErrorKind;
use std::process::ExitCode;

// The words after the program's name. A word that isn't UTF-8 is in no form, so it stands for no
// words at all.
fn words_of(rt: &HostRuntime) -> Result<Vec<String>, ErrorKind> {
    match env::args(rt) {
        Ok(args) => match args.skip(1).collect::<Vec<String>>(rt.alloc()) {
            Ok(words) => Ok(words),
            Err(_) => Err(ErrorKind::OutOfMemory),
        },
        Err(error) => match error.kind() {
            ErrorKind::InvalidData => Ok(Vec::new(rt.alloc())),
            kind => Err(kind),
        },
    }
}

fn main(rt: HostRuntime) -> ExitCode {
    let mut input = StdSource::make(Patient::make(rt.stdin()));
    let mut out = StdSink::make(Patient::make(rt.stdout()));
    let mut err = StdSink::make(Patient::make(rt.stderr()));
    let mut net = StdNet::make(&rt);
    let Ok(words) = words_of(&rt) else {
        say_out_of_memory(&mut err);
        return ExitCode::from(ExitStatus::OutOfMemory.number());
    };
    let status = pitch(
        &rt,
        rt.alloc(),
        &words,
        &mut input,
        &mut out,
        &mut err,
        &mut net,
        &FreeGate,
    );
    ExitCode::from(status.number())
}
