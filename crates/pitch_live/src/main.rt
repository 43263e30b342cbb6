//! The program `pitch_live`.
#![tactic(auto)]

mod given;
mod listening;
mod reporting;
mod says;
mod serving;
mod telling;

use crate::given::{NoWords, words_of};
use crate::listening::listen;
use crate::says::{say_out_of_memory, say_setup, say_usage};
use crate::serving::serve;
use live_setups::ExitStatus;
use live_words::{Asked, read};
use std::process::ExitCode;

// Does what the words ask for.
fn run(rt: &HostRuntime) -> Result<ExitStatus, NoWords> {
    let words = words_of(rt)?;
    match read(rt.alloc(), &words)? {
        Some(Asked::Listen(asked)) => Ok(listen(rt, &asked)?),
        Some(Asked::Serve(asked)) => Ok(serve(rt, &asked)?),
        None => Ok(say_usage(rt)),
    }
}

fn main(rt: HostRuntime) -> ExitCode {
    let status = match run(&rt) {
        Ok(status) => status,
        Err(NoWords::OutOfMemory) => say_out_of_memory(&rt),
        Err(NoWords::Setup(path, reason)) => say_setup(&rt, path.as_str(), &reason),
    };
    ExitCode::from(status.number())
}
