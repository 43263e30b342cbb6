//! A run that hears lines, of every unit, or of units that are named, whose servers it asks.

use crate::says::{
    say_counts, say_disagree, say_out_of_memory, say_trouble, say_usage, say_write_failed,
};
use crate::telling::Telling;
use line_sockets::{LineSockets, Trouble};
use live_listen::{Counts as ListenCounts, ListenError, ListenSetup, listen as listen_to};
use live_recovery::{Counts, RecoverError, RecoverSetup, recover};
use live_setups::{ExitStatus, Hearing, ListenRun, listen_run, listen_status, recover_status};
use live_sockets::LiveSockets;
use live_words::{LineWords, ListenWords};
use patient_io::Patient;
use pitch_io::StdSink;
use std::alloc::AllocError;

// Says how a run of every unit ended.
fn say_heard(
    rt: &HostRuntime,
    lines: &LineWords,
    ended: &Result<ListenCounts, ListenError>,
    trouble: Option<&Trouble>,
) {
    let _status = match ended {
        Ok(it) => say_counts(rt, it.datagrams, it.faulty, it.blocks, it.stray),
        Err(ListenError::Net) => match trouble {
            Some(trouble) => say_trouble(rt, lines, trouble),
            None => ExitStatus::NetFault,
        },
        Err(ListenError::Write) => say_write_failed(rt),
        Err(ListenError::OutOfMemory) => say_out_of_memory(rt),
    };
}

// Hears every unit until the run is over, and answers the exit status.
fn hear(rt: &HostRuntime, asked: &ListenWords, run: &ListenRun, setup: &ListenSetup) -> ExitStatus {
    let lines = &asked.lines;
    let alloc = rt.alloc();
    let opened = LineSockets::open(rt, alloc, &run.ports, &lines.from, rt.stdin(), run.seconds);
    let mut net = match opened {
        Ok(net) => net,
        Err(trouble) => return say_trouble(rt, lines, &trouble),
    };
    let mut out = StdSink::make(Patient::make(rt.stdout()));
    let ended = listen_to(alloc, setup, &mut net, &mut out);
    say_heard(rt, lines, &ended, net.trouble());
    listen_status(&ended, net.trouble())
}

// Says how a run of units that are named ended.
fn say_recovered(
    rt: &HostRuntime,
    lines: &LineWords,
    ended: &Result<Counts, RecoverError>,
    trouble: Option<&Trouble>,
) {
    let _status = match ended {
        Ok(it) => say_counts(rt, it.datagrams, it.faulty, it.blocks, it.stray),
        Err(RecoverError::Net) => match trouble {
            Some(trouble) => say_trouble(rt, lines, trouble),
            None => ExitStatus::NetFault,
        },
        Err(RecoverError::Write) => say_write_failed(rt),
        Err(RecoverError::OutOfMemory) => say_out_of_memory(rt),
        Err(RecoverError::Disagree(told)) => say_disagree(rt, told.unit, told.sequence),
    };
}

// Hears the units that are named, and asks their servers, until the run is over, and answers the
// exit status.
fn ask(
    rt: &HostRuntime,
    asked: &ListenWords,
    run: &ListenRun,
    setup: &RecoverSetup,
) -> Result<ExitStatus, AllocError> {
    let lines = &asked.lines;
    let alloc = rt.alloc();
    let opened = LiveSockets::make(
        rt,
        alloc,
        &run.ports,
        &lines.from,
        &run.addrs,
        rt.stdin(),
        run.seconds,
    );
    let sockets = match opened {
        Ok(sockets) => sockets,
        Err(trouble) => return Ok(say_trouble(rt, lines, &trouble)),
    };
    let mut net = Telling::make(rt, sockets, &asked.servers)?;
    let mut out = StdSink::make(Patient::make(rt.stdout()));
    let ended = recover(alloc, setup, &mut net, &mut out);
    say_recovered(rt, lines, &ended, net.net.trouble());
    Ok(recover_status(&ended, net.net.trouble()))
}

/// Hears the lines, asks the servers, if any, and answers the exit status.
pub fn listen(rt: &HostRuntime, asked: &ListenWords) -> Result<ExitStatus, AllocError> {
    let Some(run) = listen_run(rt.alloc(), asked)? else {
        return Ok(say_usage(rt));
    };
    match &run.hearing {
        Hearing::Every(setup) => Ok(hear(rt, asked, &run, setup)),
        Hearing::Named(setup) => ask(rt, asked, &run, setup),
    }
}
