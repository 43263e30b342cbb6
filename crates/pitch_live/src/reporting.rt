//! A run that serves units and reports: the books at its end, and what each client asked.

use crate::says::{say_input, say_out_of_memory, say_report, say_unsent};
use crate::serving::say_early;
use harmed_venue::HarmedVenue;
use live_setups::{ExitStatus, report_status};
use live_venue::{InputFault, ReportError, ServeSetup, serve_and_report};
use live_words::ServeWords;
use pitch_io::StdSink;
use std::alloc::AllocError;
use std::fs;
use std::io::Read;
use std::os::fd::AsRawFd;
use venue_sockets::VenueSockets;
use watched_venue::{WatchTrouble, WatchedVenue};

// Says why lines are missing of what the clients asked, if any are.
fn say_watched(rt: &HostRuntime, path: &str, watched: Option<WatchTrouble>) {
    let _status = match watched {
        None => ExitStatus::Done,
        Some(WatchTrouble::Write) => say_report(rt, path, &"it can't be written to"),
        Some(WatchTrouble::OutOfMemory) => say_out_of_memory(rt),
    };
}

// Says that the report can't be written, behind the fault that had ended the run, if one had.
fn say_unwritten(rt: &HostRuntime, path: &str, fault: Option<InputFault>) {
    if let Some(fault) = fault {
        let _status = say_input(rt, &fault);
    }
    let _status = say_report(rt, path, &"it can't be written to");
}

/// Serves over a net until the run is over, writes the books to the file of this name, and what
/// each client asked to that with `.asked` behind its name, and answers the exit status.
pub fn report_to<'a, I: Read + AsRawFd + Drop>(
    rt: &HostRuntime,
    asked: &ServeWords,
    setup: &ServeSetup,
    units: &[u8],
    net: HarmedVenue<VenueSockets<&'a HostRuntime, I>>,
    path: &str,
) -> Result<ExitStatus, AllocError> {
    let alloc = rt.alloc();
    let mut asked_path = String::from_str(alloc, path)?;
    asked_path.push_str(".asked")?;
    let books = match fs::create(rt, path) {
        Ok(file) => file,
        Err(reason) => return Ok(say_report(rt, path, &reason)),
    };
    let requests = match fs::create(rt, asked_path.as_str()) {
        Ok(file) => file,
        Err(reason) => return Ok(say_report(rt, asked_path.as_str(), &reason)),
    };
    let mut net = match WatchedVenue::make(alloc, net, units, StdSink::make(requests)) {
        Ok(net) => net,
        Err(_) => return Ok(say_out_of_memory(rt)),
    };
    let mut report = StdSink::make(books);
    let ended = serve_and_report(alloc, setup, &mut net, &mut report);
    let sockets = net.net().net();
    say_unsent(rt, sockets.send_errors(), sockets.send_trouble());
    let trouble = sockets.trouble();
    match ended {
        Ok(()) => {}
        Err(ReportError::Serve(error)) => say_early(rt, asked, error, trouble),
        Err(ReportError::Write(fault)) => say_unwritten(rt, path, fault),
    }
    say_watched(rt, asked_path.as_str(), net.trouble());
    Ok(report_status(&ended, trouble, net.trouble()))
}
