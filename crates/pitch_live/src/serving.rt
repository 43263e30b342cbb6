//! A run that serves units.

use crate::reporting::report_to;
use crate::says::{say_input, say_out_of_memory, say_unsent, say_usage, say_venue_trouble};
use harmed_venue::HarmedVenue;
use live_setups::{ExitStatus, ServeRun, serve_run, serve_status};
use live_venue::{ServeError, serve as serve_units};
use live_words::ServeWords;
use std::alloc::AllocError;
use venue_sockets::{VenueInput, VenueSockets, VenueTrouble};
use venue_units::DOOR_PLACES;

/// Says why a run ended early.
pub fn say_early(
    rt: &HostRuntime,
    asked: &ServeWords,
    error: ServeError,
    trouble: Option<&VenueTrouble>,
) {
    let _status = match error {
        ServeError::Net => match trouble {
            Some(trouble) => say_venue_trouble(rt, &asked.units, trouble),
            None => ExitStatus::NetFault,
        },
        ServeError::Input(fault) => say_input(rt, &fault),
        ServeError::OutOfMemory => say_out_of_memory(rt),
    };
}

// Opens the sockets, and serves until the run is over.
fn serve_over(
    rt: &HostRuntime,
    asked: &ServeWords,
    run: ServeRun,
) -> Result<ExitStatus, AllocError> {
    let alloc = rt.alloc();
    let ServeRun {
        setup,
        units,
        lines,
        doors,
        plan,
        harm,
        time,
    } = run;
    let input = match plan {
        Some(text) => VenueInput::Plan(text),
        None => VenueInput::Stream(rt.stdin()),
    };
    let made = VenueSockets::make(rt, alloc, &lines, &doors, DOOR_PLACES, input, time);
    let sockets = match made {
        Ok(sockets) => sockets,
        Err(trouble) => return Ok(say_venue_trouble(rt, &asked.units, &trouble)),
    };
    let mut net = HarmedVenue::make(alloc, harm, sockets)?;
    if let Some(path) = &asked.trial.report {
        return report_to(rt, asked, &setup, &units, net, path.as_str());
    }
    let ended = serve_units(alloc, &setup, &mut net);
    say_unsent(rt, net.net().send_errors(), net.net().send_trouble());
    if let Err(error) = ended {
        say_early(rt, asked, error, net.net().trouble());
    }
    Ok(serve_status(&ended, net.net().trouble()))
}

/// Serves the units, and answers the exit status.
pub fn serve(rt: &HostRuntime, asked: &ServeWords) -> Result<ExitStatus, AllocError> {
    match serve_run(rt.alloc(), asked)? {
        Some(run) => serve_over(rt, asked, run),
        None => Ok(say_usage(rt)),
    }
}
