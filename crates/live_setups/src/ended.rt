//! With which status the program ends, by how its run ended.

ghost use Rattle.std.specs.Prelude.{◌≡◌, option_map};
ghost use Rattle.live_setups.specs.Statuses.{early_status, is_memory, line_status, listen_status};
ghost use Rattle.live_setups.specs.Statuses.{net_status, part_fault, part_status, recover_status};
ghost use Rattle.live_setups.specs.Statuses.{report_status, serve_status, venue_status};
ghost use Rattle.live_setups.specs.Statuses.{watch_status};

use crate::status::ExitStatus;
use line_sockets::Trouble;
use live_listen::{Counts as ListenCounts, ListenError};
use live_recovery::{Counts as RecoverCounts, RecoverError};
use live_venue::{ReportError, ServeError};
use std::io::ErrorKind;
use venue_sockets::{VenuePart, VenueTrouble};
use watched_venue::WatchTrouble;

// Whether the system said that memory ran out.
fn is_memory(kind: ErrorKind) -> bool
    ensures { result ≡ is_memory kind }
{
    match kind {
        ErrorKind::OutOfMemory => true,
        _ => false,
    }
}

/// Where the system said this of a line, of a connection or of the wait.
pub fn line_status(trouble: &Trouble) -> ExitStatus
    ensures { result ≡ line_status trouble.now }
{
    if is_memory(trouble.reason.kind()) {
        ExitStatus::OutOfMemory
    } else {
        ExitStatus::NetFault
    }
}

// Where the net failed, and the system said this of it, if anything.
fn net_status(trouble: Option<&Trouble>) -> ExitStatus
    ensures { result ≡ net_status (option_map (λ t. t.now) trouble.entry) }
{
    match trouble {
        Some(trouble) => line_status(trouble),
        None => ExitStatus::NetFault,
    }
}

/// Where a run that hears every unit ended so, and the system said this of its net, if anything.
pub fn listen_status(
    ended: &Result<ListenCounts, ListenError>,
    trouble: Option<&Trouble>,
) -> ExitStatus
    ensures { result ≡ listen_status ended.now (option_map (λ t. t.now) trouble.entry) }
{
    match ended {
        Ok(_) => ExitStatus::Done,
        Err(ListenError::Net) => net_status(trouble),
        Err(ListenError::Write) => ExitStatus::WriteFault,
        Err(ListenError::OutOfMemory) => ExitStatus::OutOfMemory,
    }
}

/// Where a run that hears the units that are named ended so, and the system said this of its net,
/// if anything.
pub fn recover_status(
    ended: &Result<RecoverCounts, RecoverError>,
    trouble: Option<&Trouble>,
) -> ExitStatus
    ensures { result ≡ recover_status ended.now (option_map (λ t. t.now) trouble.entry) }
{
    match ended {
        Ok(_) => ExitStatus::Done,
        Err(RecoverError::Net) => net_status(trouble),
        Err(RecoverError::Write) => ExitStatus::WriteFault,
        Err(RecoverError::OutOfMemory) => ExitStatus::OutOfMemory,
        Err(RecoverError::Disagree(_)) => ExitStatus::LinesDisagree,
    }
}

// Where a part of a venue's net failed.
fn part_fault(part: VenuePart) -> ExitStatus
    ensures { result ≡ part_fault part }
{
    match part {
        VenuePart::Input => ExitStatus::ReadFault,
        VenuePart::Wait => ExitStatus::NetFault,
        VenuePart::Line(_) => ExitStatus::NetFault,
        VenuePart::Door(_) => ExitStatus::NetFault,
    }
}

/// Where the system said this of a part of a venue's net.
pub fn part_status(trouble: &VenueTrouble) -> ExitStatus
    ensures { result ≡ part_status trouble.now }
{
    if is_memory(trouble.reason.kind()) {
        ExitStatus::OutOfMemory
    } else {
        part_fault(trouble.part)
    }
}

// Where a venue's net failed, and the system said this of it, if anything.
fn venue_status(trouble: Option<&VenueTrouble>) -> ExitStatus
    ensures { result ≡ venue_status (option_map (λ t. t.now) trouble.entry) }
{
    match trouble {
        Some(trouble) => part_status(trouble),
        None => ExitStatus::NetFault,
    }
}

// Where a run that serves ended early, and the system said this of its net, if anything.
fn early_status(error: ServeError, trouble: Option<&VenueTrouble>) -> ExitStatus
    ensures { result ≡ early_status error (option_map (λ t. t.now) trouble.entry) }
{
    match error {
        ServeError::Net => venue_status(trouble),
        ServeError::Input(_) => ExitStatus::BadInput,
        ServeError::OutOfMemory => ExitStatus::OutOfMemory,
    }
}

/// Where a run that serves ended so, and the system said this of its net, if anything.
pub fn serve_status(ended: &Result<(), ServeError>, trouble: Option<&VenueTrouble>) -> ExitStatus
    ensures { result ≡ serve_status ended.now (option_map (λ t. t.now) trouble.entry) }
{
    match ended {
        Ok(()) => ExitStatus::Done,
        Err(error) => early_status(*error, trouble),
    }
}

// Where lines are missing of what the clients asked, if any are.
fn watch_status(watched: Option<WatchTrouble>) -> ExitStatus
    ensures { result ≡ watch_status watched }
{
    match watched {
        None => ExitStatus::Done,
        Some(WatchTrouble::Write) => ExitStatus::WriteFault,
        Some(WatchTrouble::OutOfMemory) => ExitStatus::OutOfMemory,
    }
}

/// Where a run that serves and reports ended so, the system said this of its net, if anything, and
/// this is why lines are missing of what the clients asked, if any are.
pub fn report_status(
    ended: &Result<(), ReportError>,
    trouble: Option<&VenueTrouble>,
    watched: Option<WatchTrouble>,
) -> ExitStatus
    ensures { result ≡ report_status ended.now (option_map (λ t. t.now) trouble.entry) watched }
{
    match ended {
        Ok(()) => watch_status(watched),
        Err(ReportError::Serve(error)) => early_status(*error, trouble),
        Err(ReportError::Write(_)) => ExitStatus::WriteFault,
    }
}
