//! The commands of the input, each of which comes to its unit.

ghost use Rattle.std.specs.Prelude.{◌≡◌, ◌≢◌, ◌≤◌, IfOk, List, length};
ghost use Rattle.pitch_fields.specs.Limits.{text_limit};
ghost use Rattle.venue_end.specs.declared.setup.VenueSetup.{VenueSetup};
ghost use Rattle.venue_units.specs.Coming.{UnitCame};
ghost use Rattle.venue_units.specs.Units.{UnitsStand};
ghost use Rattle.live_venue.specs.Input.{at_index, index_of, lines_heard, said_heard, told_line};
ghost use Rattle.live_venue.specs.Standing.{Hears};

use crate::fault::InputFault;
use pitch_fields::OutOfMemory;
use text_lines::TextError;
use unit_commands::{UnitCommandEntry, UnitCommands};
use venue_core::VenueError;
use venue_units::VenueUnits;

/// The number of a line behind so many others.
pub(crate) fn told_line(before: u64, line: u32) -> u64
    ensures { result ≡ told_line before line }
{
    before.saturating_add(u64::from(line))
}

// The fault of a line whose command was refused, unless memory ran out.
fn refused(line: u64, error: VenueError) -> Result<Option<InputFault>, OutOfMemory>
    ensures { IfOk result (λ fault. (fault ≡ Some (InputFault.Refused line error))
        × (error ≢ VenueError.OutOfMemory)) }
{
    match error {
        VenueError::OutOfMemory => Err(OutOfMemory),
        error => Ok(Some(InputFault::Refused { line, error })),
    }
}

// The command of a line comes to its unit.
fn hear_command(
    units: &mut VenueUnits,
    line: u64,
    entry: &UnitCommandEntry,
) -> Result<Option<InputFault>, OutOfMemory>
    ensures { IfOk result (λ fault. (s : List VenueSetup) (came : List UnitCame)
        → UnitsStand s units.old came → Hears s units.new fault
        (at_index s (index_of s entry.now.unit) line entry.now.command came)) }
{
    let Some(at) = units.index_of(entry.unit) else {
        return Ok(Some(InputFault::NoUnit(line)));
    };
    match units.accept(at, &entry.command) {
        Ok(_) => Ok(None),
        Err(error) => refused(line, error),
    }
}

// What a line says comes.
fn hear_said(
    units: &mut VenueUnits,
    before: u64,
    said: Result<UnitCommandEntry, TextError>,
) -> Result<Option<InputFault>, OutOfMemory>
    ensures { IfOk result (λ fault. (s : List VenueSetup) (came : List UnitCame)
        → UnitsStand s units.old came
        → Hears s units.new fault (said_heard s before said came)) }
{
    match said {
        Ok(entry) => hear_command(units, told_line(before, entry.line), &entry),
        Err(
            TextError::Bad {
                line,
                column,
                cause,
            },
        ) => Ok(Some(InputFault::Bad {
            line: told_line(before, line),
            column,
            cause,
        })),
        Err(TextError::OutOfMemory) => Err(OutOfMemory),
    }
}

/// What some lines say comes to the units, line by line up to the first fault, which is the answer
/// where there is one.
pub(crate) fn hear_lines(
    units: &mut VenueUnits,
    before: u64,
    lines: &[u8],
) -> Result<Option<InputFault>, OutOfMemory>
    requires { length lines.now ≤ text_limit }
    ensures { IfOk result (λ fault. (s : List VenueSetup) (came : List UnitCame)
        → UnitsStand s units.old came
        → Hears s units.new fault (lines_heard s before lines.now came)) }
{
    'lines: for said in UnitCommands::of_text(lines) {
        if let Some(fault) = hear_said(units, before, said)? {
            return Ok(Some(fault));
        }
    }
    Ok(None)
}
