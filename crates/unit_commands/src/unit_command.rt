//! Commands with the number of the unit that each is for.

ghost use Rattle.text_lines.specs.Reading.{Reads};
ghost use Rattle.unit_commands.specs.UnitCommands.{unit_command, unit_command_entry};

use pitch_text::{Command, CommandLines};
use text_lines::{Fault, Grammar, LineFields, Lines, read_number};

/// A command of a text, the unit that it is for, 1 to 255, and the number of its line, counted from
/// 1.
#[derive(Clone, Copy)]
pub struct UnitCommandEntry {
    pub line: u32,
    pub unit: u8,
    pub command: Command,
}

/// The commands of a text, one after another, each with its unit and the number of its line.
///
/// Lines that say nothing are passed over. A faulty line is an item too, its error with the place
/// and the cause; after it come the items of the next lines. It keeps nothing of the text but what
/// is left of it.
pub type UnitCommands<'a> = Lines<'a, UnitCommandLines>;

/// The grammar of commands with their units.
pub struct UnitCommandLines;

impl Grammar for UnitCommandLines {
    type Said = (u8, Command);

    type Entry = UnitCommandEntry;

    ghost reading = { unit_command };

    ghost entry_of = { unit_command_entry };

    fn read(fields: &mut LineFields) -> Result<(u8, Command), Fault> {
        read_unit_command(fields)
    }

    fn entry(line: u32, said: (u8, Command)) -> UnitCommandEntry {
        let (unit, command) = said;
        UnitCommandEntry {
            line,
            unit,
            command,
        }
    }
}

// Reads a unit and a command, up to the end of the line.
#[tactic(auto, unfolding(crate::specs::UnitCommands::unit_command))]
fn read_unit_command(fields: &mut LineFields) -> Result<(u8, Command), Fault>
    ensures { Reads (unit_command fields.old) result fields.new }
{
    let unit = read_number(fields, 1, 255)?;
    let command = CommandLines::read(fields)?;
    Ok((unit as u8, command))
}
