//! The program's commands, as `clap` reads them.
ghost use Rattle.std.specs.Prelude.{◌≡◌, IfOk, false, codes, map};
ghost use Rattle.clap.specs.Walk.{rule_of};
ghost use Rattle.clap.specs.Simple.{app_of};
ghost use Rattle.long_options.specs.Apps.{empty_program, option_rule};
ghost use Rattle.pitch_words.specs.layers.Commands.{IsMade, described_of, listed_of, pitch, so_far};

use clap::{Arg, ArgAction, Command};
use std::alloc::{AllocError, Global};

// An option: its name, whether it must be there, and whether it has no value.
type Listed = (&'static str, bool, bool);

// A command: its name, and its options.
type Described = (&'static str, &'static [Listed]);

const HOLD: Listed = ("hold", false, false);

const PCAP: Listed = ("pcap", false, true);

const PORT: Listed = ("port", false, false);

const UNIT: Listed = ("unit", true, false);

const WORKERS: Listed = ("workers", false, false);

const NUMBER: Listed = ("number", true, false);

const UNITS: Listed = ("units", true, false);

const STEPS: Listed = ("steps", true, false);

const COUNT: Listed = ("count", true, false);

static COMMANDS: [Described; 10] = [
    ("follow", &[HOLD, PCAP, PORT]),
    ("show", &[]),
    ("pack", &[UNIT]),
    ("replay", &[WORKERS]),
    ("storm", &[NUMBER, UNITS, STEPS, WORKERS]),
    ("drill", &[NUMBER, UNITS, COUNT]),
    ("demo", &[NUMBER, COUNT]),
    ("relay", &[HOLD]),
    ("quotes", &[HOLD]),
    ("audit", &[]),
];

// An option `--name`.
fn option<'a>(alloc: Global, name: &'a str, required: bool, is_switch: bool) -> Arg<'a>
    ensures rule { rule_of result ≡ option_rule (name.now, required, is_switch) }
    ensures local { result.global ≡ false }
{
    let arg = Arg::new(alloc, name).long(name).required(required);
    if is_switch {
        arg.action(ArgAction::SetTrue)
    } else {
        arg.action(ArgAction::Set)
    }
}

// A command with these options, and no help or version.
fn command<'a>(
    alloc: Global,
    name: &'a str,
    options: &'a [Listed],
) -> Result<Command<'a>, AllocError>
    ensures { IfOk result (IsMade (name.now, map listed_of options.now)) }
{
    let mut command = Command::new(alloc, name)
        .disable_help_flag(true)
        .disable_version_flag(true);
    for listed in options {
        command = command.arg(option(alloc, listed.0, listed.1, listed.2))?;
    }
    Ok(command)
}

// The program without its commands, of which one must be there.
fn top<'a>(alloc: Global) -> Command<'a>
    ensures { app_of result ≡ empty_program (codes "pitch") }
{
    Command::new(alloc, "pitch")
        .no_binary_name(true)
        .disable_help_flag(true)
        .disable_help_subcommand(true)
        .disable_version_flag(true)
        .subcommand_required(true)
}

// The program with these commands.
fn with_commands<'a>(alloc: Global, commands: &'a [Described]) -> Result<Command<'a>, AllocError>
    ensures { IfOk result (λ r. app_of r ≡ so_far (map described_of commands.now)) }
{
    let mut program = top(alloc);
    for described in commands {
        let command = command(alloc, described.0, described.1)?;
        program = program.subcommand(command)?;
    }
    Ok(program)
}

// The program with its commands.
pub(crate) fn app<'a>(alloc: Global) -> Result<Command<'a>, AllocError>
    ensures app { IfOk result (λ r. app_of r ≡ pitch) }
{
    with_commands(alloc, &COMMANDS)
}
