//! The program's commands, as `clap` reads them.

ghost use Rattle.std.specs.Prelude.{◌≡◌, IfOk, false, codes, map};
ghost use Rattle.clap.specs.Walk.{rule_of};
ghost use Rattle.clap.specs.Simple.{app_of};
ghost use Rattle.long_options.specs.Apps.{empty_program};
ghost use Rattle.live_words.specs.layers.Building.{IsMade, listed_rule, rule_in};
ghost use Rattle.live_words.specs.Asked.{pitch_live};

use clap::{Arg, ArgAction, Command};
use std::alloc::{AllocError, Global};

// An option with a value: its name, and whether it may be given any number of times.
type Listed = (&'static str, bool);

static LISTEN: [Listed; 12] = [
    // the lines and units
    ("a", true),
    ("b", true),
    ("gap", true),
    ("from", true),
    ("unit", true),
    // the servers and the account
    ("grp", true),
    ("spin", true),
    ("sub", false),
    ("user", false),
    ("password", false),
    // the run
    ("hold", false),
    ("seconds", false),
];

static SERVE: [Listed; 23] = [
    // the lines
    ("a", true),
    ("b", true),
    ("gap", true),
    // the servers and the account
    ("grp", true),
    ("spin", true),
    ("sub", false),
    ("user", false),
    ("password", false),
    // what they keep and accept
    ("kept", false),
    ("second", false),
    ("minute", false),
    ("day", false),
    // the end
    ("seconds", false),
    ("after", false),
    // its own commands
    ("plan", false),
    ("count", false),
    ("rate", false),
    // the harm and the report
    ("lose", true),
    ("repeat", true),
    ("swap", true),
    ("cut", false),
    ("number", false),
    ("report", false),
];

// An option `--name` with a value.
fn option<'a>(alloc: Global, name: &'a str, any_times: bool) -> Arg<'a>
    ensures rule { rule_of result ≡ listed_rule name.now any_times }
    ensures local { result.global ≡ false }
{
    let arg = Arg::new(alloc, name).long(name);
    if any_times {
        arg.action(ArgAction::Append)
    } else {
        arg.action(ArgAction::Set)
    }
}

// A command with these options, and no help or version.
fn command<'a>(
    alloc: Global,
    name: &'a str,
    options: &'a [Listed],
) -> Result<Command<'a>, AllocError>
    ensures { IfOk result (IsMade name.now (map rule_in options.now)) }
{
    let mut command = Command::new(alloc, name)
        .disable_help_flag(true)
        .disable_version_flag(true);
    for listed in options {
        command = command.arg(option(alloc, listed.0, listed.1))?;
    }
    Ok(command)
}

// The program without its commands, of which one must be there.
fn top<'a>(alloc: Global) -> Command<'a>
    ensures { app_of result ≡ empty_program (codes "pitch_live") }
{
    Command::new(alloc, "pitch_live")
        .no_binary_name(true)
        .disable_help_flag(true)
        .disable_help_subcommand(true)
        .disable_version_flag(true)
        .subcommand_required(true)
}

// The program with its commands.
pub(crate) fn app<'a>(alloc: Global) -> Result<Command<'a>, AllocError>
    ensures app { IfOk result (λ r. app_of r ≡ pitch_live) }
{
    let listen = command(alloc, "listen", &LISTEN)?;
    let with_listen = top(alloc).subcommand(listen)?;
    let serve = command(alloc, "serve", &SERVE)?;
    with_listen.subcommand(serve)
}
