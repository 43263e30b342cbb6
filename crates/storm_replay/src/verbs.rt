//! What a unit of a storm does, as verbs.

ghost use Rattle.std.specs.Prelude.{◌≡◌, ◌≤◌, ◌++◌, OnOk, true};
ghost use Rattle.storm_replay.specs.layers.Parts.{IsPart, part_verbs};
ghost use Rattle.storm_replay.specs.Storm.{start_verbs, arrival, arrives_at_once};
ghost use Rattle.storm_replay.specs.layers.Limits.{most_steps};
ghost use Rattle.storm_replay.specs.Storm.{arrives_late, tenth_verbs, step_verbs, end_verbs};

use pitch_fields::OutOfMemory;
use pitch_io::Line;
use pitch_text::{Session, Verb};
use venue_core::{lost, plan_command};

// A part of a storm, which each unit does in its turn. Steps count from 1.
#[derive(Clone, Copy)]
pub(crate) enum Part {
    Start,
    Step { index: u32 },
    End { steps: u32 },
}

// All bytes that wait are carried up to a server, or down to its client.
const GRP_UP: Verb = Verb::Up {
    session: Session::Grp,
    bytes: None,
};

const GRP_DOWN: Verb = Verb::Down {
    session: Session::Grp,
    bytes: None,
};

const SPIN_UP: Verb = Verb::Up {
    session: Session::Spin,
    bytes: None,
};

const SPIN_DOWN: Verb = Verb::Down {
    session: Session::Spin,
    bytes: None,
};

// Appends what a unit does at the start.
fn append_start(verbs: &mut Vec<Verb>) -> Result<(), OutOfMemory>
    ensures { OnOk result (verbs.new.items ≡ verbs.old.items ++ start_verbs) }
{
    verbs.extend_from_slice(&[Verb::Connect(Session::Grp), GRP_UP, GRP_DOWN])?;
    Ok(())
}

// Appends the arrival of a datagram, where it arrives.
fn append_arrival(
    line: Line,
    index: u32,
    arrives: bool,
    verbs: &mut Vec<Verb>,
) -> Result<(), OutOfMemory>
    ensures { OnOk result (verbs.new.items ≡ verbs.old.items ++ arrival line index arrives) }
{
    if arrives {
        verbs.extend_from_slice(&[Verb::Deliver {
            line,
            number: index,
        }])?;
    }
    Ok(())
}

// Whether a datagram arrives on line A at its own step.
fn arrives_at_once(number: u64, unit: u8, index: u32) -> bool
    ensures { result ≡ arrives_at_once number unit index }
{
    !lost(number, unit, index, 1)
}

// Whether the datagram of three steps before arrives on line B.
fn arrives_late(number: u64, unit: u8, index: u32) -> bool
    ensures { result ≡ arrives_late number unit index }
{
    index >= 4 && !lost(number, unit, index - 3, 2)
}

// Appends what a unit does besides at every tenth step.
fn append_tenth(index: u32, verbs: &mut Vec<Verb>) -> Result<(), OutOfMemory>
    ensures { OnOk result (verbs.new.items ≡ verbs.old.items ++ tenth_verbs index) }
{
    if index % 10 == 0 {
        verbs.extend_from_slice(&[Verb::Tick, GRP_UP, GRP_DOWN, Verb::Rest { line: Line::Gap }])?;
    }
    Ok(())
}

// Appends what a unit does at a step.
fn append_step(number: u64, unit: u8, index: u32, verbs: &mut Vec<Verb>) -> Result<(), OutOfMemory>
    requires { 1 ≤ index }
    ensures { OnOk result (verbs.new.items ≡ verbs.old.items ++ step_verbs number unit index) }
{
    let command = plan_command(number, unit, index);
    verbs.extend_from_slice(&[Verb::Command(command), Verb::Flush])?;
    let at_once = arrives_at_once(number, unit, index);
    append_arrival(Line::A, index, at_once, verbs)?;
    let late = arrives_late(number, unit, index);
    append_arrival(Line::B, index.saturating_sub(3), late, verbs)?;
    append_tenth(index, verbs)
}

// Appends what a unit does at the end.
fn append_end(steps: u32, verbs: &mut Vec<Verb>) -> Result<(), OutOfMemory>
    requires { steps ≤ most_steps }
    ensures { OnOk result (verbs.new.items ≡ verbs.old.items ++ end_verbs steps) }
{
    let heartbeat = Verb::Deliver {
        line: Line::A,
        number: steps + 1,
    };
    verbs.extend_from_slice(&[
        Verb::Beat,
        heartbeat,
        Verb::Cut(Session::Grp),
        Verb::Connect(Session::Spin),
        SPIN_UP,
        Verb::Advertise,
        SPIN_DOWN,
        Verb::Tick,
        SPIN_UP,
        SPIN_DOWN,
    ])?;
    Ok(())
}

// Appends what a unit does in a part. After OutOfMemory some of it may have been appended.
pub(crate) fn append_part(
    number: u64,
    unit: u8,
    part: Part,
    verbs: &mut Vec<Verb>,
) -> Result<(), OutOfMemory>
    requires { IsPart part }
    ensures { OnOk result (verbs.new.items ≡ verbs.old.items ++ part_verbs number part unit) }
{
    match part {
        Part::Start => append_start(verbs),
        Part::Step { index } => append_step(number, unit, index, verbs),
        Part::End { steps } => append_end(steps, verbs),
    }
}
