//! What a run of `serve` is made with.

ghost use Rattle.std.specs.Prelude.{◌≡◌, ◌≤◌, ◌<◌, ◌++◌, IfOk, IfSome, IsTrue, OnOk, length};
ghost use Rattle.std.specs.Prelude.{◌↔◌};
ghost use Rattle.std.specs.Option.{IsSome};
ghost use Rattle.live_setups.specs.Serving.{CanBeServed, CanPlan, doors_of, harm_of, lines_of};
ghost use Rattle.live_setups.specs.Serving.{numbers_of, plan_of, setup_of, setups_of, shares_of};
ghost use Rattle.live_setups.specs.Serving.{time_of, unit_doors, unit_lines};

use crate::account::account_or_nobodys;
use harmed_venue::{Harm, Shares};
use live_venue::ServeSetup;
use live_words::{HarmWords, PlanWords, ServeWords, ShareWords, UnitWords};
use std::alloc::{AllocError, Global};
use std::net::SocketAddr;
use venue_end::VenueSetup;
use venue_plan::PlanText;
use venue_sockets::RunTime;
use venue_units::UNIT_PLACES;

// The most commands that a plan makes for a unit, and the lines of a unit.
const MOST_MADE: u32 = 1_000_000_000;

const UNIT_LINES: u16 = 3;

/// What a run of `serve` is made with.
#[derive(Drop)]
pub struct ServeRun {
    /// With what each unit is served, by the units' indexes.
    pub setup: ServeSetup,
    /// The numbers of the units, by their indexes.
    pub units: Vec<u8>,
    /// Where the lines lead, by their numbers: those of the unit at an index i are its line A, 3 i,
    /// its line B, 3 i + 1, and its gap line, 3 i + 2. One that no word names leads nowhere.
    pub lines: Vec<Option<SocketAddr>>,
    /// Where the doors are, by their numbers: those of the unit at an index i are its proxy's, 2 i,
    /// and its Spin Server's, 2 i + 1. One that no word names is nowhere.
    pub doors: Vec<Option<SocketAddr>>,
    /// The commands that the venue makes itself, where it does; else they come by its input.
    pub plan: Option<PlanText>,
    /// What is done to its datagrams and to its clients' connections.
    pub harm: Harm,
    /// How long it goes on.
    pub time: RunTime,
}

// With what a unit is served.
fn served_with(asked: &ServeWords, words: &UnitWords) -> VenueSetup
    ensures { result ≡ setup_of asked.now words.now }
{
    VenueSetup {
        unit: words.unit,
        account: account_or_nobodys(asked.account),
        kept: asked.kept,
        second: asked.second,
        minute: asked.minute,
        day: asked.day,
    }
}

// With what each unit is served.
fn setup_by_index(alloc: Global, asked: &ServeWords) -> Result<Vec<VenueSetup>, AllocError>
    ensures { IfOk result (λ setups. setups.items ≡ setups_of asked.now) }
{
    let setups = asked.units.iter().map(|words| served_with(asked, words));
    setups.collect(alloc)
}

// The numbers of the units.
fn numbers_by_index(alloc: Global, units: &[UnitWords]) -> Result<Vec<u8>, AllocError>
    ensures { IfOk result (λ numbers. numbers.items ≡ numbers_of units.now) }
{
    units.iter().map(|words| words.unit).collect(alloc)
}

// Adds where the lines of a unit lead.
fn add_lines(lines: &mut Vec<Option<SocketAddr>>, words: &UnitWords) -> Result<(), AllocError>
    ensures { OnOk result (lines.new.items ≡ lines.old.items ++ unit_lines words.now) }
{
    lines.extend_from_slice(&[Some(words.a), words.b, words.gap])
}

// Where the lines of all units lead.
fn lines_by_number(
    alloc: Global,
    units: &[UnitWords],
) -> Result<Vec<Option<SocketAddr>>, AllocError>
    ensures { IfOk result (λ lines. lines.items ≡ lines_of units.now) }
{
    let mut lines = Vec::new(alloc);
    'units: for words in units {
        add_lines(&mut lines, words)?;
    }
    Ok(lines)
}

// Adds where the doors of a unit are.
fn add_doors(doors: &mut Vec<Option<SocketAddr>>, words: &UnitWords) -> Result<(), AllocError>
    ensures { OnOk result (doors.new.items ≡ doors.old.items ++ unit_doors words.now) }
{
    doors.extend_from_slice(&[words.grp, words.spin])
}

// Where the doors of all units are.
fn doors_by_number(
    alloc: Global,
    units: &[UnitWords],
) -> Result<Vec<Option<SocketAddr>>, AllocError>
    ensures { IfOk result (λ doors. doors.items ≡ doors_of units.now) }
{
    let mut doors = Vec::new(alloc);
    'units: for words in units {
        add_doors(&mut doors, words)?;
    }
    Ok(doors)
}

// The shares of the lines.
fn shares_in(words: ShareWords) -> Shares
    ensures { result ≡ shares_of words }
{
    Shares {
        a: words.a,
        b: words.b,
        gap: words.gap,
    }
}

// What is done to the datagrams and connections of so many units.
fn harm_to(words: &HarmWords, units: u16) -> Harm
    requires { units ≤ 64 }
    ensures { result ≡ harm_of words.now units }
{
    Harm {
        number: words.number,
        lose: shares_in(words.lose),
        repeat: shares_in(words.repeat),
        swap: shares_in(words.swap),
        cut: words.cut,
        lines: UNIT_LINES * units,
        places: UNIT_PLACES * units,
    }
}

// Whether a venue of so many units makes a plan's commands, where one is asked for.
fn has_plan(plan: Option<PlanWords>, units: usize) -> bool
    ensures { IsTrue result ↔ CanPlan units plan }
{
    match plan {
        Some(plan) => units > 0 && plan.count <= MOST_MADE,
        None => true,
    }
}

// The commands that the venue makes itself, where it does.
fn plan_by_words(alloc: Global, asked: &ServeWords) -> Result<Option<PlanText>, AllocError>
    requires few { length asked.now.units.items ≤ 64 }
    requires plan { CanPlan (length asked.now.units.items) asked.now.trial.plan }
    ensures { IfOk result (λ plan. plan ≡ plan_of asked.now) }
{
    let Some(words) = asked.trial.plan else {
        return Ok(None);
    };
    let units = numbers_by_index(alloc, &asked.units)?;
    let text = PlanText::make(alloc, words.number, units, words.count, words.rate);
    Ok(Some(text))
}

// How long a run goes on.
fn time_by_words(asked: &ServeWords) -> RunTime
    ensures { result ≡ time_of asked.now }
{
    RunTime {
        seconds: asked.seconds,
        after: asked.after,
    }
}

// With what the units are served, where they can be.
fn setup_by_words(alloc: Global, asked: &ServeWords) -> Result<Option<ServeSetup>, AllocError>
    ensures setup { IfOk result (λ made. IfSome made (λ setup. setup ≡ setups_of asked.now)) }
    ensures few { IfOk result
        (λ made. IfSome made (λ setup. length asked.now.units.items ≤ 64)) }
    ensures plan { IfOk result (λ made. IfSome made
        (λ setup. CanPlan (length asked.now.units.items) asked.now.trial.plan)) }
    ensures some { IfOk result (λ made. CanBeServed asked.now → IsSome made) }
{
    let setups = setup_by_index(alloc, asked)?;
    let setup = ServeSetup::make(setups);
    if !has_plan(asked.trial.plan, asked.units.len()) {
        drop(setup);
        return Ok(None);
    }
    Ok(setup)
}

/// What a run is made with that serves what the words ask for. `None` only where there are more
/// than 64 units, a proxy keeps no message or more than 65,536, or a plan has no unit or more than
/// 1,000,000,000 commands for one: the words ask for none of these.
///
/// The one error is want of memory.
pub fn serve_run(alloc: Global, asked: &ServeWords) -> Result<Option<ServeRun>, AllocError>
    ensures setup { IfOk result
        (λ made. IfSome made (λ run. run.setup ≡ setups_of asked.now)) }
    ensures units { IfOk result
        (λ made. IfSome made (λ run. run.units.items ≡ numbers_of asked.now.units.items)) }
    ensures lines { IfOk result
        (λ made. IfSome made (λ run. run.lines.items ≡ lines_of asked.now.units.items)) }
    ensures doors { IfOk result
        (λ made. IfSome made (λ run. run.doors.items ≡ doors_of asked.now.units.items)) }
    ensures plan { IfOk result
        (λ made. IfSome made (λ run. run.plan ≡ plan_of asked.now)) }
    ensures harm { IfOk result (λ made. IfSome made
        (λ run. run.harm ≡ harm_of asked.now.trial.harm (length asked.now.units.items))) }
    ensures time { IfOk result
        (λ made. IfSome made (λ run. run.time ≡ time_of asked.now)) }
    ensures some { IfOk result (λ made. CanBeServed asked.now → IsSome made) }
{
    let setup = match setup_by_words(alloc, asked)? {
        Some(setup) => setup,
        None => return Ok(None),
    };
    let harm = harm_to(&asked.trial.harm, asked.units.len() as u16);
    Ok(Some(ServeRun {
        setup,
        units: numbers_by_index(alloc, &asked.units)?,
        lines: lines_by_number(alloc, &asked.units)?,
        doors: doors_by_number(alloc, &asked.units)?,
        plan: plan_by_words(alloc, asked)?,
        harm,
        time: time_by_words(asked),
    }))
}
