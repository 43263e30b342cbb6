//! What `serve` is asked for, in what `clap` found.

ghost use Rattle.std.specs.Prelude.{IfOk, List, MatchOption};
ghost use Rattle.clap.specs.Matches.{found_of};
ghost use Rattle.clap.specs.Walk.{rows_of};
ghost use Rattle.live_words.specs.Serving.{ArePlaces, AreServed, AreUnits};
ghost use Rattle.live_words.specs.declared.serve_words.Places.{Places as PlacesFor};
ghost use Rattle.live_words.specs.declared.serve_words.UnitWords.{UnitWords as UnitFor};
ghost use Rattle.live_words.specs.declared.serve_words.ServeWords.{ServeWords as AskedFor};

use crate::found::{account_in, named_in, number_or, seconds_in};
use crate::serve_words::{Places, ServeWords, UnitWords};
use crate::trials::trial_of;
use crate::venue::{can_serve, units_at};
use clap::ArgMatches;
use pitch_fields::OutOfMemory;
use pitch_text::{DEFAULT_DAY, DEFAULT_KEPT, DEFAULT_MINUTE, DEFAULT_SECOND};
use std::alloc::Global;

// The most messages that a proxy keeps, and the most requests that it may accept in a time.
const MOST_KEPT: u32 = 65_536;

const MOST_ACCEPTED: u32 = 1_000_000;

// The places that the options name, or `None` where one of the values names none.
fn places_of(alloc: Global, matches: &ArgMatches) -> Result<Option<Places>, OutOfMemory>
    ensures { IfOk result (λ answer. MatchOption answer
        ((places : PlacesFor) → ¬ ArePlaces (rows_of (found_of matches.now)) places)
        (ArePlaces (rows_of (found_of matches.now)))) }
{
    let Some(a) = named_in(alloc, matches, "a")? else {
        return Ok(None);
    };
    let Some(b) = named_in(alloc, matches, "b")? else {
        return Ok(None);
    };
    let Some(gap) = named_in(alloc, matches, "gap")? else {
        return Ok(None);
    };
    let Some(grp) = named_in(alloc, matches, "grp")? else {
        return Ok(None);
    };
    let Some(spin) = named_in(alloc, matches, "spin")? else {
        return Ok(None);
    };
    Ok(Some(Places {
        a,
        b,
        gap,
        grp,
        spin,
    }))
}

// The units that the options name, or `None` where their places can't be served, or one of the
// values names no place.
fn units_of(
    alloc: Global,
    matches: &ArgMatches,
    has_account: bool,
) -> Result<Option<Vec<UnitWords>>, OutOfMemory>
    ensures { IfOk result (λ answer. MatchOption answer
        ((units : List UnitFor) → ¬ AreUnits (rows_of (found_of matches.now)) has_account units)
        (λ units. AreUnits (rows_of (found_of matches.now)) has_account units.items)) }
{
    let Some(places) = places_of(alloc, matches)? else {
        return Ok(None);
    };
    if !can_serve(&places, has_account) {
        return Ok(None);
    }
    let units = units_at(alloc, &places)?;
    Ok(Some(units))
}

/// What the options of `serve` ask for, or `None` where one of them is no value of its option, or
/// they don't go together.
pub(crate) fn serve_of(
    alloc: Global,
    matches: &ArgMatches,
) -> Result<Option<ServeWords>, OutOfMemory>
    ensures { IfOk result (λ answer. MatchOption answer
        ((asked : AskedFor) → ¬ AreServed (rows_of (found_of matches.now)) asked)
        (AreServed (rows_of (found_of matches.now)))) }
{
    let Some(kept) = number_or(matches, "kept", DEFAULT_KEPT, MOST_KEPT) else {
        return Ok(None);
    };
    let Some(second) = number_or(matches, "second", DEFAULT_SECOND, MOST_ACCEPTED) else {
        return Ok(None);
    };
    let Some(minute) = number_or(matches, "minute", DEFAULT_MINUTE, MOST_ACCEPTED) else {
        return Ok(None);
    };
    let Some(day) = number_or(matches, "day", DEFAULT_DAY, MOST_ACCEPTED) else {
        return Ok(None);
    };
    let Some(seconds) = seconds_in(matches, "seconds", 0) else {
        return Ok(None);
    };
    let Some(after) = seconds_in(matches, "after", 0) else {
        return Ok(None);
    };
    let Some(account) = account_in(matches) else {
        return Ok(None);
    };
    let Some(units) = units_of(alloc, matches, account.is_some())? else {
        return Ok(None);
    };
    let Some(trial) = trial_of(alloc, matches)? else {
        return Ok(None);
    };
    Ok(Some(ServeWords {
        units,
        account,
        kept,
        second,
        minute,
        day,
        seconds,
        after,
        trial,
    }))
}
