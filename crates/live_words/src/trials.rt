//! What is to try a handler, in what `clap` found.

ghost use Rattle.std.specs.Prelude.{◌≡◌, ℕ, IfNone, IfOk, IfSome, MatchOption, Option, codes};
ghost use Rattle.std.specs.Prelude.{option_map, string_bytes};
ghost use Rattle.clap.specs.Matches.{found_of};
ghost use Rattle.clap.specs.Walk.{first_of, rows_of};
ghost use Rattle.pitch_words.specs.Numbers.{IsGivenOr};
ghost use Rattle.live_words.specs.Options.{texts_of};
ghost use Rattle.live_words.specs.Trials.{AreShares, IsHarm, IsPlan, IsTrial, default_rate};
ghost use Rattle.live_words.specs.Trials.{most_rate};
ghost use Rattle.live_words.specs.declared.trial_words.PlanWords.{PlanWords as PlanFor};
ghost use Rattle.live_words.specs.declared.trial_words.ShareWords.{ShareWords as SharesFor};
ghost use Rattle.live_words.specs.declared.trial_words.HarmWords.{HarmWords as HarmFor};
ghost use Rattle.live_words.specs.declared.trial_words.TrialWords.{TrialWords as TrialFor};

use crate::found::{long_or, named_in, seconds_in, text_of};
use crate::shares::shares_of;
use crate::trial_words::{HarmWords, LineShare, PlanWords, ShareWords, TrialWords};
use clap::ArgMatches;
use pitch_fields::OutOfMemory;
use pitch_words::number;
use std::alloc::Global;

// The most commands that a unit makes, and the most of them in a second; and how many there are
// where nothing is said.
const MOST_COMMANDS: u64 = 1_000_000_000;

const MOST_RATE: u64 = 1_000_000;

const DEFAULT_RATE: u32 = 1000;

// The rate of this text, or the default.
fn rate_of(text: Option<&str>) -> Option<u32>
    ensures some { IfSome result
        (IsGivenOr default_rate 1 most_rate (option_map (λ s. s.now) text.entry)) }
    ensures none { IfNone result ((n : ℕ)
        → ¬ IsGivenOr default_rate 1 most_rate (option_map (λ s. s.now) text.entry) n) }
{
    match text {
        Some(text) => match number(text, 1, MOST_RATE) {
            Some(rate) => Some(rate as u32),
            None => None,
        },
        None => Some(DEFAULT_RATE),
    }
}

// The plan of these texts: `Some(None)` where none is given, and `None` where one of them is
// missing or out of its range.
fn plan_in(
    number_text: Option<&str>,
    count_text: Option<&str>,
    rate_text: Option<&str>,
) -> Option<Option<PlanWords>>
    ensures some { IfSome result (IsPlan (option_map (λ s. s.now) number_text.entry)
        (option_map (λ s. s.now) count_text.entry) (option_map (λ s. s.now) rate_text.entry)) }
    ensures none { IfNone result ((words : Option PlanFor)
        → ¬ IsPlan (option_map (λ s. s.now) number_text.entry)
        (option_map (λ s. s.now) count_text.entry)
        (option_map (λ s. s.now) rate_text.entry) words) }
{
    match (number_text, count_text, rate_text) {
        (None, None, None) => Some(None),
        (Some(number_text), Some(count_text), rate_text) => {
            let plan_number = number(number_text, 0, u64::MAX)?;
            let count = number(count_text, 1, MOST_COMMANDS)?;
            let rate = rate_of(rate_text)?;
            Some(Some(PlanWords {
                number: plan_number,
                count: count as u32,
                rate,
            }))
        }
        _ => None,
    }
}

// The plan that is asked for: `Some(None)` where none is.
fn plan_of(matches: &ArgMatches) -> Option<Option<PlanWords>>
    ensures some { IfSome result (IsPlan (first_of (codes "plan") (rows_of (found_of matches.now)))
        (first_of (codes "count") (rows_of (found_of matches.now)))
        (first_of (codes "rate") (rows_of (found_of matches.now)))) }
    ensures none { IfNone result ((words : Option PlanFor) → ¬ IsPlan
        (first_of (codes "plan") (rows_of (found_of matches.now)))
        (first_of (codes "count") (rows_of (found_of matches.now)))
        (first_of (codes "rate") (rows_of (found_of matches.now))) words) }
{
    let plan = text_of(matches, "plan");
    let count = text_of(matches, "count");
    let rate = text_of(matches, "rate");
    plan_in(plan, count, rate)
}

// The shares that an option gives, or `None` where two are given of a line, or one of the values
// is no share.
fn shares_in(
    alloc: Global,
    matches: &ArgMatches,
    name: &str,
) -> Result<Option<ShareWords>, OutOfMemory>
    ensures { IfOk result (λ read. MatchOption read ((shares : SharesFor)
        → ¬ AreShares (texts_of name.now (rows_of (found_of matches.now))) shares)
        (AreShares (texts_of name.now (rows_of (found_of matches.now))))) }
{
    let given: Option<Vec<LineShare>> = named_in(alloc, matches, name)?;
    match given {
        Some(given) => Ok(shares_of(&given)),
        None => Ok(None),
    }
}

// The harm that is asked for, or `None` where one of the values is no value of its option.
fn harm_of(alloc: Global, matches: &ArgMatches) -> Result<Option<HarmWords>, OutOfMemory>
    ensures { IfOk result (λ answer. MatchOption answer
        ((harm : HarmFor) → ¬ IsHarm (rows_of (found_of matches.now)) harm)
        (IsHarm (rows_of (found_of matches.now)))) }
{
    let Some(number) = long_or(matches, "number", 1) else {
        return Ok(None);
    };
    let Some(cut) = seconds_in(matches, "cut", 1) else {
        return Ok(None);
    };
    let Some(lose) = shares_in(alloc, matches, "lose")? else {
        return Ok(None);
    };
    let Some(repeat) = shares_in(alloc, matches, "repeat")? else {
        return Ok(None);
    };
    let Some(swap) = shares_in(alloc, matches, "swap")? else {
        return Ok(None);
    };
    Ok(Some(HarmWords {
        number,
        lose,
        repeat,
        swap,
        cut,
    }))
}

// The name of the report's file, where one is asked for.
fn report_of(alloc: Global, matches: &ArgMatches) -> Result<Option<String>, OutOfMemory>
    ensures { IfOk result (λ name. option_map string_bytes name
        ≡ first_of (codes "report") (rows_of (found_of matches.now))) }
{
    match text_of(matches, "report") {
        Some(name) => Ok(Some(String::from_str(alloc, name)?)),
        None => Ok(None),
    }
}

/// What the options of `serve` ask for that are to try a handler, or `None` where one of them is no
/// value of its option, or they don't go together.
pub(crate) fn trial_of(
    alloc: Global,
    matches: &ArgMatches,
) -> Result<Option<TrialWords>, OutOfMemory>
    ensures { IfOk result (λ answer. MatchOption answer
        ((trial : TrialFor) → ¬ IsTrial (rows_of (found_of matches.now)) trial)
        (IsTrial (rows_of (found_of matches.now)))) }
{
    let Some(plan) = plan_of(matches) else {
        return Ok(None);
    };
    let Some(harm) = harm_of(alloc, matches)? else {
        return Ok(None);
    };
    let report = report_of(alloc, matches)?;
    Ok(Some(TrialWords { plan, harm, report }))
}
