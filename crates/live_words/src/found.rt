//! What is asked for, in what `clap` found.

ghost use Rattle.std.specs.Prelude.{◌≡◌, ℕ, ◌^◌, ◌-◌, IfNone, IfOk, IfSome, List, MatchOption};
ghost use Rattle.std.specs.Prelude.{Option, codes, map, option_map};
ghost use Rattle.clap.specs.Matches.{found_of};
ghost use Rattle.clap.specs.Walk.{all_of, first_of, rows_of};
ghost use Rattle.pitch_words.specs.Numbers.{IsGivenMaybe, IsGivenOr, IsNumber};
ghost use Rattle.session_ends.specs.declared.account.Account.{Account as AccountOf};
ghost use Rattle.live_words.specs.Options.{AreNamed, IsAccount, texts_of};
ghost use Rattle.live_words.specs.Asked.{AreAsked, AreLines, AreServers};
ghost use Rattle.live_words.specs.declared.listen_words.LineWords.{LineWords as LinesFor};
ghost use Rattle.live_words.specs.declared.listen_words.ServerWords.{ServerWords as ServersFor};
ghost use Rattle.live_words.specs.declared.listen_words.ListenWords.{ListenWords as AskedFor};

use crate::listen_words::{LineWords, ListenWords, ServerWords};
use crate::named::Named;
use crate::servers::{account_of, can_ask};
use clap::ArgMatches;
use pitch_fields::OutOfMemory;
use pitch_text::DEFAULT_HOLD;
use pitch_words::number;
use session_ends::Account;
use std::alloc::Global;

// What the texts name, or `None` where one names nothing.
fn all_named<T: Named>(alloc: Global, texts: &[&str]) -> Result<Option<Vec<T>>, OutOfMemory>
    ensures { IfOk result (λ read. MatchOption read
        ((values : List T) → ¬ AreNamed T.names (map (λ t. t.now) texts.now) values)
        (λ values. AreNamed T.names (map (λ t. t.now) texts.now) values.items)) }
{
    let mut values = Vec::new(alloc);
    for text in texts {
        let Some(value) = T::named_by(text) else {
            return Ok(None);
        };
        values.push(value)?;
    }
    Ok(Some(values))
}

// What an option names that may be given several times.
#[tactic(auto, using(crate::proofs::Rows::all_is))]
pub(crate) fn named_in<T: Named>(
    alloc: Global,
    matches: &ArgMatches,
    name: &str,
) -> Result<Option<Vec<T>>, OutOfMemory>
    ensures { IfOk result (λ read. MatchOption read
        ((values : List T)
        → ¬ AreNamed T.names (texts_of name.now (rows_of (found_of matches.now))) values)
        (λ values. AreNamed T.names
        (texts_of name.now (rows_of (found_of matches.now))) values.items)) }
{
    match matches.get_strs(name) {
        Some(texts) => all_named(alloc, texts),
        None => Ok(Some(Vec::new(alloc))),
    }
}

// The text of an option's value.
#[tactic(auto, using(crate::proofs::Rows::first_is))]
pub(crate) fn text_of<'a>(matches: &ArgMatches<'a>, name: &str) -> Option<&'a str>
    ensures { option_map (λ s. s.now) result ≡ first_of name.now (rows_of (found_of matches.now)) }
{
    matches.get_str(name)
}

// The number of an option that may be left out, and is its default then: 1 to `most`.
pub(crate) fn number_or(matches: &ArgMatches, name: &str, default: u32, most: u32) -> Option<u32>
    ensures some { IfSome result (λ n. IsGivenOr default 1 most
        (first_of name.now (rows_of (found_of matches.now))) n) }
    ensures none { IfNone result ((n : ℕ) → ¬ IsGivenOr default 1 most
        (first_of name.now (rows_of (found_of matches.now))) n) }
{
    match text_of(matches, name) {
        Some(text) => match number(text, 1, u64::from(most)) {
            Some(n) => Some(n as u32),
            None => None,
        },
        None => Some(default),
    }
}

// The number of an option that may be left out, and is its default then.
pub(crate) fn long_or(matches: &ArgMatches, name: &str, default: u64) -> Option<u64>
    ensures some { IfSome result (λ n. IsGivenOr default 0 (2 ^ 64 - 1)
        (first_of name.now (rows_of (found_of matches.now))) n) }
    ensures none { IfNone result ((n : ℕ) → ¬ IsGivenOr default 0 (2 ^ 64 - 1)
        (first_of name.now (rows_of (found_of matches.now))) n) }
{
    match text_of(matches, name) {
        Some(text) => number(text, 0, u64::MAX),
        None => Some(default),
    }
}

// The seconds of an option, `least` or more: `Some(None)` where it is left out.
pub(crate) fn seconds_in(matches: &ArgMatches, name: &str, least: u64) -> Option<Option<u64>>
    ensures some { IfSome result (λ n. IsGivenMaybe least (2 ^ 64 - 1)
        (first_of name.now (rows_of (found_of matches.now))) n) }
    ensures none { IfNone result ((n : Option ℕ) → ¬ IsGivenMaybe least (2 ^ 64 - 1)
        (first_of name.now (rows_of (found_of matches.now))) n) }
{
    match text_of(matches, name) {
        Some(text) => match number(text, least, u64::MAX) {
            Some(seconds) => Some(Some(seconds)),
            None => None,
        },
        None => Some(None),
    }
}

// The lines that are asked for, or `None` where there is none, or one of the values is no value of
// its option.
fn lines_of(alloc: Global, matches: &ArgMatches) -> Result<Option<LineWords>, OutOfMemory>
    ensures { IfOk result (λ answer. MatchOption answer
        ((lines : LinesFor) → ¬ AreLines (rows_of (found_of matches.now)) lines)
        (AreLines (rows_of (found_of matches.now)))) }
{
    let Some(a) = named_in(alloc, matches, "a")? else {
        return Ok(None);
    };
    let Some(b) = named_in(alloc, matches, "b")? else {
        return Ok(None);
    };
    let Some(gap) = named_in(alloc, matches, "gap")? else {
        return Ok(None);
    };
    let Some(from) = named_in(alloc, matches, "from")? else {
        return Ok(None);
    };
    if a.is_empty() && b.is_empty() && gap.is_empty() {
        return Ok(None);
    }
    Ok(Some(LineWords { a, b, gap, from }))
}

// The account that is asked for: `Some(None)` where none is.
pub(crate) fn account_in(matches: &ArgMatches) -> Option<Option<Account>>
    ensures some { IfSome result (IsAccount (first_of (codes "sub") (rows_of (found_of
        matches.now))) (first_of (codes "user") (rows_of (found_of matches.now)))
        (first_of (codes "password") (rows_of (found_of matches.now)))) }
    ensures none { IfNone result ((account : Option AccountOf) → ¬ IsAccount (first_of
        (codes "sub") (rows_of (found_of matches.now)))
        (first_of (codes "user") (rows_of (found_of matches.now)))
        (first_of (codes "password") (rows_of (found_of matches.now))) account) }
{
    let sub = text_of(matches, "sub");
    let user = text_of(matches, "user");
    let password = text_of(matches, "password");
    account_of(sub, user, password)
}

// The servers that are asked for, or `None` where they can't be asked, or one of the values is no
// value of its option.
fn servers_of(alloc: Global, matches: &ArgMatches) -> Result<Option<ServerWords>, OutOfMemory>
    ensures { IfOk result (λ answer. MatchOption answer
        ((servers : ServersFor) → ¬ AreServers (rows_of (found_of matches.now)) servers)
        (AreServers (rows_of (found_of matches.now)))) }
{
    let Some(account) = account_in(matches) else {
        return Ok(None);
    };
    let Some(grp) = named_in(alloc, matches, "grp")? else {
        return Ok(None);
    };
    let Some(spin) = named_in(alloc, matches, "spin")? else {
        return Ok(None);
    };
    if !can_ask(&grp, &spin, account.is_some()) {
        return Ok(None);
    }
    Ok(Some(ServerWords { grp, spin, account }))
}

// What the options of `listen` ask for, or `None` where one of them is no value of its option, or
// they don't go together.
pub(crate) fn listen_of(
    alloc: Global,
    matches: &ArgMatches,
) -> Result<Option<ListenWords>, OutOfMemory>
    ensures { IfOk result (λ answer. MatchOption answer
        ((asked : AskedFor) → ¬ AreAsked (rows_of (found_of matches.now)) asked)
        (AreAsked (rows_of (found_of matches.now)))) }
{
    let Some(hold) = number_or(matches, "hold", DEFAULT_HOLD, 65_536) else {
        return Ok(None);
    };
    let Some(seconds) = seconds_in(matches, "seconds", 0) else {
        return Ok(None);
    };
    let Some(lines) = lines_of(alloc, matches)? else {
        return Ok(None);
    };
    let Some(units) = named_in(alloc, matches, "unit")? else {
        return Ok(None);
    };
    let Some(servers) = servers_of(alloc, matches)? else {
        return Ok(None);
    };
    Ok(Some(ListenWords {
        lines,
        units,
        servers,
        hold,
        seconds,
    }))
}
