//! The form in what `clap` found.
ghost use Rattle.std.specs.Prelude.{◌≡◌, ℕ, ◌≤◌, IfNone, IfSome, MatchOption, Option, Some, codes};
ghost use Rattle.std.specs.Prelude.{option_map};
ghost use Rattle.clap.specs.Matches.{found_of};
ghost use Rattle.clap.specs.Simple.{subcommand_rows_of};
ghost use Rattle.clap.specs.Walk.{first_of, rows_of};
ghost use Rattle.long_options.specs.layers.Finding.{is_set};
ghost use Rattle.pitch_fields.specs.Limits.{most_held};
ghost use Rattle.pitch_text.specs.Defaults.{default_hold};
ghost use Rattle.pitch_words.specs.Forms.{IsCarried};
ghost use Rattle.pitch_words.specs.Numbers.{IsGivenNumber, IsGivenOr, IsGivenMaybe};
ghost use Rattle.pitch_words.specs.layers.Commands.{HasForm, carried_by};
ghost use Rattle.pitch_words.specs.declared.form.Carried.{Carried};
ghost use Rattle.pitch_words.specs.declared.form.Carried.TheVariants.{Bare};
ghost use Rattle.pitch_words.specs.declared.form.Form.{Form};
ghost use Rattle.pitch_words.specs.declared.form.Form.TheVariants.{Stream};

use crate::digits::number;
use crate::form::{Carried, Form, StreamWords, TextWords};
use clap::ArgMatches;
use pitch_fields::MOST_HELD;
use pitch_text::DEFAULT_HOLD;

// The text of an option's value.
#[tactic(auto, using(crate::proofs::Rows::first_is))]
fn text_of<'a>(matches: &ArgMatches<'a>, name: &str) -> Option<&'a str>
    ensures { option_map (λ s. s.now) result ≡ first_of name.now (rows_of (found_of matches.now)) }
{
    matches.get_str(name)
}

// The number of an option that must be given.
fn given(matches: &ArgMatches, name: &str, least: u64, most: u64) -> Option<u64>
    ensures some { IfSome result
        (λ n. IsGivenNumber least most (first_of name.now (rows_of (found_of matches.now))) n) }
    ensures none { IfNone result ((n : ℕ)
        → ¬ IsGivenNumber least most (first_of name.now (rows_of (found_of matches.now))) n) }
    ensures range { IfSome result (λ n. (least ≤ n) × (n ≤ most)) }
{
    number(text_of(matches, name)?, least, most)
}

// The number of an option that may be left out, and has a default then.
fn given_or(matches: &ArgMatches, name: &str, default: u64, least: u64, most: u64) -> Option<u64>
    requires default_in_range { least ≤ default × default ≤ most }
    ensures some { IfSome result
        (λ n. IsGivenOr default least most (first_of name.now (rows_of (found_of matches.now))) n) }
    ensures none { IfNone result ((n : ℕ)
        → ¬ IsGivenOr default least most (first_of name.now (rows_of (found_of matches.now))) n) }
    ensures range { IfSome result (λ n. (least ≤ n) × (n ≤ most)) }
{
    match text_of(matches, name) {
        Some(text) => number(text, least, most),
        None => Some(default),
    }
}

// The number of an option that may be left out: `Some(None)` where it was, None where its value is
// no number of the range.
fn given_maybe(matches: &ArgMatches, name: &str, least: u64, most: u64) -> Option<Option<u64>>
    ensures some { IfSome result
        (λ n. IsGivenMaybe least most (first_of name.now (rows_of (found_of matches.now))) n) }
    ensures none { IfNone result ((n : Option ℕ)
        → ¬ IsGivenMaybe least most (first_of name.now (rows_of (found_of matches.now))) n) }
    ensures range { IfSome result (λ n. IfSome n (λ m. m ≤ most)) }
{
    match text_of(matches, name) {
        Some(text) => match number(text, least, most) {
            Some(n) => Some(Some(n)),
            None => None,
        },
        None => Some(None),
    }
}

// Whether an option without a value was given.
fn is_given(matches: &ArgMatches, name: &str) -> bool
    ensures { result ≡ is_set (first_of name.now (rows_of (found_of matches.now))) }
{
    match text_of(matches, name) {
        Some(text) => text == "true",
        None => false,
    }
}

// What carries a stream: a port is given only for a capture.
fn carried_by(pcap: bool, port: Option<u16>) -> Option<Carried>
    ensures { result ≡ carried_by pcap port }
{
    if pcap {
        return Some(Carried::Capture { port });
    }
    match port {
        Some(_) => None,
        None => Some(Carried::Bare),
    }
}

// A port of 16 bits, if there is one.
fn as_port(port: Option<u64>) -> Option<u16>
    requires { IfSome port (λ p. p ≤ 65535) }
    ensures { result ≡ port }
{
    match port {
        Some(port) => Some(port as u16),
        None => None,
    }
}

// What carries the stream of a command that has `--pcap [--port P]`.
fn carried(matches: &ArgMatches) -> Option<Carried>
    ensures { MatchOption result
        ((carried : Carried) → ¬ IsCarried (is_set (first_of (codes "pcap") (rows_of (found_of
        matches.now)))) (first_of (codes "port") (rows_of (found_of matches.now))) carried)
        (IsCarried (is_set (first_of (codes "pcap") (rows_of (found_of matches.now))))
        (first_of (codes "port") (rows_of (found_of matches.now)))) }
{
    let port = given_maybe(matches, "port", 0, 65535)?;
    carried_by(is_given(matches, "pcap"), as_port(port))
}

// How many messages a hold has room for: `[--hold H]`.
fn hold(matches: &ArgMatches) -> Option<u32>
    ensures some { IfSome result (λ n. IsGivenOr default_hold 1 most_held
        (first_of (codes "hold") (rows_of (found_of matches.now))) n) }
    ensures none { IfNone result ((n : ℕ) → ¬ IsGivenOr default_hold 1 most_held
        (first_of (codes "hold") (rows_of (found_of matches.now))) n) }
{
    let hold = given_or(
        matches,
        "hold",
        u64::from(DEFAULT_HOLD),
        1,
        u64::from(MOST_HELD),
    )?;
    Some(hold as u32)
}

// `follow [--pcap [--port P]] [--hold H]`
fn follow(matches: &ArgMatches) -> Option<Form>
    ensures form { MatchOption result
        ((form : Form) → ¬ HasForm (Some (codes "follow", rows_of (found_of matches.now))) form)
        (HasForm (Some (codes "follow", rows_of (found_of matches.now)))) }
{
    let carried = carried(matches)?;
    let hold = hold(matches)?;
    let form = StreamWords::Follow { hold };
    Some(Form::Stream { carried, form })
}

// What is printed of a stream that nothing carries.
fn bare(form: StreamWords) -> Form
    ensures { result ≡ Stream Bare form }
{
    let carried = Carried::Bare;
    Form::Stream { carried, form }
}

// `pack --unit U`
fn pack(matches: &ArgMatches) -> Option<Form>
    ensures form { MatchOption result
        ((form : Form) → ¬ HasForm (Some (codes "pack", rows_of (found_of matches.now))) form)
        (HasForm (Some (codes "pack", rows_of (found_of matches.now)))) }
{
    let unit = given(matches, "unit", 1, 255)?;
    let unit = unit as u8;
    Some(Form::Text(TextWords::Pack { unit }))
}

// `replay [--workers K]`
fn replay(matches: &ArgMatches) -> Option<Form>
    ensures form { MatchOption result
        ((form : Form) → ¬ HasForm (Some (codes "replay", rows_of (found_of matches.now))) form)
        (HasForm (Some (codes "replay", rows_of (found_of matches.now)))) }
{
    let workers = given_or(matches, "workers", 1, 1, 64)?;
    let workers = workers as u8;
    Some(Form::Text(TextWords::Replay { workers }))
}

// `storm --number S --units N --steps M [--workers K]`
fn storm(matches: &ArgMatches) -> Option<Form>
    ensures form { MatchOption result
        ((form : Form) → ¬ HasForm (Some (codes "storm", rows_of (found_of matches.now))) form)
        (HasForm (Some (codes "storm", rows_of (found_of matches.now)))) }
{
    let number = given(matches, "number", 0, u64::MAX)?;
    let units = given(matches, "units", 1, 16)?;
    let steps = given(matches, "steps", 1, 10_000)?;
    let workers = given_or(matches, "workers", 1, 1, 64)?;
    Some(Form::Storm {
        number,
        units: units as u8,
        steps: steps as u32,
        workers: workers as u8,
    })
}

// `drill --number S --units N --count C`
fn drill(matches: &ArgMatches) -> Option<Form>
    ensures form { MatchOption result
        ((form : Form) → ¬ HasForm (Some (codes "drill", rows_of (found_of matches.now))) form)
        (HasForm (Some (codes "drill", rows_of (found_of matches.now)))) }
{
    let number = given(matches, "number", 0, u64::MAX)?;
    let units = given(matches, "units", 1, 16)?;
    let count = given(matches, "count", 1, 100_000)?;
    Some(Form::Drill {
        number,
        units: units as u8,
        count: count as u32,
    })
}

// `demo --number S --count C`
fn demo(matches: &ArgMatches) -> Option<Form>
    ensures form { MatchOption result
        ((form : Form) → ¬ HasForm (Some (codes "demo", rows_of (found_of matches.now))) form)
        (HasForm (Some (codes "demo", rows_of (found_of matches.now)))) }
{
    let number = given(matches, "number", 0, u64::MAX)?;
    let count = given(matches, "count", 1, 1000)?;
    Some(Form::Demo {
        number,
        count: count as u32,
    })
}

// `relay [--hold H]`
fn relay(matches: &ArgMatches) -> Option<Form>
    ensures form { MatchOption result
        ((form : Form) → ¬ HasForm (Some (codes "relay", rows_of (found_of matches.now))) form)
        (HasForm (Some (codes "relay", rows_of (found_of matches.now)))) }
{
    let hold = hold(matches)?;
    Some(bare(StreamWords::Relay { hold }))
}

// `quotes [--hold H]`
fn quotes(matches: &ArgMatches) -> Option<Form>
    ensures form { MatchOption result
        ((form : Form) → ¬ HasForm (Some (codes "quotes", rows_of (found_of matches.now))) form)
        (HasForm (Some (codes "quotes", rows_of (found_of matches.now)))) }
{
    let hold = hold(matches)?;
    Some(bare(StreamWords::Quotes { hold }))
}

// The form of the command of this name.
fn form_in(name: &str, matches: &ArgMatches) -> Option<Form>
    ensures form { MatchOption result ((form : Form) → ¬ HasForm (Some (
      name.now,
      rows_of
          (found_of matches.now),
    )) form) (HasForm (Some (name.now, rows_of (found_of matches.now)))) }
{
    match name {
        "follow" => follow(matches),
        "show" => Some(bare(StreamWords::Show)),
        "pack" => pack(matches),
        "replay" => replay(matches),
        "storm" => storm(matches),
        "drill" => drill(matches),
        "demo" => demo(matches),
        "relay" => relay(matches),
        "quotes" => quotes(matches),
        "audit" => Some(Form::Audit),
        _ => None,
    }
}

// The form that `clap`'s matches have, if they have one.
pub(crate) fn form_of(matches: &ArgMatches) -> Option<Form>
    ensures form { MatchOption result ((form : Form) → ¬ HasForm
        (subcommand_rows_of matches.now) form) (HasForm (subcommand_rows_of matches.now)) }
{
    let (name, inner) = matches.subcommand()?;
    form_in(name, inner)
}
