//! The units that are served, and their places.

ghost use Rattle.std.specs.Prelude.{◌≡◌, ◌&&◌, IfOk};
ghost use Rattle.live_words.specs.Options.{are_apart as are_units_apart, units_of};
ghost use Rattle.live_words.specs.Serving.{are_served as are_units_served, units_at as words_at};
ghost use Rattle.live_words.specs.Serving.{addr_of as addr_of_unit, are_among as are_units_among};
ghost use Rattle.live_words.specs.Serving.{can_serve as can_serve_units, unit_of as words_of};

use crate::listen_words::Server;
use crate::serve_words::{Places, UnitWords};
use crate::servers::{are_apart, can_ask, has_unit};
use pitch_fields::OutOfMemory;
use std::alloc::Global;
use std::net::SocketAddr;

// The most units that are served.
const MOST_SERVED: usize = 64;

// Whether units with these lines A can be served: they are 1 to 64, each once.
fn are_served(lines: &[Server]) -> bool
    ensures { result ≡ are_units_served (units_of lines.now) }
{
    !lines.is_empty() && lines.len() <= MOST_SERVED && are_apart(lines)
}

// Whether each of these places is of a unit with one of these lines A.
fn are_among(lines: &[Server], places: &[Server]) -> bool
    ensures { result ≡ are_units_among (units_of lines.now) (units_of places.now) }
{
    places.iter().all(|place| has_unit(lines, place.unit))
}

// Whether these are lines of units with one of these lines A, at most one of each.
fn can_send(lines: &[Server], others: &[Server]) -> bool
    ensures { result ≡ are_units_apart (units_of others.now)
        && are_units_among (units_of lines.now) (units_of others.now) }
{
    are_apart(others) && are_among(lines, others)
}

/// Whether these places can be served: the units are those with a line A, 1 to 64, each has at most
/// one place of a kind, and there is an account where there is a server.
pub(crate) fn can_serve(places: &Places, has_account: bool) -> bool
    ensures { result ≡ can_serve_units (units_of places.now.a.items) (units_of places.now.b.items)
        (units_of places.now.gap.items) (units_of places.now.grp.items)
        (units_of places.now.spin.items) has_account }
{
    are_served(&places.a)
        && can_send(&places.a, &places.b)
        && can_send(&places.a, &places.gap)
        && can_ask(&places.grp, &places.spin, has_account)
        && are_among(&places.a, &places.grp)
        && are_among(&places.a, &places.spin)
}

// Where the place of a unit is, if it has one.
fn addr_of(places: &[Server], unit: u8) -> Option<SocketAddr>
    ensures { result ≡ addr_of_unit places.now unit }
{
    let place = places.iter().find(|place| place.unit == unit)?;
    Some(place.addr)
}

// The unit of a line A, with its places.
fn unit_of(places: &Places, line: &Server) -> UnitWords
    ensures { result ≡ words_of places.now line.now }
{
    UnitWords {
        unit: line.unit,
        a: line.addr,
        b: addr_of(&places.b, line.unit),
        gap: addr_of(&places.gap, line.unit),
        grp: addr_of(&places.grp, line.unit),
        spin: addr_of(&places.spin, line.unit),
    }
}

/// The units that are served, in the order of their lines A.
pub(crate) fn units_at(alloc: Global, places: &Places) -> Result<Vec<UnitWords>, OutOfMemory>
    ensures { IfOk result (λ units. units.items ≡ words_at places.now) }
{
    let units = places.a.iter().map(|line| unit_of(places, line));
    Ok(units.collect(alloc)?)
}
