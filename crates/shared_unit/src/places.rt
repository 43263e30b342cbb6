//! Where the places of servers come from.
ghost use Rattle.std.specs.Prelude.{◌≡◌, ◌≤◌, ℕ, [], false, IfOk, IfErr, OnOk, length};
ghost use Rattle.std.specs.List.{AllByRecursion};
ghost use Rattle.pitch_io.specs.Causes.{Rose};
ghost use Rattle.shared_unit.specs.layers.Moments.{IsNew, AreNumbered};
ghost use Rattle.shared_unit.specs.declared.places.MakeError.TheVariants.{NoPlace};

use crate::book::Opened;
use crate::desk::Desk;
use crate::run::{FixedRun, Naming};
use crate::server::Server;
use crate::writer::Writer;
use pitch_fields::OutOfMemory;
use std::alloc::{AllocError, Global};
use std::error::Error;
use std::fmt;
use std::marker::Model;
use std::sync::Wait;

/// Why a pair or a place was not made.
#[derive(Clone, Copy, Debug, PartialEq, Eq)]
pub enum MakeError {
    /// The places refused one, and their count of refusals rose.
    NoPlace,
    /// There was no memory.
    OutOfMemory,
}

impl fmt::Display for MakeError {
    fn fmt<W: fmt::Write>(&self, f: &mut fmt::Formatter<W>) -> fmt::Result {
        match self {
            MakeError::NoPlace => f.write_str("no place"),
            MakeError::OutOfMemory => f.write_str("out of memory"),
        }
    }
}

impl Error for MakeError {}

impl From<OutOfMemory> for MakeError {
    ghost use Rattle.std.specs.Prelude.{◌≡◌};
    ghost use Rattle.shared_unit.specs.declared.places.MakeError.TheVariants as errors;

    ghost from_gives = { λ _ error. error ≡ errors.OutOfMemory };

    fn from(_: OutOfMemory) -> MakeError {
        MakeError::OutOfMemory
    }
}

impl From<AllocError> for MakeError {
    ghost use Rattle.std.specs.Prelude.{◌≡◌};
    ghost use Rattle.shared_unit.specs.declared.places.MakeError.TheVariants as errors;

    ghost from_gives = { λ _ error. error ≡ errors.OutOfMemory };

    fn from(_: AllocError) -> MakeError {
        MakeError::OutOfMemory
    }
}

/// Where the places of servers come from, with a count of refusals that never falls.
pub trait Places<J: Naming, R: FixedRun, W: Wait + Drop> {
    ghost refusals: { Self → ℕ };

    /// One more server of that writer, which has seen nothing. There is no place for more servers
    /// at a time than the pair was opened for.
    fn place(&mut self, writer: &mut Writer<J, R, W>) -> Result<Server<J, R>, MakeError>
        ensures nothing { IfOk result IsNew }
        ensures same { writer.new ≡ writer.old }
        ensures later { refusals self.old ≤ refusals self.new }
        // No place comes only where the count rose in this call.
        ensures cause { IfErr result
            (λ error. error ≡ NoPlace → Rose (refusals self.old) (refusals self.new)) };
}

/// The places of `left_right`. Each refusal counts, whatever it was for; the count ends at
/// 18,446,744,073,709,551,615. Contracts see it.
#[derive(Drop)]
pub struct LeftRightPlaces {
    refused: u64,
}

impl Model for LeftRightPlaces {
    ghost use Rattle.std.specs.Prelude.{ℕ};
    ghost use Rattle.std.specs.Coded.{coded_ℕ};

    ghost Value = { ℕ };

    ghost coded = { coded_ℕ };

    ghost view = { λ p. p.refused };
}

impl LeftRightPlaces {
    /// It has refused nothing.
    pub fn make() -> LeftRightPlaces
        ensures { result ≡ 0 }
    {
        LeftRightPlaces { refused: 0 }
    }
}

impl<J: Naming, R: FixedRun, W: Wait + Drop> Places<J, R, W> for LeftRightPlaces {
    ghost refusals = { λ p. p };

    fn place(&mut self, writer: &mut Writer<J, R, W>) -> Result<Server<J, R>, MakeError> {
        match writer.place() {
            Ok(server) => Ok(server),
            Err(OutOfMemory) => {
                self.refused = self.refused.saturating_add(1);
                Err(MakeError::NoPlace)
            }
        }
    }
}

// Places of a writer for so many servers, which have seen nothing. The number of each is its place.
#[tactic(auto, using(crate::proofs::Looking::numbered_more))]
fn place_all<J: Naming, R: FixedRun, W: Wait + Drop, P: Places<J, R, W>>(
    places: &mut P,
    writer: &mut Writer<J, R, W>,
    count: u8,
    servers: &mut Vec<Server<J, R>>,
) -> Result<(), MakeError>
    requires { servers.old.items ≡ [] }
    ensures same { writer.new ≡ writer.old }
    ensures servers { OnOk result (AllByRecursion IsNew servers.new.items) }
    ensures numbers { OnOk result (AreNumbered servers.new.items) }
    ensures count { OnOk result (length servers.new.items ≡ count) }
    ensures later { P.refusals places.old ≤ P.refusals places.new }
    ensures cause { IfErr result
        (λ error. error ≡ NoPlace → Rose (P.refusals places.old) (P.refusals places.new)) }
{
    'servers: for number in 0..count {
        let server = places.place(writer)?;
        match servers.push(server.numbered(u64::from(number))) {
            Ok(()) => {}
            Err(_) => return Err(MakeError::OutOfMemory),
        }
    }
    Ok(())
}

/// The writer and as many servers as the pair was opened for, with the empty history. The error is
/// that of `places`, or OutOfMemory; nothing is handed back then.
pub fn make<J: Naming, R: FixedRun, W: Wait + Drop, P: Places<J, R, W>>(
    rt: W,
    alloc: Global,
    opened: Opened<R>,
    places: &mut P,
) -> Result<(Writer<J, R, W>, Vec<Server<J, R>>), MakeError>
    // The type parameter names the pair that was opened.
    requires book { opened.seen.book ≡ J.book }
    requires kept { opened.kept ≡ J.kept }
    ensures writer { IfOk result (λ made. made.0.history ≡ []) }
    ensures reaches { IfOk result (λ made. made.0.cut_off ≡ false) }
    ensures servers { IfOk result (λ made. AllByRecursion IsNew made.1.items) }
    // The number of each is its place.
    ensures numbers { IfOk result (λ made. AreNumbered made.1.items) }
    ensures count { IfOk result (λ made. length made.1.items ≡ opened.servers) }
    ensures later { P.refusals places.old ≤ P.refusals places.new }
    // No place comes only where the count of the places rose in this call.
    ensures cause { IfErr result
        (λ error. error ≡ NoPlace → Rose (P.refusals places.old) (P.refusals places.new)) }
{
    let (unit, count) = (opened.unit, opened.servers);
    let mut servers = Vec::new(alloc);
    let desk = Desk::open(rt, alloc, opened)?;
    let mut writer = Writer::new(alloc, desk, unit);
    match place_all(places, &mut writer, count, &mut servers) {
        Ok(()) => Ok((writer, servers)),
        Err(error) => {
            drop(writer);
            drop(servers);
            Err(error)
        }
    }
}
