//! What crosses between the threads of a drill: each value keeps by its type what it says of the
//! messages of its run.

ghost use Rattle.std.specs.Prelude.{◌≡◌, ◌≤◌, length, IfOk};
ghost use Rattle.heard_items.specs.Datagrams.{IsPiece};
ghost use Rattle.venue_core.specs.Plan.{plan};
ghost use Rattle.drill_client.specs.layers.Following.{ImageParts, IsImageOf};

use crate::run::DrillRun;
use pitch_fields::OutOfMemory;
use pitch_messages::RawList;
use std::alloc::Global;
use std::marker::{Model, PhantomData};
use std::sync::ArcSlice;

/// A datagram of the run's unit, which is a piece of its feed. Its copies share their bytes.
#[derive(Drop)]
pub struct Datagram<R: DrillRun> {
    bytes: ArcSlice<u8>,
    run: PhantomData<R>,
}

impl<R: DrillRun> Model for Datagram<R> {
    ghost use Rattle.std.specs.Prelude.{ℕ, List};
    ghost use Rattle.std.specs.Arc.{arc_slice_items};
    ghost use Rattle.heard_items.specs.Datagrams.{IsPiece};
    ghost use Rattle.venue_core.specs.Plan.{plan};

    ghost Value = { List ℕ };

    ghost view = { λ d. arc_slice_items d.bytes };

    ghost invariant = { λ d. IsPiece
        (plan R.number R.unit R.count) R.unit (arc_slice_items d.bytes) };
}

impl<R: DrillRun> Datagram<R> {
    /// A datagram of these bytes, which are copied.
    pub fn of_bytes(alloc: Global, bytes: &[u8]) -> Result<Datagram<R>, OutOfMemory>
        requires { IsPiece (plan R.number R.unit R.count) R.unit bytes.now }
        ensures { IfOk result (λ datagram. datagram ≡ bytes.now) }
    {
        Ok(Datagram {
            bytes: ArcSlice::from_slice(alloc, bytes)?,
            run: PhantomData,
        })
    }

    /// The same datagram once more. It takes no memory: both share the bytes.
    pub fn again(&self) -> Result<Datagram<R>, OutOfMemory>
        ensures { IfOk result (λ datagram. datagram ≡ self.now) }
    {
        Ok(Datagram {
            bytes: self.bytes.clone()?,
            run: PhantomData,
        })
    }

    /// Its bytes.
    pub fn bytes(&self) -> &[u8]
        ensures bytes { result.now ≡ self.now }
        ensures piece { IsPiece (plan R.number R.unit R.count) R.unit self.now }
    {
        self.bytes.as_slice()
    }
}

/// An image of the run's messages through a sequence ("Spin Server").
#[derive(Drop)]
pub struct Image<R: DrillRun> {
    sequence: u32,
    orders: u32,
    raws: RawList,
    run: PhantomData<R>,
}

impl<R: DrillRun> Model for Image<R> {
    ghost use Rattle.venue_core.specs.Plan.{plan};
    ghost use Rattle.drill_client.specs.layers.Following.{ImageParts, IsImageOf, image_code};

    ghost Value = { ImageParts };

    ghost coded = { image_code };

    ghost view = { λ i. record { sequence = i.sequence; orders = i.orders; raws = i.raws.items } };

    ghost invariant = { λ i. IsImageOf (plan R.number R.unit R.count)
        (record { sequence = i.sequence; orders = i.orders; raws = i.raws.items }) };
}

impl<R: DrillRun> Image<R> {
    /// The image through a sequence, with the number of its orders.
    pub fn make(sequence: u32, orders: u32, raws: RawList) -> Image<R>
        requires { IsImageOf (plan R.number R.unit R.count)
            (record { sequence = sequence; orders = orders; raws = raws.items }) }
        ensures { result ≡ record { sequence = sequence; orders = orders; raws = raws.items } }
    {
        Image {
            sequence,
            orders,
            raws,
            run: PhantomData,
        }
    }

    /// Its sequence, the number of its orders, and its messages.
    pub fn into_parts(self) -> (u32, u32, RawList)
        ensures sequence { result.0 ≡ self.sequence }
        ensures orders { result.1 ≡ self.orders }
        ensures raws { result.2.items ≡ self.raws }
        ensures image { IsImageOf (plan R.number R.unit R.count) self }
    {
        (self.sequence, self.orders, self.raws)
    }
}

/// A sequence that the run has reached: that of one of its messages, or 0.
#[derive(Drop)]
pub struct Reached<R: DrillRun> {
    sequence: u32,
    run: PhantomData<R>,
}

impl<R: DrillRun> Model for Reached<R> {
    ghost use Rattle.std.specs.Prelude.{ℕ, ◌≤◌};

    ghost Value = { ℕ };

    ghost view = { λ r. r.sequence };

    ghost invariant = { λ r. r.sequence ≤ R.count };
}

impl<R: DrillRun> Reached<R> {
    /// A sequence that was reached.
    pub fn make(sequence: u32) -> Reached<R>
        requires { sequence ≤ R.count }
        ensures { result ≡ sequence }
    {
        Reached {
            sequence,
            run: PhantomData,
        }
    }

    /// The sequence.
    pub fn sequence(&self) -> u32
        ensures sequence { result ≡ self.now }
        ensures reached { self.now ≤ R.count }
    {
        self.sequence
    }
}
