//! A table with a place for each of the 256 units that a header can name.

ghost use Rattle.std.specs.Prelude.{◌≡◌, ℕ, Option, Some, None, IfOk, length, slice_get};
ghost use Rattle.std.specs.Borrow.{sem};
ghost use Rattle.unit_clients.specs.layers.Lending.{LendsPlace};
ghost use Rattle.unit_clients.specs.Tables.{AtEach};

use pitch_fields::{HoldLimit, OutOfMemory};
use std::alloc::Global;
use std::marker::Model;
use unit_packets::BlockView;

// The number of units that a header can name.
const UNITS: usize = 256;

/// A place for each unit that a header can name, which is empty or has what is kept for the unit:
/// its client, say. Each of these holds at most so many messages that came too early.
#[derive(Drop)]
pub struct UnitTable<T> {
    limit: HoldLimit,
    places: Vec<Option<T>>,
}

impl<T> Model for UnitTable<T> {
    ghost use Rattle.std.specs.Prelude.{◌≡◌, length};
    ghost use Rattle.unit_clients.specs.Tables.{UnitTable, table_code};

    ghost Value = { UnitTable T };

    ghost coded = { table_code T.code };

    ghost view = { λ t. record { limit = t.limit; places = t.places.items } };

    ghost invariant = { λ t. length t.places.items ≡ 256 };
}

// A place for each unit, all of them empty.
fn empty_places<T: Drop>(alloc: Global) -> Result<Vec<Option<T>>, OutOfMemory>
    ensures many { IfOk result (λ places. length places.items ≡ 256) }
    ensures none { IfOk result (λ places. (unit : ℕ) (place : Option T)
        → slice_get places.items unit ≡ Some place → place ≡ None) }
{
    let mut places = Vec::with_capacity(alloc, UNITS)?;
    for _ in 0..UNITS {
        places.push(None)?;
    }
    Ok(places)
}

impl<T> UnitTable<T> {
    /// All places are empty. What comes there will hold at most `limit` messages.
    pub fn make(alloc: Global, limit: HoldLimit) -> Result<UnitTable<T>, OutOfMemory>
    where
        T: Drop,
        ensures limit { IfOk result (λ table. table.limit ≡ limit) }
        ensures none { IfOk result (λ table. AtEach (λ unit place. place ≡ None) table.places) }
    {
        let places = empty_places(alloc)?;
        Ok(UnitTable { limit, places })
    }

    /// How many messages each of those in the places holds at most.
    #[inline]
    pub fn limit(&self) -> HoldLimit
        ensures value { result ≡ self.now.limit }
    {
        self.limit
    }

    /// The place of each unit, at its number.
    #[inline]
    pub fn places(&self) -> &[Option<T>]
        ensures places { result.now ≡ self.now.places }
        ensures many { length result.now ≡ 256 }
    {
        &self.places
    }

    /// The place of a block's unit.
    #[inline]
    pub fn place_of(&mut self, block: &BlockView<'_>) -> &mut Option<T>
        // Whatever is left there, the other places stay.
        ensures* writes_back { sem 𝓛 (LendsPlace T.row self.entry block.now.unit result) }
        ensures there { slice_get self.old.places block.now.unit ≡ Some result.now }
    {
        let unit = block.header().unit as usize;
        &mut self.places[unit]
    }
    /// The place of a unit.
    #[inline]
    pub fn place_at(&mut self, unit: u8) -> &mut Option<T>
        // Whatever is left there, the other places stay.
        ensures* writes_back { sem 𝓛 (LendsPlace T.row self.entry unit result) }
        ensures there { slice_get self.old.places unit ≡ Some result.now }
    {
        &mut self.places[unit as usize]
    }
}
