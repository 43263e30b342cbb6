//! The trading statuses of a unit: a map by symbol, and its list in order.

ghost use Rattle.std.specs.Prelude.{◌≡◌, ◌≤◌, ◌+◌, ◌++◌, map as mapped, IfOk, OnOk, OnErr, IsOk};
ghost use Rattle.std.specs.List.Sorted.{IsPermutation, IsSortedByKey};
ghost use Rattle.std.specs.FinMap as map;
ghost use Rattle.pitch_model.specs.Book.{symbol_cmp};
ghost use Rattle.pitch_model.specs.Statuses.{symbol_state};

use indexmap::IndexMap;
use pitch_fields::{OutOfMemory, Symbol};
use pitch_messages::{List, TradingState};
use std::alloc::Global;
use std::marker::Model;

/// A list of trading statuses.
pub type StatusList = List<TradingState>;

// The trading statuses of a unit by their symbols.
#[derive(Drop)]
pub(crate) struct Statuses {
    by_symbol: IndexMap<[u8; 8], (u8, u8)>,
}

impl Model for Statuses {
    ghost use Rattle.std.specs.Prelude.{bytes_eq};
    ghost use Rattle.std.specs.List.{IsDistinct};
    ghost use Rattle.std.specs.Map.{keys_of};
    ghost use Rattle.std.specs.FinMap.{from_entries};
    ghost use Rattle.indexmap.specs.IndexMap.{spare};
    ghost use Rattle.order_book.specs.Symbols.{SymbolsStanding, symbols_code};

    ghost Value = { SymbolsStanding };

    ghost coded = { symbols_code };

    ghost view = { λ s. record {
      statuses = from_entries s.by_symbol.entries;
      spare = spare s.by_symbol;
    } };

    ghost invariant = { λ s. IsDistinct bytes_eq (keys_of s.by_symbol.entries) };
}

impl Statuses {
    // No statuses, which take no memory.
    pub(crate) fn make(alloc: Global) -> Statuses
        ensures { result.statuses ≡ map.empty }
    {
        Statuses {
            by_symbol: IndexMap::new(alloc),
        }
    }

    // How many new symbols need no memory.
    pub(crate) fn spare(&self) -> usize
        ensures { result ≡ self.now.spare }
    {
        self.by_symbol.capacity() - self.by_symbol.len()
    }

    // Makes room for so many new symbols.
    pub(crate) fn reserve(&mut self, more: usize) -> Result<(), OutOfMemory>
        ensures same { self.new.statuses ≡ self.old.statuses }
        ensures room { OnOk result (more ≤ self.new.spare) }
        ensures kept { self.old.spare ≤ self.new.spare }
        ensures succeeds { more ≤ self.old.spare → IsOk result }
    {
        self.by_symbol.reserve(more)?;
        Ok(())
    }

    // The status of a symbol, where it has one.
    #[tactic(auto, using(crate::proofs::Maps::finds_symbol))]
    pub(crate) fn get(&self, symbol: [u8; 8]) -> Option<(u8, u8)>
        ensures { result ≡ map.get self.now.statuses symbol }
    {
        self.by_symbol.get(&symbol).copied()
    }

    // Gives a symbol a status.
    #[tactic(auto, using(crate::proofs::Maps::inserts, crate::proofs::Maps::symbol_keys))]
    pub(crate) fn put(&mut self, symbol: [u8; 8], status: (u8, u8)) -> Result<(), OutOfMemory>
        ensures ok { OnOk result (self.new.statuses ≡ map.insert self.old.statuses symbol status) }
        ensures err { OnErr result (self.new.statuses ≡ self.old.statuses) }
        ensures succeeds { 1 ≤ self.old.spare → IsOk result }
        ensures spare { self.old.spare ≤ self.new.spare + 1 }
    {
        self.by_symbol.insert(symbol, status)?;
        Ok(())
    }

    // Appends the statuses by rising bytes of their symbols. The list is as before after
    // OutOfMemory.
    pub(crate) fn append_to(&self, out: &mut StatusList) -> Result<(), OutOfMemory>
        ensures ok { OnOk result
            (out.new.items ≡ out.old.items ++ mapped symbol_state (map.entries self.now.statuses)) }
        ensures err { OnErr result (out.new.items ≡ out.old.items) }
    {
        let mut states = all_states(&self.by_symbol)?;
        sort_by_symbol(&mut states);
        out.append(states)?;
        Ok(())
    }

    // Equal statuses.
    pub(crate) fn copy(&self) -> Result<Statuses, OutOfMemory>
        ensures { IfOk result (λ copy. copy.statuses ≡ self.now.statuses) }
    {
        Ok(Statuses {
            by_symbol: self.by_symbol.clone()?,
        })
    }
}

// The statuses of a map as they come.
fn all_states(statuses: &IndexMap<[u8; 8], (u8, u8)>) -> Result<Vec<TradingState>, OutOfMemory>
    ensures { IfOk result (λ states. states.items ≡ mapped symbol_state statuses.now.entries) }
{
    let mut states = Vec::with_capacity(*statuses.allocator(), statuses.len())?;
    for entry in statuses.iter() {
        states.push_reserved(symbol_state(entry.0, entry.1));
    }
    Ok(states)
}

// A symbol with its status.
fn symbol_state(symbol: &[u8; 8], status: &(u8, u8)) -> TradingState
    ensures { result ≡ symbol_state (symbol.now, status.now) }
{
    let (halt, sho) = *status;
    TradingState {
        symbol: Symbol::from_eight(*symbol),
        halt,
        sho,
    }
}

fn sort_by_symbol(states: &mut Vec<TradingState>)
    ensures same { IsPermutation states.old.items states.new.items }
    ensures sorted { IsSortedByKey (λ state. state.symbol) symbol_cmp states.new.items }
{
    states.sort_unstable_by_key(
        |state: &TradingState| -> [u8; 8]
            ensures { result ≡ state.now.symbol }
        { state.symbol.bytes() },
    );
}
