//! A program over the client: reads the blocks of a feed from standard input, and prints of each
//! unit how far its book is and the best prices of a symbol.
#![tactic(auto)]

ghost use Rattle.std.specs.Prelude.{◌≡◌, ◌≤◌, ◌++◌, ℕ, List, length, reverse, take, IfOk};
ghost use Rattle.unit_packets.specs.Blocks.{Block};
ghost use Rattle.unit_packets.specs.Cutting.{blocks_of};
ghost use Rattle.pitch_model.specs.Levels.{best};
ghost use Rattle.pitch_model.specs.Book.{book_after};
ghost use Rattle.pitch_model.specs.History.{Entry, Raw};
ghost use Rattle.pitch_model.specs.Reach.{reach};
ghost use Rattle.client_core.specs.Tracks.{Tracks, Keeps};
ghost use Rattle.unit_clients.specs.Clients.{HaveHeard};

use client_core::{Status, UnitClient};
use pitch_fields::{HoldLimit, Price, Side, Symbol};
use std::alloc::Global;
use std::io::Read;
use std::{fmt, io};
use unit_clients::Units;
use unit_packets::{BlockReader, Blocks, read_block};

/// How many messages a unit may hold while one before them is missing.
const HOLD: u32 = 4096;

/// How many bytes are read at once.
const PIECE: usize = 65536;

/// The symbol whose prices are printed.
const SYMBOL: [u8; 8] = *b"ACME    ";

/// The best price of a side and its shares, where there is one.
#[derive(Clone, Copy)]
struct Best(Option<(Price, u64)>);

impl fmt::Display for Best {
    fn fmt<W: fmt::Write>(&self, f: &mut fmt::Formatter<W>) -> fmt::Result {
        match self.0 {
            Some((price, shares)) => write!(f, "{shares} at {price}"),
            None => f.write_str("none"),
        }
    }
}

// Hands the blocks with which some bytes begin to the clients of their units. Answers how many
// bytes they have, or what is wrong with the block after them.
fn hear(alloc: Global, units: &mut Units, bytes: &[u8]) -> anyhow::Result<usize>
    // Whatever blocks came before, the clients have then heard these too, in their order.
    ensures heard { IfOk result (λ n. (before : List Block) → HaveHeard units.old before
        → HaveHeard units.new (reverse (blocks_of bytes.now) ++ before)) }
    ensures within { IfOk result (λ n. n ≤ length bytes.now) }
{
    let mut blocks = Blocks::of_bytes(bytes);
    'next: while let Some(block) = blocks.next_block() {
        units.hear_block(alloc, &block)?;
    }
    match read_block(blocks.rest()) {
        Err(error) if !error.is_truncated() => Err(error.into()),
        _ => Ok(bytes.len() - blocks.rest().len()),
    }
}

// Reads a stream of blocks to its end.
fn follow(alloc: Global, units: &mut Units, input: &mut impl Read) -> anyhow::Result<()> {
    let mut reader = BlockReader::make(alloc);
    let mut piece = Vec::from_elem(alloc, 0u8, PIECE)?;
    for _ in 0..u64::MAX {
        let count = input.read(&mut piece)?;
        if count == 0 {
            break;
        }
        reader.load(&piece[..count])?;
        let passed = hear(alloc, units, reader.rest())?;
        reader.pass(passed);
    }
    reader.finish()?;
    Ok(())
}

// The best price of a symbol in a unit's book.
fn best_price(client: &UnitClient, symbol: Symbol, side: Side) -> Option<(Price, u64)>
    // Of whatever history it has heard: where that speaks of one venue's messages alone, this is
    // the best price after the first n of them, n its reach.
    ensures { (H : ℕ) (E : List Entry) (V : List Raw) → Tracks client.now H E → Keeps client.now V
        → result ≡ best (book_after (take (reach H E) V)) symbol side }
{
    client.book().best(symbol, side)
}

fn print_unit(rt: &impl Print, unit: usize, client: &UnitClient) -> io::Result<()> {
    let symbol = Symbol::from_eight(SYMBOL);
    let bid = Best(best_price(client, symbol, Side::Buy));
    let offer = Best(best_price(client, symbol, Side::Sell));
    let word = match client.status() {
        Status::Silent => "silent",
        Status::Current { .. } => "current",
        Status::Behind { .. } => "behind",
    };
    let n = client.reach();
    println!(rt; "unit {unit} {word} at {n}: bid {bid}, offer {offer}")
}

fn main(rt: HostRuntime) -> anyhow::Result<()> {
    let alloc = rt.alloc();
    let Some(limit) = HoldLimit::of(HOLD) else {
        unreachable!();
    };
    let mut units = Units::make(alloc, limit)?;
    follow(alloc, &mut units, &mut rt.stdin())?;
    for (unit, slot) in units.clients().iter().enumerate() {
        if let Some(client) = slot {
            print_unit(&rt, unit, client)?;
        }
    }
    Ok(())
}
