//! The order book: it applies every message to a unit's orders, statuses and clock.

ghost use Rattle.std.specs.Prelude.{◌≡◌, ◌≤◌, ◌<◌, ◌+◌, ◌++◌, ◌&&◌, [], length, count_by, IfOk};
ghost use Rattle.std.specs.Prelude.{IfSome, IfNone, OnOk, OnErr, IsOk, IsSome, Some, Option};
ghost use Rattle.pitch_messages.specs.Raw.{IsRaw, kind_of};
ghost use Rattle.std.specs.FinMap as map;
ghost use Rattle.pitch_model.specs.Book.{IsBook, empty_book, at_second, cleared, without_order};
ghost use Rattle.pitch_model.specs.Book.{with_order, with_status, added, changed, after_message};
ghost use Rattle.pitch_model.specs.Book.{after_read, after, changed_by};
ghost use Rattle.pitch_model.specs.Levels.{IsBestOf, orders_of, orders_on, prices_on, shares};
ghost use Rattle.pitch_model.specs.Levels.{level, best};
ghost use Rattle.pitch_model.specs.Statuses.{statuses_of};
ghost use Rattle.order_book.specs.Naming.{names_open};
ghost use Rattle.order_book.specs.Standing.{most_orders};
ghost use Rattle.order_book.specs.Turns.{turn_of};

use crate::adding::{is_displayed, order_of_expanded, order_of_long, order_of_short};
use crate::change::{make_change, shares_left};
use crate::naming::{Touches, named_order, touched};
use crate::order_list::{OrderList, append_by_id};
use crate::statuses::{StatusList, Statuses};
use crate::totals::{all_shares, best_level, shares_at};
use crate::turn::Turn;
use arrayvec::ArrayVec;
use indexmap::IndexMap;
use pitch_fields::{OutOfMemory, Price, Side, Symbol};
use pitch_messages::{Message, Order, Raw, Raws, ReadError, read_as, read_bytes};
use pitch_model::OrderChange::{self, Left, Modified, Reduced};
use std::alloc::Global;
use std::marker::Model;

// Ids that are looked up together.
type Ids = ArrayVec<u64, 64>;

/// The open orders of a unit by their ids, the trading statuses of its symbols, and the second of
/// its clock where one is known.
#[derive(Drop)]
pub struct UnitBook {
    second: Option<u32>,
    orders: IndexMap<u64, Order>,
    statuses: Statuses,
}

impl Model for UnitBook {
    ghost use Rattle.std.specs.Prelude.{◌-◌, min, length};
    ghost use Rattle.indexmap.specs.IndexMap.{spare};
    ghost use Rattle.order_book.specs.Standing.{Standing, standing_code, book_of, most_orders};
    ghost use Rattle.order_book.specs.Standing.{IsKept};

    ghost Value = { Standing };

    ghost coded = { standing_code };

    ghost view = { λ b. record {
      book = book_of b.second b.orders.entries b.statuses.statuses;
      spare = min
          (min (spare b.orders) b.statuses.spare) (most_orders - length b.orders.entries);
    } };

    ghost invariant = { λ b. IsKept b.second b.orders.entries b.statuses.statuses };
}

impl UnitBook {
    /// An empty book. It takes no memory.
    pub fn make(alloc: Global) -> UnitBook
        ensures { result.book ≡ empty_book }
    {
        UnitBook {
            second: None,
            orders: IndexMap::new(alloc),
            statuses: Statuses::make(alloc),
        }
    }

    /// Does what a raw message says, given its bytes. A known type that is too short or names no
    /// side, and a type that is no book message, change nothing.
    ///
    /// The book is as before after OutOfMemory, which never comes where the spare is at least 1.
    // Each type that comes often is read by a literal, so that its fields go straight to what is
    // done with them, and a trade or a trade break costs nothing.
    #[tactic(auto, unfolding(pitch_model::specs::Book::after))]
    pub fn apply_bytes(&mut self, raw: &[u8]) -> Result<(), OutOfMemory>
        requires raw { IsRaw raw.now }
        requires few { map.len self.old.book.orders < most_orders }
        ensures ok { OnOk result (self.new.book ≡ after self.old.book raw.now) }
        ensures err { OnErr result (self.new.book ≡ self.old.book) }
        ensures succeeds { 1 ≤ self.old.spare → IsOk result }
        ensures spare { self.old.spare ≤ self.new.spare + 1 }
    {
        match raw[1] {
            0x20 => self.apply_read(read_as(0x20, raw)),
            0x21 => self.apply_read(read_as(0x21, raw)),
            0x22 => self.apply_add_short(raw),
            0x23 => self.apply_read(read_as(0x23, raw)),
            0x24 => self.apply_read(read_as(0x24, raw)),
            0x25 => self.apply_read(read_as(0x25, raw)),
            0x26 => self.apply_read(read_as(0x26, raw)),
            0x27 => self.apply_read(read_as(0x27, raw)),
            0x28 => self.apply_read(read_as(0x28, raw)),
            0x29 => self.apply_read(read_as(0x29, raw)),
            0x2a => self.apply_read(read_as(0x2a, raw)),
            0x2b => self.apply_read(read_as(0x2b, raw)),
            0x2c => self.apply_read(read_as(0x2c, raw)),
            0x2f => self.apply_read(read_as(0x2f, raw)),
            0x30 => self.apply_read(read_as(0x30, raw)),
            _ => self.apply_any(raw),
        }
    }

    /// Does what a raw message says, as `apply_bytes` does.
    pub fn apply(&mut self, raw: &Raw) -> Result<(), OutOfMemory>
        requires few { map.len self.old.book.orders < most_orders }
        ensures ok { OnOk result (self.new.book ≡ after self.old.book raw.now) }
        ensures err { OnErr result (self.new.book ≡ self.old.book) }
        ensures succeeds { 1 ≤ self.old.spare → IsOk result }
        ensures spare { self.old.spare ≤ self.new.spare + 1 }
    {
        self.apply_bytes(raw.bytes())
    }

    /// Does what a raw message says, given its bytes, where the spare is at least 1: it takes no
    /// memory.
    pub fn apply_reserved(&mut self, raw: &[u8])
        requires raw { IsRaw raw.now }
        requires room { 1 ≤ self.old.spare }
        requires few { map.len self.old.book.orders < most_orders }
        ensures book { self.new.book ≡ after self.old.book raw.now }
        ensures spare { self.old.spare ≤ self.new.spare + 1 }
    {
        self.apply_bytes(raw).unwrap();
    }

    /// Does what a raw message says, as `apply_bytes` does, and answers what that did to the open
    /// orders.
    ///
    /// The book is as before after OutOfMemory, which never comes where the spare is at least 1.
    pub fn turn_bytes(&mut self, raw: &[u8]) -> Result<Turn, OutOfMemory>
        requires raw { IsRaw raw.now }
        requires few { map.len self.old.book.orders < most_orders }
        ensures ok { OnOk result (self.new.book ≡ after self.old.book raw.now) }
        ensures turn { IfOk result (λ turn. turn ≡ turn_of self.old.book raw.now) }
        ensures err { OnErr result (self.new.book ≡ self.old.book) }
        ensures succeeds { 1 ≤ self.old.spare → IsOk result }
        ensures spare { self.old.spare ≤ self.new.spare + 1 }
    {
        match touched(raw) {
            Touches::None => {
                self.apply_bytes(raw)?;
                Ok(Turn::None)
            }
            Touches::One(id) => {
                let before = self.order(id);
                self.apply_bytes(raw)?;
                let now = self.order(id);
                Ok(Turn::One { before, now })
            }
            Touches::All => {
                self.apply_bytes(raw)?;
                Ok(Turn::All)
            }
        }
    }

    /// Does what a raw message says, as `apply_reserved` does, and answers what that did to the
    /// open orders.
    pub fn turn_reserved(&mut self, raw: &[u8]) -> Turn
        requires raw { IsRaw raw.now }
        requires room { 1 ≤ self.old.spare }
        requires few { map.len self.old.book.orders < most_orders }
        ensures book { self.new.book ≡ after self.old.book raw.now }
        ensures turn { result ≡ turn_of self.old.book raw.now }
        ensures spare { self.old.spare ≤ self.new.spare + 1 }
    {
        match touched(raw) {
            Touches::None => {
                self.apply_reserved(raw);
                Turn::None
            }
            Touches::One(id) => {
                let before = self.order(id);
                self.apply_reserved(raw);
                let now = self.order(id);
                Turn::One { before, now }
            }
            Touches::All => {
                self.apply_reserved(raw);
                Turn::All
            }
        }
    }

    /// Makes room for more messages of any kind: the spare is then at least so many. The book is
    /// the same in either case.
    pub fn reserve(&mut self, more: u32) -> Result<(), OutOfMemory>
        requires { map.len self.old.book.orders + more ≤ most_orders }
        ensures same { self.new.book ≡ self.old.book }
        ensures room { OnOk result (more ≤ self.new.spare) }
        ensures kept { self.old.spare ≤ self.new.spare }
        ensures succeeds { more ≤ self.old.spare → IsOk result }
    {
        self.orders.reserve(more as usize)?;
        self.statuses.reserve(more as usize)?;
        Ok(())
    }

    /// How many messages of any kind need no memory: with the open orders at most 4,294,967,295.
    pub fn spare(&self) -> u32
        ensures spare { result ≡ self.now.spare }
        ensures within { map.len self.now.book.orders + self.now.spare ≤ most_orders }
    {
        let room = u32::MAX - self.orders.len() as u32;
        let ready = self.orders.capacity() - self.orders.len();
        ready.min(self.statuses.spare()).min(room as usize) as u32
    }

    /// How many orders are open.
    #[tactic(auto, using(crate::proofs::Maps::lens, crate::proofs::Maps::id_keys))]
    pub fn len(&self) -> u32
        ensures count { result ≡ map.len self.now.book.orders }
        ensures book { IsBook self.now.book }
    {
        self.orders.len() as u32
    }

    /// The second of the unit's clock, or None exactly where none is known.
    pub fn second(&self) -> Option<u32>
        ensures { result ≡ self.now.book.second }
    {
        self.second
    }

    /// The open order of an id, or None exactly where none is open.
    #[inline(always)]
    #[tactic(auto, using(crate::proofs::Maps::finds_id))]
    pub fn order(&self, id: u64) -> Option<Order>
        ensures { result ≡ map.get self.now.book.orders id }
    {
        self.orders.get(&id).copied()
    }

    /// The shares of all open orders.
    #[tactic(auto, using(crate::proofs::AnyOrder::shares_of))]
    pub fn shares(&self) -> u64
        ensures { result ≡ shares self.now.book }
    {
        all_shares(&self.orders)
    }

    /// The shares of the open orders for a symbol on a side at a price.
    #[tactic(auto, using(crate::proofs::AnyOrder::level_of))]
    pub fn level(&self, symbol: Symbol, side: Side, price: Price) -> u64
        ensures { result ≡ level self.now.book symbol side price }
    {
        shares_at(&self.orders, symbol, side, price)
    }

    /// The highest price to buy, or the lowest to sell, of the open orders for a symbol, with its
    /// level. None exactly where that side of the symbol has no order.
    pub fn best(&self, symbol: Symbol, side: Side) -> Option<(Price, u64)>
        ensures best { result ≡ best self.now.book symbol side }
        ensures price { IfSome result
            (λ best. IsBestOf side (prices_on self.now.book symbol side) best.0) }
        ensures level { IfSome result (λ best. best.1 ≡ level self.now.book symbol side best.0) }
        ensures none { IfNone result (orders_on self.now.book symbol side ≡ []) }
    {
        best_level(&self.orders, symbol, side)
    }

    /// Appends all open orders by rising id. The list is as before after OutOfMemory.
    pub fn orders_by_id(&self, out: &mut OrderList) -> Result<(), OutOfMemory>
        ensures ok { OnOk result (out.new.items ≡ out.old.items ++ orders_of self.now.book) }
        ensures err { OnErr result (out.new.items ≡ out.old.items) }
    {
        append_by_id(out, &self.orders)?;
        Ok(())
    }

    /// The halt byte and the sho byte of a symbol's status, or None exactly where it has none.
    pub fn status(&self, symbol: Symbol) -> Option<(u8, u8)>
        ensures { result ≡ map.get self.now.book.statuses symbol }
    {
        self.statuses.get(symbol.bytes())
    }

    /// Appends all trading statuses by rising bytes of their symbols. The list is as before after
    /// OutOfMemory.
    pub fn statuses_by_symbol(&self, out: &mut StatusList) -> Result<(), OutOfMemory>
        ensures ok { OnOk result (out.new.items ≡ out.old.items ++ statuses_of self.now.book) }
        ensures err { OnErr result (out.new.items ≡ out.old.items) }
    {
        self.statuses.append_to(out)
    }

    /// How many of the messages name an order that is open.
    ///
    /// To ask this of a block before its messages are applied makes that faster, since all the
    /// orders are then near: these look-ups overlap, where those of `apply` wait for one another.
    // The ids are gathered first, so that nothing but look-ups stands between two of them.
    pub fn known_orders(&self, raws: Raws<'_>) -> usize
        ensures { result ≡ count_by (names_open self.now.book) raws.entry }
    {
        // There are no more of them than messages, whose number fits.
        let _count = raws.len();
        let mut known = 0;
        let mut ids = Ids::new();
        for raw in raws {
            if ids.is_full() {
                known += self.count_open(ids.as_slice());
                ids.clear();
            }
            if let Some(id) = named_order(raw) {
                ids.push(id);
            }
        }
        known + self.count_open(ids.as_slice())
    }

    /// An equal book.
    pub fn copy(&self) -> Result<UnitBook, OutOfMemory>
        ensures { IfOk result (λ copy. copy.book ≡ self.now.book) }
    {
        Ok(UnitBook {
            second: self.second,
            orders: self.orders.clone()?,
            statuses: self.statuses.copy()?,
        })
    }
}

impl UnitBook {
    // Does what a raw message of any type says.
    #[inline(never)]
    #[tactic(auto, unfolding(pitch_model::specs::Book::after))]
    fn apply_any(&mut self, raw: &[u8]) -> Result<(), OutOfMemory>
        requires raw { IsRaw raw.now }
        requires few { map.len self.old.book.orders < most_orders }
        ensures ok { OnOk result (self.new.book ≡ after self.old.book raw.now) }
        ensures err { OnErr result (self.new.book ≡ self.old.book) }
        ensures succeeds { 1 ≤ self.old.spare → IsOk result }
        ensures spare { self.old.spare ≤ self.new.spare + 1 }
    {
        self.apply_read(read_bytes(raw))
    }

    // Does what an add in the short form says. Most adds are in it, and no other form is in sight
    // here, so that its fields stay in registers.
    #[tactic(auto, unfolding(pitch_model::specs::Book::after))]
    fn apply_add_short(&mut self, raw: &[u8]) -> Result<(), OutOfMemory>
        requires raw { IsRaw raw.now }
        requires kind { 0x22 ≡ kind_of raw.now }
        requires few { map.len self.old.book.orders < most_orders }
        ensures ok { OnOk result (self.new.book ≡ after self.old.book raw.now) }
        ensures err { OnErr result (self.new.book ≡ self.old.book) }
        ensures succeeds { 1 ≤ self.old.spare → IsOk result }
        ensures spare { self.old.spare ≤ self.new.spare + 1 }
    {
        match read_as(0x22, raw) {
            Ok(
                Message::AddShort {
                    id,
                    side,
                    quantity,
                    symbol,
                    price,
                    flags,
                    ..
                },
            ) => self.add(order_of_short(id, side, quantity, symbol, price, flags)),
            _ => self.apply_any(raw),
        }
    }

    // Does what was read of a raw message.
    #[inline(always)]
    fn apply_read(&mut self, read: Result<Message, ReadError>) -> Result<(), OutOfMemory>
        requires few { map.len self.old.book.orders < most_orders }
        ensures ok { OnOk result (self.new.book ≡ after_read self.old.book read) }
        ensures err { OnErr result (self.new.book ≡ self.old.book) }
        ensures succeeds { 1 ≤ self.old.spare → IsOk result }
        ensures spare { self.old.spare ≤ self.new.spare + 1 }
    {
        match read {
            Ok(message) => self.apply_message(&message),
            Err(_) => Ok(()),
        }
    }

    // Does what a message says.
    #[inline(always)]
    fn apply_message(&mut self, message: &Message) -> Result<(), OutOfMemory>
        requires few { map.len self.old.book.orders < most_orders }
        ensures ok { OnOk result (self.new.book ≡ after_message self.old.book message.now) }
        ensures err { OnErr result (self.new.book ≡ self.old.book) }
        ensures succeeds { 1 ≤ self.old.spare → IsOk result }
        ensures spare { self.old.spare ≤ self.new.spare + 1 }
    {
        match *message {
            Message::AddLong {
                id,
                side,
                quantity,
                symbol,
                price,
                flags,
                ..
            } => {
                return self.add(order_of_long(id, side, quantity, symbol, price, flags));
            }
            Message::AddShort {
                id,
                side,
                quantity,
                symbol,
                price,
                flags,
                ..
            } => {
                return self.add(order_of_short(id, side, quantity, symbol, price, flags));
            }
            Message::AddExpanded {
                id,
                side,
                quantity,
                symbol,
                price,
                flags,
                participant,
                ..
            } => {
                return self.add(order_of_expanded(
                    id,
                    side,
                    quantity,
                    symbol,
                    price,
                    flags,
                    participant,
                ));
            }
            Message::TradingStatus {
                symbol,
                halt,
                sho,
                ..
            } => {
                return self.set_status(symbol, (halt, sho));
            }
            Message::Time { second } => self.set_second(second),
            Message::UnitClear { .. } => self.clear(),
            Message::Executed { id, executed, .. } => self.change(id, Reduced(executed)),
            Message::ExecutedAt { id, remaining, .. } => self.change(id, Left(remaining)),
            Message::ReduceLong { id, quantity, .. } => self.change(id, Reduced(quantity)),
            Message::ReduceShort { id, quantity, .. } => {
                self.change(id, Reduced(u32::from(quantity)))
            }
            Message::ModifyLong {
                id,
                quantity,
                price,
                flags,
                ..
            } => self.change(
                id,
                Modified {
                    quantity,
                    price: Price::from_long(price),
                    display: is_displayed(flags),
                },
            ),
            Message::ModifyShort {
                id,
                quantity,
                price,
                flags,
                ..
            } => self.change(
                id,
                Modified {
                    quantity: u32::from(quantity),
                    price: Price::from_short(price),
                    display: is_displayed(flags),
                },
            ),
            Message::Delete { id, .. } => self.remove(id),
            _ => {}
        }
        Ok(())
    }

    // Shows another second.
    fn set_second(&mut self, second: u32)
        ensures book { self.new.book ≡ at_second self.old.book second }
        ensures spare { self.new.spare ≡ self.old.spare }
    {
        self.second = Some(second);
    }

    // Gives a symbol a status.
    #[inline(never)]
    fn set_status(&mut self, symbol: [u8; 8], status: (u8, u8)) -> Result<(), OutOfMemory>
        ensures ok { OnOk result (self.new.book ≡ with_status self.old.book symbol status) }
        ensures err { OnErr result (self.new.book ≡ self.old.book) }
        ensures succeeds { 1 ≤ self.old.spare → IsOk result }
        ensures spare { self.old.spare ≤ self.new.spare + 1 }
    {
        self.statuses.put(symbol, status)
    }

    // Takes all orders out. The second and the statuses stay. The orders are freed one by one where
    // they are few for the map's table, which a clear would go through whole.
    fn clear(&mut self)
        ensures book { self.new.book ≡ cleared self.old.book }
        ensures spare { self.old.spare ≤ self.new.spare }
    {
        self.orders.truncate(0);
    }

    // Adds an order, unless it has no shares.
    fn add(&mut self, order: Order) -> Result<(), OutOfMemory>
        requires few { map.len self.old.book.orders < most_orders }
        ensures ok { OnOk result (self.new.book ≡ added self.old.book order) }
        ensures err { OnErr result (self.new.book ≡ self.old.book) }
        ensures succeeds { 1 ≤ self.old.spare → IsOk result }
        ensures spare { self.old.spare ≤ self.new.spare + 1 }
    {
        if order.quantity > 0 {
            return self.insert(order);
        }
        Ok(())
    }

    // Puts an order under its id.
    #[tactic(auto, using(crate::proofs::Maps::inserts, crate::proofs::Maps::id_keys))]
    fn insert(&mut self, order: Order) -> Result<(), OutOfMemory>
        requires filled { 0 < order.quantity }
        requires few { map.len self.old.book.orders < most_orders }
        ensures ok { OnOk result (self.new.book ≡ with_order self.old.book order.id order) }
        ensures err { OnErr result (self.new.book ≡ self.old.book) }
        ensures succeeds { 1 ≤ self.old.spare → IsOk result }
        ensures spare { self.old.spare ≤ self.new.spare + 1 }
    {
        self.orders.insert(order.id, order)?;
        Ok(())
    }

    // Takes the order of an id out.
    #[tactic(auto, using(crate::proofs::Maps::removes, crate::proofs::Maps::id_keys))]
    fn remove(&mut self, id: u64)
        ensures book { self.new.book ≡ without_order self.old.book id }
        ensures spare { self.old.spare ≤ self.new.spare }
    {
        self.orders.swap_remove(&id);
    }

    // Changes the order of an id, and removes it where it has no shares left.
    fn change(&mut self, id: u64, change: OrderChange)
        ensures book { self.new.book ≡ changed self.old.book id (changed_by change) }
        ensures spare { self.old.spare ≤ self.new.spare }
    {
        let Some((index, _, order)) = self.orders.get_full(&id) else {
            return;
        };
        if shares_left(&change, order) == 0 {
            self.orders.swap_remove_index(index);
            return;
        }
        let (_, place) = self.orders.pair_mut(index);
        make_change(&change, place);
    }

    // How many of the ids are those of open orders.
    fn count_open(&self, ids: &[u64]) -> usize
        ensures count { result ≡ count_by (map.contains_key self.now.book.orders) ids.now }
        ensures within { result ≤ length ids.now }
    {
        let mut open = 0;
        for id in ids {
            if self.is_open(*id) {
                open += 1;
            }
        }
        open
    }

    // Whether an order is open. Its quantity is read, which is never 0, so that the order is near
    // afterwards.
    #[inline(always)]
    fn is_open(&self, id: u64) -> bool
        ensures { result ≡ map.contains_key self.now.book.orders id }
    {
        match self.orders.get(&id) {
            Some(order) => order.quantity > 0,
            None => false,
        }
    }
}
