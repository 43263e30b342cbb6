//! A net for tests that stays in memory, lists its calls, and fails where it is told to.

ghost use Rattle.std.specs.Prelude.{◌≡◌, ◌↔◌, ◌<◌, [], Some, None, true, length, drop, take, ◌++◌};
ghost use Rattle.std.specs.Prelude.{Contains};
ghost use Rattle.memory_devices.specs.declared.memory_net.NetVerb.TheVariants as verb;
ghost use Rattle.pitch_io.specs.Causes.{HasCause};
ghost use Rattle.pitch_io.specs.Putting.{PutFailed, PutsWithin};
ghost use Rattle.pitch_io.specs.Nets.{Begin, NetDoneFailed, NetTakeFailed, Next, Put as PutCall};
ghost use Rattle.pitch_io.specs.Nets.{Send, Take, other_end};
ghost use Rattle.pitch_io.specs.layers.Coming.{AnswersWhereListed, CameWithin, ListsCall, came};
ghost use Rattle.memory_devices.specs.layers.MemoryNets.{CarriesAll, ComesFirst, FollowsScript};
ghost use Rattle.memory_devices.specs.layers.MemoryNets.{IsListed, IsRest, IsSameButFaults};
ghost use Rattle.memory_devices.specs.layers.MemoryNets.{LeavesDone, LeavesPut, LeavesTaken};
ghost use Rattle.memory_devices.specs.layers.MemoryNets.{as_carried, call_counted, coming_items};
ghost use Rattle.memory_devices.specs.layers.MemoryNets.{end_changed, line_changed, listed_calls};
ghost use Rattle.memory_devices.specs.layers.MemoryNets.{nothing_coming, on_line, one_more};
ghost use Rattle.memory_devices.specs.layers.MemoryNets.{size_of, taken_of, times_called, to_end};

use crate::call_log::CallLog;
use crate::wires::Wires;
use pitch_io::{Line, LinkEnd, Net, NetDone, NetTaken, Put};
use std::alloc::Global;
use std::marker::Model;

/// Which of a net's calls.
#[derive(Clone, Copy, PartialEq, Eq)]
pub enum NetVerb {
    Begin,
    Send,
    Next,
    Put,
    Take,
}

/// A call of a net by its number among the calls of its verb, counted from 1.
#[derive(Clone, Copy, PartialEq, Eq)]
pub struct NetCall {
    pub verb: NetVerb,
    pub number: u64,
}

/// How often each verb of a net was called.
#[derive(Clone, Copy, PartialEq, Eq)]
pub struct VerbCounts {
    pub begins: u64,
    pub sends: u64,
    pub nexts: u64,
    pub puts: u64,
    pub takes: u64,
}

impl VerbCounts {
    // One call more of a verb, counted up to the greatest number of its type. Answers its number.
    fn count(&mut self, verb: NetVerb) -> u64
        ensures call_counted { self.new ≡ call_counted self.old verb }
        ensures number { result ≡ times_called self.new verb }
    {
        match verb {
            NetVerb::Begin => count_up(&mut self.begins),
            NetVerb::Send => count_up(&mut self.sends),
            NetVerb::Next => count_up(&mut self.nexts),
            NetVerb::Put => count_up(&mut self.puts),
            NetVerb::Take => count_up(&mut self.takes),
        }
    }
}

// One more, up to the greatest number of the type.
fn count_up(count: &mut u64) -> u64
    ensures call_counted { count.new ≡ one_more count.old }
    ensures number { result ≡ count.new }
{
    *count = count.saturating_add(1);
    *count
}

/// A net in memory, which carries all at once and in order, and lists its calls.
///
/// It fails at the calls that are listed, and where memory is refused to it; from then on it lists
/// no more. A datagram without bytes is not carried, and nothing is ever ended.
#[derive(Drop)]
pub struct MemoryNet {
    wires: Wires,
    log: CallLog,
    failing: Vec<NetCall>,
    counts: VerbCounts,
    faults: u64,
}

impl Model for MemoryNet {
    ghost use Rattle.memory_devices.specs.layers.MemoryNets.{Carried, CarriesAll, listed_calls};

    ghost Value = { Carried };

    ghost view = { λ n. record {
      coming = n.wires;
      calls = listed_calls n.log;
      failing = n.failing.items;
      counts = n.counts;
      faults = n.faults;
    } };

    ghost invariant = { λ n. CarriesAll (listed_calls n.log) n.wires };
}

impl MemoryNet {
    /// A net that has done nothing. Takes no memory.
    pub fn make(alloc: Global, failing: Vec<NetCall>) -> MemoryNet
        ensures coming { result.coming ≡ nothing_coming }
        ensures calls { result.calls ≡ Some [] }
        ensures failing { result.failing ≡ failing.items }
        ensures counts { result.counts
            ≡ record { begins = 0; sends = 0; nexts = 0; puts = 0; takes = 0 } }
        ensures faults { result.faults ≡ 0 }
    {
        MemoryNet {
            wires: Wires::make(alloc),
            log: CallLog::make(alloc),
            failing,
            counts: VerbCounts {
                begins: 0,
                sends: 0,
                nexts: 0,
                puts: 0,
                takes: 0,
            },
            faults: 0,
        }
    }

    // Counts a call of a verb. Answers whether it is listed as one that fails.
    fn is_listed(&mut self, verb: NetVerb) -> bool
        ensures counts { self.new.counts ≡ call_counted self.old.counts verb }
        ensures listed { result ≡ true ↔ IsListed self.old.failing self.new.counts verb }
        ensures rest { IsRest self.old self.new }
    {
        let number = self.counts.count(verb);
        holds_call(&self.failing, verb, number)
    }

    // A fault.
    fn fault(&mut self)
        ensures cause { HasCause self.old.faults self.new.faults (Unit {0}) }
        ensures same { IsSameButFaults self.old self.new }
    {
        self.faults = self.faults.saturating_add(1);
    }

    /// That it carries: what is on its way is what its calls leave.
    pub fn carries(&self)
        ensures { CarriesAll self.now.calls self.now.coming }
    {
        let _ = &self.log;
    }
}

// Memory was refused: a fault, and the net lists no more.
fn give_up(log: &mut CallLog, faults: &mut u64)
    ensures cause { HasCause faults.old faults.new (Unit {0}) }
    ensures calls { listed_calls log.new ≡ None }
{
    log.refuse();
    *faults = faults.saturating_add(1);
}

impl Net for MemoryNet {
    ghost calls = { λ net. net.calls };

    ghost lines = { λ net on. coming_items (on_line net.coming on) };

    ghost ends = { λ net at. coming_items (to_end net.coming at) };

    ghost faults = { λ net. net.faults };

    fn begin(&mut self) -> NetDone
        ensures calls { ListsCall self.old.calls self.new.calls (Begin result) }
        ensures cause { HasCause self.old.faults self.new.faults (NetDoneFailed result) }
        ensures still { ¬ NetDoneFailed result → self.new.faults ≡ self.old.faults }
        ensures script { FollowsScript self.old self.new verb.Begin (NetDoneFailed result) }
        ensures coming { LeavesDone self.old self.new nothing_coming result }
    {
        if self.is_listed(NetVerb::Begin) {
            self.log.keep_begin(NetDone::Failed);
            self.fault();
            return NetDone::Failed;
        }
        if !self.log.keep_begin(NetDone::Done) {
            give_up(&mut self.log, &mut self.faults);
            return NetDone::Failed;
        }
        self.wires.clear();
        NetDone::Done
    }

    fn send(&mut self, line: Line, datagram: &[u8]) -> NetDone
        ensures calls { ListsCall self.old.calls self.new.calls (Send line datagram.now result) }
        ensures cause { HasCause self.old.faults self.new.faults (NetDoneFailed result) }
        ensures still { ¬ NetDoneFailed result → self.new.faults ≡ self.old.faults }
        ensures script { FollowsScript self.old self.new verb.Send (NetDoneFailed result) }
        ensures coming { LeavesDone self.old self.new (line_changed self.old.coming line
            (λ datagrams. datagrams ++ as_carried datagram.now)) result }
    {
        if self.is_listed(NetVerb::Send) {
            self.log.keep_send(line, datagram, NetDone::Failed);
            self.fault();
            return NetDone::Failed;
        }
        if self.wires.send(line, datagram) && self.log.keep_send(line, datagram, NetDone::Done) {
            return NetDone::Done;
        }
        give_up(&mut self.log, &mut self.faults);
        NetDone::Failed
    }

    fn next(&mut self, line: Line, into: &mut [u8]) -> NetTaken
        requires { 0 < length into.old }
        ensures count { CameWithin result into.new }
        ensures calls { ListsCall self.old.calls self.new.calls
            (Next line (length into.old) (came result into.new) result) }
        ensures coming { AnswersWhereListed self.new.calls
            (coming_items (on_line self.old.coming line)) result }
        ensures cause { HasCause self.old.faults self.new.faults (NetTakeFailed result) }
        ensures still { ¬ NetTakeFailed result → self.new.faults ≡ self.old.faults }
        ensures script { FollowsScript self.old self.new verb.Next (NetTakeFailed result) }
        ensures first { ¬ NetTakeFailed result
            → ComesFirst (on_line self.old.coming line) (size_of result) into.new }
        ensures rest { LeavesTaken self.old self.new
            (line_changed self.old.coming line (drop 1)) result }
    {
        if self.is_listed(NetVerb::Next) {
            self.log.keep_next(line, into.len(), &[], NetTaken::Failed);
            self.fault();
            return NetTaken::Failed;
        }
        let count = self.wires.next(line, into);
        let answer = taken(count);
        if self.log.keep_next(line, into.len(), &into[..count], answer) {
            return answer;
        }
        give_up(&mut self.log, &mut self.faults);
        NetTaken::Failed
    }

    fn put(&mut self, end: LinkEnd, piece: &[u8]) -> Put
        requires { 0 < length piece.now }
        ensures count { PutsWithin result piece.now }
        ensures calls { ListsCall self.old.calls self.new.calls (PutCall end piece.now result) }
        ensures cause { HasCause self.old.faults self.new.faults (PutFailed result) }
        ensures still { ¬ PutFailed result → self.new.faults ≡ self.old.faults }
        ensures script { FollowsScript self.old self.new verb.Put (PutFailed result) }
        ensures coming { LeavesPut self.old self.new
            (end_changed self.old.coming (other_end end) (λ bytes. bytes ++ piece.now)) result }
    {
        if self.is_listed(NetVerb::Put) {
            self.log.keep_put(end, piece, Put::Failed);
            self.fault();
            return Put::Failed;
        }
        let whole = Put::Wrote(piece.len());
        if self.wires.put(end, piece) && self.log.keep_put(end, piece, whole) {
            return whole;
        }
        give_up(&mut self.log, &mut self.faults);
        Put::Failed
    }

    fn take(&mut self, end: LinkEnd, into: &mut [u8]) -> NetTaken
        requires { 0 < length into.old }
        ensures count { CameWithin result into.new }
        ensures calls { ListsCall self.old.calls self.new.calls
            (Take end (length into.old) (came result into.new) result) }
        ensures coming { AnswersWhereListed self.new.calls
            (coming_items (to_end self.old.coming end)) result }
        ensures cause { HasCause self.old.faults self.new.faults (NetTakeFailed result) }
        ensures still { ¬ NetTakeFailed result → self.new.faults ≡ self.old.faults }
        ensures script { FollowsScript self.old self.new verb.Take (NetTakeFailed result) }
        ensures bytes { ¬ NetTakeFailed result
            → came result into.new ≡ take (length into.new) (to_end self.old.coming end) }
        ensures rest { LeavesTaken self.old self.new
            (end_changed self.old.coming end (drop (size_of result))) result }
    {
        if self.is_listed(NetVerb::Take) {
            self.log.keep_take(end, into.len(), &[], NetTaken::Failed);
            self.fault();
            return NetTaken::Failed;
        }
        let count = self.wires.take(end, into);
        let answer = taken(count);
        if self.log.keep_take(end, into.len(), &into[..count], answer) {
            return answer;
        }
        give_up(&mut self.log, &mut self.faults);
        NetTaken::Failed
    }
}

// The answer where so many bytes came.
fn taken(count: usize) -> NetTaken
    ensures answer { result ≡ taken_of count }
    ensures size { size_of result ≡ count }
{
    if count == 0 {
        return NetTaken::Quiet;
    }
    NetTaken::Got(count)
}

// Whether a call is one of these.
fn holds_call(calls: &[NetCall], verb: NetVerb, number: u64) -> bool
    ensures { result ≡ true ↔ Contains calls.now (record { verb = verb; number = number }) }
{
    calls.contains(&NetCall { verb, number })
}
