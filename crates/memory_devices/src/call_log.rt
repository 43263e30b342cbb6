//! The list that a net in memory keeps of its calls, until memory is refused.

ghost use Rattle.std.specs.Prelude.{◌≡◌, [], false, None, Some};
ghost use Rattle.pitch_io.specs.Nets.{Begin, Send, Next, Put as PutCall, Take};
ghost use Rattle.memory_devices.specs.layers.MemoryNets.{LogsCall, call_of, listed_calls};

use pitch_io::{Line, LinkEnd, NetDone, NetTaken, Put};
use std::alloc::Global;

// A call as it is kept.
#[derive(Drop)]
pub enum KeptCall {
    Begin(NetDone),
    Send(Line, Vec<u8>, NetDone),
    Next(Line, usize, Vec<u8>, NetTaken),
    Put(LinkEnd, Vec<u8>, Put),
    Take(LinkEnd, usize, Vec<u8>, NetTaken),
}

// The calls so far, the oldest first, until memory is refused.
#[derive(Drop)]
pub struct CallLog {
    alloc: Global,
    calls: Vec<KeptCall>,
    whole: bool,
}

impl CallLog {
    pub(crate) fn make(alloc: Global) -> CallLog
        ensures { listed_calls result ≡ Some [] }
    {
        CallLog {
            alloc,
            calls: Vec::new(alloc),
            whole: true,
        }
    }

    // Keeps a call. Answers whether it was kept.
    fn keep(&mut self, call: KeptCall) -> bool
        ensures { LogsCall self.old self.new (call_of call) result }
    {
        let kept = self.calls.push(call).is_ok();
        self.whole = self.whole && kept;
        kept
    }

    pub(crate) fn keep_begin(&mut self, answer: NetDone) -> bool
        ensures { LogsCall self.old self.new (Begin answer) result }
    {
        self.keep(KeptCall::Begin(answer))
    }

    pub(crate) fn keep_send(&mut self, line: Line, datagram: &[u8], answer: NetDone) -> bool
        ensures { LogsCall self.old self.new (Send line datagram.now answer) result }
    {
        match Vec::from_slice(self.alloc, datagram) {
            Ok(copy) => self.keep(KeptCall::Send(line, copy, answer)),
            Err(_) => self.refuse(),
        }
    }

    pub(crate) fn keep_next(
        &mut self,
        line: Line,
        room: usize,
        bytes: &[u8],
        answer: NetTaken,
    ) -> bool
        ensures { LogsCall self.old self.new (Next line room bytes.now answer) result }
    {
        match Vec::from_slice(self.alloc, bytes) {
            Ok(copy) => self.keep(KeptCall::Next(line, room, copy, answer)),
            Err(_) => self.refuse(),
        }
    }

    pub(crate) fn keep_put(&mut self, end: LinkEnd, piece: &[u8], answer: Put) -> bool
        ensures { LogsCall self.old self.new (PutCall end piece.now answer) result }
    {
        match Vec::from_slice(self.alloc, piece) {
            Ok(copy) => self.keep(KeptCall::Put(end, copy, answer)),
            Err(_) => self.refuse(),
        }
    }

    pub(crate) fn keep_take(
        &mut self,
        end: LinkEnd,
        room: usize,
        bytes: &[u8],
        answer: NetTaken,
    ) -> bool
        ensures { LogsCall self.old self.new (Take end room bytes.now answer) result }
    {
        match Vec::from_slice(self.alloc, bytes) {
            Ok(copy) => self.keep(KeptCall::Take(end, room, copy, answer)),
            Err(_) => self.refuse(),
        }
    }

    // Memory was refused: the call was not kept.
    pub(crate) fn refuse(&mut self) -> bool
        ensures lost { listed_calls self.new ≡ None }
        ensures none { result ≡ false }
    {
        self.whole = false;
        false
    }
}
