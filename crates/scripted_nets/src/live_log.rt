//! The list that a net of lines and peers in memory keeps of its calls, until memory is refused.

ghost use Rattle.std.specs.Prelude.{◌≡◌, [], false, None, Some};
ghost use Rattle.live_net.specs.LiveCalls.{Put, Receive, Take};
ghost use Rattle.scripted_nets.specs.layers.Logs.{LeavesCalls, live_call_of, live_calls_of};

use live_net::{PeerOpened, PeerPut, PeerTaken, Received, WaitEnd};
use std::alloc::Global;

// A call as it is kept.
#[derive(Drop)]
pub enum KeptLiveCall {
    Wait(bool, WaitEnd),
    Receive(u16, usize, Vec<u8>, Received),
    Open(u16, PeerOpened),
    Take(u16, usize, Vec<u8>, PeerTaken),
    Put(u16, Vec<u8>, PeerPut),
    Close(u16),
}

// The calls so far, the oldest first, until memory is refused.
#[derive(Drop)]
pub struct LiveLog {
    alloc: Global,
    calls: Vec<KeptLiveCall>,
    whole: bool,
}

impl LiveLog {
    // Nothing was called yet.
    pub(crate) fn make(alloc: Global) -> LiveLog
        ensures { live_calls_of result ≡ Some [] }
    {
        LiveLog {
            alloc,
            calls: Vec::new(alloc),
            whole: true,
        }
    }

    // Keeps a call. Answers whether it was kept.
    pub(crate) fn keep(&mut self, call: KeptLiveCall) -> bool
        ensures { LeavesCalls
            (live_calls_of self.old) (live_calls_of self.new) (live_call_of call) result }
    {
        let kept = self.calls.push(call).is_ok();
        self.whole = self.whole && kept;
        kept
    }

    // Keeps a question for a datagram. Answers whether it was kept.
    pub(crate) fn keep_receive(
        &mut self,
        line: u16,
        room: usize,
        bytes: &[u8],
        answer: Received,
    ) -> bool
        ensures { LeavesCalls (live_calls_of self.old) (live_calls_of self.new)
            (Receive line room bytes.now answer) result }
    {
        match Vec::from_slice(self.alloc, bytes) {
            Ok(copy) => self.keep(KeptLiveCall::Receive(line, room, copy, answer)),
            Err(_) => self.refuse(),
        }
    }

    // Keeps a question for bytes. Answers whether it was kept.
    pub(crate) fn keep_take(
        &mut self,
        peer: u16,
        room: usize,
        bytes: &[u8],
        answer: PeerTaken,
    ) -> bool
        ensures { LeavesCalls (live_calls_of self.old) (live_calls_of self.new)
            (Take peer room bytes.now answer) result }
    {
        match Vec::from_slice(self.alloc, bytes) {
            Ok(copy) => self.keep(KeptLiveCall::Take(peer, room, copy, answer)),
            Err(_) => self.refuse(),
        }
    }

    // Keeps a piece that was put. Answers whether it was kept.
    pub(crate) fn keep_put(&mut self, peer: u16, piece: &[u8], answer: PeerPut) -> bool
        ensures { LeavesCalls (live_calls_of self.old) (live_calls_of self.new)
            (Put peer piece.now answer) result }
    {
        match Vec::from_slice(self.alloc, piece) {
            Ok(copy) => self.keep(KeptLiveCall::Put(peer, copy, answer)),
            Err(_) => self.refuse(),
        }
    }

    // Memory was refused: the call was not kept.
    fn refuse(&mut self) -> bool
        ensures lost { live_calls_of self.new ≡ None }
        ensures none { result ≡ false }
    {
        self.whole = false;
        false
    }
}
