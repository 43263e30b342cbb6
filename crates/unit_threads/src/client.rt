//! The client.

ghost use Rattle.std.specs.Prelude.{◌≡◌, ◌++◌, ℕ, List, OnOk, IfOk};
ghost use Rattle.pitch_model.specs.History.{Entry};
ghost use Rattle.venue_core.specs.Plan.{plan};
ghost use Rattle.drill_client.specs.layers.Following.{Follows, FollowsOn};
ghost use Rattle.drill_client.specs.layers.Words.{heard_word, heard_reply};
ghost use Rattle.drill_client.specs.layers.Limits.{drill_kept};
ghost use Rattle.drill_client.specs.layers.Answered.{heard_with_one, with_tick};
ghost use Rattle.unit_threads.specs.layers.Listening.{tick_requests, is_sent, is_again};
ghost use Rattle.unit_threads.specs.layers.Listening.{after_heard};
ghost use Rattle.unit_threads.specs.layers.Listening.{heard_after, asks_after};

use crate::course::Course;
use crate::ends::{ClientEnds, Request};
use crate::outbox::Outbox;
use client_core::UnitClient;
use crossbeam_channel::{Receiver, RecvError, select};
use drill_client::{
    DrillRun, Reply, Word, begin, count_datagram, drill_hold, hear_reply, hear_word,
};
use pitch_fields::OutOfMemory;
use pitch_io::{Gate, Role, Work};
use shared_unit::{FixedRun, Naming};
use std::alloc::Global;
use std::sync::Wait;
use std::time::Clock;
use venue_core::plan_is_in_order;

/// What comes to a client next.
#[derive(Drop)]
enum Next<R: DrillRun> {
    /// A word of the publisher.
    Word(Word<R>),
    /// A reply of the service.
    Reply(Reply<R>),
    /// The service has ended.
    NoReplies,
    /// The publisher has ended.
    NoWords,
}

impl<R: DrillRun> Next<R> {
    // What came from the publisher.
    fn said(got: Result<Word<R>, RecvError>) -> Next<R> {
        match got {
            Ok(word) => Next::Word(word),
            Err(_) => Next::NoWords,
        }
    }

    // What came from the service.
    fn replied(got: Result<Reply<R>, RecvError>) -> Next<R> {
        match got {
            Ok(reply) => Next::Reply(reply),
            Err(_) => Next::NoReplies,
        }
    }
}

/// What a client counts.
#[derive(Drop)]
struct Counts {
    // datagrams since the last tick
    heard: u8,
    // datagrams in all
    step: u32,
}

impl Counts {
    // The step of one datagram more.
    fn next<R: DrillRun + FixedRun>(&mut self, course: &Course<R>) -> Work
        ensures { self.new.heard ≡ self.old.heard }
    {
        self.step = self.step.saturating_add(1);
        course.work(Role::Client, self.step)
    }
}

// Waits for a word of the publisher or of the service.
fn next_of_both<R: DrillRun, W: Wait + Clock>(
    rt: &W,
    words: &Receiver<Word<R>>,
    replies: &Receiver<Reply<R>>,
) -> Next<R> {
    select! {
        rt;
        recv(words) -> got => Next::said(got),
        recv(replies) -> got => Next::replied(got),
    }
}

// The client's ends, and whether its service is still there.
#[derive(Drop)]
struct Links<J: Naming, R: DrillRun + FixedRun> {
    words: Receiver<Word<R>>,
    replies: Receiver<Reply<R>>,
    asks: Outbox<Request<J, R>>,
    served: bool,
}

impl<J: Naming, R: DrillRun + FixedRun> Links<J, R> {
    // Nothing was asked yet.
    fn make(alloc: Global, ends: ClientEnds<J, R>) -> Links<J, R> {
        let ClientEnds {
            words,
            replies,
            asks,
        } = ends;
        Links {
            words,
            replies,
            asks: Outbox::make(alloc, asks),
            served: true,
        }
    }

    // Waits for what comes next.
    fn next<W: Wait + Clock>(&self, rt: &W) -> Next<R> {
        if self.served {
            next_of_both(rt, &self.words, &self.replies)
        } else {
            Next::said(self.words.recv(rt))
        }
    }
}

// After a datagram: the client asks the service for what it lacks, at every tenth.
fn tick<J: Naming, R: DrillRun + FixedRun, W: Wait>(
    rt: &W,
    client: &mut UnitClient,
    counts: &mut Counts,
    asks: &mut Outbox<Request<J, R>>,
) -> Result<(), OutOfMemory>
    ensures heard { OnOk result (counts.new.heard ≡ heard_with_one counts.old.heard) }
    ensures history { OnOk result
        ((H : ℕ) (E : List Entry) → Follows client.old H (plan R.number R.unit R.count) E
        → Follows client.new H (plan R.number R.unit R.count) (with_tick H counts.old.heard E)) }
    // What a client asks for at a tick is sent.
    ensures asks { OnOk result ((H : ℕ) (E : List Entry) → Follows client.old H (plan R.number
        R.unit R.count) E → asks.new ≡ asks.old ++ tick_requests H counts.old.heard E) }
{
    if let Some(ask) = count_datagram(client, &mut counts.heard) {
        asks.send(rt, Request::Asked(ask))?;
    }
    Ok(())
}

// Whether a word is a datagram.
fn is_sent<R: DrillRun>(word: &Word<R>) -> bool
    ensures { result ≡ is_sent word.now }
{
    matches!(word, Word::Sent(_))
}

// Whether a reply is a datagram.
fn is_again<R: DrillRun>(reply: &Reply<R>) -> bool
    ensures { result ≡ is_again reply.now }
{
    matches!(reply, Reply::Again(_))
}

// The client hears a word of its publisher.
fn take_word<J: Naming, R: DrillRun + FixedRun, W: Wait, G: Gate>(
    rt: &W,
    gate: &G,
    course: &Course<R>,
    client: &mut UnitClient,
    counts: &mut Counts,
    word: &Word<R>,
    asks: &mut Outbox<Request<J, R>>,
) -> Result<(), OutOfMemory>
    ensures heard { OnOk result
        (counts.new.heard ≡ heard_after (is_sent word.now) counts.old.heard) }
    ensures history { OnOk result ((H : ℕ) (E : List Entry) → Follows client.old H
        (plan R.number R.unit R.count) E → Follows client.new H (plan R.number R.unit R.count)
        (after_heard (is_sent word.now) H counts.old.heard (heard_word word.now E))) }
    ensures asks { OnOk result
        ((H : ℕ) (E : List Entry) → Follows client.old H (plan R.number R.unit R.count) E → asks.new
        ≡ asks.old ++ asks_after (is_sent word.now) H counts.old.heard (heard_word word.now E)) }
{
    if !is_sent(word) {
        hear_word(client, word)?;
        return Ok(());
    }
    let work = counts.next(course);
    gate.before(work);
    hear_word(client, word)?;
    gate.after(work);
    tick(rt, client, counts, asks)
}

// The client hears a word of its service.
fn take_reply<J: Naming, R: DrillRun + FixedRun, W: Wait, G: Gate>(
    rt: &W,
    gate: &G,
    course: &Course<R>,
    client: &mut UnitClient,
    counts: &mut Counts,
    reply: Reply<R>,
    asks: &mut Outbox<Request<J, R>>,
) -> Result<(), OutOfMemory>
    ensures heard { OnOk result (counts.new.heard ≡ heard_after (is_again reply) counts.old.heard) }
    ensures history { OnOk result ((H : ℕ) (E : List Entry) → Follows client.old H
        (plan R.number R.unit R.count) E → Follows client.new H (plan R.number R.unit R.count)
        (after_heard (is_again reply) H counts.old.heard (heard_reply reply E))) }
    ensures asks { OnOk result
        ((H : ℕ) (E : List Entry) → Follows client.old H (plan R.number R.unit R.count) E → asks.new
        ≡ asks.old ++ asks_after (is_again reply) H counts.old.heard (heard_reply reply E)) }
{
    if !is_again(&reply) {
        hear_reply(client, reply)?;
        return Ok(());
    }
    let work = counts.next(course);
    gate.before(work);
    hear_reply(client, reply)?;
    gate.after(work);
    tick(rt, client, counts, asks)
}

// The client hears what comes next. Says whether more may come.
fn hear_next<J: Naming, R: DrillRun + FixedRun, W: Wait + Clock, G: Gate>(
    rt: &W,
    gate: &G,
    course: &Course<R>,
    links: &mut Links<J, R>,
    counts: &mut Counts,
    client: &mut UnitClient,
) -> Result<bool, OutOfMemory>
    requires { FollowsOn client.old drill_kept (plan R.number R.unit R.count) }
    ensures { OnOk result (FollowsOn client.new drill_kept (plan R.number R.unit R.count)) }
{
    match links.next(rt) {
        Next::NoWords | Next::Word(Word::Last) => Ok(false),
        Next::NoReplies => {
            links.served = false;
            Ok(true)
        }
        Next::Word(word) => {
            take_word(rt, gate, course, client, counts, &word, &mut links.asks)?;
            Ok(true)
        }
        Next::Reply(reply) => {
            take_reply(rt, gate, course, client, counts, reply, &mut links.asks)?;
            Ok(true)
        }
    }
}

// The client hears its publisher and its service until the publisher's last word or end.
fn hear_to_end<J: Naming, R: DrillRun + FixedRun, W: Wait + Clock, G: Gate>(
    rt: &W,
    gate: &G,
    course: &Course<R>,
    links: &mut Links<J, R>,
    client: &mut UnitClient,
) -> Result<(), OutOfMemory>
    requires { FollowsOn client.old drill_kept (plan R.number R.unit R.count) }
    ensures { OnOk result (FollowsOn client.new drill_kept (plan R.number R.unit R.count)) }
{
    let mut counts = Counts { heard: 0, step: 0 };
    'said: for _ in rt.forever() {
        if !hear_next(rt, gate, course, links, &mut counts, client)? {
            break;
        }
    }
    Ok(())
}

// Makes a client, and has it hear all that comes through its links.
fn follow_through<J: Naming, R: DrillRun + FixedRun, W: Wait + Clock, G: Gate>(
    rt: &W,
    alloc: Global,
    gate: &G,
    course: &Course<R>,
    links: &mut Links<J, R>,
) -> Result<UnitClient, OutOfMemory>
    ensures { IfOk result (λ client. FollowsOn client drill_kept (plan R.number R.unit R.count)) }
{
    plan_is_in_order();
    let mut client = begin(alloc, drill_hold())?;
    match hear_to_end(rt, gate, course, links, &mut client) {
        Ok(()) => Ok(client),
        Err(error) => {
            drop(client);
            Err(error)
        }
    }
}

/// Makes a client, and has it hear its publisher and its service until the publisher's last word or
/// end. It ticks after every ten datagrams.
pub(crate) fn follow<J: Naming, R: DrillRun + FixedRun, W: Wait + Clock, G: Gate>(
    rt: &W,
    alloc: Global,
    gate: &G,
    course: &Course<R>,
    ends: ClientEnds<J, R>,
) -> Result<UnitClient, OutOfMemory>
    // Whatever came, it follows the run's messages.
    ensures { IfOk result (λ client. FollowsOn client drill_kept (plan R.number R.unit R.count)) }
{
    let mut links = Links::make(alloc, ends);
    let followed = follow_through(rt, alloc, gate, course, &mut links);
    drop(links);
    followed
}
