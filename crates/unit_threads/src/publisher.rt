//! The publisher.

ghost use Rattle.std.specs.Prelude.{◌≡◌, ◌+◌, ◌-◌, ◌*◌, ◌≤◌, ◌<◌, ◌++◌, ◌∷◌, [], length, map, OnOk};
ghost use Rattle.std.specs.Prelude.{IfOk};
ghost use Rattle.std.specs.List.{AllByRecursion};
ghost use Rattle.unit_packets.specs.Packing.{bytes_in};
ghost use Rattle.pitch_model.specs.Advertising.{accepted_by};
ghost use Rattle.heard_items.specs.Datagrams.{IsPiece};
ghost use Rattle.venue_core.specs.Plan.{plan};
ghost use Rattle.drill_client.specs.declared.words.Word.TheVariants.{Sent, Last};
ghost use Rattle.unit_threads.specs.layers.Publishing.{HasAccepted, HasAdvertised};
ghost use Rattle.drill_client.specs.layers.Played.{command_datagrams, is_round};
ghost use Rattle.unit_threads.specs.layers.Saying.{line_words, round_words, words_for_command};
ghost use Rattle.unit_threads.specs.layers.Saying.{words_through};
ghost use Rattle.unit_threads.specs.layers.Telling.{told_in, told_with};

use crate::course::Course;
use crate::ends::{PublisherEnds, Request};
use crate::outbox::Outbox;
use drill_client::{Datagram, DrillRun, ROUND, Reached, Word};
use heard_items::laws::packed_messages_are_pieces;
use pitch_fields::OutOfMemory;
use pitch_io::{Gate, Role};
use pitch_messages::{ByteList, RawList};
use pitch_model::laws::operations_add_up;
use shared_unit::{FixedRun, Naming, Writer};
use std::alloc::Global;
use std::sync::Wait;
use std::thread::yield_now;
use unit_packets::{DatagramList, pack};
use venue_core::{VenueError, lost, plan_command, plan_is_accepted, plan_is_in_order};

// So many words may wait before a publisher yields.
const MANY_WORDS: usize = 8192;

// How often a publisher yields in all.
const MOST_YIELDS: u32 = 20_000;

// What the publisher sends on: words to its client, and what its service is told.
#[derive(Drop)]
struct Outgoing<J: Naming, R: DrillRun + FixedRun> {
    words: Outbox<Word<R>>,
    told: Outbox<Request<J, R>>,
}

impl<J: Naming, R: DrillRun + FixedRun> Outgoing<J, R> {
    // Nothing was sent yet.
    fn make(alloc: Global, ends: PublisherEnds<J, R>) -> Outgoing<J, R>
        ensures { result.words ≡ [] }
    {
        let PublisherEnds { words, told } = ends;
        Outgoing {
            words: Outbox::make(alloc, words),
            told: Outbox::make(alloc, told),
        }
    }
}

// The writer accepts command `index` of the plan.
fn accept<J: Naming, R: DrillRun + FixedRun, H: Wait + Drop>(
    writer: &mut Writer<J, R, H>,
    course: &Course<R>,
    index: u32,
) -> Result<(), OutOfMemory>
    requires index { (1 ≤ index) × (index ≤ course.now.count) }
    requires before { HasAccepted writer.old.history course.now.number course.now.unit
        (index - 1) (2 * (index - 1)) }
    ensures { OnOk result
        (HasAccepted writer.new.history course.now.number course.now.unit index (2 * index - 1)) }
{
    plan_is_accepted();
    match writer.accept(&plan_command(course.number, course.unit, index)) {
        Ok(_) => Ok(()),
        Err(VenueError::OutOfMemory) => Err(OutOfMemory),
        Err(_) => unreachable!(),
    }
}

// The datagram of the message of command `index`, which was accepted last.
fn packed_last<J: Naming, R: DrillRun + FixedRun, H: Wait + Drop>(
    alloc: Global,
    writer: &Writer<J, R, H>,
    course: &Course<R>,
    index: u32,
) -> Result<DatagramList, OutOfMemory>
    requires index { (1 ≤ index) × (index ≤ course.now.count) }
    requires accepted { HasAccepted writer.now.history course.now.number course.now.unit index
        (2 * index - 1) }
    ensures datagrams { IfOk result
        (λ list. bytes_in list.items ≡ command_datagrams course.now.number course.now.unit index) }
    ensures pieces { IfOk result (λ list.
        AllByRecursion (IsPiece (plan R.number R.unit R.count) R.unit) (bytes_in list.items)) }
{
    packed_messages_are_pieces();
    let Some(raw) = writer.last_raw() else {
        unreachable!();
    };
    let mut last = RawList::make(alloc);
    last.push(raw)?;
    let mut out = DatagramList::make(alloc);
    pack(alloc, course.unit, index, last.raws(), &mut out)?;
    Ok(out)
}

// Datagrams that can be shared, each with memory for just its bytes.
fn shared_copies<R: DrillRun>(
    alloc: Global,
    datagrams: &[ByteList],
) -> Result<Vec<Datagram<R>>, OutOfMemory>
    requires { AllByRecursion
        (IsPiece (plan R.number R.unit R.count) R.unit) (bytes_in datagrams.now) }
    ensures { IfOk result (λ shared. shared.items ≡ bytes_in datagrams.now) }
{
    let mut shared = Vec::new(alloc);
    'copied: for datagram in datagrams {
        let copy = Datagram::of_bytes(alloc, datagram.bytes())?;
        shared.push(copy)?;
    }
    Ok(shared)
}

// The datagrams of the message of command `index`, which was accepted last, as both lines share
// them.
fn shared_last<J: Naming, R: DrillRun + FixedRun, H: Wait + Drop>(
    alloc: Global,
    writer: &Writer<J, R, H>,
    course: &Course<R>,
    index: u32,
) -> Result<Vec<Datagram<R>>, OutOfMemory>
    requires index { (1 ≤ index) × (index ≤ course.now.count) }
    requires accepted { HasAccepted writer.now.history course.now.number course.now.unit index
        (2 * index - 1) }
    ensures { IfOk result (λ shared. shared.items
        ≡ command_datagrams course.now.number course.now.unit index) }
{
    let packed = packed_last(alloc, writer, course, index)?;
    shared_copies(alloc, packed.as_slice())
}

// Sends datagrams, which go on being shared.
fn send_copies<R: DrillRun, W: Wait>(
    rt: &W,
    datagrams: &[Datagram<R>],
    words: &mut Outbox<Word<R>>,
) -> Result<(), OutOfMemory>
    ensures { OnOk result (words.new ≡ words.old ++ map Sent datagrams.now) }
{
    'shared: for datagram in datagrams {
        let copy = datagram.again()?;
        words.send(rt, Word::Sent(copy))?;
    }
    Ok(())
}

// Sends the datagrams of command `index` on one line, unless this copy is lost.
fn send_on<R: DrillRun + FixedRun, W: Wait>(
    rt: &W,
    course: &Course<R>,
    index: u32,
    line: u8,
    datagrams: &[Datagram<R>],
    words: &mut Outbox<Word<R>>,
) -> Result<(), OutOfMemory>
    requires { datagrams.now ≡ command_datagrams course.now.number course.now.unit index }
    ensures { OnOk result
        (words.new ≡ words.old ++ line_words course.now.number course.now.unit index line) }
{
    if lost(course.number, course.unit, index, line) {
        return Ok(());
    }
    send_copies(rt, datagrams, words)
}

// Sends the message of command `index` on both lines, but for the copies that are lost.
fn send_last<J: Naming, R: DrillRun + FixedRun, H: Wait + Drop, W: Wait>(
    rt: &W,
    alloc: Global,
    writer: &Writer<J, R, H>,
    course: &Course<R>,
    index: u32,
    words: &mut Outbox<Word<R>>,
) -> Result<(), OutOfMemory>
    requires index { (1 ≤ index) × (index ≤ course.now.count) }
    requires accepted { HasAccepted writer.now.history course.now.number course.now.unit index
        (2 * index - 1) }
    ensures { OnOk result (words.new ≡ (words.old ++ line_words course.now.number
        course.now.unit index 1) ++ line_words course.now.number course.now.unit index 2) }
{
    let sent = shared_last(alloc, writer, course, index)?;
    send_on(rt, course, index, 1, sent.as_slice(), words)?;
    send_on(rt, course, index, 2, sent.as_slice(), words)
}

// Whether it is time to advertise: after every 1,000th command, and after the last.
fn is_round(index: u32, count: u32) -> bool
    ensures { result ≡ is_round index count }
{
    index % ROUND == 0 || index == count
}

// The writer advertises all that it accepted, the commands up to `index`.
fn advertise_all<J: Naming, R: DrillRun + FixedRun, H: Wait + Drop>(
    writer: &mut Writer<J, R, H>,
    course: &Course<R>,
    index: u32,
) -> Result<Reached<R>, OutOfMemory>
    requires index { (1 ≤ index) × (index ≤ course.now.count) }
    requires accepted { HasAccepted writer.old.history course.now.number course.now.unit index
        (2 * index - 1) }
    ensures accepted { OnOk result
        (HasAccepted writer.new.history course.now.number course.now.unit index (2 * index)) }
    ensures advertised { OnOk result (HasAdvertised writer.new.history index) }
    ensures sequence { IfOk result (λ reached. reached ≡ index) }
{
    operations_add_up();
    plan_is_in_order();
    let sequence = writer.advertise()?;
    Ok(Reached::make(sequence))
}

// Advertises where it is time. The client hears the sequence, and the service is told.
#[tactic(auto, using(crate::proofs::Telling::told_more))]
fn advertise<J: Naming, R: DrillRun + FixedRun, H: Wait + Drop, W: Wait>(
    rt: &W,
    writer: &mut Writer<J, R, H>,
    course: &Course<R>,
    index: u32,
    to: &mut Outgoing<J, R>,
) -> Result<(), OutOfMemory>
    requires index { (1 ≤ index) × (index ≤ course.now.count) }
    requires accepted { HasAccepted writer.old.history course.now.number course.now.unit index
        (2 * index - 1) }
    ensures accepted { OnOk result
        (HasAccepted writer.new.history course.now.number course.now.unit index (2 * index)) }
    ensures last { OnOk result (index ≡ course.now.count → HasAdvertised writer.new.history index) }
    ensures words { OnOk result
        (to.new.words ≡ to.old.words ++ round_words index course.now.count) }
    // The service is told of all that the writer did.
    ensures told { OnOk result (told_in to.new.told
        ≡ told_in to.old.told ++ told_with writer.new.history index course.now.count) }
{
    if !is_round(index, course.count) {
        return Ok(());
    }
    let reached = advertise_all(writer, course, index)?;
    to.words.send(rt, Word::Advertised(reached))?;
    to.told.send(rt, Request::Told(writer.tell()))
}

// Command `index` of the plan: it is accepted and sent, and advertised where it is time.
fn publish_one<J: Naming, R: DrillRun + FixedRun, H: Wait + Drop, W: Wait>(
    rt: &W,
    alloc: Global,
    writer: &mut Writer<J, R, H>,
    course: &Course<R>,
    index: u32,
    to: &mut Outgoing<J, R>,
) -> Result<(), OutOfMemory>
    requires index { (1 ≤ index) × (index ≤ course.now.count) }
    requires before { HasAccepted writer.old.history course.now.number course.now.unit
        (index - 1) (2 * (index - 1)) }
    ensures accepted { OnOk result
        (HasAccepted writer.new.history course.now.number course.now.unit index (2 * index)) }
    ensures last { OnOk result (index ≡ course.now.count → HasAdvertised writer.new.history index) }
    ensures words { OnOk result (to.new.words ≡ to.old.words
        ++ words_for_command course.now.number course.now.unit course.now.count index) }
    ensures told { OnOk result (told_in to.new.told
        ≡ told_in to.old.told ++ told_with writer.new.history index course.now.count) }
{
    accept(writer, course, index)?;
    send_last(rt, alloc, writer, course, index, &mut to.words)?;
    advertise(rt, writer, course, index, to)
}

// After each round: lets other threads run while many words wait for the client, as long as any of
// the yields are left. So it waits for no party, and only puts off what it does next.
fn give_way<R: DrillRun>(index: u32, count: u32, words: &Outbox<Word<R>>, yields: &mut u32) {
    if !is_round(index, count) {
        return;
    }
    'looks: for _ in 0..*yields {
        if words.waiting() <= MANY_WORDS {
            return;
        }
        yield_now();
        *yields = yields.saturating_sub(1);
    }
}

// Publishes the commands of the course. The last word to the client comes after all else.
fn publish_all<J: Naming, R: DrillRun + FixedRun, H: Wait + Drop, W: Wait, G: Gate>(
    rt: &W,
    alloc: Global,
    gate: &G,
    course: &Course<R>,
    writer: &mut Writer<J, R, H>,
    to: &mut Outgoing<J, R>,
) -> Result<(), OutOfMemory>
    requires writer { writer.old.history ≡ [] }
    requires words { to.old.words ≡ [] }
    // All commands were accepted, and the image of all was advertised.
    ensures accepted { OnOk result (HasAccepted writer.new.history
        course.now.number course.now.unit course.now.count (2 * course.now.count)) }
    ensures advertised { OnOk result (HasAdvertised writer.new.history course.now.count) }
    // The client was told of each command, and that nothing more comes.
    ensures words { OnOk result (to.new.words ≡ words_through
        course.now.number course.now.unit course.now.count course.now.count ++ Last ∷ []) }
{
    let mut yields = MOST_YIELDS;
    'commands: for before in 0..course.count {
        let work = course.work(Role::Publisher, before + 1);
        gate.before(work);
        publish_one(rt, alloc, writer, course, before + 1, to)?;
        gate.after(work);
        give_way(before + 1, course.count, &to.words, &mut yields);
    }
    to.words.send(rt, Word::Last)
}

/// Publishes the commands of the course, and hands the writer back.
pub(crate) fn publish<J: Naming, R: DrillRun + FixedRun, H: Wait + Drop, W: Wait, G: Gate>(
    rt: &W,
    alloc: Global,
    gate: &G,
    course: &Course<R>,
    mut writer: Writer<J, R, H>,
    ends: PublisherEnds<J, R>,
) -> Result<Writer<J, R, H>, OutOfMemory>
    requires { writer.history ≡ [] }
    // All commands were accepted, and the image of all was advertised.
    ensures accepted { IfOk result (λ writer. HasAccepted
        writer.history course.now.number course.now.unit course.now.count (2 * course.now.count)) }
    ensures advertised { IfOk result (λ writer. HasAdvertised writer.history course.now.count) }
{
    let mut to = Outgoing::make(alloc, ends);
    let published = publish_all(rt, alloc, gate, course, &mut writer, &mut to);
    drop(to);
    match published {
        Ok(()) => Ok(writer),
        Err(error) => {
            drop(writer);
            Err(error)
        }
    }
}
