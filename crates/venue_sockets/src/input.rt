//! The input of commands: a stream, or a text that the venue makes itself.

ghost use Rattle.std.specs.Prelude.{◌≡◌, ◌≢◌, ◌↔◌, ◌<◌, length, true, IfOk, IfErr, Ok, Err};
ghost use Rattle.std.specs.Prelude.{Some};
ghost use Rattle.std.specs.IoError.{error_kind};
ghost use Rattle.venue_net.specs.VenueCalls.{ReadFailed, ReadWithin};
ghost use Rattle.venue_sockets.specs.layers.Inputs.{IsQuiet, after_second, after_told, being_read};
ghost use Rattle.venue_sockets.specs.layers.Inputs.{input_gives, told_of_file, unread};

use crate::state::State;
use line_sockets::{ask_again, register_input};
use mio::Registry;
use pitch_fields::OutOfMemory;
use std::io;
use std::io::{ErrorKind, Read};
use std::marker::Model;
use std::os::fd::AsRawFd;
use venue_net::InputRead;
use venue_plan::PlanText;

/// Where a venue's commands come from.
#[derive(Drop)]
pub enum VenueInput<I> {
    /// A stream, as standard input is.
    Stream(I),
    /// A text that the venue makes itself, second by second. No stream is read then.
    Plan(PlanText),
}

/// An input that is read no more often than a read returns at once.
#[derive(Drop)]
pub struct Input<I> {
    source: VenueInput<I>,
    state: State,
}

impl<I> Model for Input<I> {
    ghost use Rattle.venue_sockets.specs.declared.state.State.{State};

    ghost Value = { State };

    ghost view = { λ i. i.state };
}

// The answer of a read, or why it failed.
fn of_read(read: io::Result<usize>) -> io::Result<InputRead>
    ensures ok { IfOk read (λ n. result ≡ Ok (input_gives n)) }
    ensures quiet { IfErr read (λ e. IsQuiet (error_kind e) → result ≡ Ok InputRead.Quiet) }
    ensures err { IfErr read (λ e. ¬ IsQuiet (error_kind e) → result ≡ Err e) }
{
    match read {
        Ok(0) => Ok(InputRead::Ended),
        Ok(count) => Ok(InputRead::Got(count)),
        Err(error) => match error.kind() {
            ErrorKind::Interrupted | ErrorKind::WouldBlock => Ok(InputRead::Quiet),
            _ => Err(error),
        },
    }
}

// The answer of a plan, or that memory ran out.
fn of_plan(read: Result<InputRead, OutOfMemory>) -> io::Result<InputRead>
    ensures { IfOk result (λ answer. read ≡ Ok answer) }
{
    match read {
        Ok(answer) => Ok(answer),
        Err(_) => Err(io::Error::from(ErrorKind::OutOfMemory)),
    }
}

// Reads the next bytes of a source to the start of the slice.
fn read_from<I: Read>(source: &mut VenueInput<I>, into: &mut [u8]) -> io::Result<InputRead>
    requires { 0 < length into.old }
    ensures count { IfOk result (λ answer. ReadWithin answer into.new) }
    ensures fails { IfOk result (λ answer. ¬ ReadFailed answer) }
{
    match source {
        VenueInput::Stream(stream) => of_read(stream.read(into)),
        VenueInput::Plan(plan) => of_plan(plan.read(into)),
    }
}

// What is known at first of an input that is not closed.
fn first_state<I: AsRawFd>(source: &VenueInput<I>, registry: &Registry) -> io::Result<State>
    ensures { IfOk result (λ state. state ≢ State.Ended) }
{
    match source {
        VenueInput::Stream(stream) => {
            if register_input(stream, registry)? {
                Ok(State::Waited)
            } else {
                Ok(State::File)
            }
        }
        VenueInput::Plan(_) => Ok(State::File),
    }
}

// What is known after this answer of a read. A plan of which no more is due rests to the next
// second.
fn state_after<I>(source: &VenueInput<I>, answer: InputRead, state: State) -> State
    ensures ends { answer ≡ InputRead.Ended → result ≡ State.Ended }
    ensures goes_on { answer ≢ InputRead.Ended → state ≢ State.Ended → result ≢ State.Ended }
{
    match (answer, source) {
        (InputRead::Ended, _) => State::Ended,
        (InputRead::Quiet, VenueInput::Plan(_)) => State::Resting,
        _ => state,
    }
}

impl<I: Read + AsRawFd + Drop> Input<I> {
    /// An input. Of a stream the registry's wait tells, where it can be waited for; one that is
    /// closed is at its end.
    pub(crate) fn make(
        source: VenueInput<I>,
        registry: &Registry,
        is_closed: bool,
    ) -> io::Result<Input<I>>
        ensures { IfOk result (λ input. input ≡ State.Ended ↔ is_closed ≡ true) }
    {
        let state = if is_closed {
            State::Ended
        } else {
            first_state(&source, registry)?
        };
        Ok(Input { source, state })
    }

    /// The wait told of it.
    pub(crate) fn tell(&mut self)
        ensures { self.new ≡ after_told self.old }
    {
        self.state = self.state.after_told();
    }

    /// A second has passed, for which a plan has more.
    pub(crate) fn second(&mut self)
        ensures { self.new ≡ after_second self.old }
    {
        if let VenueInput::Plan(plan) = &mut self.source {
            plan.second();
        }
        self.state = self.state.after_second();
    }

    /// Tells of a file or a plan that was read, or of a new one. Answers whether it did.
    pub(crate) fn tell_file(&mut self) -> bool
        ensures told { result ≡ true ↔ self.old ≡ State.File }
        ensures after { self.new ≡ told_of_file self.old }
    {
        let is_new = self.state == State::File;
        self.state = self.state.told_of_file();
        is_new
    }

    /// Whether it is at its end.
    pub(crate) fn has_ended(&self) -> bool
        ensures { result ≡ true ↔ self.now ≡ State.Ended }
    {
        self.state == State::Ended
    }

    // Has the next wait tell again of what a read leaves.
    fn begin_read(&mut self, registry: &Registry) -> io::Result<()>
        ensures { IfOk result (λ _. self.new ≡ being_read self.old) }
    {
        if self.state == State::Told {
            if let VenueInput::Stream(stream) = &self.source {
                ask_again(stream, registry)?;
            }
        }
        self.state = self.state.being_read();
        Ok(())
    }

    /// Reads the next bytes to the start of the slice.
    pub(crate) fn read(&mut self, registry: &Registry, into: &mut [u8]) -> io::Result<InputRead>
        requires { 0 < length into.old }
        ensures count { IfOk result (λ answer. ReadWithin answer into.new) }
        ensures fails { IfOk result (λ answer. ¬ ReadFailed answer) }
        ensures unread { (answer : InputRead) → unread self.old ≡ Some answer
            → result ≡ Ok answer }
        ensures ends { IfOk result (λ answer.
            self.new ≡ State.Ended ↔ answer ≡ InputRead.Ended) }
    {
        if let Some(answer) = self.state.unread() {
            return Ok(answer);
        }
        self.begin_read(registry)?;
        let answer = read_from(&mut self.source, into)?;
        self.state = state_after(&self.source, answer, self.state);
        Ok(answer)
    }
}
