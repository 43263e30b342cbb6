//! What is known of an input.

ghost use Rattle.std.specs.Prelude.{◌≡◌};
ghost use Rattle.venue_sockets.specs.layers.Inputs.{after_second, after_told, being_read};
ghost use Rattle.venue_sockets.specs.layers.Inputs.{told_of_file, unread};

use venue_net::InputRead;

/// What is known of an input.
#[derive(Clone, Copy, PartialEq, Eq)]
pub enum State {
    /// The wait tells when something is there.
    Waited,
    /// The wait told that something may be there.
    Told,
    /// A file, in which something is always there, or a plan of which more may be due. No wait has
    /// told so since it was read.
    File,
    /// Such a one of which a wait told.
    ToldFile,
    /// A plan of which no more is due before the next second.
    Resting,
    /// It is at its end.
    Ended,
}

impl State {
    /// The wait told of it.
    pub(crate) fn after_told(self) -> State
        ensures { result ≡ after_told self }
    {
        match self {
            State::Waited => State::Told,
            state => state,
        }
    }

    /// The next wait tells of a file or a plan that was read, or of a new one.
    pub(crate) fn told_of_file(self) -> State
        ensures { result ≡ told_of_file self }
    {
        match self {
            State::File => State::ToldFile,
            state => state,
        }
    }

    /// A second has passed.
    pub(crate) fn after_second(self) -> State
        ensures { result ≡ after_second self }
    {
        match self {
            State::Resting => State::File,
            state => state,
        }
    }

    /// What is answered without a read, where one might wait.
    pub(crate) fn unread(self) -> Option<InputRead>
        ensures { result ≡ unread self }
    {
        match self {
            State::Waited | State::Resting => Some(InputRead::Quiet),
            State::Told | State::File | State::ToldFile => None,
            State::Ended => Some(InputRead::Ended),
        }
    }

    /// It is read. The next wait tells of what is left.
    pub(crate) fn being_read(self) -> State
        ensures { result ≡ being_read self }
    {
        match self {
            State::Told => State::Waited,
            State::ToldFile => State::File,
            state => state,
        }
    }
}
