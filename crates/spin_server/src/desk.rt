//! What the Spin Server's end answers to each message: logins and spin requests.

ghost use Rattle.std.specs.Prelude.{◌≡◌, Bool, true, List, [], ◌++◌, OnOk, Some, if◌then◌else◌};
ghost use Rattle.pitch_messages.specs.declared.session.SessionMessage.TheVariants.{SpinReply};
ghost use Rattle.session_ends.specs.layers.Hearings.{Hears, Serves};
ghost use Rattle.session_ends.specs.layers.Showing.{ShowsLater, Lasts};
ghost use Rattle.session_ends.specs.Closing.{Setup, login_status};
ghost use Rattle.session_ends.specs.Sending.{sent_bytes};
ghost use Rattle.spin_server.specs.Served.{Served};
ghost use Rattle.spin_server.specs.layers.Looking.{ServedLater};
ghost use Rattle.spin_server.specs.Serving.{available_bytes, spin_answer, spin_login_answer};
ghost use Rattle.spin_server.specs.Serving.{spin_request_answer, spin_message_answer};

use crate::lookup::{ImageLookup, Imaged};
use crate::spin::Spin;
use pitch_fields::OutOfMemory;
use pitch_messages::RawList;
use pitch_messages::session::SessionMessage;
use session_ends::{Answers, End, Heard, Said};
use std::alloc::Global;

/// What the server has beside an image source: the image that it is sending.
#[derive(Drop)]
pub(crate) struct Desk {
    pub alloc: Global,
    pub spin: Option<Spin>,
}

// How a request is answered while a spin runs: `S`, or `O` where its image is not served.
fn running_status(served: bool) -> u8
    ensures { result ≡ (if served then 83 else 79) }
{
    if served { b'S' } else { b'O' }
}

// Appends the newest sequence that is advertised, where there is one.
fn put_available(end: &End, newest: Option<u32>, reply: &mut Vec<u8>) -> Result<(), OutOfMemory>
    ensures { OnOk result
        (reply.new.items ≡ reply.old.items ++ available_bytes end.now.setup newest) }
{
    match newest {
        None => Ok(()),
        Some(sequence) => end.put(&SessionMessage::SpinAvailable { sequence }, reply),
    }
}

// Appends the reply to a spin request, with the number of orders of its image.
fn put_status(
    end: &End,
    sequence: u32,
    orders: u32,
    status: u8,
    reply: &mut Vec<u8>,
) -> Result<(), OutOfMemory>
    ensures { OnOk result (reply.new.items ≡ reply.old.items
        ++ sent_bytes end.now.setup (SpinReply sequence orders status)) }
{
    end.put(
        &SessionMessage::SpinReply {
            sequence,
            orders,
            status,
        },
        reply,
    )
}

impl Desk {
    // Answers a login: with its status, and the newest sequence after an accepted one.
    fn answer_login<L: ImageLookup>(
        &self,
        end: &End,
        sub: &[u8; 4],
        user: &[u8; 4],
        password: &[u8; 10],
        lookup: &mut L,
        reply: &mut Vec<u8>,
    ) -> Result<(), OutOfMemory>
        ensures same { L.still ≡ true → lookup.new ≡ lookup.old }
        ensures left { (view : Served)
            → L.shows lookup.old view → ShowsLater ServedLater (L.shows lookup.new) view }
        // Of every view that the look-up shows before: it is answered right at a view that it shows
        // after, which is no earlier.
        ensures hears { OnOk result ((view : Served)
            → L.shows lookup.old view → Hears (λ v. spin_login_answer end.now.setup
            (login_status end.now.setup end.now.logged sub.now user.now password.now)
            v self.now.spin) ServedLater view (λ spin. spin ≡ self.now.spin)
            (L.shows lookup.new) reply.old.items reply.new.items [] []) }
    {
        let status = end.login_status(sub, user, password);
        end.put(&SessionMessage::LoginReply { status }, reply)?;
        if status != b'A' {
            return Ok(());
        }
        let newest = lookup.newest();
        put_available(end, newest, reply)?;
        Ok(())
    }

    // Answers a spin request after an accepted login.
    fn answer_request<L: ImageLookup>(
        &mut self,
        end: &End,
        sequence: u32,
        lookup: &mut L,
        reply: &mut Vec<u8>,
    ) -> Result<(), OutOfMemory>
        ensures same { L.still ≡ true → lookup.new ≡ lookup.old }
        ensures left { (view : Served)
            → L.shows lookup.old view → ShowsLater ServedLater (L.shows lookup.new) view }
        // Of every view that the look-up shows before: it is answered right at a view that it shows
        // after, which is no earlier.
        ensures hears { OnOk result ((view : Served) → L.shows lookup.old view
            → Hears (λ v. spin_request_answer end.now.setup v sequence self.old.spin)
            ServedLater view (λ spin. spin ≡ self.new.spin)
            (L.shows lookup.new) reply.old.items reply.new.items [] []) }
    {
        if self.spin.is_some() {
            let status = running_status(lookup.has_image(sequence));
            put_status(end, sequence, 0, status, reply)?;
            return Ok(());
        }
        let mut image = RawList::make(self.alloc);
        match lookup.image(sequence, &mut image)? {
            Imaged::NotAdvertised => {
                put_status(end, sequence, 0, b'O', reply)?;
                Ok(())
            }
            Imaged::Image { orders } => {
                let spin = Spin::make(self.alloc, end.header_unit(), sequence, image.raws())?;
                put_status(end, sequence, orders, b'A', reply)?;
                self.spin = Some(spin);
                Ok(())
            }
        }
    }

    // Answers a message that the end reads.
    fn answer_message<L: ImageLookup>(
        &mut self,
        end: &End,
        message: &SessionMessage,
        lookup: &mut L,
        reply: &mut Vec<u8>,
    ) -> Result<(), OutOfMemory>
        ensures same { L.still ≡ true → lookup.new ≡ lookup.old }
        ensures left { (view : Served)
            → L.shows lookup.old view → ShowsLater ServedLater (L.shows lookup.new) view }
        // Of every view that the look-up shows before: it is answered right at a view that it shows
        // after, which is no earlier.
        ensures hears { OnOk result ((view : Served) → L.shows lookup.old view
            → Hears (λ v. spin_message_answer end.now.setup end.now.logged
            self.old.spin v message.now) ServedLater view (λ spin. spin ≡ self.new.spin)
            (L.shows lookup.new) reply.old.items reply.new.items [] []) }
    {
        match message {
            SessionMessage::Login {
                sub,
                user,
                password,
            } => {
                self.answer_login(end, sub, user, password, lookup, reply)?;
                Ok(())
            }
            SessionMessage::SpinRequest { sequence } => {
                if !end.logged() {
                    return Ok(());
                }
                self.answer_request(end, *sequence, lookup, reply)?;
                Ok(())
            }
            SessionMessage::LoginReply { .. } => Ok(()),
            SessionMessage::GapRequest { .. } => Ok(()),
            SessionMessage::GapReply { .. } => Ok(()),
            SessionMessage::SpinAvailable { .. } => Ok(()),
            SessionMessage::SpinReply { .. } => Ok(()),
            SessionMessage::SpinFinished { .. } => Ok(()),
        }
    }
}

impl<L: ImageLookup> Answers<L> for Desk {
    ghost answered = { Serves (λ (desk : Self). tt) (λ (terms : Unit {0}) s. spin_answer s)
        (λ (desk : Self) spin. spin ≡ desk.spin) (λ (desk : Self). []) L.shows ServedLater };

    ghost kept = { Lasts L.still L.shows ServedLater };

    fn answer(
        &mut self,
        end: &End,
        item: &Heard<'_>,
        lookup: &mut L,
        said: &mut Vec<u8>,
    ) -> Result<(), OutOfMemory> {
        let heard = end.said(item);
        match &heard {
            Said::Message(message) => {
                self.answer_message(end, message, lookup, said)?;
                Ok(())
            }
            Said::TooShort => Ok(()),
            Said::Skipped => Ok(()),
        }
    }
}
