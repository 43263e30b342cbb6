//! What a proxy's end answers to each message: logins and gap requests.

ghost use Rattle.std.specs.Prelude.{◌≡◌, Bool, true, List, ◌++◌, OnOk};
ghost use Rattle.unit_packets.specs.Packing.{bytes_in};
ghost use Rattle.pitch_messages.specs.declared.session.SessionMessage.TheVariants.{GapReply};
ghost use Rattle.gap_store.specs.Look.{View};
ghost use Rattle.gap_store.specs.layers.Looking.{IsLater};
ghost use Rattle.session_ends.specs.layers.Hearings.{Hears, Serves};
ghost use Rattle.session_ends.specs.layers.Showing.{ShowsLater, Lasts};
ghost use Rattle.session_ends.specs.Sending.{sent_bytes};
ghost use Rattle.grp_session.specs.Budget.{Spent, Limits, Counted};
ghost use Rattle.grp_session.specs.Serving.{request_answer, message_answer, grp_answer};

use crate::asking::{GapRange, ask};
use crate::budget::GapBudget;
use gap_store::GapLookup;
use pitch_fields::OutOfMemory;
use pitch_messages::session::SessionMessage;
use session_ends::{Answers, End, Heard, Said};
use std::alloc::Global;
use unit_packets::DatagramList;

/// What the proxy has beside a gap source, which is there or not: a budget, and what goes on the
/// gap line.
#[derive(Drop)]
pub(crate) struct Desk {
    pub alloc: Global,
    pub there: bool,
    pub budget: GapBudget,
    pub lines: DatagramList,
}

// Appends the reply to a gap request.
fn put_status(
    end: &End,
    range: GapRange,
    status: u8,
    reply: &mut Vec<u8>,
) -> Result<(), OutOfMemory>
    ensures { OnOk result (reply.new.items ≡ reply.old.items
        ++ sent_bytes end.now.setup (GapReply range.unit range.first range.count status)) }
{
    end.put(
        &SessionMessage::GapReply {
            unit: range.unit,
            sequence: range.first,
            count: range.count,
            status,
        },
        reply,
    )
}

impl Desk {
    // Answers a gap request after an accepted login.
    fn answer_request<L: GapLookup>(
        &mut self,
        end: &End,
        range: GapRange,
        lookup: &mut L,
        reply: &mut Vec<u8>,
    ) -> Result<(), OutOfMemory>
        ensures same { L.still ≡ true → lookup.new ≡ lookup.old }
        ensures left { (view : View)
            → L.shows lookup.old view → ShowsLater IsLater (L.shows lookup.new) view }
        ensures there { self.new.there ≡ self.old.there }
        ensures limits { self.new.budget.limits ≡ self.old.budget.limits }
        ensures hears { OnOk result ((spent : Spent) (view : View)
            → Counted self.old.budget spent → L.shows lookup.old view → Hears (λ v. request_answer
            end.now.setup self.old.there self.old.budget.limits v spent range.unit range.first
            range.count) IsLater view (Counted self.new.budget) (L.shows lookup.new) reply.old.items
            reply.new.items (bytes_in self.old.lines.items) (bytes_in self.new.lines.items)) }
    {
        if range.unit != end.unit() {
            put_status(end, range, b'I', reply)?;
            return Ok(());
        }
        let status = ask(
            self.alloc,
            self.there,
            range,
            &mut self.budget,
            lookup,
            &mut self.lines,
        )?;
        put_status(end, range, status, reply)?;
        Ok(())
    }

    // Answers a message that the end reads.
    fn answer_message<L: GapLookup>(
        &mut self,
        end: &End,
        message: &SessionMessage,
        lookup: &mut L,
        reply: &mut Vec<u8>,
    ) -> Result<(), OutOfMemory>
        ensures same { L.still ≡ true → lookup.new ≡ lookup.old }
        ensures left { (view : View)
            → L.shows lookup.old view → ShowsLater IsLater (L.shows lookup.new) view }
        ensures there { self.new.there ≡ self.old.there }
        ensures limits { self.new.budget.limits ≡ self.old.budget.limits }
        ensures hears { OnOk result ((spent : Spent) (view : View)
            → Counted self.old.budget spent → L.shows lookup.old view → Hears (λ v. message_answer
            end.now.setup self.old.there self.old.budget.limits end.now.logged spent v message.now)
            IsLater view (Counted self.new.budget) (L.shows lookup.new) reply.old.items
            reply.new.items (bytes_in self.old.lines.items) (bytes_in self.new.lines.items)) }
    {
        match message {
            SessionMessage::Login {
                sub,
                user,
                password,
            } => {
                let status = end.login_status(sub, user, password);
                end.put(&SessionMessage::LoginReply { status }, reply)
            }
            SessionMessage::GapRequest {
                unit,
                sequence,
                count,
            } => {
                if !end.logged() {
                    return Ok(());
                }
                let range = GapRange {
                    unit: *unit,
                    first: *sequence,
                    count: *count,
                };
                self.answer_request(end, range, lookup, reply)?;
                Ok(())
            }
            SessionMessage::LoginReply { .. } => Ok(()),
            SessionMessage::GapReply { .. } => Ok(()),
            SessionMessage::SpinAvailable { .. } => Ok(()),
            SessionMessage::SpinRequest { .. } => Ok(()),
            SessionMessage::SpinReply { .. } => Ok(()),
            SessionMessage::SpinFinished { .. } => Ok(()),
        }
    }
}

impl<L: GapLookup> Answers<L> for Desk {
    ghost answered = { Serves (λ (desk : Self). (desk.there, desk.budget.limits))
        (λ (terms : Bool × Limits) s. grp_answer s terms.0 terms.1)
        (λ (desk : Self). Counted desk.budget) (λ (desk : Self). bytes_in desk.lines.items)
        L.shows IsLater };

    ghost kept = { Lasts L.still L.shows IsLater };

    fn answer(
        &mut self,
        end: &End,
        item: &Heard<'_>,
        lookup: &mut L,
        said: &mut Vec<u8>,
    ) -> Result<(), OutOfMemory> {
        let heard = end.said(item);
        match &heard {
            Said::Message(message) => {
                self.answer_message(end, message, lookup, said)?;
                Ok(())
            }
            Said::TooShort => Ok(()),
            Said::Skipped => Ok(()),
        }
    }
}
