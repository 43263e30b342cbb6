//! What a link tells of what it reads: an item of each message, and one of each run of others.

ghost use Rattle.std.specs.Prelude.{◌≡◌, List, [], ◌++◌, map, OnOk};
ghost use Rattle.session_ends.specs.declared.inbox.Heard.{Heard};
ghost use Rattle.client_links.specs.Telling.{without_spare, hands_out, run_of, told_of, tells_on};
ghost use Rattle.client_links.specs.Telling.{message_tells};
ghost use Rattle.client_links.specs.layers.Answering.{Tells};

use heard_items::Item;
use pitch_fields::OutOfMemory;
use pitch_messages::RawList;
use pitch_messages::session::SessionMessage;
use session_ends::{Answers, End, Heard, LentRaw, Role, Said};
use std::alloc::Global;
use std::mem::replace;

/// What a link is about to tell, and a run of other messages that has begun.
#[derive(Drop)]
pub(crate) struct Desk {
    pub alloc: Global,
    pub run: RawList,
    pub told: Vec<Item>,
}

// Whether a link hands other messages out.
fn hands_out(role: Role) -> bool
    ensures { result ≡ hands_out role }
{
    match role {
        Role::SpinLink => true,
        Role::GapLink => false,
        Role::GrpServer => false,
        Role::SpinServer => false,
    }
}

// Appends what a message tells that does not close a link.
fn tell(spin: bool, message: &SessionMessage, told: &mut Vec<Item>) -> Result<(), OutOfMemory>
    ensures { OnOk result (told.new.items ≡ told.old.items ++ told_of spin message.now) }
{
    match message {
        SessionMessage::LoginReply { status } => {
            if *status != b'A' {
                return Ok(());
            }
            if spin {
                told.push(Item::SpinUp)?;
                return Ok(());
            }
            told.push(Item::GrpUp)?;
            Ok(())
        }
        SessionMessage::GapReply {
            sequence,
            count,
            status,
            ..
        } => {
            told.push(Item::GapReply {
                sequence: *sequence,
                count: *count,
                status: *status,
            })?;
            Ok(())
        }
        SessionMessage::SpinAvailable { sequence } => {
            told.push(Item::Advertised {
                sequence: *sequence,
            })?;
            Ok(())
        }
        SessionMessage::SpinReply {
            sequence,
            orders,
            status,
        } => {
            told.push(Item::SpinReply {
                sequence: *sequence,
                orders: *orders,
                status: *status,
            })?;
            Ok(())
        }
        SessionMessage::SpinFinished { sequence } => {
            told.push(Item::SpinFinished {
                sequence: *sequence,
            })?;
            Ok(())
        }
        SessionMessage::Login { .. } => Ok(()),
        SessionMessage::GapRequest { .. } => Ok(()),
        SessionMessage::SpinRequest { .. } => Ok(()),
    }
}

impl Desk {
    // Tells a run of other messages, and begins the next.
    pub fn put_run(&mut self, end: &End) -> Result<(), OutOfMemory>
        ensures told { OnOk result (map without_spare self.new.told.items
            ≡ map without_spare self.old.told.items
            ++ run_of end.now.setup.role self.old.run.items) }
        ensures run { OnOk result (self.new.run.items ≡ []) }
    {
        if self.run.len() == 0 {
            return Ok(());
        }
        let raws = replace(&mut self.run, RawList::make(self.alloc));
        if !hands_out(end.role()) {
            return Ok(());
        }
        self.told.push(Item::ImageMessages { raws })?;
        Ok(())
    }

    // Hears a message that says something.
    fn hear_message(&mut self, end: &End, said: &Said, raw: &LentRaw<'_>) -> Result<(), OutOfMemory>
        ensures { OnOk result ((rest : List Heard) → map without_spare self.new.told.items
            ++ tells_on end.now.setup.role self.new.run.items rest
            ≡ map without_spare self.old.told.items
            ++ message_tells end.now.setup.role said.now raw.now self.old.run.items rest) }
    {
        match said {
            Said::Skipped => {
                self.run.push_bytes(raw.bytes())?;
                Ok(())
            }
            Said::TooShort => {
                self.put_run(end)?;
                Ok(())
            }
            Said::Message(message) => {
                self.put_run(end)?;
                tell(hands_out(end.role()), message, &mut self.told)?;
                Ok(())
            }
        }
    }
}

impl Answers<()> for Desk {
    ghost answered = { Tells (λ (desk : Self). map without_spare desk.told.items)
        (λ (desk : Self). desk.run.items) };

    ghost kept = { λ first now. Unit {0} };

    fn answer(
        &mut self,
        end: &End,
        item: &Heard<'_>,
        _source: &mut (),
        _said: &mut Vec<u8>,
    ) -> Result<(), OutOfMemory> {
        match item {
            Heard::Message { raw, .. } => {
                let said = end.said(item);
                self.hear_message(end, &said, raw)?;
                Ok(())
            }
            Heard::BlockEnd => {
                self.put_run(end)?;
                Ok(())
            }
            Heard::Broken(_) => {
                self.put_run(end)?;
                Ok(())
            }
        }
    }
}
