//! One end of a session, whatever its role: logins, closing, silence and heartbeats.

ghost use Rattle.std.specs.Prelude.{◌≡◌, ℕ, ◌+◌, ◌≤◌, ◌||◌, Bool, List, ◌++◌, OnOk, OnErr, IsOk};
ghost use Rattle.std.specs.Prelude.{IfOk, length, IfSome, None, Some, is_some, if◌then◌else◌};
ghost use Rattle.std.specs.List.{list_any};
ghost use Rattle.unit_packets.specs.Causes.{counted};
ghost use Rattle.unit_packets.specs.Pieces.{loaded, passed};
ghost use Rattle.session_ends.specs.declared.inbox.Heard.TheVariants.{Message};
ghost use Rattle.std.specs.Option.{option_map};
ghost use Rattle.pitch_messages.specs.declared.session.SessionMessage.{SessionMessage};
ghost use Rattle.session_ends.specs.declared.closed.CloseCause.TheVariants.{Memory};
ghost use Rattle.session_ends.specs.Closing.{has_sub, is_theirs, login_status, cause_of};
ghost use Rattle.session_ends.specs.Closing.{cause_of_said, logs_in, refused, too_early};
ghost use Rattle.session_ends.specs.Ending.{EndKnows, Known};
ghost use Rattle.session_ends.specs.layers.Ticking.{known_ticked, tick_bytes};
ghost use Rattle.session_ends.specs.layers.Ticking.{nothing_known};
ghost use Rattle.session_ends.specs.Items.{closed_at};
ghost use Rattle.session_ends.specs.Saying.{heard_by};
ghost use Rattle.session_ends.specs.Sending.{header_unit, sent_bytes, heartbeat_bytes, some_bytes};

use crate::account::Account;
use crate::closed::{CloseCause, Closed};
use crate::inbox::{Heard, Inbox};
use crate::lent::LentRaw;
use crate::role::{Role, Said};
use pitch_fields::OutOfMemory;
use pitch_messages::session::{SessionMessage, write};
use std::alloc::Global;
use std::marker::Model;
use unit_packets::{BlockReader, heartbeat, put_session};

/// An end of a session, apart from what it answers: what closes it, its silence and its
/// heartbeats.
#[derive(Drop)]
pub struct End {
    role: Role,
    unit: u8,
    accounts: Vec<Account>,
    in_use: bool,
    inbox: Inbox,
    logged: bool,
    closed: Option<Closed>,
    // Bytes came since the last tick.
    heard: bool,
    // So many silent ticks came last.
    silent: u8,
    // Something was sent since the last tick.
    sent: bool,
}

impl Model for End {
    ghost use Rattle.std.specs.Prelude.{◌≤◌};
    ghost use Rattle.session_ends.specs.Ending.{Ending};

    ghost Value = { Ending };

    ghost view = { λ e. record {
      setup = record {
        role = e.role;
        unit = e.unit;
        accounts = e.accounts.items;
        in_use = e.in_use;
      };
      inbox = e.inbox;
      logged = e.logged;
      closed = e.closed;
      heard = e.heard;
      silent = e.silent;
      sent = e.sent;
    } };

    ghost invariant = { λ e. e.silent ≤ 4 };
}

// An account has this sub id.
fn knows_sub(accounts: &[Account], sub: &[u8; 4]) -> bool
    ensures { result ≡ list_any (has_sub sub.now) accounts.now }
{
    accounts
        .iter()
        .any(|account| account.sub.as_slice() == sub.as_slice())
}

// An account has all three.
fn knows(accounts: &[Account], sub: &[u8; 4], user: &[u8; 4], password: &[u8; 10]) -> bool
    ensures { result ≡ list_any (is_theirs sub.now user.now password.now) accounts.now }
{
    accounts.iter().any(|account| {
        account.sub.as_slice() == sub.as_slice()
            && account.user.as_slice() == user.as_slice()
            && account.password.as_slice() == password.as_slice()
    })
}

// A status other than `A` closes an end.
fn refused(status: u8) -> Option<CloseCause>
    ensures { result ≡ refused status }
{
    if status == b'A' {
        return None;
    }
    Some(CloseCause::Refused { status })
}

// A request before an accepted login closes an end.
fn too_early(logged: bool) -> Option<CloseCause>
    ensures { result ≡ too_early logged }
{
    if logged {
        return None;
    }
    Some(CloseCause::NotLoggedIn)
}

// How many silent ticks came last, at a tick.
fn silent_at_tick(heard: bool, silent: u8) -> u8
    requires { silent ≤ 4 }
    ensures { result ≡ (if heard then 0 else (silent + 1)) }
{
    if heard { 0 } else { silent + 1 }
}

#[tactic(auto, using(crate::proofs::Ends::bytes_some))]
fn any_bytes(bytes: &[u8]) -> bool
    ensures { result ≡ some_bytes bytes.now }
{
    !bytes.is_empty()
}

fn either(first: bool, second: bool) -> bool
    ensures { result ≡ (first || second) }
{
    first || second
}

// The cause at a place, if there is one.
fn closed_by(cause: Option<CloseCause>, place: u64) -> Option<Closed>
    ensures { result ≡ option_map (λ cause. closed_at cause place) cause }
{
    match cause {
        Some(cause) => Some(Closed { cause, place }),
        None => None,
    }
}

impl End {
    /// An end to which nothing happened yet. A link has no accounts. It takes no memory.
    pub fn make(alloc: Global, role: Role, unit: u8, accounts: Vec<Account>, in_use: bool) -> End
        // Of an end to which nothing happened.
        ensures stands { EndKnows result (nothing_known role) }
        ensures setup { result.setup
            ≡ record { role = role; unit = unit; accounts = accounts.items; in_use = in_use } }
        ensures open { result.closed ≡ None }
    {
        End {
            role,
            unit,
            accounts,
            in_use,
            inbox: Inbox::make(alloc),
            logged: false,
            closed: None,
            heard: false,
            silent: 0,
            sent: role.begins_with_login(),
        }
    }

    /// Why the end closed, or None exactly while it has not.
    pub fn closed(&self) -> Option<Closed>
        ensures { result ≡ self.now.closed }
    {
        self.closed
    }

    /// Whether the end has closed.
    #[inline(always)]
    pub fn is_closed(&self) -> bool
        ensures { result ≡ is_some self.now.closed }
    {
        self.closed.is_some()
    }

    /// The role that it was made with.
    pub fn role(&self) -> Role
        ensures { result ≡ self.now.setup.role }
    {
        self.role
    }

    /// The unit that it was made with.
    pub fn unit(&self) -> u8
        ensures { result ≡ self.now.setup.unit }
    {
        self.unit
    }

    /// Whether a login was accepted.
    pub fn logged(&self) -> bool
        ensures { result ≡ self.now.logged }
    {
        self.logged
    }

    /// The unit in the headers that it writes.
    pub fn header_unit(&self) -> u8
        ensures { result ≡ header_unit self.now.setup.role self.now.setup.unit }
    {
        self.role.header_unit(self.unit)
    }

    /// How a login is answered: `S` where no account has the sub id, `N` where none has all three,
    /// `B` where the session is in use or a login was accepted, else `A`.
    #[tactic(auto, unfolding(crate::specs::Closing::login_status))]
    pub fn login_status(&self, sub: &[u8; 4], user: &[u8; 4], password: &[u8; 10]) -> u8
        ensures { result
            ≡ login_status self.now.setup self.now.logged sub.now user.now password.now }
    {
        if !knows_sub(&self.accounts, sub) {
            return b'S';
        }
        if !knows(&self.accounts, sub, user, password) {
            return b'N';
        }
        if either(self.in_use, self.logged) {
            return b'B';
        }
        b'A'
    }

    /// What the stream says next, as a message to this end.
    #[inline(always)]
    pub fn said(&self, item: &Heard<'_>) -> Said
        ensures { result ≡ heard_by self.now.setup.role item.now }
    {
        match item {
            Heard::Message { place: _, raw } => self.role.said(raw),
            Heard::BlockEnd => Said::Skipped,
            Heard::Broken(_) => Said::Skipped,
        }
    }

    // Why what was said closes the end.
    #[inline(always)]
    fn cause(&self, said: &Said) -> Option<CloseCause>
        ensures { result ≡ cause_of_said self.now.setup self.now.logged said.now }
    {
        match said {
            Said::Skipped => None,
            Said::TooShort => Some(CloseCause::Short),
            Said::Message(message) => match message {
                SessionMessage::Login {
                    sub,
                    user,
                    password,
                } => refused(self.login_status(sub, user, password)),
                SessionMessage::GapRequest { .. } => too_early(self.logged),
                SessionMessage::SpinRequest { .. } => too_early(self.logged),
                SessionMessage::LoginReply { status } => refused(*status),
                SessionMessage::GapReply { .. } => None,
                SessionMessage::SpinAvailable { .. } => None,
                SessionMessage::SpinReply { .. } => None,
                SessionMessage::SpinFinished { .. } => None,
            },
        }
    }

    // Why a message closes the end, and where; an accepted login is noted.
    #[inline(always)]
    fn judge_message(&mut self, place: u64, raw: &LentRaw<'_>)
        requires { self.old.closed ≡ None }
        ensures closed { self.new.closed
            ≡ cause_of self.old.setup self.old.logged (Message place raw.now) }
        ensures logged { self.new.logged
            ≡ (self.old.logged || logs_in self.old.setup.role (Message place raw.now)) }
        ensures rest { self.new
            ≡ record self.old { closed = self.new.closed; logged = self.new.logged } }
    {
        let said = self.role.said(raw);
        self.closed = closed_by(self.cause(&said), place);
        self.logged = either(self.logged, said.is_login());
    }

    /// Judges what the stream says next: the end closes where it has a cause, and notes an accepted
    /// login.
    #[inline(always)]
    pub fn judge(&mut self, item: &Heard<'_>)
        requires { self.old.closed ≡ None }
        ensures closed { self.new.closed ≡ cause_of self.old.setup self.old.logged item.now }
        ensures logged { self.new.logged
            ≡ (self.old.logged || logs_in self.old.setup.role item.now) }
        ensures rest { self.new
            ≡ record self.old { closed = self.new.closed; logged = self.new.logged } }
    {
        match item {
            Heard::Message { place, raw } => self.judge_message(*place, raw),
            Heard::BlockEnd => {}
            Heard::Broken(closed) => self.closed = Some(*closed),
        }
    }

    /// Takes in a piece, and hands out the reader that has it, which has to come back by
    /// [`End::put_back`]. After OutOfMemory the end has to be closed by [`End::fail`].
    #[inline(always)]
    pub fn take(&mut self, piece: &[u8]) -> Result<BlockReader, OutOfMemory>
        ensures reader { IfOk result (λ reader. reader ≡ loaded self.old.inbox.reading piece.now) }
        ensures fed { self.new.inbox.fed ≡ counted (self.old.inbox.fed + length piece.now) }
        ensures heard { OnOk result (self.new.heard ≡ (self.old.heard || some_bytes piece.now)) }
        ensures rest { self.new
            ≡ record self.old { inbox = self.new.inbox; heard = self.new.heard } }
    {
        let reader = self.inbox.take(piece)?;
        self.heard = either(self.heard, any_bytes(piece));
        Ok(reader)
    }

    /// Takes the reader back, the first bytes of which were passed.
    #[inline(always)]
    pub fn put_back(&mut self, reader: BlockReader, count: usize)
        requires { count ≤ length reader.rest }
        ensures { self.new ≡ record self.old {
          inbox = record { reading = passed reader count; fed = self.old.inbox.fed };
        } }
    {
        self.inbox.put_back(reader, count);
    }

    /// Notes bytes that were sent; none are nothing sent.
    #[inline(always)]
    pub fn note_sent(&mut self, bytes: &[u8])
        ensures { self.new ≡ record self.old { sent = (self.old.sent || some_bytes bytes.now) } }
    {
        self.sent = either(self.sent, any_bytes(bytes));
    }

    /// Closes for want of memory, at the number of bytes that were fed.
    pub fn fail(&mut self)
        ensures { self.new
            ≡ record self.old { closed = Some (closed_at Memory self.old.inbox.fed) } }
    {
        self.closed = Some(Closed {
            cause: CloseCause::Memory,
            place: self.inbox.fed(),
        });
    }

    /// Appends the block of a session message. After OutOfMemory the bytes are as before.
    pub fn put(&self, message: &SessionMessage, out: &mut Vec<u8>) -> Result<(), OutOfMemory>
        ensures ok { OnOk result (out.new.items
            ≡ out.old.items ++ sent_bytes self.now.setup message.now) }
        ensures err { OnErr result (out.new.items ≡ out.old.items) }
    {
        put_session(self.header_unit(), &write(message), out)
    }

    // Appends a heartbeat. The bytes are as before after OutOfMemory.
    fn put_heartbeat(&self, out: &mut Vec<u8>) -> Result<(), OutOfMemory>
        ensures ok { OnOk result (out.new.items ≡ out.old.items
            ++ heartbeat_bytes (header_unit self.now.setup.role self.now.setup.unit)) }
        ensures err { OnErr result (out.new.items ≡ out.old.items) }
    {
        out.extend_from_slice(&heartbeat(self.header_unit(), 0))?;
        Ok(())
    }

    /// A second passes ("Heartbeat Messages"). The end closes at the fifth silent tick in a row;
    /// else, where it sent nothing since the last tick, a heartbeat is appended. Once closed it
    /// does nothing. After OutOfMemory it is closed with Memory, and the bytes are as before.
    pub fn tick(&mut self, out: &mut Vec<u8>) -> Result<(), OutOfMemory>
        // Of all that was known of its events: the tick is known too.
        ensures stands { OnOk result
            ((k : Known) → EndKnows self.old k → EndKnows self.new (known_ticked k)) }
        // Of all that was known of its events: what a tick then sends was appended.
        ensures says { OnOk result ((k : Known)
            → EndKnows self.old k → out.new.items ≡ out.old.items ++ tick_bytes self.old.setup k) }
        ensures setup { self.new.setup ≡ self.old.setup }
        ensures err_closed { OnErr result
            (self.new.closed ≡ Some (closed_at Memory self.old.inbox.fed)) }
        ensures err_out { OnErr result (out.new.items ≡ out.old.items) }
        ensures shut { IfSome self.old.closed (λ c. self.new ≡ self.old) }
        ensures shut_ok { IfSome self.old.closed
            (λ c. IsOk result × (out.new.items ≡ out.old.items)) }
    {
        if self.closed.is_some() {
            return Ok(());
        }
        let silent = silent_at_tick(self.heard, self.silent);
        if silent >= 5 {
            self.closed = Some(Closed {
                cause: CloseCause::Silent,
                place: self.inbox.fed(),
            });
            return Ok(());
        }
        self.silent = silent;
        self.heard = false;
        let sent = self.sent;
        self.sent = false;
        if sent {
            return Ok(());
        }
        match self.put_heartbeat(out) {
            Ok(()) => Ok(()),
            Err(_) => {
                self.fail();
                Err(OutOfMemory)
            }
        }
    }
}
