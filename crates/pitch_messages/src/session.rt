//! Messages of the sessions with the Gap Request Proxy and the Spin Server.
#![tactic(auto, using(crate::proofs::Rows::whole, crate::proofs::Rows::session_whole_says))]

ghost use Rattle.std.specs.Prelude.{◌≡◌, ℕ, ◌+◌, ◌≤◌, ◌<◌, Ok, length, take, drop, slice_index};
ghost use Rattle.std.specs.Prelude.{OnOk, IfErr};
ghost use Rattle.std.specs.Option.{option_map};
ghost use Rattle.pitch_messages.specs.Raw.{IsRaw, kind_of};
ghost use Rattle.pitch_messages.specs.Fields.{bytes_at};
ghost use Rattle.pitch_messages.specs.Table.{IsWhole, needs, needs_by};
ghost use Rattle.pitch_messages.specs.Session.{session_row_of, session_reads, session_written};
ghost use Rattle.pitch_messages.specs.declared.session.SessionMessage.TheVariants.{Login};

use crate::raw::Raw;
use crate::reading::four_at;
use pitch_fields::{get_u16, get_u32};
use thiserror::Error;

/// What a session message says, with its fields as they stand on the wire.
///
/// Each variant is a section of the Cboe US Equities Multicast PITCH specification.
#[derive(Clone, Copy, Debug, PartialEq, Eq)]
pub enum SessionMessage {
    /// "Login Message": texts with spaces at their ends.
    Login {
        sub: [u8; 4],
        user: [u8; 4],
        password: [u8; 10],
    },
    /// "Login Response Message": `A` accepted, `N` not authorized, `B` session in use, `S` invalid
    /// session.
    LoginReply {
        status: u8,
    },
    /// "Gap Request Message".
    GapRequest {
        unit: u8,
        sequence: u32,
        count: u16,
    },
    /// "Gap Response Message".
    GapReply {
        unit: u8,
        sequence: u32,
        count: u16,
        status: u8,
    },
    /// "Spin Image Available Message".
    SpinAvailable {
        sequence: u32,
    },
    /// "Spin Request Message".
    SpinRequest {
        sequence: u32,
    },
    /// "Spin Response Message": `A` accepted, `O` out of range, `S` spin in progress.
    SpinReply {
        sequence: u32,
        orders: u32,
        status: u8,
    },
    /// "Spin Finished Message".
    SpinFinished {
        sequence: u32,
    },
}

/// Why a raw message is no session message.
#[derive(Clone, Copy, Debug, PartialEq, Eq, Error)]
pub enum SessionError {
    /// Its type is none of a session.
    #[error("a message of type {kind} in a session")]
    WrongType { kind: u8 },
    /// It is shorter than its type.
    #[error("a session message of {has} bytes, and its type needs {needs}")]
    Short { needs: u8, has: u8 },
}

// The ten bytes from a place.
fn ten_at(bytes: &[u8], at: usize) -> [u8; 10]
    requires { at + 10 ≤ length bytes.now }
    ensures { result ≡ bytes_at 10 at bytes.now }
{
    [
        bytes[at],
        bytes[at + 1],
        bytes[at + 2],
        bytes[at + 3],
        bytes[at + 4],
        bytes[at + 5],
        bytes[at + 6],
        bytes[at + 7],
        bytes[at + 8],
        bytes[at + 9],
    ]
}

fn login(bytes: &[u8]) -> SessionMessage
    requires { IsWhole session_row_of 0x01 bytes.now }
    ensures { Ok result ≡ session_reads bytes.now }
{
    SessionMessage::Login {
        sub: four_at(bytes, 2),
        user: four_at(bytes, 6),
        password: ten_at(bytes, 12),
    }
}

fn login_reply(bytes: &[u8]) -> SessionMessage
    requires { IsWhole session_row_of 0x02 bytes.now }
    ensures { Ok result ≡ session_reads bytes.now }
{
    SessionMessage::LoginReply { status: bytes[2] }
}

fn gap_request(bytes: &[u8]) -> SessionMessage
    requires { IsWhole session_row_of 0x03 bytes.now }
    ensures { Ok result ≡ session_reads bytes.now }
{
    SessionMessage::GapRequest {
        unit: bytes[2],
        sequence: get_u32(bytes, 3),
        count: get_u16(bytes, 7),
    }
}

fn gap_reply(bytes: &[u8]) -> SessionMessage
    requires { IsWhole session_row_of 0x04 bytes.now }
    ensures { Ok result ≡ session_reads bytes.now }
{
    SessionMessage::GapReply {
        unit: bytes[2],
        sequence: get_u32(bytes, 3),
        count: get_u16(bytes, 7),
        status: bytes[9],
    }
}

fn spin_available(bytes: &[u8]) -> SessionMessage
    requires { IsWhole session_row_of 0x80 bytes.now }
    ensures { Ok result ≡ session_reads bytes.now }
{
    SessionMessage::SpinAvailable {
        sequence: get_u32(bytes, 2),
    }
}

fn spin_request(bytes: &[u8]) -> SessionMessage
    requires { IsWhole session_row_of 0x81 bytes.now }
    ensures { Ok result ≡ session_reads bytes.now }
{
    SessionMessage::SpinRequest {
        sequence: get_u32(bytes, 2),
    }
}

fn spin_reply(bytes: &[u8]) -> SessionMessage
    requires { IsWhole session_row_of 0x82 bytes.now }
    ensures { Ok result ≡ session_reads bytes.now }
{
    SessionMessage::SpinReply {
        sequence: get_u32(bytes, 2),
        orders: get_u32(bytes, 6),
        status: bytes[10],
    }
}

fn spin_finished(bytes: &[u8]) -> SessionMessage
    requires { IsWhole session_row_of 0x83 bytes.now }
    ensures { Ok result ≡ session_reads bytes.now }
{
    SessionMessage::SpinFinished {
        sequence: get_u32(bytes, 2),
    }
}

// How many bytes a session message of a type needs, where the type is one of a session.
fn needs_of(kind: u8) -> Option<u8>
    ensures { result ≡ option_map (λ row. needs row) (session_row_of kind) }
{
    match kind {
        0x01 => Some(22),
        0x02 => Some(3),
        0x03 => Some(9),
        0x04 => Some(10),
        0x80 => Some(6),
        0x81 => Some(6),
        0x82 => Some(11),
        0x83 => Some(6),
        _ => None,
    }
}

// Whether a message has the bytes that its type needs.
fn long_enough(bytes: &[u8]) -> Result<(), SessionError>
    requires { IsRaw bytes.now }
    ensures ok { OnOk result (needs_by (session_row_of (kind_of bytes.now)) ≤ length bytes.now) }
    ensures err { IfErr result (λ e. session_reads bytes.now ≡ Err e) }
{
    match needs_of(bytes[1]) {
        Some(needs) if bytes.len() < usize::from(needs) => Err(SessionError::Short {
            needs,
            has: bytes[0],
        }),
        _ => Ok(()),
    }
}

/// The session message of a raw.
///
/// WrongType where its type is none of a session, Short where its type needs more bytes. Bytes past
/// those are ignored.
pub fn read(raw: &Raw) -> Result<SessionMessage, SessionError>
    ensures { result ≡ session_reads raw.now }
{
    let bytes = raw.bytes();
    long_enough(bytes)?;
    match bytes[1] {
        0x01 => Ok(login(bytes)),
        0x02 => Ok(login_reply(bytes)),
        0x03 => Ok(gap_request(bytes)),
        0x04 => Ok(gap_reply(bytes)),
        0x80 => Ok(spin_available(bytes)),
        0x81 => Ok(spin_request(bytes)),
        0x82 => Ok(spin_reply(bytes)),
        0x83 => Ok(spin_finished(bytes)),
        kind => Err(SessionError::WrongType { kind }),
    }
}

// The Login of these texts.
#[tactic(auto, unfolding(crate::specs::Session::session_written))]
fn login_raw(sub: [u8; 4], user: [u8; 4], password: [u8; 10]) -> Raw
    ensures written { result ≡ session_written (Login sub user password) }
    ensures sub { length sub ≡ 4 }
    ensures user { length user ≡ 4 }
    ensures password { length password ≡ 10 }
{
    Raw::of_fields(0x01, &[&sub, &user, b"  ", &password])
}

/// The raw of a session message: its length, its type and its fields, end to end. A Login's filler
/// is two spaces.
#[tactic(auto, unfolding(crate::specs::Session::session_written))]
pub fn write(message: &SessionMessage) -> Raw
    ensures written { result ≡ session_written message.now }
    ensures reads_back { session_reads result ≡ Ok message.now }
{
    match *message {
        SessionMessage::Login {
            sub,
            user,
            password,
        } => login_raw(sub, user, password),
        SessionMessage::LoginReply { status } => Raw::of_fields(0x02, &[&[status]]),
        SessionMessage::GapRequest {
            unit,
            sequence,
            count,
        } => Raw::of_fields(
            0x03,
            &[&[unit], &sequence.to_le_bytes(), &count.to_le_bytes()],
        ),
        SessionMessage::GapReply {
            unit,
            sequence,
            count,
            status,
        } => Raw::of_fields(
            0x04,
            &[
                &[unit],
                &sequence.to_le_bytes(),
                &count.to_le_bytes(),
                &[status],
            ],
        ),
        SessionMessage::SpinAvailable { sequence } => Raw::of_fields(
            0x80,
            &[&sequence.to_le_bytes()],
        ),
        SessionMessage::SpinRequest { sequence } => Raw::of_fields(
            0x81,
            &[&sequence.to_le_bytes()],
        ),
        SessionMessage::SpinReply {
            sequence,
            orders,
            status,
        } => Raw::of_fields(
            0x82,
            &[&sequence.to_le_bytes(), &orders.to_le_bytes(), &[status]],
        ),
        SessionMessage::SpinFinished { sequence } => Raw::of_fields(
            0x83,
            &[&sequence.to_le_bytes()],
        ),
    }
}
