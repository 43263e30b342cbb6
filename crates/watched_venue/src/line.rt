//! The line of a message that asks for something.

ghost use Rattle.std.specs.Prelude.{◌≡◌, ◌≤◌, ◌+◌, ◌++◌, [], ◌∷◌, take, length, codes, IsErr};
ghost use Rattle.std.specs.Prelude.{OnErr};
ghost use Rattle.std.specs.Prelude.{OnOk};
ghost use Rattle.pitch_io.specs.Putting.{Grows};
ghost use Rattle.stream_print.specs.Sinks.{CountsFault, PutsPrefix};
ghost use Rattle.feed_lines.specs.Show.{number_field};
ghost use Rattle.watched_venue.specs.layers.Asked.{asked_line, client_head, door_name, said_line};

use feed_lines::{LINE, put_number_field};
use pitch_fields::{put_byte, put_text};
use pitch_io::Sink;
use pitch_messages::session::SessionMessage;
use session_ends::Said;
use stream_print::{PutFailed, put_all};

/// Who asks: a client of a unit's Gap Request Proxy, or of its Spin Server, by its number among all
/// clients of the venue, which counts from 1.
#[derive(Clone, Copy)]
pub(crate) struct Client {
    pub(crate) unit: u8,
    pub(crate) spin: bool,
    pub(crate) number: u64,
}

// The word of a server, between spaces.
fn door_name(spin: bool) -> &'static [u8]
    ensures name { result.now ≡ door_name spin }
    ensures size { length result.now ≤ 6 }
{
    if spin { b" spin " } else { b" grp " }
}

// Writes who asks.
#[tactic(auto, unfolding(crate::specs::layers::Asked::client_head))]
fn put_client(out: &mut [u8], at: usize, client: &Client) -> usize
    requires { at + 60 ≤ length out.old }
    ensures end { result ≤ at + 60 }
    ensures text { take result out.new ≡ take at out.old ++ client_head client.now }
    ensures kept { length out.new ≡ length out.old }
{
    let unit = put_number_field(out, at, b"unit ", u64::from(client.unit));
    put_number_field(out, unit, door_name(client.spin), client.number)
}

// Writes the line of a message that asks, at the start of the buffer; nothing for one that does
// not.
#[tactic(auto, unfolding(crate::specs::layers::Asked::asked_line))]
fn put_asked(out: &mut [u8], client: &Client, message: &SessionMessage) -> usize
    requires { 200 ≤ length out.old }
    ensures end { result ≤ 200 }
    ensures text { take result out.new ≡ asked_line client.now message.now }
    ensures kept { length out.new ≡ length out.old }
{
    match *message {
        SessionMessage::Login { .. } => {
            let named = put_client(out, 0, client);
            put_text(out, named, b" login\n")
        }
        SessionMessage::GapRequest {
            unit: _,
            sequence,
            count,
        } => {
            let named = put_client(out, 0, client);
            let first = put_number_field(out, named, b" request ", u64::from(sequence));
            let last = put_number_field(out, first, b" count ", u64::from(count));
            put_byte(out, last, b'\n')
        }
        SessionMessage::SpinRequest { sequence } => {
            let named = put_client(out, 0, client);
            let asked = put_number_field(out, named, b" spin ", u64::from(sequence));
            put_byte(out, asked, b'\n')
        }
        _ => 0,
    }
}

// Writes the line of a message to a sink.
fn write_asked<O: Sink>(
    client: &Client,
    message: &SessionMessage,
    out: &mut O,
) -> Result<(), PutFailed>
    ensures ok { OnOk result
        (Grows (O.written out.old) (O.written out.new) (asked_line client.now message.now)) }
    ensures err { OnErr result
        (PutsPrefix O.written out.old out.new (asked_line client.now message.now)) }
    ensures cause { CountsFault O.faults out.old out.new (IsErr result) }
{
    let mut line = [0u8; LINE];
    let end = put_asked(&mut line, client, message);
    put_all(out, &line[..end])
}

/// Writes the line of what a message says to the client's server, where it asks for something.
pub(crate) fn write_said<O: Sink>(
    client: &Client,
    said: &Said,
    out: &mut O,
) -> Result<(), PutFailed>
    ensures ok { OnOk result
        (Grows (O.written out.old) (O.written out.new) (said_line client.now said.now)) }
    ensures err { OnErr result
        (PutsPrefix O.written out.old out.new (said_line client.now said.now)) }
    ensures cause { CountsFault O.faults out.old out.new (IsErr result) }
{
    match said {
        Said::Message(message) => write_asked(client, message, out),
        Said::Skipped => Ok(()),
        Said::TooShort => Ok(()),
    }
}
