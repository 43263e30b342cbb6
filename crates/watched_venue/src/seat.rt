//! A place at which a client's connection stands.

ghost use Rattle.std.specs.Prelude.{◌≡◌, ◌≤◌, false, IfOk, IfSome, IsErr, OnErr, OnOk, length};
ghost use Rattle.pitch_io.specs.Putting.{Grows};
ghost use Rattle.stream_print.specs.Sinks.{CountsFault, PutsPrefix};
ghost use Rattle.unit_packets.specs.Pieces.{loaded};
ghost use Rattle.session_ends.specs.layers.Hearing.{reader_items};
ghost use Rattle.watched_venue.specs.layers.Asked.{asked_lines, item_line, role_of};

use crate::line::{Client, write_said};
use crate::trouble::WatchTrouble;
use pitch_io::Sink;
use session_ends::{Heard, Role, Sayings};
use std::alloc::Global;
use stream_print::PutFailed;
use unit_packets::BlockReader;

// The server whose client it is.
fn role_of(spin: bool) -> Role
    ensures { result ≡ role_of spin }
{
    if spin {
        Role::SpinServer
    } else {
        Role::GrpServer
    }
}

// Writes the line of an item of a stream, where it asks for something.
fn write_item<O: Sink>(client: &Client, item: &Heard<'_>, out: &mut O) -> Result<(), PutFailed>
    ensures ok { OnOk result
        (Grows (O.written out.old) (O.written out.new) (item_line client.now item.now)) }
    ensures err { OnErr result
        (PutsPrefix O.written out.old out.new (item_line client.now item.now)) }
    ensures cause { CountsFault O.faults out.old out.new (IsErr result) }
{
    match item {
        Heard::Message { place: _, raw } => {
            let said = role_of(client.spin).said(raw);
            write_said(client, &said, out)
        }
        Heard::BlockEnd => Ok(()),
        Heard::Broken(_) => Ok(()),
    }
}

// Writes the lines of all that a reader's bytes say. Answers how many bytes the whole blocks have,
// or None where something breaks the stream.
fn write_items<O: Sink>(
    client: &Client,
    reader: &BlockReader,
    out: &mut O,
) -> Result<Option<usize>, PutFailed>
    ensures ok { OnOk result (Grows (O.written out.old) (O.written out.new)
        (asked_lines client.now (reader_items reader.now))) }
    ensures err { OnErr result (PutsPrefix O.written out.old out.new
        (asked_lines client.now (reader_items reader.now))) }
    ensures within { IfOk result (λ passed.
        IfSome passed (λ count. count ≤ length reader.now.rest)) }
    ensures cause { CountsFault O.faults out.old out.new (IsErr result) }
{
    let mut items = Sayings::of(reader);
    let mut broken = false;
    'items: while let Some(item) = items.next_item() {
        broken = matches!(item, Heard::Broken(_));
        write_item(client, &item, out)?;
    }
    if broken {
        return Ok(None);
    }
    Ok(Some(items.finish()))
}

/// Who stands at a place, and the bytes of an unfinished block that it sent.
#[derive(Drop)]
pub(crate) struct Seat {
    client: Client,
    reader: BlockReader,
    // Its bytes are no session's.
    broken: bool,
}

impl Seat {
    /// A place at a server of a unit. Until a client is let in, one with the number 0 stands there.
    pub(crate) fn make(alloc: Global, unit: u8, spin: bool) -> Seat {
        Seat {
            client: Client {
                unit,
                spin,
                number: 0,
            },
            reader: BlockReader::make(alloc),
            broken: false,
        }
    }

    /// The client with this number stands there, of which no bytes came yet.
    pub(crate) fn let_in(&mut self, alloc: Global, number: u64) {
        self.client.number = number;
        self.reader = BlockReader::make(alloc);
        self.broken = false;
    }

    /// Bytes of the client came: the lines of what they say more are written, up to what is no
    /// session's.
    pub(crate) fn hear<O: Sink>(
        &mut self,
        alloc: Global,
        bytes: &[u8],
        out: &mut O,
    ) -> Result<(), WatchTrouble>
        ensures lines { OnOk result (self.old.broken ≡ false
            → Grows (O.written out.old) (O.written out.new)
            (asked_lines self.old.client (reader_items (loaded self.old.reader bytes.now)))) }
    {
        if self.broken {
            return Ok(());
        }
        self.reader.load(bytes)?;
        match write_items(&self.client, &self.reader, out)? {
            Some(count) => self.reader.pass(count),
            None => {
                self.broken = true;
                self.reader = BlockReader::make(alloc);
            }
        }
        Ok(())
    }
}
