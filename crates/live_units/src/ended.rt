//! The End of Session messages among those that a unit hears.

ghost use Rattle.std.specs.Prelude.{◌≡◌, ◌∷◌, ◌+◌, ◌≤◌, List, length};
ghost use Rattle.pitch_fields.specs.Limits.{last_sequence};
ghost use Rattle.pitch_messages.specs.Raw.{IsRaw};
ghost use Rattle.pitch_model.specs.History.{Entry, Message};
ghost use Rattle.heard_items.specs.Heard.{heard_block, heard_messages};
ghost use Rattle.live_units.specs.Ended.{ends_of, is_end};
ghost use Rattle.live_units.specs.Standing.{lower_of, lowest};

use pitch_messages::Raws;
use unit_packets::BlockView;

// The type of an End of Session message.
const END_OF_SESSION: u8 = 0x2d;

// Whether a message is of that type.
#[inline(always)]
fn is_end(raw: &[u8]) -> bool
    requires { IsRaw raw.now }
    ensures { result ≡ is_end raw.now }
{
    raw[1] == END_OF_SESSION
}

// The lower of two sequences, where there are two.
fn lower_of(sequence: u32, first: Option<u32>) -> u32
    ensures { result ≡ lower_of sequence first }
{
    match first {
        None => sequence,
        Some(first) => sequence.min(first),
    }
}

// The lowest sequence of those that came, with a message more.
#[inline(always)]
fn after_message(first: Option<u32>, sequence: u32, raw: &[u8]) -> Option<u32>
    requires { IsRaw raw.now }
    // Whatever was heard before.
    ensures { (E : List Entry) → first ≡ lowest (ends_of E)
        → result ≡ lowest (ends_of (Message sequence raw.now ∷ E)) }
{
    if is_end(raw) {
        Some(lower_of(sequence, first))
    } else {
        first
    }
}

// With messages of rising sequence more.
fn after_messages(first: Option<u32>, sequence: u32, raws: Raws<'_>) -> Option<u32>
    requires { sequence + length raws ≤ last_sequence + 1 }
    ensures { (E : List Entry) → first ≡ lowest (ends_of E)
        → result ≡ lowest (ends_of (heard_messages sequence raws.entry E)) }
{
    let mut raws = raws;
    let mut next = sequence;
    let mut lowest = first;
    'messages: while let Some(raw) = raws.next_raw() {
        lowest = after_message(lowest, next, raw);
        next += 1;
    }
    lowest
}

/// The lowest sequence of the End of Session messages that came, with a block more.
pub(crate) fn after_block(first: Option<u32>, block: &BlockView<'_>) -> Option<u32>
    // Whatever was heard before.
    ensures { (E : List Entry) → first ≡ lowest (ends_of E)
        → result ≡ lowest (ends_of (heard_block block.now E)) }
{
    let sequence = block.header().sequence;
    if sequence == 0 {
        return first;
    }
    after_messages(first, sequence, block.raws())
}
