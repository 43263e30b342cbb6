//! Which open orders a message touches, told from its type and its order id alone.

ghost use Rattle.std.specs.Prelude.{◌≡◌};
ghost use Rattle.pitch_messages.specs.Raw.{IsRaw};
ghost use Rattle.order_book.specs.Naming.{names_order, named_order, touched};

use pitch_fields::get_u64;

/// Which orders a message touches.
#[derive(Clone, Copy, PartialEq, Eq)]
pub enum Touches {
    /// None.
    None,
    /// The one of this id, if any.
    One(u64),
    /// All.
    All,
}

// The id of the order that a message names, or None where it names none.
#[inline(always)]
pub(crate) fn named_order(raw: &[u8]) -> Option<u64>
    ensures { result ≡ named_order raw.now }
{
    if raw.len() >= 14 && names_order(raw[1]) {
        Some(get_u64(raw, 6))
    } else {
        None
    }
}

// Whether messages of a type name an order.
#[inline(always)]
fn names_order(kind: u8) -> bool
    ensures { result ≡ names_order kind }
{
    matches!(kind, 0x21..=0x29 | 0x2f)
}

/// Which orders a raw message touches, given its bytes. Its type and the id are all that is read.
#[inline(always)]
pub fn touched(raw: &[u8]) -> Touches
    requires { IsRaw raw.now }
    ensures { result ≡ touched raw.now }
{
    match named_order(raw) {
        Some(id) => Touches::One(id),
        None => {
            if raw[1] == 0x97 && raw.len() >= 6 {
                Touches::All
            } else {
                Touches::None
            }
        }
    }
}
