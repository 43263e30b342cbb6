//! A raw message of a session, lent from the reader's bytes.

ghost use Rattle.std.specs.Prelude.{◌≡◌};
ghost use Rattle.pitch_messages.specs.Raw.{IsRaw, kind_of};

use std::marker::Model;

/// A raw message, lent from the bytes in which it stands.
#[derive(Drop)]
pub struct LentRaw<'a> {
    bytes: &'a [u8],
}

impl<'a> Model for LentRaw<'a> {
    ghost use Rattle.std.specs.Prelude.{ℕ, List};
    ghost use Rattle.pitch_messages.specs.Raw.{IsRaw};

    ghost Value = { List ℕ };

    ghost view = { λ r. r.bytes.now };

    ghost invariant = { λ r. IsRaw r.bytes.now };
}

impl<'a> LentRaw<'a> {
    /// The raw of bytes that are known to be one.
    #[inline(always)]
    pub fn of(bytes: &'a [u8]) -> LentRaw<'a>
        requires { IsRaw bytes.now }
        ensures { result ≡ bytes.now }
    {
        LentRaw { bytes }
    }

    /// The bytes, 2 to 255 of them.
    #[inline(always)]
    pub fn bytes(&self) -> &'a [u8]
        ensures bytes { result.now ≡ self.now }
        ensures raw { IsRaw self.now }
    {
        self.bytes
    }

    /// The type, the second byte.
    #[inline(always)]
    pub fn kind(&self) -> u8
        ensures { result ≡ kind_of self.now }
    {
        self.bytes[1]
    }
}
