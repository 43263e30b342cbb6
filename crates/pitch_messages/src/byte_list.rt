//! Lists of bytes, in which datagrams are kept.

ghost use Rattle.std.specs.Prelude.{◌≡◌, ◌+◌, ◌≤◌, ◌++◌, length, OnOk, OnErr, IfOk, IsOk};

use crate::list::List;
use pitch_fields::OutOfMemory;
use std::alloc::Global;

/// A list of bytes, as a datagram.
pub type ByteList = List<u8>;

impl List<u8> {
    /// A list of these bytes, copied in one go.
    pub fn of_bytes(alloc: Global, bytes: &[u8]) -> Result<ByteList, OutOfMemory>
        ensures { IfOk result (λ list. list.items ≡ bytes.now) }
    {
        Ok(List::of_vec(Vec::from_slice(alloc, bytes)?))
    }

    /// The bytes.
    #[inline]
    pub fn bytes(&self) -> &[u8]
        ensures { result.now ≡ self.now.items }
    {
        self.as_slice()
    }

    /// Puts bytes at the end. The list is as before after OutOfMemory.
    pub fn push_all(&mut self, bytes: &[u8]) -> Result<(), OutOfMemory>
        ensures ok { OnOk result (self.new.items ≡ self.old.items ++ bytes.now) }
        ensures err { OnErr result (self.new.items ≡ self.old.items) }
        ensures spare { self.old.spare ≤ self.new.spare + length bytes.now }
        ensures succeeds { length bytes.now ≤ self.old.spare → IsOk result }
    {
        self.items.extend_from_slice(bytes)?;
        Ok(())
    }
}
