//! Lists with a spare: pushes for which memory was taken ahead cannot fail.

ghost use Rattle.std.specs.Prelude.{◌≡◌, ◌+◌, ◌<◌, ◌≤◌, ◌++◌, [], ◌∷◌, length, OnOk, OnErr, IsOk};
ghost use Rattle.std.specs.Prelude.{slice_get, take};
ghost use Rattle.std.specs.Option.{option_copied};

use pitch_fields::OutOfMemory;
use std::alloc::Global;
use std::marker::Model;

/// A list that can take memory ahead.
#[derive(Drop)]
pub struct List<T> {
    pub(crate) items: Vec<T>,
}

impl<T> Model for List<T> {
    ghost use Rattle.std.specs.Prelude.{◌-◌, vec_len, vec_capacity};
    ghost use Rattle.pitch_messages.specs.Room.{Roomy};

    ghost Value = { Roomy T };

    ghost view = { λ l. record {
      items = l.items.items;
      spare = vec_capacity l.items - vec_len l.items;
    } };
}

impl<T: Drop> List<T> {
    /// An empty list, which has taken no memory.
    pub fn make(alloc: Global) -> Self
        ensures { result.items ≡ [] }
    {
        List {
            items: Vec::new(alloc),
        }
    }

    /// The list of the items of a Vec, whose memory it takes over.
    pub fn of_vec(items: Vec<T>) -> Self
        ensures { result.items ≡ items.items }
    {
        List { items }
    }

    /// The items, with the memory that they stand in.
    pub fn into_vec(self) -> Vec<T>
        ensures { result.items ≡ self.items }
    {
        self.items
    }

    /// How many items the list has.
    pub fn len(&self) -> usize
        ensures { result ≡ length self.now.items }
    {
        self.items.len()
    }

    /// The item at an index, or None exactly where the index is not below the length.
    pub fn get(&self, index: usize) -> Option<&T>
        ensures { option_copied result ≡ slice_get self.now.items index }
    {
        self.items.get(index)
    }

    /// The items in their order.
    pub fn as_slice(&self) -> &[T]
        ensures { result.now ≡ self.now.items }
    {
        self.items.as_slice()
    }

    /// Keeps the first items, so many at most.
    pub fn truncate(&mut self, length: usize)
        ensures items { self.new.items ≡ take length self.old.items }
        ensures spare { self.old.spare ≤ self.new.spare }
    {
        self.items.truncate(length);
    }

    /// Puts an item at the end. The list is as before after OutOfMemory.
    pub fn push(&mut self, item: T) -> Result<(), OutOfMemory>
        ensures ok { OnOk result (self.new.items ≡ self.old.items ++ item ∷ []) }
        ensures err { OnErr result (self.new.items ≡ self.old.items) }
        ensures spare { self.old.spare ≤ self.new.spare + 1 }
        ensures succeeds { 0 < self.old.spare → IsOk result }
    {
        self.items.push(item)?;
        Ok(())
    }

    /// Puts the items of a Vec at the end. An empty list takes over the Vec's memory, unless it has
    /// more of its own. The list is as before after OutOfMemory.
    pub fn append(&mut self, mut items: Vec<T>) -> Result<(), OutOfMemory>
        ensures ok { OnOk result (self.new.items ≡ self.old.items ++ items.items) }
        ensures err { OnErr result (self.new.items ≡ self.old.items) }
        ensures spare { self.old.spare ≤ self.new.spare + length items.items }
        ensures succeeds { length items.items ≤ self.old.spare → IsOk result }
    {
        if self.items.is_empty() && self.items.capacity() <= items.capacity() {
            self.items = items;
            return Ok(());
        }
        self.items.append(&mut items)?;
        Ok(())
    }

    /// Takes memory ahead, so that the next `more` pushes are Ok. The list is as before after
    /// OutOfMemory.
    pub fn reserve(&mut self, more: usize) -> Result<(), OutOfMemory>
        ensures items { self.new.items ≡ self.old.items }
        ensures ok { OnOk result (more ≤ self.new.spare) }
        ensures spare { self.old.spare ≤ self.new.spare }
        ensures succeeds { more ≤ self.old.spare → IsOk result }
    {
        self.items.reserve(more)?;
        Ok(())
    }
}
