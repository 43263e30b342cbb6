//! Drives a stream: each thing that its bytes say goes to a desk, until one closes the end.

ghost use Rattle.std.specs.Prelude.{◌≡◌, ◌+◌, ◌||◌, length, [], None, OnOk, IfOk};
ghost use Rattle.std.specs.List.{list_any};
ghost use Rattle.unit_packets.specs.Causes.{counted};
ghost use Rattle.session_ends.specs.Closing.{first_cause, logs_in};
ghost use Rattle.session_ends.specs.layers.Driving.{Drives, HearsPiece};
ghost use Rattle.session_ends.specs.layers.Hearing.{reader_items, IsThrough};

use crate::answers::Answers;
use crate::end::End;
use crate::sayings::Sayings;
use pitch_fields::OutOfMemory;
use unit_packets::BlockReader;

impl End {
    // Hears what the bytes of a reader say, until the end closes, and answers how many bytes the
    // whole blocks have.
    fn hear_all<L, A: Answers<L>>(
        &mut self,
        reader: &BlockReader,
        desk: &mut A,
        source: &mut L,
        said: &mut Vec<u8>,
    ) -> Result<usize, OutOfMemory>
        requires { self.old.closed ≡ None }
        ensures through { IfOk result (λ count. IsThrough reader.now.rest count) }
        ensures closed { OnOk result (self.new.closed ≡ first_cause self.old.setup self.old.logged
            (reader_items reader.now)) }
        ensures logged { OnOk result (self.new.closed ≡ None → self.new.logged ≡ (self.old.logged
            || list_any (logs_in self.old.setup.role) (reader_items reader.now))) }
        ensures rest { self.new
            ≡ record self.old { closed = self.new.closed; logged = self.new.logged } }
        ensures answered { OnOk result (Drives A.answered self.old.setup self.old.logged
            (reader_items reader.now)
            (record { desk = desk.old; source = source.old; said = said.old.items })
            (record { desk = desk.new; source = source.new; said = said.new.items })) }
        ensures kept { (first : L) → A.kept first source.old → A.kept first source.new }
    {
        let mut items = Sayings::of(reader);
        'items: while let Some(item) = items.next_item() {
            desk.answer(self, &item, source, said)?;
            self.judge(&item);
            if self.is_closed() {
                return Ok(items.finish());
            }
        }
        Ok(items.finish())
    }

    /// Hears a piece: the desk answers what the stream says then, up to what closes the end. What
    /// it says is put into an empty list, and counts as sent. After OutOfMemory the end has to be
    /// closed by [`End::fail`].
    pub fn hear<L, A: Answers<L>>(
        &mut self,
        piece: &[u8],
        desk: &mut A,
        source: &mut L,
        said: &mut Vec<u8>,
    ) -> Result<(), OutOfMemory>
        requires open { self.old.closed ≡ None }
        requires no_said { said.old.items ≡ [] }
        ensures heard { OnOk result (HearsPiece A.answered self.old self.new
            piece.now said.new.items
            (record { desk = desk.old; source = source.old; said = said.old.items })
            (record { desk = desk.new; source = source.new; said = said.new.items })) }
        // Of a source that was there before: whatever comes of the call.
        ensures kept { (first : L) → A.kept first source.old → A.kept first source.new }
        ensures setup { self.new.setup ≡ self.old.setup }
        ensures count { self.new.inbox.fed ≡ counted (self.old.inbox.fed + length piece.now) }
    {
        let reader = self.take(piece)?;
        let count = self.hear_all(&reader, desk, source, said)?;
        self.put_back(reader, count);
        self.note_sent(said);
        Ok(())
    }
}
