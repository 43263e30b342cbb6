//! The step in which ends differ: what each does with what it reads.

ghost use Rattle.std.specs.Prelude.{Bool, OnOk};
ghost use Rattle.session_ends.specs.declared.inbox.Heard.{Heard};
ghost use Rattle.session_ends.specs.Closing.{Setup};
ghost use Rattle.session_ends.specs.layers.Driving.{At};

use crate::end::End;
use crate::inbox::Heard;
use pitch_fields::OutOfMemory;

/// A desk that answers what an end reads. It may look up in a source of type `L`.
///
/// Whoever drives a stream lets go of the desk and of what was said after OutOfMemory.
pub trait Answers<L> {
    /// At an end made so, where a login was accepted before or not, what the stream says next leads
    /// from the one to the other.
    ghost answered: { Setup → Bool → Heard → At Self L → At Self L → Type 0 };

    /// What a source comes to from the first on, whatever comes of a call.
    ghost kept: { L → L → Type 0 };

    /// Answers what the stream says next, which the end has not judged yet.
    fn answer(
        &mut self,
        end: &End,
        item: &Heard<'_>,
        source: &mut L,
        said: &mut Vec<u8>,
    ) -> Result<(), OutOfMemory>
        ensures answered { OnOk result (answered end.now.setup end.now.logged item.now
            (record { desk = self.old; source = source.old; said = said.old.items })
            (record { desk = self.new; source = source.new; said = said.new.items })) }
        // Of a source that was there before.
        ensures kept { (first : L) → kept first source.old → kept first source.new };
}
