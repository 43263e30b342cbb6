//! The trait of an image source: its newest sequence, and images by their sequences.

ghost use Rattle.std.specs.Prelude.{OnErr, IfOk, Bool, true, ◌≡◌};
ghost use Rattle.spin_server.specs.Served.{Served};
ghost use Rattle.spin_server.specs.layers.Looking.{SeesNewest, SeesServed, LooksUpImage};

use pitch_fields::OutOfMemory;
use pitch_messages::RawList;

/// What became of an image that was looked up.
#[derive(Clone, Copy, PartialEq, Eq)]
pub enum Imaged {
    /// Its messages were appended; so many of them add an order.
    Image { orders: u32 },
    /// The sequence is not among the last ten that were advertised.
    NotAdvertised,
}

/// Where images of a unit can be looked up.
pub trait ImageLookup {
    /// The views that a look-up may have of it: the messages so far, and the sequences that were
    /// advertised. Both only grow within a call. From one call to the next sequences may go: a
    /// shelf shows the last ten alone.
    ghost shows: { Self → Served → Type 0 };

    /// Whether nobody else pushes or advertises there: then a look-up leaves it as it was.
    ghost still: { Bool };

    /// The newest sequence that was advertised, or None exactly where none was. It takes no memory.
    fn newest(&mut self) -> Option<u32>
        // Of every view that it shows before: the answer is right at a view that it shows after,
        // which is no earlier.
        ensures sees { (v : Served) → shows self.old v → SeesNewest (shows self.new) v result }
        ensures same { still ≡ true → self.new ≡ self.old };

    /// Whether the image through a sequence can be had: it is among the last ten that were
    /// advertised. No image is made, and it takes no memory.
    fn has_image(&mut self, sequence: u32) -> bool
        // Of every view that it shows before: the answer is right at a view that it shows after,
        // which is no earlier.
        ensures sees { (v : Served)
            → shows self.old v → SeesServed (shows self.new) v sequence result }
        ensures same { still ≡ true → self.new ≡ self.old };

    /// Looks up the image through a sequence, and appends it where it is among the last ten that
    /// were advertised. The answer is that of what is to be seen after the call. `out` is as before
    /// after all but Image.
    fn image(&mut self, sequence: u32, out: &mut RawList) -> Result<Imaged, OutOfMemory>
        // Of every view that it shows before: the answer is right at a view that it shows after,
        // which is no earlier.
        ensures found { IfOk result (λ imaged. (v : Served) → shows self.old v
            → LooksUpImage (shows self.new) v sequence imaged out.old.items out.new.items) }
        ensures err { OnErr result (out.new.items ≡ out.old.items) }
        ensures same { still ≡ true → self.new ≡ self.old }
        // Of every view that it showed before: without memory it shows the same.
        ensures shown { OnErr result ((v : Served) → shows self.old v → shows self.new v) };
}
