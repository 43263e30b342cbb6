//! What is published, and what a copy keeps of it.
ghost use Rattle.std.specs.Prelude.{◌≡◌, ◌+◌, ◌<◌, ◌≤◌, IfOk};
ghost use Rattle.pitch_fields.specs.Limits.{last_sequence, most_held};
ghost use Rattle.shared_unit.specs.layers.Stored.{AreBlank, HasRoomFor, SamePicture, IsTakenIn};

use circular_buffer::HeapCircularBuffer;
use gap_store::GapStore;
use pitch_fields::OutOfMemory;
use pitch_messages::{Raw, RawList};
use std::alloc::Global;
use std::sync::Arc;

// The image through a sequence, with the number of its adds. Both copies share its messages; where
// one could not take its share it has none, and a server then has no memory for the answer.
#[derive(Drop)]
pub struct Picture {
    pub sequence: u32,
    pub orders: u32,
    pub raws: Option<Arc<RawList>>,
}

// What is published: a message, the image of all messages, or that their sequence, which was
// advertised before, is advertised again.
#[derive(Drop)]
pub enum What {
    Message(Raw),
    Image(Picture),
    Again,
}

// What one of the two copies keeps: the last messages, and the images of the last ten sequences.
#[derive(Drop)]
pub struct Shelves {
    pub gaps: GapStore,
    pub pictures: HeapCircularBuffer<Picture>,
}

impl Picture {
    // Another share of it.
    fn again(&self) -> Picture
        ensures { SamePicture self.now result }
    {
        let raws = match &self.raws {
            Some(shared) => Arc::try_clone(shared).ok(),
            None => None,
        };
        Picture {
            sequence: self.sequence,
            orders: self.orders,
            raws,
        }
    }
}

impl Shelves {
    // They keep the last `kept` messages, and have all their memory.
    pub fn make(alloc: Global, kept: u32) -> Result<Shelves, OutOfMemory>
        requires least { 1 ≤ kept }
        requires most { kept ≤ most_held }
        ensures { IfOk result (λ shelves. AreBlank kept shelves) }
    {
        Ok(Shelves {
            gaps: GapStore::make(alloc, kept)?,
            pictures: HeapCircularBuffer::with_capacity(alloc, 10)?,
        })
    }

    // Takes in what is published. It takes no memory.
    pub fn take_in(&mut self, what: &What)
        requires { HasRoomFor what.now self.old }
        ensures { IsTakenIn what.now self.old self.new }
    {
        match what {
            What::Message(raw) => self.gaps.push(raw),
            What::Image(picture) => {
                self.pictures.push_back(picture.again());
            }
            What::Again => {}
        }
    }
}
