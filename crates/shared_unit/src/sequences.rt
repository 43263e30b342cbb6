//! The advertised sequences whose images are served, the last ten of all.

ghost use Rattle.std.specs.Prelude.{◌≡◌, ◌==◌, ◌++◌, [], ◌∷◌};
ghost use Rattle.std.specs.List.{list_any};
ghost use Rattle.pitch_model.specs.Advertising.{last_ten, newest_of};

use arrayvec::ArrayVec;
use std::marker::Model;

/// The last ten sequences that were advertised, the oldest first. It takes no memory.
#[derive(Drop)]
pub struct Sequences {
    items: ArrayVec<u32, 10>,
}

impl Model for Sequences {
    ghost use Rattle.std.specs.Prelude.{ℕ, List};
    ghost use Rattle.std.specs.Coded.{coded_ℕ, coded_list};

    ghost Value = { List ℕ };

    ghost coded = { coded_list coded_ℕ };

    ghost view = { λ s. s.items.items };
}

impl Sequences {
    pub fn none() -> Sequences
        ensures { result ≡ [] }
    {
        Sequences {
            items: ArrayVec::new(),
        }
    }

    /// A copy.
    pub fn again(&self) -> Sequences
        ensures { result ≡ self.now }
    {
        let mut items = ArrayVec::new();
        let all = self.items.as_slice();
        'copies: for sequence in all {
            items.push(*sequence);
        }
        Sequences { items }
    }

    /// Adds the newest. Where there are ten, the oldest goes.
    pub fn add(&mut self, sequence: u32)
        ensures { self.new ≡ last_ten (self.old ++ sequence ∷ []) }
    {
        if self.items.is_full() {
            self.items.remove(0);
        }
        self.items.push(sequence);
    }

    /// The newest, or None exactly where there is none.
    pub fn newest(&self) -> Option<u32>
        ensures { result ≡ newest_of self.now }
    {
        self.items.as_slice().last().copied()
    }

    /// Whether it is among them.
    pub fn has(&self, sequence: u32) -> bool
        ensures { result ≡ list_any (λ n. n == sequence) self.now }
    {
        self.items.as_slice().contains(&sequence)
    }
}
