//! Raw messages that are lent, gone over one after another without a copy.

ghost use Rattle.std.specs.Prelude.{◌≡◌, ℕ, List, [], ◌∷◌, length, drop, MatchOption};
ghost use Rattle.std.specs.List.{concat, AllByRecursion};
ghost use Rattle.std.specs.Iterator.{YieldsFirstRef, item_count};
ghost use Rattle.pitch_messages.specs.Raw.{IsRaw, raws_of};

use std::marker::Model;

/// Raw messages that stand end to end in a slice, in their order.
#[derive(Drop)]
pub struct Raws<'a> {
    rest: &'a [u8],
    count: usize,
}

impl<'a> Model for Raws<'a> {
    ghost use Rattle.std.specs.Prelude.{ℕ, List};
    ghost use Rattle.pitch_messages.specs.Raw.{raws_of};
    ghost use Rattle.pitch_messages.specs.layers.Chains.{IsChain};

    ghost Value = { List (List ℕ) };

    ghost view = { λ r. raws_of r.count r.rest.now };

    ghost invariant = { λ r. IsChain r.count r.rest.now };
}

impl<'a> Raws<'a> {
    /// The messages of a block's body, which is known to be just so many of them.
    pub fn of_block(body: &'a [u8], count: usize) -> Raws<'a>
        requires many { length (raws_of count body.now) ≡ count }
        requires whole { concat (raws_of count body.now) ≡ body.now }
        ensures { result ≡ raws_of count body.now }
    {
        Raws { rest: body, count }
    }

    /// How many messages are left.
    #[inline]
    pub fn len(&self) -> usize
        ensures length { result ≡ length self.now }
        ensures raws { AllByRecursion IsRaw self.now }
    {
        self.count
    }

    /// The bytes of all that are left.
    #[inline]
    pub fn joined(&self) -> &'a [u8]
        ensures joined { result.now ≡ concat self.now }
        ensures raws { AllByRecursion IsRaw self.now }
    {
        self.rest
    }

    /// The next message, or None where none is left.
    #[inline(always)]
    pub fn next_raw(&mut self) -> Option<&'a [u8]>
        ensures { MatchOption result ((self.old ≡ []) × (self.new ≡ []))
            (λ raw. (self.old ≡ raw.now ∷ self.new) × IsRaw raw.now) }
    {
        if self.count == 0 {
            return None;
        }
        let (raw, rest) = self.rest.split_at(self.rest[0] as usize);
        self.rest = rest;
        self.count -= 1;
        Some(raw)
    }

    /// The same messages again.
    pub fn copy(&self) -> Raws<'a>
        ensures { result ≡ self.now }
    {
        Raws {
            rest: self.rest,
            count: self.count,
        }
    }

    /// The messages from an index on: none where the index is past the last.
    pub fn after(&self, index: usize) -> Raws<'a>
        ensures { result ≡ drop index self.now }
    {
        let mut raws = self.copy();
        'passed: for _ in 0..index.min(self.count) {
            let _ = raws.next_raw();
        }
        raws
    }
}

impl<'a> Iterator for Raws<'a> {
    type Item = &'a [u8];

    ghost next_gives = { YieldsFirstRef (λ r. r) };

    ghost remaining = { item_count (λ r. r) };

    #[inline(always)]
    fn next(&mut self) -> Option<&'a [u8]> {
        self.next_raw()
    }
}
