//! A writer of `left_right`, whose contracts see two values.
ghost use Rattle.std.specs.Prelude.{◌≡◌, ◌<◌, [], IfOk, MatchResult};

use left_right::{Absorb, ReadHandle, WriteHandle};
use std::alloc::{AllocError, Global};
use std::marker::Model;
use std::mem::forget;
use std::sync::Wait;

// Contracts see the published value and what is pending.
#[derive(Drop)]
pub(crate) struct Holder<T: Absorb<O> + Drop, O: Drop, W: Wait + Drop> {
    inner: WriteHandle<T, O, W>,
}

impl<T: Absorb<O> + Drop, O: Drop, W: Wait + Drop> Model for Holder<T, O, W> {
    ghost use Rattle.std.specs.Prelude.{List};
    ghost use Rattle.left_right.specs.Handles.{published, pending};

    ghost Value = { T × List O };

    ghost view = { λ h. (published h.inner, pending h.inner) };
}

impl<T: Absorb<O> + Drop, O: Drop, W: Wait + Drop> Holder<T, O, W> {
    // Two copies that are alike, for so many readers.
    pub(crate) fn new(
        alloc: Global,
        rt: W,
        first: T,
        second: T,
        readers: u8,
    ) -> Result<Holder<T, O, W>, AllocError>
        requires some { 0 < readers }
        requires alike { T.state first ≡ T.state second }
        ensures { IfOk result (λ holder. holder ≡ (first, [])) }
    {
        Ok(Holder {
            inner: WriteHandle::new(alloc, rt, first, second, usize::from(readers))?,
        })
    }

    // Publishes an operation. At Err nothing has changed.
    pub(crate) fn push(&mut self, operation: O) -> Result<(), AllocError>
        requires idle { self.old.1 ≡ [] }
        requires sure { T.never_fails }
        ensures { MatchResult result (λ _. (T.state self.new.0 ≡ T.applied
            (T.state self.old.0) operation) × (self.new.1 ≡ [])) (λ _. self.new ≡ self.old) }
    {
        if self.inner.append(operation).is_err() {
            return Err(AllocError);
        }
        self.inner.publish()
    }

    // A place for a reader.
    pub(crate) fn place(&self) -> Result<ReadHandle<T>, AllocError> {
        self.inner.handle()
    }

    // Keeps the pair for good, so that readers go on.
    pub(crate) fn keep(self) {
        let Self { inner } = self;
        forget(inner);
    }
}
