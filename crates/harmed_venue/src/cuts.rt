//! Which connections were cut.

ghost use Rattle.std.specs.Prelude.{◌≡◌, Bool, IfOk, map, replicate, set, true, false};
ghost use Rattle.std.specs.Prelude.{if◌then◌else◌, ◌&&◌};
ghost use Rattle.harmed_venue.specs.Harmed.{is_cut, is_due, is_second, passed_by, told_if};

use live_net::WaitEnd;
use std::alloc::{AllocError, Global};

/// After how many seconds all connections are cut, how many have passed since, and at which places
/// one was cut that was not told its end yet.
#[derive(Drop)]
pub struct Cuts {
    pub every: Option<u64>,
    pub passed: u64,
    pub places: Vec<bool>,
}

// Whether a cut is due with this second.
fn is_due(every: Option<u64>, passed: u64) -> bool
    ensures { result ≡ is_due every passed }
{
    match every {
        Some(every) => passed >= every.saturating_sub(1),
        None => false,
    }
}

// How many seconds have passed since the last cut with one more.
fn passed_by(every: Option<u64>, passed: u64) -> u64
    ensures { result ≡ passed_by every passed }
{
    match every {
        Some(every) if passed < every.saturating_sub(1) => passed + 1,
        Some(_) => 0,
        None => passed,
    }
}

impl Cuts {
    /// No connection was cut yet.
    pub(crate) fn make(alloc: Global, every: Option<u64>, places: u16) -> Result<Cuts, AllocError>
        ensures every { IfOk result (λ cuts. cuts.every ≡ every) }
        ensures passed { IfOk result (λ cuts. cuts.passed ≡ 0) }
        ensures places { IfOk result (λ cuts. cuts.places.items ≡ replicate places false) }
    {
        Ok(Cuts {
            every,
            passed: 0,
            places: Vec::from_elem(alloc, false, usize::from(places))?,
        })
    }

    // All connections are cut.
    fn cut_all(&mut self)
        ensures places { self.new.places.items
            ≡ map (λ (cut : Bool). true) self.old.places.items }
        ensures every { self.new.every ≡ self.old.every }
        ensures passed { self.new.passed ≡ self.old.passed }
    {
        'places: for cut in self.places.iter_mut() {
            *cut = true;
        }
    }

    // A second has passed.
    fn second(&mut self)
        ensures every { self.new.every ≡ self.old.every }
        ensures passed { self.new.passed ≡ passed_by self.old.every self.old.passed }
        ensures places { self.new.places.items ≡ (if is_due self.old.every self.old.passed
            then map (λ (cut : Bool). true) self.old.places.items else self.old.places.items) }
    {
        let due = is_due(self.every, self.passed);
        self.passed = passed_by(self.every, self.passed);
        if due {
            self.cut_all();
        }
    }

    /// A wait has ended.
    pub(crate) fn wait_over(&mut self, answer: WaitEnd)
        ensures every { self.new.every ≡ self.old.every }
        ensures passed { self.new.passed ≡ (if is_second answer
            then passed_by self.old.every self.old.passed else self.old.passed) }
        ensures places { self.new.places.items
            ≡ (if is_second answer && is_due self.old.every self.old.passed
            then map (λ (cut : Bool). true) self.old.places.items else self.old.places.items) }
    {
        match answer {
            WaitEnd::Second => self.second(),
            WaitEnd::Ready => {}
            WaitEnd::Over => {}
            WaitEnd::Failed => {}
        }
    }

    /// Whether the connection at a place was cut.
    pub(crate) fn is_cut(&self, place: u16) -> bool
        ensures { result ≡ is_cut self.now.places.items place }
    {
        match self.places.get(usize::from(place)) {
            Some(cut) => *cut,
            None => false,
        }
    }

    /// The end of the connection at a place was told, or another is let in there.
    pub(crate) fn told(&mut self, place: u16)
        ensures places { self.new.places.items ≡ set self.old.places.items place false }
        ensures every { self.new.every ≡ self.old.every }
        ensures passed { self.new.passed ≡ self.old.passed }
    {
        if let Some(cut) = self.places.get_mut(usize::from(place)) {
            *cut = false;
        }
    }

    /// The end was told, where this is set.
    pub(crate) fn told_if(&mut self, told: bool, place: u16)
        ensures places { self.new.places.items ≡ told_if told place self.old.places.items }
        ensures every { self.new.every ≡ self.old.every }
        ensures passed { self.new.passed ≡ self.old.passed }
    {
        if told {
            self.told(place);
        }
    }
}
