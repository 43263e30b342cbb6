//! A gate for tests, at which work waits for other work.

use pitch_io::{Gate, Role, Work};
use std::sync::atomic::{AtomicBool, AtomicU32, Ordering};
use std::thread::yield_now;

// How often a wait looks.
const MOST_LOOKS: u32 = 10_000_000;

// The publisher's step that waits for the client.
const PUBLISHER_STEP: u32 = 50;

/// A gate at which work waits for other work, so that a test sees that the two run beside one
/// another.
///
/// `before` waits at four places. With `Replay`, unit 1 waits until unit 2 has entered `before`,
/// and unit 2 until unit 1 has. The publisher of unit 1 waits before its step 50 until the client
/// of unit 1 has entered `before` of its step 1; the client waits there until the publisher has
/// left `before` of step 50. A wait looks at most 10,000,000 times, where its making names no other
/// number, and yields between.
#[derive(Drop)]
pub struct MeetGate {
    looks: u32,
    first_unit: AtomicBool,
    second_unit: AtomicBool,
    client: AtomicBool,
    publisher: AtomicBool,
    spent: AtomicBool,
    met: AtomicU32,
    publisher_most: AtomicU32,
    service_most: AtomicU32,
    client_most: AtomicU32,
    replay_most: AtomicU32,
}

impl MeetGate {
    /// A gate that nothing has come to. Takes no memory.
    pub fn make() -> MeetGate {
        MeetGate::looking(MOST_LOOKS)
    }

    /// A gate that nothing has come to, of which each wait looks at most so often. Takes no memory.
    pub fn looking(looks: u32) -> MeetGate {
        MeetGate {
            looks,
            first_unit: AtomicBool::new(false),
            second_unit: AtomicBool::new(false),
            client: AtomicBool::new(false),
            publisher: AtomicBool::new(false),
            spent: AtomicBool::new(false),
            met: AtomicU32::new(0),
            publisher_most: AtomicU32::new(0),
            service_most: AtomicU32::new(0),
            client_most: AtomicU32::new(0),
            replay_most: AtomicU32::new(0),
        }
    }

    /// Whether a wait looked so often as it may and did not find what it waited for.
    pub fn spent(&self) -> bool {
        self.spent.load(Ordering::SeqCst)
    }

    /// How many waits found what they waited for, at the first look or later.
    pub fn met(&self) -> u32 {
        self.met.load(Ordering::SeqCst)
    }

    /// The greatest step with which this role entered `before`; 0 where it never did.
    pub fn most(&self, role: Role) -> u32 {
        self.greatest(role).load(Ordering::SeqCst)
    }

    fn greatest(&self, role: Role) -> &AtomicU32 {
        match role {
            Role::Publisher => &self.publisher_most,
            Role::Service => &self.service_most,
            Role::Client => &self.client_most,
            Role::Replay => &self.replay_most,
        }
    }

    // Looks until the mark is set.
    fn wait_for(&self, mark: &AtomicBool) {
        for _ in 0..self.looks {
            if mark.load(Ordering::SeqCst) {
                self.met.fetch_add(1, Ordering::SeqCst);
                return;
            }
            yield_now();
        }
        self.spent.store(true, Ordering::SeqCst);
    }

    // Sets a mark, and then waits for the other.
    fn meet(&self, mine: &AtomicBool, other: &AtomicBool) {
        mine.store(true, Ordering::SeqCst);
        self.wait_for(other);
    }
}

impl Gate for MeetGate {
    fn before(&self, work: Work) {
        self.greatest(work.role)
            .fetch_max(work.step, Ordering::SeqCst);
        match (work.role, work.unit, work.step) {
            (Role::Replay, 1, _) => self.meet(&self.first_unit, &self.second_unit),
            (Role::Replay, 2, _) => self.meet(&self.second_unit, &self.first_unit),
            (Role::Client, 1, 1) => self.meet(&self.client, &self.publisher),
            (Role::Publisher, 1, PUBLISHER_STEP) => {
                self.wait_for(&self.client);
                self.publisher.store(true, Ordering::SeqCst);
            }
            _ => {}
        }
    }

    fn after(&self, _work: Work) {}
}
