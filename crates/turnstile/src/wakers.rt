//! Where passes sleep while they wait for the lock.

use crossbeam_utils::sync::EventCount;
use std::array;

/// How many bells a turnstile has.
const WAKERS: u64 = 64;

/// The bells of a turnstile. Tickets that are equal modulo [`WAKERS`] share one. So passing the
/// lock on wakes the pass whose ticket is next, and no other one while at most 64 wait.
#[derive(Drop)]
pub(crate) struct Wakers {
    wakers: [EventCount; WAKERS as usize],
}

impl Wakers {
    /// Wakers at which nobody sleeps.
    pub(crate) fn new() -> Wakers {
        Wakers {
            wakers: array::from_fn(|_| EventCount::new()),
        }
    }

    /// The bell at which a pass with this ticket sleeps.
    pub(crate) fn waker_of(&self, ticket: u64) -> &EventCount {
        &self.wakers[(ticket % WAKERS) as usize]
    }
}
