//! When the slots of a gate begin.

use std::io;
use std::time::{Clock, Instant};

/// The clock of a gate's slots: when slot 0 began, and a slot's length in 1/360,000 second.
#[derive(Clone, Copy)]
pub(crate) struct SlotClock {
    pub(crate) opened: Instant,
    pub(crate) slot_units: u32,
}

impl SlotClock {
    /// A clock whose slot 0 begins now.
    pub(crate) fn start<R: Clock>(rt: &R, slot_units: u32) -> io::Result<SlotClock> {
        Ok(SlotClock {
            opened: Instant::now(rt)?,
            slot_units,
        })
    }
}
