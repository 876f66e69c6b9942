//! What a large day counts.

/// What a large day reports at its end.
#[derive(Clone, Copy, Debug)]
pub struct FairTotals {
    /// The turns that clients took.
    pub turns: u64,
    /// The plays that a full journal refused.
    pub full: u64,
    /// The last slot.
    pub last: u64,
    /// The bytes that were sent.
    pub sent: u64,
    /// The bytes that were booked in the slots up to the last one.
    pub booked: u64,
    /// The most of them in one slot.
    pub peak: u64,
}

/// How many entries of a journal have each answer.
#[derive(Clone, Copy, Debug)]
pub struct EntryCounts {
    /// The plays that were admitted.
    pub admitted: u64,
    /// The plays that a slot had no room for.
    pub overflows: u64,
    /// The halts.
    pub halted: u64,
}
