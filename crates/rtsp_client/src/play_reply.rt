//! What the reply to PLAY says.

/// What the reply to PLAY said, and when.
#[derive(Clone, Copy)]
pub(crate) struct Play {
    /// In how many slots the play starts.
    pub(crate) start: u64,
    /// The greatest slot that was received before the reply.
    pub(crate) slot_before: u64,
    /// The film's end, in milliseconds.
    pub(crate) end_ms: u128,
}
