//! What a session asks of its caller.

use early_start::Offers;
use plan_cert::Plan;

/// What the caller does next, after a request.
#[derive(Debug, Drop)]
pub enum Ask {
    /// Nothing: the reply waits.
    Reply,
    /// Ask the station for a play of this plan in the last slot, and hand its answer to
    /// [`crate::Session::admitted`], [`crate::Session::overflowed`] or
    /// [`crate::Session::full`].
    Play(Plan),
    /// Halt the open booking, which keeps so many bytes, and hand the place of the entry to
    /// [`crate::Session::halted`].
    Halt(u64),
    /// Look at this slot, and hand the answer to [`crate::Session::looked`] or
    /// [`crate::Session::full`].
    Look(u64),
    /// Ask from which slot on this plan fits, from the slot after the last one on, and hand the
    /// answer to [`crate::Session::offered`].
    Offer(Plan, Offers),
}

/// What a slot brought.
#[derive(Clone, Copy, Debug, PartialEq, Eq)]
pub enum Slotted {
    /// Nothing is to be done.
    Going,
    /// The play is done: halt its booking, which keeps all its bytes, these, and hand the place of
    /// the entry to [`crate::Session::halted`].
    Finished(u64),
}
