//! The type of the curves, and whether they are sound.

ghost use Rattle.std.specs.Prelude.{◌≡◌, ℕ, ◌+◌, ◌<◌, ◌≤◌, ◌↔◌, IsTrue, length, slice_index};
ghost use Rattle.wire_curve.specs.SoundCurves.{AreSound};

use vod_base::{MAX_BYTES, MAX_SLOTS};

/// Two curves over the slots of a plan, by the bytes sent in all at the end of each slot.
///
/// [`crate::film_curves`] gives sound ones, as [`Curves::is_sound`] has it.
#[derive(Debug, PartialEq, Eq, Drop)]
pub struct Curves {
    /// The bytes that were sent before slot 0.
    pub from: u64,
    /// The bytes that must have been sent by the end of each slot.
    pub low: Vec<u64>,
    /// The bytes that may have been sent by the end of each slot.
    pub up: Vec<u64>,
}

impl Curves {
    /// Returns whether the curves are sound, as the planner requires: 1 to 1,000,000 slots in both;
    /// neither curve ever falls; the lower one begins at `from` or above, is nowhere above the
    /// upper one, and meets it at the last slot, at 2^42 bytes or less.
    ///
    /// It takes no memory, and time linear in the slots.
    pub fn is_sound(&self) -> bool
        ensures { IsTrue result ↔ AreSound self.now.from self.now.low.items self.now.up.items }
    {
        let low = self.low.as_slice();
        let up = self.up.as_slice();
        let slots = low.len();
        // The lengths come first: what follows reads the last slot of both curves.
        if slots == 0 || slots as u64 > MAX_SLOTS || up.len() != slots {
            return false;
        }
        let (low_end, up_end) = (low[slots - 1], up[slots - 1]);
        // Neither curve falls, so its last slot bounds all of its bytes by 2^42. The planner's
        // products then fit into 64 bits.
        if self.from > low[0] || low_end != up_end || low_end > MAX_BYTES {
            return false;
        }
        never_falls(low) && never_falls(up) && is_nowhere_above(low, up)
    }
}

/// Whether a curve never falls from one slot to the next.
fn never_falls(curve: &[u64]) -> bool
    ensures { IsTrue result ↔ ((t : ℕ) → t + 1 < length curve.now →
        slice_index curve.now t ≤ slice_index curve.now (t + 1)) }
{
    curve.is_sorted()
}

/// Whether the lower curve is nowhere above the upper one, of equally many slots.
fn is_nowhere_above(low: &[u64], up: &[u64]) -> bool
    requires { length low.now ≡ length up.now }
    ensures { IsTrue result ↔ ((t : ℕ) → t < length low.now →
        slice_index low.now t ≤ slice_index up.now t) }
{
    for slot in 0..low.len() {
        if low[slot] > up[slot] {
            return false;
        }
    }
    true
}
