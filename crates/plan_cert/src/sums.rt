//! What segments sum up to.

ghost use Rattle.std.specs.Prelude.{◌≡◌, ◌↔◌, IsTrue};
ghost use Rattle.plan_cert.specs.PlanSlots.{total_slots, total_bytes};

use crate::Segment;

/// Returns whether the segments have this many slots.
pub fn has_slots(segments: &[Segment], slots: u64) -> bool
    ensures { IsTrue result ↔ (total_slots segments.now ≡ slots) }
{
    // In 128 bits: segments that make no plan may have any numbers.
    total_slots(segments) == u128::from(slots)
}

/// Returns whether the segments have this many bytes.
pub fn has_bytes(segments: &[Segment], bytes: u64) -> bool
    ensures { IsTrue result ↔ (total_bytes segments.now ≡ bytes) }
{
    total_bytes(segments) == u128::from(bytes)
}

/// The slots of the segments, which may be more than 64 bits hold.
pub(crate) fn total_slots(segments: &[Segment]) -> u128
    ensures { result ≡ total_slots segments.now }
{
    let mut slots = 0;
    for segment in segments {
        slots += u128::from(segment.slots);
    }
    slots
}

/// The bytes of the segments, which may be more than 64 bits hold.
pub(crate) fn total_bytes(segments: &[Segment]) -> u128
    ensures { result ≡ total_bytes segments.now }
{
    let mut bytes = 0;
    for segment in segments {
        bytes += u128::from(segment.bytes);
    }
    bytes
}
