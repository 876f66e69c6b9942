//! What one segment sends, and where a slot stands among segments.

ghost use Rattle.std.specs.Prelude.{◌≡◌, ◌+◌, ◌*◌, ◌/◌, ◌<◌, ◌≤◌, slice_index, MatchOption};
ghost use Rattle.plan_cert.specs.PlanSlots.{plan_slots, total_slots, total_bytes, sum_through};
ghost use Rattle.plan_cert.specs.Plan.{IsPlan, IsSlotPosition, HasPrefix};

use crate::Segment;
use vod_base::{MAX_BYTES, MAX_SLOTS};

impl Segment {
    /// Returns the bytes of its first `count` slots: floor(count * bytes / slots). `count` is at
    /// most its slots.
    pub fn first_bytes(self, count: u64) -> u64
        // needs: a segment of a plan, and no more slots than it has; so the product fits into 64
        // bits
        requires some { 1 ≤ self.slots }
        requires within { count ≤ self.slots }
        requires few { self.slots ≤ MAX_SLOTS }
        requires small { self.bytes ≤ MAX_BYTES }
        ensures { result ≡ count * self.bytes / self.slots }
    {
        // Rounded once, from the segment's first slot on. So its slots add up to its bytes exactly.
        count * self.bytes / self.slots
    }
}

/// Where a slot stands in a list of segments.
#[derive(Clone, Copy)]
pub(crate) struct SlotPosition {
    pub(crate) segment: Segment,
    /// The slots of that segment before it.
    pub(crate) passed: u64,
    /// The bytes of the segments before that one.
    pub(crate) before: u64,
}

/// Some segments at the beginning of a list, with their slots and bytes.
#[derive(Clone, Copy, Debug)]
pub(crate) struct SegmentPrefix {
    pub(crate) segments: usize,
    pub(crate) slots: u64,
    pub(crate) bytes: u64,
}

impl SegmentPrefix {
    /// No segments.
    pub(crate) fn new() -> SegmentPrefix
        ensures segments { result.segments ≡ 0 }
        ensures slots { result.slots ≡ 0 }
        ensures bytes { result.bytes ≡ 0 }
    {
        SegmentPrefix {
            segments: 0,
            slots: 0,
            bytes: 0,
        }
    }
}

/// The place of a slot. It is looked for after the segments that were passed, or from the first
/// segment on where they end after the slot. The segments before it are then passed.
pub(crate) fn place_after(
    segments: &[Segment],
    passed: &mut SegmentPrefix,
    slot: u64,
) -> Option<SlotPosition>
    requires plan { IsPlan segments.now }
    requires passed { HasPrefix segments.now passed.old.segments passed.old.slots passed.old.bytes }
    ensures passed { HasPrefix segments.now passed.new.segments passed.new.slots passed.new.bytes }
    ensures place { MatchOption result
        ((total_slots segments.now ≤ slot) × (passed.new.bytes ≡ total_bytes segments.now))
        (λ place. IsSlotPosition segments.now slot place.segment place.passed place.before) }
{
    // Only a slot before the passed ones begins anew. Slots in order pass each segment once in all.
    if slot < passed.slots {
        *passed = SegmentPrefix::new();
    }
    while passed.segments < segments.len() {
        let segment = segments[passed.segments];
        let within = slot - passed.slots;
        if within < segment.slots {
            return Some(SlotPosition {
                segment,
                passed: within,
                before: passed.bytes,
            });
        }
        *passed = SegmentPrefix {
            segments: passed.segments + 1,
            slots: passed.slots + segment.slots,
            bytes: passed.bytes + segment.bytes,
        };
    }
    None
}

/// The bytes through a slot, which is looked for as by [`place_after`].
pub(crate) fn sum_after(segments: &[Segment], passed: &mut SegmentPrefix, slot: u64) -> u64
    requires plan { IsPlan segments.now }
    requires passed { HasPrefix segments.now passed.old.segments passed.old.slots passed.old.bytes }
    ensures passed { HasPrefix segments.now passed.new.segments passed.new.slots passed.new.bytes }
    ensures value { result ≡ sum_through segments.now slot }
{
    match place_after(segments, passed, slot) {
        Some(place) => place.before + place.segment.first_bytes(place.passed + 1),
        // Past the plan's end all of its segments were passed.
        None => passed.bytes,
    }
}

/// The bytes of a slot, which is looked for as by [`place_after`].
pub(crate) fn slot_after(segments: &[Segment], passed: &mut SegmentPrefix, slot: u64) -> u64
    requires plan { IsPlan segments.now }
    requires passed { HasPrefix segments.now passed.old.segments passed.old.slots passed.old.bytes }
    ensures passed { HasPrefix segments.now passed.new.segments passed.new.slots passed.new.bytes }
    ensures value { result ≡ slice_index (plan_slots segments.now) slot }
{
    match place_after(segments, passed, slot) {
        Some(place) => {
            // The difference of two sums: a slot has what the sum through it has more than the one
            // before.
            let sent = place.segment.first_bytes(place.passed);
            place.segment.first_bytes(place.passed + 1) - sent
        }
        None => 0,
    }
}
