//! Booking, releasing and looking for room, segment by segment.

ghost use Rattle.std.specs.Prelude.{◌≡◌, ◌≢◌, ◌+◌, ◌*◌, ◌/◌, ◌^◌, ◌<◌, ◌≤◌, [], ◌∷◌, ℕ};
ghost use Rattle.std.specs.Prelude.{MatchOption};
ghost use Rattle.plan_cert.specs.PlanSlots.{total_slots};
ghost use Rattle.plan_cert.specs.Plan.{IsPlan};
ghost use Rattle.slot_calendar.specs.Profiles.{capacity_at};
ghost use Rattle.slot_calendar.specs.Plays.{sent_before, asked_at, released_at};
ghost use Rattle.slot_calendar.specs.Rings.{total_of};
ghost use Rattle.slot_calendar.specs.Totals.{ring_slots};
ghost use Rattle.slot_calendar.specs.Calendars.{FitsIn, IsOverflowIn};

use crate::calendar::Overflow;
use crate::profiles::{MAX_CAPACITY, Profile};
use crate::ring::{BLOCK, RING_SLOTS, Ring};
use plan_cert::Segment;
use vod_base::LATEST_SLOT;

/// Adds segments, one after the other, from slot `start` on.
pub(crate) fn book_segments(ring: &mut Ring, start: u64, segments: &[Segment])
    // needs: a plan whose slots are in the ring, and totals that stay within the greatest capacity
    requires plan { IsPlan segments.now }
    requires small { start ≤ LATEST_SLOT + RING_SLOTS }
    requires from_now { ring.old.first ≤ start }
    requires within { start + total_slots segments.now ≤ ring.old.first + ring_slots }
    requires fits { (t : ℕ) → ring.old.first ≤ t →
        total_of ring.old t + asked_at segments.now start t ≤ MAX_CAPACITY }
    // leaves: each slot's total with what the plan asks for there
    ensures now { ring.new.first ≡ ring.old.first }
    ensures stale { ring.new.stale ≡ ring.old.stale }
    ensures totals { (t : ℕ) → ring.old.first ≤ t →
        total_of ring.new t ≡ total_of ring.old t + asked_at segments.now start t }
{
    let mut from = start;
    for segment in segments {
        book_segment(ring, from, *segment);
        from += segment.slots;
    }
}

/// Takes away what segments, one after the other from slot `start` on, have after their first
/// `keep` bytes, in the slots of the ring.
pub(crate) fn release_segments(ring: &mut Ring, start: u64, segments: &[Segment], keep: u64)
    // needs: totals that have what is released
    requires plan { IsPlan segments.now }
    requires small { start ≤ LATEST_SLOT + RING_SLOTS }
    requires booked { (t : ℕ) → ring.old.first ≤ t →
        released_at segments.now start keep t ≤ total_of ring.old t }
    // leaves: each slot's total without what is released
    ensures now { ring.new.first ≡ ring.old.first }
    ensures totals { (t : ℕ) → ring.old.first ≤ t →
        total_of ring.new t + released_at segments.now start keep t ≡ total_of ring.old t }
{
    let mut from = start;
    // The bytes that are kept are the first ones, so the earlier segments keep theirs before the
    // later.
    let mut left = keep;
    for segment in segments {
        release_segment(ring, from, *segment, left);
        from += segment.slots;
        left = left.saturating_sub(segment.bytes);
    }
}

/// The first overflow of a segment that begins at slot `from`: stretch by stretch, each within one
/// block and one step of the profile.
pub(crate) fn overflow_in(
    ring: &Ring,
    profile: &Profile,
    from: u64,
    segment: Segment,
) -> Option<Overflow>
    requires plan { IsPlan (segment ∷ []) }
    requires small { from ≤ 2 ^ 63 }
    requires from_now { ring.now.first ≤ from }
    ensures { MatchOption result
        (FitsIn from (from + segment.slots) (total_of ring.now) (capacity_at profile.now)
        from (segment ∷ []))
        (IsOverflowIn from (from + segment.slots) (total_of ring.now) (capacity_at profile.now)
        from (segment ∷ [])) }
{
    // Rounded up: slots are rounded sums, so none of them has more than this.
    let most = segment.bytes.div_ceil(segment.slots);
    let mut passed = 0;
    while passed < segment.slots {
        let slot = from + passed;
        let span = profile.span(slot);
        // One stretch has one block and one step of the capacity. So one test stands for all its
        // slots.
        let end = segment
            .slots
            .min(passed + (BLOCK - slot % BLOCK))
            .min(span.until - from);
        // Where the block's greatest total leaves room for the segment's greatest slot, all its
        // slots fit and aren't read.
        if most > span.bytes || ring.top(slot) > span.bytes - most {
            let found = overflow_among(ring, from, segment, passed, end, span.bytes);
            if found.is_some() {
                return found;
            }
        }
        passed = end;
    }
    None
}

/// The bytes of the segment's first `count` slots, with the contract that the calendar's
/// definitions need.
fn sent_through(segment: Segment, count: u64) -> u64
    requires plan { IsPlan (segment ∷ []) }
    requires within { count ≤ segment.slots }
    ensures sent { (from : ℕ) → sent_before (segment ∷ []) from (from + count) ≡ result }
    ensures small { result ≤ segment.bytes }
{
    segment.first_bytes(count)
}

/// Adds a segment that begins at slot `from`.
fn book_segment(ring: &mut Ring, from: u64, segment: Segment)
    // needs: a segment from now on, within the ring, for which every slot has room
    requires plan { IsPlan (segment ∷ []) }
    requires small { from ≤ 2 ^ 63 }
    requires from_now { ring.old.first ≤ from }
    requires within { from + segment.slots ≤ ring.old.first + ring_slots }
    requires fits { (t : ℕ) → ring.old.first ≤ t →
        total_of ring.old t + asked_at (segment ∷ []) from t ≤ MAX_CAPACITY }
    // leaves: each slot from now on with what the segment adds to it
    ensures now { ring.new.first ≡ ring.old.first }
    ensures stale { ring.new.stale ≡ ring.old.stale }
    ensures totals { (t : ℕ) → ring.old.first ≤ t →
        total_of ring.new t ≡ total_of ring.old t + asked_at (segment ∷ []) from t }
{
    let mut before = 0;
    for passed in 0..segment.slots {
        // A slot has the difference of two running sums, as the plan counts its slots.
        let sent = sent_through(segment, passed + 1);
        ring.raise(from + passed, sent - before);
        before = sent;
    }
}

/// Takes bytes from a slot, if it is one of the ring.
fn release_slot(ring: &mut Ring, slot: u64, by: u64)
    requires { ring.old.first ≤ slot → by ≤ total_of ring.old slot }
    ensures now { ring.new.first ≡ ring.old.first }
    ensures at { ring.old.first ≤ slot → total_of ring.new slot + by ≡ total_of ring.old slot }
    ensures others { (t : ℕ) → ring.old.first ≤ t → t ≢ slot →
        total_of ring.new t ≡ total_of ring.old t }
{
    // slots before now are past: there is nothing to give back in them
    if by > 0 && slot >= ring.now() {
        ring.lower(slot, by);
    }
}

/// Takes away what a segment that begins at slot `from` has after its first `keep` bytes, in the
/// slots of the ring.
fn release_segment(ring: &mut Ring, from: u64, segment: Segment, keep: u64)
    requires plan { IsPlan (segment ∷ []) }
    requires small { from ≤ 2 ^ 63 }
    requires booked { (t : ℕ) → ring.old.first ≤ t →
        released_at (segment ∷ []) from keep t ≤ total_of ring.old t }
    ensures now { ring.new.first ≡ ring.old.first }
    ensures totals { (t : ℕ) → ring.old.first ≤ t →
        total_of ring.new t + released_at (segment ∷ []) from keep t ≡ total_of ring.old t }
{
    let mut before = 0;
    for passed in 0..segment.slots {
        // Up to the kept bytes this is 0. So a slot in which they end gives back its rest alone.
        let over = sent_through(segment, passed + 1).saturating_sub(keep);
        release_slot(ring, from + passed, over - before);
        before = over;
    }
}

/// Reads the slots `first` to `end` of a segment that begins at slot `from`, where the capacity is
/// the same.
fn overflow_among(
    ring: &Ring,
    from: u64,
    segment: Segment,
    first: u64,
    end: u64,
    capacity: u64,
) -> Option<Overflow>
    requires plan { IsPlan (segment ∷ []) }
    requires small { from ≤ 2 ^ 63 }
    requires capacity { capacity ≤ MAX_CAPACITY }
    requires from_now { ring.now.first ≤ from }
    requires order { first ≤ end }
    requires within { end ≤ segment.slots }
    ensures { MatchOption result
        (FitsIn (from + first) (from + end) (total_of ring.now) (λ _. capacity) from (segment ∷ []))
        (IsOverflowIn (from + first) (from + end) (total_of ring.now) (λ _. capacity)
        from (segment ∷ [])) }
{
    let mut before = sent_through(segment, first);
    for passed in first..end {
        let sent = sent_through(segment, passed + 1);
        let slot = from + passed;
        let booked = ring.total(slot);
        let asked = sent - before;
        // compared without a sum, so that nothing can overflow
        if booked > capacity || asked > capacity - booked {
            return Some(Overflow {
                slot,
                booked,
                asked,
            });
        }
        before = sent;
    }
    None
}
