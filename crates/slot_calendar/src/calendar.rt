//! The calendar: what is booked in each slot, and the first slot without room for a plan.

ghost use Rattle.std.specs.Prelude.{◌≡◌, ◌+◌, ◌^◌, ◌<◌, ◌≤◌, ◌++◌, [], ◌∷◌, ℕ, List, IfOk};
ghost use Rattle.std.specs.Prelude.{MatchOption};
ghost use Rattle.plan_cert.specs.PlanSlots.{total_slots, total_bytes};
ghost use Rattle.slot_calendar.specs.Profiles.{capacity_at};
ghost use Rattle.slot_calendar.specs.Plays.{Play, asked_at, released_at, whole_play};
ghost use Rattle.slot_calendar.specs.Plays.{truncated_play};
ghost use Rattle.slot_calendar.specs.Totals.{ring_slots};

use crate::booking::{book_segments, overflow_in, release_segments};
use crate::profiles::Profile;
use crate::ring::{RING_SLOTS, Ring};
use plan_cert::Plan;
use std::alloc::Global;
use std::fmt;
use std::marker::Model;
use vod_base::{LATEST_SLOT, NoMemory};

/// A slot that has no room for a plan.
#[derive(Clone, Copy, Debug, PartialEq, Eq)]
pub struct Overflow {
    /// The slot.
    pub slot: u64,
    /// The bytes that are booked in it.
    pub booked: u64,
    /// The bytes that the plan asks for in it.
    pub asked: u64,
}

/// The bytes that are booked on a link, slot by slot, from `now` on.
///
/// Contracts see `now`, the steps of the capacity and the list of the totals from `now` on.
#[derive(Drop)]
pub struct Calendar {
    profile: Profile,
    ring: Ring,
}

impl Model for Calendar {
    ghost use Rattle.slot_calendar.specs.Inside.{CalendarState, calendar_state, IsCalendarInside};

    ghost Value = { CalendarState };

    ghost view = { calendar_state };

    ghost invariant = { IsCalendarInside };
}

/// Its first slot alone: a ring of 1,048,576 slots is no text for a reader.
impl fmt::Debug for Calendar {
    fn fmt<W: fmt::Write>(&self, f: &mut fmt::Formatter<W>) -> fmt::Result {
        f.debug_struct("Calendar")
            .field("now", &self.ring.now())
            .finish_non_exhaustive()
    }
}

impl Calendar {
    ghost use Rattle.slot_calendar.specs.Calendars.{IsCalendar, Represents, HasRoomIn};
    ghost use Rattle.slot_calendar.specs.Calendars.{IsFirstOverflowIn, booked_at};

    /// Makes an empty calendar of this capacity, from slot 0 on. No other call takes memory.
    ///
    /// # Errors
    ///
    /// [`NoMemory`] where there is none for the 1,048,576 slots.
    pub fn new(alloc: Global, profile: Profile) -> Result<Calendar, NoMemory>
        ensures now { IfOk result (λ calendar. calendar.first ≡ 0) }
        ensures profile { IfOk result (λ calendar. calendar.steps ≡ profile) }
        ensures totals { IfOk result (λ calendar. (t : ℕ) → booked_at calendar t ≡ 0) }
        ensures stands { IfOk result (λ calendar. Represents calendar []) }
    {
        let ring = Ring::new(alloc)?;
        Ok(Calendar { profile, ring })
    }

    /// Returns the capacity of its slots, as it was given at its making.
    pub fn profile(&self) -> &Profile
        ensures { result.now ≡ self.now.steps }
    {
        &self.profile
    }

    /// Returns the first slot that it still knows.
    pub fn now(&self) -> u64
        ensures value { result ≡ self.now.first }
        ensures calendar { IsCalendar self.now }
        ensures past { (t : ℕ) → self.now.first + ring_slots ≤ t → booked_at self.now t ≡ 0 }
    {
        self.ring.now()
    }

    /// Returns the bytes booked in a slot, never above its capacity; 0 from `now() + 1,048,576` on.
    /// The slot isn't before `now()`.
    pub fn booked(&self, slot: u64) -> u64
        requires { self.now.first ≤ slot }
        ensures value { result ≡ booked_at self.now slot }
        ensures within { result ≤ capacity_at self.now.steps slot }
        ensures past { self.now.first + ring_slots ≤ slot → result ≡ 0 }
    {
        self.ring.total(slot)
    }

    /// Returns a slot after which no bytes are booked, at most 1,048,576 after `now()`. It may lie
    /// before `now()`, and slots up to it may have been released.
    pub fn booked_through(&self) -> u64
        ensures calendar { IsCalendar self.now }
        ensures within { result ≤ self.now.first + ring_slots }
        ensures after { (t : ℕ) → self.now.first ≤ t → result + 1 ≤ t → booked_at self.now t ≡ 0 }
    {
        // Past the ring nothing is booked. A caller that sums the slots up to here passes over the
        // ring at most once.
        self.ring.last().min(self.ring.now() + RING_SLOTS)
    }

    /// Finds the first slot where the bytes booked and those that this plan asks for, if it begins
    /// at `start`, are together above the capacity; None where it fits into every slot. `start` is
    /// after `now()`, and at most 2^62 + 256.
    ///
    /// It passes over the segments once, and over the blocks of 1,024 slots that have room for the
    /// greatest slot of a segment without reading them.
    pub fn first_overflow(&self, start: u64, plan: &Plan) -> Option<Overflow>
        requires after { self.now.first < start }
        requires small { start ≤ LATEST_SLOT + 256 }
        ensures { MatchOption result (HasRoomIn self.now start plan.now)
            (IsFirstOverflowIn self.now start plan.now) }
    {
        let segments = plan.segments();
        let mut from = start;
        // The segments are tried in the order of their slots, so the first overflow found is the
        // first.
        for segment in segments {
            if let Some(over) = overflow_in(&self.ring, &self.profile, from, *segment) {
                return Some(over);
            }
            from += segment.slots;
        }
        None
    }

    /// Books a plan that fits, from `start` on. `start` is after `now()`, and the plan's last slot
    /// is one of the 1,048,576 from `now()` on. One pass over the plan's slots.
    pub fn book(&mut self, start: u64, plan: &Plan)
        // needs: slots after now and within the ring, and room in each of them
        requires after { self.old.first < start }
        requires within { start + total_slots plan.now ≤ self.old.first + ring_slots }
        requires room { HasRoomIn self.old start plan.now }
        // leaves: the plan's bytes added in each slot, and nothing else changed
        ensures now { self.new.first ≡ self.old.first }
        ensures profile { self.new.steps ≡ self.old.steps }
        ensures totals { (t : ℕ) → self.old.first ≤ t →
            booked_at self.new t ≡ booked_at self.old t + asked_at plan.now start t }
        ensures stands { (plays : List Play) → Represents self.old plays →
            Represents self.new (plays ++ whole_play start plan.now ∷ []) }
    {
        book_segments(&mut self.ring, start, plan.segments());
    }

    /// Gives back what a plan that was booked at `start` has after its first `keep` bytes in the
    /// slots from now on. `keep` is at most the plan's bytes. One pass over the plan's slots.
    pub fn release(&mut self, start: u64, plan: &Plan, keep: u64)
        // needs: bytes that are booked, as those of a plan that was booked are
        requires keep { keep ≤ total_bytes plan.now }
        requires booked { (t : ℕ) → self.old.first ≤ t →
            released_at plan.now start keep t ≤ booked_at self.old t }
        // leaves: what is after the kept bytes taken away, and nothing else changed
        ensures now { self.new.first ≡ self.old.first }
        ensures profile { self.new.steps ≡ self.old.steps }
        ensures totals { (t : ℕ) → self.old.first ≤ t →
            booked_at self.new t + released_at plan.now start keep t ≡ booked_at self.old t }
        ensures stands { (before after : List Play) →
            Represents self.old (before ++ whole_play start plan.now ∷ after) →
            Represents self.new (before ++ truncated_play start plan.now keep ∷ after) }
    {
        let segments = plan.segments();
        // past the ring nothing is booked; within it the plan's slots can be counted
        if start.saturating_sub(self.ring.now()) < RING_SLOTS {
            release_segments(&mut self.ring, start, segments, keep);
            self.ring.settle();
        }
    }

    /// Forgets the slots before `now`, which is at most 2^62.
    pub fn advance(&mut self, now: u64)
        // needs: a slot that isn't before now
        requires from_now { self.old.first ≤ now }
        requires small { now ≤ LATEST_SLOT }
        // leaves: all slots from the new now on as they were
        ensures now { self.new.first ≡ now }
        ensures profile { self.new.steps ≡ self.old.steps }
        ensures totals { (t : ℕ) → now ≤ t → booked_at self.new t ≡ booked_at self.old t }
        ensures stands { (plays : List Play) → Represents self.old plays → Represents self.new plays }
    {
        self.ring.advance(now);
    }
}
