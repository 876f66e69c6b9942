//! Laws of what plays send and book.

ghost use Rattle.std.specs.Prelude.{◌≡◌, ◌+◌, ◌-◌, ◌<◌, ◌≤◌, ◌++◌, ◌∷◌, ℕ, List, min, slice_index};
ghost use Rattle.std.specs.Prelude.{sum_by};
ghost use Rattle.std.specs.List.{range_with_len};
ghost use Rattle.plan_cert.specs.declared.Segment.{Segment};
ghost use Rattle.plan_cert.specs.Plan.{IsPlan};
ghost use Rattle.plan_cert.specs.PlanSlots.{plan_slots, total_slots, total_bytes, sum_through};
ghost use Rattle.slot_calendar.specs.declared.calendar.Overflow.{Overflow};
ghost use Rattle.slot_calendar.specs.Profiles.{capacity_at};
ghost use Rattle.slot_calendar.specs.Plays.{Play, sent_before, asked_at, released_at};
ghost use Rattle.slot_calendar.specs.Plays.{truncated_play, share_at, whole_play, booked_by};
ghost use Rattle.slot_calendar.specs.Calendars.{CalendarState, HasRoom, IsCalendar};
ghost use Rattle.slot_calendar.specs.Calendars.{IsFirstOverflow, Represents, booked_at};

/// What a plan that begins at `start` has sent before a slot and sends in it, in the terms of the
/// plan: nothing before its start, its running sum through the slot before, all its bytes from its
/// end on.
pub fn law_plan_bytes_follow_running_sum()
    // what it has sent before a slot
    ensures before { (segments : List Segment) (start t : ℕ) → t ≤ start →
        sent_before segments start t ≡ 0 }
    ensures through { (segments : List Segment) (start t : ℕ) → start ≤ t →
        sent_before segments start (t + 1) ≡ sum_through segments (t - start) }
    ensures end { (segments : List Segment) (start t : ℕ) → IsPlan segments →
        start + total_slots segments ≤ t → sent_before segments start t ≡ total_bytes segments }
    // what it sends in a slot
    ensures slot { (segments : List Segment) (start j : ℕ) →
        asked_at segments start (start + j) ≡ slice_index (plan_slots segments) j }
    ensures outside { (segments : List Segment) (start t : ℕ) → t < start →
        asked_at segments start t ≡ 0 }
{}

/// What a play books: all that its plan asks for, or, of a play that was stopped early, the first
/// `keep` bytes that its plan sends and no others. So its release gives back in each slot what is
/// after them.
pub fn law_play_books_its_kept_bytes()
    ensures whole { (segments : List Segment) (start t : ℕ) →
        share_at t (whole_play start segments) ≡ asked_at segments start t }
    ensures cut { (segments : List Segment) (start keep t : ℕ) →
        share_at t (truncated_play start segments keep) + released_at segments start keep t
        ≡ asked_at segments start t }
    ensures first { (segments : List Segment) (start keep t : ℕ) →
        sum_by (λ u. share_at u (truncated_play start segments keep)) (range_with_len 0 t)
        ≡ min (sent_before segments start t) keep }
{}

/// The plays that a calendar represents never book more than the capacity, in any slot from now on.
pub fn law_plays_stay_within_capacity()
    ensures { (calendar : CalendarState) (plays : List Play) → IsCalendar calendar →
        Represents calendar plays → (t : ℕ) → calendar.first ≤ t →
        booked_by plays t ≤ capacity_at calendar.steps t }
{}

/// A plan that is booked entirely may be stopped early, after any of its bytes.
pub fn law_booked_plan_can_be_released()
    ensures { (calendar : CalendarState) (before after : List Play) (segments : List Segment)
        (start keep : ℕ) →
        Represents calendar (before ++ whole_play start segments ∷ after) →
        (t : ℕ) → calendar.first ≤ t → released_at segments start keep t ≤ booked_at calendar t }
{}

/// A plan has room where no slot comes above its capacity with it: a slot may be booked to the last
/// byte. A slot without room would come above it.
pub fn law_room_means_within_capacity()
    ensures room { (from start : ℕ) (booked capacity : ℕ → ℕ) (segments : List Segment) →
        ((u : ℕ) → from ≤ u → booked u + asked_at segments start u ≤ capacity u) →
        HasRoom from booked capacity start segments }
    ensures over { (from start : ℕ) (booked capacity : ℕ → ℕ) (segments : List Segment)
        (over : Overflow) → IsFirstOverflow from booked capacity start segments over →
        capacity over.slot < over.booked + over.asked }
{}

/// What an overflow says: it names a slot, the bytes that are booked there without the plan, and
/// the bytes that the plan sends there. Together they are above the capacity. Each slot before it
/// has room for what the plan sends there.
pub fn law_overflow_names_first_slot_without_room()
    ensures booked { (from start : ℕ) (booked capacity : ℕ → ℕ) (segments : List Segment)
        (over : Overflow) → IsFirstOverflow from booked capacity start segments over →
        over.booked ≡ booked over.slot }
    ensures asked { (from start : ℕ) (booked capacity : ℕ → ℕ) (segments : List Segment)
        (over : Overflow) → IsFirstOverflow from booked capacity start segments over →
        over.asked ≡ asked_at segments start over.slot }
    ensures over { (from start : ℕ) (booked capacity : ℕ → ℕ) (segments : List Segment)
        (over : Overflow) → IsFirstOverflow from booked capacity start segments over →
        capacity over.slot < booked over.slot + asked_at segments start over.slot }
    ensures before { (from start t : ℕ) (booked capacity : ℕ → ℕ) (segments : List Segment)
        (over : Overflow) → IsFirstOverflow from booked capacity start segments over →
        from ≤ t → t < over.slot → booked t + asked_at segments start t ≤ capacity t }
{}

/// A plan has one first slot without room.
pub fn law_first_overflow_is_unique()
    ensures { (from start : ℕ) (booked capacity : ℕ → ℕ) (segments : List Segment)
        (one other : Overflow) → IsFirstOverflow from booked capacity start segments one →
        IsFirstOverflow from booked capacity start segments other → one ≡ other }
{}
