//! Laws of offers: there is one, what it says of plays, and that its start is the least.

ghost use Rattle.std.specs.Prelude.{ℕ, ◌≡◌, ◌+◌, ◌<◌, ◌≤◌, List, None, Some, length};
ghost use Rattle.std.specs.Prelude.{slice_index_or};
ghost use Rattle.plan_cert.specs.declared.Segment.{Segment};
ghost use Rattle.slot_calendar.specs.Calendars.{CalendarState, HasRoom, Represents};
ghost use Rattle.slot_calendar.specs.Plays.{Play, asked_at, booked_by};
ghost use Rattle.slot_calendar.specs.Profiles.{capacity_at};
ghost use Rattle.early_start.specs.StartSearch.{IsOffer, IsOfferIn, Offers};
ghost use Rattle.early_start.specs.declared.Tried.{Tried};

/// A plan and its first start have one answer within a wait, whatever is booked.
pub fn law_offer_is_unique()
    ensures start { (from first : ℕ) (booked capacity : ℕ → ℕ) (segments : List Segment)
        (one other : Offers) → one.wait ≡ other.wait →
        IsOffer from booked capacity segments first one →
        IsOffer from booked capacity segments first other → one.start ≡ other.start }
    ensures tried { (from first : ℕ) (booked capacity : ℕ → ℕ) (segments : List Segment)
        (one other : Offers) → one.wait ≡ other.wait →
        IsOffer from booked capacity segments first one →
        IsOffer from booked capacity segments first other → one.tried ≡ other.tried }
{}

/// What is found in a calendar is found in all slots, past ones too, among the plays that the
/// calendar represents, where they book no slot above its capacity.
pub fn law_offer_covers_past_slots()
    ensures { (calendar : CalendarState) (plays : List Play) (segments : List Segment) (first : ℕ)
        (found : Offers) →
        Represents calendar plays →
        ((t : ℕ) → booked_by plays t ≤ capacity_at calendar.steps t) →
        calendar.first < first → IsOfferIn calendar segments first found →
        IsOffer 0 (booked_by plays) (capacity_at calendar.steps) segments first found }
{}

/// The start that is found is the least of those within the wait at which the plan fits; where none
/// is found it fits at none of them.
pub fn law_offered_start_is_earliest()
    // where a start was found: it fits, lies within the wait, and is the least
    ensures fits { (from first start : ℕ) (booked capacity : ℕ → ℕ) (segments : List Segment)
        (found : Offers) → IsOffer from booked capacity segments first found →
        found.start ≡ Some start → HasRoom from booked capacity start segments }
    ensures begun { (from first start : ℕ) (booked capacity : ℕ → ℕ) (segments : List Segment)
        (found : Offers) → IsOffer from booked capacity segments first found →
        found.start ≡ Some start → first ≤ start }
    ensures within { (from first start : ℕ) (booked capacity : ℕ → ℕ) (segments : List Segment)
        (found : Offers) → IsOffer from booked capacity segments first found →
        found.start ≡ Some start → start ≤ first + found.wait }
    ensures least { (from first start earlier : ℕ) (booked capacity : ℕ → ℕ)
        (segments : List Segment) (found : Offers) →
        IsOffer from booked capacity segments first found → found.start ≡ Some start →
        first ≤ earlier → earlier < start → ¬ HasRoom from booked capacity earlier segments }
    // where none was found
    ensures none { (from first start : ℕ) (booked capacity : ℕ → ℕ) (segments : List Segment)
        (found : Offers) → IsOffer from booked capacity segments first found →
        found.start ≡ None → first ≤ start → start ≤ first + found.wait →
        ¬ HasRoom from booked capacity start segments }
{}

/// What is found says of the starts that don't fit: they are all starts from the first one up to
/// the one that was found, in order, or all within the wait where none was found. Each comes with
/// its first slot without room, the bytes booked there, and the bytes that the plan sends there
/// from this start on, which are together above the capacity.
pub fn law_each_earlier_start_has_its_overflow()
    // which starts: all up to the one that was found, or all within the wait
    ensures starts { (from first i : ℕ) (booked capacity : ℕ → ℕ) (segments : List Segment)
        (found : Offers) (none : Tried) → IsOffer from booked capacity segments first found →
        i < length found.tried → (slice_index_or found.tried i none).start ≡ first + i }
    ensures until { (from first start : ℕ) (booked capacity : ℕ → ℕ) (segments : List Segment)
        (found : Offers) → IsOffer from booked capacity segments first found →
        found.start ≡ Some start → first + length found.tried ≡ start }
    ensures all { (from first : ℕ) (booked capacity : ℕ → ℕ) (segments : List Segment)
        (found : Offers) → IsOffer from booked capacity segments first found →
        found.start ≡ None → length found.tried ≡ found.wait + 1 }
    // what is reported of each: the slot, its bytes, and that it is the first one
    ensures booked { (from first i : ℕ) (booked capacity : ℕ → ℕ) (segments : List Segment)
        (found : Offers) (none : Tried) → IsOffer from booked capacity segments first found →
        i < length found.tried → (slice_index_or found.tried i none).over.booked
        ≡ booked (slice_index_or found.tried i none).over.slot }
    ensures asked { (from first i : ℕ) (booked capacity : ℕ → ℕ) (segments : List Segment)
        (found : Offers) (none : Tried) → IsOffer from booked capacity segments first found →
        i < length found.tried → (slice_index_or found.tried i none).over.asked
        ≡ asked_at segments (first + i) (slice_index_or found.tried i none).over.slot }
    ensures over { (from first i : ℕ) (booked capacity : ℕ → ℕ) (segments : List Segment)
        (found : Offers) (none : Tried) → IsOffer from booked capacity segments first found →
        i < length found.tried → capacity (slice_index_or found.tried i none).over.slot
        < (slice_index_or found.tried i none).over.booked
        + (slice_index_or found.tried i none).over.asked }
    ensures before { (from first i t : ℕ) (booked capacity : ℕ → ℕ) (segments : List Segment)
        (found : Offers) (none : Tried) → IsOffer from booked capacity segments first found →
        i < length found.tried → from ≤ t → t < (slice_index_or found.tried i none).over.slot →
        booked t + asked_at segments (first + i) t ≤ capacity t }
{}
