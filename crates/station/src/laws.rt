//! Laws of seats, entries and offers.

ghost use Rattle.std.specs.Prelude.{◌≡◌, ◌+◌, ◌^◌, ◌<◌, ◌≤◌, ℕ, List, [], ◌∷◌, ◌++◌, length, min};
ghost use Rattle.std.specs.Prelude.{slice_index_or, take, Some};
ghost use mathlib.Core.List.{IsPrefix};
ghost use Rattle.admission.specs.declared.entries.Answer.{Answer};
ghost use Rattle.admission.specs.declared.entries.Command.{Command};
ghost use Rattle.admission.specs.declared.entries.Entry.{Entry};
ghost use Rattle.admission.specs.Histories.{Halts, state_after};
ghost use Rattle.admission.specs.Machine.{IsAnswer, start_after};
ghost use Rattle.admission.specs.Makers.{IsOpenAmong, PlacedEntry, entries_by};
ghost use Rattle.early_start.specs.declared.Tried.{Tried};
ghost use Rattle.early_start.specs.StartSearch.{Offers};
ghost use Rattle.plan_cert.specs.declared.Segment.{Segment};
ghost use Rattle.slot_calendar.specs.declared.profiles.CapStep.{CapStep};
ghost use Rattle.station.specs.declared.answers.Offered.{Offered};
ghost use Rattle.station.specs.Answers.{HasMadeEntry};
ghost use Rattle.station.specs.Ledgers.{IsOffered, look_at, play_of};
ghost use Rattle.station.specs.Seats.{SeatState, StationState, after_split, first_seat, new_seat};

use early_start::laws::law_offered_start_is_earliest;

/// What was seen of a journal stays: each entry at its place, the state after each prefix, and what
/// each maker had made, in order.
pub fn law_seen_entries_never_change()
    ensures entries { (seen journal : List Entry) → IsPrefix seen journal →
        (i : ℕ) (none : Entry) → i < length seen →
        slice_index_or journal i none ≡ slice_index_or seen i none }
    ensures fronts { (seen journal : List Entry) → IsPrefix seen journal →
        (n : ℕ) → n ≤ length seen → take n journal ≡ take n seen }
    ensures makers { (seen journal : List Entry) → IsPrefix seen journal →
        (maker : ℕ) → IsPrefix (entries_by maker seen) (entries_by maker journal) }
    ensures trans { (old seen journal : List Entry) → IsPrefix old seen → IsPrefix seen journal →
        IsPrefix old journal }
{}

/// The entry that a seat's call made is the last of what the seat has seen, and has the answer that
/// was given.
pub fn law_answer_is_last_seen_entry()
    ensures entry { (old new : SeatState) (more : ℕ) (command : Command) (place : ℕ)
        (answer : Answer) → HasMadeEntry old new more command place answer → (none : Entry) →
        slice_index_or new.seen place none
        ≡ record { maker = old.number; command = command; answer = answer } }
    ensures last { (old new : SeatState) (more : ℕ) (command : Command) (place : ℕ)
        (answer : Answer) → HasMadeEntry old new more command place answer →
        place + 1 ≡ length new.seen }
{}

/// A play that is open among its maker's entries stays open while the maker doesn't halt it.
pub fn law_play_stays_open_until_halted()
    ensures { (mine : List PlacedEntry) (made : PlacedEntry) (number keep : ℕ) →
        IsOpenAmong mine number keep →
        ¬ Halts number made.entry.command → IsOpenAmong (mine ++ made ∷ []) number keep }
{}

/// What an offer says of a play that is asked for in its place, with the same plan: admitted, it
/// would begin in the offer's first slot; from the start that was found it would be admitted, where
/// it is asked for so that it begins there; and where another start than the first was found, or
/// none, it would be refused for the slot that the first start tried names. Its entry would stand at
/// the place that the offer gives as the number of entries seen.
pub fn law_offer_predicts_play_answer()
    ensures first { (steps : List CapStep) (entries : List Entry) (heard start : ℕ)
        (plan : List Segment) (told : Offered) (found : Offers) →
        IsOffered steps entries heard plan told found →
        IsAnswer steps (state_after entries) (play_of heard plan) (Answer.Admitted start) →
        start ≡ told.first }
    ensures kept { (steps : List CapStep) (entries : List Entry) (heard slot start : ℕ)
        (plan : List Segment) (told : Offered) (found : Offers) →
        IsOffered steps entries heard plan told found → found.start ≡ Some start →
        start ≡ start_after (state_after entries) (min slot (2 ^ 62)) →
        IsAnswer steps (state_after entries) (play_of slot plan) (Answer.Admitted start) }
    ensures refused { (steps : List CapStep) (entries : List Entry) (heard : ℕ)
        (plan : List Segment) (told : Offered) (found : Offers) (none : Tried) →
        IsOffered steps entries heard plan told found → ¬ (found.start ≡ Some told.first) →
        IsAnswer steps (state_after entries) (play_of heard plan)
        (Answer.Overflow (slice_index_or found.tried 0 none).over.slot
        (slice_index_or found.tried 0 none).over.booked
        (slice_index_or found.tried 0 none).over.asked) }
    ensures place { (steps : List CapStep) (entries : List Entry) (heard more place : ℕ)
        (old new : SeatState) (plan : List Segment) (answer : Answer) (told : Offered)
        (found : Offers) → IsOffered steps entries heard plan told found →
        (made : HasMadeEntry old new more (play_of heard plan) place answer) →
        made.before ≡ entries → place ≡ told.seen }
{
    law_offered_start_is_earliest();
}

/// The slot of a play or a look is the one that was asked for, up to the latest slot, 2^62. A later
/// one is taken as that slot.
pub fn law_slot_is_the_one_asked_for()
    ensures play { (heard : ℕ) (plan : List Segment) → heard ≤ 2 ^ 62 →
        play_of heard plan ≡ Command.Play heard plan }
    ensures late_play { (heard : ℕ) (plan : List Segment) → 2 ^ 62 ≤ heard →
        play_of heard plan ≡ Command.Play (2 ^ 62) plan }
    ensures look { (slot : ℕ) → slot ≤ 2 ^ 62 → look_at slot ≡ Command.Look slot }
    ensures late_look { (slot : ℕ) → 2 ^ 62 ≤ slot → look_at slot ≡ Command.Look (2 ^ 62) }
{}

/// A seat that is split off has seen what the seat that it was split from had seen, has made no
/// entry, and has a number of its own: the first seat has 0, and the k-th that is split off has k.
pub fn law_new_seat_has_seen_as_much()
    ensures seen { (seat : SeatState) → (new_seat seat).seen ≡ seat.seen }
    ensures none { (seat : SeatState) → (new_seat seat).mine ≡ [] }
    ensures number { (seat : SeatState) → (new_seat seat).number ≡ (after_split seat).splits }
    ensures first { (station : StationState) → (first_seat station).number ≡ 0 }
    ensures counted { (seat : SeatState) → (after_split seat).splits ≡ seat.splits + 1 }
    ensures unsplit { (station : StationState) → (first_seat station).splits ≡ 0 }
{}
