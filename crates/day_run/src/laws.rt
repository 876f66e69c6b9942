//! Laws of a day and of a large day, each a contract without a body.

ghost use Rattle.std.specs.Prelude.{ℕ, List, ◌≡◌, ◌≤◌, ◌<◌, ◌+◌, ◌-◌, ◌^◌, ◌⊎◌, length, map};
ghost use Rattle.std.specs.Prelude.{sum_by, count_by};
ghost use Rattle.std.specs.List.{range_with_len};
ghost use Rattle.day_script.specs.declared.scripts.Line.{Line};
ghost use Rattle.day_script.specs.declared.scripts.Line.TheVariants as Lines;
ghost use Rattle.slot_calendar.specs.declared.profiles.CapStep.{CapStep};
ghost use Rattle.slot_calendar.specs.Profiles.{capacity_at};
ghost use Rattle.admission.specs.declared.entries.Entry.{Entry};
ghost use Rattle.plan_cert.specs.declared.Segment.{Segment};
ghost use Rattle.admission.specs.Books.{places_taken};
ghost use Rattle.admission.specs.Histories.{IsAdmission, IsLegal, booked_after, open_count};
ghost use Rattle.admission.specs.Histories.{state_after};
ghost use Rattle.admission.specs.Makers.{AreHaltsOwn};
ghost use Rattle.day_run.specs.BookingBalance.{share_of};
ghost use Rattle.day_run.specs.Clients.{after_open};
ghost use Rattle.day_run.specs.DayLaws.{IsDrawnTurn, IsFairLine, IsLink, IsOfferAnswer};
ghost use Rattle.day_run.specs.DayLaws.{IsSoundClient, SentIsBookedAfter, SentIsBookedEachTurn};
ghost use Rattle.day_run.specs.ClientStates.{ClientPlay, Playing, is_playing};
ghost use Rattle.day_run.specs.Days.{AreLineSteps, IsDay, IsFaulty, IsLine, SharedLink, DayState};
ghost use Rattle.day_run.specs.Days.{booked_up_to, last_journal, first_moment, rest_at, state_at};
ghost use Rattle.day_run.specs.Days.{sent_up_to};
ghost use Rattle.day_run.specs.FairDays.{IsFair, IsTurn, FairTurn};
ghost use Rattle.day_run.specs.JournalLaws.{HasItsMaker, IsFullJournal, IsHaltedOnce, IsOpenPlayOf};
ghost use Rattle.day_run.specs.JournalLaws.{SaysFull, places_needed};
ghost use Rattle.day_script.specs.Scripts.{AreClients, AreLines, IsClient, StandsAfter};

/// After lines of a script, what the clients are sent in the slots after the last one, up to any
/// later one, is what is booked in those slots.
pub fn law_sent_is_what_is_booked()
    ensures { (link : SharedLink) (sources : ℕ) (lines : List Line) (texts : List (List ℕ))
        (moment : DayState) (slot : ℕ) → AreClients lines → AreLines sources lines →
        AreLineSteps link lines texts first_moment moment → moment.heard ≤ slot →
        sent_up_to moment slot ≡ booked_up_to moment slot }
{}

/// After lines of a script, where the journal is legal, what the clients are sent in the slots
/// after the last one, up to any later one, is no more than the capacity of those slots.
pub fn law_sent_is_within_capacity()
    ensures { (link : SharedLink) (sources : ℕ) (lines : List Line) (texts : List (List ℕ))
        (moment : DayState) (slot : ℕ) → AreClients lines → AreLines sources lines →
        AreLineSteps link lines texts first_moment moment → IsLegal link.steps moment.entries →
        moment.heard ≤ slot → sent_up_to moment slot ≤ sum_by (capacity_at link.steps)
        (range_with_len (moment.heard + 1) (slot - moment.heard)) }
{}

/// A script's day, whose journal is legal, comes to a moment after each of its lines: what the
/// clients are sent in the slots after the last one, up to any later one, is what is booked there,
/// and no more than the capacity of those slots.
pub fn law_each_line_sends_what_is_booked()
    ensures { (link : SharedLink) (sources count : ℕ) (lines : List Line) (text : List ℕ)
        (journal : List Entry) → AreClients lines → AreLines sources lines →
        IsDay link lines text journal → IsLegal link.steps journal → SentIsBookedAfter link lines
        count }
{}

/// A day prints one text for each line of its script.
pub fn law_one_text_per_line()
    ensures { (link : SharedLink) (lines : List Line) (texts : List (List ℕ)) (old new : DayState) →
        AreLineSteps link lines texts old new → length texts ≡ length lines }
{}

/// What the line of a large day says holds: what was sent is what the journal books in its slots,
/// and no slot has more than the capacity. Its counts are those of the journal: the plays that were
/// admitted, those that overflowed a slot, and the halts.
pub fn law_fair_line_is_correct()
    ensures { (steps : List CapStep) (number plays : ℕ) (text : List ℕ)
        (journal : List Entry) → IsFair steps number plays text journal → IsLegal steps journal →
        IsFairLine steps plays text journal }
{}

/// In each turn of a large day, what is sent in the turn's slots, up to any of them, is what the
/// day's journal books there, and no more than the capacity of those slots.
pub fn law_fair_turns_send_what_is_booked()
    ensures { (steps : List CapStep) (number plays : ℕ) (text : List ℕ) (journal : List Entry) →
        IsFair steps number plays text journal → IsLegal steps journal →
        SentIsBookedEachTurn steps number plays journal }
{}

/// Each turn of a large day is a script's: at most one slot, of the next three, and then at most
/// one line, by which one of 256 clients plays, pauses or goes on.
pub fn law_fair_turns_are_script_lines()
    ensures { (link : SharedLink) (words : ℕ → ℕ) (turn : FairTurn) → IsTurn link words turn →
        IsDrawnTurn link turn }
{}

/// A look changes no client, no booking and no slot, only the journal; an offer changes nothing.
pub fn law_looks_and_offers_book_nothing()
    ensures look { (link : SharedLink) (slot : ℕ) (old new : DayState) (text : List ℕ) →
        IsLine link (Lines.Look slot) old new text → (new.states ≡ old.states)
        × (new.heard ≡ old.heard) × (state_after new.entries ≡ state_after old.entries) }
    ensures offer { (link : SharedLink) (client source buffer delay wait : ℕ) (old new : DayState)
        (text : List ℕ) → IsLine link (Lines.Offer client source buffer delay wait) old new text →
        new ≡ old }
{}

/// An offer names the least start within its wait at which the play's plan has room beside all that
/// is booked, from the start on that a play would get which is asked for in the last slot; or the
/// fault of the curves. For each earlier start it names the first slot without room.
pub fn law_offer_is_the_earliest_start()
    ensures { (link : SharedLink) (client source buffer delay wait : ℕ) (old new : DayState)
        (text : List ℕ) → IsLine link (Lines.Offer client source buffer delay wait) old new text →
        IsFaulty (rest_at link source buffer delay) old new text
        ⊎ IsOfferAnswer link (rest_at link source buffer delay) wait old text }
{}

/// What is booked in past slots stays: no line of a script changes it, nor does the end of the day.
pub fn law_past_slots_never_change()
    ensures line { (link : SharedLink) (sources slot : ℕ) (lines : List Line)
        (texts : List (List ℕ)) (moment next : DayState) (line : Line) (text : List ℕ) →
        AreClients lines →
        AreLines sources lines → AreLineSteps link lines texts first_moment moment → IsClient line →
        StandsAfter moment.heard sources line → IsLine link line moment next text →
        slot ≤ moment.heard → booked_after next.entries slot ≡ booked_after moment.entries slot }
    ensures end { (link : SharedLink) (sources slot : ℕ) (lines : List Line) (texts : List (List ℕ))
        (moment : DayState) → AreClients lines → AreLines sources lines →
        AreLineSteps link lines texts first_moment moment → slot ≤ moment.heard →
        booked_after (last_journal moment) slot ≡ booked_after moment.entries slot }
{}

/// At the day's end no play is open, and each play that was admitted has one halt, by its own
/// client. The slots to come have only what is still sent to clients whose pause isn't done.
pub fn law_no_play_is_open_at_the_end()
    ensures open { (link : SharedLink) (sources : ℕ) (lines : List Line) (texts : List (List ℕ))
        (moment : DayState) → AreClients lines → AreLines sources lines →
        AreLineSteps link lines texts first_moment moment →
        open_count (last_journal moment) ≡ 0 }
    ensures halted { (link : SharedLink) (sources number start : ℕ) (lines : List Line)
        (texts : List (List ℕ)) (moment : DayState) (plan : List Segment) → AreClients lines →
        AreLines sources lines → AreLineSteps link lines texts first_moment moment →
        IsLegal link.steps (last_journal moment) →
        IsAdmission (last_journal moment) number start plan →
        IsHaltedOnce (last_journal moment) number }
    ensures booked { (link : SharedLink) (sources slot : ℕ) (lines : List Line)
        (texts : List (List ℕ)) (moment : DayState) → AreClients lines → AreLines sources lines →
        AreLineSteps link lines texts first_moment moment → moment.heard < slot →
        booked_after (last_journal moment) slot
        ≡ sum_by (share_of slot) (map after_open moment.states) }
{}

/// After lines of a script as many plays are open as clients play, and each of these clients has
/// its own open play.
pub fn law_open_plays_are_those_of_clients()
    ensures count { (link : SharedLink) (sources : ℕ) (lines : List Line) (texts : List (List ℕ))
        (moment : DayState) → AreClients lines → AreLines sources lines →
        AreLineSteps link lines texts first_moment moment →
        open_count moment.entries ≡ count_by is_playing moment.states }
    ensures own { (link : SharedLink) (sources client : ℕ) (lines : List Line)
        (texts : List (List ℕ)) (moment : DayState) (play : ClientPlay) → AreClients lines →
        AreLines sources lines →
        AreLineSteps link lines texts first_moment moment → client < 256 →
        state_at moment client ≡ Playing play → IsOpenPlayOf moment.entries client play }
{}

/// The entries that a line makes have its client's number as their maker, and a look's entry has 0.
/// Each halt, also those of a slot and of the day's end, is by the maker of its play.
pub fn law_entries_have_their_makers()
    ensures line { (link : SharedLink) (line : Line) (old new : DayState) (text : List ℕ) →
        IsLine link line old new text → HasItsMaker line old new }
    ensures halts { (link : SharedLink) (sources : ℕ) (lines : List Line) (texts : List (List ℕ))
        (moment : DayState) → AreClients lines → AreLines sources lines →
        AreLineSteps link lines texts first_moment moment → AreHaltsOwn moment.entries }
    ensures end { (link : SharedLink) (sources : ℕ) (lines : List Line) (texts : List (List ℕ))
        (moment : DayState) → AreClients lines → AreLines sources lines →
        AreLineSteps link lines texts first_moment moment → AreHaltsOwn (last_journal moment) }
{}

/// A day's journal stays within its limit: its entries, and one more for the halt of each open
/// play, are never more than that. So all halts of the day's end find room.
pub fn law_day_journal_stays_within_limit()
    ensures lines { (link : SharedLink) (sources : ℕ) (lines : List Line) (texts : List (List ℕ))
        (moment : DayState) → AreClients lines → AreLines sources lines →
        AreLineSteps link lines texts first_moment moment →
        places_taken moment.entries ≤ link.limit }
    ensures end { (link : SharedLink) (sources : ℕ) (lines : List Line) (texts : List (List ℕ))
        (moment : DayState) → AreClients lines → AreLines sources lines →
        AreLineSteps link lines texts first_moment moment →
        places_taken (last_journal moment) ≤ link.limit }
{}

/// A line that says that the journal is full says how many entries it has at that line and how many
/// clients then play, and there is no room for what the line asks. It changes nothing.
pub fn law_full_journal_line_is_true()
    ensures { (link : SharedLink) (sources : ℕ) (lines : List Line) (texts : List (List ℕ))
        (moment next : DayState) (line : Line) (text : List ℕ) → link.limit < 2 ^ 64 →
        AreClients lines → AreLines sources lines →
        AreLineSteps link lines texts first_moment moment → IsLine link line moment next text →
        SaysFull text →
        (next ≡ moment) × IsFullJournal link (places_needed line) moment text }
{}

/// After lines of a script each client goes on soundly: a play is sent by the plan of what was left
/// as it began, and isn't done; what a pause leaves can be played, and what was sent before it are
/// complete frames and reports.
pub fn law_every_client_is_sound()
    ensures { (link : SharedLink) (lines : List Line) (texts : List (List ℕ)) (moment : DayState)
        (client : ℕ) → IsLink link → AreClients lines → AreLines (length link.media) lines →
        AreLineSteps link lines texts first_moment moment → client < 256 →
        IsSoundClient moment.heard (state_at moment client) }
{}

/// A script has one text and one journal.
pub fn law_script_run_is_unique()
    ensures { (link : SharedLink) (lines : List Line) (text other : List ℕ)
        (journal others : List Entry) → IsLink link → AreClients lines →
        AreLines (length link.media) lines → IsDay link lines text journal →
        IsDay link lines other others → (text ≡ other) × (journal ≡ others) }
{}

/// A large day has one line and one journal: its number, its turns and the link's capacity
/// determine them.
pub fn law_fair_is_unique()
    ensures { (steps : List CapStep) (number plays : ℕ) (text other : List ℕ)
        (journal others : List Entry) → IsFair steps number plays text journal →
        IsFair steps number plays other others → (text ≡ other) × (journal ≡ others) }
{}
