//! Laws of lines and texts, and of the answers of each command.

ghost use Rattle.std.specs.Prelude.{◌≡◌, ◌^◌, ◌<◌, ◌≤◌, ℕ, List};
ghost use Rattle.std.specs.List.{Contains};
ghost use Rattle.slot_calendar.specs.declared.profiles.CapStep.{CapStep};
ghost use Rattle.slot_calendar.specs.Calendars.{CalendarState, Represents, booked_at};
ghost use Rattle.admission.specs.Histories.{IsLegal};
ghost use Rattle.admission.specs.Machine.{State, booked_in, plays_of};
ghost use Rattle.admission.specs.declared.entries.Entry.{Entry};
ghost use Rattle.plan_cert.specs.CertGrammar.{lines_of};
ghost use Rattle.report.specs.CalendarTextForm.{IsCalendarText};
ghost use Rattle.report.specs.CalendarTexts.{AreBookings, calendar_lines, calendar_text};
ghost use Rattle.report.specs.CalendarTexts.{slot_words};
ghost use Rattle.report.specs.EntryLineForm.{HasForm};
ghost use Rattle.report.specs.EntryLines.{entry_line};
ghost use Rattle.report.specs.JournalTexts.{IsJournalText, journal_text};
ghost use Rattle.report.specs.AnswerKinds.{AreOfKind, IsOfKind};

/// Each entry of a legal history has an answer of its command's kind, as `entry_line` asks.
pub fn law_answers_match_commands()
    ensures { (steps : List CapStep) (entries : List Entry) → IsLegal steps entries →
        AreOfKind entries }
{}

/// The line of an entry whose answer is of its command's kind has the form of that command and
/// answer, from its beginning to its end.
pub fn law_entry_line_is_well_formed()
    ensures { (place : ℕ) (entry : Entry) → IsOfKind entry.command entry.answer →
        HasForm place entry.maker (entry_line place entry) entry.command entry.answer }
{}

/// The text of entries, the first of them at a place, is made of their lines in a row: line i is
/// that of entry i with its place, for every entry, in the order of entries, and nothing else
/// stands in it.
pub fn law_journal_text_is_its_lines()
    ensures { (place : ℕ) (entries : List Entry) →
        IsJournalText place entries (journal_text place entries) }
{}

/// The text of what is booked from a slot on has a line for a slot, with its booked bytes, exactly
/// where the slot isn't before the first one and bytes are booked in it. The line says how many.
/// This is true for each calendar, by the contract of `Calendar::now`.
pub fn law_slot_has_a_line_iff_booked()
    ensures stands { (from slot : ℕ) (booked : ℕ → ℕ) → AreBookings from booked → from ≤ slot →
        0 < booked slot → Contains (calendar_lines from booked) (slot_words slot (booked slot)) }
    ensures tells { (from slot told : ℕ) (booked : ℕ → ℕ) → AreBookings from booked →
        slot < 2 ^ 64 → told < 2 ^ 64 →
        Contains (calendar_lines from booked) (slot_words slot told) → told ≡ booked slot }
    ensures some { (from slot told : ℕ) (booked : ℕ → ℕ) → AreBookings from booked →
        slot < 2 ^ 64 → told < 2 ^ 64 →
        Contains (calendar_lines from booked) (slot_words slot told) → 0 < told }
    ensures begun { (from slot told : ℕ) (booked : ℕ → ℕ) → AreBookings from booked →
        slot < 2 ^ 64 → told < 2 ^ 64 →
        Contains (calendar_lines from booked) (slot_words slot told) → from ≤ slot }
{}

/// The text of what is booked from a slot on has a line for that slot, a line for each slot from it
/// on in which bytes are booked, once and in the order of slots, and a last line `end`.
pub fn law_calendar_lists_each_booked_slot()
    ensures { (from : ℕ) (booked : ℕ → ℕ) → AreBookings from booked →
        IsCalendarText from booked (lines_of (calendar_text from booked)) }
{}

/// The text of a calendar that has come to a machine's now and represents its plays is the text of
/// what the machine has booked, from its now on. So it is for the calendar of a book and the state
/// after its entries.
pub fn law_calendar_text_matches_state()
    ensures { (calendar : CalendarState) (state : State) →
        calendar.first ≡ state.now → Represents calendar (plays_of state) →
        calendar_text calendar.first (booked_at calendar)
        ≡ calendar_text state.now (booked_in state) }
{}
