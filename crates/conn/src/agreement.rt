//! A law on reports, on what links expose, and on the journal.

ghost use Rattle.std.specs.Prelude.{ℕ, ◌<◌, List, length, slice_index_or};
ghost use mathlib.Core.List.{IsPrefix};
ghost use Rattle.vod_base.specs.Gates.{ReturnedConn};
ghost use Rattle.film_frames.specs.declared.stored_films.Stored.{Stored};
ghost use Rattle.admission.specs.declared.entries.Entry.{Entry};
ghost use Rattle.admission.specs.Histories.{IsLegal};
ghost use Rattle.film_streams.specs.declared.settings.Settings.{Settings};
ghost use Rattle.station.specs.Seats.{SeatState};
ghost use Rattle.conn.specs.Agreement.{Agrees, AgreesIfObserved, Visit, visit};
ghost use Rattle.conn.specs.Journals.{Terms, terms_of};
ghost use Rattle.conn.specs.Parts.{AreServed, HasServedOne};
ghost use Rattle.conn.specs.declared.reports.ConnReport.{ConnReport};

/// What a connection's link exposes and its report agree with the journal that its seat has seen
/// then, and with each longer one: its entries, the two numbers of each answer that the journal was
/// full, and its offers. A reply 453 has the first slot without room, and each admitted play is
/// halted once, by its own number. So those of each connection of a part agree with what the seat
/// has seen after the last one.
pub fn law_connection_agrees_with_journal()
    ensures seen { (visit : Visit) (old new : SeatState)
        → HasServedOne visit.films visit.settings visit.returned visit.report old new
        → AgreesIfObserved visit (terms_of new) new.seen }
    ensures longer { (visit : Visit) (terms : Terms) (journal longer : List Entry)
        → Agrees visit terms journal → IsPrefix journal longer → IsLegal terms.steps longer
        → Agrees visit terms longer }
    ensures part { (films : List Stored) (settings : Settings) (back : List ReturnedConn)
        (reports : List ConnReport) (old new : SeatState)
        → AreServed films settings old back reports new
        → (k : ℕ) (none : ReturnedConn) (no_report : ConnReport) → k < length back
        → AgreesIfObserved (visit films settings (slice_index_or back k none)
        (slice_index_or reports k no_report)) (terms_of new) new.seen }
{}
