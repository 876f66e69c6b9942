//! Looks are asked for without fail.

ghost use Rattle.std.specs.Prelude.{ℕ, List};
ghost use Rattle.session.specs.Laws.{Is500};
ghost use Rattle.session.specs.LookLaws.{AsksBooked, HasLooksLeft};
ghost use Rattle.session_laws.specs.SessionTerms.{Ask, Hears, SessionState, Settings, Stored};

/// The first 1,024 looks of a connection are never refused because memory ran out, whatever else
/// happens to it.
pub fn law_first_looks_never_lack_memory()
    ensures { (films : List Stored) (settings : Settings) (words : List ℕ) (old new : SessionState)
        (message : List ℕ) (ask : Ask) → HasLooksLeft films settings words old
        → AsksBooked message → Hears old message ask new → ¬ Is500 ask new }
{}
