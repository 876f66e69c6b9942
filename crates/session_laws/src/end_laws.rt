//! Laws of a PAUSE and a TEARDOWN (RFC 2326 sections 10.6 and 10.7).

ghost use Rattle.std.specs.Prelude.{◌≡◌, ◌⊎◌, ℕ, List, true};
ghost use Rattle.session_laws.specs.EndLaws.{CanBePaused, CanBeTornDown, HasTeardown, IsPause};
ghost use Rattle.session_laws.specs.EndLaws.{IsPausedPlay, IsTornDown};
ghost use Rattle.session.specs.Laws.{IsTeardown};
ghost use Rattle.session.specs.LookLaws.{AreAfter, SessionEvent};
ghost use Rattle.session_laws.specs.PlayLaws.{IsDeclined};
ghost use Rattle.session_laws.specs.SessionTerms.{Ask, Hears, SessionState, Settings, Stored};
ghost use Rattle.session_laws.specs.SessionTerms.{new_session_state};

/// A TEARDOWN that isn't refused halts the play that is sent, if there is one, and the session is
/// over once its reply was sent. One that names the session and its film, and requires no option,
/// isn't refused. Nothing else ends the session, whatever happens to it.
pub fn law_only_teardown_ends_the_session()
    ensures ends { (old new : SessionState) (message : List ℕ) (ask : Ask) → IsTeardown message
        → Hears old message ask new → IsDeclined old ask new ⊎ IsTornDown old ask new }
    ensures taken { (old new : SessionState) (message : List ℕ) (ask : Ask) →
        CanBeTornDown old message → Hears old message ask new → IsTornDown old ask new }
    ensures alone { (films : List Stored) (settings : Settings) (words : List ℕ)
        (happenings : List SessionEvent) (now : SessionState)
        → AreAfter (new_session_state films settings words) happenings now
        → now.torn ≡ true → HasTeardown happenings }
{}

/// A PAUSE that isn't refused halts the play. Once its reply was sent the session is Ready with
/// what the halt leaves of the run, which a PLAY without a Range then sends on. In Playing, one
/// that names the session and its film, and requires no option, isn't refused.
pub fn law_pause_leaves_a_resumable_run()
    ensures leaves { (old new : SessionState) (message : List ℕ) (ask : Ask) → IsPause message
        → Hears old message ask new → IsDeclined old ask new ⊎ IsPausedPlay old ask new }
    ensures taken { (old new : SessionState) (message : List ℕ) (ask : Ask) → CanBePaused old
        message
        → Hears old message ask new → IsPausedPlay old ask new }
{}
