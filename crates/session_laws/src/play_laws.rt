//! Laws of a play, from its request to its note.

ghost use Rattle.std.specs.Prelude.{◌≡◌, ◌<◌, ◌≤◌, ◌+◌, ◌^◌, ℕ, true, false, List};
ghost use Rattle.plan_cert.specs.PlanSlots.{total_bytes};
ghost use Rattle.rtsp_methods.specs.declared.methods.Method.TheVariants.{Play as PlayMethod};
ghost use Rattle.session.specs.RequestEffects.{IsPlayAsked};
ghost use Rattle.film_streams.specs.Films.{IsFilmAt};
ghost use Rattle.session.specs.RequestSteps.{after_admission, after_halt, is_answered};
ghost use Rattle.session_laws.specs.PlayLaws.{HasCountedAll, HasRangeInPlaying};
ghost use Rattle.session_laws.specs.PlayLaws.{PassesEarlierChecks, IsNoted, IsDeclined};
ghost use Rattle.session_laws.specs.PlayLaws.{IsSentAsAsked, KeepsToBoundary, slots_missed};
ghost use Rattle.session.specs.SessionInvariant.{IsSoundState};
ghost use Rattle.session.specs.SlotSteps.{after_play, is_sending, is_taken, kept_of, next_of};
ghost use Rattle.session.specs.SlotSteps.{after_slot, start_in};
ghost use Rattle.session.specs.SessionStates.{AwaitsNoAnswer, HaltAnswer, awaited_answer};
ghost use Rattle.session_laws.specs.SessionTerms.{Ask, HasCode, Hears, Played, Playing, Request};
ghost use Rattle.session_laws.specs.SessionTerms.{SessionState, Setup, Stored, identity_of};
ghost use Rattle.session_laws.specs.SessionTerms.{sending_of};

/// A PLAY with a Range in Playing is refused: by 455, where no other refusal comes before (RFC 2326
/// section 10.5 and appendix A.2).
pub fn law_range_in_playing_is_refused()
    ensures refused { (old new : SessionState) (message : List ℕ) (ask : Ask) (request : Request) →
        Hears old message ask new
        → HasRangeInPlaying old message request → IsDeclined old ask new }
    ensures code { (old new : SessionState) (message : List ℕ) (ask : Ask) (request : Request) →
        Hears old message ask new
        → HasRangeInPlaying old message request → PassesEarlierChecks PlayMethod old request
        → HasCode 455 new.text }
{}

/// A PAUSE and a TEARDOWN halt a play at the first boundary at or after what was sent: the frame or
/// report that is being sent goes out to its end, and nothing after it.
pub fn law_halt_is_at_next_boundary()
    ensures { (old new : SessionState) (message : List ℕ) (keep : ℕ) (setup : Setup) (play : Played)
        →
        Hears old message (Ask.Halt keep) new → IsSoundState old
        → old.state ≡ Playing setup play → KeepsToBoundary play keep }
{}

/// While a play is sent, each slot from its start on that did not arrive between two that did is
/// counted as missed; where none is sent, no slot is.
pub fn law_missed_slots_are_counted()
    ensures sending { (old : SessionState) (slot : ℕ) → is_taken old slot ≡ true →
        is_sending old.state ≡ true
        → (after_slot old slot).late ≡ old.late + slots_missed old.heard slot (start_in old.state) }
    ensures resting { (old : SessionState) (slot : ℕ) → is_sending old.state ≡ false →
        (after_slot old slot).late ≡ old.late }
{}

/// A play is halted, and keeps all that was sent of it, as soon as all its kept bytes were sent and
/// a slot of it was stepped. While some of them are to be sent, no halt is asked for. The kept
/// bytes are those of the entire plan, as long as no halt was asked for and no link call failed.
pub fn law_done_play_is_halted_in_full()
    ensures done { (old : SessionState) (setup : Setup) (play : Played) →
        old.state ≡ Playing setup play → 0 < play.pacer.passed →
        play.pacer.sent ≡ play.pacer.keep
        → awaited_answer (after_play old) ≡ HaltAnswer play.pacer.keep }
    ensures whole { (old : SessionState) (setup : Setup) (play : Played) → IsSoundState old →
        AwaitsNoAnswer old → old.lost ≡ false → old.state ≡ Playing setup play →
        play.pacer.keep ≡ total_bytes play.plan }
    ensures going { (old : SessionState) (setup : Setup) (play : Played) →
        old.state ≡ Playing setup play → play.pacer.sent < play.pacer.keep →
        after_play old ≡ old }
{}

/// After a play that is done, whose halt keeps its entire plan, all frames of its run were counted:
/// what is sent next has the next sequence number, and reports count all packets and octets before
/// (RFC 3550 sections 5.1 and 6.4.1).
pub fn law_done_run_is_counted_in_full()
    ensures { (old : SessionState) (place : ℕ) (stored : Stored) (setup : Setup) (play : Played)
        → IsSoundState old → old.state ≡ Playing setup play
        → is_answered (next_of old.awaited) ≡ false → IsFilmAt old.films setup.film stored
        → kept_of old.awaited play.pacer.due ≡ total_bytes play.plan
        → HasCountedAll (identity_of old.source setup old.counts)
        (identity_of old.source setup (after_halt old place).counts)
        (sending_of stored.film old.source setup old.counts play.run) }
{}

/// The note of a halted play names its run and its client, and its plan is the plan of that run for
/// that client. It keeps what the halt was asked to keep, or what is due as the connection ends,
/// and comes after the notes of the plays before.
pub fn law_note_matches_its_play()
    ensures { (old : SessionState) (place : ℕ) (stored : Stored) (setup : Setup) (play : Played)
        → IsSoundState old → old.state ≡ Playing setup play
        → IsFilmAt old.films setup.film stored → IsNoted stored play old (after_halt old place) }
{}

/// A play that the station admitted is sent as it was asked for: the run from what was sent of it
/// on, by its plan, in frames whose numbers go on from what the session sent in all (RFC 3550
/// section 5.1).
pub fn law_admitted_play_sends_its_run()
    ensures { (old asked : SessionState) (is : IsPlayAsked old asked) (place start : ℕ)
        → asked.state ≡ old.state → IsSentAsAsked old is.stored is.setup is.planned place start
        (after_admission asked place start) }
{}

/// A slot is processed where it is later than the last one, and none above 2^62; no other changes
/// anything.
pub fn law_only_later_slots_are_processed()
    ensures later { (old : SessionState) (slot : ℕ) → old.heard < slot → slot ≤ 2 ^ 62 →
        (after_slot old slot).heard ≡ slot }
    ensures past { (old : SessionState) (slot : ℕ) → slot ≤ old.heard → after_slot old slot ≡ old }
    ensures above { (old : SessionState) (slot : ℕ) → 2 ^ 62 < slot → after_slot old slot ≡ old }
{}
