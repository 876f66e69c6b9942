//! Laws of a connection: what is sent of a film while its play isn't halted, how plays are
//! answered, how many events arrive, and the random words.

ghost use Rattle.std.specs.Prelude.{◌≡◌, ◌++◌, ◌+◌, ◌-◌, ◌*◌, ◌^◌, ◌<◌, ◌≤◌, ℕ, List, length};
ghost use Rattle.std.specs.Prelude.{slice_index};
ghost use Rattle.rand_chacha.specs.Block.{block_word};
ghost use Rattle.rand_chacha.specs.ChaCha.{key_of};
ghost use Rattle.admission.specs.declared.entries.Answer.{Answer};
ghost use Rattle.admission.specs.Makers.{PlacedEntry};
ghost use Rattle.pacer.specs.PacerStates.{first_slots};
ghost use Rattle.plan_cert.specs.declared.Segment.{Segment};
ghost use Rattle.slot_calendar.specs.declared.calendar.Overflow.{Overflow};
ghost use Rattle.session.specs.declared.commands.Ask.{Ask};
ghost use Rattle.session.specs.declared.states.Awaited.TheVariants.{Play};
ghost use Rattle.session.specs.declared.states.Play.{Play as Played};
ghost use Rattle.session.specs.declared.states.Prepared.{Prepared};
ghost use Rattle.film_streams.specs.declared.setups.Setup.{Setup};
ghost use Rattle.session.specs.RequestEffects.{CanBePlayed};
ghost use Rattle.session.specs.RequestSteps.{new_session_state};
ghost use Rattle.session.specs.SessionStates.{AreSettings, SessionState};
ghost use Rattle.conn.specs.Admissions.{IsPlayCompleted, IsPlayReplied};
ghost use Rattle.conn.specs.InputSteps.{Entered, HasHeard, IsAskAnswered, IsPlayAnswered, Outcome};
ghost use Rattle.conn.specs.Plays.{ArePlaysKept};
ghost use Rattle.conn.specs.declared.reports.ConnEnd.{ConnEnd};
ghost use Rattle.conn.specs.EventCounts.{events_heard};
ghost use Rattle.conn.specs.EventSteps.{Round};
ghost use Rattle.conn.specs.Observations.{HasCourse, Observed};
ghost use Rattle.conn.specs.Words.{stream_of, words_of};
ghost use Rattle.conn.specs.Films.{GoesOn, HasBegun, HasSent, HasSentOn, IsReady, StandBetween};
ghost use Rattle.conn.specs.Films.{PlaySpan, ReportsOverflow};
ghost use Rattle.conn.specs.Films.{rounds_film, rounds_parts, takings_parts};

pub use crate::agreement::law_connection_agrees_with_journal;
use crate::film_laws::law_all_films_are_traces;
use film_frames::Stored;
use session::Settings;

/// A play that was admitted begins in a slot that is later than the last one, and nothing is sent
/// of it yet.
#[tactic(auto, using(crate::proofs::PlayStart::play_begins))]
pub fn law_admitted_play_begins_later()
    ensures { (old new : SessionState) (placed : PlacedEntry) (start : ℕ) (setup : Setup)
        (prepared : Prepared)
        → IsPlayAnswered old placed (Answer.Admitted start) new
        → IsReady setup old.state → old.awaited ≡ Play prepared
        → HasBegun setup prepared placed.place start new }
{}

/// After each event what was sent of a film is what its plan has for the slots up to the last one,
/// all in order, until its play is halted. Slots that were missed are made up by the next one
/// that is.
pub fn law_film_bytes_follow_plan()
    ensures { (stretch : PlaySpan) (on : GoesOn stretch)
        → HasSentOn on.setup stretch.play stretch.new.session
        (stretch.film ++ rounds_film stretch.rounds) }
{}

/// What was sent of a film is as many bytes as its plan has up to the last slot that arrived.
#[tactic(auto, using(crate::proofs::ReplyPlacement::film_count))]
pub fn law_film_byte_count_follows_plan()
    ensures { (play : Played) (heard : ℕ) (film : List ℕ) → HasSent play heard film
        → length film ≡ first_slots play.pacer.plan (heard + 1 - play.start) }
{}

/// In each course of a connection each play is kept, from its admission until its halt: after the
/// step of each slot what was sent of its run lies between the run's two curves, no less than what
/// the client uses by then and no more than what it can hold, and no plan between them has less
/// excess above any rate (Salehi, Zhang, Kurose and Towsley 1998).
pub fn law_sent_bytes_stay_between_curves(films: &[Stored], settings: &Settings, words: [u32; 5])
    requires settings { AreSettings settings.now }
    ensures { (rounds : List Round)
        → ArePlaysKept (new_session_state films.now settings.now words) rounds }
{
    law_all_films_are_traces(films);
}

/// Until its play is halted, each reply stands between two frames or reports of the film, and none
/// inside one (RFC 2326 section 10.12).
pub fn law_replies_never_split_packets()
    ensures { (stretch : PlaySpan) → GoesOn stretch
        → StandBetween stretch.play.pacer.pieces
        (stretch.play.pacer.before + length stretch.film)
        (takings_parts stretch.takings ++ rounds_parts stretch.rounds) }
{}

/// A play that the link has no room for is answered 453 with the slot that its entry in the journal
/// names.
#[tactic(auto, using(crate::proofs::PlayReplies::overflow_told))]
pub fn law_overflow_reply_names_slot()
    ensures { (old new : SessionState) (plan : List Segment) (placed : PlacedEntry) (over :
        Overflow)
        → IsAskAnswered old (Ask.Play plan) (Entered placed) new
        → placed.entry.answer ≡ Answer.Overflow over.slot over.booked over.asked
        → ReportsOverflow old plan placed over new }
{}

/// A PLAY in Ready to which no refusal applies is answered by what the station answered: 200
/// where its entry admits it, and its run then goes on by the plan that the entry has; 453 exactly
/// where its entry says that the link has no room; 503 exactly where the journal was full; and 500
/// only where memory ran out before the station was asked.
pub fn law_play_reply_matches_entry()
    ensures { (old new : SessionState) (message : List ℕ) (outcome : Outcome)
        → CanBePlayed old message → HasHeard old message outcome new
        → IsPlayReplied old outcome new }
{}

/// A PLAY in Ready to which no refusal applies is decided while its seat holds the lock. It is
/// answered 200 where the journal then has room for it and no slot would be booked above the link's
/// capacity; 453 exactly where there is room and a slot would be, with the first such slot; 503
/// exactly where there is no room; or 500 where memory ran out. The journal is any legal one with
/// which the station's answer agrees.
pub fn law_play_reply_matches_journal()
    ensures { (old new : SessionState) (message : List ℕ) (outcome : Outcome)
        → CanBePlayed old message → HasHeard old message outcome new
        → IsPlayCompleted old outcome new }
{}

/// At most 2^40 events of a connection arrive. [`crate::ConnEnd::TurnsSpent`] is its end
/// exactly where so many were and none of them ended it.
pub fn law_event_limit_ends_connection()
    ensures few { (end : ConnEnd) (old new : Observed) (course : HasCourse end old new)
        → events_heard end old new course ≤ 2 ^ 40 }
    ensures spent { (old new : Observed) (course : HasCourse ConnEnd.TurnsSpent old new)
        → events_heard ConnEnd.TurnsSpent old new course ≡ 2 ^ 40 }
    ensures all { (end : ConnEnd) (old new : Observed) (course : HasCourse end old new)
        → length course.rounds ≡ 2 ^ 40 → end ≡ ConnEnd.TurnsSpent }
{}

/// The words of a worker's connection are the first five of the first block of ChaCha20, ten double
/// rounds, whose key is the server's seed and whose nonce of 64 bits is the worker's number, high,
/// and the connection's, low (Bernstein 2008). Connections whose numbers are below 2^32 share no
/// stream.
pub fn law_connection_words_are_chacha20()
    ensures words { (seed : List ℕ) (worker connection place : ℕ) → worker < 2 ^ 32 →
        connection < 2 ^ 32 → place < 5 → slice_index (words_of seed worker connection) place
        ≡ block_word 10 (key_of seed) 0 (worker * 2 ^ 32 + connection) place }
    ensures worker { (worker other connection next : ℕ) → worker < 2 ^ 32 → other < 2 ^ 32
        → connection < 2 ^ 32 → next < 2 ^ 32
        → stream_of worker connection ≡ stream_of other next → worker ≡ other }
    ensures connection { (worker other connection next : ℕ) → worker < 2 ^ 32 → other < 2 ^ 32
        → connection < 2 ^ 32 → next < 2 ^ 32
        → stream_of worker connection ≡ stream_of other next → connection ≡ next }
{}
