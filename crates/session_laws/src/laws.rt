//! Laws of a session, in the terms of RFC 2326.

ghost use Rattle.std.specs.Prelude.{◌≡◌, ◌<◌, ℕ, List, Some, None, Ok, string_bytes};
ghost use Rattle.rtsp_text.specs.Replies.{Field, reply_front};
ghost use Rattle.film_frames.specs.FramedRuns.{FramedRun, frames_before, octets_before};
ghost use Rattle.admission.specs.declared.entries.Answer.{Answer};
ghost use Rattle.session_records.specs.declared.notes.Receipt.{Receipt};
ghost use Rattle.film_streams.specs.declared.stream_numbers.Counts.{Counts};
ghost use Rattle.film_streams.specs.declared.stream_numbers.StreamSource.{StreamSource};
ghost use Rattle.film_streams.specs.StreamNumbers.{counts_after};
ghost use Rattle.session.specs.RequestEffects.{AsksOrLacks, AwaitsNoStop, CanBePlayed};
ghost use Rattle.session.specs.RequestEffects.{ChangesState, IsSameContext, RefusesNone};
ghost use Rattle.session.specs.RequestSteps.{after_admission, after_full, after_halt, after_look};
ghost use Rattle.session.specs.RequestSteps.{after_overflow};
ghost use Rattle.session.specs.Laws.{AsksNoHalt, GoesOn, InitStage, Is500, IsDropped, IsOneAnswer};
ghost use Rattle.session.specs.Laws.{IsOutOfMemory, LeavesNoted, LeavesOr, MayRunOutOfMemory};
ghost use Rattle.session.specs.Laws.{NeverLacks, PlayingStage, PlaysOn, ReadyStage, Resumes};
ghost use Rattle.session.specs.Laws.{StaysOr};
ghost use Rattle.session.specs.Methods.{IsSetUp, play_front};
ghost use Rattle.session_laws.specs.ReplyContents.{IsDescribed, IsDescribeReply, IsFullReply};
ghost use Rattle.session_laws.specs.ReplyContents.{IsLookReply, IsOverflowReply, IsPlayReply};
ghost use Rattle.session_laws.specs.ReplyContents.{IsSetupReply, HasStartInReply, IsPrintable};
ghost use Rattle.session_laws.specs.CompleteReplies.{HasValidIds, LeavesRoom, RepliesAreComplete};
ghost use Rattle.session_laws.specs.SessionTerms.{AreFilms, Ask, Hears, IsPlannedRun, Planned};
ghost use Rattle.session_laws.specs.SessionTerms.{Played, Playing, Ready, Run, SessionState};
ghost use Rattle.session_laws.specs.SessionTerms.{Settings, Setup, Stored, identity_of};
ghost use Rattle.session_laws.specs.SessionTerms.{new_session_state, sending_of, sequence_of};

pub use crate::end_laws::{law_only_teardown_ends_the_session, law_pause_leaves_a_resumable_run};
pub use crate::look_laws::law_first_looks_never_lack_memory;
pub use crate::method_laws::{
    law_describe_is_answered, law_get_parameter_is_answered, law_options_is_answered,
    law_other_film_is_not_found, law_play_is_answered, law_refusals_have_their_causes,
    law_setup_is_answered,
};
pub use crate::offer_laws::{law_least_buffer_is_exact, law_offer_matches_its_request};
pub use crate::play_laws::{
    law_admitted_play_sends_its_run, law_done_play_is_halted_in_full,
    law_done_run_is_counted_in_full, law_halt_is_at_next_boundary, law_missed_slots_are_counted,
    law_note_matches_its_play, law_only_later_slots_are_processed, law_range_in_playing_is_refused,
};
pub use crate::refusal_laws::{
    law_play_from_now_goes_on, law_play_without_range_plays_whole_film, law_refusals_come_in_order,
    law_replies_have_the_request_cseq,
};

/// A reply other than 200 leaves all of the session but the reply (RFC 2326 section 7.1.1). So do
/// 453 and 503, which report what the station answered: only its receipt is noted, and no answer is
/// awaited any more.
pub fn law_refusal_changes_nothing_else()
    ensures own { (old new : SessionState) (message : List ℕ) → Hears old message Ask.Reply new →
        LeavesOr old new }
    ensures overflow { (old : SessionState) (place slot booked asked : ℕ)
        → LeavesNoted old (Receipt.Entry place (Answer.Overflow slot booked asked))
        (after_overflow old place slot booked asked) }
    ensures full { (old : SessionState) (entries live : ℕ)
        → LeavesNoted old (Receipt.Full entries live) (after_full old entries live) }
{}

/// A request in Playing that asks for no halt leaves the play.
pub fn law_other_requests_leave_the_play()
    ensures { (old new : SessionState) (message : List ℕ) (ask : Ask) (setup : Setup) (play :
        Played) →
        Hears old message ask new
        → old.state ≡ Playing setup play → AsksNoHalt ask → PlaysOn old new }
{}

/// What is sent after so many bytes of a run goes on from it: the next frame's sequence number
/// modulo 2^16, and the packets and octets that reports count modulo 2^32 (RFC 3550 sections 5.1
/// and 6.4.1). So does a new run from what was sent of a paused one that it takes the place of.
pub fn law_rtp_numbers_continue()
    ensures run { (source : StreamSource) (setup : Setup) (counts : Counts) (sending : FramedRun)
        (bytes : ℕ) → GoesOn (identity_of source setup counts)
        (identity_of source setup (counts_after counts sending bytes))
        (frames_before sending bytes) (octets_before sending bytes) }
    ensures dropped { (old : SessionState) (stored : Stored) (setup : Setup) (paused : Run)
        (planned : Planned) → IsDropped old stored setup paused planned
        → GoesOn (identity_of old.source setup old.counts)
        (identity_of old.source setup planned.counts)
        (frames_before (sending_of stored.film old.source setup old.counts paused) paused.sent)
        (octets_before (sending_of stored.film old.source setup old.counts paused) paused.sent) }
{}

/// A PLAY without a Range sends a paused run on, from the byte after the last that was sent (RFC
/// 2326 section 10.5).
pub fn law_resume_continues_after_last_byte()
    ensures { (old : SessionState) (stored : Stored) (setup : Setup) (paused : Run) (planned :
        Planned)
        → IsPlannedRun old stored setup (Some paused) None planned → Resumes old paused planned }
{}

/// The state moves only as RFC 2326 appendix A.2 has it: a request moves Init to Ready, an
/// admission Ready to Playing, and a halt Playing to Ready.
pub fn law_states_follow_rfc_2326()
    ensures request { (old new : SessionState) (message : List ℕ) (ask : Ask) →
        Hears old message ask new
        → StaysOr InitStage ReadyStage old new }
    ensures admission { (old : SessionState) (place start : ℕ)
        → StaysOr ReadyStage PlayingStage old (after_admission old place start) }
    ensures halt { (old : SessionState) (place : ℕ) →
        StaysOr PlayingStage ReadyStage old (after_halt old place) }
{}

/// A request changes neither the films, the settings, what was sent before, the last slot, nor the
/// notes of plays. What a SETUP settles is in its ranges (RFC 2326 section 10.4). A PLAY asks for
/// the run that its Range means, or the paused one, with the plan that is taken for it. A PAUSE and
/// a TEARDOWN in Playing ask for a halt that keeps what is sent up to the end of the current
/// frame or report; no other request leaves one waiting.
pub fn law_request_effects_are_bounded()
    ensures ground { (old new : SessionState) (message : List ℕ) (ask : Ask) →
        Hears old message ask new → IsSameContext old new }
    ensures state { (old new : SessionState) (message : List ℕ) (ask : Ask) →
        Hears old message ask new → ChangesState ask old new }
    ensures unstopped { (old new : SessionState) (message : List ℕ) (ask : Ask) →
        Hears old message ask new → AsksNoHalt ask → AwaitsNoStop old → AwaitsNoStop new }
{}

/// No reply of the session's own is 453 or 503. A PLAY to which no refusal applies asks the station
/// for its play, or is answered 500 because memory ran out.
pub fn law_valid_play_asks_the_station()
    ensures replies { (old new : SessionState) (message : List ℕ) (ask : Ask) →
        Hears old message ask new → RefusesNone ask new }
    ensures asks { (old new : SessionState) (message : List ℕ) (ask : Ask) → Hears old message ask
        new →
        CanBePlayed old message
        → AsksOrLacks old ask new }
{}

/// A message has one answer, as long as memory doesn't run out: one command to the station, and one
/// session after it, with its state and its reply. Where memory runs out, the message is answered
/// 500, and nothing else changes; nothing else is answered 500. Memory can run out only for a PLAY
/// and for an offer in Ready, and for a look once the room of the first 1,024 is used up.
pub fn law_one_answer_per_request()
    ensures one { (old one other : SessionState) (message : List ℕ) (ask again : Ask) →
        AreFilms old.films → Hears old message ask one → Hears old message again other
        → IsOneAnswer old message ask one again other }
    ensures memory { (old new : SessionState) (message : List ℕ) (ask : Ask) →
        Hears old message ask new
        → Is500 ask new → IsOutOfMemory old message ask new }
    ensures only { (old new : SessionState) (message : List ℕ) (ask : Ask) →
        Hears old message ask new
        → Is500 ask new → MayRunOutOfMemory old message }
    ensures begun { (old new : SessionState) (message : List ℕ) (ask : Ask) →
        Hears old message ask new → NeverLacks ask new }
{}

/// The reply to a PLAY names, before its start, the session, the time of the film from the run's
/// first unplayed picture to its end, and how the stream goes on: the URL of the film, the number
/// of the next frame, and the first unplayed picture's time (RFC 2326 sections 12.29 and 12.33).
pub fn law_play_reply_has_range_and_rtp_info()
    ensures { (old : SessionState) (stored : Stored) (setup : Setup) (planned : Planned)
        (sequence : ℕ) (authority : List ℕ) → IsPrintable old stored setup planned authority
        → IsPlayReply old stored setup planned sequence authority
        (play_front old stored setup planned sequence authority) }
{}

/// The reply to a DESCRIBE names the film's base URL, under the authority of the request's URL, and
/// describes the film, with its duration (RFC 2326 section 10.2 and appendix C).
pub fn law_describe_reply_describes_the_film()
    ensures { (old new : SessionState) (sequence : ℕ) (authority : List ℕ)
        → (is : IsDescribed old sequence authority new) → IsDescribeReply sequence authority
        (string_bytes is.describes.stored.name) is.describes.stored.film new.text }
{}

/// The reply to a play that was admitted ends with its start, counted from the last slot.
pub fn law_play_reply_ends_with_its_start()
    ensures { (old : SessionState) (place start sequence : ℕ) (fields : List Field) → old.heard <
        start
        → old.text ≡ reply_front 200 (Some sequence) fields
        → HasStartInReply old start sequence fields (after_admission old place start).text }
{}

/// The reply to a SETUP names the session's id, the channels on which its frames and reports are
/// sent, and their source (RFC 2326 section 12.39). The session is then Ready, and no run of it is
/// paused.
pub fn law_setup_reply_has_transport()
    ensures ready { (old new : SessionState) (sequence : ℕ) (setup : Setup) (ask : Ask)
        → IsSetUp old sequence (Ok setup) ask new → new.state ≡ Ready setup None }
    ensures told { (old new : SessionState) (sequence : ℕ) (setup : Setup) (counts : Counts) (ask :
        Ask)
        → IsSetUp old sequence (Ok setup) ask new
        → IsSetupReply sequence (identity_of old.source setup counts) old.id new.text }
{}

/// The replies to what the station answered have its numbers.
pub fn law_replies_have_the_station_numbers()
    ensures overflow { (old : SessionState) (place slot booked asked : ℕ)
        → IsOverflowReply (sequence_of old.awaited) slot booked asked
        (after_overflow old place slot booked asked).text }
    ensures full { (old : SessionState) (entries live : ℕ)
        → IsFullReply (sequence_of old.awaited) entries live
        (after_full old entries live).text }
    ensures look { (old : SessionState) (place now at booked : ℕ)
        → IsLookReply (sequence_of old.awaited) now at booked
        (after_look old place now at booked).text }
{}

/// Each reply is a complete message, whose end follows from its own bytes (RFC 2326 sections 4.4
/// and 7). A reply repeats the authority of its request's URL, or the option that the request
/// requires; so the request's head is to be 512 bytes shorter than the longest that is taken. What
/// else it needs is so of each session from its beginning on.
pub fn law_every_reply_is_a_complete_message()
    ensures begun { (films : List Stored) (settings : Settings) (words : List ℕ) → AreFilms films →
        HasValidIds (new_session_state films settings words) }
    ensures kept { (old new : SessionState) (message : List ℕ) (ask : Ask) → Hears old message ask
        new →
        HasValidIds old → HasValidIds new }
    ensures whole { (old new : SessionState) (message : List ℕ) (ask : Ask) →
        Hears old message ask new →
        HasValidIds old → LeavesRoom message → RepliesAreComplete ask new }
{}
