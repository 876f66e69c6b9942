//! Laws on every course of a connection, on its bytes and its report, each a contract without a
//! body.

ghost use Rattle.std.specs.Prelude.{◌≡◌, ◌+◌, ◌^◌, ◌≤◌, ◌++◌, ◌∷◌, [], ℕ, All, List, None, Option};
ghost use Rattle.std.specs.Prelude.{map};
ghost use Rattle.vod_base.specs.Links.{IoEvent, HeardSlot};
ghost use Rattle.admission.specs.declared.entries.Entry.{Entry};
ghost use Rattle.admission.specs.Histories.{asked_in, latest_asked};
ghost use Rattle.conn.specs.Films.{rounds_film};
ghost use Rattle.conn.specs.EventSteps.{EndsInReply, HasFailedInSlot, IsStopped, Round, Runs};
ghost use Rattle.conn.specs.EventSteps.{RunsAll, entries_in, round_bytes, rounds_outcomes};
ghost use Rattle.conn.specs.InputSteps.{Answered, HasHeard, Outcome, Stage, reply_parts};
ghost use Rattle.conn.specs.declared.reports.ConnEnd.{ConnEnd};
ghost use Rattle.conn.specs.declared.reports.ConnReport.{ConnReport};
ghost use Rattle.conn.specs.Agreement.{Activity, HasDone, Visit, doings_outcomes};
ghost use Rattle.conn.specs.Journals.{Terms};
ghost use Rattle.conn.specs.ConnectionService.{HasServedFrom};
ghost use Rattle.station.specs.Seats.{SeatState};
ghost use Rattle.session_laws.specs.SessionTerms.{AreFilms, HasCode, SessionState, Settings};
ghost use Rattle.session_laws.specs.SessionTerms.{Stored, new_session_state};
ghost use Rattle.connection_laws.specs.ReportCourses.{IsCourseOf, activity_of};
ghost use Rattle.connection_laws.specs.Courses.{Course, IsCourseBetween, IsCourseSplit};
ghost use Rattle.connection_laws.specs.Courses.{course_film, course_plays, first_stage};
ghost use Rattle.connection_laws.specs.Courses.{greatest_slot, rounds_bytes};
ghost use Rattle.connection_laws.specs.InputSplits.{AllLackMemoryAlike, ArePrefixes};
ghost use Rattle.connection_laws.specs.InputSplits.{AreSameAnswers, Beginning, InputSplit};
ghost use Rattle.connection_laws.specs.InputSplits.{HaveSameInput, HeardRequest, HaveSameOutput};
ghost use Rattle.connection_laws.specs.InputSplits.{TakesUp};
ghost use Rattle.connection_laws.specs.Failures.{IsCutShort};
ghost use Rattle.connection_laws.specs.Notes.{ending_missed, noted_play, notes_of, outcome_of};
ghost use Rattle.connection_laws.specs.Notes.{placed_plays, rounds_missed, station_calls};
ghost use Rattle.connection_laws.specs.Receipts.{offers_in, receipts_in};
ghost use Rattle.connection_laws.specs.ReplyPlaces.{AreSentAt, slots_from};
ghost use Rattle.connection_laws.specs.LookLimits.{MayLackMemory};
ghost use Rattle.connection_laws.specs.PlayRuns.{AreRunsInOrder};
ghost use Rattle.connection_laws.specs.Plays.{AreOver, booked_plays, booking_of};
ghost use Rattle.connection_laws.specs.StartRanges.{AreMadeByConnections, IsCourseIn};
ghost use Rattle.connection_laws.specs.StartRanges.{StartsInRange};
ghost use Rattle.connection_laws.specs.Requests.{AreTaken};
ghost use Rattle.connection_laws.specs.Replies.{course_replies, course_texts, text_of};
ghost use Rattle.connection_laws.specs.Replies.{waiting_reply, insert_texts};

pub use crate::watch_laws::{
    law_client_requests_are_answered, law_play_reply_is_read_correctly,
    law_requested_film_is_played, law_unit_count_from_end_time, law_watched_film_is_complete,
    law_whole_film_uses_its_plan,
};

/// The events of a connection's course follow one another, with the last one where an element ended
/// it, and so do those of each prefix of it.
pub fn law_course_is_event_sequence()
    ensures all { (old new : Stage) (rounds : List Round) → RunsAll old rounds new
        → IsCourseBetween old rounds new }
    ensures last { (old mid new : Stage) (rounds : List Round) (round : Round)
        → RunsAll old rounds mid → Runs mid round new → IsCourseBetween old (rounds ++ round ∷ [])
        new }
    ensures fronts { (old new : Stage) (first rest : List Round) → IsCourseBetween old (first ++
        rest) new
        → IsCourseSplit old first rest new }
{}

/// A connection that was served has done what its report lists, and has a course: all its rounds,
/// the one in which it ended among them. So each law on courses holds for what
/// `conn::serve_connection` did (its clause `served`).
pub fn law_served_connection_has_a_course()
    ensures served { (films : List Stored) (settings : Settings) (words : List ℕ)
        (old_told new_told : Option (List IoEvent)) (old new : SeatState) (report : ConnReport)
        → (served : HasServedFrom (new_session_state films settings words) old_told new_told old new
        report)
        → HasDone films settings words
        (activity_of films settings words old_told new_told old new report served) report }
    ensures course { (films : List Stored) (settings : Settings) (words : List ℕ)
        (doings : Activity) (report : ConnReport) → HasDone films settings words doings report
        → (course : Course) × IsCourseOf films settings words doings course }
{}

/// After each event the film bytes that a connection wrote from its beginning on are, of the films
/// of its plays joined, as many as are due by the greatest slot that arrived: of each play what
/// its plan has by then, and none past what is kept of it. Each play but the last was sent as far
/// as it is kept.
pub fn law_film_written_equals_bytes_due()
    ensures film { (course : Course) → rounds_film course.rounds ≡ course_film course }
    ensures over { (course : Course) → AreOver (greatest_slot course.rounds) (course_plays course) }
{}

/// Each play of a connection's course either resumes the run of the play before it, from the byte
/// up to which that play was kept, in the same packets and reports; or it begins a new run at the
/// run's first byte (RFC 2326 sections 10.5 and 10.6). The first run has the SSRC, the first
/// sequence number and the timestamps of the connection's random words. In each later run the
/// sequence numbers go on, and the reports count all packets and octets that were sent before (RFC
/// 3550 sections 5.1 and 6.4.1).
pub fn law_plays_resume_or_begin_runs()
    ensures { (course : Course) → AreRunsInOrder course.words None (course_plays course) }
{}

/// The plays of a connection's course are those that its entries in the journal say: each begins in
/// the slot and has the plan with which it was admitted. As many bytes of it are sent as the next
/// halt keeps.
pub fn law_plays_match_journal_entries()
    ensures { (course : Course) → map booking_of (course_plays course)
        ≡ booked_plays (entries_in (rounds_outcomes course.rounds)) }
{}

/// Each play of a connection begins after slot 0, and at the latest in the slot after the latest
/// one in which a play was asked for. This requires that the connection's report agrees with a
/// legal journal (`conn::laws::law_connection_agrees_with_journal`).
///
/// A connection asks for plays in slots up to 2^62: it takes a greater slot as 2^62. So in a
/// journal whose entries connections made, plays begin in slot 2^62 + 1 at the latest. That a
/// journal is legal gives no such bound, since an entry may ask for any slot.
pub fn law_admitted_plays_start_in_range()
    ensures asked { (films : List Stored) (settings : Settings) (words : List ℕ)
        (doings : Activity) (report : ConnReport) → HasDone films settings words doings report
        → All (λ placed. asked_in placed.entry.command ≤ 2 ^ 62)
        (entries_in (doings_outcomes doings)) }
    ensures latest { (journal : List Entry) → AreMadeByConnections journal
        → latest_asked journal ≤ 2 ^ 62 }
    ensures next { (visit : Visit) (terms : Terms) (journal : List Entry) (course : Course)
        → IsCourseIn visit terms journal course
        → All (λ play. (1 ≤ play.start) × (play.start ≤ latest_asked journal + 1))
        (course_plays course) }
    ensures range { (visit : Visit) (terms : Terms) (journal : List Entry) (course : Course)
        → IsCourseIn visit terms journal course → latest_asked journal ≤ 2 ^ 62
        → All StartsInRange (course_plays course) }
{}

/// All bytes that a connection sent are the film bytes that it wrote, with the replies among them:
/// replies in the order of their requests, each once, except the last one while it waits (RFC 2326
/// section 10.12).
pub fn law_replies_between_packets()
    ensures woven { (course : Course)
        → rounds_bytes course.rounds ≡ insert_texts 0 (course_film course) (course_texts course) }
    ensures order { (course : Course)
        → map text_of (course_texts course) ++ waiting_reply course.last.session
        ≡ course_replies course }
{}

/// Each reply stands at the first boundary of the films that are sent, the end of a frame or of a
/// report, at or after what was due when its request was processed (RFC 2326 section 10.12). Until
/// what is due reaches that boundary, the reply waits.
pub fn law_replies_at_next_boundary()
    ensures { (course : Course) → AreSentAt (greatest_slot course.rounds) (course_plays course)
        (slots_from 0 course.rounds) (course_texts course) }
{}

/// Of a connection's requests only a PLAY and an offer in Ready, and a look that at least 1,024
/// looks came before, may be answered 500: memory may run out for no other (RFC 2326 section
/// 7.1.1).
pub fn law_first_looks_of_a_connection_find_memory()
    ensures { (course : Course) (message : List ℕ) (outcome : Outcome) (new : SessionState)
        → HasHeard course.last.session message outcome new → HasCode 500 new.text
        → MayLackMemory course message }
{}

/// The requests in a connection's input are processed in order. After each event so were all that
/// are complete, unless an earlier reply waits or the 200 of a TEARDOWN was sent.
pub fn law_requests_processed_in_order()
    ensures { (beginning : Beginning) (cutting : InputSplit beginning)
        → AreTaken beginning cutting }
{}

/// The laws on how input is split apply to a connection's course, with the last event where an
/// element ended it, and to each prefix of it.
pub fn law_courses_are_input_splits()
    ensures all { (old new : Stage) (rounds : List Round) → RunsAll old rounds new
        → TakesUp old rounds new }
    ensures last { (old mid new : Stage) (rounds : List Round) (round : Round) (end : ConnEnd)
        → RunsAll old rounds mid → Runs mid round new → IsStopped end new
        → TakesUp old (rounds ++ round ∷ []) new }
    ensures fronts { (old new : Stage) (first rest : List Round) → TakesUp old (first ++ rest) new
        → ArePrefixes old first rest new }
{}

/// However the same bytes between the same slots are split into events, a connection sends the
/// same, as long as the station answers the same and memory runs out for the same requests. What
/// holds for two courses holds for their prefixes: so they have sent the same after each slot.
pub fn law_output_ignores_segmentation()
    ensures same { (beginning : Beginning) (one other : InputSplit beginning)
        → AreFilms beginning.films → HaveSameInput beginning one other
        → HaveSameOutput beginning one other }
    ensures answers { (one more other further : List Outcome)
        → AreSameAnswers (one ++ more) (other ++ further) → AreSameAnswers one other }
    ensures memory { (one more other further : List HeardRequest)
        → AllLackMemoryAlike (one ++ more) (other ++ further) → AllLackMemoryAlike one other }
{}

/// Where a send fails, all is sent that the course sent up to there, and a prefix of what it sends
/// after the last event: where that was a slot, with no request processed after it; and where it
/// was the reply to a request, with those alone that were processed before.
pub fn law_failed_send_leaves_prefix()
    ensures slot { (course : Course) (slot : ℕ) (front : List ℕ) (new : Stage)
        → HasFailedInSlot course.last slot front new
        → IsCutShort course (HeardSlot slot) [] (rounds_bytes course.rounds ++ front) }
    ensures reply { (course : Course) (round : Round) (message : List ℕ) (outcome : Outcome)
        (front : List ℕ) (new : Stage)
        → (ends : EndsInReply course.last round message outcome front new)
        → IsCutShort course round.event
        (round.takings ++ Answered message outcome (reply_parts ends.fails.answered) ∷ [])
        (rounds_bytes course.rounds ++ (round_bytes round ++ front)) }
{}

/// A report's notes of plays are, place by place, those of the plays that the connection's entries
/// admitted, one for each of them: with the plan and the start of the entry, what the play's halt
/// keeps, and the run that was asked for as the session was set up then.
pub fn law_report_notes_every_play()
    ensures notes { (films : List Stored) (settings : Settings) (words : List ℕ)
        (doings : Activity) (report : ConnReport)
        → (done : HasDone films settings words doings report)
        → report.plays.items ≡ notes_of (station_calls films settings words doings report done) }
    ensures turns { (films : List Stored) (settings : Settings) (words : List ℕ)
        (doings : Activity) (report : ConnReport)
        → (done : HasDone films settings words doings report)
        → map outcome_of (station_calls films settings words doings report done)
        ≡ doings_outcomes doings }
    ensures entries { (films : List Stored) (settings : Settings) (words : List ℕ)
        (doings : Activity) (report : ConnReport) → HasDone films settings words doings report
        → map noted_play report.plays.items ≡ placed_plays (entries_in (doings_outcomes doings)) }
{}

/// A report's receipts are, in order, those of what the station answered: of each entry its place
/// in the journal and its answer, and of each full journal its two numbers. Its offers are those
/// that the station made, in order.
pub fn law_report_lists_station_answers()
    ensures receipts { (films : List Stored) (settings : Settings) (words : List ℕ)
        (doings : Activity) (report : ConnReport) → HasDone films settings words doings report
        → report.receipts.items ≡ receipts_in (doings_outcomes doings) }
    ensures offers { (films : List Stored) (settings : Settings) (words : List ℕ)
        (doings : Activity) (report : ConnReport) → HasDone films settings words doings report
        → report.offers.items ≡ offers_in (doings_outcomes doings) }
{}

/// A report's missed slots are those that did not arrive while a play, or its rest, was being sent:
/// at each slot that arrived then, the slots before it that are later than the last one before,
/// from the play's first one on.
pub fn law_report_counts_missed_slots()
    ensures { (films : List Stored) (settings : Settings) (words : List ℕ) (doings : Activity)
        (report : ConnReport) → (done : HasDone films settings words doings report)
        → report.late ≡ rounds_missed (first_stage films settings words) doings.rounds done.mid
        done.runs + ending_missed done.mid.session doings.ending }
{}
