//! The station's answers.

ghost use Rattle.std.specs.Prelude.{◌≡◌, ◌<◌, ◌^◌, ◌++◌, [], ◌∷◌, true, None, ◌-◌, List, Some, ◌+◌};
ghost use Rattle.std.specs.Prelude.{length, slice_get};
ghost use Rattle.film_frames.specs.FramedRuns.{run_pieces};
ghost use Rattle.film_run.specs.Runs.{IsRun};
ghost use Rattle.film_run.specs.Units.{stored_sizes};
ghost use Rattle.pacer.specs.PacerStates.{IsPacerState, new_pacer_state};
ghost use Rattle.rtsp_text.specs.Replies.{Field, reply_front};
ghost use Rattle.film_streams.specs.Films.{OfFilm};
ghost use Rattle.session.specs.ResumedPlays.{IsPrepared};
ghost use Rattle.film_streams.specs.SettingRanges.{AreFilms};
ghost use Rattle.session.specs.SlotSteps.{halted_in, halted_notes, kept_of, next_of, note_of};
ghost use Rattle.session.specs.SlotSteps.{play_of, state_once_halted};
ghost use Rattle.admission.specs.declared.entries.Answer.{Answer};
ghost use Rattle.session_records.specs.declared.notes.Receipt.{Receipt};
ghost use Rattle.session.specs.SessionStates.{AreNotesUnchanged, AwaitsNoAnswer, IsHalt};
ghost use Rattle.session.specs.SessionStates.{IsAnswerRecorded, IsLook, IsOffer, IsPlay};
ghost use Rattle.session.specs.SessionStates.{IsPlayOrLook, awaited_answer, booking_of, open_of};
ghost use Rattle.session.specs.SessionStates.{sequence_of};
ghost use Rattle.session.specs.RequestSteps.{Halts, after_admission, after_full, after_look};
ghost use Rattle.session.specs.RequestSteps.{after_offer, after_overflow, counts_done, counts_next};
ghost use Rattle.session.specs.RequestSteps.{is_answered};
ghost use Rattle.rtsp_replies.specs.Replies.{play_text};
ghost use Rattle.session.specs.SlotTransitions.{IsPlayIn};

use crate::films::{frames_of, stored_at};
use crate::sessions::Session;
use crate::states::{AfterHalt, Awaited, Play, Prepared, State, Stop};
use admission::Answer;
use early_start::Offers;
use film_frames::{Frames, Stored};
use film_run::Run;
use film_streams::{Counts, Setup, StreamSource, counts_after};
use pacer::Pacer;
use plan_cert::Plan;
use rtsp_replies::{put_full, put_look, put_offer, put_overflow, put_parameters, put_start};
use session_records::{OfferNote, PlayNote, Receipt};
use std::mem;

impl<'a> Session<'a> {
    /// Begins the play that was asked for, which the station admitted, and completes its 200: given
    /// the place of its entry in the journal, and the slot in which it begins.
    pub fn admitted(&mut self, place: u64, start: u64)
        // needs: a play was asked for, and begins in a later slot than the last
        requires asked { IsPlay (awaited_answer self.old) }
        requires start { self.old.heard < start }
        // leaves: the play, the reply that waits, and the receipt of the answer
        ensures exact { self.new ≡ after_admission self.old place start }
        ensures text { (fields : List Field) →
            self.old.text ≡ reply_front 200 (Some (sequence_of self.old.awaited)) fields
            → self.new.text
            ≡ play_text (sequence_of self.old.awaited) fields (start - self.old.heard) }
        ensures handed { IsAnswerRecorded self.old
            (Receipt.Entry place (Answer.Admitted start)) self.new }
        ensures replies { self.new.waits ≡ true }
        ensures open { open_of self.new ≡ booking_of (awaited_answer self.old) start }
        ensures play { IsPlayIn self.new.state }
        ensures notes { AreNotesUnchanged self.old self.new }
    {
        // The contract asks for an awaited play, and a session asks for plays only in Ready.
        let Awaited::Play(prepared) = mem::replace(&mut self.awaited, Awaited::Nothing) else {
            unreachable!()
        };
        let State::Ready(setup, _) = self.state else {
            unreachable!()
        };
        // A paused run that this play takes the place of is counted only now: had the station
        // refused the play, the run would still be there to be resumed.
        self.counts = prepared.counts;
        let answer = Answer::Admitted { start };
        self.log.note(Receipt::Entry { place, answer });
        // The rest of the 200 was written when the play was asked for.
        put_start(&mut self.reply, start - self.heard);
        let play = play_of(prepared, place, start);
        self.state.enter(State::Playing(setup, play));
        self.waits = true;
    }

    /// Answers 453 to the play that was asked for, for which the link has no room: given the place
    /// of the entry in the journal, the first slot without room, the bytes booked in it and the
    /// bytes that the plan asks for there.
    pub fn overflowed(&mut self, place: u64, slot: u64, booked: u64, asked: u64)
        // needs: a play was asked for
        requires asked { IsPlay (awaited_answer self.old) }
        // leaves: the reply that waits and the receipt; no play is open
        ensures exact { self.new ≡ after_overflow self.old place slot booked asked }
        ensures handed { IsAnswerRecorded self.old
            (Receipt.Entry place (Answer.Overflow slot booked asked)) self.new }
        ensures replies { self.new.waits ≡ true }
        ensures open { open_of self.new ≡ None }
        ensures notes { AreNotesUnchanged self.old self.new }
    {
        let sequence = self.awaited.take_sequence();
        let answer = Answer::Overflow {
            slot,
            booked,
            asked,
        };
        self.log.note(Receipt::Entry { place, answer });
        put_overflow(&mut self.reply, sequence, slot, booked, asked);
        self.waits = true;
    }

    /// Answers 503 to the play or the look that was asked for, for which the journal had no room:
    /// given the number of its entries and of the open plays.
    pub fn full(&mut self, entries: u64, live: u64)
        // needs: a play or a look was asked for
        requires asked { IsPlayOrLook (awaited_answer self.old) }
        // leaves: the reply that waits and the receipt, and an open play as it was
        ensures exact { self.new ≡ after_full self.old entries live }
        ensures handed { IsAnswerRecorded self.old (Receipt.Full entries live) self.new }
        ensures replies { self.new.waits ≡ true }
        ensures open { open_of self.new ≡ open_of self.old }
        ensures notes { AreNotesUnchanged self.old self.new }
    {
        let sequence = self.awaited.take_sequence();
        self.log.note(Receipt::Full { entries, live });
        put_full(&mut self.reply, sequence, entries, live);
        self.waits = true;
    }

    /// Ends the play whose booking was halted, and notes it: the one for which that was asked, or
    /// the open one as the connection ends, which keeps what is due. Given is the place of the
    /// halt's entry in the journal.
    pub fn halted(&mut self, place: u64)
        // needs: an open play, and its halt was asked for or nothing was
        requires asked { IsHalt (awaited_answer self.old) (open_of self.old) }
        // leaves: no open play, its note and its receipt, and the reply's text as it was
        ensures halts { Halts self.old place self.new }
        ensures state { self.new.state ≡ halted_in self.old.state self.old.awaited }
        ensures plays { self.new.plays ≡
            self.old.plays ++ halted_notes self.old.state self.old.awaited }
        ensures text { self.new.text ≡ self.old.text }
        ensures late { self.new.late ≡ self.old.late }
        ensures looks { self.new.looks_left ≡ self.old.looks_left }
        ensures offers { self.new.offers ≡ self.old.offers }
        ensures handed { IsAnswerRecorded self.old (Receipt.Entry place Answer.Halted) self.new }
        ensures open { open_of self.new ≡ None }
    {
        let asked = mem::replace(&mut self.awaited, Awaited::Nothing);
        // Init only holds the place while the play is taken out; the next state is entered below.
        let State::Playing(setup, play) = mem::replace(&mut self.state, State::Init) else {
            unreachable!()
        };
        // A halt that nobody asked for is that of a connection that ends: it keeps what was due,
        // which may have been sent.
        let (keep, next) = kept_and_next(&asked, play.pacer.due());
        self.counts = counts_next(
            self.films,
            self.source,
            self.counts,
            &setup,
            &play.run,
            keep,
            next,
        );
        let answer = Answer::Halted;
        self.log.note(Receipt::Entry { place, answer });
        let (state, note) = state_and_note(setup, play, keep, next);
        // Noted at the halt, since only now it is known how many bytes the booking keeps.
        self.log.note_play(note);
        self.state.enter(state);
        // `|=`: as the connection ends, the reply to another request may still wait.
        self.waits |= is_answered(next);
        self.teardown = self.teardown.after_halt(next);
    }

    /// Answers the look that was asked for: given the place of its entry in the journal, the slot
    /// up to which the station's book has come, the slot that was looked at and the bytes booked in
    /// it.
    pub fn looked(&mut self, place: u64, now: u64, at: u64, booked: u64)
        // needs: a look was asked for
        requires asked { IsLook (awaited_answer self.old) }
        // leaves: the reply that waits and the receipt, and an open play as it was
        ensures exact { self.new ≡ after_look self.old place now at booked }
        ensures handed { IsAnswerRecorded self.old
            (Receipt.Entry place (Answer.Looked now at booked)) self.new }
        ensures replies { self.new.waits ≡ true }
        ensures open { open_of self.new ≡ open_of self.old }
        ensures notes { AreNotesUnchanged self.old self.new }
    {
        let sequence = self.awaited.take_sequence();
        let answer = Answer::Looked { now, at, booked };
        self.log.note(Receipt::Entry { place, answer });
        put_look(&mut self.body, now, at, booked);
        put_parameters(&mut self.reply, sequence, self.body.bytes());
        self.waits = true;
    }

    /// Answers the offer that was asked for, and notes it: given how many entries the journal had,
    /// the first slot that was tried, and the plan and the offers that were handed out.
    pub fn offered(&mut self, seen: u64, first: u64, plan: Plan, offers: Offers)
        // needs: an offer was asked for
        requires asked { IsOffer (awaited_answer self.old) }
        // leaves: the reply that waits and the offer's note, and all else as it was
        ensures exact { self.new ≡ after_offer self.old
            (record { seen = seen; first = first; plan = plan; offers = offers }) }
        ensures rest { AwaitsNoAnswer self.new }
        ensures replies { self.new.waits ≡ true }
        ensures open { open_of self.new ≡ open_of self.old }
        ensures receipts { self.new.receipts ≡ self.old.receipts }
        ensures plays { self.new.plays ≡ self.old.plays }
        ensures offers { self.new.offers ≡ self.old.offers
            ++ record { seen = seen; first = first; plan = plan; offers = offers } ∷ [] }
        ensures heard { self.new.heard ≡ self.old.heard }
        ensures tearing { self.new.tearing ≡ self.old.tearing }
        ensures torn { self.new.torn ≡ self.old.torn }
        ensures lost { self.new.lost ≡ self.old.lost }
    {
        let sequence = self.awaited.take_sequence();
        put_offer(&mut self.body, &offers);
        put_parameters(&mut self.reply, sequence, self.body.bytes());
        self.log.note_offer(OfferNote {
            seen,
            first,
            plan,
            offers,
        });
        self.waits = true;
    }
}

/// The play that is sent as it was prepared, once it was admitted.
fn play_of<'a>(prepared: Prepared<'a>, place: u64, start: u64) -> Play<'a>
    requires { IsPrepared prepared }
    ensures play { result ≡ play_of prepared.entry place start }
    ensures pacing { IsPacerState result.pacer }
{
    let Prepared {
        run,
        frames,
        plan,
        paced,
        ..
    } = prepared;
    let pacer = Pacer::new(frames, run.sent, paced, start);
    Play {
        run,
        place,
        start,
        plan,
        pacer,
    }
}

/// Whether a reply waits for what a halt leads to.
fn is_answered(next: AfterHalt) -> bool
    ensures { result ≡ is_answered next }
{
    !matches!(next, AfterHalt::Done)
}

/// What the session has sent in all after a halt that keeps so many bytes of a run: a run that is
/// done is counted.
fn counts_next(
    films: &[Stored],
    source: StreamSource,
    counts: Counts,
    setup: &Setup,
    run: &Run,
    keep: u64,
    next: AfterHalt,
) -> Counts
    requires films { AreFilms films.now }
    requires within { setup.now.film < length films.now }
    requires run { OfFilm films.now setup.now.film
        (λ stored. IsRun (stored_sizes stored) run.now) }
    requires fits { run.now.sent + keep < 2 ^ 64 }
    ensures { result ≡ counts_next counts (counts_done source counts setup.now run.now keep
        (slice_get films.now setup.now.film)) next }
{
    match next {
        AfterHalt::Done => {
            // The run is over, so what was sent of it counts for the next one. A paused run counts
            // on by itself, and no run follows a TEARDOWN.
            let stored = stored_at(films, setup.film);
            let frames = frames_of(stored, source, setup, counts, run);
            counts_after(counts, &frames, run.sent + keep)
        }
        AfterHalt::Paused(_) | AfterHalt::Torn => counts,
    }
}

/// The state after a halt, and the note of the play, whose booking keeps so many bytes.
fn state_and_note<'a>(
    setup: Setup,
    play: Play<'a>,
    keep: u64,
    next: AfterHalt,
) -> (State<'a>, PlayNote)
    requires { setup.film < 2 ^ 32 }
    ensures state { result.0 ≡ state_once_halted setup play.entry next }
    ensures note { result.1 ≡ note_of setup play.entry keep }
{
    let start = play.start;
    let (note, pacer) = note_of(&setup, play, keep);
    let state = match next {
        AfterHalt::Done => State::Ready(setup, None),
        AfterHalt::Paused(rest) => State::Stopping(setup, stop_of(Some(rest), start, pacer)),
        AfterHalt::Torn => State::Stopping(setup, stop_of(None, start, pacer)),
    };
    (state, note)
}

/// What is left of a play that was halted.
fn stop_of<'a>(paused: Option<Run>, start: u64, pacer: Pacer<Frames<'a>>) -> Stop<'a>
    ensures { result ≡ record { paused = paused; start = start; pacer = pacer.entry } }
{
    Stop {
        paused,
        start,
        pacer,
    }
}

/// The note of a play whose booking keeps so many bytes, and what sends the rest.
fn note_of<'a>(setup: &Setup, play: Play<'a>, keep: u64) -> (PlayNote, Pacer<Frames<'a>>)
    requires { setup.now.film < 2 ^ 32 }
    ensures note { result.0 ≡ note_of setup.now play.entry keep }
    ensures pacer { result.1 ≡ play.entry.pacer }
{
    let run = play.run;
    let note = PlayNote {
        place: play.place,
        film: setup.film as u32,
        first_unit: run.first_unit as u64,
        end_unit: run.end_unit as u64,
        from_unit: run.from_unit as u64,
        buffer: setup.buffer,
        delay: setup.delay,
        played: run.played,
        sent_before: run.sent,
        plan: play.plan,
        start: play.start,
        keep,
    };
    (note, play.pacer)
}

/// What a halt keeps, and what it leads to: what was asked for, or what is due as the connection
/// ends.
fn kept_and_next(asked: &Awaited<'_>, due: u64) -> (u64, AfterHalt)
    ensures keep { result.0 ≡ kept_of asked.now due }
    ensures next { result.1 ≡ next_of asked.now }
{
    match asked {
        Awaited::Halt(keep, next) => (*keep, *next),
        Awaited::Nothing | Awaited::Play(_) | Awaited::Look(_) | Awaited::Offer(_) => {
            (due, AfterHalt::Done)
        }
    }
}
