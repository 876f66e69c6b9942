//! Requests, method by method.

ghost use Rattle.std.specs.Prelude.{◌≡◌, ◌<◌, ◌≤◌, ℕ, true, false, length, IfSome, MatchOption};
ghost use Rattle.std.specs.Prelude.{IfNone, Ok, []};
ghost use Rattle.interleave.specs.Elements.{IsMessageLength};
ghost use Rattle.rtsp_text.specs.Lines.{is_one_line};
ghost use Rattle.session.specs.declared.commands.Ask.{Ask};
ghost use Rattle.session.specs.RequestSteps.{Hears};
ghost use Rattle.session.specs.RunRequests.{IsPlayable};
ghost use Rattle.film_streams.specs.SettingRanges.{IsSetup};
ghost use Rattle.film_streams.specs.Films.{OfFilm};
ghost use Rattle.session.specs.Methods.{AsksOfferOr, AsksPlayOr, Describes, GetsParameter, HasWait};
ghost use Rattle.session.specs.Methods.{HearsRequest, Looks, GetsOffer, OffersReady, Pauses, Plays};
ghost use Rattle.session.specs.Methods.{SetsUp, Takes, TearsDown, play_call};
ghost use Rattle.session.specs.RequestedPlans.{IsPausedIn};
ghost use Rattle.session.specs.Tasks.{IsAuthority, IsTask};
ghost use Rattle.rtsp_replies.specs.Replies.{refusal_text};
ghost use Rattle.session.specs.SessionStates.{AsksFor, CanHandleRequest, AwaitsNoAnswer, IsReadyIn};
ghost use Rattle.session.specs.SessionStates.{IsSameStationState, LeavesFor, has_session_in};
ghost use Rattle.session.specs.SessionStates.{is_playing_in, with_reply};
ghost use Rattle.session.specs.SessionInvariant.{IsGoing};
ghost use Rattle.session.specs.HaltSteps.{KeepsToBoundary};

use crate::commands::Ask;
use crate::films::{frames_of, stored_at};
use crate::plans::{Planned, playback_of};
use crate::play_infos::info_of;
use crate::refusals::{Task, check_request};
use crate::sessions::Session;
use crate::states::{AfterHalt, Awaited, Prepared, State};
use early_start::MAX_WAIT;
use film_run::{Run, run_after};
use film_streams::{Setup, length_ms, read_setup};
use interleave::MAX_HEAD_BYTES;
use mpeg_scan::laws::law_film_is_well_formed;
use rtsp_fields::read_wait;
use rtsp_methods::{Refusal, Topic, option_of, read_topic};
use rtsp_replies::{
    put_description, put_plain, put_play, put_public, put_refusal, put_session, put_setup,
};
use rtsp_text::{Request, header, read_request, sequence_of};
use std::mem;

impl<'a> Session<'a> {
    /// Processes a complete request: answers it, or asks for what its answer needs.
    ///
    /// It takes all memory that the request needs before it changes anything. Where memory runs
    /// out it answers 500.
    ///
    /// The caller may ask only while no link call of the session has failed: once
    /// [`Session::slot`] or [`Session::reply`] returned an error, no request is processed any more,
    /// since a play could not be stopped between two packets. [`Session::link_failed`] says so too.
    pub fn hear(&mut self, message: &[u8]) -> Ask
        // needs: no answer of the station is awaited, no reply waits, no TEARDOWN was answered, no
        // call of the link failed; and one complete message
        requires rest { AwaitsNoAnswer self.old }
        requires replied { self.old.waits ≡ false }
        requires torn { self.old.torn ≡ false }
        requires linked { self.old.lost ≡ false }
        requires whole { IsMessageLength message.now (length message.now) }
        // answers and leaves: what the rules of RFC 2326 say for this state and this message
        ensures hears { Hears self.old message.now result self.new }
        ensures asks { AsksFor result self.new }
        ensures same { IsSameStationState self.old self.new }
    {
        match read_request(message) {
            Ok(request) => self.hear_request(&request),
            // What is no request may still have a number, by which its client knows the 400.
            Err(fault) => self.refuse(sequence_of(message), fault.into()),
        }
    }

    /// Answers a request that could be read: it is refused, or processed by its method.
    fn hear_request(&mut self, request: &Request<'_>) -> Ask
        requires hear { CanHandleRequest self.old }
        requires head { length request.now.head.now ≤ MAX_HEAD_BYTES }
        requires url { length request.now.url.now ≤ MAX_HEAD_BYTES }
        ensures hears { HearsRequest self.old request.now result self.new }
        ensures leaves { LeavesFor result self.old self.new }
    {
        match check_request(self.films, &self.id, &self.state, request) {
            Ok(task) => self.process_task(request, task),
            Err(refusal) => {
                put_refusal(
                    &mut self.reply,
                    Some(request.sequence),
                    refusal,
                    option_of(request),
                );
                self.reply_waits()
            }
        }
    }

    /// Processes a request by its method.
    fn process_task(&mut self, request: &Request<'_>, task: Task<'_>) -> Ask
        requires hear { CanHandleRequest self.old }
        requires task { IsTask (length self.old.films) self.old.state task }
        ensures takes { Takes self.old request.now (Ok task.entry) result self.new }
        ensures leaves { LeavesFor result self.old self.new }
    {
        let sequence = request.sequence;
        match task {
            Task::Options => {
                put_public(&mut self.reply, sequence);
                self.reply_waits()
            }
            Task::Describe(asked) => self.describe(sequence, asked.film, asked.authority),
            Task::Setup(film) => self.set_up(request, film),
            Task::Play(asked) => self.play(request, asked.authority),
            Task::Pause => self.pause(sequence),
            Task::Teardown => self.tear_down(sequence),
            Task::GetParameter => self.get_parameter(request),
        }
    }

    /// The reply is complete: it waits.
    fn reply_waits(&mut self) -> Ask
        requires rest { AwaitsNoAnswer self.old }
        ensures asks { result ≡ Ask.Reply }
        ensures waits { self.new ≡ record self.old { waits = true } }
    {
        self.waits = true;
        Ask::Reply
    }

    /// Refuses a request that requires no option.
    fn refuse(&mut self, sequence: Option<u64>, refusal: Refusal) -> Ask
        requires rest { AwaitsNoAnswer self.old }
        ensures ask { result ≡ Ask.Reply }
        ensures exact { self.new ≡ with_reply self.old (refusal_text sequence refusal []) }
        ensures leaves { LeavesFor result self.old self.new }
    {
        put_refusal(&mut self.reply, sequence, refusal, b"");
        self.reply_waits()
    }

    /// DESCRIBE (RFC 2326 section 10.2).
    fn describe(&mut self, sequence: u64, film: usize, authority: &[u8]) -> Ask
        requires hear { CanHandleRequest self.old }
        requires film { film < length self.old.films }
        requires authority { IsAuthority authority.now }
        ensures exact { Describes self.old sequence film authority.now result self.new }
        ensures leaves { LeavesFor result self.old self.new }
    {
        let stored = stored_at(self.films, film);
        let name = stored.name.as_str();
        let end_ms = length_ms(&stored.film);
        put_description(&mut self.reply, sequence, authority, name, end_ms);
        self.reply_waits()
    }

    /// SETUP (RFC 2326 section 10.4).
    fn set_up(&mut self, request: &Request<'_>, film: usize) -> Ask
        requires hear { CanHandleRequest self.old }
        requires film { film < length self.old.films }
        requires first { has_session_in self.old.state ≡ false }
        ensures exact { SetsUp self.old request.now film result self.new }
        ensures leaves { LeavesFor result self.old self.new }
    {
        match read_setup(request, film, &self.settings) {
            Ok(setup) => {
                let channels = setup.channels();
                put_setup(
                    &mut self.reply,
                    request.sequence,
                    channels,
                    self.source.ssrc,
                    &self.id,
                );
                // Only here: a SETUP that is refused leaves no session behind.
                self.state.enter(State::Ready(setup, None));
                self.reply_waits()
            }
            Err(refusal) => self.refuse(Some(request.sequence), refusal),
        }
    }

    /// PLAY (RFC 2326 section 10.5).
    fn play(&mut self, request: &Request<'_>, authority: &[u8]) -> Ask
        requires hear { CanHandleRequest self.old }
        requires session { has_session_in self.old.state ≡ true }
        requires authority { IsAuthority authority.now }
        ensures exact { Plays self.old.state self.old request.now authority.now result self.new }
        ensures leaves { LeavesFor result self.old self.new }
    {
        let sequence = request.sequence;
        let State::Ready(setup, paused) = self.state else {
            // Playing: without a Range it changes nothing (RFC 2326 section 10.5). Stopping can't
            // be met: its reply waits, and until it is sent no request is processed.
            put_session(&mut self.reply, sequence, &self.id);
            return self.reply_waits();
        };
        match self.plan_play(&setup, paused, header(request, b"Range")) {
            Ok(planned) => self.ask_play(sequence, authority, &setup, planned),
            Err(refusal) => self.refuse(Some(sequence), refusal),
        }
    }

    /// Asks for a play, once there is memory for what it leaves for the report.
    fn ask_play(&mut self, sequence: u64, authority: &[u8], setup: &Setup, planned: Planned) -> Ask
        requires hear { CanHandleRequest self.old }
        requires ready { IsReadyIn self.old.state setup.now }
        requires authority { IsAuthority authority.now }
        requires run { OfFilm self.old.films setup.now.film (λ stored.
            IsPlayable stored self.old.source self.old.settings setup.now
            planned.counts planned.run planned.plan) }
        ensures exact { AsksPlayOr self.old (play_call sequence authority.now setup.now)
            (Ok planned) result self.new }
        ensures leaves { LeavesFor result self.old self.new }
    {
        // Memory comes before the question: once the station has admitted the play, nothing can
        // fail any more. Three plans are needed: for the journal, for the note and for the sender.
        let Ok((own, paced)) = self.log.plans_with_room(self.looks_left, &planned.plan) else {
            return self.refuse(Some(sequence), Refusal::Memory);
        };
        let films = self.films;
        let stored = stored_at(films, setup.film);
        law_film_is_well_formed(&stored.film);
        let Planned { run, counts, plan } = planned;
        let frames = frames_of(stored, self.source, setup, counts, &run);
        let prepared = Prepared {
            run,
            counts,
            frames,
            plan: own,
            paced,
            sequence,
        };
        // The beginning of the 200 is written now: the authority is lent from the request, which is
        // gone when the station answers. A refusal by the station clears it.
        let info = info_of(stored, self.source, setup, &prepared, authority);
        put_play(&mut self.reply, sequence, &self.id, &info);
        self.awaited.set(Awaited::Play(prepared));
        Ask::Play(plan)
    }

    /// PAUSE (RFC 2326 section 10.6): the play is halted at the end of the current frame
    /// or report.
    fn pause(&mut self, sequence: u64) -> Ask
        requires hear { CanHandleRequest self.old }
        requires playing { is_playing_in self.old.state ≡ true }
        ensures exact { Pauses self.old.state self.old sequence result self.new }
        ensures leaves { LeavesFor result self.old self.new }
    {
        let films = self.films;
        // Init only holds the place while the play is taken out, to be entered again below. The
        // state changes when the station has noted the halt.
        let State::Playing(setup, mut play) = mem::replace(&mut self.state, State::Init) else {
            // A PAUSE in any other state was answered 455.
            unreachable!()
        };
        let stored = stored_at(films, setup.film);
        let keep = play.pacer.ask_halt();
        let playback = playback_of(&stored.film, &self.settings, &setup);
        let last = play.pacer.last_slot();
        let left = run_after(stored, &playback, &play.run, &play.plan, last, keep);
        // Written now: the station's answer to a halt adds nothing to this reply.
        put_session(&mut self.reply, sequence, &self.id);
        self.state.enter(State::Playing(setup, play));
        self.awaited
            .set(Awaited::Halt(keep, AfterHalt::Paused(left)));
        Ask::Halt(keep)
    }

    /// TEARDOWN (RFC 2326 section 10.7): a play is halted as by a PAUSE.
    fn tear_down(&mut self, sequence: u64) -> Ask
        requires hear { CanHandleRequest self.old }
        ensures exact { TearsDown self.old.state self.old sequence result self.new }
        ensures leaves { LeavesFor result self.old self.new }
    {
        put_session(&mut self.reply, sequence, &self.id);
        // Without an open play there is no booking to halt, so the station isn't asked.
        let Some(keep) = ask_halt(&mut self.state) else {
            self.teardown = self.teardown.after_halt(AfterHalt::Torn);
            self.waits = true;
            return Ask::Reply;
        };
        self.awaited.set(Awaited::Halt(keep, AfterHalt::Torn));
        Ask::Halt(keep)
    }

    /// GET_PARAMETER (RFC 2326 section 10.8).
    fn get_parameter(&mut self, request: &Request<'_>) -> Ask
        requires hear { CanHandleRequest self.old }
        ensures exact { GetsParameter self.old request.now result self.new }
        ensures leaves { LeavesFor result self.old self.new }
    {
        let sequence = request.sequence;
        match read_topic(request.body) {
            Topic::Nothing => {
                put_plain(&mut self.reply, sequence);
                self.reply_waits()
            }
            Topic::Booked => self.look(sequence),
            Topic::Offer => self.offer(request),
            Topic::Unknown => self.refuse(Some(sequence), Refusal::Parameter),
        }
    }

    /// A look at the last slot. There is room for the first ones from the beginning.
    fn look(&mut self, sequence: u64) -> Ask
        requires hear { CanHandleRequest self.old }
        ensures exact { Looks self.old sequence result self.new }
        ensures leaves { LeavesFor result self.old self.new }
    {
        // While looks of the first 1,024 are left, their receipts have room. Later ones ask for
        // memory, beside that for the halt of an open play, which must find its place.
        let looks_left = self.looks_left.saturating_sub(1);
        let open = usize::from(self.state.is_playing());
        if self.log.reserve_receipts(looks_left + open + 1).is_err() {
            return self.refuse(Some(sequence), Refusal::Memory);
        }
        // Only now: a look that is refused uses up none.
        self.looks_left = looks_left;
        self.awaited.set(Awaited::Look(sequence));
        Ask::Look(self.heard)
    }

    /// An offer: from which slot on the play would fit that a PLAY without Range asks for.
    fn offer(&mut self, request: &Request<'_>) -> Ask
        requires hear { CanHandleRequest self.old }
        ensures exact { GetsOffer self.old.state self.old request.now result self.new }
        ensures leaves { LeavesFor result self.old self.new }
    {
        let sequence = request.sequence;
        match self.state {
            State::Ready(setup, paused) => match wait_of(request) {
                Some(wait) => self.offer_ready(sequence, wait, &setup, paused),
                None => self.refuse(Some(sequence), Refusal::Parameter),
            },
            State::Init => self.refuse(Some(sequence), Refusal::Session),
            State::Playing(..) | State::Stopping(..) => {
                self.refuse(Some(sequence), Refusal::State)
            }
        }
    }

    /// Answers a GET_PARAMETER for an offer in Ready: the run from the beginning, or on from where
    /// it was paused, is planned, and an offer is asked for.
    fn offer_ready(&mut self, sequence: u64, wait: u64, setup: &Setup, paused: Option<Run>) -> Ask
        requires hear { CanHandleRequest self.old }
        requires setup { IsSetup (length self.old.films) setup.now }
        requires paused { IsPausedIn
            self.old.films self.old.source self.old.counts setup.now paused }
        requires wait { wait ≤ MAX_WAIT }
        ensures exact { OffersReady self.old sequence wait setup.now paused result self.new }
        ensures leaves { LeavesFor result self.old self.new }
    {
        // The same plan as a PLAY without a Range would ask with, so the offer says what that gets.
        match self.plan_play(setup, paused, None) {
            Ok(planned) => self.ask_offer(sequence, wait, planned),
            Err(refusal) => self.refuse(Some(sequence), refusal),
        }
    }

    /// Asks for an offer, once there is memory for it and for its note.
    fn ask_offer(&mut self, sequence: u64, wait: u64, planned: Planned) -> Ask
        requires hear { CanHandleRequest self.old }
        requires wait { wait ≤ MAX_WAIT }
        ensures exact { AsksOfferOr self.old sequence wait (Ok planned) result self.new }
        ensures leaves { LeavesFor result self.old self.new }
    {
        // Memory first, as for a play. An offer makes no entry, so it needs no receipt.
        let Ok(offers) = self.log.offers_with_room(self.alloc, wait) else {
            return self.refuse(Some(sequence), Refusal::Memory);
        };
        self.awaited.set(Awaited::Offer(sequence));
        Ask::Offer(planned.plan, offers)
    }
}

/// Asks for the halt of the play that is sent, if one is, at the end of the current frame or
/// report, and returns how many bytes it keeps.
fn ask_halt(state: &mut State<'_>) -> Option<u64>
    requires { IsGoing false state.old }
    ensures halted { IfSome result (KeepsToBoundary state.old state.new) }
    ensures none { IfNone result (is_playing_in state.old ≡ false) }
    ensures left { IfNone result (state.new ≡ state.old) }
{
    match state {
        // Not at once: a frame or report that was begun goes out to its end (RFC 2326, 10.12).
        State::Playing(_, play) => Some(play.pacer.ask_halt()),
        _ => None,
    }
}

/// How many slots may be waited for an offer's start.
fn wait_of(request: &Request<'_>) -> Option<u64>
    ensures read { MatchOption result ((wait : ℕ) →
        ¬ HasWait request.now.head.now wait) (HasWait request.now.head.now) }
    ensures most { IfSome result (λ wait. wait ≤ MAX_WAIT) }
{
    read_wait(header(request, b"x-Wait")?)
}
