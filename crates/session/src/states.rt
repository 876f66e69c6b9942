//! The states of a session (RFC 2326 appendix A.2).

ghost use Rattle.std.specs.Prelude.{◌≡◌, true, if◌then◌else◌};
ghost use Rattle.session.specs.Teardowns.{is_tearing, is_torn_down};
ghost use Rattle.session.specs.RequestSteps.{is_torn};
ghost use Rattle.session.specs.SessionStates.{has_session_in, is_playing_in, sequence_of};
ghost use Rattle.session.specs.declared.states.Awaited.TheVariants.{Nothing};

use film_frames::Frames;
use film_run::Run;
use film_streams::{Counts, Setup};
use pacer::Pacer;
use plan_cert::Plan;
use std::mem;

/// A play whose booking is open.
#[derive(Drop)]
pub(crate) struct Play<'a> {
    /// The run as the play began.
    pub(crate) run: Run,
    /// The place of its admission.
    pub(crate) place: u64,
    /// The slot in which it begins.
    pub(crate) start: u64,
    /// Its plan.
    pub(crate) plan: Plan,
    /// What sends it.
    pub(crate) pacer: Pacer<Frames<'a>>,
}

/// A play that was halted: the current frame or report is sent to its end.
#[derive(Drop)]
pub(crate) struct Stop<'a> {
    /// The run as the pause leaves it; None where the session is torn down.
    pub(crate) paused: Option<Run>,
    /// The slot in which the play began.
    pub(crate) start: u64,
    /// What sends the rest.
    pub(crate) pacer: Pacer<Frames<'a>>,
}

/// A session's state.
#[derive(Drop)]
pub(crate) enum State<'a> {
    /// There is no session.
    Init,
    /// A film is set up; a run of it may be paused.
    Ready(Setup, Option<Run>),
    /// A play is sent.
    Playing(Setup, Play<'a>),
    /// A play was halted: the session is Ready as soon as its reply is sent.
    Stopping(Setup, Stop<'a>),
}

/// A play that the station is asked for.
#[derive(Drop)]
pub(crate) struct Prepared<'a> {
    /// The run as the play will begin.
    pub(crate) run: Run,
    /// What the session sent before the run.
    pub(crate) counts: Counts,
    /// What will be sent.
    pub(crate) frames: Frames<'a>,
    /// Its plan, for the note of the play.
    pub(crate) plan: Plan,
    /// Its plan once more, for what sends it.
    pub(crate) paced: Plan,
    /// The number of the request.
    pub(crate) sequence: u64,
}

/// What a halt leads to.
#[derive(Clone, Copy)]
pub(crate) enum AfterHalt {
    /// The play is done.
    Done,
    /// The run is paused, as it is then.
    Paused(Run),
    /// The session is torn down.
    Torn,
}

/// How far a TEARDOWN has come.
#[derive(Clone, Copy)]
pub(crate) enum Teardown {
    /// None was answered 200.
    Unanswered,
    /// One was answered 200, and its reply waits.
    Answered,
    /// That reply was sent.
    Sent,
}

/// What the station was asked and hasn't answered.
#[derive(Drop)]
pub(crate) enum Awaited<'a> {
    /// Nothing.
    Nothing,
    /// A play.
    Play(Prepared<'a>),
    /// A halt that keeps so many bytes.
    Halt(u64, AfterHalt),
    /// A look, for the request of that number.
    Look(u64),
    /// An offer, for the request of that number.
    Offer(u64),
}

impl<'a> State<'a> {
    /// Whether there is a session.
    pub(crate) fn has_session(&self) -> bool
        ensures { result ≡ has_session_in self.now }
    {
        !matches!(self, State::Init)
    }

    /// Whether a play is sent whose booking is open.
    pub(crate) fn is_playing(&self) -> bool
        ensures { result ≡ is_playing_in self.now }
    {
        matches!(self, State::Playing(..))
    }

    /// Goes over to another state.
    pub(crate) fn enter(&mut self, state: State<'a>)
        ensures { self.new ≡ state.entry }
    {
        *self = state;
    }
}

impl Teardown {
    /// How far it has come once a halt was answered that leads to this.
    pub(crate) fn after_halt(self, next: AfterHalt) -> Teardown
        ensures tearing { is_tearing result ≡ (if is_torn next then true else is_tearing self) }
        ensures torn { is_torn_down result ≡ is_torn_down self }
    {
        match (self, next) {
            // Only a TEARDOWN ends the session, and what it has reached is never taken back.
            (Teardown::Unanswered, AfterHalt::Torn) => Teardown::Answered,
            _ => self,
        }
    }

    /// How far it has come once the waiting reply was sent.
    pub(crate) fn after_reply(self) -> Teardown
        ensures tearing { is_tearing result ≡ is_tearing self }
        ensures torn { is_torn_down result ≡ is_tearing self }
    {
        match self {
            Teardown::Unanswered => Teardown::Unanswered,
            Teardown::Answered | Teardown::Sent => Teardown::Sent,
        }
    }
}

impl<'a> Awaited<'a> {
    /// The number of the request that waits for the station's answer, which has come: from now on
    /// nothing is awaited. A halt's reply has its number already.
    pub(crate) fn take_sequence(&mut self) -> u64
        ensures sequence { result ≡ sequence_of self.old }
        ensures nothing { self.new ≡ Nothing }
    {
        match mem::replace(self, Awaited::Nothing) {
            Awaited::Play(prepared) => prepared.sequence,
            Awaited::Look(sequence) | Awaited::Offer(sequence) => sequence,
            // Nobody reads this number: the callers are the answers to a play, a look and an offer.
            Awaited::Nothing | Awaited::Halt(..) => 0,
        }
    }

    /// Sets what is awaited from now on.
    pub(crate) fn set(&mut self, awaited: Awaited<'a>)
        ensures { self.new ≡ awaited.entry }
    {
        *self = awaited;
    }
}
