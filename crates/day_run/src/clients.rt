//! A client of a day: what it plays, and how far it has come.

ghost use Rattle.std.specs.Prelude.{◌≡◌, ◌+◌, ◌-◌, ◌≤◌, ◌<◌, ℕ, List, false, IfSome, IfNone};
ghost use Rattle.std.specs.Prelude.{OnSome};
ghost use Rattle.pacer.specs.PacerStates.{IsPacerState, is_done, after_step};
ghost use Rattle.admission.specs.declared.entries.Entry.{Entry};
ghost use Rattle.day_run.specs.Clients.{IsBooked, IsGoing, IsHaltOf, IsPauseOf, IsPlaying, IsQuiet};
ghost use Rattle.day_run.specs.Clients.{IsStep, IsTimed, IsUndone, IsUnpaused};
ghost use Rattle.day_run.specs.declared.clients.Client.TheVariants.{Paused};
ghost use Rattle.day_run.specs.Clients.{after_open, halt_for, halts_of, play_of, state_after_halt};
ghost use Rattle.day_run.specs.Clients.{state_for, state_of};
ghost use Rattle.day_run.specs.Days.{done_halt, open_halt};
ghost use Rattle.day_run.specs.ClientStates.{IsPause, after_play, is_busy};

use crate::media::{Media, Sending};
use crate::null_link::NullLink;
use film_run::{Playback, Run, run_after};
use pacer::Pacer;
use plan_cert::Plan;
use std::mem::replace;
use vod_base::{LinkFault, MAX_BYTES};

/// What is still to be sent of a source, and to what kind of client.
#[derive(Clone, Copy)]
pub(crate) struct Rest<'r> {
    pub(crate) medium: &'r Media<'r>,
    pub(crate) playback: Playback,
    /// Its pictures, and how many bytes of theirs were sent and played.
    pub(crate) run: Run,
}

/// A play whose booking is open.
#[derive(Drop)]
pub(crate) struct ClientPlay<'r> {
    /// The place of its admission.
    pub(crate) number: u64,
    /// What was to be sent as it began.
    pub(crate) rest: Rest<'r>,
    pub(crate) plan: Plan,
    pub(crate) pacer: Pacer<Sending<'r>>,
}

/// A play that was halted: the frame or report in hand is sent to its end.
#[derive(Drop)]
pub(crate) struct PausingPlay<'r> {
    /// The bytes of its plan that it keeps.
    pub(crate) keep: u64,
    /// What the pause leaves.
    pub(crate) rest: Rest<'r>,
    pub(crate) pacer: Pacer<Sending<'r>>,
}

/// A client.
#[derive(Drop)]
pub(crate) enum Client<'r> {
    /// It plays nothing.
    Idle,
    /// Its play is open.
    Playing(ClientPlay<'r>),
    /// Its play was halted, and the frame or report in hand isn't sent to its end.
    Pausing(PausingPlay<'r>),
    /// Its play was halted, and this is left to be sent.
    Paused(Rest<'r>),
}

/// The play that is to be halted, and the bytes that it keeps.
#[derive(Clone, Copy)]
pub(crate) struct Halt {
    /// The place of the play's admission.
    pub(crate) number: u64,
    /// The bytes of its plan that it keeps.
    pub(crate) keep: u64,
}

/// Which plays are halted.
#[derive(Clone, Copy)]
pub(crate) enum HaltedPlays {
    /// Those that are done, which keep all their bytes.
    Done,
    /// All that are open, which keep what is due.
    Open,
}

impl<'r> Client<'r> {
    /// Comes to a slot, and returns how many bytes were sent. A pause is done once all that it
    /// keeps was sent.
    pub(crate) fn step(&mut self, slot: u64) -> u64
        requires { IsGoing self.old }
        ensures going { IsGoing self.new }
        ensures booked { (entries : List Entry) (client : ℕ) → IsBooked entries client self.old →
            IsBooked entries client self.new }
        ensures few { result ≤ MAX_BYTES }
        ensures step { (heard : ℕ) → heard ≤ slot → IsTimed heard self.old →
            IsStep heard slot self.old self.new result }
    {
        match self {
            Client::Playing(play) => send(&mut play.pacer, slot),
            Client::Pausing(stop) => {
                let sent = send(&mut stop.pacer, slot);
                // Paused only now: a frame or report is never cut, and a resume begins after it.
                if stop.pacer.sent() == stop.keep {
                    let rest = stop.rest;
                    *self = Client::Paused(rest);
                }
                sent
            }
            Client::Idle | Client::Paused(_) => 0,
        }
    }

    /// Whether it plays, or its pause isn't done.
    pub(crate) fn is_busy(&self) -> bool
        ensures { result ≡ is_busy (state_of self.now) }
    {
        match self {
            Client::Playing(_) | Client::Pausing(_) => true,
            Client::Idle | Client::Paused(_) => false,
        }
    }

    /// What is left to be sent to it, if it is paused.
    pub(crate) fn rest_left(&self) -> Option<Rest<'r>>
        ensures some { IfSome result (λ rest. self.now ≡ Paused rest) }
        ensures none { IfNone result (IsUnpaused self.now) }
    {
        match self {
            Client::Paused(rest) => Some(*rest),
            Client::Idle | Client::Playing(_) | Client::Pausing(_) => None,
        }
    }

    /// Its play, if it is done and so keeps all its bytes.
    fn halt_when_done(&self) -> Option<Halt>
        ensures some { IfSome result (IsHaltOf self.now) }
        ensures none { IfNone result (IsUndone self.now) }
        ensures halt { (slot client : ℕ) → IsGoing self.now → IsTimed slot self.now →
            done_halt slot client (state_of self.now) ≡ halts_of client result }
        ensures state { (slot : ℕ) → IsGoing self.now → IsTimed slot self.now →
            after_play slot (state_of self.now) ≡ state_after_halt result (state_of self.now) }
    {
        match self {
            Client::Playing(play) => {
                if play.pacer.done() {
                    Some(Halt {
                        number: play.number,
                        // All its bytes were sent, so nothing is left to be freed.
                        keep: play.pacer.sent(),
                    })
                } else {
                    None
                }
            }
            _ => None,
        }
    }

    /// Its play, if it has one, which keeps what is due.
    fn halt_when_open(&self) -> Option<Halt>
        ensures some { IfSome result (IsHaltOf self.now) }
        ensures none { IfNone result (IsUndone self.now) }
        ensures halt { (heard client : ℕ) → IsGoing self.now → IsTimed heard self.now →
            open_halt heard client (state_of self.now) ≡ halts_of client result }
        ensures state { after_open (state_of self.now)
            ≡ state_after_halt result (state_of self.now) }
    {
        match self {
            Client::Playing(play) => Some(Halt {
                number: play.number,
                // What is due counts as sent: it was reserved in slots that have passed.
                keep: play.pacer.due(),
            }),
            _ => None,
        }
    }

    /// How its play is to be halted, if it has one and that is such a play.
    pub(crate) fn halt_of(&self, which: HaltedPlays) -> Option<Halt>
        ensures some { IfSome result (IsHaltOf self.now) }
        ensures none { IfNone result (IsUndone self.now) }
        ensures halt { (slot client : ℕ) → IsGoing self.now → IsTimed slot self.now →
            halt_for which slot client (state_of self.now) ≡ halts_of client result }
        ensures state { (slot : ℕ) → IsGoing self.now → IsTimed slot self.now →
            state_for which slot (state_of self.now) ≡ state_after_halt result (state_of self.now) }
    {
        match which {
            HaltedPlays::Done => self.halt_when_done(),
            HaltedPlays::Open => self.halt_when_open(),
        }
    }

    /// Pauses its play, if it has one, and returns how it is to be halted.
    pub(crate) fn pause(&mut self) -> Option<Halt>
        // needs: a client that goes on soundly, and whose play isn't done
        requires going { IsGoing self.old }
        requires undone { IsUndone self.old }
        // answers: how the play is to be halted, or None where nothing plays
        ensures some { IfSome result (IsHaltOf self.old) }
        ensures none { IfNone result (self.new ≡ self.old) }
        ensures idle { IfNone result (IsQuiet self.old) }
        ensures pause { (heard : ℕ) → IsTimed heard self.old →
            IfSome result (λ halt. IsPauseOf heard halt self.old self.new) }
        // leaves: a client that goes on soundly and plays nothing open
        ensures timed { (heard : ℕ) → IsTimed heard self.old → IsTimed heard self.new }
        ensures going { IsGoing self.new }
        ensures undone { IsUndone self.new }
        ensures quiet { OnSome result (IsQuiet self.new) }
    {
        // The play is moved out, as pausing takes it apart. Each case puts a client back.
        match replace(self, Client::Idle) {
            Client::Playing(play) => {
                let (halt, next) = pause_play(play);
                *self = next;
                Some(halt)
            }
            other => {
                *self = other;
                None
            }
        }
    }
}

/// Sends what is due in a slot, and returns how many bytes that was.
fn send(pacer: &mut Pacer<Sending<'_>>, slot: u64) -> u64
    ensures state { pacer.new ≡ after_step false slot pacer.old }
    ensures sent { result ≡ pacer.new.sent - pacer.old.sent }
    ensures pacing { IsPacerState pacer.new }
{
    match pacer.step(slot, false, &mut NullLink) {
        Ok(sending) => sending.sent,
        // Never so: `NullLink` counts no faults, and a step fails only where its link did.
        Err(LinkFault) => 0,
    }
}

/// A play as it is paused, and how it is to be halted. A pause is done at once where all that it
/// keeps was sent.
fn pause_play<'r>(play: ClientPlay<'r>) -> (Halt, Client<'r>)
    // needs: a play that goes on
    requires playing { IsPlaying play }
    requires undone { is_done play.pacer ≡ false }
    // answers: the halt of this play, and a client that is paused or about to be
    ensures number { result.0.number ≡ play.entry.number }
    ensures keep { result.0.keep ≤ play.entry.pacer.keep }
    ensures going { IsGoing result.1 }
    ensures quiet { IsQuiet result.1 }
    // answers: what a pause leaves after the slot that the play was last stepped in
    ensures pause { (heard : ℕ) → play.entry.pacer.passed ≡ heard + 1 - play.entry.pacer.start →
        IsPause (play_of play.entry) heard result.0.keep (state_of result.1) }
    ensures timed { (heard : ℕ) → play.entry.pacer.passed ≡ heard + 1 - play.entry.pacer.start →
        IsTimed heard result.1 }
{
    let ClientPlay {
        number,
        rest,
        plan,
        mut pacer,
    } = play;
    let last = pacer.last_slot();
    let sent = pacer.sent();
    let keep = pacer.ask_halt();
    let run = run_after(rest.medium, &rest.playback, &rest.run, &plan, last, keep);
    let rest = Rest { run, ..rest };
    let halt = Halt { number, keep };
    // No piece is cut, so no further slot is needed to end it.
    if sent == keep {
        return (halt, Client::Paused(rest));
    }
    (halt, Client::Pausing(PausingPlay { keep, rest, pacer }))
}
