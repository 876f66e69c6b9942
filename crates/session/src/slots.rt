//! Slots, and the replies that go out between frames.

ghost use Rattle.std.specs.Prelude.{◌≡◌, ◌-◌, ◌<◌, ◌≤◌, ◌++◌, ◌&&◌, is_some, IfOk, IfSome, OnErr};
ghost use Rattle.std.specs.Prelude.{OnOk, false, true, max, if◌then◌else◌};
ghost use Rattle.vod_base.specs.IoState.{HasRisen};
ghost use Rattle.vod_base.specs.Links.{IsSentPrefix, sends, told_more};
ghost use Rattle.session.specs.SlotSteps.{HaltsIfDone, HasSlotFailed, IsTold, can_reply, due_bytes};
ghost use Rattle.session.specs.SlotSteps.{due_state, finished_in, is_between, is_done_in};
ghost use Rattle.session.specs.SlotSteps.{is_sending, is_taken, sent_in, sent_reply, after_slot};
ghost use Rattle.session.specs.SlotSteps.{start_in, step_bytes, stepped_in};
ghost use Rattle.session.specs.SlotTransitions.{IsCarried, IsEven, IsHaltIn, IsLeft, IsPacingIn};
ghost use Rattle.session.specs.SlotTransitions.{IsPlayIn, after_stop};
ghost use Rattle.session.specs.SessionStates.{AreNotesUnchanged, Brings, BringsIn, AwaitsNoAnswer};
ghost use Rattle.session.specs.SessionStates.{IsSameBooking, NoAnswer, awaited_answer_of, open_in};
ghost use Rattle.session.specs.SessionStates.{open_of, last_heard_slot};

use crate::commands::Slotted;
use crate::sessions::Session;
use crate::states::{AfterHalt, Awaited, State};
use rtsp_text::Reply;
use std::mem;
use vod_base::{LATEST_SLOT, Link, LinkFault};

impl<'a> Session<'a> {
    /// Processes a slot, if it is a later one than the last and none above 2^62, and sends what is
    /// due in it. A waiting reply goes out at the first boundary that is reached.
    ///
    /// # Errors
    ///
    /// [`LinkFault`] only where the link's count rose.
    pub fn slot<K: Link>(&mut self, slot: u64, link: &mut K) -> Result<Slotted, LinkFault>
        // needs: no answer of the station is awaited
        requires rest { AwaitsNoAnswer self.old }
        // answers and sends: what is due in the slot, and the reply where it can go out
        ensures exact { OnOk result (self.new ≡ after_slot self.old slot) }
        ensures told { OnOk result (IsTold (is_taken self.old slot
            && is_sending self.old.state) (K.told link.old)
            (due_bytes self.old.waits self.old.state self.old.text slot) (K.told link.new)) }
        // leaves: the slot as the last one, and the notes and the booking as they were
        ensures heard { self.new.heard ≡ last_heard_slot self.old.heard slot }
        ensures brings { IfOk result (λ step. Brings step self.new) }
        ensures kept { OnOk result (self.new.lost ≡ self.old.lost) }
        ensures lost { OnErr result (AwaitsNoAnswer self.new) }
        ensures open { IsSameBooking (open_of self.old) (open_of self.new) }
        ensures receipts { self.new.receipts ≡ self.old.receipts }
        ensures plays { self.new.plays ≡ self.old.plays }
        ensures offers { self.new.offers ≡ self.old.offers }
        // on an error: a prefix of these bytes was sent, and the link's count rose
        ensures count { K.faults link.old ≤ K.faults link.new }
        ensures failed { OnErr result
            (HasSlotFailed self.old slot (K.told link.old) (K.told link.new) self.new) }
        ensures fault { OnErr result (HasRisen (K.faults link.old) (K.faults link.new)) }
    {
        // A slot counts once. None above 2^62 does, so that later sums stay in 64 bits.
        if slot <= self.heard || slot > LATEST_SLOT {
            return Ok(Slotted::Going);
        }
        let before = mem::replace(&mut self.heard, slot);
        let Some(start) = start_of(&self.state) else {
            return Ok(Slotted::Going);
        };
        // Counted before the sends, so that missed slots count also where a send fails.
        self.late += missed_slots(before, start, slot);
        let Ok(replied) = send_due(&mut self.state, &self.reply, self.waits, slot, link) else {
            // A frame may be cut: nothing may follow it, so no request is processed any more.
            self.lost = true;
            return Err(LinkFault);
        };
        if replied {
            self.waits = false;
            self.teardown = self.teardown.after_reply();
            settle(&mut self.state);
        }
        Ok(finish(&self.state, &mut self.awaited))
    }

    /// Sends the waiting reply in one send where that splits no frame and no report; else it does
    /// nothing.
    ///
    /// # Errors
    ///
    /// [`LinkFault`] only where the link's count rose.
    pub fn reply<K: Link>(&mut self, link: &mut K) -> Result<(), LinkFault>
        // needs: no answer of the station is awaited
        requires rest { AwaitsNoAnswer self.old }
        // answers and sends: the reply, where it splits nothing
        ensures exact { OnOk result (self.new ≡
            (if can_reply self.old then sent_reply self.old else self.old)) }
        ensures told { OnOk result
            (IsTold (can_reply self.old) (K.told link.old) self.old.text (K.told link.new)) }
        // on an error: only `lost` has changed, and a prefix of the reply was sent
        ensures failed { OnErr result (self.new ≡ record self.old { lost = true }) }
        ensures can { OnErr result (can_reply self.old ≡ true) }
        ensures front { OnErr result
            (IsSentPrefix (K.told link.old) (K.told link.new) self.old.text) }
        // leaves: the last slot, the booking and the notes as they were
        ensures rest { AwaitsNoAnswer self.new }
        ensures kept { OnOk result (self.new.lost ≡ self.old.lost) }
        ensures heard { self.new.heard ≡ self.old.heard }
        ensures open { open_of self.new ≡ open_of self.old }
        ensures receipts { self.new.receipts ≡ self.old.receipts }
        ensures notes { AreNotesUnchanged self.old self.new }
        // faults: the link's count never falls, and rose if the call failed
        ensures count { K.faults link.old ≤ K.faults link.new }
        ensures fault { OnErr result (HasRisen (K.faults link.old) (K.faults link.new)) }
    {
        // Inside a frame or report the reply waits for the next boundary (RFC 2326 section 10.12).
        if !self.waits || !is_between(&self.state) {
            return Ok(());
        }
        let Ok(()) = link.send(self.reply.bytes()) else {
            self.lost = true;
            return Err(LinkFault);
        };
        self.waits = false;
        self.teardown = self.teardown.after_reply();
        settle(&mut self.state);
        Ok(())
    }
}

/// The slots from a play's start on that did not arrive between two that did.
fn missed_slots(before: u64, start: u64, slot: u64) -> u64
    requires { before ≤ slot }
    ensures { result ≡ slot - 1 - max before (start - 1) }
{
    // Saturating: before the start of the play no slot is missed.
    (slot.saturating_sub(1)).saturating_sub(before.max(start.saturating_sub(1)))
}

/// The start of the play that is being sent.
fn start_of(state: &State<'_>) -> Option<u64>
    ensures sending { is_some result ≡ is_sending state.now }
    ensures start { IfSome result (λ start. start ≡ start_in state.now) }
{
    match state {
        State::Playing(_, play) => Some(play.start),
        State::Stopping(_, stop) => Some(stop.start),
        _ => None,
    }
}

/// Sends what is due in a slot, with a stop only up to the end of the current frame or report. It
/// returns how many bytes are left.
#[tactic(auto, using(crate::proofs::FailedSlotLemmas::failed_front, crate::proofs::FailedSlotLemmas::failed_due))]
fn step<K: Link>(
    state: &mut State<'_>,
    slot: u64,
    stop: bool,
    link: &mut K,
) -> Result<u64, LinkFault>
    requires { IsPacingIn state.old }
    // fails: only where the link counted a fault; then a prefix was sent, and what is due is known
    ensures count { K.faults link.old ≤ K.faults link.new }
    ensures fault { OnErr result (HasRisen (K.faults link.old) (K.faults link.new)) }
    ensures front { OnErr result
        (IsSentPrefix (K.told link.old) (K.told link.new) (step_bytes stop slot state.old)) }
    ensures due { OnErr result (open_in state.new ≡ open_in (stepped_in stop slot state.old)) }
    // leaves: the same play; what is left is stopped only at a boundary
    ensures carried { IsCarried state.old state.new }
    ensures left { IfOk result (IsLeft state.new) }
    ensures whole { OnOk result (stop ≡ false → IsEven state.new) }
    // answers: all bytes that are due
    ensures exact { OnOk result (state.new ≡ stepped_in stop slot state.old) }
    ensures between { IfOk result (λ left. 0 < left → stop ≡ true → is_between state.new ≡ true) }
    ensures told { OnOk result
        (IsTold (is_sending state.old)
        (K.told link.old) (step_bytes stop slot state.old) (K.told link.new)) }
{
    match state {
        State::Playing(_, play) => Ok(play.pacer.step(slot, stop, link)?.left),
        State::Stopping(_, halted) => Ok(halted.pacer.step(slot, stop, link)?.left),
        _ => Ok(0),
    }
}

/// Whether bytes sent now would split no frame and no report.
fn is_between(state: &State<'_>) -> bool
    ensures { result ≡ is_between state.now }
{
    match state {
        State::Playing(_, play) => play.pacer.at_boundary(),
        State::Stopping(_, stop) => stop.pacer.at_boundary(),
        _ => true,
    }
}

/// Sends what is due in a slot, and the reply, if one waits, at the first boundary that is reached.
/// It returns whether the reply was sent.
fn send_due<K: Link>(
    state: &mut State<'_>,
    reply: &Reply,
    waits: bool,
    slot: u64,
    link: &mut K,
) -> Result<bool, LinkFault>
    // needs: a play whose bytes are being sent
    requires pacing { IsPacingIn state.old }
    requires sending { is_sending state.old ≡ true }
    // fails: only where the link counted a fault; then a prefix was sent, and what is due is known
    ensures count { K.faults link.old ≤ K.faults link.new }
    ensures fault { OnErr result (HasRisen (K.faults link.old) (K.faults link.new)) }
    ensures front { OnErr result
        (IsSentPrefix (K.told link.old)
        (K.told link.new) (due_bytes waits state.old reply.now slot)) }
    ensures due { OnErr result (open_in state.new ≡ open_in (due_state waits state.old slot)) }
    // leaves: the same play, with all sent that is due
    ensures carried { IsCarried state.old state.new }
    ensures even { OnOk result (IsEven state.new) }
    ensures exact { OnOk result (state.new ≡ due_state waits state.old slot) }
    // answers: whether the reply went out, at a boundary, and which bytes
    ensures sent { IfOk result (λ sent. sent ≡
        (waits && is_between (stepped_in true slot state.old))) }
    ensures told { OnOk result
        (K.told link.new ≡ told_more (K.told link.old)
        (sends (due_bytes waits state.old reply.now slot))) }
    ensures waited { IfOk result (λ sent. sent ≡ true → waits ≡ true) }
{
    // Without a reply there is no reason to stop at a boundary.
    if !waits {
        step(state, slot, false, link)?;
        return Ok(false);
    }
    // First up to the next boundary: the reply splits no frame there, and waits no longer.
    step(state, slot, true, link)?;
    if !is_between(state) {
        // All that is due ends inside a frame: the reply waits for the slot that brings its end.
        return Ok(false);
    }
    send_both(state, reply, slot, link)?;
    Ok(true)
}

/// Sends the reply, and then what is due.
fn send_both<K: Link>(
    state: &mut State<'_>,
    reply: &Reply,
    slot: u64,
    link: &mut K,
) -> Result<(), LinkFault>
    // needs: a play whose bytes are being sent, at a boundary
    requires pacing { IsPacingIn state.old }
    requires sending { is_sending state.old ≡ true }
    requires raised { open_in (stepped_in false slot state.old) ≡ open_in state.old }
    // fails: only where the link counted a fault; then a prefix was sent, and what is due is known
    ensures count { K.faults link.old ≤ K.faults link.new }
    ensures fault { OnErr result (HasRisen (K.faults link.old) (K.faults link.new)) }
    ensures front { OnErr result
        (IsSentPrefix (K.told link.old) (K.told link.new)
        (reply.now ++ step_bytes false slot state.old)) }
    ensures due { OnErr result (open_in state.new ≡ open_in (stepped_in false slot state.old)) }
    // leaves: the same play, with all sent that is due
    ensures carried { IsCarried state.old state.new }
    ensures even { OnOk result (IsEven state.new) }
    ensures exact { OnOk result (state.new ≡ stepped_in false slot state.old) }
    // answers: the reply, and then those bytes
    ensures told { OnOk result
        (K.told link.new ≡ told_more (K.told link.old)
        (sends (reply.now ++ step_bytes false slot state.old))) }
{
    // The reply goes before the rest: it comes at the first boundary, not after the slot's bytes.
    link.send(reply.bytes())?;
    step(state, slot, false, link)?;
    Ok(())
}

/// The state as soon as the reply of a PAUSE or a TEARDOWN was sent.
fn settle(state: &mut State<'_>)
    ensures { state.new ≡ after_stop state.old }
{
    // The stopped frame was sent before the reply, so nothing of the play is left.
    if let State::Stopping(setup, stop) = &*state {
        let ready = State::Ready(*setup, stop.paused);
        state.enter(ready);
    }
}

/// Asks for the halt of a play that is done.
fn finish<'a>(state: &State<'a>, awaited: &mut Awaited<'a>) -> Slotted
    requires play { IsPlayIn state.now }
    requires rest { awaited_answer_of awaited.old ≡ NoAnswer }
    ensures awaited { awaited.new ≡ finished_in state.now awaited.old }
    ensures halt { HaltsIfDone state.now awaited.new }
    ensures brings { BringsIn result awaited.new state.now }
{
    match state {
        // Halted as soon as it is done, so that the journal has a halt for each admission.
        State::Playing(_, play) if play.pacer.done() => {
            let bytes = play.pacer.sent();
            *awaited = Awaited::Halt(bytes, AfterHalt::Done);
            Slotted::Finished(bytes)
        }
        _ => Slotted::Going,
    }
}
