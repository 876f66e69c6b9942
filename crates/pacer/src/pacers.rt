//! Sends a track slot by slot, as its plan says.

ghost use Rattle.std.specs.Prelude.{◌≡◌, ◌+◌, ◌-◌, ◌*◌, ◌^◌, ◌≤◌, ◌<◌, ◌↔◌, Some, None, IsTrue};
ghost use Rattle.std.specs.Prelude.{length, take, min, max, OnOk, OnErr, IfOk, true, false};
ghost use Rattle.vod_base.specs.IoState.{HasRisen};
ghost use Rattle.vod_base.specs.Links.{told_more, sends};
ghost use Rattle.film_frames.specs.Tracks.{framed_bytes, IsBoundary, IsBoundaryAfter};
ghost use Rattle.plan_cert.specs.PlanSlots.{total_bytes};
ghost use Rattle.pacer.specs.PacerStates.{slots_through};

use crate::link_writes::{SendError, send_between};
use film_frames::Track;
use plan_cert::{Plan, PlanCursor};
use std::fmt::{self, Formatter, Write};
use std::marker::Model;
use vod_base::{Link, LinkFault};

/// What a step did.
#[derive(Clone, Copy, Debug, PartialEq, Eq)]
pub struct Stepped {
    /// The bytes that it sent.
    pub sent: u64,
    /// The bytes that are due and weren't sent yet.
    pub left: u64,
}

/// A track that is sent by a plan, slot by slot. Bytes count from the plan's first one.
#[derive(Drop)]
pub struct Pacer<T: Track> {
    track: T,
    /// The bytes of the entire track.
    total: u64,
    /// The place in the track of the plan's first byte.
    before: u64,
    /// The plan, read from the slot on that was stepped last.
    cursor: PlanCursor,
    /// The slot of the link in which the plan begins.
    start: u64,
    /// The bytes that may become due: all of the plan until a halt is asked.
    keep: u64,
    /// The plan's last slot that was stepped.
    last: Option<u64>,
    /// The bytes that are due.
    due: u64,
    /// The bytes that were sent.
    sent: u64,
}

impl<T: Track> Model for Pacer<T> {
    ghost use Rattle.std.specs.Prelude.{◌≡◌, length};
    ghost use Rattle.film_frames.specs.Tracks.{framed_bytes};
    ghost use Rattle.pacer.specs.PacerStates.{PacerState, IsPacerState, new_pacer_state};
    ghost use Rattle.pacer.specs.PacerStates.{with_progress};

    ghost Value = { PacerState };

    ghost view = { λ p.
        with_progress (new_pacer_state (T.pieces p.track) p.before p.cursor p.start)
        p.keep p.last p.due p.sent };

    ghost invariant = { λ p. IsPacerState (
        with_progress (new_pacer_state (T.pieces p.track) p.before p.cursor p.start)
        p.keep p.last p.due p.sent)
        × (p.total ≡ length (framed_bytes (T.pieces p.track))) };
}

impl<T: Track> fmt::Debug for Pacer<T> {
    fn fmt<W: Write>(&self, f: &mut Formatter<W>) -> fmt::Result {
        f.write_str("Pacer { .. }")
    }
}

impl<T: Track> Pacer<T> {
    ghost use Rattle.pacer.specs.PacerStates.{new_pacer_state, IsPacerState, next_boundary};
    ghost use Rattle.pacer.specs.PacerStates.{at_slot, plan_bytes, step_end, after_step};
    ghost use Rattle.pacer.specs.PacerStates.{stands_at_boundary, is_done};
    ghost use Rattle.pacer.specs.Steps.{IsStepped, HasFailed};

    /// Makes a pacer of a plan that begins in slot `start`. The plan's first byte stands at the
    /// boundary `sent_before` of the track, its last one at the track's end.
    pub fn new(track: T, sent_before: u64, plan: Plan, start: u64) -> Pacer<T>
        requires boundary { IsBoundary (T.pieces track) sent_before }
        requires whole { sent_before + total_bytes plan ≡ length (framed_bytes (T.pieces track)) }
        ensures { result ≡ new_pacer_state (T.pieces track) sent_before plan start }
    {
        let total = track.total();
        // The contract of this call exposes what is true for every plan.
        let _segments = plan.segments();
        Pacer {
            track,
            total,
            before: sent_before,
            cursor: PlanCursor::new(plan),
            start,
            keep: total - sent_before,
            last: None,
            due: 0,
            sent: 0,
        }
    }

    /// Raises what is due to what the plan has through this slot of the link, or to what is kept if
    /// that is less. It never falls, and slots before the plan's start raise nothing.
    fn raise(&mut self, slot: u64)
        ensures { self.new ≡ at_slot slot self.old }
    {
        // Nothing is reserved before the start, so nothing is due.
        if slot < self.start {
            return;
        }
        let number = slot - self.start;
        // The sum has the bytes of missed slots, too. They were reserved and the client needs them,
        // so they are made up at once.
        let reached = self.cursor.sum_at(number).min(self.keep);
        self.last = later_of(self.last, number);
        // A slot that comes late, or again, never takes back what is due.
        self.due = self.due.max(reached);
    }

    /// The first boundary at or after what was sent.
    fn next_boundary(&self) -> u64
        ensures value { result ≡ next_boundary self.now }
        ensures least { self.now.sent ≤ result }
        ensures most { result ≤ self.now.keep }
        ensures boundary { IsBoundaryAfter self.now.pieces (self.now.before + self.now.sent)
            (self.now.before + result) }
    {
        // Boundaries are places of the track, and bytes here count from the plan's first one.
        self.track.boundary_after(self.before + self.sent) - self.before
    }

    /// Where a sending of what is due ends.
    fn step_end(&self, stop: bool) -> u64
        ensures value { result ≡ step_end stop self.now }
        ensures least { self.now.sent ≤ result }
        ensures most { result ≤ self.now.due }
    {
        if stop {
            // A reply waits, and may only stand between two packets (RFC 2326 section 10.12).
            self.due.min(self.next_boundary())
        } else {
            self.due
        }
    }

    /// Steps a slot: what the plan has through it becomes due, or what is kept if that is less, and
    /// what is due is sent. Slots before the plan's start are due nothing, and missed ones are made
    /// up. With `stop` it ends at the first boundary that it reaches, also where it begins at one.
    ///
    /// # Errors
    ///
    /// [`LinkFault`] only where the link's count of faults rose. What is due was raised; `sent`
    /// counts the bytes of the sends that succeeded, also of a frame's heads where the send of its
    /// payload failed. What the failed one brought out after them is a prefix of one send: of one
    /// report, or of the heads or the payload of one frame.
    pub fn step<K: Link>(
        &mut self,
        slot: u64,
        stop: bool,
        link: &mut K,
    ) -> Result<Stepped, LinkFault>
        // leaves: the count of faults never falls, and rises where the step fails
        ensures count { K.faults link.old ≤ K.faults link.new }
        ensures fault { OnErr result (HasRisen (K.faults link.old) (K.faults link.new)) }
        // leaves, where Ok: what is due was sent, up to the stop, and nothing else
        ensures state { OnOk result (self.new ≡ after_step stop slot self.old) }
        ensures told { OnOk result (K.told link.new ≡ told_more (K.told link.old)
            (sends (plan_bytes self.old self.old.sent (step_end stop (at_slot slot self.old))))) }
        ensures answer { IfOk result (λ step. IsStepped self.old self.new step) }
        // leaves, where it failed: what was due is raised, and a prefix was sent
        ensures failed { OnErr result
            (HasFailed stop slot self.old self.new (K.told link.old) (K.told link.new)) }
        // leaves, in any case: bytes sent, due and kept in their order, within the plan
        ensures pacing { IsPacerState self.new }
    {
        // Raised before the send: where that fails, the play is halted at what was due.
        self.raise(slot);
        let from = self.sent;
        let to = self.step_end(stop);
        match send_between(&self.track, self.before + from, self.before + to, link) {
            Ok(()) => {
                self.sent = to;
                Ok(Stepped {
                    sent: to - from,
                    left: self.due - to,
                })
            }
            Err(SendError(sent)) => {
                self.sent = from + sent;
                Err(LinkFault)
            }
        }
    }

    /// Halts at the first boundary at or after what was sent, and returns it. Nothing past it ever
    /// becomes due.
    pub fn ask_halt(&mut self) -> u64
        // needs: all that is due was sent
        requires { self.old.due ≡ self.old.sent }
        // answers: the boundary, at most what was kept; leaves it as the end of the play
        ensures value { result ≡ next_boundary self.old }
        ensures state { self.new ≡ record self.old { keep = next_boundary self.old } }
        ensures boundary { IsBoundaryAfter self.old.pieces (self.old.before + self.old.sent)
            (self.old.before + result) }
        ensures pacing { IsPacerState self.new }
        ensures most { result ≤ self.old.keep }
    {
        // A packet that is partly sent must go out to its end: the client couldn't read the stream
        // after it.
        self.keep = self.next_boundary();
        self.keep
    }

    /// Returns the bytes that were sent, from the plan's first one.
    pub fn sent(&self) -> u64
        ensures value { result ≡ self.now.sent }
        ensures pacing { IsPacerState self.now }
    {
        self.sent
    }

    /// Returns the bytes that are due, among them those that were sent.
    pub fn due(&self) -> u64
        ensures value { result ≡ self.now.due }
        ensures pacing { IsPacerState self.now }
    {
        self.due
    }

    /// Returns whether what was sent ends at a boundary.
    pub fn at_boundary(&self) -> bool
        ensures value { result ≡ stands_at_boundary self.now }
        ensures boundary { IsTrue result ↔
            IsBoundary self.now.pieces (self.now.before + self.now.sent) }
    {
        self.next_boundary() == self.sent
    }

    /// Returns whether a slot at or after the start was stepped, and all bytes of the plan were
    /// sent, or those up to where it was halted.
    pub fn done(&self) -> bool
        ensures value { result ≡ is_done self.now }
        ensures all { IsTrue result → (self.now.sent ≡ self.now.keep)
            × (self.now.due ≡ self.now.keep) }
    {
        self.last.is_some() && self.sent == self.keep
    }

    /// Returns the number of the plan's slot that was stepped last, the greatest one; None before
    /// the start.
    pub fn last_slot(&self) -> Option<u64>
        ensures { slots_through result ≡ self.now.passed }
    {
        self.last
    }

    /// Hands the track and the plan out.
    pub fn end(self) -> (T, Plan)
        ensures track { T.pieces result.0 ≡ self.pieces }
        ensures plan { result.1 ≡ self.plan }
    {
        let Pacer {
            track,
            total: _,
            before: _,
            cursor,
            start: _,
            keep: _,
            last: _,
            due: _,
            sent: _,
        } = self;
        (track, cursor.into_plan())
    }
}

/// The later of two slots of a plan, where the first may be none.
fn later_of(last: Option<u64>, slot: u64) -> Option<u64>
    ensures { slots_through result ≡ max (slots_through last) (slot + 1) }
{
    match last {
        Some(last) => Some(last.max(slot)),
        None => Some(slot),
    }
}
