//! A client between two events: what it asked for, what was replied, and what waits of its input.

ghost use Rattle.std.specs.Prelude.{◌≡◌, ◌+◌, ◌<◌, ◌≤◌, ◌||◌, ◌∷◌, ℕ, false, true, Ok, List};
ghost use Rattle.std.specs.Prelude.{[], Option, None, nat_lt, take, length as list_length, IfOk};
ghost use Rattle.std.specs.Prelude.{IfErr, IfSome, OnOk, OnErr, MatchOption};
ghost use Rattle.vod_base.specs.Links.{IoEvent, IsWithin, io_event_of, sends, told_more};
ghost use Rattle.interleave.specs.Elements.{IsFirst, IsMessageLength};
ghost use Rattle.interleave.specs.declared.elements.Step.TheVariants.{Block, More, Request};
ghost use Rattle.rtsp_client.specs.Answers.{cut_bytes};
ghost use Rattle.rtsp_client.specs.Causes.{EndsWithCause};
ghost use Rattle.rtsp_client.specs.ControlFlows.{as_result};
ghost use Rattle.rtsp_client.specs.ClientHistory.{Frame};
ghost use Rattle.rtsp_client.specs.Requests.{setup_text};
ghost use Rattle.rtsp_client.specs.ClientState.{IsAwaited, bytes_in, replies_in, session_of};
ghost use Rattle.rtsp_client.specs.States.{has_all, new_state};
ghost use Rattle.rtsp_client.specs.ClientSteps.{EndsAtBlock, EndsAtEvent, EndsAtMoment};
ghost use Rattle.rtsp_client.specs.ClientSteps.{EndsAtReply};
ghost use Rattle.rtsp_client.specs.ClientSteps.{IsUnsent, PassesBlock, PassesMoments, PassesReply};
ghost use Rattle.rtsp_client.specs.ClientSteps.{StopsAtElements, TakesElements, TakesEvent, stand};
ghost use Rattle.rtsp_client.specs.WatchRequests.{IsWish};

use crate::frames::HEADS;
use crate::replies::{play_range, play_start, reply_code, setup_session};
use crate::requests::{play_request, setup_request, teardown_request};
use crate::watch_request::{WatchEnd, WatchFault, Wish};
use crate::watch_state::WatchState;
use interleave::{Demux, MAX_BODY_BYTES, MAX_HEAD_BYTES, Step};
use std::alloc::Global;
use std::ops::ControlFlow;
use vod_base::{Heard, Link, MAX_EVENTS, MAX_READ_BYTES, NoMemory, Sink};

/// The most bytes that a client receives, 2^54: at most 16,384 with each event of its link. Sums of
/// bytes therefore fit into 64 bits.
pub(crate) const MAX_INPUT_BYTES: u64 = MAX_EVENTS * MAX_READ_BYTES as u64;

/// A client between two events.
#[derive(Drop)]
pub(crate) struct Client {
    alloc: Global,
    input: Demux,
    /// The session's id, from the first reply on.
    session: Option<Vec<u8>>,
    watching: WatchState,
}

impl Client {
    /// A client that did nothing yet.
    pub(crate) fn new(alloc: Global) -> Result<Client, NoMemory>
        ensures input { IfOk result (λ client. client.input ≡ []) }
        ensures session { IfOk result (λ client. client.session ≡ None) }
        ensures watching { IfOk result (λ client. client.watching ≡ new_state) }
    {
        Ok(Client {
            alloc,
            input: Demux::new(alloc)?,
            session: None,
            watching: WatchState::new(alloc),
        })
    }

    /// Sends SETUP.
    pub(crate) fn start<K: Link>(&self, wish: &Wish, link: &mut K) -> Result<(), WatchEnd>
        ensures count { K.faults link.old ≤ K.faults link.new }
        ensures cause { EndsWithCause result (K.faults link.old) (K.faults link.new) 0 0 }
        ensures sent { OnOk result (K.told link.new ≡
            told_more (K.told link.old) (sends (setup_text wish.now))) }
        ensures front { IfErr result (λ end.
            IsUnsent end wish.now (K.told link.old) (K.told link.new)) }
    {
        let request = setup_request(self.alloc, wish)?;
        link.send(request.as_slice())?;
        Ok(())
    }

    /// Processes an event. The bytes that arrived are at the start of `bytes`.
    ///
    /// Breaks with how it ended the watching, where it did.
    pub(crate) fn hear<K: Link, O: Sink>(
        &mut self,
        wish: &Wish,
        heard: Heard,
        bytes: &[u8],
        link: &mut K,
        out: &mut O,
    ) -> ControlFlow<WatchEnd>
        // needs: a wish in range, and an input that holds no complete element
        requires wish { IsWish wish.now }
        requires waits { list_length self.old.input ≤ MAX_HEAD_BYTES + MAX_BODY_BYTES }
        requires idle { IsFirst self.old.input (Ok More) }
        requires heard { IsWithin heard (list_length bytes.now) }
        requires short { list_length bytes.now ≤ MAX_READ_BYTES }
        requires few { bytes_in self.old + MAX_READ_BYTES ≤ MAX_INPUT_BYTES }
        // leaves: an input that is bounded again
        ensures few { OnOk (as_result result)
            (bytes_in self.new ≤ bytes_in self.old + MAX_READ_BYTES) }
        ensures waits { OnOk (as_result result)
            (list_length self.new.input ≤ MAX_HEAD_BYTES + MAX_BODY_BYTES) }
        // faults: of the link or the output, only where its count rose
        ensures count { K.faults link.old ≤ K.faults link.new }
        ensures count_out { O.faults out.old ≤ O.faults out.new }
        ensures cause { EndsWithCause (as_result result) (K.faults link.old) (K.faults link.new)
            (O.faults out.old) (O.faults out.new) }
        // answers: one step of the definition, or its end
        ensures on { TakesEvent wish.now (io_event_of heard bytes.now) (as_result result)
            (stand self.old (K.told link.old) (O.written out.old))
            (stand self.new (K.told link.new) (O.written out.new)) }
        ensures ended { EndsAtEvent wish.now (io_event_of heard bytes.now) (as_result result)
            (stand self.old (K.told link.old) (O.written out.old))
            (stand self.new (K.told link.new) (O.written out.new)) }
    {
        match heard {
            Heard::End => {
                let units = self.watching.tally().units;
                ControlFlow::Break(WatchEnd::Fault(WatchFault::EndedEarly(units)))
            }
            Heard::Slot(slot) => {
                // A block that isn't complete counts, too: its bytes are in the client's buffer
                // already.
                let cut = cut_bytes(self.input.waiting());
                self.watching.hear_slot(wish, slot, cut as u64);
                ControlFlow::Continue(())
            }
            Heard::Bytes(count) => {
                // Never too many: after each event at most a message waits (`waits`), and there is
                // room for one more read.
                let _ = self.input.put(&bytes[..count]);
                self.process_input(wish, link, out)
            }
        }
    }

    /// Processes the complete elements that wait.
    fn process_input<K: Link, O: Sink>(
        &mut self,
        wish: &Wish,
        link: &mut K,
        out: &mut O,
    ) -> ControlFlow<WatchEnd>
        requires few { bytes_in self.old ≤ MAX_INPUT_BYTES }
        ensures few { OnOk (as_result result) (bytes_in self.new ≤ bytes_in self.old) }
        ensures waits { OnOk (as_result result)
            (list_length self.new.input ≤ MAX_HEAD_BYTES + MAX_BODY_BYTES) }
        ensures count { K.faults link.old ≤ K.faults link.new }
        ensures count_out { O.faults out.old ≤ O.faults out.new }
        ensures cause { EndsWithCause (as_result result) (K.faults link.old) (K.faults link.new)
            (O.faults out.old) (O.faults out.new) }
        ensures idle { OnOk (as_result result) (IsFirst self.new.input (Ok More)) }
        ensures taken { TakesElements wish.now (as_result result)
            (stand self.old (K.told link.old) (O.written out.old))
            (stand self.new (K.told link.new) (O.written out.new)) }
        ensures stopped { StopsAtElements wish.now (as_result result)
            (stand self.old (K.told link.old) (O.written out.old))
            (stand self.new (K.told link.new) (O.written out.new)) }
    {
        'elements: loop {
            let more = self.process_next(wish, link, out)?;
            if !more {
                return ControlFlow::Continue(());
            }
        }
    }

    /// Processes the first element, and returns whether one was complete.
    fn process_next<K: Link, O: Sink>(
        &mut self,
        wish: &Wish,
        link: &mut K,
        out: &mut O,
    ) -> ControlFlow<WatchEnd, bool>
        requires few { bytes_in self.old ≤ MAX_INPUT_BYTES }
        // leaves: an input that is shorter, or one without a complete element
        ensures few { OnOk (as_result result) (bytes_in self.new ≤ bytes_in self.old) }
        ensures shorter { IfOk (as_result result) (λ more. more ≡ true →
            list_length self.new.input < list_length self.old.input) }
        ensures waits { IfOk (as_result result) (λ more. more ≡ false →
            list_length self.new.input ≤ MAX_HEAD_BYTES + MAX_BODY_BYTES) }
        // faults: of the link or the output, only where its count rose
        ensures count { K.faults link.old ≤ K.faults link.new }
        ensures count_out { O.faults out.old ≤ O.faults out.new }
        ensures cause { EndsWithCause (as_result result) (K.faults link.old) (K.faults link.new)
            (O.faults out.old) (O.faults out.new) }
        ensures idle { IfOk (as_result result) (λ more. more ≡ false →
            IsFirst self.new.input (Ok More)) }
        // answers: one step of the definition, or its end
        ensures taken { TakesElements wish.now (as_result result)
            (stand self.old (K.told link.old) (O.written out.old))
            (stand self.new (K.told link.new) (O.written out.new)) }
        ensures stopped { StopsAtElements wish.now (as_result result)
            (stand self.old (K.told link.old) (O.written out.old))
            (stand self.new (K.told link.new) (O.written out.new)) }
    {
        match self.input.look() {
            Err(_) => ControlFlow::Break(WatchEnd::Fault(WatchFault::Framing)),
            Ok(Step::More) => ControlFlow::Continue(false),
            Ok(Step::Skip(length)) => {
                self.input.drop_front(length);
                ControlFlow::Continue(true)
            }
            Ok(Step::Block(channel, length)) => {
                // The block stays in the input until it was processed, so its payload isn't copied.
                self.take_block(wish, channel, length, link, out)?;
                self.input.drop_front(length);
                ControlFlow::Continue(true)
            }
            Ok(Step::Request(length)) => {
                self.take_reply(wish, length, link)?;
                self.input.drop_front(length);
                ControlFlow::Continue(true)
            }
        }
    }

    /// Processes the first block that waits, which stays there.
    fn take_block<K: Link, O: Sink>(
        &mut self,
        wish: &Wish,
        channel: u8,
        length: usize,
        link: &mut K,
        out: &mut O,
    ) -> ControlFlow<WatchEnd>
        // needs: a complete block at the front of the input
        requires few { bytes_in self.old ≤ MAX_INPUT_BYTES }
        requires block { IsFirst self.old.input (Ok (Block channel length)) }
        // leaves: the input as it was, since the caller drops the block
        ensures input { self.new.input ≡ self.old.input }
        ensures few { OnOk (as_result result)
            (self.new.watching.received ≤ self.old.watching.received + length) }
        ensures count { K.faults link.old ≤ K.faults link.new }
        ensures count_out { O.faults out.old ≤ O.faults out.new }
        ensures cause { EndsWithCause (as_result result) (K.faults link.old) (K.faults link.new)
            (O.faults out.old) (O.faults out.new) }
        // answers: one step of the definition, or its end
        ensures passed { PassesBlock wish.now channel length (as_result result)
            (stand self.old (K.told link.old) (O.written out.old))
            (stand self.new (K.told link.new) (O.written out.new)) }
        ensures ended { EndsAtBlock wish.now channel length (as_result result)
            (stand self.old (K.told link.old) (O.written out.old))
            (stand self.new (K.told link.new) (O.written out.new)) }
    {
        match channel {
            0 => flow_of(self.take_frame(wish, length, link, out)),
            1 => {
                self.watching.add_report(length as u64);
                ControlFlow::Continue(())
            }
            // SETUP asked for the channels 0 and 1, so a block on another one isn't the client's.
            _ => ControlFlow::Continue(()),
        }
    }

    /// Processes the first frame that waits: hands its payload on, and sends TEARDOWN once all
    /// pictures are complete.
    fn take_frame<K: Link, O: Sink>(
        &mut self,
        wish: &Wish,
        length: usize,
        link: &mut K,
        out: &mut O,
    ) -> Result<(), WatchEnd>
        // needs: a complete block at the front of the input
        requires few { bytes_in self.old ≤ MAX_INPUT_BYTES }
        requires least { 4 ≤ length }
        requires within { length ≤ list_length self.old.input }
        // leaves: the input as it was, since the caller drops the block
        ensures input { self.new.input ≡ self.old.input }
        ensures few { OnOk result (self.new.watching.received ≤ self.old.watching.received
            + length) }
        ensures count { K.faults link.old ≤ K.faults link.new }
        ensures count_out { O.faults out.old ≤ O.faults out.new }
        ensures cause { EndsWithCause result (K.faults link.old) (K.faults link.new)
            (O.faults out.old) (O.faults out.new) }
        // answers: one step of the definition, or its end
        ensures passed { PassesMoments wish.now (Frame (take length self.old.input) ∷ []) result
            (stand self.old (K.told link.old) (O.written out.old))
            (stand self.new (K.told link.new) (O.written out.new)) }
        ensures ended { EndsAtMoment wish.now (Frame (take length self.old.input)) result
            (stand self.old (K.told link.old) (O.written out.old))
            (stand self.new (K.told link.new) (O.written out.new)) }
    {
        let block = &self.input.waiting()[..length];
        let Some(source) = self.watching.source_with(block) else {
            let number = self.watching.tally().frames;
            return Err(WatchEnd::Fault(WatchFault::BadFrame(number)));
        };
        self.watching.add_frame(source, length as u64)?;
        // Handed on frame by frame: what came before a fault is there, too.
        out.write_all(&block[HEADS..])?;
        if !self.watching.is_complete() {
            return Ok(());
        }
        // The server gives no sign at a film's end, so the client counts the pictures. It asks with
        // the last one, and waits for no further slot.
        let request = teardown_request(self.alloc, wish, self.session_id())?;
        link.send(request.as_slice())?;
        Ok(())
    }

    /// The session's id; none before the first reply.
    fn session_id(&self) -> &[u8]
        ensures { result.now ≡ session_of self.now }
    {
        match &self.session {
            Some(id) => id.as_slice(),
            None => &[],
        }
    }

    /// The replies that were received: the one to SETUP, which began the session, and the one to
    /// PLAY.
    fn replies(&self) -> u64
        ensures count { result ≡ replies_in self.now }
        ensures most { result ≤ 2 }
    {
        if self.watching.is_playing() {
            return 2;
        }
        u64::from(self.session.is_some())
    }

    /// Whether a reply is awaited: to SETUP and then to PLAY, and to TEARDOWN once all pictures are
    /// complete.
    fn is_awaited(&self) -> bool
        ensures { result ≡ (nat_lt (replies_in self.now) 2 || has_all self.now.watching) }
    {
        self.replies() < 2 || self.watching.is_complete()
    }

    /// The code of a reply that is awaited, and has its first line and its CSeq.
    fn awaited_code(&self, message: &[u8]) -> Option<u16>
        requires whole { IsMessageLength message.now (list_length message.now) }
        ensures { MatchOption result ((code : ℕ) →
            ¬ IsAwaited self.now message.now code) (IsAwaited self.now message.now) }
    {
        if !self.is_awaited() {
            return None;
        }
        reply_code(message, self.replies() + 1)
    }

    /// Processes the first reply that waits, which stays there.
    fn take_reply<K: Link>(
        &mut self,
        wish: &Wish,
        length: usize,
        link: &mut K,
    ) -> ControlFlow<WatchEnd>
        requires message { IsFirst self.old.input (Ok (Request length)) }
        ensures input { self.new.input ≡ self.old.input }
        ensures few { self.new.watching.received ≡ self.old.watching.received }
        ensures count { K.faults link.old ≤ K.faults link.new }
        ensures cause { EndsWithCause (as_result result) (K.faults link.old) (K.faults link.new)
            0 0 }
        ensures passed { PassesReply wish.now length (as_result result)
            (stand self.old (K.told link.old)) (stand self.new (K.told link.new)) }
        ensures ended { EndsAtReply wish.now length (as_result result)
            (stand self.old (K.told link.old)) (stand self.new (K.told link.new)) }
    {
        // A reply that nobody asked for is a fault: a test client must not pass over it.
        let Some(code) = self.awaited_code(&self.input.waiting()[..length]) else {
            let number = self.replies() + 1;
            return ControlFlow::Break(WatchEnd::Fault(WatchFault::BadReply(number)));
        };
        if code != 200 {
            return ControlFlow::Break(WatchEnd::Fault(WatchFault::Refused(code)));
        }
        match self.replies() {
            0 => flow_of(self.take_setup(wish, length, link)),
            1 => flow_of(self.take_play(wish, length)),
            // The third reply is that to TEARDOWN: it is awaited only once all pictures are
            // complete.
            _ => ControlFlow::Break(WatchEnd::Done(self.watching.tally())),
        }
    }

    /// Processes the reply to SETUP, which is the first element that waits, and asks for PLAY.
    fn take_setup<K: Link>(
        &mut self,
        wish: &Wish,
        length: usize,
        link: &mut K,
    ) -> Result<(), WatchEnd>
        // needs: a good reply to SETUP first in the input
        requires first { replies_in self.old ≡ 0 }
        requires message { IsFirst self.old.input (Ok (Request length)) }
        requires good { IsAwaited self.old (take length self.old.input) 200 }
        // leaves: the input, and what was received
        ensures input { self.new.input ≡ self.old.input }
        ensures few { self.new.watching.received ≡ self.old.watching.received }
        // fails: only where the link counted a fault
        ensures count { K.faults link.old ≤ K.faults link.new }
        ensures cause { EndsWithCause result (K.faults link.old) (K.faults link.new) 0 0 }
        // answers: what the course of the client says at this reply
        ensures passed { PassesReply wish.now length result
            (stand self.old (K.told link.old)) (stand self.new (K.told link.new)) }
        ensures ended { EndsAtReply wish.now length result
            (stand self.old (K.told link.old)) (stand self.new (K.told link.new)) }
    {
        let message = &self.input.waiting()[..length];
        let session = setup_session(message).ok_or(WatchFault::BadReply(1))?;
        let request = play_request(self.alloc, wish, session)?;
        // Copied before PLAY is sent: where memory is out, nothing was asked for.
        let kept = Vec::from_slice(self.alloc, session)?;
        link.send(request.as_slice())?;
        self.session = Some(kept);
        Ok(())
    }

    /// Processes the reply to PLAY, which is the first element that waits.
    fn take_play(&mut self, wish: &Wish, length: usize) -> Result<(), WatchEnd>
        // needs: a good reply to PLAY first in the input
        requires second { replies_in self.old ≡ 1 }
        requires message { IsFirst self.old.input (Ok (Request length)) }
        requires good { IsAwaited self.old (take length self.old.input) 200 }
        // leaves: the input, and what was received
        ensures input { self.new.input ≡ self.old.input }
        ensures few { self.new.watching.received ≡ self.old.watching.received }
        // answers: what the course of the client says at this reply
        ensures cause { EndsWithCause result 0 0 0 0 }
        ensures passed { (told : Option (List IoEvent)) → PassesReply wish.now length result
            (stand self.old told) (stand self.new told) }
        ensures ended { (told : Option (List IoEvent)) → EndsAtReply wish.now length result
            (stand self.old told) (stand self.new told) }
    {
        let message = &self.input.waiting()[..length];
        let end_ms = play_range(message).ok_or(WatchFault::BadReply(2))?;
        let start = play_start(message).ok_or(WatchFault::BadReply(2))?;
        self.watching.begin(start, end_ms);
        Ok(())
    }
}

/// Goes on after a call that went well; its fault ends the watching.
fn flow_of(answer: Result<(), WatchEnd>) -> ControlFlow<WatchEnd>
    ensures { as_result result ≡ answer }
{
    match answer {
        Ok(()) => ControlFlow::Continue(()),
        Err(end) => ControlFlow::Break(end),
    }
}

/// How many bytes wait of a block on channel 0 or 1 that isn't complete; of a block whose channel
/// didn't come yet, one.
fn cut_bytes(waiting: &[u8]) -> usize
    ensures cut { result ≡ cut_bytes waiting.now }
    ensures within { result ≤ list_length waiting.now }
{
    if waiting.is_empty() || waiting[0] != b'$' {
        return 0;
    }
    if waiting.len() >= 2 && waiting[1] >= 2 {
        // Channels from 2 on aren't the film's, so their bytes don't count.
        return 0;
    }
    waiting.len()
}
