//! What is received of a film, and the meter of the client's buffer.

ghost use Rattle.std.specs.Prelude.{◌≡◌, ◌+◌, ◌^◌, ◌<◌, ◌≤◌, ℕ, Option, Some, None, true, false};
ghost use Rattle.std.specs.Prelude.{length, is_some, IfSome, OnOk};
ghost use Rattle.rtsp_client.specs.ClientInvariant.{IsSoundSource};
ghost use Rattle.rtsp_client.specs.States.{after_frame, after_play, after_reading, after_report};
ghost use Rattle.rtsp_client.specs.States.{after_slot, has_all, is_between, is_lacking, new_state};
ghost use Rattle.rtsp_client.specs.States.{place_of, played_of, source_after, source_with};

use crate::frames::{BLOCK_HEAD, HEADS, RtpSource};
use crate::play_reply::Play;
use crate::watch_request::{Watched, Wish};
use rtp_pack::{FRAME_HEAD_BYTES, Head, read_head};
use std::alloc::Global;
use std::marker::Model;
use vod_base::NoMemory;

/// What was received of a film so far.
#[derive(Drop)]
pub(crate) struct WatchState {
    /// The greatest slot that was received, at first 0.
    last_slot: u64,
    play: Option<Play>,
    source: Option<RtpSource>,
    /// For each complete picture the sum of its size and those before it.
    ends: Vec<u64>,
    /// The bytes of all frames and reports.
    received: u64,
    /// The bytes of all pictures, with those of the one that isn't complete.
    taken: u64,
    watched: Watched,
}

impl Model for WatchState {
    ghost use Rattle.rtsp_client.specs.ClientInvariant.{IsSound};
    ghost use Rattle.rtsp_client.specs.States.{State};

    ghost Value = { State };

    ghost view = { λ w.
        record {
          last_slot = w.last_slot;
          play = w.play;
          source = w.source;
          ends = w.ends.items;
          received = w.received;
          taken = w.taken;
          watched = w.watched;
        } };

    ghost invariant = { λ w.
        IsSound w.last_slot w.play w.source w.ends.items w.received w.taken w.watched };
}

/// What was received and read before anything came.
const NOTHING: Watched = Watched {
    units: 0,
    bytes: 0,
    frames: 0,
    reports: 0,
    most: 0,
    over: 0,
    under: 0,
};

impl WatchState {
    /// Nothing was received.
    pub(crate) fn new(alloc: Global) -> WatchState
        ensures { result ≡ new_state }
    {
        WatchState {
            last_slot: 0,
            play: None,
            source: None,
            ends: Vec::new(alloc),
            received: 0,
            taken: 0,
            watched: NOTHING,
        }
    }

    /// What was received and read.
    pub(crate) fn tally(&self) -> Watched
        ensures { result ≡ self.now.watched }
    {
        self.watched
    }

    /// Whether the reply to PLAY was received.
    pub(crate) fn is_playing(&self) -> bool
        ensures { result ≡ is_some self.now.play }
    {
        self.play.is_some()
    }

    /// Whether all pictures are complete.
    pub(crate) fn is_complete(&self) -> bool
        ensures { result ≡ has_all self.now }
    {
        match &self.source {
            Some(source) => self.watched.units == source.units,
            None => false,
        }
    }

    /// The reply to PLAY was received.
    pub(crate) fn begin(&mut self, start: u64, end_ms: u128)
        requires { end_ms < 2 ^ 100 }
        ensures { self.new ≡ after_play self.old start end_ms }
    {
        self.play = Some(Play {
            start,
            slot_before: self.last_slot,
            end_ms,
        });
    }

    /// What the frames say with this block, where it is the next frame of the film.
    pub(crate) fn source_with(&self, block: &[u8]) -> Option<RtpSource>
        requires { 4 ≤ length block.now }
        ensures source { result ≡ source_with self.now block.now }
        ensures follows { IfSome result (λ source.
            IsSoundSource source (self.now.watched.units + 1)) }
        ensures long { IfSome result (λ source. 20 ≤ length block.now) }
    {
        let play = self.play?;
        // Each frame is judged, and none repaired: a client that tests a server must show its
        // faults.
        if self.is_complete() {
            return None;
        }
        let head = read_head(&block[BLOCK_HEAD..]).ok()?;
        self.source_after(&head, &block[HEADS..], play.end_ms)
    }

    /// What the frames say with one more of this head and payload, where that is the next frame of
    /// the film.
    fn source_after(&self, head: &Head, payload: &[u8], end_ms: u128) -> Option<RtpSource>
        requires open { has_all self.now ≡ false }
        requires short { end_ms < 2 ^ 100 }
        ensures source { result ≡ source_after self.now.source head.now payload.now end_ms }
        ensures follows { IfSome result (λ source.
            IsSoundSource source (self.now.watched.units + 1)) }
    {
        match &self.source {
            Some(source) => source.next(head),
            None => RtpSource::first(head, payload, end_ms),
        }
    }

    /// Counts a frame of so many bytes that is the next one of its film.
    pub(crate) fn add_frame(&mut self, source: RtpSource, length: u64) -> Result<(), NoMemory>
        requires source { IsSoundSource source (self.old.watched.units + 1) }
        requires head { 20 ≤ length }
        requires few { self.old.received + length < 2 ^ 63 }
        ensures { OnOk result (self.new ≡ after_frame self.old source length) }
    {
        self.source = Some(source);
        self.watched.frames += 1;
        self.watched.bytes += length - FRAME_HEAD_BYTES;
        self.received += length;
        self.taken += length;
        // The last packet of a picture has the marker, and no other (RFC 2250 section 3.3).
        if source.marker {
            self.ends.push(self.taken)?;
            self.watched.units += 1;
        }
        Ok(())
    }

    /// Whether no picture is begun that isn't complete.
    fn is_between(&self) -> bool
        ensures { result ≡ is_between self.now.source }
    {
        match &self.source {
            Some(source) => source.marker,
            None => true,
        }
    }

    /// Counts a report of so many bytes. One before the first frame of a picture is part of the
    /// picture's size.
    pub(crate) fn add_report(&mut self, length: u64)
        requires some { 0 < length }
        requires few { self.old.received + length < 2 ^ 63 }
        ensures { self.new ≡ after_report self.old length }
    {
        // No play, so the report is of no picture that the meter counts.
        if self.play.is_none() {
            return;
        }
        if self.is_between() {
            self.taken += length;
        }
        self.watched.reports += 1;
        self.received += length;
    }

    /// The bytes of the complete pictures that are used before this slot of the play.
    fn bytes_played(&self, wish: &Wish, slot: u64) -> u64
        ensures played { result ≡ played_of wish.now self.now.source self.now.ends slot }
        ensures most { result ≤ self.now.received }
    {
        let Some(source) = &self.source else {
            return 0;
        };
        // Nothing is used before the start delay is over, and then picture by picture.
        let passed = u128::from(slot.saturating_sub(wish.startup)) * u128::from(wish.slot_units);
        let used = passed.div_ceil(u128::from(source.picture_time));
        let count = used.min(self.ends.len() as u128) as usize;
        if count == 0 { 0 } else { self.ends[count - 1] }
    }

    /// Whether a picture is used in this slot of the play, or before it, that isn't complete.
    fn is_lacking(&self, wish: &Wish, slot: u64) -> bool
        requires units { 1 ≤ wish.now.slot_units }
        requires startup { wish.now.startup ≤ 10000 }
        ensures { result ≡ is_lacking wish.now self.now slot }
    {
        let picture_time = match &self.source {
            Some(source) => source.picture_time,
            None => 0,
        };
        let used = self.watched.units * u64::from(picture_time) / u64::from(wish.slot_units);
        !self.is_complete() && used + wish.startup <= slot
    }

    /// Reads the meter in this slot of the play, while so many bytes wait of an incomplete block.
    fn read(&mut self, wish: &Wish, slot: u64, cut: u64)
        requires units { 1 ≤ wish.now.slot_units }
        requires startup { wish.now.startup ≤ 10000 }
        requires few { self.old.received + cut < 2 ^ 63 }
        requires over { self.old.watched.over < self.old.last_slot }
        requires under { self.old.watched.under < self.old.last_slot }
        ensures { self.new ≡ after_reading wish.now self.old slot cut }
    {
        // Can't be negative: what was played was received (`most`).
        let waiting = self.received + cut - self.bytes_played(wish, slot);
        let lacking = self.is_lacking(wish, slot);
        self.watched.most = self.watched.most.max(waiting);
        if waiting > wish.buffer {
            self.watched.over += 1;
        }
        if lacking {
            self.watched.under += 1;
        }
    }

    /// The number of a new slot from the play's first one on.
    fn place(&self, slot: u64) -> Option<u64>
        requires { self.now.last_slot ≤ slot }
        ensures { result ≡ place_of self.now.play slot }
    {
        let play = self.play?;
        // `x-Start` counts from the slot of the request. The two ends count slots from different
        // times, so the client counts from the last slot that it received before the reply.
        (slot - play.slot_before).checked_sub(play.start)
    }

    /// A slot has begun, while so many bytes wait of an incomplete block: reads the meter.
    pub(crate) fn hear_slot(&mut self, wish: &Wish, slot: u64, cut: u64)
        requires units { 1 ≤ wish.now.slot_units }
        requires startup { wish.now.startup ≤ 10000 }
        requires few { self.old.received + cut < 2 ^ 63 }
        ensures state { self.new ≡ after_slot wish.now self.old slot cut }
        ensures timed { IfSome self.old.source (λ source. 0 < source.picture_time) }
    {
        // A link doesn't promise that slots rise. The meter is read once in each.
        if slot <= self.last_slot {
            return;
        }
        self.last_slot = slot;
        if let Some(place) = self.place(slot) {
            self.read(wish, place, cut);
        }
    }
}
