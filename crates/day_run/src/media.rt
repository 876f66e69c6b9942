//! What the plays of a day send: films and traces, unit by unit, and as tracks.

ghost use Rattle.std.specs.Prelude.{ℕ, ◌≡◌, ◌≤◌, ◌<◌, length, sum, IfOk};
ghost use Rattle.film_frames.specs.Tracks.{framed_bytes};
ghost use Rattle.film_run.specs.Units.{AreUnitSizes};
ghost use Rattle.day_run.specs.MediaPieces.{media_pieces, media_sizes, sending_pieces};
ghost use Rattle.day_run.specs.MediaContents.{media_content, media_units};
ghost use Rattle.day_run.specs.ClientStates.{trace_content};

use crate::trace_media::TraceMedia;
use film_frames::laws::law_frame_and_report_sizes_are_exact;
use film_frames::{Frames, Part, Stored, TraceTrack, Track};
use film_run::{Trace, Units};
use rtp_pack::Identity;
use std::alloc::Global;
use std::fmt;
use vod_base::NoMemory;

/// A film or a trace that a script names.
#[derive(Drop)]
pub enum Source {
    /// A film.
    Film(Stored),
    /// The sizes of a trace's pictures in bytes, one picture a slot.
    Trace(Vec<u64>),
}

impl fmt::Debug for Source {
    fn fmt<W: fmt::Write>(&self, f: &mut fmt::Formatter<W>) -> fmt::Result {
        f.write_str(match self {
            Source::Film(_) => "Film(..)",
            Source::Trace(_) => "Trace(..)",
        })
    }
}

/// The identity of what is sent: nobody receives it.
const NOBODY: Identity = Identity {
    channel: 0,
    control: 0,
    ssrc: 0,
    sequence: 0,
    timestamp: 0,
    packets: 0,
    octets: 0,
};

/// A source as it is played.
#[derive(Drop)]
pub(crate) enum Media<'s> {
    /// A film.
    Film(&'s Stored),
    /// A trace.
    Trace(TraceMedia<'s>),
}

/// All of a source as a track.
#[derive(Drop)]
pub(crate) enum Sending<'r> {
    /// A film's frames and reports.
    Film(Frames<'r>),
    /// A trace's pictures.
    Trace(&'r TraceTrack),
}

impl<'s> Media<'s> {
    /// A trace as it is played.
    pub(crate) fn trace(alloc: Global, sizes: &'s [u64]) -> Result<Media<'s>, NoMemory>
        requires { AreUnitSizes sizes.now }
        ensures sizes { IfOk result (λ medium. media_sizes medium ≡ sizes.now) }
        ensures content { IfOk result (λ medium. (slot_units : ℕ) →
            media_content slot_units medium ≡ trace_content slot_units sizes.now) }
    {
        let track = TraceTrack::new(Vec::from_slice(alloc, sizes)?)?;
        let sizes = Trace::new(sizes);
        Ok(Media::Trace(TraceMedia { sizes, track }))
    }

    /// The time of a picture in 1/360,000 second; a trace has one picture a slot.
    pub(crate) fn picture_units(&self, slot_units: u32) -> u32
        requires some { 1 ≤ slot_units }
        requires fits { slot_units ≤ 360000 }
        ensures some { 1 ≤ result }
        ensures fits { result ≤ 360000 }
        ensures value { result ≡ media_units slot_units self.now }
    {
        match self {
            Media::Film(stored) => stored.film.picture_time(),
            Media::Trace(_) => slot_units,
        }
    }

    /// All of it as a track.
    pub(crate) fn as_sending(&self) -> Sending<'_>
        requires { 0 < length (media_sizes self.now) }
        ensures pieces { sending_pieces result ≡ media_pieces self.now }
        ensures all { length (framed_bytes (media_pieces self.now)) ≡ sum (media_sizes self.now) }
    {
        match self {
            Media::Film(stored) => {
                let end = stored.film.units.len();
                // Does nothing at run time: the prover gets from it that the sizes add up to the
                // track.
                law_frame_and_report_sizes_are_exact();
                Sending::Film(Frames::new(stored, 0, end, NOBODY))
            }
            Media::Trace(trace) => Sending::Trace(&trace.track),
        }
    }
}

impl Units for Media<'_> {
    ghost use Rattle.day_run.specs.MediaPieces.{media_sizes};

    ghost sizes = { media_sizes };

    fn count(&self) -> usize {
        match self {
            Media::Film(stored) => stored.count(),
            Media::Trace(trace) => trace.sizes.count(),
        }
    }

    fn wire_size(&self, unit: usize) -> u64 {
        match self {
            Media::Film(stored) => Units::wire_size(*stored, unit),
            Media::Trace(trace) => trace.sizes.wire_size(unit),
        }
    }
}

impl Track for Sending<'_> {
    ghost use Rattle.day_run.specs.MediaPieces.{sending_pieces};

    ghost pieces = { sending_pieces };

    fn total(&self) -> u64 {
        match self {
            Sending::Film(frames) => frames.total(),
            Sending::Trace(track) => track.total(),
        }
    }

    fn boundary_after(&self, at: u64) -> u64 {
        match self {
            Sending::Film(frames) => frames.boundary_after(at),
            Sending::Trace(track) => track.boundary_after(at),
        }
    }

    fn part(&self, at: u64, head: &mut [u8; 52]) -> Part<'_> {
        match self {
            Sending::Film(frames) => frames.part(at, head),
            Sending::Trace(track) => track.part(at, head),
        }
    }
}
