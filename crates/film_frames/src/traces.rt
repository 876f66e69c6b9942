//! The track of a trace, whose frames are zero bytes.

ghost use Rattle.std.specs.Prelude.{◌≡◌, ◌++◌, ◌+◌, ◌-◌, ◌^◌, ◌<◌, ◌≤◌, List, ℕ, length, min};
ghost use Rattle.std.specs.Prelude.{replicate, slice_range, sum, Ok};
ghost use Rattle.film_frames.specs.Tracks.{IsBoundaryAfter, IsNext, IsSplit, framed_bytes};
ghost use Rattle.film_frames.specs.Tracks.{IsFrameEnd, zero_frames};

use crate::binary_search::ends_below;
use crate::tracks::{HEAD_BUFFER_BYTES, Part, Track};
use std::fmt::{self, Formatter, Write};
use std::marker::Model;
use vod_base::NoMemory;

/// The most bytes of a part.
const PART: u64 = 1024;

/// Zero bytes, which all parts lend: a trace has sizes and no content.
static ZEROS: [u8; 1024] = [0; 1024];

/// A track of frames of zero bytes, by their sizes. Contracts see the sizes.
#[derive(Drop)]
pub struct TraceTrack {
    /// Where each frame ends: so a search finds a place, and nothing is added up.
    ends: Vec<u64>,
}

impl Model for TraceTrack {
    ghost use Rattle.std.specs.Prelude.{List, ℕ};

    ghost Value = { List ℕ };

    ghost use Rattle.film_frames.specs.Tracks.{AreRunningSums, differences};

    ghost view = { λ t. differences 0 t.ends.items };

    ghost invariant = { λ t. AreRunningSums t.ends.items };
}

impl TraceTrack {
    /// Makes a track of a frame for each size. The sizes add up to at most 2^42.
    ///
    /// It takes no memory, and so the answer is always Ok.
    ///
    /// # Errors
    ///
    /// None: [`NoMemory`] never comes.
    pub fn new(mut sizes: Vec<u64>) -> Result<TraceTrack, NoMemory>
        requires { sum sizes.items ≤ 2 ^ 42 }
        ensures { result ≡ Ok sizes.items }
    {
        let mut end = 0;
        // The sums are written over the sizes, so no memory is taken.
        for number in 0..sizes.len() {
            end += sizes[number];
            sizes[number] = end;
        }
        Ok(TraceTrack { ends: sizes })
    }

    /// Where the frame of the byte at `at` ends.
    fn end_of_frame_at(&self, at: u64) -> u64
        requires { at < length (framed_bytes (zero_frames self.now)) }
        ensures boundary { IsBoundaryAfter (zero_frames self.now) (at + 1) result }
        ensures frame { IsFrameEnd self.now at result }
    {
        let ends: &[u64] = &self.ends;
        // The first end above `at`: frames of no bytes that end at `at` have nothing to send.
        ends[ends_below(ends, at + 1)]
    }
}

impl fmt::Debug for TraceTrack {
    fn fmt<W: Write>(&self, f: &mut Formatter<W>) -> fmt::Result {
        f.write_str("TraceTrack { .. }")
    }
}

impl Track for TraceTrack {
    ghost pieces = { zero_frames };

    fn total(&self) -> u64 {
        match self.ends.last() {
            Some(end) => *end,
            None => 0,
        }
    }

    fn boundary_after(&self, at: u64) -> u64 {
        // The track's first byte is a boundary, also where no frame ends there.
        if at == 0 {
            return 0;
        }
        self.end_of_frame_at(at - 1)
    }

    /// The bytes from `at` on, none of them in the head: what is left of the frame, or 1,024 of it.
    fn part(&self, at: u64, head: &mut [u8; HEAD_BUFFER_BYTES]) -> Part<'_>
        // needs: a place before the track's end
        requires { at < length (framed_bytes (zero_frames self.now)) }
        // answers, as each track: the bytes from `at` on, within one frame
        ensures order { result.head_from ≤ result.head_to }
        ensures within { result.head_to ≤ HEAD_BUFFER_BYTES }
        ensures bytes { IsNext (zero_frames self.now) at
            (slice_range head.new result.head_from result.head_to ++ result.payload.now) }
        ensures heads { IsSplit (zero_frames self.now) at (result.head_to - result.head_from)
            (length result.payload.now) }
        // answers, as this one: no head, and as much payload as a part may have
        ensures no_head { result.head_from ≡ result.head_to }
        ensures most { length result.payload.now ≤ 1024 }
        ensures full { (end : ℕ) → IsBoundaryAfter (zero_frames self.now) (at + 1) end
            → length result.payload.now ≡ min (end - at) 1024 }
    {
        let end = self.end_of_frame_at(at);
        Part {
            head_from: 0,
            head_to: 0,
            payload: zeros((end - at).min(PART)),
        }
    }
}

/// So many zero bytes.
fn zeros(length: u64) -> &'static [u8]
    requires { length ≤ 1024 }
    ensures { result.now ≡ replicate length 0 }
{
    &ZEROS[..length as usize]
}
