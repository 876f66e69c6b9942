//! What a track is: bytes that are sent frame by frame.

ghost use Rattle.std.specs.Prelude.{◌≡◌, ◌<◌, ◌≤◌, ◌-◌, ◌++◌, ℕ, List, length, slice_range};
ghost use Rattle.film_frames.specs.Tracks.{IsBoundaryAfter, IsNext, IsSplit, framed_bytes};

use rtp_pack::REPORT_BYTES;

/// The bytes of the buffer into which [`Track::part`] writes heads. A report takes the most: all of
/// it is written there.
pub const HEAD_BUFFER_BYTES: usize = REPORT_BYTES as usize;

/// The next bytes of a track: a range of a head that was written, and then a payload.
#[derive(Debug, Drop)]
pub struct Part<'a> {
    /// The place of the first byte in the head.
    pub head_from: usize,
    /// The place after the last byte in the head.
    pub head_to: usize,
    /// The bytes after those of the head; none in a report.
    pub payload: &'a [u8],
}

/// Bytes that are sent in pieces, each a frame or a report. Places count from the track's first
/// byte.
pub trait Track {
    ghost pieces: { Self → List (List ℕ) };

    /// Returns the length of all pieces, in bytes.
    fn total(&self) -> u64
        ensures { result ≡ length (framed_bytes (pieces self.now)) };

    /// Returns the least boundary that is at least `at`. A boundary is 0 or the end of a piece.
    fn boundary_after(&self, at: u64) -> u64
        requires { at ≤ length (framed_bytes (pieces self.now)) }
        ensures { IsBoundaryAfter (pieces self.now) at result };

    /// Returns the bytes from `at` on: at least one, and none after the end of the piece.
    ///
    /// They are `head[head_from..head_to]` and then the payload. Between the two a frame's heads
    /// end, and heads end nowhere else among these bytes.
    fn part(&self, at: u64, head: &mut [u8; HEAD_BUFFER_BYTES]) -> Part<'_>
        // needs: a place before the track's end
        requires { at < length (framed_bytes (pieces self.now)) }
        // answers: a range of the head, the bytes from `at` on, and where heads end among them
        ensures order { result.head_from ≤ result.head_to }
        ensures within { result.head_to ≤ HEAD_BUFFER_BYTES }
        ensures bytes { IsNext (pieces self.now) at
            (slice_range head.new result.head_from result.head_to ++ result.payload.now) }
        ensures heads { IsSplit (pieces self.now) at (result.head_to - result.head_from)
            (length result.payload.now) };
}
