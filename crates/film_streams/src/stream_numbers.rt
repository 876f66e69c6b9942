//! The numbers of a stream's packets and reports.

ghost use Rattle.std.specs.Prelude.{◌≡◌, ◌≤◌};
ghost use Rattle.film_streams.specs.StreamNumbers.{counts_after, identity_of, source_of};
ghost use Rattle.film_streams.specs.StreamNumbers.{timestamp_at};

use crate::setups::Setup;
use film_frames::Frames;
use mpeg_scan::{Film, MAX_FILM_PICTURES};
use rtp_pack::Identity;

/// The frames that a session sent, and their octets, both modulo 2^32.
#[derive(Clone, Copy, Debug)]
pub struct Counts {
    /// The frames.
    pub frames: u32,
    /// Their octets.
    pub octets: u32,
}

/// Nothing was sent.
pub const NOTHING_SENT: Counts = Counts {
    frames: 0,
    octets: 0,
};

/// The source of the stream that a connection sends, and where its numbers begin, from the
/// connection's random words (RFC 3550 section 5.1).
#[derive(Clone, Copy, Debug)]
pub struct StreamSource {
    /// The SSRC.
    pub ssrc: u32,
    /// The sequence number of the first frame.
    pub sequence: u16,
    /// The timestamp of the film's beginning, in 1/90,000 second.
    pub timestamp: u32,
}

/// Returns the source that a connection's random words give its stream.
pub fn source_of(words: &[u32; 5]) -> StreamSource
    ensures { result ≡ source_of words.now }
{
    StreamSource {
        ssrc: words[2],
        // RFC 3550 section 5.1: sequence number and timestamp begin at random values.
        sequence: (words[3] % 65_536) as u16,
        timestamp: words[4],
    }
}

/// Returns the identity of a run that begins after these frames and octets (RFC 3550 section 5.1).
#[tactic(auto, using(crate::proofs::ModularSums::sum_mod))]
pub fn identity_of(source: StreamSource, setup: &Setup, counts: Counts) -> Identity
    ensures { result ≡ identity_of source setup.now counts }
{
    Identity {
        channel: setup.media,
        control: setup.control,
        ssrc: source.ssrc,
        // Sequence numbers go on over all runs and wrap at 2^16 (RFC 3550 section 5.1).
        sequence: source
            .sequence
            .wrapping_add((counts.frames % (1 << 16)) as u16),
        timestamp: source.timestamp,
        packets: counts.frames,
        octets: counts.octets,
    }
}

/// Returns what the session has sent in all, once it has sent the first `sent` bytes of these frames
/// after `counts`.
#[tactic(auto, using(crate::proofs::ModularSums::sum_mod))]
pub fn counts_after(counts: Counts, frames: &Frames<'_>, sent: u64) -> Counts
    ensures { result ≡ counts_after counts frames.now sent }
{
    Counts {
        // A report's counts have 32 bits and wrap (RFC 3550 section 6.4.1).
        frames: counts
            .frames
            .wrapping_add((frames.frames_before(sent) % (1 << 32)) as u32),
        octets: counts
            .octets
            .wrapping_add((frames.octets_before(sent) % (1 << 32)) as u32),
    }
}

/// Returns the timestamp of a unit, in 1/90,000 second (RFC 3550 section 5.1).
#[tactic(auto, using(crate::proofs::ModularSums::sum_mod))]
pub fn timestamp_at(film: &Film, source: StreamSource, unit: usize) -> u32
    requires { unit ≤ MAX_FILM_PICTURES }
    ensures { result ≡ timestamp_at film.now source unit }
{
    // The RTP clock of video has 90,000 ticks a second, so four of these units are a tick. It
    // counts the film's time from a random beginning, and wraps at 2^32 (RFC 3550 section 5.1).
    let since = unit as u64 * u64::from(film.picture_time()) / 4;
    source.timestamp.wrapping_add((since % (1 << 32)) as u32)
}
