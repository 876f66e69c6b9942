//! What the frames of a film say of it (RFC 2326 section 10.12, RFC 3550, RFC 2250).

ghost use Rattle.std.specs.Prelude.{◌≡◌, ◌^◌, ◌<◌, IfSome};
ghost use Rattle.rtsp_client.specs.ClientInvariant.{IsSoundSource};
ghost use Rattle.rtsp_client.specs.Films.{begins_film, units_until};
ghost use Rattle.rtsp_client.specs.States.{first_source, next_source};

use mpeg_scan::{MAX_FILM_PICTURES, picture_time};
use rtp_pack::{FRAME_HEAD_BYTES, Head};

/// The bytes of a block's head: `$`, the channel and the length (RFC 2326 section 10.12).
pub(crate) const BLOCK_HEAD: usize = 4;

/// The bytes before a frame's payload: the heads of the block, of RTP and of its video.
pub(crate) const HEADS: usize = FRAME_HEAD_BYTES as usize;

/// What the frames of one synchronization source so far say of their film (RFC 3550).
#[derive(Clone, Copy)]
pub(crate) struct RtpSource {
    /// The synchronization source.
    pub(crate) ssrc: u32,
    /// The latest frame's sequence number.
    pub(crate) sequence: u16,
    /// Whether the latest frame ends a picture.
    pub(crate) marker: bool,
    /// The time of a picture in 1/360,000 second.
    pub(crate) picture_time: u32,
    /// How many pictures the film has.
    pub(crate) units: u64,
}

impl RtpSource {
    /// What the first frame of a film says, whose payload begins with a sequence header.
    ///
    /// None where it doesn't, or where the film has no picture or too many.
    #[tactic(auto, using(crate::proofs::PictureTimes::time_bounds))]
    pub(crate) fn first(head: &Head, payload: &[u8], end_ms: u128) -> Option<RtpSource>
        requires { end_ms < 2 ^ 100 }
        ensures source { result ≡ first_source head.now payload.now end_ms }
        ensures follows { IfSome result (λ source. IsSoundSource source 1) }
    {
        if !begins_film(payload) {
            return None;
        }
        let picture_time = picture_time(payload[7] % 16);
        let units = units_until(end_ms, picture_time);
        if units < 1 || units > u128::from(MAX_FILM_PICTURES) {
            return None;
        }
        Some(RtpSource {
            ssrc: head.ssrc,
            sequence: head.sequence,
            marker: head.marker,
            picture_time,
            units: units as u64,
        })
    }

    /// What the frames say with one more, where that is the next one.
    pub(crate) fn next(&self, head: &Head) -> Option<RtpSource>
        ensures source { result ≡ next_source self.now head.now }
        ensures same { IfSome result (λ source. (source.picture_time ≡ self.now.picture_time)
            × (source.units ≡ self.now.units)) }
    {
        // Sequence numbers count on modulo 2^16 from any first one (RFC 3550 section 5.1).
        if head.ssrc != self.ssrc || head.sequence != self.sequence.wrapping_add(1) {
            return None;
        }
        Some(RtpSource {
            sequence: head.sequence,
            marker: head.marker,
            ..*self
        })
    }
}

/// Whether a payload begins with a sequence header (ISO/IEC 11172-2, 2.4.2.3) that has a picture
/// rate code from 1 to 8.
fn begins_film(payload: &[u8]) -> bool
    ensures { result ≡ begins_film payload.now }
{
    // A sequence header has 12 bytes before its matrices. The low half of byte 7 is the picture
    // rate, whose codes are 1 to 8 (ISO/IEC 11172-2, 2.4.3.2).
    payload.len() >= 12
        && payload.starts_with(&[0, 0, 1, 0xb3])
        && payload[7] % 16 >= 1
        && payload[7] % 16 <= 8
}

/// The pictures of a film that ends so many milliseconds after its beginning: the least number that
/// lasts as long.
fn units_until(end_ms: u128, picture_time: u32) -> u128
    requires some { 0 < picture_time }
    requires short { end_ms < 2 ^ 100 }
    ensures { result ≡ units_until end_ms picture_time }
{
    // A millisecond has 360 units. The end was rounded down to it, so the count is rounded up.
    (end_ms * 360).div_ceil(u128::from(picture_time))
}
