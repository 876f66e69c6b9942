//! The bytes of a report, and the headers before a payload.

ghost use Rattle.std.specs.Prelude.{◌≡◌, ◌+◌, ◌≤◌, ◌/◌, ◌%◌, ◌∷◌, take};
ghost use Rattle.rtp_pack.specs.Heads.{head_bytes};
ghost use Rattle.rtp_pack.specs.Reports.{report_bytes};
ghost use Rattle.film_frames.specs.FramedRuns.{interleaved_block};

use crate::tracks::HEAD_BUFFER_BYTES;
use interleave::{BLOCK_START, frame_head};
use rtp_pack::{FRAME_HEAD_BYTES, Head, MAX_PAYLOAD_BYTES, Report, write_head, write_report};

/// A report with its interleaved head.
pub(crate) fn report_block(control: u8, report: &Report) -> [u8; HEAD_BUFFER_BYTES]
    ensures { result ≡ interleaved_block control (report_bytes report.now) }
{
    let mut block = [0; HEAD_BUFFER_BYTES];
    // RFC 2326, section 10.12: a block's length leaves out its own head of 4 bytes.
    block[..4].copy_from_slice(&frame_head(control, 48));
    block[4..].copy_from_slice(&write_report(report));
    block
}

/// Writes the heads of a frame with a payload of `length` bytes: the interleaved head and the
/// packet's, 20 bytes.
pub(crate) fn put_frame_heads(
    block: &mut [u8; HEAD_BUFFER_BYTES],
    channel: u8,
    head: &Head,
    length: u64,
)
    requires { length ≤ MAX_PAYLOAD_BYTES }
    ensures { take FRAME_HEAD_BYTES block.new ≡
        BLOCK_START ∷ channel ∷ ((16 + length) / 256) ∷ ((16 + length) % 256) ∷
        head_bytes head.now }
{
    // 16 bytes of RTP and video header; with at most 1,380 of payload the sum fits in 16 bits.
    block[..4].copy_from_slice(&frame_head(channel, 16 + length as u16));
    block[4..FRAME_HEAD_BYTES as usize].copy_from_slice(&write_head(head));
}
