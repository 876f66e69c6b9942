//! Framing of an RTSP connection, both ways (RFC 2326 sections 4, 6 and 10.12): the head of an
//! interleaved block, and the elements of a stream of requests and interleaved blocks.
#![tactic(auto)]

mod content_lengths;
mod demux;
mod elements;
pub mod laws;
mod message_heads;

pub use content_lengths::MAX_BODY_BYTES;
pub use demux::{Demux, MAX_WAITING_BYTES, TooMuchInput};
pub use elements::{BLOCK_START, DemuxFault, Step, frame_head};
pub use message_heads::MAX_HEAD_BYTES;

#[cfg(test)]
mod tests;
