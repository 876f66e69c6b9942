//! Tracks: bytes that are sent frame by frame over an RTSP connection (RFC 2326 section 10.12), at
//! any place and without holding them; the track of a film's units, RTP packets with sender reports
//! between them (RFC 3550, RFC 2250); and the track of a trace, whose frames are zero bytes.
#![tactic(auto)]

mod binary_search;
mod frames;
mod heads;
pub mod laws;
mod pieces;
mod stored_films;
mod table_rows;
mod tables;
mod traces;
mod tracks;

pub use frames::Frames;
pub use stored_films::Stored;
pub use tables::FrameTable;
pub use traces::TraceTrack;
pub use tracks::{HEAD_BUFFER_BYTES, Part, Track};

#[cfg(test)]
mod tests;
