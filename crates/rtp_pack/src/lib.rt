//! The RTP packets of MPEG-1 video (RFC 3550, RFC 2250): how a picture with its headers is cut into
//! packets, the heads of the packets, the RTCP sender reports, and the size of all that on the
//! wire.
#![tactic(auto)]

mod heads;
pub mod laws;
mod open_packet;
mod packer;
mod payloads;
mod reports;
mod sizes;

pub use heads::{
    Head, HeadFault, media_timestamp, packet_head, read_head, video_header, write_head,
};
pub use open_packet::MAX_PAYLOAD_BYTES;
pub use packer::packet;
pub use payloads::{Packet, packets, refill_packets};
pub use reports::{Identity, REPORT_BYTES, Report, unit_report, write_report};
pub use sizes::{FRAME_HEAD_BYTES, MAX_FRAME_BYTES, UnitSize};

#[cfg(test)]
mod tests;
