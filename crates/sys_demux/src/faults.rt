//! Why bytes are no MPEG-1 system stream.

use thiserror::Error;

/// Why bytes are no MPEG-1 system stream. Each number is a place in the bytes, from 0.
#[derive(Clone, Copy, Debug, PartialEq, Eq, Error)]
pub enum SystemFault {
    /// The high four bits of a pack header's fifth byte aren't 2; the place of its prefix 00 00 01.
    #[error("the pack header at byte {0} has another form")]
    NotPack(u64),
    /// Where an item must stand, a byte that can't belong to bytes 00 and a prefix, at this place;
    /// or a start code value below B9, with the place of its prefix.
    #[error("no pack or packet stands at byte {0}")]
    BadCode(u64),
    /// A packet of the chosen stream ends before its header does, or its header has none of the
    /// forms; the place of its prefix.
    #[error("the packet at byte {0} has no whole header")]
    BadPacket(u64),
    /// The stream ends inside an item; the place of its prefix.
    #[error("the stream ends inside the item at byte {0}")]
    Truncated(u64),
}
