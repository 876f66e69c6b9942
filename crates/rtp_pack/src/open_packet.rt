//! The payload that is filled while a unit is cut, and whether a slice goes into it.

ghost use Rattle.std.specs.Prelude.{◌≡◌, ◌+◌, ◌*◌, ◌<◌, ◌≤◌};
ghost use Rattle.rtp_pack.specs.Packetization.{full_before, goes_in, holds_after};

use mpeg_scan::MAX_UNIT_HEAD_BYTES;

/// What stands in the portion of a unit that is being filled.
#[derive(Clone, Copy)]
pub(crate) enum PacketContents {
    /// The unit's headers alone.
    HeadersAlone,
    /// Whole slices, after the headers in the unit's first portion.
    Slices,
    /// The last fragment of a slice that is longer than a portion.
    LastFragment,
}

/// The portion of a unit that is being filled: its bytes so far, and what they are.
#[derive(Clone, Copy)]
pub(crate) struct OpenPacket {
    /// The place of its first byte.
    pub from: u64,
    /// The place after its last byte so far.
    pub at: u64,
    /// What stands in it.
    pub holds: PacketContents,
}

/// The most bytes of a unit in one packet: a complete head always goes into one.
pub const MAX_PAYLOAD_BYTES: u64 = MAX_UNIT_HEAD_BYTES;

/// Whether a slice of `length` bytes begins in the portion that is being filled, or else begins the
/// next.
pub(crate) fn goes_in(filling: OpenPacket, length: u64) -> bool
    requires { filling.from ≤ filling.at }
    ensures { result ≡ goes_in filling length }
{
    let used = filling.at - filling.from;
    // A slice begins a packet, or follows headers or complete slices (RFC 2250, section 3.1).
    match filling.holds {
        // A slice that no packet can take is split anyway, so it follows the headers at once.
        PacketContents::HeadersAlone if length > MAX_PAYLOAD_BYTES => used < MAX_PAYLOAD_BYTES,
        PacketContents::Slices if length > MAX_PAYLOAD_BYTES => false,
        // After a lost packet a receiver would have to search for a slice behind a fragment.
        PacketContents::LastFragment => false,
        _ => used <= MAX_PAYLOAD_BYTES && length <= MAX_PAYLOAD_BYTES - used,
    }
}

/// What the portion with the end of a slice of `length` bytes holds.
pub(crate) fn holds_after(length: u64) -> PacketContents
    ensures { result ≡ holds_after length }
{
    if length > MAX_PAYLOAD_BYTES {
        PacketContents::LastFragment
    } else {
        PacketContents::Slices
    }
}

/// How many full portions from `start` on end before `end`.
pub(crate) fn full_before(start: u64, end: u64) -> u64
    requires { start < end }
    ensures count { result ≡ full_before start end }
    ensures before { start + MAX_PAYLOAD_BYTES * result < end }
    ensures within { end ≤ start + MAX_PAYLOAD_BYTES * result + MAX_PAYLOAD_BYTES }
{
    // A portion that ends exactly at `end` doesn't count: it is the one that stays open.
    (end - start - 1) / MAX_PAYLOAD_BYTES
}
