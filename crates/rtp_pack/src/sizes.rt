//! The size of a unit's frames, counted while its slices come in.

ghost use Rattle.std.specs.Prelude.{◌≡◌, ◌+◌, ◌*◌, ◌^◌, ◌≤◌, []};
ghost use Rattle.rtp_pack.specs.Sizes.{HasSlice, IsSize, measure_from_headers, bytes_of, frames_of};
ghost use Rattle.rtp_pack.specs.Sizes.{measure_of, with_slice};

use crate::open_packet::{
    MAX_PAYLOAD_BYTES, OpenPacket, PacketContents, full_before, goes_in, holds_after,
};
use crate::reports::REPORT_BYTES;
use std::fmt::{self, Formatter, Write};
use std::marker::Model;

/// The size of a unit's frames, counted while the lengths of its headers and slices come in. It
/// takes no memory.
///
/// Contracts see how many portions ended so far, and the one that is being filled.
#[derive(Drop)]
pub struct UnitSize {
    /// How many portions ended so far.
    portions: u64,
    /// The portion that is being filled, by places in the unit.
    filling: OpenPacket,
}

impl Model for UnitSize {
    ghost use Rattle.rtp_pack.specs.Sizes.{IsMeasure, Measure, measure};

    ghost Value = { Measure };

    ghost view = { λ m. measure m.portions m.filling };

    ghost invariant = { λ m. IsMeasure (measure m.portions m.filling) };
}

/// The bytes of the heads of a frame: 4 of the interleaved block (RFC 2326 section 10.12) and 16 of
/// the packet (RFC 3550 section 5.1, RFC 2250 section 3.4).
pub const FRAME_HEAD_BYTES: u64 = 20;

/// The most bytes of a frame: its heads, and a payload of [`MAX_PAYLOAD_BYTES`].
pub const MAX_FRAME_BYTES: u64 = FRAME_HEAD_BYTES + MAX_PAYLOAD_BYTES;

impl fmt::Debug for UnitSize {
    fn fmt<W: Write>(&self, f: &mut Formatter<W>) -> fmt::Result {
        f.write_str("UnitSize { .. }")
    }
}

impl UnitSize {
    /// Begins a unit by the length of its headers.
    pub fn begin(headers: u64) -> UnitSize
        requires some { 1 ≤ headers }
        requires most { headers ≤ MAX_PAYLOAD_BYTES }
        ensures begun { result ≡ measure_from_headers headers }
        ensures measured { result ≡ measure_of headers [] }
    {
        UnitSize {
            portions: 0,
            filling: OpenPacket {
                from: 0,
                at: headers,
                holds: PacketContents::HeadersAlone,
            },
        }
    }

    /// Adds a slice by its length.
    pub fn slice(&mut self, length: u64)
        // needs: a start code at least, and a unit of at most 2^40 bytes
        requires least { 4 ≤ length }
        requires most { bytes_of self.old + length ≤ 2 ^ 40 }
        // leaves: the slice is in the portions, by the rules of cutting
        ensures slice { self.new ≡ with_slice self.old length }
        ensures bytes { bytes_of self.new ≡ bytes_of self.old + length }
        ensures measured { HasSlice length self.old self.new }
    {
        // The steps of `packer::put_slice` without its list, so that measuring takes no memory.
        let end = self.filling.at + length;
        let mut start = self.filling.from;
        if !goes_in(self.filling, length) {
            self.portions += 1;
            start = self.filling.at;
        }
        let full = full_before(start, end);
        self.portions += full;
        self.filling = OpenPacket {
            from: start + MAX_PAYLOAD_BYTES * full,
            at: end,
            holds: holds_after(length),
        };
    }

    /// Returns the bytes of the unit's frames, each with its interleaved head of 4 bytes and its
    /// packet's of 16.
    pub fn end(self) -> u64
        ensures size { result ≡ frames_of self }
        ensures bound { result + REPORT_BYTES ≤ 2 * bytes_of self + 112 }
        ensures frames { IsSize self result }
    {
        // The portion that is being filled is a packet, too.
        self.filling.at + FRAME_HEAD_BYTES * (self.portions + 1)
    }
}
