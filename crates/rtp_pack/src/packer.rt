//! Cuts a unit into packets.

ghost use Rattle.std.specs.Prelude.{◌≡◌, ◌+◌, ◌-◌, ◌*◌, ◌<◌, ◌≤◌, ◌++◌, [], ◌∷◌, true, drop};
ghost use Rattle.std.specs.Prelude.{length, IfOk, OnOk};
ghost use Rattle.rtp_pack.specs.Packetization.{full_before, goes_in, last_start, next_filling};
ghost use Rattle.rtp_pack.specs.Packetization.{start_of};
ghost use Rattle.rtp_pack.specs.Packets.{IsLaid, before_slice, filling_packet, full_packets};
ghost use Rattle.rtp_pack.specs.Packets.{next_place, packet, slice_packets};
ghost use Rattle.rtp_pack.specs.Sizes.{IsPacked};

use crate::open_packet::{
    MAX_PAYLOAD_BYTES, OpenPacket, PacketContents, full_before, goes_in, holds_after,
};
use crate::payloads::Packet;
use mpeg_scan::Unit;
use vod_base::NoMemory;

/// The packets of a unit, by the places of its film's slices, in place of what the list has.
pub(crate) fn pack(
    packets: &mut Vec<Packet>,
    unit: &Unit,
    slice_starts: &[u64],
) -> Result<(), NoMemory>
    requires { IsLaid slice_starts.now unit.now }
    ensures { OnOk result (IsPacked slice_starts.now unit.now packets.new.items) }
{
    let first = unit.first_slice as usize;
    let starts = &slice_starts[first..first + unit.slices as usize];
    packets.clear();
    let mut filling = OpenPacket {
        from: unit.from,
        at: unit.head_end,
        holds: PacketContents::HeadersAlone,
    };
    for index in 0..starts.len() {
        let end = slice_end(starts, index, unit.to);
        filling = put_slice(packets, unit, filling, end)?;
    }
    close(packets, unit, filling)?;
    Ok(())
}

/// Returns the packet of the unit's bytes from a place to another, where it is known whether they
/// begin and end with a slice (RFC 2250 section 3.4).
pub fn packet(unit: &Unit, from: u64, to: u64, begin: bool, end: bool) -> Packet
    ensures { result ≡ packet unit.now from to begin end }
{
    Packet {
        from,
        to,
        // RFC 2250, section 3.3: M marks the packet in which a picture ends.
        marker: to == unit.to,
        begin,
        end,
        // The first packet has all headers of the unit, so no other one can have a sequence header.
        sequence_header: unit.has_sequence && from == unit.from,
    }
}

/// Appends a packet.
fn put(packets: &mut Vec<Packet>, packet: Packet) -> Result<(), NoMemory>
    ensures { OnOk result (packets.new.items ≡ packets.old.items ++ packet ∷ []) }
{
    packets.push(packet)?;
    Ok(())
}

/// Appends the packet of a portion that ends before a slice or with the unit.
fn close(packets: &mut Vec<Packet>, unit: &Unit, filling: OpenPacket) -> Result<(), NoMemory>
    ensures { OnOk result (packets.new.items ≡
        packets.old.items ++ filling_packet unit.now filling ∷ []) }
{
    // Headers that no slice follows begin no slice and end none.
    let begin = matches!(filling.holds, PacketContents::Slices);
    let end = !matches!(filling.holds, PacketContents::HeadersAlone);
    put(packets, packet(unit, filling.from, filling.at, begin, end))
}

/// Appends the full portions from `start` on of a slice that ends at `end`, and returns where the
/// portion with its end begins.
fn put_full(packets: &mut Vec<Packet>, unit: &Unit, start: u64, end: u64) -> Result<u64, NoMemory>
    requires { start < end }
    ensures start { IfOk result (λ last. last ≡ last_start start end) }
    ensures before { IfOk result (λ last. last < end) }
    ensures packets { OnOk result (packets.new.items ≡
        packets.old.items ++ full_packets unit.now true start (full_before start end)) }
{
    let mut last = start;
    // Only the first portion has the start code of the slice, and none of them has its end.
    let mut begin = true;
    for _portion in 0..full_before(start, end) {
        put(
            packets,
            packet(unit, last, last + MAX_PAYLOAD_BYTES, begin, false),
        )?;
        last += MAX_PAYLOAD_BYTES;
        begin = false;
    }
    Ok(last)
}

/// Appends the packets that end before or in the slice to `end`, and returns the portion that is
/// being filled then.
fn put_slice(
    packets: &mut Vec<Packet>,
    unit: &Unit,
    filling: OpenPacket,
    end: u64,
) -> Result<OpenPacket, NoMemory>
    requires order { filling.from ≤ filling.at }
    requires some { filling.at < end }
    ensures filling { IfOk result (λ next. next ≡ next_filling filling (end - filling.at)) }
    ensures order { IfOk result (λ next. next.from ≤ next.at) }
    ensures packets { OnOk result (packets.new.items ≡
        packets.old.items ++ slice_packets unit.now filling (end - filling.at)) }
{
    let length = end - filling.at;
    let mut start = filling.from;
    if !goes_in(filling, length) {
        close(packets, unit, filling)?;
        start = filling.at;
    }
    let last = put_full(packets, unit, start, end)?;
    Ok(OpenPacket {
        from: last,
        at: end,
        holds: holds_after(length),
    })
}

/// The end of a slice: the place of the next one, or the unit's end.
fn slice_end(starts: &[u64], index: usize, to: u64) -> u64
    requires { index < length starts.now }
    ensures { result ≡ next_place to (drop (index + 1) starts.now) }
{
    match starts.get(index + 1) {
        Some(next) => *next,
        None => to,
    }
}
