//! A packet, and the packets of a unit of a film.

ghost use Rattle.std.specs.Prelude.{◌<◌, length, IfOk, OnOk};
ghost use Rattle.rtp_pack.specs.Packets.{OfUnit};
ghost use Rattle.rtp_pack.specs.Sizes.{IsPacked};

use crate::packer::pack;
use mpeg_scan::Film;
use std::alloc::Global;
use vod_base::NoMemory;

/// A packet of a unit: a portion of the film's bytes, with what its heads say of it (RFC 2250
/// section 3).
#[derive(Clone, Copy, Debug, PartialEq, Eq)]
pub struct Packet {
    /// The place of its first byte in the film.
    pub from: u64,
    /// The place after its last byte: 1 to 1,380 bytes more.
    pub to: u64,
    /// The RTP marker: it is the unit's last packet.
    pub marker: bool,
    /// B: it begins with a slice code, or with the unit's headers and a slice after them.
    pub begin: bool,
    /// E: its last byte is a slice's last byte.
    pub end: bool,
    /// S: it begins with a sequence header.
    pub sequence_header: bool,
}

/// Returns the packets of a unit of the film, in order (RFC 2250 section 3.1).
///
/// # Errors
///
/// [`NoMemory`] where there is none for the packets.
pub fn packets(alloc: Global, film: &Film, unit: usize) -> Result<Vec<Packet>, NoMemory>
    requires { unit < length film.now.units.items }
    ensures { OfUnit film.now.units.items unit (λ u.
        IfOk result (λ p. IsPacked film.now.slice_starts.items u p.items)) }
{
    let mut packets = Vec::new(alloc);
    refill_packets(&mut packets, film, unit)?;
    Ok(packets)
}

/// Replaces what the list has by the packets of a unit of the film, in order. It takes memory only
/// where they are more than the list had room for.
///
/// # Errors
///
/// [`NoMemory`] where there is none for the packets.
pub fn refill_packets(packets: &mut Vec<Packet>, film: &Film, unit: usize) -> Result<(), NoMemory>
    requires { unit < length film.now.units.items }
    ensures { OfUnit film.now.units.items unit (λ u.
        OnOk result (IsPacked film.now.slice_starts.items u packets.new.items)) }
{
    pack(packets, &film.units[unit], &film.slice_starts)
}
