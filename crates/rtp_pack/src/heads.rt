//! The RTP header and the video header of a packet, written and read.

ghost use Rattle.std.specs.Prelude.{◌≡◌, ◌+◌, ◌%◌, ◌^◌, ◌<◌};
ghost use Rattle.rtp_pack.specs.Heads.{head_bytes, head_of, packet_head};
ghost use Rattle.rtp_pack.specs.Heads.{unit_timestamp, video_word};

use crate::payloads::Packet;
use crate::reports::Identity;
use byteorder::{BigEndian, ByteOrder};
use mpeg_scan::Unit;
use thiserror::Error;

/// What the RTP header and the video header of a packet say (RFC 3550 section 5.1, RFC 2250 section
/// 3.4).
#[derive(Clone, Copy, Debug, PartialEq, Eq)]
pub struct Head {
    /// The packet is the last of its unit.
    pub marker: bool,
    /// The sequence number.
    pub sequence: u16,
    /// The timestamp on a clock of 90,000 Hz.
    pub timestamp: u32,
    /// The synchronization source.
    pub ssrc: u32,
    /// The video header, its first byte the highest.
    pub video: u32,
}

/// Why bytes don't begin with the head of a packet of MPEG video.
#[derive(Clone, Copy, Debug, PartialEq, Eq, Error)]
pub enum HeadFault {
    /// There are fewer than 16 bytes.
    #[error("the packet is shorter than its headers")]
    Short,
    /// The first byte isn't that of RTP, version 2, without padding, extension or sources.
    #[error("the packet isn't of RTP version 2")]
    NotRtp,
    /// The payload type isn't 32.
    #[error("the packet isn't MPEG video")]
    NotVideo,
}

/// The bytes of a head.
const HEAD: usize = 16;

/// The first byte: version 2, without padding, extension or contributing sources.
const VERSION: u8 = 0x80;

/// The payload type of MPEG-1 and MPEG-2 video (RFC 3551 section 6).
const MPEG_VIDEO: u8 = 32;

/// The marker in the byte that has the payload type.
const MARKER: u8 = 0x80;

/// Returns the 16 bytes of the RTP header and the video header, big-endian.
pub fn write_head(head: &Head) -> [u8; 16]
    ensures { result ≡ head_bytes head.now }
{
    let mut bytes = [0; HEAD];
    bytes[0] = VERSION;
    bytes[1] = if head.marker {
        MARKER + MPEG_VIDEO
    } else {
        MPEG_VIDEO
    };
    BigEndian::write_u16(&mut bytes[2..], head.sequence);
    BigEndian::write_u32(&mut bytes[4..], head.timestamp);
    BigEndian::write_u32(&mut bytes[8..], head.ssrc);
    BigEndian::write_u32(&mut bytes[12..], head.video);
    bytes
}

/// Reads the head that the first 16 bytes are.
///
/// `Short`, `NotRtp` and `NotVideo` come in this order, each exactly where it says.
///
/// # Errors
///
/// [`HeadFault`], the first of its three that applies: `Short`, `NotRtp`, `NotVideo`.
pub fn read_head(bytes: &[u8]) -> Result<Head, HeadFault>
    ensures { result ≡ head_of bytes.now }
{
    if bytes.len() < HEAD {
        return Err(HeadFault::Short);
    }
    // An extension or sources would move the video header; padding would end the payload early.
    if bytes[0] != VERSION {
        return Err(HeadFault::NotRtp);
    }
    if bytes[1] % MARKER != MPEG_VIDEO {
        return Err(HeadFault::NotVideo);
    }
    Ok(Head {
        marker: bytes[1] >= MARKER,
        sequence: BigEndian::read_u16(&bytes[2..]),
        timestamp: BigEndian::read_u32(&bytes[4..]),
        ssrc: BigEndian::read_u32(&bytes[8..]),
        video: BigEndian::read_u32(&bytes[12..]),
    })
}

/// Returns the video header of a packet of a unit, its first byte the highest (RFC 2250 section
/// 3.4).
pub fn video_header(unit: &Unit, packet: &Packet) -> u32
    ensures { result ≡ video_word unit.now packet.now }
{
    // MBZ, T, AN and N are 0: T, AN and N are for MPEG-2 (RFC 2250, section 3.4).
    u32::from(unit.temporal) % 0x400 * 0x1_0000
        + u32::from(packet.sequence_header) * 0x2000
        + u32::from(packet.begin) * 0x1000
        + u32::from(packet.end) * 0x800
        + u32::from(unit.kind.code()) * 0x100
        + u32::from(unit.vectors)
}

/// The sum modulo 2^32.
pub(crate) fn wrapped_sum(start: u32, more: u128) -> u32
    requires { more < 2 ^ 100 }
    ensures { result ≡ (start + more) % 2 ^ 32 }
{
    ((u128::from(start) + more) % 0x1_0000_0000) as u32
}

/// Returns the timestamp of a unit's packets and report on a clock of 90,000 Hz, modulo 2^32.
///
/// `picture_time` is the time of a picture in 1/360,000 second, as `mpeg_scan::picture_time`
/// returns it.
pub fn media_timestamp(identity: &Identity, picture_time: u32, unit: &Unit) -> u32
    ensures { result ≡ unit_timestamp identity.now picture_time unit.now }
{
    // A picture's timestamp is when it is shown (RFC 2250, section 3.3). A tick of 90 kHz has four
    // units of 1/360,000 second. 128 bits, as nothing bounds `presentation` here.
    let ticks = u128::from(unit.presentation) * u128::from(picture_time) / 4;
    wrapped_sum(identity.timestamp, ticks)
}

/// Returns the head of a unit's packet that has so many packets before it in its run.
///
/// `picture_time` is the time of a picture in 1/360,000 second.
pub fn packet_head(
    identity: &Identity,
    picture_time: u32,
    unit: &Unit,
    packet: &Packet,
    before: u64,
) -> Head
    ensures { result ≡ packet_head identity.now picture_time unit.now packet.now before }
{
    Head {
        marker: packet.marker,
        // RFC 3550, section 5.1: 16 bits that wrap.
        sequence: ((u128::from(identity.sequence) + u128::from(before)) % 0x1_0000) as u16,
        timestamp: media_timestamp(identity, picture_time, unit),
        ssrc: identity.ssrc,
        video: video_header(unit, packet),
    }
}
