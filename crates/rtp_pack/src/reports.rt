//! RTCP sender reports.

ghost use Rattle.std.specs.Prelude.{◌≡◌};
ghost use Rattle.rtp_pack.specs.Reports.{report_bytes, unit_report, media_time};

use crate::heads::{media_timestamp, wrapped_sum};
use byteorder::{BigEndian, ByteOrder};
use mpeg_scan::Unit;

/// What the packets and reports of a run have in common, and what the session sent before it.
#[derive(Clone, Copy, Debug, PartialEq, Eq)]
pub struct Identity {
    /// The interleaved channel of the packets.
    pub channel: u8,
    /// The interleaved channel of the reports.
    pub control: u8,
    /// The synchronization source.
    pub ssrc: u32,
    /// The sequence number of the run's first packet.
    pub sequence: u16,
    /// The timestamp of presentation number 0.
    pub timestamp: u32,
    /// The packets before the run, modulo 2^32.
    pub packets: u32,
    /// The octets of these packets, their video headers and payloads, modulo 2^32.
    pub octets: u32,
}

/// What an RTCP sender report says (RFC 3550 section 6.4.1).
#[derive(Clone, Copy, Debug, PartialEq, Eq)]
pub struct Report {
    /// The synchronization source.
    pub ssrc: u32,
    /// The time in seconds, 32 bits before the point and 32 after it.
    pub time: u64,
    /// The same time on the clock of the packets, 90,000 Hz.
    pub timestamp: u32,
    /// The number of packets sent before it.
    pub packets: u32,
    /// The number of payload octets sent before it.
    pub octets: u32,
}

/// The bytes of a report (RFC 3550 sections 6.4.1 and 6.5) with its interleaved head of 4.
pub const REPORT_BYTES: u64 = 52;

/// Returns the 48 bytes of a sender report without report blocks and a source description of the
/// item CNAME `vodserve`, big-endian (RFC 3550 sections 6.4.1 and 6.5).
pub fn write_report(report: &Report) -> [u8; 48]
    ensures { result ≡ report_bytes report.now }
{
    // What each report says: a sender report without report blocks, of 7 words in all, and a source
    // description with the item CNAME, of 5: RFC 3550, section 6.1, asks for both together. Dots
    // and digits, in turn, stand where its fields go.
    let mut bytes =
        *b"\x80\xC8\0\x06....12345678........1234\x81\xCA\0\x04....\x01\x08vodserve\0\0";
    BigEndian::write_u32(&mut bytes[4..], report.ssrc);
    BigEndian::write_u64(&mut bytes[8..], report.time);
    BigEndian::write_u32(&mut bytes[16..], report.timestamp);
    BigEndian::write_u32(&mut bytes[20..], report.packets);
    BigEndian::write_u32(&mut bytes[24..], report.octets);
    BigEndian::write_u32(&mut bytes[32..], report.ssrc);
    bytes
}

/// Returns the report before a unit that has so many packets and octets of its run before it.
///
/// `picture_time` is the time of a picture in 1/360,000 second.
pub fn unit_report(
    identity: &Identity,
    picture_time: u32,
    unit: &Unit,
    packets: u64,
    octets: u64,
) -> Report
    ensures { result ≡ unit_report identity.now picture_time unit.now packets octets }
{
    Report {
        ssrc: identity.ssrc,
        time: media_time(picture_time, unit),
        timestamp: media_timestamp(identity, picture_time, unit),
        // RFC 3550, section 6.4.1: counted since the source began to send, so over all its runs.
        packets: wrapped_sum(identity.packets, u128::from(packets)),
        octets: wrapped_sum(identity.octets, u128::from(octets)),
    }
}

/// The media time of a unit in seconds, 32 bits before the point and 32 after it.
///
/// `picture_time` is the time of a picture in 1/360,000 second.
fn media_time(picture_time: u32, unit: &Unit) -> u64
    ensures { result ≡ media_time picture_time unit.now }
{
    // The film's time, not a wall clock's: each replay of a film then has the same bytes.
    let ticks = u128::from(unit.presentation) * u128::from(picture_time);
    let seconds = (ticks / 360_000 % 0x1_0000_0000) as u64;
    let fraction = (ticks % 360_000) as u64 * 0x1_0000_0000 / 360_000;
    seconds * 0x1_0000_0000 + fraction
}
