//! Expected values are worked out by hand from RFC 2250, RFC 3550 and ISO/IEC 11172-2; film A is a
//! sequence header, a group header, an I picture and one slice, and film B is film A, a P picture
//! and one slice.

ghost use Rattle.std.specs.Prelude.{◌≡◌, ◌<◌, ◌≤◌, ◌^◌, ℕ, List, [], ◌∷◌, length, IfOk};
ghost use Rattle.rtp_pack.specs.Packetization.{AreCutPoints};
ghost use Rattle.rtp_pack.specs.Laws.{ArePortions, IsLastMarked};

use crate::laws::{
    law_only_last_packet_has_marker, law_packet_head_round_trips, law_packetization_is_unique,
    law_packets_respect_slices,
};
use crate::{
    Head, HeadFault, Identity, Packet, Report, UnitSize, media_timestamp, packet_head, packets,
    read_head, refill_packets, unit_report, video_header, write_head, write_report,
};
use mpeg_scan::{Film, Kind, Unit, scan};
use std::alloc::Global;
use std::process::Abort;
use vod_base::NoMemory;

/// The headers of film A.
const HEAD: [u8; 28] = [
    0, 0, 1, 0xb3, 0x16, 0x01, 0x20, 0x13, 0xff, 0xff, 0xe0, 0xa0, 0, 0, 1, 0xb8, 0x00, 0x08, 0x00,
    0x40, 0, 0, 1, 0, 0x00, 0x0f, 0xff, 0xf8,
];

/// What film B has after them: the slice of film A, and its second unit.
const AFTER_HEAD: [u8; 21] = [
    0, 0, 1, 1, 0x12, 0x34, 0, 0, 1, 0, 0x00, 0x57, 0xff, 0xf8, 0x80, 0, 0, 1, 1, 0x12, 0x34,
];

/// The time of a picture at 25 pictures a second, in 1/360,000 second.
const PICTURE: u32 = 14_400;

const IDENTITY: Identity = Identity {
    channel: 0,
    control: 1,
    ssrc: 0x0102_0304,
    sequence: 1,
    timestamp: 0,
    packets: 0,
    octets: 0,
};

fn film_b(alloc: Global) -> Option<Film> {
    let mut bytes = Vec::from_slice(alloc, &HEAD).ok()?;
    bytes.extend_from_slice(&AFTER_HEAD).ok()?;
    scan(alloc, bytes).ok()
}

/// Fills up a part that has `from` bytes to so many.
fn fill(bytes: &mut Vec<u8>, from: usize, to: &str) -> Option<()> {
    for _ in from..to.parse().ok()? {
        bytes.push(0xff).ok()?;
    }
    Some(())
}

/// A film of one unit: the headers of film A, filled up to the first of these lengths, and slices
/// of the others.
fn film_of(alloc: Global, lengths: &str) -> Option<Film> {
    let mut lengths = lengths.split(' ');
    let mut bytes = Vec::from_slice(alloc, &HEAD).ok()?;
    fill(&mut bytes, HEAD.len(), lengths.next()?)?;
    for length in lengths {
        bytes.extend_from_slice(&[0, 0, 1, 1]).ok()?;
        fill(&mut bytes, 4, length)?;
    }
    scan(alloc, bytes).ok()
}

/// A packet, by its place and the letters of what is set: M marker, B begin, E end, S sequence
/// header.
fn portion(from: u64, to: u64, set: &str) -> Packet {
    Packet {
        from,
        to,
        marker: set.contains('M'),
        begin: set.contains('B'),
        end: set.contains('E'),
        sequence_header: set.contains('S'),
    }
}

fn letter(set: bool, letter: &str) -> &str {
    if set { letter } else { "" }
}

/// Packets by their places and the letters of what is set, as ` 0-28S 28-1381MBE`.
fn packets_text(alloc: Global, packets: &[Packet]) -> Option<String> {
    let mut text = String::new(alloc);
    for packet in packets {
        let places = format!(in alloc; " {}-{}", packet.from, packet.to).ok()?;
        text.push_str(&places).ok()?;
        text.push_str(letter(packet.marker, "M")).ok()?;
        text.push_str(letter(packet.begin, "B")).ok()?;
        text.push_str(letter(packet.end, "E")).ok()?;
        text.push_str(letter(packet.sequence_header, "S")).ok()?;
    }
    Some(text)
}

/// The packets of a film's first unit, of which the last alone has the marker.
fn marked_packets(alloc: Global, film: &Film) -> Result<Vec<Packet>, NoMemory>
    requires { 0 < length film.now.units.items }
    ensures { IfOk result (λ packets. IsLastMarked packets.items) }
{
    law_only_last_packet_has_marker();
    Ok(packets(alloc, film, 0)?)
}

/// Checks a row: the bytes of a unit's headers and of each slice, and the unit's packets. Those of
/// another film may stand in the list before.
fn check_cuts(rt: &impl Abort, alloc: Global, row: &str, list: &mut Vec<Packet>) {
    let (lengths, want) = row.split_once(':').expect(rt, row);
    let film = film_of(alloc, lengths).expect(rt, row);
    assert!(rt; film.units.len() == 1, "{row}");
    let packets = marked_packets(alloc, &film).expect(rt, row);
    refill_packets(list, &film, 0).expect(rt, row);
    assert!(rt; *list == packets, "{row}");
    let text = packets_text(alloc, list).expect(rt, row);
    assert!(rt; text.as_str() == want, "{row}:{text}");
}

fn check_rows(rt: &impl Abort, alloc: Global, rows: &str) {
    // One list serves all films: each is cut into what an earlier one left.
    let mut list = Vec::new(alloc);
    for row in rows.split('|') {
        check_cuts(rt, alloc, row, &mut list);
    }
}

#[test]
fn cuts_units(rt: HostRuntime) {
    let rows = "28 6: 0-34MBES|\
        28 1352: 0-1380MBES|\
        28 1353: 0-28S 28-1381MBE|\
        28 1370: 0-28S 28-1398MBE|\
        28 1380: 0-28S 28-1408MBE|\
        28 1381: 0-1380BS 1380-1409ME|\
        28 1352 4: 0-1380BES 1380-1384MBE|\
        28 10 20 30: 0-88MBES|\
        28 700 652 700 680 4: 0-1380BES 1380-2760BE 2760-2764MBE";
    check_rows(&rt, rt.alloc(), rows);
}

#[test]
fn cuts_long_slices(rt: HostRuntime) {
    let rows = "28 1381 4: 0-1380BS 1380-1409E 1409-1413MBE|\
        28 10 1400: 0-38BES 38-1418B 1418-1438ME|\
        28 2760 2000: 0-1380BS 1380-2760 2760-2788E 2788-4168B 4168-4788ME|\
        1379 1381: 0-1380BS 1380-2760ME|\
        1380 1381: 0-1380S 1380-2760B 2760-2761ME";
    check_rows(&rt, rt.alloc(), rows);
}

/// Checks a unit of one packet, the packet's own header and all its headers.
fn check_head(
    rt: &impl Abort,
    alloc: Global,
    film: &Film,
    unit: usize,
    want: &str,
    video: u32,
    bytes: &[u8; 16],
) {
    assert!(rt; unit < film.units.len(), "{want}");
    let packets = packets(alloc, film, unit).expect(rt, want);
    assert!(rt; packets.len() == 1, "{want}");
    let text = packets_text(alloc, &packets).expect(rt, want);
    assert!(rt; text.as_str() == want, "{want}:{text}");
    let (unit_in_film, packet) = (&film.units[unit], &packets[0]);
    assert!(rt; video_header(unit_in_film, packet) == video, "{want}");
    let head = packet_head(&IDENTITY, PICTURE, unit_in_film, packet, unit as u64);
    assert!(rt; write_head(&head) == *bytes, "{want}");
    assert!(rt; read_head(bytes) == Ok(head), "{want}");
}

#[test]
fn heads_of_film_b(rt: HostRuntime) {
    let film = film_b(rt.alloc()).expect(&rt, "a film");
    assert!(rt; film.units.len() == 2);
    let bytes = b"\x80\xa0\x00\x01\x00\x00\x00\x00\x01\x02\x03\x04\x00\x00\x39\x00";
    check_head(&rt, rt.alloc(), &film, 0, " 0-34MBES", 0x0000_3900, bytes);
    let bytes = b"\x80\xa0\x00\x02\x00\x00\x0e\x10\x01\x02\x03\x04\x00\x01\x1a\x01";
    check_head(&rt, rt.alloc(), &film, 1, " 34-49MBE", 0x0001_1a01, bytes);
}

/// The bytes of the frames of a unit with a head and one slice, or two if the second has bytes.
fn size_of(head: u64, first: u64, second: u64) -> Option<u64> {
    if head < 1 || 1380 < head || first < 4 || 1_000_000_000 < first {
        return None;
    }
    let mut size = UnitSize::begin(head);
    size.slice(first);
    if let 4..=0xffff_ffff = second {
        size.slice(second);
    }
    Some(size.end())
}

#[test]
fn measures_units(rt: HostRuntime) {
    for (head, first, second, want) in &[
        (28, 6, 0, 54),
        (28, 1352, 0, 1400),
        (28, 1353, 0, 1421),
        (28, 1370, 0, 1438),
        (28, 1381, 0, 1449),
        (28, 1352, 4, 1424),
        (28, 1381, 4, 1473),
        (28, 10, 1400, 1498),
        (28, 2760, 2000, 4888),
        (1379, 1381, 0, 2800),
        (1380, 1381, 0, 2821),
        (28, 1_000_000_000, 0, 1_014_492_788),
    ] {
        assert!(rt; size_of(*head, *first, *second) == Some(*want), "{want}");
    }
    let text = format!(in rt.alloc(); "{:?}", UnitSize::begin(28)).expect(&rt, "a text");
    assert!(rt; text.as_str() == "UnitSize { .. }");
}

/// The bytes of these packets' frames, if none ends past 4788.
fn frame_bytes(packets: &[Packet]) -> Option<u64> {
    let mut size = 0u64;
    for packet in packets {
        if 4788 < packet.to {
            return None;
        }
        let bytes = packet.to.checked_sub(packet.from)?;
        size = size.checked_add(bytes)?.checked_add(20)?;
    }
    Some(size)
}

#[test]
fn measures_as_it_cuts(rt: HostRuntime) {
    let film = film_of(rt.alloc(), "28 2760 2000").expect(&rt, "a film");
    assert!(rt; film.units.len() == 1);
    let packets = packets(rt.alloc(), &film, 0).expect(&rt, "packets");
    let size = frame_bytes(&packets);
    assert!(rt; size.is_some() && size == size_of(28, 2760, 2000));
}

const UNIT: Unit = Unit {
    from: 0,
    head_end: 28,
    to: 34,
    first_slice: 0,
    slices: 1,
    temporal: 1023,
    presentation: 120,
    kind: Kind::B,
    vectors: 0xff,
    has_sequence: false,
    starts_group: true,
};

#[test]
fn wraps(rt: HostRuntime) {
    let late = Identity {
        sequence: 0xfffe,
        timestamp: 0xffff_ffff,
        packets: 0xffff_ffff,
        octets: 0xffff_fff0,
        ..IDENTITY
    };
    let packet = portion(0, 34, "MBE");
    for (before, sequence) in &[(0, 0xfffe), (1, 0xffff), (2, 0), (65_538, 0)] {
        let head = packet_head(&late, PICTURE, &UNIT, &packet, *before);
        assert!(rt;
            head.sequence == *sequence && head.timestamp == 431_999,
            "at {before}"
        );
    }
    assert!(rt; media_timestamp(&IDENTITY, PICTURE, &UNIT) == 432_000);
    assert!(rt; media_timestamp(&IDENTITY, 15_015, &UNIT) == 450_450);
    let report = unit_report(&late, PICTURE, &UNIT, 2, 0x1_0000_0020);
    assert!(rt; report.timestamp == 431_999);
    assert!(rt; report.packets == 1 && report.octets == 16);
}

#[test]
fn words_of_pictures(rt: HostRuntime) {
    let whole = portion(0, 34, "MBES");
    let middle = portion(0, 34, "");
    for (kind, all, none) in &[
        (Kind::I, 0x03ff_39ff, 0x03ff_01ff),
        (Kind::P, 0x03ff_3aff, 0x03ff_02ff),
        (Kind::B, 0x03ff_3bff, 0x03ff_03ff),
        (Kind::D, 0x03ff_3cff, 0x03ff_04ff),
    ] {
        let unit = Unit {
            kind: *kind,
            ..UNIT
        };
        let right = video_header(&unit, &whole) == *all && video_header(&unit, &middle) == *none;
        assert!(rt; right, "{kind:?}");
    }
}

/// The fault of the head of a packet of 16 bytes that begins so.
fn fault_of(first: u8, second: u8) -> Option<HeadFault> {
    let mut bytes = *b"..34567890123456";
    bytes[0] = first;
    bytes[1] = second;
    read_head(&bytes).err()
}

#[test]
fn reads_heads(rt: HostRuntime) {
    let head = Head {
        marker: false,
        sequence: 0x1234,
        timestamp: 0x5678_9abc,
        ssrc: 0xdef0_1122,
        video: 0x3344_5566,
    };
    let bytes = b"\x80\x20\x12\x34\x56\x78\x9a\xbc\xde\xf0\x11\x22\x33\x44\x55\x66";
    assert!(rt; write_head(&head) == *bytes);
    law_packet_head_round_trips();
    assert!(rt; read_head(bytes) == Ok(head));
    let bytes = b"\x80\xa0\x12\x34\x56\x78\x9a\xbc\xde\xf0\x11\x22\x33\x44\x55\x66payload";
    let marked = Head {
        marker: true,
        ..head
    };
    assert!(rt; read_head(bytes) == Ok(marked));
    assert!(rt; read_head(b"") == Err(HeadFault::Short));
    assert!(rt; read_head(b"\x81\x213456789012345") == Err(HeadFault::Short));
    for (first, second, fault) in &[
        (0x81, 0x21, HeadFault::NotRtp),
        (0x90, 0x20, HeadFault::NotRtp),
        (0x80, 0x21, HeadFault::NotVideo),
        (0x80, 0xa1, HeadFault::NotVideo),
        (0x80, 0x00, HeadFault::NotVideo),
    ] {
        assert!(rt;
            fault_of(*first, *second) == Some(*fault),
            "{first} {second}"
        );
    }
}

#[test]
fn reports_units(rt: HostRuntime) {
    let film = film_b(rt.alloc()).expect(&rt, "a film");
    assert!(rt; film.units.len() == 2);
    let first = unit_report(&IDENTITY, PICTURE, &film.units[0], 0, 0);
    assert!(rt;
        write_report(&first)
            == *b"\x80\xc8\0\x06\x01\x02\x03\x04\0\0\0\0\0\0\0\0\0\0\0\0\0\0\0\0\0\0\0\0\
            \x81\xca\0\x04\x01\x02\x03\x04\x01\x08vodserve\0\0"
    );
    let later = unit_report(&IDENTITY, PICTURE, &UNIT, 7, 0x0102_0304);
    let want = Report {
        ssrc: 0x0102_0304,
        time: 0x0000_0004_cccc_cccc,
        timestamp: 432_000,
        packets: 7,
        octets: 0x0102_0304,
    };
    assert!(rt; later == want);
    assert!(rt;
        write_report(&want)
            == *b"\x80\xc8\0\x06\x01\x02\x03\x04\0\0\0\x04\xcc\xcc\xcc\xcc\0\x06\x97\x80\0\0\0\x07\
            \x01\x02\x03\x04\x81\xca\0\x04\x01\x02\x03\x04\x01\x08vodserve\0\0"
    );
}

/// The rules cut headers of 28 bytes and a slice of 1,353 at these places alone.
fn check_rules()
    ensures cutting { AreCutPoints 0 28 (1353 ∷ []) (28 ∷ 1381 ∷ []) }
    ensures one { (cuts : List ℕ) → AreCutPoints 0 28 (1353 ∷ []) cuts → cuts ≡ 28 ∷ 1381 ∷ [] }
    ensures portions { ArePortions 0 (28 ∷ 1381 ∷ []) 1381 }
{
    law_packetization_is_unique();
    law_packets_respect_slices();
}

/// The cut points of a unit by the rules, and those of its packets.
#[test]
fn cuts_by_the_rules(rt: HostRuntime) {
    check_rules();
    check_rows(&rt, rt.alloc(), "28 1353: 0-28S 28-1381MBE");
}

#[test]
fn faults_tell(rt: HostRuntime) {
    let (short, rtp, video) = (HeadFault::Short, HeadFault::NotRtp, HeadFault::NotVideo);
    let text = format!(in rt.alloc(); "{short}|{rtp}|{video}").expect(&rt, "a text");
    let want = "the packet is shorter than its headers|the packet isn't of RTP version 2|\
        the packet isn't MPEG video";
    assert!(rt; text.as_str() == want, "{text}");
}
