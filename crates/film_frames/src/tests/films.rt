//! Films A, B and C: film A is a sequence header, a group header, an I picture and one slice; film
//! B is film A, a P picture and one slice; film C is film B, a group header, an I picture and one
//! slice. Expected bytes are worked out by hand from RFC 2326 section 10.12, RFC 3550 and RFC 2250.

use crate::laws::{
    law_ended_pieces_are_counted, law_frame_and_report_sizes_are_exact,
    law_payloads_are_film_bytes, law_reports_count_frames_sent_before,
    law_sequence_numbers_are_consecutive, law_wire_size_of_film_is_bounded,
};
use crate::{Frames, Stored, Track};
use mpeg_scan::scan;
use rtp_pack::Identity;
use std::alloc::Global;
use std::process::Abort;

/// Names of parts of films and packets, and their bytes in hexadecimal digits. `REPORT_A` is the
/// report of film A's unit in a session's first run.
const PARTS: &str = "HEAD_A 000001b316012013ffffe0a0 000001b800080040 00000100000ffff8|\
    SLICE 000001011234|\
    UNIT_B 000001000057fff880 000001011234|\
    UNIT_C 000001b800080040 00000100000ffff8 000001011234|\
    REPORT_A 24010030 80c80006 01020304 00000000 00000000 00000000 00000000 00000000 \
    81ca0004 01020304 0108766f64736572 76650000";

/// The identity of a session's first run, and one whose numbers are about to wrap.
const FIRST: Identity = Identity {
    channel: 0,
    control: 1,
    ssrc: 0x0102_0304,
    sequence: 1,
    timestamp: 0,
    packets: 0,
    octets: 0,
};

const WRAPPING: Identity = Identity {
    channel: 2,
    control: 3,
    ssrc: 0xa0b0_c0d0,
    sequence: 0xffff,
    timestamp: 0xffff_ffff,
    packets: 0xffff_ffff,
    octets: 0x10,
};

/// Appends the bytes of hexadecimal digits, blanks between them passed over.
fn put_hex(bytes: &mut Vec<u8>, text: &str) -> Option<()> {
    let mut high = None;
    for digit in text.bytes() {
        let value = match digit {
            b'0'..=b'9' => digit - b'0',
            b'a'..=b'f' => digit - b'a' + 10,
            _ => continue,
        };
        match high {
            None => high = Some(value),
            Some(first) => {
                bytes.push(16 * (first & 15) + (value & 15)).ok()?;
                high = None;
            }
        }
    }
    Some(())
}

/// The digits that a word stands for: those of the part of its name, or its own.
fn digits_of(word: &str) -> &str {
    for part in PARTS.split('|') {
        if let Some((name, digits)) = part.split_once(' ')
            && name == word
        {
            return digits;
        }
    }
    word
}

/// The bytes of a text of digits and names; `ff*29` stands for 29 bytes.
fn joined(alloc: Global, text: &str) -> Option<Vec<u8>> {
    let mut bytes = Vec::new(alloc);
    for word in text.split(' ') {
        let (word, times) = match word.split_once('*') {
            Some((word, times)) => (word, times.parse().ok()?),
            None => (word, 1u16),
        };
        for _ in 0..times {
            put_hex(&mut bytes, digits_of(word))?;
        }
    }
    Some(bytes)
}

/// A film of the bytes of this text, with its table.
fn stored(alloc: Global, text: &str) -> Option<Stored> {
    let film = scan(alloc, joined(alloc, text)?).ok()?;
    let name = String::from_str(alloc, "film.mpg").ok()?;
    Stored::new(alloc, name, film).ok()
}

/// The sizes of the film's units on the wire.
fn sizes(alloc: Global, text: &str) -> Option<String> {
    let stored = stored(alloc, text)?;
    let mut sizes = Vec::new(alloc);
    for unit in 0..stored.film.units.len() {
        sizes.push(stored.wire_size(unit)).ok()?;
    }
    format!(in alloc; "{sizes:?}").ok()
}

#[test]
fn sizes_units(rt: HostRuntime) {
    let rows = "HEAD_A SLICE=[106]|HEAD_A SLICE UNIT_B=[106, 35]|\
        HEAD_A 00000101 ff*1377=[1501]|HEAD_A 00000101 ff*1366=[1490]";
    for row in rows.split('|') {
        let (film, want) = row.split_once('=').expect(&rt, row);
        let sizes = sizes(rt.alloc(), film).expect(&rt, row);
        assert!(rt; sizes.as_str() == want, "{row}: {sizes}");
    }
}

/// A piece's end, and the frames and their octets up to it.
type Ended = (u64, u64, u64);

/// What is wrong with a run at a place, where its bytes and the ends of its pieces are these.
fn wrong_at(run: &Frames<'_>, at: u64, want: &[u8], ends: &[Ended]) -> Option<&'static str> {
    let mut before = (0, 0);
    let mut boundary = 0;
    let mut next = 0;
    for (end, frames, octets) in ends {
        if *end <= at {
            before = (*frames, *octets);
        }
        if boundary < at {
            boundary = *end;
        }
        if next <= at {
            next = *end;
        }
    }
    if (run.frames_before(at), run.octets_before(at)) != before {
        return Some("frames or octets before");
    }
    let total = run.total();
    if at <= total && run.boundary_after(at) != boundary {
        return Some("boundary");
    }
    if at >= total {
        return None;
    }
    let mut head = [0xee; 52];
    let part = run.part(at, &mut head);
    let head = &head[part.head_from..part.head_to];
    let Some(want) = want.get(at as usize..next as usize) else {
        return Some("end");
    };
    if want.get(..head.len()) != Some(head) || want.get(head.len()..) != Some(part.payload) {
        return Some("bytes");
    }
    None
}

/// Checks the run of a film's units from one on to another: its bytes and the ends of its pieces.
fn check_run(rt: &impl Abort, run: &Frames<'_>, want: &[u8], ends: &[Ended]) {
    let total = want.len() as u64;
    assert!(rt; run.total() == total);
    for at in 0..=total {
        if let Some(wrong) = wrong_at(run, at, want, ends) {
            rt.panic(format_args!("{wrong} at {at}"));
        }
    }
    assert!(rt; wrong_at(run, u64::MAX, want, ends).is_none());
}

/// The run of a film's units from one on to another.
fn run_of<'a>(
    stored: &'a Stored,
    first_unit: usize,
    end_unit: usize,
    identity: Identity,
) -> Option<Frames<'a>> {
    if first_unit >= end_unit || end_unit > stored.film.units.len() {
        return None;
    }
    law_payloads_are_film_bytes();
    law_sequence_numbers_are_consecutive();
    law_reports_count_frames_sent_before();
    law_frame_and_report_sizes_are_exact();
    law_ended_pieces_are_counted();
    Some(Frames::new(stored, first_unit, end_unit, identity))
}

#[test]
fn sends_whole_films(rt: HostRuntime) {
    let alloc = rt.alloc();
    let film_c = stored(alloc, "HEAD_A SLICE UNIT_B UNIT_C").expect(&rt, "a film");
    law_wire_size_of_film_is_bounded();
    let want = "REPORT_A 24000032 80a00001 00000000 01020304 00003900 HEAD_A SLICE \
        2400001f 80a00002 00000e10 01020304 00011a01 UNIT_B \
        24010030 80c80006 01020304 00000000 147ae147 00001c20 00000002 00000039 \
        81ca0004 01020304 0108766f64736572 76650000 \
        24000026 80a00003 00001c20 01020304 00001900 UNIT_C";
    let want = joined(alloc, want).expect(&rt, "bytes");
    let ends = &[
        (52, 0, 0),
        (106, 1, 38),
        (141, 2, 57),
        (193, 2, 57),
        (235, 3, 83),
    ];
    let film_b = run_of(&film_c, 0, 2, FIRST).expect(&rt, "a run");
    check_run(
        &rt,
        &film_b,
        want.get(..141).expect(&rt, "film B"),
        &ends[..3],
    );
    let whole = run_of(&film_c, 0, 3, FIRST).expect(&rt, "a run");
    check_run(&rt, &whole, &want, ends);
}

#[test]
fn sends_a_slice_in_fragments(rt: HostRuntime) {
    let alloc = rt.alloc();
    let film = stored(alloc, "HEAD_A 00000101 ff*1377").expect(&rt, "a film");
    let want = "REPORT_A 24000574 80200001 00000000 01020304 00003100 HEAD_A 00000101 ff*1348 \
        2400002d 80a00002 00000000 01020304 00000900 ff*29";
    let want = joined(alloc, want).expect(&rt, "bytes");
    let run = run_of(&film, 0, 1, FIRST).expect(&rt, "a run");
    check_run(
        &rt,
        &run,
        &want,
        &[(52, 0, 0), (1452, 1, 1384), (1501, 2, 1417)],
    );
    let text = format!(in alloc; "{:?} {:?} {:?}", film, film.table, run).expect(&rt, "a text");
    assert!(rt; text.as_str() == "Stored { .. } FrameTable { .. } Frames { .. }");
}

#[test]
fn sends_from_the_middle_and_wraps(rt: HostRuntime) {
    let alloc = rt.alloc();
    let film_c = stored(alloc, "HEAD_A SLICE UNIT_B UNIT_C").expect(&rt, "a film");
    let want = "2402001f 80a0ffff 00000e0f a0b0c0d0 00011a01 UNIT_B \
        24030030 80c80006 a0b0c0d0 00000000 147ae147 00001c1f 00000000 00000023 \
        81ca0004 a0b0c0d0 0108766f64736572 76650000 \
        24020026 80a00000 00001c1f a0b0c0d0 00001900 UNIT_C";
    let want = joined(alloc, want).expect(&rt, "bytes");
    let run = run_of(&film_c, 1, 3, WRAPPING).expect(&rt, "a run");
    check_run(&rt, &run, &want, &[(35, 1, 19), (87, 1, 19), (129, 2, 45)]);
    let want = "24030030 80c80006 a0b0c0d0 00000000 147ae147 00001c1f ffffffff 00000010 \
        81ca0004 a0b0c0d0 0108766f64736572 76650000 \
        24020026 80a0ffff 00001c1f a0b0c0d0 00001900 UNIT_C";
    let want = joined(alloc, want).expect(&rt, "bytes");
    let run = run_of(&film_c, 2, 3, WRAPPING).expect(&rt, "a run");
    check_run(&rt, &run, &want, &[(52, 0, 0), (94, 1, 26)]);
}
