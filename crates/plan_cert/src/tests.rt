//! Plans and certificates by their rows, each with what is to be sent, written and read of it.

use super::*;
use std::alloc::{AllocError, Global};
use std::process::Abort;
use std::test::Fail;
use vod_base::{MAX_BYTES, MAX_SLOTS};

/// Segments, given as pairs of slots and bytes.
fn segments_of(alloc: Global, pairs: &[(u64, u64)]) -> Result<Vec<Segment>, AllocError> {
    let mut segments = Vec::new(alloc);
    for &(slots, bytes) in pairs {
        segments.push(Segment { slots, bytes })?;
    }
    Ok(segments)
}

fn plan_of(rt: &impl Abort, alloc: Global, pairs: &[(u64, u64)]) -> Result<Plan, AllocError> {
    let segments = segments_of(alloc, pairs)?;
    assert!(rt; Plan::is_allowed(segments.as_slice()));
    Ok(Plan::new(segments))
}

/// What a plan sends in each slot, and past its end.
fn sends(rt: &impl Abort, plan: &Plan, want: &[u64], text: &str) {
    let mut sum = 0_u64;
    for (slot, bytes) in want.iter().enumerate() {
        let slot = slot as u64;
        sum = sum.saturating_add(*bytes);
        let sent = (plan.slot_bytes(slot), plan.sum_at(slot));
        assert_eq!(rt; sent, (*bytes, sum), "slot {slot} of {text}");
    }
    let slots = want.len() as u64;
    let past = (plan.slot_bytes(slots), plan.sum_at(u64::MAX));
    assert_eq!(rt; past, (0, sum), "past the end of {text}");
    assert_eq!(rt;
        (plan.slots(), plan.bytes()),
        (slots, sum),
        "sums of {text}"
    );
}

/// A cursor over a copy returns what the plan sends, forwards and then from the first slot again.
fn follows(rt: &impl Abort, copy: Plan, plan: &Plan, text: &str) {
    let mut cursor = PlanCursor::new(copy);
    for again in [false, true] {
        for slot in 0..plan.slots() {
            let told = (cursor.slot_bytes(slot), cursor.sum_at(slot));
            let want = (plan.slot_bytes(slot), plan.sum_at(slot));
            assert_eq!(rt; told, want, "slot {slot} of {text}, again: {again}");
        }
        assert_eq!(rt;
            cursor.sum_at(u64::MAX),
            plan.bytes(),
            "past the end of {text}"
        );
    }
    assert_eq!(rt;
        cursor.into_plan().segments(),
        plan.segments(),
        "plan of {text}"
    );
}

/// A plan of these segments: what it sends in each slot, its text, and a cursor over it.
fn sends_and_writes(
    rt: &impl Abort,
    alloc: Global,
    pairs: &[(u64, u64)],
    want: &[u64],
    text: &str,
) -> Result<(), Fail> {
    let plan = plan_of(rt, alloc, pairs)?;
    sends(rt, &plan, want, text);
    let copy = plan.copy()?;
    let written = write_cert(alloc, &copy)?;
    assert_eq!(rt; written.as_slice(), text.as_bytes());
    follows(rt, copy, &plan, text);
    Ok(())
}

/// Plans worked out by hand: the segments, the slots, and the text.
#[test]
fn plans_send_and_write(rt: HostRuntime) -> Result<(), Fail> {
    let rows: [(&[(u64, u64)], &[u64], &str); 7] = [
        (
            &[(5, 50)],
            &[10, 10, 10, 10, 10],
            "smooth 1\nslots 5\nbytes 50\nsegment 5 50\nend\n",
        ),
        (
            &[(2, 10), (2, 2)],
            &[5, 5, 1, 1],
            "smooth 1\nslots 4\nbytes 12\nsegment 2 10\nsegment 2 2\nend\n",
        ),
        (
            &[(3, 7)],
            &[2, 2, 3],
            "smooth 1\nslots 3\nbytes 7\nsegment 3 7\nend\n",
        ),
        (
            &[(5, 10), (1, 6)],
            &[2, 2, 2, 2, 2, 6],
            "smooth 1\nslots 6\nbytes 16\nsegment 5 10\nsegment 1 6\nend\n",
        ),
        (
            &[(3, 9), (1, 1)],
            &[3, 3, 3, 1],
            "smooth 1\nslots 4\nbytes 10\nsegment 3 9\nsegment 1 1\nend\n",
        ),
        (
            &[(2, 12)],
            &[6, 6],
            "smooth 1\nslots 2\nbytes 12\nsegment 2 12\nend\n",
        ),
        (&[], &[], "smooth 1\nslots 0\nbytes 0\nend\n"),
    ];
    for (pairs, want, text) in rows {
        sends_and_writes(&rt, rt.alloc(), pairs, want, text)?;
    }
    Ok(())
}

#[test]
fn knows_plans(rt: HostRuntime) {
    let most = Segment {
        slots: MAX_SLOTS,
        bytes: MAX_BYTES,
    };
    let one = Segment { slots: 1, bytes: 0 };
    let byte = Segment {
        slots: 999_999,
        bytes: 4_398_046_511_105,
    };
    let none = Segment { slots: 0, bytes: 5 };
    assert!(rt; Plan::is_allowed(&[]));
    assert!(rt; Plan::is_allowed(&[most]));
    assert!(rt; !Plan::is_allowed(&[most, one]));
    assert!(rt; !Plan::is_allowed(&[one, byte]));
    assert!(rt; !Plan::is_allowed(&[one, none]));
}

/// A certificate's text, with its two sums and its segments.
type Reading<'a> = (&'a str, (u64, u64), &'a [(u64, u64)]);

#[test]
fn reads_certificates(rt: HostRuntime) -> Result<(), Fail> {
    let rows: [Reading; 4] = [
        (
            "smooth 1\nslots 4\nbytes 12\nsegment 2 10\nsegment 2 2\nend\n",
            (4, 12),
            &[(2, 10), (2, 2)],
        ),
        (
            "smooth 1\nslots 3\nbytes 7\nsegment 3 7\nend\n",
            (3, 7),
            &[(3, 7)],
        ),
        ("smooth 1\nslots 0\nbytes 0\nend\n", (0, 0), &[]),
        (
            "smooth 1\nslots 0\nbytes 4398046511104\nsegment 0 4398046511104\nend\n",
            (0, 4_398_046_511_104),
            &[(0, 4_398_046_511_104)],
        ),
    ];
    for (text, sums, pairs) in rows {
        let want = CertText {
            slots: sums.0,
            bytes: sums.1,
            segments: segments_of(rt.alloc(), pairs)?,
        };
        assert_eq!(rt; read_cert(rt.alloc(), text.as_bytes())?, want, "{text}");
    }
    Ok(())
}

/// A text is refused, and this is its bad line.
fn names_the_line(rt: &impl Abort, alloc: Global, text: &str, line: u64) {
    let refusal = read_cert(alloc, text.as_bytes()).err();
    assert_eq!(rt;
        refusal,
        Some(CertRead::BadCert { line }),
        "refusal of {text}"
    );
}

#[test]
fn names_the_bad_line(rt: HostRuntime) {
    let rows: [(&str, u64); 24] = [
        ("", 1),
        ("smooth 1", 1),
        ("smooth 1\n", 2),
        ("smooth 1\r\nslots 0\nbytes 0\nend\n", 1),
        ("smooth 01\nslots 0\nbytes 0\nend\n", 1),
        ("smooth 1\nslots 03\nbytes 7\nsegment 3 7\nend\n", 2),
        ("smooth 1\nslots 3\nbytes\nsegment 3 7\nend\n", 3),
        ("smooth 1\nslots 3\nslots 3\nbytes 7\nsegment 3 7\nend\n", 3),
        (
            "smooth 1\nslots 3\nbytes 4398046511105\nsegment 3 4398046511105\nend\n",
            3,
        ),
        ("smooth 1\nslots 4\nbytes 7\nsegment 3 7\nend\n", 2),
        ("smooth 1\nslots 3\nbytes 8\nsegment 3 7\nend\n", 3),
        ("smooth 1\nslots 4\nbytes 8\nsegment 3 7\nend\n", 2),
        // after a head
        ("smooth 1\nslots 3\nbytes 7\nsegment 3 7\n", 5),
        ("smooth 1\nslots 3\nbytes 7\nsegment 03 7\nend\n", 4),
        ("smooth 1\nslots 3\nbytes 7\nsegment 3 07\nend\n", 4),
        ("smooth 1\nslots 3\nbytes 7\nsegment 3  7\nend\n", 4),
        ("smooth 1\nslots 3\nbytes 7\nsegment 3 7 \nend\n", 4),
        ("smooth 1\nslots 3\nbytes 7\nsegment 3\nend\n", 4),
        ("smooth 1\nslots 3\nbytes 7\n\nsegment 3 7\nend\n", 4),
        ("smooth 1\nslots 3\nbytes 7\nsegment 3 7\nend", 5),
        ("smooth 1\nslots 3\nbytes 7\nsegment 3 7\nend\nx", 6),
        ("smooth 1\nslots 3\nbytes 7\nsegment 3 7\nend\n\n", 6),
        ("smooth 1\nslots 3\nbytes 7\nsegment 3 7\nend\nend\n", 6),
        ("smooth 1\nslots 4\nbytes 8\nsegment 3 x\nend\n", 4),
    ];
    for (text, line) in rows {
        names_the_line(&rt, rt.alloc(), text, line);
    }
}
