//! The notes of a connection, in the order in which they were put.

use super::*;
use admission::Answer;
use plan_cert::{Plan, Segment};
use std::alloc::Global;
use std::process::Abort;
use std::test::Fail;

/// A plan of three slots of ten bytes.
fn short_plan(rt: &impl Abort, alloc: Global) -> Result<Plan, Fail> {
    let segments = [Segment {
        slots: 3,
        bytes: 30,
    }];
    assert!(rt; Plan::is_allowed(&segments));
    Ok(Plan::new(Vec::from_slice(alloc, &segments)?))
}

#[test]
fn hands_out_receipts_in_order(rt: HostRuntime) -> Result<(), Fail> {
    let entry = Receipt::Entry {
        place: 6,
        answer: Answer::Halted,
    };
    let full = Receipt::Full {
        entries: 7,
        live: 1,
    };
    let mut log = Records::new(rt.alloc())?;
    log.reserve_receipts(2)?;
    log.note(entry);
    log.note(full);
    let notes = log.into_notes(3);
    assert_eq!(rt; notes.receipts.as_slice(), [entry, full].as_slice());
    assert_eq!(rt; notes.late, 3);
    Ok(())
}

#[test]
fn notes_a_play_and_an_offer(rt: HostRuntime) -> Result<(), Fail> {
    let plan = short_plan(&rt, rt.alloc())?;
    let mut log = Records::new(rt.alloc())?;
    let (own, _paced) = log.plans_with_room(RESERVED_LOOKS, &plan)?;
    log.note_play(PlayNote {
        place: 0,
        film: 1,
        first_unit: 0,
        end_unit: 9,
        from_unit: 0,
        buffer: 1_000,
        delay: 25,
        played: 0,
        sent_before: 0,
        plan: own,
        start: 4,
        keep: 30,
    });
    let offers = log.offers_with_room(rt.alloc(), 3)?;
    log.note_offer(OfferNote {
        seen: 2,
        first: 5,
        plan,
        offers,
    });
    let notes = log.into_notes(0);
    assert_eq!(rt; notes.plays.len(), 1);
    assert_eq!(rt; notes.plays[0].plan.bytes(), 30);
    assert_eq!(rt; notes.offers.len(), 1);
    assert_eq!(rt; notes.offers[0].offers.wait(), 3);
    Ok(())
}

#[test]
fn prints_the_lists(rt: HostRuntime) -> Result<(), Fail> {
    let mut log = Records::new(rt.alloc())?;
    log.note(Receipt::Full {
        entries: 7,
        live: 1,
    });
    let text = format!(in rt.alloc(); "{log:?}")?;
    let want = "Records { receipts: [Full { entries: 7, live: 1 }], plays: [], offers: [] }";
    assert_eq!(rt; text.as_str(), want);
    Ok(())
}
