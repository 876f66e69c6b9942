//! The least start of a plan on links with bookings, by rows.

use super::*;
use crate::laws::{
    law_offer_covers_past_slots, law_offer_is_unique, law_offered_start_is_earliest,
};
use plan_cert::Segment;
use slot_calendar::{Profile, RING_SLOTS};
use std::process::Abort;
use std::test::Fail;

fn plan_of(rt: &impl Abort, alloc: Global, segments: &[Segment]) -> Result<Plan, Fail> {
    assert!(rt; Plan::is_allowed(segments));
    Ok(Plan::new(Vec::from_slice(alloc, segments)?))
}

/// On a link of this capacity on which the plan is booked from slot 1 on: where it is found from
/// `first` on within a wait, and each earlier start with its overflow's slot, bytes booked and
/// bytes asked.
fn run(
    rt: &impl Abort,
    alloc: Global,
    capacity: u64,
    segments: &[Segment],
    rows: &[(u64, u64, Option<u64>, &[(u64, u64, u64, u64)])],
) -> Result<(), Fail> {
    let plan = plan_of(rt, alloc, segments)?;
    assert!(rt; capacity <= 1 << 42);
    let mut calendar = Calendar::new(alloc, Profile::flat(alloc, capacity)?)?;
    assert!(rt; calendar.now() == 0 && plan.slots() < RING_SLOTS);
    assert!(rt; calendar.first_overflow(1, &plan).is_none());
    calendar.book(1, &plan);
    for (first, wait, start, tried) in rows {
        assert!(rt; *wait <= MAX_WAIT && calendar.now() < *first && *first <= 1 << 62);
        let mut offers = Offers::new(alloc, *wait)?;
        offers.find(&calendar, &plan, *first);
        assert_eq!(rt; (offers.wait(), offers.start()), (*wait, *start));
        let mut told = Vec::new(alloc);
        for Tried { start, over } in offers.tried() {
            told.push((*start, over.slot, over.booked, over.asked))?;
        }
        assert_eq!(rt; told.as_slice(), *tried);
    }
    Ok(())
}

#[test]
fn finds_the_least_start(rt: HostRuntime) -> Result<(), Fail> {
    law_offered_start_is_earliest();
    law_offer_is_unique();
    law_offer_covers_past_slots();
    let segments = [Segment { slots: 3, bytes: 7 }];
    let tried: &[(u64, u64, u64, u64)] = &[(1, 3, 3, 3), (2, 3, 3, 2), (3, 3, 3, 2)];
    let rows = [
        (1, 4, Some(4), tried),
        (1, 2, None, tried),
        (4, 0, Some(4), &[]),
    ];
    run(&rt, rt.alloc(), 4, &segments, &rows)?;
    let segments = [
        Segment {
            slots: 3,
            bytes: 106,
        },
        Segment {
            slots: 1,
            bytes: 35,
        },
    ];
    let rows: [(u64, u64, Option<u64>, &[(u64, u64, u64, u64)]); 1] = [(
        1,
        0,
        None,
        &[(1, 1, 35, 35)],
    )];
    run(&rt, rt.alloc(), 36, &segments, &rows)
}
