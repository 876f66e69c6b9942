//! Profiles, and calendars on which plays are booked, stopped early and forgotten, by rows.

ghost use Rattle.std.specs.Prelude.{◌+◌, ◌<◌, ◌≤◌, ◌^◌, ℕ, IsTrue};
ghost use Rattle.plan_cert.specs.PlanSlots.{total_slots};
ghost use Rattle.slot_calendar.specs.Plays.{released_at};
ghost use Rattle.slot_calendar.specs.Calendars.{booked_at};

use super::*;
use plan_cert::{Plan, Segment};
use std::alloc::{AllocError, Global};
use std::process::Abort;
use std::test::Fail;

fn plan_of(rt: &impl Abort, alloc: Global, pairs: &[(u64, u64)]) -> Result<Plan, AllocError> {
    let mut segments = Vec::new(alloc);
    for &(slots, bytes) in pairs {
        segments.push(Segment { slots, bytes })?;
    }
    assert!(rt; Plan::is_allowed(segments.as_slice()));
    Ok(Plan::new(segments))
}

fn steps_of(alloc: Global, pairs: &[(u64, u64)]) -> Result<Vec<CapStep>, AllocError> {
    let mut steps = Vec::new(alloc);
    for &(from, bytes) in pairs {
        steps.push(CapStep { from, bytes })?;
    }
    Ok(steps)
}

/// Whether each slot from now on has as much booked as the plan has there after its first `keep`
/// bytes.
fn may_release(calendar: &Calendar, start: u64, plan: &Plan, keep: u64) -> bool
    requires small { start ≤ 2 ^ 63 }
    requires few { total_slots plan.now ≤ 1000000 }
    ensures { IsTrue result → (t : ℕ) → calendar.now.first ≤ t →
        released_at plan.now start keep t ≤ booked_at calendar.now t }
{
    let mut before = 0;
    for slot in 0..plan.slots() {
        let over = plan.sum_at(slot).saturating_sub(keep);
        let asked = over.saturating_sub(before);
        if start + slot >= calendar.now() && asked > calendar.booked(start + slot) {
            return false;
        }
        before = over;
    }
    true
}

/// What a calendar is asked, and what it answers.
#[derive(Clone, Copy)]
enum Row<'a> {
    // a plan from a slot on: it is booked, or has this first slot without room, with the bytes
    // booked and asked there
    Play(u64, &'a [(u64, u64)], Option<(u64, u64, u64)>),
    // a plan that was booked from a slot on keeps its first bytes
    Cut(u64, &'a [(u64, u64)], u64),
    // slots before this one are forgotten
    Advance(u64),
    // the bytes booked in a slot
    Booked(u64, u64),
}

fn play(rt: &impl Abort, calendar: &mut Calendar, start: u64, plan: &Plan) -> Option<Overflow> {
    assert!(rt; start > calendar.now() && start <= 1 << 62);
    let over = calendar.first_overflow(start, plan);
    if over.is_none() {
        assert!(rt; plan.slots() <= 1_000_000);
        assert!(rt; start + plan.slots() <= calendar.now() + RING_SLOTS);
        calendar.book(start, plan);
    }
    over
}

fn cut(rt: &impl Abort, calendar: &mut Calendar, start: u64, plan: &Plan, keep: u64) {
    assert!(rt; start <= 1 << 62 && keep <= plan.bytes() && plan.slots() <= 1_000_000);
    assert!(rt; may_release(calendar, start, plan, keep));
    calendar.release(start, plan, keep);
}

fn profile_of(rt: &impl Abort, alloc: Global, pairs: &[(u64, u64)]) -> Result<Profile, AllocError> {
    let steps = steps_of(alloc, pairs)?;
    assert!(rt; Profile::is_allowed(steps.as_slice()));
    Ok(Profile::new(steps))
}

fn advance(rt: &impl Abort, calendar: &mut Calendar, now: u64) {
    assert!(rt; calendar.now() <= now && now <= 1 << 62);
    calendar.advance(now);
}

fn booked(rt: &impl Abort, calendar: &Calendar, slot: u64) -> u64 {
    assert!(rt; calendar.now() <= slot);
    calendar.booked(slot)
}

fn ask(
    rt: &impl Abort,
    alloc: Global,
    calendar: &mut Calendar,
    row: Row<'_>,
) -> Result<(), AllocError> {
    match row {
        Row::Play(start, pairs, want) => {
            let over = play(rt, calendar, start, &plan_of(rt, alloc, pairs)?);
            let told = over.map(|over| (over.slot, over.booked, over.asked));
            assert_eq!(rt; told, want, "a play at {start}");
        }
        Row::Cut(start, pairs, keep) => {
            cut(rt, calendar, start, &plan_of(rt, alloc, pairs)?, keep);
        }
        Row::Advance(now) => advance(rt, calendar, now),
        Row::Booked(slot, want) => {
            assert_eq!(rt; booked(rt, calendar, slot), want, "slot {slot}");
        }
    }
    Ok(())
}

/// Asks a calendar of this capacity in turn.
fn run(
    rt: &impl Abort,
    alloc: Global,
    capacity: &[(u64, u64)],
    rows: &[Row<'_>],
) -> Result<(), Fail> {
    let mut calendar = Calendar::new(alloc, profile_of(rt, alloc, capacity)?)?;
    assert_eq!(rt; calendar.profile().steps().len(), capacity.len());
    for row in rows {
        ask(rt, alloc, &mut calendar, *row)?;
    }
    Ok(())
}

#[test]
fn knows_profiles(rt: HostRuntime) -> Result<(), Fail> {
    let rows: [(&[(u64, u64)], bool); 8] = [
        (&[], false),
        (&[(0, 0)], true),
        (&[(1, 5)], false),
        (&[(0, 5), (3, 3), (3, 4)], false),
        (&[(0, 5), (4, 3), (3, 4)], false),
        (&[(0, 1 << 42), (u64::MAX, 1)], true),
        (&[(0, 4_398_046_511_105)], false),
        (&[(0, 1), (2, 4_398_046_511_105)], false),
    ];
    for (pairs, want) in rows {
        let steps = steps_of(rt.alloc(), pairs)?;
        assert_eq!(rt; Profile::is_allowed(steps.as_slice()), want, "{steps:?}");
    }
    Ok(())
}

/// A profile has at most 64 steps.
#[test]
fn counts_steps(rt: HostRuntime) -> Result<(), Fail> {
    let mut many = steps_of(rt.alloc(), &[])?;
    for from in 0..64 {
        many.push(CapStep { from, bytes: 1 })?;
        assert!(rt; Profile::is_allowed(many.as_slice()));
    }
    many.push(CapStep { from: 64, bytes: 1 })?;
    assert!(rt; !Profile::is_allowed(many.as_slice()));
    Ok(())
}

#[test]
fn tells_capacities(rt: HostRuntime) -> Result<(), Fail> {
    let profile = profile_of(&rt, rt.alloc(), &[(0, 5), (3, 3), (10, 7), (11, 0)])?;
    for (slot, want) in [(0, 5), (2, 5), (3, 3), (9, 3), (10, 7), (u64::MAX, 0)] {
        assert_eq!(rt; profile.at(slot), want, "slot {slot}");
    }
    let flat = Profile::flat(rt.alloc(), 8)?;
    assert_eq!(rt; flat.at(u64::MAX), 8);
    let want = "Profile { steps: [CapStep { from: 0, bytes: 8 }] }";
    assert_eq!(rt; format!(in rt.alloc(); "{flat:?}")?.as_str(), want);
    Ok(())
}

/// A capacity of 5, and of 3 from slot 3 on. The plan of 7 bytes sends 2, 2 and 3.
#[test]
fn books_and_cuts(rt: HostRuntime) -> Result<(), Fail> {
    let plan: &[(u64, u64)] = &[(3, 7)];
    let rows = [
        Row::Play(1, plan, None),
        Row::Booked(0, 0),
        Row::Booked(1, 2),
        Row::Booked(3, 3),
        Row::Booked(4, 0),
        Row::Booked(u64::MAX, 0),
        Row::Play(1, plan, Some((3, 3, 3))),
        Row::Advance(1),
        Row::Play(2, plan, Some((3, 3, 2))),
        Row::Play(4, plan, None),
        Row::Play(1 << 62, &[(2, 3), (1, 4)], Some(((1 << 62) + 2, 0, 4))),
        // in mid-slot, and of what is past nothing
        Row::Cut(1, plan, 3),
        Row::Booked(1, 2),
        Row::Booked(2, 1),
        Row::Booked(3, 0),
        Row::Advance(6),
        Row::Cut(4, plan, 1),
        Row::Booked(6, 0),
    ];
    run(&rt, rt.alloc(), &[(0, 5), (3, 3)], &rows)
}

/// Plans across the end of the ring's places, and jumps of now past all that is booked.
#[test]
fn comes_round(rt: HostRuntime) -> Result<(), Fail> {
    let plan: &[(u64, u64)] = &[(4, 10)];
    let rows = [
        Row::Advance(1_048_570),
        Row::Play(1_048_574, plan, None),
        Row::Booked(1_048_573, 0),
        Row::Booked(1_048_575, 3),
        Row::Booked(1_048_576, 2),
        Row::Booked(1_048_577, 3),
        Row::Booked(2_097_150, 0),
        Row::Play(1_048_576, plan, Some((1_048_577, 3, 3))),
        Row::Advance(1_048_577),
        Row::Booked(2_097_151, 0),
        Row::Play(2_097_149, plan, None),
        Row::Cut(1_048_574, plan, 8),
        Row::Booked(1_048_577, 1),
        Row::Advance(2_097_150),
        Row::Booked(2_097_150, 3),
        Row::Advance(3_145_725),
        Row::Booked(3_145_725, 0),
        Row::Advance(1 << 62),
        Row::Booked((1 << 62) + 1_048_575, 0),
    ];
    run(&rt, rt.alloc(), &[(0, 4)], &rows)
}

/// A plan of 5 bytes a slot over 1,000,000 slots, asked 2,000 times beside one whose last slot
/// alone has no room: only where blocks are passed over does this end in time.
#[test]
fn passes_blocks(rt: HostRuntime) -> Result<(), Fail> {
    let alloc = rt.alloc();
    let mut calendar = Calendar::new(alloc, Profile::flat(alloc, 10)?)?;
    let plan = plan_of(&rt, alloc, &[(1_000_000, 5_000_000)])?;
    assert_eq!(rt; play(&rt, &mut calendar, 1, &plan), None);
    let asked = plan_of(&rt, alloc, &[(999_999, 4_999_995), (1, 6)])?;
    let over = Overflow {
        slot: 1_000_000,
        booked: 5,
        asked: 6,
    };
    for _ in 0..2000 {
        assert_eq!(rt; play(&rt, &mut calendar, 1, &asked), Some(over));
    }
    cut(&rt, &mut calendar, 1, &plan, 4_999_999);
    assert_eq!(rt; play(&rt, &mut calendar, 1, &asked), None);
    assert_eq!(rt;
        format!(in alloc; "{calendar:?}")?.as_str(),
        "Calendar { now: 0, .. }"
    );
    Ok(())
}
