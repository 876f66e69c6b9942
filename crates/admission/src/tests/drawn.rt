//! Events drawn from a number, at a book and at a plain one.

use super::plain::PlainBook;
use super::{book_of, booked_ahead, may_halt, plan_of};
use crate::entries::{Answer, Full, Noted};
use crate::{Book, MAX_ENTRIES};
use std::alloc::Global;
use std::process::Abort;
use std::test::Fail;

#[derive(Clone, Copy)]
struct Counts {
    admitted: u64,
    overflows: u64,
    halts: u64,
    looks: u64,
    full: u64,
}

fn count(counts: &mut Counts, told: Result<Noted, Full>) {
    let place = match told {
        Ok(noted) => match noted.answer {
            Answer::Admitted { .. } => &mut counts.admitted,
            Answer::Overflow { .. } => &mut counts.overflows,
            Answer::Halted => &mut counts.halts,
            Answer::Looked { .. } => &mut counts.looks,
        },
        Err(_) => &mut counts.full,
    };
    *place = place.saturating_add(1);
}

/// Numbers drawn by a linear congruence.
#[derive(Drop)]
struct Draws(u64);

impl Draws {
    // a number below `end`, or 0
    fn draw(&mut self, end: u32) -> u32 {
        let next = self
            .0
            .wrapping_mul(6_364_136_223_846_793_005)
            .wrapping_add(1_442_695_040_888_963_407);
        self.0 = next;
        (next >> 33) as u32 % end.max(1)
    }
}

fn below(draws: &mut Draws, end: u32) -> u64 {
    u64::from(draws.draw(end))
}

/// 1 to 3 segments of 1 to 6 slots and up to 9 bytes a slot.
fn drawn_pairs(alloc: Global, draws: &mut Draws) -> Result<Vec<(u64, u64)>, Fail> {
    let mut pairs = Vec::new(alloc);
    for _ in 0..below(draws, 3).saturating_add(1) {
        let slots = below(draws, 6).saturating_add(1);
        pairs.push((slots, below(draws, 54)))?;
    }
    Ok(pairs)
}

/// Mostly a slot soon after now, at times one that is past.
fn drawn_slot(draws: &mut Draws, now: u64) -> u64 {
    let ahead = now.saturating_add(below(draws, 5));
    ahead.saturating_sub(below(draws, 4))
}

fn play(
    rt: &impl Abort,
    alloc: Global,
    book: &mut Book,
    plain: &mut PlainBook,
    draws: &mut Draws,
) -> Result<Result<Noted, Full>, Fail> {
    let pairs = drawn_pairs(alloc, draws)?;
    let slot = drawn_slot(draws, plain.now);
    let want = plain.play(alloc, slot, pairs.as_slice())?;
    let plan = plan_of(rt, alloc, pairs.as_slice())?;
    let told = match book.play(draws.draw(9), slot, plan) {
        Ok(noted) => Ok(noted),
        Err(refused) => {
            assert_eq!(rt; refused.plan.segments().len(), pairs.len());
            Err(refused.full)
        }
    };
    assert_eq!(rt; told, want, "play at {slot}");
    Ok(told)
}

/// Halts a drawn play, if it is open.
fn halt(
    rt: &impl Abort,
    book: &mut Book,
    plain: &mut PlainBook,
    draws: &mut Draws,
) -> Option<Result<Noted, Full>> {
    let count = plain.plays.len().min(40);
    if count == 0 {
        return None;
    }
    let back = below(draws, count as u32) as usize;
    assert!(rt; back < plain.plays.len());
    let played = &plain.plays[plain.plays.len() - 1 - back];
    if !played.open {
        return None;
    }
    let keep = below(draws, 170).min(played.bytes());
    let number = played.number;
    assert!(rt; may_halt(book, number, keep));
    let told = book.halt(draws.draw(9), number, keep);
    assert_eq!(rt; told, plain.halt(number, keep), "halt of {number}");
    Some(Ok(told))
}

fn look(
    rt: &impl Abort,
    book: &mut Book,
    plain: &mut PlainBook,
    draws: &mut Draws,
) -> Result<Noted, Full> {
    let slot = drawn_slot(draws, plain.now).saturating_add(below(draws, 12));
    let told = book.look(draws.draw(9), slot);
    assert_eq!(rt; told, plain.look(slot), "look at {slot}");
    told
}

/// Draws events, and compares every answer; then what is booked from now on, and the number of
/// entries.
fn follow(
    rt: &impl Abort,
    alloc: Global,
    seed: u64,
    events: u32,
    steps: &[(u64, u64)],
    limit: u64,
) -> Result<Counts, Fail> {
    let mut book = book_of(rt, alloc, steps, limit)?;
    let mut plain = PlainBook {
        steps,
        limit,
        entries: 0,
        now: 0,
        plays: Vec::new(alloc),
    };
    let mut counts = Counts {
        admitted: 0,
        overflows: 0,
        halts: 0,
        looks: 0,
        full: 0,
    };
    let mut draws = Draws(seed);
    for _ in 0..events {
        let told = match draws.draw(10) {
            0..=5 => Some(play(rt, alloc, &mut book, &mut plain, &mut draws)?),
            6 | 7 => halt(rt, &mut book, &mut plain, &mut draws),
            _ => Some(look(rt, &mut book, &mut plain, &mut draws)),
        };
        if let Some(told) = told {
            count(&mut counts, told);
        }
    }
    assert_eq!(rt; book.calendar().now(), plain.now);
    for ahead in 0..60 {
        let slot = plain.now.saturating_add(ahead);
        assert_eq!(rt;
            booked_ahead(rt, &book, ahead),
            plain.booked(slot),
            "slot {slot}"
        );
    }
    assert_eq!(rt; book.entries().len() as u64, plain.entries);
    Ok(counts)
}

#[test]
fn follows_a_plain_book(rt: HostRuntime) -> Result<(), Fail> {
    let steps = [(0, 40), (60, 15), (130, 0), (150, 60), (300, 25)];
    let counts = follow(&rt, rt.alloc(), 7, 700, steps.as_slice(), MAX_ENTRIES)?;
    assert!(rt; counts.admitted > 50 && counts.overflows > 100);
    assert!(rt; counts.halts > 30 && counts.looks > 100 && counts.full == 0);
    let counts = follow(&rt, rt.alloc(), 8, 300, steps.as_slice(), 50)?;
    assert!(rt; counts.admitted > 5 && counts.halts > 5 && counts.full > 100);
    Ok(())
}
