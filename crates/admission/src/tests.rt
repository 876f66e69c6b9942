//! Plays, halts and looks of a book, by rows; and drawn ones, against a plain calendar.

ghost use Rattle.std.specs.Prelude.{◌≡◌, ◌≤◌, ◌↔◌, ℕ, List, Some, IsTrue};
ghost use Rattle.plan_cert.specs.declared.Segment.{Segment};
ghost use Rattle.plan_cert.specs.PlanSlots.{total_bytes};
ghost use Rattle.slot_calendar.specs.Plays.{whole_play};
ghost use Rattle.admission.specs.Machine.{CanHalt};
ghost use Rattle.admission.specs.Histories.{Halts, play_admitted, state_after};

mod drawn;
mod plain;

use super::*;
use plan_cert::{Plan, Segment};
use slot_calendar::{CapStep, Profile};
use std::alloc::{AllocError, Global};
use std::process::Abort;
use std::test::Fail;

pub(crate) fn plan_of(
    rt: &impl Abort,
    alloc: Global,
    pairs: &[(u64, u64)],
) -> Result<Plan, AllocError> {
    let mut segments = Vec::new(alloc);
    for &(slots, bytes) in pairs {
        segments.push(Segment { slots, bytes })?;
    }
    assert!(rt; Plan::is_allowed(segments.as_slice()));
    Ok(Plan::new(segments))
}

pub(crate) fn book_of(
    rt: &impl Abort,
    alloc: Global,
    pairs: &[(u64, u64)],
    limit: u64,
) -> Result<Book, Fail> {
    let mut steps = Vec::new(alloc);
    for &(from, bytes) in pairs {
        steps.push(CapStep { from, bytes })?;
    }
    assert!(rt; Profile::is_allowed(steps.as_slice()));
    assert!(rt; limit >= 2 && limit <= MAX_ENTRIES);
    Ok(Book::new(alloc, Profile::new(steps), limit)?)
}

/// Whether this entry admitted a play whose plan has at least `keep` bytes.
fn admits(entry: &Entry, keep: u64) -> bool
    ensures { IsTrue result → (start : ℕ) × ((segments : List Segment) ×
        ((play_admitted entry.now.command entry.now.answer ≡ Some (whole_play start segments))
        × (keep ≤ total_bytes segments))) }
{
    let Command::Play { plan, .. } = &entry.command else {
        return false;
    };
    let Answer::Admitted { .. } = entry.answer else {
        return false;
    };
    keep <= plan.bytes()
}

/// Whether this command halts a play.
fn halts(number: u64, command: &Command) -> bool
    ensures { IsTrue result ↔ Halts number command.now }
{
    match command {
        Command::Halt { number: halted, .. } => *halted == number,
        _ => false,
    }
}

/// Whether a play is open and its plan has at least `keep` bytes, by the entries alone.
pub(crate) fn may_halt(book: &Book, number: u64, keep: u64) -> bool
    ensures { IsTrue result → CanHalt (state_after book.now.entries) number keep }
{
    let entries = book.entries();
    if number >= entries.len() as u64 || !admits(&entries[number as usize], keep) {
        return false;
    }
    for entry in entries {
        if halts(number, &entry.command) {
            return false;
        }
    }
    true
}

/// What is asked of a book in the tables; each play is of the plan 2, 2, 3.
#[derive(Clone, Copy)]
enum Ask {
    Play { maker: u32, slot: u64 },
    Halt { maker: u32, number: u64, keep: u64 },
    Look { maker: u32, slot: u64 },
}

/// The book's answer.
fn answer_to(
    rt: &impl Abort,
    alloc: Global,
    book: &mut Book,
    ask: Ask,
) -> Result<Result<Noted, Full>, Fail> {
    match ask {
        Ask::Play { maker, slot } => {
            let plan = plan_of(rt, alloc, &[(3, 7)])?;
            match book.play(maker, slot, plan) {
                Ok(noted) => Ok(Ok(noted)),
                Err(refused) => {
                    assert_eq!(rt;
                        refused.plan.segments(),
                        [Segment { slots: 3, bytes: 7 }].as_slice()
                    );
                    Ok(Err(refused.full))
                }
            }
        }
        Ask::Halt {
            maker,
            number,
            keep,
        } => {
            assert!(rt; may_halt(book, number, keep));
            Ok(Ok(book.halt(maker, number, keep)))
        }
        Ask::Look { maker, slot } => Ok(book.look(maker, slot)),
    }
}

fn play(maker: u32, slot: u64) -> Ask {
    Ask::Play { maker, slot }
}

fn halt(maker: u32, number: u64, keep: u64) -> Ask {
    Ask::Halt {
        maker,
        number,
        keep,
    }
}

fn look(maker: u32, slot: u64) -> Ask {
    Ask::Look { maker, slot }
}

fn noted_answer(place: u64, answer: Answer) -> Result<Noted, Full> {
    Ok(Noted { place, answer })
}

fn admission(place: u64, start: u64) -> Result<Noted, Full> {
    noted_answer(place, Answer::Admitted { start })
}

fn overflow(place: u64, slot: u64, booked: u64, asked: u64) -> Result<Noted, Full> {
    noted_answer(
        place,
        Answer::Overflow {
            slot,
            booked,
            asked,
        },
    )
}

fn halt_answer(place: u64) -> Result<Noted, Full> {
    noted_answer(place, Answer::Halted)
}

fn look_answer(place: u64, now: u64, at: u64, booked: u64) -> Result<Noted, Full> {
    noted_answer(place, Answer::Looked { now, at, booked })
}

fn refusal(entries: u64, live: u64) -> Result<Noted, Full> {
    Err(Full { entries, live })
}

/// The bytes booked so many slots from now.
pub(crate) fn booked_ahead(rt: &impl Abort, book: &Book, ahead: u64) -> u64 {
    let calendar = book.calendar();
    let slot = calendar.now().saturating_add(ahead);
    assert!(rt; slot >= calendar.now());
    calendar.booked(slot)
}

/// Asks in turn, and compares each answer; then what is booked from now on.
fn run(
    rt: &impl Abort,
    alloc: Global,
    book: &mut Book,
    rows: &[(Ask, Result<Noted, Full>)],
    booked: &[u64],
) -> Result<(), Fail> {
    for (ask, want) in rows {
        let told = answer_to(rt, alloc, book, *ask)?;
        assert_eq!(rt; told, *want);
    }
    for (ahead, want) in booked.iter().enumerate() {
        assert_eq!(rt;
            booked_ahead(rt, book, ahead as u64),
            *want,
            "{ahead} slots from now"
        );
    }
    Ok(())
}

/// A capacity of 5 bytes a slot.
#[test]
fn admits_and_halts(rt: HostRuntime) -> Result<(), Fail> {
    let mut book = book_of(&rt, rt.alloc(), &[(0, 5)], 64)?;
    let rows = [
        (play(0, 0), admission(0, 1)),
        (play(1, 0), overflow(1, 3, 3, 3)),
        (play(1, 2), admission(2, 3)),
        (halt(0, 0, 7), halt_answer(3)),
        (halt(1, 2, 2), halt_answer(4)),
    ];
    let booked = [2, 5, 0, 0, 0];
    run(&rt, rt.alloc(), &mut book, rows.as_slice(), &booked)?;
    assert_eq!(rt; book.calendar().now(), 2);
    let text = format!(in rt.alloc(); "{book:?}")?;
    assert_eq!(rt; text.as_str(), "Book { entries: 5, limit: 64, .. }");
    let entries = book.into_entries();
    assert_eq!(rt; entries.len(), 5);
    assert_eq!(rt; (entries[4].maker, entries[4].answer), (1, Answer::Halted));
    Ok(())
}

/// Room for two entries: a play takes one, and one for its halt.
#[test]
fn is_full(rt: HostRuntime) -> Result<(), Fail> {
    let mut book = book_of(&rt, rt.alloc(), &[(0, 100)], 2)?;
    let rows = [
        (play(0, 0), admission(0, 1)),
        (play(1, 0), refusal(1, 1)),
        (look(1, 0), refusal(1, 1)),
        (halt(0, 0, 0), halt_answer(1)),
        (look(0, 0), refusal(2, 0)),
    ];
    run(&rt, rt.alloc(), &mut book, rows.as_slice(), &[0, 0, 0, 0])
}

/// A look reports now and doesn't change it; a slot above 2^62 is taken as 2^62.
#[test]
fn looks(rt: HostRuntime) -> Result<(), Fail> {
    let mut book = book_of(&rt, rt.alloc(), &[(0, 5)], 64)?;
    let latest = 4_611_686_018_427_387_904;
    let rows = [
        (play(0, 0), admission(0, 1)),
        (look(0, 3), look_answer(1, 0, 3, 3)),
        (look(0, u64::MAX), look_answer(2, 0, latest, 0)),
        (play(0, u64::MAX), admission(3, latest + 1)),
        (look(0, 3), look_answer(4, latest, latest, 0)),
    ];
    let booked = [0, 2, 2, 3, 0];
    run(&rt, rt.alloc(), &mut book, rows.as_slice(), &booked)
}

/// A capacity of 5 bytes, and of 3 from slot 3 on.
#[test]
fn keeps_each_capacity(rt: HostRuntime) -> Result<(), Fail> {
    let mut book = book_of(&rt, rt.alloc(), &[(0, 5), (3, 3)], 64)?;
    let rows = [
        (play(0, 0), admission(0, 1)),
        (play(1, 0), overflow(1, 3, 3, 3)),
        (play(1, 1), overflow(2, 3, 3, 2)),
    ];
    run(&rt, rt.alloc(), &mut book, rows.as_slice(), &[2, 2, 3, 0])
}

#[test]
fn tells_refusals(rt: HostRuntime) -> Result<(), Fail> {
    let full = Full {
        entries: 2,
        live: 1,
    };
    let plan = plan_of(&rt, rt.alloc(), &[(3, 7)])?;
    let text = "the journal is full: 2 entries, 1 open plays";
    assert_eq!(rt; format!(in rt.alloc(); "{full}")?.as_str(), text);
    let refused = PlayFull { plan, full };
    assert_eq!(rt; format!(in rt.alloc(); "{refused}")?.as_str(), text);
    Ok(())
}
