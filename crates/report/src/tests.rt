//! The plan of all rows has 3 slots and 7 bytes: 2, 2 and 3 bytes a slot.

ghost use Rattle.std.specs.Prelude.{IsTrue};
ghost use Rattle.report.specs.AnswerKinds.{IsOfKind};

use crate::laws::law_answers_match_commands;
use crate::{calendar_text, entry_line, journal_text};
use admission::{Answer, Book, Command, Entry};
use plan_cert::{Plan, Segment};
use slot_calendar::{Calendar, Profile};
use std::alloc::{AllocError, Global};
use std::process::Abort;
use std::test::Fail;
use vod_base::NoMemory;

fn plan_of(rt: &impl Abort, alloc: Global, slots: u64, bytes: u64) -> Result<Plan, AllocError> {
    let segments = Vec::from_slice(alloc, &[Segment { slots, bytes }])?;
    assert!(rt; Plan::is_allowed(segments.as_slice()));
    Ok(Plan::new(segments))
}

/// Whether the answer is of its command's kind.
fn is_of_kind(entry: &Entry) -> bool
    ensures { IsTrue result → IsOfKind entry.now.command entry.now.answer }
{
    match &entry.command {
        Command::Play { .. } => match entry.answer {
            Answer::Admitted { .. } | Answer::Overflow { .. } => true,
            _ => false,
        },
        Command::Halt { .. } => match entry.answer {
            Answer::Halted => true,
            _ => false,
        },
        Command::Look { .. } => match entry.answer {
            Answer::Looked { .. } => true,
            _ => false,
        },
    }
}

/// What is asked in a row; a play asks for the plan of all rows.
#[derive(Drop)]
enum Asked {
    Play { slot: u64 },
    Halt { number: u64, keep: u64 },
    Look { slot: u64 },
}

/// An entry's place and maker, what was asked and answered, and its line.
#[derive(Drop)]
struct Row {
    place: u64,
    maker: u32,
    asked: Asked,
    answer: Answer,
    line: &'static [u8],
}

const ROWS: [Row; 5] = [
    Row {
        place: 0,
        maker: 0,
        asked: Asked::Play { slot: 0 },
        answer: Answer::Admitted { start: 1 },
        line: b"0 seat=0 play slot=0 slots=3 bytes=7 admitted start=1\n",
    },
    Row {
        place: 1,
        maker: 1,
        asked: Asked::Play { slot: 0 },
        answer: Answer::Overflow {
            slot: 3,
            booked: 3,
            asked: 3,
        },
        line: b"1 seat=1 play slot=0 slots=3 bytes=7 overflow slot=3 booked=3 asked=3\n",
    },
    Row {
        place: 3,
        maker: 0,
        asked: Asked::Halt { number: 0, keep: 7 },
        answer: Answer::Halted,
        line: b"3 seat=0 halt number=0 keep=7 halted\n",
    },
    Row {
        place: 1,
        maker: 0,
        asked: Asked::Look { slot: 3 },
        answer: Answer::Looked {
            now: 0,
            at: 3,
            booked: 3,
        },
        line: b"1 seat=0 look slot=3 looked now=0 at=3 booked=3\n",
    },
    Row {
        place: 18_446_744_073_709_551_615,
        maker: 4_294_967_295,
        asked: Asked::Halt {
            number: 10,
            keep: 0,
        },
        answer: Answer::Halted,
        line: b"18446744073709551615 seat=4294967295 halt number=10 keep=0 halted\n",
    },
];

/// The lines of entries, each after what stood before.
#[test]
fn lines_of_entries(rt: HostRuntime) -> Result<(), Fail> {
    let alloc = rt.alloc();
    for row in ROWS {
        let command = match row.asked {
            Asked::Play { slot } => Command::Play {
                slot,
                plan: plan_of(&rt, alloc, 3, 7)?,
            },
            Asked::Halt { number, keep } => Command::Halt { number, keep },
            Asked::Look { slot } => Command::Look { slot },
        };
        let entry = Entry {
            maker: row.maker,
            command,
            answer: row.answer,
        };
        assert!(rt; is_of_kind(&entry));
        let mut out = Vec::from_slice(alloc, b"front ")?;
        assert_eq!(rt; entry_line(row.place, &entry, &mut out), Ok(()));
        assert_eq!(rt; out.strip_prefix(b"front "), Some(row.line));
    }
    Ok(())
}

/// The lines of a book's journal, from its beginning and from a place on.
#[test]
fn texts_of_journals(rt: HostRuntime) -> Result<(), Fail> {
    let alloc = rt.alloc();
    let mut book = Book::new(alloc, Profile::flat(alloc, 5)?, 4)?;
    assert!(rt; book.look(2, 3).is_ok());
    assert!(rt; book.look(1, 4).is_ok());
    let entries = book.entries();
    law_answers_match_commands();
    let mut out = Vec::new(alloc);
    assert_eq!(rt; journal_text(0, entries, &mut out), Ok(()));
    let both: &[u8] = b"0 seat=2 look slot=3 looked now=0 at=3 booked=0\n\
        1 seat=1 look slot=4 looked now=0 at=4 booked=0\n";
    assert_eq!(rt; out.as_slice(), both);
    out.clear();
    assert_eq!(rt; journal_text(1, entries, &mut out), Ok(()));
    let last: &[u8] = b"1 seat=1 look slot=4 looked now=0 at=4 booked=0\n";
    assert_eq!(rt; out.as_slice(), last);
    Ok(())
}

/// The plan booked entirely at slot 1, and at slot 3 with its first 2 bytes; then slots 0 and 1 are
/// forgotten.
fn calendar_of(rt: &impl Abort, alloc: Global, plan: &Plan) -> Result<Calendar, NoMemory> {
    let mut calendar = Calendar::new(alloc, Profile::flat(alloc, 5)?)?;
    assert!(rt; plan.slots() < 1000 && plan.bytes() >= 2);
    assert!(rt; calendar.first_overflow(1, plan).is_none());
    calendar.book(1, plan);
    assert!(rt; calendar.first_overflow(3, plan).is_none());
    calendar.book(3, plan);
    calendar.release(3, plan, 2);
    calendar.advance(2);
    Ok(calendar)
}

#[test]
fn texts_of_calendars(rt: HostRuntime) -> Result<(), Fail> {
    let alloc = rt.alloc();
    let plan = plan_of(&rt, alloc, 3, 7)?;
    let mut calendar = calendar_of(&rt, alloc, &plan)?;
    let mut out = Vec::new(alloc);
    assert_eq!(rt; calendar_text(&calendar, &mut out), Ok(()));
    let want: &[u8] = b"calendar from=2\nat 2 booked=2\nat 3 booked=5\nend\n";
    assert_eq!(rt; out.as_slice(), want);

    // the last slot of the ring
    let byte = plan_of(&rt, alloc, 1, 1)?;
    assert!(rt; calendar.now() == 2 && byte.slots() == 1);
    assert!(rt; calendar.first_overflow(1_048_577, &byte).is_none());
    calendar.book(1_048_577, &byte);
    out.clear();
    assert_eq!(rt; calendar_text(&calendar, &mut out), Ok(()));
    let want: &[u8] = b"calendar from=2\nat 2 booked=2\nat 3 booked=5\nat 1048577 booked=1\nend\n";
    assert_eq!(rt; out.as_slice(), want);
    Ok(())
}
