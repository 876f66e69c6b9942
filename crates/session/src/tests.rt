//! A session over a link in memory: requests, the station's answers and slots, and what is sent.

ghost use Rattle.std.specs.Prelude.{◌≡◌, [], ◌∷◌, IfOk, length, true};
ghost use Rattle.film_streams.specs.SettingRanges.{AreFilms};
ghost use Rattle.interleave.specs.Elements.{IsMessageLength};
ghost use Rattle.session.specs.SessionStates.{AsksFor, AwaitsNoAnswer, IsHalt, IsLook, IsOffer};
ghost use Rattle.session.specs.SessionStates.{IsPlay, awaited_answer, open_of};

use super::*;
use film_frames::Stored;
use film_run::Run;
use film_streams::NOTHING_SENT;
use interleave::{Demux, Step};
use mpeg_scan::scan;
use plan_cert::Plan;
use std::alloc::Global;
use std::process::Abort;
use std::test::Fail;
use std::{fmt, slice};
use vod_base::{MemoryLink, NoMemory, good_name};

mod talks;

use talks::{Comes, Dialog, Row, Told};

/// Two pictures: a sequence header, a group header, an I picture and one slice; a P picture and one
/// slice. On the wire: a report of 52 bytes, and frames of 54 and 35.
const FILM: [u8; 49] = [
    0, 0, 1, 0xb3, 0x16, 1, 0x20, 0x13, 0xff, 0xff, 0xe0, 0xa0, 0, 0, 1, 0xb8, 0, 8, 0, 0x40, 0, 0,
    1, 0, 0, 0xf, 0xff, 0xf8, 0, 0, 1, 1, 0x12, 0x34, 0, 0, 1, 0, 0, 0x57, 0xff, 0xf8, 0x80, 0, 0,
    1, 1, 0x12, 0x34,
];

/// The session's id is 0123456789abcdef, the SSRC 0x01020304, the first sequence number 1.
const WORDS: [u32; 5] = [0x0123_4567, 0x89ab_cdef, 0x0102_0304, 1, 0];

/// Slots of 40 ms, and the defaults of a server.
const SETTINGS: Settings = Settings {
    slot_units: 14_400,
    buffer: 1_048_576,
    startup: 25,
};

/// A session over a link in memory, and how many of its bytes were compared.
#[derive(Drop)]
struct Talk<'a> {
    session: Session<'a>,
    link: MemoryLink,
    read: usize,
}

/// A film of two pictures, `b.mpg`.
fn film_of(alloc: Global) -> Result<Stored, Fail> {
    let film = scan(alloc, Vec::from_slice(alloc, &FILM)?)?;
    Ok(Stored::new(alloc, String::from_str(alloc, "b.mpg")?, film)?)
}

/// The films of a server that has this one alone.
#[tactic(auto, using(crate::proofs::TestFilms::one_film))]
fn only<'a>(rt: &impl Abort, film: &'a Stored) -> &'a [Stored]
    ensures { AreFilms result.now }
{
    assert!(rt; good_name(film.name.as_bytes()));
    slice::from_ref(film)
}

/// Whether a message is one complete request.
fn is_request(alloc: Global, message: &[u8]) -> Result<bool, NoMemory>
    ensures { IfOk result (λ whole. whole ≡ true →
        IsMessageLength message.now (length message.now)) }
{
    let mut input = Demux::new(alloc)?;
    if input.put(message).is_err() {
        return Ok(false);
    }
    match input.look() {
        Ok(Step::Request(length)) => Ok(length == message.len()),
        _ => Ok(false),
    }
}

/// A link that has sent nothing and takes 4,096 bytes.
fn empty_link(alloc: Global) -> Result<MemoryLink, NoMemory> {
    MemoryLink::new(
        alloc,
        Vec::new(alloc),
        1 << 12,
        Vec::new(alloc),
        Vec::new(alloc),
    )
}

impl<'a> Talk<'a> {
    fn new(alloc: Global, films: &'a [Stored]) -> Result<Talk<'a>, NoMemory>
        requires { AreFilms films.now }
        ensures { IfOk result (λ talk. AwaitsNoAnswer talk.session) }
    {
        let link = empty_link(alloc)?;
        let session = Session::new(alloc, films, SETTINGS, WORDS)?;
        Ok(Talk {
            session,
            link,
            read: 0,
        })
    }

    /// What was sent and not compared yet.
    fn unread(&self) -> &[u8] {
        self.link.sent().get(self.read..).unwrap_or(&[])
    }

    fn play<R: Abort>(&mut self, rt: &R, told: Told)
        requires { IsPlay (awaited_answer self.old.session) }
        ensures { AwaitsNoAnswer self.new.session }
    {
        match told {
            Told::Admitted(place, start) => {
                assert!(rt; self.session.heard_slot() < start);
                self.session.admitted(place, start);
            }
            Told::Overflow(place, slot, booked, asked) => {
                self.session.overflowed(place, slot, booked, asked);
            }
            Told::Full(entries, live) => self.session.full(entries, live),
            _ => assert!(rt; false, "a play was asked for"),
        }
    }

    fn halt<R: Abort>(&mut self, rt: &R, keep: u64, told: Told)
        requires { IsHalt (awaited_answer self.old.session) (open_of self.old.session) }
        ensures { AwaitsNoAnswer self.new.session }
    {
        match told {
            Told::Halted(place, kept) => {
                assert!(rt; keep == kept);
                self.session.halted(place);
            }
            _ => assert!(rt; false, "a halt was asked for"),
        }
    }

    fn look<R: Abort>(&mut self, rt: &R, told: Told)
        requires { IsLook (awaited_answer self.old.session) }
        ensures { AwaitsNoAnswer self.new.session }
    {
        match told {
            Told::Looked(place, now, at, booked) => self.session.looked(place, now, at, booked),
            Told::Full(entries, live) => self.session.full(entries, live),
            _ => assert!(rt; false, "a look was asked for"),
        }
    }

    fn answer<R: Abort>(&mut self, rt: &R, ask: Ask, told: Told)
        requires { AsksFor ask self.old.session }
        ensures { AwaitsNoAnswer self.new.session }
    {
        match ask {
            Ask::Reply => {}
            Ask::Play(_) => self.play(rt, told),
            Ask::Halt(keep) => self.halt(rt, keep, told),
            Ask::Look(_) => self.look(rt, told),
            // No start was tried: the offers are those of a link that has no room at all.
            Ask::Offer(plan, offers) => self.session.offered(5, 1, plan, offers),
        }
    }

    fn hear<R: Abort>(
        &mut self,
        rt: &R,
        alloc: Global,
        message: &[u8],
        told: Told,
    ) -> Result<(), NoMemory>
        requires { AwaitsNoAnswer self.old.session }
        ensures { AwaitsNoAnswer self.new.session }
    {
        let whole = is_request(alloc, message)?;
        assert!(rt; whole);
        let ask = self.ask(rt, message);
        self.answer(rt, ask, told);
        let replied = self.session.reply(&mut self.link);
        assert!(rt; replied.is_ok());
        Ok(())
    }

    fn ask<R: Abort>(&mut self, rt: &R, message: &[u8]) -> Ask
        requires rest { AwaitsNoAnswer self.old.session }
        requires whole { IsMessageLength message.now (length message.now) }
        ensures { AsksFor result self.new.session }
    {
        let session = &mut self.session;
        assert!(rt; !session.waits() && !session.torn() && !session.link_failed());
        session.hear(message)
    }

    fn slot<R: Abort>(&mut self, rt: &R, slot: u64, told: Told)
        requires { AwaitsNoAnswer self.old.session }
        ensures { AwaitsNoAnswer self.new.session }
    {
        match self.session.slot(slot, &mut self.link) {
            Ok(Slotted::Going) => {}
            Ok(Slotted::Finished(keep)) => self.halt(rt, keep, told),
            Err(_) => assert!(rt; false, "the link failed"),
        }
    }

    fn take<R: Abort>(&mut self, rt: &R, alloc: Global, row: &Row) -> Result<(), NoMemory>
        requires { AwaitsNoAnswer self.old.session }
        ensures { AwaitsNoAnswer self.new.session }
    {
        match row.comes {
            Comes::Request(message) => self.hear(rt, alloc, message, row.told)?,
            Comes::Slot(slot) => self.slot(rt, slot, row.told),
        }
        Ok(())
    }

    /// Compares what was sent since the last time.
    fn compare<R: Abort>(&mut self, rt: &R, alloc: Global, row: &Row) -> Result<(), NoMemory>
        ensures { self.new.session ≡ self.old.session }
    {
        assert!(rt;
            self.unread() == row.sent,
            "{}",
            String::from_utf8_lossy(alloc, self.unread())?
        );
        self.read = self.link.sent().len();
        Ok(())
    }

    fn run<R: Abort>(&mut self, rt: &R, alloc: Global, rows: &[Row]) -> Result<(), NoMemory>
        requires { AwaitsNoAnswer self.old.session }
        ensures { AwaitsNoAnswer self.new.session }
    {
        for row in rows {
            self.take(rt, alloc, row)?;
            self.compare(rt, alloc, row)?;
        }
        Ok(())
    }

    /// What the session noted, in which no booking may be open.
    fn into_notes<R: Abort>(self, rt: &R) -> Notes
        requires { AwaitsNoAnswer self.session }
    {
        assert!(rt; self.session.open_due().is_none());
        self.session.notes()
    }
}

/// Compares what a session noted.
fn check_notes<R: Abort>(rt: &R, notes: &Notes, dialog: &Dialog) {
    assert!(rt; notes.receipts.as_slice() == dialog.receipts);
    assert!(rt; notes.plays.len() == dialog.plays);
    assert!(rt; notes.offers.len() == dialog.offers);
    assert!(rt; notes.late == 0);
}

/// Talks to a session row by row, and compares what it sends and what it notes.
fn check_dialog<R: Abort>(
    rt: &R,
    alloc: Global,
    films: &[Stored],
    dialog: &Dialog,
) -> Result<(), NoMemory>
    requires { AreFilms films.now }
{
    let mut talk = Talk::new(alloc, films)?;
    talk.run(rt, alloc, dialog.rows)?;
    check_notes(rt, &talk.into_notes(rt), dialog);
    Ok(())
}

#[test]
fn answers_each_request(rt: HostRuntime) -> Result<(), Fail> {
    let film = film_of(rt.alloc())?;
    let films = only(&rt, &film);
    for dialog in talks::dialogs() {
        check_dialog(&rt, rt.alloc(), films, dialog)?;
    }
    Ok(())
}

/// Compares what a value prints. Each value is made and printed in a function of its own, since the
/// values that are held make the proof of a test dearer.
fn prints<T: fmt::Debug>(
    rt: &impl Abort,
    alloc: Global,
    value: &T,
    want: &str,
) -> Result<(), NoMemory> {
    let text = format!(in alloc; "{value:?}")?;
    assert!(rt; text.as_str() == want, "{want}");
    Ok(())
}

/// A play that goes on.
const RUN: Run = Run {
    first_unit: 0,
    end_unit: 9,
    from_unit: 4,
    sent: 30,
    played: 20,
};

fn prints_planned(rt: &impl Abort, alloc: Global) -> Result<(), NoMemory> {
    let planned = Planned {
        run: RUN,
        counts: NOTHING_SENT,
        plan: Plan::new(Vec::new(alloc)),
    };
    let want =
        "Planned { run: Run { first_unit: 0, end_unit: 9, from_unit: 4, sent: 30, played: 20 }, \
        counts: Counts { frames: 0, octets: 0 }, \
        plan: Plan { segments: [], slots: 0, bytes: 0 } }";
    prints(rt, alloc, &planned, want)
}

fn prints_session(rt: &impl Abort, alloc: Global, films: &[Stored]) -> Result<(), NoMemory>
    requires { AreFilms films.now }
{
    let session = Session::new(alloc, films, SETTINGS, WORDS)?;
    let want = "Session { waits: false, lost: false, heard: 0, late: 0, .. }";
    prints(rt, alloc, &session, want)
}

#[test]
fn prints_each_type(rt: HostRuntime) -> Result<(), Fail> {
    let alloc = rt.alloc();
    prints(&rt, alloc, &Task::Setup(1), "Setup(1)")?;
    let want = "Resumed(Run { first_unit: 0, end_unit: 9, from_unit: 4, sent: 30, played: 20 })";
    prints(&rt, alloc, &PlayRequest::Resumed(RUN), want)?;
    prints_planned(&rt, alloc)?;
    let film = film_of(alloc)?;
    prints_session(&rt, alloc, only(&rt, &film))?;
    Ok(())
}
