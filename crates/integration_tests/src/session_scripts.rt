//! A session that is talked to by a script, with the station's answers handed in.

ghost use Rattle.std.specs.Prelude.{◌≡◌, IfOk, length, true};
ghost use Rattle.interleave.specs.Elements.{IsMessageLength};
ghost use Rattle.film_streams.specs.SettingRanges.{AreFilms};
ghost use Rattle.session.specs.SessionStates.{AsksFor, AwaitsNoAnswer, IsHalt, IsLook, IsOffer};
ghost use Rattle.session.specs.SessionStates.{IsPlay, awaited_answer, open_of};

use crate::films::server_films;
use crate::script_text::{expect, in_full, numbers_of, payload_of, word_and_rest};
use early_start::Offers;
use film_frames::Stored;
use interleave::{Demux, Step};
use plan_cert::Plan;
use session::{Ask, Session, Settings, Slotted};
use slot_calendar::{Calendar, Profile, RING_SLOTS};
use std::alloc::Global;
use std::process::Abort;
use vod_base::{MemoryLink, NoMemory};

/// The random numbers of the connections: the session's id, the SSRC, the first sequence number and
/// the first timestamp.
pub(crate) const WORDS: [u32; 5] = [0x0123_4567, 0x89ab_cdef, 0x0102_0304, 1, 0];

/// The server's settings: slots of 40 ms, and the defaults.
pub(crate) const SETTINGS: Settings = Settings {
    slot_units: 14_400,
    buffer: 1_048_576,
    startup: 25,
};

/// What is before a scene, by its session's state: `b.mpg` is set up, and played from slot 1 on.
const STATES: &str = "\
in Init
#

in Ready
hears SETUP rtsp://h/b.mpg RTSP/1.0|CSeq: 1|Transport: RTP/AVP/TCP;unicast;interleaved=0-1|\
x-Startup: 2||
says RTSP/1.0 200 OK|CSeq: 1|Transport: RTP/AVP/TCP;unicast;interleaved=0-1;ssrc=01020304|\
Session: 0123456789abcdef||

in Playing
hears SETUP rtsp://h/b.mpg RTSP/1.0|CSeq: 1|Transport: RTP/AVP/TCP;unicast;interleaved=0-1|\
x-Startup: 2||
says RTSP/1.0 200 OK|CSeq: 1|Transport: RTP/AVP/TCP;unicast;interleaved=0-1;ssrc=01020304|\
Session: 0123456789abcdef||
told admitted 0 1 4 141
hears PLAY rtsp://h/b.mpg RTSP/1.0|CSeq: 2|Session: 0123456789abcdef||
says RTSP/1.0 200 OK|CSeq: 2|Session: 0123456789abcdef|Range: npt=0.000-0.080|\
RTP-Info: url=rtsp://h/b.mpg/video;seq=1;rtptime=0|x-Start: 1||
told nothing";

/// The capacity of the link that offers are found for: a byte less than the first slot of `b.mpg`
/// takes.
const OFFERED: u64 = 34;

/// The capacity of a link that another client's play of `b.mpg` is booked on: a byte more than that
/// slot takes.
const SHARED: u64 = 36;

/// What the station answers: `admitted PLACE START SLOTS BYTES`, `overflow PLACE SLOT BOOKED
/// ASKED`, `full ENTRIES OPEN`, `halted PLACE KEEP`, `looked PLACE NOW AT BOOKED`, `offered SEEN
/// FIRST` or, where another client's play by the same plan begins in that first slot, `beside SEEN
/// FIRST`. The slots and bytes of the plan that was asked for, if they are named, and the bytes
/// that a halt keeps, are compared.
#[derive(Clone, Copy)]
struct Told<'s> {
    kind: &'s str,
    numbers: [u64; 4],
}

/// A session over a link in memory, and how many of its bytes were read.
#[derive(Drop)]
struct Talk<'a> {
    session: Session<'a>,
    link: MemoryLink,
    read: usize,
}

/// What the words of an answer mean.
fn told_of(text: &str) -> Told<'_> {
    let (kind, numbers) = word_and_rest(text);
    Told {
        kind,
        numbers: numbers_of(numbers),
    }
}

/// Whether a message is one complete request.
fn is_request(alloc: Global, message: &[u8]) -> Result<bool, NoMemory>
    ensures { IfOk result (λ whole. whole ≡ true →
        IsMessageLength message.now (length message.now)) }
{
    let mut input = Demux::new(alloc)?;
    if input.put(message).is_err() {
        return Ok(false);
    }
    match input.look() {
        Ok(Step::Request(length)) => Ok(length == message.len()),
        _ => Ok(false),
    }
}

fn play<R: Abort>(rt: &R, session: &mut Session<'_>, plan: &Plan, told: Told<'_>)
    requires { IsPlay (awaited_answer session.old) }
    ensures { AwaitsNoAnswer session.new }
{
    let [first, second, third, fourth] = told.numbers;
    if told.kind == "overflow" {
        session.overflowed(first, second, third, fourth);
    } else if told.kind == "full" {
        session.full(first, second);
    } else {
        let is_plan = third == 0 || plan.slots() == third && plan.bytes() == fourth;
        expect(
            rt,
            told.kind == "admitted" && is_plan,
            "another play was asked for",
        );
        assert!(rt; session.heard_slot() < second);
        session.admitted(first, second);
    }
}

fn halt<R: Abort>(rt: &R, session: &mut Session<'_>, keep: u64, told: Told<'_>)
    requires { IsHalt (awaited_answer session.old) (open_of session.old) }
    ensures { AwaitsNoAnswer session.new }
{
    let [place, kept, _, _] = told.numbers;
    let is_halt = told.kind == "halted" && keep == kept;
    expect(rt, is_halt, "another halt was asked for");
    session.halted(place);
}

fn look<R: Abort>(rt: &R, session: &mut Session<'_>, told: Told<'_>)
    requires { IsLook (awaited_answer session.old) }
    ensures { AwaitsNoAnswer session.new }
{
    let [first, second, third, fourth] = told.numbers;
    if told.kind == "looked" {
        session.looked(first, second, third, fourth);
    } else {
        expect(rt, told.kind == "full", "a look was asked for");
        session.full(first, second);
    }
}

/// Books a play by this plan for another client.
fn share<R: Abort>(rt: &R, calendar: &mut Calendar, plan: &Plan, start: u64) {
    let now = calendar.now();
    assert!(rt; now < start && start <= 1 << 20 && plan.slots() <= 1 << 20);
    assert!(rt; start + plan.slots() <= now + RING_SLOTS);
    assert!(rt; calendar.first_overflow(start, plan).is_none());
    calendar.book(start, plan);
}

/// Finds the starts that are offered.
fn find_starts<R: Abort>(
    rt: &R,
    alloc: Global,
    offers: &mut Offers,
    plan: &Plan,
    told: Told<'_>,
) -> Result<(), NoMemory> {
    let [_, first, _, _] = told.numbers;
    let is_beside = told.kind == "beside";
    let capacity = if is_beside { SHARED } else { OFFERED };
    let mut calendar = Calendar::new(alloc, Profile::flat(alloc, capacity)?)?;
    if is_beside {
        share(rt, &mut calendar, plan, first);
    }
    assert!(rt; calendar.now() < first && first <= 1 << 62);
    offers.find(&calendar, plan, first);
    Ok(())
}

fn answer<R: Abort>(
    rt: &R,
    alloc: Global,
    session: &mut Session<'_>,
    ask: Ask,
    told: Told<'_>,
) -> Result<(), NoMemory>
    requires { AsksFor ask session.old }
    ensures { IfOk result (λ _. AwaitsNoAnswer session.new) }
{
    match ask {
        Ask::Reply => {}
        Ask::Play(plan) => play(rt, session, &plan, told),
        Ask::Halt(keep) => halt(rt, session, keep, told),
        Ask::Look(_) => look(rt, session, told),
        Ask::Offer(plan, mut offers) => {
            let [seen, first, _, _] = told.numbers;
            let is_offer = told.kind == "offered" || told.kind == "beside";
            expect(rt, is_offer, "an offer was asked for");
            find_starts(rt, alloc, &mut offers, &plan, told)?;
            session.offered(seen, first, plan, offers);
        }
    }
    Ok(())
}

impl<'a> Talk<'a> {
    fn new(alloc: Global, films: &'a [Stored]) -> Result<Talk<'a>, NoMemory>
        requires { AreFilms films.now }
        ensures { IfOk result (λ talk. AwaitsNoAnswer talk.session) }
    {
        let events = Vec::new(alloc);
        let link = MemoryLink::new(alloc, events, 1 << 20, Vec::new(alloc), Vec::new(alloc))?;
        let session = Session::new(alloc, films, SETTINGS, WORDS)?;
        Ok(Talk {
            session,
            link,
            read: 0,
        })
    }

    /// What was sent and not read yet.
    fn unread(&self) -> &[u8] {
        self.link.sent().get(self.read..).unwrap_or(&[])
    }

    fn hear_once<R: Abort>(
        &mut self,
        rt: &R,
        alloc: Global,
        message: &[u8],
        told: Told<'_>,
    ) -> Result<(), NoMemory>
        requires { AwaitsNoAnswer self.old.session }
        ensures { IfOk result (λ _. AwaitsNoAnswer self.new.session) }
    {
        let whole = is_request(alloc, message)?;
        let session = &mut self.session;
        assert!(rt; whole && !session.waits() && !session.torn() && !session.link_failed());
        let ask = session.hear(message);
        answer(rt, alloc, session, ask, told)?;
        let replied = session.reply(&mut self.link);
        expect(rt, replied.is_ok(), "the link failed");
        Ok(())
    }

    /// Hands a request in. If it is answered 500 because memory ran out it is handed in again: the
    /// answer is what it would have been.
    fn hear<R: Abort>(
        &mut self,
        rt: &R,
        alloc: Global,
        message: &[u8],
        told: Told<'_>,
    ) -> Result<(), NoMemory>
        requires { AwaitsNoAnswer self.old.session }
        ensures { IfOk result (λ _. AwaitsNoAnswer self.new.session) }
    {
        self.hear_once(rt, alloc, message, told)?;
        if self.unread().starts_with(b"RTSP/1.0 500 ") {
            self.read = self.link.sent().len();
            self.hear_once(rt, alloc, message, told)?;
        }
        Ok(())
    }

    fn slot<R: Abort>(&mut self, rt: &R, slot: u64, told: Told<'_>)
        requires { AwaitsNoAnswer self.old.session }
        ensures { AwaitsNoAnswer self.new.session }
    {
        match self.session.slot(slot, &mut self.link) {
            Ok(Slotted::Going) => {}
            Ok(Slotted::Finished(keep)) => halt(rt, &mut self.session, keep, told),
            Err(_) => expect(rt, false, "the link failed"),
        }
    }

    /// Processes a script's line. What is sent must be read before a request or a slot comes.
    fn take<R: Abort>(
        &mut self,
        rt: &R,
        alloc: Global,
        line: &str,
        told: Told<'_>,
    ) -> Result<(), NoMemory>
        requires { AwaitsNoAnswer self.old.session }
        ensures { IfOk result (λ _. AwaitsNoAnswer self.new.session) }
    {
        let (word, rest) = word_and_rest(line);
        let reads = word == "says" || word == "sends";
        expect(rt, reads || self.unread().is_empty(), line);
        if word == "slot" {
            self.slot(rt, numbers_of(rest)[0], told);
            return Ok(());
        }
        let bytes = payload_of(rt, alloc, word, rest)?;
        if reads {
            expect(rt, self.unread().starts_with(&bytes), line);
            self.read = self.read.saturating_add(bytes.len());
            return Ok(());
        }
        self.hear(rt, alloc, &bytes, told)
    }

    /// Processes a scene's lines.
    fn run<R: Abort>(&mut self, rt: &R, alloc: Global, scene: &str) -> Result<(), NoMemory>
        requires { AwaitsNoAnswer self.old.session }
    {
        let mut told = told_of("nothing");
        for line in scene.lines() {
            let (word, rest) = word_and_rest(line);
            if word == "told" {
                told = told_of(rest);
            } else if word != "#" && !word.is_empty() {
                self.take(rt, alloc, line, told)?;
            }
        }
        expect(rt, self.unread().is_empty(), scene);
        Ok(())
    }
}

/// Talks to one session: `told ANSWER` of the next request or slot, `hears REQUEST`, `slot NUMBER`,
/// `says REPLY`, `sends BYTES`. All that it sends must be read.
fn run_scene<R: Abort>(rt: &R, alloc: Global, films: &[Stored], scene: &str) -> Result<(), NoMemory>
    requires { AreFilms films.now }
{
    let mut talk = Talk::new(alloc, films)?;
    talk.run(rt, alloc, scene)
}

/// Talks to a session of each scene, which begins with `in STATE`; empty lines part them.
pub(crate) fn talk_all<R: Abort>(rt: &R, alloc: Global, script: &str) -> Result<(), NoMemory> {
    let films = server_films(rt, alloc)?;
    let text = in_full(alloc, STATES, script)?;
    for scene in text.split("\n\n") {
        run_scene(rt, alloc, &films, scene)?;
    }
    Ok(())
}
