//! Connections over links in memory by a script, one after another at one station.

ghost use Rattle.std.specs.Prelude.{◌≡◌, IfOk};
ghost use Rattle.film_streams.specs.SettingRanges.{AreFilms};
ghost use Rattle.station.specs.Seats.{IsSameSeat, first_seat};

use crate::script_text::{expect, film_in, numbers_of, payload_of, word_and_rest};
use crate::session_scripts::{SETTINGS, WORDS};
use admission::{Book, MAX_ENTRIES};
use conn::{ConnEnd, ConnReport, serve_connection};
use film_frames::Stored;
use report::laws::law_answers_match_commands;
use report::{calendar_text, journal_text};
use slot_calendar::Profile;
use station::{Seat, Station};
use std::alloc::Global;
use std::process::Abort;
use std::slice;
use std::sync::Wait;
use vod_base::{Event, MemoryLink, NoMemory};

/// A connection that was served: its link, its end, and the slots that were late.
#[derive(Drop)]
pub(crate) struct Served {
    pub(crate) link: MemoryLink,
    end: ConnEnd,
    late: u64,
}

/// A connection of a script: its events, the calls that fail, what it sends, and how it ends.
#[derive(Clone, Copy)]
struct Part<'s> {
    events: &'s str,
    failing: &'s str,
    sent: &'s str,
    end: &'s str,
}

/// The first connection of a script, and the lines after it.
fn first_part(lines: &str) -> Option<(Part<'_>, &str)> {
    let (events, after) = lines.split_once("\nserve")?;
    let (served, after) = after.split_once("\nends ")?;
    let (failing, sent) = served.split_once('\n').unwrap_or((served, ""));
    let (end, after) = after.split_once('\n').unwrap_or((after, ""));
    let part = Part {
        events,
        failing,
        sent,
        end,
    };
    Some((part, after))
}

/// Whether a reply means out of memory.
fn has_refusal(sent: &[u8]) -> bool {
    for start in 0..sent.len() {
        if sent[start..].starts_with(b"RTSP/1.0 500 ") {
            return true;
        }
    }
    false
}

/// A link in memory that has these events, and a send and an event that fail, by their numbers
/// from 1: 0 is none.
fn link_of(alloc: Global, events: Vec<Event>, failing: &str) -> Result<MemoryLink, NoMemory> {
    let [send, next, _, _] = numbers_of(failing);
    let sends = Vec::from_slice(alloc, slice::from_ref(&send))?;
    let nexts = Vec::from_slice(alloc, slice::from_ref(&next))?;
    MemoryLink::new(alloc, events, 1 << 20, sends, nexts)
}

/// How a connection ended, and the slots that were late.
fn end_of(report: ConnReport) -> (ConnEnd, u64) {
    (report.end, report.late)
}

/// Serves a connection with these events. Out of memory is its end, or a reply 500.
pub(crate) fn serve<R: Wait + Abort>(
    rt: &R,
    alloc: Global,
    station: &Station,
    seat: &mut Seat,
    films: &[Stored],
    events: Vec<Event>,
    failing: &str,
) -> Result<Served, NoMemory>
    requires seat { seat.old.id ≡ station.now.id }
    requires films { AreFilms films.now }
    ensures { IsSameSeat seat.old seat.new }
{
    let mut link = link_of(alloc, events, failing)?;
    let (end, late) = end_of(serve_connection(
        rt, alloc, station, seat, films, &SETTINGS, WORDS, 0, &mut link,
    ));
    if end == ConnEnd::NoMemory || has_refusal(link.sent()) {
        return Err(NoMemory);
    }
    Ok(Served { link, end, late })
}

/// Adds the events of a line: slots, or bytes that arrive.
fn push_events<R: Abort>(
    rt: &R,
    alloc: Global,
    events: &mut Vec<Event>,
    line: &str,
) -> Result<(), NoMemory> {
    let (word, rest) = word_and_rest(line);
    if word == "slot" || word == "slots" {
        let [first, last, _, _] = numbers_of(rest);
        for slot in first..=last.max(first) {
            events.push(Event::Slot(slot))?;
        }
    } else if word != "#" {
        events.push(Event::Bytes(payload_of(rt, alloc, word, rest)?))?;
    }
    Ok(())
}

/// The events of a connection's lines.
fn events_of<R: Abort>(rt: &R, alloc: Global, lines: &str) -> Result<Vec<Event>, NoMemory> {
    let mut events = Vec::new(alloc);
    for line in lines.lines() {
        push_events(rt, alloc, &mut events, line)?;
    }
    Ok(events)
}

/// How many of the bytes that were sent a line says, which must begin so.
fn length_of<R: Abort>(
    rt: &R,
    alloc: Global,
    films: &[Stored],
    sent: &[u8],
    line: &str,
) -> Result<usize, NoMemory> {
    let (word, rest) = word_and_rest(line);
    if word == "any" {
        return Ok(sent.len());
    }
    if word == "film" {
        let (payloads, length) = film_in(alloc, sent)?;
        let is_film = films.len() == 2 && payloads.as_slice() == films[1].film.bytes.as_slice();
        expect(rt, is_film, "another film");
        return Ok(length);
    }
    let want = payload_of(rt, alloc, word, rest)?;
    expect(rt, sent.starts_with(&want), line);
    Ok(want.len())
}

/// Compares all that was sent with lines.
fn compare_sent<R: Abort>(
    rt: &R,
    alloc: Global,
    films: &[Stored],
    sent: &[u8],
    lines: &str,
) -> Result<(), NoMemory> {
    let mut rest = sent;
    for line in lines.lines() {
        let length = length_of(rt, alloc, films, rest, line)?;
        rest = rest.get(length..).unwrap_or(&[]);
    }
    expect(rt, rest.is_empty(), lines);
    Ok(())
}

/// Compares the end of a connection and the slots that were late with a line's words.
fn compare_end<R: Abort>(
    rt: &R,
    alloc: Global,
    end: ConnEnd,
    late: u64,
    want: &str,
) -> Result<(), NoMemory> {
    let found = format!(in alloc; "{end:?} {late}")?;
    expect(rt, found.as_str() == want, &found);
    Ok(())
}

/// Serves a connection of a script, and compares what it sends and its end.
fn serve_part<R: Wait + Abort>(
    rt: &R,
    alloc: Global,
    station: &Station,
    seat: &mut Seat,
    films: &[Stored],
    part: Part<'_>,
) -> Result<(), NoMemory>
    requires seat { seat.old.id ≡ station.now.id }
    requires films { AreFilms films.now }
    ensures { IsSameSeat seat.old seat.new }
{
    let events = events_of(rt, alloc, part.events)?;
    let served = serve(rt, alloc, station, seat, films, events, part.failing)?;
    compare_end(rt, alloc, served.end, served.late, part.end)?;
    compare_sent(rt, alloc, films, served.link.sent(), part.sent)
}

/// A station of a link of that capacity, whose journal has room for so many entries.
pub(crate) fn station_of<R: Abort>(
    rt: &R,
    alloc: Global,
    capacity: u64,
    limit: u64,
) -> Result<(Station, Seat), NoMemory>
    ensures { IfOk result (λ made. made.1 ≡ first_seat made.0) }
{
    assert!(rt; 2 <= limit && limit <= MAX_ENTRIES && capacity <= 1 << 42);
    Station::new(alloc, Profile::flat(alloc, capacity)?, limit)
}

/// The text of the journal and the calendar of a book, without the end of its last line.
fn journal_of(alloc: Global, book: &Book) -> Result<String, NoMemory> {
    let entries = book.entries();
    // This call does nothing at run time: the prover gets the law from it.
    law_answers_match_commands();
    let mut text = Vec::new(alloc);
    journal_text(0, entries, &mut text)?;
    calendar_text(book.calendar(), &mut text)?;
    Ok(String::from_utf8_lossy(alloc, text.strip_suffix(b"\n").unwrap_or(&[]))?)
}

/// Serves the connections of a scene at a station.
fn visit_station<R: Wait + Abort>(
    rt: &R,
    alloc: Global,
    station: &Station,
    seat: &mut Seat,
    films: &[Stored],
    lines: &str,
) -> Result<(), NoMemory>
    requires seat { seat.old.id ≡ station.now.id }
    requires films { AreFilms films.now }
    ensures { IsSameSeat seat.old seat.new }
{
    let mut rest = lines;
    for _ in 0..lines.len() {
        let Some((part, after)) = first_part(rest) else {
            break;
        };
        serve_part(rt, alloc, station, seat, films, part)?;
        rest = after;
    }
    expect(rt, rest.is_empty(), rest);
    Ok(())
}

/// Serves the connections of a scene at a station of that capacity and journal. Returns the text of
/// the journal and the calendar that they leave.
pub(crate) fn journal_after<R: Wait + Abort>(
    rt: &R,
    alloc: Global,
    films: &[Stored],
    head: &str,
    lines: &str,
) -> Result<String, NoMemory>
    requires { AreFilms films.now }
{
    let [capacity, limit, _, _] = numbers_of(head);
    let (station, mut seat) = station_of(rt, alloc, capacity, limit)?;
    visit_station(rt, alloc, &station, &mut seat, films, lines)?;
    let book = station.close(seat);
    let text = journal_of(alloc, &book);
    // Taken apart here, so that no book is dropped.
    let _entries = book.into_entries();
    text
}

/// Runs scenes, which empty lines part. A scene has a line with the station's capacity and the room
/// of its journal; for each connection its events (`hears TEXT`, `gets BYTES`, `fill NUMBER`,
/// `slot NUMBER`, `slots FIRST LAST`), `serve`, or `serve SEND NEXT` where the send and the event
/// of these numbers fail, and what was sent (`says REPLY`, `sends BYTES`, `film`, or `any`: all the
/// rest), up to `ends END LATE`; and after a line `journal`, if it has one, the journal and the
/// calendar.
pub(crate) fn serve_all<R: Wait + Abort>(
    rt: &R,
    alloc: Global,
    films: &[Stored],
    script: &str,
) -> Result<(), NoMemory>
    requires { AreFilms films.now }
{
    for scene in script.split("\n\n") {
        let (head, lines) = scene.split_once('\n').unwrap_or((scene, ""));
        let (lines, want) = lines.split_once("\njournal\n").unwrap_or((lines, ""));
        let journal = journal_after(rt, alloc, films, head, lines)?;
        expect(
            rt,
            want.is_empty() || journal.as_str() == want,
            journal.as_str(),
        );
    }
    Ok(())
}
