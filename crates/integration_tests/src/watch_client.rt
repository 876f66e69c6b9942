//! A film served and watched over links in memory, slot by slot: the premises of the law on a
//! watched film are met by both ends' links.

ghost use Rattle.std.specs.Prelude.{◌≤◌};
ghost use Rattle.film_streams.specs.SettingRanges.{AreFilms};

use crate::films::film_of;
use crate::link_scripts::{serve, station_of};
use crate::script_text::expect;
use crate::session_scripts::SETTINGS;
use film_frames::Stored;
use rtsp_client::{WatchEnd, Watched, Wish, watch};
use std::alloc::Global;
use std::process::Abort;
use std::sync::Wait;
use std::test::Fail;
use vod_base::{Event, MemoryLink, MemorySink, NoMemory, good_name};

/// The client's slot when the reply to PLAY arrives.
const BEFORE: u64 = 70;

const PLAY: &str =
    "PLAY rtsp://127.0.0.1:8554/film.mpg RTSP/1.0\r\nCSeq: 2\r\nSession: 0123456789abcdef\r\n\
    Range: npt=0-\r\n\r\n";

const TEARDOWN: &str = "TEARDOWN rtsp://127.0.0.1:8554/film.mpg RTSP/1.0\r\nCSeq: 3\r\n\
    Session: 0123456789abcdef\r\n\r\n";

/// What the server sends after these requests, with so many slots.
fn sent_after<R: Wait + Abort>(
    rt: &R,
    alloc: Global,
    films: &[Stored],
    requests: &[&str],
    slots: u64,
) -> Result<Vec<u8>, NoMemory>
    requires { AreFilms films.now }
{
    let events = server_events(alloc, requests, slots)?;
    let (station, mut seat) = station_of(rt, alloc, 1 << 20, 16)?;
    let served = serve(rt, alloc, &station, &mut seat, films, events, "")?;
    // Taken apart here, so that no book is dropped.
    let _entries = station.close(seat).into_entries();
    Ok(Vec::from_slice(alloc, served.link.sent())?)
}

/// What the server receives: requests, and slots from 1 on after the second.
fn server_events(alloc: Global, requests: &[&str], slots: u64) -> Result<Vec<Event>, NoMemory> {
    let mut events = Vec::new(alloc);
    for (number, request) in requests.iter().enumerate() {
        events.push(Event::Bytes(Vec::from_slice(alloc, request.as_bytes())?))?;
        if number == 1 {
            for slot in 1..=slots {
                events.push(Event::Slot(slot))?;
            }
        }
    }
    Ok(events)
}

/// Adds what the server sends in addition to a prefix, if it does, after these requests and with so
/// many slots. Returns the length of all that it sends.
fn push_sent<R: Wait + Abort>(
    rt: &R,
    alloc: Global,
    events: &mut Vec<Event>,
    films: &[Stored],
    requests: &[&str],
    slots: u64,
    front: usize,
) -> Result<usize, NoMemory>
    requires { AreFilms films.now }
{
    let sent = sent_after(rt, alloc, films, requests, slots)?;
    let after = sent.get(front..).unwrap_or(&[]);
    if !after.is_empty() {
        events.push(Event::Bytes(Vec::from_slice(alloc, after)?))?;
    }
    Ok(sent.len())
}

/// What the client receives: the server's replies to the first two requests; in each of so many
/// slots what the server had sent by its step of that slot; and the rest.
fn client_events<R: Wait + Abort>(
    rt: &R,
    alloc: Global,
    films: &[Stored],
    requests: &[&str],
    slots: u64,
) -> Result<Vec<Event>, NoMemory>
    requires few { slots ≤ 1000 }
    requires films { AreFilms films.now }
{
    let (first, _) = requests.split_at(requests.len().min(2));
    let mut events = Vec::new(alloc);
    let mut came = 0;
    events.push(Event::Slot(BEFORE))?;
    for slot in 0..=slots {
        came = push_sent(rt, alloc, &mut events, films, first, slot, came)?;
        if 0 < slot {
            events.push(Event::Slot(BEFORE + slot))?;
        }
    }
    push_sent(rt, alloc, &mut events, films, requests, slots, came)?;
    Ok(events)
}

/// The client's first request, for a buffer and a start delay.
fn setup_request(alloc: Global, buffer: u64, delay: u64) -> Result<String, NoMemory> {
    let text = format!(in alloc;
        "SETUP rtsp://127.0.0.1:8554/film.mpg/video RTSP/1.0\r\nCSeq: 1\r\n\
        Transport: RTP/AVP/TCP;unicast;interleaved=0-1\r\nx-Buffer: {buffer}\r\n\
        x-Startup: {delay}\r\n\r\n"
    )?;
    Ok(text)
}

/// The film that a client asks for.
fn wish_for(alloc: Global, buffer: u64, delay: u64) -> Result<Wish, NoMemory> {
    Ok(Wish {
        name: String::from_str(alloc, "film.mpg")?,
        port: 8554,
        buffer,
        startup: delay,
        slot_units: SETTINGS.slot_units,
    })
}

/// Whether bytes are these requests, one after another.
fn are_requests(sent: &[u8], requests: &[&str]) -> bool {
    let mut rest = sent;
    for request in requests {
        match rest.strip_prefix(request.as_bytes()) {
            Some(after) => rest = after,
            None => return false,
        }
    }
    rest.is_empty()
}

/// Whether the meter of a buffer read a film of so many pictures.
fn has_read(watched: Watched, pictures: u32, buffer: u64) -> bool {
    watched.over == 0
        && watched.under == 0
        && watched.units == u64::from(pictures)
        && watched.most <= buffer
}

/// Watches the film over a link that carries these events. Compares the requests that the client
/// sends, what the meter of its buffer read, and the film.
fn watch_over<R: Abort>(
    rt: &R,
    alloc: Global,
    wish: &Wish,
    events: Vec<Event>,
    requests: &[&str],
    films: &[Stored],
    pictures: u32,
) -> Result<(), NoMemory> {
    let in_limits = wish.buffer <= 1 << 42 && wish.startup <= 10_000 && wish.slot_units <= 360_000;
    let in_limits = in_limits && 1 <= wish.port && 1 <= wish.buffer && 360 <= wish.slot_units;
    assert!(rt; in_limits && good_name(wish.name.as_bytes()));
    let mut link = MemoryLink::new(alloc, events, 1 << 16, Vec::new(alloc), Vec::new(alloc))?;
    let mut out = MemorySink::new(alloc, 1 << 20, Vec::new(alloc))?;
    let WatchEnd::Done(watched) = watch(alloc, wish, &mut link, &mut out) else {
        return Err(NoMemory);
    };
    expect(rt, are_requests(link.sent(), requests), "other requests");
    let [film] = films else {
        panic!(rt; "another number of films");
    };
    let has_read = has_read(watched, pictures, wish.buffer);
    expect(rt, has_read, "the meter read something else");
    expect(
        rt,
        out.bytes() == film.film.bytes.as_slice(),
        "another film",
    );
    Ok(())
}

/// Watches the film of so many pictures over the link that carries it.
fn watch_film<R: Wait + Abort>(
    rt: &R,
    alloc: Global,
    pictures: u32,
    buffer: u64,
    delay: u64,
) -> Result<(), NoMemory> {
    let films = film_of(rt, alloc, pictures)?;
    let setup = setup_request(alloc, buffer, delay)?;
    let requests = [setup.as_str(), PLAY, TEARDOWN];
    assert!(rt; pictures <= 100 && delay <= 100);
    let slots = u64::from(pictures) + delay + 1;
    let events = client_events(rt, alloc, &films, &requests, slots)?;
    let wish = wish_for(alloc, buffer, delay)?;
    watch_over(rt, alloc, &wish, events, &requests, &films, pictures)
}

/// Films of so many pictures, over a buffer and with a start delay.
#[test]
fn watches_films(rt: HostRuntime) -> Result<(), Fail> {
    for (pictures, buffer, delay) in [
        (1, 16_384, 0),
        (10, 16_384, 0),
        (10, 9000, 4),
        (15, 65_536, 2),
    ] {
        watch_film(&rt, rt.alloc(), pictures, buffer, delay)?;
    }
    Ok(())
}
