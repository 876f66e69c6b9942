//! A connection in memory, byte by byte, and its report.

ghost use Rattle.std.specs.Prelude.{IfOk, ◌∷◌, []};
ghost use Rattle.film_streams.specs.SettingRanges.{AreFilms};

use super::*;
use admission::Answer;
use film_frames::Stored;
use mpeg_scan::scan;
use session::{Receipt, Settings};
use slot_calendar::Profile;
use station::Station;
use std::alloc::Global;
use std::process::Abort;
use std::sync::Wait;
use std::test::Fail;
use vod_base::{Event, MemoryLink, good_name};

/// Two pictures: a sequence header, a group header, an I picture and one slice; a P picture and one
/// slice. On the wire: a report of 52 bytes, and frames of 54 and 35.
const FILM: [u8; 49] = [
    0, 0, 1, 0xb3, 0x16, 1, 0x20, 0x13, 0xff, 0xff, 0xe0, 0xa0, 0, 0, 1, 0xb8, 0, 8, 0, 0x40, 0, 0,
    1, 0, 0, 0xf, 0xff, 0xf8, 0, 0, 1, 1, 0x12, 0x34, 0, 0, 1, 0, 0, 0x57, 0xff, 0xf8, 0x80, 0, 0,
    1, 1, 0x12, 0x34,
];

/// The session's id is 0123456789abcdef, the SSRC 0x01020304, the first sequence number 1.
const WORDS: [u32; 5] = [0x0123_4567, 0x89ab_cdef, 0x0102_0304, 1, 0];

/// The film's report and its two frames, as they are sent.
const REPORT: [u8; 52] = [
    0x24, 1, 0, 0x30, 0x80, 0xc8, 0, 6, 1, 2, 3, 4, 0, 0, 0, 0, 0, 0, 0, 0, 0, 0, 0, 0, 0, 0, 0, 0,
    0, 0, 0, 0, 0x81, 0xca, 0, 4, 1, 2, 3, 4, 1, 8, 0x76, 0x6f, 0x64, 0x73, 0x65, 0x72, 0x76, 0x65,
    0, 0,
];

const FIRST_FRAME: [u8; 54] = [
    0x24, 0, 0, 0x32, 0x80, 0xa0, 0, 1, 0, 0, 0, 0, 1, 2, 3, 4, 0, 0, 0x39, 0, 0, 0, 1, 0xb3, 0x16,
    1, 0x20, 0x13, 0xff, 0xff, 0xe0, 0xa0, 0, 0, 1, 0xb8, 0, 8, 0, 0x40, 0, 0, 1, 0, 0, 0x0f, 0xff,
    0xf8, 0, 0, 1, 1, 0x12, 0x34,
];

const SECOND_FRAME: [u8; 35] = [
    0x24, 0, 0, 0x1f, 0x80, 0xa0, 0, 2, 0, 0, 0x0e, 0x10, 1, 2, 3, 4, 0, 1, 0x1a, 1, 0, 0, 1, 0, 0,
    0x57, 0xff, 0xf8, 0x80, 0, 0, 1, 1, 0x12, 0x34,
];

/// What comes: bytes, or the slot of a number.
#[derive(Clone, Copy, Debug)]
enum Comes {
    Bytes(&'static str),
    Slot(u64),
}

/// SETUP with a start delay of two slots, PLAY, a PAUSE within the report, a PLAY that goes on, and
/// TEARDOWN once the play is done.
const REQUESTS: [Comes; 12] = [
    Comes::Bytes(
        "SETUP rtsp://h/b.mpg RTSP/1.0\r\nCSeq: 1\r\n\
         Transport: RTP/AVP/TCP;unicast;interleaved=0-1\r\nx-Startup: 2\r\n\r\n",
    ),
    Comes::Bytes("PLAY rtsp://h/b.mpg RTSP/1.0\r\nCSeq: 2\r\nSession: 0123456789abcdef\r\n\r\n"),
    Comes::Slot(1),
    Comes::Bytes("PAUSE rtsp://h/b.mpg RTSP/1.0\r\nCSeq: 3\r\nSession: 0123456789abcdef\r\n\r\n"),
    Comes::Slot(2),
    Comes::Slot(3),
    Comes::Bytes("PLAY rtsp://h/b.mpg RTSP/1.0\r\nCSeq: 4\r\nSession: 0123456789abcdef\r\n\r\n"),
    Comes::Slot(4),
    Comes::Slot(5),
    Comes::Slot(6),
    Comes::Slot(7),
    Comes::Bytes(
        "TEARDOWN rtsp://h/b.mpg RTSP/1.0\r\nCSeq: 5\r\nSession: 0123456789abcdef\r\n\r\n",
    ),
];

/// What is sent, part by part. The reply to PAUSE stands after the report's last byte. The second
/// play sends the rest of the run: its first packet has the number 1.
const SENT: [&[u8]; 8] = [
    b"RTSP/1.0 200 OK\r\nCSeq: 1\r\nTransport: RTP/AVP/TCP;unicast;interleaved=0-1;ssrc=01020304\
      \r\nSession: 0123456789abcdef\r\n\r\n",
    b"RTSP/1.0 200 OK\r\nCSeq: 2\r\nSession: 0123456789abcdef\r\nRange: npt=0.000-0.080\r\n\
      RTP-Info: url=rtsp://h/b.mpg/video;seq=1;rtptime=0\r\nx-Start: 1\r\n\r\n",
    &REPORT,
    b"RTSP/1.0 200 OK\r\nCSeq: 3\r\nSession: 0123456789abcdef\r\n\r\n",
    b"RTSP/1.0 200 OK\r\nCSeq: 4\r\nSession: 0123456789abcdef\r\nRange: npt=0.000-0.080\r\n\
      RTP-Info: url=rtsp://h/b.mpg/video;seq=1;rtptime=0\r\nx-Start: 1\r\n\r\n",
    &FIRST_FRAME,
    &SECOND_FRAME,
    b"RTSP/1.0 200 OK\r\nCSeq: 5\r\nSession: 0123456789abcdef\r\n\r\n",
];

/// The station's answers: each play is admitted, and then halted.
const RECEIPTS: [Receipt; 4] = [
    Receipt::Entry {
        place: 0,
        answer: Answer::Admitted { start: 1 },
    },
    Receipt::Entry {
        place: 1,
        answer: Answer::Halted,
    },
    Receipt::Entry {
        place: 2,
        answer: Answer::Admitted { start: 4 },
    },
    Receipt::Entry {
        place: 3,
        answer: Answer::Halted,
    },
];

/// Of each play: the place of its admission, its start, the bytes of the run before it, and those
/// that are kept.
const PLAYS: [(u64, u64, u64, u64); 2] = [(0, 1, 0, 52), (2, 4, 52, 89)];

/// A server's film of two pictures, `b.mpg`.
#[tactic(auto, using(session::proofs::TestFilms::one_film))]
fn films_of(rt: &impl Abort, alloc: Global) -> Result<[Stored; 1], Fail>
    ensures { IfOk result (λ films. AreFilms films) }
{
    let film = scan(alloc, Vec::from_slice(alloc, &FILM)?)?;
    let stored = Stored::new(alloc, String::from_str(alloc, "b.mpg")?, film)?;
    assert!(rt; good_name(stored.name.as_bytes()));
    Ok([stored])
}

/// A link over which all that comes.
fn link_of(alloc: Global) -> Result<MemoryLink, Fail> {
    let mut events = Vec::new(alloc);
    for comes in REQUESTS {
        match comes {
            Comes::Bytes(text) => {
                events.push(Event::Bytes(Vec::from_slice(alloc, text.as_bytes())?))?;
            }
            Comes::Slot(slot) => events.push(Event::Slot(slot))?,
        }
    }
    Ok(MemoryLink::new(alloc, events, 4096, Vec::new(alloc), Vec::new(alloc))?)
}

/// The report has the worker's number, the words, the end, the answers and the plays.
fn reads_report(rt: &impl Abort, report: &ConnReport) {
    assert_eq!(rt;
        (report.worker, report.words, report.end),
        (3, WORDS, ConnEnd::TornDown)
    );
    assert_eq!(rt; report.receipts.as_slice(), RECEIPTS.as_slice());
    assert_eq!(rt;
        (report.plays.len(), report.late, report.offers.len()),
        (PLAYS.len(), 0, 0)
    );
    for (note, play) in report.plays.iter().zip(PLAYS) {
        assert_eq!(rt; (note.place, note.start, note.sent_before, note.keep), play);
    }
}

/// Serves the connection, and compares all that it sent and reported.
fn serves<R: Wait + Abort>(rt: &R, alloc: Global) -> Result<(), Fail> {
    let films = films_of(rt, alloc)?;
    let mut link = link_of(alloc)?;
    let settings = Settings {
        slot_units: 14_400,
        buffer: 1_048_576,
        startup: 25,
    };
    let (station, mut seat) = Station::new(alloc, Profile::flat(alloc, 50_000)?, 1024)?;
    let report = serve_connection(
        rt, alloc, &station, &mut seat, &films, &settings, WORDS, 3, &mut link,
    );
    reads_report(rt, &report);
    let mut sent = Vec::new(alloc);
    for part in SENT {
        sent.extend_from_slice(part)?;
    }
    assert_eq!(rt; link.sent(), sent.as_slice());
    let book = station.close(seat);
    assert_eq!(rt; book.entries().len(), RECEIPTS.len());
    Ok(())
}

#[test]
fn serves_a_paused_and_resumed_play(rt: HostRuntime) -> Result<(), Fail> {
    serves(&rt, rt.alloc())
}
