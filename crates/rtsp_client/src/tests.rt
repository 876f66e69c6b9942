//! Films watched over a link in memory, with values worked out by hand.

use super::*;
use std::alloc::Global;
use std::process::Abort;
use std::test::Fail;
use vod_base::{Event, MAX_BYTES, MemoryLink, MemorySink, good_name};

/// What a link delivers: a reply, bytes of the film as it is sent, other bytes, a slot, the end.
#[derive(Clone, Copy)]
enum Tell {
    Text(&'static str),
    Film(usize, usize),
    Raw(&'static [u8]),
    Slot(u64),
    End,
}

use Tell::{Film, Raw, Slot, Text};

/// A film of two pictures as it is sent: a report, and a frame for each picture.
const SENT: [u8; 141] = [
    0x24, 0x01, 0x00, 0x30, 0x80, 0xc8, 0x00, 0x06, 0x01, 0x02, 0x03, 0x04, 0, 0, 0, 0, 0, 0, 0, 0,
    0, 0, 0, 0, 0, 0, 0, 0, 0, 0, 0, 0, 0x81, 0xca, 0x00, 0x04, 0x01, 0x02, 0x03, 0x04, 0x01, 0x08,
    0x76, 0x6f, 0x64, 0x73, 0x65, 0x72, 0x76, 0x65, 0x00, 0x00, // the report
    0x24, 0x00, 0x00, 0x32, 0x80, 0xa0, 0x00, 0x01, 0x00, 0x00, 0x00, 0x00, 0x01, 0x02, 0x03, 0x04,
    0x00, 0x00, 0x39, 0x00, 0x00, 0x00, 0x01, 0xb3, 0x16, 0x01, 0x20, 0x13, 0xff, 0xff, 0xe0, 0xa0,
    0x00, 0x00, 0x01, 0xb8, 0x00, 0x08, 0x00, 0x40, 0x00, 0x00, 0x01, 0x00, 0x00, 0x0f, 0xff, 0xf8,
    0x00, 0x00, 0x01, 0x01, 0x12, 0x34, // the first picture's frame
    0x24, 0x00, 0x00, 0x1f, 0x80, 0xa0, 0x00, 0x02, 0x00, 0x00, 0x0e, 0x10, 0x01, 0x02, 0x03, 0x04,
    0x00, 0x01, 0x1a, 0x01, 0x00, 0x00, 0x01, 0x00, 0x00, 0x57, 0xff, 0xf8, 0x80, 0x00, 0x00, 0x01,
    0x01, 0x12, 0x34,
];

/// The first request of the client.
const SETUP: &str = "SETUP rtsp://127.0.0.1:8554/b.mpg/video RTSP/1.0\r\nCSeq: 1\r\n\
    Transport: RTP/AVP/TCP;unicast;interleaved=0-1\r\nx-Buffer: 1048576\r\nx-Startup: 2\r\n\r\n";

/// The same with a buffer of 105 bytes.
const SMALL_SETUP: &str = "SETUP rtsp://127.0.0.1:8554/b.mpg/video RTSP/1.0\r\nCSeq: 1\r\n\
    Transport: RTP/AVP/TCP;unicast;interleaved=0-1\r\nx-Buffer: 105\r\nx-Startup: 2\r\n\r\n";

/// Its second request.
const PLAY: &str =
    "PLAY rtsp://127.0.0.1:8554/b.mpg RTSP/1.0\r\nCSeq: 2\r\nSession: 0123456789abcdef\r\n\
    Range: npt=0-\r\n\r\n";

/// Its last request.
const TEARDOWN: &str =
    "TEARDOWN rtsp://127.0.0.1:8554/b.mpg RTSP/1.0\r\nCSeq: 3\r\nSession: 0123456789abcdef\r\n\r\n";

/// The reply to SETUP.
const SET_UP: Tell = Text(
    "RTSP/1.0 200 OK\r\nCSeq: 1\r\nTransport: RTP/AVP/TCP;unicast;interleaved=0-1;ssrc=01020304\r\n\
    Session: 0123456789abcdef\r\n\r\n",
);

/// The reply to PLAY: the film lasts 80 ms, and the play starts in the next slot.
const PLAYED: Tell = Text(
    "RTSP/1.0 200 OK\r\nCSeq: 2\r\nSession: 0123456789abcdef\r\nRange: npt=0.000-0.080\r\n\
    x-Start: 1\r\n\r\n",
);

/// The reply to TEARDOWN.
const TORN_DOWN: Tell = Text("RTSP/1.0 200 OK\r\nCSeq: 3\r\nSession: 0123456789abcdef\r\n\r\n");

/// The reply to a PLAY for which the link has no bandwidth left.
const NO_BANDWIDTH: Tell = Text("RTSP/1.0 453 Not Enough Bandwidth\r\nCSeq: 2\r\n\r\n");

/// The client's buffer in bytes.
const BUFFER: u64 = 1_048_576;

/// What the film's watching comes to.
const ALL: Watched = Watched {
    units: 2,
    bytes: 49,
    frames: 2,
    reports: 1,
    most: 106,
    over: 0,
    under: 0,
};

/// A case: the client's buffer, what the link delivers, what comes of it, how many requests are
/// sent, and how many of the film's bytes are handed on.
#[derive(Clone, Copy)]
struct Case {
    buffer: u64,
    tells: &'static [Tell],
    end: WatchEnd,
    requests: usize,
    handed_on: usize,
}

/// The film, slot by slot as its plan has it.
const BY_PLAN: &[Tell] = &[
    SET_UP,
    PLAYED,
    Film(0, 35),
    Slot(1),
    Film(35, 70),
    Slot(2),
    Film(70, 106),
    Slot(3),
    Film(106, 141),
    Slot(4),
    TORN_DOWN,
];

/// The second frame with another sequence number, and with another source.
const GAP: Tell = Raw(&[
    0x24, 0, 0, 0x11, 0x80, 0xa0, 0, 3, 0, 0, 14, 16, 1, 2, 3, 4, 0, 1, 26, 1, 0,
]);

/// A frame of another source than the one before it.
const STRANGER: Tell = Raw(&[
    0x24, 0, 0, 0x11, 0x80, 0xa0, 0, 2, 0, 0, 14, 16, 1, 2, 3, 5, 0, 1, 26, 1, 0,
]);

/// The film's frames with the sequence numbers 65535 and 0.
const WRAPPED: Tell = Raw(&[
    0x24, 0x00, 0x00, 0x32, 0x80, 0xa0, 0xff, 0xff, 0x00, 0x00, 0x00, 0x00, 0x01, 0x02, 0x03, 0x04,
    0x00, 0x00, 0x39, 0x00, 0x00, 0x00, 0x01, 0xb3, 0x16, 0x01, 0x20, 0x13, 0xff, 0xff, 0xe0, 0xa0,
    0x00, 0x00, 0x01, 0xb8, 0x00, 0x08, 0x00, 0x40, 0x00, 0x00, 0x01, 0x00, 0x00, 0x0f, 0xff, 0xf8,
    0x00, 0x00, 0x01, 0x01, 0x12, 0x34, // the first picture's frame
    0x24, 0x00, 0x00, 0x1f, 0x80, 0xa0, 0x00, 0x00, 0x00, 0x00, 0x0e, 0x10, 0x01, 0x02, 0x03, 0x04,
    0x00, 0x01, 0x1a, 0x01, 0x00, 0x00, 0x01, 0x00, 0x00, 0x57, 0xff, 0xf8, 0x80, 0x00, 0x00, 0x01,
    0x01, 0x12, 0x34,
]);

/// The film, complete: its plan, and a buffer that it fits into.
const COMPLETE: Case = Case {
    buffer: BUFFER,
    tells: BY_PLAN,
    end: WatchEnd::Done(ALL),
    requests: 3,
    handed_on: 49,
};

/// What a server says of the film, and what the meter counts.
const COMPLETE_CASES: &[Case] = &[
    COMPLETE,
    Case {
        buffer: 105,
        end: WatchEnd::Done(Watched { over: 1, ..ALL }),
        ..COMPLETE
    },
    // two readings with too much in the buffer, then two without the second picture
    Case {
        buffer: 105,
        tells: &[
            SET_UP,
            PLAYED,
            Film(0, 106),
            Slot(1),
            Slot(2),
            Slot(4),
            Slot(5),
            Film(106, 141),
            TORN_DOWN,
        ],
        end: WatchEnd::Done(Watched {
            over: 2,
            under: 2,
            ..ALL
        }),
        ..COMPLETE
    },
    // sequence numbers wrap
    Case {
        tells: &[SET_UP, PLAYED, Film(0, 52), WRAPPED, TORN_DOWN],
        end: WatchEnd::Done(Watched { most: 0, ..ALL }),
        ..COMPLETE
    },
    // late: the first picture isn't complete in the slot in which it is used; a slot that comes
    // again isn't read again
    Case {
        tells: &[
            Slot(7),
            SET_UP,
            Slot(9),
            PLAYED,
            Slot(10),
            Slot(12),
            Slot(12),
            Slot(11),
            Film(0, 141),
            Slot(13),
            TORN_DOWN,
        ],
        end: WatchEnd::Done(Watched {
            most: 35,
            under: 1,
            ..ALL
        }),
        ..COMPLETE
    },
    // the session is sent without its parameters; blocks on other channels and line ends don't
    // count
    Case {
        tells: &[
            Text("RTSP/1.0 200 OK\r\ncseq: 01\r\nSession:  0123456789abcdef ;timeout=60\r\n\r\n"),
            PLAYED,
            Text("\r\n"),
            Raw(&[0x24, 2, 0, 1, 0]),
            Film(0, 141),
            TORN_DOWN,
        ],
        end: WatchEnd::Done(Watched { most: 0, ..ALL }),
        ..COMPLETE
    },
];

/// Replies to SETUP that are none: one without a session, one to another request, one with an id
/// that no header field may have, one of another version.
const BAD_SETUP_REPLIES: &[&[Tell]] = &[
    &[Text("RTSP/1.0 200 OK\r\nCSeq: 1\r\n\r\n")],
    &[Text("RTSP/1.0 200 OK\r\nCSeq: 2\r\nSession: 1\r\n\r\n")],
    &[Text("RTSP/1.0 200 OK\r\nCSeq: 1\r\nSession: a\x01b\r\n\r\n")],
    &[Text("RTSP/2.0 200 OK\r\nCSeq: 1\r\nSession: 1\r\n\r\n")],
];

/// Replies to PLAY that are none: one with a needless leading zero, one that starts at once.
const BAD_PLAY_REPLIES: &[&[Tell]] = &[
    &[
        SET_UP,
        Text("RTSP/1.0 200 OK\r\nCSeq: 2\r\nRange: npt=0.000-00.080\r\nx-Start: 1\r\n\r\n"),
    ],
    &[
        SET_UP,
        Text("RTSP/1.0 200 OK\r\nCSeq: 2\r\nRange: npt=0.000-0.080\r\nx-Start: 0\r\n\r\n"),
    ],
];

/// First frames that are none: one before the reply to PLAY, the second frame, one byte, and frames
/// of films of no picture and of one too many.
const BAD_FIRST_FRAMES: &[&[Tell]] = &[
    &[SET_UP, Film(52, 106)],
    &[SET_UP, PLAYED, Film(106, 141)],
    &[SET_UP, PLAYED, Raw(&[0x24, 0, 0, 1, 0x80])],
    &[
        SET_UP,
        Text("RTSP/1.0 200 OK\r\nCSeq: 2\r\nRange: npt=0.000-0.000\r\nx-Start: 1\r\n\r\n"),
        Film(0, 106),
    ],
    &[
        SET_UP,
        Text("RTSP/1.0 200 OK\r\nCSeq: 2\r\nRange: npt=0.000-167772.161\r\nx-Start: 1\r\n\r\n"),
        Film(0, 106),
    ],
];

/// What a server says that ends the watching with a fault, in several ways each; how many requests
/// are sent before, and how many of the film's bytes are handed on.
const FAULTS: &[(&[&[Tell]], WatchFault, usize, usize)] = &[
    (BAD_SETUP_REPLIES, WatchFault::BadReply(1), 1, 0),
    (BAD_PLAY_REPLIES, WatchFault::BadReply(2), 2, 0),
    (
        &[&[SET_UP, PLAYED, TORN_DOWN]],
        WatchFault::BadReply(3),
        2,
        0,
    ),
    (&[&[SET_UP, NO_BANDWIDTH]], WatchFault::Refused(453), 2, 0),
    (BAD_FIRST_FRAMES, WatchFault::BadFrame(0), 2, 0),
    (
        &[
            &[SET_UP, PLAYED, Film(0, 106), GAP],
            &[SET_UP, PLAYED, Film(0, 106), STRANGER],
        ],
        WatchFault::BadFrame(1),
        2,
        34,
    ),
    (
        &[&[SET_UP, PLAYED, Film(0, 141), Film(106, 141)]],
        WatchFault::BadFrame(2),
        3,
        49,
    ),
    (
        &[&[SET_UP, PLAYED, Film(0, 106), Slot(3), Tell::End]],
        WatchFault::EndedEarly(1),
        2,
        34,
    ),
];

/// Appends an event with these bytes.
fn add_bytes(alloc: Global, events: &mut Vec<Event>, bytes: &[u8]) -> Option<()> {
    let bytes = Vec::from_slice(alloc, bytes).ok()?;
    events.push(Event::Bytes(bytes)).ok()
}

/// Appends the event that a link delivers. Where it brings bytes and `cut` is true, one event for
/// each byte.
fn add_events(alloc: Global, events: &mut Vec<Event>, tell: Tell, cut: bool) -> Option<()> {
    let bytes = match tell {
        Text(text) => text.as_bytes(),
        Film(from, to) => SENT.get(from..to)?,
        Raw(bytes) => bytes,
        Slot(slot) => return events.push(Event::Slot(slot)).ok(),
        Tell::End => return events.push(Event::End).ok(),
    };
    // No text of these tests has more bytes than that.
    let most = if cut { 1 } else { 1_000 };
    for part in bytes.chunks(most) {
        add_bytes(alloc, events, part)?;
    }
    Some(())
}

/// The events of all that a link delivers.
fn events_of(alloc: Global, tells: &[Tell], cut: bool) -> Option<Vec<Event>> {
    let mut events = Vec::new(alloc);
    for tell in tells {
        add_events(alloc, &mut events, *tell, cut)?;
    }
    Some(events)
}

/// The numbers of the calls that fail: a send, a call of `next`, and a write; 0 for none.
type Failing = [u64; 3];

/// No call fails.
const NO_FAILING: Failing = [0, 0, 0];

/// Calls that fail during the complete film, with what comes of it, how many requests are sent, and
/// how many of the film's bytes are handed on.
const FAILING_CALLS: &[(Failing, WatchEnd, usize, usize)] = &[
    ([1, 0, 0], WatchEnd::LinkFault, 0, 0),
    ([2, 0, 0], WatchEnd::LinkFault, 1, 0),
    ([3, 0, 0], WatchEnd::LinkFault, 2, 49),
    ([0, 1, 0], WatchEnd::LinkFault, 1, 0),
    ([0, 11, 0], WatchEnd::LinkFault, 3, 49),
    ([0, 0, 2], WatchEnd::SinkFault, 2, 34),
];

/// A link that gives these events, where these calls fail.
fn link_of(alloc: Global, events: Vec<Event>, failing: &Failing) -> Option<MemoryLink> {
    let sends = Vec::from_slice(alloc, &failing[..1]).ok()?;
    let nexts = Vec::from_slice(alloc, &failing[1..2]).ok()?;
    MemoryLink::new(alloc, events, 40_000, sends, nexts).ok()
}

/// An output where these calls fail.
fn sink_of(alloc: Global, failing: &Failing) -> Option<MemorySink> {
    let writes = Vec::from_slice(alloc, &failing[2..]).ok()?;
    MemorySink::new(alloc, 10_000, writes).ok()
}

/// What follows a request if it is sent, or `?` where other bytes stand.
fn after<'a>(bytes: &'a [u8], request: &str, is_sent: bool) -> &'a [u8] {
    if is_sent {
        bytes.strip_prefix(request.as_bytes()).unwrap_or(b"?")
    } else {
        bytes
    }
}

/// Whether these bytes are the case's requests.
fn is_sent(bytes: &[u8], case: &Case) -> bool {
    let setup = if case.buffer == 105 {
        SMALL_SETUP
    } else {
        SETUP
    };
    let later = after(bytes, setup, case.requests > 0);
    let last = after(later, PLAY, case.requests > 1);
    after(last, TEARDOWN, case.requests > 2).is_empty()
}

/// Whether these bytes are the film's first ones, so many of them.
fn is_film(bytes: &[u8], count: usize) -> bool {
    let (first, second) = bytes.split_at(bytes.len().min(34));
    bytes.len() == count && SENT[72..106].starts_with(first) && SENT[126..].starts_with(second)
}

/// What comes of watching the film over this link.
fn watched(
    alloc: Global,
    buffer: u64,
    link: &mut MemoryLink,
    out: &mut MemorySink,
) -> Option<WatchEnd> {
    let name = String::from_str(alloc, "b.mpg").ok()?;
    if !good_name(name.as_bytes()) || buffer < 1 || buffer > MAX_BYTES {
        return None;
    }
    let wish = Wish {
        name,
        port: 8554,
        buffer,
        startup: 2,
        slot_units: 14_400,
    };
    Some(watch(alloc, &wish, link, out))
}

/// Whether what was sent and what was handed on are what the case says.
fn is_told(case: &Case, link: &MemoryLink, out: &MemorySink) -> bool {
    is_sent(link.sent(), case) && is_film(out.bytes(), case.handed_on)
}

/// Whether watching the film comes to what the case says, over a link that gives these events,
/// where these calls of the environment fail.
fn is_watched(alloc: Global, case: &Case, events: Vec<Event>, failing: &Failing) -> bool {
    let Some(mut link) = link_of(alloc, events, failing) else {
        return false;
    };
    let Some(mut out) = sink_of(alloc, failing) else {
        return false;
    };
    let end = watched(alloc, case.buffer, &mut link, &mut out);
    end == Some(case.end) && is_told(case, &link, &out)
}

/// Whether the case comes about where these calls fail, and each byte is an event of its own or
/// not.
fn is_run(alloc: Global, case: &Case, cut: bool, failing: &Failing) -> bool {
    match events_of(alloc, case.tells, cut) {
        Some(events) => is_watched(alloc, case, events, failing),
        None => false,
    }
}

/// Compares what comes of a case where no call fails, in larger events and byte by byte.
fn check_case(rt: &impl Abort, alloc: Global, number: usize, case: &Case) {
    for cut in [false, true] {
        assert!(rt;
            is_run(alloc, case, cut, &NO_FAILING),
            "case {number} {cut}"
        );
    }
}

#[test]
fn watches_films(rt: HostRuntime) {
    for (number, case) in COMPLETE_CASES.iter().enumerate() {
        check_case(&rt, rt.alloc(), number, case);
    }
}

#[test]
fn faults_end_the_watching(rt: HostRuntime) {
    for (ways, fault, requests, handed_on) in FAULTS {
        for (number, tells) in ways.iter().enumerate() {
            let case = Case {
                buffer: BUFFER,
                tells: *tells,
                end: WatchEnd::Fault(*fault),
                requests: *requests,
                handed_on: *handed_on,
            };
            check_case(&rt, rt.alloc(), number, &case);
        }
    }
}

#[test]
fn blames_the_outside(rt: HostRuntime) {
    for (failing, end, requests, handed_on) in FAILING_CALLS {
        let case = Case {
            end: *end,
            requests: *requests,
            handed_on: *handed_on,
            ..COMPLETE
        };
        assert!(rt;
            is_run(rt.alloc(), &case, false, failing),
            "where {failing:?} fail"
        );
    }
}

#[test]
fn refuses_an_endless_head(rt: HostRuntime) -> Result<(), Fail> {
    let alloc = rt.alloc();
    let mut events = Vec::new(alloc);
    events.push(Event::Bytes(vec![in alloc; b'a'; 16_384]?))?;
    let case = Case {
        end: WatchEnd::Fault(WatchFault::Framing),
        requests: 1,
        handed_on: 0,
        ..COMPLETE
    };
    assert!(rt; is_watched(alloc, &case, events, &NO_FAILING));
    Ok(())
}
