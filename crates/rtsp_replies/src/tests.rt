//! Refusals and replies, as they stand on the wire.

use super::*;
use early_start::Offers;
use rtsp_fields::Channels;
use rtsp_methods::Refusal;
use rtsp_text::Reply;
use std::alloc::Global;
use std::process::Abort;
use std::test::Fail;

/// A session's id.
const ID: [u8; 16] = *b"0123456789abcdef";

/// What the texts are written with.
#[derive(Drop)]
struct Tools {
    reply: Reply,
    body: Text,
}

/// What is written, or printed by `Debug`.
#[derive(Clone, Copy)]
enum Step {
    Refuse(Refusal),
    RefuseUnnumbered,
    Public,
    Description,
    Setup,
    Play,
    Session,
    Overflow,
    Full,
    Plain,
    Look,
    PrintBody,
    Parameters,
    Offer,
    Clear,
}

/// Writes the answer to a PLAY.
fn write_play(reply: &mut Reply) {
    let info = PlayInfo {
        first_ms: 40,
        end_ms: 10_000,
        authority: b"h:8554",
        name: b"b.mpg",
        sequence: 17,
        timestamp: 3_600,
    };
    put_play(reply, 5, &ID, &info);
    put_start(reply, 3);
}

/// Writes the answer with a body.
fn write_parameters(reply: &mut Reply, body: &[u8]) {
    if body.len() <= MAX_TEXT_BYTES {
        put_parameters(reply, 10, body);
    }
}

/// Whether a body is printed so.
fn is_printed(alloc: Global, body: &Text, want: &str) -> bool {
    match format!(in alloc; "{body:?}") {
        Ok(text) => text.as_str() == want,
        Err(_) => false,
    }
}

/// Writes what an empty list offers.
fn write_offer(alloc: Global, body: &mut Text) {
    if let Ok(offers) = Offers::new(alloc, 3) {
        put_offer(body, &offers);
    }
}

/// Whether the body that this step writes is the text.
fn is_body(alloc: Global, body: &mut Text, step: Step, text: &str) -> bool {
    match step {
        Step::Look => put_look(body, 7, 8, 35),
        Step::PrintBody => return is_printed(alloc, body, text),
        Step::Offer => write_offer(alloc, body),
        _ => body.clear(),
    }
    body.bytes() == text.as_bytes()
}

/// Whether what this step writes is the text.
fn is_written(alloc: Global, tools: &mut Tools, step: Step, text: &str) -> bool {
    let reply = &mut tools.reply;
    let channels = Channels {
        media: 2,
        control: 3,
    };
    match step {
        Step::Refuse(refusal) => put_refusal(reply, Some(7), refusal, b"x-key"),
        Step::RefuseUnnumbered => put_refusal(reply, None, Refusal::BadRequest, b""),
        Step::Public => put_public(reply, 1),
        Step::Description => put_description(reply, 2, b"127.0.0.1:8554", "news.mpg", 10_000),
        Step::Setup => put_setup(reply, 4, channels, 0x0102_0304, &ID),
        Step::Play => write_play(reply),
        Step::Session => put_session(reply, 6, &ID),
        Step::Overflow => put_overflow(reply, 7, 12, 40_000, 10_001),
        Step::Full => put_full(reply, 8, 1_000, 3),
        Step::Plain => put_plain(reply, 9),
        Step::Parameters => write_parameters(reply, tools.body.bytes()),
        _ => return is_body(alloc, &mut tools.body, step, text),
    }
    reply.bytes() == text.as_bytes()
}

/// Compares what these steps write, one after the other, with a text for each.
fn check(rt: &impl Abort, alloc: Global, steps: &[Step], texts: &str) -> Result<(), Fail> {
    let reply = Reply::new(alloc)?;
    let body = Text::new(alloc)?;
    let mut tools = Tools { reply, body };
    for (place, step) in steps.iter().enumerate() {
        let text = texts.split('|').nth(place).unwrap_or("no text");
        assert!(rt; is_written(alloc, &mut tools, *step, text), "at {text:?}");
    }
    Ok(())
}

/// Each refusal of a request with the number 7 that requires `x-key`, and one without a number.
const REFUSALS: &[Step] = &[
    Step::Refuse(Refusal::BadRequest),
    Step::Refuse(Refusal::Version),
    Step::Refuse(Refusal::Method),
    Step::Refuse(Refusal::Option),
    Step::Refuse(Refusal::Session),
    Step::Refuse(Refusal::Film),
    Step::Refuse(Refusal::State),
    Step::Refuse(Refusal::Transport),
    Step::Refuse(Refusal::Parameter),
    Step::Refuse(Refusal::Buffer(54)),
    Step::Refuse(Refusal::Range),
    Step::Refuse(Refusal::Memory),
    Step::RefuseUnnumbered,
];

/// The replies, in the same order.
const REFUSAL_TEXTS: &str = "\
    RTSP/1.0 400 Bad Request\r\nCSeq: 7\r\n\r\n|\
    RTSP/1.0 505 RTSP Version Not Supported\r\nCSeq: 7\r\n\r\n|\
    RTSP/1.0 501 Not Implemented\r\nCSeq: 7\r\n\r\n|\
    RTSP/1.0 551 Option Not Supported\r\nCSeq: 7\r\nUnsupported: x-key\r\n\r\n|\
    RTSP/1.0 454 Session Not Found\r\nCSeq: 7\r\n\r\n|\
    RTSP/1.0 404 Not Found\r\nCSeq: 7\r\n\r\n|\
    RTSP/1.0 455 Method Not Valid In This State\r\nCSeq: 7\r\n\r\n|\
    RTSP/1.0 461 Unsupported Transport\r\nCSeq: 7\r\n\r\n|\
    RTSP/1.0 451 Parameter Not Understood\r\nCSeq: 7\r\n\r\n|\
    RTSP/1.0 451 Parameter Not Understood\r\nCSeq: 7\r\nx-Least-Buffer: 54\r\n\r\n|\
    RTSP/1.0 457 Invalid Range\r\nCSeq: 7\r\n\r\n|\
    RTSP/1.0 500 Internal Server Error\r\nCSeq: 7\r\n\r\n|\
    RTSP/1.0 400 Bad Request\r\n\r\n";

#[test]
fn writes_refusals(rt: HostRuntime) -> Result<(), Fail> {
    check(&rt, rt.alloc(), REFUSALS, REFUSAL_TEXTS)
}

const DESCRIBED: &str = "\
    RTSP/1.0 200 OK\r\nCSeq: 1\r\n\
    Public: OPTIONS, DESCRIBE, SETUP, PLAY, PAUSE, TEARDOWN, GET_PARAMETER\r\n\r\n|\
    RTSP/1.0 200 OK\r\nCSeq: 2\r\n\
    Content-Base: rtsp://127.0.0.1:8554/news.mpg/\r\nContent-Type: application/sdp\r\n\
    Content-Length: 142\r\n\r\nv=0\r\no=- 0 0 IN IP4 127.0.0.1\r\ns=news.mpg\r\n\
    c=IN IP4 0.0.0.0\r\nt=0 0\r\na=control:*\r\na=range:npt=0-10.000\r\n\
    m=video 0 RTP/AVP 32\r\na=control:video\r\n";

#[test]
fn writes_the_methods_and_a_description(rt: HostRuntime) -> Result<(), Fail> {
    check(
        &rt,
        rt.alloc(),
        &[Step::Public, Step::Description],
        DESCRIBED,
    )
}

const PLAYED: &str = "\
    RTSP/1.0 200 OK\r\nCSeq: 4\r\n\
    Transport: RTP/AVP/TCP;unicast;interleaved=2-3;ssrc=01020304\r\n\
    Session: 0123456789abcdef\r\n\r\n|\
    RTSP/1.0 200 OK\r\nCSeq: 5\r\nSession: 0123456789abcdef\r\nRange: npt=0.040-10.000\r\n\
    RTP-Info: url=rtsp://h:8554/b.mpg/video;seq=17;rtptime=3600\r\nx-Start: 3\r\n\r\n|\
    RTSP/1.0 200 OK\r\nCSeq: 6\r\nSession: 0123456789abcdef\r\n\r\n";

#[test]
fn writes_the_answers_to_setup_and_play(rt: HostRuntime) -> Result<(), Fail> {
    check(
        &rt,
        rt.alloc(),
        &[Step::Setup, Step::Play, Step::Session],
        PLAYED,
    )
}

const NO_ROOM: &str = "\
    RTSP/1.0 453 Not Enough Bandwidth\r\nCSeq: 7\r\nx-Slot: 12\r\n\
    x-Booked: 40000\r\nx-Asked: 10001\r\n\r\n|\
    RTSP/1.0 503 Service Unavailable\r\nCSeq: 8\r\nx-Entries: 1000\r\nx-Open: 3\r\n\r\n";

#[test]
fn writes_what_the_link_and_the_journal_refuse(rt: HostRuntime) -> Result<(), Fail> {
    check(&rt, rt.alloc(), &[Step::Overflow, Step::Full], NO_ROOM)
}

const PARAMETER_STEPS: &[Step] = &[
    Step::Plain,
    Step::Look,
    Step::PrintBody,
    Step::Parameters,
    Step::Offer,
    Step::Clear,
];

/// What these steps write; the last leaves nothing.
const PARAMETER_TEXTS: &str = "\
    RTSP/1.0 200 OK\r\nCSeq: 9\r\n\r\n|\
    x-Now: 7\r\nx-Slot: 8\r\nx-Booked: 35\r\n|\
    Text { length: 35, .. }|\
    RTSP/1.0 200 OK\r\nCSeq: 10\r\nContent-Type: text/parameters\r\nContent-Length: 35\r\n\r\n\
    x-Now: 7\r\nx-Slot: 8\r\nx-Booked: 35\r\n|\
    x-Start: none\r\n|";

#[test]
fn writes_parameters(rt: HostRuntime) -> Result<(), Fail> {
    check(&rt, rt.alloc(), PARAMETER_STEPS, PARAMETER_TEXTS)
}
