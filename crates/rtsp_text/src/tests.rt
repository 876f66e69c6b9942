//! Requests and replies, as texts.

ghost use Rattle.std.specs.Prelude.{length, IfOk, IfSome};
ghost use Rattle.interleave.specs.Elements.{IsMessageLength};

mod players;
mod replies;

use super::*;
use crate::laws::law_look_finds_whole_requests;
use interleave::{Demux, Step};
use std::alloc::Global;
use std::process::Abort;
use std::test::Fail;

/// The part of a row at this place. The parts have `@` between them.
fn part(row: &str, place: usize) -> &str {
    row.split('@').nth(place).unwrap_or("")
}

/// The number that a text writes, if it does.
fn number(text: &str) -> Option<u64> {
    text.parse().ok()
}

/// The message at the start of a text, which is all that waits.
fn message_in<'a>(demux: &'a mut Demux, text: &str) -> Option<&'a [u8]>
    ensures { IfSome result (λ message. IsMessageLength message.now (length message.now)) }
{
    demux.drop_front(demux.waiting().len());
    // Where the text doesn't fit, nothing waits, and so there is no message.
    let _ = demux.put(text.as_bytes());
    match demux.look() {
        Ok(Step::Request(total)) => {
            let waiting = demux.waiting();
            law_look_finds_whole_requests(waiting, total);
            Some(&waiting[..total])
        }
        _ => None,
    }
}

/// What the rows of a table are about.
#[derive(Clone, Copy)]
enum Kind {
    Fault,
    Request,
    Sequence,
    UrlBytes,
    Reply,
    Required,
    Refusal,
    Printed,
    Written,
}

/// What the rows of a table are read and written with.
#[derive(Drop)]
struct Tools {
    demux: Demux,
    reply: Reply,
}

/// Whether this is the fault of a message, and the number in its CSeq, as `Debug` prints them.
fn is_fault(alloc: Global, message: &[u8], want: &str) -> bool
    requires { IsMessageLength message.now (length message.now) }
{
    let Err(fault) = read_request(message) else {
        return false;
    };
    let sequence = sequence_of(message);
    match format!(in alloc; "{fault:?} {sequence:?}") {
        Ok(found) => found.as_str() == want,
        Err(_) => false,
    }
}

/// Whether a message is read as its row says.
fn is_request(message: &[u8], row: &str) -> bool
    requires { IsMessageLength message.now (length message.now) }
{
    let Ok(request) = read_request(message) else {
        return false;
    };
    let body = part(row, 1).as_bytes();
    let value = header(&request, part(row, 6).as_bytes()).unwrap_or(b"none");
    let sequence = number(part(row, 5));
    request.method == part(row, 3).as_bytes()
        && request.url == part(row, 4).as_bytes()
        && Some(request.sequence) == sequence
        && sequence_of(message) == sequence
        && request.body == body
        && message.strip_prefix(request.head) == Some(body)
        && part(row, 0).as_bytes().strip_prefix(message) == Some(part(row, 2).as_bytes())
        && value == part(row, 7).as_bytes()
}

/// Whether what a row says of the message at the start of its text holds.
fn is_message(alloc: Global, reply: &mut Reply, kind: Kind, message: &[u8], row: &str) -> bool
    requires { IsMessageLength message.now (length message.now) }
{
    match kind {
        Kind::Fault => is_fault(alloc, message, part(row, 1)),
        Kind::Request => is_request(message, row),
        Kind::Required => replies::is_option_refused(reply, message, part(row, 1)),
        _ => replies::is_reply(read_reply(message), row),
    }
}

/// Whether what a row says holds.
fn is_right(alloc: Global, tools: &mut Tools, kind: Kind, row: &str) -> bool {
    let text = part(row, 0);
    match kind {
        Kind::Sequence => sequence_of(text.as_bytes()) == number(part(row, 1)),
        Kind::UrlBytes => has_url_bytes(text.as_bytes()) == (part(row, 1) == "true"),
        Kind::Refusal => replies::is_refusal(&mut tools.reply, row),
        Kind::Printed => {
            replies::is_refusal(&mut tools.reply, row)
                && replies::is_printed(alloc, &tools.reply, part(row, 3))
        }
        Kind::Written => replies::is_written(&mut tools.reply, row),
        _ => match message_in(&mut tools.demux, text) {
            Some(message) => is_message(alloc, &mut tools.reply, kind, message, row),
            None => false,
        },
    }
}

/// Compares each row of a table.
fn check(rt: &impl Abort, alloc: Global, kind: Kind, rows: &str) -> Result<(), Fail> {
    let demux = Demux::new(alloc)?;
    let reply = Reply::new(alloc)?;
    let mut tools = Tools { demux, reply };
    for row in rows.split('|') {
        assert!(rt; is_right(alloc, &mut tools, kind, row), "at {row:?}");
    }
    Ok(())
}

/// Messages, and the fault and the number in the CSeq of each, as `Debug` prints them.
const BAD_LINES: &str = "\
    OPTIONS * RTSP/2.0\ncseq: 7\n\n@BadVersion Some(7)|\
    OPTIONS * RTSP/1.1\ncseq: 7\n\n@BadVersion Some(7)|\
    OPTIONS * RTSP/01.0\ncseq: 7\n\n@BadVersion Some(7)|\
    OPTIONS * RTSP/10.00\ncseq: 7\n\n@BadVersion Some(7)|\
    OPTIONS * HTTP/1.0\ncseq: 7\n\n@BadLine Some(7)|\
    OPTIONS * rtsp/1.0\ncseq: 7\n\n@BadLine Some(7)|\
    OPTIONS * RTSP/1\ncseq: 7\n\n@BadLine Some(7)|\
    OPTIONS * RTSP/.0\ncseq: 7\n\n@BadLine Some(7)|\
    OPTIONS * RTSP/1.\ncseq: 7\n\n@BadLine Some(7)|\
    OPTIONS * RTSP/1.0.0\ncseq: 7\n\n@BadLine Some(7)|\
    OPTIONS * RTSP/1.0 \ncseq: 7\n\n@BadLine Some(7)|\
    OPTIONS * RTSP/1.0\r\r\ncseq: 7\n\n@BadLine Some(7)|\
    OPTIONS  * RTSP/1.0\ncseq: 7\n\n@BadLine Some(7)|\
    OPTIONS *  RTSP/1.0\ncseq: 7\n\n@BadLine Some(7)|\
    OPTIONS\t* RTSP/1.0\ncseq: 7\n\n@BadLine Some(7)|\
    \x20* RTSP/1.0\ncseq: 7\n\n@BadLine Some(7)|\
    OPT.IONS * RTSP/1.0\ncseq: 7\n\n@BadLine Some(7)|\
    OPTIONS ** RTSP/1.0\ncseq: 7\n\n@BadLine Some(7)|\
    OPTIONS *\ncseq: 7\n\n@BadLine Some(7)|\
    PLAY rtsp:// RTSP/1.0\ncseq: 7\n\n@BadLine Some(7)|\
    PLAY rtsp:///a RTSP/1.0\ncseq: 7\n\n@BadLine Some(7)|\
    PLAY rtsp:/h/a RTSP/1.0\ncseq: 7\n\n@BadLine Some(7)|\
    PLAY http://h/a RTSP/1.0\ncseq: 7\n\n@BadLine Some(7)|\
    PLAY rtsp://h/\u{7f} RTSP/1.0\ncseq: 7\n\n@BadLine Some(7)|\
    PLAY rtsp://h/\u{e4} RTSP/1.0\ncseq: 7\n\n@BadLine Some(7)|\
    PLAY rtsp://h/\u{2} RTSP/2.0\ncseq: 7\n\n@BadLine Some(7)";

#[test]
fn refuses_request_lines(rt: HostRuntime) -> Result<(), Fail> {
    check(&rt, rt.alloc(), Kind::Fault, BAD_LINES)
}

const BAD_HEADS: &str = "\
    OPTIONS * RTSP/1.0\r\n CSeq: 1\r\n\r\n@BadHeader(1) None|\
    OPTIONS * RTSP/1.0\r\nCSeq : 1\r\n\r\n@BadHeader(1) None|\
    OPTIONS * RTSP/1.0\r\nCSeq: 1\r\nUser Agent: x\r\n\r\n@BadHeader(2) Some(1)|\
    OPTIONS * RTSP/1.0\r\nCSeq: 1\r\nX: a\rb\r\n\r\n@BadHeader(2) Some(1)|\
    OPTIONS * RTSP/1.0\r\nCSeq: 1\r\nX: a\u{1}\r\nY\r\n\r\n@BadHeader(2) Some(1)|\
    OPTIONS * RTSP/1.0\r\nCSeq: 1\r\nX: a\u{7f}\r\n\r\n@BadHeader(2) Some(1)|\
    OPTIONS * RTSP/1.0\r\nX: 1\nX\nX:\nCSeq: 4\n\r\n@BadHeader(2) Some(4)|\
    OPTIONS * RTSP/1.0\r\nX: 1\nY: 2\n: 3\n\r\n@BadHeader(3) None|\
    OPTIONS * RTSP/1.0\r\nCSeq: 1a\n\r\n@NoSequenceNumber None|\
    OPTIONS * RTSP/1.0\r\nCSeq:\n\r\n@NoSequenceNumber None|\
    OPTIONS * RTSP/1.0\r\nCSeq: -1\n\r\n@NoSequenceNumber None|\
    OPTIONS * RTSP/1.0\r\nX: 1\n\r\n@NoSequenceNumber None|\
    OPTIONS * RTSP/1.0\r\n\r\n@NoSequenceNumber None|\
    OPTIONS * RTSP/1.0\r\nCSeq: 18446744073709551616\n\r\n@NoSequenceNumber None|\
    OPTIONS * RTSP/1.0\r\nCSeq: 1a\r\ncseq:\t 12 \t\r\n\r\n@NoSequenceNumber Some(12)|\
    OPTIONS * RTSP/1.0\r\nCSeq: x\r\nContent-Length: x\r\n\r\n@NoSequenceNumber None|\
    OPTIONS * RTSP/1.0\r\nCSeq: 3\r\nContent-Length: x\r\n\r\n@BadLength Some(3)|\
    OPTIONS * RTSP/1.0\r\nCSeq: 3\r\ncontent-length:\r\n\r\n@BadLength Some(3)|\
    OPTIONS * RTSP/1.0\r\n\
    Content-Length: 1 2\r\nContent-Length: 0\r\nCSeq: 3\r\n\r\n@BadLength Some(3)";

#[test]
fn refuses_heads(rt: HostRuntime) -> Result<(), Fail> {
    check(&rt, rt.alloc(), Kind::Fault, BAD_HEADS)
}

/// Messages with several faults, and the one that is answered.
const MANY_FAULTS: &str = "\
    OPTIONS * RTSP\n x\n\n@BadLine None|\
    OPTIONS * RTSP/2.0\n x\n\n@BadVersion None|\
    OPTIONS * RTSP/1.0\n x\n\n@BadHeader(1) None|\
    OPTIONS * RTSP/1.0\nContent-Length: x\n\n@NoSequenceNumber None";

#[test]
fn refuses_in_order(rt: HostRuntime) -> Result<(), Fail> {
    check(&rt, rt.alloc(), Kind::Fault, MANY_FAULTS)
}

/// Texts, and what is read of the request at their start. The parts of a row: the text, the body,
/// what comes after the request, the method, the URL, the number in the CSeq, the name of a field,
/// and its value, or `none`.
const REQUESTS: &str = "\
    OPTIONS * RTSP/1.0\ncseq: 7\n\n@@@OPTIONS@*@7@CSeq@7|\
    OPTIONS rtsp://127.0.0.1:8554/news.mpg RTSP/1.0\r\nCSeq: 1\r\n\
    User-Agent: Lavf60.16.100\r\n\r\n@@@\
    OPTIONS@rtsp://127.0.0.1:8554/news.mpg@1@user-agent@Lavf60.16.100|\
    OPTIONS RTSP://h RTSP/1.0\r\nCSeq: 1\r\nUser-Agent: GStreamer/1.22.0\r\n\
    User-Agent: x\r\n\r\n@@@\
    OPTIONS@RTSP://h@1@User-Agent@GStreamer/1.22.0|\
    DESCRIBE rtsp://127.0.0.1:8554/news.mpg RTSP/1.0\r\nAccept: application/sdp\r\n\
    CSeq: 2\r\n\r\nPLAY@@PLAY@\
    DESCRIBE@rtsp://127.0.0.1:8554/news.mpg@2@Accept@application/sdp|\
    SETUP rtsp://h/news.mpg/video RTSP/1.0\r\n\
    Transport: RTP/AVP/UDP;unicast;client_port=5000-5001, \
    RTP/AVP/TCP;unicast;interleaved=0-1\r\n\
    CSeq: 3\r\n\r\n@@@\
    SETUP@rtsp://h/news.mpg/video@3@transport@\
    RTP/AVP/UDP;unicast;client_port=5000-5001, RTP/AVP/TCP;unicast;interleaved=0-1|\
    PLAY rtsp://h/news.mpg/ RTSP/1.0\r\nRange: npt=0.000-\r\nCSeq: 4\r\n\
    Session: 0123456789abcdef\r\n\r\n@@@\
    PLAY@rtsp://h/news.mpg/@4@RANGE@npt=0.000-|\
    GET_PARAMETER rtsp://h/news.mpg RTSP/1.0\r\nCSeq: 5\r\n\
    Session:\t0123456789abcdef \t\r\n\r\n@@@\
    GET_PARAMETER@rtsp://h/news.mpg@5@Session@0123456789abcdef|\
    GET_PARAMETER rtsp://h/n RTSP/1.0\r\nCSeq: 0006\r\nContent-Length: 8\r\n\r\n\
    x-Bookedrest@x-Booked@rest@\
    GET_PARAMETER@rtsp://h/n@6@Scale@none|\
    x-1 * RTSP/1.0\nX: a:b\nCSeq:7\nCSeq: 8\ncontent-length:02\n\nab@ab@@\
    x-1@*@7@x@a:b";

#[test]
fn reads_requests(rt: HostRuntime) -> Result<(), Fail> {
    check(&rt, rt.alloc(), Kind::Request, REQUESTS)
}

/// Texts, and the number that is found in each, if one is.
const SEQUENCES: &str = "\
    |\
    CSeq: 3\r\n\r\n|\
    a\r\n\r\nCSeq: 3\r\n\r\n|\
    a\r\nCSeq: 3@3|\
    a\nX\nCSeq=1\ncSEQ:18446744073709551615\n@18446744073709551615";

#[test]
fn finds_sequences_in_heads(rt: HostRuntime) -> Result<(), Fail> {
    check(&rt, rt.alloc(), Kind::Sequence, SEQUENCES)
}

/// Texts, and whether a URL may have their bytes.
const URL_BYTES: &str = "@true|!~@true|rtsp://h/a@true|a b@false|a\t@false|\u{7f}@false|\
    \u{e4}@false";

#[test]
fn judges_the_bytes_of_urls(rt: HostRuntime) -> Result<(), Fail> {
    check(&rt, rt.alloc(), Kind::UrlBytes, URL_BYTES)
}
