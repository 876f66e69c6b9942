//! Replies, as they are written and read.

ghost use Rattle.std.specs.Prelude.{◌≡◌, ◌≤◌, IsTrue, true, length};
ghost use Rattle.interleave.specs.Elements.{IsMessageLength};
ghost use Rattle.rtsp_text.specs.Lines.{is_one_line};
ghost use Rattle.rtsp_text.specs.Replies.{is_code};

use super::{Kind, check, number, part};
use crate::{Reply, ReplyParts, header, header_of, read_request};
use std::alloc::Global;
use std::test::Fail;

/// Appends where a film's frames come from, by a part of a URL.
fn put_info(reply: &mut Reply, authority: &[u8])
    requires one_line { is_one_line authority.now ≡ true }
    requires short { length authority.now ≤ 16384 }
    requires fits { length reply.old ≤ 1000 }
    ensures { length reply.new ≤ 20000 }
{
    reply.field_from_parts(
        b"RTP-Info",
        &[
            b"url=rtsp://".as_slice(),
            authority,
            b"/news.mpg/video;seq=1;rtptime=0".as_slice(),
        ],
    );
}

/// Appends the field of this name that a head has.
fn put_field(reply: &mut Reply, head: &[u8], name: &[u8]) {
    if let Some(value) = header_of(head, name)
        && reply.bytes().len() <= 1_000
        && name.len() <= 100
        && value.len() <= 1_000
    {
        reply.field(name, value);
    }
}

/// Appends a number, if there is one, and a body.
fn put_end(reply: &mut Reply, name: &[u8], number: Option<u64>, body: &[u8]) {
    if reply.bytes().len() > 2_000 || name.len() > 100 || body.len() > 1_000 {
        return;
    }
    if let Some(number) = number {
        reply.number_field(name, number);
    }
    reply.finish(body);
}

/// Whether a reply is written as its row says. The parts of a row: the text, the number in the
/// CSeq, the first fields, each in a line of its own after an empty one, the authority of an
/// RTP-Info, the name and the number of a last field, and the body.
pub(super) fn is_written(reply: &mut Reply, row: &str) -> bool {
    let fields = part(row, 2);
    reply.clear();
    reply.start(200, number(part(row, 1)));
    for line in fields.split('\n') {
        let name = line.split(':').next().unwrap_or("");
        put_field(reply, fields.as_bytes(), name.as_bytes());
    }
    if part(row, 3) == "127.0.0.1:8554" && reply.bytes().len() <= 1_000 {
        put_info(reply, b"127.0.0.1:8554");
    }
    put_end(
        reply,
        part(row, 4).as_bytes(),
        number(part(row, 5)),
        part(row, 6).as_bytes(),
    );
    reply.bytes() == part(row, 0).as_bytes()
}

/// The answer to DESCRIBE. The description has 142 bytes.
const DESCRIBED: &str = "\
    RTSP/1.0 200 OK\r\nCSeq: 2\r\nContent-Base: rtsp://127.0.0.1:8554/news.mpg/\r\n\
    Content-Type: application/sdp\r\nContent-Length: 142\r\n\r\n\
    v=0\r\no=- 0 0 IN IP4 127.0.0.1\r\ns=news.mpg\r\nc=IN IP4 0.0.0.0\r\nt=0 0\r\n\
    a=control:*\r\na=range:npt=0-10.000\r\nm=video 0 RTP/AVP 32\r\na=control:video\r\n@\
    2@\nContent-Base: rtsp://127.0.0.1:8554/news.mpg/\nContent-Type: application/sdp@@\
    Content-Length@142@\
    v=0\r\no=- 0 0 IN IP4 127.0.0.1\r\ns=news.mpg\r\nc=IN IP4 0.0.0.0\r\nt=0 0\r\n\
    a=control:*\r\na=range:npt=0-10.000\r\nm=video 0 RTP/AVP 32\r\na=control:video\r\n";

#[test]
fn writes_the_answer_to_describe(rt: HostRuntime) -> Result<(), Fail> {
    assert!(rt; part(DESCRIBED, 6).len() == 142);
    check(&rt, rt.alloc(), Kind::Written, DESCRIBED)
}

/// The answers to SETUP and to PLAY.
const PLAYED: &str = "\
    RTSP/1.0 200 OK\r\nCSeq: 4\r\n\
    Transport: RTP/AVP/TCP;unicast;interleaved=0-1;ssrc=01020304\r\n\
    Session: 0123456789abcdef\r\n\r\n@\
    4@\nTransport: RTP/AVP/TCP;unicast;interleaved=0-1;ssrc=01020304\n\
    Session: 0123456789abcdef|\
    RTSP/1.0 200 OK\r\nCSeq: 5\r\nSession: 0123456789abcdef\r\nRange: npt=0.000-10.000\r\n\
    RTP-Info: url=rtsp://127.0.0.1:8554/news.mpg/video;seq=1;rtptime=0\r\nx-Start: 1\r\n\r\n@\
    5@\nSession: 0123456789abcdef\nRange: npt=0.000-10.000@127.0.0.1:8554@x-Start@1";

#[test]
fn writes_the_answers_to_setup_and_play(rt: HostRuntime) -> Result<(), Fail> {
    check(&rt, rt.alloc(), Kind::Written, PLAYED)
}

/// Whether a reply may have this code.
fn may_answer(code: u16) -> bool
    ensures { result ≡ is_code code }
{
    code == 200
        || code == 400
        || code == 404
        || code == 451
        || code == 453
        || code == 454
        || code == 455
        || code == 457
        || code == 461
        || code == 500
        || code == 501
        || code == 503
        || code == 505
        || code == 551
}

/// Codes, sequence numbers, and what a reply with nothing else says.
const REFUSALS: &str = "\
    451@9@RTSP/1.0 451 Parameter Not Understood\r\nCSeq: 9\r\n\r\n|\
    453@9@RTSP/1.0 453 Not Enough Bandwidth\r\nCSeq: 9\r\n\r\n|\
    454@9@RTSP/1.0 454 Session Not Found\r\nCSeq: 9\r\n\r\n|\
    455@9@RTSP/1.0 455 Method Not Valid In This State\r\nCSeq: 9\r\n\r\n|\
    457@9@RTSP/1.0 457 Invalid Range\r\nCSeq: 9\r\n\r\n|\
    461@9@RTSP/1.0 461 Unsupported Transport\r\nCSeq: 9\r\n\r\n|\
    500@9@RTSP/1.0 500 Internal Server Error\r\nCSeq: 9\r\n\r\n|\
    501@9@RTSP/1.0 501 Not Implemented\r\nCSeq: 9\r\n\r\n|\
    503@9@RTSP/1.0 503 Service Unavailable\r\nCSeq: 9\r\n\r\n|\
    505@9@RTSP/1.0 505 RTSP Version Not Supported\r\nCSeq: 9\r\n\r\n|\
    400@@RTSP/1.0 400 Bad Request\r\n\r\n|\
    404@18446744073709551615@RTSP/1.0 404 Not Found\r\nCSeq: 18446744073709551615\r\n\r\n";

/// Whether a reply with the code and the sequence number of a row is its text.
pub(super) fn is_refusal(reply: &mut Reply, row: &str) -> bool {
    let code = part(row, 0).parse::<u16>().unwrap_or(0);
    if !may_answer(code) {
        return false;
    }
    reply.clear();
    reply.start(code, number(part(row, 1)));
    reply.finish(b"");
    reply.bytes() == part(row, 2).as_bytes()
}

/// Whether a reply is printed so.
pub(super) fn is_printed(alloc: Global, reply: &Reply, want: &str) -> bool {
    match format!(in alloc; "{reply:?}") {
        Ok(text) => text.as_str() == want,
        Err(_) => false,
    }
}

/// A refusal, and how `Debug` prints the reply.
const PRINTED: &str = "400@@RTSP/1.0 400 Bad Request\r\n\r\n@Reply { length: 28, .. }";

#[test]
fn writes_refusals(rt: HostRuntime) -> Result<(), Fail> {
    check(&rt, rt.alloc(), Kind::Refusal, REFUSALS)?;
    check(&rt, rt.alloc(), Kind::Printed, PRINTED)
}

/// The answer to a request that requires an option. It repeats the option, and fits whatever that
/// is.
fn refuse_option(reply: &mut Reply, message: &[u8])
    requires { IsMessageLength message.now (length message.now) }
{
    reply.clear();
    let Ok(request) = read_request(message) else {
        return;
    };
    if let Some(option) = header(&request, b"Require") {
        reply.start(551, Some(request.sequence));
        reply.field(b"Unsupported", option);
        reply.finish(b"");
    }
}

/// Whether the answer to a message that requires an option is this text.
pub(super) fn is_option_refused(reply: &mut Reply, message: &[u8], text: &str) -> bool
    requires { IsMessageLength message.now (length message.now) }
{
    refuse_option(reply, message);
    reply.bytes() == text.as_bytes()
}

const REQUIRED: &str = "\
    PLAY * RTSP/1.0\r\nCSeq: 6\r\nRequire:  x \r\n\r\n@\
    RTSP/1.0 551 Option Not Supported\r\nCSeq: 6\r\nUnsupported: x\r\n\r\n";

#[test]
fn repeats_an_option(rt: HostRuntime) -> Result<(), Fail> {
    check(&rt, rt.alloc(), Kind::Required, REQUIRED)
}

/// Texts, and what is read of the reply at their start. The parts of a row: the text, the code, the
/// body, the name of a field, and its value.
const REPLIES: &str = "\
    RTSP/1.0 200 OK\r\nCSeq: 2\r\nx-Start: 1\r\nContent-Length: 3\r\n\r\nv=0rest@200@v=0@X-START@1|\
    RTSP/1.0 007 a b\nSession\nsession:\n\n@7@@Session@";

/// Whether a reply is read as its row says; a text alone is no reply.
pub(super) fn is_reply(found: Option<ReplyParts<'_>>, row: &str) -> bool {
    match found {
        Some(reply) => {
            Some(u64::from(reply.code)) == number(part(row, 1))
                && reply.body == part(row, 2).as_bytes()
                && header_of(reply.head, part(row, 3).as_bytes()) == Some(part(row, 4).as_bytes())
        }
        None => !row.contains('@'),
    }
}

#[test]
fn reads_replies(rt: HostRuntime) -> Result<(), Fail> {
    check(&rt, rt.alloc(), Kind::Reply, REPLIES)
}

/// Messages that are no replies.
const NO_REPLIES: &str = "\
    RTSP/1.0 007  a\n\n|\
    RTSP/1.0 20 OK\n\n|\
    RTSP/1.0 2000 OK\n\n|\
    RTSP/1.0 200 \n\n|\
    RTSP/1.0 200\n\n|\
    RTSP/1.1 200 OK\n\n|\
    RTSP/1.0  200 OK\n\n";

#[test]
fn refuses_replies(rt: HostRuntime) -> Result<(), Fail> {
    check(&rt, rt.alloc(), Kind::Reply, NO_REPLIES)
}
