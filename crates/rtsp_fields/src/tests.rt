//! The fields of requests and replies, as texts.

ghost use Rattle.std.specs.Prelude.{◌≤◌, length};

use super::*;
use rtsp_text::Reply;
use std::process::Abort;
use std::test::Fail;

/// The part of a row at this place. The parts have `@` between them.
fn part(row: &str, place: usize) -> &str {
    row.split('@').nth(place).unwrap_or("")
}

/// The number that a text writes, if it does.
fn number(text: &str) -> Option<u64> {
    text.parse().ok()
}

/// What the rows of a table are about.
#[derive(Clone, Copy)]
enum Kind {
    Range,
    Transport,
    Url,
    Numbers,
    Session,
}

/// Whether a range is read as its row says: the value, from where and how far, in nanoseconds.
fn is_range(row: &str) -> bool {
    let from = part(row, 1);
    match read_range(part(row, 0).as_bytes()) {
        None => !row.contains('@'),
        Some(span) => {
            let begins = match span.from {
                Origin::Now => from == "now",
                Origin::At(time) => Some(time) == number(from).map(u128::from),
            };
            begins && span.to == number(part(row, 2)).map(u128::from)
        }
    }
}

/// Whether the channels of a row are read of the value before them.
fn is_transport(row: &str) -> bool {
    match read_transport(part(row, 0).as_bytes()) {
        None => !row.contains('@'),
        Some(channels) => {
            Some(u64::from(channels.media)) == number(part(row, 1))
                && Some(u64::from(channels.control)) == number(part(row, 2))
        }
    }
}

/// Whether the authority and the film's name of a row are read of the URL before them.
fn is_url(row: &str) -> bool {
    match read_url(part(row, 0).as_bytes()) {
        None => !row.contains('@'),
        Some(url) => {
            row.contains('@')
                && url.authority == part(row, 1).as_bytes()
                && url.name.unwrap_or(b"") == part(row, 2).as_bytes()
        }
    }
}

/// Whether a text is read as its row says: as a buffer, a delay and a wait.
fn is_number(row: &str) -> bool {
    let text = part(row, 0).as_bytes();
    read_buffer(text) == number(part(row, 1))
        && read_delay(text) == number(part(row, 2))
        && read_wait(text) == number(part(row, 3))
}

/// Whether what a row says of its text holds.
fn is_right(kind: Kind, row: &str) -> bool {
    match kind {
        Kind::Range => is_range(row),
        Kind::Transport => is_transport(row),
        Kind::Url => is_url(row),
        Kind::Numbers => is_number(row),
        Kind::Session => {
            session_matches(part(row, 0).as_bytes(), b"0123456789abcdef")
                == (part(row, 1) == "true")
        }
    }
}

/// Compares each row of a table.
fn check(rt: &impl Abort, kind: Kind, rows: &str) {
    for row in rows.split('|') {
        assert!(rt; is_right(kind, row), "at {row:?}");
    }
}

/// Ranges, from where and how far; the values alone are no ranges.
const RANGES: &str = "\
    npt=1:02:03.5-@3723500000000@|\
    npt=now-7@now@7000000000|\
    npt=now-@now@|\
    npt=0.000-@0@|\
    NPT=0-10.000@0@10000000000|\
    npt=5-5@5000000000@5000000000|\
    npt=5-6@5000000000@6000000000|\
    npt=5.-@5000000000@|\
    npt=0.1234567891-@123456789@|\
    npt=0.5-@500000000@|\
    npt=999999999-@999999999000000000@|\
    npt=99999:59:59-@359999999000000000@|\
    npt=0:1:2-@62000000000@";

#[test]
fn reads_ranges(rt: HostRuntime) {
    check(&rt, Kind::Range, RANGES);
}

const NO_RANGES: &str = "|npt=|npt=-|npt=-7|npt=-3|npt=7|npt=1e3-|npt=0:60:00-|npt=0:00:60-|\
    npt=0:0:0:0-|npt=1:2-|npt=000000:0:0-|npt=0:000:0-|npt=1234567890-|npt=.5-|npt=1.2.3-|\
    npt=NOW-|npt=now-now|npt=1-2-3|npt=1-2;time=3|npt= 1-|npt =1-|smpte=0:00:05-|\
    clock=19961108T142300Z-";

#[test]
fn refuses_ranges(rt: HostRuntime) {
    check(&rt, Kind::Range, NO_RANGES);
}

/// Values of Transport, and the channels that are read of them.
const TRANSPORTS: &str = "\
    RTP/AVP;unicast;client_port=5000-5001, RTP/AVP/TCP;interleaved=2@2@3|\
    RTP/AVP/TCP;unicast@0@1|\
    RTP/AVP/TCP@0@1|\
    RTP/AVP/TCP;unicast;interleaved=0-1@0@1|\
    rtp/avp/tcp ; Unicast ;\tINTERLEAVED=6-255@6@255|\
    RTP/AVP/TCP;interleaved=254@254@255|\
    RTP/AVP/TCP;interleaved=007-0006@7@6|\
    RTP/AVP/TCP;interleaved=4-5;interleaved=8-9@4@5|\
    RTP/AVP/TCP;mode=play@0@1|\
    RTP/AVP/TCP;mode=\"PLAY\";ssrc=0@0@1|\
    RTP/AVP/TCP;mode=record,RTP/AVP/TCP;interleaved=8@8@9|\
    ,,RTP/AVP/TCP;;@0@1|\
    RTP/AVP/TCP;interleaved=255, RTP/AVP/TCP@0@1|\
    RTP/AVP/TCP;interleaved=255|\
    RTP/AVP/TCP;interleaved=7-7|\
    RTP/AVP/TCP;interleaved=0-256|\
    RTP/AVP/TCP;interleaved=0-|\
    RTP/AVP/TCP;interleaved=|\
    RTP/AVP/TCP;interleaved=0-1-2|\
    RTP/AVP/TCP;interleaved=a-b|\
    RTP/AVP/TCP;multicast|\
    RTP/AVP/TCP;mode=record|\
    RTP/AVP/TCP;mode=|\
    RTP/AVP;unicast;client_port=5000-5001|\
    unicast;RTP/AVP/TCP|\
    RTP/AVP/TCPX|\
    ";

#[test]
fn reads_transports(rt: HostRuntime) {
    check(&rt, Kind::Transport, TRANSPORTS);
}

/// URLs, their authorities, and the films that they name, if they name one. The texts that stand
/// alone are no URLs.
const URLS: &str = "\
    RTSP://h:8554/news.mpg/video/@h:8554@news.mpg|\
    rtsp://127.0.0.1:8554/news.mpg@127.0.0.1:8554@news.mpg|\
    rtsp://h/news.mpg/@h@news.mpg|\
    rtsp://h/news.mpg/video@h@news.mpg|\
    rtsp://h/video@h@video|\
    rtsp://h/video/video@h@video|\
    rtsp://h@h@|\
    rtsp://h/@h@|\
    rtsp://h//@h@|\
    rtsp://h/.mpg@h@|\
    rtsp://h/a/../b@h@|\
    rtsp://h/a//video@h@|\
    rtsp://h/a/audio@h@|\
    rtsp://h/a/video//@h@|\
    rtsp://h/a/VIDEO@h@|\
    rtsp://h/a%20b@h@|\
    |\
    *|\
    rtsp://|\
    rtsp:///a|\
    rtsp:/h/a|\
    http://h/a|\
    rtspu://h/a|\
    rtsp://h o/a|\
    rtsp://h/a\u{7f}";

#[test]
fn reads_urls(rt: HostRuntime) {
    check(&rt, Kind::Url, URLS);
}

/// Texts, and what is read of each as a buffer, a delay and a wait.
const NUMBERS: &str = "\
    0@@0@0|\
    1@1@1@1|\
    007@7@7@7|\
    255@255@255@255|\
    256@256@256@|\
    10000@10000@10000@|\
    10001@10001@@|\
    4398046511104@4398046511104@@|\
    4398046511105@@@|\
    99999999999999999999@@@|\
    @@@|\
    -1@@@|\
    1 @@@";

#[test]
fn reads_numbers(rt: HostRuntime) {
    check(&rt, Kind::Numbers, NUMBERS);
}

/// Values of Session, and whether each names the session.
const SESSIONS: &str = "\
    0123456789abcdef@true|\
    0123456789ABCDEF@true|\
    0123456789abcdef;timeout=60@true|\
    \x200123456789abcdef\t;timeout=60@true|\
    0123456789abcde@false|\
    0123456789abcdef0@false|\
    0123456789abcdee@false|\
    ;0123456789abcdef@false|\
    @false";

#[test]
fn matches_sessions(rt: HostRuntime) {
    assert!(rt; session_id(0x0123_4567_89ab_cdef) == *b"0123456789abcdef");
    assert!(rt; session_id(0) == *b"0000000000000000");
    check(&rt, Kind::Session, SESSIONS);
}

#[test]
fn describes_films(rt: HostRuntime) {
    let mut text = [0u8; 512];
    let length = description("news.mpg", 10_000, &mut text);
    assert_eq!(rt; length, 142);
    assert_eq!(rt;
        &text[..length],
        b"v=0\r\no=- 0 0 IN IP4 127.0.0.1\r\ns=news.mpg\r\nc=IN IP4 0.0.0.0\r\nt=0 0\r\n\
        a=control:*\r\na=range:npt=0-10.000\r\nm=video 0 RTP/AVP 32\r\na=control:video\r\n"
            .as_slice()
    );
    let length = description("a", 7, &mut text);
    assert!(rt;
        text[..length].ends_with(
            b"\r\na=range:npt=0-0.007\r\nm=video 0 RTP/AVP 32\r\na=control:video\r\n"
        )
    );
}

/// Appends Content-Base, by the URL of a request.
fn put_base(reply: &mut Reply, url: &[u8])
    requires url { length url.now ≤ 16384 }
    requires reply { length reply.old ≤ 1000 }
    ensures { length reply.new ≤ 20000 }
{
    let Some(read) = read_url(url) else {
        return;
    };
    let Some(name) = read.name else {
        return;
    };
    reply.field_from_parts(
        b"Content-Base",
        &[
            b"rtsp://".as_slice(),
            read.authority,
            b"/".as_slice(),
            name,
            b"/".as_slice(),
        ],
    );
}

/// Appends Range and Session.
fn put_range(reply: &mut Reply, start_ms: u64, end_ms: u64, session: u64)
    requires { length reply.old ≤ 20000 }
{
    let (mut start, mut end) = ([0u8; 24], [0u8; 24]);
    reply.field_from_parts(
        b"Range",
        &[
            b"npt=".as_slice(),
            seconds_text(start_ms, &mut start),
            b"-".as_slice(),
            seconds_text(end_ms, &mut end),
        ],
    );
    reply.field(b"Session", &session_id(session));
}

#[test]
fn writes_fields(rt: HostRuntime) -> Result<(), Fail> {
    let mut reply = Reply::new(rt.alloc())?;
    put_base(&mut reply, b"RTSP://h:8554/news.mpg/video");
    put_range(&mut reply, 0, u64::MAX, 10);
    let text =
        b"Content-Base: rtsp://h:8554/news.mpg/\r\nRange: npt=0.000-18446744073709551.615\r\n\
        Session: 000000000000000a\r\n";
    assert_eq!(rt; reply.bytes(), text.as_slice());
    Ok(())
}
