//! Sessions alone: each method in each state, refusals in their order, and what players send.

use crate::session_plays::{MEMORY, PLAYS};
use crate::session_scripts::talk_all;
use std::alloc::Global;
use std::process::Abort;
use std::test::Fail;

/// Runs scripts. Where memory is refused, that is answered by its name, and the script runs once
/// more.
fn passes<R: Abort>(rt: &R, alloc: Global, scripts: &[&str]) -> Result<(), Fail> {
    for script in scripts {
        if talk_all(rt, alloc, script).is_err() {
            talk_all(rt, alloc, script)?;
        }
    }
    Ok(())
}

/// Each method in each state: the complete reply.
const METHODS: &str = "\
in Init
hears OPTIONS * RTSP/1.0|CSeq: 7||
says RTSP/1.0 200 OK|CSeq: 7|Public: OPTIONS, DESCRIBE, SETUP, PLAY, PAUSE, TEARDOWN, \
GET_PARAMETER||
hears DESCRIBE rtsp://h/b.mpg RTSP/1.0|CSeq: 8||
says RTSP/1.0 200 OK|CSeq: 8|Content-Base: rtsp://h/b.mpg/|Content-Type: application/sdp|\
Content-Length: 138||\
v=0|o=- 0 0 IN IP4 127.0.0.1|s=b.mpg|c=IN IP4 0.0.0.0|t=0 0|a=control:*|a=range:npt=0-0.080|\
m=video 0 RTP/AVP 32|a=control:video|
hears PLAY rtsp://h/b.mpg RTSP/1.0|CSeq: 9||
says RTSP/1.0 454 Session Not Found|CSeq: 9||
hears PAUSE rtsp://h/b.mpg RTSP/1.0|CSeq: 10||
says RTSP/1.0 454 Session Not Found|CSeq: 10||
hears TEARDOWN rtsp://h/b.mpg RTSP/1.0|CSeq: 11||
says RTSP/1.0 454 Session Not Found|CSeq: 11||
hears GET_PARAMETER rtsp://h/b.mpg RTSP/1.0|CSeq: 12||
says RTSP/1.0 200 OK|CSeq: 12||
told looked 5 3 3 77
hears GET_PARAMETER rtsp://h/b.mpg RTSP/1.0|CSeq: 13|Content-Length: 10||x-Booked|
says RTSP/1.0 200 OK|CSeq: 13|Content-Type: text/parameters|Content-Length: 35||x-Now: 3|x-Slot: \
3|x-Booked: 77|
told full 6 2
hears GET_PARAMETER rtsp://h/b.mpg RTSP/1.0|CSeq: 13|Content-Length: 8||x-Booked
says RTSP/1.0 503 Service Unavailable|CSeq: 13|x-Entries: 6|x-Open: 2||
hears GET_PARAMETER rtsp://h/b.mpg RTSP/1.0|CSeq: 14|x-Wait: 0|Content-Length: 7||x-Offer
says RTSP/1.0 454 Session Not Found|CSeq: 14||
hears GET_PARAMETER rtsp://h/b.mpg RTSP/1.0|CSeq: 15|Content-Length: 1||x
says RTSP/1.0 451 Parameter Not Understood|CSeq: 15||
hears RECORD rtsp://h/b.mpg RTSP/1.0|CSeq: 16||
says RTSP/1.0 501 Not Implemented|CSeq: 16||
hears SETUP rtsp://h/b.mpg RTSP/1.0|CSeq: 17|Transport: RTP/AVP/TCP;unicast;interleaved=2-3||
says RTSP/1.0 200 OK|CSeq: 17|Transport: RTP/AVP/TCP;unicast;interleaved=2-3;ssrc=01020304|\
Session: 0123456789abcdef||

in Ready
hears OPTIONS rtsp://h/b.mpg RTSP/1.0|CSeq: 7||
says RTSP/1.0 200 OK|CSeq: 7|Public: OPTIONS, DESCRIBE, SETUP, PLAY, PAUSE, TEARDOWN, \
GET_PARAMETER||
hears DESCRIBE rtsp://h/news.mpg RTSP/1.0|CSeq: 8||
says RTSP/1.0 200 OK|CSeq: 8|Content-Base: rtsp://h/news.mpg/|Content-Type: application/sdp|\
Content-Length: 142||\
v=0|o=- 0 0 IN IP4 127.0.0.1|s=news.mpg|c=IN IP4 0.0.0.0|t=0 0|a=control:*|a=range:npt=0-10.000|\
m=video 0 RTP/AVP 32|a=control:video|
hears SETUP rtsp://h/b.mpg RTSP/1.0|CSeq: 9|Transport: RTP/AVP/TCP;unicast||
says RTSP/1.0 455 Method Not Valid In This State|CSeq: 9||
hears PAUSE rtsp://h/b.mpg RTSP/1.0|CSeq: 10|Session: 0123456789ABCDEF||
says RTSP/1.0 455 Method Not Valid In This State|CSeq: 10||
hears GET_PARAMETER rtsp://h/b.mpg RTSP/1.0|CSeq: 11|Session: 0123456789abcdef||
says RTSP/1.0 200 OK|CSeq: 11||
told looked 5 3 3 77
hears GET_PARAMETER rtsp://h/b.mpg RTSP/1.0|CSeq: 11|Session: 0123456789abcdef|Content-Length: 10|\
|x-Booked|
says RTSP/1.0 200 OK|CSeq: 11|Content-Type: text/parameters|Content-Length: 35||x-Now: 3|x-Slot: \
3|x-Booked: 77|
hears GET_PARAMETER rtsp://h/b.mpg RTSP/1.0|CSeq: 11|Session: 0123456789abcdef|Content-Length: 12|\
|x-Booked: |
says RTSP/1.0 451 Parameter Not Understood|CSeq: 11||
told offered 3 1
hears GET_PARAMETER rtsp://h/b.mpg RTSP/1.0|CSeq: 12|Session: 0123456789abcdef|x-Wait: 1|\
Content-Length: 9||x-Offer|
says RTSP/1.0 200 OK|CSeq: 12|Content-Type: text/parameters|Content-Length: 51||x-Start: none|\
x-Over: 1 1 0 35|x-Over: 2 2 0 35|
told beside 3 1
hears GET_PARAMETER rtsp://h/b.mpg RTSP/1.0|CSeq: 12|Session: 0123456789abcdef|x-Wait: 0|\
Content-Length: 9||x-Offer|
says RTSP/1.0 200 OK|CSeq: 12|Content-Type: text/parameters|Content-Length: 34||x-Start: none|\
x-Over: 1 1 35 35|
told overflow 4 9 50000 35
hears PLAY rtsp://h/b.mpg RTSP/1.0|CSeq: 13|Session: 0123456789abcdef||
says RTSP/1.0 453 Not Enough Bandwidth|CSeq: 13|x-Slot: 9|x-Booked: 50000|x-Asked: 35||
told full 8 2
hears PLAY rtsp://h/b.mpg RTSP/1.0|CSeq: 14|Session: 0123456789abcdef||
says RTSP/1.0 503 Service Unavailable|CSeq: 14|x-Entries: 8|x-Open: 2||
hears SET_PARAMETER rtsp://h/b.mpg RTSP/1.0|CSeq: 15||
says RTSP/1.0 501 Not Implemented|CSeq: 15||
told admitted 4 10 4 141
hears PLAY rtsp://h/b.mpg RTSP/1.0|CSeq: 16|Session: 0123456789abcdef||
says RTSP/1.0 200 OK|CSeq: 16|Session: 0123456789abcdef|Range: npt=0.000-0.080|RTP-Info: \
url=rtsp://h/b.mpg/video;seq=1;rtptime=0|x-Start: 10||

in Ready
hears TEARDOWN rtsp://h/b.mpg RTSP/1.0|CSeq: 7|Session: 0123456789abcdef||
says RTSP/1.0 200 OK|CSeq: 7|Session: 0123456789abcdef||

in Playing
hears OPTIONS * RTSP/1.0|CSeq: 7||
says RTSP/1.0 200 OK|CSeq: 7|Public: OPTIONS, DESCRIBE, SETUP, PLAY, PAUSE, TEARDOWN, \
GET_PARAMETER||
hears DESCRIBE rtsp://h/b.mpg/ RTSP/1.0|CSeq: 8||
says RTSP/1.0 200 OK|CSeq: 8|Content-Base: rtsp://h/b.mpg/|Content-Type: application/sdp|\
Content-Length: 138||\
v=0|o=- 0 0 IN IP4 127.0.0.1|s=b.mpg|c=IN IP4 0.0.0.0|t=0 0|a=control:*|a=range:npt=0-0.080|\
m=video 0 RTP/AVP 32|a=control:video|
hears SETUP rtsp://h/b.mpg RTSP/1.0|CSeq: 9|Transport: RTP/AVP/TCP;unicast||
says RTSP/1.0 455 Method Not Valid In This State|CSeq: 9||
hears PLAY rtsp://h/b.mpg RTSP/1.0|CSeq: 10|Session: 0123456789abcdef|Range: npt=0-||
says RTSP/1.0 455 Method Not Valid In This State|CSeq: 10||
hears PLAY rtsp://h/b.mpg RTSP/1.0|CSeq: 11|Session: 0123456789abcdef||
says RTSP/1.0 200 OK|CSeq: 11|Session: 0123456789abcdef||
hears GET_PARAMETER rtsp://h/b.mpg RTSP/1.0|CSeq: 12||
says RTSP/1.0 200 OK|CSeq: 12||
hears GET_PARAMETER rtsp://h/b.mpg RTSP/1.0|CSeq: 13|x-Wait: 0|Content-Length: 7||x-Offer
says RTSP/1.0 455 Method Not Valid In This State|CSeq: 13||
told looked 1 0 0 0
hears GET_PARAMETER rtsp://h/b.mpg RTSP/1.0|CSeq: 14|Content-Length: 8||x-Booked
says RTSP/1.0 200 OK|CSeq: 14|Content-Type: text/parameters|Content-Length: 34||x-Now: 0|x-Slot: \
0|x-Booked: 0|
hears GET_PARAMETER rtsp://h/b.mpg RTSP/1.0|CSeq: 14|Content-Length: 3||x-o
says RTSP/1.0 451 Parameter Not Understood|CSeq: 14||
hears REDIRECT rtsp://h/b.mpg RTSP/1.0|CSeq: 15||
says RTSP/1.0 501 Not Implemented|CSeq: 15||
told halted 1 0
hears PAUSE rtsp://h/b.mpg RTSP/1.0|CSeq: 16|Session: 0123456789abcdef||
says RTSP/1.0 200 OK|CSeq: 16|Session: 0123456789abcdef||

in Playing
told halted 1 0
hears TEARDOWN rtsp://h/b.mpg RTSP/1.0|CSeq: 7|Session: 0123456789abcdef||
says RTSP/1.0 200 OK|CSeq: 7|Session: 0123456789abcdef||";

/// What refuses, each with all that would refuse after it.
const REFUSALS: &str = "\
in Playing
# two spaces; another version; a header line that begins with a space; another method;
# an option; another session; no such film
hears RECORD  rtsp://h/none.mpg RTSP/2.0|CSeq: 20| x: y|Require: x|Session: 1||
says RTSP/1.0 400 Bad Request|CSeq: 20||
hears RECORD rtsp://h/none.mpg RTSP/2.0|CSeq: 21| x: y|Require: x|Session: 1||
says RTSP/1.0 505 RTSP Version Not Supported|CSeq: 21||
hears RECORD rtsp://h/none.mpg RTSP/1.0|CSeq: 22| x: y|Require: x|Session: 1||
says RTSP/1.0 400 Bad Request|CSeq: 22||
hears RECORD rtsp://h/none.mpg RTSP/1.0|CSeq: 1a|Content-Length: x|Require: x|Session: 1||
says RTSP/1.0 400 Bad Request||
# the same without a number
hears RECORD  rtsp://h/none.mpg RTSP/2.0| x: y|Content-Length: x|Require: x|Session: 1||
says RTSP/1.0 400 Bad Request||
hears RECORD rtsp://h/none.mpg RTSP/2.0| x: y|Content-Length: x|Require: x|Session: 1||
says RTSP/1.0 505 RTSP Version Not Supported||
hears RECORD rtsp://h/none.mpg RTSP/1.0| x: y|Content-Length: x|Require: x|Session: 1||
says RTSP/1.0 400 Bad Request||
hears RECORD rtsp://h/none.mpg RTSP/1.0|CSeq: 24|Content-Length: x|Require: x|Session: 1||
says RTSP/1.0 400 Bad Request|CSeq: 24||
hears RECORD rtsp://h/none.mpg RTSP/1.0|CSeq: 25|Require: x|Session: 1||
says RTSP/1.0 501 Not Implemented|CSeq: 25||
hears PLAY rtsp://h/none.mpg RTSP/1.0|CSeq: 26|Proxy-Require: y|Require: x|Session: 1|Range: \
npt=0-||
says RTSP/1.0 551 Option Not Supported|CSeq: 26|Unsupported: x||
hears PLAY rtsp://h/none.mpg RTSP/1.0|CSeq: 27|Proxy-Require: y|Session: 1|Range: npt=0-||
says RTSP/1.0 551 Option Not Supported|CSeq: 27|Unsupported: y||
hears PLAY rtsp://h/none.mpg RTSP/1.0|CSeq: 28|Session: 1|Range: npt=0-||
says RTSP/1.0 454 Session Not Found|CSeq: 28||
hears GET_PARAMETER rtsp://h/none.mpg RTSP/1.0|CSeq: 29|Session: 1|Content-Length: 7||x-Offer
says RTSP/1.0 454 Session Not Found|CSeq: 29||
hears SETUP rtsp://h/none.mpg RTSP/1.0|CSeq: 30|Session: 1||
says RTSP/1.0 454 Session Not Found|CSeq: 30||
hears PLAY rtsp://h/none.mpg RTSP/1.0|CSeq: 31|Session: 0123456789abcdef|Range: npt=0-||
says RTSP/1.0 404 Not Found|CSeq: 31||
hears PLAY rtsp://h/news.mpg RTSP/1.0|CSeq: 32|Session: 0123456789abcdef|Range: npt=0-||
says RTSP/1.0 404 Not Found|CSeq: 32||
hears SETUP rtsp://h/news.mpg RTSP/1.0|CSeq: 33||
says RTSP/1.0 404 Not Found|CSeq: 33||
hears DESCRIBE rtsp://h/none.mpg RTSP/1.0|CSeq: 34||
says RTSP/1.0 404 Not Found|CSeq: 34||
hears PLAY rtsp://h/b.mpg RTSP/1.0|CSeq: 35|Session: 0123456789abcdef|Range: smpte=0-||
says RTSP/1.0 455 Method Not Valid In This State|CSeq: 35||
hears SETUP rtsp://h/b.mpg RTSP/1.0|CSeq: 36|x-Buffer: 0||
says RTSP/1.0 455 Method Not Valid In This State|CSeq: 36||
hears GET_PARAMETER rtsp://h/b.mpg RTSP/1.0|CSeq: 37|Session: 0123456789abcdef|Content-Length: 7||\
x-Offer
says RTSP/1.0 455 Method Not Valid In This State|CSeq: 37||

in Init
hears SETUP rtsp://h/b.mpg RTSP/1.0|CSeq: 20|x-Buffer: 0||
says RTSP/1.0 461 Unsupported Transport|CSeq: 20||
hears SETUP rtsp://h/b.mpg RTSP/1.0|CSeq: 21|Transport: RTP/AVP/TCP|x-Buffer: 0||
says RTSP/1.0 451 Parameter Not Understood|CSeq: 21||
# a buffer that is too small
hears SETUP rtsp://h/b.mpg RTSP/1.0|CSeq: 22|Transport: RTP/AVP/TCP|x-Buffer: 105|x-Startup: 2||
says RTSP/1.0 200 OK|CSeq: 22|Transport: RTP/AVP/TCP;unicast;interleaved=0-1;ssrc=01020304|\
Session: 0123456789abcdef||
hears PLAY rtsp://h/b.mpg RTSP/1.0|CSeq: 23|Session: 0123456789abcdef|Range: npt=1-||
says RTSP/1.0 457 Invalid Range|CSeq: 23||
hears PLAY rtsp://h/b.mpg RTSP/1.0|CSeq: 24|Session: 0123456789abcdef||
says RTSP/1.0 451 Parameter Not Understood|CSeq: 24|x-Least-Buffer: 106||
hears GET_PARAMETER rtsp://h/b.mpg RTSP/1.0|CSeq: 25|Content-Length: 7||x-Offer
says RTSP/1.0 451 Parameter Not Understood|CSeq: 25||
hears GET_PARAMETER rtsp://h/b.mpg RTSP/1.0|CSeq: 26|x-Wait: 256|Content-Length: 7||x-Offer
says RTSP/1.0 451 Parameter Not Understood|CSeq: 26||
hears GET_PARAMETER rtsp://h/b.mpg RTSP/1.0|CSeq: 27|x-Wait: 255|Content-Length: 7||x-Offer
says RTSP/1.0 451 Parameter Not Understood|CSeq: 27|x-Least-Buffer: 106||
hears PAUSE rtsp://h/b.mpg RTSP/1.0|CSeq: 28|Session: 0123456789abcdef||
says RTSP/1.0 455 Method Not Valid In This State|CSeq: 28||

# no number of the request is told
in Init
hears PLAY rtsp://h/b.mpg RTSP/1.0|Session: 0123456789abcdef||
says RTSP/1.0 400 Bad Request||
hears DESCRIBE rtsp://h/a/../b RTSP/1.0|CSeq: 20||
says RTSP/1.0 404 Not Found|CSeq: 20||
hears SETUP rtsp://h/news.mpg RTSP/1.0|CSeq: 21|Transport: RTP/AVP/TCP;multicast||
says RTSP/1.0 461 Unsupported Transport|CSeq: 21||
hears SETUP rtsp://h/news.mpg RTSP/1.0|CSeq: 22|Transport: RTP/AVP/TCP;interleaved=7-7||
says RTSP/1.0 461 Unsupported Transport|CSeq: 22||
hears SETUP rtsp://h/news.mpg RTSP/1.0|CSeq: 23|Transport: RTP/AVP/TCP;interleaved=255||
says RTSP/1.0 461 Unsupported Transport|CSeq: 23||
hears SETUP rtsp://h/news.mpg RTSP/1.0|CSeq: 24|Transport: RTP/AVP;unicast;client_port=5000-5001||
says RTSP/1.0 461 Unsupported Transport|CSeq: 24||
hears SETUP rtsp://h/news.mpg RTSP/1.0|CSeq: 25|Transport: RTP/AVP/TCP|x-Startup: 10001||
says RTSP/1.0 451 Parameter Not Understood|CSeq: 25||
hears SETUP rtsp://h/news.mpg/video RTSP/1.0|CSeq: 26|Transport: RTP/AVP/TCP;unicast;\
interleaved=0-1||
says RTSP/1.0 200 OK|CSeq: 26|Transport: RTP/AVP/TCP;unicast;interleaved=0-1;ssrc=01020304|\
Session: 0123456789abcdef||
hears PLAY rtsp://h/news.mpg RTSP/1.0|CSeq: 27|Session: 0123456789abcdef|Range: npt=5-5||
says RTSP/1.0 457 Invalid Range|CSeq: 27||
hears PLAY rtsp://h/news.mpg RTSP/1.0|CSeq: 28|Session: 0123456789abcdef|Range: npt=-3||
says RTSP/1.0 457 Invalid Range|CSeq: 28||
hears PLAY rtsp://h/news.mpg RTSP/1.0|CSeq: 29|Session: 0123456789abcdef|Range: npt=1e3-||
says RTSP/1.0 457 Invalid Range|CSeq: 29||
hears PLAY rtsp://h/news.mpg RTSP/1.0|CSeq: 30|Session: 0123456789abcdef|Range: npt=0:60:00-||
says RTSP/1.0 457 Invalid Range|CSeq: 30||
hears PLAY rtsp://h/news.mpg RTSP/1.0|CSeq: 31|Session: 0123456789abcdef|Range: smpte=0:00:05-||
says RTSP/1.0 457 Invalid Range|CSeq: 31||
hears PLAY rtsp://h/news.mpg RTSP/1.0|CSeq: 32|Session: 0123456789abcdef|Range: npt=10-||
says RTSP/1.0 457 Invalid Range|CSeq: 32||
hears PLAY rtsp://h/news.mpg RTSP/1.0|CSeq: 33|Content-Length: x|Session: 0123456789abcdef||
says RTSP/1.0 400 Bad Request|CSeq: 33||
hears PLAY  rtsp://h/news.mpg RTSP/1.0|CSeq: 34|Session: 0123456789abcdef||
says RTSP/1.0 400 Bad Request|CSeq: 34||
hears PLAY rtsp://h/news.mpg RTSP/1.0| Range: npt=0-|CSeq: 35|Session: 0123456789abcdef||
says RTSP/1.0 400 Bad Request|CSeq: 35||
hears PLAY rtsp://h/news.mpg RTSP/1.0|CSeq: 1a|Session: 0123456789abcdef||
says RTSP/1.0 400 Bad Request||
hears PLAY rtsp://h/news.mpg RTSP/1.0|CSeq: 36|Session: 0123456789abcdee||
says RTSP/1.0 454 Session Not Found|CSeq: 36||
hears PLAY rtsp://h/news.mpg RTSP/1.0|CSeq: 37||
says RTSP/1.0 454 Session Not Found|CSeq: 37||
hears PLAY rtsp://h/news.mpg RTSP/2.0|CSeq: 38|Session: 0123456789abcdef||
says RTSP/1.0 505 RTSP Version Not Supported|CSeq: 38||";

/// An ordinary session, with the complete texts of its replies.
const ORDINARY: &str = "\
in Init
hears OPTIONS * RTSP/1.0|CSeq: 1||
says RTSP/1.0 200 OK|CSeq: 1|Public: OPTIONS, DESCRIBE, SETUP, PLAY, PAUSE, TEARDOWN, \
GET_PARAMETER||
hears DESCRIBE rtsp://127.0.0.1:8554/news.mpg RTSP/1.0|CSeq: 2||
says RTSP/1.0 200 OK|CSeq: 2|Content-Base: rtsp://127.0.0.1:8554/news.mpg/|Content-Type: \
application/sdp|Content-Length: 142||\
v=0|o=- 0 0 IN IP4 127.0.0.1|s=news.mpg|c=IN IP4 0.0.0.0|t=0 0|a=control:*|a=range:npt=0-10.000|\
m=video 0 RTP/AVP 32|a=control:video|
hears SETUP rtsp://127.0.0.1:8554/news.mpg/video RTSP/1.0|CSeq: 3|Transport: RTP/AVP;unicast;\
client_port=5000-5001||
says RTSP/1.0 461 Unsupported Transport|CSeq: 3||
hears SETUP rtsp://127.0.0.1:8554/news.mpg/video RTSP/1.0|CSeq: 4|Transport: RTP/AVP/TCP;unicast;\
interleaved=0-1||
says RTSP/1.0 200 OK|CSeq: 4|Transport: RTP/AVP/TCP;unicast;interleaved=0-1;ssrc=01020304|\
Session: 0123456789abcdef||
told admitted 0 1
hears PLAY rtsp://127.0.0.1:8554/news.mpg/ RTSP/1.0|CSeq: 5|Session: 0123456789abcdef|Range: \
npt=0.000-||
says RTSP/1.0 200 OK|CSeq: 5|Session: 0123456789abcdef|Range: npt=0.000-10.000|\
RTP-Info: url=rtsp://127.0.0.1:8554/news.mpg/video;seq=1;rtptime=0|x-Start: 1||
hears GET_PARAMETER rtsp://127.0.0.1:8554/news.mpg/ RTSP/1.0|CSeq: 6|Session: 0123456789abcdef||
says RTSP/1.0 200 OK|CSeq: 6||
told halted 1 0
hears TEARDOWN rtsp://127.0.0.1:8554/news.mpg/ RTSP/1.0|CSeq: 7|Session: 0123456789abcdef||
says RTSP/1.0 200 OK|CSeq: 7|Session: 0123456789abcdef||";

/// What players send, with their own fields, in their own order.
const PLAYERS: &str = "\
# ffmpeg
in Init
hears OPTIONS rtsp://127.0.0.1:8554/b.mpg RTSP/1.0|CSeq: 1|User-Agent: Lavf59.27.100||
says RTSP/1.0 200 OK|CSeq: 1|Public: OPTIONS, DESCRIBE, SETUP, PLAY, PAUSE, TEARDOWN, \
GET_PARAMETER||
hears DESCRIBE rtsp://127.0.0.1:8554/b.mpg RTSP/1.0|Accept: application/sdp|CSeq: 2|User-Agent: \
Lavf59.27.100||
says RTSP/1.0 200 OK|CSeq: 2|Content-Base: rtsp://127.0.0.1:8554/b.mpg/|Content-Type: \
application/sdp|Content-Length: 138||\
v=0|o=- 0 0 IN IP4 127.0.0.1|s=b.mpg|c=IN IP4 0.0.0.0|t=0 0|a=control:*|a=range:npt=0-0.080|\
m=video 0 RTP/AVP 32|a=control:video|
hears SETUP rtsp://127.0.0.1:8554/b.mpg/video RTSP/1.0|Transport: RTP/AVP/TCP;unicast;\
interleaved=0-1|CSeq: 3|User-Agent: Lavf59.27.100||
says RTSP/1.0 200 OK|CSeq: 3|Transport: RTP/AVP/TCP;unicast;interleaved=0-1;ssrc=01020304|\
Session: 0123456789abcdef||
told admitted 0 1
hears PLAY rtsp://127.0.0.1:8554/b.mpg/ RTSP/1.0|Range: npt=0.000-|CSeq: 4|User-Agent: \
Lavf59.27.100|Session: 0123456789abcdef||
says RTSP/1.0 200 OK|CSeq: 4|Session: 0123456789abcdef|Range: npt=0.000-0.080|\
RTP-Info: url=rtsp://127.0.0.1:8554/b.mpg/video;seq=1;rtptime=0|x-Start: 1||
hears GET_PARAMETER rtsp://127.0.0.1:8554/b.mpg/ RTSP/1.0|CSeq: 5|User-Agent: Lavf59.27.100|\
Session: 0123456789abcdef||
says RTSP/1.0 200 OK|CSeq: 5||
told halted 1 0
hears PAUSE rtsp://127.0.0.1:8554/b.mpg/ RTSP/1.0|CSeq: 6|User-Agent: Lavf59.27.100|Session: \
0123456789abcdef||
says RTSP/1.0 200 OK|CSeq: 6|Session: 0123456789abcdef||
hears TEARDOWN rtsp://127.0.0.1:8554/b.mpg/ RTSP/1.0|CSeq: 7|User-Agent: Lavf59.27.100|Session: \
0123456789abcdef||
says RTSP/1.0 200 OK|CSeq: 7|Session: 0123456789abcdef||

# mpv
in Init
hears OPTIONS rtsp://127.0.0.1:8554/b.mpg RTSP/1.0|CSeq: 1|User-Agent: libmpv||
says RTSP/1.0 200 OK|CSeq: 1|Public: OPTIONS, DESCRIBE, SETUP, PLAY, PAUSE, TEARDOWN, \
GET_PARAMETER||
hears SETUP rtsp://127.0.0.1:8554/b.mpg/video RTSP/1.0|Transport: RTP/AVP/TCP;unicast;\
interleaved=0-1|CSeq: 3|User-Agent: libmpv||
says RTSP/1.0 200 OK|CSeq: 3|Transport: RTP/AVP/TCP;unicast;interleaved=0-1;ssrc=01020304|\
Session: 0123456789abcdef||
told admitted 0 1
hears PLAY rtsp://127.0.0.1:8554/b.mpg/ RTSP/1.0|Range: npt=0.000-|CSeq: 4|User-Agent: libmpv|\
Session: 0123456789abcdef||
says RTSP/1.0 200 OK|CSeq: 4|Session: 0123456789abcdef|Range: npt=0.000-0.080|\
RTP-Info: url=rtsp://127.0.0.1:8554/b.mpg/video;seq=1;rtptime=0|x-Start: 1||

# GStreamer's rtspsrc
in Init
hears OPTIONS rtsp://127.0.0.1:8554/b.mpg RTSP/1.0|CSeq: 1|User-Agent: GStreamer/1.22.0||
says RTSP/1.0 200 OK|CSeq: 1|Public: OPTIONS, DESCRIBE, SETUP, PLAY, PAUSE, TEARDOWN, \
GET_PARAMETER||
hears DESCRIBE rtsp://127.0.0.1:8554/b.mpg RTSP/1.0|CSeq: 2|User-Agent: GStreamer/1.22.0|Accept: \
application/sdp||
says RTSP/1.0 200 OK|CSeq: 2|Content-Base: rtsp://127.0.0.1:8554/b.mpg/|Content-Type: \
application/sdp|Content-Length: 138||\
v=0|o=- 0 0 IN IP4 127.0.0.1|s=b.mpg|c=IN IP4 0.0.0.0|t=0 0|a=control:*|a=range:npt=0-0.080|\
m=video 0 RTP/AVP 32|a=control:video|
hears SETUP rtsp://127.0.0.1:8554/b.mpg/video RTSP/1.0|CSeq: 3|User-Agent: GStreamer/1.22.0|\
Transport: RTP/AVP/TCP;unicast;interleaved=0-1||
says RTSP/1.0 200 OK|CSeq: 3|Transport: RTP/AVP/TCP;unicast;interleaved=0-1;ssrc=01020304|\
Session: 0123456789abcdef||
told admitted 0 1
hears PLAY rtsp://127.0.0.1:8554/b.mpg/ RTSP/1.0|CSeq: 4|User-Agent: GStreamer/1.22.0|Session: \
0123456789abcdef|Range: npt=0-||
says RTSP/1.0 200 OK|CSeq: 4|Session: 0123456789abcdef|Range: npt=0.000-0.080|\
RTP-Info: url=rtsp://127.0.0.1:8554/b.mpg/video;seq=1;rtptime=0|x-Start: 1||
hears GET_PARAMETER rtsp://127.0.0.1:8554/b.mpg/ RTSP/1.0|CSeq: 5|User-Agent: GStreamer/1.22.0|\
Session: 0123456789abcdef||
says RTSP/1.0 200 OK|CSeq: 5||
told halted 1 0
hears TEARDOWN rtsp://127.0.0.1:8554/b.mpg/ RTSP/1.0|CSeq: 6|User-Agent: GStreamer/1.22.0|\
Session: 0123456789abcdef||
says RTSP/1.0 200 OK|CSeq: 6|Session: 0123456789abcdef||

# live555's openRTSP, first as it asks for UDP
in Init
hears OPTIONS rtsp://127.0.0.1:8554/b.mpg RTSP/1.0|CSeq: 2|User-Agent: openRTSP (LIVE555 \
Streaming Media v2022.12.01)||
says RTSP/1.0 200 OK|CSeq: 2|Public: OPTIONS, DESCRIBE, SETUP, PLAY, PAUSE, TEARDOWN, \
GET_PARAMETER||
hears SETUP rtsp://127.0.0.1:8554/b.mpg/video RTSP/1.0|CSeq: 4|User-Agent: openRTSP (LIVE555 \
Streaming Media v2022.12.01)|\
Transport: RTP/AVP;unicast;client_port=49154-49155||
says RTSP/1.0 461 Unsupported Transport|CSeq: 4||
hears SETUP rtsp://127.0.0.1:8554/b.mpg/video RTSP/1.0|CSeq: 5|User-Agent: openRTSP (LIVE555 \
Streaming Media v2022.12.01)|\
Transport: RTP/AVP/TCP;unicast;interleaved=0-1||
says RTSP/1.0 200 OK|CSeq: 5|Transport: RTP/AVP/TCP;unicast;interleaved=0-1;ssrc=01020304|\
Session: 0123456789abcdef||
told admitted 0 1
hears PLAY rtsp://127.0.0.1:8554/b.mpg/ RTSP/1.0|CSeq: 6|User-Agent: openRTSP (LIVE555 Streaming \
Media v2022.12.01)|\
Session: 0123456789abcdef|Range: npt=0.000-0.080||
says RTSP/1.0 200 OK|CSeq: 6|Session: 0123456789abcdef|Range: npt=0.000-0.080|\
RTP-Info: url=rtsp://127.0.0.1:8554/b.mpg/video;seq=1;rtptime=0|x-Start: 1||
told halted 1 0
hears TEARDOWN rtsp://127.0.0.1:8554/b.mpg/ RTSP/1.0|CSeq: 7|User-Agent: openRTSP (LIVE555 \
Streaming Media v2022.12.01)|\
Session: 0123456789abcdef||
says RTSP/1.0 200 OK|CSeq: 7|Session: 0123456789abcdef||";

static SCRIPTS: [&str; 5] = [METHODS, ORDINARY, REFUSALS, PLAYERS, PLAYS];

// The proof of the test sees the scripts through this call, which says nothing of them: so it
// doesn't carry the texts.
fn scripts() -> &'static [&'static str] {
    &SCRIPTS
}

#[test]
fn talks_to_sessions(rt: HostRuntime) -> Result<(), Fail> {
    passes(&rt, rt.alloc(), scripts())
}

#[test]
fn takes_memory_and_goes_on(rt: HostRuntime) -> Result<(), Fail> {
    passes(&rt, rt.alloc(), &[MEMORY])
}
