//! `serve` through `run`, over gates in memory.
//!
//! A connection's identity is drawn from the seed of 32 bytes 7: these are the words that a plain
//! ChaCha20 gives for it.

use crate::tests::scenes::pass_all;
use std::test::Fail;

/// A film of two pictures, as two workers, a failing part, and a look in mid-report have it.
const SHORT: &str = "\
bytes a.mpg 000001b316012013ffffe0a0 000001b800080040 00000100000ffff8 000001011234
bytes b.mpg a.mpg 000001000057fff880 000001011234
reply asks SETUP rtsp://h/b.mpg RTSP/1.0|CSeq: 1|Transport: RTP/AVP/TCP;unicast;interleaved=0-1|\
x-Startup: 2||
reply first PLAY rtsp://h/b.mpg RTSP/1.0|CSeq: 2|Session: 789200f441f6aa57||
reply second PLAY rtsp://h/b.mpg RTSP/1.0|CSeq: 2|Session: d67b3bbfad1f4676||
reply ready RTSP/1.0 200 OK|CSeq: 1|\
Transport: RTP/AVP/TCP;unicast;interleaved=0-1;ssrc=ba61f514|Session: 789200f441f6aa57||
reply starts RTSP/1.0 200 OK|CSeq: 2|Session: 789200f441f6aa57|Range: npt=0.000-0.080|\
RTP-Info: url=rtsp://h/b.mpg/video;seq=45996;rtptime=3701569932|x-Start: 1||
# two race for the last room: one is admitted, the other reads where there is none
gets asks first
slots 1 4
part
gets asks second
slots 1 4
part
> serve film=b.mpg workers=2 capacity=36
counts 2 3
has  play slot=0 slots=4 bytes=141 admitted start=1|
has  play slot=0 slots=4 bytes=141 overflow slot=1 booked=35 asked=35|
has  keep=141 halted|
has |end|served connections=2 entries=3|
said 1 RTSP/1.0 200 OK|CSeq: 2|Session: 
said 1 RTSP/1.0 453 Not Enough Bandwidth|CSeq: 2|x-Slot: 1|x-Booked: 35|x-Asked: 35||
ends 0

# the output fails: both connections were served
hears OPTIONS * RTSP/1.0|CSeq: 1||
part
hears OPTIONS * RTSP/1.0|CSeq: 2||
part
fails out 1
> serve film=b.mpg workers=2
counts 2 0
5 vodserve: SinkFault|
said 1 RTSP/1.0 200 OK|CSeq: 1|
said 1 RTSP/1.0 200 OK|CSeq: 2|

# the first take of part 1 fails: the connection of part 0 is served
gets asks first
slots 1 4
part
part 1
> serve film=b.mpg workers=2
counts 1 2
7 vodserve: GateFault|
out 0 seat=1 play slot=0 slots=4 bytes=141 admitted start=1|\
1 seat=1 halt number=0 keep=141 halted|\
calendar from=0|at 1 booked=35|at 2 booked=35|at 3 booked=36|at 4 booked=35|end|\
served connections=1 entries=2|
sends ready starts
plays b.mpg

# the reply to a look in mid-report stands after the report's end
gets asks first
slots 1 1
hears GET_PARAMETER rtsp://h/b.mpg RTSP/1.0|CSeq: 3|Session: 789200f441f6aa57|Content-Length: 8||\
x-Booked
slots 2 3
part
> serve film=b.mpg workers=1
counts 1 3
sends ready starts
sends 24010030 80c80006 ba61f514 00000000 00000000 dca1798c 00000000 00000000 81ca0004 ba61f514 \
0108766f 64736572 76650000
says RTSP/1.0 200 OK|CSeq: 3|Content-Type: text/parameters|Content-Length: 35||\
x-Now: 0|x-Slot: 1|x-Booked: 35|
plays a.mpg
has |end|served connections=1 entries=3|
ends 0
";

/// What prevents a server from serving.
const KEPT: &str = "\
bytes b.mpg 000001b316012013ffffe0a0 000001b800080040 00000100000ffff8 000001011234 \
000001000057fff880 000001011234
fails gate 1
> serve film=b.mpg workers=2
7 vodserve: GateFault|
fails gate 2
> serve film=b.mpg workers=2
7 vodserve: GateFault|
fails gate 3
> serve film=b.mpg workers=2
7 vodserve: GateFault|
fails library 1
> serve film=b.mpg
4 vodserve: b.mpg: StoreFault|
fails library 2
> serve film=b.mpg
4 vodserve: b.mpg: StoreFault|
fails out 1
> serve film=b.mpg
5 vodserve: SinkFault|
> serve film=b.mpg film=c.mpg
3 vodserve: c.mpg: NotFound|
";

/// An ordinary session over a film of ten seconds.
const ORDINARY: &str = "\
> make kind=film seed=1 pictures=250
keeps news.mpg
hears OPTIONS * RTSP/1.0|CSeq: 1||DESCRIBE rtsp://127.0.0.1:8554/news.mpg RTSP/1.0|CSeq: 2||
hears SETUP rtsp://127.0.0.1:8554/news.mpg/video RTSP/1.0|CSeq: 3|\
Transport: RTP/AVP;unicast;client_port=5000-5001||
hears SETUP rtsp://127.0.0.1:8554/news.mpg/video RTSP/1.0|CSeq: 4|\
Transport: RTP/AVP/TCP;unicast;interleaved=0-1||
hears PLAY rtsp://127.0.0.1:8554/news.mpg RTSP/1.0|CSeq: 5|Session: 789200f441f6aa57|\
Range: npt=0.000-||
slots 1 100
gets 240100080000000000000000
slots 101 275
hears GET_PARAMETER rtsp://127.0.0.1:8554/news.mpg RTSP/1.0|CSeq: 6|Session: 789200f441f6aa57||
hears TEARDOWN rtsp://127.0.0.1:8554/news.mpg RTSP/1.0|CSeq: 7|Session: 789200f441f6aa57||
part
> serve film=news.mpg workers=1
counts 1 2
says RTSP/1.0 200 OK|CSeq: 1|\
Public: OPTIONS, DESCRIBE, SETUP, PLAY, PAUSE, TEARDOWN, GET_PARAMETER||
says RTSP/1.0 200 OK|CSeq: 2|Content-Base: rtsp://127.0.0.1:8554/news.mpg/|\
Content-Type: application/sdp|Content-Length: 142||\
v=0|o=- 0 0 IN IP4 127.0.0.1|s=news.mpg|c=IN IP4 0.0.0.0|t=0 0|a=control:*|a=range:npt=0-10.000|\
m=video 0 RTP/AVP 32|a=control:video|
says RTSP/1.0 461 Unsupported Transport|CSeq: 3||
says RTSP/1.0 200 OK|CSeq: 4|Transport: RTP/AVP/TCP;unicast;interleaved=0-1;ssrc=ba61f514|\
Session: 789200f441f6aa57||
says RTSP/1.0 200 OK|CSeq: 5|Session: 789200f441f6aa57|Range: npt=0.000-10.000|\
RTP-Info: url=rtsp://127.0.0.1:8554/news.mpg/video;seq=45996;rtptime=3701569932|x-Start: 1||
plays news.mpg
says RTSP/1.0 200 OK|CSeq: 6||RTSP/1.0 200 OK|CSeq: 7|Session: 789200f441f6aa57||
has |end|served connections=1 entries=2|
ends 0
";

#[test]
fn serves_sessions(rt: HostRuntime) -> Result<(), Fail> {
    pass_all(&rt, rt.alloc(), &[SHORT, KEPT, ORDINARY])
}
