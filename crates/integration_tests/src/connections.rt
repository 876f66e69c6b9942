//! Complete connections: every byte that is sent, how each ends, and the journal and calendar that
//! they leave.

ghost use Rattle.film_streams.specs.SettingRanges.{AreFilms};

use crate::films::server_films;
use crate::link_scripts::{journal_after, serve_all};
use crate::script_text::{expect, in_full, numbers_of};
use conn::ConnReport;
use film_frames::Stored;
use plan_cert::Segment;
use session::{PlayNote, Receipt};
use std::alloc::Global;
use std::mem::size_of;
use std::process::Abort;
use std::sync::Wait;
use std::test::Fail;
use vod_base::NoMemory;

/// Abbreviations of lines, each before the lines that it means: a session set up for `b.mpg` with a
/// start delay of two slots and its play from the first picture, the replies to these requests, and
/// the film's report and pictures.
const PHRASES: &str = "\
asks SETUP and PLAY
hears SETUP rtsp://h/b.mpg RTSP/1.0|CSeq: 1|Transport: RTP/AVP/TCP;unicast;interleaved=0-1|\
x-Startup: 2||
hears PLAY rtsp://h/b.mpg RTSP/1.0|CSeq: 2|Session: 0123456789abcdef||

answers SETUP and PLAY
says RTSP/1.0 200 OK|CSeq: 1|Transport: RTP/AVP/TCP;unicast;interleaved=0-1;ssrc=01020304|\
Session: 0123456789abcdef||
says RTSP/1.0 200 OK|CSeq: 2|Session: 0123456789abcdef|Range: npt=0.000-0.080|\
RTP-Info: url=rtsp://h/b.mpg/video;seq=1;rtptime=0|x-Start: 1||

sends the report
sends 24010030 80c80006 01020304 00000000 00000000 00000000 00000000 00000000 \
81ca0004 01020304 0108766f 64736572 76650000

sends the first picture
sends 24000032 80a00001 00000000 01020304 00003900 000001b316012013ffffe0a0 \
000001b800080040 00000100000ffff8 000001011234

sends the second picture
sends 2400001f 80a00002 00000e10 01020304 00011a01 000001000057fff880 000001011234";

/// Serves the scenes of a script.
fn serve_script<R: Wait + Abort>(rt: &R, alloc: Global, script: &str) -> Result<(), NoMemory> {
    let films = server_films(rt, alloc)?;
    let text = in_full(alloc, PHRASES, script)?;
    serve_all(rt, alloc, &films, &text)
}

/// Plays of the film of two pictures.
const PLAYS: &str = "\
50000 1024
# a pause within the report: its reply stands after the report's last byte
asks SETUP and PLAY
slot 1
hears PAUSE rtsp://h/b.mpg RTSP/1.0|CSeq: 3|Session: 0123456789abcdef||
slot 2
slot 3
hears PLAY rtsp://h/b.mpg RTSP/1.0|CSeq: 4|Session: 0123456789abcdef||
slot 4
serve
answers SETUP and PLAY
sends the report
says RTSP/1.0 200 OK|CSeq: 3|Session: 0123456789abcdef||
says RTSP/1.0 200 OK|CSeq: 4|Session: 0123456789abcdef|Range: npt=0.000-0.080|RTP-Info: \
url=rtsp://h/b.mpg/video;seq=1;rtptime=0|x-Start: 1||
sends 24000032 80a00001 00000000 01020304 00003900 0000
ends Ended 0
journal
0 seat=0 play slot=0 slots=4 bytes=141 admitted start=1
1 seat=0 halt number=0 keep=52 halted
2 seat=0 play slot=3 slots=4 bytes=89 admitted start=4
3 seat=0 halt number=2 keep=22 halted
calendar from=3
at 4 booked=22
end

36 1024
# the last room: the one plays, the other reads where there is none, and gets no offer
asks SETUP and PLAY
slot 1
slot 2
slot 3
slot 4
serve
answers SETUP and PLAY
sends the report
sends the first picture
sends the second picture
ends Ended 0
asks SETUP and PLAY
hears GET_PARAMETER rtsp://h/b.mpg RTSP/1.0|CSeq: 3|x-Wait: 0|Content-Length: 7||x-Offer
hears GET_PARAMETER rtsp://h/b.mpg RTSP/1.0|CSeq: 4|x-Wait: 256|Content-Length: 7||x-Offer
slot 1
slot 2
serve
says RTSP/1.0 200 OK|CSeq: 1|Transport: RTP/AVP/TCP;unicast;interleaved=0-1;ssrc=01020304|\
Session: 0123456789abcdef||
says RTSP/1.0 453 Not Enough Bandwidth|CSeq: 2|x-Slot: 1|x-Booked: 35|x-Asked: 35||
says RTSP/1.0 200 OK|CSeq: 3|Content-Type: text/parameters|Content-Length: 34||x-Start: none|\
x-Over: 1 1 35 35|
says RTSP/1.0 451 Parameter Not Understood|CSeq: 4||
ends Ended 0
journal
0 seat=0 play slot=0 slots=4 bytes=141 admitted start=1
1 seat=0 halt number=0 keep=141 halted
2 seat=0 play slot=0 slots=4 bytes=141 overflow slot=1 booked=35 asked=35
calendar from=0
at 1 booked=35
at 2 booked=35
at 3 booked=36
at 4 booked=35
end

50000 1024
# in its first slot 35 bytes are sent, and 35 in its second
asks SETUP and PLAY
slot 1
serve
answers SETUP and PLAY
sends 24010030 80c80006 01020304 00000000 00000000 00000000 00000000 00000000 81ca00
ends Ended 0
asks SETUP and PLAY
slot 1
slot 2
serve
answers SETUP and PLAY
sends the report
sends 24000032 80a00001 00000000 01020304 0000
ends Ended 0
# slots 3 and 4 are missed: the fifth sends 71 bytes
asks SETUP and PLAY
slot 1
slot 2
slot 5
serve
answers SETUP and PLAY
sends the report
sends the first picture
sends the second picture
ends Ended 2
# slots 2 to 5 are missed: the play is done, and there is nothing to pause
asks SETUP and PLAY
slot 1
slot 6
hears PAUSE rtsp://h/b.mpg RTSP/1.0|CSeq: 3|Session: 0123456789abcdef||
serve
answers SETUP and PLAY
sends the report
sends the first picture
sends the second picture
says RTSP/1.0 455 Method Not Valid In This State|CSeq: 3||
ends Ended 4
journal
0 seat=0 play slot=0 slots=4 bytes=141 admitted start=1
1 seat=0 halt number=0 keep=35 halted
2 seat=0 play slot=0 slots=4 bytes=141 admitted start=1
3 seat=0 halt number=2 keep=70 halted
4 seat=0 play slot=0 slots=4 bytes=141 admitted start=1
5 seat=0 halt number=4 keep=141 halted
6 seat=0 play slot=0 slots=4 bytes=141 admitted start=1
7 seat=0 halt number=6 keep=141 halted
calendar from=0
at 1 booked=140
at 2 booked=105
at 3 booked=72
at 4 booked=70
end

50000 1024
# a look within the report: its reply stands after the report
asks SETUP and PLAY
slot 1
hears GET_PARAMETER rtsp://h/b.mpg RTSP/1.0|CSeq: 3|Content-Length: 8||x-Booked
slot 2
slot 3
serve
answers SETUP and PLAY
sends the report
says RTSP/1.0 200 OK|CSeq: 3|Content-Type: text/parameters|Content-Length: 35||x-Now: 0|x-Slot: 1|\
x-Booked: 35|
sends the first picture
ends Ended 0
journal
0 seat=0 play slot=0 slots=4 bytes=141 admitted start=1
1 seat=0 look slot=1 looked now=0 at=1 booked=35
2 seat=0 halt number=0 keep=106 halted
calendar from=0
at 1 booked=35
at 2 booked=35
at 3 booked=36
end";

/// Input that ends a connection.
const ENDS: &str = "\
50000 1024
# a head without an empty line, and a body that is too long
fill 16383
serve
ends Ended 0
fill 16384
serve
ends HeadTooLong 0
hears GET_PARAMETER rtsp://h/b.mpg RTSP/1.0|CSeq: 1|Content-Length: 65537||
serve
ends BodyTooLong 0
journal
calendar from=0
end

50000 1024
# requests that wait for the report's end fill the room for input
asks SETUP and PLAY
slot 1
hears GET_PARAMETER rtsp://h/b.mpg RTSP/1.0|CSeq: 3||
hears GET_PARAMETER rtsp://h/b.mpg RTSP/1.0|CSeq: 4|Content-Length: 65536||
fill 65536
hears GET_PARAMETER rtsp://h/b.mpg RTSP/1.0|CSeq: 5|Content-Length: 65536||
fill 65536
slot 2
serve
answers SETUP and PLAY
sends 24010030 80c80006 01020304 00000000 00000000 00000000 00000000 00000000 81ca00
ends TooMuchInput 0
journal
0 seat=0 play slot=0 slots=4 bytes=141 admitted start=1
1 seat=0 halt number=0 keep=35 halted
calendar from=0
at 1 booked=35
end

50000 1024
# the third send fails, of the report's first 35 bytes: the booking keeps what is due
asks SETUP and PLAY
slot 1
slot 2
serve 3
answers SETUP and PLAY
ends LinkFault 0
journal
0 seat=0 play slot=0 slots=4 bytes=141 admitted start=1
1 seat=0 halt number=0 keep=35 halted
calendar from=0
at 1 booked=35
end

50000 2
# a journal of two entries has room for a play and its halt; what waits after a TEARDOWN isn't heard
asks SETUP and PLAY
hears PAUSE rtsp://h/b.mpg RTSP/1.0|CSeq: 3|Session: 0123456789abcdef||
hears PLAY rtsp://h/b.mpg RTSP/1.0|CSeq: 4|Session: 0123456789abcdef||
hears GET_PARAMETER rtsp://h/b.mpg RTSP/1.0|CSeq: 5|Content-Length: 8||x-Booked
hears TEARDOWN rtsp://h/b.mpg RTSP/1.0|CSeq: 6|Session: 0123456789ABCDEF;timeout=60||OPTIONS * \
RTSP/1.0|CSeq: 7||
serve
answers SETUP and PLAY
says RTSP/1.0 200 OK|CSeq: 3|Session: 0123456789abcdef||
says RTSP/1.0 503 Service Unavailable|CSeq: 4|x-Entries: 2|x-Open: 0||
says RTSP/1.0 503 Service Unavailable|CSeq: 5|x-Entries: 2|x-Open: 0||
says RTSP/1.0 200 OK|CSeq: 6|Session: 0123456789abcdef||
ends TornDown 0
journal
0 seat=0 play slot=0 slots=4 bytes=141 admitted start=1
1 seat=0 halt number=0 keep=0 halted
calendar from=0
end";

/// An ordinary session of a film of ten seconds.
const NEWS: &str = "\
50000 1024
hears OPTIONS * RTSP/1.0|CSeq: 1||DESCRIBE rtsp://127.0.0.1:8554/news.mpg RTSP/1.0|CSeq: 2||
hears SETUP rtsp://127.0.0.1:8554/news.mpg/video RTSP/1.0|CSeq: 3|Transport: RTP/AVP;unicast;\
client_port=5000-5001||
hears SETUP rtsp://127.0.0.1:8554/news.mpg/video RTSP/1.0|CSeq: 4|Transport: RTP/AVP/TCP;unicast;\
interleaved=0-1||
hears PLAY rtsp://127.0.0.1:8554/news.mpg RTSP/1.0|CSeq: 5|Session: 0123456789abcdef|Range: \
npt=0.000-||
slots 1 100
# a receiver report, in two parts
gets 24 01 0008 80c9
gets 0001 00000000
slots 101 275
hears GET_PARAMETER rtsp://127.0.0.1:8554/news.mpg RTSP/1.0|CSeq: 6|Session: 0123456789abcdef||
hears TEARDOWN rtsp://127.0.0.1:8554/news.mpg RTSP/1.0|CSeq: 7|Session: 0123456789abcdef||
serve
says RTSP/1.0 200 OK|CSeq: 1|Public: OPTIONS, DESCRIBE, SETUP, PLAY, PAUSE, TEARDOWN, \
GET_PARAMETER||
says RTSP/1.0 200 OK|CSeq: 2|Content-Base: rtsp://127.0.0.1:8554/news.mpg/|Content-Type: \
application/sdp|Content-Length: 142||\
v=0|o=- 0 0 IN IP4 127.0.0.1|s=news.mpg|c=IN IP4 0.0.0.0|t=0 0|a=control:*|a=range:npt=0-10.000|\
m=video 0 RTP/AVP 32|a=control:video|
says RTSP/1.0 461 Unsupported Transport|CSeq: 3||
says RTSP/1.0 200 OK|CSeq: 4|Transport: RTP/AVP/TCP;unicast;interleaved=0-1;ssrc=01020304|\
Session: 0123456789abcdef||
says RTSP/1.0 200 OK|CSeq: 5|Session: 0123456789abcdef|Range: npt=0.000-10.000|\
RTP-Info: url=rtsp://127.0.0.1:8554/news.mpg/video;seq=1;rtptime=0|x-Start: 1||
film
says RTSP/1.0 200 OK|CSeq: 6||RTSP/1.0 200 OK|CSeq: 7|Session: 0123456789abcdef||
ends TornDown 0";

/// A play of the film of two pictures in the slots 1, 2 and 5, and its end.
const FAILS: &str = "\
hears SETUP rtsp://h/b.mpg RTSP/1.0|CSeq: 1|Transport: RTP/AVP/TCP|x-Startup: 2||PLAY \
rtsp://h/b.mpg RTSP/1.0|CSeq: 2|Session: 0123456789abcdef||
slot 1
slot 2
slot 5
hears TEARDOWN rtsp://h/b.mpg RTSP/1.0|CSeq: 3|Session: 0123456789abcdef||";

/// What an ended connection leaves: its report, with a receipt for each answer of the station and
/// a note, with a plan, for each play. A connection that set up, played and tore down leaves a
/// report, two receipts, a note and the segments of its plan.
const _: () = prove!(size_of::<ConnReport>() == 112);

const _: () = prove!(size_of::<Receipt>() <= 48);

const _: () = prove!(size_of::<PlayNote>() == 128);

const _: () = prove!(size_of::<Segment>() == 16);

/// The numbers of a send and an event that fail, the last slot before it, and the end. Before the
/// sends, from the first, these slots have come: two replies, a send in slot 1, two in slot 2, four
/// in slot 5, a reply.
const FAILURES: &str = "\
1 0 0|LinkFault 0
2 0 0|LinkFault 0
3 0 1|LinkFault 0
4 0 2|LinkFault 0
5 0 2|LinkFault 0
6 0 5|LinkFault 2
7 0 5|LinkFault 2
8 0 5|LinkFault 2
9 0 5|LinkFault 2
10 0 5|LinkFault 2
11 0 5|TornDown 2
0 1 0|LinkFault 0
0 2 0|LinkFault 0
0 3 1|LinkFault 0
0 4 2|LinkFault 0
0 5 5|LinkFault 2
0 6 5|TornDown 2";

/// Whether a journal has one halt after each admission, and its calendar nothing after a slot.
fn is_halted(journal: &str, last: u64) -> bool {
    let Some((entries, booked)) = journal.split_once("calendar from=0\n") else {
        return false;
    };
    let mut halted = 0usize;
    for line in entries.lines() {
        if line.ends_with(" halted") {
            halted = halted.saturating_add(2);
        }
    }
    for line in booked.lines() {
        // at SLOT booked=BYTES
        if last < numbers_of(line)[1] {
            return false;
        }
    }
    halted == entries.lines().count()
}

/// Serves a connection of which a call fails, or none.
fn fail_at<R: Wait + Abort>(
    rt: &R,
    alloc: Global,
    films: &[Stored],
    row: &str,
) -> Result<(), NoMemory>
    requires { AreFilms films.now }
{
    let (failing, end) = row.split_once('|').unwrap_or((row, ""));
    let lines = format!(in alloc; "{FAILS}\nserve {failing}\nany\nends {end}")?;
    let journal = journal_after(rt, alloc, films, "50000 1024", &lines)?;
    let [_, _, last, _] = numbers_of(failing);
    expect(rt, is_halted(&journal, last), row);
    Ok(())
}

fn fail_everywhere<R: Wait + Abort>(rt: &R, alloc: Global) -> Result<(), NoMemory> {
    let films = server_films(rt, alloc)?;
    for row in FAILURES.lines() {
        fail_at(rt, alloc, &films, row)?;
    }
    Ok(())
}

/// Where memory is refused, that is answered by its name, and the script runs once more.
#[test]
fn serves_connections(rt: HostRuntime) -> Result<(), Fail> {
    for script in [PLAYS, ENDS, NEWS] {
        if serve_script(&rt, rt.alloc(), script).is_err() {
            serve_script(&rt, rt.alloc(), script)?;
        }
    }
    Ok(())
}

#[test]
fn ends_at_a_failing_call(rt: HostRuntime) -> Result<(), Fail> {
    if fail_everywhere(&rt, rt.alloc()).is_err() {
        fail_everywhere(&rt, rt.alloc())?;
    }
    Ok(())
}
