//! Plays of sessions alone: pauses, resumes, seeks, and what takes memory.

/// Each request that takes memory: a look, offers before a play and in a pause, a play, and a play
/// that goes on. A look's reply waits for the end of a frame.
pub(crate) const MEMORY: &str = "\
in Ready
told looked 1 0 0 0
hears GET_PARAMETER rtsp://h/b.mpg RTSP/1.0|CSeq: 3|Content-Length: 8||x-Booked
says RTSP/1.0 200 OK|CSeq: 3|Content-Type: text/parameters|Content-Length: 34||x-Now: 0|x-Slot: 0|\
x-Booked: 0|
told offered 2 1
hears GET_PARAMETER rtsp://h/b.mpg RTSP/1.0|CSeq: 4|x-Wait: 1|Content-Length: 7||x-Offer
says RTSP/1.0 200 OK|CSeq: 4|Content-Type: text/parameters|Content-Length: 51||x-Start: none|\
x-Over: 1 1 0 35|x-Over: 2 2 0 35|
told admitted 2 1 4 141
hears PLAY rtsp://h/b.mpg RTSP/1.0|CSeq: 5|Session: 0123456789abcdef||
says RTSP/1.0 200 OK|CSeq: 5|Session: 0123456789abcdef|Range: npt=0.000-0.080|RTP-Info: \
url=rtsp://h/b.mpg/video;seq=1;rtptime=0|x-Start: 1||
slot 1
sends 24010030 80c80006 01020304 00000000 00000000 00000000 00000000 00000000 81ca00
told halted 3 52
hears PAUSE rtsp://h/b.mpg RTSP/1.0|CSeq: 6|Session: 0123456789abcdef||
slot 2
sends 04 01020304 0108766f 64736572 76650000
says RTSP/1.0 200 OK|CSeq: 6|Session: 0123456789abcdef||
told offered 4 3
hears GET_PARAMETER rtsp://h/b.mpg RTSP/1.0|CSeq: 7|x-Wait: 0|Content-Length: 7||x-Offer
says RTSP/1.0 200 OK|CSeq: 7|Content-Type: text/parameters|Content-Length: 12||x-Start: 3|
told admitted 4 3 4 89
hears PLAY rtsp://h/b.mpg RTSP/1.0|CSeq: 8|Session: 0123456789abcdef||
says RTSP/1.0 200 OK|CSeq: 8|Session: 0123456789abcdef|Range: npt=0.000-0.080|RTP-Info: \
url=rtsp://h/b.mpg/video;seq=1;rtptime=0|x-Start: 1||
slot 3
sends 24000032 80a00001 00000000 01020304 00003900 0000
told looked 5 3 3 22
hears GET_PARAMETER rtsp://h/b.mpg RTSP/1.0|CSeq: 9|Content-Length: 8||x-Booked
slot 5
sends 01b316012013ffffe0a0 000001b800080040 00000100000ffff8 000001011234
says RTSP/1.0 200 OK|CSeq: 9|Content-Type: text/parameters|Content-Length: 35||x-Now: 3|x-Slot: 3|\
x-Booked: 22|
sends 2400001f 80a00002 00000e10
told halted 6 89
hears TEARDOWN rtsp://h/b.mpg RTSP/1.0|CSeq: 10|Session: 0123456789abcdef||
slot 6
sends 01020304 00011a01 000001000057fff880 000001011234
says RTSP/1.0 200 OK|CSeq: 10|Session: 0123456789abcdef||";

/// Plays, pauses, resumes, seeks and plays that are done: every byte that is sent.
pub(crate) const PLAYS: &str = "\
# a pause within the report, and the play that goes on after it
in Playing
slot 1
sends 24010030 80c80006 01020304 00000000 00000000 00000000 00000000 00000000 81ca00
told halted 1 52
hears PAUSE rtsp://h/b.mpg RTSP/1.0|CSeq: 3|Session: 0123456789abcdef||
slot 2
sends 04 01020304 0108766f 64736572 76650000
says RTSP/1.0 200 OK|CSeq: 3|Session: 0123456789abcdef||
slot 3
told admitted 2 4 4 89
hears PLAY rtsp://h/b.mpg RTSP/1.0|CSeq: 4|Session: 0123456789abcdef||
says RTSP/1.0 200 OK|CSeq: 4|Session: 0123456789abcdef|Range: npt=0.000-0.080|RTP-Info: \
url=rtsp://h/b.mpg/video;seq=1;rtptime=0|x-Start: 1||
slot 4
sends 24000032 80a00001 00000000 01020304 00003900 0000
told halted 3 89
slot 7
sends 01b316012013ffffe0a0 000001b800080040 00000100000ffff8 000001011234
sends 2400001f 80a00002 00000e10 01020304 00011a01 000001000057fff880 000001011234
hears PAUSE rtsp://h/b.mpg RTSP/1.0|CSeq: 5|Session: 0123456789abcdef||
says RTSP/1.0 455 Method Not Valid In This State|CSeq: 5||
# the film from its beginning: the numbers go on, and the report counts two packets of 68 and 38
# bytes less 16
told admitted 4 8 4 141
hears PLAY rtsp://h/b.mpg RTSP/1.0|CSeq: 6|Session: 0123456789abcdef||
says RTSP/1.0 200 OK|CSeq: 6|Session: 0123456789abcdef|Range: npt=0.000-0.080|RTP-Info: \
url=rtsp://h/b.mpg/video;seq=3;rtptime=0|x-Start: 1||
told halted 5 141
slot 11
sends 24010030 80c80006 01020304 00000000 00000000 00000000 00000002 00000039 81ca0004 01020304 \
0108766f 64736572 76650000
sends 24000032 80a00003 00000000 01020304 00003900 000001b316012013ffffe0a0 000001b800080040 \
00000100000ffff8 000001011234
sends 2400001f 80a00004 00000e10 01020304 00011a01 000001000057fff880 000001011234

# slots that are missed: all is sent at once, and the play is done
in Playing
slot 1
sends 24010030 80c80006 01020304 00000000 00000000 00000000 00000000 00000000 81ca00
told halted 1 141
slot 6
sends 04 01020304 0108766f 64736572 76650000
sends 24000032 80a00001 00000000 01020304 00003900 000001b316012013ffffe0a0 000001b800080040 \
00000100000ffff8 000001011234
sends 2400001f 80a00002 00000e10 01020304 00011a01 000001000057fff880 000001011234
hears PAUSE rtsp://h/b.mpg RTSP/1.0|CSeq: 3|Session: 0123456789abcdef||
says RTSP/1.0 455 Method Not Valid In This State|CSeq: 3||

# from the last group that begins by then
in Init
hears SETUP rtsp://h/news.mpg RTSP/1.0|CSeq: 1|Transport: RTP/AVP/TCP||
says RTSP/1.0 200 OK|CSeq: 1|Transport: RTP/AVP/TCP;unicast;interleaved=0-1;ssrc=01020304|\
Session: 0123456789abcdef||
told admitted 0 1
hears PLAY rtsp://h/news.mpg RTSP/1.0|CSeq: 2|Session: 0123456789abcdef|Range: npt=5-||
says RTSP/1.0 200 OK|CSeq: 2|Session: 0123456789abcdef|Range: npt=4.800-10.000|RTP-Info: \
url=rtsp://h/news.mpg/video;seq=1;rtptime=432000|x-Start: 1||

in Init
hears SETUP rtsp://h/news.mpg RTSP/1.0|CSeq: 1|Transport: RTP/AVP/TCP||
says RTSP/1.0 200 OK|CSeq: 1|Transport: RTP/AVP/TCP;unicast;interleaved=0-1;ssrc=01020304|\
Session: 0123456789abcdef||
told admitted 0 1
hears PLAY rtsp://h/news.mpg RTSP/1.0|CSeq: 2|Session: 0123456789abcdef|Range: npt=5-6||
says RTSP/1.0 200 OK|CSeq: 2|Session: 0123456789abcdef|Range: npt=4.800-6.240|\
RTP-Info: url=rtsp://h/news.mpg/video;seq=1;rtptime=432000|x-Start: 1||";
