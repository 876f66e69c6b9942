//! `watch` through `run`, over a gate in memory.

use crate::tests::scenes::pass_all;
use std::test::Fail;

/// A film of two pictures, slot by slot as its plan has it, and what prevents a client from
/// watching it: the gate, another answer, a buffer that is a byte too small, an end after the third
/// slot, and no room on the link.
const WATCHED: &str = "\
bytes first.mpg 000001b316012013ffffe0a0 000001b800080040 00000100000ffff8 000001011234
bytes b.mpg first.mpg 000001000057fff880 000001011234
reply setup RTSP/1.0 200 OK|CSeq: 1|Transport: RTP/AVP/TCP;unicast;interleaved=0-1;ssrc=01020304|\
Session: 0123456789abcdef||
reply play RTSP/1.0 200 OK|CSeq: 2|Session: 0123456789abcdef|Range: npt=0.000-0.080|x-Start: 1||
reply teardown RTSP/1.0 200 OK|CSeq: 3|Session: 0123456789abcdef||
reply asks_play PLAY rtsp://127.0.0.1:8554/b.mpg RTSP/1.0|CSeq: 2|Session: 0123456789abcdef|\
Range: npt=0-||
reply asks_teardown TEARDOWN rtsp://127.0.0.1:8554/b.mpg RTSP/1.0|CSeq: 3|\
Session: 0123456789abcdef||
reply asks_setup SETUP rtsp://127.0.0.1:8554/b.mpg/video RTSP/1.0|CSeq: 1|\
Transport: RTP/AVP/TCP;unicast;interleaved=0-1|x-Buffer: 1048576|x-Startup: 2||
reply asks_late SETUP rtsp://127.0.0.1:8554/b.mpg/video RTSP/1.0|CSeq: 1|\
Transport: RTP/AVP/TCP;unicast;interleaved=0-1|x-Buffer: 1048576|x-Startup: 25||
reply asks_small SETUP rtsp://127.0.0.1:8554/b.mpg/video RTSP/1.0|CSeq: 1|\
Transport: RTP/AVP/TCP;unicast;interleaved=0-1|x-Buffer: 105|x-Startup: 2||
bytes slot1 2401003080c8000601020304000000000000000000000000000000000000000081ca00
bytes slot2 04010203040108766f64736572766500002400003280a0000100000000010203040000
bytes slot3 3900000001b316012013ffffe0a0000001b80008004000000100000ffff8000001011234
bytes slot4 2400001f80a0000200000e100102030400011a01000001000057fff880000001011234
gets setup
gets play
gets slot1
slots 1 1
gets slot2
slots 2 2
gets slot3
slots 3 3
gets slot4
slots 4 4
gets teardown
part
> watch film=b.mpg startup=2
sends asks_setup asks_play asks_teardown
is b.mpg
err watched units=2 bytes=49 frames=2 reports=1 most=106 over=0 under=0|
ends 0

again 11
part
> watch film=b.mpg startup=2 buffer=105
sends asks_small asks_play asks_teardown
is b.mpg
err watched units=2 bytes=49 frames=2 reports=1 most=106 over=1 under=0|
ends 0

again 8
part
> watch film=b.mpg startup=2
sends asks_setup asks_play
3 vodserve: b.mpg: EndedEarly 1|
is first.mpg

> watch film=b.mpg
3 vodserve: b.mpg: NoConnection|
fails gate 1
> watch film=b.mpg
7 vodserve: GateFault|
part 1
> watch film=b.mpg
7 vodserve: GateFault|
part
> watch film=b.mpg
sends asks_late
3 vodserve: b.mpg: EndedEarly 0|
hears RTSP/1.0 404 Not Found|CSeq: 1||
part
> watch film=b.mpg
sends asks_late
3 vodserve: b.mpg: Refused 404|

gets setup
hears RTSP/1.0 453 Not Enough Bandwidth|CSeq: 2|x-Slot: 1|x-Booked: 35|x-Asked: 35||
part
> watch film=b.mpg startup=2
sends asks_setup asks_play
3 vodserve: b.mpg: Refused 453|
";

#[test]
fn watches_a_film(rt: HostRuntime) -> Result<(), Fail> {
    pass_all(&rt, rt.alloc(), &[WATCHED])
}
