//! Films and system streams through `run`.

use crate::tests::scenes::{pass_all, refusals_of};
use std::test::Fail;

/// Films of one picture and of two, their plans, and streams that carry them.
const FILMS: &str = "\
bytes sequence 000001b316012013ffffe0a0
bytes group 000001b800080040
bytes intra 00000100000ffff8 000001011234
bytes second 000001000057fff880 000001011234
bytes a.mpg sequence group intra
bytes b.mpg a.mpg second
> scan film=a.mpg
0 film bytes=34 rate=3 pictures=1|0 I show=0 from=0 head=28 to=34 slices=1 sequence group|end|
> scan film=b.mpg
out film bytes=49 rate=3 pictures=2|0 I show=0 from=0 head=28 to=34 slices=1 sequence group|\
1 P show=1 from=34 head=43 to=49 slices=1|end|
ends 0
> plan film=b.mpg startup=2
0 smooth 1|slots 4|bytes 141|segment 3 106|segment 1 35|end|
> plan film=b.mpg startup=0 slot=7200
0 smooth 1|slots 3|bytes 141|segment 1 106|segment 2 35|end|
file c smooth 1|slots 4|bytes 141|segment 3 106|segment 1 35|end|
> check film=b.mpg startup=2 cert=c
0 least|
> check film=b.mpg startup=3 cert=c
1 refused WrongLength|

bytes pack 000001ba2100010001800003
bytes ends 000001b9
bytes stream pack 000001e000230f a.mpg ends
> scan film=stream
0 film bytes=34 rate=3 pictures=1|0 I show=0 from=0 head=28 to=34 slices=1 sequence group|end|
bytes stuffed pack 000001e0002bffff60002100010001 a.mpg ends
> scan film=stuffed
0 film bytes=34 rate=3 pictures=1|0 I show=0 from=0 head=28 to=34 slices=1 sequence group|end|
bytes later 123400 pack 000001e000230f a.mpg
> scan film=later
0 film bytes=34 rate=3 pictures=1|0 I show=0 from=0 head=28 to=34 slices=1 sequence group|end|
bytes two pack 000001e000320f b.mpg ends
> plan film=two startup=2
0 smooth 1|slots 4|bytes 141|segment 3 106|segment 1 35|end|
> check film=two startup=2 cert=c
0 least|
";

/// Films and system streams that are refused, in hexadecimal digits, each after its fault.
const REFUSED: &str = "\
Empty:
PictureWithoutSlices 20:000001b316012013ffffe0a0000001b80008004000000100000ffff8
ShortHeader 20:000001b316012013ffffe0a0000001b80008004000000100000f
HeadWithoutPicture 0:000001b316012013ffffe0a0
Mpeg2 12:000001b316012013ffffe0a0000001b5
SystemCode 12:000001b316012013ffffe0a0000001ba
BadRate 0 0:000001b316012010ffffe0a0000001b8
NoSequence:000001b80008004000000100000ffff8000001011234
Truncated 0:000001ba
NotPack 0:000001ba4400010001800003
NotPack 1:12000001ba4400010001800003
BadPacket 12:000001ba2100010001800003 000001e0000100
BadCode 12:000001ba2100010001800003 41
Truncated 12:000001ba2100010001800003 000001e000230f
Empty:000001ba2100010001800003
SystemCode 0:000001ba2100010001800003 000001e000050f000001b9
BadCode 23:000001ba2100010001800003 000001e000050f000001b941
BadPacket 12:000001ba2100010001800003 000001e00034ffffffffffffffffffffffffffffffffff0f \
000001b316012013ffffe0a0000001b80008004000000100000ffff8000001011234
";

#[test]
fn scans_and_plans_films(rt: HostRuntime) -> Result<(), Fail> {
    let alloc = rt.alloc();
    let scans = refusals_of(alloc, "bytes", "scan film", REFUSED)?;
    let plans = refusals_of(alloc, "bytes", "plan film", REFUSED)?;
    pass_all(&rt, alloc, &[FILMS, scans.as_str(), plans.as_str()])
}
