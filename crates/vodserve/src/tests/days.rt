//! Scripts and drawn plays through `run`.

use crate::tests::scenes::{pass_all, refusals_of};
use std::test::Fail;

/// A link that has room for one play at a time, lines that end with CR LF, a client that can't be
/// asked, a pause in mid-report, and what is refused.
const DAYS: &str = "\
file T 1 1 5
file S play 0 trace T 7 0|play 1 trace T 7 0|slot 1|slot 2|play 1 trace T 7 0|slot 3|
> day script=S capacity=5
counts 0 5
out 0 seat=0 play slot=0 slots=3 bytes=7 admitted start=1|\
1 seat=1 play slot=0 slots=3 bytes=7 overflow slot=3 booked=3 asked=3|\
slot 1 sent=2 booked=2|slot 2 sent=2 booked=2|\
2 seat=1 play slot=2 slots=3 bytes=7 admitted start=3|\
slot 3 sent=5 booked=5|3 seat=0 halt number=0 keep=7 halted|4 seat=1 halt number=2 keep=2 halted|\
calendar from=2|at 2 booked=2|at 3 booked=5|end|
ends 0
file R play 0 trace T 7 0|play 1 trace T 7 0|pause 0|
> day script=R capacity=100 journal=2
0 0 seat=0 play slot=0 slots=3 bytes=7 admitted start=1|refused journal entries=1 open=1|\
1 seat=0 halt number=0 keep=0 halted|calendar from=0|end|
file O play 0 trace T 7 0|play 1 trace T 7 0|
> day script=O capacity=100 journal=2
0 0 seat=0 play slot=0 slots=3 bytes=7 admitted start=1|refused journal entries=1 open=1|\
1 seat=0 halt number=0 keep=0 halted|calendar from=0|end|
file L play 0 trace T 7 0|look 3|
> day script=L capacity=5
0 0 seat=0 play slot=0 slots=3 bytes=7 admitted start=1|\
1 seat=0 look slot=3 looked now=0 at=3 booked=3|\
2 seat=0 halt number=0 keep=0 halted|calendar from=0|end|
file C play 0 trace T 7 0|play 1 trace T 7 0|slot 1|play 1 trace T 7 0|slot 3|
> day script=C capacity=0:5,3:3
0 0 seat=0 play slot=0 slots=3 bytes=7 admitted start=1|\
1 seat=1 play slot=0 slots=3 bytes=7 overflow slot=3 booked=3 asked=3|\
slot 1 sent=2 booked=2|\
2 seat=1 play slot=1 slots=3 bytes=7 overflow slot=3 booked=3 asked=2|\
slot 3 sent=5 booked=5|3 seat=0 halt number=0 keep=7 halted|\
calendar from=1|at 1 booked=2|at 2 booked=2|at 3 booked=3|end|
reply E play 0 trace T 7 0|play 1 trace T 7 0|slot 1|play 1 trace T 7 0||slot 3
> day script=E capacity=0:5,3:3
0 0 seat=0 play slot=0 slots=3 bytes=7 admitted start=1|\
1 seat=1 play slot=0 slots=3 bytes=7 overflow slot=3 booked=3 asked=3|\
slot 1 sent=2 booked=2|\
2 seat=1 play slot=1 slots=3 bytes=7 overflow slot=3 booked=3 asked=2|\
slot 3 sent=5 booked=5|3 seat=0 halt number=0 keep=7 halted|\
calendar from=1|at 1 booked=2|at 2 booked=2|at 3 booked=3|end|
file B pause 0|resume 0|play 0 trace T 4 0|play 0 trace T 7 0|play 0 trace T 4 0|look 1
> day script=B capacity=5 journal=2
0 refused state|refused state|refused BufferTooSmall 2 5 5|\
0 seat=0 play slot=0 slots=3 bytes=7 admitted start=1|refused state|\
refused journal entries=1 open=1|\
1 seat=0 halt number=0 keep=0 halted|calendar from=0|end|
bytes K 706175736520300d
> day script=K
3 vodserve: K: BadScript 1|
> day script=C capacity=1:5
2 vodserve: usage|
> day script=C capacity=0:5,0:6
2 vodserve: usage|
file W play 0 trace T 7 0|offer 1 trace T 7 0 4|offer 1 trace T 7 0 2|
> day script=W capacity=4
0 0 seat=0 play slot=0 slots=3 bytes=7 admitted start=1|\
tried start=1 slot=3 booked=3 asked=3|tried start=2 slot=3 booked=3 asked=2|\
tried start=3 slot=3 booked=3 asked=2|offer start=4 tried=3|\
tried start=1 slot=3 booked=3 asked=3|tried start=2 slot=3 booked=3 asked=2|\
tried start=3 slot=3 booked=3 asked=2|offer none tried=3|\
1 seat=0 halt number=0 keep=0 halted|calendar from=0|end|
bytes b.mpg 000001b316012013ffffe0a0 000001b800080040 00000100000ffff8 000001011234 \
000001000057fff880 000001011234
file P play 0 film b.mpg 1048576 2|slot 1|pause 0|slot 2|slot 3|resume 0|slot 4|
> day script=P
0 0 seat=0 play slot=0 slots=4 bytes=141 admitted start=1|slot 1 sent=35 booked=35|\
1 seat=0 halt number=0 keep=52 halted|slot 2 sent=17 booked=17|slot 3 sent=0 booked=0|\
2 seat=0 play slot=3 slots=4 bytes=89 admitted start=4|slot 4 sent=22 booked=22|\
3 seat=0 halt number=2 keep=22 halted|calendar from=3|at 4 booked=22|end|

fails library 1
> day script=S
4 vodserve: S: StoreFault|
fails library 3
> day script=S
4 vodserve: T: StoreFault|
fails out 1
> day script=S capacity=5
counts 0 5
5 vodserve: SinkFault|
> day script=none
3 vodserve: none: NotFound|
file N play 0 trace word 7 0|
file word 1 x
> day script=N
3 vodserve: word: BadTrace 2|
file F play 0 film word 7 0|
> day script=F
3 vodserve: word: NoSequence|
file U play 0 trace none 7 0|
> day script=U
3 vodserve: none: NotFound|
> fair seed=7 plays=50
has fair turns=50 
keeps fair
> fair plays=50 seed=7
is fair
> fair seed=7 plays=2000
0 fair turns=2000 admitted=975 overflow=728 halted=975 full=0 last=2886 sent=137480547 \
booked=137480547 peak=50000|
> fair seed=7 plays=2000
0 fair turns=2000 admitted=975 overflow=728 halted=975 full=0 last=2886 sent=137480547 \
booked=137480547 peak=50000|
> fair seed=7 plays=2000 capacity=0:0
0 fair turns=2000 admitted=0 overflow=2000 halted=0 full=0 last=2959 sent=0 booked=0 peak=0|
";

/// Scripts with a line that means nothing, each after the fault that names the first such line.
const BAD_SCRIPTS: &str = "\
BadScript 1:play 256 trace T 7 0|
BadScript 1:play 0 trace T 0 0|
BadScript 1:play 0 trace T 4398046511105 0|
BadScript 1:play 0 trace T 7 10001|
BadScript 1:play 0 movie T 7 0|
BadScript 1:play 0 trace .T 7 0|
BadScript 1:play 0 trace T 7|
BadScript 1:play 0 trace T 7 0 0|
BadScript 1:offer 0 trace T 7 0|
BadScript 1:offer 0 trace T 7 0 256|
BadScript 1:pause 256|
BadScript 1:pause|
BadScript 1:pause 0 |
BadScript 1:resume x|
BadScript 1:resume +1|
BadScript 1:look 4611686018427387905|
BadScript 1:slot 0|
BadScript 1:slot 4611686018427387905|
BadScript 2:slot 2|slot 2|
BadScript 4:slot 5||look 1|slot 4|
BadScript 1:stop 0|
BadScript 2:pause 0|slot 0|
BadScript 2:pause 0|stop 0|
BadScript 3:||pause 256|
BadScript 1:pause  0|
BadScript 1: pause 0|
BadScript 4:slot 5|look 1|slot 6|slot 5
";

#[test]
fn runs_scripts_and_drawn_plays(rt: HostRuntime) -> Result<(), Fail> {
    let bad = refusals_of(rt.alloc(), "file", "day script", BAD_SCRIPTS)?;
    pass_all(&rt, rt.alloc(), &[DAYS, bad.as_str()])
}
