//! Traces, certificates, generated material and the arguments of the command line, through `run`.

mod days;
mod films;
mod loopback;
mod materials;
mod meetings;
mod outcomes;
mod scenes;
mod serves;
mod watches;

use crate::tests::scenes::pass_all;
use std::alloc::Global;
use std::test::Fail;
use vod_base::NoMemory;

/// Plans of traces, and verdicts on certificates of them.
const PLANS: &str = "\
file even 10 10 10 10 10
file fall 1 9 1 1
file rise 1 1 5
bytes steep 0931 2031 0d0a 3120 3120 3620 3620
file late 9 1
file small 3 9
> plan trace=even buffer=10 startup=0
0 smooth 1|slots 5|bytes 50|segment 5 50|end|
> plan startup=0 trace=fall buffer=9
0 smooth 1|slots 4|bytes 12|segment 2 10|segment 2 2|end|
> plan trace=rise buffer=7 startup=0
0 smooth 1|slots 3|bytes 7|segment 3 7|end|
> plan trace=steep buffer=6 startup=0
0 smooth 1|slots 6|bytes 16|segment 5 10|segment 1 6|end|
> plan trace=late buffer=20 startup=2
0 smooth 1|slots 4|bytes 10|segment 3 9|segment 1 1|end|
> plan trace=small buffer=9 startup=0
0 smooth 1|slots 2|bytes 12|segment 2 12|end|
file number 0026
> plan trace=number
0 smooth 1|slots 26|bytes 26|segment 26 26|end|

file cert smooth 1|slots 4|bytes 12|segment 2 10|segment 2 2|end|
file other smooth 1|slots 4|bytes 12|segment 1 1|segment 1 9|segment 2 2|end|
file parts smooth 1|slots 3|bytes 7|segment 1 2|segment 1 2|segment 1 3|end|
file endless smooth 1|slots 3|bytes 7|segment 3 7|
> check trace=fall buffer=9 startup=0 cert=cert
0 least|
> check trace=fall buffer=9 startup=0 cert=other
1 refused RiseOffUpper 0|
> check cert=parts trace=rise buffer=7 startup=0
1 refused EqualSlopes 0|
> check trace=even buffer=10 startup=0 cert=cert
1 refused WrongLength|
> check trace=rise buffer=7 startup=0 cert=endless
3 vodserve: endless: BadCert 5|
";

/// Command lines that mean nothing. The first is empty.
const WITHOUT_MEANING: &str = "
plan buffer=10
plan trace=even trace=even
plan trace=even buffer=0
plan trace=even buffer=4398046511105
plan trace=even startup=10001
plan trace=even startup=+1
plan trace=even cert=cert
plan trace=.even
check trace=even cert=.cert
scan film=.film
day script=.script
plan trace
check trace=even
scan
scan film=a film=b
make kind=song seed=1 pictures=1
make kind=film seed=1 pictures=0
--help plan
serve
serve film=b.mpg film=b.mpg
";

/// Inputs that are refused.
const REFUSALS: &str = "\
file even 10 10 10 10 10
file small 3 9
file empty 
file word 1 x
file large 4294967296 4294967297
file cut smooth 1|slots 4|
> scan film=none
3 vodserve: none: NotFound|
> plan trace=none
3 vodserve: none: NotFound|
> plan trace=word
3 vodserve: word: BadTrace 2|
> plan trace=large
3 vodserve: large: BadTrace 11|
> plan trace=empty
3 vodserve: empty: NoPictures|
> plan trace=small buffer=8 startup=0
3 vodserve: small: BufferTooSmall 1 9 9|
> check trace=small buffer=8 startup=0 cert=none
3 vodserve: small: BufferTooSmall 1 9 9|
> check trace=even buffer=10 startup=0 cert=none
3 vodserve: none: NotFound|
> check trace=even buffer=10 startup=0 cert=cut
3 vodserve: cut: BadCert 3|
";

/// Calls of the library and of the streams that fail.
const FAULTS: &str = "\
file even 10 10 10 10 10
file t 1 9 1 1
file c smooth 1|slots 4|bytes 12|segment 2 10|segment 2 2|end|
fails library 1
> check trace=t buffer=9 startup=0 cert=c
4 vodserve: t: StoreFault|
fails library 2
> check trace=t buffer=9 startup=0 cert=c
4 vodserve: t: StoreFault|
fails library 3
> check trace=t buffer=9 startup=0 cert=c
4 vodserve: c: StoreFault|
fails library 4
> check trace=t buffer=9 startup=0 cert=c
4 vodserve: c: StoreFault|
fails library 5
> check trace=t buffer=9 startup=0 cert=c
0 least|
fails out 1
> plan trace=even buffer=10 startup=0
5 vodserve: SinkFault|
fails out 1
> check trace=t buffer=9 startup=0 cert=c
5 vodserve: SinkFault|
fails out 1
> make kind=trace seed=1 pictures=2
5 vodserve: SinkFault|
fails out 1
> --version
5 vodserve: SinkFault|
fails err 1
> plan trace=none
3 
";

/// What is generated from a number, and the texts of the program itself.
const MADE: &str = "\
> make kind=trace seed=1 pictures=24
keeps once
> make pictures=24 kind=trace seed=1
is once
> plan trace=once
keeps plan
> check trace=once cert=plan
0 least|
> make seed=1 pictures=250 kind=film
keeps film
> scan film=film
has film bytes=268101 rate=3 pictures=250|0 I show=0 from=0 
keeps scan
> plan film=film slot=7200
keeps cert
> make kind=system seed=1 pictures=250
keeps stream
> scan film=stream
is scan
ends 0
> check film=stream slot=7200 cert=cert
0 least|
> --help
has usage: vodserve COMMAND KEY=VALUE ..|
ends 0
> --version
0 vodserve 0.1.0|
";

/// The certificate of a long film is that of the sizes of its units on the wire.
const LONG: &str = "\
> make seed=5 pictures=20000 kind=film
keeps long
sizes trace long
> plan trace=trace
keeps cert
> plan film=long
is cert
> check film=long cert=cert
0 least|
";

#[test]
fn plans_checks_and_makes(rt: HostRuntime) -> Result<(), Fail> {
    pass_all(&rt, rt.alloc(), &[PLANS, REFUSALS, FAULTS, MADE, LONG])
}

/// The arguments of a server with one film too many.
fn films_of_65(alloc: Global) -> Result<String, NoMemory> {
    let mut words = String::new(alloc);
    words.push_str("serve")?;
    for number in 0..65 {
        let film = format!(in alloc; " film={number}.mpg")?;
        words.push_str(film.as_str())?;
    }
    Ok(words)
}

/// A script of one command line that means nothing.
fn push_usage(script: &mut String, alloc: Global, words: &str) -> Result<(), NoMemory> {
    let run = format!(in alloc; "> {words}\n2 vodserve: usage|\n")?;
    script.push_str(run.as_str())?;
    Ok(())
}

/// A script of command lines that mean nothing: those above, and one with too many films.
fn without_meaning(alloc: Global) -> Result<String, NoMemory> {
    let mut script = String::new(alloc);
    for words in WITHOUT_MEANING.lines() {
        push_usage(&mut script, alloc, words)?;
    }
    push_usage(&mut script, alloc, films_of_65(alloc)?.as_str())?;
    Ok(script)
}

#[test]
fn names_words_without_meaning(rt: HostRuntime) -> Result<(), Fail> {
    let script = without_meaning(rt.alloc())?;
    pass_all(&rt, rt.alloc(), &[script.as_str()])
}
