//! Scripts and a drawn day with their printed text, and a long script.

ghost use Rattle.std.specs.Prelude.{IfOk, length};
ghost use Rattle.day_script.specs.Scripts.{AreLines};
ghost use Rattle.day_run.specs.Sources.{AreSources};

use super::*;
use admission::MAX_ENTRIES;
use day_script::{Script, read_script};
use slot_calendar::Profile;
use std::alloc::Global;
use std::process::Abort;
use std::test::Fail;

/// A slot in 1/360,000 second: 40 ms.
const SLOT_UNITS: u32 = 14_400;

/// How many lines the long script has.
const LOOKS: u64 = 200_000;

/// A script that names the trace T of 1, 1 and 5 bytes; the bytes that a slot carries; the most
/// entries of the journal; and what is printed.
#[derive(Clone, Copy)]
struct Row {
    script: &'static str,
    capacity: u64,
    limit: u64,
    text: &'static str,
}

/// All kinds of lines; and a journal of four places, of which a play takes two.
const ROWS: [Row; 2] = [
    Row {
        script: "look 2\nplay 0 trace T 7 0\noffer 1 trace T 7 0 3\nlook 3\nslot 1\npause 0\n\
                 look 9\nresume 0\nslot 4\nresume 0",
        capacity: 5,
        limit: 100,
        text: "0 seat=0 look slot=2 looked now=0 at=2 booked=0\n\
               1 seat=0 play slot=0 slots=3 bytes=7 admitted start=1\n\
               tried start=1 slot=3 booked=3 asked=3\noffer start=2 tried=1\n\
               2 seat=0 look slot=3 looked now=0 at=3 booked=3\nslot 1 sent=2 booked=2\n\
               3 seat=0 halt number=1 keep=2 halted\n\
               4 seat=0 look slot=9 looked now=0 at=9 booked=0\n\
               5 seat=0 play slot=1 slots=3 bytes=5 admitted start=2\n\
               slot 4 sent=5 booked=5\n6 seat=0 halt number=5 keep=5 halted\nrefused state\n\
               calendar from=1\nat 1 booked=2\nat 2 booked=1\nat 3 booked=2\nat 4 booked=2\nend\n",
    },
    Row {
        script: "play 7 trace T 7 0\nlook 1\nplay 8 trace T 7 0\nlook 2\npause 7\nlook 3\n",
        capacity: 50,
        limit: 4,
        text: "0 seat=7 play slot=0 slots=3 bytes=7 admitted start=1\n\
               1 seat=0 look slot=1 looked now=0 at=1 booked=2\n\
               refused journal entries=2 open=1\n\
               2 seat=0 look slot=2 looked now=0 at=2 booked=2\n\
               3 seat=7 halt number=0 keep=0 halted\nrefused journal entries=4 open=0\n\
               calendar from=0\nend\n",
    },
];

/// Reads a script that is one.
fn script_of(rt: &impl Abort, alloc: Global, text: &[u8]) -> Result<Script, Fail>
    ensures { IfOk result (λ script.
        AreLines (length script.named.items) script.lines.items) }
{
    match read_script(alloc, text) {
        Ok(script) => Ok(script),
        Err(refused) => panic!(rt; "{refused}"),
    }
}

/// Runs a script over these sources.
fn run(
    rt: &impl Abort,
    alloc: Global,
    text: &[u8],
    sources: &[Source],
    capacity: u64,
    limit: u64,
) -> Result<Day, Fail>
    requires { AreSources sources.now }
{
    let script = script_of(rt, alloc, text)?;
    assert_eq!(rt; script.named.len(), sources.len());
    assert!(rt; 2 <= limit && limit <= MAX_ENTRIES && capacity <= 1 << 42);
    let profile = Profile::flat(alloc, capacity)?;
    Ok(run_script(alloc, &script, sources, profile, limit, SLOT_UNITS)?)
}

#[test]
fn prints_each_line(rt: HostRuntime) -> Result<(), Fail> {
    let alloc = rt.alloc();
    for row in ROWS {
        let sources = [Source::Trace(Vec::from_slice(alloc, &[1, 1, 5])?)];
        let day = run(
            &rt,
            alloc,
            row.script.as_bytes(),
            &sources,
            row.capacity,
            row.limit,
        )?;
        let printed = format!(in alloc; "{:?} {day:?}", sources[0])?;
        assert_eq!(rt; printed.as_str(), "Trace(..) Day { .. }");
        let text = day.text.as_slice();
        assert!(rt;
            text == row.text.as_bytes(),
            "{}",
            String::from_utf8_lossy(alloc, text)?
        );
    }
    Ok(())
}

#[test]
fn runs_many_lines(rt: HostRuntime) -> Result<(), Fail> {
    let alloc = rt.alloc();
    let mut text = Vec::new(alloc);
    for look in 0..LOOKS {
        text.extend_from_slice(b"look 1\n")?;
    }
    let day = run(&rt, alloc, &text, &[], 5, MAX_ENTRIES)?;
    assert_eq!(rt; day.journal.len() as u64, LOOKS);
    let end = "\n199999 seat=0 look slot=1 looked now=0 at=1 booked=0\ncalendar from=0\nend\n";
    assert!(rt; day.text.ends_with(end.as_bytes()));
    Ok(())
}

#[test]
fn runs_drawn_plays(rt: HostRuntime) -> Result<(), Fail> {
    let alloc = rt.alloc();
    let day = fair(alloc, 7, 2000, Profile::flat(alloc, 50_000)?)?;
    let text = "fair turns=2000 admitted=975 overflow=728 halted=975 full=0 last=2886 \
        sent=137480547 booked=137480547 peak=50000\n";
    assert_eq!(rt; day.text.as_slice(), text.as_bytes());
    Ok(())
}
