//! A script that is read, refused scripts, and each line that is written.

use super::*;
use admission::Full;
use early_start::Offers;
use std::test::Fail;
use wire_curve::CurveFault;

#[test]
fn reads_lines_and_names(rt: HostRuntime) -> Result<(), Fail> {
    let text = "play 3 film a.mpg 70000 2\r\n\npause 3\nslot 9\noffer 4 trace t 7 0 5";
    let script = match read_script(rt.alloc(), text.as_bytes()) {
        Ok(script) => script,
        Err(refused) => {
            assert!(rt; false, "{refused}");
            return Ok(());
        }
    };
    let lines = [
        Line::Play {
            client: 3,
            source: 0,
            buffer: 70_000,
            delay: 2,
        },
        Line::Pause(3),
        Line::Slot(9),
        Line::Offer {
            client: 4,
            source: 1,
            buffer: 7,
            delay: 0,
            wait: 5,
        },
    ];
    assert!(rt; script.lines.as_slice() == lines.as_slice());
    assert_eq!(rt; script.named.len(), 2);
    assert_eq!(rt; script.named[1].kind, SourceKind::Trace);
    assert!(rt; script.named[1].name.as_str() == "t");
    Ok(())
}

/// Scripts, each with its first bad line, from 1 on.
const BAD_LINES: [(&str, u64); 4] = [
    ("look 1\nsee 1\n", 2),
    ("\n\npause 256\n", 3),
    ("slot 5\nlook 1\nslot 5", 3),
    ("look 1 \n", 1),
];

#[test]
fn names_the_first_bad_line(rt: HostRuntime) -> Result<(), Fail> {
    for (text, line) in BAD_LINES {
        match read_script(rt.alloc(), text.as_bytes()) {
            Err(refused) => assert_eq!(rt; refused, ScriptRefused::BadScript { line }, "{text}"),
            Ok(_) => assert!(rt; false, "{text}"),
        }
    }
    Ok(())
}

#[test]
fn writes_each_line(rt: HostRuntime) -> Result<(), Fail> {
    let alloc = rt.alloc();
    let mut out = Vec::new(alloc);
    push_state(&mut out)?;
    push_fault(&mut out, CurveFault::TooManySlots { slots: 7 })?;
    push_full(
        &mut out,
        Full {
            entries: 2,
            live: 1,
        },
    )?;
    push_slot(&mut out, 1, 2, 3)?;
    push_offer(&mut out, &Offers::new(alloc, 3)?)?;
    let counts = FairTotals {
        turns: 1,
        full: 2,
        last: 3,
        sent: 4,
        booked: 5,
        peak: 6,
    };
    let entries = EntryCounts {
        admitted: 7,
        overflows: 8,
        halted: 9,
    };
    push_fair(&mut out, &counts, &entries)?;
    let printed = format!(in alloc; "{counts:?} {entries:?}")?;
    let debug = "FairTotals { turns: 1, full: 2, last: 3, sent: 4, booked: 5, peak: 6 } \
        EntryCounts { admitted: 7, overflows: 8, halted: 9 }";
    assert_eq!(rt; printed.as_str(), debug);
    let text = "refused state\nrefused TooManySlots 7\nrefused journal entries=2 open=1\n\
        slot 1 sent=2 booked=3\noffer none tried=0\n\
        fair turns=1 admitted=7 overflow=8 halted=9 full=2 last=3 sent=4 booked=5 peak=6\n";
    assert_eq!(rt; out.as_slice(), text.as_bytes());
    Ok(())
}
