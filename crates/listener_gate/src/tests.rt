//! Over a listener in memory.

use super::ListenerDoing::Accepted;
use super::*;
use std::alloc::{AllocError, Global};
use std::fmt;
use std::test::Fail;
use vod_base::{Gate, GateFault, Opening};

const HOW: Opening = Opening {
    port: 554,
    all: false,
    connections: 3,
    slot_units: 14_400,
};

/// A listener with these accepts: a connection that says nothing (`c`), or an error (`l` lost, `s`
/// short, `b` broken). One call fails, unless its number is 0.
fn listener_of(alloc: Global, accepts: &str, failing: u64) -> Result<MemoryListener, AllocError> {
    let mut script = Vec::new(alloc);
    for accept in accepts.chars() {
        script.push(match accept {
            'c' => Ok(Vec::new(alloc)),
            'l' => Err(AcceptError::Transient),
            's' => Err(AcceptError::Shortage),
            _ => Err(AcceptError::Broken),
        })?;
    }
    let calls = Vec::from_slice(alloc, &[failing])?;
    Ok(MemoryListener::new(alloc, script, Vec::new(alloc), calls))
}

/// What a `take` answered: a connection, none, or a fault. A connection goes back.
fn taken(gate: &mut ListenerGate<MemoryListener>) -> char {
    match gate.take() {
        Ok(Some(_conn)) => 'c',
        Ok(None) => 'n',
        Err(GateFault) => 'f',
    }
}

/// What an `open` answered: that it is done, or a fault.
fn opened(gate: &mut ListenerGate<MemoryListener>, how: &Opening) -> char {
    match gate.open(how) {
        Ok(()) => 'k',
        Err(GateFault) => 'f',
    }
}

/// What a call of a gate answers: `t` takes a connection, `o` opens it, and `a` opens it at all
/// addresses.
fn answer(gate: &mut ListenerGate<MemoryListener>, connections: u64, call: char) -> char {
    match call {
        't' => taken(gate),
        _ => {
            let all = call == 'a';
            let how = Opening {
                all,
                connections,
                ..HOW
            };
            opened(gate, &how)
        }
    }
}

/// Whether a gate answers calls so.
fn answers(
    gate: &mut ListenerGate<MemoryListener>,
    connections: u64,
    calls: &str,
    wants: &str,
) -> bool {
    let mut is_same = calls.len() == wants.len();
    for (call, want) in calls.chars().zip(wants.chars()) {
        is_same &= answer(gate, connections, call) == want;
    }
    is_same
}

/// A column of a row.
fn column(row: &str, number: usize) -> &str {
    row.split('|').nth(number).unwrap_or("")
}

/// The number in a column of a row, or 0.
fn number(row: &str, number: usize) -> u64 {
    column(row, number).parse::<u64>().unwrap_or(0)
}

/// Whether a row holds. It has the accepts of a listener, its call that fails, the connections that
/// a gate over it gives, calls of the gate, their answers, and what the listener did, if that is
/// looked at.
fn holds(alloc: Global, row: &str) -> bool {
    let Ok(listener) = listener_of(alloc, column(row, 0), number(row, 1)) else {
        return false;
    };
    let mut gate = ListenerGate::new(listener);
    let did = column(row, 5);
    answers(&mut gate, number(row, 2), column(row, 3), column(row, 4))
        && (did.is_empty() || is_printed(alloc, &gate.listener().doings(), did))
}

/// The first row that doesn't hold.
fn wrong_row(alloc: Global, rows: &'static str) -> &'static str {
    for row in rows.lines() {
        if !holds(alloc, row) {
            return row;
        }
    }
    ""
}

#[test]
fn takes_as_many_as_it_may(rt: HostRuntime) {
    let rows = "\
cccc|0|0|otttttt|kccccff
cccc|0|1|otttttt|kcnnnnn
cccc|0|3|otttttt|kcccnnn
";
    assert_eq!(rt; wrong_row(rt.alloc(), rows), "");
}

/// What the listener does for two connections, where the shortages before the first make the gate
/// wait longer and longer, up to a second.
const SHORTAGES: &str = "\
sslsssssscsc|0|3|ott|kcc|[Bound([127, 0, 0, 1], 554, 14400), \
ShortageError, Waited(10), ShortageError, Waited(20), TransientError, \
ShortageError, Waited(40), ShortageError, Waited(80), ShortageError, Waited(160), \
ShortageError, Waited(320), ShortageError, Waited(640), ShortageError, Waited(1000), Accepted, \
ShortageError, Waited(10), Accepted]
";

#[test]
fn waits_out_shortages(rt: HostRuntime) {
    assert_eq!(rt; wrong_row(rt.alloc(), SHORTAGES), "");
}

/// The accept is broken, the wait fails, and the script is at its end.
const FAULTS: &str = "\
lb|0|3|ot|kf
sc|2|3|ot|kf
|0|3|ot|kf
";

#[test]
fn fails_where_the_listener_fails(rt: HostRuntime) {
    assert_eq!(rt; wrong_row(rt.alloc(), FAULTS), "");
}

/// The gate isn't open, then it isn't bound, and then it is.
#[test]
fn opens_after_a_fault(rt: HostRuntime) {
    let row = "c|1|3|totat|fffkc|[Bound([0, 0, 0, 0], 554, 14400), Accepted]";
    assert_eq!(rt; wrong_row(rt.alloc(), row), "");
}

/// A gate that gives one connection of each part, and whose one part gives two connections.
fn gate_of_one_part(alloc: Global) -> Result<ListenerGate<MemoryListener>, AllocError> {
    let mut script = Vec::new(alloc);
    script.push(Ok(Vec::new(alloc)))?;
    script.push(Ok(Vec::new(alloc)))?;
    let mut scripts = Vec::new(alloc);
    scripts.push(script)?;
    Ok(ListenerGate::new(MemoryListener::new(alloc, Vec::new(alloc), scripts, Vec::new(alloc))))
}

/// How many connections a part ended, whether it did what it should, and what its gate did.
fn part_history(alloc: Global) -> Result<(u64, bool, usize), Fail> {
    let mut gate = gate_of_one_part(alloc)?;
    let how = Opening {
        connections: 1,
        ..HOW
    };
    let Ok(()) = gate.open(&how) else {
        return Err(Fail::from("not open"));
    };
    let Ok(mut part) = gate.split() else {
        return Err(Fail::from("no part"));
    };
    let Ok(Some(conn)) = part.take() else {
        return Err(Fail::from("no connection"));
    };
    part.give_back(conn);
    let ended = part.listener().ended();
    let is_accepted = matches!(part.listener().doings(), [Accepted]);
    gate.rejoin(part);
    Ok((ended, is_accepted, gate.listener().doings().len()))
}

#[test]
fn parts_go_out_and_come_back(rt: HostRuntime) -> Result<(), Fail> {
    assert_eq!(rt; part_history(rt.alloc())?, (1, true, 2));
    Ok(())
}

/// The error numbers of each meaning, which are those of errno(3) in Linux.
const MEANINGS: &str = "\
Shortage 12 23 24 105
Transient 1 4 64 71 92 95 100 101 103 112 113
Broken 9 13 22 88 11
";

/// Whether the error numbers of a row have its meaning.
fn has_meaning(alloc: Global, row: &str) -> bool {
    let Some((meaning, numbers)) = row.split_once(' ') else {
        return false;
    };
    let mut is_same = true;
    for number in numbers.split(' ') {
        let Ok(number) = number.parse::<i32>() else {
            return false;
        };
        is_same &= is_printed(alloc, &accept_error_of(Some(number)), meaning);
    }
    is_same
}

#[test]
fn error_numbers_have_their_meaning(rt: HostRuntime) {
    for row in MEANINGS.lines() {
        assert!(rt; has_meaning(rt.alloc(), row), "{row}");
    }
    assert_eq!(rt; accept_error_of(None), AcceptError::Broken);
}

/// Whether a value is printed so.
fn is_printed<T: fmt::Debug>(alloc: Global, value: &T, want: &str) -> bool {
    matches!(format!(in alloc; "{value:?}"), Ok(text) if text.as_str() == want)
}

#[test]
fn values_are_printed(rt: HostRuntime) -> Result<(), AllocError> {
    let alloc = rt.alloc();
    assert!(rt; is_printed(alloc, &PartNote::NoMore, "NoMore"));
    let opened = "Opened(Opening { port: 554, all: false, connections: 3, slot_units: 14400 })";
    assert!(rt; is_printed(alloc, &GateNote::Opened(HOW), opened));
    let history = PartHistory::<u8>::new(2);
    assert!(rt; is_printed(alloc, &history, "PartHistory { number: 2, .. }"));
    let gate = gate_of_one_part(alloc)?;
    let printed = "ListenerGate { listener: MemoryListener { .. }, .. }";
    assert!(rt; is_printed(alloc, &gate, printed));
    Ok(())
}
