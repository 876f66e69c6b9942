//! Over the loopback interface and the test's own folder.

mod sockets;
mod test_gates;

use super::*;
use crate::tests::sockets::{
    connect, ends_with_last_bytes, has_both_slots, listens_as_asked, serves_late_reader,
};
use crate::tests::test_gates::{TestGate, TestListener};
use listener_gate::ListenerGate;
use std::alloc::Global;
use std::io::{Read, Write};
use std::net::{Net, Shutdown, TcpListener, TcpStream};
use std::rt::Files;
use std::thread::Threads;
use std::time::Clock;
use std::{fmt, fs, io};
use vod_base::{Heard, Library, Link, Opening, Sink, SinkFault};

/// Slots of ten milliseconds on a free port, and one connection for each part.
const HOW: Opening = Opening {
    port: 0,
    all: false,
    connections: 1,
    slot_units: 3_600,
};

/// Opens a gate, and returns its port.
fn open_gate<G: TestGate>(gate: &mut G, how: &Opening) -> Option<u16> {
    gate.open_as(how).ok()?;
    gate.port()
}

/// Whether a value is printed so.
fn is_printed<T: fmt::Debug>(alloc: Global, value: &T, want: &str) -> bool {
    matches!(format!(in alloc; "{value:?}"), Ok(text) if text.as_str() == want)
}

/// The next connection of a gate.
fn link_of<G: TestGate>(gate: &mut G) -> Option<G::Conn> {
    gate.next_conn().ok()?
}

/// Whether a gate has no more connections.
fn gives_none<G: TestGate>(gate: &mut G) -> bool {
    matches!(gate.next_conn(), Ok(None))
}

/// The slot that comes next, if a slot does.
fn next_slot<K: Link>(link: &mut K) -> Option<u64> {
    match link.next(&mut [0; 8]) {
        Ok(Heard::Slot(slot)) => Some(slot),
        _ => None,
    }
}

/// The next event that is no slot, and how many slots began before it, each later than the last.
fn next_but_slots<K: Link>(link: &mut K, into: &mut [u8; 8]) -> Option<(Heard, u32)> {
    let mut slots = 0u32;
    let mut next = 0;
    for _ in 0..10_000 {
        match link.next(into).ok()? {
            Heard::Slot(slot) if slot < next => return None,
            Heard::Slot(slot) => {
                next = slot.saturating_add(1);
                slots = slots.saturating_add(1);
            }
            heard => return Some((heard, slots)),
        }
    }
    None
}

/// How many slots came before these bytes, where they come next.
fn hear<K: Link>(link: &mut K, want: &[u8]) -> Option<u32> {
    let mut into = [0; 8];
    match next_but_slots(link, &mut into)? {
        (Heard::Bytes(count), slots) if into.get(..count) == Some(want) => Some(slots),
        _ => None,
    }
}

/// Whether the end comes next, except for slots.
fn hears_end<K: Link>(link: &mut K) -> bool {
    matches!(next_but_slots(link, &mut [0; 8]), Some((Heard::End, _)))
}

/// Whether bytes go both ways. The last ones are still on their way at the end.
fn speak<K: Link, S: Read + Write>(link: &mut K, client: &mut S) -> bool {
    let mut came = [0; 3];
    client.write_all(b"abc").is_ok()
        && hear(link, b"abc") > Some(0)
        && link.send(b"xy").is_ok()
        && link.send(b"z").is_ok()
        && next_slot(link).is_some()
        && client.read_exact(&mut came).is_ok()
        && &came == b"xyz"
        && client.write_all(b"more").is_ok()
        && link.send(b"last").is_ok()
}

/// Whether a link of a part speaks with its client, and the client then receives `last` to the end.
fn speaks_to_end<G: TestGate>(
    alloc: Global,
    part: &mut G,
    mut link: G::Conn,
    mut client: TcpStream,
) -> bool {
    let printed = "SocketLink { socket: TcpSocket { .. }, .. }";
    let is_spoken = is_printed(alloc, &link, printed)
        && speak(&mut link, &mut client)
        && client.shutdown(Shutdown::Write).is_ok();
    part.end_conn(link);
    is_spoken && matches!(io::read_to_string(alloc, client), Ok(text) if text.as_str() == "last")
}

/// Whether a connection of a gate's part speaks with its client, and the part gives no other.
fn speaks_by_part<G: TestGate>(alloc: Global, part: &mut G, client: TcpStream) -> bool {
    let Some(link) = link_of(part) else {
        return false;
    };
    speaks_to_end(alloc, part, link, client) && gives_none(part)
}

/// Whether a part of a gate serves one connection.
fn speaks<R: Net<Stream = TcpStream>, G: TestGate + Drop>(
    rt: &R,
    alloc: Global,
    gate: &mut G,
) -> Option<bool> {
    let port = open_gate(gate, &HOW)?;
    let client = connect(rt, 1, port).ok()?;
    let mut part = gate.split_off().ok()?;
    let is_spoken = speaks_by_part(alloc, &mut part, client);
    gate.join_part(part);
    Some(is_spoken)
}

/// Whether a gate doesn't open at the port of another one, and then gives no part.
fn refuses_port_of<G: TestGate + Drop>(first: &mut G, second: &mut G) -> Option<bool> {
    let port = open_gate(first, &HOW)?;
    let is_open = second.open_as(&Opening { port, ..HOW }).is_ok();
    Some(!is_open && second.split_off().is_err())
}

/// Whether a link meets a gate's connection: what is sent leaves at its next wait, and comes to the
/// other end. Then the connection ends.
fn meet<G: TestGate, N: Link>(gate: &mut G, near: &mut N) -> bool {
    let Some(mut far) = link_of(gate) else {
        return false;
    };
    let is_met = next_slot(near).is_some()
        && near.send(b"abc").is_ok()
        && next_slot(near).is_some()
        && hear(&mut far, b"abc").is_some();
    drop(far);
    is_met && hears_end(near)
}

/// Whether the first of two parts gives a link that meets a gate's connection, and the parts give
/// no other.
fn meet_by_parts<G: TestGate, D: TestGate>(gate: &mut G, first: &mut D, second: &mut D) -> bool {
    let Some(mut near) = link_of(first) else {
        return false;
    };
    let is_met = gives_none(first) && gives_none(second) && meet(gate, &mut near);
    first.end_conn(near);
    is_met
}

/// Whether a gate that dials meets one that listens at all addresses.
fn dials<G: TestGate, D: TestGate + Drop>(gate: &mut G, dial: &mut D) -> Option<bool> {
    let port = open_gate(gate, &Opening { all: true, ..HOW })?;
    dial.open_as(&Opening { port, ..HOW }).ok()?;
    let mut first = dial.split_off().ok()?;
    let mut second = dial.split_off().ok()?;
    let is_met = meet_by_parts(gate, &mut first, &mut second);
    dial.join_part(first);
    dial.join_part(second);
    Some(is_met)
}

/// Whether a gate that dials gives no part before it is open, and finds nobody at the port of a
/// gate that is closed again.
fn finds_nobody<G: TestGate + Drop, D: TestGate + Drop>(mut gate: G, dial: &mut D) -> Option<bool> {
    let port = open_gate(&mut gate, &HOW);
    drop(gate);
    let opening = Opening { port: port?, ..HOW };
    Some(dial.split_off().is_err() && dial.open_as(&opening).is_err())
}

/// Whether a library reads this text at a place of a file, or fails.
fn reads<L: Library>(library: &mut L, name: &str, at: u64, want: Option<&str>) -> bool {
    let mut into = [0; 4];
    match (library.read(name, at, &mut into), want) {
        (Ok(count), Some(want)) => into.get(..count) == Some(want.as_bytes()),
        (Err(_), None) => true,
        _ => false,
    }
}

/// Places in `f.txt`, which has ten digits, and `g.txt`, which isn't there, and what is read there.
const READS: &[(&str, u64, Option<&str>)] = &[
    ("f.txt", 0, Some("0123")),
    ("f.txt", 4, Some("4567")),
    ("f.txt", 8, Some("89")),
    ("f.txt", 10, Some("")),
    ("f.txt", 1, Some("1234")),
    ("g.txt", 0, None),
];

/// Whether a library finds both files so, and reads them.
fn reads_digits<L: Library>(library: &mut L) -> bool {
    for (name, at, want) in READS {
        if !reads(library, name, *at, *want) {
            return false;
        }
    }
    library.find("f.txt") == Ok(Some(10)) && library.find("g.txt") == Ok(None)
}

/// Whether a text is written to a new file of that name.
fn writes<R: Files>(rt: &R, alloc: Global, name: &str) -> Option<Result<(), SinkFault>> {
    let mut sink = OutSink::new(fs::create(rt, name).ok()?);
    if !is_printed(alloc, &sink, "OutSink { .. }") {
        return None;
    }
    Some(sink.write_all(b"out"))
}

/// Whether files are read, and a text is written to one. On a device that is full each write fails.
fn has_files<R: Files>(rt: &R, alloc: Global) -> [bool; 6] {
    let is_ready = fs::write(rt, "f.txt", "0123456789").is_ok();
    let mut library = FileLibrary::new(rt, alloc);
    [
        is_ready,
        is_printed(alloc, &library, "FileLibrary { .. }"),
        reads_digits(&mut library),
        writes(rt, alloc, "o.txt") == Some(Ok(())),
        writes(rt, alloc, "/dev/full") == Some(Err(SinkFault)),
        library.find("o.txt") == Ok(Some(3)),
    ]
}

#[test]
fn reads_and_writes_files(rt: HostRuntime) {
    assert_eq!(rt; has_files(&rt, rt.alloc()), [true; 6]);
}

/// What a gate that listens and one that dials do at ports of this machine.
fn serves_and_dials<R, G, D>(
    rt: &R,
    alloc: Global,
    gate: &mut G,
    mut second: G,
    dial: &mut D,
) -> [Option<bool>; 8]
where
    R: Net<Stream = TcpStream> + Clock + Threads + Sync,
    G: TestGate + Send + Drop,
    G::Conn: Send,
    D: TestGate + Drop,
{
    [
        listens_as_asked(rt, gate),
        refuses_port_of(gate, &mut second),
        finds_nobody(second, dial),
        dials(gate, dial),
        speaks(rt, alloc, gate),
        serves_late_reader(rt, gate),
        has_both_slots(rt, gate),
        ends_with_last_bytes(rt, gate),
    ]
}

/// The same of gates over these listeners, and whether the gates are printed as they should be.
fn listeners_serve<R, L, D>(
    rt: &R,
    alloc: Global,
    listener: L,
    second: L,
    dial: &mut D,
) -> ([bool; 2], [Option<bool>; 8])
where
    R: Net<Stream = TcpStream> + Clock + Threads + Sync,
    L: TestListener + Send,
    L::Conn: fmt::Debug + Send,
    D: TestGate + fmt::Debug + Drop,
{
    let mut gate = ListenerGate::new(listener);
    let printed = "ListenerGate { listener: TcpPort { .. }, .. }";
    let printed = [
        is_printed(alloc, &gate, printed),
        is_printed(alloc, dial, "DialGate { .. }"),
    ];
    let second = ListenerGate::new(second);
    (
        printed,
        serves_and_dials(rt, alloc, &mut gate, second, dial),
    )
}

/// The same of the gates of this machine.
fn system_serves_and_dials<R>(rt: &R, alloc: Global) -> ([bool; 2], [Option<bool>; 8])
where
    R: Net<Listener = TcpListener, Stream = TcpStream> + Clock + Threads + Sync,
{
    listeners_serve(
        rt,
        alloc,
        TcpPort::new(rt, alloc),
        TcpPort::new(rt, alloc),
        &mut DialGate::new(rt, alloc),
    )
}

/// One test for all of it: the types of the real gates are long, and the proof of a test repeats
/// them at each call. For the same reason the test names no gate.
#[test]
fn gates_serve_and_dial(rt: HostRuntime) {
    let done = system_serves_and_dials(&rt, rt.alloc());
    assert_eq!(rt; done, ([true; 2], [Some(true); 8]));
}
