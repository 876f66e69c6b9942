//! What a peer sees of a gate and its connections.

use super::{HOW, link_of, next_slot, open_gate};
use crate::TcpPort;
use crate::tests::test_gates::{TestGate, TestListener};
use listener_gate::ListenerGate;
use std::alloc::Global;
use std::fmt;
use std::io::{self, Read, Write};
use std::net::{Ipv4Addr, Net, SocketAddr, TcpListener, TcpStream};
use std::thread::{self, Threads};
use std::time::{Clock, Duration, Instant};
use vod_base::{Link, Opening};

/// A connection to a port, at 127.0.0.1 or another address of this machine.
pub(crate) fn connect<R: Net<Stream = TcpStream>>(
    rt: &R,
    last: u8,
    port: u16,
) -> io::Result<TcpStream> {
    TcpStream::connect(rt, SocketAddr::from((Ipv4Addr::new(127, 0, 0, last), port)))
}

/// A client's connection to the port of a gate, and the gate's end of it. The client sends these
/// bytes before the gate gives its end.
fn pair_of<R: Net<Stream = TcpStream>, G: TestGate>(
    rt: &R,
    gate: &mut G,
    port: u16,
    first: &[u8],
) -> Option<(TcpStream, G::Conn)> {
    let mut client = connect(rt, 1, port).ok()?;
    if client.write_all(first).is_err() {
        return None;
    }
    Some((client, link_of(gate)?))
}

/// Whether a gate listens at 127.0.0.1, and at 127.0.0.2 where it listens at all addresses.
pub(crate) fn listens_as_asked<R: Net<Stream = TcpStream>, G: TestGate>(
    rt: &R,
    gate: &mut G,
) -> Option<bool> {
    for all in [false, true] {
        let port = open_gate(gate, &Opening { all, ..HOW })?;
        if connect(rt, 1, port).is_err() || connect(rt, 2, port).is_ok() != all {
            return Some(false);
        }
    }
    Some(true)
}

/// How many blocks are sent in the tests that send much: more than the buffers of the system hold.
const BLOCKS: u32 = 512;

/// A block of 16,384 bytes, each of which encodes its place in the block and the block's number.
fn block_of(number: u32) -> [u8; 16_384] {
    let mut bytes = [0; 16_384];
    for (place, byte) in bytes.iter_mut().enumerate() {
        *byte = ((place ^ number as usize) & 0xff) as u8;
    }
    bytes
}

/// Sends the blocks; returns whether all were sent.
fn send_blocks<K: Link>(link: &mut K) -> bool {
    for number in 0..BLOCKS {
        if link.send(&block_of(number)).is_err() {
            return false;
        }
    }
    true
}

/// Reads the blocks, from a while after they begin to come; returns whether each came complete.
fn read_blocks<R: Clock>(rt: &R, client: &mut TcpStream) -> bool {
    thread::sleep(rt, Duration::from_millis(300));
    let mut came = [0; 16_384];
    for number in 0..BLOCKS {
        if client.read_exact(&mut came).is_err() || came != block_of(number) {
            return false;
        }
    }
    true
}

/// Sends the blocks over a gate's connection, which then ends; returns whether all were sent.
fn send_and_end<G: TestGate>(gate: &mut G, mut link: G::Conn) -> bool {
    let sent = send_blocks(&mut link);
    gate.end_conn(link);
    sent
}

/// Whether a client that reads late gets all that was sent before its connection ended.
pub(crate) fn serves_late_reader<R, G: TestGate + Send>(rt: &R, gate: &mut G) -> Option<bool>
where
    R: Net<Stream = TcpStream> + Clock + Threads + Sync,
    G::Conn: Send,
{
    let port = open_gate(gate, &HOW)?;
    let (mut client, link) = pair_of(rt, gate, port, &[])?;
    let (sent, read) = thread::join(
        rt,
        || send_and_end(gate, link),
        || read_blocks(rt, &mut client),
    );
    Some(sent && read)
}

/// Whether the slots of a link are 10 or 50 ms long, as their length in 1/360,000 second says.
/// Slot 0 began between these times.
fn counts_slots<R: Clock, K: Link>(
    rt: &R,
    link: &mut K,
    slot_units: u32,
    before: Instant,
    after: Instant,
) -> Option<bool> {
    let ms = if slot_units == 3_600 { 10 } else { 50 };
    for _ in 0..6 {
        let least = after.elapsed(rt).ok()?.as_millis() / ms;
        let slot = u128::from(next_slot(link)?);
        let most = before.elapsed(rt).ok()?.as_millis() / ms;
        if slot < least || most < slot {
            return Some(false);
        }
    }
    Some(true)
}

/// Whether the slots of a gate begin at its opening, and last as long as it says.
fn has_slots<R: Net<Stream = TcpStream> + Clock, G: TestGate>(
    rt: &R,
    gate: &mut G,
    slot_units: u32,
) -> Option<bool> {
    let before = Instant::now(rt).ok()?;
    let port = open_gate(gate, &Opening { slot_units, ..HOW })?;
    let after = Instant::now(rt).ok()?;
    let (_client, mut link) = pair_of(rt, gate, port, &[])?;
    counts_slots(rt, &mut link, slot_units, before, after)
}

/// The slots of a gate last 10 ms, and then 50 ms.
pub(crate) fn has_both_slots<R: Net<Stream = TcpStream> + Clock, G: TestGate>(
    rt: &R,
    gate: &mut G,
) -> Option<bool> {
    Some(has_slots(rt, gate, 3_600)? && has_slots(rt, gate, 18_000)?)
}

/// The network and the clock of a runtime, but the clock goes a hundred times as fast.
#[derive(Drop)]
struct Hurried<'a, R>(&'a R);

impl<R: Net> Net for Hurried<'_, R> {
    type Stream = R::Stream;

    type Listener = R::Listener;

    fn bind(&self, addr: SocketAddr) -> io::Result<R::Listener> {
        self.0.bind(addr)
    }

    fn connect(&self, addr: SocketAddr) -> io::Result<R::Stream> {
        self.0.connect(addr)
    }
}

impl<R: Clock> Clock for Hurried<'_, R> {
    fn monotonic(&self) -> io::Result<Duration> {
        Ok(self.0.monotonic()?.saturating_mul(100))
    }

    fn since_1970(&self) -> io::Result<Duration> {
        self.0.since_1970()
    }
}

/// Whether a link gives its peer up 0.6 s after the peer stopped reading: 60 s by a hurried clock.
fn gives_up<R: Net<Stream = TcpStream> + Clock, G: TestGate>(rt: &R, gate: &mut G) -> Option<bool> {
    let port = open_gate(gate, &HOW)?;
    let (_client, mut link) = pair_of(rt, gate, port, &[])?;
    waits_for_peer(rt, &mut link)
}

/// Whether a link's sends fail, but not before 0.6 s.
fn waits_for_peer<R: Clock, K: Link>(rt: &R, link: &mut K) -> Option<bool> {
    let begun = Instant::now(rt).ok()?;
    let is_sent = send_blocks(link);
    let waited = begun.elapsed(rt).ok()?;
    Some(!is_sent && waited >= Duration::from_millis(600))
}

/// The same, over a gate over this listener.
fn gives_up_over<R: Net<Stream = TcpStream> + Clock, L: TestListener>(
    rt: &R,
    listener: L,
) -> Option<bool>
where
    L::Conn: fmt::Debug,
{
    gives_up(rt, &mut ListenerGate::new(listener))
}

/// The same, over a gate whose clock is hurried.
fn gives_up_soon<R>(rt: &R, alloc: Global) -> Option<bool>
where
    R: Net<Listener = TcpListener, Stream = TcpStream> + Clock,
{
    gives_up_over(rt, TcpPort::new(&Hurried(rt), alloc))
}

#[test]
fn gives_up_a_peer_that_takes_nothing(rt: HostRuntime) {
    assert_eq!(rt; gives_up_soon(&rt, rt.alloc()), Some(true));
}

/// Sends for a while, and then reads to the end; returns whether these bytes came.
fn send_and_read<R: Clock>(rt: &R, client: &mut TcpStream, want: &[u8; 4]) -> bool {
    for _ in 0..20 {
        if client.write_all(&[b' '; 1_000]).is_err() {
            return false;
        }
        thread::sleep(rt, Duration::from_millis(10));
    }
    let mut came = [0; 4];
    let mut more = [0; 1];
    client.read_exact(&mut came).is_ok() && &came == want && matches!(client.read(&mut more), Ok(0))
}

/// Whether the last bytes of a connection arrive at a client that still sends while the connection
/// ends.
pub(crate) fn ends_with_last_bytes<R, G: TestGate + Send>(rt: &R, gate: &mut G) -> Option<bool>
where
    R: Net<Stream = TcpStream> + Clock + Threads + Sync,
    G::Conn: Send,
{
    let port = open_gate(gate, &HOW)?;
    let (mut client, mut link) = pair_of(rt, gate, port, &[b' '; 1_000])?;
    if link.send(b"last").is_err() {
        return None;
    }
    let ((), came) = thread::join(
        rt,
        || gate.end_conn(link),
        || send_and_read(rt, &mut client, b"last"),
    );
    Some(came)
}
