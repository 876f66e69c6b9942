//! A server and a client over the loopback interface: the film that was served is the film that is
//! watched.

ghost use Rattle.std.specs.Prelude.{[], false};

use crate::program::{DialingGate, ListeningGate, run_program};
use crate::tests::materials::{FILM, is_text, library_of_film, number_of, words_of};
use net_edge::{DialGate, TcpGate, TcpPort};
use startup::{ByteSource, NoRandomBytes, SystemBytes};
use std::alloc::Global;
use std::net::{Ipv4Addr, Net, SocketAddr, TcpListener, TcpStream};
use std::random::RandomSource;
use std::sync::Wait;
use std::test::Fail;
use std::thread::{self, Threads};
use std::time::{Clock, Duration};
use vod_base::{Gate, Library, MemorySink, NoMemory, Sink};

/// How often a client asks for a server that isn't there yet.
const MAX_DIALS: u32 = 1_000;

/// What a run left.
#[derive(Drop)]
struct Left {
    status: u8,
    out: Vec<u8>,
    err: Vec<u8>,
}

/// A source that has no random bytes.
#[derive(Drop)]
struct NoBytes;

impl ByteSource for NoBytes {
    ghost tells = { false };

    ghost drawn = { λ _. [] };

    fn fill(&mut self, _into: &mut [u8]) -> Result<(), NoRandomBytes> {
        Err(NoRandomBytes)
    }
}

/// Runs the program over any objects: the proof of such a call repeats what is known of its
/// objects, and of these it is little.
fn run_over<R, L: Library, S: Sink, G, D, B: ByteSource>(
    rt: &R,
    alloc: Global,
    words: Vec<String>,
    library: &mut L,
    out: &mut S,
    err: &mut S,
    listening: &mut G,
    dialing: &mut D,
    random: &mut B,
) -> u8
where
    R: Threads + Wait + Sync,
    G: Gate + ListeningGate + Send + Drop,
    G::Conn: Send,
    D: Gate + DialingGate + Send + Drop,
    D::Conn: Send,
{
    run_program(
        rt,
        alloc,
        Ok(words),
        library,
        out,
        err,
        listening,
        dialing,
        random,
    )
    .status
}

/// Runs the program over the gates of the system; returns its status.
fn run_with_sockets<R, L: Library, S: Sink, B: ByteSource>(
    rt: &R,
    alloc: Global,
    words: Vec<String>,
    library: &mut L,
    out: &mut S,
    err: &mut S,
    random: &mut B,
) -> u8
where
    R: Net<Listener = TcpListener, Stream = TcpStream> + Clock + Threads + Wait + Sync,
{
    let mut listening = TcpGate::new(TcpPort::new(rt, alloc));
    let mut dialing = DialGate::new(rt, alloc);
    run_over(
        rt,
        alloc,
        words,
        library,
        out,
        err,
        &mut listening,
        &mut dialing,
        random,
    )
}

/// A sink that has room for the film.
fn small_sink(alloc: Global) -> Result<MemorySink, NoMemory> {
    MemorySink::new(alloc, 1 << 10, Vec::new(alloc))
}

/// What is in these sinks after a run with that status.
fn left_in(
    alloc: Global,
    status: u8,
    out: &MemorySink,
    err: &MemorySink,
) -> Result<Left, NoMemory> {
    let out = Vec::from_slice(alloc, out.bytes())?;
    let err = Vec::from_slice(alloc, err.bytes())?;
    Ok(Left { status, out, err })
}

/// Runs the program with these arguments over a library of the film and over the gates of the
/// system.
fn carry_out<R, B: ByteSource>(
    rt: &R,
    alloc: Global,
    line: &str,
    random: &mut B,
) -> Result<Left, NoMemory>
where
    R: Net<Listener = TcpListener, Stream = TcpStream> + Clock + Threads + Wait + Sync,
{
    let mut library = library_of_film(alloc)?;
    let mut out = small_sink(alloc)?;
    let mut err = small_sink(alloc)?;
    let words = words_of(alloc, line)?;
    let status = run_with_sockets(rt, alloc, words, &mut library, &mut out, &mut err, random);
    left_in(alloc, status, &out, &err)
}

/// A port of this machine that nobody listens at.
fn free_port<R: Net<Listener = TcpListener, Stream = TcpStream>>(rt: &R) -> Option<u16> {
    let at = SocketAddr::from((Ipv4Addr::new(127, 0, 0, 1), 0));
    let listener = TcpListener::bind(rt, at).ok()?;
    Some(listener.local_addr().ok()?.port())
}

/// Serves one connection.
fn serve<R>(rt: &R, alloc: Global, port: u16) -> Result<Left, NoMemory>
where
    R: Net<Listener = TcpListener, Stream = TcpStream> + Clock + RandomSource,
    R: Threads + Wait + Sync,
{
    let line = format!(in alloc; "serve film=b.mpg workers=1 connections=1 slot=3600 port={port}")?;
    carry_out(rt, alloc, line.as_str(), &mut SystemBytes::new(rt))
}

/// Watches the film, as soon as the server is there.
fn watch<R: Net<Listener = TcpListener, Stream = TcpStream> + Clock + Threads + Wait + Sync>(
    rt: &R,
    alloc: Global,
    port: u16,
) -> Result<Left, NoMemory> {
    let line = format!(in alloc; "watch film=b.mpg startup=2 slot=3600 port={port}")?;
    for _ in 0..MAX_DIALS {
        match carry_out(rt, alloc, line.as_str(), &mut NoBytes) {
            Ok(left) if left.status != 6 && left.status != 7 => return Ok(left),
            _ => {}
        }
        thread::sleep(rt, Duration::from_millis(5));
    }
    Err(NoMemory)
}

/// The statuses of a server and of its client, and whether they left what they should: the film,
/// the client's line, the server's line, and no error.
type Meeting = (u8, u8, [bool; 4]);

/// What a server and its client left.
fn meeting_of(served: &Left, watched: &Left) -> Meeting {
    let is_left = [
        watched.out.as_slice() == FILM,
        watched
            .err
            .starts_with(b"watched units=2 bytes=49 frames=2 reports=1 most="),
        served.out.ends_with(b"served connections=1 entries=2\n"),
        served.err.is_empty(),
    ];
    (served.status, watched.status, is_left)
}

/// Serves and watches side by side. The error is that memory is out.
fn meet<R>(rt: &R, alloc: Global) -> Result<Meeting, NoMemory>
where
    R: Net<Listener = TcpListener, Stream = TcpStream> + Clock + RandomSource,
    R: Threads + Wait + Sync,
{
    let port = free_port(rt).unwrap_or(1);
    let (served, watched) = thread::join(rt, || serve(rt, alloc, port), || watch(rt, alloc, port));
    let served = served?;
    let watched = watched?;
    if served.status == 6 {
        return Err(NoMemory);
    }
    Ok(meeting_of(&served, &watched))
}

#[test]
fn watches_what_is_served(rt: HostRuntime) -> Result<(), Fail> {
    let met = match meet(&rt, rt.alloc()) {
        Ok(met) => met,
        Err(NoMemory) => meet(&rt, rt.alloc())?,
    };
    assert_eq!(rt; met, (0, 0, [true; 4]));
    Ok(())
}

/// Arguments between the status and the error that they give without random bytes.
const WITHOUT_BYTES: &str = "\
7;serve film=b.mpg;vodserve: GateFault|
2;serve film=b.mpg film=b.mpg;vodserve: usage|
2;watch film=none port=0;vodserve: usage|
0;make kind=trace seed=1 pictures=1;
";

/// Whether the program ends without random bytes as a row says.
fn ends_so<R>(rt: &R, alloc: Global, row: &str) -> Result<bool, NoMemory>
where
    R: Net<Listener = TcpListener, Stream = TcpStream> + Clock + Threads + Wait + Sync,
{
    let (status, more) = row.split_once(';').unwrap_or((row, ""));
    let (line, text) = more.split_once(';').unwrap_or((more, ""));
    let left = carry_out(rt, alloc, line, &mut NoBytes)?;
    Ok(u64::from(left.status) == number_of(status) && is_text(&left.err, text, b"\n"))
}

#[test]
fn a_server_needs_random_bytes(rt: HostRuntime) -> Result<(), Fail> {
    for row in WITHOUT_BYTES.lines() {
        assert!(rt; ends_so(&rt, rt.alloc(), row)?, "{row}");
    }
    Ok(())
}
