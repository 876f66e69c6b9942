//! A connection over TCP.

ghost use Rattle.std.specs.Prelude.{◌≡◌, [], false, IfOk};

use crate::faults::Faults;
use crate::outcomes::{nanoseconds, read_outcome, wait_outcome, write_outcome};
use crate::slots::SlotClock;
use listener_gate::{AcceptError, accept_error_of};
use mio::net::TcpStream;
use mio::{Events, Interest, Poll, Token};
use socket_link::{
    LinkBuffer, Purpose, ReadOutcome, Socket, SocketFault, SocketLink, WriteOutcome,
};
use std::alloc::Global;
use std::io::{Read, Write};
use std::net::{Net, Shutdown};
use std::time::{Clock, Duration, Instant};
use std::{fmt, io, net};

/// A link over a TCP connection of the system.
pub type TcpLink<'a, R> = SocketLink<TcpSocket<'a, R>>;

/// A TCP connection of the system, and its clock. It exposes no calls to contracts: each method is
/// one call of mio or std.
#[derive(Drop)]
pub struct TcpSocket<'a, R: Clock> {
    rt: &'a R,
    stream: TcpStream,
    poll: Poll,
    events: Events,
    opened: Instant,
    faults: Faults,
}

/// What a link needs apart from its connection: a descriptor to wait with, and memory. It is
/// reserved before a connection is accepted. So a shortage of descriptors or memory closes no
/// connection: the connection waits to be accepted until there are enough.
#[derive(Drop)]
pub(crate) struct LinkResources {
    poll: Poll,
    events: Events,
    buffer: LinkBuffer,
}

impl LinkResources {
    /// Reserves them.
    ///
    /// # Errors
    ///
    /// [`AcceptError::Shortage`] where descriptors or memory are short; else what the error number
    /// of the system means for an accept.
    pub(crate) fn reserve<R: Net>(rt: &R, alloc: Global) -> Result<LinkResources, AcceptError> {
        let poll = new_poll(rt)?;
        // one socket is watched, so few events come at once
        let Ok(events) = Events::with_capacity(alloc, 4) else {
            return Err(AcceptError::Shortage);
        };
        let Ok(buffer) = LinkBuffer::new(alloc) else {
            return Err(AcceptError::Shortage);
        };
        Ok(LinkResources {
            poll,
            events,
            buffer,
        })
    }
}

/// A link over a connection that was just made.
///
/// # Errors
///
/// [`SocketFault`] where the kernel has no memory to watch the connection, or where the clock can't
/// be read. The connection is closed then.
pub(crate) fn link_over<R: Clock>(
    rt: &R,
    stream: net::TcpStream,
    resources: LinkResources,
    clock: SlotClock,
) -> Result<TcpLink<'_, R>, SocketFault>
    ensures { IfOk result (λ link. link.faults ≡ 0) }
{
    let LinkResources {
        poll,
        events,
        buffer,
    } = resources;
    let Ok(stream) = watch_stream(stream, &poll) else {
        return Err(SocketFault);
    };
    let socket = TcpSocket {
        rt,
        stream,
        poll,
        events,
        opened: clock.opened,
        faults: Faults::new(),
    };
    SocketLink::new(buffer, socket, clock.slot_units)
}

/// Makes a descriptor to wait with.
fn new_poll<R: Net>(rt: &R) -> Result<Poll, AcceptError> {
    Poll::new(rt).map_err(|error| accept_error_of(error.raw_os_error()))
}

/// Makes a stream non-blocking, and has `poll` watch it. Without TCP_NODELAY it still works.
fn watch_stream(stream: net::TcpStream, poll: &Poll) -> io::Result<TcpStream> {
    // A link blocks in `wait` alone, which also ends when the next slot begins.
    stream.set_nonblocking(true)?;
    // Nagle's algorithm would hold back the end of a slot until the peer acknowledges what came
    // before it.
    let _ = stream.set_nodelay(true);
    let mut stream = TcpStream::from_std(stream);
    // Writable, too: a write that took nothing goes on once the peer has made room.
    let both = Interest::READABLE | Interest::WRITABLE;
    poll.registry().register(&mut stream, Token(0), both)?;
    Ok(stream)
}

impl<R: Clock> fmt::Debug for TcpSocket<'_, R> {
    fn fmt<W: fmt::Write>(&self, f: &mut fmt::Formatter<W>) -> fmt::Result {
        f.debug_struct("TcpSocket").finish_non_exhaustive()
    }
}

impl<R: Clock> Socket for TcpSocket<'_, R> {
    ghost faults = { λ s. s.faults.count };

    ghost tells = { false };

    ghost did = { λ _. [] };

    fn read(&mut self, into: &mut [u8]) -> Result<ReadOutcome, SocketFault> {
        let read = read_outcome(self.stream.read(into));
        self.faults.pass_on(read, SocketFault)
    }

    fn write(&mut self, bytes: &[u8]) -> Result<WriteOutcome, SocketFault> {
        let written = write_outcome(self.stream.write(bytes));
        self.faults.pass_on(written, SocketFault)
    }

    fn wait(&mut self, most: u64) -> Result<bool, SocketFault> {
        // mio rounds the time up to milliseconds. So a slot is noticed up to 1 ms late, and never
        // waited for twice.
        let waited = self
            .poll
            .poll(&mut self.events, Some(Duration::from_nanos(most)));
        // One socket is registered, so each event is of it. Which one it was doesn't matter: the
        // link tries to write and to read after each wait.
        let waited = wait_outcome(waited, !self.events.is_empty());
        self.faults.pass_on(waited, SocketFault)
    }

    fn time(&mut self, _purpose: Purpose) -> Result<u64, SocketFault> {
        let elapsed = nanoseconds(self.opened.elapsed(self.rt));
        self.faults.pass_on(elapsed, SocketFault)
    }

    fn shut_down(&mut self) -> Result<(), SocketFault> {
        let shut = self.stream.shutdown(Shutdown::Write);
        self.faults.pass_on(shut, SocketFault)
    }
}
