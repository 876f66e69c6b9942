//! A gate that makes a connection, as a client does.

ghost use Rattle.std.specs.Prelude.{◌≡◌, None, IfOk, IfSome};

use crate::faults::Faults;
use crate::links::{LinkResources, TcpLink, link_over};
use crate::slots::SlotClock;
use socket_link::SocketFault;
use std::alloc::Global;
use std::net::{Ipv4Addr, Net, SocketAddr, TcpListener, TcpStream};
use std::time::Clock;
use std::{fmt, io, mem};
use vod_base::{Gate, GateFault, Opening};

/// A connection to a TCP port of this machine. Slots count from its opening, which connects, and
/// are as long as [`Opening`] says, in 1/360,000 second.
///
/// The first part that is split from it gives the connection; no other part gives one.
#[derive(Drop)]
pub struct DialGate<'a, R: Net<Listener = TcpListener, Stream = TcpStream> + Clock> {
    rt: &'a R,
    alloc: Global,
    call: Call,
    faults: Faults,
}

impl<'a, R: Net<Listener = TcpListener, Stream = TcpStream> + Clock> DialGate<'a, R> {
    /// Makes a gate that isn't open.
    pub fn new(rt: &'a R, alloc: Global) -> DialGate<'a, R> {
        DialGate {
            rt,
            alloc,
            call: Call::NotOpen,
            faults: Faults::new(),
        }
    }

    /// The connection, where it wasn't given yet.
    fn next_link(&mut self) -> Result<Option<TcpLink<'a, R>>, SocketFault>
        ensures faults { self.new.faults ≡ self.old.faults }
        ensures fresh { IfOk result (λ next. IfSome next (λ link. link.faults ≡ 0)) }
    {
        let Some(dialed) = self.call.give() else {
            return Ok(None);
        };
        match link_over(self.rt, dialed.stream, dialed.resources, dialed.clock) {
            Ok(link) => Ok(Some(link)),
            Err(fault) => Err(fault),
        }
    }
}

impl<'a, R: Net<Listener = TcpListener, Stream = TcpStream> + Clock> Gate for DialGate<'a, R> {
    type Conn = TcpLink<'a, R>;

    ghost faults = { λ g. g.faults.count };

    ghost told = { λ _. None };

    fn open(&mut self, how: &Opening) -> Result<(), GateFault> {
        self.call = Call::NotOpen;
        let dialed = self
            .faults
            .pass_on(dial(self.rt, self.alloc, how), GateFault)?;
        self.call = Call::Waiting(dialed);
        Ok(())
    }

    fn split(&mut self) -> Result<Self, GateFault> {
        if matches!(self.call, Call::NotOpen) {
            self.faults.add();
            return Err(GateFault);
        }
        Ok(DialGate {
            rt: self.rt,
            alloc: self.alloc,
            // The connection moves to the first part, so the gate and later parts have none.
            call: mem::replace(&mut self.call, Call::Given),
            faults: Faults::new(),
        })
    }

    fn take(&mut self) -> Result<Option<TcpLink<'a, R>>, GateFault> {
        let next = self.next_link();
        self.faults.pass_on(next, GateFault)
    }

    fn give_back(&mut self, conn: TcpLink<'a, R>) {
        conn.end();
    }

    fn rejoin(&mut self, part: Self) {
        self.faults.join(part.faults);
    }
}

impl<'a, R: Net<Listener = TcpListener, Stream = TcpStream> + Clock> fmt::Debug
    for DialGate<'a, R> {
    fn fmt<W: fmt::Write>(&self, f: &mut fmt::Formatter<W>) -> fmt::Result {
        f.debug_struct("DialGate").finish_non_exhaustive()
    }
}

/// What became of the call that opens the gate.
#[derive(Drop)]
enum Call {
    /// The gate isn't open.
    NotOpen,
    /// The connection waits to be given.
    Waiting(Dialed),
    /// The connection was given, or went to a part.
    Given,
}

impl Call {
    /// Gives the connection away, where it waits.
    fn give(&mut self) -> Option<Dialed> {
        match mem::replace(self, Call::Given) {
            Call::Waiting(dialed) => Some(dialed),
            Call::NotOpen => {
                *self = Call::NotOpen;
                None
            }
            Call::Given => None,
        }
    }
}

/// A connection that was made, and what its link needs.
#[derive(Drop)]
struct Dialed {
    stream: TcpStream,
    clock: SlotClock,
    resources: LinkResources,
}

/// Connects to a port of this machine. Slot 0 begins now.
fn dial<R: Net<Listener = TcpListener, Stream = TcpStream> + Clock>(
    rt: &R,
    alloc: Global,
    how: &Opening,
) -> Result<Dialed, GateFault> {
    // Reserved before the call, so that no connection is made that can't be used.
    let Ok(resources) = LinkResources::reserve(rt, alloc) else {
        return Err(GateFault);
    };
    let Ok(stream) = connect(rt, how.port) else {
        return Err(GateFault);
    };
    // A client's slots count from its connection: the server's own numbers aren't known here.
    let Ok(clock) = SlotClock::start(rt, how.slot_units) else {
        return Err(GateFault);
    };
    Ok(Dialed {
        stream,
        clock,
        resources,
    })
}

/// Connects to a port of this machine.
fn connect<R: Net<Stream = TcpStream>>(rt: &R, port: u16) -> io::Result<TcpStream> {
    TcpStream::connect(rt, SocketAddr::from((Ipv4Addr::LOCALHOST, port)))
}
