//! A gate that takes connections, as a server does.

ghost use Rattle.std.specs.Prelude.{◌≡◌, [], false, IfOk};

use crate::faults::Faults;
use crate::links::{LinkResources, TcpLink, link_over};
use crate::slots::SlotClock;
use listener_gate::{AcceptError, Listener, ListenerFault, ListenerGate, accept_error_of};
use std::alloc::Global;
use std::net::{Ipv4Addr, Net, SocketAddr, TcpListener, TcpStream};
use std::time::{Clock, Duration};
use std::{fmt, io, thread};

/// A gate over a TCP port that connections come to, built by [`ListenerGate::new`] over a
/// [`TcpPort`].
pub type TcpGate<'a, R> = ListenerGate<TcpPort<'a, R>>;

/// A listening TCP socket of the system. It exposes no calls to contracts: each method makes one
/// call of std.
///
/// What a link needs is reserved before its connection is accepted, and a copy reserves it for its
/// first connection. So a port can't be copied where descriptors are short, and a connection that
/// was accepted is never closed because descriptors or memory are short.
#[derive(Drop)]
pub struct TcpPort<'a, R: Net<Listener = TcpListener, Stream = TcpStream> + Clock> {
    rt: &'a R,
    alloc: Global,
    bound: Option<BoundPort>,
    faults: Faults,
}

/// A socket that is bound, and what the next connection's link needs, where that was reserved.
#[derive(Drop)]
struct BoundPort {
    listener: TcpListener,
    clock: SlotClock,
    reserved: Option<LinkResources>,
}

impl BoundPort {
    /// Another handle to the same socket, and what its first connection's link needs.
    fn copy<R: Net>(&self, rt: &R, alloc: Global) -> Result<BoundPort, ListenerFault> {
        // Reserved at the server's start. With too few descriptors the server ends there with
        // status 7, in place of closing connections later.
        let Ok(reserved) = LinkResources::reserve(rt, alloc) else {
            return Err(ListenerFault);
        };
        let Ok(listener) = copy_listener(&self.listener) else {
            return Err(ListenerFault);
        };
        Ok(BoundPort {
            listener,
            clock: self.clock,
            reserved: Some(reserved),
        })
    }

    /// Accepts a connection, once what its link needs is reserved.
    fn accept<'a, R: Net + Clock>(
        &mut self,
        rt: &'a R,
        alloc: Global,
    ) -> Result<TcpLink<'a, R>, AcceptError>
        ensures { IfOk result (λ link. link.faults ≡ 0) }
    {
        // Before the accept: where descriptors or memory are short the connection waits in the
        // kernel's queue and isn't closed.
        let reserved = match self.reserved.take() {
            Some(reserved) => reserved,
            None => LinkResources::reserve(rt, alloc)?,
        };
        match accept_stream(&self.listener, &reserved) {
            Ok(stream) => match link_over(rt, stream, reserved, self.clock) {
                Ok(link) => Ok(link),
                // The kernel has no memory to watch the connection, or the clock failed. The
                // connection is closed, and the worker tries the next one after a wait.
                Err(_) => Err(AcceptError::Shortage),
            },
            Err(error) => {
                // A failed accept used nothing of it, so it is there for the next try.
                self.reserved = Some(reserved);
                Err(error)
            }
        }
    }
}

impl<'a, R: Net<Listener = TcpListener, Stream = TcpStream> + Clock> TcpPort<'a, R> {
    /// Makes a socket that isn't bound.
    pub fn new(rt: &'a R, alloc: Global) -> TcpPort<'a, R> {
        TcpPort {
            rt,
            alloc,
            bound: None,
            faults: Faults::new(),
        }
    }

    /// Returns the port that it is bound to; None where it isn't, or where the system doesn't
    /// report it.
    pub fn port(&self) -> Option<u16> {
        let bound = self.bound.as_ref()?;
        Some(bound.listener.local_addr().ok()?.port())
    }
}

impl<'a, R: Net<Listener = TcpListener, Stream = TcpStream> + Clock> Listener for TcpPort<'a, R> {
    type Conn = TcpLink<'a, R>;

    ghost faults = { λ l. l.faults.count };

    ghost tells = { false };

    ghost did = { λ _. [] };

    ghost ended = { λ _. 0 };

    fn bind(&mut self, address: [u8; 4], port: u16, slot_units: u32) -> Result<(), ListenerFault> {
        // The old socket is closed first, since it may hold the same port.
        self.bound = None;
        let bound = bind_port(self.rt, address, port, slot_units);
        self.bound = Some(self.faults.pass_on(bound, ListenerFault)?);
        Ok(())
    }

    fn copy(&mut self) -> Result<TcpPort<'a, R>, ListenerFault> {
        let copied = match &self.bound {
            Some(bound) => bound.copy(self.rt, self.alloc),
            None => Err(ListenerFault),
        };
        let bound = self.faults.pass_on(copied, ListenerFault)?;
        Ok(TcpPort {
            rt: self.rt,
            alloc: self.alloc,
            bound: Some(bound),
            faults: Faults::new(),
        })
    }

    fn accept(&mut self) -> Result<TcpLink<'a, R>, AcceptError> {
        let accepted = match &mut self.bound {
            Some(bound) => bound.accept(self.rt, self.alloc),
            None => Err(AcceptError::Broken),
        };
        let error = match accepted {
            Ok(link) => return Ok(link),
            Err(error) => error,
        };
        // The other two errors pass, so they aren't faults.
        if error == AcceptError::Broken {
            self.faults.add();
        }
        Err(error)
    }

    fn wait(&mut self, ms: u64) -> Result<(), ListenerFault> {
        thread::sleep(self.rt, Duration::from_millis(ms));
        Ok(())
    }

    fn end(&mut self, conn: TcpLink<'a, R>) {
        conn.end();
    }
}

impl<'a, R: Net<Listener = TcpListener, Stream = TcpStream> + Clock> fmt::Debug for TcpPort<'a, R> {
    fn fmt<W: fmt::Write>(&self, f: &mut fmt::Formatter<W>) -> fmt::Result {
        f.debug_struct("TcpPort").finish_non_exhaustive()
    }
}

/// Binds a socket to an address and a port. Slot 0 begins now.
fn bind_port<R: Net<Listener = TcpListener, Stream = TcpStream> + Clock>(
    rt: &R,
    address: [u8; 4],
    port: u16,
    slot_units: u32,
) -> io::Result<BoundPort> {
    Ok(BoundPort {
        // In this order: slots count from the opening of the listener, for all its connections.
        listener: listen(rt, SocketAddr::from((Ipv4Addr::from(address), port)))?,
        clock: SlotClock::start(rt, slot_units)?,
        // The gate's own handle gives no connection at a server: its copies do, and each reserves
        // for itself.
        reserved: None,
    })
}

/// Listens at an address and a port.
fn listen<R: Net<Listener = TcpListener, Stream = TcpStream>>(
    rt: &R,
    at: SocketAddr,
) -> io::Result<TcpListener> {
    TcpListener::bind(rt, at)
}

/// Another handle to a listening socket.
fn copy_listener(listener: &TcpListener) -> io::Result<TcpListener> {
    listener.try_clone()
}

/// Accepts a connection. A caller shows what it has reserved for the connection's link.
fn accept_stream(
    listener: &TcpListener,
    _reserved: &LinkResources,
) -> Result<TcpStream, AcceptError> {
    match listener.accept() {
        Ok((stream, _)) => Ok(stream),
        Err(error) => Err(accept_error_of(error.raw_os_error())),
    }
}
