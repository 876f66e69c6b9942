//! Gates as the tests call them.

ghost use Rattle.std.specs.Prelude.{◌≡◌, false, refl};

use crate::{DialGate, TcpLink, TcpPort};
use listener_gate::{Listener, ListenerGate};
use std::fmt;
use std::net::{Net, TcpListener, TcpStream};
use std::time::Clock;
use vod_base::{Gate, GateFault, Link, Opening};

/// A gate. Each method is one call of [`Gate`], except `port`.
///
/// The tests are written over this trait, which has no clauses: the types of the real gates are
/// long, and a proof over them repeats them at each call.
pub(crate) trait TestGate: Sized {
    type Conn: Link + fmt::Debug + Drop;

    /// Opens it.
    fn open_as(&mut self, how: &Opening) -> Result<(), GateFault>;

    /// Returns the port that it listens at.
    fn port(&self) -> Option<u16>;

    /// Splits a part off.
    fn split_off(&mut self) -> Result<Self, GateFault>;

    /// Takes its next connection.
    fn next_conn(&mut self) -> Result<Option<Self::Conn>, GateFault>;

    /// Gives a connection back.
    fn end_conn(&mut self, conn: Self::Conn);

    /// Joins a part.
    fn join_part(&mut self, part: Self);
}

/// A listener that exposes no calls to contracts, so that the calls of a gate over it require
/// nothing. The gates are written over any such listener: so a proof doesn't repeat what a listener
/// of the system is made of.
pub(crate) trait TestListener: Listener + fmt::Debug + Drop {
    /// Returns the port that it is bound to.
    fn bound_port(&self) -> Option<u16>;

    ghost quiet: { Self.tells ≡ false };
}

impl<R: Net<Listener = TcpListener, Stream = TcpStream> + Clock> TestListener for TcpPort<'_, R> {
    ghost quiet = { refl };

    fn bound_port(&self) -> Option<u16> {
        self.port()
    }
}

impl<L: TestListener> TestGate for ListenerGate<L>
where
    L::Conn: fmt::Debug,
{
    type Conn = L::Conn;

    fn open_as(&mut self, how: &Opening) -> Result<(), GateFault> {
        self.open(how)
    }

    fn port(&self) -> Option<u16> {
        self.listener().bound_port()
    }

    fn split_off(&mut self) -> Result<Self, GateFault> {
        self.split()
    }

    fn next_conn(&mut self) -> Result<Option<L::Conn>, GateFault> {
        self.take()
    }

    fn end_conn(&mut self, conn: L::Conn) {
        self.give_back(conn);
    }

    fn join_part(&mut self, part: Self) {
        self.rejoin(part);
    }
}

impl<'a, R: Net<Listener = TcpListener, Stream = TcpStream> + Clock> TestGate for DialGate<'a, R> {
    type Conn = TcpLink<'a, R>;

    fn open_as(&mut self, how: &Opening) -> Result<(), GateFault> {
        self.open(how)
    }

    fn port(&self) -> Option<u16> {
        None
    }

    fn split_off(&mut self) -> Result<Self, GateFault> {
        self.split()
    }

    fn next_conn(&mut self) -> Result<Option<TcpLink<'a, R>>, GateFault> {
        self.take()
    }

    fn end_conn(&mut self, conn: TcpLink<'a, R>) {
        self.give_back(conn);
    }

    fn join_part(&mut self, part: Self) {
        self.rejoin(part);
    }
}
