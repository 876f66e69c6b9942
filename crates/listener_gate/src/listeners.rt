//! What a listening socket must do.

ghost use Rattle.std.specs.Prelude.{◌≡◌, ◌<◌, ◌≤◌, ℕ, Bool, List, [], ◌∷◌, ◌++◌, IsTrue};
ghost use Rattle.std.specs.Prelude.{IfSome, IfOk, IfErr, OnOk, OnErr};
ghost use Rattle.vod_base.specs.IoState.{HasRisen, one_more};

use thiserror::Error;
use vod_base::Link;

/// A listener could not be bound, copied or waited for.
#[derive(Clone, Copy, Debug, PartialEq, Eq, Error)]
#[error("the listener failed")]
pub struct ListenerFault;

/// Why no connection was accepted.
#[derive(Clone, Copy, Debug, PartialEq, Eq, Error)]
pub enum AcceptError {
    /// The connection was closed before it was accepted, its network failed, or a signal came: the
    /// next accept may succeed at once.
    #[error("the connection was lost before it was accepted")]
    Transient,
    /// The process or the system is short of file descriptors or memory: an accept may succeed
    /// later. The connection still waits to be accepted.
    #[error("file descriptors or memory are short")]
    Shortage,
    /// The listener doesn't work any more.
    #[error("the listener failed")]
    Broken,
}

/// What a listener did.
#[derive(Clone, Copy, Debug, PartialEq, Eq)]
pub enum ListenerDoing {
    /// It was bound to an address and a port, with slots of so many 1/360,000 s.
    Bound([u8; 4], u16, u32),
    /// Another handle to it was made.
    Copied,
    /// It accepted a connection.
    Accepted,
    /// An accept failed, and the next one may succeed at once.
    TransientError,
    /// An accept failed, since descriptors or memory are short.
    ShortageError,
    /// It waited so many milliseconds.
    Waited(u64),
}

/// A listening socket of the machine: connections come to its address and port.
///
/// A listener counts its faults as a library does: the count rises with each call that fails,
/// except for an accept that may succeed later. Where `tells` is true it exposes to contracts what
/// it did, in order, as `did`, and how many connections it ended, as `ended`.
pub trait Listener: Sized {
    type Conn: Link + Drop;

    ghost use Rattle.listener_gate.specs.Listeners.{failed_accept, IsBroken};
    ghost use Rattle.listener_gate.specs.declared.listeners.ListenerDoing.{ListenerDoing};

    ghost faults: { Self → ℕ };

    ghost tells: { Bool };

    ghost did: { Self → List ListenerDoing };

    ghost ended: { Self → ℕ };

    /// Binds it to an IPv4 address and a TCP port, and lets go of what it was bound to before. The
    /// slots of its connections count from now, each `slot_units` / 360,000 s long.
    ///
    /// # Errors
    ///
    /// After a fault it isn't bound.
    fn bind(&mut self, address: [u8; 4], port: u16, slot_units: u32) -> Result<(), ListenerFault>
        ensures count { faults self.old ≤ faults self.new }
        ensures fault { OnErr result (HasRisen (faults self.old) (faults self.new)) }
        ensures told { OnOk result (IsTrue tells →
            did self.new ≡ did self.old ++ ListenerDoing.Bound address port slot_units ∷ []) }
        ensures lost { OnErr result (IsTrue tells → did self.new ≡ did self.old) };

    /// Makes another handle to the same listening socket. It has done nothing yet.
    ///
    /// # Errors
    ///
    /// After a fault there is none.
    fn copy(&mut self) -> Result<Self, ListenerFault>
        ensures count { faults self.old ≤ faults self.new }
        ensures fault { OnErr result (HasRisen (faults self.old) (faults self.new)) }
        ensures told { OnOk result (IsTrue tells →
            did self.new ≡ did self.old ++ ListenerDoing.Copied ∷ []) }
        ensures fresh { IfOk result (λ copy. IsTrue tells → did copy ≡ []) }
        ensures lost { OnErr result (IsTrue tells → did self.new ≡ did self.old) };

    /// Waits for the next connection. One that it gives did nothing yet.
    ///
    /// # Errors
    ///
    /// No connection was accepted, for the reason that the error names.
    fn accept(&mut self) -> Result<Self::Conn, AcceptError>
        // faults: only `Broken` counts as one, since the other two errors pass
        ensures count { faults self.old ≤ faults self.new }
        ensures fault { IfErr result (λ error. IsBroken error →
            HasRisen (faults self.old) (faults self.new)) }
        // answers: a connection that has done nothing, or an error that is noted
        ensures told { OnOk result (IsTrue tells →
            did self.new ≡ did self.old ++ ListenerDoing.Accepted ∷ []) }
        ensures lost { IfErr result (λ error. IsTrue tells →
            did self.new ≡ did self.old ++ failed_accept error) }
        ensures fresh { IfOk result (λ conn. (Self.Conn.faults conn ≡ 0)
            × IfSome (Self.Conn.told conn) (λ doings. doings ≡ [])) };

    /// Waits so many milliseconds.
    ///
    /// # Errors
    ///
    /// After a fault it may have waited for less.
    fn wait(&mut self, ms: u64) -> Result<(), ListenerFault>
        ensures count { faults self.old ≤ faults self.new }
        ensures fault { OnErr result (HasRisen (faults self.old) (faults self.new)) }
        ensures told { OnOk result (IsTrue tells →
            did self.new ≡ did self.old ++ ListenerDoing.Waited ms ∷ []) }
        ensures lost { OnErr result (IsTrue tells → did self.new ≡ did self.old) };

    /// Ends a connection that it accepted.
    fn end(&mut self, conn: Self::Conn)
        ensures count { faults self.old ≤ faults self.new }
        ensures told { IsTrue tells → (did self.new ≡ did self.old)
            × (ended self.new ≡ one_more (ended self.old)) };
}
