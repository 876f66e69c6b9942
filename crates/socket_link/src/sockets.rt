//! What a socket must do: read, write, wait and read the clock.

ghost use Rattle.std.specs.Prelude.{◌≡◌, ◌<◌, ◌≤◌, ℕ, Bool, IsTrue, List, [], ◌∷◌, ◌++◌, length};
ghost use Rattle.std.specs.Prelude.{IfOk, OnOk, OnErr};
ghost use Rattle.vod_base.specs.IoState.{HasRisen};
ghost use Rattle.socket_link.specs.Calls.{SocketCall, ReadClock, Waited, ShutDown};
ghost use Rattle.socket_link.specs.Reads.{read_call, IsReadWithin};
ghost use Rattle.socket_link.specs.Writes.{write_call, IsWrittenWithin};

use thiserror::Error;

/// A call of a socket failed.
#[derive(Clone, Copy, Debug, PartialEq, Eq, Error)]
#[error("the socket failed")]
pub struct SocketFault;

/// What a read answers.
#[derive(Clone, Copy, Debug, PartialEq, Eq)]
pub enum ReadOutcome {
    /// So many bytes came, at least one.
    Bytes(usize),
    /// Nothing came yet.
    Nothing,
    /// A signal interrupted the read, which did nothing.
    Interrupted,
    /// The peer ended its sending half, and all that it sent was read.
    End,
}

/// What a write answers.
#[derive(Clone, Copy, Debug, PartialEq, Eq)]
pub enum WriteOutcome {
    /// So many bytes were taken, at least one.
    Bytes(usize),
    /// There is no room now.
    Nothing,
    /// A signal interrupted the write, which did nothing.
    Interrupted,
}

/// What the clock is read for.
#[derive(Clone, Copy, Debug, PartialEq, Eq)]
pub enum Purpose {
    /// The connection was accepted.
    Accept,
    /// Which slot it is.
    Slot,
    /// For how long nothing was sent, or no byte came or was taken.
    Idle,
    /// For how long the peer has taken nothing.
    Patience,
    /// For how long the end of the connection has taken.
    End,
}

/// A socket of the machine, which never blocks but in `wait`, and a clock.
///
/// A socket counts its faults. Its calls may be exposed to contracts, as one list in order; a call
/// that fails isn't among them. The socket of the machine exposes none: `tells` is false for it.
pub trait Socket {
    ghost faults: { Self → ℕ };

    ghost tells: { Bool };

    ghost did: { Self → List SocketCall };

    /// Reads the bytes that arrived, and puts them at the start of `into`.
    ///
    /// # Errors
    ///
    /// A read that fails gave nothing.
    fn read(&mut self, into: &mut [u8]) -> Result<ReadOutcome, SocketFault>
        // needs: room for a byte
        requires some { 0 < length into.now }
        // faults: they are counted, so that a link can blame its socket
        ensures count { faults self.old ≤ faults self.new }
        ensures fault { OnErr result (HasRisen (faults self.old) (faults self.new)) }
        // answers: what came, which is noted as one call; after a fault nothing is
        ensures within { IfOk result (λ read. IsReadWithin read (length into.new)) }
        ensures gave { IfOk result (λ read. IsTrue tells →
            did self.new ≡ did self.old ++ read_call read into.new ∷ []) }
        ensures lost { OnErr result (IsTrue tells → did self.new ≡ did self.old) };

    /// Writes as many of the bytes as there is room for.
    ///
    /// # Errors
    ///
    /// A write that fails took nothing.
    fn write(&mut self, bytes: &[u8]) -> Result<WriteOutcome, SocketFault>
        // needs: a byte to write
        requires some { 0 < length bytes.now }
        // faults: they are counted, so that a link can blame its socket
        ensures count { faults self.old ≤ faults self.new }
        ensures fault { OnErr result (HasRisen (faults self.old) (faults self.new)) }
        // answers: how much was taken, which is noted as one call; after a fault nothing is
        ensures within { IfOk result (λ written. IsWrittenWithin written (length bytes.now)) }
        ensures took { IfOk result (λ written. IsTrue tells →
            did self.new ≡ did self.old ++ write_call written bytes.now ∷ []) }
        ensures lost { OnErr result (IsTrue tells → did self.new ≡ did self.old) };

    /// Waits until something may be read or written, at most so many nanoseconds, and returns
    /// whether something may be. It may return before, as after a signal.
    ///
    /// # Errors
    ///
    /// [`SocketFault`] only where the count of faults rose.
    fn wait(&mut self, most: u64) -> Result<bool, SocketFault>
        ensures count { faults self.old ≤ faults self.new }
        ensures fault { OnErr result (HasRisen (faults self.old) (faults self.new)) }
        ensures waited { OnOk result (IsTrue tells →
            did self.new ≡ did self.old ++ Waited most ∷ []) }
        ensures lost { OnErr result (IsTrue tells → did self.new ≡ did self.old) };

    /// Reads the clock: the nanoseconds since the gate was opened, when slot 0 began.
    ///
    /// # Errors
    ///
    /// [`SocketFault`] only where the count of faults rose.
    fn time(&mut self, purpose: Purpose) -> Result<u64, SocketFault>
        ensures count { faults self.old ≤ faults self.new }
        ensures fault { OnErr result (HasRisen (faults self.old) (faults self.new)) }
        ensures read { IfOk result (λ time. IsTrue tells →
            did self.new ≡ did self.old ++ ReadClock purpose time ∷ []) }
        ensures lost { OnErr result (IsTrue tells → did self.new ≡ did self.old) };

    /// Shuts the sending half down: the peer reads the end after all bytes that were taken.
    ///
    /// # Errors
    ///
    /// [`SocketFault`] only where the count of faults rose.
    fn shut_down(&mut self) -> Result<(), SocketFault>
        ensures count { faults self.old ≤ faults self.new }
        ensures fault { OnErr result (HasRisen (faults self.old) (faults self.new)) }
        ensures shut { OnOk result (IsTrue tells →
            did self.new ≡ did self.old ++ ShutDown ∷ []) }
        ensures lost { OnErr result (IsTrue tells → did self.new ≡ did self.old) };
}
