//! Connections, as a trait: events arrive, bytes are sent.

ghost use Rattle.std.specs.Prelude.{◌≡◌, ◌<◌, ◌≤◌, ℕ, List, [], ◌∷◌, Option, length, IfOk, OnOk};
ghost use Rattle.std.specs.Prelude.{OnErr};
ghost use Rattle.vod_base.specs.IoState.{HasRisen};
ghost use Rattle.vod_base.specs.Links.{IoEvent, io_event_of, IsWithin, sends, told_more};
ghost use Rattle.vod_base.specs.Links.{IsSentPrefix};

use crate::errors::LinkFault;

/// The last slot that counts, 2^62. The slots of a plan or of a calendar after it still have
/// numbers of 64 bits.
pub const LATEST_SLOT: u64 = 1 << 62;

/// The most bytes that a connection takes from its link in one call.
pub const MAX_READ_BYTES: usize = 16_384;

/// The most events of a link, 2^40: after so many a connection ends.
pub const MAX_EVENTS: u64 = 1 << 40;

/// An event of a connection.
#[derive(Clone, Copy, Debug, PartialEq, Eq)]
pub enum Heard {
    /// So many bytes arrived, at least one.
    Bytes(usize),
    /// A tick: the slot of that number has begun.
    Slot(u64),
    /// The peer closed its side.
    End,
}

/// A connection: bytes arrive, bytes are sent, and slots begin.
///
/// A link counts its faults as a library does. An object in memory exposes its history to
/// contracts: one list, in order, of the events that arrived and of each byte that was sent.
pub trait Link {
    ghost faults: { Self → ℕ };

    ghost told: { Self → Option (List IoEvent) };

    /// Waits for the next event. Bytes that arrived are at the start of `into`.
    ///
    /// # Errors
    ///
    /// [`LinkFault`] if the connection failed. Then nothing arrived and nothing was sent.
    fn next(&mut self, into: &mut [u8]) -> Result<Heard, LinkFault>
        // needs: room for a byte
        requires some { 0 < length into.now }
        // faults: the count never falls, and rises where the call fails
        ensures count { faults self.old ≤ faults self.new }
        ensures fault { OnErr result (HasRisen (faults self.old) (faults self.new)) }
        // answers: an event, whose bytes fit into `into`
        ensures within { IfOk result (λ heard. IsWithin heard (length into.new)) }
        // leaves: the exposed history with this event; after a fault, as it was
        ensures heard { IfOk result (λ heard. told self.new ≡
            told_more (told self.old) (io_event_of heard into.new ∷ [])) }
        ensures lost { OnErr result (told self.new ≡ told self.old) };

    /// Sends all bytes.
    ///
    /// # Errors
    ///
    /// [`LinkFault`] if the connection failed. Then a prefix of the bytes was sent.
    fn send(&mut self, bytes: &[u8]) -> Result<(), LinkFault>
        ensures count { faults self.old ≤ faults self.new }
        ensures fault { OnErr result (HasRisen (faults self.old) (faults self.new)) }
        ensures whole { OnOk result (told self.new ≡ told_more (told self.old) (sends bytes.now)) }
        ensures front { OnErr result (IsSentPrefix (told self.old) (told self.new) bytes.now) };
}
