//! A link over a socket.

ghost use Rattle.std.specs.Prelude.{◌≡◌, ℕ, ◌<◌, ◌≤◌, ◌++◌, ◌∷◌, ◌⊎◌, [], Some, None, false};
ghost use Rattle.std.specs.Prelude.{IsTrue, IsSome, length, take, max, slice_get, IfOk, OnOk};
ghost use Rattle.std.specs.Prelude.{OnErr, IfSome};
ghost use Rattle.std.proofs.Props.{props};
ghost use Rattle.vod_base.specs.IoState.{HasRisen};
ghost use Rattle.vod_base.specs.Links.{io_event_of, IsWithin, sends, told_more, IsSentPrefix};
ghost use Rattle.socket_link.specs.Calls.{ReadClock};
ghost use Rattle.socket_link.specs.Limits.{clocked};
ghost use Rattle.socket_link.specs.Slots.{is_for_slots, is_newer};
ghost use Rattle.socket_link.specs.Histories.{Follows, slots_heard, IsCause, told_if};
ghost use Rattle.socket_link.specs.Steps.{HasServed, HasCalled, HasLooked, HasFoundEnd};
ghost use Rattle.socket_link.specs.Steps.{doings_read, doings_looked, IsInOrder, IsNoSlot};
ghost use Rattle.socket_link.specs.Waits.{last_from, FitsAfter};
ghost use Rattle.socket_link.specs.Flushes.{IsLeft};

use crate::buffers::WriteBuffer;
use crate::clocks::{rest_of_slot, slot_at};
use crate::histories::{History, Note};
use crate::limits::{RETRY, Watch};
use crate::sockets::{Purpose, ReadOutcome, Socket, SocketFault, WriteOutcome};
use std::alloc::{AllocError, Global};
use std::fmt;
use vod_base::{Heard, Link, LinkFault};

/// What a flush of the buffer left.
#[derive(Clone, Copy)]
enum Flushed {
    /// Everything was written.
    Everything,
    /// The peer takes nothing now.
    Stuck,
}

/// The memory of a link, for the bytes that wait to be written. It is there before a connection is
/// accepted, so that no accepted connection is closed because memory is short.
#[derive(Drop)]
pub struct LinkBuffer {
    bytes: WriteBuffer,
    ghost empty: { bytes ≡ [] } by { Prim.hlevel props },
}

impl LinkBuffer {
    /// Takes memory for 16,384 bytes. No other call of a link takes memory.
    ///
    /// # Errors
    ///
    /// [`AllocError`] where there is none.
    pub fn new(alloc: Global) -> Result<LinkBuffer, AllocError> {
        Ok(LinkBuffer {
            bytes: WriteBuffer::new(alloc)?,
        })
    }
}

impl fmt::Debug for LinkBuffer {
    fn fmt<W: fmt::Write>(&self, f: &mut fmt::Formatter<W>) -> fmt::Result {
        f.debug_struct("LinkBuffer").finish_non_exhaustive()
    }
}

/// A link over a socket. What is sent waits in a buffer of 16,384 bytes. It is written out when the
/// buffer is full, and before each wait.
#[derive(Drop)]
pub struct SocketLink<S: Socket> {
    pub(crate) socket: S,
    pub(crate) buffer: WriteBuffer,
    pub(crate) slot_units: u32,
    /// The slot that was reported last.
    pub(crate) slot: Option<u64>,
    /// Whether there may be something to read.
    pub(crate) readable: bool,
    pub(crate) watch: Watch,
    pub(crate) history: History,
    pub(crate) faults: u64,
    ghost follows: { IsTrue S.tells →
        Follows slot_units watch (S.did socket) buffer history.doings } by { Prim.hlevel props },
    ghost newest: { slot ≡ slice_get (slots_heard [] history.doings) 0 } by { Prim.hlevel props },
    ghost some_units: { 1 ≤ slot_units },
}

impl<S: Socket + Drop> SocketLink<S> {
    /// A link over a connection that was just accepted. A slot lasts `slot_units` / 360,000 s.
    ///
    /// No call of the socket was made yet. A caller knows that from the socket's constructor. A
    /// socket of the system exposes no calls, so the caller of such a socket has nothing to show.
    ///
    /// # Errors
    ///
    /// [`SocketFault`] where the clock can't be read.
    pub fn new(
        buffer: LinkBuffer,
        mut socket: S,
        slot_units: u32,
    ) -> Result<SocketLink<S>, SocketFault>
        requires { IsTrue S.tells → S.did socket ≡ [] }
        ensures fresh { IfOk result (λ link. (link.faults ≡ 0) × (link.history.doings ≡ [])) }
        ensures units { IfOk result (λ link. link.slot_units ≡ max slot_units 1) }
    {
        // The limit on the first send counts from here.
        let accept = match socket.time(Purpose::Accept) {
            Ok(accept) => accept,
            Err(fault) => return Err(fault),
        };
        Ok(SocketLink {
            socket,
            buffer: buffer.bytes,
            // The slot of a time is a quotient, so a slot has at least one unit.
            slot_units: slot_units.max(1),
            slot: None,
            // Bytes may have come before the socket was watched, so the first read waits for no
            // event.
            readable: true,
            watch: Watch::NEW.at(Purpose::Accept, accept),
            history: History::new(),
            faults: 0,
        })
    }

    /// Ends a connection that was given back: closes it if no call failed ([`SocketLink::close`]).
    pub fn end(mut self) {
        // After a failed call nothing more is sent, so no last reply is on its way.
        if self.faults == 0 {
            // The connection's record was made before: a close that fails changes nothing in it.
            let _ = self.close();
        }
    }
}

impl<S: Socket + fmt::Debug> fmt::Debug for SocketLink<S> {
    fn fmt<W: fmt::Write>(&self, f: &mut fmt::Formatter<W>) -> fmt::Result {
        f.debug_struct("SocketLink")
            .field("socket", &self.socket)
            .finish_non_exhaustive()
    }
}

impl<S: Socket> SocketLink<S> {
    ghost use Rattle.socket_link.specs.LinkCalls.{CallsSocket, LeavesHistory, LeavesWaiting};
    ghost use Rattle.socket_link.specs.LinkCalls.{MakesCall};

    /// How the link's history follows from the calls of its socket.
    pub fn law(&self)
        ensures { IsTrue S.tells → Follows self.now.slot_units self.now.watch
            (S.did self.now.socket) self.now.buffer self.now.history.doings }
    {}

    /// Waits until something may be read or written, at most so many nanoseconds.
    pub(crate) fn wait(&mut self, most: u64) -> Result<(), LinkFault>
        requires { IsTrue S.tells → FitsAfter self.old.slot_units
            (last_from None (S.did self.old.socket)) most }
        ensures calls { CallsSocket result self.old self.new }
        ensures history { LeavesHistory self.old self.new }
        ensures longer { OnOk result (MakesCall self.old self.new) }
        ensures called { OnOk result (IsTrue S.tells →
            HasCalled (S.did self.old.socket) (S.did self.new.socket)) }
        ensures waiting { LeavesWaiting self.old self.new }
    {
        match self.socket.wait(most) {
            Ok(ready) => {
                // An arrival is reported once. So a wait that reports none must not clear an
                // earlier report.
                self.readable |= ready;
                Ok(())
            }
            Err(_) => Err(LinkFault),
        }
    }

    /// Reads the clock, and fails where the reading shows that a limit is reached.
    pub(crate) fn check(&mut self, purpose: Purpose) -> Result<(), LinkFault>
        requires { is_for_slots purpose ≡ false }
        ensures calls { CallsSocket result self.old self.new }
        ensures history { LeavesHistory self.old self.new }
        ensures longer { OnOk result (MakesCall self.old self.new) }
        ensures read { OnOk result (IsTrue S.tells → S.did self.new.socket
            ≡ S.did self.old.socket ++ ReadClock purpose self.new.watch.latest ∷ []) }
        ensures watch { OnOk result
            (self.new.watch ≡ clocked self.old.watch purpose self.new.watch.latest) }
        ensures buffer { self.new.buffer ≡ self.old.buffer }
    {
        match self.socket.time(purpose) {
            Ok(time) => {
                let overdue = self.watch.is_overdue(purpose, time);
                self.watch = self.watch.at(purpose, time);
                if overdue { Err(LinkFault) } else { Ok(()) }
            }
            Err(_) => Err(LinkFault),
        }
    }

    /// Reads the clock, and returns the slot if it is newer than the last one.
    fn new_slot(&mut self) -> Result<Option<u64>, LinkFault>
        // leaves: the waiting bytes as they were; a reading of the clock. It fails where the socket
        // failed.
        ensures calls { CallsSocket result self.old self.new }
        ensures longer { OnOk result (MakesCall self.old self.new) }
        ensures looked { IfOk result (λ slot. IsTrue S.tells → HasLooked self.old.slot_units
            self.old.slot slot self.new.watch.latest
            (S.did self.old.socket) (S.did self.new.socket)) }
        ensures waiting { LeavesWaiting self.old self.new }
        // answers: a slot that is one more event of the history, or None
        ensures told { IfOk result (λ slot. self.new.history.doings
            ≡ self.old.history.doings ++ doings_looked slot) }
        ensures none { IfOk result (λ slot. slot ≡ None → LeavesHistory self.old self.new) }
        ensures lost { OnErr result (self.new.history.doings ≡ self.old.history.doings) }
    {
        match self.socket.time(Purpose::Slot) {
            Ok(time) => {
                let slot = slot_at(time, self.slot_units);
                self.watch = self.watch.at(Purpose::Slot, time);
                if !is_newer(self.slot, slot) {
                    return Ok(None);
                }
                self.slot = Some(slot);
                self.history = self.history.then(&Note::Came(Heard::Slot(slot), &[]));
                Ok(Some(slot))
            }
            Err(_) => Err(LinkFault),
        }
    }

    /// Writes as many of the waiting bytes as the socket takes in one call.
    fn write(&mut self) -> Result<WriteOutcome, LinkFault>
        requires { 0 < length self.old.buffer }
        ensures calls { CallsSocket result self.old self.new }
        ensures history { LeavesHistory self.old self.new }
        ensures longer { OnOk result (MakesCall self.old self.new) }
    {
        match self.socket.write(self.buffer.waiting_bytes()) {
            Ok(WriteOutcome::Bytes(count)) => {
                self.buffer.drop_front(count);
                self.watch = self.watch.sent();
                Ok(WriteOutcome::Bytes(count))
            }
            Ok(WriteOutcome::Nothing) => Ok(WriteOutcome::Nothing),
            Ok(WriteOutcome::Interrupted) => Ok(WriteOutcome::Interrupted),
            Err(_) => Err(LinkFault),
        }
    }

    /// Writes the waiting bytes until all are written, or the socket takes nothing now.
    fn flush(&mut self) -> Result<Flushed, LinkFault>
        requires { 0 < length self.old.buffer }
        ensures calls { CallsSocket result self.old self.new }
        ensures history { LeavesHistory self.old self.new }
        ensures longer { OnOk result (MakesCall self.old self.new) }
        ensures left { IfOk result (λ flushed.
            IsLeft flushed self.new.buffer self.new.watch.stuck) }
        ensures stuck { IfOk result (λ flushed. flushed ≡ Flushed.Stuck → IsTrue S.tells →
            last_from None (S.did self.new.socket)
            ≡ Some (ReadClock Purpose.Patience self.new.watch.latest)) }
    {
        for _ in 0..u64::MAX {
            // After a signal the loop writes again at once, since no byte was taken.
            if let WriteOutcome::Nothing = self.write()? {
                // The clock is read only for a peer that takes nothing. A peer that reads costs no
                // reading.
                self.check(Purpose::Patience)?;
                return Ok(Flushed::Stuck);
            }
            if self.buffer.waiting_bytes().is_empty() {
                return Ok(Flushed::Everything);
            }
        }
        // Never reached: a call must be proved to end, so the loops of a link count.
        Err(LinkFault)
    }

    /// Writes the waiting bytes, if there are any, as far as the socket takes them now.
    pub(crate) fn write_out(&mut self) -> Result<(), LinkFault>
        ensures calls { CallsSocket result self.old self.new }
        ensures history { LeavesHistory self.old self.new }
        ensures left { OnOk result
            ((length self.new.buffer ≡ 0) ⊎ IsSome self.new.watch.stuck) }
    {
        if !self.buffer.waiting_bytes().is_empty() {
            self.flush()?;
        }
        Ok(())
    }

    /// Takes as many of the bytes as the buffer has room for, and returns how many.
    fn put(&mut self, bytes: &[u8]) -> usize
        ensures socket { self.new.socket ≡ self.old.socket }
        ensures units { self.new.slot_units ≡ self.old.slot_units }
        ensures faults { self.new.faults ≡ self.old.faults }
        ensures within { result ≤ length bytes.now }
        ensures told { self.new.history.doings
            ≡ self.old.history.doings ++ sends (take result bytes.now) }
        ensures full { result < length bytes.now → 0 < length self.new.buffer }
    {
        let count = self.buffer.put(bytes);
        self.history = self.history.then(&Note::Sent(&bytes[..count]));
        count
    }

    /// Writes the waiting bytes, and waits for a while if the peer takes nothing now.
    fn make_room(&mut self) -> Result<(), LinkFault>
        requires { 0 < length self.old.buffer }
        ensures calls { CallsSocket result self.old self.new }
        ensures history { LeavesHistory self.old self.new }
        ensures longer { OnOk result (MakesCall self.old self.new) }
    {
        match self.flush()? {
            Flushed::Everything => Ok(()),
            // the system may make room without waking the link, so the wait is short
            Flushed::Stuck => self.wait(RETRY),
        }
    }

    /// Takes all the bytes. Where the buffer is full it is written out.
    fn gather(&mut self, bytes: &[u8]) -> Result<(), LinkFault>
        ensures calls { CallsSocket result self.old self.new }
        ensures whole { OnOk result (self.new.history.doings
            ≡ self.old.history.doings ++ sends bytes.now) }
        ensures front { OnErr result ((count : ℕ) × ((count ≤ length bytes.now)
            × (self.new.history.doings
            ≡ self.old.history.doings ++ sends (take count bytes.now)))) }
    {
        let mut rest = bytes;
        for _ in 0..u64::MAX {
            let count = self.put(rest);
            rest = &rest[count..];
            if rest.is_empty() {
                return Ok(());
            }
            // `send` waits for the peer in place of growing the buffer. So a peer that reads
            // nothing can't take memory, and all memory of a link is there before the accept.
            self.make_room()?;
        }
        Err(LinkFault)
    }

    /// Reads what came, in one call. If nothing can have come, waits at most so many nanoseconds.
    pub(crate) fn read_or_wait(
        &mut self,
        into: &mut [u8],
        most: u64,
    ) -> Result<Option<Heard>, LinkFault>
        // needs: room for a byte, and a wait that ends with the slot
        requires some { 0 < length into.now }
        requires fits { IsTrue S.tells → FitsAfter self.old.slot_units
            (last_from None (S.did self.old.socket)) most }
        // leaves: the slot and the waiting bytes as they were; a further call of the socket
        ensures calls { CallsSocket result self.old self.new }
        ensures longer { OnOk result (MakesCall self.old self.new) }
        ensures called { OnOk result (IsTrue S.tells →
            HasCalled (S.did self.old.socket) (S.did self.new.socket)) }
        ensures slot { self.new.slot ≡ self.old.slot }
        ensures waiting { LeavesWaiting self.old self.new }
        // answers: what came, which is one more event of the history, or None
        ensures within { IfOk result (λ read. IfSome read (λ heard.
            IsWithin heard (length into.new))) }
        ensures event { IfOk result (λ read. IfSome read (λ heard. IsNoSlot heard)) }
        ensures told { IfOk result (λ read. self.new.history.doings
            ≡ self.old.history.doings ++ doings_read read into.new) }
        ensures none { IfOk result (λ read. read ≡ None → LeavesHistory self.old self.new) }
        ensures ended { IfOk result (λ read. read ≡ Some Heard.End → IsTrue S.tells →
            HasFoundEnd (S.did self.new.socket)) }
        ensures lost { OnErr result (self.new.history.doings ≡ self.old.history.doings) }
    {
        if !self.readable {
            self.wait(most)?;
            return Ok(None);
        }
        match self.socket.read(into) {
            Ok(ReadOutcome::Bytes(count)) => {
                let heard = Heard::Bytes(count);
                self.watch = self.watch.received();
                self.history = self.history.then(&Note::Came(heard, into));
                Ok(Some(heard))
            }
            Ok(ReadOutcome::End) => {
                self.history = self.history.then(&Note::Came(Heard::End, into));
                Ok(Some(Heard::End))
            }
            Ok(ReadOutcome::Nothing) => {
                // A wait may report bytes only once, as they come. So the link reads until nothing
                // is left, and only then waits again.
                self.readable = false;
                Ok(None)
            }
            Ok(ReadOutcome::Interrupted) => Ok(None),
            Err(_) => Err(LinkFault),
        }
    }

    /// Waits for the next event. First what waits is written out, then a new slot is reported, and
    /// then what came.
    fn hear(&mut self, into: &mut [u8]) -> Result<Heard, LinkFault>
        // needs: room for a byte
        requires some { 0 < length into.now }
        ensures calls { CallsSocket result self.old self.new }
        // answers: one event, and the history has it
        ensures within { IfOk result (λ heard. IsWithin heard (length into.new)) }
        ensures heard { IfOk result (λ heard. self.new.history.doings
            ≡ self.old.history.doings ++ io_event_of heard into.new ∷ []) }
        ensures lost { OnErr result (self.new.history.doings ≡ self.old.history.doings) }
        // leaves: what waits is written, and slots come before bytes
        ensures left { OnOk result
            ((length self.new.buffer ≡ 0) ⊎ IsSome self.new.watch.stuck) }
        ensures order { IfOk result (λ heard. IsTrue S.tells → IsInOrder self.old.slot_units
            self.old.slot heard (S.did self.new.socket)) }
    {
        for _ in 0..u64::MAX {
            // Written before the wait, since the peer may wait for just these bytes.
            self.write_out()?;
            // A wait lasts a slot at most. So a limit is noticed within a slot after it is reached.
            self.check(Purpose::Idle)?;
            // a slot comes before bytes: a peer that sends without end can't hold up its film
            if let Some(slot) = self.new_slot()? {
                return Ok(Heard::Slot(slot));
            }
            // From the reading that found no new slot: a later one could lie in the next slot
            // already, and the wait would then pass that slot's begin.
            let rest = rest_of_slot(self.watch.latest, self.slot_units);
            if let Some(heard) = self.read_or_wait(into, rest)? {
                return Ok(heard);
            }
        }
        Err(LinkFault)
    }
}

/// Whether a slot comes after the one that was reported last, if any.
fn is_newer(last: Option<u64>, slot: u64) -> bool
    ensures { result ≡ is_newer last slot }
{
    !last.is_some_and(|last| slot <= last)
}

impl<S: Socket> Link for SocketLink<S> {
    ghost faults = { λ l. l.faults };

    ghost told = { λ l. told_if S.tells l.history.doings };

    fn next(&mut self, into: &mut [u8]) -> Result<Heard, LinkFault>
        // needs: room for a byte. A read into an empty buffer would look like the peer's end.
        requires some { 0 < length into.now }
        // faults: a call blames the link only where the link's count rose
        ensures count { self.old.faults ≤ self.new.faults }
        ensures fault { OnErr result (HasRisen self.old.faults self.new.faults) }
        // answers: an event, which is also the next one of the history
        ensures within { IfOk result (λ heard. IsWithin heard (length into.new)) }
        ensures heard { IfOk result (λ heard. told_if S.tells self.new.history.doings ≡
            told_more (told_if S.tells self.old.history.doings) (io_event_of heard into.new ∷ [])) }
        ensures lost { OnErr result (told_if S.tells self.new.history.doings
            ≡ told_if S.tells self.old.history.doings) }
        // leaves: nothing unwritten, unless the peer takes nothing now; a slot came before bytes
        ensures units { self.new.slot_units ≡ self.old.slot_units }
        ensures left { OnOk result
            ((length self.new.buffer ≡ 0) ⊎ IsSome self.new.watch.stuck) }
        ensures order { IfOk result (λ heard. IsTrue S.tells → IsInOrder self.old.slot_units
            self.old.slot heard (S.did self.new.socket)) }
        // the socket's calls: waits end in time, and each fault has a cause
        ensures served { OnOk result (IsTrue S.tells →
            HasServed self.old.slot_units (S.did self.old.socket) (S.did self.new.socket)) }
        ensures cause { OnErr result (IsTrue S.tells → IsCause
            (S.faults self.old.socket) (S.faults self.new.socket) (S.did self.new.socket)) }
    {
        let heard = self.hear(into);
        if heard.is_err() {
            // A count at 2^64 - 1 counts as risen, so it may stay there.
            self.faults = self.faults.saturating_add(1);
        }
        heard
    }

    fn send(&mut self, bytes: &[u8]) -> Result<(), LinkFault>
        ensures count { self.old.faults ≤ self.new.faults }
        ensures fault { OnErr result (HasRisen self.old.faults self.new.faults) }
        // answers: all bytes are in the history, or a prefix of them after a fault
        ensures whole { OnOk result (told_if S.tells self.new.history.doings
            ≡ told_more (told_if S.tells self.old.history.doings) (sends bytes.now)) }
        ensures front { OnErr result (IsSentPrefix (told_if S.tells self.old.history.doings)
            (told_if S.tells self.new.history.doings) bytes.now) }
        // the socket's calls: waits end in time, and each fault has a cause
        ensures units { self.new.slot_units ≡ self.old.slot_units }
        ensures served { OnOk result (IsTrue S.tells →
            HasServed self.old.slot_units (S.did self.old.socket) (S.did self.new.socket)) }
        ensures cause { OnErr result (IsTrue S.tells → IsCause
            (S.faults self.old.socket) (S.faults self.new.socket) (S.did self.new.socket)) }
    {
        let gathered = self.gather(bytes);
        if gathered.is_err() {
            self.faults = self.faults.saturating_add(1);
        }
        gathered
    }
}
