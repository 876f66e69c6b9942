//! A socket in memory, which follows a script.

ghost use Rattle.std.specs.Prelude.{◌≡◌, ◌≤◌, ◌++◌, ◌∷◌, [], map, OnOk, OnErr};
ghost use Rattle.vod_base.specs.IoState.{HasRisen};
ghost use Rattle.socket_link.specs.Calls.{TookBytes};
ghost use Rattle.socket_link.specs.Scripts.{call_noted};

use crate::sockets::{Purpose, ReadOutcome, Socket, SocketFault, WriteOutcome};
use std::alloc::Global;
use std::fmt;

/// What a read is to answer.
#[derive(Debug, Drop)]
pub enum ScriptedRead {
    /// Bytes come, at least one. Those that are more than a read has room for come in several
    /// reads.
    Bytes(Vec<u8>),
    /// Nothing came yet.
    Nothing,
    /// A signal interrupts the read.
    Interrupted,
    /// The peer ended. So all later reads answer too.
    End,
    /// The read fails.
    Fault,
}

/// What a write is to answer.
#[derive(Clone, Copy, Debug, Drop)]
pub enum ScriptedWrite {
    /// At most so many bytes are taken, at least one.
    Bytes(usize),
    /// There is no room now.
    Nothing,
    /// A signal interrupts the write.
    Interrupted,
    /// The write fails.
    Fault,
}

/// What a call did.
#[derive(Drop)]
pub(crate) enum NotedCall {
    Gave(Vec<u8>),
    Empty,
    Ended,
    Took(Vec<u8>),
    Full,
    Stopped,
    Clock(Purpose, u64),
    Wait(u64),
    Shut,
}

/// A socket in memory, whose reads and writes follow two scripts. After its script a read gives
/// nothing, and a write takes everything. Time passes in waits alone, each of which lasts as long
/// as it may. A call also fails where there is no memory to note it.
#[derive(Drop)]
pub struct MemorySocket {
    alloc: Global,
    reads: Vec<ScriptedRead>,
    next_read: usize,
    /// How many bytes of the next read were given.
    given: usize,
    writes: Vec<ScriptedWrite>,
    next_write: usize,
    time: u64,
    pub(crate) notes: Vec<NotedCall>,
    faults: u64,
}

impl MemorySocket {
    /// Makes a socket with these scripts. `time` is the clock's first reading, in nanoseconds.
    pub fn new(
        alloc: Global,
        time: u64,
        reads: Vec<ScriptedRead>,
        writes: Vec<ScriptedWrite>,
    ) -> MemorySocket
        ensures { result.notes.items ≡ [] }
    {
        MemorySocket {
            alloc,
            reads,
            next_read: 0,
            given: 0,
            writes,
            next_write: 0,
            time,
            notes: Vec::new(alloc),
            faults: 0,
        }
    }

    /// Counts a fault.
    fn fail(&mut self) -> SocketFault
        ensures notes { self.new.notes ≡ self.old.notes }
        ensures count { self.old.faults ≤ self.new.faults }
        ensures fault { HasRisen self.old.faults self.new.faults }
    {
        self.faults = self.faults.saturating_add(1);
        SocketFault
    }

    /// Notes what a call did.
    fn note(&mut self, note: NotedCall) -> Result<(), SocketFault>
        ensures count { self.old.faults ≤ self.new.faults }
        ensures noted { OnOk result (self.new.notes.items ≡ self.old.notes.items ++ note ∷ []) }
        ensures fault { OnErr result (HasRisen self.old.faults self.new.faults) }
        ensures lost { OnErr result (self.new.notes.items ≡ self.old.notes.items) }
    {
        match self.notes.push(note) {
            Ok(()) => Ok(()),
            Err(_) => Err(self.fail()),
        }
    }
}

impl MemorySocket {
    /// Goes to the next read of the script.
    fn pass_read(&mut self)
        ensures notes { self.new.notes ≡ self.old.notes }
        ensures faults { self.new.faults ≡ self.old.faults }
    {
        self.next_read = self.next_read.saturating_add(1);
        self.given = 0;
    }

    /// Takes bytes that are written.
    fn take(&mut self, bytes: &[u8]) -> Result<(), SocketFault>
        ensures count { self.old.faults ≤ self.new.faults }
        ensures noted { OnOk result (map call_noted self.new.notes.items
            ≡ map call_noted self.old.notes.items ++ TookBytes bytes.now ∷ []) }
        ensures fault { OnErr result (HasRisen self.old.faults self.new.faults) }
        ensures lost { OnErr result (self.new.notes.items ≡ self.old.notes.items) }
    {
        match bytes.to_vec(self.alloc) {
            Ok(copy) => self.note(NotedCall::Took(copy)),
            Err(_) => Err(self.fail()),
        }
    }
}

impl fmt::Debug for MemorySocket {
    fn fmt<W: fmt::Write>(&self, f: &mut fmt::Formatter<W>) -> fmt::Result {
        f.debug_struct("MemorySocket").finish_non_exhaustive()
    }
}

impl Socket for MemorySocket {
    ghost use Rattle.std.specs.Prelude.{true};

    ghost faults = { λ s. s.faults };

    ghost tells = { true };

    ghost did = { λ s. map call_noted s.notes.items };

    fn read(&mut self, into: &mut [u8]) -> Result<ReadOutcome, SocketFault> {
        match self.reads.get(self.next_read) {
            Some(ScriptedRead::Bytes(bytes)) => {
                let rest = &bytes[self.given.min(bytes.len())..];
                let count = rest.len().min(into.len());
                // The note needs a copy. It is made first, so a read without memory gave nothing.
                let Ok(copy) = rest[..count].to_vec(self.alloc) else {
                    return Err(self.fail());
                };
                self.given = self.given.saturating_add(count);
                if count == rest.len() {
                    self.pass_read();
                }
                // A read of 0 bytes would mean the peer's end (read(2)), so an empty entry gives
                // nothing.
                if count == 0 {
                    self.note(NotedCall::Empty)?;
                    return Ok(ReadOutcome::Nothing);
                }
                into[..count].copy_from_slice(&copy);
                self.note(NotedCall::Gave(copy))?;
                Ok(ReadOutcome::Bytes(count))
            }
            Some(ScriptedRead::Nothing) => {
                self.pass_read();
                self.note(NotedCall::Empty)?;
                Ok(ReadOutcome::Nothing)
            }
            Some(ScriptedRead::Interrupted) => {
                self.pass_read();
                self.note(NotedCall::Stopped)?;
                Ok(ReadOutcome::Interrupted)
            }
            Some(ScriptedRead::End) => {
                self.note(NotedCall::Ended)?;
                Ok(ReadOutcome::End)
            }
            Some(ScriptedRead::Fault) => {
                self.pass_read();
                Err(self.fail())
            }
            None => {
                self.note(NotedCall::Empty)?;
                Ok(ReadOutcome::Nothing)
            }
        }
    }

    fn write(&mut self, bytes: &[u8]) -> Result<WriteOutcome, SocketFault> {
        let script = self.writes.get(self.next_write).copied();
        self.next_write = self.next_write.saturating_add(1);
        match script {
            None => {
                self.take(bytes)?;
                Ok(WriteOutcome::Bytes(bytes.len()))
            }
            Some(ScriptedWrite::Bytes(most)) => {
                let count = most.max(1).min(bytes.len());
                self.take(&bytes[..count])?;
                Ok(WriteOutcome::Bytes(count))
            }
            Some(ScriptedWrite::Nothing) => {
                self.note(NotedCall::Full)?;
                Ok(WriteOutcome::Nothing)
            }
            Some(ScriptedWrite::Interrupted) => {
                self.note(NotedCall::Stopped)?;
                Ok(WriteOutcome::Interrupted)
            }
            Some(ScriptedWrite::Fault) => Err(self.fail()),
        }
    }

    fn wait(&mut self, most: u64) -> Result<bool, SocketFault> {
        self.note(NotedCall::Wait(most))?;
        self.time = self.time.saturating_add(most);
        Ok(self.next_read < self.reads.len())
    }

    fn time(&mut self, purpose: Purpose) -> Result<u64, SocketFault> {
        let time = self.time;
        self.note(NotedCall::Clock(purpose, time))?;
        Ok(time)
    }

    fn shut_down(&mut self) -> Result<(), SocketFault> {
        self.note(NotedCall::Shut)
    }
}
