//! A listener in memory.

ghost use Rattle.std.specs.Prelude.{◌≡◌, ◌≤◌, ◌++◌, ◌∷◌, [], true, OnOk, OnErr, IfOk, IfSome};
ghost use Rattle.vod_base.specs.IoState.{HasRisen};
ghost use Rattle.listener_gate.specs.Listeners.{failed_accept, IsBroken};

use crate::listeners::{AcceptError, Listener, ListenerDoing, ListenerFault};
use std::alloc::Global;
use std::fmt;
use vod_base::{Event, Link, MemoryLink, NoMemory};

/// The room of a link for bytes and events.
const ROOM: usize = 1 << 16;

/// A listener in memory. Its accepts give what its script says, in order, and after the script the
/// listener is broken. Its calls of `bind`, `copy` and `wait` fail at given numbers, from 1. A
/// handle that is copied from it has a script of its own.
#[derive(Drop)]
pub struct MemoryListener {
    alloc: Global,
    accepts: Vec<Result<Vec<Event>, AcceptError>>,
    copies: Vec<Vec<Result<Vec<Event>, AcceptError>>>,
    failing: Vec<u64>,
    calls: u64,
    did: Vec<ListenerDoing>,
    ended: u64,
    faults: u64,
}

impl MemoryListener {
    /// Makes a listener that isn't bound. `accepts` has the answers of its accepts, in order, and
    /// `copies` those of each handle that is copied from it, in order; a copy past the last fails.
    /// `failing` has the numbers, from 1, of the calls of `bind`, `copy` and `wait` that are to
    /// fail.
    pub fn new(
        alloc: Global,
        accepts: Vec<Result<Vec<Event>, AcceptError>>,
        copies: Vec<Vec<Result<Vec<Event>, AcceptError>>>,
        failing: Vec<u64>,
    ) -> MemoryListener
        ensures did { result.did.items ≡ [] }
        ensures faults { result.faults ≡ 0 }
    {
        MemoryListener {
            alloc,
            accepts,
            copies,
            failing,
            calls: 0,
            did: Vec::new(alloc),
            ended: 0,
            faults: 0,
        }
    }

    /// Returns what it did, in order.
    pub fn doings(&self) -> &[ListenerDoing]
        ensures { result.now ≡ self.now.did.items }
    {
        self.did.as_slice()
    }

    /// Returns how many connections it ended.
    pub fn ended(&self) -> u64
        ensures { result ≡ self.now.ended }
    {
        self.ended
    }

    /// Counts a call, and returns whether it is to fail.
    fn call_fails(&mut self) -> bool
        ensures did { self.new.did ≡ self.old.did }
        ensures faults { self.new.faults ≡ self.old.faults }
    {
        self.calls = self.calls.saturating_add(1);
        self.failing.contains(&self.calls)
    }

    /// The script of the next copy, unless the call is to fail.
    fn next_script(&mut self) -> Option<Vec<Result<Vec<Event>, AcceptError>>>
        ensures did { self.new.did ≡ self.old.did }
        ensures faults { self.new.faults ≡ self.old.faults }
    {
        if self.call_fails() || self.copies.is_empty() {
            return None;
        }
        Some(self.copies.remove(0))
    }

    /// Notes a doing.
    fn note(&mut self, doing: ListenerDoing) -> Result<(), ListenerFault>
        ensures noted { OnOk result (self.new.did.items ≡ self.old.did.items ++ doing ∷ []) }
        ensures lost { OnErr result (self.new.did.items ≡ self.old.did.items) }
        ensures count { self.old.faults ≤ self.new.faults }
        ensures fault { OnErr result (HasRisen self.old.faults self.new.faults) }
    {
        match self.did.push(doing) {
            Ok(()) => Ok(()),
            Err(_) => Err(self.fault()),
        }
    }

    /// Notes a failed accept, and returns its error, or that the listener is broken.
    fn note_error(&mut self, error: AcceptError) -> AcceptError
        ensures noted { self.new.did.items ≡ self.old.did.items ++ failed_accept result }
        ensures count { self.old.faults ≤ self.new.faults }
        ensures fault { IsBroken result → HasRisen self.old.faults self.new.faults }
    {
        let doing = match error {
            AcceptError::Transient => ListenerDoing::TransientError,
            AcceptError::Shortage => ListenerDoing::ShortageError,
            AcceptError::Broken => {
                // Nothing is noted of a broken listener: `failed_accept` has no doing for it.
                let ListenerFault = self.fault();
                return AcceptError::Broken;
            }
        };
        match self.note(doing) {
            Ok(()) => error,
            // An error that passes must be noted; one that can't be counts as a fault.
            Err(ListenerFault) => AcceptError::Broken,
        }
    }

    /// Counts a fault.
    fn fault(&mut self) -> ListenerFault
        ensures did { self.new.did ≡ self.old.did }
        ensures count { self.old.faults ≤ self.new.faults }
        ensures fault { HasRisen self.old.faults self.new.faults }
    {
        self.faults = self.faults.saturating_add(1);
        ListenerFault
    }

    /// The answer of the next accept. There is no memory for a link without room.
    fn next_answer(&mut self) -> Result<MemoryLink, AcceptError>
        ensures fresh { IfOk result (λ link. (⟦<MemoryLink as Link>⟧.faults link ≡ 0)
            × IfSome (⟦<MemoryLink as Link>⟧.told link) (λ doings. doings ≡ [])) }
        ensures did { self.new.did ≡ self.old.did }
        ensures faults { self.new.faults ≡ self.old.faults }
    {
        if self.accepts.is_empty() {
            return Err(AcceptError::Broken);
        }
        match self.accepts.remove(0) {
            Ok(events) => {
                let none = Vec::new(self.alloc);
                let no_send = Vec::new(self.alloc);
                match MemoryLink::new(self.alloc, events, ROOM, no_send, none) {
                    Ok(link) => Ok(link),
                    // What the system answers without memory for a connection (ENOMEM).
                    Err(NoMemory) => Err(AcceptError::Shortage),
                }
            }
            Err(error) => Err(error),
        }
    }
}

impl fmt::Debug for MemoryListener {
    fn fmt<W: fmt::Write>(&self, f: &mut fmt::Formatter<W>) -> fmt::Result {
        f.debug_struct("MemoryListener").finish_non_exhaustive()
    }
}

impl Listener for MemoryListener {
    type Conn = MemoryLink;

    ghost faults = { λ l. l.faults };

    ghost tells = { true };

    ghost did = { λ l. l.did.items };

    ghost ended = { λ l. l.ended };

    fn bind(&mut self, address: [u8; 4], port: u16, slot_units: u32) -> Result<(), ListenerFault> {
        if self.call_fails() {
            return Err(self.fault());
        }
        self.note(ListenerDoing::Bound(address, port, slot_units))
    }

    fn copy(&mut self) -> Result<MemoryListener, ListenerFault> {
        let Some(accepts) = self.next_script() else {
            return Err(self.fault());
        };
        match self.note(ListenerDoing::Copied) {
            Ok(()) => {
                let copies = Vec::new(self.alloc);
                let failing = Vec::new(self.alloc);
                Ok(MemoryListener::new(self.alloc, accepts, copies, failing))
            }
            Err(fault) => Err(fault),
        }
    }

    fn accept(&mut self) -> Result<MemoryLink, AcceptError> {
        match self.next_answer() {
            Ok(link) => match self.note(ListenerDoing::Accepted) {
                Ok(()) => Ok(link),
                Err(ListenerFault) => Err(AcceptError::Broken),
            },
            Err(error) => Err(self.note_error(error)),
        }
    }

    fn wait(&mut self, ms: u64) -> Result<(), ListenerFault> {
        if self.call_fails() {
            return Err(self.fault());
        }
        self.note(ListenerDoing::Waited(ms))
    }

    fn end(&mut self, _conn: MemoryLink) {
        self.ended = self.ended.saturating_add(1);
    }
}
