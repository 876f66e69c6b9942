//! A link in memory.

ghost use Rattle.std.specs.Prelude.{◌≡◌, ◌+◌, ◌-◌, ◌^◌, ◌<◌, ◌≤◌, ◌++◌, ◌∷◌, [], ◌||◌, length, map};
ghost use Rattle.std.specs.Prelude.{nat_lt, vec_len, vec_capacity, IfOk, OnOk, OnErr, is_err};
ghost use Rattle.vod_base.specs.Links.{Sent, io_event_of, IsWithin, sends};
ghost use Rattle.vod_base.specs.Memory.{call_fails};
ghost use Rattle.vod_base.specs.IoState.{one_more};
ghost use Rattle.vod_base.specs.declared.memory_links.LinkLogEntry.TheVariants.{Gone};
ghost use Rattle.vod_base.specs.MemoryLinks.{sent_of, io_event_logged, next_fails, heard_whole};
ghost use Rattle.vod_base.specs.MemoryLinks.{left_from, next_doing, left_after, link_begun};

use crate::appends::append_reserved;
use crate::errors::{LinkFault, NoMemory};
use crate::fault_injection::counted_call;
use crate::links::{Heard, Link};
use crate::reads::copy_from;
use std::alloc::Global;
use std::fmt::{self, Formatter, Write};
use std::marker::Model;

/// An event that a link in memory hands out.
#[derive(Debug, Drop)]
pub enum Event {
    /// Bytes arrive, in several calls if they are longer than a call can take. An empty list is no
    /// event.
    Bytes(Vec<u8>),
    /// The slot of that number begins.
    Slot(u64),
    /// The peer closes its side.
    End,
}

/// An item of a link's history: bytes of the event at a place arrived, a slot began, the peer
/// closed its side, or a byte was sent.
#[derive(Clone, Copy)]
pub(crate) enum LinkLogEntry {
    Came(usize, usize, usize),
    Began(u64),
    Ended,
    Gone(u8),
}

/// A connection in memory, which hands out given events and holds the bytes that are sent.
///
/// Calls of `send` and of `next` fail at given numbers, from 1, and if the room would be passed.
/// After the last event it returns that the peer closed its side.
#[derive(Drop)]
pub struct MemoryLink {
    events: Vec<Event>,
    front: EventCursor,
    notes: Vec<LinkLogEntry>,
    sent: Vec<u8>,
    handed_out: usize,
    room: usize,
    failing_sends: Vec<u64>,
    failing_nexts: Vec<u64>,
    sends: u64,
    nexts: u64,
    faults: u64,
}

impl Model for MemoryLink {
    ghost use Rattle.std.specs.Prelude.{◌≡◌, ◌+◌, ◌≤◌, map, vec_len, vec_capacity};
    ghost use Rattle.vod_base.specs.MemoryLinks.{LinkState, sent_of, io_event_logged, heard_whole};
    ghost use Rattle.vod_base.specs.MemoryLinks.{left_from};

    ghost Value = { LinkState };

    ghost view = { λ l.
        record {
          told = map (io_event_logged l.events.items) l.notes.items;
          script = map heard_whole l.events.items;
          left = left_from l.events.items l.front;
          events = l.handed_out;
          room = l.room;
          failing_sends = l.failing_sends.items;
          failing_nexts = l.failing_nexts.items;
          sends = l.sends;
          nexts = l.nexts;
          faults = l.faults;
        } };

    ghost invariant = { λ l.
        (sent_of (map (io_event_logged l.events.items) l.notes.items) ≡ l.sent.items)
        × (vec_len l.sent ≤ l.room) × (l.room ≤ vec_capacity l.sent) × (l.handed_out ≤ l.room)
        × (vec_len l.notes ≡ vec_len l.sent + l.handed_out)
        × (l.room + l.room ≤ vec_capacity l.notes) };
}

impl fmt::Debug for MemoryLink {
    fn fmt<W: Write>(&self, f: &mut Formatter<W>) -> fmt::Result {
        f.write_str("MemoryLink { .. }")
    }
}

impl MemoryLink {
    /// Returns a link that hands out these events, up to `room` of them, and holds up to `room`
    /// sent bytes. All room is reserved here. `failing_sends` and `failing_nexts` have the numbers
    /// of the calls that fail.
    ///
    /// # Errors
    ///
    /// [`NoMemory`] if there is none for the room.
    pub fn new(
        alloc: Global,
        events: Vec<Event>,
        room: usize,
        failing_sends: Vec<u64>,
        failing_nexts: Vec<u64>,
    ) -> Result<MemoryLink, NoMemory>
        ensures { IfOk result (λ link. link ≡
            record {
              told = [];
              script = map heard_whole events.items;
              left = map heard_whole events.items;
              events = 0;
              room = room;
              failing_sends = failing_sends.items;
              failing_nexts = failing_nexts.items;
              sends = 0;
              nexts = 0;
              faults = 0;
            }) }
    {
        // A note for each event and for each sent byte, up to `room` of either.
        let Some(both) = room.checked_mul(2) else {
            return Err(NoMemory);
        };
        let notes = Vec::with_capacity(alloc, both)?;
        let sent = Vec::with_capacity(alloc, room)?;
        Ok(MemoryLink {
            events,
            front: EventCursor::FIRST,
            notes,
            sent,
            handed_out: 0,
            room,
            failing_sends,
            failing_nexts,
            sends: 0,
            nexts: 0,
            faults: 0,
        })
    }

    /// Returns the bytes that were sent.
    pub fn sent(&self) -> &[u8]
        ensures { result.now ≡ sent_of self.now.told }
    {
        self.sent.as_slice()
    }

    /// Begins anew: no event was handed out, and nothing was done yet.
    pub(crate) fn begin(&mut self)
        ensures { self.new ≡ link_begun self.old }
    {
        self.front = EventCursor::FIRST;
        self.notes.clear();
        self.sent.clear();
        self.handed_out = 0;
        self.sends = 0;
        self.nexts = 0;
        self.faults = 0;
    }
}

impl Link for MemoryLink {
    ghost use Rattle.std.specs.Prelude.{Some};

    ghost faults = { λ l. l.faults };

    ghost told = { λ l. Some l.told };

    #[tactic(auto, using(crate::proofs::LinkLogLemmas::heard_more))]
    fn next(&mut self, into: &mut [u8]) -> Result<Heard, LinkFault>
        requires some { 0 < length into.now }
        // answers: an error exactly in a call that is to fail, or where the room is full
        ensures fails { is_err result ≡ next_fails self.old }
        // answers: what stands first in the events that are left
        ensures within { IfOk result (λ heard. IsWithin heard (length into.new)) }
        ensures front { IfOk result (λ heard.
            io_event_of heard into.new ≡ next_doing (length into.new) self.old.left) }
        // leaves: the history with this event; after a fault, the call and the fault alone
        ensures heard { IfOk result (λ heard. self.new ≡
            record self.old {
              nexts = one_more self.old.nexts;
              events = self.old.events + 1;
              told = self.old.told ++ io_event_of heard into.new ∷ [];
              left = left_after (length into.new) self.old.left;
            }) }
        ensures lost { OnErr result (self.new ≡
            record self.old {
              nexts = one_more self.old.nexts;
              faults = one_more self.old.faults;
            }) }
        ensures untouched { OnErr result (into.new ≡ into.old) }
    {
        let failed = counted_call(&mut self.nexts, &self.failing_nexts);
        // Without room for its note an event can't be handed out: what arrives has to stand in the
        // history.
        if failed || self.handed_out >= self.room {
            self.faults = self.faults.saturating_add(1);
            return Err(LinkFault);
        }
        let (noted, heard) = next_event(&self.events, &mut self.front, into);
        self.handed_out += 1;
        self.notes.push_reserved(noted);
        Ok(heard)
    }

    fn send(&mut self, bytes: &[u8]) -> Result<(), LinkFault>
        ensures fails { is_err result ≡
            (call_fails self.old.failing_sends self.old.sends
            || nat_lt self.old.room (length (sent_of self.old.told) + length bytes.now)) }
        ensures whole { OnOk result (self.new ≡
            record self.old {
              sends = one_more self.old.sends;
              told = self.old.told ++ sends bytes.now;
            }) }
        ensures lost { OnErr result (self.new ≡
            record self.old {
              sends = one_more self.old.sends;
              faults = one_more self.old.faults;
            }) }
    {
        let failed = counted_call(&mut self.sends, &self.failing_sends);
        // All bytes or none, where the trait allows any prefix: a test then knows what was sent.
        if failed || bytes.len() > self.room - self.sent.len() {
            self.faults = self.faults.saturating_add(1);
            return Err(LinkFault);
        }
        log_sent(&mut self.notes, bytes);
        append_reserved(&mut self.sent, bytes);
        Ok(())
    }
}

/// The next event's place, and how many of its bytes were handed out.
#[derive(Clone, Copy)]
struct EventCursor {
    event: usize,
    offset: usize,
}

impl EventCursor {
    /// Returns the place of the first event.
    const FIRST: EventCursor = EventCursor {
        event: 0,
        offset: 0,
    };

    /// Goes to the event after this one.
    fn pass(&mut self)
        requires { self.old.event < 2 ^ 64 - 1 }
        ensures event { self.new.event ≡ self.old.event + 1 }
        ensures offset { self.new.offset ≡ 0 }
    {
        self.event += 1;
        self.offset = 0;
    }
}

/// Notes each byte as sent.
fn log_sent(notes: &mut Vec<LinkLogEntry>, bytes: &[u8])
    requires { vec_len notes.old + length bytes.now ≤ vec_capacity notes.old }
    ensures items { notes.new.items ≡ notes.old.items ++ map Gone bytes.now }
    ensures len { vec_len notes.new ≡ vec_len notes.old + length bytes.now }
    ensures capacity { vec_capacity notes.old ≤ vec_capacity notes.new }
{
    for byte in bytes {
        notes.push_reserved(LinkLogEntry::Gone(*byte));
    }
}

/// Hands out the next event, or as many of its bytes as fit.
fn next_event(events: &[Event], front: &mut EventCursor, into: &mut [u8]) -> (LinkLogEntry, Heard)
    requires { 0 < length into.old }
    ensures within { IsWithin result.1 (length into.new) }
    ensures noted { io_event_logged events.now result.0 ≡ io_event_of result.1 into.new }
    ensures front { let left = left_from events.now front.old in
        (io_event_of result.1 into.new ≡ next_doing (length into.new) left)
        × (left_from events.now front.new ≡ left_after (length into.new) left) }
{
    // An empty list is no event, since `Heard::Bytes` has at least one byte. A list that was handed
    // out entirely is passed here, too.
    while let Some(Event::Bytes(bytes)) = events.get(front.event)
        && front.offset >= bytes.len()
    {
        front.pass();
    }
    let event = front.event;
    match events.get(event) {
        Some(Event::Bytes(bytes)) => {
            let from = front.offset;
            let count = copy_from(bytes, from as u64, into);
            // What is left of the list is handed out by the next calls, as a socket does with a
            // small buffer.
            front.offset = from + count;
            (
                LinkLogEntry::Came(event, from, from + count),
                Heard::Bytes(count),
            )
        }
        Some(Event::Slot(slot)) => {
            front.pass();
            (LinkLogEntry::Began(*slot), Heard::Slot(*slot))
        }
        Some(Event::End) => {
            front.pass();
            (LinkLogEntry::Ended, Heard::End)
        }
        // The peer stays closed, however often it is asked.
        None => (LinkLogEntry::Ended, Heard::End),
    }
}
