//! A sink in memory.

ghost use Rattle.std.specs.Prelude.{◌≡◌, ◌+◌, ◌<◌, ◌++◌, ◌||◌, [], length, nat_lt, if◌then◌else◌};
ghost use Rattle.std.specs.Prelude.{IfOk, is_err};
ghost use Rattle.vod_base.specs.Memory.{SinkState, call_fails};
ghost use Rattle.vod_base.specs.IoState.{one_more};

use crate::appends::append_reserved;
use crate::errors::{NoMemory, SinkFault};
use crate::fault_injection::counted_call;
use crate::output::Sink;
use std::alloc::Global;
use std::fmt::{self, Formatter, Write};
use std::marker::Model;

/// A sink in memory, whose calls fail at given numbers and if its room would be passed.
#[derive(Drop)]
pub struct MemorySink {
    kept: Vec<u8>,
    room: usize,
    failing: Vec<u64>,
    calls: u64,
    faults: u64,
}

impl Model for MemorySink {
    ghost use Rattle.std.specs.Prelude.{◌≤◌, vec_len, vec_capacity};
    ghost use Rattle.vod_base.specs.Memory.{SinkState};

    ghost Value = { SinkState };

    ghost view = { λ s.
        record {
          bytes = s.kept.items;
          room = s.room;
          failing = s.failing.items;
          calls = s.calls;
          faults = s.faults;
        } };

    ghost invariant = { λ s. (vec_len s.kept ≤ s.room) × (s.room ≤ vec_capacity s.kept) };
}

impl fmt::Debug for MemorySink {
    fn fmt<W: Write>(&self, f: &mut Formatter<W>) -> fmt::Result {
        f.write_str("MemorySink { .. }")
    }
}

impl MemorySink {
    /// Returns a sink that holds up to `room` bytes, all reserved here. `failing` has the numbers,
    /// from 1, of the calls that fail.
    ///
    /// # Errors
    ///
    /// [`NoMemory`] if there is none for the room.
    pub fn new(alloc: Global, room: usize, failing: Vec<u64>) -> Result<MemorySink, NoMemory>
        ensures { IfOk result (λ sink. sink ≡
            record { bytes = []; room = room; failing = failing.items; calls = 0; faults = 0 }) }
    {
        let kept = Vec::with_capacity(alloc, room)?;
        Ok(MemorySink {
            kept,
            room,
            failing,
            calls: 0,
            faults: 0,
        })
    }

    /// Returns the bytes that were written.
    pub fn bytes(&self) -> &[u8]
        ensures { result.now ≡ self.now.bytes }
    {
        self.kept.as_slice()
    }
}

impl Sink for MemorySink {
    ghost use Rattle.std.specs.Prelude.{Some};

    ghost faults = { λ s. s.faults };

    ghost written = { λ s. Some s.bytes };

    fn write_all(&mut self, bytes: &[u8]) -> Result<(), SinkFault>
        ensures fails { is_err result ≡
            (call_fails self.old.failing self.old.calls
            || nat_lt self.old.room (length self.old.bytes + length bytes.now)) }
        ensures state { self.new ≡
            (if is_err result
            then record self.old {
              calls = one_more self.old.calls;
              faults = one_more self.old.faults;
            }
            else record self.old {
              calls = one_more self.old.calls;
              bytes = self.old.bytes ++ bytes.now;
            }) }
    {
        let failed = counted_call(&mut self.calls, &self.failing);
        // All bytes or none, where the trait allows any prefix: a test then knows what was written.
        if failed || bytes.len() > self.room - self.kept.len() {
            self.faults = self.faults.saturating_add(1);
            return Err(SinkFault);
        }
        append_reserved(&mut self.kept, bytes);
        Ok(())
    }
}
