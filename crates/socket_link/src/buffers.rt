//! Bytes that wait to be written.

ghost use Rattle.std.specs.Prelude.{◌≡◌, ◌+◌, ◌-◌, ◌<◌, ◌≤◌, ◌++◌, [], length, take, drop, min};
ghost use Rattle.std.specs.Prelude.{vec_capacity, IfOk};

use std::alloc::{AllocError, Global};
use std::marker::Model;
use vod_base::move_to_front;

/// Bytes that wait to be written, in a buffer whose room is taken when it is made. Contracts see
/// the list of these bytes.
#[derive(Drop)]
pub(crate) struct WriteBuffer {
    bytes: Vec<u8>,
    start: usize,
}

/// The most bytes that wait to be written: 16 KiB. A slot of 40 ms of a film of 3 Mbit/s leaves in
/// one write, and a late session, which sends several slots at once, touches no more memory. How
/// much is read at once (`MAX_READ_BYTES`) is another number, which is the same only by chance.
const ROOM: usize = 16_384;

impl Model for WriteBuffer {
    ghost use Rattle.std.specs.Prelude.{◌≤◌, ℕ, List, length, drop, vec_capacity};
    ghost use Rattle.socket_link.specs.declared.buffers.TheConstants.{ROOM};

    ghost Value = { List ℕ };

    ghost view = { λ g. drop g.start g.bytes.items };

    ghost invariant = { λ g. (g.start ≤ length g.bytes.items)
        × (length g.bytes.items ≤ ROOM) × (ROOM ≤ vec_capacity g.bytes) };
}

impl WriteBuffer {
    /// An empty buffer. No other call takes memory.
    pub(crate) fn new(alloc: Global) -> Result<WriteBuffer, AllocError>
        ensures { IfOk result (λ gathered. gathered ≡ []) }
    {
        Ok(WriteBuffer {
            bytes: Vec::with_capacity(alloc, ROOM)?,
            start: 0,
        })
    }

    /// The bytes that wait.
    pub(crate) fn waiting_bytes(&self) -> &[u8]
        ensures { result.now ≡ self.now }
    {
        &self.bytes[self.start..]
    }

    /// Appends as many of the bytes as there is room for, and returns how many.
    pub(crate) fn put(&mut self, bytes: &[u8]) -> usize
        ensures count { result ≡ min (length bytes.now) (ROOM - length self.old) }
        ensures waiting { self.new ≡ self.old ++ take result bytes.now }
    {
        let count = bytes.len().min(ROOM - (self.bytes.len() - self.start));
        // Bytes are moved only where the end of the buffer is too short for the new ones. Once all
        // bytes are written the buffer is empty, so this is rare.
        if count > ROOM - self.bytes.len() {
            move_to_front(&mut self.bytes, self.start);
            self.start = 0;
        }
        match self.bytes.extend_from_slice(&bytes[..count]) {
            Ok(()) => count,
            // Can't come: the buffer got room for ROOM bytes at its start, and here no more are in
            // it.
            Err(_) => unreachable!(),
        }
    }

    /// Drops the first `count` waiting bytes. Once no byte waits, the start of the buffer is used
    /// again, so that no more of its memory is touched than waited at once.
    pub(crate) fn drop_front(&mut self, count: usize)
        requires { count ≤ length self.old }
        ensures { self.new ≡ drop count self.old }
    {
        self.start += count;
        if self.start == self.bytes.len() {
            self.bytes.clear();
            self.start = 0;
        }
    }
}
