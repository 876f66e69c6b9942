//! The bytes of a connection that wait, and the first element of them.

ghost use Rattle.std.specs.Prelude.{◌≡◌, ◌+◌, ◌-◌, ◌*◌, ◌<◌, ◌≤◌, ◌++◌, [], length, drop, nat_lt};
ghost use Rattle.std.specs.Prelude.{if◌then◌else◌, vec_capacity, IfOk, is_err, Ok, Err};
ghost use Rattle.interleave.specs.Elements.{IsFirst, AreLineEnds, StartsBlock};
ghost use Rattle.interleave.specs.Heads.{is_line_end};
ghost use Rattle.interleave.specs.declared.elements.Step.{Step};

use crate::content_lengths::MAX_BODY_BYTES;
use crate::elements::{BLOCK_START, DemuxFault, Step, is_line_end};
use crate::message_heads::{HeadSearch, MAX_HEAD_BYTES, request_step, search_head};
use std::alloc::Global;
use std::fmt::{self, Formatter, Write};
use std::marker::Model;
use thiserror::Error;
use vod_base::{NoMemory, move_to_front};

/// More than [`MAX_WAITING_BYTES`] bytes would wait.
#[derive(Clone, Copy, Debug, PartialEq, Eq, Error)]
#[error("too many bytes wait")]
pub struct TooMuchInput;

/// The bytes of a connection that wait, and the first element of them (RFC 2326 sections 4, 6 and
/// 10.12).
///
/// Contracts see the list of the waiting bytes.
#[derive(Drop)]
pub struct Demux {
    /// The bytes that wait, after some that were dropped.
    bytes: Vec<u8>,
    /// Where those that wait begin: dropped bytes stay until room is needed.
    start: usize,
    /// What a look found of the request there, so that the next look reads on.
    known: HeadSearch,
}

/// The most bytes that wait in a [`Demux`]. The longest message has 81,920, so a first element that
/// is incomplete always has room for the rest.
pub const MAX_WAITING_BYTES: usize = 131_072;

impl Model for Demux {
    ghost use Rattle.std.specs.Prelude.{ℕ, List, drop};

    ghost Value = { List ℕ };

    ghost use Rattle.interleave.specs.Buffer.{IsBuffer};

    ghost view = { λ d. drop d.start d.bytes.items };

    ghost invariant = { IsBuffer };
}

impl fmt::Debug for Demux {
    fn fmt<W: Write>(&self, f: &mut Formatter<W>) -> fmt::Result {
        f.write_str("Demux { .. }")
    }
}

impl Demux {
    /// Reserves room for [`MAX_WAITING_BYTES`] bytes; no other call takes memory.
    ///
    /// # Errors
    ///
    /// [`NoMemory`] where there is none.
    pub fn new(alloc: Global) -> Result<Demux, NoMemory>
        ensures { IfOk result (λ demux. demux ≡ []) }
    {
        let bytes = Vec::with_capacity(alloc, MAX_WAITING_BYTES)?;
        Ok(Demux {
            bytes,
            start: 0,
            known: HeadSearch::Searched(0),
        })
    }

    /// Returns the bytes that wait.
    pub fn waiting(&self) -> &[u8]
        ensures { result.now ≡ self.now }
    {
        &self.bytes[self.start..]
    }

    /// Appends bytes, or changes nothing where more than [`MAX_WAITING_BYTES`] would wait.
    ///
    /// # Errors
    ///
    /// [`TooMuchInput`] exactly where more than [`MAX_WAITING_BYTES`] bytes would wait.
    pub fn put(&mut self, bytes: &[u8]) -> Result<(), TooMuchInput>
        ensures fault { is_err result ≡ nat_lt MAX_WAITING_BYTES (length self.old + length
            bytes.now) }
        ensures waiting { self.new ≡ (if is_err result then self.old else self.old ++ bytes.now) }
    {
        // Judged first, so that an error changes nothing.
        let waiting = self.bytes.len() - self.start;
        if bytes.len() > MAX_WAITING_BYTES - waiting {
            return Err(TooMuchInput);
        }
        self.start = make_room(&mut self.bytes, self.start, bytes.len());
        match self.bytes.extend_from_slice(bytes) {
            Ok(()) => Ok(()),
            // Never comes: there is room now, and so no memory is taken.
            Err(_) => Err(TooMuchInput),
        }
    }

    /// Returns the first element of the waiting bytes. The bytes stay.
    ///
    /// The answer follows from the waiting bytes alone. What was read of a request is remembered,
    /// so that a call reads on where the last one ended. While the first element is incomplete,
    /// fewer bytes wait than the most of a head and of a body together ([`MAX_HEAD_BYTES`] +
    /// [`MAX_BODY_BYTES`]).
    ///
    /// # Errors
    ///
    /// [`DemuxFault`] where the waiting bytes can't begin a message: the head or the body of the
    /// request at their start is too long.
    pub fn look(&mut self) -> Result<Step, DemuxFault>
        ensures waiting { self.new ≡ self.old }
        ensures first { IsFirst self.old result }
        ensures few { result ≡ Ok Step.More → length self.old < MAX_HEAD_BYTES + MAX_BODY_BYTES }
    {
        let waiting = self.waiting();
        let Some(front) = waiting.first() else {
            return Ok(Step::More);
        };
        // Some clients send empty lines before a request: RFC 2068, section 4.1, asks to skip them.
        if is_line_end(*front) {
            return Ok(Step::Skip(line_ends(waiting)));
        }
        // The names of methods don't begin with `$`, so this byte decides (RFC 2326, section
        // 10.12).
        if *front == BLOCK_START {
            return Ok(block_step(waiting));
        }
        let known = search_head(waiting, self.known)?;
        let step = request_step(waiting, known);
        self.known = known;
        Ok(step)
    }

    /// Drops the first `count` waiting bytes.
    pub fn drop_front(&mut self, count: usize)
        requires { count ≤ length self.old }
        ensures { self.new ≡ drop count self.old }
    {
        self.start += count;
        // What was known is about bytes that are gone. A drop of none keeps it.
        if count > 0 {
            self.known = HeadSearch::Searched(0);
        }
    }
}

/// How many of the first bytes are CR or LF, in a row.
fn line_ends(bytes: &[u8]) -> usize
    ensures { AreLineEnds bytes.now result }
{
    bytes
        .iter()
        .position(|byte| !is_line_end(*byte))
        .unwrap_or(bytes.len())
}

/// The block at the start, where it is complete.
fn block_step(bytes: &[u8]) -> Step
    requires { StartsBlock bytes.now }
    ensures first { IsFirst bytes.now (Ok result) }
    ensures few { result ≡ Step.More → length bytes.now < MAX_HEAD_BYTES + MAX_BODY_BYTES }
{
    if bytes.len() < 4 {
        return Step::More;
    }
    // At most 65,539 bytes, so each block comes to its end in the waiting bytes.
    let length = 4 + usize::from(bytes[2]) * 256 + usize::from(bytes[3]);
    if length <= bytes.len() {
        Step::Block(bytes[1], length)
    } else {
        Step::More
    }
}

/// Makes room for more bytes, and returns where those that wait begin now.
fn make_room(bytes: &mut Vec<u8>, start: usize, more: usize) -> usize
    requires start { start ≤ length bytes.old.items }
    requires most { length bytes.old.items ≤ MAX_WAITING_BYTES }
    requires fits { length bytes.old.items + more ≤ MAX_WAITING_BYTES + start }
    ensures waiting { drop result bytes.new.items ≡ drop start bytes.old.items }
    ensures start { result ≤ length bytes.new.items }
    ensures room { length bytes.new.items + more ≤ MAX_WAITING_BYTES }
    ensures capacity { vec_capacity bytes.new ≡ vec_capacity bytes.old }
{
    if more <= MAX_WAITING_BYTES - bytes.len() {
        return start;
    }
    // Moved only when the end of the buffer is reached, not after each element.
    move_to_front(bytes, start);
    0
}
