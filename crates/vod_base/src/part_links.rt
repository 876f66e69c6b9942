//! The links that a part of a gate in memory gives and gets back.

ghost use Rattle.std.specs.Prelude.{◌≤◌, vec_len};

use crate::memory_links::MemoryLink;

/// What the last `take` answered.
#[derive(Clone, Copy)]
pub(crate) enum TakeResult {
    Nothing,
    Link,
    NoLink,
    Fault,
}

/// A part's links: first those that it hasn't given yet, then those that came back.
#[derive(Drop)]
pub(crate) struct PartLinks {
    pub(crate) number: usize,
    pub(crate) links: Vec<MemoryLink>,
    pub(crate) waiting: usize,
    pub(crate) given: usize,
    pub(crate) last: TakeResult,
    ghost within: { waiting ≤ vec_len links },
}
