//! Commands, answers and entries.

use plan_cert::Plan;
use thiserror::Error;

/// A command to the book.
#[derive(Debug, Drop)]
pub enum Command {
    /// To play a plan, asked in a slot: it may begin in the slot after it at the earliest.
    Play {
        /// The slot in which it is asked, at most 2^62.
        slot: u64,
        /// What the play sends, slot by slot.
        plan: Plan,
    },
    /// To end a play, which keeps its first bytes alone.
    Halt {
        /// The place of the entry that admitted the play.
        number: u64,
        /// How many bytes of its plan it keeps.
        keep: u64,
    },
    /// To report what is booked in a slot.
    Look {
        /// The slot, at most 2^62.
        slot: u64,
    },
}

/// An answer of the book.
#[derive(Clone, Copy, Debug, PartialEq, Eq)]
pub enum Answer {
    /// The play is admitted.
    Admitted {
        /// The slot in which it begins.
        start: u64,
    },
    /// The play isn't admitted: a slot has no room for its plan.
    Overflow {
        /// The first such slot.
        slot: u64,
        /// The bytes that are booked in it.
        booked: u64,
        /// The bytes that the plan asks for in it.
        asked: u64,
    },
    /// The play is halted.
    Halted,
    /// What is booked in a slot.
    Looked {
        /// The slot up to which the book has come.
        now: u64,
        /// The slot that was looked at: the one asked for, or `now` where that is later.
        at: u64,
        /// The bytes that are booked in it.
        booked: u64,
    },
}

/// An entry of the journal. Its place, from 0, is the number of entries before it.
#[derive(Debug, Drop)]
pub struct Entry {
    /// The number of who asked.
    pub maker: u32,
    /// What was asked.
    pub command: Command,
    /// What was answered.
    pub answer: Answer,
}

/// The refusal of a command: the journal has no room for an entry beyond those that the open plays
/// will need for their halts. Nothing was changed.
#[derive(Clone, Copy, Debug, PartialEq, Eq, Error)]
#[error("the journal is full: {entries} entries, {live} open plays")]
pub struct Full {
    /// How many entries the journal has.
    pub entries: u64,
    /// How many plays are open.
    pub live: u64,
}

/// An entry that was made.
#[derive(Clone, Copy, Debug, PartialEq, Eq)]
pub struct Noted {
    /// Its place in the journal, from 0; the number of the play where one was admitted.
    pub place: u64,
    /// Its answer.
    pub answer: Answer,
}

/// The refusal of a play: the journal has no room for it. Its plan is handed back.
#[derive(Debug, Drop, Error)]
#[error("{full}")]
pub struct PlayFull {
    /// The plan that was asked for.
    pub plan: Plan,
    /// The entries and the open plays.
    pub full: Full,
}
