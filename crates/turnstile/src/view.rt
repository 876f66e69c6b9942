//! What a pass knows.

use admission::Entry;
use slot_calendar::CapStep;
use std::collections::LinkedList;
use std::marker::Model;

/// What stays of a kept value: the steps of the link's capacity and the most entries. No value of
/// it exists at run time.
#[derive(Debug)]
pub struct Terms {
    /// The steps of the capacity.
    pub steps: LinkedList<CapStep>,
    /// The most entries.
    pub limit: u64,
}

/// An entry that a pass made, with its place. No value of it exists at run time.
#[derive(Debug)]
pub struct OwnEntry {
    place: u64,
    entry: Entry,
}

impl Model for OwnEntry {
    ghost use Rattle.admission.specs.Makers.{PlacedEntry};

    ghost Value = { PlacedEntry };

    ghost view = { λ m. record { place = m.place; entry = m.entry } };
}

/// What a pass that was joined had made. No value of it exists at run time.
#[derive(Debug)]
pub struct Joined {
    /// Its number.
    pub number: u32,
    /// Its own entries.
    pub mine: LinkedList<OwnEntry>,
}

/// Where a pass stands: it has no ticket, or waits until its ticket is served, or holds the lock.
#[derive(Debug)]
pub enum PassStage {
    /// It has no ticket.
    Idle,
    /// It waits until this ticket is served.
    Waits(u64),
    /// It holds the lock with this ticket.
    Holds(u64),
}

/// What a pass knows. No value of it exists at run time.
#[derive(Debug)]
pub struct View {
    /// Whether it was joined, and is no more.
    pub spent: bool,
    /// Its number.
    pub number: u32,
    /// Where it stands.
    pub stage: PassStage,
    /// What stays of the kept value.
    pub terms: Terms,
    /// The list as it has seen it.
    pub seen: LinkedList<Entry>,
    /// What a pass that was joined had seen.
    pub told: LinkedList<Entry>,
    /// The terms that it had.
    pub told_terms: Terms,
    /// Its own entries.
    pub mine: LinkedList<OwnEntry>,
    /// How many passes were split from it.
    pub splits: u64,
    /// What those that were joined to it had made.
    pub joined: LinkedList<Joined>,
}
