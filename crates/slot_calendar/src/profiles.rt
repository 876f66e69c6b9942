//! The capacity of a link over its slots.

ghost use Rattle.std.specs.Prelude.{◌≡◌, ◌+◌, ◌^◌, ◌-◌, ◌<◌, ◌≤◌, ◌↔◌, ℕ, [], ◌∷◌, length, IsTrue};
ghost use Rattle.std.specs.Prelude.{IfOk};
ghost use Rattle.slot_calendar.specs.Profiles.{AreAscending, AreSmall, IsProfile, IsCapacity};
ghost use Rattle.slot_calendar.specs.Profiles.{IsSpan, capacity_at};

use std::alloc::Global;
use std::marker::Model;
use vod_base::NoMemory;

/// A step of the capacity: from slot `from` on, up to the next step, each slot has room for `bytes`
/// bytes.
#[derive(Clone, Copy, Debug, PartialEq, Eq)]
pub struct CapStep {
    /// The step's first slot.
    pub from: u64,
    /// The capacity in bytes a slot.
    pub bytes: u64,
}

/// The most steps of a profile.
pub const MAX_STEPS: usize = 64;

/// The greatest capacity in bytes a slot.
pub const MAX_CAPACITY: u64 = 1 << 42;

/// The capacity of a link over its slots: 1 to 64 steps, the first from slot 0, strictly ascending,
/// each of at most 2^42 bytes a slot.
///
/// Contracts see the list of the steps.
#[derive(Debug, Drop)]
pub struct Profile {
    steps: Vec<CapStep>,
}

impl Model for Profile {
    ghost use Rattle.std.specs.Prelude.{List};
    ghost use Rattle.slot_calendar.specs.declared.profiles.CapStep.{CapStep};
    ghost use Rattle.slot_calendar.specs.Profiles.{IsProfile};

    ghost Value = { List CapStep };

    ghost view = { λ p. p.steps.items };

    ghost invariant = { λ p. IsProfile p.steps.items };
}

/// The capacity from a slot up to the slot `until`, where it may change.
#[derive(Clone, Copy)]
pub(crate) struct Span {
    /// The capacity in bytes a slot.
    pub(crate) bytes: u64,
    /// The first slot where it may be another one.
    pub(crate) until: u64,
}

impl Profile {
    /// Returns whether these steps make a profile: 1 to [`MAX_STEPS`] of them, the first from slot
    /// 0, strictly ascending, each of at most [`MAX_CAPACITY`] bytes.
    pub fn is_allowed(steps: &[CapStep]) -> bool
        ensures { IsTrue result ↔ IsProfile steps.now }
    {
        // A first step from slot 0 and ascending ones: then each slot has exactly one capacity.
        !steps.is_empty()
            && steps.len() <= MAX_STEPS
            && steps[0].from == 0
            && ascend(steps)
            && are_small(steps)
    }

    /// Makes a profile of these steps, which [`Profile::is_allowed`] allows.
    pub fn new(steps: Vec<CapStep>) -> Profile
        requires { IsProfile steps.items }
        ensures { result ≡ steps.items }
    {
        Profile { steps }
    }

    /// Makes a profile with the same capacity in all slots, at most [`MAX_CAPACITY`] bytes in each.
    ///
    /// # Errors
    ///
    /// [`NoMemory`] where there is none for its one step.
    pub fn flat(alloc: Global, bytes: u64) -> Result<Profile, NoMemory>
        requires { bytes ≤ MAX_CAPACITY }
        ensures { IfOk result (λ profile. profile ≡ record { from = 0; bytes = bytes } ∷ []) }
    {
        let step = CapStep { from: 0, bytes };
        let steps = Vec::from_slice(alloc, &[step])?;
        Ok(Profile { steps })
    }

    /// Returns the steps.
    pub fn steps(&self) -> &[CapStep]
        ensures value { result.now ≡ self.now }
        ensures profile { IsProfile self.now }
    {
        self.steps.as_slice()
    }

    /// Returns the capacity of a slot in bytes: that of the last step that begins at or before it.
    pub fn at(&self, slot: u64) -> u64
        ensures value { result ≡ capacity_at self.now slot }
        ensures last { IsCapacity self.now slot result }
    {
        span_at(self.steps.as_slice(), slot).bytes
    }

    /// The capacity of a slot, and up to where it stays.
    pub(crate) fn span(&self, slot: u64) -> Span
        requires { slot < 2 ^ 64 - 1 }
        ensures span { IsSpan self.now slot result.bytes result.until }
        ensures small { result.bytes ≤ MAX_CAPACITY }
    {
        span_at(self.steps.as_slice(), slot)
    }
}

/// Whether each step begins after the one before it.
fn ascend(steps: &[CapStep]) -> bool
    ensures { IsTrue result ↔ AreAscending steps.now }
{
    steps.windows(2).all(|pair| pair[0].from < pair[1].from)
}

/// Whether no step is above the greatest capacity.
fn are_small(steps: &[CapStep]) -> bool
    ensures { IsTrue result ↔ AreSmall steps.now }
{
    steps.iter().all(|step| step.bytes <= MAX_CAPACITY)
}

/// The capacity of a slot, and up to where it stays: the next step's first slot, or the greatest
/// number.
fn span_at(steps: &[CapStep], slot: u64) -> Span
    requires { IsProfile steps.now }
    ensures here { IsCapacity steps.now slot result.bytes }
    ensures some { slot < 2 ^ 64 - 1 → slot < result.until }
    ensures same { (u : ℕ) → slot ≤ u → u < result.until → IsCapacity steps.now u result.bytes }
{
    let mut bytes = 0;
    for step in steps {
        // The steps ascend, so the first one after the slot ends the search.
        if step.from > slot {
            return Span {
                bytes,
                until: step.from,
            };
        }
        bytes = step.bytes;
    }
    // The last step has no end. The greatest number stands for it, which no booked slot reaches.
    Span {
        bytes,
        until: u64::MAX,
    }
}
