//! The steps of a capacity.

ghost use Rattle.std.specs.Prelude.{◌≡◌, ◌<◌, ◌++◌, ◌∷◌, [], length};

use slot_calendar::{CapStep, MAX_STEPS};
use std::marker::Model;

/// Up to 64 steps of a capacity, each from its slot on, in bytes a slot. They are held without
/// memory of their own.
///
/// Contracts see the list of the steps.
#[derive(Debug, Drop)]
pub struct Steps {
    // An array, so that arguments are read without memory: reading them has no other failure than a
    // usage error.
    steps: [CapStep; MAX_STEPS],
    count: usize,
}

impl Model for Steps {
    ghost use Rattle.std.specs.Prelude.{List, take, ◌≤◌};
    ghost use Rattle.slot_calendar.specs.declared.profiles.CapStep.{CapStep};
    ghost use Rattle.slot_calendar.specs.declared.profiles.TheConstants.{MAX_STEPS};

    ghost Value = { List CapStep };

    ghost view = { λ s. take s.count s.steps };

    ghost invariant = { λ s. s.count ≤ MAX_STEPS };
}

impl Steps {
    /// No steps.
    pub(crate) fn new() -> Steps
        ensures { result ≡ [] }
    {
        Steps {
            steps: [CapStep { from: 0, bytes: 0 }; MAX_STEPS],
            count: 0,
        }
    }

    /// Returns the steps, by rising slots.
    pub fn as_slice(&self) -> &[CapStep]
        ensures { result.now ≡ self.now }
    {
        &self.steps[..self.count]
    }

    /// Puts a step after these.
    pub(crate) fn push(&mut self, step: CapStep)
        requires { length self.old < MAX_STEPS }
        ensures { self.new ≡ self.old ++ step ∷ [] }
    {
        self.steps[self.count] = step;
        self.count += 1;
    }
}
