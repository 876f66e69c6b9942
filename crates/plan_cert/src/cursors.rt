//! Reading a plan slot by slot, each from where the last one stood.

ghost use Rattle.std.specs.Prelude.{◌≡◌, slice_index};
ghost use Rattle.plan_cert.specs.PlanSlots.{plan_slots, sum_through};

use crate::Plan;
use crate::segments::{SegmentPrefix, slot_after, sum_after};
use std::marker::Model;

/// A plan that is asked for one slot after the other.
///
/// It looks for a slot from the segment of the slot that it was asked for last. So calls whose
/// slots never fall pass over each segment once in all: a million of them, over a plan of 100,000
/// segments, take 1,100,000 steps. A slot before the last one is looked for from the plan's
/// beginning. No call takes memory.
#[derive(Debug, Drop)]
pub struct PlanCursor {
    plan: Plan,
    passed: SegmentPrefix,
}

impl Model for PlanCursor {
    ghost use Rattle.std.specs.Prelude.{List};
    ghost use Rattle.plan_cert.specs.declared.Segment.{Segment};
    ghost use Rattle.plan_cert.specs.Plan.{HasPrefix};

    ghost Value = { List Segment };

    ghost view = { λ c. c.plan };

    ghost invariant = { λ c. HasPrefix c.plan c.passed.segments c.passed.slots c.passed.bytes };
}

impl PlanCursor {
    /// Makes a cursor at the plan's beginning.
    pub fn new(plan: Plan) -> PlanCursor
        ensures { result ≡ plan }
    {
        PlanCursor {
            plan,
            passed: SegmentPrefix::new(),
        }
    }

    /// Returns the plan.
    pub fn plan(&self) -> &Plan
        ensures { result.now ≡ self.now }
    {
        &self.plan
    }

    /// Hands the plan out.
    pub fn into_plan(self) -> Plan
        ensures { result ≡ self }
    {
        self.plan
    }

    /// Returns the bytes that the plan sends through this slot, from its first one on; past its end
    /// all of its bytes.
    pub fn sum_at(&mut self, slot: u64) -> u64
        ensures value { result ≡ sum_through self.old slot }
        ensures plan { self.new ≡ self.old }
    {
        sum_after(self.plan.segments(), &mut self.passed, slot)
    }

    /// Returns the bytes that the plan sends in this slot; 0 past its end.
    pub fn slot_bytes(&mut self, slot: u64) -> u64
        ensures value { result ≡ slice_index (plan_slots self.old) slot }
        ensures plan { self.new ≡ self.old }
    {
        slot_after(self.plan.segments(), &mut self.passed, slot)
    }
}
