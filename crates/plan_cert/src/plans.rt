//! A plan: segments that are small, none of them empty.

ghost use Rattle.std.specs.Prelude.{◌≡◌, ◌↔◌, slice_index, IsTrue, IfOk};
ghost use Rattle.plan_cert.specs.PlanSlots.{plan_slots, total_slots, total_bytes, sum_through};
ghost use Rattle.plan_cert.specs.Plan.{IsPlan};

use crate::Segment;
use crate::segments::{SegmentPrefix, slot_after, sum_after};
use crate::sums::{total_bytes, total_slots};
use std::marker::Model;
use vod_base::{MAX_BYTES, MAX_SLOTS, NoMemory};

/// A list of segments that a server can follow: none is empty, and together they have at most
/// 1,000,000 slots and at most 2^42 bytes. Its slots are those of its segments, one after the
/// other.
///
/// [`Plan::sum_at`] and [`Plan::slot_bytes`] pass over the segments at each call. Who asks slot
/// after slot uses a [`crate::PlanCursor`].
#[derive(Debug, Drop)]
pub struct Plan {
    segments: Vec<Segment>,
    slots: u64,
    bytes: u64,
}

impl Model for Plan {
    ghost use Rattle.std.specs.Prelude.{List};
    ghost use Rattle.plan_cert.specs.declared.Segment.{Segment};
    ghost use Rattle.plan_cert.specs.Plan.{IsPlan, HasSums};

    ghost Value = { List Segment };

    ghost view = { λ p. p.segments.items };

    ghost invariant = { λ p. HasSums p.segments.items p.slots p.bytes };
}

impl Plan {
    /// Returns whether these segments make a plan: none is empty, and they have at most
    /// [`MAX_SLOTS`] slots and [`MAX_BYTES`] bytes.
    pub fn is_allowed(segments: &[Segment]) -> bool
        ensures { IsTrue result ↔ IsPlan segments.now }
    {
        let mut slots = 0;
        let mut bytes = 0;
        for segment in segments {
            // Compared with what is left of the limits: segments of any numbers are judged without
            // overflow.
            if segment.slots == 0
                || segment.slots > MAX_SLOTS - slots
                || segment.bytes > MAX_BYTES - bytes
            {
                return false;
            }
            slots += segment.slots;
            bytes += segment.bytes;
        }
        true
    }

    /// Makes a plan of these segments, which [`Plan::is_allowed`] allows. One pass over them.
    pub fn new(segments: Vec<Segment>) -> Plan
        requires { IsPlan segments.items }
        ensures { result ≡ segments.items }
    {
        // Counted once, here. Both sums of a plan are within its limits, so they fit into 64 bits.
        let slots = total_slots(segments.as_slice()) as u64;
        let bytes = total_bytes(segments.as_slice()) as u64;
        Plan {
            segments,
            slots,
            bytes,
        }
    }

    /// Returns the segments.
    pub fn segments(&self) -> &[Segment]
        ensures value { result.now ≡ self.now }
        ensures plan { IsPlan self.now }
    {
        self.segments.as_slice()
    }

    /// Returns how many slots it has, in constant time.
    pub fn slots(&self) -> u64
        ensures { result ≡ total_slots self.now }
    {
        self.slots
    }

    /// Returns how many bytes it sends in all, in constant time.
    pub fn bytes(&self) -> u64
        ensures { result ≡ total_bytes self.now }
    {
        self.bytes
    }

    /// Returns the bytes that it sends through this slot, from its first one on; past its end all
    /// of its bytes. One pass over the segments, and none over slots.
    pub fn sum_at(&self, slot: u64) -> u64
        ensures { result ≡ sum_through self.now slot }
    {
        sum_after(self.segments.as_slice(), &mut SegmentPrefix::new(), slot)
    }

    /// Returns the bytes that it sends in this slot; 0 past its end. One pass over the segments,
    /// and none over slots.
    pub fn slot_bytes(&self, slot: u64) -> u64
        ensures { result ≡ slice_index (plan_slots self.now) slot }
    {
        slot_after(self.segments.as_slice(), &mut SegmentPrefix::new(), slot)
    }

    /// Copies the plan: another one of the same segments.
    ///
    /// # Errors
    ///
    /// [`NoMemory`] where there is none for the segments.
    pub fn copy(&self) -> Result<Plan, NoMemory>
        ensures { IfOk result (λ plan. plan ≡ self.now) }
    {
        let segments = Vec::from_slice(*self.segments.allocator(), self.segments.as_slice())?;
        Ok(Plan {
            segments,
            slots: self.slots,
            bytes: self.bytes,
        })
    }
}
