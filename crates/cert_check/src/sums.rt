//! Segments without slots, and the bytes that all segments come to.

ghost use Rattle.std.specs.Prelude.{ℕ, ◌≡◌, ◌+◌, ◌↔◌, IsTrue, MatchOption};
ghost use Rattle.plan_cert.specs.PlanSlots.{total_bytes};
ghost use Rattle.cert_check.specs.CertFaults.{IsEmptyAt};
ghost use Rattle.cert_check.specs.First.{IsFirst};

use plan_cert::{Segment, has_bytes};

/// The first segment without slots.
pub(crate) fn first_empty(segments: &[Segment]) -> Option<u64>
    ensures { MatchOption result ((i : ℕ) →
        ¬ IsEmptyAt segments.now i) (IsFirst (IsEmptyAt segments.now)) }
{
    let i = segments.iter().position(|segment| segment.slots == 0)?;
    Some(i as u64)
}

/// Whether the bytes of the segments lead from `from` to `total`.
pub(crate) fn leads_to(from: u64, segments: &[Segment], total: u64) -> bool
    ensures { IsTrue result ↔ (from + total_bytes segments.now ≡ total) }
{
    // Compared first: without it the difference could be negative.
    from <= total && has_bytes(segments, total - from)
}
