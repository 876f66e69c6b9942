//! Where the line of segments bends: its slope may rise only on the upper curve and fall only on
//! the lower one.

ghost use Rattle.std.specs.Prelude.{ℕ, ◌≡◌, ◌+◌, ◌↔◌, IsTrue, MatchOption};
ghost use Rattle.slope_frac.specs.SlopeOrder.{IsLessSteep, IsEquallySteep};
ghost use Rattle.cert_check.specs.ExactLine.{slope_of};
ghost use Rattle.cert_check.specs.First.{IsFirst};
ghost use Rattle.cert_check.specs.CertFaults.{IsEqualAt};
ghost use Rattle.cert_check.specs.CheckerSteps.{AddsUp, Bends, IsBendOff, curve_for};

use plan_cert::Segment;
use slope_frac::{Slope, compare};
use wire_curve::Curves;

/// The first segment that has the slope of the next one.
pub(crate) fn first_equal(segments: &[Segment]) -> Option<u64>
    ensures { MatchOption result ((i : ℕ) →
        ¬ IsEqualAt segments.now i) (IsFirst (IsEqualAt segments.now)) }
{
    // The last segment has none after it. Segments of one slope are one segment, and a plan has one
    // text.
    for i in 0..segments.len().saturating_sub(1) {
        if stays_level(segments[i], segments[i + 1]) {
            return Some(i as u64);
        }
    }
    None
}

/// The two ways in which a line may bend.
#[derive(Clone, Copy)]
pub(crate) enum Bend {
    Rise,
    Fall,
}

/// The first segment after which the line bends so off its curve: rises off the upper one, or falls
/// off the lower one.
pub(crate) fn first_bend_off(bend: Bend, curves: &Curves, segments: &[Segment]) -> Option<u64>
    requires { AddsUp curves.now.from curves.now.low.items curves.now.up.items segments.now }
    ensures { let curve = curve_for bend curves.now.low.items curves.now.up.items in
        MatchOption result ((i : ℕ) → ¬ IsBendOff bend curves.now.from curve segments.now i)
        (IsFirst (IsBendOff bend curves.now.from curve segments.now)) }
{
    let curve = curve_of(bend, curves);
    let mut place = 0;
    let mut height = curves.from;
    for i in 0..segments.len().saturating_sub(1) {
        place += segments[i].slots as usize;
        height += segments[i].bytes;
        // The rate may rise only where the client's buffer is full: elsewhere sending more before
        // would make the rise smaller. It may fall only where the client has just what it needs:
        // elsewhere sending less before would make the fall smaller.
        let off = height != curve[place - 1];
        if off && bends(bend, segments[i], segments[i + 1]) {
            return Some(i as u64);
        }
    }
    None
}

/// The curve on which the line may bend so.
fn curve_of(bend: Bend, curves: &Curves) -> &[u64]
    ensures { result.now ≡ curve_for bend curves.now.low.items curves.now.up.items }
{
    match bend {
        Bend::Rise => curves.up.as_slice(),
        Bend::Fall => curves.low.as_slice(),
    }
}

/// Whether the slope changes so from one segment to the next.
fn bends(bend: Bend, before: Segment, after: Segment) -> bool
    ensures { IsTrue result ↔ Bends bend before after }
{
    match bend {
        Bend::Rise => rises(before, after),
        Bend::Fall => rises(after, before),
    }
}

/// The slope of a segment.
fn slope(segment: Segment) -> Slope
    ensures { result ≡ slope_of segment }
{
    Slope {
        bytes: segment.bytes,
        slots: segment.slots,
    }
}

/// Whether the first slope is less than the second.
fn rises(before: Segment, after: Segment) -> bool
    ensures { IsTrue result ↔ IsLessSteep (slope_of before) (slope_of after) }
{
    compare(slope(before), slope(after)).is_lt()
}

/// Whether the slopes are equal.
fn stays_level(before: Segment, after: Segment) -> bool
    ensures { IsTrue result ↔ IsEquallySteep (slope_of before) (slope_of after) }
{
    compare(slope(before), slope(after)).is_eq()
}
