//! A walk along the line of segments, slot by slot, between the two curves.

ghost use Rattle.std.specs.Prelude.{◌≡◌, ◌+◌, ◌*◌, ◌^◌, ◌<◌, ◌≤◌, length};
ghost use Rattle.cert_check.specs.CheckerSteps.{AddsUp, next_walk, IsFirstExit};
ghost use Rattle.cert_check.specs.ExactLine.{segment_at};

use plan_cert::Segment;
use wire_curve::Curves;

/// Where the exact line first leaves the curves.
#[derive(Clone, Copy)]
pub(crate) enum Outside {
    /// It is below the lower curve at the end of this slot.
    Below(u64),
    /// It is nowhere below the lower curve, and above the upper one at the end of this slot.
    Above(u64),
    /// Nowhere.
    Nowhere,
}

/// Where the exact line first leaves the curves, by one pass over the slots.
pub(crate) fn first_outside(curves: &Curves, segments: &[Segment]) -> Outside
    requires { AddsUp curves.now.from curves.now.low.items curves.now.up.items segments.now }
    ensures { IsFirstExit curves.now.from curves.now.low.items curves.now.up.items segments.now
        result }
{
    let low = curves.low.as_slice();
    let up = curves.up.as_slice();
    let mut walk = Walk {
        index: 0,
        passed: 0,
        height: curves.from,
    };
    let mut above = None;
    for t in 0..low.len() {
        walk = next_walk(walk, segments);
        let segment = segments[walk.index];
        let height = scaled_height(walk, segment);
        // Both sides are multiplied by the segment's slots: the line is compared exactly, without a
        // quotient.
        if height < u128::from(low[t]) * u128::from(segment.slots) {
            return Outside::Below(t as u64);
        }
        // A slot below the lower curve comes first in the order of faults, also after one above. So
        // an exit above is only noted until the walk is over.
        if above.is_none() && height > u128::from(up[t]) * u128::from(segment.slots) {
            above = Some(t as u64);
        }
    }
    match above {
        Some(t) => Outside::Above(t),
        None => Outside::Nowhere,
    }
}

/// A walk along the line: `passed` slots into segment `index`, which begins at `height`.
#[derive(Clone, Copy)]
struct Walk {
    index: usize,
    passed: u64,
    height: u64,
}

/// One slot further.
fn next_walk(walk: Walk, segments: &[Segment]) -> Walk
    requires inside { walk.index < length segments.now }
    requires more { walk.passed ≡ (segment_at segments.now walk.index).slots →
        walk.index + 1 < length segments.now }
    requires within { walk.passed ≤ (segment_at segments.now walk.index).slots }
    requires fits { walk.height + (segment_at segments.now walk.index).bytes < 2 ^ 64 }
    ensures { result ≡ next_walk segments.now walk }
{
    let segment = segments[walk.index];
    if walk.passed == segment.slots {
        Walk {
            index: walk.index + 1,
            passed: 1,
            height: walk.height + segment.bytes,
        }
    } else {
        Walk {
            index: walk.index,
            passed: walk.passed + 1,
            height: walk.height,
        }
    }
}

/// The exact height of the line, times the slots of the segment.
fn scaled_height(walk: Walk, segment: Segment) -> u128
    requires within { walk.passed ≤ segment.slots }
    requires few { segment.slots ≤ 1000000 }
    ensures { result ≡ walk.height * segment.slots + walk.passed * segment.bytes }
{
    u128::from(walk.height) * u128::from(segment.slots)
        + u128::from(walk.passed) * u128::from(segment.bytes)
}
