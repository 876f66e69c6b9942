//! The planner: the funnel between the two curves.

ghost use Rattle.std.specs.Prelude.{◌+◌, ◌<◌, ◌≤◌, length, MatchOption, IfOk, OnOk};
ghost use Rattle.wire_curve.specs.SoundCurves.{AreSound};
ghost use Rattle.cert_check.specs.CertFaults.{IsTaut};
ghost use Rattle.cert_check.specs.Optimality.{IsBestPlan};
ghost use Rattle.taut_plan.specs.Slopes.{other_side};
ghost use Rattle.taut_plan.specs.Funnel.{IsFunnel, IsCrossed, IsUncrossed, FirstIsBetween};
ghost use Rattle.taut_plan.specs.Funnel.{FirstFits, other_curve_reach, funnel_reach};
ghost use Rattle.taut_plan.specs.Path.{IsPath, IsTautPath};
ghost use Rattle.taut_plan.specs.CurveSides.{lower_of, upper_of, side_of};

use crate::chains::join;
use crate::paths::Path;
use crate::points::{Point, Side, is_inside, point_at};
use crate::queues::Queue;
use plan_cert::{Plan, Segment};
use std::alloc::{AllocError, Global};
use vod_base::NoMemory;
use wire_curve::Curves;

/// Makes the plan between sound curves: the one list of segments in which `check` finds no fault.
///
/// It reads the curves once. Each slot joins and leaves each of the two chains at most once, so the
/// work is linear in the slots, whatever the curves; the memory is that of the two chains and the
/// segments.
///
/// # Errors
///
/// [`NoMemory`] where there is none for the chains or for the segments. There is no other error.
pub fn plan(alloc: Global, curves: &Curves) -> Result<Plan, NoMemory>
    requires { AreSound curves.now.from curves.now.low.items curves.now.up.items }
    ensures taut { IfOk result (λ plan.
        IsTaut curves.now.from curves.now.low.items curves.now.up.items plan) }

    // It is feasible, no feasible plan sends less above any rate, and no other list of segments is
    // taut.
    ensures best { IfOk result (λ plan.
        IsBestPlan curves.now.from curves.now.low.items curves.now.up.items plan) }
{
    let segments = taut_segments(alloc, curves)?;
    // The taut list is a plan: none of its segments is empty, and the curves bound its slots and
    // bytes.
    Ok(Plan::new(segments))
}

/// Returns the first point of the other chain, where `point` is outside of that chain.
#[inline(always)]
fn crossing(side: Side, apex: Point, others: &Queue, point: Point) -> Option<Point>
    requires between { FirstIsBetween apex others.now point }
    requires fit { FirstFits apex others.now point }
    ensures { MatchOption result
        (IsUncrossed side apex others.now point)
        (λ corner. IsCrossed side apex others.now point corner) }
{
    let corner = others.first()?;
    // Strictly: a corner on the line to the new point is no bend. The segments before and after it
    // could have one slope.
    if is_inside(side, apex, corner, point) {
        Some(corner)
    } else {
        None
    }
}

/// Joins the next slot's end on one side, and bends along the other chain while the new point is
/// outside of it.
#[inline(always)]
fn extend(
    curves: &Curves,
    side: Side,
    path: &mut Path,
    own: &mut Queue,
    others: &mut Queue,
    slot: usize,
) -> Result<(), AllocError>
    // needs: a path up to the apex, and a funnel from it over the slots so far
    requires sound { AreSound curves.now.from curves.now.low.items curves.now.up.items }
    requires slot { slot < length curves.now.low.items }
    requires path { IsPath (lower_of curves.now) (upper_of curves.now) curves.now.from
        path.old.apex path.old.segments.items }
    requires funnel { IsFunnel side (side_of curves.now side) (side_of curves.now (other_side side))
        (funnel_reach slot (other_curve_reach side slot) path.old.apex) own.old others.old }
    // leaves: the path with its new bends, and the funnel over this slot as well
    ensures path { OnOk result (IsPath (lower_of curves.now) (upper_of curves.now) curves.now.from
        path.new.apex path.new.segments.items) }
    ensures funnel { OnOk result
        (IsFunnel side (side_of curves.now side) (side_of curves.now (other_side side))
        (funnel_reach (slot + 1) (other_curve_reach side slot) path.new.apex) own.new others.new) }
    ensures beyond { OnOk result (path.new.apex.place ≤ slot) }
{
    let point = join(curves, side, path.apex, own, slot)?;

    // Where the new point isn't alone in its chain, the first point of that chain is further out
    // and within the other chain, so that the new point can't cross it.
    if own.has_several() {
        return Ok(());
    }
    // No straight line from the apex to the new point stays within the other chain: the plan bends
    // at that chain's first corner, which becomes the apex.
    while let Some(corner) = crossing(side, path.apex, others, point) {
        others.pop_first();
        path.bend_at(corner)?;
    }
    Ok(())
}

/// The segments of the taut line.
fn taut_segments(alloc: Global, curves: &Curves) -> Result<Vec<Segment>, AllocError>
    requires { AreSound curves.now.from curves.now.low.items curves.now.up.items }
    ensures { IfOk result (λ segments.
        IsTautPath (lower_of curves.now) (upper_of curves.now) curves.now.from
        (length curves.now.low.items) segments.items) }
{
    let slots = curves.low.len();
    let mut path = Path::new(
        alloc,
        Point {
            place: 0,
            height: curves.from,
        },
    );
    let mut lower = Queue::new(alloc);
    let mut upper = Queue::new(alloc);
    // The funnel: the apex is the last known corner, and from it the two chains bound all straight
    // lines that stay between the curves so far. Each slot narrows the funnel on both sides.
    for slot in 0..slots {
        extend(curves, Side::Lower, &mut path, &mut lower, &mut upper, slot)?;
        extend(curves, Side::Upper, &mut path, &mut upper, &mut lower, slot)?;
    }
    // Both curves end at one point, and from the apex a straight line reaches it now.
    path.bend_at(point_at(curves, Side::Upper, slots - 1))?;
    Ok(path.segments)
}
