//! The chain along one curve, and how the next place joins it.

ghost use Rattle.std.specs.Prelude.{◌≡◌, ◌+◌, ◌<◌, length, MatchBool, IfOk, OnOk};
ghost use Rattle.wire_curve.specs.SoundCurves.{AreSound};
ghost use Rattle.taut_plan.specs.Chain.{on_curve, IsChain, IsLastDropped, CanAppend, EdgesAscend};
ghost use Rattle.taut_plan.specs.Chain.{EdgesFit};
ghost use Rattle.taut_plan.specs.Slopes.{Fits};
ghost use Rattle.taut_plan.specs.Links.{IsRising, EdgesRise};
ghost use Rattle.taut_plan.specs.CurveSides.{side_of};

use crate::points::{Link, Point, Side, is_passed, point_at};
use crate::queues::Queue;
use std::alloc::AllocError;
use wire_curve::Curves;

/// Joins the end of the next slot to the chain of one side, and returns the point that joined.
#[inline(always)]
pub(crate) fn join(
    curves: &Curves,
    side: Side,
    apex: Point,
    chain: &mut Queue,
    slot: usize,
) -> Result<Point, AllocError>
    // needs: a slot of both curves, and a chain from the apex up to it
    requires low { slot < length curves.now.low.items }
    requires up { slot < length curves.now.up.items }
    requires sound { AreSound curves.now.from curves.now.low.items curves.now.up.items }
    requires apex { Fits apex }
    requires rising { IsRising side apex (on_curve (side_of curves.now side) apex.place) }
    requires chain { IsChain side (side_of curves.now side) slot apex chain.old }
    // leaves: a chain up to the end of this slot, which is its last point
    ensures point { IfOk result (λ point. point ≡ on_curve (side_of curves.now side) (slot + 1)) }
    ensures chain { OnOk result (IsChain side (side_of curves.now side) (slot
        + 1) apex chain.new) }
{
    let point = point_at(curves, side, slot);
    // The plan can bend only at points that stand out of their chain. One that the new point passes
    // will never be a corner, so it is dropped for good.
    while let Some(last) = chain.last_link() {
        if !is_passed(side, last, point) {
            chain.push_link(Link::new(last.point, point))?;
            return Ok(point);
        }
        chain.pop_last();
    }

    // At most one point is left: its edge begins at the apex.
    while is_last_dropped(side, apex, chain, point) {
        chain.pop_last();
    }
    chain.join(point)?;
    Ok(point)
}

/// Whether the chain's last point no longer stands out, where `point` is to come beyond it.
#[inline(always)]
fn is_last_dropped(side: Side, apex: Point, chain: &Queue, point: Point) -> bool
    requires ascend { EdgesAscend apex chain.now point }
    requires fit { EdgesFit apex chain.now point }
    requires rise { EdgesRise side apex chain.now point }
    ensures { MatchBool result
        (IsLastDropped side apex chain.now point)
        (CanAppend side apex chain.now point) }
{
    match chain.last_edge(apex) {
        Some(link) => is_passed(side, link, point),
        None => false,
    }
}
