//! Points of the curves, and the order of the slopes at which one point sees others.
//!
//! A place is at most [`MAX_PLACE`] and a height at most [`MAX_BYTES`], so no product or sum here
//! passes 2^62 and 64 bits serve. `slope_frac` compares any two slopes, which takes 128.

ghost use Rattle.std.specs.Prelude.{◌≡◌, ◌+◌, ◌-◌, ◌*◌, ◌<◌, ◌≤◌, MatchBool, length};
ghost use Rattle.taut_plan.specs.Slopes.{IsWithin, IsInside, AllFit, Fits, other_side};
ghost use Rattle.taut_plan.specs.Links.{IsEdge, IsPassed, IsKept};
ghost use Rattle.taut_plan.specs.Chain.{on_curve};
ghost use Rattle.taut_plan.specs.CurveSides.{side_of};

use vod_base::MAX_BYTES;
use wire_curve::Curves;

/// The last place that a point may have. A plan has fewer slots.
pub(crate) const MAX_PLACE: u64 = 1 << 20;

/// A point in the plane of slots and bytes. Place k is the end of slot k - 1, and place 0 the
/// start.
#[derive(Clone, Copy)]
pub(crate) struct Point {
    /// In slots from the start.
    pub(crate) place: u64,
    /// In bytes sent in all.
    pub(crate) height: u64,
}

/// A point of a chain, and the edge that leads to it from the point before.
#[derive(Clone, Copy)]
pub(crate) struct Link {
    pub(crate) point: Point,
    /// The slots from the point before.
    pub(crate) slots: u64,
    /// The bytes from the point before.
    pub(crate) bytes: u64,
}

impl Link {
    /// The edge from a point to a later one that is as high.
    #[inline(always)]
    pub(crate) fn new(first: Point, point: Point) -> Link
        requires later { first.place ≤ point.place }
        requires higher { first.height ≤ point.height }
        ensures point { result.point ≡ point }
        ensures edge { IsEdge first result }
    {
        Link {
            point,
            slots: point.place - first.place,
            bytes: point.height - first.height,
        }
    }

    /// The edge from the apex. On the lower side the apex may be the higher point: the edge then
    /// counts as level, since a next point, which is never lower than this one, passes either.
    #[inline(always)]
    pub(crate) fn from_apex(apex: Point, point: Point) -> Link
        ensures point { result.point ≡ point }
        ensures edge { IsEdge apex result }
    {
        Link {
            point,
            slots: point.place.saturating_sub(apex.place),
            bytes: point.height.saturating_sub(apex.height),
        }
    }
}

/// One of the two curves.
#[derive(Clone, Copy)]
pub(crate) enum Side {
    /// What must have been sent.
    Lower,
    /// What may have been sent.
    Upper,
}

impl Side {
    /// The other one.
    pub(crate) fn other_side(self) -> Side
        ensures { result ≡ other_side self }
    {
        match self {
            Side::Lower => Side::Upper,
            Side::Upper => Side::Lower,
        }
    }
}

/// The point of a curve at the end of a slot.
#[inline(always)]
pub(crate) fn point_at(curves: &Curves, side: Side, slot: usize) -> Point
    requires low { slot < length curves.now.low.items }
    requires up { slot < length curves.now.up.items }
    ensures { result ≡ on_curve (side_of curves.now side) (slot + 1) }
{
    let height = match side {
        Side::Lower => curves.low[slot],
        Side::Upper => curves.up[slot],
    };
    Point {
        place: slot as u64 + 1,
        height,
    }
}

/// Whether the point that an edge leads to no longer stands out, where a later point is to come
/// beyond it: whether the slope from it to that point is at least that of its edge on the lower
/// side, and at most that on the upper side.
#[inline(always)]
pub(crate) fn is_passed(side: Side, link: Link, point: Point) -> bool
    // needs: a later point that isn't lower, and numbers whose products fit into 64 bits
    requires later { link.point.place ≤ point.place }
    requires higher { link.point.height ≤ point.height }
    requires slots { link.slots ≤ MAX_PLACE }
    requires bytes { link.bytes ≤ MAX_BYTES }
    requires fits { Fits point }
    ensures { MatchBool result (IsPassed side link point) (IsKept side link point) }
{
    // Cross products stand for the two slopes: each is a slope times both numbers of slots.
    let rise = link.slots * (point.height - link.point.height);
    let line = (point.place - link.point.place) * link.bytes;
    // A point on the line counts as passed: the latest of the points in a line is the corner, so
    // that neighbouring segments differ in slope.
    match side {
        Side::Lower => is_at_most(line, rise),
        Side::Upper => is_at_most(rise, line),
    }
}

/// Whether the first number is at most the other one. The contract has both cases, as
/// [`is_passed`] and [`is_inside`] need them.
#[inline(always)]
fn is_at_most(one: u64, other: u64) -> bool
    ensures { MatchBool result (one ≤ other) (other < one) }
{
    one <= other
}

/// Whether, seen from the first point, the middle one stands strictly inside the last one: below
/// the line to it on the lower side, and above the line to it on the upper side.
#[inline(always)]
pub(crate) fn is_inside(side: Side, first: Point, middle: Point, last: Point) -> bool
    requires begins { first.place ≤ middle.place }
    requires ends { middle.place ≤ last.place }
    requires fit { AllFit first middle last }
    ensures { MatchBool result (IsInside side first middle last) (IsWithin side first last middle) }
{
    let (line, point) = weights(first, middle, last);
    match side {
        Side::Lower => !is_at_most(line, point),
        Side::Upper => !is_at_most(point, line),
    }
}

/// The heights at the middle place of the straight line from the first point to the last, and of
/// the middle point, both times the places from the first to the last: at most 2^62.
#[inline(always)]
fn weights(first: Point, middle: Point, last: Point) -> (u64, u64)
    requires begins { first.place ≤ middle.place }
    requires ends { middle.place ≤ last.place }
    requires fit { AllFit first middle last }
    ensures line { result.0
        ≡ (last.place - middle.place) * first.height + (middle.place - first.place) * last.height }
    ensures point { result.1 ≡ (last.place - first.place) * middle.height }
{
    // No quotient is taken, so points near the line are judged exactly.
    let before = middle.place - first.place;
    let beyond = last.place - middle.place;
    (
        beyond * first.height + before * last.height,
        (last.place - first.place) * middle.height,
    )
}
