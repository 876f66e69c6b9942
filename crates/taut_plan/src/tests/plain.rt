//! The plain planner, kept as a program to compare with: from each corner it looks for the next one
//! by the greatest slope that the lower curve asks for and the least slope that the upper curve
//! allows.

use plan_cert::Segment;
use std::alloc::{AllocError, Global};
use wire_curve::Curves;

/// A place and a height.
type At = (u64, u64);

/// Whether, seen from `from`, the point `a` stands steeper than the point `b`. Meant for small
/// numbers.
fn is_steeper(from: At, a: At, b: At) -> bool {
    let run_a = a.0.wrapping_sub(from.0);
    let run_b = b.0.wrapping_sub(from.0);
    let left = a
        .1
        .wrapping_mul(run_b)
        .wrapping_add(from.1.wrapping_mul(run_a));
    let right = b
        .1
        .wrapping_mul(run_a)
        .wrapping_add(from.1.wrapping_mul(run_b));
    left > right
}

/// The end of the segment that begins at `from`.
fn next_corner(curves: &Curves, from: At) -> At {
    let mut steepest: Option<At> = None;
    let mut flattest: Option<At> = None;
    let mut place = 0u64;
    for (low, up) in curves.low.iter().zip(curves.up.iter()) {
        place = place.wrapping_add(1);
        if place <= from.0 {
            continue;
        }
        let asked = (place, *low);
        let allowed = (place, *up);
        if let Some(corner) = flattest
            && is_steeper(from, asked, corner)
        {
            return corner;
        }
        if let Some(corner) = steepest
            && is_steeper(from, corner, allowed)
        {
            return corner;
        }
        if steepest.is_none_or(|corner| !is_steeper(from, corner, asked)) {
            steepest = Some(asked);
        }
        if flattest.is_none_or(|corner| !is_steeper(from, allowed, corner)) {
            flattest = Some(allowed);
        }
    }
    steepest.unwrap_or(from)
}

pub fn plain_plan(alloc: Global, curves: &Curves) -> Result<Vec<Segment>, AllocError> {
    let mut segments = Vec::new(alloc);
    let mut from = (0u64, curves.from);
    let slots = curves.low.len() as u64;
    for _ in 0..slots {
        if from.0 >= slots {
            break;
        }
        let corner = next_corner(curves, from);
        segments.push(Segment {
            slots: corner.0.wrapping_sub(from.0),
            bytes: corner.1.wrapping_sub(from.1),
        })?;
        from = corner;
    }
    Ok(segments)
}
