//! The part of the taut line that is known, up to its last corner.

ghost use Rattle.std.specs.Prelude.{◌≡◌, ◌≤◌, [], ◌∷◌, ◌++◌, OnOk};
ghost use Rattle.taut_plan.specs.Path.{segment_to};

use crate::points::Point;
use plan_cert::Segment;
use std::alloc::{AllocError, Global};

/// Segments that lead from place 0 to the last corner, which is the funnel's apex.
#[derive(Drop)]
pub(crate) struct Path {
    /// The last corner, or the start.
    pub(crate) apex: Point,
    /// The segments up to it, in order.
    pub(crate) segments: Vec<Segment>,
}

impl Path {
    /// No segment yet.
    pub(crate) fn new(alloc: Global, start: Point) -> Path
        ensures apex { result.apex ≡ start }
        ensures segments { result.segments.items ≡ [] }
    {
        Path {
            apex: start,
            segments: Vec::new(alloc),
        }
    }

    /// Leads on to a corner by a straight segment.
    pub(crate) fn bend_at(&mut self, corner: Point) -> Result<(), AllocError>
        requires later { self.old.apex.place ≤ corner.place }
        requires higher { self.old.apex.height ≤ corner.height }
        ensures apex { OnOk result (self.new.apex ≡ corner) }
        ensures segments { OnOk result
            (self.new.segments.items
            ≡ self.old.segments.items ++ segment_to self.old.apex corner ∷ []) }
    {
        self.segments.push(Segment {
            slots: corner.place - self.apex.place,
            bytes: corner.height - self.apex.height,
        })?;
        self.apex = corner;
        Ok(())
    }
}
