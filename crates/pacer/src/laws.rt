//! What is sent in each slot, and that in the end it is the entire track.

ghost use Rattle.pacer.specs.Laws.{SendsNothing, DoPartsJoin, OfSteps, SendsNext, SendsTheTrack};
ghost use Rattle.pacer.specs.Laws.{SendsThrough, StopsAtBoundary, IsBoundaryExact, IsDoneExact};
ghost use Rattle.pacer.specs.PacerStates.{IsPacerState, PacerState};

/// What is due in a slot: nothing before the plan's start, and from then on exactly what the plan
/// has through that slot, not a slot earlier or later. Where slots are stepped one after another,
/// each brings its own bytes of the plan; missed ones are made up in the next. A step with a stop
/// sends nothing past the first boundary at or after what was sent.
pub fn law_each_slot_sends_its_plan_bytes()
    ensures before { OfSteps SendsNothing }
    ensures through { OfSteps SendsThrough }
    ensures next { OfSteps SendsNext }
    ensures stop { OfSteps StopsAtBoundary }
{}

/// The bytes of a plan are those of its track from the plan's first one on, however they are parted
/// into slots. What was sent stands at a boundary exactly where it ends with a complete frame or
/// report, or nothing was sent of the track. A play is done exactly where a slot of its plan was
/// stepped and nothing is left of what is kept.
pub fn law_plan_bytes_are_track_bytes()
    ensures parts { (p : PacerState) → IsPacerState p → DoPartsJoin p }
    ensures all { (p : PacerState) → IsPacerState p → SendsTheTrack p }
    ensures boundary { (p : PacerState) → IsPacerState p → IsBoundaryExact p }
    ensures done { (p : PacerState) → IsPacerState p → IsDoneExact p }
{}
