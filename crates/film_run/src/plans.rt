//! The plan of a play.

ghost use Rattle.std.specs.Prelude.{◌≡◌, ◌+◌, ◌-◌, ◌<◌, ◌≤◌, length, IfOk, IfErr};
ghost use Rattle.plan_cert.specs.PlanSlots.{total_bytes};
ghost use Rattle.wire_curve.specs.CurveFaults.{IsRefused};
ghost use Rattle.film_run.specs.Runs.{Fits, IsRun, bytes_between};
ghost use Rattle.film_run.specs.Plans.{IsBestPlanOf, IsPlanOf, IsPlayback, rest_sizes, timing_of};

use crate::runs::Run;
use crate::units::Units;
use plan_cert::Plan;
use std::alloc::{AllocError, Global};
use taut_plan::plan;
use vod_base::NoMemory;
use wire_curve::{CurveRefused, Timing, film_curves};

/// How a client plays: when it uses pictures, and what it can hold.
///
/// Times are in units of 1/360,000 second. The first picture of a play is used `delay` slots after
/// its start, and picture k after it in the slot `k * picture_units / slot_units + delay`, rounded
/// down.
#[derive(Clone, Copy, Debug, PartialEq, Eq)]
pub struct Playback {
    /// The time of one picture, 1 to 360,000 units.
    pub picture_units: u32,
    /// The time of one slot, 1 to 360,000 units.
    pub slot_units: u32,
    /// The bytes that the client's buffer holds, 1 to 2^42 ([`vod_base::MAX_BYTES`]).
    pub buffer: u64,
    /// The slots before the first picture is used, at most 10,000 ([`vod_base::MAX_DELAY`]).
    pub delay: u64,
}

/// Computes the plan by which a run is sent on: the taut one between the curves of the units that
/// weren't played. It sends all bytes of the run that weren't sent, and no plan that stays between
/// the curves sends less above any rate.
///
/// It takes time and memory in the units and slots that are still to be played, whatever stands
/// before them.
///
/// # Errors
///
/// [`CurveRefused`] with the fault exactly where the curves have one, which is never that there are
/// no pictures; or where memory ran out.
pub fn plan_of<U: Units>(
    alloc: Global,
    units: &U,
    playback: &Playback,
    run: &Run,
) -> Result<Plan, CurveRefused>
    // needs: a client within its limits, whose buffer holds what it was sent and hasn't played
    requires playback { IsPlayback playback.now }
    requires run { IsRun (U.sizes units.now) run.now }
    requires fits { Fits playback.now.buffer run.now }
    // answers: the plan of all bytes that weren't sent, and that it is the best one
    ensures plan { IfOk result (IsPlanOf (U.sizes units.now) playback.now run.now) }
    ensures bytes { IfOk result (λ plan. run.now.sent + total_bytes plan
        ≡ bytes_between (U.sizes units.now) run.now.first_unit run.now.end_unit) }
    ensures best { IfOk result (IsBestPlanOf (U.sizes units.now) playback.now run.now) }
    // answers: the fault of the curves, if they have one
    ensures refused { IfErr result
        (IsRefused (rest_sizes (U.sizes units.now) run.now) (timing_of playback.now run.now)) }
{
    // The proof takes from `count` how many the units and their bytes are at most.
    let _count = units.count();
    let sizes = rest_sizes(alloc, units, run)?;
    // The curves begin at the first unplayed unit: the time is that of what is still to be played.
    let curves = film_curves(alloc, &sizes, &timing_of(playback, run))?;
    match plan(alloc, &curves) {
        Ok(plan) => Ok(plan),
        // Curves that were made are sound, so the planner can only run out of memory.
        Err(NoMemory) => Err(CurveRefused::NoMemory),
    }
}

/// When the pictures of a run's play are used, and what was sent and played before.
pub(crate) fn timing_of(playback: &Playback, run: &Run) -> Timing
    ensures { result ≡ timing_of playback.now run.now }
{
    Timing {
        picture_units: playback.picture_units,
        slot_units: playback.slot_units,
        buffer: playback.buffer,
        delay: playback.delay,
        played: run.played,
        sent: run.sent,
    }
}

/// The sizes of the units that a run hasn't played.
fn rest_sizes<U: Units>(alloc: Global, units: &U, run: &Run) -> Result<Vec<u64>, AllocError>
    requires order { run.now.from_unit ≤ run.now.end_unit }
    requires within { run.now.end_unit ≤ length (U.sizes units.now) }
    ensures { IfOk result (λ sizes. sizes.items ≡ rest_sizes (U.sizes units.now) run.now) }
{
    let mut sizes = Vec::with_capacity(alloc, run.end_unit - run.from_unit)?;
    for unit in run.from_unit..run.end_unit {
        sizes.push(units.wire_size(unit))?;
    }
    Ok(sizes)
}
