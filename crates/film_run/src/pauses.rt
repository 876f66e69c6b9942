//! What a halt leaves of a run.

ghost use Rattle.std.specs.Prelude.{◌≡◌, ◌+◌, ◌-◌, ◌<◌, ◌≤◌, None, Some};
ghost use Rattle.plan_cert.specs.PlanSlots.{total_bytes, total_slots};
ghost use Rattle.wire_curve.specs.FilmCurves.{due_slot};
ghost use Rattle.film_run.specs.Runs.{Fits, IsRun};
ghost use Rattle.film_run.specs.Plans.{IsPlanOf, IsPlayback, timing_of};
ghost use Rattle.film_run.specs.Pauses.{IsHalt, IsRemainingRun, IsStop, ReachesAt};

use crate::plans::{Playback, timing_of};
use crate::runs::Run;
use crate::units::Units;
use plan_cert::Plan;
use vod_base::MAX_FILM_PICTURES;

/// Returns what a halt leaves of a run: its play by `plan` stepped the plan's slot `last` last, or
/// none, isn't done, and keeps `keep` bytes of its plan, at least those that were due.
///
/// The run was sent up to what is kept. It is unplayed from the first picture on that is used in
/// the slot in which the play stops or after it: the later of the slot last stepped and the first
/// one through which the plan has what is kept. Some of it is then unplayed, and what was sent and
/// isn't played fits in the client's buffer.
///
/// It takes time in the pictures that were played and some twenty times in the plan's segments, and
/// no memory.
pub fn run_after<U: Units>(
    units: &U,
    playback: &Playback,
    run: &Run,
    plan: &Plan,
    last: Option<u64>,
    keep: u64,
) -> Run
    // needs: the plan of this run, and a halt that keeps at least what was due
    requires playback { IsPlayback playback.now }
    requires run { IsRun (U.sizes units.now) run.now }
    requires fits { Fits playback.now.buffer run.now }
    requires plan { IsPlanOf (U.sizes units.now) playback.now run.now plan.now }
    requires halt { IsHalt plan.now last keep }
    // answers: a run that can be played, and fits in the buffer
    ensures left { IsRemainingRun (U.sizes units.now) playback.now run.now plan.now last keep
        result }
    ensures run { IsRun (U.sizes units.now) result }
    ensures fits { Fits playback.now.buffer result }
{
    // The proof takes from `count` how many the units and their bytes are at most.
    let _count = units.count();
    let stop = stop_slot(plan, last, keep);
    let first = run.from_unit;
    let mut left = *run;
    // The last picture is used in the last slot of the plan, so the loop ends within the run.
    while due_slot(playback, run, (left.from_unit - first) as u64) < stop {
        left.played += units.wire_size(left.from_unit);
        left.from_unit += 1;
    }
    // Bytes up to `keep` still go out in their slots, so the next play begins after them.
    left.sent += keep;
    left
}

/// The first slot of a plan through which it has so many bytes. It asks the plan for about twenty
/// slots.
fn slot_with(plan: &Plan, bytes: u64) -> u64
    requires some { 0 < total_slots plan.now }
    requires within { bytes ≤ total_bytes plan.now }
    ensures reached { ReachesAt plan.now bytes result }
    ensures inside { result < total_slots plan.now }
{
    // The proof takes from `segments` that they make a plan.
    let _kept = plan.segments();
    let mut low = 0;
    let mut high = plan.slots() - 1;
    while low < high {
        let middle = low + (high - low) / 2;
        if plan.sum_at(middle) < bytes {
            low = middle + 1;
        } else {
            high = middle;
        }
    }
    low
}

/// The slot in which a halt stops a play. Its pictures count as unplayed.
fn stop_slot(plan: &Plan, last: Option<u64>, keep: u64) -> u64
    requires some { 0 < total_slots plan.now }
    requires halt { IsHalt plan.now last keep }
    ensures stop { IsStop plan.now last keep result }
    ensures inside { result < total_slots plan.now }
{
    match last {
        // Bytes up to `keep` go out in their planned slots, which may come after `last`.
        Some(last) => slot_with(plan, keep).max(last),
        // Before its first slot nothing of a play was used.
        None => 0,
    }
}

/// The slot of a play in which its picture of that number is used.
fn due_slot(playback: &Playback, run: &Run, picture: u64) -> u64
    requires playback { IsPlayback playback.now }
    requires picture { picture < MAX_FILM_PICTURES }
    ensures { result ≡ due_slot (timing_of playback.now run.now) picture }
{
    timing_of(playback, run).due_slot(picture)
}
