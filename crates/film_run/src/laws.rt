//! What is true for every plan of a run, and for every jump and pause in it.

ghost use Rattle.std.specs.Prelude.{◌<◌, ◌≤◌, ℕ, length, Option};
ghost use Rattle.mpeg_scan.specs.declared.films.Film.{Film as FilmIs};
ghost use Rattle.film_run.specs.declared.runs.Run.{Run};
ghost use Rattle.film_run.specs.Plans.{IsBestPlanOf};
ghost use Rattle.film_run.specs.Laws.{AreInTime, AreUsedOnTime, CountsUsed, DoesFit};
ghost use Rattle.film_run.specs.Laws.{ContinuesThePlan, IsOnlyPlan, LeavesOne, LeavesRun};
ghost use Rattle.film_run.specs.Laws.{OfSendings, SharesBoundaries};
ghost use Rattle.film_run.specs.SeekLaws.{IsSeekResult};
ghost use Rattle.film_run.specs.Seeks.{IsRequestedRange};

use mpeg_scan::Film;

/// A run's plan: each picture is used in the slot in which its time begins, and is complete at the
/// client by the end of that slot, in the buffer or by the plan, and the client's buffer never
/// overflows. No plan that stays between the curves sends less above any rate. There is one such
/// plan.
pub fn law_plan_is_on_time_and_optimal()
    // the client neither runs dry nor overflows
    ensures on_time { OfSendings AreUsedOnTime }
    ensures in_time { OfSendings AreInTime }
    ensures fits { OfSendings DoesFit }
    // the plan is the best, and the only one
    ensures best { OfSendings IsBestPlanOf }
    ensures one { OfSendings IsOnlyPlan }
{}

/// A halt leaves one run, which the client can play. It is sent on from the byte after the last:
/// what was kept of the halted play's plan and the plan of what is left are together the bytes of
/// the halted play's plan. Exactly those pictures count as played that the client has used: in a
/// slot before the one last stepped, or in one at whose end some of what is kept was still to be
/// sent.
pub fn law_halt_leaves_one_playable_run()
    ensures one { OfSendings LeavesOne }
    ensures plays { OfSendings LeavesRun }
    ensures on { OfSendings ContinuesThePlan }
    ensures used { OfSendings CountsUsed }
{}

/// A seek to a time plays from the last group of pictures on whose first picture's time has come by
/// then, at the film's picture rate; up to another time, it ends with the first later group before
/// which the pictures last until that time, or with the film (RFC 2326 sections 3.6, 10.5 and
/// 12.29).
pub fn law_seek_starts_at_last_group_before()
    ensures { (film : FilmIs) (from : ℕ) (to : Option ℕ) (run : Run)
        → 1 ≤ film.rate → film.rate ≤ 8 → IsRequestedRange film from to run → IsSeekResult film from
        to run }
{}

/// The boundaries of a film's run are places of its bytes, whatever the identity under which it is
/// sent.
pub fn law_boundaries_ignore_identity(film: &Film, first_unit: usize, end_unit: usize)
    requires order { first_unit < end_unit }
    requires within { end_unit ≤ length film.now.units.items }
    ensures { SharesBoundaries film.now first_unit end_unit }
{
    let _read = (film.bytes.len(), first_unit, end_unit);
}
