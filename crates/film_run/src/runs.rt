//! Runs: units that are sent, and what was sent and played of them.

ghost use Rattle.std.specs.Prelude.{◌≡◌, length, MatchOption};
ghost use Rattle.film_run.specs.Runs.{IsNewRun};

use crate::units::Units;

/// Units of a film that are sent, in one or more plays.
#[derive(Clone, Copy, Debug, PartialEq, Eq)]
pub struct Run {
    /// Its first unit.
    pub first_unit: usize,
    /// The unit at which it ends, which isn't in it.
    pub end_unit: usize,
    /// Its first unplayed unit.
    pub from_unit: usize,
    /// The bytes of it on the wire that were sent.
    pub sent: u64,
    /// The bytes of it that were played: those of the units before the first unplayed one.
    pub played: u64,
}

/// Returns the run of all units, from the first one on. None exactly where there is no unit.
pub fn full_run<U: Units>(units: &U) -> Option<Run>
    ensures { MatchOption result
        (length (U.sizes units.now) ≡ 0)
        (IsNewRun (U.sizes units.now) 0 (length (U.sizes units.now))) }
{
    let end_unit = units.count();
    if end_unit == 0 {
        return None;
    }
    Some(new_run(0, end_unit))
}

/// A run of which nothing was sent.
pub(crate) fn new_run(first_unit: usize, end_unit: usize) -> Run
    ensures first { result.first_unit ≡ first_unit }
    ensures end { result.end_unit ≡ end_unit }
    ensures from { result.from_unit ≡ first_unit }
    ensures sent { result.sent ≡ 0 }
    ensures played { result.played ≡ 0 }
{
    Run {
        first_unit,
        end_unit,
        from_unit: first_unit,
        sent: 0,
        played: 0,
    }
}
