//! The run that a PLAY's times ask for, aligned to groups of pictures (RFC 2326 sections 10.5 and
//! 12.29).

ghost use Rattle.std.specs.Prelude.{◌≡◌, ◌^◌, ◌<◌, ◌≤◌, ℕ, ◌⊎◌, length, IfSome, MatchBool};
ghost use Rattle.std.specs.Prelude.{MatchOption};
ghost use Rattle.film_run.specs.Runs.{IsFilmRun};
ghost use Rattle.film_run.specs.Seeks.{BeginsBy, HasNothing, IsAfter, IsRequestedRange, IsBefore};
ghost use Rattle.film_run.specs.Seeks.{IsEnd, IsGroupBy, IsGroupFrom, IsPlaceAfter, IsReversed};
ghost use Rattle.film_run.specs.Seeks.{StartsGroup};

use crate::runs::{Run, new_run};
use mpeg_scan::laws::{law_film_is_well_formed, law_units_tile_the_film};
use mpeg_scan::{Film, Unit};
use vod_base::MAX_FILM_PICTURES;

/// This many nanoseconds are as long as [`UNITS`] units of 1/360,000 second.
const NANOSECONDS: u128 = 25_000;

/// This many units of 1/360,000 second are as long as [`NANOSECONDS`].
const UNITS: u128 = 9;

/// Longer than any film, in nanoseconds.
const LONGEST: u128 = 1 << 64;

/// Finds the new run from a time on, up to another or the film's end, in nanoseconds: from the last
/// group that begins at or before the first time, up to the first later group that begins at or
/// after the second. None exactly where the film has ended at the first time, or the second isn't
/// after it (RFC 2326 sections 3.6 and 10.5).
pub fn run_between(film: &Film, from: u128, to: Option<u128>) -> Option<Run>
    ensures asked { MatchOption result (HasNothing film.now from to) (IsRequestedRange film.now from
        to) }
    ensures run { IfSome result (IsFilmRun film.now) }
{
    // Both laws tell the proof what is true of the units. They do nothing when they run.
    law_film_is_well_formed(film);
    law_units_tile_the_film(film);
    if is_reversed(from, to) {
        return None;
    }
    let time = u64::from(film.picture_time());
    let units = film.units.as_slice();
    let first_unit = last_group_by(units, time, from)?;
    let end_unit = end_of(units, time, to, first_unit);
    Some(new_run(first_unit, end_unit))
}

/// A time in whole units of 1/360,000 second, where a part of one isn't counted.
fn units_before(nanoseconds: u128) -> u64
    ensures most { result ≤ 2 ^ 63 }
    ensures whole { IsBefore nanoseconds result }
{
    // A longer time lies after each film, too, and its product could overflow.
    (nanoseconds.min(LONGEST) * UNITS / NANOSECONDS) as u64
}

/// A time in whole units of 1/360,000 second, where a part of one is counted as a whole one.
fn units_after(nanoseconds: u128) -> u64
    ensures most { result ≤ 2 ^ 63 }
    ensures whole { IsAfter nanoseconds result }
{
    ((nanoseconds.min(LONGEST) * UNITS + (NANOSECONDS - 1)) / NANOSECONDS) as u64
}

/// Whether a unit starts a group.
fn is_start(units: &[Unit], unit: usize) -> bool
    requires { unit < length units.now }
    ensures { MatchBool result (StartsGroup units.now unit) (¬ StartsGroup units.now unit) }
{
    units[unit].starts_group
}

/// The last unit at or before a place that starts a group.
fn group_before(units: &[Unit], place: usize) -> usize
    requires place { place < length units.now }
    requires first { StartsGroup units.now 0 }
    ensures group { StartsGroup units.now result }
    ensures before { result ≤ place }
    ensures last { (other : ℕ) → StartsGroup units.now other → other ≤ place → other ≤ result }
{
    // Unit 0 starts a group, so the search finds one.
    let mut unit = place;
    while unit > 0 && !is_start(units, unit) {
        unit -= 1;
    }
    unit
}

/// The first unit at or after a place that starts a group, or the end.
fn group_after(units: &[Unit], place: usize) -> usize
    requires { place ≤ length units.now }
    ensures after { place ≤ result }
    ensures group { StartsGroup units.now result ⊎ (result ≡ length units.now) }
    ensures first { (other : ℕ) → StartsGroup units.now other → place ≤ other → result ≤ other }
{
    let mut unit = place;
    while unit < units.len() && !is_start(units, unit) {
        unit += 1;
    }
    unit
}

/// The first unit after `first` that begins at a time or later, or the end. The time and that of a
/// unit are in units of 1/360,000 second.
fn end_place(units: usize, first: usize, time: u64, picture_units: u64) -> usize
    requires first { first < units }
    requires some { 1 ≤ picture_units }
    ensures { IsPlaceAfter units first time picture_units result }
{
    let place = time.div_ceil(picture_units);
    // A run has a unit at least, also where the time lies in its first group.
    (place.min(units as u64) as usize).max(first + 1)
}

/// The last group that begins at or before a time in nanoseconds. None exactly where the units have
/// ended then.
fn last_group_by(units: &[Unit], picture_units: u64, time: u128) -> Option<usize>
    requires few { length units.now ≤ MAX_FILM_PICTURES }
    requires some { 1 ≤ picture_units }
    requires fits { picture_units ≤ 360000 }
    requires first { StartsGroup units.now 0 }
    ensures found { MatchOption result
        (BeginsBy picture_units time (length units.now))
        (IsGroupBy units.now picture_units time) }
    ensures rest { IfSome result (λ _. ¬ BeginsBy picture_units time (length units.now)) }
{
    // Pictures begin at whole units: rounding down changes none of those that begin by the time.
    let begin = units_before(time);
    if units.len() as u64 * picture_units <= begin {
        return None;
    }
    // Pictures of a group may refer to earlier ones of it, so a play begins with a group.
    Some(group_before(units, (begin / picture_units) as usize))
}

/// The first group after a unit that begins at or after a time in nanoseconds, or the units' end.
fn group_from(units: &[Unit], picture_units: u64, time: u128, after: usize) -> usize
    requires few { length units.now ≤ MAX_FILM_PICTURES }
    requires some { 1 ≤ picture_units }
    requires fits { picture_units ≤ 360000 }
    requires after { after < length units.now }
    ensures { IsGroupFrom units.now picture_units time after result }
{
    // Rounding up changes none of those that begin at or after the time.
    let place = end_place(units.len(), after, units_after(time), picture_units);
    group_after(units, place)
}

/// The unit at which a run ends that begins with a unit, and is to end by a time in nanoseconds or
/// with the units.
fn end_of(units: &[Unit], picture_units: u64, time: Option<u128>, first: usize) -> usize
    requires few { length units.now ≤ MAX_FILM_PICTURES }
    requires some { 1 ≤ picture_units }
    requires fits { picture_units ≤ 360000 }
    requires first { first < length units.now }
    ensures end { IsEnd units.now picture_units time first result }
    ensures after { first < result }
    ensures within { result ≤ length units.now }
{
    match time {
        Some(time) => group_from(units, picture_units, time, first),
        None => units.len(),
    }
}

/// Whether the end isn't after the beginning.
fn is_reversed(from: u128, to: Option<u128>) -> bool
    ensures { MatchBool result (IsReversed from to) (¬ IsReversed from to) }
{
    match to {
        Some(to) => to <= from,
        None => false,
    }
}
