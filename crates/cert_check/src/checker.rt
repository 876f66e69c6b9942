//! The check of a certificate: its first fault, in the order of the laws.

ghost use Rattle.std.specs.Prelude.{◌≡◌, ◌∷◌, [], ℕ, map, MatchResult, OnOk};
ghost use Rattle.wire_curve.specs.SoundCurves.{AreSound};
ghost use Rattle.cert_check.specs.declared.CertFault.TheVariants.{EmptySegment, WrongLength};
ghost use Rattle.cert_check.specs.declared.CertFault.TheVariants.{WrongTotal, BelowLow, AboveUp};
ghost use Rattle.cert_check.specs.declared.CertFault.TheVariants.{EqualSlopes, RiseOffUpper};
ghost use Rattle.cert_check.specs.declared.CertFault.TheVariants.{FallOffLower};
ghost use Rattle.cert_check.specs.CertFaults.{IsTaut, IsFirstFault, IsVerdict, kind_of};
ghost use Rattle.cert_check.specs.CheckerSteps.{StaysWithin};
ghost use Rattle.cert_check.specs.Optimality.{IsBestPlan};

use crate::CertFault;
use crate::bends::{Bend, first_bend_off, first_equal};
use crate::sums::{first_empty, leads_to};
use crate::walk::{Outside, first_outside};
use plan_cert::{Segment, has_slots};
use wire_curve::Curves;

/// Checks whether the segments are the taut line between the curves, and returns the first fault
/// where they aren't. A list that passes is best, as [`law_checked_plan_is_optimal`] says. It takes
/// no memory, and makes one pass over the slots and a few over the segments.
///
/// # Errors
///
/// The first [`CertFault`], in the order of its variants.
pub fn check(curves: &Curves, segments: &[Segment]) -> Result<(), CertFault>
    requires { AreSound curves.now.from curves.now.low.items curves.now.up.items }
    ensures verdict { MatchResult result
        (λ _. IsTaut curves.now.from curves.now.low.items curves.now.up.items segments.now)
        (λ fault. IsFirstFault curves.now.from curves.now.low.items curves.now.up.items
        segments.now fault) }
    ensures best { OnOk result
        (IsBestPlan curves.now.from curves.now.low.items curves.now.up.items segments.now) }
{
    find_fault(curves, segments)
}

/// The law: a list of segments that passes [`check`] is best. Its slots keep the running sum
/// between the curves; no feasible list of slots sends less above any rate, nor has a smaller
/// greatest slot; and no other list of segments passes.
pub fn law_checked_plan_is_optimal(curves: &Curves, segments: &[Segment])
    requires sound { AreSound curves.now.from curves.now.low.items curves.now.up.items }
    requires taut { IsTaut curves.now.from curves.now.low.items curves.now.up.items segments.now }
    ensures { IsBestPlan curves.now.from curves.now.low.items curves.now.up.items segments.now }
{
    // The proof knows the ranges of what the body reads.
    let _read = (curves.from, segments.len());
}

/// The law: the kinds of faults are looked for in this order.
pub fn law_faults_are_tried_in_order()
    ensures { (i : ℕ) → map kind_of
        (EmptySegment i ∷ WrongLength ∷ WrongTotal ∷ BelowLow i ∷ AboveUp i ∷ EqualSlopes i
        ∷ RiseOffUpper i ∷ FallOffLower i ∷ [])
        ≡ 0 ∷ 1 ∷ 2 ∷ 3 ∷ 4 ∷ 5 ∷ 6 ∷ 7 ∷ [] }
{}

/// The first fault.
fn find_fault(curves: &Curves, segments: &[Segment]) -> Result<(), CertFault>
    requires { AreSound curves.now.from curves.now.low.items curves.now.up.items }
    ensures { IsVerdict curves.now.from curves.now.low.items curves.now.up.items segments.now
        result }
{
    // Each test may rely on those before it: without empty segments, and with the slots and bytes
    // of the curves, the walk stays within both lists and its numbers are small.
    if let Some(i) = first_empty(segments) {
        return Err(CertFault::EmptySegment(i));
    }
    if !has_slots(segments, curves.low.len() as u64) {
        return Err(CertFault::WrongLength);
    }
    if !leads_to(curves.from, segments, curves.up[curves.up.len() - 1]) {
        return Err(CertFault::WrongTotal);
    }
    match first_outside(curves, segments) {
        Outside::Below(t) => return Err(CertFault::BelowLow(t)),
        Outside::Above(t) => return Err(CertFault::AboveUp(t)),
        Outside::Nowhere => {}
    }
    check_bends(curves, segments)
}

/// The three faults of the places where the slope changes, for a line that stays between the
/// curves.
fn check_bends(curves: &Curves, segments: &[Segment]) -> Result<(), CertFault>
    requires { StaysWithin curves.now.from curves.now.low.items curves.now.up.items segments.now }
    ensures { IsVerdict curves.now.from curves.now.low.items curves.now.up.items segments.now
        result }
{
    if let Some(i) = first_equal(segments) {
        return Err(CertFault::EqualSlopes(i));
    }
    if let Some(i) = first_bend_off(Bend::Rise, curves, segments) {
        return Err(CertFault::RiseOffUpper(i));
    }
    if let Some(i) = first_bend_off(Bend::Fall, curves, segments) {
        return Err(CertFault::FallOffLower(i));
    }
    Ok(())
}
