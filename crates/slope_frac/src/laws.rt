//! What is proved of the order of slopes.

ghost use Rattle.std.specs.Prelude.{◌≡◌, ◌<◌, ◌≤◌, ◌⊎◌, ◌↔◌};
ghost use Rattle.slope_frac.specs.declared.Slope.{Slope as Steepness};
ghost use Rattle.slope_frac.specs.SlopeOrder.{IsLessSteep, IsEquallySteep};

use crate::Slope;

/// Any two slopes are in exactly one order: one is below the other, or they are level.
pub fn law_slope_order_is_total(a: Slope, b: Slope)
    ensures some { IsLessSteep a b ⊎ IsEquallySteep a b ⊎ IsLessSteep b a }
    ensures not_both_ways { IsLessSteep a b → ¬ IsLessSteep b a }
    ensures not_level { IsEquallySteep a b → (¬ IsLessSteep a b) × (¬ IsLessSteep b a) }
{
    let _slopes = (a, b);
}

/// The order is transitive over a slope of at least one slot, and so is being level.
pub fn law_slope_order_is_transitive(a: Slope, b: Slope, c: Slope)
    requires { 1 ≤ b.slots }
    ensures below { IsLessSteep a b → IsLessSteep b c → IsLessSteep a c }
    ensures level { IsEquallySteep a b → IsEquallySteep b c → IsEquallySteep a c }
{
    let _slopes = (a, b, c);
}

/// Level slopes stand in the same order to every third one, and being level goes both ways.
pub fn law_equal_slopes_compare_alike(a: Slope, b: Slope, c: Slope)
    // needs: slopes of at least one slot
    requires one { 1 ≤ a.slots }
    requires other { 1 ≤ b.slots }
    // answers: being level goes both ways, and a third slope stands alike to both
    ensures turned { IsEquallySteep a b → IsEquallySteep b a }
    ensures same_below { IsEquallySteep a b → (IsLessSteep a c ↔ IsLessSteep b c) }
    ensures same_above { IsEquallySteep a b → (IsLessSteep c a ↔ IsLessSteep c b) }
{
    let _slopes = (a, b, c);
}

/// Over equally many slots the slope with fewer bytes is below, and of equally many bytes the one
/// over more slots.
pub fn law_more_bytes_or_fewer_slots_is_steeper()
    ensures bytes { (a b : Steepness) → 1 ≤ a.slots → a.slots ≡ b.slots →
        (IsLessSteep a b ↔ (a.bytes < b.bytes)) }
    ensures slots { (a b : Steepness) → 1 ≤ a.bytes → a.bytes ≡ b.bytes →
        (IsLessSteep a b ↔ (b.slots < a.slots)) }
{}
