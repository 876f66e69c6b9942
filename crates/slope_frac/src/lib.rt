//! Slopes of a sending plan: a number of bytes over a number of slots, compared exactly.
//!
//! A plan is a broken line, and every question about it is a question about slopes. No slope is
//! ever rounded: two of them are compared by their cross products, in 128 bits.
#![tactic(auto)]

pub mod laws;

ghost use Rattle.std.specs.Ordering.{MatchOrdering};
ghost use Rattle.slope_frac.specs.SlopeOrder.{IsLessSteep, IsEquallySteep};

use std::cmp::Ordering;

/// The slope of a line that rises by `bytes` over `slots` slots. A slope that stands in a line has
/// at least one slot.
#[derive(Clone, Copy, Debug)]
pub struct Slope {
    /// How far the line rises, in bytes.
    pub bytes: u64,
    /// Over how many slots.
    pub slots: u64,
}

/// Compares two slopes, by `a.bytes * b.slots` against `b.bytes * a.slots`. It never overflows.
pub fn compare(a: Slope, b: Slope) -> Ordering
    ensures { MatchOrdering result (IsLessSteep a b) (IsEquallySteep a b) (IsLessSteep b a) }
{
    // cross products, not quotients: they are exact, and 128 bits hold the product of any two
    // numbers
    let left = u128::from(a.bytes) * u128::from(b.slots);
    let right = u128::from(b.bytes) * u128::from(a.slots);
    left.cmp(&right)
}

#[cfg(test)]
mod tests {
    use super::*;
    use crate::laws::{
        law_equal_slopes_compare_alike, law_slope_order_is_total, law_slope_order_is_transitive,
    };

    // Whole bytes would call the first three rows level; 64 bits would not hold the products of the
    // sixth.
    #[test]
    fn compares_by_cross_products(rt: HostRuntime) {
        let rows = [
            (10, 3, 11, 3, Ordering::Less),
            (10, 3, 7, 2, Ordering::Less),
            (7, 2, 10, 3, Ordering::Greater),
            (0, 1, 0, 9, Ordering::Equal),
            (
                4_398_046_511_104,
                1_000_000,
                4_398_046_511_103,
                999_999,
                Ordering::Less,
            ),
            (u64::MAX, 1, u64::MAX, u64::MAX, Ordering::Greater),
            (6, 4, 9, 6, Ordering::Equal),
        ];
        for (bytes, slots, other_bytes, other_slots, want) in rows {
            let a = Slope { bytes, slots };
            let b = Slope {
                bytes: other_bytes,
                slots: other_slots,
            };
            assert_eq!(rt; compare(a, b), want, "{a:?} against {b:?}");
            law_slope_order_is_total(a, b);
        }
    }

    // Level slopes stand in the same order to a third one, and the order passes over them.
    #[test]
    fn level_slopes_compare_alike(rt: HostRuntime) {
        let half = Slope { bytes: 1, slots: 2 };
        let same = Slope { bytes: 2, slots: 4 };
        let whole = Slope { bytes: 1, slots: 1 };
        law_equal_slopes_compare_alike(half, same, whole);
        law_slope_order_is_transitive(half, same, whole);
        assert_eq!(rt; compare(half, same), Ordering::Equal);
        assert_eq!(rt; compare(same, half), Ordering::Equal);
        for slope in [half, same] {
            assert_eq!(rt; compare(slope, whole), Ordering::Less, "{slope:?}");
            assert_eq!(rt; compare(whole, slope), Ordering::Greater, "{slope:?}");
        }
    }
}
