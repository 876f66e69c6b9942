//! Finds the end that a place belongs to.

ghost use Rattle.std.specs.Prelude.{◌<◌, ◌≤◌, ℕ, length, slice_index};
ghost use Rattle.std.specs.List.Sorted.{IsNonDecreasing};

/// How many of these ends, which don't fall, lie below a place.
pub(crate) fn ends_below(ends: &[u64], place: u64) -> usize
    requires { IsNonDecreasing ends.now }
    ensures count { result ≤ length ends.now }
    ensures below { (k : ℕ) → k < result → slice_index ends.now k < place }
    ensures from { (k : ℕ) → result ≤ k → k < length ends.now → place ≤ slice_index ends.now k }
{
    ends.partition_point(|end| *end < place)
}
