//! Calls that are counted, and fail at given numbers.

ghost use Rattle.std.specs.Prelude.{◌≡◌};
ghost use Rattle.vod_base.specs.Memory.{call_fails};
ghost use Rattle.vod_base.specs.IoState.{one_more};

/// Counts a call, and returns whether its number is among those of the calls that must fail.
pub(crate) fn counted_call(calls: &mut u64, failing: &[u64]) -> bool
    ensures counted { calls.new ≡ one_more calls.old }
    ensures fails { result ≡ call_fails failing.now calls.old }
{
    // A count that wrapped would come to the number of a failing call again.
    *calls = calls.saturating_add(1);
    failing.contains(calls)
}
