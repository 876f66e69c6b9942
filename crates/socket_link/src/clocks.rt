//! The slot of a clock reading, and the time until the next one.

ghost use Rattle.std.specs.Prelude.{◌≡◌, ◌≤◌};
ghost use Rattle.socket_link.specs.Slots.{slot_of, IsRest};

use vod_base::LATEST_SLOT;

/// The slot at a time, in nanoseconds since slot 0 began.
pub(crate) fn slot_at(time: u64, slot_units: u32) -> u64
    requires { 1 ≤ slot_units }
    ensures { result ≡ slot_of slot_units time }
{
    // A slot has `slot_units` / 360,000 s, which are 25,000 / 9 ns for each unit. The product with
    // 9 can pass 64 bits.
    (time as u128 * 9 / (25_000 * slot_units as u128)).min(LATEST_SLOT as u128) as u64
}

/// In how many nanoseconds the next slot begins.
pub(crate) fn rest_of_slot(time: u64, slot_units: u32) -> u64
    requires { 1 ≤ slot_units }
    ensures { IsRest slot_units time result }
{
    let length = 25_000 * slot_units as u64;
    let passed = (time as u128 * 9 % length as u128) as u64;
    // Rounded up: a wait that ends before the slot begins would only be repeated.
    (length - passed).div_ceil(9)
}
