//! Numbers in header values.

ghost use Rattle.std.specs.Prelude.{ℕ, MatchOption};
ghost use Rattle.vod_base.specs.Limits.{WritesNumber};

use vod_base::{MAX_BYTES, MAX_DELAY, number_within};

/// Reads the value of `x-Buffer`: the client's buffer, from 1 to 2^42 bytes.
///
/// None exactly where the value isn't such a number in decimal digits.
pub fn read_buffer(value: &[u8]) -> Option<u64>
    ensures { MatchOption result ((n : ℕ) →
        ¬ WritesNumber 1 MAX_BYTES value.now n) (WritesNumber 1 MAX_BYTES value.now) }
{
    number_within(value, 1, MAX_BYTES)
}

/// Reads the value of `x-Startup`: the slots that pass before the first picture is used, from 0 to
/// 10,000.
///
/// None exactly where the value isn't such a number in decimal digits.
pub fn read_delay(value: &[u8]) -> Option<u64>
    ensures { MatchOption result ((n : ℕ) →
        ¬ WritesNumber 0 MAX_DELAY value.now n) (WritesNumber 0 MAX_DELAY value.now) }
{
    number_within(value, 0, MAX_DELAY)
}

/// Reads the value of `x-Wait`: how many slots later than the first one a play may start, from 0 to
/// 255.
///
/// None exactly where the value isn't such a number in decimal digits.
pub fn read_wait(value: &[u8]) -> Option<u64>
    ensures { MatchOption result ((n : ℕ) →
        ¬ WritesNumber 0 255 value.now n) (WritesNumber 0 255 value.now) }
{
    number_within(value, 0, 255)
}
