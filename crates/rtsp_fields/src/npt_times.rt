//! Normal play times.

ghost use Rattle.std.specs.Prelude.{◌≡◌, ℕ, ◌^◌, ◌<◌, ◌≤◌, ◌↔◌, IsTrue, true, MatchOption};
ghost use Rattle.rtsp_fields.specs.NptTimes.{AreSeconds, IsClock, IsDigits, IsFraction, IsTime};

use crate::separated_parts::part_end;
use vod_base::{are_digits, read_number};

/// A time in nanoseconds.
pub(crate) fn read_time(text: &[u8]) -> Option<u128>
    ensures { MatchOption result ((n : ℕ) → ¬ IsTime text.now n) (IsTime text.now) }
{
    // A time may have no point; a point may have no digits after it (RFC 2326 section 3.6).
    let point = part_end(text, 0, b'.');
    let seconds = read_seconds(&text[..point])?;
    let fraction = if point < text.len() {
        read_fraction(&text[point + 1..])?
    } else {
        0
    };
    Some(u128::from(seconds) * 1_000_000_000 + u128::from(fraction))
}

/// The number that one to `most` digits write.
fn read_digits(text: &[u8], most: usize) -> Option<u64>
    requires { most ≤ 9 }
    ensures { MatchOption result ((n : ℕ) →
        ¬ IsDigits most text.now n) (λ n. IsDigits most text.now n × (n < 10 ^ 9)) }
{
    // The limit bounds the number before it is read, so that later products stay in 64 bits.
    if text.len() > most {
        return None;
    }
    read_number(text).ok()
}

/// Hours, minutes and seconds, as seconds.
fn read_clock(text: &[u8]) -> Option<u64>
    ensures { MatchOption result ((n : ℕ) → ¬ IsClock text.now n) (λ n. IsClock text.now n
        × (n < 10 ^ 13)) }
{
    let first = part_end(text, 0, b':');
    if first == text.len() {
        return None;
    }
    let second = part_end(text, first + 1, b':');
    if second == text.len() {
        return None;
    }
    let hours = read_digits(&text[..first], 5)?;
    let minutes = read_digits(&text[first + 1..second], 2)?;
    let seconds = read_digits(&text[second + 1..], 2)?;
    // RFC 2326 section 3.6: `npt-mm` and `npt-ss` are 0 to 59. Only hours may be more.
    if minutes > 59 || seconds > 59 {
        return None;
    }
    Some(hours * 3600 + minutes * 60 + seconds)
}

/// Whole seconds, written as such or as hours, minutes and seconds.
fn read_seconds(text: &[u8]) -> Option<u64>
    ensures { MatchOption result ((n : ℕ) → ¬ AreSeconds text.now n) (λ n. AreSeconds text.now n
        × (n < 10 ^ 13)) }
{
    // A text with a colon isn't all digits, so at most one of both readings fits.
    match read_digits(text, 9) {
        Some(seconds) => Some(seconds),
        None => read_clock(text),
    }
}

/// The fraction of a second that the digits after a point write, in nanoseconds.
fn read_fraction(text: &[u8]) -> Option<u64>
    ensures { MatchOption result ((n : ℕ) → ¬ IsFraction text.now n) (λ n. IsFraction text.now n
        × (n < 10 ^ 9)) }
{
    if !are_digits(text) {
        return None;
    }
    // further digits are parts of a nanosecond
    let counted = &text[..text.len().min(9)];
    // No digit at all is no fraction: `1.` is one second.
    let value = read_digits(counted, 9).unwrap_or(0);
    Some(value * 10u64.pow(9 - counted.len() as u32))
}
