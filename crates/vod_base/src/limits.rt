//! The limits that several crates share, and numbers within limits.

ghost use Rattle.std.specs.Prelude.{◌≡◌, ℕ, ◌≤◌, IfSome, MatchOption};
ghost use Rattle.vod_base.specs.Numbers.{number_of};
ghost use Rattle.vod_base.specs.Limits.{WritesNumber, in_range};

use crate::numbers::read_number;

/// The most slots of a film's curves and of its plan. A calendar has more, so a plan that begins in
/// the slot after its now ends within it.
pub const MAX_SLOTS: u64 = 1_000_000;

/// The most bytes of a plan, of a client's buffer and of a slot of a link. A product of bytes and
/// slots then fits into 64 bits.
pub const MAX_BYTES: u64 = 1 << 42;

/// The longest start delay, in slots: the most before the first picture is used.
pub const MAX_DELAY: u64 = 10_000;

/// The most pictures of a film.
pub const MAX_FILM_PICTURES: u32 = 4_194_304;

/// Returns the number from `least` to `most` that the text writes in decimal digits, leading zeros
/// allowed, or None if it writes no such number.
pub fn number_within(text: &[u8], least: u64, most: u64) -> Option<u64>
    ensures number { result ≡ in_range least most (number_of text.now) }
    ensures range { IfSome result (λ number. (least ≤ number) × (number ≤ most)) }
    ensures writes { MatchOption result ((n : ℕ) → ¬ WritesNumber least most text.now n)
        (WritesNumber least most text.now) }
{
    match read_number(text) {
        Ok(number) if least <= number && number <= most => Some(number),
        _ => None,
    }
}
