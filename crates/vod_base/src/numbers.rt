//! Decimal numbers.

ghost use Rattle.std.specs.Prelude.{◌≡◌, ◌^◌, ◌<◌, ◌≤◌, ◌++◌, true, false, length, take};
ghost use Rattle.std.specs.Prelude.{slice_index, decimal, IfErr, IfSome, IfNone, OnOk, OnErr};
ghost use Rattle.std.specs.List.{list_all};
ghost use Rattle.std.specs.Char.{is_ascii_digit};
ghost use Rattle.std.specs.Result.{result_ok};
ghost use Rattle.std.specs.Str.Parse.{digits_value};
ghost use Rattle.vod_base.specs.Numbers.{is_decimal, number_of, IsNumberFault};

use crate::errors::NoMemory;
use itoa::Buffer;
use thiserror::Error;

/// The reason why a text is not a number of 64 bits.
#[derive(Clone, Copy, Debug, PartialEq, Eq, Error)]
pub enum NumberFault {
    /// The text has no byte.
    #[error("the number has no digit")]
    Empty,
    /// The place, from 0, of the first byte that isn't one of the digits `0` to `9`.
    #[error("byte {0} of the number is no digit")]
    NotDigit(usize),
    /// All bytes are digits, and the number is 2^64 or more.
    #[error("the number is 2^64 or more")]
    TooLarge,
}

/// Reads a decimal number: one or more digits `0` to `9`, leading zeros allowed, up to 2^64 - 1.
///
/// # Errors
///
/// [`NumberFault::Empty`] where the text has no byte, [`NumberFault::NotDigit`] with the place of
/// the first byte that is no digit, and [`NumberFault::TooLarge`] where all bytes are digits and
/// the number is 2^64 or more.
pub fn read_number(text: &[u8]) -> Result<u64, NumberFault>
    ensures number { result_ok result ≡ number_of text.now }
    ensures fault { IfErr result (IsNumberFault text.now) }
{
    if text.is_empty() {
        return Err(NumberFault::Empty);
    }
    // The digits are judged before the size, so that a text has one fault, however long it is.
    if let Some(place) = first_other(text) {
        return Err(NumberFault::NotDigit(place));
    }
    value_of(text).ok_or(NumberFault::TooLarge)
}

/// Returns whether the text is one or more digits `0` to `9`.
pub fn is_decimal(text: &[u8]) -> bool
    ensures { result ≡ is_decimal text.now }
{
    !text.is_empty() && are_digits(text)
}

/// Returns whether all bytes are digits `0` to `9`, as those of the empty text are.
pub fn are_digits(text: &[u8]) -> bool
    ensures { result ≡ list_all is_ascii_digit text.now }
{
    text.iter().all(|byte| byte.is_ascii_digit())
}

/// Appends a number in decimal, without leading zeros.
///
/// # Errors
///
/// After [`NoMemory`] the text is as it was.
pub fn push_number(text: &mut Vec<u8>, number: u64) -> Result<(), NoMemory>
    ensures whole { OnOk result (text.new.items ≡ text.old.items ++ decimal number) }
    ensures kept { OnErr result (text.new.items ≡ text.old.items) }
{
    // In one append, so that the text stays as it was where memory runs out.
    text.extend_from_slice(Buffer::new().format(number).as_bytes())?;
    Ok(())
}

/// The place of the first byte that is no digit.
fn first_other(text: &[u8]) -> Option<usize>
    ensures within { IfSome result (λ place. place < length text.now) }
    ensures before { IfSome result (λ place. list_all is_ascii_digit (take place text.now) ≡ true) }
    ensures other { IfSome result (λ place. is_ascii_digit (slice_index text.now place) ≡ false) }
    ensures none { IfNone result (list_all is_ascii_digit text.now ≡ true) }
{
    for (place, byte) in text.iter().enumerate() {
        if !byte.is_ascii_digit() {
            return Some(place);
        }
    }
    None
}

/// The value of the digits of `text`, or None where it is 2^64 or more.
#[tactic(auto, using(crate::proofs::DigitLemmas::digit_steps))]
fn value_of(text: &[u8]) -> Option<u64>
    requires { list_all is_ascii_digit text.now ≡ true }
    ensures value { IfSome result (λ value. value ≡ digits_value 10 text.now) }
    ensures large { IfNone result (2 ^ 64 ≤ digits_value 10 text.now) }
{
    let mut value = 0u64;
    for digit in text {
        // The value only grows with more digits, so the first step that leaves 64 bits decides.
        let tens = value.checked_mul(10)?;
        value = tens.checked_add(u64::from(*digit - b'0'))?;
    }
    Some(value)
}
