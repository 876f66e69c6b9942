//! Reads the picture sizes of a trace.

ghost use Rattle.std.specs.Prelude.{◌≡◌, ◌<◌, ◌≤◌, ◌+◌, ◌^◌, ◌⊎◌, ℕ, List, [], true, false};
ghost use Rattle.std.specs.Prelude.{length, take, drop, slice_index, MatchOption, IfOk, IfErr};
ghost use Rattle.std.specs.List.{list_all};
ghost use Rattle.std.specs.Char.{is_ascii_digit};
ghost use Rattle.std.specs.Str.Parse.{digits_value};
ghost use Rattle.inputs.specs.Traces.{is_white_space, begins_token, tokens_from};
ghost use Rattle.inputs.specs.Traces.{AddsSize, IsTraceText};
ghost use Rattle.inputs.specs.FirstWord.{word_length, first_word, WritesSize};
ghost use Rattle.inputs.specs.TraceRefusals.{IsTextRefused};
ghost use Rattle.inputs.specs.declared.traces.TraceRefused.{TraceRefused};

use std::alloc::{AllocError, AllocFailed, Global};
use thiserror::Error;

/// The most pictures of a trace: each is used in a slot of its own, and no plan has more slots.
const MAX_PICTURES: usize = 1_000_000;

/// The most bytes of one picture.
const MAX_SIZE: u64 = 1 << 32;

/// The most bytes of all pictures together.
const MAX_TOTAL: u64 = 1 << 40;

/// How many digits are read before the value is tested. [`MAX_SIZE`] has ten.
const FEW_DIGITS: usize = 11;

/// Why a text gives no trace.
#[derive(Clone, Copy, Debug, PartialEq, Eq, Error)]
pub enum TraceRefused {
    /// The place of the first byte of the first token that isn't a number up to 2^32, or that
    /// brings the sum above 2^40, or that is the 1,000,001st.
    #[error("the word at byte {0} makes it no trace")]
    BadTrace(u64),
    /// Out of memory.
    #[error("out of memory")]
    NoMemory,
}

impl From<AllocError> for TraceRefused {
    ghost from_gives = { λ _ refused. refused ≡ TraceRefused.NoMemory };

    fn from(_error: AllocError) -> TraceRefused {
        TraceRefused::NoMemory
    }
}

impl<T: Drop> From<AllocFailed<T>> for TraceRefused {
    ghost from_gives = { λ _ refused. refused ≡ TraceRefused.NoMemory };

    fn from(_error: AllocFailed<T>) -> TraceRefused {
        TraceRefused::NoMemory
    }
}

/// Reads the picture sizes of a trace, in bytes: decimal numbers up to 2^32 with white space
/// between them, at most 1,000,000 of them with a sum up to 2^40.
///
/// # Errors
///
/// [`TraceRefused::BadTrace`] exactly where the text is no trace; [`TraceRefused::NoMemory`].
pub fn read_trace(alloc: Global, text: &[u8]) -> Result<Vec<u64>, TraceRefused>
    ensures trace { IfOk result (λ sizes. IsTraceText text.now sizes.items) }
    ensures refused { IfErr result (IsTextRefused text.now) }
{
    // Each size but the last takes a digit and white space at least: a push never takes memory.
    let most = (text.len() / 2 + 1).min(MAX_PICTURES);
    let mut sizes = Vec::with_capacity(alloc, most)?;
    let mut total = 0u64;
    let mut at = 0usize;
    while let Some(from) = next_place(text, at) {
        let Some(size) = next_size(&text[from..], sizes.len(), total) else {
            return Err(TraceRefused::BadTrace(from as u64));
        };
        sizes.push(size.value)?;
        total += size.value;
        // The byte after a word is white space, where there is one.
        at = (from + size.len + 1).min(text.len());
    }
    Ok(sizes)
}

/// A number at the beginning of a text, and how many bytes write it.
#[derive(Clone, Copy)]
struct Number {
    value: u64,
    len: usize,
}

#[inline(always)]
fn is_white_space(byte: u8) -> bool
    ensures { result ≡ is_white_space byte }
{
    byte == b' ' || byte == b'\t' || byte == b'\r' || byte == b'\n'
}

/// Counts the bytes of white space at the beginning.
#[inline(always)]
fn white_space_length(rest: &[u8]) -> usize
    ensures within { result ≤ length rest.now }
    ensures white_space { list_all is_white_space (take result rest.now) ≡ true }
    ensures next { result < length rest.now → begins_token (drop result rest.now) ≡ true }
{
    for (place, byte) in rest.iter().enumerate() {
        if !is_white_space(*byte) {
            return place;
        }
    }
    rest.len()
}

/// Finds the place of the first token at or after `at`, in bytes.
#[inline(always)]
fn next_place(text: &[u8], at: usize) -> Option<usize>
    requires { at ≤ length text.now }
    ensures { MatchOption result (tokens_from at (drop at text.now) ≡ [])
        (λ from. (at ≤ from) × (from < length text.now) × (begins_token (drop from text.now) ≡ true)
        × (tokens_from at (drop at text.now) ≡ tokens_from from (drop from text.now))) }
{
    let from = at + white_space_length(&text[at..]);
    if from < text.len() { Some(from) } else { None }
}

/// Reads the digits at the beginning: all of them where they are few, else as far as they write a
/// number up to [`MAX_SIZE`] or the first above it.
#[inline(always)]
fn digits_in_front(rest: &[u8]) -> Number
    ensures within { result.len ≤ length rest.now }
    ensures digits { list_all is_ascii_digit (take result.len rest.now) ≡ true }
    ensures value { result.value ≡ digits_value 10 (take result.len rest.now) }
    ensures ends { result.len < length rest.now →
        (2 ^ 32 < result.value) ⊎ (is_ascii_digit (slice_index rest.now result.len) ≡ false) }
{
    // So few digits can't overflow, which saves a test of the value at each of them.
    let few = rest.len().min(FEW_DIGITS);
    let mut value = 0u64;
    for place in 0..few {
        let byte = rest[place];
        if !byte.is_ascii_digit() {
            return Number { value, len: place };
        }
        value = value * 10 + u64::from(byte - b'0');
    }
    if few == rest.len() {
        return Number { value, len: few };
    }
    // Eleven digits begin with a zero or write too large a number, so this way is seldom taken.
    long_number(rest)
}

/// Reads any number of digits: it tests the value at each of them.
#[tactic(auto, using(crate::proofs::NumberDigitLemmas::digit_steps))]
fn long_number(rest: &[u8]) -> Number
    ensures within { result.len ≤ length rest.now }
    ensures digits { list_all is_ascii_digit (take result.len rest.now) ≡ true }
    ensures value { result.value ≡ digits_value 10 (take result.len rest.now) }
    ensures ends { result.len < length rest.now →
        (2 ^ 32 < result.value) ⊎ (is_ascii_digit (slice_index rest.now result.len) ≡ false) }
{
    let mut value = 0u64;
    for (place, byte) in rest.iter().enumerate() {
        // The first value above the most ends it: nothing overflows, whatever follows.
        if !byte.is_ascii_digit() || value > MAX_SIZE {
            return Number { value, len: place };
        }
        value = value * 10 + u64::from(*byte - b'0');
    }
    Number {
        value,
        len: rest.len(),
    }
}

/// Reads the number of the first word, where it writes one up to 2^32.
#[inline(always)]
fn number_in_front(rest: &[u8]) -> Option<Number>
    ensures { MatchOption result ((size : ℕ) → WritesSize rest.now size → ⊥)
        (λ number. (number.len ≡ word_length rest.now) × WritesSize rest.now number.value) }
{
    let number = digits_in_front(rest);
    if number.len == 0 || number.value > MAX_SIZE {
        return None;
    }
    // A word ends at white space alone: `12x` and `12,` are no numbers.
    if number.len < rest.len() && !is_white_space(rest[number.len]) {
        return None;
    }
    Some(number)
}

/// Reads the size that the first word adds to a trace of `count` sizes with `total` bytes, where
/// it may.
#[inline(always)]
fn next_size(rest: &[u8], count: usize, total: u64) -> Option<Number>
    requires { total ≤ 2 ^ 40 }
    ensures { MatchOption result ((size : ℕ) → AddsSize (first_word rest.now) count total size → ⊥)
        (λ number. (number.len ≡ word_length rest.now)
        × AddsSize (first_word rest.now) count total number.value) }
{
    let number = number_in_front(rest)?;
    // Both are at most 2^40, so the sum can't overflow.
    if count < MAX_PICTURES && total + number.value <= MAX_TOTAL {
        Some(number)
    } else {
        None
    }
}
