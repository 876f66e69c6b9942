//! The length of a request's body, by its Content-Length.

ghost use Rattle.std.specs.Prelude.{◌≡◌, ◌<◌, ◌≤◌, ◌↔◌, IsTrue, length, MatchOption};
ghost use Rattle.interleave.specs.Lengths.{written_length, IsLengthLine, IsWrittenAt, IsLongAt};
ghost use Rattle.interleave.specs.Lengths.{IsBodyLength, IsLongBody};

use vod_base::{NumberFault, line_end, read_number, trim};

/// The name of the header field, with the colon after it.
const CONTENT_LENGTH: &[u8; 15] = b"Content-Length:";

/// The most bytes of a message's body.
pub const MAX_BODY_BYTES: usize = 65_536;

/// The length of the body of a message with this head, or None where it is above
/// [`MAX_BODY_BYTES`].
pub(crate) fn body_length(head: &[u8]) -> Option<usize>
    ensures { MatchOption result (IsLongBody head.now) (λ n. (n ≤ MAX_BODY_BYTES)
        × IsBodyLength head.now n) }
{
    for at in 0..head.len() {
        if is_length_line(head, at) {
            // The first line of a name counts, so a request has one length.
            return length_at(head, at + CONTENT_LENGTH.len());
        }
    }
    Some(0)
}

/// The length that a value writes, or None where it is above [`MAX_BODY_BYTES`].
fn length_of_value(value: &[u8]) -> Option<usize>
    ensures { MatchOption result (MAX_BODY_BYTES < written_length value.now)
        (λ n. (n ≤ MAX_BODY_BYTES) × (n ≡ written_length value.now)) }
{
    match read_number(value) {
        Ok(length) if length <= MAX_BODY_BYTES as u64 => Some(length as usize),
        // The connection ends: a body that isn't awaited would be read as the next request.
        Ok(_) | Err(NumberFault::TooLarge) => None,
        // No number: the message is taken without a body, and its reader judges the field.
        Err(_) => Some(0),
    }
}

/// Whether a header line of that name begins at `at`.
fn is_length_line(head: &[u8], at: usize) -> bool
    requires { at ≤ length head.now }
    ensures { IsTrue result ↔ IsLengthLine head.now at }
{
    // A field begins after a line end, so the request line is never one.
    at > 0
        && head[at - 1] == b'\n'
        && head.len() - at >= CONTENT_LENGTH.len()
        && head[at..at + CONTENT_LENGTH.len()].eq_ignore_ascii_case(CONTENT_LENGTH)
}

/// The length that stands at `at`, after the name, or None where it is above [`MAX_BODY_BYTES`].
fn length_at(head: &[u8], at: usize) -> Option<usize>
    requires { at ≤ length head.now }
    ensures { MatchOption result (IsLongAt head.now at) (λ n. (n ≤ MAX_BODY_BYTES)
        × IsWrittenAt head.now at n) }
{
    match line_end(head, at) {
        Some(line) => length_of_value(trim(&head[at..line.text_end])),
        // A complete head ends with a line end, so this never comes for one.
        None => Some(0),
    }
}
