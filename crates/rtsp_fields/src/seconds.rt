//! Times as texts.

ghost use Rattle.std.specs.Prelude.{◌≡◌, ◌+◌, ◌≤◌, ◌<◌, ◌++◌, true, length, take, decimal};
ghost use Rattle.rtsp_text.specs.Lines.{is_one_line};
ghost use Rattle.rtsp_fields.specs.Sdp.{seconds_text};

use itoa::Buffer;

/// The most digits of a number of 64 bits.
const MAX_DIGITS: usize = 20;

/// Puts a text at a place, and returns the place after it.
pub(crate) fn put(into: &mut [u8], at: usize, text: &[u8]) -> usize
    requires { at + length text.now ≤ length into.old }
    ensures place { result ≡ at + length text.now }
    ensures text { take result into.new ≡ take at into.old ++ text.now }
{
    into[at..at + text.len()].copy_from_slice(text);
    at + text.len()
}

/// Puts milliseconds as seconds, a point and three digits, and returns the place after them.
pub(crate) fn put_seconds(into: &mut [u8], at: usize, ms: u64) -> usize
    requires { at + 24 ≤ length into.old }
    ensures place { result ≤ at + 24 }
    ensures text { take result into.new ≡ take at into.old ++ seconds_text ms }
{
    // Three digits write milliseconds exactly, and a reader gets the same time back.
    let point = put_number(into, at, ms / 1000);
    let tenths = put(into, point, b".");
    let hundredths = put_digit(into, tenths, (ms / 100 % 10) as u8);
    let thousandths = put_digit(into, hundredths, (ms / 10 % 10) as u8);
    put_digit(into, thousandths, (ms % 10) as u8)
}

/// Writes milliseconds as seconds, a point and three digits, as the times of a Range (RFC 2326
/// section 3.6), and returns the text: at most 24 bytes, which stand in `into`.
pub fn seconds_text(ms: u64, into: &mut [u8; 24]) -> &[u8]
    ensures text { result.now ≡ seconds_text ms }
    ensures short { length result.now ≤ 24 }
    ensures one_line { is_one_line result.now ≡ true }
{
    let end = put_seconds(into, 0, ms);
    &into[..end]
}

/// Puts a number in decimal at a place, and returns the place after it.
fn put_number(into: &mut [u8], at: usize, number: u64) -> usize
    requires { at + MAX_DIGITS ≤ length into.old }
    ensures place { result ≤ at + MAX_DIGITS }
    ensures text { take result into.new ≡ take at into.old ++ decimal number }
{
    let mut buffer = Buffer::new();
    put(into, at, buffer.format(number).as_bytes())
}

/// Puts one digit at a place, and returns the next place.
fn put_digit(into: &mut [u8], at: usize, digit: u8) -> usize
    requires digit { digit < 10 }
    requires fits { at + 1 ≤ length into.old }
    ensures place { result ≡ at + 1 }
    ensures text { take result into.new ≡ take at into.old ++ decimal digit }
{
    put(into, at, &[b'0' + digit])
}
