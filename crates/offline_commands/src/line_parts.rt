//! Writes the parts of a line from its end to its start, as the digits of a number come.

ghost use Rattle.std.specs.Prelude.{◌≡◌, ◌+◌, ◌≤◌, ◌++◌, decimal, drop, length};
ghost use Rattle.vod_base.specs.Fields.{field};
ghost use Rattle.offline_commands.specs.ScanText.{word_if};

use itoa::write_digits;

/// The most digits of a number of 64 bits.
const MAX_DIGITS: usize = 20;

/// Writes a text so that it ends at `end`, and returns where it starts.
#[inline(always)]
pub(crate) fn write_text(text: &[u8], line: &mut [u8], end: usize) -> usize
    requires room { length text.now ≤ end }
    requires within { end ≤ length line.old }
    ensures start { result + length text.now ≡ end }
    ensures written { drop result line.new ≡ text.now ++ drop end line.old }
{
    let start = end - text.len();
    line[start..end].copy_from_slice(text);
    start
}

/// Writes a text where `is` holds, so that it ends at `end`, and returns where it starts.
#[inline(always)]
pub(crate) fn write_text_if(is: bool, text: &[u8], line: &mut [u8], end: usize) -> usize
    requires room { length text.now ≤ end }
    requires within { end ≤ length line.old }
    ensures before { result ≤ end }
    ensures short { end ≤ result + length text.now }
    ensures written { drop result line.new ≡ word_if is text.now ++ drop end line.old }
{
    if is { write_text(text, line, end) } else { end }
}

/// Writes a number in decimal, without leading zeros, so that it ends at `end`, and returns where
/// it starts.
#[inline(always)]
pub(crate) fn write_number(number: u64, line: &mut [u8], end: usize) -> usize
    requires room { MAX_DIGITS ≤ end }
    requires within { end ≤ length line.old }
    ensures before { result ≤ end }
    ensures short { end ≤ result + MAX_DIGITS }
    ensures written { drop result line.new ≡ decimal number ++ drop end line.old }
{
    write_digits(number, line, end)
}

/// Writes a label and a number in decimal so that they end at `end`, and returns where they start.
#[inline(always)]
pub(crate) fn write_field(label: &[u8], number: u64, line: &mut [u8], end: usize) -> usize
    requires room { length label.now + MAX_DIGITS ≤ end }
    requires within { end ≤ length line.old }
    ensures before { result ≤ end }
    ensures short { end ≤ result + length label.now + MAX_DIGITS }
    ensures written { drop result line.new ≡ field label.now number ++ drop end line.old }
{
    let digits = write_number(number, line, end);
    write_text(label, line, digits)
}
