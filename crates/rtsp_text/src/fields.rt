//! The values of a head's header fields.

ghost use Rattle.std.specs.Prelude.{◌≡◌, option_map, option_and_then};
ghost use Rattle.std.specs.Str.{str_eq_ignore_ascii_case};
ghost use Rattle.vod_base.specs.Numbers.{number_of};
ghost use Rattle.rtsp_text.specs.Lines.{header_lines};
ghost use Rattle.rtsp_text.specs.Fields.{value_in, header_value, sequence_number, first_sequence};

use crate::lines::header_lines;
use vod_base::{read_number, split_at_first, trim};

/// The name of the field that has the sequence number.
const SEQUENCE: &[u8; 4] = b"CSeq";

/// The value that a head gives the field of that name.
pub(crate) fn header_value<'a>(head: &'a [u8], name: &[u8]) -> Option<&'a [u8]>
    ensures { option_map (λ value. value.now) result ≡ header_value head.now name.now }
{
    // The first line of a name counts, so that a request has one reading.
    for line in header_lines(head) {
        if let Some(value) = value_in(name, line) {
            return Some(value);
        }
    }
    None
}

/// The sequence number that a head gives its request.
pub(crate) fn sequence_number(head: &[u8]) -> Option<u64>
    ensures { result ≡ sequence_number head.now }
{
    number_in(header_value(head, SEQUENCE))
}

/// The first number that a CSeq of a head has.
pub(crate) fn first_sequence(head: &[u8]) -> Option<u64>
    ensures { result ≡ first_sequence head.now }
{
    // A bad first CSeq makes the request a 400. A later good one still numbers that reply, so that
    // the client can tell which request it answers.
    for line in header_lines(head) {
        if let Some(number) = number_in(value_in(SEQUENCE, line)) {
            return Some(number);
        }
    }
    None
}

/// Whether the names are the same, in any case.
fn is_same_name(one: &[u8], other: &[u8]) -> bool
    ensures { result ≡ str_eq_ignore_ascii_case one.now other.now }
{
    // RFC 2326 section 4.2 takes names of fields as RFC 2068 does: in any case.
    one.eq_ignore_ascii_case(other)
}

/// The value of a line of that name.
fn value_in<'a>(name: &[u8], line: &'a [u8]) -> Option<&'a [u8]>
    ensures { option_map (λ value. value.now) result ≡ value_in name.now line.now }
{
    match split_at_first(line, b':') {
        Some((front, value)) if is_same_name(front, name) => Some(trim(value)),
        _ => None,
    }
}

/// The number that a value is.
fn number_in(value: Option<&[u8]>) -> Option<u64>
    ensures { result ≡ option_and_then number_of (option_map (λ text. text.now) value.entry) }
{
    read_number(value?).ok()
}
