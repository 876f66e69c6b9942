//! What a client reads in a reply (RFC 2326 sections 7 and 12).

ghost use Rattle.std.specs.Prelude.{◌≡◌, ◌^◌, ◌<◌, ◌≤◌, ◌==◌, ℕ, length, option_map, IfSome};
ghost use Rattle.std.specs.Prelude.{MatchOption, position};
ghost use Rattle.std.specs.List.{list_all, position_or_len};
ghost use Rattle.interleave.specs.Elements.{IsMessageLength};
ghost use Rattle.rtsp_client.specs.Replies.{IsAnswer, has_point, milliseconds, number_in};
ghost use Rattle.rtsp_client.specs.Replies.{play_range, play_start, range_end, session_id};
ghost use Rattle.rtsp_client.specs.Replies.{session_in, setup_session, time_in, usable_id};
ghost use Rattle.rtsp_text.specs.Grammar.{is_value_byte};

use rtsp_text::{header_of, read_reply};
use vod_base::{LATEST_SLOT, read_number, trim};

/// The code of a reply to the request of this number.
///
/// None where its first line isn't `RTSP/1.0`, three digits and a phrase, or its CSeq isn't the
/// number.
#[tactic(auto, using(crate::proofs::WatchEnds::answer_is))]
pub(crate) fn reply_code(message: &[u8], number: u64) -> Option<u16>
    requires { IsMessageLength message.now (length message.now) }
    ensures { MatchOption result ((code : ℕ) →
        ¬ IsAnswer message.now number code) (IsAnswer message.now number) }
{
    let reply = read_reply(message)?;
    let found = number_in(message, b"CSeq")?;
    if found != number {
        return None;
    }
    Some(reply.code)
}

/// The session that the reply to SETUP begins.
///
/// None where the reply names none, or one whose id no header field of a request may have.
pub(crate) fn setup_session(message: &[u8]) -> Option<&[u8]>
    ensures { option_map (λ session. session.now) result ≡ setup_session message.now }
{
    usable_id(session_in(message)?)
}

/// The session that a reply names.
fn session_in(message: &[u8]) -> Option<&[u8]>
    ensures { option_map (λ session. session.now) result ≡ session_in message.now }
{
    Some(session_id(header_of(message, b"Session")?))
}

/// The end of the range that a reply to PLAY gives, in milliseconds from the film's beginning.
pub(crate) fn play_range(message: &[u8]) -> Option<u128>
    ensures range { result ≡ play_range message.now }
    ensures short { IfSome result (λ end_ms. end_ms < 2 ^ 100) }
{
    range_end(header_of(message, b"Range")?)
}

/// In how many slots the play starts, by the reply: from 1 to [`LATEST_SLOT`] + 1.
pub(crate) fn play_start(message: &[u8]) -> Option<u64>
    ensures { result ≡ play_start message.now }
{
    match number_in(message, b"x-Start") {
        // A play begins in a later slot than its request, at most one after the latest.
        Some(start) if 1 <= start && start <= LATEST_SLOT + 1 => Some(start),
        _ => None,
    }
}

/// The number that a field of a message writes, where the field's first line is one.
fn number_in(message: &[u8], name: &[u8]) -> Option<u64>
    ensures { result ≡ number_in message.now name.now }
{
    read_number(header_of(message, name)?).ok()
}

/// The place of the first `;`.
fn first_semicolon(value: &[u8]) -> Option<usize>
    ensures { result ≡ position (λ byte. byte == 59) value.now }
{
    value.iter().position(|byte| *byte == b';')
}

/// Where a session's id ends: at the first `;`, or at the value's end.
fn id_end(value: &[u8]) -> usize
    ensures within { result ≤ length value.now }
    ensures end { result ≡ position_or_len (λ byte. byte == 59) value.now }
{
    first_semicolon(value).unwrap_or(value.len())
}

/// The id of a Session field: what stands before its first `;`, without the blanks around it.
fn session_id(value: &[u8]) -> &[u8]
    ensures { result.now ≡ session_id value.now }
{
    // A `;timeout=` may follow the id (RFC 2326 section 12.37), and isn't part of it.
    trim(&value[..id_end(value)])
}

/// The id, if a header field of a request may have it: no control byte but the tab.
fn usable_id(id: &[u8]) -> Option<&[u8]>
    ensures { option_map (λ id. id.now) result ≡ usable_id id.now }
{
    // A line end in the id would make the next request another one than the client means.
    if has_value_bytes(id) { Some(id) } else { None }
}

/// Whether a header field's value may have these bytes.
fn has_value_bytes(text: &[u8]) -> bool
    ensures { result ≡ list_all is_value_byte text.now }
{
    text.iter().all(|byte| is_value_byte(*byte))
}

/// Whether a header field's value may have this byte (RFC 2326 section 15.1).
fn is_value_byte(byte: u8) -> bool
    ensures { result ≡ is_value_byte byte }
{
    (byte >= b' ' || byte == b'\t') && byte != 0x7f
}

/// The milliseconds of seconds and a fraction of three digits.
fn milliseconds(seconds: &[u8], fraction: &[u8]) -> Option<u128>
    ensures sum { result ≡ milliseconds seconds.now fraction.now }
    ensures short { IfSome result (λ ms. ms < 2 ^ 100) }
{
    let seconds = read_number(seconds).ok()?;
    let fraction = read_number(fraction).ok()?;
    Some(u128::from(seconds) * 1000 + u128::from(fraction))
}

/// Whether a text has a point before its last three bytes, and no needless leading zero.
fn has_point(text: &[u8]) -> bool
    ensures { result ≡ has_point text.now }
{
    text.len() >= 4 && text[text.len() - 4] == b'.' && !(text.len() > 5 && text[0] == b'0')
}

/// The milliseconds of a text that is seconds, a point and three digits.
fn time_in(text: &[u8]) -> Option<u128>
    ensures time { result ≡ time_in text.now }
    ensures short { IfSome result (λ ms. ms < 2 ^ 100) }
{
    if !has_point(text) {
        return None;
    }
    let point = text.len() - 4;
    milliseconds(&text[..point], &text[point + 1..])
}

/// The end, in milliseconds, of a range from the film's beginning: `npt=0.000-` and seconds, a
/// point and three digits.
fn range_end(value: &[u8]) -> Option<u128>
    ensures range { result ≡ range_end value.now }
    ensures short { IfSome result (λ end_ms. end_ms < 2 ^ 100) }
{
    // PLAY asked for the film from 0, so a range from elsewhere is no reply to it.
    let text = value.strip_prefix(b"npt=0.000-")?;
    time_in(text)
}
