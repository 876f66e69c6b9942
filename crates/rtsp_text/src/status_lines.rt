//! Replies, as they are read.

ghost use Rattle.std.specs.Prelude.{◌≡◌, ◌≤◌, ◌<◌, ℕ, List, length, MatchOption, IfSome, IsSomeAnd};
ghost use Rattle.interleave.specs.Elements.{IsMessageLength};
ghost use Rattle.rtsp_text.specs.Lines.{first_line};
ghost use Rattle.rtsp_text.specs.StatusLines.{IsCode, IsStatusLine, IsReply};

use crate::grammar::is_rtsp_1_0;
use crate::lines::{first_line, split};
use interleave::{MAX_BODY_BYTES, MAX_HEAD_BYTES};
use vod_base::{read_number, split_at_first};

/// A reply of RTSP 1.0 (RFC 2326 section 7), as a client receives it.
#[derive(Clone, Copy, Debug, PartialEq, Eq)]
pub struct ReplyParts<'a> {
    /// The code: three digits.
    pub code: u16,
    /// The phrase: one or more bytes, the first no space.
    pub phrase: &'a [u8],
    /// Its entire head: the status line, the header lines and the empty line, with their ends.
    pub head: &'a [u8],
    /// Its body.
    pub body: &'a [u8],
}

/// Reads a complete reply, head and body, as [`interleave::Demux`] splits it off a connection's
/// bytes (RFC 2326 section 7).
///
/// None exactly where the first line isn't `RTSP/1.0`, three digits and a phrase, with single
/// spaces. Header lines aren't judged.
pub fn read_reply(message: &[u8]) -> Option<ReplyParts<'_>>
    // needs: one complete message
    requires { IsMessageLength message.now (length message.now) }
    // answers: what was read is a reply, None if its first line is no status line
    ensures read { MatchOption result ((code : ℕ) (phrase : List ℕ) →
        ¬ IsStatusLine (first_line message.now) code phrase)
        (λ r. IsReply message.now r.code r.phrase.now r.head.now r.body.now) }
    ensures replies { (code : ℕ) (phrase head body : List ℕ) →
        IsReply message.now code phrase head body →
        IsSomeAnd result (λ r. (r.code ≡ code) × (r.phrase.now ≡ phrase)
        × (r.head.now ≡ head) × (r.body.now ≡ body)) }
    // sizes of the parts
    ensures head { IfSome result (λ r. length r.head.now ≤ MAX_HEAD_BYTES) }
    ensures body { IfSome result (λ r. length r.body.now ≤ MAX_BODY_BYTES) }
{
    let (code, phrase) = status_line(first_line(message))?;
    let (head, body) = split(message);
    Some(ReplyParts {
        code,
        phrase,
        head,
        body,
    })
}

/// The code that three digits write.
fn read_code(text: &[u8]) -> Option<u16>
    ensures { MatchOption result ((code : ℕ) → ¬ IsCode text.now code) (IsCode text.now) }
{
    // A status code has three digits (RFC 2326 section 7.1.1); `read_number` would take others.
    if text.len() != 3 {
        return None;
    }
    let number = read_number(text).ok()?;
    // Three digits write at most 999, so the cast loses nothing.
    Some(number as u16)
}

/// The code and the phrase of a status line.
fn status_line(text: &[u8]) -> Option<(u16, &[u8])>
    ensures { MatchOption result ((code : ℕ) (phrase : List ℕ) →
        ¬ IsStatusLine text.now code phrase)
        (λ line. IsStatusLine text.now line.0 line.1.now) }
{
    let (version, rest) = split_at_first(text, b' ')?;
    let (digits, phrase) = split_at_first(rest, b' ')?;
    if !is_rtsp_1_0(version) || phrase.is_empty() || phrase[0] == b' ' {
        return None;
    }
    let code = read_code(digits)?;
    Some((code, phrase))
}
