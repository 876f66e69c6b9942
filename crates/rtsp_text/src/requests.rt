//! Requests, as they are read.

ghost use Rattle.std.specs.Prelude.{◌≡◌, ◌<◌, ◌≤◌, ℕ, List, All, true, length, codes, option_map};
ghost use Rattle.std.specs.Prelude.{MatchOption, IsTrue, ◌↔◌, IfOk, IfErr, IfSome, IfNone, IsOkAnd};
ghost use Rattle.std.specs.Prelude.{Err};
ghost use Rattle.interleave.specs.Elements.{IsMessageLength};
ghost use Rattle.rtsp_text.specs.Lines.{is_one_line, lines_before_empty, header_lines};
ghost use Rattle.rtsp_text.specs.Grammar.{IsHeaderLine};
ghost use Rattle.rtsp_text.specs.Requests.{HasLength, IsRequest, IsFirstBad, IsFault};
ghost use Rattle.rtsp_text.specs.declared.requests.RequestFault.{RequestFault};
ghost use Rattle.rtsp_text.specs.Fields.{header_value, first_sequence, IsFirstField, HasNoField};
ghost use Rattle.rtsp_text.specs.Fields.{IsFirstNumber, HasNoNumber};

use crate::fields;
use crate::grammar::{is_header_line, is_rtsp_1_0, request_line};
use crate::lines::{first_line, header_lines, split};
use interleave::{MAX_BODY_BYTES, MAX_HEAD_BYTES};
use std::error::Error;
use std::fmt;
use vod_base::is_decimal;

/// A request of RTSP 1.0 (RFC 2326 section 6).
#[derive(Clone, Copy, Debug, PartialEq, Eq)]
pub struct Request<'a> {
    /// The method: one or more letters, digits, `_` and `-`.
    pub method: &'a [u8],
    /// What it asks for: `*`, or an absolute URL with the scheme `rtsp`.
    pub url: &'a [u8],
    /// The number of its CSeq.
    pub sequence: u64,
    /// Its entire head: the request line, the header lines and the empty line, with their ends.
    pub head: &'a [u8],
    /// Its body.
    pub body: &'a [u8],
}

/// Why a message is no request of RTSP 1.0. Where several causes hold, the first of this list is
/// answered.
#[derive(Clone, Copy, Debug, PartialEq, Eq)]
pub enum RequestFault {
    /// The first line is no request line.
    BadLine,
    /// The first line is a request line of another version than `RTSP/1.0`.
    BadVersion,
    /// This header line, from 1, is the first one that isn't a name, `:` and a value.
    BadHeader(u64),
    /// There is no CSeq, or the first one isn't a number up to 2^64 - 1.
    NoSequenceNumber,
    /// The first Content-Length isn't all digits.
    BadLength,
}

impl fmt::Display for RequestFault {
    fn fmt<W: fmt::Write>(&self, f: &mut fmt::Formatter<W>) -> fmt::Result {
        f.write_str(match self {
            RequestFault::BadLine => "no request line",
            RequestFault::BadVersion => "another version than RTSP/1.0",
            RequestFault::BadHeader(number) => {
                return write!(f, "header line {number} isn't a name, a colon and a value");
            }
            RequestFault::NoSequenceNumber => "no CSeq with a number",
            RequestFault::BadLength => "a Content-Length that isn't all digits",
        })
    }
}

impl Error for RequestFault {}

/// Returns the value of a head's first header line of that name, in any case, without the spaces
/// and tabs around it; of a request's head or of a reply's (RFC 2326 section 4.2).
///
/// None exactly where the head has no line of that name. The value has no LF and at most as many
/// bytes as the head.
pub fn header_of<'a>(head: &'a [u8], name: &[u8]) -> Option<&'a [u8]>
    // answers: the value of the first line of that name, or None if there is none
    ensures value { option_map (λ value. value.now) result ≡ header_value head.now name.now }
    ensures first { IfSome result (λ value.
        IsFirstField name.now (header_lines head.now) value.now) }
    ensures none { IfNone result (HasNoField name.now (header_lines head.now)) }
    // its size: no longer than the head, and without an LF
    ensures short { IfSome result (λ value. length value.now ≤ length head.now) }
    ensures one_line { IfSome result (λ value. is_one_line value.now ≡ true) }
{
    fields::header_value(head, name)
}

/// Returns the value of a request's first header line of that name, as [`header_of`] finds it in
/// the request's head.
pub fn header<'a>(request: &Request<'a>, name: &[u8]) -> Option<&'a [u8]>
    // answers: the value of the first line of that name, or None if there is none
    ensures value { option_map (λ value. value.now) result ≡
        header_value request.now.head.now name.now }
    ensures first { IfSome result (λ value.
        IsFirstField name.now (header_lines request.now.head.now) value.now) }
    ensures none { IfNone result (HasNoField name.now (header_lines request.now.head.now)) }
    // its size: no longer than the head, and without an LF
    ensures short { IfSome result (λ value. length value.now ≤ length request.now.head.now) }
    ensures one_line { IfSome result (λ value. is_one_line value.now ≡ true) }
{
    header_of(request.head, name)
}

/// Returns the number of a message's first CSeq (RFC 2326 section 12.17) that is a number up to
/// 2^64 - 1, also where the message is no request of RTSP 1.0.
///
/// None exactly where no CSeq of the message is such a number.
pub fn sequence_of(message: &[u8]) -> Option<u64>
    ensures value { result ≡ first_sequence message.now }
    ensures first { IfSome result (IsFirstNumber (codes "CSeq") (header_lines message.now)) }
    ensures none { IfNone result (HasNoNumber (codes "CSeq") (header_lines message.now)) }
{
    fields::first_sequence(message)
}

/// Reads a complete request, head and body, as [`interleave::Demux`] splits it off a connection's
/// bytes (RFC 2326 section 6).
///
/// Ok exactly where the message is a request of RTSP 1.0, with its parts; each fault exactly where
/// its cause holds and none before it in [`RequestFault`].
///
/// # Errors
///
/// The first [`RequestFault`] that applies, in the order of its variants.
pub fn read_request(message: &[u8]) -> Result<Request<'_>, RequestFault>
    // needs: one complete message
    requires { IsMessageLength message.now (length message.now) }
    // answers: what was read is a request, and a fault is the first that holds
    ensures read { IfOk result (λ r.
        IsRequest message.now r.method.now r.url.now r.sequence r.head.now r.body.now) }
    ensures refused { IfErr result (IsFault message.now) }
    // and the other way round: each request is read, and each fault is answered
    ensures requests { (method url : List ℕ) (sequence : ℕ) (head body : List ℕ) →
        IsRequest message.now method url sequence head body →
        IsOkAnd result (λ r. (r.method.now ≡ method) × (r.url.now ≡ url)
        × (r.sequence ≡ sequence) × (r.head.now ≡ head) × (r.body.now ≡ body)) }
    ensures faults { (fault : RequestFault) → IsFault message.now fault → result ≡ Err fault }
    // sizes of the parts
    ensures head { IfOk result (λ r. length r.head.now ≤ MAX_HEAD_BYTES) }
    ensures url { IfOk result (λ r. length r.url.now < length r.head.now) }
    ensures body { IfOk result (λ r. length r.body.now ≤ MAX_BODY_BYTES) }
{
    read_parts(message)
}

/// The number, from 1, of the first header line that isn't a name, `:` and a value.
fn first_bad(message: &[u8]) -> Option<u64>
    ensures { MatchOption result (All IsHeaderLine (header_lines message.now))
        (IsFirstBad (header_lines message.now)) }
{
    // The first bad line is named, so that a wrong request has one fault, whatever follows.
    let mut count = 0u64;
    for line in header_lines(message) {
        count += 1;
        if !is_header_line(line) {
            return Some(count);
        }
    }
    None
}

/// Whether the first Content-Length, where there is one, is all digits.
fn has_length(message: &[u8]) -> bool
    ensures { IsTrue result ↔ HasLength message.now }
{
    match fields::header_value(message, b"Content-Length") {
        Some(value) => is_decimal(value),
        // A request without the field has no body (RFC 2326 section 12.14).
        None => true,
    }
}

/// Reads a complete request. What else [`read_request`] ensures follows from these two clauses, and
/// so is proved there once, and not at each return here.
fn read_parts(message: &[u8]) -> Result<Request<'_>, RequestFault>
    requires { IsMessageLength message.now (length message.now) }
    ensures read { IfOk result (λ r.
        IsRequest message.now r.method.now r.url.now r.sequence r.head.now r.body.now) }
    ensures refused { IfErr result (IsFault message.now) }
{
    // The checks stand in the order of the faults: the first that holds is answered, so each
    // message has one answer.
    let line = request_line(first_line(message)).ok_or(RequestFault::BadLine)?;
    if !is_rtsp_1_0(line.version) {
        return Err(RequestFault::BadVersion);
    }
    if let Some(number) = first_bad(message) {
        return Err(RequestFault::BadHeader(number));
    }
    let sequence = fields::sequence_number(message).ok_or(RequestFault::NoSequenceNumber)?;
    if !has_length(message) {
        return Err(RequestFault::BadLength);
    }
    let (head, body) = split(message);
    Ok(Request {
        method: line.method,
        url: line.url,
        sequence,
        head,
        body,
    })
}
