//! Reading a certificate, line by line.

ghost use Rattle.std.specs.Prelude.{ℕ, ◌≡◌, ◌≢◌, ◌+◌, ◌^◌, ◌<◌, ◌≤◌, ◌++◌, ◌↔◌, List, IsTrue};
ghost use Rattle.std.specs.Prelude.{length, slice_index, decimal, IfOk, IfErr};
ghost use Rattle.std.specs.Prelude.{MatchOption, MatchResult};
ghost use Rattle.plan_cert.specs.declared.Segment.{Segment};
ghost use Rattle.plan_cert.specs.CertGrammar.{IsNumberLine, IsSegmentLine, AreNumbers};
ghost use Rattle.plan_cert.specs.CertGrammar.{IsCertificate, IsCertRefusal};
ghost use Rattle.plan_cert.specs.CertGrammar.{HasReadLines, IsHead, IsBody};

use crate::Segment;
use crate::sums::{has_bytes, has_slots};
use std::alloc::{AllocFailed, Global};
use thiserror::Error;
use vod_base::{MAX_BYTES, MAX_SLOTS, read_number, split_at_first};

/// The content of a certificate.
#[derive(Debug, PartialEq, Eq, Drop)]
pub struct CertText {
    /// The slots that its head gives, which are those of its segments.
    pub slots: u64,
    /// The bytes that its head gives, which are those of its segments.
    pub bytes: u64,
    /// The segments, in order. One may have no slots.
    pub segments: Vec<Segment>,
}

/// The reason why a text isn't read as a certificate.
#[derive(Clone, Copy, Debug, PartialEq, Eq, Error)]
pub enum CertRead {
    /// This line, from 1, is the first that breaks the grammar, or the one after the last where the
    /// text ends early; or, where all lines are well formed, the first of the lines `slots` and
    /// `bytes` that doesn't agree with the segments.
    #[error("line {line} of the certificate is bad")]
    BadCert { line: u64 },
    /// Out of memory.
    #[error("out of memory")]
    NoMemory,
}

impl<T: Drop> From<AllocFailed<T>> for CertRead {
    ghost use Rattle.plan_cert.specs.declared.cert_reader.CertRead.TheVariants.{NoMemory};

    ghost from_gives = { λ _ refusal. refusal ≡ NoMemory };

    fn from(_error: AllocFailed<T>) -> Self {
        CertRead::NoMemory
    }
}

/// The most segments of a certificate: as many as a plan has slots, since none of its is empty.
pub(crate) const MAX_SEGMENTS: u64 = MAX_SLOTS;

/// The greatest number of a certificate.
pub(crate) const MAX_NUMBER: u64 = MAX_BYTES;

/// Reads a certificate: the text that [`crate::write_cert`] gives of a plan, and of any segments
/// with numbers up to 2^42, at most 1,000,000 of them. Such a text is read as its own segments, or
/// there is no memory; any other is refused.
///
/// # Errors
///
/// [`CertRead::BadCert`] with the line, from 1, that isn't as the grammar says or doesn't agree
/// with the segments; [`CertRead::NoMemory`] where there is none for the segments.
pub fn read_cert(alloc: Global, text: &[u8]) -> Result<CertText, CertRead>
    ensures read { IfOk result (λ cert.
        IsCertificate text.now cert.slots cert.bytes cert.segments.items) }
    ensures refused { IfErr result (IsCertRefusal text.now) }
    ensures certificates { (slots bytes : ℕ) (segments : List Segment) →
        IsCertificate text.now slots bytes segments →
        MatchResult result (λ cert. cert.segments.items ≡ segments)
        (λ refusal. refusal ≡ CertRead.NoMemory) }
{
    read_lines(alloc, text)
}

/// Whether more digits stand after a first digit 0.
fn has_leading_zero(digits: &[u8]) -> bool
    ensures { IsTrue result ↔ ((1 < length digits.now) × (slice_index digits.now 0 ≡ 48)) }
{
    digits.len() > 1 && digits[0] == b'0'
}

/// A number up to 2^42, without leading zeros.
fn cert_number(digits: &[u8]) -> Option<u64>
    ensures { MatchOption result ((n : ℕ) → n ≤ MAX_NUMBER → digits.now ≢ decimal n)
        (λ n. (n ≤ MAX_NUMBER) × (digits.now ≡ decimal n)) }
{
    // A plan has one text only, so a number is written in one way.
    if has_leading_zero(digits) {
        return None;
    }
    match read_number(digits) {
        Ok(n) if n <= MAX_NUMBER => Some(n),
        _ => None,
    }
}

/// Returns what follows a keyword of the line.
fn rest_after<'a>(line: &'a [u8], word: &[u8]) -> Option<&'a [u8]>
    ensures { MatchOption result ((ds : List ℕ) → line.now ≢ word.now ++ ds)
        (λ ds. line.now ≡ word.now ++ ds.now) }
{
    line.strip_prefix(word)
}

/// Returns the number that follows a keyword of the line.
fn number_after(line: &[u8], word: &[u8]) -> Option<u64>
    ensures { MatchOption result ((n : ℕ) → ¬ IsNumberLine word.now line.now n)
        (IsNumberLine word.now line.now) }
{
    cert_number(rest_after(line, word)?)
}

/// The two numbers with a space between them.
fn two_numbers(text: &[u8]) -> Option<Segment>
    ensures { MatchOption result ((s : Segment) → ¬ AreNumbers text.now s) (AreNumbers text.now) }
{
    let (first, second) = split_at_first(text, b' ')?;
    let slots = cert_number(first)?;
    let bytes = cert_number(second)?;
    Some(Segment { slots, bytes })
}

/// The segment of a line.
fn segment_in(line: &[u8]) -> Option<Segment>
    ensures { MatchOption result ((s : Segment) → ¬ IsSegmentLine line.now s)
        (IsSegmentLine line.now) }
{
    two_numbers(rest_after(line, b"segment ")?)
}

/// Whether the line is this text.
fn is_text(line: &[u8], text: &[u8]) -> bool
    ensures { IsTrue result ↔ (line.now ≡ text.now) }
{
    line == text
}

/// The head of a certificate and what stands after it.
#[derive(Clone, Copy)]
struct Head<'a> {
    slots: u64,
    bytes: u64,
    rest: &'a [u8],
}

/// Reads the three lines of the head, or names the first bad one.
fn read_head(text: &[u8]) -> Result<Head<'_>, CertRead>
    ensures { MatchResult result (λ head. IsHead text.now head.slots head.bytes head.rest.now)
        (IsCertRefusal text.now) }
{
    let Some((title, rest)) = split_at_first(text, b'\n') else {
        return Err(CertRead::BadCert { line: 1 });
    };
    if !is_text(title, b"smooth 1") {
        return Err(CertRead::BadCert { line: 1 });
    }
    let Some((slots_line, rest)) = split_at_first(rest, b'\n') else {
        return Err(CertRead::BadCert { line: 2 });
    };
    let Some(slots) = number_after(slots_line, b"slots ") else {
        return Err(CertRead::BadCert { line: 2 });
    };
    let Some((bytes_line, rest)) = split_at_first(rest, b'\n') else {
        return Err(CertRead::BadCert { line: 3 });
    };
    let Some(bytes) = number_after(bytes_line, b"bytes ") else {
        return Err(CertRead::BadCert { line: 3 });
    };
    Ok(Head { slots, bytes, rest })
}

/// Reads the lines of the segments and the end, which are the lines from the fourth on.
fn read_body(alloc: Global, text: &[u8]) -> Result<Vec<Segment>, CertRead>
    ensures read { IfOk result (λ segments. IsBody text.now segments.items) }
    ensures refused { IfErr result (λ refusal.
        (whole : List ℕ) → HasReadLines whole 3 text.now → IsCertRefusal whole refusal) }
{
    let mut segments = Vec::new(alloc);
    let mut rest = text;
    let mut count = 0;
    while let Some((line, after)) = split_at_first(rest, b'\n') {
        if is_text(line, b"end") {
            if after.is_empty() {
                return Ok(segments);
            }
            // Bytes after `end` are on the line after it, which is the bad one.
            return Err(CertRead::BadCert { line: count + 5 });
        }
        let Some(segment) = segment_in(line) else {
            // Three lines of the head and one for each segment come before this one.
            return Err(CertRead::BadCert { line: count + 4 });
        };
        // A plan has no more segments. So the memory that a text can take has a limit.
        if count == MAX_SEGMENTS {
            return Err(CertRead::BadCert { line: count + 4 });
        }
        segments.push(segment)?;
        rest = after;
        count += 1;
    }
    // The text ends before `end`: the bad line is the one that is missing.
    Err(CertRead::BadCert { line: count + 4 })
}

/// Reads the head and the body, and compares the sums.
fn read_lines(alloc: Global, text: &[u8]) -> Result<CertText, CertRead>
    ensures read { IfOk result (λ cert.
        IsCertificate text.now cert.slots cert.bytes cert.segments.items) }
    ensures refused { IfErr result (IsCertRefusal text.now) }
{
    let head = read_head(text)?;
    let segments = read_body(alloc, head.rest)?;
    // The sums come last: a line that breaks the grammar is named before a line `slots` or `bytes`
    // that doesn't agree.
    if !has_slots(segments.as_slice(), head.slots) {
        return Err(CertRead::BadCert { line: 2 });
    }
    if !has_bytes(segments.as_slice(), head.bytes) {
        return Err(CertRead::BadCert { line: 3 });
    }
    Ok(CertText {
        slots: head.slots,
        bytes: head.bytes,
        segments,
    })
}
