//! Finds the end of a request.

ghost use Rattle.std.specs.Prelude.{◌≡◌, ◌+◌, ◌<◌, ◌≤◌, length, MatchOption, MatchResult, Ok, Err};
ghost use Rattle.interleave.specs.declared.elements.DemuxFault.{DemuxFault};
ghost use Rattle.interleave.specs.declared.elements.Step.{Step};
ghost use Rattle.interleave.specs.Heads.{empty_line_ends, HasNoHead, IsHead};
ghost use Rattle.interleave.specs.Elements.{IsFirst, StartsMessage};
ghost use Rattle.interleave.specs.HeadSearch.{IsHeadSearch, IsSettled};

use crate::content_lengths::{MAX_BODY_BYTES, body_length};
use crate::elements::{DemuxFault, Step};

/// What is remembered about the request at the start of the waiting bytes.
#[derive(Clone, Copy)]
pub(crate) enum HeadSearch {
    /// No empty line ends among this many bytes.
    Searched(usize),
    /// The request has this length, head and body.
    Length(usize),
}

/// The most bytes of a message's head, with its empty line.
pub const MAX_HEAD_BYTES: usize = 16_384;

/// Finds out what the waiting bytes show of the request at their start.
pub(crate) fn search_head(bytes: &[u8], known: HeadSearch) -> Result<HeadSearch, DemuxFault>
    requires request { StartsMessage bytes.now }
    requires known { IsHeadSearch bytes.now known }
    ensures { MatchResult result (IsSettled bytes.now) (λ f. IsFirst bytes.now (Err f)) }
{
    // Each byte is searched once: a client that sends byte by byte doesn't make a look longer.
    let HeadSearch::Searched(from) = known else {
        return Ok(known);
    };
    let to = bytes.len().min(MAX_HEAD_BYTES);
    match find_head(bytes, from, to) {
        Some(head) => length_with_head(bytes, head),
        // Its end can't be awaited in bounded memory, and without it no next request is found.
        None if to == MAX_HEAD_BYTES => Err(DemuxFault::HeadTooLong),
        None => Ok(HeadSearch::Searched(to)),
    }
}

/// The step that follows from all that is known of the first request.
pub(crate) fn request_step(bytes: &[u8], known: HeadSearch) -> Step
    requires request { StartsMessage bytes.now }
    requires known { IsSettled bytes.now known }
    ensures first { IsFirst bytes.now (Ok result) }
    ensures few { result ≡ Step.More → length bytes.now < MAX_HEAD_BYTES + MAX_BODY_BYTES }
{
    match known {
        HeadSearch::Length(total) => {
            if total <= bytes.len() {
                Step::Request(total)
            } else {
                Step::More
            }
        }
        HeadSearch::Searched(_) => Step::More,
    }
}

/// Whether an empty line ends with the byte at `at`.
fn empty_line_ends(bytes: &[u8], at: usize) -> bool
    requires { at < length bytes.now }
    ensures { result ≡ empty_line_ends bytes.now at }
{
    // RFC 2326, section 4, asks receivers to accept LF alone as a line end, too.
    bytes[at] == b'\n'
        && ((at > 0 && bytes[at - 1] == b'\n')
            || (at > 1 && bytes[at - 1] == b'\r' && bytes[at - 2] == b'\n'))
}

/// The head's length, where an empty line ends before `to`; none ends before `from`.
fn find_head(bytes: &[u8], from: usize, to: usize) -> Option<usize>
    requires order { from ≤ to }
    requires within { to ≤ length bytes.now }
    requires searched { HasNoHead bytes.now from }
    ensures { MatchOption result (HasNoHead bytes.now to) (λ head. (head ≤ to)
        × IsHead bytes.now head) }
{
    for at in from..to {
        if empty_line_ends(bytes, at) {
            return Some(at + 1);
        }
    }
    None
}

/// The length of the first request, whose head has this length.
#[tactic(auto, using(crate::proofs::HeadSearchResults::request_steps))]
fn length_with_head(bytes: &[u8], head: usize) -> Result<HeadSearch, DemuxFault>
    requires request { StartsMessage bytes.now }
    requires is_head { IsHead bytes.now head }
    requires fits { head ≤ MAX_HEAD_BYTES }
    ensures { MatchResult result (IsSettled bytes.now) (λ f. IsFirst bytes.now (Err f)) }
{
    match body_length(&bytes[..head]) {
        Some(body) => Ok(HeadSearch::Length(head + body)),
        None => Err(DemuxFault::BodyTooLong),
    }
}
