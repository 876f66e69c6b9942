//! The Range header.

ghost use Rattle.std.specs.Prelude.{◌≡◌, ℕ, Option, MatchOption};
ghost use Rattle.rtsp_fields.specs.declared.ranges.Origin.{Origin};
ghost use Rattle.rtsp_fields.specs.declared.ranges.Span.{Span};
ghost use Rattle.rtsp_fields.specs.Ranges.{IsLimit, IsOrigin, IsSpan};

use crate::npt_times::read_time;
use crate::separated_parts::{part_end, starts_with};

/// What a range in normal play time begins with.
const UNIT: &[u8; 4] = b"npt=";

/// Where play begins.
#[derive(Clone, Copy, Debug, PartialEq, Eq)]
pub enum Origin {
    /// Where the last play ended.
    Now,
    /// At this time, in nanoseconds from the film's beginning.
    At(u128),
}

/// From where and how far a film is to be played.
#[derive(Clone, Copy, Debug, PartialEq, Eq)]
pub struct Span {
    /// Where play begins.
    pub from: Origin,
    /// Where it ends, in nanoseconds from the film's beginning; None for the film's end.
    pub to: Option<u128>,
}

/// Reads the value of a Range header in normal play time (RFC 2326 sections 3.6 and 12.29):
/// `npt=FROM-` or `npt=FROM-TO`.
///
/// `npt` is in any case. FROM is `now`, in lower case, or a time, TO a time. A time is 1 to 9
/// digits, or 1 to 5 digits for hours and twice one or two digits up to 59 for minutes and seconds,
/// with `:` between them; a point and any digits may follow, of which nine count. None exactly
/// where the value is of no such form. Whether TO is after FROM isn't judged here.
pub fn read_range(value: &[u8]) -> Option<Span>
    ensures { MatchOption result ((span : Span) → ¬ IsSpan value.now span) (IsSpan value.now) }
{
    // Other units (`smpte`, `clock`) give None: normal play time is enough for stored films.
    if !starts_with(value, UNIT) {
        return None;
    }
    // No time has a `-`, so the first one parts FROM and TO.
    let dash = part_end(value, UNIT.len(), b'-');
    if dash == value.len() {
        return None;
    }
    // An empty FROM is no time, so the form `npt=-TO` gives None.
    let from = read_origin(&value[UNIT.len()..dash])?;
    let to = read_limit(&value[dash + 1..])?;
    Some(Span { from, to })
}

/// What stands before the `-` of a range: `now` or a time.
fn read_origin(text: &[u8]) -> Option<Origin>
    ensures { MatchOption result ((origin : Origin) →
        ¬ IsOrigin text.now origin) (IsOrigin text.now) }
{
    if text == b"now".as_slice() {
        return Some(Origin::Now);
    }
    let time = read_time(text)?;
    Some(Origin::At(time))
}

/// What stands after the `-` of a range: nothing or a time.
fn read_limit(text: &[u8]) -> Option<Option<u128>>
    ensures { MatchOption result ((limit : Option ℕ) →
        ¬ IsLimit text.now limit) (IsLimit text.now) }
{
    // No TO is the film's end. The outer `Option` says whether the text is a limit at all.
    if text.is_empty() {
        return Some(None);
    }
    let time = read_time(text)?;
    Some(Some(time))
}
