//! Why a film is refused, judged by its start codes one after another.

ghost use Rattle.std.specs.Prelude.{◌≡◌, ◌≤◌, true};
ghost use Rattle.mpeg_scan.specs.FilmFaults.{header_fault, picture_fault, rate_fault, differs};
ghost use Rattle.mpeg_scan.specs.FilmFaults.{code_fault, value_fault, second_fault};
ghost use Rattle.mpeg_scan.specs.FilmFaults.{first_slice_fault, count_fault, last_fault};
ghost use Rattle.mpeg_scan.specs.ScanBounds.{HasRoom};
ghost use Rattle.mpeg_scan.specs.CodeFacts.{is_slice};

use crate::codes::Code;
use crate::tallies::{
    EXTENSION, FIRST_SYSTEM, GROUP, PICTURE, SEQUENCE, Tally, is_head, is_slice, rate_code, type_of,
};
use crate::units::{MAX_GROUP_PICTURES, MAX_UNIT_HEAD_BYTES};
use thiserror::Error;
use vod_base::{MAX_FILM_PICTURES, NoMemory};

/// Why a film is refused. Places are those of start codes, in bytes from the film's first.
#[derive(Clone, Copy, Debug, PartialEq, Eq, Error)]
pub enum FilmFault {
    /// There is no byte.
    #[error("the film has no byte")]
    Empty,
    /// The first start code isn't that of a sequence header, or there is none.
    #[error("no sequence header is first")]
    NoSequence,
    /// A system code.
    #[error("a system code at byte {0}")]
    SystemCode(u64),
    /// An extension, which MPEG-1 video hasn't.
    #[error("an extension at byte {0}")]
    Mpeg2(u64),
    /// A header with fewer bytes than its fields have.
    #[error("a header cut short at byte {0}")]
    ShortHeader(u64),
    /// A picture rate code outside 1 to 8, or another than the film's first.
    #[error("picture rate code {1} at byte {0}")]
    BadRate(u64, u8),
    /// A picture type outside 1 to 4.
    #[error("no type of a picture at byte {0}")]
    BadType(u64),
    /// A picture without slices.
    #[error("no slice of the picture at byte {0}")]
    PictureWithoutSlices(u64),
    /// A unit whose head has more than 1,380 bytes.
    #[error("a head too long at byte {0}")]
    HeadTooLong(u64),
    /// The 1,025th picture of a group.
    #[error("too many pictures of a group at byte {0}")]
    GroupTooLong(u64),
    /// More than 2^40 bytes, or the 4,194,305th picture.
    #[error("the film is too long")]
    TooLong,
    /// A unit whose head has no picture.
    #[error("a head without a picture at byte {0}")]
    HeadWithoutPicture(u64),
}

/// Why a film isn't scanned.
#[derive(Clone, Copy, Debug, PartialEq, Eq, Error)]
pub enum ScanRefused {
    /// The film is refused.
    #[error("{0}")]
    Fault(FilmFault),
    /// Out of memory.
    #[error("out of memory")]
    NoMemory,
}

impl From<FilmFault> for ScanRefused {
    ghost use Rattle.mpeg_scan.specs.declared.faults.ScanRefused.TheVariants.{Fault};

    ghost from_gives = { λ fault refused. refused ≡ Fault fault };

    fn from(fault: FilmFault) -> ScanRefused {
        ScanRefused::Fault(fault)
    }
}

impl From<NoMemory> for ScanRefused {
    ghost use Rattle.mpeg_scan.specs.declared.faults.ScanRefused.{ScanRefused};

    ghost from_gives = { λ _ refused. refused ≡ ScanRefused.NoMemory };

    fn from(_want: NoMemory) -> ScanRefused {
        ScanRefused::NoMemory
    }
}

/// The bytes of a sequence header without matrices, its start code among them.
const SEQUENCE_HEADER: u64 = 12;

/// The bytes of a group header, its start code among them.
const GROUP_HEADER: u64 = 8;

/// The bytes of a picture header without the fields of its vectors, its start code among them.
const PICTURE_HEADER: u64 = 8;

/// The bytes of a picture header with the fields of its vectors, its start code among them.
const VECTORS_HEADER: u64 = 9;

/// The refusal of the header that `code` begins, where the next code, or the film's end, stands at
/// `end`. `rate` is that of the film's first sequence header, once there is one.
pub(crate) fn header_fault(rate: Option<u8>, code: &Code, end: u64) -> Option<FilmFault>
    requires { code.now.place ≤ end }
    ensures { result ≡ header_fault rate code.now end }
{
    // A header's fields can't reach into the next code.
    let length = end - code.place;
    if code.value == SEQUENCE {
        if length < SEQUENCE_HEADER {
            Some(FilmFault::ShortHeader(code.place))
        } else {
            rate_fault(rate, code)
        }
    } else if code.value == GROUP {
        if length < GROUP_HEADER {
            Some(FilmFault::ShortHeader(code.place))
        } else {
            None
        }
    } else if code.value == PICTURE {
        picture_fault(code, end)
    } else {
        None
    }
}

/// The refusal of a code after those of `tally`, once the headers before it are judged.
pub(crate) fn code_fault(tally: &Tally, place: u64, value: u8) -> Option<FilmFault>
    requires { HasRoom tally.now place }
    ensures { result ≡ code_fault tally.now place value }
{
    // Of several refusals at one code the first in this order counts, so a film has one refusal.
    value_fault(tally, place, value)
        .or_else(|| second_fault(tally, value))
        .or_else(|| first_slice_fault(tally, place, value))
        .or_else(|| count_fault(tally, place, value))
}

/// The refusal at a film's end, once the headers are judged.
pub(crate) fn last_fault(tally: &Tally) -> Option<FilmFault>
    ensures { result ≡ last_fault tally.now }
{
    let Some(unit) = tally.unit else {
        return Some(FilmFault::NoSequence);
    };
    match (unit.slices, unit.picture) {
        // At its first slice the unit was judged: it has a picture.
        (Some(_), _) => None,
        (None, None) => Some(FilmFault::HeadWithoutPicture(unit.from)),
        (None, Some(picture)) => Some(FilmFault::PictureWithoutSlices(picture.place)),
    }
}

/// The refusal of a sequence header by its picture rate code: none of the eight, or another than
/// the film's first.
fn rate_fault(rate: Option<u8>, code: &Code) -> Option<FilmFault>
    ensures { result ≡ rate_fault rate code.now }
{
    let own = rate_code(code);
    if own == 0 || 8 < own || differs(rate, own) {
        Some(FilmFault::BadRate(code.place, own))
    } else {
        None
    }
}

/// Whether a rate code is another than the first, if there was one.
fn differs(rate: Option<u8>, code: u8) -> bool
    ensures { result ≡ differs rate code }
{
    match rate {
        None => false,
        Some(rate) => code != rate,
    }
}

/// The refusal of a picture header: too short, or of no type.
fn picture_fault(code: &Code, end: u64) -> Option<FilmFault>
    requires { code.now.place ≤ end }
    ensures { result ≡ picture_fault code.now end }
{
    // The type reads as 0 where it is missing. Such a header is shorter than 8 bytes, too.
    let coding_type = type_of(code);
    let length = end - code.place;
    if length < PICTURE_HEADER
        || ((coding_type == 2 || coding_type == 3) && length < VECTORS_HEADER)
    {
        Some(FilmFault::ShortHeader(code.place))
    } else if 1 <= coding_type && coding_type <= 4 {
        None
    } else {
        Some(FilmFault::BadType(code.place))
    }
}

/// The refusal of a code by its value: a system code, an extension, or a code other than a sequence
/// header at the film's start.
fn value_fault(tally: &Tally, place: u64, value: u8) -> Option<FilmFault>
    ensures { result ≡ value_fault tally.now place value }
{
    if value >= FIRST_SYSTEM {
        // Packs of a system stream were taken off before, so none belongs here.
        Some(FilmFault::SystemCode(place))
    } else if value == EXTENSION {
        // MPEG-2 has an extension after each sequence header; in MPEG-1 the code is reserved.
        Some(FilmFault::Mpeg2(place))
    } else if tally.unit.is_none() && value != SEQUENCE {
        Some(FilmFault::NoSequence)
    } else {
        None
    }
}

/// The refusal of a code of a head after a picture that has no slice yet.
fn second_fault(tally: &Tally, value: u8) -> Option<FilmFault>
    ensures { result ≡ second_fault tally.now value }
{
    let unit = tally.unit?;
    if is_head(value) && unit.slices.is_none() {
        Some(FilmFault::PictureWithoutSlices(unit.picture?.place))
    } else {
        None
    }
}

/// The refusal of the first slice of a unit by the head before it: without a picture, or too long.
fn first_slice_fault(tally: &Tally, place: u64, value: u8) -> Option<FilmFault>
    requires begun { is_slice value ≡ true → tally.now.begun ≡ true }
    requires from { tally.now.unit ≤ place }
    ensures { result ≡ first_slice_fault tally.now place value }
{
    let unit = tally.unit?;
    if !is_slice(value) || unit.slices.is_some() {
        None
    } else if unit.picture.is_none() {
        Some(FilmFault::HeadWithoutPicture(unit.from))
    } else if MAX_UNIT_HEAD_BYTES < place - unit.from {
        // RFC 2250, section 3.1: no header is split, and here one packet takes all of a head.
        Some(FilmFault::HeadTooLong(unit.from))
    } else {
        None
    }
}

/// The refusal of one picture more in its group or film.
fn count_fault(tally: &Tally, place: u64, value: u8) -> Option<FilmFault>
    requires { tally.now.before_group ≤ tally.now.pictures }
    ensures { result ≡ count_fault tally.now place value }
{
    if value != PICTURE {
        None
    } else if tally.pictures - tally.before_group >= MAX_GROUP_PICTURES {
        // A temporal_reference of 10 bits would name two pictures of the group.
        Some(FilmFault::GroupTooLong(place))
    } else if tally.pictures >= MAX_FILM_PICTURES {
        Some(FilmFault::TooLong)
    } else {
        None
    }
}
