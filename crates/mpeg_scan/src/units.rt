//! The pictures of a film with their headers and slices, and how long a picture lasts.

ghost use Rattle.std.specs.Prelude.{◌≡◌, ◌≤◌};
ghost use Rattle.mpeg_scan.specs.PictureRates.{picture_time};
ghost use Rattle.mpeg_scan.specs.StandardUnits.{type_number};
ghost use Rattle.mpeg_scan.specs.CodeFacts.{kind_of};

/// The most bytes of a film, 2^40.
pub const MAX_FILM_BYTES: u64 = 1 << 40;

/// A bound on the counts of bytes and of codes in a scan: twice the bytes of the longest film. No
/// scan reaches it, and below it no sum overflows.
pub(crate) const MAX_COUNTED_BYTES: u64 = 1 << 41;

/// The most bytes of a unit before its first slice: they go into one packet.
pub const MAX_UNIT_HEAD_BYTES: u64 = 1380;

/// The most pictures of a group: a temporal_reference has 10 bits (ISO/IEC 11172-2, 2.4.2.5).
pub const MAX_GROUP_PICTURES: u32 = 1024;

/// The kind of a picture, its picture_coding_type (ISO/IEC 11172-2, 2.4.3.4).
#[derive(Clone, Copy, Debug, PartialEq, Eq)]
pub enum Kind {
    /// Coded by itself.
    I,
    /// Predicted from a picture before it.
    P,
    /// Predicted from pictures before and after it.
    B,
    /// Coded by its average colours alone.
    D,
}

impl Kind {
    /// The kind that picture_coding_type says, a number from 1 to 4.
    pub(crate) fn from_code(code: u8) -> Kind
        ensures { result ≡ kind_of code }
    {
        match code {
            1 => Kind::I,
            2 => Kind::P,
            3 => Kind::B,
            // The header was judged before: its type is one of the four.
            _ => Kind::D,
        }
    }

    /// Returns its picture_coding_type, 1 to 4 (ISO/IEC 11172-2, 2.4.3.4).
    pub fn code(self) -> u8
        ensures { result ≡ type_number self }
    {
        match self {
            Kind::I => 1,
            Kind::P => 2,
            Kind::B => 3,
            Kind::D => 4,
        }
    }
}

/// A picture of a film with the headers before it, and its slices. Places are in bytes from the
/// film's first.
#[derive(Clone, Copy, Debug, PartialEq, Eq)]
pub struct Unit {
    /// The place of its first start code.
    pub from: u64,
    /// The place of its first slice.
    pub head_end: u64,
    /// Where it ends: the place of the next unit, or the film's end.
    pub to: u64,
    /// How many slices stand in the units before it.
    pub first_slice: u64,
    /// How many slices it has.
    pub slices: u64,
    /// The picture's temporal_reference, 0 to 1,023.
    pub temporal: u16,
    /// The number of units before its group, and its temporal_reference more.
    pub presentation: u64,
    /// The picture's kind.
    pub kind: Kind,
    /// full_pel_backward, backward_f_code, full_pel_forward and forward_f_code, from the highest
    /// bit (ISO/IEC 11172-2, 2.4.2.5); those that the picture hasn't are 0.
    pub vectors: u8,
    /// Whether a sequence header stands in its head.
    pub has_sequence: bool,
    /// Whether it starts a group.
    pub starts_group: bool,
}

/// The times of a picture in 1/360,000 second, for the picture rate codes from 1 on (ISO/IEC
/// 11172-2, 2.4.3.2). 360,000 is the least number of units a second for which all eight times and a
/// tick of 90 kHz are integers.
const PICTURE_TIMES: [u32; 8] = [15015, 15000, 14400, 12012, 12000, 7200, 6006, 6000];

/// Returns the time of a picture in 1/360,000 second, by the picture rate code of a sequence
/// header, 1 to 8 (ISO/IEC 11172-2, 2.4.3.2).
pub fn picture_time(rate: u8) -> u32
    requires low { 1 ≤ rate }
    requires high { rate ≤ 8 }
    ensures { result ≡ picture_time rate }
{
    PICTURE_TIMES[usize::from(rate) - 1]
}
