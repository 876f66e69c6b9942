//! What the start codes so far say of the latest unit: its picture header, counts and places.

ghost use Rattle.std.specs.Prelude.{◌≡◌, ◌≤◌, ℕ, List, [], Some};
ghost use Rattle.mpeg_scan.specs.ScanBounds.{HasCounts};
ghost use Rattle.mpeg_scan.specs.CodeFacts.{header_of, is_head, is_slice, rate_code, tally_of};
ghost use Rattle.mpeg_scan.specs.CodeFacts.{type_of};
ghost use Rattle.mpeg_scan.specs.CodeSteps.{next, next_rate};
ghost use Rattle.mpeg_scan.specs.TallyFields.{count_of, ends_unit, new_unit, slices_with};
ghost use Rattle.mpeg_scan.specs.TallyFields.{unit_after, unit_or_none, unit_with};

use crate::codes::Code;
use crate::units::{Kind, MAX_COUNTED_BYTES};
use std::marker::Model;

/// The start code value of a picture (ISO/IEC 11172-2, table 2-D.1).
pub(crate) const PICTURE: u8 = 0x00;

/// The start code value of a sequence header.
pub(crate) const SEQUENCE: u8 = 0xb3;

/// The start code value of an extension.
pub(crate) const EXTENSION: u8 = 0xb5;

/// The start code value of a group header.
pub(crate) const GROUP: u8 = 0xb8;

/// The least value of a system start code; those above it are system start codes too.
pub(crate) const FIRST_SYSTEM: u8 = 0xb9;

/// The greatest start code value of a slice; those from 1 to it are slices.
const LAST_SLICE: u8 = 0xaf;

/// Whether a code of this value begins a header of a head.
pub(crate) fn is_head(value: u8) -> bool
    ensures { result ≡ is_head value }
{
    value == PICTURE || value == SEQUENCE || value == GROUP
}

/// Whether a code of this value begins a slice.
pub(crate) fn is_slice(value: u8) -> bool
    ensures { result ≡ is_slice value }
{
    1 <= value && value <= LAST_SLICE
}

/// The picture rate code of a sequence header.
pub(crate) fn rate_code(code: &Code) -> u8
    ensures { result ≡ rate_code code.now }
{
    // It stands after the width (12 bits), the height (12) and the aspect ratio (4).
    code.header.byte(3) % 16
}

/// The type in a picture header.
pub(crate) fn type_of(code: &Code) -> u8
    ensures { result ≡ type_of code.now }
{
    // It stands after temporal_reference (10 bits), and has 3 bits.
    code.header.byte(1) / 8 % 8
}

/// What a unit's picture header says.
#[derive(Clone, Copy, Debug)]
pub(crate) struct Header {
    /// The place of its start code.
    pub(crate) place: u64,
    /// temporal_reference.
    pub(crate) temporal: u16,
    /// What picture_coding_type says; the header is judged, so that it is of one of the four kinds.
    pub(crate) kind: Kind,
    /// full_pel_backward, backward_f_code, full_pel_forward and forward_f_code, from the highest
    /// bit; those that the picture hasn't are 0.
    pub(crate) vectors: u8,
}

impl Header {
    /// What a picture's start code and the header after it say.
    fn of_picture(code: &Code) -> Header
        ensures { result ≡ header_of code.now }
    {
        // vbv_delay (16 bits) stands between the type and the fields of the vectors.
        let forward = code.header.byte(3) % 8 * 2 + code.header.byte(4) / 128;
        let backward = code.header.byte(4) / 8 % 16;
        let kind = Kind::from_code(type_of(code));
        Header {
            place: code.place,
            temporal: u16::from(code.header.byte(0)) * 4 + u16::from(code.header.byte(1) / 64),
            kind,
            vectors: match kind {
                // These headers have no such fields: other bits stand in their place.
                Kind::I | Kind::D => 0,
                Kind::P => forward,
                Kind::B => backward * 16 + forward,
            },
        }
    }
}

/// The slices of a unit so far, of which there is one at least.
#[derive(Clone, Copy, Debug)]
pub(crate) struct Slices {
    /// The place of the first.
    pub(crate) first: u64,
    /// The place of the last.
    pub(crate) last: u64,
    /// How many there are.
    pub(crate) count: u64,
}

impl Slices {
    /// Adds a slice at `place` to those of a unit.
    #[inline(always)]
    fn add_to(slices: &mut Option<Slices>, place: u64)
        requires { count_of slices.old ≤ MAX_COUNTED_BYTES }
        ensures { slices.new ≡ Some (slices_with slices.old place) }
    {
        match slices {
            Some(slices) => {
                slices.last = place;
                slices.count += 1;
            }
            None => {
                *slices = Some(Slices {
                    first: place,
                    last: place,
                    count: 1,
                });
            }
        }
    }
}

/// What the start codes so far say of a unit.
#[derive(Clone, Copy, Debug)]
pub(crate) struct UnitTally {
    /// The place of its first start code.
    pub(crate) from: u64,
    /// Its picture's header, once that code was read.
    pub(crate) picture: Option<Header>,
    /// Its slices, once the first was read.
    pub(crate) slices: Option<Slices>,
    /// Whether a sequence header stands in its head.
    pub(crate) has_sequence: bool,
    /// Whether it starts a group.
    pub(crate) starts_group: bool,
}

impl UnitTally {
    /// One that begins at `place`, without the code that stands there.
    fn new(place: u64, starts_group: bool) -> UnitTally
        ensures { result ≡ new_unit place starts_group }
    {
        UnitTally {
            from: place,
            picture: None,
            slices: None,
            has_sequence: false,
            starts_group,
        }
    }

    /// Whether a code of this value ends it: the first of a head after a slice.
    fn ends_at(&self, value: u8) -> bool
        ensures { result ≡ ends_unit self.now value }
    {
        is_head(value) && self.slices.is_some()
    }

    /// Adds a code, which doesn't end it.
    #[inline(always)]
    fn add(&mut self, code: &Code)
        requires { count_of self.old.slices ≤ MAX_COUNTED_BYTES }
        ensures { self.new ≡ unit_with self.old code.now }
    {
        if code.value == PICTURE {
            // A second picture in a head was refused before, so the unit has this one alone.
            self.picture = Some(Header::of_picture(code));
        }
        if is_slice(code.value) {
            Slices::add_to(&mut self.slices, code.place);
        }
        if code.value == SEQUENCE {
            self.has_sequence = true;
        }
        if code.value == GROUP {
            self.starts_group = true;
        }
    }

    /// Adds a code to the latest unit, or to the next one where it ends that. The film's first unit
    /// starts a group.
    #[inline(always)]
    fn add_to(latest: &mut Option<UnitTally>, code: &Code)
        requires { count_of (unit_or_none latest.old).slices ≤ MAX_COUNTED_BYTES }
        ensures { latest.new ≡ Some (unit_after latest.old code.now) }
    {
        match latest {
            Some(unit) if !unit.ends_at(code.value) => unit.add(code),
            _ => {
                let mut unit = UnitTally::new(code.place, latest.is_none());
                unit.add(code);
                *latest = Some(unit);
            }
        }
    }
}

/// What the start codes so far say of the film and of its latest unit.
#[derive(Clone, Copy, Debug)]
pub(crate) struct Tally {
    /// The rate code of the film's first sequence header.
    pub(crate) rate: Option<u8>,
    /// How many pictures the film has.
    pub(crate) pictures: u32,
    /// How many of them come before the latest group.
    pub(crate) before_group: u32,
    /// How many slices the film has.
    pub(crate) all_slices: u64,
    /// The latest unit, once a code was read.
    pub(crate) unit: Option<UnitTally>,
}

impl Model for Tally {
    ghost use Rattle.mpeg_scan.specs.Tallies.{Tally};

    ghost Value = { Tally };

    ghost use Rattle.mpeg_scan.specs.TallyFields.{IsTally, fields_back, fields_of, words_of};

    ghost view = { words_of };

    ghost invariant = { IsTally };

    ghost inverse = { fields_of };

    ghost inverse_ok = { fields_back };
}

impl Tally {
    /// Of no codes.
    pub(crate) fn new() -> Tally
        ensures { result ≡ tally_of [] }
    {
        Tally {
            rate: None,
            pictures: 0,
            before_group: 0,
            all_slices: 0,
            unit: None,
        }
    }

    /// Adds a code, whose header is complete. In place, since most codes change little of the
    /// tally. Inlined, since little of it is left where the caller knows that the code is a
    /// slice's.
    #[inline(always)]
    #[tactic(auto, unfolding(crate::specs::CodeSteps::next))]
    pub(crate) fn add(&mut self, code: &Code)
        requires { HasCounts self.old MAX_COUNTED_BYTES }
        ensures { self.new ≡ next self.old code.now }
    {
        self.rate = self.next_rate(code);
        if code.value == GROUP {
            self.before_group = self.pictures;
        }
        if code.value == PICTURE {
            self.pictures += 1;
        }
        if is_slice(code.value) {
            self.all_slices += 1;
        }
        UnitTally::add_to(&mut self.unit, code);
    }

    /// The film's rate code with one code more.
    fn next_rate(&self, code: &Code) -> Option<u8>
        ensures { result ≡ next_rate self.now code.now }
    {
        match self.rate {
            None if code.value == SEQUENCE => Some(rate_code(code)),
            // A later sequence header with another rate was refused.
            rate => rate,
        }
    }
}
