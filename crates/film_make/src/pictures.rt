//! Makes a picture with its headers and slices.

ghost use Rattle.std.specs.Prelude.{◌≡◌, ◌+◌, ◌++◌, ◌%◌, ◌<◌, ◌≤◌, ◌==◌, [], if◌then◌else◌, OnOk};
ghost use Rattle.film_make.specs.Generator.{words_after, words_left};
ghost use Rattle.film_make.specs.Film.{after_slice, body_lengths, body_of, coding_type, in_bytes};
ghost use Rattle.film_make.specs.Film.{least_body, picture_fields, picture_header, picture_of};
ghost use Rattle.film_make.specs.Film.{sequence_and_group, slice_of, slice_words, slices_of};
ghost use Rattle.film_make.specs.Film.{temporal_reference};

use crate::draws::Draws;
use vod_base::NoMemory;

/// Pictures of a group.
pub(crate) const GROUP_PICTURES: u32 = 12;

/// Slices of a picture.
const SLICES: u8 = 4;

/// A sequence header: 352 by 288, square samples, 25 pictures a second, a variable bit rate and a
/// buffer of 20; and the header of a closed group at time 0.
const SEQUENCE_AND_GROUP: [u8; 20] = [
    0, 0, 1, 0xb3, 0x16, 0x01, 0x20, 0x13, 0xff, 0xff, 0xe0, 0xa0, 0, 0, 1, 0xb8, 0x00, 0x08, 0x00,
    0x40,
];

/// How a picture is coded (ISO/IEC 11172-2, picture_coding_type).
#[derive(Clone, Copy)]
pub(crate) enum CodingType {
    /// By itself.
    Intra,
    /// By a picture before it.
    Predicted,
    /// By pictures before and after it.
    Bidirectional,
}

impl CodingType {
    /// The type of a picture of a group, by its place in the stream.
    #[tactic(auto, unfolding(crate::specs::Film::coding_type))]
    fn at(place: u32) -> CodingType
        requires { place < 12 }
        ensures { result ≡ coding_type place }
    {
        if place == 0 {
            CodingType::Intra
        } else if place % 2 == 1 {
            CodingType::Predicted
        } else {
            CodingType::Bidirectional
        }
    }

    /// The least length of a slice's body.
    fn least_body(self) -> u32
        ensures value { result ≡ least_body self }
        ensures bound { result ≤ 300 }
    {
        match self {
            CodingType::Intra => 300,
            CodingType::Predicted => 60,
            CodingType::Bidirectional => 30,
        }
    }

    /// How many lengths a slice's body can have, from the least on.
    fn body_lengths(self) -> u32
        ensures value { result ≡ body_lengths self }
        ensures some { 1 ≤ result }
        ensures bound { result ≤ 1200 }
    {
        match self {
            CodingType::Intra => 1200,
            CodingType::Predicted => 400,
            CodingType::Bidirectional => 200,
        }
    }
}

/// Appends picture `index` of a film, whose draws are the next ones.
#[tactic(auto, using(crate::proofs::Appends::appends), unfolding(crate::specs::Film::picture_of))]
pub(crate) fn write_picture(
    draws: &mut Draws,
    index: u32,
    out: &mut Vec<u8>,
) -> Result<(), NoMemory>
    ensures bytes { OnOk result (out.new.items ≡
        out.old.items ++ picture_of (words_left draws.old) index) }
    ensures left { OnOk result (words_left draws.new ≡
        slice_words (coding_type (index % 12)) (words_left draws.old) 4) }
{
    let place = index % GROUP_PICTURES;
    begin_group(place, out)?;
    write_picture_header(place, out)?;
    write_slices(draws, CodingType::at(place), out)
}

/// The place in the order of showing of a picture of a group.
#[tactic(auto, unfolding(crate::specs::Film::temporal_reference))]
fn temporal_reference_at(place: u32) -> u32
    requires { place < 12 }
    ensures value { result ≡ temporal_reference place }
    ensures bound { result < 12 }
{
    // A B picture is sent after the P picture that it refers to, and shown before it. The last P
    // picture of a group has no B picture after it.
    match place {
        0 => 0,
        11 => 11,
        _ if place % 2 == 1 => place + 1,
        _ => place - 1,
    }
}

/// Appends the fields of a picture header that follow its start code.
fn write_fields(kind: CodingType, shown: u32, out: &mut Vec<u8>) -> Result<(), NoMemory>
    requires { shown < 1024 }
    ensures { OnOk result (out.new.items ≡ out.old.items ++ in_bytes (picture_fields kind shown)) }
{
    // From the highest bit: temporal_reference, type, vbv_delay (FFFF, as the bit rate is
    // variable), then for P and B the vectors' bits with f-codes of 1, and zero bits to the end of
    // the byte.
    let shown = u64::from(shown);
    match kind {
        CodingType::Intra => {
            let bits = ((((shown << 3) + 1) << 16) + 0xffff) << 3;
            out.extend_from_slice(&bits.to_be_bytes()[4..])?;
        }
        CodingType::Predicted => {
            let bits = ((((((shown << 3) + 2) << 16) + 0xffff) << 4) + 1) << 7;
            out.extend_from_slice(&bits.to_be_bytes()[3..])?;
        }
        CodingType::Bidirectional => {
            let bits = ((((((((shown << 3) + 3) << 16) + 0xffff) << 4) + 1) << 4) + 1) << 3;
            out.extend_from_slice(&bits.to_be_bytes()[3..])?;
        }
    }
    Ok(())
}

/// Appends the header of a picture of a group.
#[tactic(auto, using(crate::proofs::Appends::appends), unfolding(crate::specs::Film::picture_header))]
fn write_picture_header(place: u32, out: &mut Vec<u8>) -> Result<(), NoMemory>
    requires { place < 12 }
    ensures { OnOk result (out.new.items ≡ out.old.items ++ picture_header place) }
{
    out.extend_from_slice(&[0, 0, 1, 0])?;
    write_fields(CodingType::at(place), temporal_reference_at(place), out)
}

/// Appends the body of a slice, each byte from 128 to 255.
fn write_body(draws: &mut Draws, length: u32, out: &mut Vec<u8>) -> Result<(), NoMemory>
    ensures bytes { OnOk result (out.new.items ≡
        out.old.items ++ body_of (words_left draws.old) length) }
    ensures left { OnOk result (words_left draws.new ≡ words_after length (words_left draws.old)) }
{
    for i in 0..length {
        // No byte is 00 or 01, so no start code comes up inside a slice.
        out.push(128 + draws.draw(128) as u8)?;
    }
    Ok(())
}

/// Appends a slice, the length of its body drawn before its bytes.
fn write_slice(
    draws: &mut Draws,
    kind: CodingType,
    code: u8,
    out: &mut Vec<u8>,
) -> Result<(), NoMemory>
    ensures bytes { OnOk result (out.new.items ≡
        out.old.items ++ slice_of (words_left draws.old) kind code) }
    ensures left { OnOk result (words_left draws.new ≡ after_slice kind (words_left draws.old)) }
{
    out.extend_from_slice(&[0, 0, 1, code])?;
    let length = kind.least_body() + draws.draw(kind.body_lengths());
    write_body(draws, length, out)
}

/// Appends the slices of a picture.
fn write_slices(draws: &mut Draws, kind: CodingType, out: &mut Vec<u8>) -> Result<(), NoMemory>
    ensures bytes { OnOk result (out.new.items ≡
        out.old.items ++ slices_of (words_left draws.old) kind 4) }
    ensures left { OnOk result (words_left draws.new ≡ slice_words kind (words_left draws.old) 4) }
{
    for slice in 0..SLICES {
        write_slice(draws, kind, slice + 1, out)?;
    }
    Ok(())
}

/// Appends the sequence and group headers before the first picture of a group.
fn begin_group(place: u32, out: &mut Vec<u8>) -> Result<(), NoMemory>
    ensures { OnOk result (out.new.items ≡
        out.old.items ++ (if place == 0 then sequence_and_group else [])) }
{
    if place == 0 {
        // With a sequence header before it, a decoder can begin at each group.
        out.extend_from_slice(&SEQUENCE_AND_GROUP)?;
    }
    Ok(())
}
