//! Where in a system stream the next byte stands, and where a byte leads.

ghost use Rattle.std.specs.Prelude.{◌≡◌, ◌+◌, ◌-◌, ◌≤◌, ◌<◌, ◌==◌, if◌then◌else◌, IsTrue};
ghost use Rattle.std.specs.Prelude.{[], ◌∷◌, length};
ghost use Rattle.sys_demux.specs.StreamItems.{choose, is_chosen};
ghost use Rattle.sys_demux.specs.ValidStates.{least_rest, is_sound};
ghost use Rattle.sys_demux.specs.ParserStates.{IsAtZeros, IsAtPrefix, IsAtHeader, IsPart, LeadsTo};
ghost use Rattle.sys_demux.specs.ParserStates.{Part};
ghost use Rattle.sys_demux.specs.ParserStates.{choosing, of_item, with_byte, place_in, end_fault};

use crate::faults::SystemFault;
use crate::headers::{Header, header_next};

/// The start code value of a stream's end (ISO/IEC 11172-1, section 2.4.3).
const END_VALUE: u8 = 0xb9;

/// The start code value of a pack header (ISO/IEC 11172-1, section 2.4.3); packets have greater
/// ones.
const PACK_VALUE: u8 = 0xba;

/// The bytes of a pack header after its fifth.
const PACK_REST_BYTES: u16 = 7;

/// Where in a stream the next byte stands.
#[derive(Clone, Copy, Debug)]
pub(crate) enum ParserState {
    /// Where an item must stand, after bytes 00: none, one, or two or more.
    Zeros(u8),
    /// After a prefix 00 00 01.
    Value,
    /// At the fifth byte of a pack header.
    Mark,
    /// At the first byte of the length of a packet of this stream_id.
    High(u8),
    /// At the second byte of the length, after the first.
    Low(u8, u8),
    /// In the header of a packet of the chosen stream, with this many bytes of the packet to come.
    InHeader(Header, u16),
    /// In an item, of which this many bytes are to come and to be passed over.
    Pass(u16),
    /// In a packet of the chosen stream, of which this many bytes are to come and are video.
    Video(u16),
    /// After the code of the end.
    End,
    /// After a fault.
    Failed(SystemFault),
}

/// The place after a byte where an item must stand; `at` is the byte's own place.
pub(crate) fn zeros_next(zeros: u8, byte: u8, at: u64) -> ParserState
    ensures sound { IsTrue (is_sound result) }
    ensures next { (p : Part) → IsAtZeros p zeros → at ≡ p.after.start + length p.bytes →
        IsPart (with_byte (of_item p (at - 2)) byte) result }
{
    match byte {
        // Any number of bytes 00 may stand before a prefix, so the count stops at two.
        0 => ParserState::Zeros((zeros.min(1)) + 1),
        1 if zeros >= 2 => ParserState::Value,
        _ => ParserState::Failed(SystemFault::BadCode(at)),
    }
}

/// The place after the start code value of the item at `item`.
pub(crate) fn value_next(value: u8, item: u64) -> ParserState
    ensures sound { IsTrue (is_sound result) }
    ensures next { (p : Part) → IsAtPrefix (of_item p item) [] p.after.chosen →
        IsPart (with_byte (choosing (of_item p item) (choose p.now value)) value) result }
{
    if value == END_VALUE {
        // A stream ends at its end code. What follows is passed over.
        ParserState::End
    } else if value == PACK_VALUE {
        ParserState::Mark
    } else if value > PACK_VALUE {
        // A system header (BB) has its length where packets have it, so it is passed over like one.
        ParserState::High(value)
    } else {
        ParserState::Failed(SystemFault::BadCode(item))
    }
}

/// The place after the fifth byte of the pack header at `item`.
pub(crate) fn mark_next(mark: u8, item: u64) -> ParserState
    ensures sound { IsTrue (is_sound result) }
    ensures next { (p : Part) → IsAtPrefix (of_item p item) (186 ∷ []) p.after.chosen →
        IsPart (with_byte (of_item p item) mark) result }
{
    // MPEG-1 has the bits 0010 here. A pack of MPEG-2 has 01 and other fields.
    if mark / 16 == 2 {
        ParserState::Pass(PACK_REST_BYTES)
    } else {
        ParserState::Failed(SystemFault::NotPack(item))
    }
}

/// The place where this many bytes of an item are to come and to be passed over.
pub(crate) fn pass(left: u16) -> ParserState
    ensures { result ≡ (if left == 0 then ParserState.Zeros 0 else ParserState.Pass left) }
{
    // With `Pass(0)` a call of `feed` would take no byte, and its caller would never end.
    if left == 0 {
        ParserState::Zeros(0)
    } else {
        ParserState::Pass(left)
    }
}

/// The place where this many bytes of a packet are to come and are video.
pub(crate) fn video(left: u16) -> ParserState
    ensures { result ≡ (if left == 0 then ParserState.Zeros 0 else ParserState.Video left) }
{
    if left == 0 {
        ParserState::Zeros(0)
    } else {
        ParserState::Video(left)
    }
}

/// The place after the length of the packet of this stream_id at `item`.
pub(crate) fn length_next(
    chosen: Option<u8>,
    value: u8,
    high: u8,
    low: u8,
    item: u64,
) -> ParserState
    ensures sound { IsTrue (is_sound result) }
    ensures next { (p : Part) → IsAtPrefix (choosing (of_item p item) chosen)
        (value ∷ high ∷ []) (choose p.after.chosen value) →
        187 ≤ value → LeadsTo (with_byte (choosing (of_item p item) chosen) low) result }
{
    let length = u16::from(high) * 256 + u16::from(low);
    // Only the chosen stream is judged. Packets of others, such as audio, may have any content.
    if !is_chosen(chosen, value) {
        pass(length)
    } else if length == 0 {
        // A header has one byte at least: 0F where no time stamp stands.
        ParserState::Failed(SystemFault::BadPacket(item))
    } else {
        ParserState::InHeader(Header::Stuffing(0), length)
    }
}

/// The place after a byte of the header of the packet at `item`, with `left` bytes of the packet
/// after it.
pub(crate) fn header_place(header: Header, byte: u8, left: u16, item: u64) -> ParserState
    requires some { 0 < least_rest header }
    requires enough { least_rest header ≤ left + 1 }
    ensures sound { IsTrue (is_sound result) }
    ensures next { (p : Part) → IsAtHeader (of_item p item) header (left + 1) →
        LeadsTo (with_byte (of_item p item) byte) result }
{
    match header_next(header, byte, left) {
        None => ParserState::Failed(SystemFault::BadPacket(item)),
        Some(next) => header_goes_on(next, left),
    }
}

/// Why a stream that ends at this place, in the item at `item`, is none.
pub(crate) fn end_fault(place: ParserState, item: u64) -> Option<SystemFault>
    ensures { result ≡ end_fault place item }
{
    match place {
        // A stream may lack its end code, and bytes 00 at its end are stuffing.
        ParserState::Zeros(_) | ParserState::End => None,
        ParserState::Failed(fault) => Some(fault),
        _ => Some(SystemFault::Truncated(item)),
    }
}

/// Whether a packet of this stream_id is one of the chosen stream.
fn is_chosen(chosen: Option<u8>, value: u8) -> bool
    ensures { result ≡ is_chosen chosen value }
{
    match chosen {
        Some(first) => first == value,
        None => false,
    }
}

/// The place where the header of a packet goes on so, with `left` bytes of the packet to come.
fn header_goes_on(next: Header, left: u16) -> ParserState
    requires { least_rest next ≤ left }
    ensures sound { IsTrue (is_sound result) }
    ensures place { result ≡ place_in next left }
{
    match next {
        // With the last byte of the header the video begins, which may have no byte.
        Header::Rest(0) => video(left),
        _ => ParserState::InHeader(next, left),
    }
}
