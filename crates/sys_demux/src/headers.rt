//! The header of a packet's content: stuffing, buffer size and time stamps.

ghost use Rattle.std.specs.Prelude.{◌≡◌, ℕ, ◌+◌, ◌≤◌, ◌<◌, List, ◌∷◌, length, None, MatchOption};
ghost use Rattle.sys_demux.specs.PacketContents.{from_stamp, from_size, after_bytes};
ghost use Rattle.sys_demux.specs.ValidStates.{least_rest};
ghost use Rattle.sys_demux.specs.ParserStates.{video_from};

/// Where in the header of a packet's content the next byte stands (ISO/IEC 11172-1, section
/// 2.4.3.3).
#[derive(Clone, Copy, Debug)]
pub(crate) enum Header {
    /// After this many bytes FF of stuffing, at most 16.
    Stuffing(u8),
    /// At the second byte of the buffer size.
    Second,
    /// At the time stamp's first byte.
    Stamp,
    /// At the last so many bytes of the time stamp; with 0, after the header.
    Rest(u8),
}

/// Where the header goes on after a byte, with `left` bytes of the content after it; None where no
/// content of this length that begins so has a header.
pub(crate) fn header_next(header: Header, byte: u8, left: u16) -> Option<Header>
    requires some { 0 < least_rest header }
    requires enough { least_rest header ≤ left + 1 }
    ensures { MatchOption result ((rest : List ℕ) → length rest ≡ left →
        video_from header (byte ∷ rest) ≡ None)
        (λ next. (least_rest next ≤ left)
        × ((rest : List ℕ) → length rest ≡ left →
        video_from header (byte ∷ rest) ≡ video_from next rest)) }
{
    // `left` is known, so a header too long for its packet is refused as soon as it shows.
    match header {
        Header::Stuffing(count) => after_stuffing(count, byte, left),
        Header::Second => Some(Header::Stamp),
        Header::Stamp => after_stamp(byte, left),
        Header::Rest(count) => Some(Header::Rest(count - 1)),
    }
}

/// How many bytes of the time stamp stand after its first one.
fn stamp_rest(byte: u8) -> Option<u8>
    ensures { MatchOption result ((rest : List ℕ) → from_stamp (byte ∷ rest) ≡ None)
        (λ more. (rest : List ℕ) → from_stamp (byte ∷ rest) ≡ after_bytes more rest) }
{
    // 0010 begins a presentation time stamp of 5 bytes, 0011 that and a decoding time stamp, 10
    // bytes in all. The byte 0F stands where there is none.
    if byte / 16 == 2 {
        Some(4)
    } else if byte / 16 == 3 {
        Some(9)
    } else if byte == 0x0f {
        Some(0)
    } else {
        None
    }
}

/// Where the header goes on after the first byte of the time stamp, with `left` bytes of the
/// content after it.
fn after_stamp(byte: u8, left: u16) -> Option<Header>
    ensures { MatchOption result ((rest : List ℕ) → length rest ≡ left →
        from_stamp (byte ∷ rest) ≡ None)
        (λ next. (least_rest next ≤ left)
        × ((rest : List ℕ) → length rest ≡ left →
        from_stamp (byte ∷ rest) ≡ video_from next rest)) }
{
    // The stamps themselves aren't read: a film's times come from its picture rate.
    match stamp_rest(byte) {
        Some(more) if u16::from(more) <= left => Some(Header::Rest(more)),
        _ => None,
    }
}

/// Where the header goes on after a byte that is no stuffing, with `left` bytes of the content
/// after it.
fn after_size(byte: u8, left: u16) -> Option<Header>
    ensures { MatchOption result ((rest : List ℕ) → length rest ≡ left →
        from_size (byte ∷ rest) ≡ None)
        (λ next. (least_rest next ≤ left)
        × ((rest : List ℕ) → length rest ≡ left → from_size (byte ∷ rest) ≡ video_from next rest)) }
{
    // The bits 01 begin a buffer size of two bytes, which may be left out.
    if byte / 64 != 1 {
        return after_stamp(byte, left);
    }
    // The second byte of the size and one of the time stamp at least are still to come.
    if left < 2 {
        return None;
    }
    Some(Header::Second)
}

/// Where the header goes on after this byte of stuffing, or after the one that ends it, with `left`
/// bytes of the content after it.
fn after_stuffing(count: u8, byte: u8, left: u16) -> Option<Header>
    ensures { MatchOption result ((rest : List ℕ) → length rest ≡ left →
        video_from (Header.Stuffing count) (byte ∷ rest) ≡ None)
        (λ next. (least_rest next ≤ left)
        × ((rest : List ℕ) → length rest ≡ left →
        video_from (Header.Stuffing count) (byte ∷ rest) ≡ video_from next rest)) }
{
    // No other field begins with FF, so a 17th such byte is refused by `after_size`.
    if byte != 0xff || count >= 16 {
        return after_size(byte, left);
    }
    if left == 0 {
        return None;
    }
    Some(Header::Stuffing(count + 1))
}
