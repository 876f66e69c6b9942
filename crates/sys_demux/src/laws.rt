//! What a system stream is, said in the fields of ISO/IEC 11172-1.

ghost use Rattle.std.specs.Prelude.{◌≡◌, ◌≢◌, ◌↔◌, ◌⊎◌, ◌+◌, ◌/◌, ◌<◌, ◌∷◌, ◌++◌, ℕ, List, ◌≤◌};
ghost use Rattle.std.specs.Prelude.{length, None, Some, take};
ghost use Rattle.sys_demux.specs.PacketContents.{video_in};
ghost use Rattle.sys_demux.specs.StandardFields.{AreElements, Element, HasHeader, IsElement};
ghost use Rattle.sys_demux.specs.StandardFields.{IsStrayByte, IsStreamEnd, element_bytes};
ghost use Rattle.sys_demux.specs.StandardFields.{first_stream, first_video, front_of, packet_bytes};
ghost use Rattle.sys_demux.specs.StandardFields.{stream_bytes, video_stream_id, with_code};
ghost use Rattle.sys_demux.specs.SystemStreams.{IsSystem, IsBadStream};
ghost use Rattle.sys_demux.specs.ParserStates.{WasFed};
ghost use Rattle.sys_demux.specs.declared.faults.SystemFault.{SystemFault};

use crate::unwrapper::Unwrapper;

/// A stream as a multiplexer writes it in the fields of ISO/IEC 11172-1 is read as these fields
/// say: packs with any clock reference and rate, packets of video with stuffing, a buffer's size
/// and time stamps or without, and packets of every other stream, in any order. Its video is that
/// of the first stream of video.
pub fn law_standard_stream_is_unwrapped()
    ensures { (elements : List Element) (tail : List ℕ) → AreElements elements → IsStreamEnd tail →
        IsSystem (stream_bytes elements ++ tail) (first_video elements) }
{}

/// The content of a packet of video is read exactly where it begins with a header as ISO/IEC
/// 11172-1 has it: at most 16 bytes of stuffing, a buffer's size or none, and time stamps or the
/// byte 0F.
pub fn law_video_packet_header_is_standard()
    ensures { (content video : List ℕ) → (video_in content ≡ Some video) ↔ HasHeader content video }
{}

/// What is refused after such a stream: a pack header whose first four bits aren't 0010, a packet
/// of the first stream of video whose content has no header, a code below B9, and an element that
/// the stream's end stops early, each with the place of its prefix; and a byte that no start code
/// can have there, with its own place.
pub fn law_bad_items_are_refused_at_their_place()
    // a header or a code that no item may have, by the place of its prefix
    ensures pack { (elements : List Element) (front mark : ℕ) (rest : List ℕ) →
        AreElements elements → mark / 16 ≢ 2 →
        IsBadStream (stream_bytes elements ++ with_code front 0xba (mark ∷ rest))
        (SystemFault.NotPack (length (stream_bytes elements) + front)) }
    ensures packet { (elements : List Element) (front stream : ℕ) (content : List ℕ) →
        AreElements elements → stream < 16 →
        ((first_stream elements ≡ None) ⊎ (first_stream elements ≡ Some stream)) →
        ((video : List ℕ) → HasHeader content video → ⊥) →
        IsBadStream (stream_bytes elements ++ packet_bytes front (video_stream_id stream) content)
        (SystemFault.BadPacket (length (stream_bytes elements) + front)) }
    ensures code { (elements : List Element) (front value : ℕ) (rest : List ℕ) →
        AreElements elements → value < 0xb9 →
        IsBadStream (stream_bytes elements ++ with_code front value rest)
        (SystemFault.BadCode (length (stream_bytes elements) + front)) }
    // a byte that no prefix has, by its own place
    ensures byte { (elements : List Element) (bytes : List ℕ) (at : ℕ) → AreElements elements →
        IsStrayByte elements bytes at → IsBadStream bytes (SystemFault.BadCode at) }
    // an item that the end stops early, by the place of its prefix
    ensures end { (elements : List Element) (element : Element) (count : ℕ) →
        AreElements elements → IsElement element → front_of element + 3 ≤ count →
        count < length (element_bytes element) →
        IsBadStream (stream_bytes elements ++ take count (element_bytes element))
        (SystemFault.Truncated (length (stream_bytes elements) + front_of element)) }
{}

/// Bytes are read in one way: a system stream has one list of items and one video, bytes that are
/// refused have one fault, and no bytes are both.
pub fn law_stream_has_one_reading()
    ensures items { (bytes one other : List ℕ) (a : IsSystem bytes one) (b : IsSystem bytes other) →
        (a.items ≡ b.items) × (a.tail ≡ b.tail) }
    ensures video { (bytes one other : List ℕ) → IsSystem bytes one → IsSystem bytes other →
        one ≡ other }
    ensures fault { (bytes : List ℕ) (one other : SystemFault) → IsBadStream bytes one →
        IsBadStream bytes other → one ≡ other }
    ensures either { (bytes video : List ℕ) (fault : SystemFault) → IsSystem bytes video →
        ¬ IsBadStream bytes fault }
{}

/// What was lent so far is a prefix of the complete stream's video.
pub fn law_lent_video_is_a_prefix(unwrapper: &Unwrapper)
    ensures { (seen video more whole : List ℕ) → WasFed unwrapper.now seen video →
        IsSystem (seen ++ more) whole →
        (rest : List ℕ) × (whole ≡ video ++ rest) }
{
    let _read = unwrapper;
}
