//! How a stream is split, however its bytes came.

ghost use Rattle.std.specs.Prelude.{◌≡◌, ℕ, ◌+◌, ◌/◌, ◌%◌, ◌^◌, ◌<◌, ◌++◌, ◌∷◌, All, List, length};
ghost use Rattle.std.specs.Prelude.{drop, Ok, Result};
ghost use Rattle.interleave.specs.Laws.{BeginsOtherwise, IsCrOrLf};
ghost use Rattle.interleave.specs.Streams.{AreInputElements, SharePrefix, HasStream, IsStream};
ghost use Rattle.interleave.specs.Streams.{ReturnsNoElement, returned_length, returned_elements};
ghost use Rattle.interleave.specs.declared.elements.DemuxFault.{DemuxFault};
ghost use Rattle.interleave.specs.declared.elements.Step.{Step};
ghost use Rattle.interleave.specs.Elements.{IsFirst, IsLongerSkip, IsWholeElement};

use crate::content_lengths::MAX_BODY_BYTES;
use crate::demux::Demux;
use crate::elements::BLOCK_START;
use crate::message_heads::MAX_HEAD_BYTES;

/// A complete element or a fault at the start of the waiting bytes stays there, whatever comes
/// later. So the elements of a stream don't depend on how its bytes were split.
pub fn law_first_element_is_stable()
    ensures { (waiting later : List ℕ) (answer : Result Step DemuxFault) →
        IsFirst waiting answer → IsWholeElement waiting answer →
        IsFirst (waiting ++ later) answer }
{}

/// One list of waiting bytes has one answer.
pub fn law_first_element_is_unique()
    ensures { (waiting : List ℕ) (one other : Result Step DemuxFault) →
        IsFirst waiting one → IsFirst waiting other → one ≡ other }
{}

/// Bytes CR and LF at the start of the waiting bytes stay there, whatever comes later. More of them
/// may follow.
pub fn law_skipped_bytes_only_grow()
    ensures { (waiting later : List ℕ) (count : ℕ) (answer : Result Step DemuxFault) →
        IsFirst waiting (Ok (Step.Skip count)) → IsFirst (waiting ++ later) answer →
        IsLongerSkip count answer }
{}

/// The elements of a stream stay whatever comes later, which only lengthens the rest.
pub fn law_elements_are_stable()
    ensures { (heard later : List ℕ) (elements : List (List ℕ)) (rest : List ℕ)
        → AreInputElements heard elements rest → AreInputElements (heard ++ later) elements (rest ++
        later) }
{}

/// A stream may be read in two pieces. The elements of the first piece, and then those of its rest
/// followed by the second piece, are the elements of the entire stream.
pub fn law_elements_of_pieces_concatenate()
    ensures { (heard later : List ℕ) (elements more : List (List ℕ)) (rest end : List ℕ)
        → AreInputElements heard elements rest → AreInputElements (rest ++ later) more end
        → AreInputElements (heard ++ later) (elements ++ more) end }
{}

/// Two splits of one stream agree: the elements of one are a prefix of the other's, which splits
/// the rest of the one further.
pub fn law_any_two_splits_share_a_prefix()
    ensures { (heard : List ℕ) (one other : List (List ℕ)) (rest end : List ℕ)
        → AreInputElements heard one rest → AreInputElements heard other end → SharePrefix one rest
        other end }
{}

/// An answer of `look` gives the next elements of a stream: they are at the start of the waiting
/// bytes, and dropping them leaves what comes after them. Where it gives none, the first element is
/// incomplete.
pub fn law_look_returns_next_elements()
    ensures elements { (heard rest : List ℕ) (elements : List (List ℕ))
        (answer : Result Step DemuxFault)
        → IsFirst rest answer → AreInputElements heard elements rest
        → AreInputElements heard (elements ++ returned_elements rest answer) (drop (returned_length
        answer) rest) }
    ensures none { (rest : List ℕ) (answer : Result Step DemuxFault) → IsFirst rest answer →
        ReturnsNoElement rest answer }
{}

/// All bytes received split into elements and a rest in exactly one way. So the elements are the
/// same however the bytes arrived.
pub fn law_input_splits_in_one_way()
    ensures some { (heard : List ℕ) → HasStream heard }
    ensures one { (heard : List ℕ) (one other : List (List ℕ)) (rest end : List ℕ)
        → IsStream heard one rest → IsStream heard other end → (one ≡ other) × (rest ≡ end) }
{}

/// Before a request or a block, bytes CR and LF are skipped, all that stand there and no others:
/// lines end with them, and empty lines there mean nothing (RFC 2326 section 4, RFC 2068 section
/// 4.1).
pub fn law_leading_line_ends_are_skipped()
    ensures { (ends next : List ℕ) → 0 < length ends → All IsCrOrLf ends → BeginsOtherwise next →
        IsFirst (ends ++ next) (Ok (Step.Skip (length ends))) }
{}

/// An interleaved block is `$`, a channel, the number of its bytes of data in two bytes, the high
/// one first, and the data (RFC 2326 section 10.12); whatever comes later.
pub fn law_interleaved_block_is_found()
    ensures { (channel : ℕ) (content later : List ℕ) → length content < 2 ^ 16 →
        IsFirst (BLOCK_START ∷ channel ∷ (length content / 256) ∷ (length content % 256) ∷
        (content ++ later)) (Ok (Step.Block channel (4 + length content))) }
{}

/// Where the waiting bytes begin with neither a complete element nor a fault, they are fewer than
/// the most of a head and of a body together.
pub fn law_waiting_bytes_are_bounded(demux: &Demux)
    ensures { IsFirst demux.now (Ok Step.More) →
        length demux.now < MAX_HEAD_BYTES + MAX_BODY_BYTES }
{
    // the contracts of these two calls bound the length that a block's head gives
    let waiting = demux.waiting();
    let _count = waiting.len();
}
