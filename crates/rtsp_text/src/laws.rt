//! What the definitions of requests and replies come to.

ghost use Rattle.std.specs.Prelude.{◌≡◌, ◌<◌, ◌≤◌, ◌++◌, ℕ, IsTrue, true, Option, List, All, Ok};
ghost use Rattle.std.specs.Prelude.{Err, codes, length, take};
ghost use Rattle.interleave.specs.Heads.{IsHead};
ghost use Rattle.interleave.specs.Elements.{IsFirst, IsMessageLength};
ghost use Rattle.vod_base.specs.Numbers.{is_decimal};
ghost use Rattle.rtsp_text.specs.Fields.{header_value, IsFirstField};
ghost use Rattle.rtsp_text.specs.Replies.{is_code, Field, reply_front, reply_text, all_fields};
ghost use Rattle.rtsp_text.specs.Replies.{value_named, IsPlain, IsReadBack};
ghost use Rattle.rtsp_text.specs.Requests.{IsRequest, IsFault};
ghost use Rattle.rtsp_text.specs.RequestFaults.{HasLines, IsWrong, Writes};
ghost use Rattle.rtsp_text.specs.declared.requests.RequestFault.{RequestFault};
ghost use Rattle.rtsp_text.specs.RequestTexts.{AreFront, AreRequest, AreShort, GivesLongBody};
ghost use Rattle.rtsp_text.specs.RequestTexts.{HasForm, HasGivenLength, RequestPieces};
ghost use Rattle.rtsp_text.specs.RequestTexts.{request_head, request_text};
ghost use Rattle.rtsp_text.specs.TerminatedLines.{EndedLine, head_bytes, IsEmpty, IsEnded};
ghost use Rattle.rtsp_text.specs.TerminatedLines.{IsHeader};

use interleave::{DemuxFault, MAX_BODY_BYTES, MAX_HEAD_BYTES, Step};

/// The bytes of a request that [`interleave::Demux::look`] returns are a complete request by
/// themselves, as [`crate::read_request`] takes it.
pub fn law_look_finds_whole_requests(waiting: &[u8], count: usize)
    requires { IsFirst waiting.now (Ok (Step.Request count)) }
    ensures { IsMessageLength (take count waiting.now) (length (take count waiting.now)) }
{
    let _read = (waiting.len(), count, Step::Request(count));
}

/// What [`crate::Reply`] wrote is read back by [`crate::read_reply`] and [`crate::header_of`]: its
/// code and phrase, its body and, for each name, the value of the first field of that name, CSeq
/// among them; where each field's name is a word of letters, digits, `_` and `-`, and its value has
/// no LF and no blanks around it.
pub fn law_reply_round_trips()
    ensures { (message : List ℕ) (code : ℕ) (sequence : Option ℕ) (fields : List Field)
        (body : List ℕ) → IsMessageLength message (length message) →
        IsTrue (is_code code) → All IsPlain (all_fields sequence fields) →
        message ≡ reply_text code sequence fields body →
        IsReadBack message code sequence fields body }
{}

/// A reply that [`crate::Reply`] wrote is a complete message by itself, as [`crate::read_reply`]
/// takes it, where its head has at most [`MAX_HEAD_BYTES`] bytes, and its body at most
/// [`MAX_BODY_BYTES`] and the length that its first Content-Length writes, or none where there is
/// none.
pub fn law_reply_is_a_complete_message()
    ensures { (code : ℕ) (sequence : Option ℕ) (fields : List Field) (body : List ℕ) →
        IsTrue (is_code code) → All IsPlain (all_fields sequence fields) →
        HasGivenLength (all_fields sequence fields) body →
        length (reply_front code sequence fields ++ codes "\r\n") ≤ MAX_HEAD_BYTES →
        length body ≤ MAX_BODY_BYTES →
        IsMessageLength (reply_text code sequence fields body)
        (length (reply_text code sequence fields body)) }
{}

/// A request that is spelled as RFC 2326 section 6 says, from a method, a URL, header fields and a
/// body, each line ended by CR LF, is found as a complete request, whatever bytes follow it; it is
/// read as a request of these parts; and each name has the value of the first field of that name.
pub fn law_request_round_trips()
    ensures found { (parts : RequestPieces) (sequence : ℕ) (later : List ℕ) → AreRequest parts
        sequence →
        AreShort parts → IsFirst (request_text parts ++ later)
        (Ok (Step.Request (length (request_text parts)))) }
    ensures whole { (parts : RequestPieces) (sequence : ℕ) → AreRequest parts sequence → AreShort
        parts →
        IsMessageLength (request_text parts) (length (request_text parts)) }
    ensures read { (parts : RequestPieces) (sequence : ℕ) → AreRequest parts sequence →
        IsRequest (request_text parts) parts.method parts.url sequence (request_head parts)
        parts.body }
    ensures values { (parts : RequestPieces) (name : List ℕ) → AreFront parts →
        header_value (request_head parts) name ≡ value_named name parts.fields }
{}

/// A request whose head has more than [`MAX_HEAD_BYTES`] bytes is refused for it, and else one
/// whose first Content-Length writes more than [`MAX_BODY_BYTES`]; whatever comes later.
pub fn law_too_long_request_is_refused()
    ensures head { (parts : RequestPieces) (later : List ℕ) → AreFront parts →
        MAX_HEAD_BYTES < length (request_head parts) →
        IsFirst (request_head parts ++ later) (Err DemuxFault.HeadTooLong) }
    ensures body { (parts : RequestPieces) (later : List ℕ) → AreFront parts →
        GivesLongBody parts.fields → length (request_head parts) ≤ MAX_HEAD_BYTES →
        IsFirst (request_head parts ++ later) (Err DemuxFault.BodyTooLong) }
{}

/// Whatever is read as a request has the form of one: the lines of its head are a method, a URL and
/// `RTSP/1.0` with single spaces, then lines of a name, `:` and a value, then an empty line; and
/// its body is the rest. Its sequence number is the one that its first CSeq writes, and its first
/// Content-Length, where there is one, is all digits.
pub fn law_read_request_is_well_formed()
    ensures form { (message method url : List ℕ) (sequence : ℕ) (head body : List ℕ) →
        IsRequest message method url sequence head body → HasForm message method url head body }
    ensures sequence { (message first : List ℕ) (texts : List (List ℕ)) (method url : List ℕ)
        (sequence : ℕ) (head body : List ℕ) → HasLines message first texts →
        IsRequest message method url sequence head body → Writes (codes "CSeq") texts sequence }
    ensures length { (message first : List ℕ) (texts : List (List ℕ)) (method url : List ℕ)
        (sequence : ℕ) (head body value : List ℕ) → HasLines message first texts →
        IsRequest message method url sequence head body →
        IsFirstField (codes "Content-Length") texts value → is_decimal value ≡ true }
{}

/// What is no request has that fault in its lines: the first one is no request line; it is one of
/// another version; a header line isn't a name, `:` and a value; the first CSeq writes no number,
/// or there is none; the first Content-Length isn't all digits. Each stands only where those before
/// it don't.
pub fn law_request_fault_names_its_cause()
    ensures { (message first : List ℕ) (texts : List (List ℕ)) (fault : RequestFault) →
        HasLines message first texts → IsFault message fault → IsWrong first texts fault }
{}

/// A first line, lines that aren't empty, and an empty one are the head of what begins with them,
/// where each is ended by CR LF or by LF alone; a CR within a line ends none.
pub fn law_head_ends_at_empty_line()
    ensures { (first : EndedLine) (headers : List EndedLine) (last : EndedLine) (later : List ℕ) →
        IsEnded first → All IsHeader headers → IsEmpty last →
        IsHead (head_bytes first headers last ++ later)
        (length (head_bytes first headers last)) }
{}
