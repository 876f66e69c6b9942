//! The replies, each from its status line to its body (RFC 2326 section 7).

ghost use Rattle.rtsp_replies.specs.Replies.{code_of, refusal_fields, refusal_text, public_text};
ghost use Rattle.rtsp_replies.specs.Replies.{describe_text, setup_text, session_text, plain_text};
ghost use Rattle.rtsp_replies.specs.Replies.{play_fields, play_text, overflow_text, full_text};
ghost use Rattle.rtsp_replies.specs.Replies.{parameters_text, started_text};
ghost use Rattle.rtsp_replies.specs.declared.text_buffers.TheConstants.{MAX_TEXT_BYTES};
ghost use Rattle.std.specs.Prelude.{◌≡◌, ◌≤◌, IsTrue, true, length, ℕ, List, Option};
ghost use Rattle.std.specs.Prelude.{Some, [], decimal};
ghost use Rattle.std.specs.Int.{w32, to_be_bytes};
ghost use Rattle.hex.specs.Hex.{encode_lower};
ghost use Rattle.vod_base.specs.Names.{good_name};
ghost use Rattle.rtsp_text.specs.Lines.{is_one_line};
ghost use Rattle.rtsp_text.specs.Replies.{Field, is_code, reply_front};

use interleave::MAX_HEAD_BYTES;
use itoa::Buffer;
use rtsp_fields::{Channels, description, seconds_text};
use rtsp_methods::{Refusal, listed_names};
use rtsp_text::Reply;

/// Writes a refusal, over the old text. The option is what the request requires: 551 repeats it in
/// `Unsupported`.
pub fn put_refusal(reply: &mut Reply, sequence: Option<u64>, refusal: Refusal, option: &[u8])
    requires short { length option.now ≤ MAX_HEAD_BYTES }
    requires line { is_one_line option.now ≡ true }
    ensures { reply.new ≡ refusal_text sequence refusal option.now }
{
    reply.clear();
    reply.start(code_of(refusal), sequence);
    put_refusal_field(reply, refusal, option);
    reply.finish(&[]);
}

/// Writes the 200 of an OPTIONS, over the old text: its `Public` lists the methods of the table.
pub fn put_public(reply: &mut Reply, sequence: u64)
    ensures { reply.new ≡ public_text sequence }
{
    reply.clear();
    reply.start(200, Some(sequence));
    reply.field_from_parts(b"Public", &listed_names());
    reply.finish(&[]);
}

/// Writes the 200 of a DESCRIBE of a film that takes `end_ms` milliseconds, over the old text: the
/// base URL under this authority, and the description.
pub fn put_description(reply: &mut Reply, sequence: u64, authority: &[u8], name: &str, end_ms: u64)
    requires authority { length authority.now ≤ MAX_HEAD_BYTES }
    requires authority_line { is_one_line authority.now ≡ true }
    requires name { good_name name.now ≡ true }
    ensures { reply.new ≡ describe_text sequence authority.now name.now end_ms }
{
    let mut text = [0u8; 512];
    // The body is written first: the head gives its length.
    let length = description(name, end_ms, &mut text);
    reply.clear();
    reply.start(200, Some(sequence));
    // The description's `control:video` is relative to this URL, hence the `/` at its end.
    reply.field_from_parts(
        b"Content-Base",
        &[
            b"rtsp://".as_slice(),
            authority,
            b"/".as_slice(),
            name.as_bytes(),
            b"/".as_slice(),
        ],
    );
    reply.field(b"Content-Type", b"application/sdp");
    reply.number_field(b"Content-Length", length as u64);
    reply.finish(&text[..length]);
}

/// Writes the 200 of a SETUP, over the old text: the channels, the SSRC in eight hexadecimal
/// digits, and the session's id.
pub fn put_setup(reply: &mut Reply, sequence: u64, channels: Channels, ssrc: u32, id: &[u8; 16])
    requires { is_one_line id.now ≡ true }
    ensures { reply.new ≡ setup_text sequence channels.media channels.control ssrc id.now }
{
    let ssrc = ssrc_text(ssrc);
    let (mut media, mut control) = (Buffer::new(), Buffer::new());
    reply.clear();
    reply.start(200, Some(sequence));
    reply.field_from_parts(
        b"Transport",
        &[
            b"RTP/AVP/TCP;unicast;interleaved=".as_slice(),
            digits(u64::from(channels.media), &mut media),
            b"-".as_slice(),
            digits(u64::from(channels.control), &mut control),
            b";ssrc=".as_slice(),
            ssrc.as_slice(),
        ],
    );
    reply.field(b"Session", id);
    reply.finish(&[]);
}

/// Writes a 200 with the session's id alone, over the old text: for a PAUSE, a TEARDOWN, and a PLAY
/// that changes nothing.
pub fn put_session(reply: &mut Reply, sequence: u64, id: &[u8; 16])
    requires id { is_one_line id.now ≡ true }
    ensures { reply.new ≡ session_text sequence id.now }
{
    reply.clear();
    reply.start(200, Some(sequence));
    reply.field(b"Session", id);
    reply.finish(&[]);
}

/// Writes a 200 with no field but CSeq, over the old text: for a GET_PARAMETER without a body.
pub fn put_plain(reply: &mut Reply, sequence: u64)
    ensures { reply.new ≡ plain_text sequence }
{
    reply.clear();
    reply.start(200, Some(sequence));
    reply.finish(&[]);
}

/// What a play's reply says of its run.
#[derive(Clone, Copy, Debug)]
pub struct PlayInfo<'m> {
    /// The time at which it begins, in milliseconds.
    pub first_ms: u64,
    /// The time at which it ends, in milliseconds.
    pub end_ms: u64,
    /// The authority of the request's URL.
    pub authority: &'m [u8],
    /// The film's name.
    pub name: &'m [u8],
    /// The sequence number of the next frame.
    pub sequence: u16,
    /// The timestamp of the first unplayed unit, in 1/90,000 second.
    pub timestamp: u32,
}

/// Writes the 200 of a PLAY up to its start, over the old text: session, range of the film in
/// seconds, URL, next sequence number and timestamp. [`put_start`] completes it.
pub fn put_play(reply: &mut Reply, sequence: u64, id: &[u8; 16], info: &PlayInfo<'_>)
    // needs: texts on one line, of a bounded size, so that the reply fits
    requires id { is_one_line id.now ≡ true }
    requires authority { length info.now.authority.now ≤ MAX_HEAD_BYTES }
    requires authority_line { is_one_line info.now.authority.now ≡ true }
    requires name { length info.now.name.now ≤ 64 }
    requires name_line { is_one_line info.now.name.now ≡ true }
    // leaves: the beginning of the reply, with room for its end
    ensures text { reply.new ≡
        reply_front 200 (Some sequence) (play_fields id.now info.now.first_ms info.now.end_ms
        info.now.authority.now info.now.name.now info.now.sequence info.now.timestamp) }
    ensures short { length reply.new ≤ 20000 }
{
    let (mut first, mut end) = ([0u8; 24], [0u8; 24]);
    let (mut number, mut time) = (Buffer::new(), Buffer::new());
    reply.clear();
    reply.start(200, Some(sequence));
    reply.field(b"Session", id);
    reply.field_from_parts(
        b"Range",
        &[
            b"npt=".as_slice(),
            seconds_text(info.first_ms, &mut first),
            b"-".as_slice(),
            seconds_text(info.end_ms, &mut end),
        ],
    );
    // RFC 2326 section 12.33: by `seq` a client tells packets from before a seek.
    reply.field_from_parts(
        b"RTP-Info",
        &[
            b"url=rtsp://".as_slice(),
            info.authority,
            b"/".as_slice(),
            info.name,
            b"/video;seq=".as_slice(),
            digits(u64::from(info.sequence), &mut number),
            b";rtptime=".as_slice(),
            digits(u64::from(info.timestamp), &mut time),
        ],
    );
}

/// Completes the 200 of a PLAY that begins so many slots after the last one, behind what
/// [`put_play`] wrote.
pub fn put_start(reply: &mut Reply, slots: u64)
    requires { length reply.old ≤ 20000 }
    ensures text { reply.new ≡ started_text reply.old slots }
    ensures whole { (sequence : ℕ) (fields : List Field) →
        reply.old ≡ reply_front 200 (Some sequence) fields
        → reply.new ≡ play_text sequence fields slots }
{
    reply.number_field(b"x-Start", slots);
    reply.finish(&[]);
}

/// Writes the 453 of a play for which the link has no room, over the old text: the first slot
/// without room, the bytes booked in it and the bytes that the plan asks for there.
pub fn put_overflow(reply: &mut Reply, sequence: u64, slot: u64, booked: u64, asked: u64)
    ensures { reply.new ≡ overflow_text sequence slot booked asked }
{
    reply.clear();
    reply.start(453, Some(sequence));
    reply.number_field(b"x-Slot", slot);
    reply.number_field(b"x-Booked", booked);
    reply.number_field(b"x-Asked", asked);
    reply.finish(&[]);
}

/// Writes the 503 of a full journal, over the old text: how many entries it has, and how many plays
/// are open.
pub fn put_full(reply: &mut Reply, sequence: u64, entries: u64, live: u64)
    ensures { reply.new ≡ full_text sequence entries live }
{
    reply.clear();
    reply.start(503, Some(sequence));
    reply.number_field(b"x-Entries", entries);
    reply.number_field(b"x-Open", live);
    reply.finish(&[]);
}

/// Writes the 200 of a GET_PARAMETER with this body, over the old text.
pub fn put_parameters(reply: &mut Reply, sequence: u64, body: &[u8])
    requires { length body.now ≤ MAX_TEXT_BYTES }
    ensures { reply.new ≡ parameters_text sequence body.now }
{
    reply.clear();
    reply.start(200, Some(sequence));
    reply.field(b"Content-Type", b"text/parameters");
    reply.number_field(b"Content-Length", body.len() as u64);
    reply.finish(body);
}

/// The code of a refusal.
fn code_of(refusal: Refusal) -> u16
    ensures code { result ≡ code_of refusal }
    ensures known { IsTrue (is_code result) }
{
    match refusal {
        Refusal::BadRequest => 400,
        Refusal::Version => 505,
        Refusal::Method => 501,
        Refusal::Option => 551,
        Refusal::Session => 454,
        Refusal::Film => 404,
        Refusal::State => 455,
        Refusal::Transport => 461,
        // The client's buffer is a parameter, too: `x-Least-Buffer` then names what would do.
        Refusal::Parameter | Refusal::Buffer(_) => 451,
        Refusal::Range => 457,
        Refusal::Memory => 500,
    }
}

/// What a refusal says in addition.
fn put_refusal_field(reply: &mut Reply, refusal: Refusal, option: &[u8])
    requires fits { length reply.old ≤ 75 }
    requires short { length option.now ≤ MAX_HEAD_BYTES }
    requires line { is_one_line option.now ≡ true }
    ensures short { length reply.new ≤ 16500 }
    ensures front { (code : ℕ) (sequence : Option ℕ) → reply.old ≡ reply_front code sequence []
        → reply.new ≡ reply_front code sequence (refusal_fields refusal option.now) }
{
    match refusal {
        // RFC 2326 section 12.32: a 551 names the options that aren't supported, and none is.
        Refusal::Option => reply.field(b"Unsupported", option),
        Refusal::Buffer(least) => reply.number_field(b"x-Least-Buffer", least),
        Refusal::BadRequest
        | Refusal::Version
        | Refusal::Method
        | Refusal::Session
        | Refusal::Film
        | Refusal::State
        | Refusal::Transport
        | Refusal::Parameter
        | Refusal::Range
        | Refusal::Memory => {}
    }
}

/// The decimal digits of a number.
fn digits<'b>(number: u64, buffer: &'b mut Buffer) -> &'b [u8]
    ensures text { result.now ≡ decimal number }
    ensures line { is_one_line result.now ≡ true }
    ensures short { length result.now ≤ 40 }
{
    buffer.format(number).as_bytes()
}

/// An SSRC in eight hexadecimal digits.
fn ssrc_text(ssrc: u32) -> [u8; 8]
    ensures text { result ≡ encode_lower (to_be_bytes w32 ssrc) }
    ensures line { is_one_line result ≡ true }
{
    let mut text = [0u8; 8];
    // two digits for each of the four bytes: so they fit, and there is no error
    hex::encode_to_slice(ssrc.to_be_bytes(), &mut text).ok();
    text
}
