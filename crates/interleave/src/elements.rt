//! The first element of the waiting bytes, and the head of an interleaved block.

ghost use Rattle.std.specs.Prelude.{◌≡◌, ◌/◌, ◌%◌, [], ◌∷◌};
ghost use Rattle.interleave.specs.Heads.{is_line_end};

use thiserror::Error;

/// The first element of the waiting bytes.
#[derive(Clone, Copy, Debug, PartialEq, Eq)]
pub enum Step {
    /// A complete message of this many bytes, head and body: a request, or at a client a reply.
    Request(usize),
    /// A complete interleaved block on this channel, of this many bytes with its head of four.
    Block(u8, usize),
    /// This many bytes CR or LF, all that wait before the next element.
    Skip(usize),
    /// No complete element yet, and no fault.
    More,
}

/// Why the waiting bytes can't begin a message.
#[derive(Clone, Copy, Debug, PartialEq, Eq, Error)]
pub enum DemuxFault {
    /// The first [`crate::MAX_HEAD_BYTES`] bytes of a request have no empty line.
    #[error("the head of a request is too long")]
    HeadTooLong,
    /// The first Content-Length of a request is all digits and above [`crate::MAX_BODY_BYTES`].
    #[error("the body of a request is too long")]
    BodyTooLong,
}

/// The byte with which an interleaved block begins (RFC 2326 section 10.12).
pub const BLOCK_START: u8 = b'$';

/// Returns the head of an interleaved block (RFC 2326 section 10.12): `$`, the channel, and the
/// number of the bytes that follow, the high byte first.
pub fn frame_head(channel: u8, length: u16) -> [u8; 4]
    ensures { result ≡ BLOCK_START ∷ channel ∷ (length / 256) ∷ (length % 256) ∷ [] }
{
    let [high, low] = length.to_be_bytes();
    [BLOCK_START, channel, high, low]
}

/// Whether the byte is CR or LF.
pub(crate) fn is_line_end(byte: u8) -> bool
    ensures { result ≡ is_line_end byte }
{
    byte == b'\r' || byte == b'\n'
}
