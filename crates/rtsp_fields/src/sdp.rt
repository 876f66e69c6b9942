//! The description of a film.

ghost use Rattle.std.specs.Prelude.{◌≡◌, ◌≤◌, true, length, take};
ghost use Rattle.vod_base.specs.Names.{good_name};
ghost use Rattle.rtsp_fields.specs.Sdp.{description_text};

use crate::seconds::{put, put_seconds};

/// Writes the description of a film (RFC 4566, RFC 2326 appendix C) to the start of `into`, and
/// returns its length in bytes.
///
/// `end_ms` is the film's length in milliseconds. The text has nine lines, each ended by CR LF.
pub fn description(name: &str, end_ms: u64, into: &mut [u8; 512]) -> usize
    requires { good_name name.now ≡ true }
    ensures length { result ≤ 512 }
    ensures text { take result into.new ≡ description_text name.now end_ms }
{
    // A name has at most 64 bytes and a time at most 24, so the nine lines fit.
    let name_at = put(into, 0, b"v=0\r\no=- 0 0 IN IP4 127.0.0.1\r\ns=");
    let lines_at = put(into, name_at, name.as_bytes());
    // RFC 2326, appendix C: a null address, since SETUP decides on the delivery (C.1.7), a session
    // that is always there (C.1.6), and control URLs relative to Content-Base (C.1.1).
    let end_at = put(
        into,
        lines_at,
        b"\r\nc=IN IP4 0.0.0.0\r\nt=0 0\r\na=control:*\r\na=range:npt=0-",
    );
    let media_at = put_seconds(into, end_at, end_ms);
    // Port 0: the server prefers none (RFC 2326, C.1.2). Type 32 is MPEG-1 video (RFC 3551, 6).
    put(
        into,
        media_at,
        b"\r\nm=video 0 RTP/AVP 32\r\na=control:video\r\n",
    )
}
