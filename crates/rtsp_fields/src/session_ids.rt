//! The Session header.

ghost use Rattle.std.specs.Prelude.{◌≡◌, ◌↔◌, IsTrue, true};
ghost use Rattle.hex.specs.Hex.{encode_lower};
ghost use Rattle.std.specs.Int.{w64, to_be_bytes};
ghost use Rattle.rtsp_text.specs.Lines.{is_one_line};
ghost use Rattle.rtsp_fields.specs.SessionIds.{IsSession};

use crate::separated_parts::part_end;
use vod_base::trim;

/// Returns whether the value of a Session header (RFC 2326 section 12.37) names this session: its
/// part before the first `;`, without the blanks around it, is the id in any case. Hexadecimal
/// digits mean the same in both cases.
pub fn session_matches(value: &[u8], id: &[u8; 16]) -> bool
    ensures { IsTrue result ↔ IsSession value.now id.now }
{
    // RFC 2326 section 12.37 lets parameters follow the id, and a client may send them back.
    let end = part_end(value, 0, b';');
    trim(&value[..end]).eq_ignore_ascii_case(id)
}

/// Returns the id of a session with this number: its sixteen hexadecimal digits, in lower case.
pub fn session_id(number: u64) -> [u8; 16]
    ensures id { result ≡ encode_lower (to_be_bytes w64 number) }
    ensures one_line { is_one_line result ≡ true }
{
    let mut id = [0u8; 16];
    // two digits for each of the eight bytes: so they fit, and there is no error
    hex::encode_to_slice(number.to_be_bytes(), &mut id).ok();
    id
}
