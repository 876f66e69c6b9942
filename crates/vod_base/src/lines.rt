//! Where a line ends.

ghost use Rattle.std.specs.Prelude.{◌≡◌, ◌≤◌, length, IfSome, IfNone};
ghost use Rattle.vod_base.specs.Lines.{IsLine, HasNoLine};

/// The end of a line, in bytes from the text's beginning.
#[derive(Clone, Copy, Debug, PartialEq, Eq)]
pub struct Line {
    /// The place after the last byte of the line's text.
    pub text_end: usize,
    /// The place where the next line begins.
    pub next: usize,
}

/// Finds the end of the line that begins at `at`: its LF or CR LF. A lone CR ends no line. `at` is
/// at most the text's length.
///
/// Returns None exactly if there is no LF at or after `at`.
pub fn line_end(bytes: &[u8], at: usize) -> Option<Line>
    requires { at ≤ length bytes.now }
    ensures found { IfSome result (λ line. IsLine bytes.now at line.text_end line.next) }
    ensures none { IfNone result (HasNoLine bytes.now at) }
{
    for place in at..bytes.len() {
        if bytes[place] == b'\n' {
            // RFC 2326, section 4, asks receivers to accept LF alone, too. A CR before the line's
            // first byte is no part of its end.
            let text_end = if place > at && bytes[place - 1] == b'\r' {
                place - 1
            } else {
                place
            };
            return Some(Line {
                text_end,
                next: place + 1,
            });
        }
    }
    None
}
