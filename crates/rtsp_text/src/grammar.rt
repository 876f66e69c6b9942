//! The grammar of a head's lines.

ghost use Rattle.std.specs.Prelude.{◌≡◌, ◌==◌, ◌↔◌, ℕ, List, IsTrue, true, codes, map};
ghost use Rattle.std.specs.Prelude.{not, MatchOption};
ghost use Rattle.std.specs.List.{list_all};
ghost use Rattle.std.specs.Char.{to_ascii_lowercase};
ghost use Rattle.rtsp_text.specs.Grammar.{is_token_byte, is_token, is_url_byte, is_value_byte};
ghost use Rattle.rtsp_text.specs.Grammar.{IsRtspUrl, IsUrl, IsVersion, AreVersionNumbers};
ghost use Rattle.rtsp_text.specs.Grammar.{IsRequestLine, IsHeaderLine};

use vod_base::{is_decimal, split_at_first};

/// Returns whether all bytes are printable and none is the space, as in a URL: 33 to 126.
pub fn has_url_bytes(text: &[u8]) -> bool
    ensures { result ≡ list_all is_url_byte text.now }
{
    text.iter().all(|byte| is_url_byte(*byte))
}

/// The scheme of an RTSP URL, with what parts it from the authority; in any case (RFC 2326 section
/// 3.2).
pub const RTSP_SCHEME: &[u8; 7] = b"rtsp://";

/// The three words of a request line.
#[derive(Clone, Copy)]
pub(crate) struct RequestLine<'a> {
    /// The method: letters, digits, `_` and `-`.
    pub(crate) method: &'a [u8],
    /// What it asks for: `*` or an absolute URL.
    pub(crate) url: &'a [u8],
    /// The version: `RTSP/`, digits, `.` and digits.
    pub(crate) version: &'a [u8],
}

/// Reads a request line of any version.
pub(crate) fn request_line(text: &[u8]) -> Option<RequestLine<'_>>
    ensures { MatchOption result ((method url version : List ℕ) →
        ¬ IsRequestLine text.now method url version)
        (λ line. IsRequestLine text.now line.method.now line.url.now line.version.now) }
{
    // Single spaces part the three words (RFC 2326 section 6.1). With a further one a word is empty
    // or has a space, which the checks below refuse.
    let (method, rest) = split_at_first(text, b' ')?;
    let (url, version) = split_at_first(rest, b' ')?;
    if is_token(method) && is_url(url) && is_version(version) {
        Some(RequestLine {
            method,
            url,
            version,
        })
    } else {
        None
    }
}

/// Whether the text is a name, `:` and a value.
pub(crate) fn is_header_line(text: &[u8]) -> bool
    ensures { IsTrue result ↔ IsHeaderLine text.now }
{
    match split_at_first(text, b':') {
        Some((name, value)) => is_token(name) && has_value_bytes(value),
        None => false,
    }
}

/// Whether the text is the version of RTSP 1.0.
pub(crate) fn is_rtsp_1_0(version: &[u8]) -> bool
    ensures { IsTrue result ↔ (version.now ≡ codes "RTSP/1.0") }
{
    version == b"RTSP/1.0".as_slice()
}

/// Whether the byte is a letter, a digit, `_` or `-`.
fn is_token_byte(byte: u8) -> bool
    ensures { result ≡ is_token_byte byte }
{
    // Narrower than the RFC's `token`: all names of RFC 2326 are of these bytes, and one grammar
    // without exceptions can be proved.
    byte.is_ascii_alphanumeric() || byte == b'_' || byte == b'-'
}

/// Whether all bytes are letters, digits, `_` and `-`.
fn has_token_bytes(text: &[u8]) -> bool
    ensures { result ≡ list_all is_token_byte text.now }
{
    text.iter().all(|byte| is_token_byte(*byte))
}

/// Whether the text is one or more letters, digits, `_` and `-`.
fn is_token(text: &[u8]) -> bool
    ensures { result ≡ is_token text.now }
{
    !text.is_empty() && has_token_bytes(text)
}

/// Whether the byte is printable and not the space.
fn is_url_byte(byte: u8) -> bool
    ensures { result ≡ is_url_byte byte }
{
    33 <= byte && byte <= 126
}

/// Whether the byte may stand in a value: the tab, or any but control characters (RFC 2326 section
/// 15.1).
fn is_value_byte(byte: u8) -> bool
    ensures { result ≡ is_value_byte byte }
{
    // A lone CR is a control character, so it can't hide a line's end inside a value.
    (32 <= byte || byte == b'\t') && byte != 127
}

/// Whether all bytes may stand in a value.
fn has_value_bytes(text: &[u8]) -> bool
    ensures { result ≡ list_all is_value_byte text.now }
{
    text.iter().all(|byte| is_value_byte(*byte))
}

/// Whether the text is `rtsp://` in any case.
fn is_scheme(text: &[u8]) -> bool
    ensures { IsTrue result ↔
        (map to_ascii_lowercase text.now ≡ map to_ascii_lowercase (codes "rtsp://")) }
{
    text.eq_ignore_ascii_case(RTSP_SCHEME)
}

/// Whether the text is `rtsp://` in any case, an authority, and no path or one that begins with
/// `/`.
fn is_rtsp_url(url: &[u8]) -> bool
    ensures { IsTrue result ↔ IsRtspUrl url.now }
{
    // After the scheme at least one byte of an authority follows, which is not `/`.
    if url.len() <= RTSP_SCHEME.len() {
        return false;
    }
    let (scheme, rest) = url.split_at(RTSP_SCHEME.len());
    is_scheme(scheme) && rest[0] != b'/'
}

/// Whether the text is `*`.
fn is_star(url: &[u8]) -> bool
    ensures { IsTrue result ↔ (url.now ≡ codes "*") }
{
    url == b"*".as_slice()
}

/// Whether the text is `*` or an absolute URL.
fn is_url(url: &[u8]) -> bool
    ensures { IsTrue result ↔ IsUrl url.now }
{
    has_url_bytes(url) && (is_star(url) || is_rtsp_url(url))
}

/// Whether the text is digits, `.` and digits.
fn are_version_numbers(text: &[u8]) -> bool
    ensures { IsTrue result ↔ AreVersionNumbers text.now }
{
    match split_at_first(text, b'.') {
        Some((major, minor)) => is_decimal(major) && is_decimal(minor),
        None => false,
    }
}

/// Whether the text is `RTSP/`, digits, `.` and digits.
fn is_version(text: &[u8]) -> bool
    ensures { IsTrue result ↔ IsVersion text.now }
{
    match text.strip_prefix(b"RTSP/".as_slice()) {
        Some(numbers) => are_version_numbers(numbers),
        None => false,
    }
}
