//! RTSP URLs.

ghost use Rattle.std.specs.Prelude.{◌≡◌, ◌≤◌, ◌↔◌, IsTrue, true, length, ℕ, List, MatchOption};
ghost use Rattle.std.specs.Prelude.{IfSome};
ghost use Rattle.std.specs.Option.{option_copied};
ghost use Rattle.vod_base.specs.Names.{good_name};
ghost use Rattle.rtsp_text.specs.Lines.{is_one_line};
ghost use Rattle.rtsp_fields.specs.Urls.{IsAbsoluteUrl, IsStream, IsTail, IsRead, NamesFilm};

use crate::separated_parts::{part_end, starts_with};
use rtsp_text::{RTSP_SCHEME, has_url_bytes};
use vod_base::good_name;

/// What an RTSP URL says (RFC 2326 section 3.2).
#[derive(Clone, Copy, Debug, PartialEq, Eq)]
pub struct Url<'a> {
    /// The authority, as `host:port`: one or more bytes without `/`.
    pub authority: &'a [u8],
    /// The film that the path names, by `/NAME` or its stream `/NAME/video`, with a `/` after it or
    /// not; None where the path names none.
    pub name: Option<&'a [u8]>,
}

/// Reads an RTSP URL: `rtsp://` in any case, an authority, and nothing or a path that begins with
/// `/`, all of them printable bytes other than the space.
///
/// None exactly where the URL isn't of this form; `*` isn't. Percent signs aren't decoded. The
/// authority and the name have no LF; the authority has at most as many bytes as the URL, and the
/// name is a good name, of at most 64 bytes.
pub fn read_url(url: &[u8]) -> Option<Url<'_>>
    // answers: the parts of the URL, or None if it has no such form
    ensures read { MatchOption result ((path : ℕ) → ¬ IsAbsoluteUrl url.now path)
        (λ read. IsRead url.now read.authority.now (option_copied read.name)) }
    // sizes of the parts, so that a reply can repeat them on one line
    ensures authority { IfSome result (λ read. length read.authority.now ≤ length url.now) }
    ensures authority_line { IfSome result (λ read. is_one_line read.authority.now ≡ true) }
    ensures name { IfSome result (λ read. IfSome read.name (λ name. good_name name.now ≡ true)) }
    ensures name_line { IfSome result (λ read.
        IfSome read.name (λ name. is_one_line name.now ≡ true)) }
{
    if !has_url_bytes(url) || !starts_with(url, RTSP_SCHEME) {
        return None;
    }
    let path = part_end(url, RTSP_SCHEME.len(), b'/');
    // An authority has at least one byte, as in the grammar of requests.
    if path == RTSP_SCHEME.len() {
        return None;
    }
    Some(Url {
        authority: &url[RTSP_SCHEME.len()..path],
        name: film_name(&url[path..]),
    })
}

/// Whether this names a film's one stream.
fn is_stream(tail: &[u8]) -> bool
    ensures { IsTrue result ↔ IsStream tail.now }
{
    tail == b"/video".as_slice() || tail == b"/video/".as_slice()
}

/// Whether this may stand after a film's name.
fn is_tail(tail: &[u8]) -> bool
    ensures { IsTrue result ↔ IsTail tail.now }
{
    match tail {
        [] | [b'/'] => true,
        _ => is_stream(tail),
    }
}

/// The film that a path names.
fn film_name(path: &[u8]) -> Option<&[u8]>
    ensures { MatchOption result ((name : List ℕ) →
        ¬ NamesFilm path.now name) (λ name. NamesFilm path.now name.now) }
{
    // A URL without a path is well formed. It names no film.
    if path.is_empty() || path[0] != b'/' {
        return None;
    }
    let end = part_end(path, 1, b'/');
    let name = &path[1..end];
    // Percent signs aren't decoded, so that no two paths name one film by different spellings.
    if good_name(name) && is_tail(&path[end..]) {
        Some(name)
    } else {
        None
    }
}
