//! The options that a request requires.

ghost use Rattle.std.specs.Prelude.{◌≡◌, ◌≤◌, true, length, IfSome, option_map};
ghost use Rattle.rtsp_text.specs.Lines.{is_one_line};
ghost use Rattle.rtsp_methods.specs.RequiredOptions.{option_of, required_of};

use rtsp_text::{Request, header};

/// Returns the options that a request requires (RFC 2326 section 12.32): the value of its first
/// `Require` line, or of its first `Proxy-Require` line where it has none. None where it has
/// neither.
pub fn required_options<'m>(request: &Request<'m>) -> Option<&'m [u8]>
    ensures value { option_map (λ option. option.now) result ≡ required_of request.now.head.now }
    ensures short { IfSome result (λ option. length option.now ≤ length request.now.head.now) }
    ensures line { IfSome result (λ option. is_one_line option.now ≡ true) }
{
    match header(request, b"Require") {
        Some(option) => Some(option),
        // RFC 2326 section 12.27: a server treats it as `Require`.
        None => header(request, b"Proxy-Require"),
    }
}

/// Returns what a reply says of the options that a request requires: the options, or an empty text
/// where it requires none.
pub fn option_of<'m>(request: &Request<'m>) -> &'m [u8]
    ensures option { result.now ≡ option_of request.now.head.now }
    ensures short { length result.now ≤ length request.now.head.now }
    ensures line { is_one_line result.now ≡ true }
{
    required_options(request).unwrap_or(b"")
}
