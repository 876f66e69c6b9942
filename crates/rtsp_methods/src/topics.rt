//! What a GET_PARAMETER asks for.

ghost use Rattle.std.specs.Prelude.{◌↔◌, IsTrue};
ghost use Rattle.rtsp_methods.specs.Methods.{IsLineEnd, IsTopic, IsWord};

/// What the body of a GET_PARAMETER asks for.
#[derive(Clone, Copy, Debug, PartialEq, Eq)]
pub enum Topic {
    /// Nothing: the body is empty.
    Nothing,
    /// What is booked in the last slot that arrived.
    Booked,
    /// From which slot on a play would fit.
    Offer,
    /// What isn't known.
    Unknown,
}

/// Reads what the body of a GET_PARAMETER asks for: `x-Booked` or `x-Offer`, with or without one
/// line end, or nothing.
pub fn read_topic(body: &[u8]) -> Topic
    ensures { IsTopic body.now result }
{
    // RFC 2326 section 10.8: an empty body tests whether the server is alive.
    if body.is_empty() {
        Topic::Nothing
    } else if is_word(body, b"x-Booked") {
        Topic::Booked
    } else if is_word(body, b"x-Offer") {
        Topic::Offer
    } else {
        Topic::Unknown
    }
}

/// Whether a body is this word, with or without one line end after it.
fn is_word(body: &[u8], word: &[u8]) -> bool
    ensures { IsTrue result ↔ IsWord word.now body.now }
{
    match body.strip_prefix(word) {
        Some(end) => is_line_end(end),
        None => false,
    }
}

/// Whether there is nothing, or one line end.
fn is_line_end(bytes: &[u8]) -> bool
    ensures { IsTrue result ↔ IsLineEnd bytes.now }
{
    matches!(bytes, [] | [b'\n'] | [b'\r', b'\n'])
}
