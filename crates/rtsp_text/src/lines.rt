//! The lines of a message's head.

ghost use Rattle.std.specs.Prelude.{◌≡◌, ◌≤◌, [], length, take, drop, MatchOption};
ghost use Rattle.std.specs.Iterator.{YieldsFirstRef, item_count};
ghost use Rattle.interleave.specs.Elements.{IsMessageLength};
ghost use Rattle.rtsp_text.specs.Lines.{first_line, lines_before_empty, header_lines, IsNextLine};
ghost use Rattle.rtsp_text.specs.Lines.{IsSplit};

use vod_base::line_end;

/// The text of a message's first line.
pub(crate) fn first_line(message: &[u8]) -> &[u8]
    ensures { result.now ≡ first_line message.now }
{
    match next_line(message) {
        Some((line, _)) => line,
        None => message,
    }
}

/// The texts of the header lines of a head that are still to come, up to its empty line.
#[derive(Drop)]
pub(crate) struct HeaderLines<'a> {
    rest: &'a [u8],
}

impl<'a> Iterator for HeaderLines<'a> {
    type Item = &'a [u8];

    ghost next_gives = { YieldsFirstRef (λ lines. lines_before_empty lines.rest.now) };

    ghost remaining = { item_count (λ lines. lines_before_empty lines.rest.now) };

    fn next(&mut self) -> Option<&'a [u8]> {
        match next_line(self.rest) {
            Some((line, rest)) if !line.is_empty() => {
                self.rest = rest;
                Some(line)
            }
            // The empty line ends the head: what follows is the body, which may look like lines.
            _ => None,
        }
    }
}

/// The texts of a head's header lines, in order.
pub(crate) fn header_lines(head: &[u8]) -> HeaderLines<'_>
    ensures { lines_before_empty result.rest.now ≡ header_lines head.now }
{
    match next_line(head) {
        Some((_, rest)) => HeaderLines { rest },
        None => HeaderLines { rest: head },
    }
}

/// The head and the body of a complete request.
pub(crate) fn split(message: &[u8]) -> (&[u8], &[u8])
    requires { IsMessageLength message.now (length message.now) }
    ensures { IsSplit message.now result.0.now result.1.now }
{
    message.split_at(head_end(message))
}

/// The text of the first line, and what stands after that line's end. The last line may have no
/// end.
fn next_line(bytes: &[u8]) -> Option<(&[u8], &[u8])>
    ensures { MatchOption result (bytes.now ≡
        []) (λ parts. IsNextLine bytes.now parts.0.now parts.1.now) }
{
    if bytes.is_empty() {
        return None;
    }
    // The line may end in LF alone (RFC 2326 section 4).
    match line_end(bytes, 0) {
        Some(line) => Some((&bytes[..line.text_end], &bytes[line.next..])),
        None => Some((bytes, &bytes[bytes.len()..])),
    }
}

/// Where the head of a message ends, after its empty line; a complete request has one. It walks by
/// places, which [`HeaderLines`] doesn't return.
fn head_end(message: &[u8]) -> usize
    requires { IsMessageLength message.now (length message.now) }
    ensures within { result ≤ length message.now }
    ensures split { IsSplit message.now (take result message.now) (drop result message.now) }
{
    // A complete message has a first line and an empty one, so neither return of the length is
    // taken.
    let Some(first) = line_end(message, 0) else {
        return message.len();
    };
    let mut at = first.next;
    while let Some(line) = line_end(message, at) {
        // An empty line: its text ends where it begins.
        if line.text_end == at {
            return line.next;
        }
        at = line.next;
    }
    message.len()
}
