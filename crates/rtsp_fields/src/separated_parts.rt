//! Texts that a separator splits into parts.

ghost use Rattle.std.specs.Prelude.{◌≡◌, ◌+◌, ◌-◌, ◌<◌, ◌≤◌, ◌↔◌, IsTrue, MatchOption, length};
ghost use Rattle.std.specs.Iterator.{at_most};
ghost use Rattle.rtsp_fields.specs.SeparatedParts.{IsPartEnd, IsNextPart, Begins, in_lower_case};

/// Where the part that begins at `from` ends: at the first separator from there on, or at the
/// text's end.
pub(crate) fn part_end(text: &[u8], from: usize, separator: u8) -> usize
    requires { from ≤ length text.now }
    ensures { IsPartEnd separator text.now from result }
{
    for place in from..text.len() {
        if text[place] == separator {
            return place;
        }
    }
    text.len()
}

/// The parts of a text between separators, in order.
#[derive(Drop)]
pub(crate) struct SeparatedParts<'a> {
    text: &'a [u8],
    separator: u8,
    /// Where the next part begins; past the text's end where none is left.
    from: usize,
}

impl<'a> Iterator for SeparatedParts<'a> {
    type Item = &'a [u8];

    ghost next_gives = { λ old part new. MatchOption part (length old.text.now < old.from)
        (λ part. IsNextPart old.separator old.text.now old.from new.from part.now
        × (new.text.now ≡ old.text.now) × (new.separator ≡ old.separator)) };

    ghost remaining = { λ parts. at_most (length parts.text.now + 1 - parts.from) };

    fn next(&mut self) -> Option<&'a [u8]> {
        // Not `>=`: after a separator at the text's end one more part follows, which is empty.
        if self.from > self.text.len() {
            return None;
        }
        let end = part_end(self.text, self.from, self.separator);
        let part = &self.text[self.from..end];
        self.from = end + 1;
        Some(part)
    }
}

/// The parts of a text between separators.
pub(crate) fn parts_of(text: &[u8], separator: u8) -> SeparatedParts<'_>
    ensures text { result.text.now ≡ text.now }
    ensures separator { result.separator ≡ separator }
    ensures from { result.from ≡ 0 }
{
    SeparatedParts {
        text,
        separator,
        from: 0,
    }
}

/// Whether the text begins with `start`, which is in lower case, in any case.
pub(crate) fn starts_with(text: &[u8], start: &[u8]) -> bool
    requires { in_lower_case start.now ≡ start.now }
    ensures { IsTrue result ↔ Begins start.now (in_lower_case text.now) }
{
    text.len() >= start.len() && text[..start.len()].eq_ignore_ascii_case(start)
}
