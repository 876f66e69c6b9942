//! A text in two parts, at its first byte of a kind.

ghost use Rattle.std.specs.Prelude.{◌≡◌, ◌==◌, true, not, MatchOption};
ghost use Rattle.std.specs.List.{list_all};
ghost use Rattle.vod_base.specs.Splits.{IsSplitAtFirst};

/// Returns the part before the first byte `c`, and the part after that byte, or None if the text
/// has no such byte.
pub fn split_at_first(text: &[u8], c: u8) -> Option<(&[u8], &[u8])>
    ensures { MatchOption result (list_all (λ byte. not (byte == c)) text.now ≡ true)
        (λ parts. IsSplitAtFirst c text.now parts.0.now parts.1.now) }
{
    for at in 0..text.len() {
        if text[at] == c {
            return Some((&text[..at], &text[at + 1..]));
        }
    }
    None
}
