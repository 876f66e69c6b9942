//! Blanks around a text.

ghost use Rattle.std.specs.Prelude.{◌≡◌, reverse};
ghost use Rattle.vod_base.specs.Blanks.{is_blank, without_leading_blanks, without_blanks};

/// Returns whether a byte is a blank: a space or a tab.
pub fn is_blank(byte: u8) -> bool
    ensures { result ≡ is_blank byte }
{
    // The blanks of RFC 2326, section 15.1, but for folded lines: those are refused.
    byte == b' ' || byte == b'\t'
}

/// Returns the text without the blanks (spaces and tabs) around it.
pub fn trim(text: &[u8]) -> &[u8]
    ensures { result.now ≡ without_blanks text.now }
{
    trim_end(trim_start(text))
}

/// Returns the text without its leading blanks.
fn trim_start(text: &[u8]) -> &[u8]
    ensures { result.now ≡ without_leading_blanks text.now }
{
    let mut rest = text;
    while let [b' ' | b'\t', next @ ..] = rest {
        rest = next;
    }
    rest
}

/// Returns the text without its trailing blanks.
fn trim_end(text: &[u8]) -> &[u8]
    ensures { result.now ≡ reverse (without_leading_blanks (reverse text.now)) }
{
    let mut rest = text;
    while let [before @ .., b' ' | b'\t'] = rest {
        rest = before;
    }
    rest
}
