//! A text as its lines, and a line as its words.

ghost use Rattle.std.specs.Prelude.{◌≡◌, ◌∷◌, ◌<◌, [], length, OnOk, IfNone, IfSome};
ghost use Rattle.std.specs.List.{slice_split};
ghost use Rattle.day_script.specs.TextLines.{is_space, lines_of_script, texts_at, without_return};

use vod_base::{NoMemory, split_at_first};

/// The first line of a text, and the text after it. A line is ended by LF or CR LF, the last one
/// also by the end of the text; where no byte stands, no line begins.
pub(crate) fn first_line(text: &[u8]) -> Option<(&[u8], &[u8])>
    ensures none { IfNone result (text.now ≡ []) }
    ensures some { IfSome result (λ parts. lines_of_script text.now ≡
        parts.0.now ∷ lines_of_script parts.1.now) }
    ensures shorter { IfSome result (λ parts. length parts.1.now < length text.now) }
{
    if text.is_empty() {
        return None;
    }
    match split_at_first(text, b'\n') {
        Some((line, rest)) => Some((without_return(line), rest)),
        // No LF ended it. So a CR at its end is a byte of the line, and makes it bad.
        None => Some((text, &[])),
    }
}

/// The words of a line, one space apart, in place of those before.
pub(crate) fn split_words<'a>(line: &'a [u8], words: &mut Vec<&'a [u8]>) -> Result<(), NoMemory>
    ensures { OnOk result (texts_at words.new.items ≡ slice_split is_space line.now) }
{
    // The list keeps its memory, so all lines together take that of the longest.
    words.clear();
    let mut rest = line;
    while let Some((word, after)) = split_at_first(rest, b' ') {
        words.push(word)?;
        rest = after;
    }
    words.push(rest)?;
    Ok(())
}

/// A line that LF ended, without a CR at its end.
fn without_return(line: &[u8]) -> &[u8]
    ensures { result.now ≡ without_return line.now }
{
    let ends = !line.is_empty() && line[line.len() - 1] == b'\r';
    if ends { &line[..line.len() - 1] } else { line }
}
