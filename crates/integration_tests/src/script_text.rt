//! The parts of a script's lines.

ghost use Rattle.std.specs.Prelude.{◌≡◌, true};

use hex::FromHexError;
use std::alloc::Global;
use std::process::Abort;
use vod_base::{NoMemory, read_number};

/// Stops the test with a text, unless a condition is true.
pub(crate) fn expect<R: Abort>(rt: &R, condition: bool, otherwise: &str)
    ensures { condition ≡ true }
{
    assert!(rt; condition, "{otherwise}");
}

/// A line's first word, and what stands after it.
pub(crate) fn word_and_rest(line: &str) -> (&str, &str) {
    line.split_once(' ').unwrap_or((line, ""))
}

/// Returns the lines that an abbreviation means, or the line itself. Empty lines part the
/// abbreviations, each of which stands before its lines.
fn phrase_of<'a>(phrases: &'a str, line: &'a str) -> &'a str {
    for phrase in phrases.split("\n\n") {
        let (short, long) = phrase.split_once('\n').unwrap_or((phrase, ""));
        if line == short {
            return long;
        }
    }
    line
}

/// A script with all its lines in full, without the end of the last.
pub(crate) fn in_full(alloc: Global, phrases: &str, script: &str) -> Result<String, NoMemory> {
    let mut text = String::new(alloc);
    for line in script.lines() {
        if !text.is_empty() {
            text.push('\n')?;
        }
        text.push_str(phrase_of(phrases, line))?;
    }
    Ok(text)
}

/// A message, in which `|` means CR LF.
fn message_of(alloc: Global, text: &str) -> Result<Vec<u8>, NoMemory> {
    let mut bytes = Vec::new(alloc);
    for byte in text.as_bytes() {
        match *byte {
            b'|' => bytes.extend_from_slice(b"\r\n")?,
            other => bytes.push(other)?,
        }
    }
    Ok(bytes)
}

/// Bytes in hexadecimal digits, with spaces between them. At other words the test stops.
pub(crate) fn bytes_of<R: Abort>(rt: &R, alloc: Global, digits: &str) -> Result<Vec<u8>, NoMemory> {
    let mut bytes = Vec::new(alloc);
    for word in digits.split_whitespace() {
        match hex::decode(alloc, word) {
            Ok(part) => bytes.extend_from_slice(&part)?,
            Err(FromHexError::OutOfMemory) => return Err(NoMemory),
            Err(_) => panic!(rt; "{word} has other bytes than digits"),
        }
    }
    Ok(bytes)
}

/// The bytes of a line that begins with this word: a message after `hears` and `says`, so many
/// times the same byte after `fill`, and hexadecimal digits after `gets` and `sends`.
pub(crate) fn payload_of<R: Abort>(
    rt: &R,
    alloc: Global,
    word: &str,
    rest: &str,
) -> Result<Vec<u8>, NoMemory> {
    if word == "hears" || word == "says" {
        return message_of(alloc, rest);
    }
    if word == "fill" {
        return Ok(vec![in alloc; b'x'; numbers_of(rest)[0] as usize]?);
    }
    expect(rt, word == "gets" || word == "sends", word);
    bytes_of(rt, alloc, rest)
}

/// The first numbers of a line, and 0 for those that are missing.
pub(crate) fn numbers_of(text: &str) -> [u64; 4] {
    let mut numbers = [0; 4];
    for (place, word) in text.split_whitespace().enumerate() {
        if let Some(number) = numbers.get_mut(place) {
            *number = read_number(word.as_bytes()).unwrap_or(0);
        }
    }
    numbers
}

/// The bytes of films in blocks of an interleaved connection: the payloads on channel 0 after their
/// headers, up to the first byte that begins no block; and how long the blocks are.
pub(crate) fn film_in(alloc: Global, sent: &[u8]) -> Result<(Vec<u8>, usize), NoMemory> {
    let mut film = Vec::new(alloc);
    let mut read = 0usize;
    for _ in 0..sent.len() {
        let Some((channel, block)) = block_at(sent.get(read..).unwrap_or(&[])) else {
            break;
        };
        if channel == 0 {
            film.extend_from_slice(block.get(16..).unwrap_or(&[]))?;
        }
        read = read.saturating_add(4 + block.len());
    }
    Ok((film, read))
}

/// The block that bytes begin with: its channel, and its bytes after the header of four.
fn block_at(sent: &[u8]) -> Option<(u8, &[u8])> {
    let [b'$', channel, high, low, after @ ..] = sent else {
        return None;
    };
    let length = usize::from(*high) * 256 + usize::from(*low);
    Some((*channel, after.get(..length)?))
}
