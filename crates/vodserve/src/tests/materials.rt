//! What tests hand to `run`: arguments, the files of a library, and a library of one film.

use film_frames::Stored;
use hex::FromHexError;
use mpeg_scan::{ScanRefused, scan};
use std::alloc::Global;
use std::process::Abort;
use std::slice;
use vod_base::{MemoryLibrary, NoMemory, push, read_number};

/// Two pictures: a sequence header, a group header, an I picture of one slice, and a P picture of
/// one slice.
pub(crate) const FILM: &[u8] =
    b"\x00\x00\x01\xb3\x16\x01\x20\x13\xff\xff\xe0\xa0\x00\x00\x01\xb8\x00\x08\x00\x40\
\x00\x00\x01\x00\x00\x0f\xff\xf8\x00\x00\x01\x01\x12\x34\
\x00\x00\x01\x00\x00\x57\xff\xf8\x80\x00\x00\x01\x01\x12\x34";

/// Adds a file to those of a library.
fn push_file(
    held: &mut Vec<(String, Vec<u8>)>,
    alloc: Global,
    name: &str,
    bytes: &[u8],
) -> Result<(), NoMemory> {
    let name = String::from_str(alloc, name)?;
    held.push((name, Vec::from_slice(alloc, bytes)?))?;
    Ok(())
}

/// A library that holds this film alone, as `b.mpg`.
pub(crate) fn library_of_film(alloc: Global) -> Result<MemoryLibrary, NoMemory> {
    let mut held = Vec::new(alloc);
    push_file(&mut held, alloc, "b.mpg", FILM)?;
    Ok(MemoryLibrary::new(held, Vec::new(alloc)))
}

/// The arguments of a command line.
pub(crate) fn words_of(alloc: Global, line: &str) -> Result<Vec<String>, NoMemory> {
    let mut words = Vec::new(alloc);
    for word in line.split_whitespace() {
        words.push(String::from_str(alloc, word)?)?;
    }
    Ok(words)
}

/// A line's first word, and what stands after it.
pub(crate) fn word_and_rest(line: &str) -> (&str, &str) {
    line.split_once(' ').unwrap_or((line, ""))
}

/// The number of a word, or 0.
pub(crate) fn number_of(word: &str) -> u64 {
    read_number(word.as_bytes()).unwrap_or(0)
}

/// The bytes of a text, in which `|` means a line's end.
pub(crate) fn bytes_of(alloc: Global, text: &str, end: &[u8]) -> Result<Vec<u8>, NoMemory> {
    let mut bytes = Vec::new(alloc);
    for byte in text.as_bytes() {
        match *byte {
            b'|' => push(&mut bytes, end)?,
            _ => push(&mut bytes, slice::from_ref(byte))?,
        }
    }
    Ok(bytes)
}

/// What follows a text in bytes that begin with it. In the text `|` means a line's end.
pub(crate) fn after_text<'a>(bytes: &'a [u8], text: &str, end: &[u8]) -> Option<&'a [u8]> {
    let mut rest = bytes;
    for byte in text.as_bytes() {
        rest = match *byte {
            b'|' => rest.strip_prefix(end)?,
            _ => rest.strip_prefix(slice::from_ref(byte))?,
        };
    }
    Some(rest)
}

/// Whether bytes are a text. In the text `|` means a line's end.
pub(crate) fn is_text(bytes: &[u8], text: &str, end: &[u8]) -> bool {
    matches!(after_text(bytes, text, end), Some([]))
}

/// The bytes of hexadecimal digits. At other text the test stops.
fn bytes_of_digits<R: Abort>(rt: &R, alloc: Global, word: &str) -> Result<Vec<u8>, NoMemory> {
    match hex::decode(alloc, word) {
        Ok(bytes) => Ok(bytes),
        Err(FromHexError::OutOfMemory) => Err(NoMemory),
        Err(_) => panic!(rt; "{word} names no file, and has other bytes than digits"),
    }
}

/// A film of that name and its table. Where the bytes are no film the test stops.
fn stored_film<R: Abort>(
    rt: &R,
    alloc: Global,
    name: &str,
    bytes: &[u8],
) -> Result<Stored, NoMemory> {
    match scan(alloc, Vec::from_slice(alloc, bytes)?) {
        Ok(film) => Stored::new(alloc, String::new(alloc), film),
        Err(ScanRefused::NoMemory) => Err(NoMemory),
        Err(ScanRefused::Fault(_)) => panic!(rt; "no film is named {name}"),
    }
}

/// The sizes of a film's units on the wire, as a trace.
fn trace_of(alloc: Global, film: &Stored) -> Result<Vec<u8>, NoMemory> {
    let mut text = Vec::new(alloc);
    for unit in 0..film.film.units.len() {
        let mut digits = itoa::Buffer::new();
        push(&mut text, digits.format(film.wire_size(unit)).as_bytes())?;
        push(&mut text, b"\n")?;
    }
    Ok(text)
}

/// The files of a library, by their names.
#[derive(Drop)]
pub(crate) struct Files {
    held: Vec<(String, Vec<u8>)>,
}

impl Files {
    /// No files.
    pub(crate) fn new(alloc: Global) -> Files {
        Files {
            held: Vec::new(alloc),
        }
    }

    /// Puts a file into the library.
    pub(crate) fn keep(
        &mut self,
        alloc: Global,
        name: &str,
        bytes: Vec<u8>,
    ) -> Result<(), NoMemory> {
        self.held.push((String::from_str(alloc, name)?, bytes))?;
        Ok(())
    }

    /// The bytes of a file of the library.
    pub(crate) fn bytes(&self, name: &str) -> Option<&[u8]> {
        for (held, bytes) in &self.held {
            if held.as_str() == name {
                return Some(bytes.as_slice());
            }
        }
        None
    }

    /// Adds the bytes of a word, which names a file or has hexadecimal digits.
    fn push_word<R: Abort>(
        &self,
        rt: &R,
        alloc: Global,
        word: &str,
        into: &mut Vec<u8>,
    ) -> Result<(), NoMemory> {
        match self.bytes(word) {
            Some(held) => push(into, held),
            None => push(into, &bytes_of_digits(rt, alloc, word)?),
        }
    }

    /// The bytes of words, each of which names a file or has hexadecimal digits. At another word
    /// the test stops.
    pub(crate) fn join_words<R: Abort>(
        &self,
        rt: &R,
        alloc: Global,
        words: &str,
    ) -> Result<Vec<u8>, NoMemory> {
        let mut bytes = Vec::new(alloc);
        for word in words.split_whitespace() {
            self.push_word(rt, alloc, word, &mut bytes)?;
        }
        Ok(bytes)
    }

    /// The sizes of a film's units on the wire, as a trace. Where there is no such film the test
    /// stops.
    pub(crate) fn sizes_of<R: Abort>(
        &self,
        rt: &R,
        alloc: Global,
        name: &str,
    ) -> Result<Vec<u8>, NoMemory> {
        let film = stored_film(rt, alloc, name, self.bytes(name).unwrap_or(&[]))?;
        trace_of(alloc, &film)
    }

    /// A library of these files, of which the calls of these numbers fail.
    pub(crate) fn library(
        &self,
        alloc: Global,
        failing: &[u64],
    ) -> Result<MemoryLibrary, NoMemory> {
        let mut files = Vec::new(alloc);
        for (name, bytes) in &self.held {
            push_file(&mut files, alloc, name.as_str(), bytes)?;
        }
        Ok(MemoryLibrary::new(files, Vec::from_slice(alloc, failing)?))
    }
}
