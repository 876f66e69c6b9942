//! The films, system streams and traces are a few bytes each, written by hand.

ghost use Rattle.std.specs.Prelude.{None};

use crate::{load_film, load_script_film, read_input, read_trace, scan_film, size_film};
use cli_errors::{CliError, InputError};
use film_frames::Stored;
use std::alloc::{AllocError, Global};
use std::fmt::Debug;
use std::process::Abort;
use vod_base::{Library, StoreFault};

/// A sequence header, a group header, an I picture and one slice.
const FILM: [u8; 34] = [
    0, 0, 1, 0xb3, 0x16, 0x01, 0x20, 0x13, 0xff, 0xff, 0xe0, 0xa0, 0, 0, 1, 0xb8, 0, 8, 0, 0x40, 0,
    0, 1, 0, 0, 0x0f, 0xff, 0xf8, 0, 0, 1, 1, 0x12, 0x34,
];

/// A library of the file `a.mpg` alone. The size that it tells need not be that of the bytes.
#[derive(Drop)]
struct OneFile<'a> {
    size: u64,
    bytes: &'a [u8],
}

impl Library for OneFile<'_> {
    ghost faults = { λ _. 0 };

    ghost files = { λ _. None };

    fn find(&mut self, name: &str) -> Result<Option<u64>, StoreFault> {
        if name == "a.mpg" {
            return Ok(Some(self.size));
        }
        Ok(None)
    }

    fn read(&mut self, name: &str, at: u64, into: &mut [u8]) -> Result<usize, StoreFault> {
        let Some(rest) = self.bytes.get(at as usize..) else {
            return Ok(0);
        };
        if name != "a.mpg" {
            return Ok(0);
        }
        let count = rest.len().min(into.len());
        into[..count].copy_from_slice(&rest[..count]);
        Ok(count)
    }
}

fn library(bytes: &[u8]) -> OneFile<'_> {
    OneFile {
        size: bytes.len() as u64,
        bytes,
    }
}

/// What was read is the film, under the name of its file.
fn check_stored(rt: &impl Abort, read: Result<Stored, CliError<'_>>) {
    let stored = read.expect(rt, "a film");
    assert!(rt; stored.name.as_str() == "a.mpg");
    assert!(rt; stored.film.bytes.as_slice() == FILM.as_slice());
    assert!(rt; stored.film.units.len() == 1);
}

/// Why a file isn't loaded.
fn refusal_of(alloc: Global, held: &mut OneFile<'_>, name: &str) -> Option<InputError> {
    match load_film(alloc, held, name) {
        Err(CliError::Refused(_, fault)) => Some(fault),
        _ => None,
    }
}

/// The library's file `a.mpg` holds the film, and no other file is there.
fn check_loaded(rt: &impl Abort, alloc: Global, held: &mut OneFile<'_>) {
    check_stored(rt, load_film(alloc, held, "a.mpg"));
    assert!(rt; refusal_of(alloc, held, "b.mpg") == Some(InputError::NotFound));
}

/// How a value is printed.
fn check_printed(rt: &impl Abort, alloc: Global, value: &impl Debug, want: &str) {
    let text = format!(in alloc; "{value:?}").expect(rt, "a text");
    assert!(rt; text.as_str() == want, "{text}");
}

#[test]
fn loads_and_scans_a_film(rt: HostRuntime) {
    let mut held = library(FILM.as_slice());
    check_loaded(&rt, rt.alloc(), &mut held);
    let film = scan_film(rt.alloc(), &mut held, "a.mpg").expect(&rt, "a scanned film");
    let want = "ScannedFilm { bytes: 34, rate: 3, units: [Unit { from: 0, head_end: 28, to: 34, \
        first_slice: 0, slices: 1, temporal: 0, presentation: 0, kind: I, vectors: 0, \
        has_sequence: true, starts_group: true }] }";
    check_printed(&rt, rt.alloc(), &film, want);
}

/// So many bytes of one value, and these parts after them.
fn padded(alloc: Global, value: u8, count: usize, parts: &[&[u8]]) -> Result<Vec<u8>, AllocError> {
    let mut bytes = vec![in alloc; value; count]?;
    for part in parts {
        bytes.extend_from_slice(part)?;
    }
    Ok(bytes)
}

/// The headers of a system stream's pack and of its packet, which holds the film.
const SYSTEM: [u8; 19] = [
    0, 0, 1, 0xba, 0x21, 0, 1, 0, 1, 0x80, 0, 3, 0, 0, 1, 0xe0, 0, 35, 0x0f,
];

#[test]
fn loads_and_sizes_a_system_stream(rt: HostRuntime) {
    let stream = padded(rt.alloc(), 7, 70_000, &[&SYSTEM, &FILM]).expect(&rt, "a stream");
    let mut held = library(&stream);
    check_loaded(&rt, rt.alloc(), &mut held);
    check_stored(&rt, load_script_film(rt.alloc(), &mut held, "a.mpg"));
    let film = size_film(rt.alloc(), &mut held, "a.mpg").expect(&rt, "a sized film");
    check_printed(
        &rt,
        rt.alloc(),
        &film,
        "SizedFilm { rate: 3, sizes: [106] }",
    );
}

#[test]
fn reads_three_chunks(rt: HostRuntime) {
    let bytes = padded(rt.alloc(), b' ', 150_000, &[b"12 7"]).expect(&rt, "a trace");
    let text = read_input(rt.alloc(), &mut library(&bytes), "a.mpg").expect(&rt, "a text");
    assert!(rt; text == bytes);
    let sizes = read_trace(rt.alloc(), &text).expect(&rt, "a trace's sizes");
    check_printed(&rt, rt.alloc(), &sizes, "[12, 7]");
}

/// Why a film of so many bytes is refused, none of which can be read.
fn refusal_at(alloc: Global, size: u64) -> Option<InputError> {
    refusal_of(alloc, &mut OneFile { size, bytes: b"" }, "a.mpg")
}

#[test]
fn holds_a_gibibyte_at_most(rt: HostRuntime) {
    let most = refusal_at(rt.alloc(), 1 << 30);
    assert!(rt; most.is_some() && most != Some(InputError::FilmTooLarge));
    let more = refusal_at(rt.alloc(), (1 << 30) + 1);
    assert!(rt; more == Some(InputError::FilmTooLarge));
}
