//! A film of 20,000 pictures, fed to the scanner byte by byte and in large chunks.

ghost use Rattle.std.specs.Prelude.{⊤};

use crate::script_text::expect;
use film_frames::Stored;
use film_make::make_film;
use inputs::size_film;
use mpeg_scan::{Found, ScanRefused, Scanner, Unit, scan};
use std::alloc::Global;
use std::process::Abort;
use std::test::Fail;
use vod_base::{MemoryLibrary, NoMemory};

/// What the scanner reported.
#[derive(Clone, Copy, PartialEq, Eq)]
enum Told {
    Head(u64, u64),
    Slice(u64, u64),
    Unit(Unit),
}

/// All that the scanner reported, in order.
#[derive(Drop)]
struct Listener {
    told: Vec<Told>,
}

impl Listener {
    fn hear(&mut self, told: Told) -> Result<(), NoMemory> {
        self.told.push(told)?;
        Ok(())
    }
}

impl Found for Listener {
    ghost heard = { λ _ _. ⊤ };

    fn head(&mut self, from: u64, to: u64) -> Result<(), NoMemory> {
        self.hear(Told::Head(from, to))
    }

    fn slice(&mut self, from: u64, to: u64) -> Result<(), NoMemory> {
        self.hear(Told::Slice(from, to))
    }

    fn unit(&mut self, unit: Unit) -> Result<(), NoMemory> {
        self.hear(Told::Unit(unit))
    }
}

/// What the scanner reports of a film that is fed in chunks of that length.
fn told_in_chunks(alloc: Global, film: &[u8], chunk: usize) -> Result<Vec<Told>, ScanRefused> {
    if film.len() > 1 << 30 {
        return Err(ScanRefused::NoMemory);
    }
    let mut found = Listener {
        told: Vec::new(alloc),
    };
    let mut scanner = Scanner::new();
    let mut rest = film;
    for _ in 0..film.len() {
        if rest.is_empty() {
            break;
        }
        let (front, after) = rest.split_at(chunk.min(rest.len()));
        scanner.feed(front, &mut found)?;
        rest = after;
    }
    scanner.finish(&mut found)?;
    Ok(found.told)
}

/// A library that holds this film alone.
fn library_of(alloc: Global, film: &[u8]) -> Result<MemoryLibrary, NoMemory> {
    let name = String::from_str(alloc, "film.mpg")?;
    let bytes = Vec::from_slice(alloc, film)?;
    let mut files = Vec::new(alloc);
    files.push((name, bytes))?;
    Ok(MemoryLibrary::new(files, Vec::new(alloc)))
}

/// The sizes of the film's units on the wire, as a scan in chunks of 65,536 bytes gives them.
fn sizes_in_chunks(alloc: Global, film: &[u8]) -> Result<Vec<u64>, NoMemory> {
    let mut library = library_of(alloc, film)?;
    match size_film(alloc, &mut library, "film.mpg") {
        Ok(sized) => Ok(sized.sizes),
        Err(_) => Err(NoMemory),
    }
}

/// The sizes of the units of a film that is held.
fn sizes_of_held(alloc: Global, film: Vec<u8>) -> Result<Vec<u64>, NoMemory> {
    let Ok(film) = scan(alloc, film) else {
        return Err(NoMemory);
    };
    let held = Stored::new(alloc, String::from_str(alloc, "film.mpg")?, film)?;
    let mut sizes = Vec::new(alloc);
    for unit in 0..held.film.units.len() {
        sizes.push(held.wire_size(unit))?;
    }
    Ok(sizes)
}

/// Compares the reports on a film in chunks.
fn compare_reports<R: Abort>(
    rt: &R,
    alloc: Global,
    film: &[u8],
    pictures: u32,
) -> Result<(), ScanRefused> {
    let large = told_in_chunks(alloc, film, 65_536)?;
    let small = told_in_chunks(alloc, film, 1)?;
    expect(
        rt,
        large.len() == pictures as usize * 6,
        "another number of calls",
    );
    expect(rt, large.as_slice() == small.as_slice(), "the calls differ");
    Ok(())
}

/// Compares what the units of a film take on the wire.
fn compare_sizes<R: Abort>(
    rt: &R,
    alloc: Global,
    film: Vec<u8>,
    pictures: u32,
) -> Result<(), NoMemory> {
    let sizes = sizes_in_chunks(alloc, &film)?;
    let held = sizes_of_held(alloc, film)?;
    expect(
        rt,
        sizes.len() == pictures as usize,
        "another number of units",
    );
    expect(rt, sizes.as_slice() == held.as_slice(), "the sizes differ");
    Ok(())
}

/// Compares a film in chunks of two lengths, and as it is held.
fn compare<R: Abort>(rt: &R, alloc: Global, number: u64, pictures: u32) -> Result<(), Fail> {
    let film = make_film(alloc, number, pictures)?;
    compare_reports(rt, alloc, &film, pictures)?;
    compare_sizes(rt, alloc, film, pictures)?;
    Ok(())
}

#[test]
fn tells_the_same_in_chunks(rt: HostRuntime) -> Result<(), Fail> {
    compare(&rt, rt.alloc(), 5, 20_000)
}
