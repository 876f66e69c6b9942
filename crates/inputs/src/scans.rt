//! Scans a film of the library while it is read.

ghost use Rattle.std.specs.Prelude.{◌≡◌, ◌<◌, ◌≤◌, ◌^◌, None, ℕ, List, [], length, IfErr, IfOk};
ghost use Rattle.std.specs.Prelude.{OnOk};
ghost use Rattle.mpeg_scan.specs.ScannerState.{IsSliceReady};
ghost use Rattle.mpeg_scan.specs.declared.faults.ScanRefused.TheVariants.{Fault as ScanFault};
ghost use Rattle.cli_errors.specs.ReadErrors.{IsReadOnly};
ghost use Rattle.inputs.specs.LoadErrors.{IsFilmError};
ghost use Rattle.inputs.specs.ChunkScans.{HasEnded, HasScannedFilm, HasScanned, HasScannedAll};
ghost use Rattle.inputs.specs.ChunkScans.{HasTaken, IsRefusedAtEnd, IsScanError, WasOpened};

use crate::files::{CHUNK_BYTES, SizedFile, find_file, zeros};
use crate::pack_search::find_pack;
use crate::streams::scan_stream;
use cli_errors::{CliError, InputError};
use mpeg_scan::{Ending, FilmFault, Found, MAX_FILM_BYTES, ScanRefused, Scanner};
use std::alloc::Global;
use vod_base::Library;

/// The error of the film of that name, where its scan is refused.
pub(crate) fn scan_error<'a>(name: &'a str, refused: ScanRefused) -> CliError<'a>
    ensures { IsFilmError name.entry.now (λ fault. refused ≡ ScanFault fault) result }
{
    match refused {
        ScanRefused::Fault(fault) => CliError::Refused(name, InputError::Film(fault)),
        ScanRefused::NoMemory => CliError::NoMemory,
    }
}

/// Ends the scan of a video.
pub(crate) fn finish_scan<'a, F: Found>(
    name: &'a str,
    scanner: Scanner,
    found: &mut F,
) -> Result<Ending, CliError<'a>>
    requires ready { IsSliceReady (F.ready_at found.old) scanner }
    ensures ended { (video : List ℕ) → length video ≤ 2 ^ 40 →
        HasTaken (F.heard found.old) scanner video
        → IfOk result (λ ending. HasEnded (F.heard found.new) video ending.bytes ending.rate) }
    ensures error { IfErr result
        (IsFilmError name.entry.now (IsRefusedAtEnd (F.heard found.old) scanner)) }
{
    match scanner.finish(found) {
        Ok(ending) => Ok(ending),
        Err(refused) => Err(scan_error(name, refused)),
    }
}

/// Scans a film of the library, by reads of at most 65,536 bytes, and collects only what `found`
/// collects: the video that the file is, or that of its system stream.
pub(crate) fn scan_film_into<'a, L: Library, F: Found>(
    alloc: Global,
    library: &mut L,
    name: &'a str,
    found: &mut F,
) -> Result<Ending, CliError<'a>>
    requires fresh { F.heard found.old [] }
    ensures library { IsReadOnly L.files L.faults library.old library.new }
    ensures film { IfOk result (λ ending.
        HasScannedFilm (F.heard found.new) (L.files library.old) name.entry.now ending.bytes
        ending.rate) }
    ensures error { IfErr result (IsScanError name.entry.now (L.files library.old)
        (L.faults library.old) (L.faults library.new)) }
{
    let size = find_file(library, name)?;
    // Refused before any byte is read.
    if MAX_FILM_BYTES < size {
        return Err(CliError::Refused(name, InputError::Film(FilmFault::TooLong)));
    }
    let file = SizedFile { name, size };
    let mut chunk = zeros(alloc, CHUNK_BYTES)?;
    // The search may have read past the code, so both scans read again from their first byte.
    let stream = find_pack(library, file, &mut chunk)?;
    match stream {
        None => scan_plain(library, file, &mut chunk, found),
        Some(from) => scan_stream(library, file, from, &mut chunk, found),
    }
}

/// Feeds the entire film to the scanner, by reads of a chunk.
fn feed_film<'a, L: Library, F: Found>(
    library: &mut L,
    file: SizedFile<'a>,
    chunk: &mut [u8],
    scanner: &mut Scanner,
    found: &mut F,
) -> Result<(), CliError<'a>>
    // needs: a chunk with room, a file that was found, a scanner before its first byte
    requires some { 0 < length chunk.old }
    requires short { file.size ≤ 2 ^ 40 }
    requires opened { WasOpened (L.files library.old) file.name.now file.size None }
    requires scanned { HasScanned (F.heard found.old)
        (L.files library.old) file.name.now file.size 0 scanner.old }
    requires ready { IsSliceReady (F.ready_at found.old) scanner.old }
    // leaves: the library, which was only read, and a visitor that knows where it is
    ensures library { IsReadOnly L.files L.faults library.old library.new }
    ensures ready { IsSliceReady (F.ready_at found.new) scanner.new }
    // answers: the file was scanned to its end, or why not
    ensures scanned { OnOk result (HasScannedAll (F.heard found.new)
        (L.files library.old) file.entry.name.now file.entry.size scanner.new) }
    ensures error { IfErr result (IsScanError file.entry.name.now (L.files library.old)
        (L.faults library.old) (L.faults library.new)) }
{
    let mut at = 0;
    while let Some(count) = file.read_at(library, at, chunk)? {
        if let Err(refused) = scanner.feed(&chunk[..count], found) {
            return Err(scan_error(file.name, refused));
        }
        at += count as u64;
    }
    Ok(())
}

/// Scans the video that a file is.
fn scan_plain<'a, L: Library, F: Found>(
    library: &mut L,
    file: SizedFile<'a>,
    chunk: &mut [u8],
    found: &mut F,
) -> Result<Ending, CliError<'a>>
    requires some { 0 < length chunk.old }
    requires short { file.size ≤ 2 ^ 40 }
    requires opened { WasOpened (L.files library.old) file.name.now file.size None }
    requires fresh { F.heard found.old [] }
    ensures library { IsReadOnly L.files L.faults library.old library.new }
    ensures film { IfOk result (λ ending.
        HasScannedFilm (F.heard found.new) (L.files library.old) file.entry.name.now ending.bytes
        ending.rate) }
    ensures error { IfErr result (IsScanError file.entry.name.now (L.files library.old)
        (L.faults library.old) (L.faults library.new)) }
{
    let mut scanner = Scanner::new();
    feed_film(library, file, chunk, &mut scanner, found)?;
    finish_scan(file.name, scanner, found)
}
