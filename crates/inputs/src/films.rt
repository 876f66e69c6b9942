//! Loads a film into memory.

ghost use Rattle.std.specs.Prelude.{◌≡◌, ◌≤◌, ◌^◌, Some, List, length, vec_len, IfErr, IfOk};
ghost use Rattle.std.specs.Prelude.{string_bytes};
ghost use Rattle.vod_base.specs.IoState.{File};
ghost use Rattle.mpeg_scan.specs.Films.{refusal};
ghost use Rattle.sys_demux.specs.SystemStreams.{IsSystem};
ghost use Rattle.cli_errors.specs.ReadErrors.{IsReadOnly, IsReadError};
ghost use Rattle.inputs.specs.FileReads.{IsThatName};
ghost use Rattle.inputs.specs.LoadErrors.{IsFileBytesError, IsFilmError, IsServedFilmRefused};
ghost use Rattle.inputs.specs.LoadErrors.{IsNotRefused, IsStreamError};
ghost use Rattle.inputs.specs.ChunkScans.{HoldsVideo};
ghost use Rattle.inputs.specs.Videos.{IsFilmRefused, IsRefusedAbove, IsVideo};

use crate::files::{SizedFile, find_file};
use crate::pack_search::pack_in;
use crate::scans::scan_error;
use crate::streams::{StreamError, stream_error};
use cli_errors::{CliError, InputError};
use film_frames::Stored;
use mpeg_scan::{Film, FilmFault, MAX_FILM_BYTES, scan};
use std::alloc::Global;
use sys_demux::Unwrapper;
use vod_base::{Library, NoMemory};

/// The most bytes of a film that a server holds.
const MAX_HELD_BYTES: u64 = 1 << 30;

/// Loads a film that is to be served, an MPEG-1 video stream (ISO/IEC 11172-2) or a system stream
/// with one (ISO/IEC 11172-1). Its file has at most 2^30 bytes.
///
/// # Errors
///
/// [`CliError::Refused`] with [`InputError::NotFound`] where there is no such file, with
/// [`InputError::FilmTooLarge`] where it has more bytes, and with [`InputError::System`] or
/// [`InputError::Film`] where its stream or its video is refused; [`CliError::StoreFault`] where
/// the library fails; and [`CliError::NoMemory`].
pub fn load_film<'a, L: Library>(
    alloc: Global,
    library: &mut L,
    name: &'a str,
) -> Result<Stored, CliError<'a>>
    // leaves: the library as it was, except its count of faults
    ensures library { IsReadOnly L.files L.faults library.old library.new }
    // answers: the film under its name, with the bytes of the video in the file
    ensures name { IfOk result (λ stored. string_bytes stored.name ≡ name.entry.now) }
    ensures film { (held : List File) → L.files library.old ≡ Some held
        → IfOk result (λ stored. HoldsVideo held name.entry.now stored.film.bytes.items) }
    // answers: Ok only where nothing refuses the file, and an error only for its cause
    ensures small { (held : List File) → L.files library.old ≡ Some held
        → IfOk result (λ stored. IsNotRefused IsServedFilmRefused held name.entry.now) }
    ensures error { IfErr result (IsReadError (IsThatName name.entry.now) IsServedFilmRefused
        (L.files library.old) (L.faults library.old) (L.faults library.new)) }
{
    load_within(
        alloc,
        library,
        name,
        MAX_HELD_BYTES,
        InputError::FilmTooLarge,
    )
}

/// Loads a film that a script plays, of at most 2^40 bytes.
///
/// # Errors
///
/// As of [`load_film`], but that a file of more bytes is refused with [`FilmFault::TooLong`].
pub fn load_script_film<'a, L: Library>(
    alloc: Global,
    library: &mut L,
    name: &'a str,
) -> Result<Stored, CliError<'a>>
    // leaves: the library as it was, except its count of faults
    ensures library { IsReadOnly L.files L.faults library.old library.new }
    // answers: the film under its name, with the bytes of the video in the file
    ensures name { IfOk result (λ stored. string_bytes stored.name ≡ name.entry.now) }
    ensures film { (held : List File) → L.files library.old ≡ Some held
        → IfOk result (λ stored. HoldsVideo held name.entry.now stored.film.bytes.items) }
    // answers: Ok only where nothing refuses the file, and an error only for its cause
    ensures small { (held : List File) → L.files library.old ≡ Some held
        → IfOk result (λ stored. IsNotRefused IsFilmRefused held name.entry.now) }
    ensures error { IfErr result (IsReadError (IsThatName name.entry.now) IsFilmRefused
        (L.files library.old) (L.faults library.old) (L.faults library.new)) }
{
    load_within(
        alloc,
        library,
        name,
        MAX_FILM_BYTES,
        InputError::Film(FilmFault::TooLong),
    )
}

/// The film under its name, with its table of frames.
fn store(alloc: Global, name: &str, film: Film) -> Result<Stored, NoMemory>
    ensures name { IfOk result (λ stored. string_bytes stored.name ≡ name.now) }
    ensures film { IfOk result (λ stored. stored.film ≡ film) }
{
    let name = String::from_str(alloc, name)?;
    Stored::new(alloc, name, film)
}

/// The video of a system stream.
fn unwrap_stream(alloc: Global, stream: &[u8]) -> Result<Vec<u8>, StreamError>
    requires { length stream.now ≤ 2 ^ 40 }
    ensures video { IfOk result (λ video. IsSystem stream.now video.items) }
    ensures refused { IfErr result (IsStreamError stream.now) }
{
    let mut unwrapper = Unwrapper::new();
    let mut video = Vec::new(alloc);
    let mut at = 0;
    while at < stream.len() {
        let fed = unwrapper.feed(&stream[at..])?;
        video.extend_from_slice(fed.video)?;
        at += fed.taken;
    }
    // Faults of the stream come before those of its video, so it is read to its end first.
    unwrapper.finish()?;
    Ok(video)
}

/// The video of a file that was read.
fn video_of<'a>(alloc: Global, name: &'a str, file: Vec<u8>) -> Result<Vec<u8>, CliError<'a>>
    requires { vec_len file ≤ 2 ^ 40 }
    ensures video { IfOk result (λ video. IsVideo file.items video.items) }
    ensures error { IfErr result (IsFileBytesError name.entry.now file.items) }
{
    // Without a pack first the file is the video itself, and isn't copied.
    let Some(from) = pack_in(&file) else {
        return Ok(file);
    };
    match unwrap_stream(alloc, &file[from as usize..]) {
        Ok(video) => Ok(video),
        Err(refused) => Err(stream_error(name, from, refused)),
    }
}

/// The film that a video is.
fn scan_video<'a>(alloc: Global, name: &'a str, video: Vec<u8>) -> Result<Film, CliError<'a>>
    ensures film { IfOk result (λ film. film.bytes.items ≡ video.items) }
    ensures error { IfErr result (IsFilmError name.entry.now (λ fault. refusal video.items ≡
        Some fault)) }
{
    match scan(alloc, video) {
        Ok(film) => Ok(film),
        Err(refused) => Err(scan_error(name, refused)),
    }
}

/// The film that a file is.
fn scan_file<'a>(alloc: Global, name: &'a str, file: Vec<u8>) -> Result<Film, CliError<'a>>
    requires { vec_len file ≤ 2 ^ 40 }
    ensures film { IfOk result (λ film. IsVideo file.items film.bytes.items) }
    ensures error { IfErr result (IsFileBytesError name.entry.now file.items) }
{
    let video = video_of(alloc, name, file)?;
    scan_video(alloc, name, video)
}

/// Loads a film: reads all of it, takes the video out of a system stream, scans it and makes its
/// table. Where the file has more bytes than the most, `over` is the refusal, and no byte is read.
fn load_within<'a, L: Library>(
    alloc: Global,
    library: &mut L,
    name: &'a str,
    most: u64,
    over: InputError,
) -> Result<Stored, CliError<'a>>
    requires { most ≤ 2 ^ 40 }
    ensures library { IsReadOnly L.files L.faults library.old library.new }
    ensures name { IfOk result (λ stored. string_bytes stored.name ≡ name.entry.now) }
    ensures film { (held : List File) → L.files library.old ≡ Some held
        → IfOk result (λ stored. HoldsVideo held name.entry.now stored.film.bytes.items) }
    ensures small { (held : List File) → L.files library.old ≡ Some held
        → IfOk result (λ stored. IsNotRefused (IsRefusedAbove most over) held name.entry.now) }
    ensures error { IfErr result
        (IsReadError (IsThatName name.entry.now) (IsRefusedAbove most over)
        (L.files library.old) (L.faults library.old) (L.faults library.new)) }
{
    let size = find_file(library, name)?;
    // Refused before any read: a file that is too large takes no memory.
    if most < size {
        return Err(CliError::Refused(name, over));
    }
    let file = SizedFile { name, size }.read_bytes(alloc, library)?;
    let film = scan_file(alloc, name, file)?;
    let stored = store(alloc, name, film)?;
    Ok(stored)
}
