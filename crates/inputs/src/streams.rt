//! Scans the video of a system stream of the library while it is read.

ghost use Rattle.std.specs.Prelude.{◌≡◌, ◌<◌, ◌≤◌, ◌+◌, ◌^◌, ◌++◌, Some, ℕ, List, [], length, take};
ghost use Rattle.std.specs.Prelude.{IfErr, IfOk, OnOk};
ghost use Rattle.mpeg_scan.specs.ScannerState.{IsSliceReady, bytes_fed};
ghost use Rattle.cli_errors.specs.ReadErrors.{IsReadOnly};
ghost use Rattle.inputs.specs.LoadErrors.{IsMovedFault, IsSystemError, IsToldFault};
ghost use Rattle.inputs.specs.ChunkScans.{HasScannedFilm, HasStreamed, HasStreamedAll, HasTaken};
ghost use Rattle.inputs.specs.ChunkScans.{HasUnwrapped, IsChunkRefused, IsScanError, WasOpened};

use crate::files::SizedFile;
use crate::scans::finish_scan;
use cli_errors::{CliError, InputError};
use mpeg_scan::{Ending, Found, ScanRefused, Scanner};
use std::alloc::AllocError;
use sys_demux::{SystemFault, Unwrapper};
use vod_base::{Library, NoMemory};

/// Why bytes of a system stream can't be taken.
#[derive(Clone, Copy, Debug)]
pub(crate) enum StreamError {
    /// They are no system stream; the place counts from the stream's first byte.
    Fault(SystemFault),
    /// Out of memory.
    NoMemory,
}

impl From<SystemFault> for StreamError {
    ghost use Rattle.inputs.specs.declared.streams.StreamError.TheVariants.{Fault};

    ghost from_gives = { λ fault refused. refused ≡ Fault fault };

    fn from(fault: SystemFault) -> StreamError {
        StreamError::Fault(fault)
    }
}

impl From<NoMemory> for StreamError {
    ghost use Rattle.inputs.specs.declared.streams.StreamError.TheVariants.{NoMemory as NoRoom};

    ghost from_gives = { λ _ refused. refused ≡ NoRoom };

    fn from(_want: NoMemory) -> StreamError {
        StreamError::NoMemory
    }
}

impl From<AllocError> for StreamError {
    ghost use Rattle.inputs.specs.declared.streams.StreamError.TheVariants.{NoMemory as NoRoom};

    ghost from_gives = { λ _ refused. refused ≡ NoRoom };

    fn from(_error: AllocError) -> StreamError {
        StreamError::NoMemory
    }
}

/// The fault of a stream that begins at a place of the file. A place in a file is below 2^64.
pub(crate) fn move_fault(place: u64, fault: SystemFault) -> SystemFault
    ensures { IsMovedFault place fault result }
{
    match fault {
        SystemFault::NotPack(at) => SystemFault::NotPack(place.saturating_add(at)),
        SystemFault::BadCode(at) => SystemFault::BadCode(place.saturating_add(at)),
        SystemFault::BadPacket(at) => SystemFault::BadPacket(place.saturating_add(at)),
        SystemFault::Truncated(at) => SystemFault::Truncated(place.saturating_add(at)),
    }
}

/// The error of a file whose system stream begins at `from`, where the stream is refused.
pub(crate) fn stream_error<'a>(name: &'a str, from: u64, refused: StreamError) -> CliError<'a>
    ensures { IsSystemError name.entry.now (IsToldFault from refused) result }
{
    match refused {
        StreamError::Fault(fault) => {
            CliError::Refused(name, InputError::System(move_fault(from, fault)))
        }
        StreamError::NoMemory => CliError::NoMemory,
    }
}

/// Scans the video of the system stream that begins at `from`.
pub(crate) fn scan_stream<'a, L: Library, F: Found>(
    library: &mut L,
    file: SizedFile<'a>,
    from: u64,
    chunk: &mut [u8],
    found: &mut F,
) -> Result<Ending, CliError<'a>>
    // needs: a chunk with room, a file that was found with a stream from there, a new visitor
    requires some { 0 < length chunk.old }
    requires short { file.size ≤ 2 ^ 40 }
    requires opened { WasOpened (L.files library.old) file.name.now file.size (Some from) }
    requires within { from ≤ file.size }
    requires fresh { F.heard found.old [] }
    // leaves: the library, which was only read
    ensures library { IsReadOnly L.files L.faults library.old library.new }
    // answers: the video of the stream was scanned, or why not
    ensures film { IfOk result (λ ending.
        HasScannedFilm (F.heard found.new) (L.files library.old) file.entry.name.now ending.bytes
        ending.rate) }
    ensures error { IfErr result (IsScanError file.entry.name.now (L.files library.old)
        (L.faults library.old) (L.faults library.new)) }
{
    let mut unwrapper = Unwrapper::new();
    let mut scanner = Scanner::new();
    feed_stream(
        library,
        file,
        from,
        chunk,
        &mut unwrapper,
        &mut scanner,
        found,
    )?;
    // The stream's own fault goes before its video's.
    match unwrapper.finish() {
        Ok(()) => finish_scan(file.name, scanner, found),
        Err(fault) => Err(stream_error(file.name, from, StreamError::Fault(fault))),
    }
}

/// Feeds video of a stream to the scanner. Where it refuses the film it does so again when the
/// stream has ended, and till then the stream is read on: its own faults go first.
fn take_video<F: Found>(scanner: &mut Scanner, video: &[u8], found: &mut F) -> Result<(), NoMemory>
    requires room { bytes_fed scanner.old + length video.now ≤ 2 ^ 40 }
    requires ready { IsSliceReady (F.ready_at found.old) scanner.old }
    ensures taken { (seen : List ℕ) → HasTaken (F.heard found.old) scanner.old seen
        → OnOk result (HasTaken (F.heard found.new) scanner.new (seen ++ video.now)) }
    ensures few { bytes_fed scanner.new ≤ bytes_fed scanner.old + length video.now }
    ensures ready { IsSliceReady (F.ready_at found.new) scanner.new }
{
    match scanner.feed(video, found) {
        Ok(()) => Ok(()),
        // The scanner keeps it, and answers it again at the end.
        Err(ScanRefused::Fault(_)) => Ok(()),
        Err(ScanRefused::NoMemory) => Err(NoMemory),
    }
}

/// Takes bytes from the start of a chunk of a stream, feeds the video among them to the scanner,
/// and returns how many they were.
fn unwrap_part<F: Found>(
    unwrapper: &mut Unwrapper,
    chunk: &[u8],
    scanner: &mut Scanner,
    found: &mut F,
) -> Result<usize, StreamError>
    // needs: bytes, and a scanner that was fed no more than the unwrapper
    requires some { 0 < length chunk.now }
    requires room { unwrapper.old.fed + length chunk.now ≤ 2 ^ 40 }
    requires few { bytes_fed scanner.old ≤ unwrapper.old.fed }
    requires ready { IsSliceReady (F.ready_at found.old) scanner.old }
    // answers: how many bytes were taken, at least one
    ensures taken { IfOk result (λ taken. (0 < taken) × (taken ≤ length chunk.now)) }
    ensures count { IfOk result (λ taken. unwrapper.new.fed ≡ unwrapper.old.fed + taken) }
    ensures few { IfOk result (λ taken. bytes_fed scanner.new ≤ unwrapper.old.fed + taken) }
    // leaves: a visitor that knows where it is
    ensures ready { IsSliceReady (F.ready_at found.new) scanner.new }
    // answers: these bytes were unwrapped behind whatever came before, or why not
    ensures next { (seen : List ℕ) → HasUnwrapped (F.heard found.old) unwrapper.old scanner.old seen
        → IfOk result (λ taken. HasUnwrapped (F.heard found.new) unwrapper.new scanner.new
        (seen ++ take taken chunk.now)) }
    ensures refused { (seen : List ℕ) →
        HasUnwrapped (F.heard found.old) unwrapper.old scanner.old seen
        → IfErr result (IsChunkRefused seen chunk.now) }
{
    let fed = unwrapper.feed(chunk)?;
    take_video(scanner, fed.video, found)?;
    Ok(fed.taken)
}

/// Takes a chunk of a stream, and feeds the video in it to the scanner.
fn unwrap_chunk<F: Found>(
    unwrapper: &mut Unwrapper,
    chunk: &[u8],
    scanner: &mut Scanner,
    found: &mut F,
) -> Result<(), StreamError>
    // needs: a scanner that was fed no more than the unwrapper
    requires room { unwrapper.old.fed + length chunk.now ≤ 2 ^ 40 }
    requires few { bytes_fed scanner.old ≤ unwrapper.old.fed }
    requires ready { IsSliceReady (F.ready_at found.old) scanner.old }
    // answers: all bytes of the chunk were taken
    ensures count { OnOk result (unwrapper.new.fed ≡ unwrapper.old.fed + length chunk.now) }
    ensures few { OnOk result (bytes_fed scanner.new ≤ unwrapper.new.fed) }
    // leaves: a visitor that knows where it is
    ensures ready { IsSliceReady (F.ready_at found.new) scanner.new }
    // answers: this chunk was unwrapped behind whatever came before, or why not
    ensures next { (seen : List ℕ) → HasUnwrapped (F.heard found.old) unwrapper.old scanner.old seen
        → OnOk result (HasUnwrapped (F.heard found.new) unwrapper.new scanner.new
        (seen ++ chunk.now)) }
    ensures refused { (seen : List ℕ) →
        HasUnwrapped (F.heard found.old) unwrapper.old scanner.old seen
        → IfErr result (IsChunkRefused seen chunk.now) }
{
    let mut at = 0;
    while at < chunk.len() {
        let taken = unwrap_part(unwrapper, &chunk[at..], scanner, found)?;
        at += taken;
    }
    Ok(())
}

/// Reads a stream to its end, by reads of a chunk, and feeds its video to the scanner.
fn feed_stream<'a, L: Library, F: Found>(
    library: &mut L,
    file: SizedFile<'a>,
    from: u64,
    chunk: &mut [u8],
    unwrapper: &mut Unwrapper,
    scanner: &mut Scanner,
    found: &mut F,
) -> Result<(), CliError<'a>>
    // needs: a chunk with room, a file that was found with a stream from there, and both parsers
    // before its first byte
    requires some { 0 < length chunk.old }
    requires short { file.size ≤ 2 ^ 40 }
    requires opened { WasOpened (L.files library.old) file.name.now file.size (Some from) }
    requires within { from ≤ file.size }
    requires streamed { HasStreamed (F.heard found.old)
        (L.files library.old) file.name.now file.size from from unwrapper.old scanner.old }
    requires few { bytes_fed scanner.old ≤ unwrapper.old.fed }
    requires ready { IsSliceReady (F.ready_at found.old) scanner.old }
    // leaves: the library, which was only read, and a visitor that knows where it is
    ensures library { IsReadOnly L.files L.faults library.old library.new }
    ensures ready { IsSliceReady (F.ready_at found.new) scanner.new }
    // answers: the stream was read to its end, or why not
    ensures streamed { OnOk result (HasStreamedAll (F.heard found.new)
        (L.files library.old) file.entry.name.now file.entry.size from unwrapper.new
        scanner.new) }
    ensures error { IfErr result (IsScanError file.entry.name.now (L.files library.old)
        (L.faults library.old) (L.faults library.new)) }
{
    let mut at = from;
    while let Some(count) = file.read_at(library, at, chunk)? {
        if let Err(refused) = unwrap_chunk(unwrapper, &chunk[..count], scanner, found) {
            return Err(stream_error(file.name, from, refused));
        }
        at += count as u64;
    }
    Ok(())
}
