//! Finds out whether a file is a system stream, by its first start code.

ghost use Rattle.std.specs.Prelude.{◌≡◌, ◌<◌, ◌≤◌, ◌+◌, ◌^◌, ◌++◌, Some, ℕ, List, length};
ghost use Rattle.std.specs.Prelude.{option_map, IfErr, IfOk, IfSome};
ghost use Rattle.vod_base.specs.IoState.{File, file_named};
ghost use Rattle.cli_errors.specs.ReadErrors.{IsReadOnly, IsReadError};
ghost use Rattle.inputs.specs.FileReads.{IsThatName, IsNever};
ghost use Rattle.inputs.specs.PackSearch.{HasNoCode, IsFirstCode, IsFoundBy};
ghost use Rattle.inputs.specs.ChunkScans.{IsOpened};
ghost use Rattle.inputs.specs.Videos.{pack_in};

use crate::files::SizedFile;
use cli_errors::CliError;
use mpeg_scan::Prefix;
use vod_base::Library;

/// The value of a pack's start code (ISO/IEC 11172-1, section 2.4.4.2).
const PACK: u8 = 0xba;

/// Where the system stream in a file begins, if its first start code is that of a pack.
pub(crate) fn pack_in(file: &[u8]) -> Option<u64>
    requires { length file.now ≤ 2 ^ 40 }
    ensures place { result ≡ pack_in file.now }
    ensures within { IfSome result (λ place. place ≤ length file.now) }
{
    // The first start code decides, wherever it stands: names and suffixes prove nothing.
    match open_chunk(Prefix::Nothing, 0, file) {
        FirstCode::Pack(place) => Some(place),
        FirstCode::Other => None,
        // A file without a start code is no system stream. Its scan says what it lacks.
        FirstCode::NotYet(_) => None,
    }
}

/// Where the system stream in a file of the library begins, if its first start code is that of a
/// pack.
pub(crate) fn find_pack<'a, L: Library>(
    library: &mut L,
    file: SizedFile<'a>,
    chunk: &mut [u8],
) -> Result<Option<u64>, CliError<'a>>
    requires some { 0 < length chunk.old }
    requires short { file.size ≤ 2 ^ 40 }
    ensures library { IsReadOnly L.files L.faults library.old library.new }
    ensures opened { (held : List File) → L.files library.old ≡ Some held
        → Some file.entry.size ≡ option_map length (file_named held file.entry.name.now)
        → IfOk result (IsOpened held file.entry.name.now file.entry.size) }
    ensures within { IfOk result (λ from. IfSome from (λ place. place ≤ file.entry.size)) }
    ensures error { IfErr result (IsReadError (IsThatName file.entry.name.now) IsNever
        (L.files library.old) (L.faults library.old) (L.faults library.new)) }
{
    // The prefix may lie in two chunks, so what was matched of it is handed on.
    let mut prefix = Prefix::Nothing;
    let mut at = 0;
    while let Some(count) = file.read_at(library, at, chunk)? {
        match open_chunk(prefix, at, &chunk[..count]) {
            FirstCode::NotYet(next) => prefix = next,
            FirstCode::Pack(place) => return Ok(Some(place)),
            FirstCode::Other => return Ok(None),
        }
        at += count as u64;
    }
    Ok(None)
}

/// What the bytes of a file so far show of its first start code.
#[derive(Clone, Copy)]
enum FirstCode {
    /// There is none among them.
    NotYet(Prefix),
    /// It is that of a pack, at this place.
    Pack(u64),
    /// It is another one.
    Other,
}

/// Looks for the first start code in the next bytes of a file, which begin at byte `at`.
fn open_chunk(before: Prefix, at: u64, chunk: &[u8]) -> FirstCode
    requires { at + length chunk.now ≤ 2 ^ 40 }
    ensures opening { (seen : List ℕ) → length seen ≡ at → HasNoCode before seen →
        IsFirstCode result (seen ++ chunk.now) }
    ensures within { IsFoundBy (at + length chunk.now) result }
{
    let mut prefix = before;
    for (index, byte) in chunk.iter().enumerate() {
        match prefix {
            Prefix::Whole if *byte == PACK => {
                // Never stops at 0: the three bytes of the prefix came before this one.
                return FirstCode::Pack((at + index as u64).saturating_sub(3));
            }
            Prefix::Whole => return FirstCode::Other,
            _ => prefix = prefix.next(*byte),
        }
    }
    FirstCode::NotYet(prefix)
}
