//! Reads a file of the library.

ghost use Rattle.std.specs.Prelude.{◌≡◌, ◌<◌, ◌≤◌, Some, ℕ, List, length};
ghost use Rattle.std.specs.Prelude.{option_map, vec_len, IfErr, IfOk, IfSome};
ghost use Rattle.vod_base.specs.IoState.{File, file_named};
ghost use Rattle.cli_errors.specs.ReadErrors.{IsReadOnly, IsReadError};
ghost use Rattle.inputs.specs.FileReads.{IsChunk, IsFilePrefix, IsMissing, IsThatName, IsNever};
ghost use Rattle.inputs.specs.FileReads.{IsNextRead};

use cli_errors::{CliError, InputError};
use std::alloc::{AllocError, Global};
use vod_base::Library;

/// The most bytes that one read asks for.
pub(crate) const CHUNK_BYTES: usize = 65_536;

/// Reads the entire input of that name, by reads of at most 65,536 bytes.
///
/// # Errors
///
/// [`CliError::Refused`] with [`InputError::NotFound`] where there is no such file,
/// [`CliError::StoreFault`] where the library fails, and [`CliError::NoMemory`].
pub fn read_input<'a, L: Library>(
    alloc: Global,
    library: &mut L,
    name: &'a str,
) -> Result<Vec<u8>, CliError<'a>>
    ensures library { IsReadOnly L.files L.faults library.old library.new }
    ensures found { (held : List File) → L.files library.old ≡ Some held
        → IfOk result (λ text. file_named held name.entry.now ≡ Some text.items) }
    ensures error { IfErr result (IsReadError (IsThatName name.entry.now) IsMissing
        (L.files library.old) (L.faults library.old) (L.faults library.new)) }
{
    let size = find_file(library, name)?;
    SizedFile { name, size }.read_bytes(alloc, library)
}

/// That many zero bytes.
pub(crate) fn zeros(alloc: Global, count: usize) -> Result<Vec<u8>, AllocError>
    ensures { IfOk result (λ zeros. vec_len zeros ≡ count) }
{
    // A read fills bytes that are there, so room for one begins as zeros.
    vec![in alloc; 0u8; count]
}

/// The size of a file that is there.
pub(crate) fn find_file<'a, L: Library>(library: &mut L, name: &'a str) -> Result<u64, CliError<'a>>
    ensures library { IsReadOnly L.files L.faults library.old library.new }
    ensures found { (held : List File) → L.files library.old ≡ Some held
        → IfOk result (λ size. Some size ≡ option_map length (file_named held name.entry.now)) }
    ensures error { IfErr result (IsReadError (IsThatName name.entry.now) IsMissing
        (L.files library.old) (L.faults library.old) (L.faults library.new)) }
{
    match library.find(name) {
        Ok(Some(size)) => Ok(size),
        Ok(None) => Err(CliError::Refused(name, InputError::NotFound)),
        Err(_) => Err(CliError::StoreFault(name)),
    }
}

/// A file of the library whose size was found.
#[derive(Clone, Copy)]
pub(crate) struct SizedFile<'a> {
    /// Its name.
    pub(crate) name: &'a str,
    /// How many bytes it has.
    pub(crate) size: u64,
}

impl<'a> SizedFile<'a> {
    /// Reads the bytes from a place on, as many as one read gives, puts them at the start of
    /// `into`, and returns how many: None at the file's end.
    pub(crate) fn read_at<L: Library>(
        self,
        library: &mut L,
        at: u64,
        into: &mut [u8],
    ) -> Result<Option<usize>, CliError<'a>>
        requires some { 0 < length into.old }
        requires within { at ≤ self.size }
        ensures library { IsReadOnly L.files L.faults library.old library.new }
        ensures chunk { IfOk result (λ chunk.
            IfSome chunk (IsChunk self.entry.size at (length into.new))) }
        ensures told { (held : List File) (bytes : List ℕ) → L.files library.old ≡ Some held
            → IsFilePrefix held self.entry.name.now self.entry.size bytes → length bytes ≡ at
            → IfOk result (IsNextRead held self.entry.name.now self.entry.size bytes into.new) }
        ensures error { IfErr result (IsReadError (IsThatName self.entry.name.now) IsNever
            (L.files library.old) (L.faults library.old) (L.faults library.new)) }
    {
        // The file is read up to the size found first: a plan must match the film that is sent.
        if at == self.size {
            return Ok(None);
        }
        match library.read(self.name, at, into) {
            // The file became shorter meanwhile: it ends here.
            Ok(0) => Ok(None),
            // Bytes that were appended meanwhile aren't read.
            Ok(count) => Ok(Some(count.min((self.size - at) as usize))),
            Err(_) => Err(CliError::StoreFault(self.name)),
        }
    }

    /// Reads the entire file, by reads of at most 65,536 bytes.
    pub(crate) fn read_bytes<L: Library>(
        self,
        alloc: Global,
        library: &mut L,
    ) -> Result<Vec<u8>, CliError<'a>>
        ensures library { IsReadOnly L.files L.faults library.old library.new }
        ensures read { (held : List File) → L.files library.old ≡ Some held
            → Some self.entry.size ≡ option_map length (file_named held self.entry.name.now)
            → IfOk result (λ bytes. file_named held self.entry.name.now ≡ Some bytes.items) }
        ensures within { IfOk result (λ bytes. vec_len bytes ≤ self.entry.size) }
        ensures error { IfErr result (IsReadError (IsThatName self.entry.name.now) IsNever
            (L.files library.old) (L.faults library.old) (L.faults library.new)) }
    {
        // Room for all of it at once: no chunk that is added takes memory.
        let mut bytes = Vec::with_capacity(alloc, self.size as usize)?;
        let mut chunk = zeros(alloc, CHUNK_BYTES)?;
        while let Some(count) = self.read_at(library, bytes.len() as u64, &mut chunk)? {
            bytes.extend_from_slice(&chunk[..count])?;
        }
        Ok(bytes)
    }
}
