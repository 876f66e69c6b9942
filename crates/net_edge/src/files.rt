//! The files of the current folder.

ghost use Rattle.std.specs.Prelude.{◌≡◌, ◌≤◌, None, length, IfOk, IfErr, string_bytes};
ghost use Rattle.std.specs.IoError.{error_kind};

use crate::faults::{Faults, end_of_count};
use crate::outcomes::size_outcome;
use std::alloc::Global;
use std::io::{ErrorKind, Read, Seek, SeekFrom};
use std::rt::Files;
use std::{fmt, fs, io};
use vod_base::{Library, StoreFault};

/// The files of the folder that the program runs in. The file that was read last stays open for the
/// next read.
#[derive(Drop)]
pub struct FileLibrary<'a, R: Files> {
    rt: &'a R,
    alloc: Global,
    open: Option<OpenFile<R::File>>,
    faults: Faults,
}

impl<'a, R: Files> FileLibrary<'a, R> {
    /// Makes a library of the current folder. This allocator has the memory for names.
    pub fn new(rt: &'a R, alloc: Global) -> FileLibrary<'a, R> {
        FileLibrary {
            rt,
            alloc,
            open: None,
            faults: Faults::new(),
        }
    }

    /// The file of that name at a place, the one that is open if it is the same.
    fn open_at(&mut self, name: &str, at: u64) -> io::Result<OpenFile<R::File>>
        ensures faults { self.new.faults ≡ self.old.faults }
        ensures named { IfOk result (λ file. string_bytes file.name ≡ name.now) }
        ensures place { IfOk result (λ file. file.place ≡ at) }
    {
        // Films are read in chunks, one after the other. So most reads go on where the last one
        // ended, and need neither an open nor a seek.
        if let Some(open) = self.open.take() {
            if open.name.as_str() == name && open.place == at {
                return Ok(open);
            }
        }
        open_file(self.rt, self.alloc, name, at)
    }

    /// Reads at a place of a file.
    fn read_at(&mut self, name: &str, at: u64, into: &mut [u8]) -> io::Result<usize>
        ensures faults { self.new.faults ≡ self.old.faults }
        ensures within { IfOk result (λ count. count ≤ length into.new) }
    {
        let mut open = self.open_at(name, at)?;
        let count = read_some(&mut open.file, into)?;
        open.place = open.place.saturating_add(count as u64);
        // Kept only after a read that went well: after an error its place in the file isn't known.
        self.open = Some(open);
        Ok(count)
    }
}

impl<R: Files> fmt::Debug for FileLibrary<'_, R> {
    fn fmt<W: fmt::Write>(&self, f: &mut fmt::Formatter<W>) -> fmt::Result {
        f.debug_struct("FileLibrary").finish_non_exhaustive()
    }
}

impl<R: Files> Library for FileLibrary<'_, R> {
    ghost faults = { λ l. l.faults.count };

    ghost files = { λ _. None };

    fn find(&mut self, name: &str) -> Result<Option<u64>, StoreFault> {
        let found = size_outcome(file_size(self.rt, name));
        self.faults.pass_on(found, StoreFault)
    }

    fn read(&mut self, name: &str, at: u64, into: &mut [u8]) -> Result<usize, StoreFault> {
        let read = self.read_at(name, at, into);
        self.faults.pass_on(read, StoreFault)
    }
}

/// A file that was read, and the place of its next byte.
#[derive(Drop)]
struct OpenFile<F> {
    name: String,
    file: F,
    place: u64,
}

/// The size in bytes of the file of that name.
fn file_size<R: Files>(rt: &R, name: &str) -> io::Result<u64> {
    Ok(fs::metadata(rt, name)?.len())
}

/// Opens the file of that name at a place. Its name is kept first, since that takes memory.
fn open_file<R: Files>(rt: &R, alloc: Global, name: &str, at: u64) -> io::Result<OpenFile<R::File>>
    ensures named { IfOk result (λ file. string_bytes file.name ≡ name.now) }
    ensures place { IfOk result (λ file. file.place ≡ at) }
{
    let name_kept = String::from_str(alloc, name)?;
    let mut file = fs::open(rt, name)?;
    file.seek(SeekFrom::Start(at))?;
    Ok(OpenFile {
        name: name_kept,
        file,
        place: at,
    })
}

/// Reads, again where a signal interrupted it.
fn read_some<F: Read>(file: &mut F, into: &mut [u8]) -> io::Result<usize>
    ensures within { IfOk result (λ count. count ≤ length into.new) }
    ensures again { IfErr result (λ error. error_kind error ≡ ErrorKind.Interrupted → ⊥) }
{
    for _ in 0..u64::MAX {
        match file.read(into) {
            Err(error) if error.kind() == ErrorKind::Interrupted => {}
            read => return read,
        }
    }
    Err(end_of_count())
}
