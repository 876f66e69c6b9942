//! A library in memory.

ghost use Rattle.std.specs.Prelude.{◌≡◌, ◌-◌, ◌≤◌, ℕ, List, Option, Some, length, map, option_map};
ghost use Rattle.std.specs.Prelude.{min, string_bytes, if◌then◌else◌, IfOk, OnOk, OnErr, is_err};
ghost use Rattle.vod_base.specs.IoState.{File, HasRisen, file_named, bytes_named, IsRead, one_more};
ghost use Rattle.vod_base.specs.Memory.{LibraryState, library_called, call_fails};

use crate::errors::StoreFault;
use crate::fault_injection::counted_call;
use crate::files::Library;
use crate::reads::copy_from;
use std::fmt::{self, Formatter, Write};
use std::marker::Model;

/// A library in memory, whose calls of `find` and `read` fail at given numbers.
#[derive(Drop)]
pub struct MemoryLibrary {
    files: Vec<(String, Vec<u8>)>,
    failing: Vec<u64>,
    calls: u64,
    faults: u64,
}

impl Model for MemoryLibrary {
    ghost use Rattle.std.specs.Prelude.{map, string_bytes};
    ghost use Rattle.vod_base.specs.Memory.{LibraryState};

    ghost Value = { LibraryState };

    ghost view = { λ l.
        record {
          files = map (λ f.
              record { name = string_bytes f.0; bytes = f.1.items }) l.files.items;
          failing = l.failing.items;
          calls = l.calls;
          faults = l.faults;
        } };
}

impl fmt::Debug for MemoryLibrary {
    fn fmt<W: Write>(&self, f: &mut Formatter<W>) -> fmt::Result {
        f.write_str("MemoryLibrary { .. }")
    }
}

impl MemoryLibrary {
    /// Returns a library of these files, of which the first of a name counts. `failing` has the
    /// numbers, from 1, of the calls that fail.
    pub fn new(files: Vec<(String, Vec<u8>)>, failing: Vec<u64>) -> MemoryLibrary
        ensures { result ≡ record {
          files = map (λ f.
              record { name = string_bytes f.0; bytes = f.1.items }) files.items;
          failing = failing.items;
          calls = 0;
          faults = 0;
        } }
    {
        MemoryLibrary {
            files,
            failing,
            calls: 0,
            faults: 0,
        }
    }

    /// Counts a call, and returns whether it fails.
    fn call(&mut self) -> bool
        ensures fails { result ≡ call_fails self.old.failing self.old.calls }
        ensures called { self.new ≡ library_called self.old }
    {
        let failed = counted_call(&mut self.calls, &self.failing);
        if failed {
            // Saturating, as all counts of faults: `HasRisen` takes a count at 2^64 - 1 as risen.
            self.faults = self.faults.saturating_add(1);
        }
        failed
    }

    /// Returns the bytes of the first file of that name.
    fn file(&self, name: &str) -> Option<&[u8]>
        ensures { option_map (λ bytes. bytes.now) result ≡ file_named self.now.files name.now }
    {
        first_named(&self.files, name)
    }
}

/// Returns the bytes of the first of these files that has the name.
fn first_named<'a>(files: &'a [(String, Vec<u8>)], name: &str) -> Option<&'a [u8]>
    ensures { option_map (λ bytes. bytes.now) result ≡
        file_named (map (λ f. record { name = string_bytes f.0; bytes = f.1.items }) files.now)
        name.now }
{
    for (file_name, bytes) in files {
        if file_name.as_str() == name {
            return Some(bytes.as_slice());
        }
    }
    None
}

impl Library for MemoryLibrary {
    ghost use Rattle.std.specs.Prelude.{Some};

    ghost faults = { λ l. l.faults };

    ghost files = { λ l. Some l.files };

    fn find(&mut self, name: &str) -> Result<Option<u64>, StoreFault>
        ensures kept { self.new.files ≡ self.old.files }
        ensures called { self.new ≡ library_called self.old }
        ensures fails { is_err result ≡ call_fails self.old.failing self.old.calls }
        ensures found { IfOk result (λ size. size ≡
            option_map length (file_named self.old.files name.now)) }
    {
        if self.call() {
            return Err(StoreFault);
        }
        Ok(self.file(name).map(|bytes| bytes.len() as u64))
    }

    fn read(&mut self, name: &str, at: u64, into: &mut [u8]) -> Result<usize, StoreFault>
        // leaves: the call counted, and its fault if it is to fail
        ensures called { self.new ≡ library_called self.old }
        // answers: an error exactly in a call that is to fail; else as many of the file's bytes as
        // fit
        ensures fails { is_err result ≡ call_fails self.old.failing self.old.calls }
        ensures bytes { IfOk result (λ n.
            IsRead (bytes_named self.old.files name.now) at n into.new) }
        ensures most { IfOk result (λ n. n ≡
            min (length into.new) (length (bytes_named self.old.files name.now) - at)) }
        ensures untouched { OnErr result (into.new ≡ into.old) }
    {
        if self.call() {
            return Err(StoreFault);
        }
        match self.file(name) {
            Some(bytes) => Ok(copy_from(bytes, at, into)),
            // No such file is no fault of the library: it has no byte at any place.
            None => Ok(0),
        }
    }
}
