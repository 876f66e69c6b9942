//! Files by name, as a trait.

ghost use Rattle.std.specs.Prelude.{◌≡◌, ◌≤◌, ℕ, List, Option, Some, length, option_map, IfOk};
ghost use Rattle.std.specs.Prelude.{OnErr};
ghost use Rattle.vod_base.specs.IoState.{File, HasRisen, file_named, bytes_named, IsRead};

use crate::errors::StoreFault;

/// Named files that can be read at places.
///
/// A library counts its faults, and a call answers a fault only if the count rose in that call. An
/// object in memory exposes its content to contracts; a folder of the machine doesn't.
pub trait Library {
    ghost faults: { Self → ℕ };

    ghost files: { Self → Option (List File) };

    /// Returns the size in bytes of the file of that name, or None if there is no such file.
    ///
    /// # Errors
    ///
    /// [`StoreFault`] if the library could not be searched.
    fn find(&mut self, name: &str) -> Result<Option<u64>, StoreFault>
        ensures kept { files self.new ≡ files self.old }
        ensures count { faults self.old ≤ faults self.new }
        ensures fault { OnErr result (HasRisen (faults self.old) (faults self.new)) }
        ensures found { (held : List File) → files self.old ≡ Some held →
            IfOk result (λ size. size ≡ option_map length (file_named held name.now)) };

    /// Reads bytes of the file, from the place `at` on, counted from 0, and puts them at the start
    /// of `into`. Returns how many: 0 only if `into` is empty or the file has no byte at `at`.
    ///
    /// # Errors
    ///
    /// [`StoreFault`] if the file could not be read.
    fn read(&mut self, name: &str, at: u64, into: &mut [u8]) -> Result<usize, StoreFault>
        // leaves: the files as they were
        ensures kept { files self.new ≡ files self.old }
        // faults: the count never falls, and rises where the call fails
        ensures count { faults self.old ≤ faults self.new }
        ensures fault { OnErr result (HasRisen (faults self.old) (faults self.new)) }
        // answers: how many bytes; the file's own, where the library exposes its content
        ensures within { IfOk result (λ n. n ≤ length into.new) }
        ensures bytes { (held : List File) → files self.old ≡ Some held →
            IfOk result (λ n. IsRead (bytes_named held name.now) at n into.new) };
}
