//! Counts of faults.

ghost use Rattle.std.specs.Prelude.{◌≡◌, ◌+◌, ◌-◌, ◌^◌, ◌≤◌, ◌<◌, min, Err, IfOk, OnOk, OnErr};
ghost use Rattle.std.specs.IoError.{error_kind};
ghost use Rattle.vod_base.specs.IoState.{HasRisen, one_more};

use std::io;
use std::io::ErrorKind;

/// How many faults an object has counted, at most 2^64 - 1.
#[derive(Clone, Copy)]
pub(crate) struct Faults {
    pub(crate) count: u64,
}

impl Faults {
    /// None yet.
    pub(crate) fn new() -> Faults
        ensures { result.count ≡ 0 }
    {
        Faults { count: 0 }
    }

    /// Counts a fault.
    pub(crate) fn add(&mut self)
        ensures count { self.new.count ≡ one_more self.old.count }
        ensures risen { HasRisen self.old.count self.new.count }
    {
        // A count at 2^64 - 1 counts as risen (`HasRisen`), so it may stay there.
        self.count = self.count.saturating_add(1);
    }

    /// Passes a result on. An error is counted, and `fault` is returned in its place.
    pub(crate) fn pass_on<T, C: Drop, E: Drop>(
        &mut self,
        answer: Result<T, C>,
        fault: E,
    ) -> Result<T, E>
        // leaves: a count that rises with each fault; the answer itself says nothing of the cause
        ensures count { self.old.count ≤ self.new.count }
        ensures value { IfOk result (λ value. answer ≡ Ok value) }
        ensures same { OnOk result (self.new ≡ self.old) }
        ensures fault { OnErr answer (result ≡ Err fault) }
        ensures risen { OnErr result (HasRisen self.old.count self.new.count) }
    {
        match answer {
            Ok(value) => Ok(value),
            Err(_) => {
                self.add();
                Err(fault)
            }
        }
    }

    /// Counts the faults of a part, too.
    pub(crate) fn join(&mut self, part: Faults)
        ensures count { self.old.count ≤ self.new.count }
        ensures sum { self.new.count ≡ min (self.old.count + part.count) (2 ^ 64 - 1) }
        ensures risen { 0 < part.count → HasRisen self.old.count self.new.count }
    {
        self.count = self.count.saturating_add(part.count);
    }
}

/// The error of a loop that has counted to 2^64 - 1. Its body alone ends it, so it never counts
/// that far.
pub(crate) fn end_of_count() -> io::Error
    ensures { error_kind result ≡ ErrorKind.TimedOut }
{
    io::Error::from(ErrorKind::TimedOut)
}
