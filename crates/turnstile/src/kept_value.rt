//! What a turnstile may keep.

ghost use Rattle.std.specs.Prelude.{◌≡◌, List, length};
ghost use Rattle.admission.specs.declared.entries.Entry.{Entry};
ghost use Rattle.turnstile.specs.declared.view.Terms.{Terms};

/// A value that all share: a list of entries that grows, and what stays.
pub trait Kept {
    ghost entries: { Self → List Entry };

    ghost terms: { Self → Terms };

    /// Returns how many entries the list has.
    fn count(&self) -> u64
        ensures { result ≡ length (entries self.now) };
}
