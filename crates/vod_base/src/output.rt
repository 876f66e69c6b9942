//! Output, as a trait.

ghost use Rattle.std.specs.Prelude.{◌≡◌, ◌≤◌, ℕ, List, Option, OnOk, OnErr};
ghost use Rattle.vod_base.specs.IoState.{HasRisen, told_more, IsWrittenPrefix};

use crate::errors::SinkFault;

/// Output that bytes are appended to. It counts its faults as a library does.
pub trait Sink {
    ghost faults: { Self → ℕ };

    ghost written: { Self → Option (List ℕ) };

    /// Appends all bytes.
    ///
    /// # Errors
    ///
    /// [`SinkFault`] if the output failed. Then a prefix of the bytes was appended.
    fn write_all(&mut self, bytes: &[u8]) -> Result<(), SinkFault>
        ensures count { faults self.old ≤ faults self.new }
        ensures fault { OnErr result (HasRisen (faults self.old) (faults self.new)) }
        ensures whole { OnOk result (written self.new ≡ told_more (written self.old) bytes.now) }
        ensures front { OnErr result
            (IsWrittenPrefix (written self.old) (written self.new) bytes.now) };
}
