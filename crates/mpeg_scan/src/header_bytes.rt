//! The first bytes after a start code, where the fields of its header stand.

ghost use Rattle.std.specs.Prelude.{◌≡◌, ℕ, ◌<◌, ◌≤◌, List, [], length, take, slice_index, not};
ghost use Rattle.std.specs.Prelude.{nat_lt};
ghost use Rattle.mpeg_scan.specs.HeaderBytes.{header_with, header_with_all};

use std::marker::Model;

/// The most bytes that the fields of this standard's headers are read from: backward_f_code of a B
/// picture ends in the fifth (ISO/IEC 11172-2, 2.4.2.5).
const LONGEST: u8 = 5;

/// The first bytes after a start code, as far as they are read.
#[derive(Debug, Drop)]
pub(crate) struct HeaderBytes {
    bytes: [u8; 5],
    len: u8,
}

impl Model for HeaderBytes {
    ghost Value = { List ℕ };

    ghost view = { λ t. take t.len t.bytes };

    ghost invariant = { λ t. t.len ≤ 5 };
}

impl HeaderBytes {
    /// No bytes.
    pub(crate) fn new() -> HeaderBytes
        ensures { result ≡ [] }
    {
        HeaderBytes {
            bytes: [0; 5],
            len: 0,
        }
    }

    /// Whether it takes no further byte.
    pub(crate) fn is_full(&self) -> bool
        ensures full { result ≡ not (nat_lt (length self.now) 5) }
        ensures bound { length self.now ≤ 5 }
    {
        self.len == LONGEST
    }

    /// Adds a byte, where there is room.
    pub(crate) fn note(&mut self, byte: u8)
        ensures { self.new ≡ header_with self.old byte }
    {
        if self.len < LONGEST {
            self.bytes[usize::from(self.len)] = byte;
            self.len += 1;
        }
    }

    /// Adds bytes, as far as there is room.
    pub(crate) fn note_all(&mut self, bytes: &[u8])
        ensures { self.new ≡ header_with_all self.old bytes.now }
    {
        // A header that lies in one piece of the input is copied at once, without a loop.
        if self.len == 0 && bytes.len() >= usize::from(LONGEST) {
            self.bytes = [bytes[0], bytes[1], bytes[2], bytes[3], bytes[4]];
            self.len = LONGEST;
            return;
        }
        let mut at = 0;
        while at < bytes.len() && !self.is_full() {
            self.note(bytes[at]);
            at += 1;
        }
    }

    /// The byte at an index, or 0 where it isn't read.
    pub(crate) fn byte(&self, index: u8) -> u8
        ensures { result ≡ slice_index self.now index }
    {
        // A header too short for its fields is refused by its length: the 0 decides nothing.
        if index < self.len {
            self.bytes[usize::from(index)]
        } else {
            0
        }
    }
}
