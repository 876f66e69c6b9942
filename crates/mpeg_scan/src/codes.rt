//! Start codes, found byte by byte.

ghost use Rattle.std.specs.Prelude.{◌≡◌};
ghost use Rattle.mpeg_scan.specs.StartCodes.{is_whole, next_prefix};

use crate::header_bytes::HeaderBytes;

/// How much of the start code prefix 00 00 01 the bytes so far end with (ISO/IEC 11172-2, 2.4.2.1).
#[derive(Clone, Copy, Debug)]
pub enum Prefix {
    /// Nothing of it.
    Nothing,
    /// One zero byte.
    Zero,
    /// Two zero bytes or more.
    Zeros,
    /// All of it: the next byte is the value of a start code.
    Whole,
}

impl Prefix {
    /// Returns how much of the prefix stands at the end once `byte` is read.
    pub fn next(self, byte: u8) -> Prefix
        ensures { result ≡ next_prefix self byte }
    {
        match byte {
            1 => match self {
                Prefix::Zeros => Prefix::Whole,
                _ => Prefix::Nothing,
            },
            0 => match self {
                // Zero bytes may stuff the space before a prefix, so a third one changes nothing.
                Prefix::Zero | Prefix::Zeros => Prefix::Zeros,
                // A value 00 may begin the next prefix: 00 00 01 00 00 01 B3 has two codes.
                Prefix::Nothing | Prefix::Whole => Prefix::Zero,
            },
            _ => Prefix::Nothing,
        }
    }

    /// Returns whether the next byte is the value of a start code.
    pub fn is_whole(self) -> bool
        ensures { result ≡ is_whole self }
    {
        matches!(self, Prefix::Whole)
    }
}

/// A start code of a film.
#[derive(Debug, Drop)]
pub(crate) struct Code {
    /// The place of its prefix.
    pub(crate) place: u64,
    /// The byte after the prefix, its start code value (ISO/IEC 11172-2, table 2-D.1).
    pub(crate) value: u8,
    /// The bytes after it, as far as they are kept.
    pub(crate) header: HeaderBytes,
}
