//! Appending texts and numbers.

ghost use Rattle.std.specs.Prelude.{◌≡◌, ◌+◌, ◌≤◌, ◌++◌, length, vec_len, vec_capacity};
ghost use Rattle.vod_base.specs.Appends.{IsAppended};
ghost use Rattle.vod_base.specs.Fields.{field};

use crate::errors::NoMemory;
use crate::numbers::push_number;

/// Appends a text.
///
/// # Errors
///
/// After [`NoMemory`] a prefix of the text was appended.
pub fn push(out: &mut Vec<u8>, text: &[u8]) -> Result<(), NoMemory>
    ensures { IsAppended out.old.items text.now out.new.items result }
{
    out.extend_from_slice(text)?;
    Ok(())
}

/// Appends a label and a number in decimal, without leading zeros.
///
/// # Errors
///
/// After [`NoMemory`] a prefix of the two was appended.
pub fn push_field(out: &mut Vec<u8>, label: &[u8], number: u64) -> Result<(), NoMemory>
    ensures { IsAppended out.old.items (field label.now number) out.new.items result }
{
    push(out, label)?;
    push_number(out, number)
}

/// Appends bytes for which there is room.
pub(crate) fn append_reserved(to: &mut Vec<u8>, bytes: &[u8])
    requires { vec_len to.old + length bytes.now ≤ vec_capacity to.old }
    ensures items { to.new.items ≡ to.old.items ++ bytes.now }
    ensures len { vec_len to.new ≡ vec_len to.old + length bytes.now }
    ensures capacity { vec_capacity to.new ≡ vec_capacity to.old }
{
    // The room was reserved when the object was made. So it can't run out of memory here, and each
    // fault that it answers is one that it counts.
    for byte in bytes {
        to.push_reserved(*byte);
    }
}
