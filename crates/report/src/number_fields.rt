//! Numbers with their labels.

ghost use Rattle.std.specs.Prelude.{◌++◌};
ghost use Rattle.vod_base.specs.Appends.{IsAppended};
ghost use Rattle.vod_base.specs.Fields.{field};

use vod_base::{NoMemory, push_field};

/// Appends three labels, each with its number.
pub(crate) fn push_fields(
    out: &mut Vec<u8>,
    one: (&[u8], u64),
    two: (&[u8], u64),
    three: (&[u8], u64),
) -> Result<(), NoMemory>
    ensures { IsAppended out.old.items
        (field one.entry.0.now one.entry.1 ++ field two.entry.0.now two.entry.1
        ++ field three.entry.0.now three.entry.1)
        out.new.items result }
{
    push_field(out, one.0, one.1)?;
    push_field(out, two.0, two.1)?;
    push_field(out, three.0, three.1)
}
