//! A text that is written part by part.

ghost use Rattle.std.specs.Prelude.{flat_map, is_ok};
ghost use Rattle.cli_errors.specs.StreamWrites.{IsTextWritten};

use vod_base::{Sink, SinkFault};

/// Writes parts of a text, one after another. It takes no memory.
pub(crate) fn write_parts<S: Sink>(sink: &mut S, parts: &[&[u8]]) -> Result<(), SinkFault>
    ensures { IsTextWritten (S.faults sink.old) (S.faults sink.new) (S.written sink.old)
        (S.written sink.new) (flat_map (λ part. part.now) parts.now) (is_ok result) }
{
    for part in parts {
        sink.write_all(part)?;
    }
    Ok(())
}
