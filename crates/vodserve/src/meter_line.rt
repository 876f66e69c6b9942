//! The line on what the meter of a client's buffer read.

ghost use Rattle.std.specs.Prelude.{flat_map, is_ok};
ghost use Rattle.cli_errors.specs.StreamWrites.{IsTextWritten, with_label};
ghost use Rattle.vodserve.specs.WatchSpec.{IsShortWatched, watched_text};

use cli_errors::write_number;
use rtsp_client::Watched;
use vod_base::{Sink, SinkFault};

/// Says what the meter of the client's buffer read.
///
/// # Errors
///
/// [`SinkFault`] where a write fails: then a prefix of the line stands there.
pub(crate) fn write_watched<E: Sink>(err: &mut E, watched: Watched) -> Result<(), SinkFault>
    ensures said { IsTextWritten (E.faults err.old) (E.faults err.new) (E.written err.old)
        (E.written err.new) (watched_text watched) (is_ok result) }
    ensures short { IsShortWatched watched }
{
    let numbers = [
        ("units", watched.units),
        ("bytes", watched.bytes),
        ("frames", watched.frames),
        ("reports", watched.reports),
        ("most", watched.most),
        ("over", watched.over),
        ("under", watched.under),
    ];
    err.write_all(b"watched")?;
    write_numbers(err, &numbers)?;
    err.write_all(b"\n")
}

/// Writes numbers, each with its label.
fn write_numbers<E: Sink>(err: &mut E, numbers: &[(&str, u64)]) -> Result<(), SinkFault>
    ensures { IsTextWritten (E.faults err.old) (E.faults err.new) (E.written err.old)
        (E.written err.new) (flat_map (λ number. with_label number.0.now number.1) numbers.now)
        (is_ok result) }
{
    for number in numbers {
        write_number(err, number.0, number.1)?;
    }
    Ok(())
}
