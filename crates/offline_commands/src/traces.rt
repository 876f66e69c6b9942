//! Traces of the library.

ghost use Rattle.std.specs.Prelude.{◌≡◌, Some, List, IfOk, IfErr};
ghost use Rattle.vod_base.specs.IoState.{File};
ghost use Rattle.film_run.specs.Units.{AreUnitSizes};
ghost use Rattle.inputs.specs.FileReads.{IsThatName};
ghost use Rattle.cli_errors.specs.ReadErrors.{IsReadOnly, IsReadError};
ghost use Rattle.offline_commands.specs.Plans.{HoldsTrace, IsTraceRefused};

use cli_errors::{CliError, InputError};
use inputs::{TraceRefused, read_input, read_trace};
use std::alloc::Global;
use vod_base::Library;

/// The picture sizes of the trace of that name.
pub(crate) fn load_trace<'a, L: Library>(
    alloc: Global,
    library: &mut L,
    name: &'a str,
) -> Result<Vec<u64>, CliError<'a>>
    ensures library { IsReadOnly L.files L.faults library.old library.new }
    ensures limits { IfOk result (λ sizes. AreUnitSizes sizes.items) }
    ensures held { (held : List File) → L.files library.old ≡ Some held →
        IfOk result (λ sizes. HoldsTrace held name.entry.now sizes.items) }
    ensures error { IfErr result (IsReadError (IsThatName name.entry.now) IsTraceRefused
        (L.files library.old) (L.faults library.old) (L.faults library.new)) }
{
    let text = read_input(alloc, library, name)?;
    match read_trace(alloc, &text) {
        Ok(sizes) => Ok(sizes),
        Err(TraceRefused::BadTrace(place)) => Err(CliError::Refused(
            name,
            InputError::BadTrace(place),
        )),
        Err(TraceRefused::NoMemory) => Err(CliError::NoMemory),
    }
}
