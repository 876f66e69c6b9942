//! The two curves between which a client's plan runs, from a trace or film of the library.

ghost use Rattle.std.specs.Prelude.{◌≡◌, ◌≤◌, Some, List, IfOk, IfErr};
ghost use Rattle.vod_base.specs.IoState.{File};
ghost use Rattle.wire_curve.specs.SoundCurves.{AreSound};
ghost use Rattle.cli_args.specs.InvocationViews.{source_name, source_read, client_params_of};
ghost use Rattle.cli_args.specs.Ranges.{IsSourceInRange, IsClientInRange};
ghost use Rattle.cli_args.specs.ArgumentText.{IsValidSlot};
ghost use Rattle.cli_errors.specs.ReadErrors.{IsReadOnly, IsReadError};
ghost use Rattle.inputs.specs.FileReads.{IsThatName};
ghost use Rattle.inputs.specs.ChunkScans.{IsFilmRefused};
ghost use Rattle.offline_commands.specs.Plans.{AreOfFilm, AreOfTrace, ArePictures, HasCurves};
ghost use Rattle.offline_commands.specs.Plans.{IsSourceError, IsTraceRefused, IsPlanError};
ghost use Rattle.offline_commands.specs.Pictures.{MayHaveCurves, pictures_of};

use crate::traces::load_trace;
use cli_args::{ClientParams, PlanSource};
use cli_errors::{CliError, InputError};
use inputs::size_film;
use mpeg_scan::picture_time;
use std::alloc::Global;
use vod_base::Library;
use wire_curve::{CurveRefused, Curves, Timing, film_curves};

/// Reads a trace or film and makes the curves of its client.
pub(crate) fn client_curves<'a, L: Library>(
    alloc: Global,
    library: &mut L,
    viewer: ClientParams<'a>,
) -> Result<Curves, CliError<'a>>
    requires { IsClientInRange viewer }
    ensures library { IsReadOnly L.files L.faults library.old library.new }
    ensures sound { IfOk result (λ curves. AreSound curves.from curves.low.items curves.up.items) }
    ensures curves { (held : List File) → L.files library.old ≡ Some held →
        IfOk result (HasCurves held (client_params_of viewer.entry)) }
    ensures error { IfErr result
        (IsReadError (IsThatName (source_name (client_params_of viewer.entry).source))
        (IsPlanError (client_params_of viewer.entry))
        (L.files library.old) (L.faults library.old) (L.faults library.new)) }
{
    let pictures = source_pictures(alloc, library, viewer.source)?;
    let timing = Timing {
        picture_units: pictures.picture_units,
        slot_units: pictures.slot_units,
        buffer: viewer.buffer,
        delay: viewer.delay,
        // The entire film, to a client that holds nothing of it yet.
        played: 0,
        sent: 0,
    };
    match film_curves(alloc, &pictures.sizes, &timing) {
        Ok(curves) => Ok(curves),
        Err(CurveRefused::Fault(fault)) => Err(CliError::Refused(
            viewer.source.name(),
            InputError::Curves(fault),
        )),
        Err(CurveRefused::NoMemory) => Err(CliError::NoMemory),
    }
}

/// The pictures of a trace or film.
#[derive(Drop)]
struct Pictures {
    /// Their sizes on the wire, in bytes.
    sizes: Vec<u64>,
    /// The time of one picture.
    picture_units: u32,
    /// The time of one slot, in the same unit.
    slot_units: u32,
}

/// Reads a trace, which has one picture a slot.
fn trace_pictures<'a, L: Library>(
    alloc: Global,
    library: &mut L,
    name: &'a str,
) -> Result<Pictures, CliError<'a>>
    ensures library { IsReadOnly L.files L.faults library.old library.new }
    ensures limits { IfOk result (λ pictures. MayHaveCurves (pictures_of pictures)) }
    ensures pictures { (held : List File) → L.files library.old ≡ Some held
        → IfOk result (λ pictures. AreOfTrace held name.entry.now (pictures_of pictures)) }
    ensures error { IfErr result (IsReadError (IsThatName name.entry.now) IsTraceRefused
        (L.files library.old) (L.faults library.old) (L.faults library.new)) }
{
    let sizes = load_trace(alloc, library, name)?;
    Ok(Pictures {
        sizes,
        // A trace has one picture a slot. Only the ratio of the two times counts.
        picture_units: 1,
        slot_units: 1,
    })
}

/// Scans a film, whose pictures have the wire sizes of its units and the time of its rate.
fn film_pictures<'a, L: Library>(
    alloc: Global,
    library: &mut L,
    name: &'a str,
    slot: u32,
) -> Result<Pictures, CliError<'a>>
    requires { IsValidSlot slot }
    ensures library { IsReadOnly L.files L.faults library.old library.new }
    ensures limits { IfOk result (λ pictures. MayHaveCurves (pictures_of pictures)) }
    ensures pictures { (held : List File) → L.files library.old ≡ Some held
        → IfOk result (λ pictures. AreOfFilm held name.entry.now slot (pictures_of pictures)) }
    ensures error { IfErr result (IsReadError (IsThatName name.entry.now) IsFilmRefused
        (L.files library.old) (L.faults library.old) (L.faults library.new)) }
{
    // Read in chunks: the sizes are all that a plan needs, so no byte of the film is held.
    let film = size_film(alloc, library, name)?;
    Ok(Pictures {
        picture_units: picture_time(film.rate),
        sizes: film.sizes,
        slot_units: slot,
    })
}

/// The pictures of a trace or film of the library.
fn source_pictures<'a, L: Library>(
    alloc: Global,
    library: &mut L,
    source: PlanSource<'a>,
) -> Result<Pictures, CliError<'a>>
    requires { IsSourceInRange source }
    ensures library { IsReadOnly L.files L.faults library.old library.new }
    ensures limits { IfOk result (λ pictures. MayHaveCurves (pictures_of pictures)) }
    ensures pictures { (held : List File) → L.files library.old ≡ Some held
        → IfOk result (λ pictures.
        ArePictures held (source_read source.entry) (pictures_of pictures)) }
    ensures error { IfErr result (IsReadError (IsThatName (source_name (source_read source.entry)))
        (IsSourceError (source_read source.entry))
        (L.files library.old) (L.faults library.old) (L.faults library.new)) }
{
    match source {
        PlanSource::Trace(name) => trace_pictures(alloc, library, name),
        PlanSource::Film(name, slot) => film_pictures(alloc, library, name, slot),
    }
}
