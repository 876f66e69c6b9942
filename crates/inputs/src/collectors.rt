//! Scans a film of the library, and collects its units or their sizes.

ghost use Rattle.std.specs.Prelude.{◌≡◌, ◌≤◌, Some, List, IfErr, IfOk};
ghost use Rattle.vod_base.specs.IoState.{File};
ghost use Rattle.mpeg_scan.specs.Films.{units_in};
ghost use Rattle.rtp_pack.specs.Sizes.{bytes_of};
ghost use Rattle.cli_errors.specs.ReadErrors.{IsReadOnly};
ghost use Rattle.inputs.specs.ChunkScans.{HoldsFilm, HoldsSizes, IsScanError};
ghost use Rattle.inputs.specs.WireSizes.{AreSizesWithin, IsSized};

use crate::scans::scan_film_into;
use cli_errors::CliError;
use mpeg_scan::{Found, Unit};
use rtp_pack::{REPORT_BYTES, UnitSize};
use std::alloc::Global;
use std::mem;
use vod_base::{Library, NoMemory};

/// A film that was scanned and accepted.
#[derive(Debug, Drop)]
pub struct ScannedFilm {
    /// How many bytes its video has.
    pub bytes: u64,
    /// Its picture rate code, from 1 to 8 (ISO/IEC 11172-2, section 2.4.3.2).
    pub rate: u8,
    /// Its units, in order.
    pub units: Vec<Unit>,
}

/// The sizes of an accepted film on the wire.
#[derive(Debug, Drop)]
pub struct SizedFilm {
    /// Its picture rate code, from 1 to 8 (ISO/IEC 11172-2, section 2.4.3.2).
    pub rate: u8,
    /// The bytes of each unit's frames, and of the report before it where it starts a group.
    pub sizes: Vec<u64>,
}

/// Scans a film of the library, of at most 2^40 bytes, and collects only its units.
///
/// # Errors
///
/// As of [`load_script_film`](crate::load_script_film).
pub fn scan_film<'a, L: Library>(
    alloc: Global,
    library: &mut L,
    name: &'a str,
) -> Result<ScannedFilm, CliError<'a>>
    ensures library { IsReadOnly L.files L.faults library.old library.new }
    ensures film { (held : List File) → L.files library.old ≡ Some held
        → IfOk result (λ film.
        HoldsFilm held name.entry.now film.bytes film.rate film.units.items) }
    ensures error { IfErr result (IsScanError name.entry.now (L.files library.old)
        (L.faults library.old) (L.faults library.new)) }
{
    let mut found = UnitList {
        units: Vec::new(alloc),
    };
    let ending = scan_film_into(alloc, library, name, &mut found)?;
    Ok(ScannedFilm {
        bytes: ending.bytes,
        rate: ending.rate,
        units: found.units,
    })
}

/// Scans a film of the library, of at most 2^40 bytes, and collects only the sizes of its units on
/// the wire.
///
/// # Errors
///
/// As of [`load_script_film`](crate::load_script_film).
pub fn size_film<'a, L: Library>(
    alloc: Global,
    library: &mut L,
    name: &'a str,
) -> Result<SizedFilm, CliError<'a>>
    ensures library { IsReadOnly L.files L.faults library.old library.new }
    ensures film { (held : List File) → L.files library.old ≡ Some held
        → IfOk result (λ film. HoldsSizes held name.entry.now film.rate film.sizes.items) }
    ensures limits { IfOk result (λ film. AreSizesWithin film.rate film.sizes.items) }
    ensures error { IfErr result (IsScanError name.entry.now (L.files library.old)
        (L.faults library.old) (L.faults library.new)) }
{
    let mut found = SizeList {
        // Any size will do here and below: the head of the next unit begins a new one.
        unit: UnitSize::begin(1),
        sizes: Vec::new(alloc),
    };
    let ending = scan_film_into(alloc, library, name, &mut found)?;
    Ok(SizedFilm {
        rate: ending.rate,
        sizes: found.sizes,
    })
}

/// Keeps a film's units.
#[derive(Drop)]
struct UnitList {
    units: Vec<Unit>,
}

impl Found for UnitList {
    ghost heard = { λ list calls. list.units.items ≡ units_in calls };

    fn head(&mut self, _from: u64, _to: u64) -> Result<(), NoMemory> {
        // A unit comes with its places and the number of its slices, so nothing else is kept.
        Ok(())
    }

    fn slice(&mut self, _from: u64, _to: u64) -> Result<(), NoMemory> {
        Ok(())
    }

    fn unit(&mut self, unit: Unit) -> Result<(), NoMemory> {
        self.units.push(unit)?;
        Ok(())
    }
}

/// Adds up the wire size of a unit as its parts come, and collects those of the units that ended.
#[derive(Drop)]
struct SizeList {
    unit: UnitSize,
    sizes: Vec<u64>,
}

impl Found for SizeList {
    ghost heard = { λ list calls. IsSized list.unit list.sizes.items calls };

    ghost ready_at = { λ list place. bytes_of list.unit ≤ place };

    fn head(&mut self, from: u64, to: u64) -> Result<(), NoMemory> {
        self.unit = UnitSize::begin(to - from);
        Ok(())
    }

    fn slice(&mut self, from: u64, to: u64) -> Result<(), NoMemory> {
        self.unit.slice(to - from);
        Ok(())
    }

    fn unit(&mut self, unit: Unit) -> Result<(), NoMemory> {
        // `end` consumes the size, so another takes its place until the next head.
        let ended = mem::replace(&mut self.unit, UnitSize::begin(1));
        // The report before a group is sent by the same plan as its frames.
        let report = if unit.starts_group { REPORT_BYTES } else { 0 };
        self.sizes.push(report + ended.end())?;
        Ok(())
    }
}
