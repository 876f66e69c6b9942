//! The command `scan`: the units of a film of the library.

ghost use Rattle.std.specs.Prelude.{◌≡◌, ◌≤◌, ℕ, List};
ghost use Rattle.vod_base.specs.IoState.{File};
ghost use Rattle.inputs.specs.ChunkScans.{IsFilmRefused};
ghost use Rattle.cli_errors.specs.declared.errors.InputError.{InputError};
ghost use Rattle.cli_errors.specs.ReadErrors.{IsReadOnly};
ghost use Rattle.offline_commands.specs.OfflineCommands.{IsListedOrFailed, IsScanned};

use crate::scan_text::{film_text, new_piece, write_scan};
use cli_errors::CliError;
use inputs::scan_film;
use std::alloc::Global;
use vod_base::{Library, Sink};

/// Writes the units of a film to `out`.
///
/// # Errors
///
/// As of [`scan_film`], and then nothing is written; and [`CliError::SinkFault`] where a write
/// failed, after a prefix of the text.
pub fn write_units<'a, L: Library, O: Sink>(
    alloc: Global,
    library: &mut L,
    out: &mut O,
    film: &'a str,
) -> Result<(), CliError<'a>>
    ensures library { IsReadOnly L.files L.faults library.old library.new }
    ensures count { O.faults out.old ≤ O.faults out.new }
    ensures listed { IsListedOrFailed film.entry.now
        (L.files library.old) (L.faults library.old) (L.faults library.new)
        (O.faults out.old) (O.faults out.new) (O.written out.old) (O.written out.new) result }
{
    // The entire film is judged, and all memory taken, before a line is written: a refused film
    // prints no units.
    let scanned = scan_film(alloc, library, film)?;
    let units = &scanned.units;
    let head = film_text(alloc, scanned.bytes, scanned.rate, units.len() as u64)?;
    let mut piece = new_piece(alloc)?;
    if write_scan(out, &head, &mut piece, units) {
        Ok(())
    } else {
        Err(CliError::SinkFault)
    }
}

/// A law: a film that a library holds has one scan, and is not refused as well.
pub fn law_scan_is_unique()
    ensures once { (held : List File) (film text text' : List ℕ) → IsScanned held film text →
        IsScanned held film text' → text ≡ text' }
    ensures not_refused { (held : List File) (film text : List ℕ) (fault : InputError) →
        IsScanned held film text → IsFilmRefused held film fault → ⊥ }
{}
