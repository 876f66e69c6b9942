//! A film in memory, scanned in one call.

ghost use Rattle.std.specs.Prelude.{◌≡◌, ◌≤◌, [], Some, Err, IfOk};
ghost use Rattle.mpeg_scan.specs.Films.{IsFilm, refusal, film_calls};
ghost use Rattle.mpeg_scan.specs.StartCodes.{read_after};
ghost use Rattle.mpeg_scan.specs.Grammar.{IsGrammatical};
ghost use Rattle.mpeg_scan.specs.UnitNumbering.{AreNumbered};
ghost use Rattle.mpeg_scan.specs.PictureRates.{picture_time};
ghost use Rattle.mpeg_scan.specs.PartTiling.{Tiles};

use crate::collector::Collector;
use crate::faults::{FilmFault, ScanRefused};
use crate::laws::law_film_is_well_formed;
use crate::scanner::Scanner;
use crate::units::{MAX_FILM_BYTES, Unit, picture_time};
use std::alloc::Global;

/// An accepted film, with what the grammar says of its bytes.
#[derive(Debug, Drop)]
pub struct Film {
    /// Its bytes.
    pub bytes: Vec<u8>,
    /// The rate code of its first sequence header, from 1 to 8.
    pub rate: u8,
    /// Its units, in order.
    pub units: Vec<Unit>,
    /// The places of its slices, in order.
    pub slice_starts: Vec<u64>,
    pub ghost grammar: { IsFilm bytes.items rate units.items slice_starts.items },
}

impl Film {
    /// Returns the time of a picture in 1/360,000 second, by the code of its rate (ISO/IEC 11172-2,
    /// 2.4.3.2).
    pub fn picture_time(&self) -> u32
        ensures value { result ≡ picture_time self.now.rate }
        ensures some { 1 ≤ result }
        ensures fits { result ≤ 360000 }
    {
        // The law shows that the rate is one of the eight. It does nothing when it runs.
        law_film_is_well_formed(self);
        picture_time(self.rate)
    }
}

/// Scans all bytes of a film.
///
/// # Errors
///
/// [`ScanRefused::Fault`] with the film's refusal, the one that `law_refusals_match_the_standard`
/// names; [`ScanRefused::NoMemory`] where there is none for its units and slices.
pub fn scan(alloc: Global, bytes: Vec<u8>) -> Result<Film, ScanRefused>
    // answers: a film of these bytes, with units as the standard has them
    ensures film { IfOk result (λ film. film.bytes.items ≡ bytes.items) }
    ensures grammatical { IfOk result (λ film. IsGrammatical (read_after [] film.bytes.items)) }
    ensures numbered { IfOk result (λ film. AreNumbered (film_calls film.bytes.items)) }
    ensures tiled { IfOk result (λ film.
        Tiles (read_after [] film.bytes.items) (film_calls film.bytes.items)) }
    // answers: the refusal that the standard asks for
    ensures fault { (f : FilmFault) → result ≡ Err (ScanRefused.Fault f) →
        refusal bytes.items ≡ Some f }
{
    // The refusal for size comes before all others, and `feed` takes no more bytes than these.
    if MAX_FILM_BYTES < bytes.len() as u64 {
        return Err(ScanRefused::Fault(FilmFault::TooLong));
    }
    let mut scanner = Scanner::new();
    let mut found = Collector::new(alloc);
    scanner.feed(&bytes, &mut found)?;
    let ending = scanner.finish(&mut found)?;
    Ok(Film {
        bytes,
        rate: ending.rate,
        units: found.units,
        slice_starts: found.slices,
    })
}
