//! What is true of every film and of every refusal, said of its bytes.

ghost use Rattle.std.specs.Prelude.{◌≡◌, ◌↔◌, ℕ, ◌+◌, ◌^◌, ◌<◌, ◌≤◌, ◌++◌, [], List, None, Some};
ghost use Rattle.std.specs.Prelude.{length, true};
ghost use Rattle.mpeg_scan.specs.declared.units.Unit.{Unit as PictureUnit};
ghost use Rattle.mpeg_scan.specs.StartCodes.{codes_of, read_after};
ghost use Rattle.mpeg_scan.specs.UnitNumbering.{AreNumbered};
ghost use Rattle.mpeg_scan.specs.FilmFaults.{first_fault};
ghost use Rattle.mpeg_scan.specs.Films.{refusal, film_calls};
ghost use Rattle.mpeg_scan.specs.Grammar.{IsGrammatical};
ghost use Rattle.mpeg_scan.specs.Layout.{AreInFilm, BeginsSequence, IsLaid, OfUnit};
ghost use Rattle.mpeg_scan.specs.CodePlaces.{HasCode, IsCodeAt};
ghost use Rattle.mpeg_scan.specs.PictureRates.{AreStandardTimes, picture_time};
ghost use Rattle.mpeg_scan.specs.StandardUnits.{AreFalling, ArePresented, AreUnitsOf, IsAmong};
ghost use Rattle.mpeg_scan.specs.StandardUnits.{IsSliceValue, IsUnitOf, StandsThere, slice_places};
ghost use Rattle.mpeg_scan.specs.StandardRefusals.{IsRefusedFor};
ghost use Rattle.mpeg_scan.specs.PartTiling.{Tiles};
ghost use Rattle.mpeg_scan.specs.CodeFacts.{picture_count};

use crate::faults::FilmFault;
use crate::films::Film;
use crate::units::MAX_FILM_BYTES;
use vod_base::MAX_FILM_PICTURES;

/// What is true of every film: its rate code is one of the eight of ISO/IEC 11172-2, 2.4.3.2; it
/// has at most 2^40 bytes and 4,194,304 units, one for each of its pictures; its start codes stand
/// in their order, and its units are numbered as they come and lie one after another to its end.
pub fn law_film_is_well_formed(film: &Film)
    // the rate code
    ensures slowest { 1 ≤ film.now.rate }
    ensures fastest { film.now.rate ≤ 8 }
    // the size, in bytes and in pictures
    ensures bytes { length film.now.bytes.items ≤ MAX_FILM_BYTES }
    ensures units { length film.now.units.items ≤ MAX_FILM_PICTURES }
    ensures pictures { length film.now.units.items ≡
        picture_count (codes_of (read_after [] film.now.bytes.items)) }
    // the order of the codes and the places of the units
    ensures grammatical { IsGrammatical (read_after [] film.now.bytes.items) }
    ensures numbered { AreNumbered (film_calls film.now.bytes.items) }
    ensures tiled { Tiles (read_after [] film.now.bytes.items) (film_calls film.now.bytes.items) }
{
    let _read = film.bytes.len();
}

/// The units of a film: there is at least one, and the first starts a group and begins with the
/// sequence header of the film's rate, all 12 bytes of which are in its head. They lie one after
/// another to the film's end, and have their slices in order.
pub fn law_units_tile_the_film(film: &Film)
    // the first unit
    ensures some { 0 < length film.now.units.items }
    ensures group { OfUnit film.now.units.items 0 (λ u. u.starts_group ≡ true) }
    ensures begins { OfUnit film.now.units.items 0
        (λ u. BeginsSequence film.now.bytes.items film.now.rate u.from) }
    ensures header { OfUnit film.now.units.items 0 (λ u. u.from + 12 ≤ u.head_end) }
    // all units
    ensures chained { AreInFilm film.now.bytes.items film.now.units.items }
    ensures within { (k : ℕ)
        → OfUnit film.now.units.items k (λ u. u.to ≤ length film.now.bytes.items) }
    ensures laid { (k : ℕ)
        → OfUnit film.now.units.items k (λ u. IsLaid film.now.slice_starts.items u) }
{
    let _read = film.bytes.len();
}

/// What is refused stays refused: a refusal at a start code of the bytes so far is that of the
/// film, whatever comes later; and so is that of bytes which are too many.
pub fn law_early_refusal_is_final()
    ensures code { (front rest : List ℕ) (f : FilmFault) → length (front ++ rest) ≤ MAX_FILM_BYTES
        → first_fault (codes_of (read_after [] front)) ≡ Some f → refusal (front ++ rest) ≡ Some f }
    ensures long { (bytes : List ℕ) → MAX_FILM_BYTES < length bytes
        → refusal bytes ≡ Some FilmFault.TooLong }
{}

/// Each unit in the terms of ISO/IEC 11172-2, over the start codes that stand in the film's bytes:
/// where it begins and ends, that one picture stands in its head, that its fields are the bits of
/// that picture's header, which other headers stand in the head, and its presentation number.
pub fn law_units_match_the_standard(film: &Film)
    ensures units { (k : ℕ) → OfUnit film.now.units.items k (λ u. IsUnitOf film.now.bytes.items u) }
    ensures presented { ArePresented 0 0 film.now.units.items }
    ensures all { AreUnitsOf film.now.bytes.items film.now.units.items }
{
    let _read = film.bytes.len();
}

/// A film's units are the only ones: two lists of units that are as ISO/IEC 11172-2 says of the
/// same bytes are equal.
pub fn law_units_are_unique()
    ensures { (bytes : List ℕ) (units others : List PictureUnit)
        → AreUnitsOf bytes units → AreUnitsOf bytes others → units ≡ others }
{}

/// The time of a picture is that of the rate for which its code stands in the table of ISO/IEC
/// 11172-2, 2.4.3.2: so many pictures a second, as a fraction, take that time each, to the last
/// 1/360,000 second; it is from 6,000 to 15,015.
pub fn law_picture_times_match_the_rates()
    ensures standard { AreStandardTimes picture_time }
    ensures bounds { (rate : ℕ) → 1 ≤ rate → rate ≤ 8 →
        (6000 ≤ picture_time rate) × (picture_time rate ≤ 15015) }
{}

/// The start codes of a film's bytes are those that stand in them, each at its place: the bytes 00
/// 00 01, and a value.
pub fn law_start_codes_are_those_in_the_bytes()
    ensures { (bytes : List ℕ) (place value : ℕ) →
        HasCode place value (codes_of (read_after [] bytes)) ↔ IsCodeAt bytes place value }
{}

/// The start codes of bytes are listed in their order, each once.
pub fn law_start_codes_are_listed_in_order()
    ensures { (bytes : List ℕ) → AreFalling (codes_of (read_after [] bytes)) }
{}

/// The places of a film's slices are those of the slice codes that stand in its bytes, in their
/// order: a slice begins exactly where a slice code stands.
pub fn law_slices_begin_at_slice_codes(film: &Film)
    ensures places { film.now.slice_starts.items ≡
        slice_places (codes_of (read_after [] film.now.bytes.items)) }
    ensures codes { (place : ℕ) → IsAmong place film.now.slice_starts.items
        ↔ StandsThere (IsCodeAt film.now.bytes.items) place IsSliceValue }
{
    let _read = film.bytes.len();
}

/// Each refusal comes exactly where its condition holds, in the terms of ISO/IEC 11172-2 over the
/// start codes that stand in the film's bytes and over the bits of its headers: that of the film's
/// size, else the first in the order of the codes, and of the conditions at one code, else that of
/// the film's end. A film is accepted exactly where none holds.
pub fn law_refusals_match_the_standard()
    ensures refused { (bytes : List ℕ) (f : FilmFault)
        → (refusal bytes ≡ Some f) ↔ IsRefusedFor bytes f }
    ensures accepted { (bytes : List ℕ)
        → (refusal bytes ≡ None) ↔ ((f : FilmFault) → IsRefusedFor bytes f → ⊥) }
{}
