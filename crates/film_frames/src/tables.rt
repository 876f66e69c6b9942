//! The table of the reports and frames of a film, which gives their places.

ghost use Rattle.std.specs.Prelude.{◌≡◌, ◌+◌, ◌-◌, ◌*◌, ◌^◌, ◌<◌, ◌≤◌, ◌++◌, ℕ, List, [], ◌∷◌};
ghost use Rattle.std.specs.Prelude.{length, take, drop, slice_index, slice_index_or, slice_get};
ghost use Rattle.std.specs.Prelude.{Some, IfOk, OnOk};
ghost use Rattle.mpeg_scan.specs.declared.units.Unit.{Unit as PictureUnit};
ghost use Rattle.mpeg_scan.specs.declared.films.Film.{Film};
ghost use Rattle.rtp_pack.specs.Packets.{OfUnit, unit_packets};
ghost use Rattle.film_frames.specs.declared.pieces.Piece.{Piece};
ghost use Rattle.film_frames.specs.Pieces.{film_pieces, front_pieces, unit_of, unit_reports};
ghost use Rattle.film_frames.specs.Pieces.{wire_size};
ghost use Rattle.film_frames.specs.Tables.{AreFirsts, HasPieces, HasRoom, HasUnit, IsSound};
ghost use Rattle.film_frames.specs.Tables.{IsTable, IsTableOf, with_report};

use crate::pieces::{Piece, wire_of};
use crate::table_rows::Row;
use mpeg_scan::{Film, Unit};
use rtp_pack::{Packet, refill_packets};
use std::alloc::Global;
use std::fmt::{self, Formatter, Write};
use vod_base::NoMemory;

/// A table of a film: for each report and each frame its place among all framed bytes, and what it
/// carries.
///
/// It takes 16 bytes for each of them, 8 for each unit, and 8 for each group, which has one report.
#[derive(Drop)]
pub struct FrameTable {
    /// Where each piece begins among all framed bytes of the film, and where the last ends.
    places: Vec<u64>,
    /// What each piece is.
    rows: Vec<Row>,
    /// The numbers of the pieces that are reports.
    reports: Vec<u64>,
    /// How many pieces come before each unit, and how many there are.
    firsts: Vec<u64>,
}

impl FrameTable {
    /// Makes the table of a film.
    ///
    /// # Errors
    ///
    /// [`NoMemory`] where there is none for the table.
    pub fn make(alloc: Global, film: &Film) -> Result<FrameTable, NoMemory>
        ensures { IfOk result (λ table. IsTableOf film.now table) }
    {
        // One list serves all units: after the unit with the most packets it takes no memory.
        let mut packets = Vec::new(alloc);
        // Packets are cut twice, first to count them. The table then takes its exact room at once,
        // where a list that grows may take more than it needs.
        let pieces = count_pieces(&mut packets, film)?;
        let mut table = FrameTable::new(alloc, pieces, film.units.len())?;
        for number in 0..film.units.len() {
            table.put_unit(&mut packets, film, number)?;
        }
        Ok(table)
    }

    /// Returns the bytes of a unit of the film on the wire: its frames, and the report before it if
    /// it starts a group.
    ///
    /// A unit of L bytes takes at most 2 * L + 112.
    pub fn wire_size(&self, unit: usize) -> u64
        requires { HasUnit self.now unit }
        ensures size { (film : Film) → IsTableOf film self.now
            → OfUnit film.units.items unit (λ u. result ≡ wire_size film.slice_starts.items u) }
        ensures bound { (film : Film) → IsTableOf film self.now
            → OfUnit film.units.items unit (λ u. result ≤ 2 * (u.to - u.from) + 112) }
    {
        let first = self.firsts[unit] as usize;
        let end = self.firsts[unit + 1] as usize;
        self.places[end] - self.places[first]
    }

    /// A table without pieces, with room for so many pieces and units.
    fn new(alloc: Global, pieces: usize, units: usize) -> Result<FrameTable, NoMemory>
        requires pieces { pieces ≤ 2 ^ 42 }
        requires units { units ≤ 2 ^ 42 }
        ensures table { (units : List PictureUnit) → IfOk result (λ table. IsTable units [] table) }
        ensures firsts { (starts : List ℕ) (units : List PictureUnit)
            → IfOk result (λ table. AreFirsts starts units 0 table.firsts.items) }
    {
        let mut places = Vec::with_capacity(alloc, pieces + 1)?;
        let rows = Vec::with_capacity(alloc, pieces)?;
        let mut firsts = Vec::with_capacity(alloc, units + 1)?;
        // With a 0 first, piece k lies between places k and k + 1; so do the pieces of unit k.
        put_number(&mut places, 0)?;
        put_number(&mut firsts, 0)?;
        Ok(FrameTable {
            places,
            rows,
            reports: Vec::new(alloc),
            firsts,
        })
    }

    /// Appends a piece of the unit of that number.
    fn put(&mut self, number: u32, piece: Piece) -> Result<(), NoMemory>
        requires room { HasRoom self.old }
        requires sound { (film : List ℕ) × IsSound film piece }
        ensures table { (film : List ℕ) (units : List PictureUnit) (pieces : List Piece)
            → IsSound film piece → slice_get units number ≡ Some (unit_of piece)
            → IsTable units pieces self.old
            → OnOk result (IsTable units (pieces ++ piece ∷ []) self.new) }
        ensures firsts { OnOk result (self.new.firsts.items ≡ self.old.firsts.items) }
    {
        let last = self.rows.len();
        let end = self.places[last] + wire_of(&piece);
        // Where memory runs out between these, `make` drops the table: half a piece isn't seen.
        put_number(&mut self.places, end)?;
        put_report_number(&mut self.reports, last as u64, &piece)?;
        self.rows.push(Row::new(number, &piece))?;
        Ok(())
    }

    /// Appends the report of a unit that starts a group, after the units before it.
    fn put_report(&mut self, film: &Film, number: usize) -> Result<(), NoMemory>
        requires within { number < length film.now.units.items }
        requires table { HasPieces film.now (front_pieces film.now number) self.old }
        ensures table { OfUnit film.now.units.items number
            (λ u. OnOk result
            (HasPieces film.now (front_pieces film.now number ++ unit_reports u) self.new)) }
        ensures firsts { OnOk result (self.new.firsts.items ≡ self.old.firsts.items) }
    {
        let unit = film.units[number];
        if unit.starts_group {
            return self.put(number as u32, Piece::Report(unit));
        }
        Ok(())
    }

    /// Appends the frames of a unit, after the units before it and its report.
    fn put_frames(&mut self, film: &Film, number: usize, packets: &[Packet]) -> Result<(), NoMemory>
        requires within { number < length film.now.units.items }
        requires packets { OfUnit film.now.units.items number
            (λ u. packets.now ≡ unit_packets film.now.slice_starts.items u) }
        requires table { OfUnit film.now.units.items number
            (λ u. HasPieces film.now (front_pieces film.now number ++ unit_reports u) self.old) }
        ensures table { OnOk result
            (HasPieces film.now (front_pieces film.now (number + 1)) self.new) }
        ensures firsts { OnOk result (self.new.firsts.items ≡ self.old.firsts.items) }
    {
        let unit = film.units[number];
        for packet in packets {
            self.put(number as u32, Piece::Frame(unit, *packet))?;
        }
        Ok(())
    }

    /// Appends the pieces of a unit, after the units before it. Its packets are written into the
    /// list.
    fn put_unit(
        &mut self,
        packets: &mut Vec<Packet>,
        film: &Film,
        number: usize,
    ) -> Result<(), NoMemory>
        requires within { number < length film.now.units.items }
        requires table { HasPieces film.now (front_pieces film.now number) self.old }
        requires firsts { AreFirsts film.now.slice_starts.items film.now.units.items number
            self.old.firsts.items }
        ensures table { OnOk result
            (HasPieces film.now (front_pieces film.now (number + 1)) self.new) }
        ensures firsts { OnOk result
            (AreFirsts film.now.slice_starts.items film.now.units.items (number + 1)
            self.new.firsts.items) }
    {
        refill_packets(packets, film, number)?;
        self.put_report(film, number)?;
        self.put_frames(film, number, packets)?;
        let pieces = self.rows.len() as u64;
        put_number(&mut self.firsts, pieces)
    }

    /// How many pieces come before a unit.
    pub(crate) fn first(&self, unit: usize) -> usize
        requires { unit < length self.now.firsts.items }
        ensures { result ≡ slice_index self.now.firsts.items unit }
    {
        self.firsts[unit] as usize
    }

    /// Where a piece begins among all framed bytes of the film, or the last ends.
    pub(crate) fn place(&self, piece: usize) -> u64
        requires { piece < length self.now.places.items }
        ensures { result ≡ slice_index self.now.places.items piece }
    {
        self.places[piece]
    }

    /// Where the pieces from one on to another begin.
    pub(crate) fn places(&self, from: usize, to: usize) -> &[u64]
        requires order { from ≤ to }
        requires within { to ≤ length self.now.places.items }
        ensures { result.now ≡ take (to - from) (drop from self.now.places.items) }
    {
        &self.places[from..to]
    }

    /// The numbers of the pieces that are reports.
    pub(crate) fn reports(&self) -> &[u64]
        ensures { result.now ≡ self.now.reports.items }
    {
        &self.reports
    }

    /// What a piece is.
    pub(crate) fn row(&self, piece: usize) -> Row
        requires { piece < length self.now.rows.items }
        ensures { result ≡ slice_index_or self.now.rows.items piece result }
    {
        self.rows[piece]
    }
}

impl fmt::Debug for FrameTable {
    fn fmt<W: Write>(&self, f: &mut Formatter<W>) -> fmt::Result {
        f.write_str("FrameTable { .. }")
    }
}

/// Appends a number.
fn put_number(numbers: &mut Vec<u64>, number: u64) -> Result<(), NoMemory>
    ensures { OnOk result (numbers.new.items ≡ numbers.old.items ++ number ∷ []) }
{
    numbers.push(number)?;
    Ok(())
}

/// How many reports a unit has: one if it starts a group.
fn report_count(unit: &Unit) -> usize
    ensures { result ≡ length (unit_reports unit.now) }
{
    if unit.starts_group { 1 } else { 0 }
}

/// How many reports and frames a film has. The packets of each unit are written into the list.
fn count_pieces(packets: &mut Vec<Packet>, film: &Film) -> Result<usize, NoMemory>
    ensures { IfOk result (λ count. count ≡ length (film_pieces film.now)) }
{
    let mut count = 0;
    for number in 0..film.units.len() {
        refill_packets(packets, film, number)?;
        count += packets.len() + report_count(&film.units[number]);
    }
    Ok(count)
}

/// Appends the number of a piece if it is a report.
fn put_report_number(reports: &mut Vec<u64>, number: u64, piece: &Piece) -> Result<(), NoMemory>
    ensures { OnOk result (reports.new.items ≡ with_report number piece.now reports.old.items) }
{
    match piece {
        Piece::Report(_) => put_number(reports, number),
        Piece::Frame(..) => Ok(()),
    }
}
