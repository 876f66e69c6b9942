//! A film with its name and its table of frames.

ghost use Rattle.film_frames.specs.Tables.{IsTableOf};

use crate::binary_search::ends_below;
use crate::pieces::{Counted, Piece};
use crate::tables::FrameTable;
use mpeg_scan::Film;
use rtp_pack::{FRAME_HEAD_BYTES, REPORT_BYTES};
use std::alloc::Global;
use std::fmt::{self, Formatter, Write};
use vod_base::NoMemory;

/// A film with its name and its table of frames.
#[derive(Drop)]
pub struct Stored {
    /// The name by which it is asked for.
    pub name: String,
    /// The film.
    pub film: Film,
    /// Its table.
    pub table: FrameTable,
    pub ghost table_is: { IsTableOf film table },
}

impl Stored {
    ghost use Rattle.std.specs.Prelude.{◌≡◌, ◌+◌, ◌-◌, ◌*◌, ◌<◌, ◌≤◌, ℕ, length, take, slice_index};
    ghost use Rattle.std.specs.Prelude.{slice_get, string_bytes, Some, IfOk};
    ghost use Rattle.std.specs.List.{sum_by};
    ghost use Rattle.rtp_pack.specs.Packets.{OfUnit};
    ghost use Rattle.film_frames.specs.Pieces.{OfPiece, counted_of, film_pieces, frames_in};
    ghost use Rattle.film_frames.specs.Pieces.{from_of, front_pieces, wire_in, wire_size};

    /// Makes the table of a film, and stores both under a name.
    ///
    /// # Errors
    ///
    /// [`NoMemory`] where there is none for the table.
    pub fn new(alloc: Global, name: String, film: Film) -> Result<Stored, NoMemory>
        ensures name { IfOk result (λ stored. string_bytes stored.name ≡ string_bytes name) }
        ensures film { IfOk result (λ stored. stored.film ≡ film) }
    {
        let table = FrameTable::make(alloc, &film)?;
        Ok(Stored { name, film, table })
    }

    /// Returns the bytes of a unit on the wire: its frames, and the report before it if it starts a
    /// group. A unit of L bytes takes at most 2 * L + 112.
    pub fn wire_size(&self, unit: usize) -> u64
        requires { unit < length self.now.film.units.items }
        ensures size { OfUnit self.now.film.units.items unit
            (λ u. result ≡ wire_size self.now.film.slice_starts.items u) }
        ensures bound { OfUnit self.now.film.units.items unit
            (λ u. result ≤ 2 * (u.to - u.from) + 112) }
    {
        self.table.wire_size(unit)
    }

    /// How many pieces of the film come before a unit.
    pub(crate) fn first_piece(&self, unit: usize) -> usize
        requires { unit ≤ length self.now.film.units.items }
        ensures { result ≡ length (front_pieces self.now.film unit) }
    {
        self.table.first(unit)
    }

    /// Where a piece of the film begins among all its framed bytes, or the last ends.
    pub(crate) fn place(&self, piece: usize) -> u64
        requires { piece ≤ length (film_pieces self.now.film) }
        ensures { result ≡ wire_in (take piece (film_pieces self.now.film)) }
    {
        self.table.place(piece)
    }

    /// How many frames of the film come before a piece.
    pub(crate) fn frames(&self, piece: usize) -> u64
        requires { piece ≤ length (film_pieces self.now.film) }
        ensures { result ≡ frames_in (take piece (film_pieces self.now.film)) }
    {
        // A group has one report and many frames, so the search goes through the shorter list.
        let reports = ends_below(self.table.reports(), piece as u64);
        (piece - reports) as u64
    }

    /// How many bytes or frames of the film come before a piece.
    pub(crate) fn total_before(&self, counted: Counted, piece: usize) -> u64
        requires { piece ≤ length (film_pieces self.now.film) }
        ensures { result ≡ sum_by (counted_of counted) (take piece (film_pieces self.now.film)) }
    {
        match counted {
            Counted::Bytes => self.place(piece),
            Counted::Frames => self.frames(piece),
        }
    }

    /// The place in the film of the payload of a piece; of a report that of its unit.
    fn payload_from(&self, number: usize) -> u64
        requires { number < length (film_pieces self.now.film) }
        ensures { OfPiece (film_pieces self.now.film) number (λ piece. result ≡ from_of piece) }
    {
        // Units lie in the film without gaps. So the place of a payload is its place on the wire
        // less the heads and reports before it, and the table needn't keep it.
        let frames = self.frames(number);
        let reports = number as u64 - frames;
        self.film.units[0].from
            + (self.place(number) - FRAME_HEAD_BYTES * frames - REPORT_BYTES * reports)
    }

    /// Where the pieces from one on to another end.
    pub(crate) fn ends(&self, from: usize, to: usize) -> &[u64]
        requires order { from ≤ to }
        requires within { to ≤ length (film_pieces self.now.film) }
        ensures count { length result.now ≡ to - from }
        ensures each { (k : ℕ) → k < to - from
            → slice_index result.now k ≡ wire_in (take (from + k + 1) (film_pieces self.now.film)) }
    {
        self.table.places(from + 1, to + 1)
    }

    /// The piece of the film of that number.
    pub(crate) fn piece(&self, number: usize) -> Piece
        requires { number < length (film_pieces self.now.film) }
        ensures { slice_get (film_pieces self.now.film) number ≡ Some result }
    {
        let row = self.table.row(number);
        let size = self.table.place(number + 1) - self.table.place(number);
        let from = self.payload_from(number);
        row.piece(&self.film.units[row.unit()], from, size)
    }
}

impl fmt::Debug for Stored {
    fn fmt<W: Write>(&self, f: &mut Formatter<W>) -> fmt::Result {
        f.write_str("Stored { .. }")
    }
}
