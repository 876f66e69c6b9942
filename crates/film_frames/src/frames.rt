//! The track of a run of a film's units.

ghost use Rattle.mpeg_scan.specs.declared.units.Unit.{Unit as PictureUnit};
ghost use Rattle.mpeg_scan.specs.PictureRates.{picture_time};
ghost use Rattle.std.specs.Prelude.{◌≡◌, ◌+◌, ◌-◌, ◌^◌, ◌++◌, ◌<◌, ◌≤◌, ℕ, [], length, take, drop};
ghost use Rattle.std.specs.Prelude.{slice_get, slice_range, Some};
ghost use Rattle.std.specs.List.{sum_by};
ghost use Rattle.film_frames.specs.Pieces.{counted_of, frames_in, octets_in, wire_in};
ghost use Rattle.film_frames.specs.FramedRuns.{HaveEnded, count_ended, frames_before};
ghost use Rattle.film_frames.specs.FramedRuns.{octets_before, payload, piece_bytes, run_of};
ghost use Rattle.film_frames.specs.FramedRuns.{run_pieces, pieces_in};
ghost use Rattle.film_frames.specs.Tables.{IsCutPacket, IsSound};
ghost use Rattle.film_frames.specs.declared.pieces.Piece.TheVariants.{Frame, Report};
ghost use Rattle.film_frames.specs.Tracks.{IsBoundary, IsNext, IsSplit, begin_of, framed_bytes};

use crate::binary_search::ends_below;
use crate::heads::{put_frame_heads, report_block};
use crate::pieces::{Counted, Piece};
use crate::stored_films::Stored;
use crate::tracks::{HEAD_BUFFER_BYTES, Part, Track};
use mpeg_scan::Unit;
use rtp_pack::{FRAME_HEAD_BYTES, Identity, Packet, REPORT_BYTES, packet_head, unit_report};
use std::fmt::{self, Formatter, Write};
use std::marker::Model;

/// The bytes of a frame that its octets don't count: the interleaved head and the RTP header. The
/// video header is payload, which counts (RFC 3550 section 6.4.1).
const UNCOUNTED: u64 = 16;

/// A run: units of a film, one after another, that are sent under an identity. Contracts see the
/// run.
#[derive(Drop)]
pub struct Frames<'a> {
    /// The film, which lends the payloads.
    stored: &'a Stored,
    /// Its first unit.
    first_unit: usize,
    /// The unit at which it ends, which isn't in it.
    end_unit: usize,
    /// Channels, source and counts under which it is sent.
    identity: Identity,
}

impl<'a> Model for Frames<'a> {
    ghost use Rattle.std.specs.Prelude.{◌≤◌, ◌<◌, length};
    ghost use Rattle.film_frames.specs.FramedRuns.{FramedRun, run_of};

    ghost Value = { FramedRun };

    ghost view = { λ f. run_of f.stored.now.film f.first_unit f.end_unit f.identity };

    ghost invariant = { λ f. (f.first_unit < f.end_unit)
        × (f.end_unit ≤ length f.stored.now.film.units.items) };
}

impl<'a> Frames<'a> {
    /// Makes the run of the units from one on to another, which isn't in it.
    pub fn new(
        stored: &'a Stored,
        first_unit: usize,
        end_unit: usize,
        identity: Identity,
    ) -> Frames<'a>
        requires order { first_unit < end_unit }
        requires within { end_unit ≤ length stored.now.film.units.items }
        ensures { result ≡ run_of stored.now.film first_unit end_unit identity }
    {
        Frames {
            stored,
            first_unit,
            end_unit,
            identity,
        }
    }

    /// Counts the RTP frames of the run that end at or before `at`, which may be any place. Reports
    /// don't count.
    pub fn frames_before(&self, at: u64) -> u64
        ensures { result ≡ frames_before self.now at }
    {
        self.frames_before_piece(self.count_ended(at))
    }

    /// Counts the octets of the RTP frames of the run that end at or before `at`: their video
    /// headers and payloads.
    pub fn octets_before(&self, at: u64) -> u64
        ensures { result ≡ octets_before self.now at }
    {
        self.octets_before_piece(self.count_ended(at))
    }

    /// How many pieces the run has.
    fn piece_count(&self) -> usize
        ensures count { result ≡ length (pieces_in self.now) }
        ensures pieces { result ≡ length (run_pieces self.now) }
    {
        self.stored.first_piece(self.end_unit) - self.stored.first_piece(self.first_unit)
    }

    /// How many bytes or frames of the run come before a piece, or before its end. A piece begins
    /// after the bytes before it.
    fn total_before(&self, counted: Counted, piece: usize) -> u64
        requires { piece ≤ length (pieces_in self.now) }
        ensures sum { result ≡ sum_by (counted_of counted) (take piece (pieces_in self.now)) }
        ensures begin { wire_in (take piece (pieces_in self.now))
            ≡ begin_of (run_pieces self.now) piece }
    {
        // Counted in the film's table, less what comes before the run: a run has no list of its
        // own, so making one takes no memory.
        let first = self.stored.first_piece(self.first_unit);
        self.stored.total_before(counted, first + piece) - self.stored.total_before(counted, first)
    }

    /// Where a piece of the run begins, or the last ends.
    fn begin_of(&self, piece: usize) -> u64
        requires { piece ≤ length (pieces_in self.now) }
        ensures begin { result ≡ begin_of (run_pieces self.now) piece }
        ensures wire { result ≡ wire_in (take piece (pieces_in self.now)) }
    {
        self.total_before(Counted::Bytes, piece)
    }

    /// How many frames of the run come before a piece.
    fn frames_before_piece(&self, piece: usize) -> u64
        requires { piece ≤ length (pieces_in self.now) }
        ensures { result ≡ frames_in (take piece (pieces_in self.now)) }
    {
        self.total_before(Counted::Frames, piece)
    }

    /// The octets of the frames of the run that come before a piece.
    fn octets_before_piece(&self, piece: usize) -> u64
        requires { piece ≤ length (pieces_in self.now) }
        ensures { result ≡ octets_in (take piece (pieces_in self.now)) }
    {
        let frames = self.frames_before_piece(piece);
        let reports = piece as u64 - frames;
        self.begin_of(piece) - UNCOUNTED * frames - REPORT_BYTES * reports
    }

    /// A piece of the run.
    fn piece(&self, number: usize) -> Piece
        requires { number < length (pieces_in self.now) }
        ensures piece { slice_get (pieces_in self.now) number ≡ Some result }
        ensures sound { IsSound self.now.film result }
    {
        self.stored
            .piece(self.stored.first_piece(self.first_unit) + number)
    }

    /// How many pieces of the run end at or before `at`.
    fn count_ended(&self, at: u64) -> usize
        ensures count_ended { HaveEnded (run_pieces self.now) at result }
        ensures among { result ≤ length (pieces_in self.now) }
        ensures few { result ≤ 2 ^ 42 }
    {
        let first = self.stored.first_piece(self.first_unit);
        let end = self.stored.first_piece(self.end_unit);
        // A piece that ends exactly at `at` has ended, so its end lies below this place. `at` may
        // be any number: bounded by the run it can't overflow the sum.
        let place = self.stored.place(first) + at.min(self.total()) + 1;
        ends_below(self.stored.ends(first, end), place)
    }

    /// The bytes of a report that stands after so many pieces.
    fn report(&self, number: usize, unit: &Unit) -> [u8; HEAD_BUFFER_BYTES]
        requires { number ≤ length (pieces_in self.now) }
        ensures { result ≡ piece_bytes self.now (frames_in (take number (pieces_in self.now)))
            (octets_in (take number (pieces_in self.now))) (Report unit.now) }
    {
        let frames = self.frames_before_piece(number);
        let octets = self.octets_before_piece(number);
        let report = unit_report(&self.identity, self.picture_time(), unit, frames, octets);
        report_block(self.identity.control, &report)
    }

    /// Writes the 20 bytes of heads of a frame that stands after so many pieces.
    fn put_heads(
        &self,
        number: usize,
        unit: &Unit,
        packet: &Packet,
        head: &mut [u8; HEAD_BUFFER_BYTES],
    )
        requires number { number ≤ length (pieces_in self.now) }
        requires packet { IsCutPacket self.now.film unit.now packet.now }
        ensures { (octets : ℕ) → take FRAME_HEAD_BYTES head.new ++ payload self.now.film packet.now
            ≡ piece_bytes self.now (frames_in (take number (pieces_in self.now))) octets
            (Frame unit.now packet.now) }
    {
        let frames = self.frames_before_piece(number);
        let its = packet_head(&self.identity, self.picture_time(), unit, packet, frames);
        put_frame_heads(head, self.identity.channel, &its, packet.to - packet.from);
    }

    /// The payload of a packet without its first so many bytes.
    fn payload(&self, packet: &Packet, without: u64) -> &[u8]
        requires front { packet.now.from + without ≤ packet.now.to }
        requires within { packet.now.to ≤ length self.now.film }
        ensures { result.now ≡ take (packet.now.to - (packet.now.from + without))
            (drop (packet.now.from + without) self.now.film) }
    {
        &self.stored.film.bytes[(packet.from + without) as usize..packet.to as usize]
    }

    /// The time of a picture in 1/360,000 second.
    fn picture_time(&self) -> u32
        ensures { result ≡ picture_time self.now.rate }
    {
        self.stored.film.picture_time()
    }
}

impl fmt::Debug for Frames<'_> {
    fn fmt<W: Write>(&self, f: &mut Formatter<W>) -> fmt::Result {
        f.write_str("Frames { .. }")
    }
}

impl Track for Frames<'_> {
    ghost pieces = { run_pieces };

    fn total(&self) -> u64 {
        self.begin_of(self.piece_count())
    }

    fn boundary_after(&self, at: u64) -> u64 {
        // The run's first byte is a boundary, and no piece ends there.
        if at == 0 {
            return 0;
        }
        // The piece that has byte `at - 1` ends at or after `at`, and is the first that does.
        self.begin_of(self.count_ended(at - 1) + 1)
    }

    /// The bytes from `at` on to the end of its report or frame. The payload is lent from the
    /// film's bytes, and a report has none.
    fn part(&self, at: u64, head: &mut [u8; HEAD_BUFFER_BYTES]) -> Part<'_>
        // needs: a place before the run's end
        requires { at < length (framed_bytes (run_pieces self.now)) }
        // answers, as each track: the bytes from `at` on, within one piece
        ensures order { result.head_from ≤ result.head_to }
        ensures within { result.head_to ≤ HEAD_BUFFER_BYTES }
        ensures bytes { IsNext (run_pieces self.now) at
            (slice_range head.new result.head_from result.head_to ++ result.payload.now) }
        ensures heads { IsSplit (run_pieces self.now) at (result.head_to - result.head_from)
            (length result.payload.now) }
        // answers, as this one: the bytes to the end of the piece, and no payload in a report
        ensures whole { IsBoundary (run_pieces self.now)
            (at + (result.head_to - result.head_from) + length result.payload.now) }
        ensures report { (unit : PictureUnit) →
            slice_get (pieces_in self.now) (count_ended at (run_pieces self.now)) ≡
            Some (Report unit)
            → result.payload.now ≡ [] }
    {
        // A slot may end inside a piece, so a part may begin anywhere in one.
        let number = self.count_ended(at);
        let inside = at - self.begin_of(number);
        match self.piece(number) {
            Piece::Report(unit) => {
                // A report is written anew in each call, also for its last bytes: none is kept.
                *head = self.report(number, &unit);
                Part {
                    head_from: inside as usize,
                    head_to: REPORT_BYTES as usize,
                    payload: &[],
                }
            }
            Piece::Frame(unit, packet) => {
                // Only the heads are written: the payload is lent, so a slot takes no memory.
                self.put_heads(number, &unit, &packet, head);
                Part {
                    head_from: inside.min(FRAME_HEAD_BYTES) as usize,
                    head_to: FRAME_HEAD_BYTES as usize,
                    payload: self.payload(&packet, inside.max(FRAME_HEAD_BYTES) - FRAME_HEAD_BYTES),
                }
            }
        }
    }
}
