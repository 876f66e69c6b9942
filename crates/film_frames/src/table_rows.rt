//! What the table keeps of a report or a frame.

ghost use Rattle.std.specs.Prelude.{◌≡◌, ◌+◌, ◌^◌, ◌<◌, ◌≤◌, ℕ, List, slice_get, Some};
ghost use Rattle.mpeg_scan.specs.declared.units.Unit.{Unit as PictureUnit};
ghost use Rattle.film_frames.specs.Pieces.{unit_of};
ghost use Rattle.film_frames.specs.Tables.{IsFrameRow, IsRow, IsSound, row_piece};

use crate::pieces::Piece;
use mpeg_scan::Unit;
use rtp_pack::{FRAME_HEAD_BYTES, packet};

/// What is kept of a report or a frame beside its place: 8 bytes.
#[derive(Clone, Copy)]
pub(crate) struct Row {
    /// The number of its unit.
    unit: u32,
    /// What it is.
    kept: PieceKind,
}

/// A report, or a frame with what its payload shows.
#[derive(Clone, Copy)]
pub(crate) enum PieceKind {
    /// A report.
    Report,
    /// A frame.
    Frame {
        /// Whether the payload begins with a slice, or with the unit's head and a slice after it.
        begin: bool,
        /// Whether the payload ends with a slice's last byte.
        end: bool,
    },
}

impl Row {
    /// The row of a piece, by the number of its unit.
    pub(crate) fn new(unit: u32, piece: &Piece) -> Row
        ensures { (film : List ℕ) (units : List PictureUnit) → IsSound film piece.now
            → slice_get units unit ≡ Some (unit_of piece.now) → IsRow units result piece.now }
    {
        let kept = match piece {
            Piece::Report(_) => PieceKind::Report,
            Piece::Frame(_, packet) => PieceKind::Frame {
                begin: packet.begin,
                end: packet.end,
            },
        };
        Row { unit, kept }
    }

    /// The number of its unit.
    pub(crate) fn unit(&self) -> usize
        ensures { result ≡ self.now.unit }
    {
        self.unit as usize
    }

    /// The piece, by its unit, the place of its payload in the film and the number of its bytes.
    pub(crate) fn piece(&self, unit: &Unit, from: u64, size: u64) -> Piece
        requires least { FRAME_HEAD_BYTES ≤ size }
        requires most { IsFrameRow self.now → from + size < 2 ^ 64 }
        ensures { result ≡ row_piece self.now unit.now from size }
    {
        match self.kept {
            PieceKind::Report => Piece::Report(*unit),
            PieceKind::Frame { begin, end } => {
                // A row doesn't keep these: they follow from where this piece and the next begin.
                let to = from + (size - FRAME_HEAD_BYTES);
                Piece::Frame(*unit, packet(unit, from, to, begin, end))
            }
        }
    }
}
