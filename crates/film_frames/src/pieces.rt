//! A report or a frame of a film.

ghost use Rattle.std.specs.Prelude.{◌≡◌, ℕ, List};
ghost use Rattle.film_frames.specs.Pieces.{wire_of};
ghost use Rattle.film_frames.specs.Tables.{IsSound};

use mpeg_scan::Unit;
use rtp_pack::{FRAME_HEAD_BYTES, Packet, REPORT_BYTES};

/// A report or a frame, and the unit that it belongs to.
#[derive(Clone, Copy)]
pub(crate) enum Piece {
    /// The sender report before a unit that starts a group.
    Report(Unit),
    /// The frame of a packet of a unit.
    Frame(Unit, Packet),
}

/// What is counted of pieces: their bytes on the wire, or the frames among them.
#[derive(Clone, Copy)]
pub(crate) enum Counted {
    Bytes,
    Frames,
}

/// The bytes of a piece of a film.
pub(crate) fn wire_of(piece: &Piece) -> u64
    requires { (film : List ℕ) × IsSound film piece.now }
    ensures { result ≡ wire_of piece.now }
{
    match piece {
        Piece::Report(_) => REPORT_BYTES,
        Piece::Frame(_, packet) => FRAME_HEAD_BYTES + (packet.to - packet.from),
    }
}
