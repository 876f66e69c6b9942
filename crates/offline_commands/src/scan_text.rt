//! Writes the text that `scan` prints: a line for the film, and one for each of its units.

ghost use Rattle.std.specs.Prelude.{◌≡◌, ◌+◌, ◌*◌, ◌<◌, ◌≤◌, ◌^◌, ◌++◌, ℕ, List, Option, All};
ghost use Rattle.std.specs.Prelude.{codes, drop, length, vec_len, IfOk};
ghost use Rattle.cli_errors.specs.StreamWrites.{IsTextWritten};
ghost use Rattle.offline_commands.specs.ScanText.{kind_text, unit_name, unit_places, unit_marks};
ghost use Rattle.offline_commands.specs.ScanText.{unit_line, unit_lines, film_line};
ghost use Rattle.offline_commands.specs.TextLaws.{IsShortUnit};

use crate::line_parts::{write_field, write_number, write_text, write_text_if};
use mpeg_scan::{Kind, Unit};
use std::alloc::{AllocError, Global};
use vod_base::{NoMemory, Sink, push, push_field};

/// The most bytes of a unit's line: six numbers of at most 20 digits, and 48 bytes of words.
const LINE_BYTES: usize = 168;

/// How many units' lines are gathered for one write.
const PIECE_LINES: usize = 390;

/// The room for them.
const PIECE_BYTES: usize = 65_520;

/// The room in which the lines of a piece are gathered.
pub(crate) fn new_piece(alloc: Global) -> Result<Vec<u8>, AllocError>
    ensures { IfOk result (λ piece. vec_len piece ≡ PIECE_BYTES) }
{
    vec![in alloc; 0u8; PIECE_BYTES]
}

/// Writes the text of a film: its first line, and those of its units, gathered in `piece`. Returns
/// whether all of it was written.
pub(crate) fn write_scan<O: Sink>(
    out: &mut O,
    film: &[u8],
    piece: &mut [u8],
    units: &[Unit],
) -> bool
    requires room { length piece.old ≡ PIECE_BYTES }
    ensures written { IsTextWritten (O.faults out.old) (O.faults out.new) (O.written out.old)
        (O.written out.new) (film.now ++ unit_lines 0 units.now ++ codes "end\n") result }
    ensures short { All IsShortUnit units.now }
{
    let mut is_written = out.write_all(film).is_ok();
    let mut first = 0;
    while first < units.len() {
        let last = (first + PIECE_LINES).min(units.len());
        let start = write_lines(first as u64, &units[first..last], piece);
        is_written = write_after(out, is_written, &piece[start..]);
        first = last;
    }
    write_after(out, is_written, b"end\n")
}

/// Writes a part more, unless a part before it failed, and returns whether all was written.
fn write_after<O: Sink>(out: &mut O, is_written: bool, part: &[u8]) -> bool
    ensures { (faults : ℕ) (told : Option (List ℕ)) (text : List ℕ)
        → IsTextWritten faults (O.faults out.old) told (O.written out.old) text is_written
        → IsTextWritten faults (O.faults out.new) told (O.written out.new) (text ++ part.now)
        result }
{
    is_written && out.write_all(part).is_ok()
}

/// Writes the lines of units, of which the first has that number, at the end of `piece`, and
/// returns where they start.
fn write_lines(first: u64, units: &[Unit], piece: &mut [u8]) -> usize
    requires numbers { first + length units.now < 2 ^ 64 }
    requires room { LINE_BYTES * length units.now ≤ length piece.old }
    ensures within { result ≤ length piece.new }
    ensures written { drop result piece.new ≡ unit_lines first units.now }
    ensures short { All IsShortUnit units.now }
{
    let mut start = piece.len();
    let mut left = units.len();
    while left > 0 {
        left -= 1;
        start = write_unit(first + left as u64, units[left], piece, start);
    }
    start
}

/// A picture's kind, and the label of its place in presentation order.
fn kind_words(kind: Kind) -> &'static [u8; 8]
    ensures { result.now ≡ codes " " ++ kind_text kind ++ codes " show=" }
{
    match kind {
        Kind::I => b" I show=",
        Kind::P => b" P show=",
        Kind::B => b" B show=",
        Kind::D => b" D show=",
    }
}

/// Writes a unit's number, kind and place in presentation order.
fn write_name(number: u64, unit: &Unit, line: &mut [u8], end: usize) -> usize
    requires room { 48 ≤ end }
    requires within { end ≤ length line.old }
    ensures before { result ≤ end }
    ensures short { end ≤ result + 48 }
    ensures written { drop result line.new ≡ unit_name number unit.now ++ drop end line.old }
{
    let show = write_field(kind_words(unit.kind), unit.presentation, line, end);
    write_number(number, line, show)
}

/// Writes a unit's places and its number of slices.
fn write_places(unit: &Unit, line: &mut [u8], end: usize) -> usize
    requires room { 104 ≤ end }
    requires within { end ≤ length line.old }
    ensures before { result ≤ end }
    ensures short { end ≤ result + 104 }
    ensures written { drop result line.new ≡ unit_places unit.now ++ drop end line.old }
{
    let slices = write_field(b" slices=", unit.slices, line, end);
    let to = write_field(b" to=", unit.to, line, slices);
    let head = write_field(b" head=", unit.head_end, line, to);
    write_field(b" from=", unit.from, line, head)
}

/// Writes what a unit's head has, and the line's end.
fn write_marks(unit: &Unit, line: &mut [u8], end: usize) -> usize
    requires room { 16 ≤ end }
    requires within { end ≤ length line.old }
    ensures before { result ≤ end }
    ensures short { end ≤ result + 16 }
    ensures written { drop result line.new ≡ unit_marks unit.now ++ drop end line.old }
{
    let stop = write_text(b"\n", line, end);
    let group = write_text_if(unit.starts_group, b" group", line, stop);
    write_text_if(unit.has_sequence, b" sequence", line, group)
}

/// Writes the line of a unit, and returns where it starts.
fn write_unit(number: u64, unit: Unit, line: &mut [u8], end: usize) -> usize
    requires room { LINE_BYTES ≤ end }
    requires within { end ≤ length line.old }
    ensures before { result ≤ end }
    ensures short { end ≤ result + LINE_BYTES }
    ensures written { drop result line.new ≡ unit_line number unit ++ drop end line.old }
    ensures unit { IsShortUnit unit }
{
    let marks = write_marks(&unit, line, end);
    let places = write_places(&unit, line, marks);
    write_name(number, &unit, line, places)
}

/// The line of the film itself.
pub(crate) fn film_text(
    alloc: Global,
    bytes: u64,
    rate: u8,
    pictures: u64,
) -> Result<Vec<u8>, NoMemory>
    ensures line { IfOk result (λ text. text.items ≡ film_line bytes rate pictures) }
    ensures short { (bytes < 2 ^ 64) × (rate < 2 ^ 64) × (pictures < 2 ^ 64) }
{
    let mut text = Vec::new(alloc);
    push_field(&mut text, b"film bytes=", bytes)?;
    push_field(&mut text, b" rate=", u64::from(rate))?;
    push_field(&mut text, b" pictures=", pictures)?;
    push(&mut text, b"\n")?;
    Ok(text)
}
