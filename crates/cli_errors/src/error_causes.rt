//! The text of a refusal: its name, and the numbers that go with it.

ghost use Rattle.std.specs.Prelude.{is_ok};
ghost use Rattle.cli_errors.specs.StreamWrites.{IsTextWritten, number_text};
ghost use Rattle.cli_errors.specs.ErrorLines.{curve_cause_words, cause_words, film_cause_words};
ghost use Rattle.cli_errors.specs.ErrorLines.{system_cause_words, words, words_text};
ghost use Rattle.cli_errors.specs.ErrorReports.{HasShortNumbers};

use crate::errors::InputError;
use crate::parts::write_parts;
use mpeg_scan::FilmFault;
use sys_demux::SystemFault;
use vod_base::{Sink, SinkFault};
use wire_curve::CurveFault;

/// Writes the name and numbers of a refusal.
pub(crate) fn write_input_cause<S: Sink>(sink: &mut S, fault: InputError) -> Result<(), SinkFault>
    ensures said { IsTextWritten (S.faults sink.old) (S.faults sink.new) (S.written sink.old)
        (S.written sink.new) (words_text (cause_words fault)) (is_ok result) }
    ensures short { HasShortNumbers fault }
{
    match fault {
        InputError::NotFound => write_cause(sink, "NotFound", &[]),
        InputError::BadTrace(place) => write_cause(sink, "BadTrace", &[place]),
        InputError::Curves(fault) => write_curve_fault(sink, fault),
        InputError::BadCert(line) => write_cause(sink, "BadCert", &[line]),
        InputError::BadScript(line) => write_cause(sink, "BadScript", &[line]),
        InputError::Film(fault) => write_film_fault(sink, fault),
        InputError::System(fault) => write_system_fault(sink, fault),
        InputError::FilmTooLarge => write_cause(sink, "FilmTooLarge", &[]),
        InputError::NoConnection => write_cause(sink, "NoConnection", &[]),
        InputError::RefusedWith(code) => write_cause(sink, "Refused", &[u64::from(code)]),
        InputError::BadReply(number) => write_cause(sink, "BadReply", &[number]),
        InputError::BadFrame(number) => write_cause(sink, "BadFrame", &[number]),
        InputError::Framing => write_cause(sink, "Framing", &[]),
        InputError::EndedEarly(pictures) => write_cause(sink, "EndedEarly", &[pictures]),
        InputError::TurnsSpent => write_cause(sink, "TurnsSpent", &[]),
    }
}

/// Writes the name and numbers of a refusal of a film's curves.
fn write_curve_fault<S: Sink>(sink: &mut S, fault: CurveFault) -> Result<(), SinkFault>
    ensures { IsTextWritten (S.faults sink.old) (S.faults sink.new) (S.written sink.old)
        (S.written sink.new) (words_text (curve_cause_words fault)) (is_ok result) }
{
    match fault {
        CurveFault::NoPictures => write_cause(sink, "NoPictures", &[]),
        CurveFault::TooManySlots { slots } => write_cause(sink, "TooManySlots", &[slots]),
        CurveFault::BufferTooSmall { slot, used, least } => write_cause(
            sink,
            "BufferTooSmall",
            &[slot, used, least],
        ),
    }
}

/// Writes the name and numbers of a refusal of a film; places are in bytes from its first one.
fn write_film_fault<S: Sink>(sink: &mut S, fault: FilmFault) -> Result<(), SinkFault>
    ensures { IsTextWritten (S.faults sink.old) (S.faults sink.new) (S.written sink.old)
        (S.written sink.new) (words_text (film_cause_words fault)) (is_ok result) }
{
    match fault {
        FilmFault::Empty => write_cause(sink, "Empty", &[]),
        FilmFault::NoSequence => write_cause(sink, "NoSequence", &[]),
        FilmFault::SystemCode(place) => write_cause(sink, "SystemCode", &[place]),
        FilmFault::Mpeg2(place) => write_cause(sink, "Mpeg2", &[place]),
        FilmFault::ShortHeader(place) => write_cause(sink, "ShortHeader", &[place]),
        FilmFault::BadRate(place, code) => write_cause(sink, "BadRate", &[place, u64::from(code)]),
        FilmFault::BadType(place) => write_cause(sink, "BadType", &[place]),
        FilmFault::PictureWithoutSlices(place) => write_cause(
            sink,
            "PictureWithoutSlices",
            &[place],
        ),
        FilmFault::HeadTooLong(place) => write_cause(sink, "HeadTooLong", &[place]),
        FilmFault::GroupTooLong(place) => write_cause(sink, "GroupTooLong", &[place]),
        FilmFault::TooLong => write_cause(sink, "TooLong", &[]),
        FilmFault::HeadWithoutPicture(place) => write_cause(sink, "HeadWithoutPicture", &[place]),
    }
}

/// Writes the name and numbers of a refusal of a system stream; places are in bytes from its first
/// one.
fn write_system_fault<S: Sink>(sink: &mut S, fault: SystemFault) -> Result<(), SinkFault>
    ensures { IsTextWritten (S.faults sink.old) (S.faults sink.new) (S.written sink.old)
        (S.written sink.new) (words_text (system_cause_words fault)) (is_ok result) }
{
    match fault {
        SystemFault::NotPack(place) => write_cause(sink, "NotPack", &[place]),
        SystemFault::BadCode(place) => write_cause(sink, "BadCode", &[place]),
        SystemFault::BadPacket(place) => write_cause(sink, "BadPacket", &[place]),
        SystemFault::Truncated(place) => write_cause(sink, "Truncated", &[place]),
    }
}

/// Writes a name, and after it the numbers, each after a blank.
fn write_cause<S: Sink>(sink: &mut S, name: &str, numbers: &[u64]) -> Result<(), SinkFault>
    ensures { IsTextWritten (S.faults sink.old) (S.faults sink.new) (S.written sink.old)
        (S.written sink.new) (words_text (words name.now numbers.now)) (is_ok result) }
{
    write_parts(sink, &[name.as_bytes()])?;
    for number in numbers {
        write_spaced_number(sink, *number)?;
    }
    Ok(())
}

/// Writes a blank and a number.
fn write_spaced_number<S: Sink>(sink: &mut S, number: u64) -> Result<(), SinkFault>
    ensures { IsTextWritten (S.faults sink.old) (S.faults sink.new) (S.written sink.old)
        (S.written sink.new) (number_text number) (is_ok result) }
{
    // On the stack: an error is written when memory is out, too.
    let mut buffer = itoa::Buffer::new();
    write_parts(sink, &[b" ", buffer.format(number).as_bytes()])
}
