//! Lines and statuses.

use crate::InputError::{Curves, Film, System};
use crate::{CliError, InputError, status_of, write_error, write_number};
use mpeg_scan::FilmFault;
use std::alloc::Global;
use std::test::Fail;
use sys_demux::SystemFault;
use vod_base::MemorySink;
use wire_curve::CurveFault;

/// Whether an error has the status and the line of a row.
fn is_told(alloc: Global, error: CliError<'_>, row: &str) -> bool {
    let Ok(mut sink) = MemorySink::new(alloc, 64, Vec::new(alloc)) else {
        return false;
    };
    let (status, line) = row.split_once(' ').unwrap_or((row, ""));
    status.parse::<u8>() == Ok(status_of(&error))
        && write_error(&mut sink, error).is_ok()
        && sink.bytes().strip_suffix(b"\n") == Some(line.as_bytes())
}

/// The first row that doesn't have the status and the line of its error. The errors and the rows
/// stand in the same order.
fn wrong_row(alloc: Global, errors: &[CliError<'_>], rows: &'static str) -> &'static str {
    if errors.len() != rows.lines().count() {
        return "not as many rows as errors";
    }
    for (error, row) in errors.iter().zip(rows.lines()) {
        if !is_told(alloc, *error, row) {
            return row;
        }
    }
    ""
}

/// Each error, in the order of the lines below.
const ERRORS: &[CliError<'_>] = &[
    CliError::Usage,
    CliError::Refused("a.mpg", InputError::FilmTooLarge),
    CliError::Refused("a.mpg", Film(FilmFault::BadRate(17, 9))),
    CliError::Refused("a.mpg", System(SystemFault::Truncated(4))),
    CliError::Refused("b.mpg", InputError::RefusedWith(453)),
    CliError::StoreFault("t"),
    CliError::SinkFault,
    CliError::NoMemory,
    CliError::GateFault,
    CliError::LinkFault,
];

/// The status and the line of each error.
const LINES: &str = "\
2 vodserve: usage
3 vodserve: a.mpg: FilmTooLarge
3 vodserve: a.mpg: BadRate 17 9
3 vodserve: a.mpg: Truncated 4
3 vodserve: b.mpg: Refused 453
4 vodserve: t: StoreFault
5 vodserve: SinkFault
6 vodserve: NoMemory
7 vodserve: GateFault
8 vodserve: LinkFault
";

#[test]
fn each_error_has_its_status_and_line(rt: HostRuntime) {
    assert_eq!(rt; wrong_row(rt.alloc(), ERRORS, LINES), "");
}

/// Refusals of the input `a`, in the order of the lines below.
const REFUSALS: &[InputError] = &[
    InputError::NotFound,
    InputError::BadTrace(7),
    InputError::BadCert(7),
    InputError::BadScript(7),
    InputError::FilmTooLarge,
    InputError::NoConnection,
    InputError::RefusedWith(404),
    InputError::BadReply(7),
    InputError::BadFrame(7),
    InputError::Framing,
    InputError::EndedEarly(7),
    InputError::TurnsSpent,
    Curves(CurveFault::NoPictures),
    Curves(CurveFault::TooManySlots { slots: 7 }),
    Curves(CurveFault::BufferTooSmall {
        slot: 7,
        used: 8,
        least: 9,
    }),
    Film(FilmFault::Empty),
    Film(FilmFault::NoSequence),
    Film(FilmFault::SystemCode(7)),
    Film(FilmFault::Mpeg2(7)),
    Film(FilmFault::ShortHeader(7)),
    Film(FilmFault::BadRate(7, 8)),
    Film(FilmFault::BadType(7)),
    Film(FilmFault::PictureWithoutSlices(7)),
    Film(FilmFault::HeadTooLong(7)),
    Film(FilmFault::GroupTooLong(7)),
    Film(FilmFault::TooLong),
    Film(FilmFault::HeadWithoutPicture(7)),
    System(SystemFault::NotPack(7)),
    System(SystemFault::BadCode(7)),
    System(SystemFault::BadPacket(7)),
    System(SystemFault::Truncated(7)),
];

/// The status and the line of each refusal.
const NAMES: &str = "\
3 vodserve: a: NotFound
3 vodserve: a: BadTrace 7
3 vodserve: a: BadCert 7
3 vodserve: a: BadScript 7
3 vodserve: a: FilmTooLarge
3 vodserve: a: NoConnection
3 vodserve: a: Refused 404
3 vodserve: a: BadReply 7
3 vodserve: a: BadFrame 7
3 vodserve: a: Framing
3 vodserve: a: EndedEarly 7
3 vodserve: a: TurnsSpent
3 vodserve: a: NoPictures
3 vodserve: a: TooManySlots 7
3 vodserve: a: BufferTooSmall 7 8 9
3 vodserve: a: Empty
3 vodserve: a: NoSequence
3 vodserve: a: SystemCode 7
3 vodserve: a: Mpeg2 7
3 vodserve: a: ShortHeader 7
3 vodserve: a: BadRate 7 8
3 vodserve: a: BadType 7
3 vodserve: a: PictureWithoutSlices 7
3 vodserve: a: HeadTooLong 7
3 vodserve: a: GroupTooLong 7
3 vodserve: a: TooLong
3 vodserve: a: HeadWithoutPicture 7
3 vodserve: a: NotPack 7
3 vodserve: a: BadCode 7
3 vodserve: a: BadPacket 7
3 vodserve: a: Truncated 7
";

/// The same of refusals of the input `a`.
fn wrong_name(alloc: Global, refusals: &[InputError], rows: &'static str) -> &'static str {
    if refusals.len() != rows.lines().count() {
        return "not as many rows as refusals";
    }
    for (refusal, row) in refusals.iter().zip(rows.lines()) {
        if !is_told(alloc, CliError::Refused("a", *refusal), row) {
            return row;
        }
    }
    ""
}

#[test]
fn each_refusal_has_its_name(rt: HostRuntime) {
    assert_eq!(rt; wrong_name(rt.alloc(), REFUSALS, NAMES), "");
}

#[test]
fn a_number_has_its_name(rt: HostRuntime) -> Result<(), Fail> {
    let alloc = rt.alloc();
    let mut sink = MemorySink::new(alloc, 64, Vec::new(alloc))?;
    let is_written = write_number(&mut sink, "units", 2).is_ok()
        && write_number(&mut sink, "bytes", 49).is_ok();
    assert!(rt; is_written);
    assert_eq!(rt; sink.bytes(), b" units=2 bytes=49".as_slice());
    Ok(())
}
