//! The requests and blocks are written by hand from RFC 2326.

use super::*;
use crate::laws::{
    law_first_element_is_stable, law_first_element_is_unique, law_skipped_bytes_only_grow,
    law_waiting_bytes_are_bounded,
};
use std::alloc::Global;
use std::process::Abort;
use std::slice;
use std::test::Fail;

/// The part of a row at this place. The parts have `@` between them.
fn part(row: &str, place: usize) -> &str {
    row.split('@').nth(place).unwrap_or("")
}

/// The number that a text writes, or the other one where it is empty.
fn number(text: &str, other: usize) -> usize {
    text.parse().unwrap_or(other)
}

/// Whether this is the answer to a look, as `Debug` prints it.
fn sees(alloc: Global, demux: &mut Demux, want: &str) -> bool {
    let found = demux.look();
    match format!(in alloc; "{found:?}") {
        Ok(text) => text.as_str() == want,
        Err(_) => false,
    }
}

/// Puts bytes one by one, and says whether nothing was complete before each.
fn put_each(demux: &mut Demux, bytes: &[u8]) -> bool {
    let mut good = true;
    for byte in bytes {
        let more = matches!(demux.look(), Ok(Step::More));
        good = demux.put(slice::from_ref(byte)).is_ok() && more && good;
    }
    good
}

/// Puts the bytes of a row as often as it says, one by one where its last part says so.
fn put_all(demux: &mut Demux, row: &str) -> bool {
    let bytes = part(row, 0).as_bytes();
    let mut good = true;
    for _ in 0..number(part(row, 3), 1) {
        let put = if part(row, 6) == "each" {
            put_each(demux, bytes)
        } else {
            demux.put(bytes).is_ok()
        };
        good = put && good;
    }
    good
}

/// Whether what a row says holds. Its parts, of which later ones may be missing: bytes that arrive,
/// the answer to a look after that, how many bytes are dropped before, all where it doesn't say,
/// how often the bytes arrive, how many bytes wait then, what they are, and `each`.
fn is_right(alloc: Global, demux: &mut Demux, row: &str) -> bool {
    let waits = demux.waiting().len();
    demux.drop_front(number(part(row, 2), waits).min(waits));
    let put = put_all(demux, row);
    law_waiting_bytes_are_bounded(demux);
    let count = demux.waiting().len();
    put && number(part(row, 4), count) == count
        && (part(row, 5).is_empty() || demux.waiting() == part(row, 5).as_bytes())
        && (part(row, 1).is_empty() || sees(alloc, demux, part(row, 1)))
}

/// Compares each row of a table.
fn check_on(rt: &impl Abort, alloc: Global, demux: &mut Demux, rows: &str) {
    for row in rows.split('|') {
        assert!(rt; is_right(alloc, demux, row), "at {row:?}");
    }
}

/// The same, from no bytes on.
fn check(rt: &impl Abort, alloc: Global, rows: &str) -> Result<(), Fail> {
    let mut demux = Demux::new(alloc)?;
    check_on(rt, alloc, &mut demux, rows);
    Ok(())
}

/// Whether this is how `Debug` prints it.
fn is_printed(alloc: Global, demux: &Demux, want: &str) -> bool {
    match format!(in alloc; "{demux:?}") {
        Ok(text) => text.as_str() == want,
        Err(_) => false,
    }
}

#[test]
fn heads_blocks(rt: HostRuntime) {
    assert_eq!(rt; frame_head(1, 48), [0x24, 1, 0, 0x30]);
    assert_eq!(rt; frame_head(255, 65_535), [0x24, 0xff, 0xff, 0xff]);
    assert_eq!(rt; frame_head(0, 258), [0x24, 0, 1, 2]);
}

const BLOCK: &str = "\
    \r\n$\x01\x00\x02ab@Ok(Skip(2))@@@8|\
    @Ok(Block(1, 6))@2@@6|\
    @Ok(More)@6@@0";

#[test]
fn skips_and_takes_a_block(rt: HostRuntime) -> Result<(), Fail> {
    let mut demux = Demux::new(rt.alloc())?;
    check_on(&rt, rt.alloc(), &mut demux, BLOCK);
    assert!(rt; is_printed(rt.alloc(), &demux, "Demux { .. }"));
    Ok(())
}

/// What a connection has received, and the answer to a look at it.
const ELEMENTS: &str = "\
    @Ok(More)|\
    \n\r\r@Ok(Skip(3))|\
    $@Ok(More)|\
    $\x05\x00@Ok(More)|\
    $\x05\x00\x00@Ok(Block(5, 4))|\
    $\x05\x00\x01@Ok(More)|\
    OPTIONS * RTSP/1.0\ncseq: 7\n\n@Ok(Request(28))|\
    OPTIONS * RTSP/1.0\r\nCSeq: 7\r\n\r\nmore@Ok(Request(31))|\
    OPTIONS * RTSP/1.0\r\nCSeq: 7\r\n\r@Ok(More)|\
    a\n\r\n@Ok(Request(4))|\
    a\r\n\n@Ok(Request(4))|\
    a\r\r\n@Ok(More)|\
    a\n\r\r\n@Ok(More)";

#[test]
fn finds_first_elements(rt: HostRuntime) -> Result<(), Fail> {
    check(&rt, rt.alloc(), ELEMENTS)
}

/// The same with bodies.
const BODIES: &str = "\
    a\nContent-Length: 3\n\nxy@Ok(More)|\
    a\nContent-Length: 3\n\nxyz@Ok(Request(24))|\
    a\r\ncontent-LENGTH:\t 003 \t\r\n\r\nxyz@Ok(Request(32))|\
    a\nContent-Length: x\n\nxyz@Ok(Request(21))|\
    a\nContent-Length:\n\nxyz@Ok(Request(19))|\
    a\nContent-Length: 1 2\n\nxyz@Ok(Request(23))|\
    a\nContent-Length : 3\n\nxyz@Ok(Request(22))|\
    a\n Content-Length: 3\n\nxyz@Ok(Request(22))|\
    Content-Length: 3\na\n\nxyz@Ok(Request(21))|\
    a\nContent-Length: 1\nContent-Length: 3\n\nxyz@Ok(Request(40))|\
    a\nContent-Length: x\nContent-Length: 3\n\nxyz@Ok(Request(39))|\
    a\nContent-Length: 65536\n\n@Ok(More)|\
    a\nContent-Length: 65537\n\n@Err(BodyTooLong)|\
    a\nContent-Length: 99999999999999999999999\n\n@Err(BodyTooLong)|\
    a\nContent-Length: 99999999999999999999999x\n\n@Ok(Request(44))";

#[test]
fn finds_bodies(rt: HostRuntime) -> Result<(), Fail> {
    check(&rt, rt.alloc(), BODIES)
}

const BYTE_BY_BYTE: &str = "\
    PLAY rtsp://h/n RTSP/1.0\r\nCSeq: 3\r\nContent-Length: 4\r\n\r\nbody@Ok(Request(60))@@@@\
    PLAY rtsp://h/n RTSP/1.0\r\nCSeq: 3\r\nContent-Length: 4\r\n\r\nbody@each|\
    @Ok(Request(60))@0|\
    $\x02\x00\x01!@Ok(Request(60))@0|\
    @Ok(Block(2, 5))@60";

#[test]
fn takes_a_request_byte_by_byte(rt: HostRuntime) -> Result<(), Fail> {
    check(&rt, rt.alloc(), BYTE_BY_BYTE)
}

/// The longest head, and one that is a byte longer.
const LONGEST_HEAD: &str = "\
    a@Ok(More)@@16382@@@each|\
    \n@Ok(More)@0|\
    \n@Ok(Request(16384))@0";

const LONGER_HEAD: &str = "\
    a@@@16383|\
    \n@Err(HeadTooLong)@0|\
    \n@Err(HeadTooLong)@0";

#[test]
fn limits_heads(rt: HostRuntime) -> Result<(), Fail> {
    check(&rt, rt.alloc(), LONGEST_HEAD)?;
    check(&rt, rt.alloc(), LONGER_HEAD)
}

/// Puts as many bytes as may wait.
fn fill(demux: &mut Demux) -> bool {
    let element = [b'a'; 1_024];
    let mut good = true;
    for _ in 0..128 {
        good = demux.put(&element).is_ok() && good;
    }
    good
}

/// Whether as many bytes wait as may.
fn is_full(demux: &mut Demux) -> bool {
    let count = demux.waiting().len();
    let more = demux.put(b"b");
    let none = demux.put(b"");
    count == 131_072 && more == Err(TooMuchInput) && none == Ok(())
}

const AFTER_MOST: &str = "\
    @Err(HeadTooLong)@0@@131072|\
    bc@Ok(More)@131071@@3@abc|\
    \n\n@Ok(Request(5))@0";

#[test]
fn limits_what_waits(rt: HostRuntime) -> Result<(), Fail> {
    let mut demux = Demux::new(rt.alloc())?;
    assert!(rt; fill(&mut demux));
    assert!(rt; is_full(&mut demux));
    check_on(&rt, rt.alloc(), &mut demux, AFTER_MOST);
    Ok(())
}

/// What a connection has received and the answer to a look, and then what comes later and the
/// answer to that.
const LATER: &str = "\
    $\x00\x00\x00@Ok(Block(0, 4))|x@Ok(Block(0, 4))@0|\
    a\n\n@Ok(Request(3))|\n$@Ok(Request(3))@0|\
    \r@Ok(Skip(1))|\n@Ok(Skip(2))@0|\
    \r@Ok(Skip(1))|a@Ok(Skip(1))@0|\
    a\nContent-Length: 65537\n\n@Err(BodyTooLong)|b@Err(BodyTooLong)@0";

/// What comes later changes neither a complete element nor a fault, and only adds to bytes that are
/// skipped.
#[test]
fn answers_stay(rt: HostRuntime) -> Result<(), Fail> {
    law_first_element_is_stable();
    law_skipped_bytes_only_grow();
    law_first_element_is_unique();
    check(&rt, rt.alloc(), LATER)
}
