//! The streams are written by hand from the fields of ISO/IEC 11172-1.

ghost use Rattle.std.specs.Prelude.{◌≤◌, ◌^◌, length, IfOk, MatchResult};
ghost use Rattle.sys_demux.specs.SystemStreams.{IsSystem, IsBadStream};

use super::*;
use crate::headers::Header;
use crate::parser_states::ParserState;
use std::alloc::Global;
use std::test::Fail;

/// Film A: a sequence header, a group header, an I picture and one slice.
const FILM: &[u8] = b"\0\0\x01\xb3\x16\x01\x20\x13\xff\xff\xe0\xa0\
    \0\0\x01\xb8\0\x08\0\x40\0\0\x01\0\0\x0f\xff\xf8\0\0\x01\x01\x12\x34";

/// A pack header.
const PACK: &[u8] = b"\0\0\x01\xba\x21\0\x01\0\x01\x80\0\x03";

/// The code of the end.
const END: &[u8] = b"\0\0\x01\xb9";

/// The video of a stream that is fed in chunks of this size, and how it ends: what the bytes are,
/// for every size.
fn unwrapped(
    alloc: Global,
    bytes: &[u8],
    size: usize,
) -> Result<(Vec<u8>, Result<(), SystemFault>), Fail>
    requires { length bytes.now ≤ 2 ^ 40 }
    ensures { IfOk result (λ r.
        MatchResult r.1 (λ _. IsSystem bytes.now r.0.items) (λ fault. IsBadStream bytes.now fault)) }
{
    let mut unwrapper = Unwrapper::new();
    let mut video = Vec::new(alloc);
    let mut rest = bytes;
    while !rest.is_empty() {
        let chunk = &rest[..rest.len().min(size.max(1))];
        match unwrapper.feed(chunk) {
            Ok(fed) => {
                video.extend_from_slice(fed.video)?;
                rest = &rest[fed.taken..];
            }
            Err(fault) => return Ok((video, Err(fault))),
        }
    }
    Ok((video, unwrapper.finish()))
}

#[test]
fn unwraps_streams(rt: HostRuntime) -> Result<(), Fail> {
    let parts: [(&[u8], &[u8]); 4] = [
        (b"\0\0\x01\xe0\0\x23\x0f", END),
        (b"\0\0\x01\xe0\0\x2b\xff\xff\x60\0\x21\0\x01\0\x01", END),
        (
            b"\0\0\0\x01\xc0\0\x02ab\0\0\x01\xef\0\x23\x0f",
            b"\0\0\x01\xe0\0\x01a\0\0",
        ),
        (b"\0\0\x01\xe0\0\x2c\x31123456789", b"\0\0\x01\xb9ab"),
    ];
    for (header, end) in parts {
        let mut bytes = Vec::from_slice(rt.alloc(), PACK)?;
        bytes.extend_from_slice(header)?;
        bytes.extend_from_slice(FILM)?;
        bytes.extend_from_slice(end)?;
        for size in [1, 7, 1000] {
            let (video, ended) = unwrapped(rt.alloc(), &bytes[..bytes.len().min(1000)], size)?;
            assert_eq!(rt; ended, Ok(()), "at {size}");
            assert_eq!(rt; video.as_slice(), FILM, "at {size}");
        }
    }
    Ok(())
}

#[test]
fn refuses_streams(rt: HostRuntime) -> Result<(), Fail> {
    let cases: [(&[u8], SystemFault); 9] = [
        (b"\0\0\x01\xe0\0\x01\0", SystemFault::BadPacket(12)),
        (b"\x41", SystemFault::BadCode(12)),
        (b"\0\x01", SystemFault::BadCode(13)),
        (b"\0\0\0\x01\xb3", SystemFault::BadCode(13)),
        (b"\0\0\x01\xe0\0\x23\x0f", SystemFault::Truncated(12)),
        (b"\0\0\x01", SystemFault::Truncated(12)),
        (b"\0\0\x01\xba\x44", SystemFault::NotPack(12)),
        (b"\0\0\x01\xe0\0\x04\x21", SystemFault::BadPacket(12)),
        (
            b"\0\0\x01\xe0\0\x34\xff\xff\xff\xff\xff\xff\xff\xff\xff\xff\xff\xff\xff\xff\xff\xff\
                \xff\x0f",
            SystemFault::BadPacket(12),
        ),
    ];
    for (rest, fault) in cases {
        let mut bytes = Vec::from_slice(rt.alloc(), PACK)?;
        bytes.extend_from_slice(rest)?;
        for size in [1, 1000] {
            let (_, ended) = unwrapped(rt.alloc(), &bytes[..bytes.len().min(1000)], size)?;
            assert_eq!(rt; ended, Err(fault), "at {size}");
        }
    }
    Ok(())
}

#[test]
fn a_reader_prints_its_fields(rt: HostRuntime) -> Result<(), Fail> {
    let reader = Unwrapper {
        place: ParserState::InHeader(Header::Stuffing(1), 34),
        item: 12,
        chosen: Some(0xe0),
        fed: 19,
    };
    let want =
        "Unwrapper { place: InHeader(Stuffing(1), 34), item: 12, chosen: Some(224), fed: 19 }";
    assert_eq!(rt; format!(in rt.alloc(); "{reader:?}")?.as_str(), want);
    Ok(())
}
