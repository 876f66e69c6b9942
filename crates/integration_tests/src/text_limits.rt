//! The largest texts that are read, and those that are one line, word or byte too large.

use day_script::{ScriptRefused, read_script};
use inputs::{TraceRefused, read_trace};
use plan_cert::{CertRead, read_cert, write_cert};
use std::alloc::Global;
use std::process::Abort;
use std::test::Fail;
use taut_plan::plan;
use vod_base::{NoMemory, push_number};
use wire_curve::{Timing, film_curves};

/// The most lines of a script, sizes of a trace and segments of a certificate.
const MOST: u64 = 1_000_000;

/// A kind of text that is read.
#[derive(Clone, Copy)]
enum Kind {
    Script,
    Trace,
    Cert,
}

/// A text: its kind, a part of it, how often this stands there, and what stands after it.
type Text = (Kind, &'static str, u64, &'static str);

/// Texts, each with its size, or with the first line or byte that is refused.
const TEXTS: [(Text, Result<u64, u64>); 12] = [
    ((Kind::Script, "\n", MOST, ""), Ok(0)),
    ((Kind::Script, "\n", MOST - 1, "slot 7"), Ok(1)),
    ((Kind::Script, "\n", MOST, "\r\n"), Err(MOST + 1)),
    ((Kind::Script, "\n", MOST, "slot 7"), Err(MOST + 1)),
    ((Kind::Trace, "1 ", MOST, "\r\n"), Ok(MOST)),
    ((Kind::Trace, "1 ", MOST, "1"), Err(2 * MOST)),
    ((Kind::Trace, "4294967296\n", 256, "0"), Ok(257)),
    ((Kind::Trace, "4294967296\n", 256, "1"), Err(2816)),
    ((Kind::Trace, "1 ", 1, "4294967297"), Err(2)),
    ((Kind::Cert, "segment 1 2\n", MOST, "end\n"), Ok(MOST)),
    (
        (Kind::Cert, "segment 1 2\n", MOST, "segment 0 0\nend\n"),
        Err(MOST + 4),
    ),
    ((Kind::Cert, "segment 1 2\n", MOST - 1, "end\n"), Err(2)),
];

/// What a certificate of a million slots of two bytes begins with.
const CERT: &str = "smooth 1\nslots 1000000\nbytes 2000000\n";

/// The bytes of a text.
fn bytes_of(alloc: Global, text: Text) -> Result<Vec<u8>, NoMemory> {
    let (kind, part, times, end) = text;
    let front = match kind {
        Kind::Cert => CERT,
        _ => "",
    };
    let mut bytes = Vec::from_slice(alloc, front.as_bytes())?;
    for _ in 0..times {
        bytes.extend_from_slice(part.as_bytes())?;
    }
    bytes.extend_from_slice(end.as_bytes())?;
    Ok(bytes)
}

/// The size of a text: the lines of a script, the sizes of a trace, or the slots of a certificate
/// of two bytes a slot; or else the first line or byte that is refused.
fn size_of(alloc: Global, kind: Kind, text: &[u8]) -> Result<Result<u64, u64>, NoMemory> {
    match kind {
        Kind::Script => match read_script(alloc, text) {
            Ok(script) => Ok(Ok(script.lines.len() as u64)),
            Err(ScriptRefused::BadScript { line }) => Ok(Err(line)),
            Err(ScriptRefused::NoMemory) => Err(NoMemory),
        },
        Kind::Trace => match read_trace(alloc, text) {
            Ok(sizes) => Ok(Ok(sizes.len() as u64)),
            Err(TraceRefused::BadTrace(at)) => Ok(Err(at)),
            Err(TraceRefused::NoMemory) => Err(NoMemory),
        },
        Kind::Cert => match read_cert(alloc, text) {
            Ok(cert) if cert.bytes == 2 * MOST => Ok(Ok(cert.slots)),
            Ok(_) => Ok(Ok(0)),
            Err(CertRead::BadCert { line }) => Ok(Err(line)),
            Err(CertRead::NoMemory) => Err(NoMemory),
        },
    }
}

/// The largest size of a picture.
const LARGEST: u64 = 100_000;

/// Sizes that fall by one from picture to picture.
fn falling_sizes(alloc: Global) -> Result<Vec<u64>, NoMemory> {
    let mut sizes = Vec::new(alloc);
    for fallen in 0..LARGEST {
        sizes.push(LARGEST - fallen)?;
    }
    Ok(sizes)
}

/// The text of a certificate that has a segment of one slot for each of these sizes.
fn segments_of(alloc: Global, sizes: &[u64]) -> Result<Vec<u8>, NoMemory> {
    let mut text = Vec::from_slice(alloc, b"smooth 1\nslots 100000\nbytes 5000050000\n")?;
    for size in sizes {
        text.extend_from_slice(b"segment 1 ")?;
        push_number(&mut text, *size)?;
        text.push(b'\n')?;
    }
    text.extend_from_slice(b"end\n")?;
    Ok(text)
}

/// The text of the certificate of a film of pictures of these sizes, one each slot.
fn cert_of<R: Abort>(rt: &R, alloc: Global, sizes: &[u64]) -> Result<Vec<u8>, NoMemory> {
    let timing = Timing {
        picture_units: 14_400,
        slot_units: 14_400,
        buffer: 1 << 42,
        delay: 0,
        played: 0,
        sent: 0,
    };
    assert!(rt; timing.is_within_limits(sizes));
    let Ok(curves) = film_curves(alloc, sizes, &timing) else {
        return Err(NoMemory);
    };
    write_cert(alloc, &plan(alloc, &curves)?)
}

#[test]
fn reads_the_largest_texts(rt: HostRuntime) -> Result<(), Fail> {
    for (number, (text, want)) in TEXTS.iter().enumerate() {
        let bytes = bytes_of(rt.alloc(), *text)?;
        let size = size_of(rt.alloc(), text.0, &bytes)?;
        assert!(rt; size == *want, "text {number}");
    }
    Ok(())
}

/// Sizes that fall by one from picture to picture have a segment each.
#[test]
fn falling_sizes_have_this_certificate(rt: HostRuntime) -> Result<(), Fail> {
    let sizes = falling_sizes(rt.alloc())?;
    let text = cert_of(&rt, rt.alloc(), &sizes)?;
    assert!(rt; text == segments_of(rt.alloc(), &sizes)?);
    Ok(())
}
