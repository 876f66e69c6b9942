//! The text of a certificate.

ghost use Rattle.std.specs.Prelude.{◌≡◌, ◌++◌, IfOk, OnOk};
ghost use Rattle.plan_cert.specs.CertFormat.{cert_text, cert_head, segment_line};

use crate::{Plan, Segment};
use std::alloc::Global;
use vod_base::{NoMemory, push_field};

/// Writes the certificate of a plan: a line `smooth 1`, `slots` and `bytes` with the sums, one line
/// `segment SLOTS BYTES` for each segment, and a line `end`. Each line ends with LF, and numbers
/// are decimal.
///
/// # Errors
///
/// [`NoMemory`] where there is none for the text.
pub fn write_cert(alloc: Global, plan: &Plan) -> Result<Vec<u8>, NoMemory>
    ensures { IfOk result (λ text. text.items ≡ cert_text plan.now) }
{
    let mut text = head_bytes(alloc, plan.slots(), plan.bytes())?;
    let segments = plan.segments();
    for segment in segments {
        push_segment(&mut text, *segment)?;
    }
    text.extend_from_slice(b"end\n")?;
    Ok(text)
}

/// The three lines before the segments.
fn head_bytes(alloc: Global, slots: u64, bytes: u64) -> Result<Vec<u8>, NoMemory>
    ensures { IfOk result (λ text. text.items ≡ cert_head slots bytes) }
{
    let mut text = Vec::from_slice(alloc, b"smooth 1\n")?;
    push_field(&mut text, b"slots ", slots)?;
    push_field(&mut text, b"\nbytes ", bytes)?;
    text.push(b'\n')?;
    Ok(text)
}

/// Appends the line of one segment.
fn push_segment(text: &mut Vec<u8>, segment: Segment) -> Result<(), NoMemory>
    ensures { OnOk result (text.new.items ≡ text.old.items ++ segment_line segment) }
{
    push_field(text, b"segment ", segment.slots)?;
    push_field(text, b" ", segment.bytes)?;
    text.push(b'\n')?;
    Ok(())
}
