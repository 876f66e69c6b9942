//! The command `check`: the verdict on a certificate.

ghost use Rattle.std.specs.Prelude.{◌≡◌, None, IfOk, IfErr, OnOk};
ghost use Rattle.cli_args.specs.Invocations.{check_of};
ghost use Rattle.cli_args.specs.InvocationViews.{client_params_of};
ghost use Rattle.cli_args.specs.Ranges.{IsClientInRange};
ghost use Rattle.cli_errors.specs.ReadErrors.{IsReadOnly, IsReadError};
ghost use Rattle.wire_curve.specs.SoundCurves.{AreSound};
ghost use Rattle.offline_commands.specs.Plans.{IsVerdict};
ghost use Rattle.offline_commands.specs.OfflineCommands.{IsOutputOf, IsInputRefused, IsRead};
ghost use Rattle.offline_commands.specs.OfflineCommands.{IsVerdictLine};
ghost use Rattle.offline_commands.specs.TextLaws.{IsShortFault};
ghost use Rattle.offline_commands.specs.VerdictText.{IsFaultText, refused_line};
ghost use Rattle.cli_errors.specs.declared.errors.CliError.{CliError};

use crate::command_output::{CommandOutput, output_with_text};
use crate::curves::client_curves;
use cert_check::{CertFault, check};
use cli_args::ClientParams;
use cli_errors::{CliError, InputError};
use inputs::read_input;
use plan_cert::{CertRead, Segment, read_cert};
use std::alloc::Global;
use vod_base::{Library, NoMemory, push_number};
use wire_curve::Curves;

/// Returns the verdict on a certificate of a trace or film.
///
/// # Errors
///
/// As of [`plan_source`](crate::plan_source); and [`CliError::Refused`] where there is no such
/// certificate, with [`InputError::NotFound`] or [`InputError::BadCert`].
pub fn check_plan<'a, L: Library>(
    alloc: Global,
    library: &mut L,
    viewer: ClientParams<'a>,
    cert: &'a str,
) -> Result<CommandOutput, CliError<'a>>
    requires { IsClientInRange viewer }
    ensures library { IsReadOnly L.files L.faults library.old library.new }
    ensures done { IfOk result (λ done.
        IsOutputOf (L.files library.old) (check_of (client_params_of viewer.entry) cert.entry.now)
        done.status done.text.items done.plan) }
    ensures error { IfErr result
        (IsReadError (IsRead (check_of (client_params_of viewer.entry) cert.entry.now))
        (IsInputRefused (check_of (client_params_of viewer.entry) cert.entry.now))
        (L.files library.old) (L.faults library.old) (L.faults library.new)) }
{
    let curves = client_curves(alloc, library, viewer)?;
    let written = read_input(alloc, library, cert)?;
    let certificate = match read_cert(alloc, &written) {
        Ok(certificate) => certificate,
        Err(CertRead::BadCert { line }) => {
            return Err(CliError::Refused(cert, InputError::BadCert(line)));
        }
        Err(CertRead::NoMemory) => return Err(CliError::NoMemory),
    };
    verdict_output(alloc, &curves, &certificate.segments)
}

/// The verdict on segments.
fn verdict_output<'a>(
    alloc: Global,
    curves: &Curves,
    segments: &[Segment],
) -> Result<CommandOutput, CliError<'a>>
    requires { AreSound curves.now.from curves.now.low.items curves.now.up.items }
    ensures done { IfOk result (λ done. IsVerdictLine done.status done.text.items
        × (done.plan ≡ None)
        × IsVerdict curves.now.from curves.now.low.items curves.now.up.items segments.now
        done.status done.text.items) }
    ensures error { IfErr result (λ error. error ≡ CliError.NoMemory) }
{
    match check(curves, segments) {
        Ok(()) => output_with_text(0, Vec::from_slice(alloc, b"least\n")),
        // A refused certificate is a result and no error. So it goes to the output, with status 1.
        Err(fault) => output_with_text(1, refusal_text(alloc, &fault)),
    }
}

/// The name of a fault and the number that goes with it.
fn cert_fault_parts(fault: &CertFault) -> (&'static str, Option<u64>)
    ensures words { IsFaultText fault.now result.0.now result.1 }
    ensures short { IsShortFault fault.now }
{
    match fault {
        CertFault::EmptySegment(segment) => ("EmptySegment", Some(*segment)),
        CertFault::WrongLength => ("WrongLength", None),
        CertFault::WrongTotal => ("WrongTotal", None),
        CertFault::BelowLow(slot) => ("BelowLow", Some(*slot)),
        CertFault::AboveUp(slot) => ("AboveUp", Some(*slot)),
        CertFault::EqualSlopes(segment) => ("EqualSlopes", Some(*segment)),
        CertFault::RiseOffUpper(segment) => ("RiseOffUpper", Some(*segment)),
        CertFault::FallOffLower(segment) => ("FallOffLower", Some(*segment)),
    }
}

/// The line that names the fault of a certificate.
fn refusal_text(alloc: Global, fault: &CertFault) -> Result<Vec<u8>, NoMemory>
    ensures text { IfOk result (λ text. text.items ≡ refused_line fault.now) }
    ensures short { OnOk result (IsShortFault fault.now) }
{
    let mut text = Vec::from_slice(alloc, b"refused ")?;
    let (name, number) = cert_fault_parts(fault);
    text.extend_from_slice(name.as_bytes())?;
    if let Some(number) = number {
        text.extend_from_slice(b" ")?;
        push_number(&mut text, number)?;
    }
    text.extend_from_slice(b"\n")?;
    Ok(text)
}

#[cfg(test)]
mod tests;
