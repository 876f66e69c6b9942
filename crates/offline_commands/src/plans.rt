//! The command `plan`: the smoothest plan of a trace or film, as a certificate.

ghost use Rattle.std.specs.Prelude.{IfOk, IfErr};
ghost use Rattle.cli_args.specs.Invocations.{plan_of};
ghost use Rattle.cli_args.specs.InvocationViews.{client_params_of};
ghost use Rattle.cli_args.specs.Ranges.{IsClientInRange};
ghost use Rattle.cli_errors.specs.ReadErrors.{IsReadOnly, IsReadError};
ghost use Rattle.offline_commands.specs.OfflineCommands.{IsOutputOf, IsInputRefused, IsRead};

use crate::command_output::CommandOutput;
use crate::curves::client_curves;
use cli_args::ClientParams;
use cli_errors::CliError;
use plan_cert::write_cert;
use std::alloc::Global;
use taut_plan::plan;
use vod_base::Library;

/// Makes the plan of a trace or film, and its certificate.
///
/// # Errors
///
/// [`CliError::Refused`] where the trace or film is missing or refused, or has no curves;
/// [`CliError::StoreFault`] where the library fails; and [`CliError::NoMemory`].
pub fn plan_source<'a, L: Library>(
    alloc: Global,
    library: &mut L,
    viewer: ClientParams<'a>,
) -> Result<CommandOutput, CliError<'a>>
    requires { IsClientInRange viewer }
    ensures library { IsReadOnly L.files L.faults library.old library.new }
    ensures done { IfOk result (λ done.
        IsOutputOf (L.files library.old) (plan_of (client_params_of viewer.entry))
        done.status done.text.items done.plan) }
    ensures error { IfErr result (IsReadError (IsRead (plan_of (client_params_of viewer.entry)))
        (IsInputRefused (plan_of (client_params_of viewer.entry)))
        (L.files library.old) (L.faults library.old) (L.faults library.new)) }
{
    let curves = client_curves(alloc, library, viewer)?;
    let plan = plan(alloc, &curves)?;
    let text = write_cert(alloc, &plan)?;
    Ok(CommandOutput {
        status: 0,
        text,
        plan: Some(plan),
    })
}
