//! The exit status of an error.

ghost use Rattle.std.specs.Prelude.{◌≡◌};
ghost use Rattle.cli_errors.specs.ExitStatuses.{DeterminesCause, status_of};
ghost use Rattle.cli_errors.specs.declared.errors.CliError.{CliError as Cause};

use crate::errors::CliError;

/// Returns the exit status that goes with an error: 2 for arguments without a meaning, 3 for a
/// refused input, 4 for the library, 5 for the output, 6 because memory ran out, 7 for the gate, 8
/// for the link.
pub fn status_of(error: &CliError<'_>) -> u8
    ensures { result ≡ status_of error.now }
{
    match error {
        // 1 isn't here: `check` ends with it where it refuses a certificate, which is no error.
        CliError::Usage => 2,
        CliError::Refused(..) => 3,
        CliError::StoreFault(_) => 4,
        CliError::SinkFault => 5,
        CliError::NoMemory => 6,
        CliError::GateFault => 7,
        CliError::LinkFault => 8,
    }
}

/// A law: each status determines one cause.
pub fn law_exit_status_determines_cause()
    ensures { (error : Cause) → DeterminesCause (status_of error) error }
{}
