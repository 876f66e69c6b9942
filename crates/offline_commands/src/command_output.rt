//! What a command did: its status, its text and its plan, before they are written.

ghost use Rattle.std.specs.Prelude.{◌≡◌, None, Ok, IfOk, IfErr};
ghost use Rattle.cli_errors.specs.declared.errors.CliError.{CliError};

use cli_errors::CliError;
use plan_cert::Plan;

/// What was done, before it is written.
#[derive(Debug, Drop)]
pub struct CommandOutput {
    /// The status to end with: 1 for a refused certificate, else 0.
    pub status: u8,
    /// The text for the output.
    pub text: Vec<u8>,
    /// The plan, where the command makes one.
    pub plan: Option<Plan>,
}

/// Returns the output of a command, where there was memory for its text.
///
/// # Errors
///
/// [`CliError::NoMemory`] where there wasn't.
pub fn output_with_text<'a, F: Drop>(
    status: u8,
    text: Result<Vec<u8>, F>,
) -> Result<CommandOutput, CliError<'a>>
    ensures done { IfOk result (λ done. (done.status ≡ status) × (text ≡ Ok done.text)
        × (done.plan ≡ None)) }
    ensures error { IfErr result (λ error. error ≡ CliError.NoMemory) }
{
    match text {
        Ok(text) => Ok(CommandOutput {
            status,
            text,
            plan: None,
        }),
        Err(_) => Err(CliError::NoMemory),
    }
}
