//! The line of an error.

ghost use Rattle.std.specs.Prelude.{◌≡◌, is_ok};
ghost use Rattle.cli_errors.specs.StreamWrites.{IsTextWritten, with_label};
ghost use Rattle.cli_errors.specs.ErrorLines.{refusal_text, error_text};
ghost use Rattle.cli_errors.specs.ErrorReports.{HasGoodName, HasShortNumbers, IsErrorLine};
ghost use Rattle.cli_errors.specs.ErrorReports.{IsPrintableError, error_report_of};
ghost use Rattle.cli_errors.specs.declared.errors.CliError.{CliError as Cause};

use crate::error_causes::write_input_cause;
use crate::errors::{CliError, InputError};
use crate::parts::write_parts;
use vod_base::{Sink, SinkFault};

/// Writes one error line. It takes no memory. An input with a good name makes it a line that
/// [`law_error_line_determines_error`] speaks of.
///
/// # Errors
///
/// [`SinkFault`] where a write fails: then a prefix of the line was written.
pub fn write_error<S: Sink>(sink: &mut S, error: CliError<'_>) -> Result<(), SinkFault>
    ensures said { IsTextWritten (S.faults sink.old) (S.faults sink.new) (S.written sink.old)
        (S.written sink.new) (error_text error.entry) (is_ok result) }
    ensures may { HasGoodName error.entry → IsPrintableError error.entry }
{
    match error {
        CliError::Usage => write_parts(sink, &[b"vodserve: usage\n"]),
        CliError::Refused(name, fault) => write_input_error(sink, name, fault),
        // A good name has no blank, no `:` and no line end. So the line is one line, and its parts
        // can be told apart.
        CliError::StoreFault(name) => {
            write_parts(sink, &[b"vodserve: ", name.as_bytes(), b": StoreFault\n"])
        }
        CliError::SinkFault => write_parts(sink, &[b"vodserve: SinkFault\n"]),
        CliError::NoMemory => write_parts(sink, &[b"vodserve: NoMemory\n"]),
        CliError::GateFault => write_parts(sink, &[b"vodserve: GateFault\n"]),
        CliError::LinkFault => write_parts(sink, &[b"vodserve: LinkFault\n"]),
    }
}

/// Writes a blank, a label, `=` and a number. It takes no memory.
///
/// # Errors
///
/// [`SinkFault`] where a write fails: then a prefix of that was written.
pub fn write_number<S: Sink>(sink: &mut S, label: &str, number: u64) -> Result<(), SinkFault>
    ensures { IsTextWritten (S.faults sink.old) (S.faults sink.new) (S.written sink.old)
        (S.written sink.new) (with_label label.now number) (is_ok result) }
{
    // On the stack: an error is written when memory is out, too.
    let mut buffer = itoa::Buffer::new();
    let digits = buffer.format(number).as_bytes();
    write_parts(sink, &[b" ", label.as_bytes(), b"=", digits])
}

/// A law: the line of an error is one line of the program's own, and determines its cause: errors
/// with the same line have the same cause, and with it the same input and the same refusal, with
/// the same numbers.
pub fn law_error_line_determines_error()
    ensures own { (error : Cause) → IsPrintableError error → IsErrorLine (error_text error) }
    ensures tells { (error error' : Cause) → IsPrintableError error → IsPrintableError error' →
        error_text error ≡ error_text error' → error_report_of error ≡ error_report_of error' }
{}

/// Says that an input is refused.
fn write_input_error<S: Sink>(sink: &mut S, name: &str, fault: InputError) -> Result<(), SinkFault>
    ensures said { IsTextWritten (S.faults sink.old) (S.faults sink.new) (S.written sink.old)
        (S.written sink.new) (refusal_text name.now fault) (is_ok result) }
    ensures short { HasShortNumbers fault }
{
    write_parts(sink, &[b"vodserve: ", name.as_bytes(), b": "])?;
    write_input_cause(sink, fault)?;
    write_parts(sink, &[b"\n"])
}
