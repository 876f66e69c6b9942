//! How a run ends, and what it leaves.

ghost use Rattle.std.specs.Prelude.{◌≡◌, ◌≤◌, None, IfErr};
ghost use Rattle.cli_errors.specs.ErrorReports.{HasGoodName};
ghost use Rattle.vodserve.specs.Run.{EndResult, FailsWith, HasServedNothing, PrintResult};
ghost use Rattle.vodserve.specs.IoStates.{io_state_of, streams};

use admission::Entry;
use cli_errors::{CliError, status_of, write_error};
use conn::ConnReport;
use offline_commands::CommandOutput;
use plan_cert::Plan;
use std::alloc::Global;
use vod_base::Sink;

/// How a run ended.
#[derive(Debug, Drop)]
pub struct Ended {
    /// The exit status: 0 done, 1 a certificate was refused, 2 the arguments mean nothing, 3 an
    /// input is refused, 4 the library failed, 5 the output failed, 6 out of memory, 7 the gate
    /// failed, 8 the link to a server failed.
    pub status: u8,
    /// The plan, for `plan` with status 0.
    pub plan: Option<Plan>,
    /// The journal of a server, and of `day` and `fair`.
    pub journal: Vec<Entry>,
    /// What is left of a server's connections: those of worker 0, then of worker 1, and so on.
    pub reports: Vec<ConnReport>,
}

impl Ended {
    /// An end with that status alone: without a plan, and with nothing served.
    pub(crate) fn with_status(alloc: Global, status: u8) -> Ended
        ensures status { result.status ≡ status }
        ensures no_plan { result.plan ≡ None }
        ensures nothing { HasServedNothing result }
    {
        Ended {
            status,
            plan: None,
            journal: Vec::new(alloc),
            reports: Vec::new(alloc),
        }
    }
}

/// Ends with an error: says its line, whose own faults change nothing.
pub(crate) fn end_with<E: Sink>(alloc: Global, err: &mut E, error: CliError<'_>) -> Ended
    requires { HasGoodName error }
    ensures fails { FailsWith
        (io_state_of E.faults E.written err.old) (io_state_of E.faults E.written err.new)
        error.entry result }
    ensures nothing { HasServedNothing result }
{
    let status = status_of(&error);
    // There is no further stream to report a fault of this one on.
    let _ = write_error(err, error);
    Ended::with_status(alloc, status)
}

/// Ends a command that has written its text, or says the error that prevented it.
pub(crate) fn end_written<E: Sink>(
    alloc: Global,
    err: &mut E,
    done: Result<(), CliError<'_>>,
) -> Ended
    requires { IfErr done HasGoodName }
    ensures ended { EndResult
        (io_state_of E.faults E.written err.old) (io_state_of E.faults E.written err.new)
        done.entry result }
    ensures nothing { HasServedNothing result }
{
    match done {
        Ok(()) => Ended::with_status(alloc, 0),
        Err(error) => end_with(alloc, err, error),
    }
}

/// Writes the text of what was done, or the error that prevented it.
pub(crate) fn print<O: Sink, E: Sink>(
    alloc: Global,
    out: &mut O,
    err: &mut E,
    done: Result<CommandOutput, CliError<'_>>,
) -> Ended
    requires { IfErr done HasGoodName }
    ensures printed { PrintResult
        (streams (io_state_of O.faults O.written out.old) (io_state_of O.faults O.written out.new)
        (io_state_of E.faults E.written err.old) (io_state_of E.faults E.written err.new))
        done.entry result }
    ensures count { O.faults out.old ≤ O.faults out.new }
    ensures nothing { HasServedNothing result }
{
    let done = match done {
        Ok(done) => done,
        Err(error) => return end_with(alloc, err, error),
    };
    // The text is complete here: a command that fails has printed no half of it.
    match out.write_all(&done.text) {
        Ok(()) => {
            let mut ended = Ended::with_status(alloc, done.status);
            ended.plan = done.plan;
            ended
        }
        Err(_) => end_with(alloc, err, CliError::SinkFault),
    }
}
