//! The commands `day` and `fair`.

ghost use Rattle.std.specs.Prelude.{◌≡◌, ◌≤◌, None, [], List, ℕ};
ghost use Rattle.cli_args.specs.InvocationViews.{script_run_of};
ghost use Rattle.cli_args.specs.Ranges.{IsFairRunInRange, IsScriptRunInRange};
ghost use Rattle.cli_errors.specs.ReadErrors.{IsReadOnly};
ghost use Rattle.vodserve.specs.Run.{IsWritten, DaySpec, FairSpec};
ghost use Rattle.vodserve.specs.IoStates.{io_state_of, streams};

use crate::run_results::{Ended, end_with};
use cli_args::{FairRun, ScriptRun};
use cli_errors::CliError;
use day_run::Day;
use offline_commands::{load_script, load_sources, run_day, run_fair};
use std::alloc::Global;
use vod_base::{Library, NoMemory, Sink};

/// Runs a script: reads it and what it names, runs it and prints what it printed.
pub(crate) fn day<L: Library, O: Sink, E: Sink>(
    alloc: Global,
    library: &mut L,
    out: &mut O,
    err: &mut E,
    run: &ScriptRun<'_>,
) -> Ended
    requires { IsScriptRunInRange run.now }
    ensures library { IsReadOnly L.files L.faults library.old library.new }
    ensures count { O.faults out.old ≤ O.faults out.new }
    ensures runs { DaySpec
        (io_state_of L.faults L.files library.old) (io_state_of L.faults L.files library.new)
        (streams (io_state_of O.faults O.written out.old) (io_state_of O.faults O.written out.new)
        (io_state_of E.faults E.written err.old) (io_state_of E.faults E.written err.new))
        (script_run_of run.now) result }
{
    let script = match load_script(alloc, library, run.script) {
        Ok(script) => script,
        Err(error) => return end_with(alloc, err, error),
    };
    // After the script was judged: a bad line is reported before any film is read.
    let sources = match load_sources(alloc, library, &script.named) {
        Ok(sources) => sources,
        Err(error) => return end_with(alloc, err, error),
    };
    match run_day(alloc, run, &script, &sources) {
        Ok(day) => end_day(alloc, out, err, day),
        Err(NoMemory) => end_with(alloc, err, CliError::NoMemory),
    }
}

/// Runs drawn plays, and prints what they came to.
pub(crate) fn fair<O: Sink, E: Sink>(
    alloc: Global,
    out: &mut O,
    err: &mut E,
    run: &FairRun,
) -> Ended
    requires { IsFairRunInRange run.now }
    ensures count { O.faults out.old ≤ O.faults out.new }
    ensures runs { FairSpec
        (streams (io_state_of O.faults O.written out.old) (io_state_of O.faults O.written out.new)
        (io_state_of E.faults E.written err.old) (io_state_of E.faults E.written err.new))
        run.now result }
{
    match run_fair(alloc, run) {
        Ok(day) => end_day(alloc, out, err, day),
        Err(NoMemory) => end_with(alloc, err, CliError::NoMemory),
    }
}

/// Prints what a day printed, and hands its journal out.
fn end_day<O: Sink, E: Sink>(alloc: Global, out: &mut O, err: &mut E, day: Day) -> Ended
    ensures journal { result.journal ≡ day.journal }
    ensures reports { result.reports.items ≡ [] }
    ensures count { O.faults out.old ≤ O.faults out.new }
    ensures written { IsWritten
        (streams (io_state_of O.faults O.written out.old) (io_state_of O.faults O.written out.new)
        (io_state_of E.faults E.written err.old) (io_state_of E.faults E.written err.new))
        day.text.items 0 None result }
{
    let Day { text, journal } = day;
    let mut ended = match out.write_all(&text) {
        Ok(()) => Ended::with_status(alloc, 0),
        Err(_) => end_with(alloc, err, CliError::SinkFault),
    };
    // Also where the output failed: the day was run.
    ended.journal = journal;
    ended
}
