//! The commands of the program, in one call.

ghost use Rattle.std.specs.Prelude.{◌≡◌, ◌≤◌};
ghost use Rattle.cli_args.specs.InvocationViews.{serve_args_of};
ghost use Rattle.cli_args.specs.Ranges.{AreServeArgsInRange};
ghost use Rattle.cli_args.specs.Settings.{texts};
ghost use Rattle.cli_args.specs.Invocations.{invocation_from};
ghost use Rattle.cli_errors.specs.ReadErrors.{IsReadOnly};
ghost use Rattle.vodserve.specs.Run.{RunSpec, ServeSpec};
ghost use Rattle.vodserve.specs.IoStates.{gate_state_of, io_state_of, world};

use crate::days::{day, fair};
use crate::run_results::{Ended, end_with, end_written, print};
use crate::server::{prepare, run_server};
use crate::server_output::end_server;
use crate::watch_command::watch_film;
use cli_args::{Invocation, ServeArgs, parse_args};
use cli_errors::CliError;
use offline_commands::{
    check_plan, help, make, output_with_text, plan_source, version, write_units,
};
use std::alloc::Global;
use std::sync::Wait;
use std::thread::Threads;
use vod_base::{Gate, Library, Sink};

/// Runs the command that the arguments ask for. They come without the program's name.
///
/// Each command's text goes to `out` when all of it is known, and an error's line to `err`. With
/// the statuses 2, 3 and 4 nothing is written to `out`, with 5 a prefix of the text. With 6 and 7
/// nothing is written either, unless `serve` ran its workers: then with 6 a prefix of its text, and
/// with 7 all of it. But `watch` writes the film's bytes to `out` as they come, so that those which
/// came before an error stand there, with the statuses 3, 6 and 8 too; at the film's end it says
/// one line on `err`. A fault of `err` changes no status. `serve` takes its connections from
/// `gate`, and draws their identities from `seed`; `watch` makes its one connection by `gate`. What
/// each command did is stated by its own definition, below `RunSpec` in `specs/Run.antt`.
pub fn run<R: Threads + Wait + Sync, L: Library, O: Sink, E: Sink, G: Gate + Send + Drop>(
    rt: &R,
    alloc: Global,
    words: &[String],
    library: &mut L,
    out: &mut O,
    err: &mut E,
    gate: &mut G,
    seed: [u8; 32],
) -> Ended
where
    G::Conn: Send,
    ensures ran { RunSpec
        (world (io_state_of L.faults L.files library.old) (io_state_of O.faults O.written out.old)
        (io_state_of E.faults E.written err.old) (gate_state_of G.faults G.told gate.old))
        (world (io_state_of L.faults L.files library.new) (io_state_of O.faults O.written out.new)
        (io_state_of E.faults E.written err.new) (gate_state_of G.faults G.told gate.new))
        seed (invocation_from (texts words.now)) result }
{
    let Some(order) = parse_args(words) else {
        return end_with(alloc, err, CliError::Usage);
    };
    match order {
        Invocation::Help => print(alloc, out, err, output_with_text(0, help(alloc))),
        Invocation::Version => print(alloc, out, err, output_with_text(0, version(alloc))),
        Invocation::Plan(viewer) => {
            let done = plan_source(alloc, library, viewer);
            print(alloc, out, err, done)
        }
        Invocation::Check(viewer, cert) => {
            let done = check_plan(alloc, library, viewer, cert);
            print(alloc, out, err, done)
        }
        Invocation::Make(kind, seed, pictures) => {
            print(
                alloc,
                out,
                err,
                output_with_text(0, make(alloc, kind, seed, pictures)),
            )
        }
        Invocation::Scan(film) => {
            let done = write_units(alloc, library, out, film);
            end_written(alloc, err, done)
        }
        Invocation::Day(order) => day(alloc, library, out, err, &order),
        Invocation::Fair(order) => fair(alloc, out, err, &order),
        // Not by `print`: the film's bytes are written as they come.
        Invocation::Watch(watching) => watch_film(alloc, out, err, gate, &watching),
        Invocation::Serve(serving) => serve(rt, alloc, library, out, err, gate, seed, &serving),
    }
}

/// Serves films until no worker takes a connection any more.
fn serve<R: Threads + Wait + Sync, L: Library, O: Sink, E: Sink, G: Gate + Send + Drop>(
    rt: &R,
    alloc: Global,
    library: &mut L,
    out: &mut O,
    err: &mut E,
    gate: &mut G,
    seed: [u8; 32],
    serving: &ServeArgs<'_>,
) -> Ended
where
    G::Conn: Send,
    requires { AreServeArgsInRange serving.now }
    ensures library { IsReadOnly L.files L.faults library.old library.new }
    ensures output { O.faults out.old ≤ O.faults out.new }
    ensures gate { G.faults gate.old ≤ G.faults gate.new }
    ensures serves { ServeSpec
        (world (io_state_of L.faults L.files library.old) (io_state_of O.faults O.written out.old)
        (io_state_of E.faults E.written err.old) (gate_state_of G.faults G.told gate.old))
        (world (io_state_of L.faults L.files library.new) (io_state_of O.faults O.written out.new)
        (io_state_of E.faults E.written err.new) (gate_state_of G.faults G.told gate.new))
        seed (serve_args_of serving.entry.now) result }
{
    let prepared = match prepare(alloc, library, gate, serving) {
        Ok(prepared) => prepared,
        // Nothing was served, so nothing but the error's line is printed.
        Err(error) => return end_with(alloc, err, error),
    };
    match run_server(rt, alloc, gate, seed, serving, prepared) {
        Ok(closed) => end_server(alloc, out, err, closed),
        Err(error) => end_with(alloc, err, error),
    }
}
