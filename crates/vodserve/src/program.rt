//! The program: what its command needs of the machine, and then the command.

ghost use Rattle.std.specs.Prelude.{◌≡◌, Option, Some, None, true, IfOk, OnErr};
ghost use Rattle.cli_args.specs.Invocations.{Invocation as Asked, ServeArgs, WatchArgs};
ghost use Rattle.cli_args.specs.Invocations.{invocation_from, serve_of, watch_of};
ghost use Rattle.cli_args.specs.Settings.{texts};
ghost use Rattle.vodserve.specs.IoStates.{gate_state_of, io_state_of};
ghost use Rattle.vodserve.specs.Program.{HasNoArguments, ProgramSpec, drawn_if, machine};
ghost use Rattle.vodserve.specs.Program.{is_serve, is_watch};

use crate::run::run;
use crate::run_results::{Ended, end_with};
use cli_args::{Invocation, parse_args};
use cli_errors::CliError;
use net_edge::{DialGate, TcpGate};
use startup::{ByteSource, NoRandomBytes, draw_seed};
use std::alloc::{AllocError, Global};
use std::net::{Net, TcpListener, TcpStream};
use std::sync::Wait;
use std::thread::Threads;
use std::time::Clock;
use vod_base::{Gate, Library, Sink};

/// A gate that connections come to, as a server needs it. It and [`DialingGate`] are two traits, so
/// that `main` can't exchange the two gates.
pub trait ListeningGate {}

/// A gate that makes a connection, as a client needs it.
pub trait DialingGate {}

impl<R: Net<Listener = TcpListener, Stream = TcpStream> + Clock> ListeningGate for TcpGate<'_, R> {}

impl<R: Net<Listener = TcpListener, Stream = TcpStream> + Clock> DialingGate for DialGate<'_, R> {}

/// The seed of a command that draws none: only a server uses one.
const NO_SEED: [u8; 32] = [0; 32];

/// Carries out the arguments of the command line, if there was memory for them. `watch` goes
/// through the gate that dials, and every other command through the gate that listens. A server's
/// seed is the next 32 bytes of `random`; where there are none, the server ends with status 7.
pub fn run_program<R, L, O, E, S, D, B>(
    rt: &R,
    alloc: Global,
    args: Result<Vec<String>, AllocError>,
    library: &mut L,
    out: &mut O,
    err: &mut E,
    listening: &mut S,
    dialing: &mut D,
    random: &mut B,
) -> Ended
where
    R: Threads + Wait + Sync,
    L: Library,
    O: Sink,
    E: Sink,
    S: Gate + ListeningGate + Send + Drop,
    S::Conn: Send,
    D: Gate + DialingGate + Send + Drop,
    D::Conn: Send,
    B: ByteSource,
    ensures ran { IfOk args (λ words. ProgramSpec
        (machine (io_state_of L.faults L.files library.old) (io_state_of O.faults O.written out.old)
        (io_state_of E.faults E.written err.old) (gate_state_of S.faults S.told listening.old)
        (gate_state_of D.faults D.told dialing.old) (drawn_if B.tells (B.drawn random.old)))
        (machine (io_state_of L.faults L.files library.new) (io_state_of O.faults O.written out.new)
        (io_state_of E.faults E.written err.new) (gate_state_of S.faults S.told listening.new)
        (gate_state_of D.faults D.told dialing.new) (drawn_if B.tells (B.drawn random.new)))
        (invocation_from (texts words.items)) result) }
    ensures no_arguments { OnErr args (HasNoArguments
        (machine (io_state_of L.faults L.files library.old) (io_state_of O.faults O.written out.old)
        (io_state_of E.faults E.written err.old) (gate_state_of S.faults S.told listening.old)
        (gate_state_of D.faults D.told dialing.old) (drawn_if B.tells (B.drawn random.old)))
        (machine (io_state_of L.faults L.files library.new) (io_state_of O.faults O.written out.new)
        (io_state_of E.faults E.written err.new) (gate_state_of S.faults S.told listening.new)
        (gate_state_of D.faults D.told dialing.new) (drawn_if B.tells (B.drawn random.new)))
        result) }
{
    let words = match args {
        Ok(words) => words,
        Err(_) => return end_with(alloc, err, CliError::NoMemory),
    };
    if is_watch(&words) {
        return run(rt, alloc, &words, library, out, err, dialing, NO_SEED);
    }
    // Only a server draws: the other commands don't fail where there are no random bytes.
    if !is_serve(&words) {
        return run(rt, alloc, &words, library, out, err, listening, NO_SEED);
    }
    match draw_seed(random) {
        Ok(seed) => run(rt, alloc, &words, library, out, err, listening, seed),
        // With a seed that is known the session ids could be guessed. So no server runs without
        // one.
        Err(NoRandomBytes) => end_with(alloc, err, CliError::GateFault),
    }
}

/// Whether the arguments ask for a film of a server.
fn is_watch(words: &[String]) -> bool
    ensures { result ≡ is_watch (invocation_from (texts words.now)) }
{
    matches!(parse_args(words), Some(Invocation::Watch(_)))
}

/// Whether the arguments ask for a server.
fn is_serve(words: &[String]) -> bool
    ensures { result ≡ is_serve (invocation_from (texts words.now)) }
{
    matches!(parse_args(words), Some(Invocation::Serve(_)))
}

/// A law: the command that dials is `watch`, and the command that draws a seed is `serve`.
pub fn law_commands_get_what_they_need()
    ensures watch { (asked : Option Asked) → is_watch asked ≡ true →
        (w : WatchArgs) × (asked ≡ Some (watch_of w)) }
    ensures watches { (w : WatchArgs) → is_watch (Some (watch_of w)) ≡ true }
    ensures serve { (asked : Option Asked) → is_serve asked ≡ true →
        (s : ServeArgs) × (asked ≡ Some (serve_of s)) }
    ensures serves { (s : ServeArgs) → is_serve (Some (serve_of s)) ≡ true }
{}
