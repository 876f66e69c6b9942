//! `vodserve`: a video-on-demand server for RTSP 1.0 (RFC 2326) that sends each film by its optimal
//! smoothing plan.
#![tactic(auto)]

mod days;
mod laws;
mod meter_line;
mod program;
mod run;
mod run_results;
mod served_films;
mod server;
mod server_output;
#[cfg(test)]
mod tests;
mod text_laws;
mod watch_command;
mod workers;

use crate::program::run_program;
use net_edge::{DialGate, FileLibrary, OutSink, TcpGate, TcpPort};
use startup::{SystemBytes, exit_code, program_args};
use std::process::ExitCode;

/// Carries out the arguments of the command line over the files of the current folder, the
/// standard streams, and the sockets and random bytes of the system.
fn main(rt: HostRuntime) -> ExitCode {
    let mut library = FileLibrary::new(&rt, rt.alloc());
    let mut out = OutSink::new(rt.stdout());
    let mut err = OutSink::new(rt.stderr());
    // Neither gate opens a socket before it is opened, so both can be made for each command. Which
    // one a command gets is decided below, where it is proved.
    let mut listening = TcpGate::new(TcpPort::new(&rt, rt.alloc()));
    let mut dialing = DialGate::new(&rt, rt.alloc());
    let mut random = SystemBytes::new(&rt);
    let ended = run_program(
        &rt,
        rt.alloc(),
        program_args(&rt),
        &mut library,
        &mut out,
        &mut err,
        &mut listening,
        &mut dialing,
        &mut random,
    );
    exit_code(ended.status)
}
