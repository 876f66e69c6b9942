//! The command `watch`.

ghost use Rattle.std.specs.Prelude.{◌≡◌, ◌≤◌, true, IfSome, IfOk, OnErr, OnOk, option_map};
ghost use Rattle.vod_base.specs.Names.{good_name};
ghost use Rattle.vod_base.specs.IoState.{HasRisen};
ghost use Rattle.vod_base.specs.Gates.{Failed, after_empty_take};
ghost use Rattle.rtsp_client.specs.WatchRequests.{IsWish};
ghost use Rattle.cli_args.specs.InvocationViews.{watch_args_of};
ghost use Rattle.cli_args.specs.Ranges.{AreWatchArgsInRange};
ghost use Rattle.conn.specs.Parts.{IsUntouched};
ghost use Rattle.vodserve.specs.Run.{WatchEndSpec, HasServedNothing, PrintsWatched, WatchSpec};
ghost use Rattle.vodserve.specs.IoStates.{gate_state_of, io_state_of, streams};
ghost use Rattle.vodserve.specs.WatchSpec.{Hears, HearsPart, IsWishOf, opening_at, refusal_of};
ghost use Rattle.vodserve.specs.WorkerResults.{HasTooFewParts, IsOpenAs, IsOpenedOnce};

use crate::meter_line::write_watched;
use crate::run_results::{Ended, end_with};
use cli_args::WatchArgs;
use cli_errors::{CliError, InputError};
use rtsp_client::{WatchEnd, WatchFault, Watched, Wish, watch};
use std::alloc::Global;
use vod_base::{Gate, GateFault, NoMemory, Opening, Sink};

/// Watches a film that a server plays: writes the film's bytes as they come, and says at the end
/// what the meter of the client's buffer read.
pub(crate) fn watch_film<O: Sink, E: Sink, G: Gate + Drop>(
    alloc: Global,
    out: &mut O,
    err: &mut E,
    gate: &mut G,
    watching: &WatchArgs<'_>,
) -> Ended
    requires { AreWatchArgsInRange watching.now }
    ensures output { O.faults out.old ≤ O.faults out.new }
    ensures gate { G.faults gate.old ≤ G.faults gate.new }
    ensures watches { WatchSpec
        (streams (io_state_of O.faults O.written out.old) (io_state_of O.faults O.written out.new)
        (io_state_of E.faults E.written err.old) (io_state_of E.faults E.written err.new))
        (gate_state_of G.faults G.told gate.old) (gate_state_of G.faults G.told gate.new)
        (watch_args_of watching.entry.now) result }
{
    let Ok(wish) = wish_of(alloc, watching) else {
        return end_with(alloc, err, CliError::NoMemory);
    };
    match watch_gate(alloc, out, gate, &wish) {
        Ok(Some(end)) => end_watch(alloc, err, watching.film, end),
        Ok(None) => end_with(
            alloc,
            err,
            CliError::Refused(watching.film, InputError::NoConnection),
        ),
        Err(_) => end_with(alloc, err, CliError::GateFault),
    }
}

/// The refusal that comes of a server's fault.
fn refusal_of(fault: WatchFault) -> InputError
    ensures { result ≡ refusal_of fault }
{
    match fault {
        WatchFault::Refused(code) => InputError::RefusedWith(code),
        WatchFault::BadReply(number) => InputError::BadReply(number),
        WatchFault::BadFrame(number) => InputError::BadFrame(number),
        WatchFault::Framing => InputError::Framing,
        WatchFault::EndedEarly(pictures) => InputError::EndedEarly(pictures),
        WatchFault::TurnsSpent => InputError::TurnsSpent,
    }
}

/// What the arguments wish for.
fn wish_of(alloc: Global, watching: &WatchArgs<'_>) -> Result<Wish, NoMemory>
    requires { AreWatchArgsInRange watching.now }
    ensures wish { IfOk result IsWish }
    ensures words { IfOk result (IsWishOf (watch_args_of watching.entry.now)) }
{
    Ok(Wish {
        name: String::from_str(alloc, watching.film)?,
        port: watching.port,
        buffer: watching.planning.buffer,
        startup: watching.planning.delay,
        slot_units: watching.planning.slot,
    })
}

/// Watches over the first connection of a part, or returns None where it gives none.
fn watch_part<O: Sink, G: Gate>(
    alloc: Global,
    out: &mut O,
    part: &mut G,
    wish: &Wish,
) -> Result<Option<WatchEnd>, GateFault>
    // needs: a wish in range, and a part that gave nothing yet
    requires wish { IsWish wish.now }
    requires untouched { IfSome (G.told part.old) IsUntouched }
    // faults: of the part, and then the output is as it was
    ensures count { G.faults part.old ≤ G.faults part.new }
    ensures output { O.faults out.old ≤ O.faults out.new }
    ensures fault { OnErr result (HasRisen (G.faults part.old) (G.faults part.new)) }
    ensures kept { OnErr result
        (io_state_of O.faults O.written out.new ≡ io_state_of O.faults O.written out.old) }
    ensures lost { OnErr result (G.told part.new ≡
        option_map (after_empty_take Failed) (G.told part.old)) }
    // answers: how the watch ended, or that there was no connection
    ensures heard { IfOk result (HearsPart wish.entry.now (G.told part.old) (G.told part.new)
        (io_state_of O.faults O.written out.old) (io_state_of O.faults O.written out.new)) }
{
    let Some(mut link) = part.take()? else {
        return Ok(None);
    };
    let end = watch(alloc, wish, &mut link, out);
    part.give_back(link);
    Ok(Some(end))
}

/// Opens the gate as the arguments say, and watches over the connection that it gives, or returns
/// None where it gives none.
fn watch_gate<O: Sink, G: Gate + Drop>(
    alloc: Global,
    out: &mut O,
    gate: &mut G,
    wish: &Wish,
) -> Result<Option<WatchEnd>, GateFault>
    requires { IsWish wish.now }
    // faults: of the gate, and then the output is as it was
    ensures count { G.faults gate.old ≤ G.faults gate.new }
    ensures output { O.faults out.old ≤ O.faults out.new }
    ensures fault { OnErr result (HasRisen (G.faults gate.old) (G.faults gate.new)) }
    ensures kept { OnErr result
        (io_state_of O.faults O.written out.new ≡ io_state_of O.faults O.written out.old) }
    // leaves: a gate that was opened once, as the wish says
    ensures opened { OnOk result (IsOpenAs (opening_at wish.entry.now.port
        wish.entry.now.slot_units) (G.told gate.new)) }
    ensures once { IfSome (G.told gate.new) (IsOpenedOnce (G.told gate.old)) }
    ensures few { OnErr result (IfSome (G.told gate.new) (HasTooFewParts 2)) }
    // answers: how the watch ended, or that there was no connection
    ensures heard { IfOk result (Hears wish.entry.now (G.told gate.new)
        (io_state_of O.faults O.written out.old) (io_state_of O.faults O.written out.new)) }
{
    let opening = Opening {
        port: wish.port,
        all: false,
        // A session ends with its connection, so a watch needs no second one.
        connections: 1,
        slot_units: wish.slot_units,
    };
    gate.open(&opening)?;
    let mut part = gate.split()?;
    let heard = watch_part(alloc, out, &mut part, wish);
    // Before the fault is passed on: the part's faults must count at the gate, which is blamed.
    gate.rejoin(part);
    heard
}

/// Ends with what the meter of the client's buffer read.
fn end_with_meter<E: Sink>(alloc: Global, err: &mut E, watched: Watched) -> Ended
    ensures nothing { HasServedNothing result }
    ensures says { PrintsWatched
        (io_state_of E.faults E.written err.old) (io_state_of E.faults E.written err.new)
        watched result }
{
    // A fault of the error stream changes no status: the film has come.
    let _ = write_watched(err, watched);
    Ended::with_status(alloc, 0)
}

/// Ends a watching: prints what the meter read, or the error that came before the film's end.
fn end_watch<E: Sink>(alloc: Global, err: &mut E, film: &str, end: WatchEnd) -> Ended
    requires { good_name film.now ≡ true }
    ensures nothing { HasServedNothing result }
    ensures ends { WatchEndSpec
        (io_state_of E.faults E.written err.old) (io_state_of E.faults E.written err.new)
        film.entry.now end result }
{
    match end {
        WatchEnd::Done(watched) => end_with_meter(alloc, err, watched),
        WatchEnd::Fault(fault) => {
            let refusal = refusal_of(fault);
            end_with(alloc, err, CliError::Refused(film, refusal))
        }
        WatchEnd::LinkFault => end_with(alloc, err, CliError::LinkFault),
        WatchEnd::SinkFault => end_with(alloc, err, CliError::SinkFault),
        WatchEnd::NoMemory => end_with(alloc, err, CliError::NoMemory),
    }
}
