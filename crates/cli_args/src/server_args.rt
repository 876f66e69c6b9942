//! A server's settings.

ghost use Rattle.std.specs.Prelude.{◌≡◌, option_map, IfSome};
ghost use Rattle.cli_args.specs.Settings.{texts};
ghost use Rattle.cli_args.specs.Invocations.{listen_given, planning_given, serve_args_given};
ghost use Rattle.cli_args.specs.Invocations.{watch_args_given};
ghost use Rattle.cli_args.specs.InvocationViews.{serve_args_of, watch_args_of};
ghost use Rattle.cli_args.specs.Ranges.{AreServeArgsInRange, AreWatchArgsInRange};
ghost use Rattle.cli_args.specs.ArgumentText.{ArePlanSettings, AreListenSettings};

use crate::film_names::are_films;
use crate::invocations::{ListenSettings, PlanSettings, ServeArgs, WatchArgs};
use crate::key_values::{
    buffer_given, capacity_given, connections_given, delay_given, film_given, journal_given,
    one_bind, port_given, slot_given, workers_given,
};

/// Reads the server that the arguments describe.
pub(crate) fn serve_args_given<'a>(words: &'a [String]) -> Option<ServeArgs<'a>>
    ensures serving { option_map serve_args_of result ≡ serve_args_given (texts words.entry.now) }
    ensures range { IfSome result AreServeArgsInRange }
{
    // Only judged here. The names are read from the arguments again when the films are loaded, so
    // no list of them takes memory.
    if !are_films(words) {
        return None;
    }
    let capacity = capacity_given(words)?;
    let journal = journal_given(words)?;
    let listening = listen_given(words)?;
    let planning = planning_given(words)?;
    Some(ServeArgs {
        words,
        capacity,
        journal,
        listening,
        planning,
    })
}

/// Reads the film that the arguments have played and checked.
pub(crate) fn watch_args_given<'a>(words: &'a [String]) -> Option<WatchArgs<'a>>
    ensures watching { option_map watch_args_of result ≡ watch_args_given (texts words.entry.now) }
    ensures range { IfSome result AreWatchArgsInRange }
{
    let film = film_given(words)?;
    let port = port_given(words)?;
    let planning = planning_given(words)?;
    Some(WatchArgs {
        film,
        port,
        planning,
    })
}

/// Reads where a server listens by the arguments.
fn listen_given(words: &[String]) -> Option<ListenSettings>
    ensures listening { result ≡ listen_given (texts words.now) }
    ensures range { IfSome result AreListenSettings }
{
    let port = port_given(words)?;
    let all = one_bind(words, "bind")?;
    let workers = workers_given(words)?;
    let connections = connections_given(words)?;
    Some(ListenSettings {
        port,
        all,
        workers,
        connections,
    })
}

/// Reads the arguments' client, and their slot length.
fn planning_given(words: &[String]) -> Option<PlanSettings>
    ensures planning { result ≡ planning_given (texts words.now) }
    ensures range { IfSome result ArePlanSettings }
{
    let buffer = buffer_given(words)?;
    let delay = delay_given(words)?;
    let slot = slot_given(words)?;
    Some(PlanSettings {
        buffer,
        delay,
        slot,
    })
}
