//! Arguments and their meanings.

use crate::{
    Invocation, MediaKind, PlanSettings, PlanSource, ServeArgs, keys_of, parse_args,
    subcommand_named,
};
use std::alloc::{AllocError, Global};
use std::test::Fail;

/// The arguments of a line.
fn args_of(alloc: Global, line: &str) -> Result<Vec<String>, AllocError> {
    let mut words = Vec::new(alloc);
    for word in line.split_whitespace() {
        words.push(String::from_str(alloc, word)?)?;
    }
    Ok(words)
}

/// A server's numbers: port, workers, connections, buffer, delay, slot, journal.
fn numbers(serving: &ServeArgs<'_>) -> [u64; 7] {
    [
        u64::from(serving.listening.port),
        u64::from(serving.listening.workers),
        serving.listening.connections,
        serving.planning.buffer,
        serving.planning.delay,
        u64::from(serving.planning.slot),
        serving.journal,
    ]
}

/// Lines of a server, each with its numbers, whether it is bound to all addresses, and how many
/// steps its capacity has.
const SERVERS: &str = "\
serve film=a.mpg|[8554, 32, 0, 1048576, 25, 14400, 65536] false 1
serve port=1 film=b bind=all capacity=0:0,7:10,4611686018427387904:5 film=a \
workers=256 connections=3 buffer=9 startup=0 slot=360 journal=2|\
[1, 256, 3, 9, 0, 360, 2] true 3
serve film=a bind=local capacity=4398046511104|\
[8554, 32, 0, 1048576, 25, 14400, 65536] false 1
";

/// A server as a row of the lines above has it.
fn server_text(alloc: Global, serving: &ServeArgs<'_>) -> Result<String, AllocError> {
    let numbers = numbers(serving);
    let all = serving.listening.all;
    let steps = serving.capacity.as_slice().len();
    format!(in alloc; "{numbers:?} {all} {steps}")
}

/// What the arguments of a line ask for: a server.
fn server_of(alloc: Global, line: &str) -> Option<String> {
    match parse_args(&args_of(alloc, line).ok()?) {
        Some(Invocation::Serve(serving)) => server_text(alloc, &serving).ok(),
        _ => None,
    }
}

/// The first row that doesn't have the server of its line.
fn wrong_server(alloc: Global, rows: &'static str) -> &'static str {
    for row in rows.lines() {
        let (line, want) = row.split_once('|').unwrap_or((row, ""));
        if !is_some_text(&server_of(alloc, line), want) {
            return row;
        }
    }
    ""
}

/// Whether there is this text.
fn is_some_text(found: &Option<String>, want: &str) -> bool {
    matches!(found, Some(text) if text.as_str() == want)
}

#[test]
fn reads_a_server(rt: HostRuntime) {
    assert_eq!(rt; wrong_server(rt.alloc(), SERVERS), "");
}

/// Arguments without a meaning. Those of the first line are none.
const WRONG_WORDS: &str = "
serve
serve film=a film=a
serve film=.a
serve film=a film=b/c
serve film=a trace=b
serve film=a capacity=0
serve film=a capacity=1:5
serve film=a capacity=0:5,0:6
serve film=a capacity=0:5,
serve film=a capacity=0:4398046511105
serve film=a capacity=0:5,4611686018427387905:5
serve film=a bind=any
serve film=a port=0
serve film=a port=65536
serve film=a workers=257
serve film=a journal=1
serve film=a slot=359
serve film=a port=1 port=1
plan buffer=10
plan trace=a film=b
plan trace=../a
plan trace=
plan film=a/b
plan trace=a slot=7200
plan trace=a trace=b
plan film=a film=b
plan film=a slot=360001
plan film=a cert=b
check film=a
check trace=t cert=/etc/passwd
check trace=t cert=.c
check trace=/t cert=c
scan film=a slot=7200
scan film=..
make kind=day seed=1 pictures=1
make kind=film seed=18446744073709551616 pictures=1
make kind=film seed=1 pictures=100001
day
day script=../s
day script=a startup=1
day script=a slot=1
fair seed=1
fair seed=1 plays=0
fair seed=1 plays=1 journal=2
watch film=a film=b
watch film=a\\b
watch film=a bind=all
watch port=1
play film=a
--help plan
";

/// Whether the arguments of a line have no meaning.
fn is_refused(alloc: Global, line: &str) -> bool {
    match args_of(alloc, line) {
        Ok(words) => parse_args(&words).is_none(),
        Err(_) => false,
    }
}

#[test]
fn refuses_wrong_words(rt: HostRuntime) {
    for line in WRONG_WORDS.lines() {
        assert!(rt; is_refused(rt.alloc(), line), "at {line}");
    }
}

/// Whether a server of 64 films is read, with more arguments at the end.
fn takes_films(alloc: Global, more: &str) -> Result<bool, AllocError> {
    let mut line = String::from_str(alloc, "serve")?;
    for number in 0..64 {
        let film = format!(in alloc; " film=f{number}")?;
        line.push_str(film.as_str())?;
    }
    line.push_str(more)?;
    Ok(parse_args(&args_of(alloc, line.as_str())?).is_some())
}

#[test]
fn takes_64_films(rt: HostRuntime) -> Result<(), Fail> {
    let taken = (
        takes_films(rt.alloc(), "")?,
        takes_films(rt.alloc(), " film=another")?,
    );
    assert_eq!(rt; taken, (true, false));
    Ok(())
}

/// The name of a kind of generated material.
fn kind_name(kind: &MediaKind) -> &'static str {
    match kind {
        MediaKind::Film => "film",
        MediaKind::Trace => "trace",
        MediaKind::System => "system",
    }
}

/// The slot length of a film's plan. A trace has none.
fn slot_of(source: &PlanSource<'_>) -> u64 {
    match source {
        PlanSource::Trace(_) => 0,
        PlanSource::Film(_, slot) => u64::from(*slot),
    }
}

/// What an order asks for: its command, a name of its arguments, and its numbers.
fn parts_of<'a>(order: &Invocation<'a>) -> (&'static str, &'a str, [u64; 4]) {
    match order {
        Invocation::Plan(viewer) => {
            let slot = slot_of(&viewer.source);
            (
                "plan",
                viewer.source.name(),
                [slot, viewer.buffer, viewer.delay, 0],
            )
        }
        Invocation::Check(viewer, cert) => ("check", cert, [viewer.delay, 0, 0, 0]),
        Invocation::Scan(film) => ("scan", film, [0; 4]),
        Invocation::Make(kind, seed, pictures) => {
            ("make", kind_name(kind), [*seed, u64::from(*pictures), 0, 0])
        }
        Invocation::Day(run) => ("day", run.script, [run.journal, u64::from(run.slot), 0, 0]),
        Invocation::Fair(run) => ("fair", "", [run.seed, u64::from(run.plays), 0, 0]),
        Invocation::Watch(watching) => {
            let PlanSettings {
                buffer,
                delay,
                slot,
            } = watching.planning;
            let port = u64::from(watching.port);
            (
                "watch",
                watching.film,
                [port, buffer, delay, u64::from(slot)],
            )
        }
        Invocation::Help => ("help", "", [0; 4]),
        Invocation::Version => ("version", "", [0; 4]),
        Invocation::Serve(serving) => ("serve", "", [serving.journal, 0, 0, 0]),
    }
}

/// What the arguments of a line ask for, as a text.
fn asked(alloc: Global, line: &str) -> Option<String> {
    let words = args_of(alloc, line).ok()?;
    let (command, name, numbers) = parts_of(&parse_args(&words)?);
    format!(in alloc; "{command} {name} {numbers:?}").ok()
}

/// Lines, each with what it asks for: the command, a name, and numbers.
const COMMANDS: &str = "\
plan trace=t|plan t [0, 1048576, 25, 0]
plan startup=0 slot=7200 film=b.mpg|plan b.mpg [7200, 1048576, 0, 0]
plan film=b.mpg|plan b.mpg [14400, 1048576, 25, 0]
check cert=c film=b slot=360|check c [25, 0, 0, 0]
scan film=a|scan a [0, 0, 0, 0]
make pictures=250 seed=1 kind=system|make system [1, 250, 0, 0]
day script=s journal=2|day s [2, 14400, 0, 0]
fair seed=7 plays=2000 capacity=0:0|fair  [7, 2000, 0, 0]
serve film=a|serve  [65536, 0, 0, 0]
watch film=a port=9 buffer=1 startup=2 slot=360|watch a [9, 1, 2, 360]
--help|help  [0, 0, 0, 0]
--version|version  [0, 0, 0, 0]
";

/// The first row whose line doesn't ask for what it says.
fn wrong_command(alloc: Global, rows: &'static str) -> &'static str {
    for row in rows.lines() {
        let (line, want) = row.split_once('|').unwrap_or((row, ""));
        if !is_some_text(&asked(alloc, line), want) {
            return row;
        }
    }
    ""
}

#[test]
fn reads_each_command(rt: HostRuntime) {
    assert_eq!(rt; wrong_command(rt.alloc(), COMMANDS), "");
}

#[test]
fn tells_the_keys_of_a_command(rt: HostRuntime) -> Result<(), Fail> {
    let Some(command) = subcommand_named("fair") else {
        return Err(Fail::from("no command"));
    };
    assert_eq!(rt; keys_of(command), ["seed", "plays", "capacity"].as_slice());
    assert!(rt; subcommand_named("--help").is_none());
    Ok(())
}
