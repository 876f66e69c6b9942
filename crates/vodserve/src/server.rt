//! A server: its films are loaded, its gate is opened, and its workers are run.

ghost use Rattle.std.specs.Prelude.{◌≡◌, ◌≤◌, IfSome, IfOk, IfErr};
ghost use Rattle.slot_calendar.specs.Profiles.{IsProfile};
ghost use Rattle.film_streams.specs.SettingRanges.{AreFilms};
ghost use Rattle.station.specs.Seats.{first_seat};
ghost use Rattle.cli_args.specs.InvocationViews.{serve_args_of};
ghost use Rattle.cli_args.specs.Ranges.{AreServeArgsInRange};
ghost use Rattle.cli_errors.specs.ReadErrors.{IsReadOnly};
ghost use Rattle.vodserve.specs.ServerOutput.{IsJournal, IsNewlyOpen, IsServeError};
ghost use Rattle.vodserve.specs.WorkerResults.{AreLoaded, HasTooFewParts, IsWorkersResult};
ghost use Rattle.vodserve.specs.WorkerResults.{IsOpenedOnce, opening_of, server_run};
ghost use Rattle.vodserve.specs.IoStates.{gate_state_of, io_state_of};
ghost use Rattle.vodserve.specs.Workers.{IsMakeWorkersError, IsNotOpened};

use crate::served_films::load_films;
use crate::workers::{Service, join_workers, make_workers, run_workers};
use admission::{Book, MAX_ENTRIES};
use cli_args::{MAX_JOURNAL_ENTRIES, ServeArgs, profile_of};
use cli_errors::CliError;
use conn::{ConnReport, PartEnd};
use film_frames::Stored;
use session::Settings;
use slot_calendar::{CapStep, Profile};
use station::{Seat, Station};
use std::alloc::Global;
use std::sync::Wait;
use std::thread::Threads;
use vod_base::{Gate, Library, NoMemory, Opening};

// A journal of any size that the arguments may ask for fits into a book.
const _: () = prove!(MAX_JOURNAL_ENTRIES == MAX_ENTRIES);

/// A server before its workers: its films, and its station with the first seat.
#[derive(Drop)]
pub(crate) struct ServerSetup {
    pub(crate) films: Vec<Stored>,
    pub(crate) station: Station,
    pub(crate) seat: Seat,
}

/// A server after its workers: its book, what is left of its connections, and the worst end of a
/// worker.
#[derive(Drop)]
pub(crate) struct Closed {
    pub(crate) book: Book,
    pub(crate) reports: Vec<ConnReport>,
    pub(crate) end: PartEnd,
}

/// Loads the films, opens the gate and makes the station, in this order.
pub(crate) fn prepare<'a, L: Library, G: Gate>(
    alloc: Global,
    library: &mut L,
    gate: &mut G,
    serving: &ServeArgs<'a>,
) -> Result<ServerSetup, CliError<'a>>
    requires { AreServeArgsInRange serving.now }
    // leaves: files that were only read
    ensures library { IsReadOnly L.files L.faults library.old library.new }
    ensures count { G.faults gate.old ≤ G.faults gate.new }
    // answers: the films in the order of their arguments, and a station that is empty
    ensures films { IfOk result (λ prepared. AreFilms prepared.films.items) }
    ensures loaded { IfOk result (λ prepared. AreLoaded (L.files library.old)
        (serve_args_of serving.entry.now).films prepared.films.items) }
    ensures steps { IfOk result (λ prepared.
        prepared.station.steps ≡ serving.entry.now.capacity) }
    ensures limit { IfOk result (λ prepared.
        prepared.station.limit ≡ serving.entry.now.journal) }
    ensures seat { IfOk result (λ prepared. prepared.seat ≡ first_seat prepared.station) }
    // the gate: opened once, as the arguments say
    ensures opened { IfOk result (λ prepared.
        IsNewlyOpen (opening_of (serve_args_of serving.entry.now)) (G.told gate.new)) }
    ensures once { IfOk result (λ prepared.
        IfSome (G.told gate.new) (IsOpenedOnce (G.told gate.old))) }
    // faults: of a film, of the gate, or out of memory
    ensures error { IfErr result (IsServeError (serve_args_of serving.entry.now)
        (io_state_of L.faults L.files library.old) (io_state_of L.faults L.files library.new)
        (gate_state_of G.faults G.told gate.old) (gate_state_of G.faults G.told gate.new)) }
{
    // Films first: where one is refused, no port was opened.
    let films = load_films(alloc, library, serving.words)?;
    let opening = Opening {
        port: serving.listening.port,
        all: serving.listening.all,
        connections: serving.listening.connections,
        slot_units: serving.planning.slot,
    };
    // Slot 0 begins here, for the calendar as for all connections.
    gate.open(&opening)?;
    let (station, seat) = make_station(alloc, serving.capacity.as_slice(), serving.journal)?;
    Ok(ServerSetup {
        films,
        station,
        seat,
    })
}

/// Runs the workers over the open gate and closes the station. Where a seat or a part can't be made
/// no worker runs, and the parts go back into the gate.
pub(crate) fn run_server<R: Threads + Wait + Sync, G: Gate + Send + Drop>(
    rt: &R,
    alloc: Global,
    gate: &mut G,
    seed: [u8; 32],
    serving: &ServeArgs<'_>,
    prepared: ServerSetup,
) -> Result<Closed, CliError<'static>>
where
    G::Conn: Send,
    // needs: what `prepare` made, with the gate newly open
    requires range { AreServeArgsInRange serving.now }
    requires films { AreFilms prepared.films.items }
    requires steps { prepared.station.steps ≡ serving.now.capacity }
    requires limit { prepared.station.limit ≡ serving.now.journal }
    requires seat { prepared.seat ≡ first_seat prepared.station }
    requires opened { IsNewlyOpen (opening_of (serve_args_of serving.now)) (G.told gate.old) }
    ensures count { G.faults gate.old ≤ G.faults gate.new }
    // answers: a journal within its limit, and what each worker did
    ensures closed { IfOk result (λ closed.
        IsJournal (serve_args_of serving.entry.now) closed.book.entries) }
    ensures worked { IfOk result (λ closed. IsWorkersResult
        (server_run prepared.films.items (serve_args_of serving.entry.now) seed closed.book.entries)
        (gate_state_of G.faults G.told gate.old) (gate_state_of G.faults G.told gate.new)
        closed.end closed.reports.items) }
    // faults: a seat or a part couldn't be made. Then no worker ran.
    ensures error { IfErr result (IsMakeWorkersError (G.faults gate.old) (G.faults gate.new)) }
    ensures since { IfSome (G.told gate.new) (IsNotOpened (G.told gate.old)) }
    ensures few { IfErr result (λ error. IfSome (G.told gate.new)
        (HasTooFewParts (serve_args_of serving.entry.now).listening.workers)) }
{
    let ServerSetup {
        films,
        station,
        mut seat,
    } = prepared;
    let settings = Settings {
        slot_units: serving.planning.slot,
        buffer: serving.planning.buffer,
        startup: serving.planning.delay,
    };
    let mut workers = Vec::new(alloc);
    let mut reports = Vec::new(alloc);
    let count = serving.listening.workers;
    // All workers are made before one runs. So a server serves with all of them, or nobody.
    if let Err(error) = make_workers(alloc, &station, &mut seat, gate, count, &mut workers) {
        // the seats and parts go back to their station and their gate before the error is returned
        let _ = join_workers(&station, &mut seat, gate, workers, &mut reports);
        return Err(error);
    }
    let service = Service {
        station: &station,
        films: films.as_slice(),
        settings: &settings,
        seed,
    };
    run_workers(rt, alloc, service, &mut workers);
    let end = join_workers(&station, &mut seat, gate, workers, &mut reports);
    // Every other seat is joined by now, so nobody else can take the lock.
    let book = station.close(seat);
    // a book's own invariant isn't visible here: only `entries` says that the entries, with
    // the halts to come, are within its limit
    let _within = book.entries();
    Ok(Closed { book, reports, end })
}

/// A station of that capacity, and its first seat.
fn make_station(alloc: Global, steps: &[CapStep], limit: u64) -> Result<(Station, Seat), NoMemory>
    requires profile { IsProfile steps.now }
    requires some { 2 ≤ limit }
    requires few { limit ≤ MAX_ENTRIES }
    ensures steps { IfOk result (λ made. made.0.steps ≡ steps.now) }
    ensures limit { IfOk result (λ made. made.0.limit ≡ limit) }
    ensures seat { IfOk result (λ made. made.1 ≡ first_seat made.0) }
{
    let profile = profile_of(alloc, steps)?;
    Station::new(alloc, profile, limit)
}
