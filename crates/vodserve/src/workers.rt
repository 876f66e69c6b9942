//! The workers of a server: each serves the connections of its part of the gate.

ghost use Rattle.std.specs.Prelude.{◌≡◌, ◌<◌, ◌≤◌, ◌⊎◌, ◌++◌, ◌∷◌, [], List, length, map, All};
ghost use Rattle.std.specs.Prelude.{IfSome, IfErr, OnOk};
ghost use Rattle.vod_base.specs.IoState.{HasRisen};
ghost use Rattle.vod_base.specs.declared.gates.Opening.{Opening};
ghost use Rattle.session.specs.SessionStates.{AreFilms, AreSettings};
ghost use Rattle.station.specs.Seats.{first_seat};
ghost use Rattle.conn.specs.declared.reports.PartReport.{PartReport};
ghost use Rattle.vodserve.specs.ServerOutput.{IsNewlyOpen};
ghost use Rattle.vodserve.specs.WorkerResults.{AreLeft, IsOpenAs, IsWorse};
ghost use Rattle.vodserve.specs.Workers.{AreJoined, ArePartsOut, AreWorkers, HasFinished, IsFresh};
ghost use Rattle.vodserve.specs.Workers.{IsMakeWorkersError, IsNotOpened, IsWorker, report_of};
ghost use Rattle.vodserve.specs.Workers.{split_seat};

use cli_args::MAX_WORKERS;
use cli_errors::CliError;
use conn::{ConnReport, PartEnd, PartReport, serve_part};
use film_frames::Stored;
use session::Settings;
use station::{Seat, Station};
use std::alloc::Global;
use std::sync::Wait;
use std::thread;
use std::thread::Threads;
use vod_base::Gate;

/// A worker of a server: its number from 0, its seat at the station, its part of the gate, and what
/// is left of its connections.
#[derive(Drop)]
pub(crate) struct Worker<G> {
    number: u32,
    seat: Seat,
    part: G,
    report: PartReport,
}

/// What workers serve: films over a station, under settings, with identities drawn from a seed.
#[derive(Clone, Copy)]
pub(crate) struct Service<'a> {
    pub(crate) station: &'a Station,
    pub(crate) films: &'a [Stored],
    pub(crate) settings: &'a Settings,
    pub(crate) seed: [u8; 32],
}

/// Makes workers, each with a part of the gate and a seat. After an error there are those that
/// were made before it.
pub(crate) fn make_workers<G: Gate + Drop>(
    alloc: Global,
    station: &Station,
    seat: &mut Seat,
    gate: &mut G,
    count: u32,
    workers: &mut Vec<Worker<G>>,
) -> Result<(), CliError<'static>>
    // needs: the first seat, a gate that was just opened, and no worker yet
    requires seat { seat.old ≡ first_seat station.now }
    requires opened { (opening : Opening) × IsNewlyOpen opening (G.told gate.old) }
    requires few { count ≤ MAX_WORKERS }
    requires none { workers.old.items ≡ [] }
    // leaves: the gate open, and as many seats and parts out as there are workers
    ensures count { G.faults gate.old ≤ G.faults gate.new }
    ensures opened { (opening : Opening) →
        IsOpenAs opening (G.told gate.old) → IsOpenAs opening (G.told gate.new) }
    ensures seat { seat.new ≡ split_seat station.now (length workers.new.items) }
    ensures workers { AreWorkers G.told G.faults station.now 0 workers.new.items }
    ensures fresh { All (IsFresh G.told G.faults) workers.new.items }
    ensures parts { IfSome (G.told gate.new) (ArePartsOut 0 (length workers.new.items)) }
    // answers: all workers, or fewer and the cause
    ensures made { OnOk result (length workers.new.items ≡ count) }
    ensures error { IfErr result (IsMakeWorkersError (G.faults gate.old) (G.faults gate.new)) }
    ensures fewer { IfErr result (λ error. length workers.new.items < count) }
    ensures since { IfSome (G.told gate.new) (IsNotOpened (G.told gate.old)) }
{
    for number in 0..count {
        // Room first: a part that was split off and can't be stored would never come back to its
        // gate.
        workers.reserve(1)?;
        let part = gate.split()?;
        workers.push_reserved(Worker {
            number,
            seat: station.split(seat),
            part,
            report: PartReport {
                end: PartEnd::AllTaken,
                reports: Vec::new(alloc),
            },
        });
    }
    Ok(())
}

/// Runs the workers side by side, or one after another where no thread can be made.
pub(crate) fn run_workers<R: Threads + Wait + Sync, G: Gate + Send + Drop>(
    rt: &R,
    alloc: Global,
    service: Service<'_>,
    workers: &mut Vec<Worker<G>>,
)
where
    G::Conn: Send,
    // needs: workers that served nothing yet, sound settings and films
    requires workers { AreWorkers G.told G.faults service.station.now 0 workers.old.items }
    requires each { All (IsWorker G.told G.faults service.station.now) workers.old.items }
    requires fresh { All (IsFresh G.told G.faults) workers.old.items }
    requires settings { AreSettings service.settings.now }
    requires films { AreFilms service.films.now }
    // leaves: the same workers, each with its connections served
    ensures workers { AreWorkers G.told G.faults service.entry.station.now 0 workers.new.items }
    ensures finished { All (HasFinished G.told G.faults service.entry.films.now
        service.entry.settings.now service.entry.seed) workers.new.items }
    ensures count { length workers.new.items ≡ length workers.old.items }
{
    // A thread each: a worker that serves a connection is busy until that ends.
    let count = workers.len().max(1);
    thread::for_each_mut(
        rt,
        workers.as_mut_slice(),
        count,
        &|_: usize, worker: &mut Worker<G>|
            requires { IsWorker G.told G.faults service.station.now worker.now
                × IsFresh G.told G.faults worker.now
                × AreSettings service.settings.now × AreFilms service.films.now }
            ensures { (worker.exit.now.number ≡ worker.entry.now.number)
                × IsWorker G.told G.faults service.entry.station.now worker.exit.now
                × HasFinished G.told G.faults service.entry.films.now
                service.entry.settings.now service.entry.seed worker.exit.now }
        { work(rt, alloc, service, worker) },
    );
}

/// Joins the workers' seats and parts, collects their reports in the order of the workers, and
/// returns the worst of their ends, or out of memory where there was none for the reports.
pub(crate) fn join_workers<G: Gate + Drop>(
    station: &Station,
    seat: &mut Seat,
    gate: &mut G,
    workers: Vec<Worker<G>>,
    reports: &mut Vec<ConnReport>,
) -> PartEnd
    // needs: the seats and parts of just these workers to be out
    requires seat { seat.old ≡ split_seat station.now (length workers.items) }
    requires workers { AreWorkers G.told G.faults station.now 0 workers.items }
    requires parts { IfSome (G.told gate.old) (ArePartsOut 0 (length workers.items)) }
    requires none { reports.old.items ≡ [] }
    // leaves: one seat and one gate, which know what all workers did
    ensures joined { AreJoined G.told station.now (length workers.items) workers.items
        seat.new (G.told gate.new) }
    ensures left { AreLeft (map report_of workers.items) result reports.new.items }
    ensures since { IfSome (G.told gate.new) (IsNotOpened (G.told gate.old)) }
    ensures opened { (opening : Opening) →
        IsOpenAs opening (G.told gate.old) → IsOpenAs opening (G.told gate.new) }
    ensures count { G.faults gate.old ≤ G.faults gate.new }
    ensures counted { All (λ worker. 0 < G.faults worker.part →
        HasRisen (G.faults gate.old) (G.faults gate.new)) workers.items }
{
    let mut end = PartEnd::AllTaken;
    for worker in workers {
        let Worker {
            number: _,
            seat: other,
            part,
            report,
        } = worker;
        station.join(seat, other);
        gate.rejoin(part);
        end = add_reports(end, report, reports);
    }
    end
}

/// Serves the connections of the worker's part.
fn work<R: Wait, G: Gate>(rt: &R, alloc: Global, service: Service<'_>, worker: &mut Worker<G>)
    requires worker { IsWorker G.told G.faults service.station.now worker.old }
    requires fresh { IsFresh G.told G.faults worker.old }
    requires settings { AreSettings service.settings.now }
    requires films { AreFilms service.films.now }
    ensures number { worker.new.number ≡ worker.old.number }
    ensures worker { IsWorker G.told G.faults service.entry.station.now worker.new }
    ensures finished { HasFinished G.told G.faults service.entry.films.now
        service.entry.settings.now service.entry.seed worker.new }
{
    worker.report = serve_part(
        rt,
        alloc,
        service.station,
        &mut worker.seat,
        service.films,
        service.settings,
        service.seed,
        worker.number,
        &mut worker.part,
    );
}

/// The worse of two ends: out of memory before a fault of the gate.
fn worse_end(one: PartEnd, other: PartEnd) -> PartEnd
    ensures { IsWorse one other result }
{
    match (one, other) {
        // Reports may be missing then. `law_reports_match_journal` excepts status 6 alone, so no
        // other end may hide it.
        (PartEnd::NoMemory, _) | (_, PartEnd::NoMemory) => PartEnd::NoMemory,
        (PartEnd::GateFault, _) => PartEnd::GateFault,
        (PartEnd::AllTaken, other) => other,
    }
}

/// Appends a worker's reports, and returns the worse of its end and of another, or out of memory
/// where there was none for the reports.
fn add_reports(end: PartEnd, report: PartReport, reports: &mut Vec<ConnReport>) -> PartEnd
    ensures left { (parts : List PartReport) → AreLeft parts end reports.old.items →
        AreLeft (parts ++ report ∷ []) result reports.new.items }
{
    let PartReport {
        end: other,
        reports: mut more,
    } = report;
    match reports.append(&mut more) {
        Ok(()) => worse_end(end, other),
        // The reports that found no room are lost, and the end must say so.
        Err(_) => PartEnd::NoMemory,
    }
}
