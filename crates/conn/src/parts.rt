//! A worker's connections, one after another.

ghost use Rattle.std.specs.Prelude.{◌≡◌, IfSome};
ghost use Rattle.session.specs.SessionStates.{AreFilms, AreSettings};
ghost use Rattle.conn.specs.Parts.{WorkerSpec, IsUntouched, worker_input, worker_gate};

use crate::reports::{PartEnd, PartReport};
use crate::service::serve_connection;
use crate::words::connection_words;
use film_frames::Stored;
use session::Settings;
use station::{Seat, Station};
use std::alloc::Global;
use std::sync::Wait;
use vod_base::Gate;

/// Serves the connections that a part of a gate gives, one after another, until it gives no more.
///
/// There is one report for each connection, in order, with the worker's number and the connection's
/// words, and each connection is given back. [`PartEnd::NoMemory`] comes only where there is none
/// for a report.
#[allow(clippy::too_many_arguments)]
pub fn serve_part<R: Wait, G: Gate>(
    rt: &R,
    alloc: Global,
    station: &Station,
    seat: &mut Seat,
    films: &[Stored],
    settings: &Settings,
    seed: [u8; 32],
    worker: u32,
    part: &mut G,
) -> PartReport
    // needs: a seat of the station, valid settings and films, and a part that gave nothing yet
    requires seat { seat.old.id ≡ station.now.id }
    requires settings { AreSettings settings.now }
    requires films { AreFilms films.now }
    requires untouched { IfSome (G.told part.old) IsUntouched }
    // answers and leaves: a report and a connection given back for each that was taken
    ensures part { WorkerSpec (worker_input films.now settings.now seed worker) seat.old seat.new
        (worker_gate (G.faults part.old) (G.told part.old))
        (worker_gate (G.faults part.new) (G.told part.new)) result }
{
    let mut reports = Vec::new(alloc);
    'connections: for _ in rt.forever() {
        // Room comes before the connection: each one that is taken has its report.
        if reports.reserve(1).is_err() {
            return PartReport {
                end: PartEnd::NoMemory,
                reports,
            };
        }
        match part.take() {
            Ok(Some(mut link)) => {
                // The number of reports numbers the connection, so no two draw the same words.
                let words = connection_words(seed, worker, reports.len() as u64);
                let report = serve_connection(
                    rt, alloc, station, seat, films, settings, words, worker, &mut link,
                );
                reports.push_reserved(report);
                part.give_back(link);
            }
            Ok(None) => {
                return PartReport {
                    end: PartEnd::AllTaken,
                    reports,
                };
            }
            // `take` waits out errors that pass; after any other the listener is of no use.
            Err(_) => {
                return PartReport {
                    end: PartEnd::GateFault,
                    reports,
                };
            }
        }
    }
    // `forever` gives no end: each way out of the loop is a return.
    unreachable!()
}
