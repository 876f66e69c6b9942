//! One connection from its first event to its report.

ghost use Rattle.std.specs.Prelude.{◌≡◌, ◌≤◌, [], Some, false};
ghost use Rattle.vod_base.specs.IoState.{HasRisen};
ghost use Rattle.session.specs.RequestSteps.{new_session_state};
ghost use Rattle.session.specs.SessionStates.{AreFilms, AreSettings};
ghost use Rattle.station.specs.Seats.{IsSameSeat};
ghost use Rattle.conn.specs.declared.reports.ConnEnd.TheVariants.{LinkFault};
ghost use Rattle.conn.specs.Events.{HasCounted, IsWaiting};
ghost use Rattle.conn.specs.ReservationInvariant.{HasAdvanced, IsQuiet, KeepsReservations, at_rest};
ghost use Rattle.conn.specs.Guarantees.{MeetsGuarantee};
ghost use Rattle.conn.specs.ConnectionService.{ConnectionSpec};
ghost use Rattle.conn.specs.Observations.{HasCourse, observed};

use crate::connections::Connection;
use crate::film_laws::law_all_films_are_traces;
use crate::reports::{ConnEnd, ConnReport};
use film_frames::Stored;
use session::{Notes, Receipt, Settings};
use station::{Seat, Station};
use std::alloc::Global;
use std::sync::Wait;
use vod_base::{Link, MAX_EVENTS, MAX_READ_BYTES};

/// Serves a connection from its first event to its end.
///
/// Bytes that arrive are split into requests, which a session answers; plays are booked with the
/// station, and what is due is sent as slots begin. An open booking is halted at the end, whatever
/// ends the connection.
///
/// What the link exposes is the connection's course, event by event: what was sent in its slot, the
/// halt of a play that is then done, and each request that was processed with the station's answer
/// and the reply. The report lists what was noted on the way.
#[allow(clippy::too_many_arguments)]
pub fn serve_connection<R: Wait, K: Link>(
    rt: &R,
    alloc: Global,
    station: &Station,
    seat: &mut Seat,
    films: &[Stored],
    settings: &Settings,
    words: [u32; 5],
    worker: u32,
    link: &mut K,
) -> ConnReport
    // needs: a seat of the station, and valid settings and films
    requires seat { seat.old.id ≡ station.now.id }
    requires settings { AreSettings settings.now }
    requires films { AreFilms films.now }
    // answers: a report with these numbers
    ensures seat { IsSameSeat seat.old seat.new }
    ensures worker { result.worker ≡ worker }
    ensures words { result.words ≡ words }
    // leaves: what was sent and booked, and the guarantee on it
    ensures served { ConnectionSpec (new_session_state films.now settings.now words)
        (K.told link.old) (K.told link.new) seat.old seat.new result }
    ensures guarantee { MeetsGuarantee (new_session_state films.now settings.now words)
        (K.told link.old) (K.told link.new) seat.old seat.new result }
    // faults: the link is blamed only where its count rose
    ensures count { K.faults link.old ≤ K.faults link.new }
    ensures fault { result.end ≡ LinkFault → HasRisen (K.faults link.old) (K.faults link.new) }
    // journal: the seat's new entries are those of the receipts, and no play stays open
    ensures entries { HasAdvanced (at_rest seat.old.mine [])
        (at_rest seat.new.mine result.receipts.items) }
{
    // The guarantee speaks of curves over the films; this is its premise on them.
    law_all_films_are_traces(films);
    let Ok(mut connection) = Connection::new(alloc, films, settings, words) else {
        // Nothing was sent or booked, so an empty report is all there is to say.
        let none = Notes {
            receipts: Vec::new(alloc),
            plays: Vec::new(alloc),
            late: 0,
            offers: Vec::new(alloc),
        };
        return report_of(alloc, worker, words, ConnEnd::NoMemory, none);
    };
    let end = hear_all(rt, station, seat, link, &mut connection);
    // After any end, so that no play stays booked for a client that is gone.
    connection.close(rt, station, seat);
    seat.holds();
    report_of(alloc, worker, words, end, connection.notes())
}

/// Processes events until one of them ends the connection.
#[tactic(auto, using(crate::proofs::SharedLemmas::event_steps))]
fn hear_all<R: Wait, K: Link>(
    rt: &R,
    station: &Station,
    seat: &mut Seat,
    link: &mut K,
    connection: &mut Connection<'_>,
) -> ConnEnd
    // needs: a seat of this station, and a connection before its first event
    requires seat { seat.old.id ≡ station.now.id }
    requires quiet { IsQuiet seat.old.mine connection.old }
    requires torn { connection.old.session.torn ≡ false }
    requires waiting { IsWaiting connection.old }
    requires lost { connection.old.session.lost ≡ false }
    // answers: how it ended; the seat still holds what is open
    ensures kept { KeepsReservations seat.old seat.new connection.old connection.new }
    ensures counted { HasCounted (Some result) (K.faults link.old) (K.faults link.new) }
    // leaves: what the course of its events says
    ensures course { HasCourse result (observed connection.old (K.told link.old) seat.old)
        (observed connection.new (K.told link.new) seat.new) }
{
    // One buffer for all events, so that a read takes no memory.
    let mut into = [0; MAX_READ_BYTES];
    // A bound that no connection meets: at an event each millisecond it takes 34 years.
    'events: for _event in 0..MAX_EVENTS {
        let Ok(heard) = link.next(&mut into) else {
            return ConnEnd::LinkFault;
        };
        if let Some(end) = connection.hear(rt, station, seat, link, heard, &into) {
            return end;
        }
    }
    ConnEnd::TurnsSpent
}

/// The report of a connection, whose lists keep no more memory than they need.
fn report_of(alloc: Global, worker: u32, words: [u32; 5], end: ConnEnd, notes: Notes) -> ConnReport
    ensures worker { result.worker ≡ worker }
    ensures words { result.words ≡ words }
    ensures end { result.end ≡ end }
    ensures receipts { result.receipts.items ≡ notes.receipts.items }
    ensures plays { result.plays.items ≡ notes.plays.items }
    ensures late { result.late ≡ notes.late }
    ensures offers { result.offers.items ≡ notes.offers.items }
{
    let Notes {
        receipts,
        mut plays,
        late,
        mut offers,
    } = notes;
    let receipts = in_own_memory(alloc, receipts);
    // The server stores all reports until it ends, so spare room would add up.
    plays.shrink_to_fit();
    offers.shrink_to_fit();
    ConnReport {
        worker,
        words,
        end,
        receipts,
        plays,
        late,
        offers,
    }
}

/// The receipts, in memory of just their length. Shrunk in place they would split the large room
/// that a connection reserves, and the next connection would need new pages for its own. Where
/// there is no memory for a copy, they are shrunk all the same.
fn in_own_memory(alloc: Global, mut receipts: Vec<Receipt>) -> Vec<Receipt>
    ensures { result.items ≡ receipts.items }
{
    match Vec::from_slice(alloc, receipts.as_slice()) {
        Ok(copy) => copy,
        Err(_) => {
            receipts.shrink_to_fit();
            receipts
        }
    }
}
