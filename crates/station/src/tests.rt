//! Threads that ask at one station side by side, and the refusals that a seat receives.

ghost use Rattle.std.specs.Prelude.{◌≡◌, ◌≤◌, [], ◌∷◌};
ghost use Rattle.plan_cert.specs.PlanSlots.{total_bytes};
ghost use Rattle.station.specs.Seats.{IsSameSeat, first_seat};

use super::*;
use admission::Book;
use early_start::Offers;
use plan_cert::{Plan, Segment};
use slot_calendar::Profile;
use std::alloc::Global;
use std::process::Abort;
use std::sync::Wait;
use std::test::Fail;
use std::thread::{Threads, join};

/// A plan of four slots: 22, 22, 22 and 23 bytes.
fn plan<R: Abort>(rt: &R, alloc: Global) -> Plan {
    let mut segments = Vec::new(alloc);
    segments
        .push(Segment {
            slots: 4,
            bytes: 89,
        })
        .expect(rt, "memory");
    assert!(rt; Plan::is_allowed(segments.as_slice()));
    Plan::new(segments)
}

/// A play at slot 0, and its halt where it was admitted. Says how many entries they made.
fn play<R: Wait + Abort>(rt: &R, alloc: Global, station: &Station, seat: &mut Seat) -> u64
    requires { seat.old.id ≡ station.now.id }
    ensures { IsSameSeat seat.old seat.new }
{
    match station.play(rt, seat, 0, plan(rt, alloc)) {
        Ok(booking) => {
            assert_eq!(rt; booking.start(), 1);
            station.halt(rt, seat, booking, 0);
            2
        }
        Err(
            PlayRefused::Overflow {
                slot,
                booked,
                asked,
                ..
            },
        ) => {
            assert_eq!(rt; (slot, booked, asked), (1, 22, 22));
            1
        }
        Err(PlayRefused::JournalFull { .. }) => panic!(rt; "the journal has room"),
    }
}

/// A look at a slot, and an offer: at most one play is booked.
fn ask<R: Wait + Abort>(
    rt: &R,
    alloc: Global,
    station: &Station,
    seat: &mut Seat,
    offers: &mut Offers,
) -> u64
    requires { seat.old.id ≡ station.now.id }
    ensures { IsSameSeat seat.old seat.new }
{
    let Ok(looked) = station.look(rt, seat, 4) else {
        panic!(rt; "the journal has room");
    };
    assert!(rt; looked.at == 4 && (looked.booked == 0 || looked.booked == 23));
    let offered = station.offer(rt, seat, 0, &plan(rt, alloc), offers);
    assert!(rt; offered.first == 1 && offered.seen > looked.place);
    assert!(rt; offers.start() == Some(1) || offers.start() == Some(5));
    1
}

/// 100 plays, each with its halt, and with a look and an offer where `asks`. Says how many entries
/// they made.
fn rounds<R: Wait + Abort>(
    rt: &R,
    alloc: Global,
    station: &Station,
    mut seat: Seat,
    asks: bool,
) -> (Seat, u64)
    requires { seat.id ≡ station.now.id }
    ensures { IsSameSeat seat result.0 }
{
    let mut offers = Offers::new(alloc, 4).expect(rt, "memory");
    let mut made = 0u64;
    for _ in 0..100 {
        let more = play(rt, alloc, station, &mut seat);
        made = made.saturating_add(more);
        if asks {
            let more = ask(rt, alloc, station, &mut seat, &mut offers);
            made = made.saturating_add(more);
        }
    }
    (seat, made)
}

/// The same by two seats side by side.
fn side_by_side<R: Threads + Wait + Abort + Sync>(
    rt: &R,
    alloc: Global,
    station: &Station,
    one: Seat,
    two: Seat,
    asks: bool,
) -> ((Seat, u64), (Seat, u64))
    requires one { one.id ≡ station.now.id }
    requires two { two.id ≡ station.now.id }
    ensures one { IsSameSeat one result.0.0 }
    ensures two { IsSameSeat two result.1.0 }
{
    join(
        rt,
        || -> (Seat, u64)
            requires { one.id ≡ station.now.id }
            ensures { IsSameSeat one result.0 }
        { rounds(rt, alloc, station, one, asks) },
        || -> (Seat, u64)
            requires { two.id ≡ station.now.id }
            ensures { IsSameSeat two result.0 }
        { rounds(rt, alloc, station, two, asks) },
    )
}

/// How many entries of a maker a book has.
fn count_of(book: &Book, maker: u32) -> u64 {
    book.entries()
        .iter()
        .filter(|entry| entry.maker == maker)
        .count() as u64
}

/// Two threads that play and halt.
fn run_two_seats<R: Threads + Wait + Abort + Sync>(
    rt: &R,
    alloc: Global,
    station: Station,
    mut seat: Seat,
)
    requires first { seat ≡ first_seat station }
{
    let one = station.split(&mut seat);
    let two = station.split(&mut seat);
    let ((one, a), (two, b)) = side_by_side(rt, alloc, &station, one, two, false);
    station.join(&mut seat, two);
    station.join(&mut seat, one);
    let book = station.close(seat);
    assert_eq!(rt; (count_of(&book, 1), count_of(&book, 2)), (a, b));
    assert_eq!(rt; book.entries().len() as u64, a.saturating_add(b));
    assert!(rt; a.saturating_add(b) > 200);
}

/// Four threads that play, halt, look and offer; their seats are joined in another order than they
/// were split.
fn run_four_seats<R: Threads + Wait + Abort + Sync>(
    rt: &R,
    alloc: Global,
    station: Station,
    mut seat: Seat,
)
    requires first { seat ≡ first_seat station }
{
    let one = station.split(&mut seat);
    let two = station.split(&mut seat);
    let three = station.split(&mut seat);
    let four = station.split(&mut seat);
    let shared = &station;
    let (((one, a), (two, b)), ((three, c), (four, d))) = join(
        rt,
        || -> ((Seat, u64), (Seat, u64))
            requires one { one.id ≡ shared.now.id }
            requires two { two.id ≡ shared.now.id }
            ensures one { IsSameSeat one result.0.0 }
            ensures two { IsSameSeat two result.1.0 }
        { side_by_side(rt, alloc, shared, one, two, true) },
        || -> ((Seat, u64), (Seat, u64))
            requires three { three.id ≡ shared.now.id }
            requires four { four.id ≡ shared.now.id }
            ensures three { IsSameSeat three result.0.0 }
            ensures four { IsSameSeat four result.1.0 }
        { side_by_side(rt, alloc, shared, three, four, true) },
    );
    station.join(&mut seat, three);
    station.join(&mut seat, one);
    station.join(&mut seat, four);
    station.join(&mut seat, two);
    let book = station.close(seat);
    assert_eq!(rt; (count_of(&book, 1), count_of(&book, 2)), (a, b));
    assert_eq!(rt; (count_of(&book, 3), count_of(&book, 4)), (c, d));
    assert!(rt; count_of(&book, 0) == 0 && book.entries().len() > 800);
}

#[test]
fn threads_share_one_book(rt: HostRuntime) -> Result<(), Fail> {
    let alloc = rt.alloc();
    let (station, seat) = Station::new(alloc, Profile::flat(alloc, 36)?, 1024)?;
    assert_eq!(rt; seat.number(), 0);
    let text = format!(in alloc; "{station:?} {seat:?}")?;
    assert_eq!(rt; text.as_str(), "Station { .. } Seat { number: 0, .. }");
    run_two_seats(&rt, alloc, station, seat);
    let (station, seat) = Station::new(alloc, Profile::flat(alloc, 36)?, 2048)?;
    run_four_seats(&rt, alloc, station, seat);
    Ok(())
}

#[test]
fn tells_refusals(rt: HostRuntime) -> Result<(), Fail> {
    let alloc = rt.alloc();
    let full = PlayRefused::JournalFull {
        plan: plan(&rt, alloc),
        entries: 3,
        live: 1,
    };
    let overflow = PlayRefused::Overflow {
        place: 2,
        slot: 1,
        booked: 22,
        asked: 23,
    };
    for (refused, want) in [
        (full, "the journal is full: 3 entries, 1 open plays"),
        (
            overflow,
            "slot 1 has no room: 22 bytes are booked and 23 asked",
        ),
    ] {
        assert_eq!(rt; format!(in alloc; "{refused}")?.as_str(), want);
    }
    Ok(())
}
