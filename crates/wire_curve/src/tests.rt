//! Worked films: their curves and their refusals, number by number.

use super::*;
use std::alloc::{AllocError, Global};
use std::process::Abort;

/// One slot a picture.
fn timing(buffer: u64, delay: u64) -> Timing {
    Timing {
        picture_units: 14_400,
        slot_units: 14_400,
        buffer,
        delay,
        played: 0,
        sent: 0,
    }
}

fn curves_of(alloc: Global, from: u64, low: &[u64], up: &[u64]) -> Result<Curves, AllocError> {
    Ok(Curves {
        from,
        low: Vec::from_slice(alloc, low)?,
        up: Vec::from_slice(alloc, up)?,
    })
}

/// A film's sizes and timing, and the numbers of its two curves.
type Row<'a> = (&'a [u64], Timing, &'a [u64], &'a [u64]);

fn have_these_curves(rt: &impl Abort, alloc: Global, rows: &[Row<'_>]) -> Result<(), CurveRefused> {
    for (sizes, timing, low, up) in rows {
        assert!(rt; timing.is_within_limits(sizes));
        let want = curves_of(alloc, timing.sent, low, up)?;
        assert!(rt; want.is_sound(), "{sizes:?}");
        assert_eq!(rt; film_curves(alloc, sizes, timing)?, want, "{sizes:?}");
    }
    Ok(())
}

#[test]
fn films_have_these_curves(rt: HostRuntime) -> Result<(), CurveRefused> {
    let steps: [u64; 5] = [10, 20, 30, 40, 50];
    let rows: [Row; 6] = [
        (&[10, 10, 10, 10, 10], timing(10, 0), &steps, &steps),
        (
            &[1, 9, 1, 1],
            timing(9, 0),
            &[1, 10, 11, 12],
            &[9, 10, 12, 12],
        ),
        (&[1, 1, 5], timing(7, 0), &[1, 2, 7], &[7, 7, 7]),
        (
            &[1, 1, 1, 1, 6, 6],
            timing(6, 0),
            &[1, 2, 3, 4, 10, 16],
            &[6, 7, 8, 9, 10, 16],
        ),
        (&[9, 1], timing(20, 2), &[0, 0, 9, 10], &[10, 10, 10, 10]),
        (&[3, 9], timing(9, 0), &[3, 12], &[9, 12]),
    ];
    have_these_curves(&rt, rt.alloc(), &rows)
}

#[test]
fn begun_films_have_these_curves(rt: HostRuntime) -> Result<(), CurveRefused> {
    let half_slots = Timing {
        slot_units: 7_200,
        ..timing(1_048_576, 0)
    };
    let resumed = Timing {
        sent: 52,
        ..timing(1_048_576, 2)
    };
    let played = Timing {
        played: 5,
        sent: 7,
        ..timing(6, 0)
    };
    let rows: [Row; 3] = [
        // Two slots a picture: the pictures are used in slots 0 and 2.
        (&[106, 35], half_slots, &[106, 106, 141], &[141, 141, 141]),
        // Nothing was used yet, and 52 bytes were sent.
        (
            &[106, 35],
            resumed,
            &[52, 52, 106, 141],
            &[141, 141, 141, 141],
        ),
        (&[1, 3, 2], played, &[7, 9, 11], &[11, 11, 11]),
    ];
    have_these_curves(&rt, rt.alloc(), &rows)
}

#[test]
fn curves_that_are_not_sound(rt: HostRuntime) -> Result<(), AllocError> {
    let large = 1 << 43;
    let rows: [(u64, &[u64], &[u64]); 8] = [
        (0, &[], &[]),
        (0, &[1, 2], &[2]),
        (2, &[1, 3], &[3, 3]),
        (0, &[1, 2], &[3, 3]),
        (0, &[large], &[large]),
        (0, &[2, 1, 3], &[3, 3, 3]),
        (0, &[1, 1, 3], &[3, 2, 3]),
        (0, &[1, 2, 3], &[1, 1, 3]),
    ];
    for (from, low, up) in rows {
        let curves = curves_of(rt.alloc(), from, low, up)?;
        assert!(rt; !curves.is_sound(), "{curves:?}");
    }
    Ok(())
}

#[test]
fn films_that_pass_the_limits(rt: HostRuntime) {
    let within = timing(9, 0);
    let rows = [
        Timing {
            picture_units: 0,
            ..within
        },
        Timing {
            slot_units: 360_001,
            ..within
        },
        Timing {
            buffer: 0,
            ..within
        },
        Timing {
            delay: 10_001,
            ..within
        },
        Timing {
            played: 1 << 42,
            ..within
        },
        Timing {
            played: 2,
            sent: 1,
            ..within
        },
        Timing {
            sent: 10,
            buffer: 10,
            ..within
        },
        Timing {
            sent: 9,
            buffer: 8,
            ..within
        },
    ];
    assert!(rt; within.is_within_limits(&[2, 7]));
    for timing in rows {
        assert!(rt; !timing.is_within_limits(&[2, 7]), "{timing:?}");
    }
}

/// What the answer says of a film is this fault, or none.
fn names(
    rt: &impl Abort,
    alloc: Global,
    sizes: &[u64],
    timing: &Timing,
    fault: Option<CurveFault>,
) {
    assert!(rt; timing.is_within_limits(sizes));
    let answer = film_curves(alloc, sizes, timing).err();
    assert_eq!(rt; answer, fault.map(CurveRefused::Fault), "{sizes:?}");
}

#[test]
fn names_a_buffer_that_is_too_small(rt: HostRuntime) {
    let small = |slot, used, least| { Some(CurveFault::BufferTooSmall { slot, used, least }) };
    let rows: [(&[u64], Timing, Option<CurveFault>); 4] = [
        (&[], timing(9, 0), Some(CurveFault::NoPictures)),
        (&[3, 9], timing(8, 0), small(1, 9, 9)),
        (&[9, 12, 8], timing(8, 3), small(3, 9, 12)),
        (&[3, 9], timing(9, 0), None),
    ];
    for (sizes, timing, fault) in rows {
        names(&rt, rt.alloc(), sizes, &timing, fault);
    }
}

#[test]
fn names_slots_that_are_too_many(rt: HostRuntime) {
    // One picture a 330,000 units, and slots of one unit: the fourth is used in slot 990,000 +
    // delay.
    let long = |delay| Timing {
        picture_units: 330_000,
        slot_units: 1,
        ..timing(1, delay)
    };
    let many = Some(CurveFault::TooManySlots { slots: 1_000_001 });
    let rows: [(&[u64], Timing, Option<CurveFault>); 3] = [
        (&[1, 1, 1, 1], long(10_000), many),
        (&[1, 2, 1, 1], long(10_000), many),
        (&[1, 1, 1, 1], long(9_999), None),
    ];
    for (sizes, timing, fault) in rows {
        names(&rt, rt.alloc(), sizes, &timing, fault);
    }
}
