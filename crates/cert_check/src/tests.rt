//! Plans worked out by hand, with the curves of their traces.

use super::*;
use crate::laws::law_checked_plan_is_optimal;
use plan_cert::Segment;
use std::alloc::{AllocError, Global};
use std::process::Abort;
use std::test::Fail;
use wire_curve::Curves;

fn curves_of(alloc: Global, low: &[u64], up: &[u64]) -> Result<Curves, AllocError> {
    Ok(Curves {
        from: 0,
        low: Vec::from_slice(alloc, low)?,
        up: Vec::from_slice(alloc, up)?,
    })
}

fn segments_of(alloc: Global, pairs: &[(u64, u64)]) -> Result<Vec<Segment>, AllocError> {
    let mut segments = Vec::new(alloc);
    for &(slots, bytes) in pairs {
        segments.push(Segment { slots, bytes })?;
    }
    Ok(segments)
}

/// The numbers of the two curves, the slots and bytes of the segments, and what is answered.
type Row<'a> = (
    &'a [u64],
    &'a [u64],
    &'a [(u64, u64)],
    Result<(), CertFault>,
);

// the curves of the traces `1 9 1 1` with buffer 9, and `1 1 5` with buffer 7
const LOW: [u64; 4] = [1, 10, 11, 12];

const UP: [u64; 4] = [9, 10, 12, 12];

const LOW_OF_THREE: [u64; 3] = [1, 2, 7];

const UP_OF_THREE: [u64; 3] = [7, 7, 7];

fn judges(rt: &impl Abort, alloc: Global, rows: &[Row<'_>]) -> Result<(), Fail> {
    for (low, up, pairs, want) in rows {
        let curves = curves_of(alloc, low, up)?;
        let segments = segments_of(alloc, pairs)?;
        assert!(rt; curves.is_sound());
        assert_eq!(rt;
            check(&curves, segments.as_slice()),
            *want,
            "at {low:?} {pairs:?}"
        );
        if let Ok(()) = check(&curves, segments.as_slice()) {
            law_checked_plan_is_optimal(&curves, segments.as_slice());
        }
    }
    Ok(())
}

#[test]
fn judges_taut_lists(rt: HostRuntime) -> Result<(), Fail> {
    let steps: [u64; 5] = [10, 20, 30, 40, 50];
    let rows: [Row; 6] = [
        (&steps, &steps, &[(5, 50)], Ok(())),
        (&LOW, &UP, &[(2, 10), (2, 2)], Ok(())),
        (&LOW_OF_THREE, &UP_OF_THREE, &[(3, 7)], Ok(())),
        (
            &[1, 2, 3, 4, 10, 16],
            &[6, 7, 8, 9, 10, 16],
            &[(5, 10), (1, 6)],
            Ok(()),
        ),
        (&[0, 0, 9, 10], &[10, 10, 10, 10], &[(3, 9), (1, 1)], Ok(())),
        (&[3, 12], &[9, 12], &[(2, 12)], Ok(())),
    ];
    judges(&rt, rt.alloc(), &rows)
}

#[test]
fn names_what_is_not_of_the_curves(rt: HostRuntime) -> Result<(), Fail> {
    let rows: [(&[(u64, u64)], CertFault); 9] = [
        (&[(2, 10), (0, 0), (2, 2)], CertFault::EmptySegment(1)),
        (&[(2, 10), (1, 2)], CertFault::WrongLength),
        (&[], CertFault::WrongLength),
        (&[(u64::MAX, 10), (5, 2)], CertFault::WrongLength),
        (&[(2, 10), (2, 3)], CertFault::WrongTotal),
        (&[(2, u64::MAX), (2, 13)], CertFault::WrongTotal),
        (&[(4, 12)], CertFault::BelowLow(1)),
        (&[(1, 10), (3, 2)], CertFault::AboveUp(0)),
        (&[(1, 10), (2, 0), (1, 2)], CertFault::BelowLow(2)),
    ];
    for (pairs, fault) in rows {
        judges(&rt, rt.alloc(), &[(&LOW, &UP, pairs, Err(fault))])?;
    }
    Ok(())
}

#[test]
fn names_bends_that_are_not_taut(rt: HostRuntime) -> Result<(), Fail> {
    let rows: [Row; 3] = [
        (
            &LOW,
            &UP,
            &[(1, 1), (1, 9), (2, 2)],
            Err(CertFault::RiseOffUpper(0)),
        ),
        (
            &LOW_OF_THREE,
            &UP_OF_THREE,
            &[(1, 2), (1, 2), (1, 3)],
            Err(CertFault::EqualSlopes(0)),
        ),
        (
            &LOW_OF_THREE,
            &UP_OF_THREE,
            &[(1, 3), (2, 4)],
            Err(CertFault::FallOffLower(0)),
        ),
    ];
    judges(&rt, rt.alloc(), &rows)
}
