//! Worked plans, and plans of generated curves against the plain planner.

mod plain;

use super::*;
use plain::plain_plan;
use plan_cert::Segment;
use std::alloc::{AllocError, Global};
use wire_curve::Curves;

/// One slot a picture, the first one used after `delay` slots.
fn curves_of(
    alloc: Global,
    sizes: &[u64],
    buffer: u64,
    delay: usize,
) -> Result<Curves, AllocError> {
    let mut total = 0u64;
    for size in sizes {
        total = total.wrapping_add(*size);
    }
    let mut used = 0u64;
    let mut low = Vec::new(alloc);
    let mut up = Vec::new(alloc);
    for slot in 0..delay.saturating_add(sizes.len()) {
        up.push(total.min(used.wrapping_add(buffer)))?;
        if slot >= delay {
            used = used.wrapping_add(sizes.get(slot - delay).copied().unwrap_or(0));
        }
        low.push(used)?;
    }
    Ok(Curves { from: 0, low, up })
}

#[test]
fn films_have_these_plans(rt: HostRuntime) -> Result<(), AllocError> {
    let rows: [(&[u64], u64, usize, &[(u64, u64)]); 9] = [
        (&[10, 10, 10, 10, 10], 10, 0, &[(5, 50)]),
        // A fall on the lower curve.
        (&[1, 9, 1, 1], 9, 0, &[(2, 10), (2, 2)]),
        (&[1, 1, 5], 7, 0, &[(3, 7)]),
        // A rise where the curves meet.
        (&[1, 1, 1, 1, 6, 6], 6, 0, &[(5, 10), (1, 6)]),
        (&[9, 1], 20, 2, &[(3, 9), (1, 1)]),
        (&[3, 9], 9, 0, &[(2, 12)]),
        (&[106, 35], 1_048_576, 2, &[(3, 106), (1, 35)]),
        (&[106, 0, 35], 1_048_576, 0, &[(1, 106), (2, 35)]),
        (&[0, 0], 1, 0, &[(2, 0)]),
    ];
    for (sizes, buffer, delay, want) in rows {
        let curves = curves_of(rt.alloc(), sizes, buffer, delay)?;
        assert!(rt; curves.is_sound(), "{sizes:?}");
        let Ok(plan) = plan(rt.alloc(), &curves) else {
            return Err(AllocError);
        };
        let segments = plan.segments();
        assert_eq!(rt; segments.len(), want.len(), "{sizes:?}");
        for (segment, pair) in segments.iter().zip(want) {
            assert_eq!(rt; (segment.slots, segment.bytes), *pair, "{sizes:?}");
        }
    }
    Ok(())
}

/// 52 bytes were sent before slot 0.
#[test]
fn bytes_sent_before_are_not_planned(rt: HostRuntime) -> Result<(), AllocError> {
    let curves = Curves {
        from: 52,
        low: vec![in rt.alloc(); 52, 52, 106, 141]?,
        up: vec![in rt.alloc(); 141, 141, 141, 141]?,
    };
    assert!(rt; curves.is_sound());
    let Ok(plan) = plan(rt.alloc(), &curves) else {
        return Err(AllocError);
    };
    let segments = plan.segments();
    assert_eq!(rt; segments.len(), 1);
    assert_eq!(rt; (segments[0].slots, segments[0].bytes), (4, 89));
    Ok(())
}

/// The next number of a linear congruence, and its high bits.
fn next(state: &mut u64) -> u64 {
    *state = state
        .wrapping_mul(6_364_136_223_846_793_005)
        .wrapping_add(1_442_695_040_888_963_407);
    *state >> 33
}

/// Small sizes, so that slopes are often level and the curves often meet.
#[test]
fn generated_curves_have_the_plain_plan(rt: HostRuntime) -> Result<(), AllocError> {
    let mut state = 1;
    for round in 0..400u64 {
        let count = next(&mut state) % 40;
        let most = 1 + next(&mut state) % 12;
        let mut sizes = Vec::new(rt.alloc());
        for _ in 0..=count {
            sizes.push(next(&mut state) % most)?;
        }
        let buffer = most + next(&mut state) % 30;
        let delay = (next(&mut state) % 4) as usize;
        let curves = curves_of(rt.alloc(), sizes.as_slice(), buffer, delay)?;
        assert!(rt; curves.is_sound(), "{round}");
        let plain = plain_plan(rt.alloc(), &curves)?;
        let Ok(plan) = plan(rt.alloc(), &curves) else {
            return Err(AllocError);
        };
        let segments = plan.segments();
        assert_eq!(rt; segments.len(), plain.len(), "{round}");
        for (segment, other) in segments.iter().zip(plain.iter()) {
            assert_eq!(rt;
                (segment.slots, segment.bytes),
                (other.slots, other.bytes),
                "{round}"
            );
        }
    }
    Ok(())
}

/// Each slot stays in the lower chain to the end, so a planner that looks through the chain again
/// at each slot would take some 10^10 steps.
#[test]
fn falling_sizes_have_a_segment_each(rt: HostRuntime) -> Result<(), AllocError> {
    let mut sizes = Vec::new(rt.alloc());
    for size in 0..100_000u64 {
        sizes.push(100_000 - size)?;
    }
    let curves = curves_of(rt.alloc(), sizes.as_slice(), 1 << 42, 0)?;
    assert!(rt; curves.is_sound());
    let Ok(plan) = plan(rt.alloc(), &curves) else {
        return Err(AllocError);
    };
    let segments = plan.segments();
    assert_eq!(rt; segments.len(), 100_000);
    for (segment, size) in segments.iter().zip(sizes.iter()) {
        assert_eq!(rt; (segment.slots, segment.bytes), (1, *size));
    }
    Ok(())
}
