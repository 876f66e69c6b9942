//! Film A is a sequence header, a group header, an I picture and one slice; film B is film A, a P
//! picture and one slice. On the wire their units have 106 and 35 bytes.

ghost use Rattle.std.specs.Prelude.{IfOk, length};
ghost use Rattle.film_run.specs.Plans.{IsPlanOf, IsPlayback};
ghost use Rattle.film_run.specs.Runs.{Fits, IsNewRun, IsRun};

use crate::{Playback, Run, Trace, Units, full_run, plan_of, run_after, run_between};
use film_frames::Stored;
use mpeg_scan::scan;
use plan_cert::Plan;
use std::alloc::Global;
use std::test::Fail;
use wire_curve::{CurveFault, CurveRefused};

const HEAD: [u8; 20] =
    *b"\x00\x00\x01\xb3\x16\x01\x20\x13\xff\xff\xe0\xa0\x00\x00\x01\xb8\x00\x08\x00\x40";

const PICTURE_I: [u8; 14] = *b"\x00\x00\x01\x00\x00\x0f\xff\xf8\x00\x00\x01\x01\x12\x34";

const PICTURE_P: [u8; 15] = *b"\x00\x00\x01\x00\x00\x57\xff\xf8\x80\x00\x00\x01\x01\x12\x34";

/// A film of so many pictures, a group every twelve: film A of one, film B of two.
fn film_of(alloc: Global, pictures: u32) -> Result<Stored, Fail> {
    let mut bytes = Vec::new(alloc);
    for picture in 0..pictures {
        if picture % 12 == 0 {
            bytes.extend_from_slice(&HEAD)?;
            bytes.extend_from_slice(&PICTURE_I)?;
        } else {
            bytes.extend_from_slice(&PICTURE_P)?;
        }
    }
    let film = scan(alloc, bytes)?;
    Ok(Stored::new(alloc, String::from_str(alloc, "film.mpg")?, film)?)
}

/// The run of all units.
fn run_of<U: Units>(units: &U) -> Result<Run, Fail>
    ensures { IfOk result (IsNewRun (U.sizes units.now) 0 (length (U.sizes units.now))) }
{
    match full_run(units) {
        Some(run) => Ok(run),
        None => Err(Fail::from("no run")),
    }
}

/// The plan of a run, which has these slots.
fn planned<U: Units>(
    alloc: Global,
    units: &U,
    playback: &Playback,
    run: &Run,
    slots: &[u64],
) -> Result<Plan, Fail>
    requires playback { IsPlayback playback.now }
    requires run { IsRun (U.sizes units.now) run.now }
    requires fits { Fits playback.now.buffer run.now }
    ensures { IfOk result (IsPlanOf (U.sizes units.now) playback.now run.now) }
{
    let plan = plan_of(alloc, units, playback, run)?;
    if plan.slots() != slots.len() as u64 {
        return Err(Fail::from("a plan of other slots"));
    }
    for (slot, bytes) in slots.iter().enumerate() {
        if plan.slot_bytes(slot as u64) != *bytes {
            return Err(Fail::from("a slot of other bytes"));
        }
    }
    Ok(plan)
}

/// What a halt leaves of a run whose plan has these slots.
fn halted<U: Units>(
    alloc: Global,
    units: &U,
    playback: &Playback,
    run: &Run,
    slots: &[u64],
    last: Option<u64>,
    keep: u64,
) -> Result<Run, Fail>
    requires playback { IsPlayback playback.now }
    requires run { IsRun (U.sizes units.now) run.now }
    requires fits { Fits playback.now.buffer run.now }
    ensures run { IfOk result (IsRun (U.sizes units.now)) }
    ensures fits { IfOk result (Fits playback.now.buffer) }
{
    let plan = planned(alloc, units, playback, run, slots)?;
    match last {
        Some(slot) => {
            if slot >= plan.slots() || plan.sum_at(slot) > keep || keep > plan.bytes() {
                return Err(Fail::from("no such halt"));
            }
        }
        None => {
            if keep > 0 {
                return Err(Fail::from("no such halt"));
            }
        }
    }
    Ok(run_after(units, playback, run, &plan, last, keep))
}

/// A play of pictures of 40 ms in slots of 40 ms, two slots after its start.
const PLAYBACK: Playback = Playback {
    picture_units: 14400,
    slot_units: 14400,
    buffer: 1_048_576,
    delay: 2,
};

#[test]
fn pauses_and_resumes(rt: HostRuntime) -> Result<(), Fail> {
    let alloc = rt.alloc();
    let film = film_of(alloc, 2)?;
    let run = run_of(&film)?;
    for (last, keep, from_unit, played, rest) in [
        (None, 0, 0, 0, &[35, 35, 36, 35][..]),
        (Some(0), 52, 0, 0, &[22, 22, 22, 23][..]),
        (Some(0), 106, 0, 0, &[8, 9, 9, 9][..]),
        (Some(2), 106, 0, 0, &[8, 9, 9, 9][..]),
        (Some(2), 141, 1, 106, &[0, 0, 0][..]),
    ] {
        let left = halted(alloc, &film, &PLAYBACK, &run, &[35, 35, 36, 35], last, keep)?;
        let want = Run {
            first_unit: 0,
            end_unit: 2,
            from_unit,
            sent: keep,
            played,
        };
        assert_eq!(rt; left, want, "after {last:?} with {keep}");
        planned(alloc, &film, &PLAYBACK, &left, rest)?;
    }
    Ok(())
}

#[test]
fn plays_traces(rt: HostRuntime) -> Result<(), Fail> {
    let alloc = rt.alloc();
    let playback = Playback {
        picture_units: 1,
        slot_units: 1,
        buffer: 9,
        delay: 0,
    };
    assert!(rt; full_run(&Trace::new(&[])).is_none());
    let sizes = [1, 9, 1, 1];
    let trace = Trace::new(&sizes);
    let run = run_of(&trace)?;
    let left = halted(alloc, &trace, &playback, &run, &[5, 5, 1, 1], Some(1), 10)?;
    let want = Run {
        first_unit: 0,
        end_unit: 4,
        from_unit: 1,
        sent: 10,
        played: 1,
    };
    assert_eq!(rt; left, want);
    let again = halted(alloc, &trace, &playback, &left, &[0, 1, 1], Some(1), 1)?;
    let want = Run {
        first_unit: 0,
        end_unit: 4,
        from_unit: 2,
        sent: 11,
        played: 10,
    };
    assert_eq!(rt; again, want);
    Ok(())
}

#[test]
fn refuses(rt: HostRuntime) -> Result<(), Fail> {
    let alloc = rt.alloc();
    let film = film_of(alloc, 2)?;
    let run = run_of(&film)?;
    for (picture_units, slot_units, buffer, delay, want) in [
        (
            14400,
            14400,
            105,
            2,
            CurveFault::BufferTooSmall {
                slot: 2,
                used: 106,
                least: 106,
            },
        ),
        (
            7200,
            14400,
            140,
            0,
            CurveFault::BufferTooSmall {
                slot: 0,
                used: 141,
                least: 141,
            },
        ),
    ] {
        let playback = Playback {
            picture_units,
            slot_units,
            buffer,
            delay,
        };
        let got = plan_of(alloc, &film, &playback, &run).err();
        assert_eq!(rt; got, Some(CurveRefused::Fault(want)));
    }
    Ok(())
}

#[test]
fn seeks(rt: HostRuntime) -> Result<(), Fail> {
    let film = film_of(rt.alloc(), 250)?;
    for (from, to, want) in [
        (0, None, Some((0, 250))),
        (0, Some(1), Some((0, 12))),
        (4_799_999_999, None, Some((108, 250))),
        (4_800_000_000, None, Some((120, 250))),
        (5_000_000_000, None, Some((120, 250))),
        (5_000_000_000, Some(6_000_000_000), Some((120, 156))),
        (5_000_000_000, Some(6_240_000_000), Some((120, 156))),
        (5_000_000_000, Some(6_240_000_001), Some((120, 168))),
        (9_999_999_999, Some(u128::MAX), Some((240, 250))),
        (5_000_000_000, Some(5_000_000_000), None),
        (10_000_000_000, None, None),
        (u128::MAX, None, None),
    ] {
        let got = run_between(&film.film, from, to).map(|run| (run.first_unit, run.end_unit));
        assert_eq!(rt; got, want, "from {from} to {to:?}");
    }
    Ok(())
}
