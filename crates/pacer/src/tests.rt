//! Film B: a sequence header, a group header, an I picture and one slice; a P picture and one
//! slice. Its bytes on the wire are a report of 52 bytes, a frame of 54 and a frame of 35.

use super::*;
use film_frames::{Frames, Stored, Track};
use mpeg_scan::scan;
use plan_cert::{Plan, Segment};
use rtp_pack::Identity;
use std::alloc::Global;
use std::process::Abort;
use std::test::Fail;
use vod_base::{LinkFault, MemoryLink};

const FILM_B: [u8; 49] = [
    0, 0, 1, 0xb3, 0x16, 1, 0x20, 0x13, 0xff, 0xff, 0xe0, 0xa0, 0, 0, 1, 0xb8, 0, 8, 0, 0x40, 0, 0,
    1, 0, 0, 0xf, 0xff, 0xf8, 0, 0, 1, 1, 0x12, 0x34, 0, 0, 1, 0, 0, 0x57, 0xff, 0xf8, 0x80, 0, 0,
    1, 1, 0x12, 0x34,
];

fn film_b(alloc: Global) -> Result<Stored, Fail> {
    let film = scan(alloc, Vec::from_slice(alloc, &FILM_B)?)?;
    Ok(Stored::new(alloc, String::from_str(alloc, "b.mpg")?, film)?)
}

/// A step, a step with a stop, or a halt that is asked.
#[derive(Clone, Copy, Debug)]
enum Call {
    Step(u64),
    Stop(u64),
    Halt,
}

/// What was sent and what is due after a call, whether it stands at a boundary, and whether it is
/// done.
type After = (u64, u64, bool, bool);

/// The bytes that a step sent or where a halt was, and what holds after. None where a send failed.
fn answer_to(
    pacer: &mut Pacer<Frames<'_>>,
    link: &mut MemoryLink,
    call: Call,
) -> Result<(Option<u64>, After), Fail> {
    let answer = match call {
        Call::Step(slot) => pacer.step(slot, false, link).ok().map(|step| step.sent),
        Call::Stop(slot) => pacer.step(slot, true, link).ok().map(|step| step.sent),
        Call::Halt if pacer.due() == pacer.sent() => Some(pacer.ask_halt()),
        Call::Halt => return Err(Fail::from("a halt before all was sent")),
    };
    Ok((
        answer,
        (pacer.sent(), pacer.due(), pacer.at_boundary(), pacer.done()),
    ))
}

/// A pacer of film B: 106 bytes over three slots from slot 1 on, and then 35 in one.
fn pacer_of(alloc: Global, film: &Stored) -> Result<Pacer<Frames<'_>>, Fail> {
    let segments = vec![in alloc;
        Segment {
            slots: 3,
            bytes: 106
        },
        Segment {
            slots: 1,
            bytes: 35
        },
    ]?;
    if film.film.units.len() != 2 || !Plan::is_allowed(&segments) {
        return Err(Fail::from("not film B"));
    }
    let identity = Identity {
        channel: 0,
        control: 1,
        ssrc: 0x0102_0304,
        sequence: 1,
        timestamp: 0,
        packets: 0,
        octets: 0,
    };
    let frames = Frames::new(film, 0, 2, identity);
    let plan = Plan::new(segments);
    if plan.bytes() != frames.total() {
        return Err(Fail::from("not film B's bytes"));
    }
    Ok(Pacer::new(frames, 0, plan, 1))
}

/// Calls, each with its answer and what holds after it.
type Calls<'a> = &'a [(Call, Option<u64>, After)];

/// A link whose sends of these numbers fail.
fn link_of(alloc: Global, failing: &[u64]) -> Result<MemoryLink, Fail> {
    let failing = Vec::from_slice(alloc, failing)?;
    Ok(MemoryLink::new(alloc, Vec::new(alloc), 200, failing, Vec::new(alloc))?)
}

/// The bytes that a new pacer of the film sent by these calls, over a link whose sends of these
/// numbers fail.
fn sent_by(
    rt: &impl Abort,
    alloc: Global,
    film: &Stored,
    failing: &[u64],
    calls: Calls<'_>,
) -> Result<Vec<u8>, Fail> {
    let mut pacer = pacer_of(alloc, film)?;
    let mut link = link_of(alloc, failing)?;
    for (call, answer, after) in calls {
        let got = answer_to(&mut pacer, &mut link, *call)?;
        assert_eq!(rt; got, (*answer, *after), "at {call:?}");
    }
    assert_eq!(rt; link.sent().len() as u64, pacer.sent());
    let text = format!(in alloc; "{:?}", pacer)?;
    assert_eq!(rt; text.as_str(), "Pacer { .. }");
    Ok(Vec::from_slice(alloc, link.sent())?)
}

/// All bytes of the film's play, slot after slot: the head of the report, the head of the first
/// frame, and the units.
fn whole_play(rt: &impl Abort, alloc: Global, film: &Stored) -> Result<Vec<u8>, Fail> {
    let calls: Calls = &[
        (Call::Step(0), Some(0), (0, 0, true, false)),
        (Call::Step(1), Some(35), (35, 35, false, false)),
        (Call::Step(2), Some(35), (70, 70, false, false)),
        (Call::Step(1), Some(0), (70, 70, false, false)),
        (Call::Step(3), Some(36), (106, 106, true, false)),
        (Call::Step(4), Some(35), (141, 141, true, true)),
    ];
    let whole = sent_by(rt, alloc, film, &[], calls)?;
    assert_eq!(rt; whole.get(..4), Some(&[0x24, 1, 0, 0x30][..]));
    assert_eq!(rt;
        whole.get(52..60),
        Some(&[0x24, 0, 0, 0x32, 0x80, 0xa0, 0, 1][..])
    );
    assert_eq!(rt; whole.get(72..106), FILM_B.get(..34));
    assert_eq!(rt; whole.get(126..), FILM_B.get(34..));
    Ok(whole)
}

/// The numbers of the sends that fail, and the calls.
type Row<'a> = (&'a [u64], Calls<'a>);

/// Calls that send the first bytes of the entire play.
fn sends_the_front(rt: &impl Abort, alloc: Global, rows: &[Row<'_>]) -> Result<(), Fail> {
    let film = film_b(alloc)?;
    let whole = whole_play(rt, alloc, &film)?;
    for (failing, calls) in rows {
        let sent = sent_by(rt, alloc, &film, failing, calls)?;
        assert_eq!(rt; Some(sent.as_slice()), whole.get(..sent.len()));
    }
    Ok(())
}

#[test]
fn steps_film_b(rt: HostRuntime) -> Result<(), Fail> {
    let calls: Calls = &[
        (Call::Step(1), Some(35), (35, 35, false, false)),
        (Call::Step(2), Some(35), (70, 70, false, false)),
        (Call::Step(5), Some(71), (141, 141, true, true)),
    ];
    sends_the_front(&rt, rt.alloc(), &[(&[], calls)])
}

#[test]
fn stops_and_halts_at_boundaries(rt: HostRuntime) -> Result<(), Fail> {
    let stopped: Calls = &[
        (Call::Stop(2), Some(0), (0, 70, true, false)),
        (Call::Step(1), Some(70), (70, 70, false, false)),
        (Call::Stop(4), Some(36), (106, 141, true, false)),
    ];
    let halted: Calls = &[
        (Call::Step(1), Some(35), (35, 35, false, false)),
        (Call::Halt, Some(52), (35, 35, false, false)),
        (Call::Stop(2), Some(17), (52, 52, true, true)),
        (Call::Step(4), Some(0), (52, 52, true, true)),
    ];
    let halted_at_once: Calls = &[
        (Call::Halt, Some(0), (0, 0, true, false)),
        (Call::Step(1), Some(0), (0, 0, true, true)),
    ];
    sends_the_front(
        &rt,
        rt.alloc(),
        &[(&[], stopped), (&[], halted), (&[], halted_at_once)],
    )
}

#[test]
fn goes_on_after_a_send_that_failed(rt: HostRuntime) -> Result<(), Fail> {
    let first: Calls = &[(Call::Step(1), None, (0, 35, true, false))];
    let second: Calls = &[
        (Call::Step(3), None, (52, 106, true, false)),
        (Call::Step(3), Some(54), (106, 106, true, false)),
    ];
    let third: Calls = &[
        (Call::Step(3), None, (72, 106, false, false)),
        (Call::Step(3), Some(34), (106, 106, true, false)),
    ];
    sends_the_front(
        &rt,
        rt.alloc(),
        &[(&[1], first), (&[2], second), (&[3], third)],
    )
}

#[test]
fn tells_the_last_slot_and_hands_out_the_plan(rt: HostRuntime) -> Result<(), Fail> {
    let film = film_b(rt.alloc())?;
    let mut pacer = pacer_of(rt.alloc(), &film)?;
    let mut link = link_of(rt.alloc(), &[])?;
    assert_eq!(rt; pacer.last_slot(), None);
    let third = pacer.step(3, false, &mut link)?;
    assert_eq!(rt; (third.sent, third.left), (106, 0));
    pacer.step(1, false, &mut link)?;
    assert_eq!(rt; pacer.last_slot(), Some(2));
    let (frames, plan) = pacer.end();
    assert_eq!(rt; (frames.total(), plan.bytes(), plan.slots()), (141, 141, 4));
    Ok(())
}
