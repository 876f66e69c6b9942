//! The sizes and bytes of short films and traces are worked out by hand.

mod films;
mod sizes;

use crate::{TraceTrack, Track};

#[test]
fn tracks_traces(rt: HostRuntime) {
    let sizes = Vec::from_slice(rt.alloc(), &[3, 0, 2000, 5]).expect(&rt, "sizes");
    let track = TraceTrack::new(sizes).expect(&rt, "a track");
    assert!(rt; track.total() == 2008);
    for (at, want) in &[
        (0, 0),
        (1, 3),
        (3, 3),
        (4, 2003),
        (2003, 2003),
        (2004, 2008),
        (2008, 2008),
    ] {
        assert!(rt; track.boundary_after(*at) == *want, "at {at}");
    }
    let mut head = [9; 52];
    for (at, want) in &[
        (0, 3),
        (2, 1),
        (3, 1024),
        (979, 1024),
        (980, 1023),
        (2002, 1),
        (2003, 5),
        (2007, 1),
    ] {
        let part = track.part(*at, &mut head);
        let size = part.head_to - part.head_from + part.payload.len();
        assert!(rt; size == *want, "at {at}: {size}");
        assert!(rt; part.payload.iter().all(|byte| *byte == 0), "at {at}");
    }
}

#[test]
fn tracks_no_frames(rt: HostRuntime) {
    let none = TraceTrack::new(Vec::new(rt.alloc())).expect(&rt, "a track");
    assert!(rt; none.total() == 0);
    assert!(rt; none.boundary_after(0) == 0);
    let text = format!(in rt.alloc(); "{none:?}").expect(&rt, "a text");
    assert!(rt; text.as_str() == "TraceTrack { .. }");
}
