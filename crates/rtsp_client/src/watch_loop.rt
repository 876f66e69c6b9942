//! A film watched from the first request to the last reply.

ghost use Rattle.std.specs.Prelude.{◌≡◌, ◌≤◌};
ghost use Rattle.vod_base.specs.IoState.{HasRisen};
ghost use Rattle.rtsp_client.specs.Causes.{HasCause};
ghost use Rattle.rtsp_client.specs.WatchCourses.{HasWatched};
ghost use Rattle.rtsp_client.specs.WatchStart.{HasWatchedOn, IsNewClient};
ghost use Rattle.rtsp_client.specs.WatchRequests.{IsWish};
ghost use Rattle.rtsp_client.specs.declared.watch_request.WatchEnd.{WatchEnd};

use crate::clients::Client;
use crate::watch_request::{WatchEnd, WatchFault, Wish};
use std::alloc::Global;
use std::ops::ControlFlow;
use vod_base::{Link, MAX_EVENTS, MAX_READ_BYTES, Sink};

/// Watches a film over a link and hands its bytes on to `out`.
///
/// The client asks for SETUP, PLAY and TEARDOWN (RFC 2326 section 10), each after the reply before
/// it, and for TEARDOWN once all pictures are complete. The payload of each frame goes to `out` as
/// the frame is complete. At each new slot from the play's first one on the meter of the client's
/// buffer is read.
pub fn watch<K: Link, O: Sink>(alloc: Global, wish: &Wish, link: &mut K, out: &mut O) -> WatchEnd
    // needs: a wish in range
    requires wish { IsWish wish.now }
    // faults: of the link or the output, only where its count rose
    ensures count { K.faults link.old ≤ K.faults link.new }
    ensures count_out { O.faults out.old ≤ O.faults out.new }
    ensures link { result ≡ WatchEnd.LinkFault → HasRisen (K.faults link.old) (K.faults link.new) }
    ensures out { result ≡ WatchEnd.SinkFault → HasRisen (O.faults out.old) (O.faults out.new) }
    // answers: what the events lead to, by the definition of a watching
    ensures watched { HasWatched wish.now result
        (K.told link.old) (K.told link.new) (O.written out.old) (O.written out.new) }
{
    let Ok(mut client) = Client::new(alloc) else {
        return WatchEnd::NoMemory;
    };
    match client.start(wish, link) {
        Err(end) => end,
        Ok(()) => hear_all(wish, &mut client, link, out),
    }
}

/// Processes events until one of them ends the watching.
fn hear_all<K: Link, O: Sink>(
    wish: &Wish,
    client: &mut Client,
    link: &mut K,
    out: &mut O,
) -> WatchEnd
    // needs: a client that has sent SETUP and received nothing
    requires wish { IsWish wish.now }
    requires new { IsNewClient client.old }
    // fails: only where the link or the output counted a fault
    ensures count { K.faults link.old ≤ K.faults link.new }
    ensures count_out { O.faults out.old ≤ O.faults out.new }
    // answers: what the course of the client says
    ensures watched { HasWatchedOn wish.now result
        (K.told link.old) (K.told link.new) (O.written out.old) (O.written out.new) }
    ensures cause { HasCause result (K.faults link.old) (K.faults link.new) (O.faults out.old)
        (O.faults out.new) }
{
    let mut bytes = [0; MAX_READ_BYTES];
    // The limit on events bounds the bytes that are received (`MAX_INPUT_BYTES`).
    'events: for _event in 0..MAX_EVENTS {
        let Ok(heard) = link.next(&mut bytes) else {
            return WatchEnd::LinkFault;
        };
        if let ControlFlow::Break(end) = client.hear(wish, heard, &bytes, link, out) {
            return end;
        }
    }
    WatchEnd::Fault(WatchFault::TurnsSpent)
}
