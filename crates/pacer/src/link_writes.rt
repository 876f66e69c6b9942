//! Sends the bytes of a track from one place up to another.

ghost use Rattle.std.specs.Prelude.{◌≡◌, ◌++◌, ◌+◌, ◌≤◌, ◌<◌, length, take, min, MatchResult, IfOk};
ghost use Rattle.std.specs.Prelude.{IfErr, OnErr, OnOk};
ghost use Rattle.vod_base.specs.IoState.{HasRisen};
ghost use Rattle.film_frames.specs.Tracks.{framed_bytes};
ghost use Rattle.vod_base.specs.Links.{told_more, sends, IsSentPrefix};
ghost use Rattle.pacer.specs.Boundaries.{IsSeam, bytes_between};
ghost use Rattle.pacer.specs.PartialSends.{HasStopped};

use film_frames::{HEAD_BUFFER_BYTES, Track};
use vod_base::{Link, LinkFault};

/// A sending that failed: how many bytes the sends before brought out.
#[derive(Clone, Copy, Debug)]
pub(crate) struct SendError(pub(crate) u64);

/// Sends the bytes of a track from one place up to another, in at most two sends for each of its
/// parts: no send reaches across a boundary or from a frame's heads into its payload.
pub(crate) fn send_between<T: Track, K: Link>(
    track: &T,
    from: u64,
    to: u64,
    link: &mut K,
) -> Result<(), SendError>
    requires order { from ≤ to }
    requires within { to ≤ length (framed_bytes (T.pieces track.now)) }
    ensures count { K.faults link.old ≤ K.faults link.new }
    ensures fault { OnErr result (HasRisen (K.faults link.old) (K.faults link.new)) }
    ensures whole { OnOk result (K.told link.new ≡ told_more (K.told link.old)
        (sends (bytes_between (T.pieces track.now) from to))) }
    ensures stopped { IfErr result (λ stopped.
        HasStopped (λ place. IsSeam (T.pieces track.now) (from + place))
        (bytes_between (T.pieces track.now) from to) (K.told link.old) (K.told link.new)
        stopped.0) }
{
    let mut head = [0; HEAD_BUFFER_BYTES];
    let mut at = from;
    while at < to {
        let part = track.part(at, &mut head);
        let front = &head[part.head_from..part.head_to];
        match send_part(front, part.payload, to - at, link) {
            Ok(sent) => at += sent,
            // Only complete sends count. How much of the failed one went out is not known.
            Err(SendError(sent)) => return Err(SendError(at - from + sent)),
        }
    }
    Ok(())
}

/// The first `most` bytes, or all if there are fewer.
fn front(bytes: &[u8], most: u64) -> &[u8]
    ensures { result.now ≡ take most bytes.now }
{
    if (bytes.len() as u64) < most {
        bytes
    } else {
        &bytes[..most as usize]
    }
}

/// Sends bytes in one send, or in none where there are none.
fn send_some<K: Link>(bytes: &[u8], link: &mut K) -> Result<(), LinkFault>
    ensures count { K.faults link.old ≤ K.faults link.new }
    ensures fault { OnErr result (HasRisen (K.faults link.old) (K.faults link.new)) }
    ensures some { OnErr result (0 < length bytes.now) }
    ensures whole { OnOk result (K.told link.new ≡ told_more (K.told link.old) (sends bytes.now)) }
    ensures front { OnErr result (IsSentPrefix (K.told link.old) (K.told link.new) bytes.now) }
{
    // No call of the link for nothing: reports have no payload, and a part may have no head.
    if bytes.is_empty() {
        return Ok(());
    }
    link.send(bytes)
}

/// Sends the first `most` bytes of a head and the payload after it, in a send for each of the two
/// that has some of them. It returns how many they were.
fn send_part<K: Link>(
    head: &[u8],
    payload: &[u8],
    most: u64,
    link: &mut K,
) -> Result<u64, SendError>
    requires { length head.now ≤ HEAD_BUFFER_BYTES }
    ensures count { K.faults link.old ≤ K.faults link.new }
    ensures fault { OnErr result (HasRisen (K.faults link.old) (K.faults link.new)) }
    ensures number { IfOk result (λ n. n ≡ min (length (head.now ++ payload.now)) most) }
    ensures whole { OnOk result
        (K.told link.new
        ≡ told_more (K.told link.old) (sends (take most (head.now ++ payload.now)))) }
    ensures stopped { IfErr result (λ stopped. HasStopped (λ place. place ≡ length head.now)
        (take most (head.now ++ payload.now)) (K.told link.old) (K.told link.new) stopped.0) }
{
    let head = front(head, most);
    // Head and payload go out in a send each, so the payload, which lies in the film, isn't copied.
    let head_bytes = head.len() as u64;
    let payload = front(payload, most - head_bytes);
    let Ok(()) = send_some(head, link) else {
        return Err(SendError(0));
    };
    let Ok(()) = send_some(payload, link) else {
        return Err(SendError(head_bytes));
    };
    Ok(head_bytes + payload.len() as u64)
}
