//! The link over a socket in memory: its limits, its slots, and what short reads and writes do.

use crate::links::{LinkBuffer, SocketLink};
use crate::memory_sockets::{MemorySocket, NotedCall, ScriptedRead, ScriptedWrite};
use std::alloc::{AllocError, Global};
use std::fmt;
use std::test::Fail;
use vod_base::{Heard, Link, LinkFault};

/// Slots of 1 s.
const SECOND: u32 = 360_000;

/// A link as the tests call it.
///
/// The trait has no clauses: those of the link are long, and a proof over them repeats them at each
/// call.
trait TestLink {
    /// Waits for the next event, of two bytes at most.
    fn hear(&mut self) -> Result<Heard, LinkFault>;

    /// Sends bytes.
    fn say(&mut self, bytes: &[u8]) -> Result<(), LinkFault>;

    /// Closes the connection.
    fn finish(&mut self) -> Result<(), LinkFault>;

    /// Returns what its socket did.
    fn notes(&self) -> &[NotedCall];
}

impl TestLink for SocketLink<MemorySocket> {
    fn hear(&mut self) -> Result<Heard, LinkFault> {
        self.next(&mut [0; 2])
    }

    fn say(&mut self, bytes: &[u8]) -> Result<(), LinkFault> {
        self.send(bytes)
    }

    fn finish(&mut self) -> Result<(), LinkFault> {
        self.close()
    }

    fn notes(&self) -> &[NotedCall] {
        self.socket.notes.as_slice()
    }
}

/// What a read of a script answers.
#[derive(Clone, Copy)]
enum Read {
    Bytes(&'static [u8]),
    Nothing,
    Interrupted,
    End,
    Fault,
}

/// The same, as a socket in memory takes it.
fn scripted_read(alloc: Global, read: &Read) -> Result<ScriptedRead, AllocError> {
    Ok(match read {
        Read::Bytes(bytes) => ScriptedRead::Bytes(bytes.to_vec(alloc)?),
        Read::Nothing => ScriptedRead::Nothing,
        Read::Interrupted => ScriptedRead::Interrupted,
        Read::End => ScriptedRead::End,
        Read::Fault => ScriptedRead::Fault,
    })
}

/// A script of reads.
fn scripted_reads(alloc: Global, reads: &[Read]) -> Result<Vec<ScriptedRead>, AllocError> {
    let mut script = Vec::new(alloc);
    for read in reads {
        script.push(scripted_read(alloc, read)?)?;
    }
    Ok(script)
}

/// A link over a socket that follows these scripts.
fn scripted(
    alloc: Global,
    time: u64,
    slot_units: u32,
    reads: &[Read],
    writes: &[ScriptedWrite],
) -> Result<SocketLink<MemorySocket>, Fail> {
    let buffer = LinkBuffer::new(alloc)?;
    let reads = scripted_reads(alloc, reads)?;
    let socket = MemorySocket::new(alloc, time, reads, writes.to_vec(alloc)?);
    Ok(SocketLink::new(buffer, socket, slot_units)?)
}

/// Fails with a text, unless a condition is true.
fn expect(condition: bool, otherwise: &str) -> Result<(), Fail> {
    if condition {
        Ok(())
    } else {
        Err(Fail::from(otherwise))
    }
}

/// Expects that the link answers so.
fn hears<K: TestLink>(link: &mut K, answers: &[Result<Heard, LinkFault>]) -> Result<(), Fail> {
    for answer in answers {
        expect(link.hear() == *answer, "another event")?;
    }
    Ok(())
}

/// How many events come before the link fails, of at most 10,000.
fn events<K: TestLink>(link: &mut K) -> u64 {
    for count in 0..10_000 {
        if link.hear().is_err() {
            return count;
        }
    }
    10_000
}

/// Whether the socket took exactly these bytes.
fn has_taken<K: TestLink>(link: &K, bytes: &[u8]) -> bool {
    let mut rest = bytes;
    for note in link.notes() {
        if let NotedCall::Took(taken) = note {
            let Some(more) = rest.strip_prefix(taken.as_slice()) else {
                return false;
            };
            rest = more;
        }
    }
    rest.is_empty()
}

/// How often a link waited, and the shortest and the longest time, in nanoseconds.
fn waits<K: TestLink>(link: &K) -> (u64, u64, u64) {
    let mut count = 0_u64;
    let mut shortest = u64::MAX;
    let mut longest = 0;
    for note in link.notes() {
        if let NotedCall::Wait(most) = note {
            count = count.saturating_add(1);
            shortest = shortest.min(*most);
            longest = longest.max(*most);
        }
    }
    (count, shortest, longest)
}

/// A link on which something is sent, if anything, fails after so many events.
fn fails_after<K: TestLink + Drop>(
    mut link: K,
    sent: &str,
    count: u64,
    taken: &str,
) -> Result<(), Fail> {
    expect(
        sent.is_empty() || link.say(sent.as_bytes()).is_ok(),
        "not sent",
    )?;
    expect(events(&mut link) == count, "another number of events")?;
    expect(has_taken(&link, taken.as_bytes()), "other bytes")
}

#[test]
fn a_limit_ends_the_connection(rt: HostRuntime) -> Result<(), Fail> {
    let mut stuck = [ScriptedWrite::Nothing; 201];
    stuck[0] = ScriptedWrite::Bytes(1);
    for (time, sent, writes, count, taken) in [
        // nothing is sent for 15 s
        (0, "", [].as_slice(), 15, ""),
        (1, "", &[], 16, ""),
        // the peer takes nothing for 60 s
        (0, "ab", &stuck, 60, "a"),
        (1, "ab", &stuck, 61, "a"),
        // nothing happens for an hour
        (0, "a", &[], 3_600, "a"),
        (1, "a", &[], 3_601, "a"),
    ] {
        let link = scripted(rt.alloc(), time, SECOND, &[], writes)?;
        fails_after(link, sent, count, taken)?;
    }
    Ok(())
}

/// A slot comes before bytes, which come two at most at a time, and each wait ends with a slot.
fn hears_slots_first<K: TestLink + Drop>(mut link: K, slot: u64) -> Result<(), Fail> {
    hears(
        &mut link,
        &[
            Ok(Heard::Slot(0)),
            Ok(Heard::Bytes(2)),
            Ok(Heard::Bytes(1)),
            Ok(Heard::Slot(1)),
            Ok(Heard::End),
        ],
    )?;
    let (count, shortest, longest) = waits(&link);
    expect(
        count > 0 && shortest == slot && longest == slot,
        "another wait",
    )
}

#[test]
fn a_slot_comes_before_bytes_and_is_waited_for(rt: HostRuntime) -> Result<(), Fail> {
    let reads = [
        Read::Interrupted,
        Read::Bytes(b"abc"),
        Read::Nothing,
        Read::End,
    ];
    for (slot_units, slot) in [(14_400, 40_000_000), (SECOND, 1_000_000_000)] {
        hears_slots_first(scripted(rt.alloc(), 0, slot_units, &reads, &[])?, slot)?;
    }
    Ok(())
}

/// The bytes are sent in pieces of 10,007, and all of them are taken until the connection ends.
fn sends_in_pieces<K: TestLink + Drop>(mut link: K, bytes: &[u8]) -> Result<(), Fail> {
    for piece in bytes.chunks(10_007) {
        expect(link.say(piece).is_ok(), "not sent")?;
    }
    expect(link.finish().is_ok(), "not closed")?;
    expect(has_taken(&link, bytes), "other bytes")
}

/// A megabyte, in which the bytes from 0 to 255 come again and again.
fn megabyte(alloc: Global) -> Result<Vec<u8>, AllocError> {
    let mut bytes = Vec::with_capacity(alloc, 1_048_576)?;
    for _ in 0..4_096 {
        for byte in 0..=255 {
            bytes.push(byte)?;
        }
    }
    Ok(bytes)
}

/// Takes a value that may go to another thread.
fn take_sent<T: Send>(_value: &T) {}

#[test]
fn a_megabyte_in_pieces_arrives_complete(rt: HostRuntime) -> Result<(), Fail> {
    let mut writes = [ScriptedWrite::Nothing; 18];
    for (index, size) in [1, 7, 1_000, 16_383, 16_384, 3].into_iter().enumerate() {
        writes[index * 3] = ScriptedWrite::Bytes(size);
        writes[index * 3 + 1] = ScriptedWrite::Interrupted;
    }
    let buffer = LinkBuffer::new(rt.alloc())?;
    assert!(rt; is_printed(rt.alloc(), &buffer, "LinkBuffer { .. }"));
    let link = scripted(rt.alloc(), 0, SECOND, &[], &writes)?;
    take_sent(&link);
    sends_in_pieces(link, megabyte(rt.alloc())?.as_slice())
}

/// A read and a write that fail are faults, and the link goes on after the first.
fn answers_faults<K: TestLink + Drop>(mut link: K) -> Result<(), Fail> {
    hears(
        &mut link,
        &[Ok(Heard::Slot(0)), Err(LinkFault), Ok(Heard::Bytes(1))],
    )?;
    expect(link.say(b"b").is_ok(), "not sent")?;
    hears(&mut link, &[Err(LinkFault)])
}

/// Whether a value is printed so.
fn is_printed<T: fmt::Debug>(alloc: Global, value: &T, want: &str) -> bool {
    matches!(format!(in alloc; "{value:?}"), Ok(text) if text.as_str() == want)
}

#[test]
fn faults_are_answered(rt: HostRuntime) -> Result<(), Fail> {
    let reads = [Read::Fault, Read::Bytes(b"a")];
    let writes = [ScriptedWrite::Fault];
    let link = scripted(rt.alloc(), 0, SECOND, &reads, &writes)?;
    let printed = "SocketLink { socket: MemorySocket { .. }, .. }";
    assert!(rt; is_printed(rt.alloc(), &link, printed));
    answers_faults(link)
}

/// The last bytes are sent, and the peer's are read to their end.
fn closes<K: TestLink + Drop>(mut link: K) -> Result<(), Fail> {
    expect(link.say(b"last reply").is_ok(), "not sent")?;
    expect(link.finish().is_ok(), "not closed")?;
    expect(has_taken(&link, b"last reply"), "other bytes")?;
    expect(
        matches!(link.notes().last(), Some(NotedCall::Ended)),
        "no end",
    )
}

#[test]
fn a_closed_connection_is_written_out_and_read_on(rt: HostRuntime) -> Result<(), Fail> {
    let reads = [Read::Bytes(b"late"), Read::End];
    closes(scripted(rt.alloc(), 0, SECOND, &reads, &[])?)
}

/// A close answers so, after so many waits of a second.
fn closes_late<K: TestLink + Drop>(
    mut link: K,
    answer: Result<(), LinkFault>,
    waited: u64,
) -> Result<(), Fail> {
    expect(link.say(b"last reply").is_ok(), "not sent")?;
    expect(link.finish() == answer, "another answer")?;
    let (count, _, longest) = waits(&link);
    expect(count == waited && longest == 1_000_000_000, "another wait")
}

#[test]
fn a_closed_connection_is_written_to_each_second(rt: HostRuntime) -> Result<(), Fail> {
    let nothing = [ScriptedWrite::Nothing; 200];
    // after this many writes that took nothing; and the answer, with the second of reading on
    for (writes, answer, waited) in [
        (&nothing[..2], Ok(()), 3),
        (nothing.as_slice(), Err(LinkFault), 60),
    ] {
        let link = scripted(rt.alloc(), 0, SECOND, &[], writes)?;
        closes_late(link, answer, waited)?;
    }
    Ok(())
}
