//! `serve` serves its connections at the same time: each of two receives its slot 2 only after film
//! bytes were sent to the other.

ghost use Rattle.std.specs.Prelude.{◌≤◌, None, length};

use crate::run_results::Ended;
use crate::tests::materials::{library_of_film, words_of};
use crate::tests::scenes::carry_out;
use conn::ConnEnd;
use std::alloc::Global;
use std::sync::Wait;
use std::sync::atomic::{AtomicU64, Ordering};
use std::test::Fail;
use std::thread::Threads;
use std::time::Duration;
use vod_base::{Gate, GateFault, Heard, Link, LinkFault, MemorySink, NoMemory, Opening};

/// What the workers' first connections receive at once. The session ids are drawn from the seed of
/// 32 bytes 7.
const FIRST: &[u8] =
    b"SETUP rtsp://h/b.mpg RTSP/1.0\r\nCSeq: 1\r\nTransport: RTP/AVP/TCP\r\nx-Startup: 2\r\n\r\n\
PLAY rtsp://h/b.mpg RTSP/1.0\r\nCSeq: 2\r\nSession: 789200f441f6aa57\r\n\r\n";

const SECOND: &[u8] =
    b"SETUP rtsp://h/b.mpg RTSP/1.0\r\nCSeq: 1\r\nTransport: RTP/AVP/TCP\r\nx-Startup: 2\r\n\r\n\
PLAY rtsp://h/b.mpg RTSP/1.0\r\nCSeq: 2\r\nSession: d67b3bbfad1f4676\r\n\r\n";

/// The sends that each of two links made. The first that has film bytes is the third.
#[derive(Drop)]
struct Sends {
    first: AtomicU64,
    second: AtomicU64,
}

/// How often a link looks for the other's third send, each time for up to a millisecond.
const MAX_LOOKS: u64 = 20_000;

/// A link whose events are requests, slot 1, the slots 2 to 4 once the other link made its third
/// send, and its end.
#[derive(Drop)]
struct MeetingLink<'a, R> {
    rt: &'a R,
    request: &'static [u8],
    own: &'a AtomicU64,
    other: &'a AtomicU64,
    calls: u64,
    faults: u64,
}

impl<R: Wait> MeetingLink<'_, R> {
    /// Whether the other made its third send.
    fn meets(&self) -> bool {
        for _ in 0..MAX_LOOKS {
            let sends = self.other.load(Ordering::SeqCst);
            if sends >= 3 {
                return true;
            }
            self.other
                .park_timeout(self.rt, sends as u32, Duration::from_millis(1));
        }
        false
    }

    /// Delivers the requests.
    fn requests(&self, into: &mut [u8]) -> usize
        ensures { result ≤ length into.new }
    {
        let count = self.request.len().min(into.len());
        into[..count].copy_from_slice(&self.request[..count]);
        count
    }
}

impl<R: Wait> Link for MeetingLink<'_, R> {
    ghost faults = { λ l. l.faults };

    ghost told = { λ _. None };

    fn next(&mut self, into: &mut [u8]) -> Result<Heard, LinkFault> {
        self.calls = self.calls.saturating_add(1);
        if self.calls == 1 {
            let count = self.requests(into);
            return Ok(if count == 0 {
                Heard::End
            } else {
                Heard::Bytes(count)
            });
        }
        if self.calls == 3 && !self.meets() {
            self.faults = self.faults.saturating_add(1);
            return Err(LinkFault);
        }
        if self.calls > 5 {
            return Ok(Heard::End);
        }
        Ok(Heard::Slot(self.calls - 1))
    }

    fn send(&mut self, _bytes: &[u8]) -> Result<(), LinkFault> {
        self.own.fetch_add(1, Ordering::SeqCst);
        self.own.wake_all();
        Ok(())
    }
}

/// A gate of two parts, which give one link each.
#[derive(Drop)]
struct MeetingGate<'a, R> {
    rt: &'a R,
    sends: &'a Sends,
    parts: u64,
    given: bool,
    faults: u64,
}

impl<'a, R: Wait> Gate for MeetingGate<'a, R> {
    type Conn = MeetingLink<'a, R>;

    ghost faults = { λ g. g.faults };

    ghost told = { λ _. None };

    fn open(&mut self, _how: &Opening) -> Result<(), GateFault> {
        Ok(())
    }

    fn split(&mut self) -> Result<Self, GateFault> {
        self.parts = self.parts.saturating_add(1);
        Ok(MeetingGate {
            rt: self.rt,
            sends: self.sends,
            parts: self.parts,
            given: false,
            faults: 0,
        })
    }

    fn take(&mut self) -> Result<Option<MeetingLink<'a, R>>, GateFault> {
        if self.given {
            return Ok(None);
        }
        self.given = true;
        let first = self.parts == 1;
        let (own, other) = if first {
            (&self.sends.first, &self.sends.second)
        } else {
            (&self.sends.second, &self.sends.first)
        };
        Ok(Some(MeetingLink {
            rt: self.rt,
            request: if first { FIRST } else { SECOND },
            own,
            other,
            calls: 0,
            faults: 0,
        }))
    }

    fn give_back(&mut self, _conn: MeetingLink<'a, R>) {}

    fn rejoin(&mut self, part: Self) {
        self.faults = self.faults.saturating_add(part.faults);
    }
}

/// Runs the program with these arguments over a library of the film and a gate of two parts.
fn carry_out_over<R: Threads + Wait + Sync>(
    rt: &R,
    alloc: Global,
    words: &[String],
    gate: &mut MeetingGate<'_, R>,
) -> Result<Ended, NoMemory> {
    let mut library = library_of_film(alloc)?;
    let mut out = MemorySink::new(alloc, 1 << 20, Vec::new(alloc))?;
    let mut err = MemorySink::new(alloc, 1 << 20, Vec::new(alloc))?;
    Ok(carry_out(rt, alloc, words, &mut library, &mut out, &mut err, gate))
}

/// The status of a run with this line over a gate of two parts, the length of its journal, the
/// number of its reports, and whether all the reported connections ended as they should.
fn meet<R: Threads + Wait + Sync>(
    rt: &R,
    alloc: Global,
    line: &str,
) -> Result<(u8, usize, usize, bool), NoMemory> {
    let sends = Sends {
        first: AtomicU64::new(0),
        second: AtomicU64::new(0),
    };
    let mut gate = MeetingGate {
        rt,
        sends: &sends,
        parts: 0,
        given: false,
        faults: 0,
    };
    let words = words_of(alloc, line)?;
    let ended = carry_out_over(rt, alloc, &words, &mut gate)?;
    let is_ended = ended
        .reports
        .iter()
        .all(|report| report.end == ConnEnd::Ended);
    Ok((
        ended.status,
        ended.journal.len(),
        ended.reports.len(),
        is_ended,
    ))
}

#[test]
fn serves_two_at_the_same_time(rt: HostRuntime) -> Result<(), Fail> {
    let met = meet(&rt, rt.alloc(), "serve film=b.mpg workers=2 capacity=100")?;
    assert_eq!(rt; met, (0, 4, 2, true));
    Ok(())
}
