//! When a connection is given up. Times are nanoseconds.

ghost use Rattle.std.specs.Prelude.{◌≡◌, []};
ghost use Rattle.socket_link.specs.Calls.{GaveBytes, TookBytes};
ghost use Rattle.socket_link.specs.Limits.{clocked, watched, is_overdue, has_passed};

use crate::sockets::Purpose;

/// For how long a peer may take nothing of the bytes that wait for it: 60 s. A peer that reads
/// again after a longer time would get all missed slots in one burst that nobody reserved.
pub const STUCK_LIMIT: u64 = 60_000_000_000;

/// Within what time after its accept something must be sent to a peer: 15 s. Players ask within
/// 0.1 s, and a silent connection holds a worker.
pub const FIRST_SEND_LIMIT: u64 = 15_000_000_000;

/// For how long a connection may be idle, on which no byte comes and none is taken: 3,600 s. The
/// 60 s of RFC 2326 section 12.37 are too short: some players send nothing while they are paused.
pub const IDLE_LIMIT: u64 = 3_600_000_000_000;

/// After how long a write is tried again while the peer takes nothing, at the latest: 1 s. The
/// system may make room in its own buffer without waking the link. So no wait at the end of a
/// connection is longer either.
pub(crate) const RETRY: u64 = 1_000_000_000;

/// For how long the link reads on after it shut its sending half down: 1 s.
pub const LINGER: u64 = 1_000_000_000;

/// The times that the limits count from, as readings of the clock.
#[derive(Clone, Copy)]
pub(crate) struct Watch {
    /// The latest reading.
    pub(crate) latest: u64,
    /// The latest reading when a byte came or was taken last; the accept before that.
    pub(crate) active: u64,
    /// The accept, until the socket takes the first byte.
    pub(crate) unanswered: Option<u64>,
    /// Since when writes take nothing.
    pub(crate) stuck: Option<u64>,
}

impl Watch {
    /// Before the first reading.
    pub(crate) const NEW: Watch = Watch {
        latest: 0,
        active: 0,
        unanswered: None,
        stuck: None,
    };

    /// After a reading of the clock.
    pub(crate) fn at(self, purpose: Purpose, time: u64) -> Watch
        ensures { result ≡ clocked self purpose time }
    {
        match purpose {
            Purpose::Accept => Watch {
                latest: time,
                active: time,
                unanswered: Some(time),
                stuck: None,
            },
            Purpose::Patience => Watch {
                latest: time,
                // The limit counts from the first write that took nothing, so later ones don't
                // restart it.
                stuck: Some(self.stuck.unwrap_or(time)),
                ..self
            },
            Purpose::Slot | Purpose::Idle | Purpose::End => Watch {
                latest: time,
                ..self
            },
        }
    }

    /// After bytes came.
    pub(crate) fn received(self) -> Watch
        ensures { result ≡ watched self (GaveBytes []) }
    {
        Watch {
            // The reading before the bytes stands for their time: each read follows a reading, so
            // bytes need none of their own.
            active: self.latest,
            ..self
        }
    }

    /// After bytes were taken.
    pub(crate) fn sent(self) -> Watch
        ensures { result ≡ watched self (TookBytes []) }
    {
        Watch {
            // Any byte that was taken shows that the peer reads, so both limits on sending end
            // here.
            active: self.latest,
            unanswered: None,
            stuck: None,
            ..self
        }
    }

    /// Whether a reading shows that a limit is reached.
    pub(crate) fn is_overdue(self, purpose: Purpose, time: u64) -> bool
        ensures { result ≡ is_overdue self purpose time }
    {
        match purpose {
            // The end of a connection has limits of its own, in `write_everything` and `linger`.
            Purpose::Accept | Purpose::Slot | Purpose::End => false,
            Purpose::Idle => {
                has_passed(FIRST_SEND_LIMIT, self.unanswered, time)
                    || has_passed(IDLE_LIMIT, Some(self.active), time)
            }
            Purpose::Patience => has_passed(STUCK_LIMIT, self.stuck, time),
        }
    }
}

/// Whether so long has passed at `time` since a reading, if there is one.
fn has_passed(limit: u64, since: Option<u64>, time: u64) -> bool
    ensures { result ≡ has_passed limit since time }
{
    // A socket doesn't promise a clock that rises: to an earlier reading no time has passed.
    since.is_some_and(|since| time.saturating_sub(since) >= limit)
}
