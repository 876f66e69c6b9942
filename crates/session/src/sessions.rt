//! A session as its connection sees it: how it begins, what waits, and what it leaves.

ghost use Rattle.std.specs.Prelude.{◌≡◌, ◌≤◌, [], false, None, IfOk, IfSome, MatchOption};
ghost use Rattle.film_streams.specs.SettingRanges.{AreFilms, AreSettings};
ghost use Rattle.session.specs.RequestSteps.{new_session_state};
ghost use Rattle.session.specs.SessionStates.{CanKeep, AwaitsNoAnswer, IsDue, open_of};

use crate::states::{Awaited, State, Teardown};
use film_frames::Stored;
use film_streams::{Counts, NOTHING_SENT, Settings, StreamSource, source_of};
use rtsp_fields::session_id;
use rtsp_replies::Text;
use rtsp_text::Reply;
use session_records::{Notes, RESERVED_LOOKS, Records};
use std::alloc::Global;
use std::fmt;
use std::marker::Model;
use vod_base::{LATEST_SLOT, NoMemory};

/// One RTSP session of a connection (RFC 2326): what it asked of the station, and the play that it
/// sends.
///
/// Contracts see a record of named fields, and use the definitions of its specification.
#[derive(Drop)]
pub struct Session<'a> {
    /// What the session takes memory from.
    pub(crate) alloc: Global,
    /// The server's films.
    pub(crate) films: &'a [Stored],
    /// The server's settings.
    pub(crate) settings: Settings,
    /// The session's id, in hexadecimal digits.
    pub(crate) id: [u8; 16],
    /// What its stream begins with.
    pub(crate) source: StreamSource,
    /// Its state.
    pub(crate) state: State<'a>,
    /// What was sent before the current run, or in all where there is none.
    pub(crate) counts: Counts,
    /// What the station was asked and hasn't answered.
    pub(crate) awaited: Awaited<'a>,
    /// The reply, or the beginning of the one that the station's answer completes.
    pub(crate) reply: Reply,
    /// The reply's body.
    pub(crate) body: Text,
    /// Whether the reply waits to be sent.
    pub(crate) waits: bool,
    /// How far a TEARDOWN has come.
    pub(crate) teardown: Teardown,
    /// Whether a call of the link failed.
    pub(crate) lost: bool,
    /// The greatest slot up to 2^62 that arrived.
    pub(crate) heard: u64,
    /// The slots that were missed while plays were sent.
    pub(crate) late: u64,
    /// How many more looks there is room for from the beginning.
    pub(crate) looks_left: usize,
    /// What is noted for the report.
    pub(crate) log: Records,
}

impl<'a> Model for Session<'a> {
    ghost use Rattle.session.specs.SessionStates.{SessionState};

    ghost Value = { SessionState };

    ghost use Rattle.session.specs.SessionInvariant.{session_state_of, IsSessionInvariant};

    ghost view = { session_state_of };

    ghost invariant = { IsSessionInvariant };
}

impl fmt::Debug for Session<'_> {
    fn fmt<W: fmt::Write>(&self, f: &mut fmt::Formatter<W>) -> fmt::Result {
        f.debug_struct("Session")
            .field("waits", &self.waits)
            .field("lost", &self.lost)
            .field("heard", &self.heard)
            .field("late", &self.late)
            .finish_non_exhaustive()
    }
}

impl<'a> Session<'a> {
    /// Makes the session of a new connection, in Init. The words are the connection's own random
    /// numbers: two for the session's id, the SSRC, the sequence number of the first frame in 16
    /// bits, and the timestamp of the film's beginning.
    ///
    /// # Errors
    ///
    /// [`NoMemory`] where there is none for the reply or for the receipts of 1,024 looks.
    pub fn new(
        alloc: Global,
        films: &'a [Stored],
        settings: Settings,
        words: [u32; 5],
    ) -> Result<Session<'a>, NoMemory>
        // needs: settings and films within their ranges
        requires settings { AreSettings settings }
        requires films { AreFilms films.now }
        // answers: the session at its beginning
        ensures exact { IfOk result (λ session. session ≡ new_session_state films.now settings
            words) }
        // which means: nothing is awaited, open, waiting, failed or noted
        ensures rest { IfOk result (λ session. AwaitsNoAnswer session) }
        ensures open { IfOk result (λ session. open_of session ≡ None) }
        ensures replies { IfOk result (λ session. session.waits ≡ false) }
        ensures tearing { IfOk result (λ session. session.tearing ≡ false) }
        ensures torn { IfOk result (λ session. session.torn ≡ false) }
        ensures lost { IfOk result (λ session. session.lost ≡ false) }
        ensures heard { IfOk result (λ session. session.heard ≡ 0) }
        ensures receipts { IfOk result (λ session. session.receipts ≡ []) }
        ensures plays { IfOk result (λ session. session.plays ≡ []) }
        ensures offers { IfOk result (λ session. session.offers ≡ []) }
        ensures late { IfOk result (λ session. session.late ≡ 0) }
    {
        let id = session_id(u64::from(words[0]) * (1 << 32) + u64::from(words[1]));
        let source = source_of(&words);
        // Taken here: later calls then write replies, bodies and receipts without an error.
        let reply = Reply::new(alloc)?;
        let body = Text::new(alloc)?;
        let log = Records::new(alloc)?;
        Ok(Session {
            alloc,
            films,
            settings,
            id,
            source,
            state: State::Init,
            counts: NOTHING_SENT,
            awaited: Awaited::Nothing,
            reply,
            body,
            waits: false,
            teardown: Teardown::Unanswered,
            lost: false,
            heard: 0,
            late: 0,
            looks_left: RESERVED_LOOKS,
            log,
        })
    }

    /// Returns whether a reply waits.
    pub fn waits(&self) -> bool
        ensures { result ≡ self.now.waits }
    {
        self.waits
    }

    /// Returns whether the 200 of a TEARDOWN was sent.
    pub fn torn(&self) -> bool
        ensures { result ≡ self.now.torn }
    {
        matches!(self.teardown, Teardown::Sent)
    }

    /// Returns whether a link call of the session failed: [`Session::slot`] or [`Session::reply`]
    /// returned an error. From then on [`Session::hear`] may not be called.
    pub fn link_failed(&self) -> bool
        ensures { result ≡ self.now.lost }
    {
        self.lost
    }

    /// Returns what is due of the open booking, in bytes of its plan, if there is one.
    pub fn open_due(&self) -> Option<u64>
        ensures due { MatchOption result (open_of self.now ≡ None) (IsDue (open_of self.now)) }
        ensures within { IfSome result (CanKeep (open_of self.now)) }
    {
        match &self.state {
            // In Stopping the station has noted the halt already, so nothing is open.
            State::Playing(_, play) => Some(play.pacer.due()),
            _ => None,
        }
    }

    /// Returns the greatest slot up to 2^62 that arrived, at first 0.
    pub fn heard_slot(&self) -> u64
        ensures slot { result ≡ self.now.heard }
        ensures most { result ≤ LATEST_SLOT }
    {
        self.heard
    }

    /// Hands out what the connection leaves for its report.
    pub fn notes(self) -> Notes
        // needs: no answer is awaited, and no booking is open
        requires rest { AwaitsNoAnswer self }
        requires closed { open_of self ≡ None }
        // answers: all that was noted
        ensures receipts { result.receipts.items ≡ self.entry.receipts }
        ensures plays { result.plays.items ≡ self.entry.plays }
        ensures offers { result.offers.items ≡ self.entry.offers }
        ensures late { result.late ≡ self.entry.late }
    {
        let late = self.late;
        self.log.into_notes(late)
    }
}
