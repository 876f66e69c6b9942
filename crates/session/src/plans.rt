//! The plan of a play.

ghost use Rattle.std.specs.Prelude.{◌≡◌, ℕ, List, Option, length, option_map, IfOk, IfSome};
ghost use Rattle.film_run.specs.Plans.{IsPlayback};
ghost use Rattle.film_streams.specs.Films.{OfFilm};
ghost use Rattle.session.specs.RequestedPlans.{IsPausedIn, IsPlanned};
ghost use Rattle.session.specs.RunRequests.{IsAskedRun, IsPlayable, IsRunOf, counts_before};
ghost use Rattle.session.specs.RunRequests.{counts_for, playback_of, run_of};
ghost use Rattle.film_streams.specs.SettingRanges.{AreSettings, IsSetup};

use crate::films::{frames_of, stored_at};
use crate::play_requests::{PlayRequest, requested_run};
use crate::sessions::Session;
use film_frames::Stored;
use film_run::{Playback, Run, plan_of};
use film_streams::{Counts, Settings, Setup, StreamSource, counts_after};
use mpeg_scan::Film;
use plan_cert::Plan;
use rtsp_methods::Refusal;

/// A run that is to be sent, what was sent before it, and the plan by which it is sent.
#[derive(Debug, Drop)]
pub struct Planned {
    /// The run.
    pub(crate) run: Run,
    /// The frames and octets that were sent before it.
    pub(crate) counts: Counts,
    /// The bytes of each slot.
    pub(crate) plan: Plan,
}

/// How a client plays a film, by what SETUP settled.
pub(crate) fn playback_of(film: &Film, settings: &Settings, setup: &Setup) -> Playback
    requires settings { AreSettings settings.now }
    requires setup { (films : ℕ) × IsSetup films setup.now }
    ensures playback { result ≡ playback_of film.now settings.now setup.now }
    ensures ranges { IsPlayback result }
{
    Playback {
        picture_units: film.picture_time(),
        slot_units: settings.slot_units,
        buffer: setup.buffer,
        delay: setup.delay,
    }
}

impl<'a> Session<'a> {
    /// The plan that a PLAY asks with: of the run that its Range asks for, or a PLAY without one.
    pub(crate) fn plan_play(
        &self,
        setup: &Setup,
        paused: Option<Run>,
        range: Option<&[u8]>,
    ) -> Result<Planned, Refusal>
        requires setup { IsSetup (length self.now.films) setup.now }
        requires paused { IsPausedIn
            self.now.films self.now.source self.now.counts setup.now paused }
        ensures exact { IsPlanned self.now setup.now paused (option_map (λ value.
            value.now) range.entry) result }
        ensures playable { IfOk result (λ planned. OfFilm self.now.films setup.now.film (λ stored.
            IsPlayable stored self.now.source self.now.settings setup.now
            planned.counts planned.run planned.plan)) }
    {
        let stored = stored_at(self.films, setup.film);
        // The range is judged before the plan: 457 goes before the 451 of a small buffer.
        let Some(wanted) = requested_run(&stored.film, paused, range) else {
            return Err(Refusal::Range);
        };
        let (run, counts) = run_and_counts(stored, self.source, setup, self.counts, paused, wanted);
        let playback = playback_of(&stored.film, &self.settings, setup);
        // A resumed play gets a plan of its own, so it can be refused like a new one.
        let plan = plan_of(self.alloc, stored, &playback, &run)?;
        Ok(Planned { run, counts, plan })
    }
}

/// What was sent before a new run, once a paused one is given up.
fn counts_before(
    stored: &Stored,
    source: StreamSource,
    setup: &Setup,
    counts: Counts,
    paused: Option<Run>,
) -> Counts
    requires { IfSome paused (IsRunOf stored.now source setup.now counts) }
    ensures { result ≡ counts_before stored.now.film source setup.now counts paused }
{
    match paused {
        Some(run) => {
            // What was sent of the run stays sent, so numbers of frames go on behind it.
            let frames = frames_of(stored, source, setup, counts, &run);
            counts_after(counts, &frames, run.sent)
        }
        None => counts,
    }
}

/// The run that a play sends, and what was sent before it: a paused run is sent on, and a new one
/// follows on all that was sent.
fn run_and_counts(
    stored: &Stored,
    source: StreamSource,
    setup: &Setup,
    counts: Counts,
    paused: Option<Run>,
    wanted: PlayRequest,
) -> (Run, Counts)
    requires paused { IfSome paused (IsRunOf stored.now source setup.now counts) }
    requires wanted { (range : Option (List ℕ)) × IsAskedRun stored.now.film paused range wanted }
    ensures run { result.0 ≡ run_of wanted }
    ensures counts { result.1 ≡ counts_for stored.now.film source setup.now counts paused wanted }
    ensures goes_on { IsRunOf stored.now source setup.now result.1 result.0 }
{
    match wanted {
        // A paused run counts its own frames: the counts stay those at its beginning.
        PlayRequest::Resumed(run) => (run, counts),
        PlayRequest::New(run) => (run, counts_before(stored, source, setup, counts, paused)),
    }
}
