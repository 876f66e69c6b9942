//! Which units a PLAY sends (RFC 2326 sections 10.5 and 12.29).

ghost use Rattle.std.specs.Prelude.{◌≡◌, ℕ, MatchOption, option_map};
ghost use Rattle.rtsp_fields.specs.declared.ranges.Span.{Span};
ghost use Rattle.film_run.specs.Seeks.{HasNothing};
ghost use Rattle.session.specs.RunRequests.{IsAskedRun, IsNoRange, IsSpanOf, IsRequestFor};
ghost use Rattle.session.specs.RunRequests.{RequestsNewRun, RequestsNothing};

use film_run::{Run, run_between};
use mpeg_scan::Film;
use rtsp_fields::{Origin, Span, read_range};

/// The run that a PLAY asks for.
#[derive(Clone, Copy, Debug)]
pub enum PlayRequest {
    /// The paused one, on from where it was paused.
    Resumed(Run),
    /// A new one.
    New(Run),
}

/// The run that a Range asks for, or a PLAY without one. None where the Range has no meaning for
/// the film.
pub(crate) fn requested_run(
    film: &Film,
    paused: Option<Run>,
    range: Option<&[u8]>,
) -> Option<PlayRequest>
    ensures { MatchOption result
        (IsNoRange film.now paused (option_map (λ value. value.now) range.entry))
        (IsAskedRun film.now paused (option_map (λ value. value.now) range.entry)) }
{
    let span = span_of(range)?;
    run_in(film, paused, span)
}

/// The span of play that a Range gives; from now on, where there is none.
fn span_of(range: Option<&[u8]>) -> Option<Span>
    ensures { MatchOption result
        ((span : Span) → ¬ IsSpanOf (option_map (λ value. value.now) range.entry) span)
        (IsSpanOf (option_map (λ value. value.now) range.entry)) }
{
    match range {
        Some(value) => read_range(value),
        // RFC 2326 section 10.5: without a Range, on from a pause or from the beginning.
        None => Some(Span {
            from: Origin::Now,
            to: None,
        }),
    }
}

/// A new run between two times in nanoseconds.
fn new_run(film: &Film, from: u128, to: Option<u128>) -> Option<PlayRequest>
    ensures { MatchOption result (HasNothing film.now from to) (λ wanted.
        RequestsNewRun film.now from to wanted) }
{
    Some(PlayRequest::New(run_between(film, from, to)?))
}

/// The run that a span asks for: the paused run from now on, else a new one.
fn run_in(film: &Film, paused: Option<Run>, span: Span) -> Option<PlayRequest>
    ensures { MatchOption result (RequestsNothing film.now paused span.from span.to)
        (IsRequestFor film.now paused span.from span.to) }
{
    match span.from {
        Origin::At(from) => new_run(film, from, span.to),
        Origin::Now => match paused {
            // The paused run has its end; an end that the Range names isn't used.
            Some(run) => Some(PlayRequest::Resumed(run)),
            None => new_run(film, 0, span.to),
        },
    }
}
