//! Whether a request can be done, and the refusal where it can't.

ghost use Rattle.std.specs.Prelude.{◌≡◌, ◌≤◌, true, List, length, IfOk, IsTrue, IfSome};
ghost use Rattle.std.specs.Prelude.{MatchOption, ◌↔◌, option_map, IfErr, Err};
ghost use Rattle.film_frames.specs.declared.stored_films.Stored.{Stored};
ghost use Rattle.session.specs.RefusalOrder.{FitsFilm, FitsSession, FitsState, HasFilm, IsJudged};
ghost use Rattle.session.specs.RefusalOrder.{IsOnFilm, IsOwnTalk, task_for};
ghost use Rattle.rtsp_methods.specs.RequiredOptions.{option_of, required_of};
ghost use Rattle.film_streams.specs.SettingRanges.{AreFilms};
ghost use Rattle.session.specs.SessionStates.{has_session_in};
ghost use Rattle.rtsp_text.specs.Lines.{is_one_line};
ghost use Rattle.session.specs.Tasks.{IsAsked, IsTask, IsValid, NeedsSession};

use crate::states::State;
use film_frames::Stored;
use film_streams::{Asked, asked_film};
use interleave::MAX_HEAD_BYTES;
use rtsp_fields::session_matches;
use rtsp_methods::{
    FilmNeed, Method, Refusal, SessionNeed, StateNeed, read_method, required_options, row_of,
};
use rtsp_text::{Request, header};

/// A request that is processed.
#[derive(Clone, Copy, Debug)]
pub enum Task<'m> {
    /// Lists the methods.
    Options,
    /// This film is described.
    Describe(Asked<'m>),
    /// The film of this number is set up.
    Setup(usize),
    /// This film is played.
    Play(Asked<'m>),
    /// The play is paused.
    Pause,
    /// The session ends.
    Teardown,
    /// Answers what the body asks for.
    GetParameter,
}

/// Judges a well formed request by the refusals that all methods share, in their order: the method
/// isn't spoken, an option is required, the session, the film, the state.
pub(crate) fn check_request<'m>(
    films: &[Stored],
    id: &[u8; 16],
    state: &State<'_>,
    request: &Request<'m>,
) -> Result<Task<'m>, Refusal>
    requires films { AreFilms films.now }
    requires url { length request.now.url.now ≤ MAX_HEAD_BYTES }
    ensures task { IfOk result (IsTask (length films.now) state.now) }
    ensures judged { IsJudged films.now id.now state.now request.now result }
{
    // 501, 551 and 454 first: one order for all methods gives each request one answer.
    let method = own_method(id, state, request)?;
    // OPTIONS may ask for `*` (RFC 2326 section 10.1), so its URL is never 404.
    if let Method::Options = method {
        return Ok(Task::Options);
    }
    let asked = own_film(films, state, method, request.url).ok_or(Refusal::Film)?;
    if !is_valid(method, state, header(request, b"Range").is_some()) {
        return Err(Refusal::State);
    }
    Ok(task_of(method, asked))
}

/// The method of a request that requires no option and whose session fits.
fn own_method(id: &[u8; 16], state: &State<'_>, request: &Request<'_>) -> Result<Method, Refusal>
    ensures talk { IfOk result (IsOwnTalk id.now state.now request.now) }
    ensures needs { IfOk result (λ method. NeedsSession method (has_session_in state.now)) }
    ensures refused { IfErr result (λ refusal. (films : List Stored) →
        IsJudged films id.now state.now request.now (Err refusal)) }
{
    let method = read_method(request.method).ok_or(Refusal::Method)?;
    if required_options(request).is_some() {
        return Err(Refusal::Option);
    }
    if !fits_session(method, state.has_session(), id, header(request, b"Session")) {
        return Err(Refusal::Session);
    }
    Ok(method)
}

/// The film that a URL names, where the method can be asked of it.
fn own_film<'m>(
    films: &[Stored],
    state: &State<'_>,
    method: Method,
    url: &'m [u8],
) -> Option<Asked<'m>>
    requires films { AreFilms films.now }
    requires short { length url.now ≤ MAX_HEAD_BYTES }
    ensures film { MatchOption result (¬ HasFilm films.now state.now url.now method)
        (λ asked. IsOnFilm films.now state.now url.now method asked.authority.now asked.film) }
    ensures asked { IfSome result (IsAsked (length films.now)) }
{
    let asked = asked_film(films, url)?;
    if is_own(method, state, asked.film) {
        Some(asked)
    } else {
        None
    }
}

/// Whether the session that a request names, or names not, goes with its method.
fn fits_session(method: Method, exists: bool, id: &[u8; 16], named: Option<&[u8]>) -> bool
    ensures fits { IsTrue result ↔
        FitsSession method exists id.now (option_map (λ value. value.now) named.entry) }
    ensures needs { IsTrue result → NeedsSession method exists }
{
    let matches = match named {
        // The id exists from the beginning, but only SETUP makes it known: before, none matches.
        Some(value) => exists && session_matches(value, id),
        None => false,
    };
    match row_of(method).session {
        SessionNeed::Ignored => true,
        SessionNeed::MayBeNamed => named.is_none() || matches,
        SessionNeed::MustBeNamed => matches,
    }
}

/// Whether a method may be asked of that film: it is the session's, or there is none, or it is to
/// be described.
fn is_own(method: Method, state: &State<'_>, film: usize) -> bool
    ensures { IsTrue result ↔ FitsFilm method state.now film }
{
    let own = match state {
        State::Init => true,
        State::Ready(setup, _) | State::Playing(setup, _) | State::Stopping(setup, _) => {
            film == setup.film
        }
    };
    match row_of(method).film {
        FilmNeed::Any => true,
        FilmNeed::Own => own,
    }
}

/// Whether a method is valid in a state.
fn is_valid(method: Method, state: &State<'_>, has_range: bool) -> bool
    ensures fits { IsTrue result ↔ FitsState method state.now has_range }
    ensures valid { IsTrue result → IsValid method state.now }
{
    match row_of(method).state {
        StateNeed::Any => true,
        StateNeed::NoSession => !state.has_session(),
        StateNeed::NoRangeWhilePlaying => !state.is_playing() || !has_range,
        StateNeed::Playing => state.is_playing(),
    }
}

/// What a request of a method asks to be done.
fn task_of(method: Method, asked: Asked<'_>) -> Task<'_>
    ensures { result ≡ task_for method asked.entry }
{
    match method {
        Method::Options => Task::Options,
        Method::Describe => Task::Describe(asked),
        Method::Setup => Task::Setup(asked.film),
        Method::Play => Task::Play(asked),
        Method::Pause => Task::Pause,
        Method::Teardown => Task::Teardown,
        Method::GetParameter => Task::GetParameter,
    }
}
