//! What each film satisfies that is served.

ghost use Rattle.std.specs.Prelude.{◌≡◌, ◌<◌, ◌≤◌, ℕ, Some, length, slice_get};
ghost use Rattle.film_frames.specs.declared.stored_films.Stored.{Stored};
ghost use Rattle.film_streams.specs.Films.{OfFilm};
ghost use Rattle.conn.specs.Plays.{IsShown};

use film_frames::Stored;
use film_run::Units;

/// Each film's units are those of a trace, and its picture's time is in its range.
pub(crate) fn law_all_films_are_traces(films: &[Stored])
    ensures { (number : ℕ) → OfFilm films.now number IsShown }
{
    for stored in films {
        law_film_is_trace(stored);
    }
}

/// A film's units are those of a trace, and a picture's time is in its range.
fn law_film_is_trace(stored: &Stored)
    ensures { IsShown stored.now }
{
    // the contracts of these two calls say it
    let _units = stored.count();
    let _time = stored.film.picture_time();
}
