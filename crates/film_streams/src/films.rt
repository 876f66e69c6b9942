//! The films of a server: which one a URL names, and its times.

ghost use Rattle.std.specs.Prelude.{◌≡◌, ◌<◌, ◌≤◌, ℕ, true, List, length, IfSome, MatchOption};
ghost use Rattle.film_streams.specs.Films.{IsFilmNamed, Names, length_ms, milliseconds_at};
ghost use Rattle.film_streams.specs.SettingRanges.{AreFilms};
ghost use Rattle.rtsp_text.specs.Lines.{is_one_line};

use film_frames::Stored;
use mpeg_scan::laws::law_film_is_well_formed;
use mpeg_scan::{Film, MAX_FILM_PICTURES};
use rtsp_fields::read_url;

/// The film that a request names, and how its URL names it.
#[derive(Clone, Copy, Debug)]
pub struct Asked<'m> {
    /// The number of the film.
    pub film: usize,
    /// The authority of the URL.
    pub authority: &'m [u8],
}

/// Returns the film that a URL names (RFC 2326 section 3.2), or None where it names none of these.
pub fn asked_film<'m>(films: &[Stored], url: &'m [u8]) -> Option<Asked<'m>>
    requires { AreFilms films.now }
    ensures asked { MatchOption result ((authority : List ℕ) (film : ℕ) →
        ¬ Names films.now url.now authority film)
        (λ asked. Names films.now url.now asked.authority.now asked.film) }
    ensures one { IfSome result (λ asked. (authority : List ℕ) (film : ℕ) →
        Names films.now url.now authority film → film ≡ asked.film) }
    ensures within { IfSome result (λ asked. asked.film < length films.now) }
    ensures authority { IfSome result (λ asked. length asked.authority.now ≤ length url.now) }
    ensures authority_line { IfSome result (λ asked. is_one_line asked.authority.now ≡ true) }
{
    let read = read_url(url)?;
    let name = read.name?;
    let film = find(films, name)?;
    Some(Asked {
        film,
        authority: read.authority,
    })
}

/// The number of the film of that name.
fn find(films: &[Stored], name: &[u8]) -> Option<usize>
    ensures found { MatchOption result ((film : ℕ) →
        ¬ IsFilmNamed films.now name.now film) (IsFilmNamed films.now name.now) }
    ensures within { IfSome result (λ film. film < length films.now) }
{
    for (number, film) in films.iter().enumerate() {
        if film.name.as_bytes() == name {
            return Some(number);
        }
    }
    None
}

/// Returns the time at which a unit begins, in milliseconds, rounded down.
pub fn milliseconds_at(film: &Film, unit: usize) -> u64
    requires { unit ≤ MAX_FILM_PICTURES }
    ensures { result ≡ milliseconds_at film.now unit }
{
    // A picture's time counts in 1/360,000 s: 360 of them are a millisecond.
    unit as u64 * u64::from(film.picture_time()) / 360
}

/// Returns how long a film is, in milliseconds, rounded down.
pub fn length_ms(film: &Film) -> u64
    ensures { result ≡ length_ms film.now }
{
    law_film_is_well_formed(film);
    milliseconds_at(film, film.units.len())
}
