//! The films of the tests.

ghost use Rattle.std.specs.Prelude.{◌≡◌, [], ◌∷◌, IfOk, string_bytes, true};
ghost use Rattle.film_streams.specs.SettingRanges.{AreFilms};

use crate::script_text::bytes_of;
use film_frames::Stored;
use film_make::make_film;
use mpeg_scan::scan;
use std::alloc::Global;
use std::process::Abort;
use vod_base::{NoMemory, good_name};

/// Two pictures: a sequence header, a group header, an I picture of one slice, and a P picture of
/// one slice. On the wire they have a report of 52 bytes, and frames of 54 and 35.
const FILM_B: &str = "000001b316012013ffffe0a0 000001b800080040 00000100000ffff8 000001011234 \
                      000001000057fff880 000001011234";

/// A film under a name. One that is refused is answered as out of memory is, each time.
fn stored(alloc: Global, name: &str, bytes: Vec<u8>) -> Result<Stored, NoMemory> {
    let Ok(film) = scan(alloc, bytes) else {
        return Err(NoMemory);
    };
    Stored::new(alloc, String::from_str(alloc, name)?, film)
}

/// Stops the test, unless this is the one film of a server.
#[tactic(auto, using(crate::proofs::ServerFilmLemmas::one_film))]
fn expect_one(rt: &impl Abort, films: &[Stored])
    ensures { AreFilms films.now }
{
    let [film] = films else {
        panic!(rt; "another number of films");
    };
    assert!(rt; good_name(film.name.as_bytes()));
}

/// Stops the test, unless these are the two films of a server.
#[tactic(auto, using(crate::proofs::ServerFilmLemmas::two_films))]
fn expect_two(rt: &impl Abort, short: &Stored, long: &Stored)
    ensures { AreFilms (short.now ∷ long.now ∷ []) }
{
    assert!(rt; good_name(short.name.as_bytes()));
    assert!(rt; good_name(long.name.as_bytes()));
    assert!(rt; short.name.len() < long.name.len());
}

/// The server's films: `b.mpg` of two pictures, and `news.mpg` of 250, 10 seconds.
pub(crate) fn server_films(rt: &impl Abort, alloc: Global) -> Result<Vec<Stored>, NoMemory>
    ensures { IfOk result (λ films. AreFilms films.items) }
{
    let short = stored(alloc, "b.mpg", bytes_of(rt, alloc, FILM_B)?)?;
    let long = stored(alloc, "news.mpg", make_film(alloc, 1, 250)?)?;
    expect_two(rt, &short, &long);
    let mut films = Vec::new(alloc);
    films.push(short)?;
    films.push(long)?;
    Ok(films)
}

/// A server's film of so many pictures, 1 to 100,000: `film.mpg`.
pub(crate) fn film_of<R: Abort>(
    rt: &R,
    alloc: Global,
    pictures: u32,
) -> Result<Vec<Stored>, NoMemory>
    ensures { IfOk result (λ films. AreFilms films.items) }
{
    assert!(rt; 1 <= pictures && pictures <= 100_000);
    let mut films = Vec::new(alloc);
    films.push(stored(alloc, "film.mpg", make_film(alloc, 1, pictures)?)?)?;
    expect_one(rt, &films);
    Ok(films)
}
